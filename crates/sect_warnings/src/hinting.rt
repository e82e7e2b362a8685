//! Hints that would spare a section a lock on a whole class.

ghost use Rattle.std.specs.Prelude.{◌≡◌, ◌<◌, ◌≤◌, ◌++◌, Some, IfOk, IfSome, OnOk, length, position, slice_get};
ghost use Rattle.std.specs.String.{string_bytes};
ghost use Rattle.sect_places.specs.NameSpans.{AreNameSpans};
ghost use Rattle.sect_types.specs.Sections.{sections_of};
ghost use Rattle.sect_graph.specs.Layout.{flow_nodes};
ghost use Rattle.sect_names.specs.Printing.{global_name};
ghost use Rattle.sect_emit.specs.Explaining.{section_at};
ghost use Rattle.sect_warnings.specs.Hinting.{touched as touched_by, touched_at as touched_at_by};
ghost use Rattle.sect_warnings.specs.Hinting.{may_guard as may_guard_by, guard_for as guard_for_by, declared_by};
ghost use Rattle.sect_warnings.specs.Hinting.{hinted as hinted_by, hint_words};
ghost use Rattle.sect_warnings.specs.steps.{Hinted.{IsHinted}, Trials.{IsAdded, IsTried}};

use crate::outcome::put_outcome;
use crate::remedy::{Accepted, ClassWarning};
use sect_emit::{Compiled, compile, section_flow};
use sect_front::{Name, Tree};
use sect_names::{Path, Scheme, SourceRefusal, put_path};
use sect_places::{NameSpan, record_of};
use sect_points::Variable;
use sect_types::{Action, Label, Program};
use std::alloc::{AllocError, Global};
use std::fmt::Write;

/// The record of the object that a node loads from or stores to.
fn touched(label: Label) -> Option<u16>
    ensures { result ≡ touched_by label }
{
    match label {
        Label::Act(Action::Load(_, _, field)) | Label::Act(Action::Store(_, field, _)) => {
            Some(field.of)
        }
        _ => None,
    }
}

/// The same of a node of a section.
pub fn touched_at(compiled: &Compiled, section: u16, node: u32) -> Option<u16>
    requires section { section < length (sections_of compiled.now.scheme.program.texts) }
    requires node { node < length (flow_nodes (section_at compiled.now section).body) }
    ensures { result ≡ touched_at_by compiled.now section node }
{
    let flow = section_flow(compiled, section);
    let _facts = flow.exit();
    touched(flow.action(node as u16))
}

/// Whether an object of a record may guard those of another: it is another indeed, and nothing guards its objects.
fn may_guard(scheme: &Scheme, guarded: usize, own: u16) -> bool
    ensures { result ≡ may_guard_by scheme.now guarded own }
{
    own as usize != guarded && scheme.guards().guard(own).is_none()
}

/// The first global whose object may guard those of a record.
fn guard_for(scheme: &Scheme, guarded: usize) -> Option<usize>
    ensures is { result ≡ guard_for_by scheme.now guarded }
    ensures within { IfSome result (λ g. g < length scheme.now.program.globals) }
{
    scheme
        .program()
        .globals()
        .iter()
        .position(|own| may_guard(scheme, guarded, *own))
}

/// What a global is called.
fn name_of(alloc: Global, program: &Program, global: u16) -> Result<String, AllocError>
    requires { global < length program.now.globals }
    ensures { IfOk result (λ text. string_bytes text ≡ global_name program.now.source global) }
{
    let mut text = String::new(alloc);
    put_path(
        &mut text,
        program,
        &Path::new(alloc, Variable::Global(global)),
    )?;
    Ok(text)
}

/// Which of these names declares a record.
fn declared(names: &[NameSpan], tree: &Tree, guarded: usize) -> Option<usize>
    ensures is { result ≡ declared_by names.now (slice_get tree.now.records guarded) }
    ensures within { IfSome result (λ k. k < length names.now) }
{
    match tree.records().get(guarded) {
        Some(declared) => record_of(names, &declared.name),
        None => None,
    }
}

/// The text with a hint behind the name of a record.
fn hinted(
    alloc: Global,
    source: &[u8],
    named: &NameSpan,
    guard: &str,
) -> Result<Vec<u8>, AllocError>
    requires { named.now.span.end ≤ length source.now }
    ensures { IfOk result (λ text. text.items ≡ hinted_by source.now named.now guard.now) }
{
    let mut text = Vec::new(alloc);
    text.extend_from_slice(&source[..named.span.end])?;
    text.extend_from_slice(b" protected_by ")?;
    text.extend_from_slice(guard.as_bytes())?;
    text.extend_from_slice(&source[named.span.end..])?;
    Ok(text)
}

/// The compiled program of a text, or nothing where it is refused.
fn tried(alloc: Global, source: &[u8], k: u16) -> Result<Option<Compiled>, AllocError>
    ensures { IfOk result (IsHinted source.now k) }
{
    match compile(alloc, source, k) {
        Ok(compiled) => Ok(Some(compiled)),
        Err(SourceRefusal::Memory) => Err(AllocError),
        Err(_) => Ok(None),
    }
}

/// A record's hint that was tried in a text, and the program of the text that has it.
#[derive(Drop)]
pub struct TriedHint {
    pub name: Name,
    pub guard: String,
    pub compiled: Compiled,
}

/// Adds which hint is tried.
fn put_words(text: &mut String, name: &Name, guard: &str) -> Result<(), AllocError>
    ensures { OnOk result (string_bytes text.new ≡ string_bytes text.old ++ hint_words name.now guard.now) }
{
    text.push_str("; `record ")?;
    write!(text, "{name}")?;
    text.push_str(" protected_by ")?;
    text.push_str(guard)?;
    text.push_str("`")?;
    Ok(())
}

impl TriedHint {
    /// Which hint was tried, and what it comes to for a section with a class lock.
    pub fn said(&self, alloc: Global, of: ClassWarning) -> Result<String, AllocError>
        ensures { IfOk result (λ text. IsAdded self.now.compiled
            (hint_words self.now.name (string_bytes self.now.guard)) (Some of) (string_bytes text)) }
    {
        let mut text = String::new(alloc);
        put_words(&mut text, &self.name, self.guard.as_str())?;
        put_outcome(&mut text, &self.compiled, of.section, of.lock)?;
        Ok(text)
    }
}

/// Tries the hint of a record, if it may have one; nothing where it may not, or the text with the hint is refused.
pub fn tried_hint(
    alloc: Global,
    accepted: Accepted<'_>,
    guarded: usize,
) -> Result<Option<TriedHint>, AllocError>
    requires { AreNameSpans accepted.source.now accepted.compiled.now.scheme.program.source accepted.names.now }
    ensures { IfOk result (IsTried accepted.entry.source.now accepted.entry.names.now accepted.entry.compiled.now
        guarded) }
{
    let scheme = accepted.compiled.scheme();
    let program = scheme.program();
    program.facts();
    let Some(number) = declared(accepted.names, program.tree(), guarded) else {
        return Ok(None);
    };
    let Some(global) = guard_for(scheme, guarded) else {
        return Ok(None);
    };
    let named = &accepted.names[number];
    let guard = name_of(alloc, program, global as u16)?;
    let text = hinted(alloc, accepted.source, named, guard.as_str())?;
    let Some(compiled) = tried(alloc, text.as_slice(), scheme.k())? else {
        return Ok(None);
    };
    Ok(Some(TriedHint {
        name: named.used.name,
        guard,
        compiled,
    }))
}
