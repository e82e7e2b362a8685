//! What is told at the sections of a text: behind each `atomic` its locks, and above it which sections it excludes.

ghost use Rattle.std.specs.{Prelude.{◌≡◌, ◌<◌, ◌-◌, ◌++◌, IfOk, OnOk, length, map, codes}, Fmt.{decimal}};
ghost use Rattle.std.specs.{List.{flat_map}, String.{string_bytes}};
ghost use Rattle.serde_json.specs.View.{view};
ghost use Rattle.sect_front.specs.{Front.{IsSpelled, line_of}, FaultPlaces.{IsWithin}};
ghost use Rattle.sect_types.specs.Sections.{sections_of};
ghost use Rattle.sect_emit.specs.Compiled.{program_of};
ghost use Rattle.sect_conflicts.specs.Conflicts.{set_at};
ghost use Rattle.sect_editor.specs.Ranges.{list};
ghost use Rattle.sect_editor.specs.Marks.{head_at, set_text as set_text_by, hint_json, is_hinted as is_hinted_by};
ghost use Rattle.sect_editor.specs.Marks.{hints_at, AreHints, lock_count, excluded_text, excludes as excludes_by};
ghost use Rattle.sect_editor.specs.Marks.{partner as partner_by, excluded_in, excluded_by, lens_title as lens_title_by};
ghost use Rattle.sect_editor.specs.Marks.{lens_json, lenses_at, AreLenses, section_numbers};
ghost use Rattle.sect_editor.specs.steps.Marking.{IsMarked};

use crate::position::Range;
use crate::ranges::{place_value, range_value};
use sect_conflicts::{Conflict, SectionPair, conflicts};
use sect_emit::Compiled;
use sect_front::Span;
use sect_names::put_locks;
use sect_object::Members;
use sect_places::{NodeSpans, node_spans, position_of};
use serde_json::Value;
use std::alloc::{AllocError, Global};
use std::fmt::Write;

/// A compiled program, its text, and where its nodes come from.
#[derive(Clone, Copy)]
pub struct Marked<'a> {
    pub source: &'a [u8],
    pub compiled: &'a Compiled,
    pub spans: &'a NodeSpans,
}

/// The bytes of the `atomic` of a section.
pub fn head_of(marked: &Marked<'_>, section: u16) -> Span
    requires marked { IsMarked marked.now }
    requires section { section < length (sections_of (program_of marked.now.compiled.now).texts) }
    ensures head { result ≡ head_at marked.now.spans.now section }
    ensures within { IsWithin (length marked.now.source.now) result }
{
    marked.spans.head(section)
}

/// The lock set of a section, as `locks` prints it.
pub fn put_set(text: &mut String, compiled: &Compiled, section: u16) -> Result<(), AllocError>
    requires { section < length (sections_of (program_of compiled.now).texts) }
    ensures { OnOk result (string_bytes text.new ≡ string_bytes text.old ++ set_text_by compiled.now section) }
{
    compiled.facts();
    put_locks(text, compiled.scheme().program(), compiled.set(section))
}

/// A text behind an `atomic`.
fn hint_value(alloc: Global, source: &[u8], head: Span, text: String) -> Result<Value, AllocError>
    requires { IsWithin (length source.now) head }
    ensures { IfOk result (λ v. view v ≡ hint_json source.now head (string_bytes text)) }
{
    let members = Members::new(alloc)
        .with("label", text)?
        .with("paddingLeft", true)?
        .with_made("position", place_value(alloc, source, head.end))?;
    Ok(members.object())
}

/// Whether a line is one of a range.
fn is_hinted(range: Option<Range>, line: usize) -> bool
    ensures { result ≡ is_hinted_by range line }
{
    match range {
        None => true,
        Some(range) => range.start.line <= line as u64 && line as u64 <= range.end.line,
    }
}

/// Whether the `atomic` at these bytes has a hint.
fn has_hint(source: &[u8], range: Option<Range>, head: Span) -> bool
    requires { IsWithin (length source.now) head }
    ensures { result ≡ is_hinted_by range (line_of source.now head.end - 1) }
{
    is_hinted(range, position_of(source, head.end).line - 1)
}

/// Adds the hint of a section, if its line is one of those.
fn put_hint(
    alloc: Global,
    values: &mut Vec<Value>,
    marked: &Marked<'_>,
    range: Option<Range>,
    section: u16,
) -> Result<(), AllocError>
    requires marked { IsMarked marked.now }
    requires section { section < length (sections_of (program_of marked.now.compiled.now).texts) }
    ensures { OnOk result (map view values.new.items ≡ map view values.old.items
        ++ hints_at marked.now.compiled.now marked.now.source.now marked.now.spans.now range section) }
{
    let head = head_of(marked, section);
    if has_hint(marked.source, range, head) {
        let mut text = String::new(alloc);
        put_set(&mut text, marked.compiled, section)?;
        values.push(hint_value(alloc, marked.source, head, text)?)?;
    }
    Ok(())
}

/// The hints of all sections in some lines.
fn hint_values(
    alloc: Global,
    marked: &Marked<'_>,
    range: Option<Range>,
) -> Result<Value, AllocError>
    requires { IsMarked marked.now }
    ensures { IfOk result (λ v. view v ≡ list (flat_map
        (hints_at marked.now.compiled.now marked.now.source.now marked.now.spans.now range)
        (section_numbers marked.now.compiled.now))) }
{
    let mut values = Vec::new(alloc);
    for section in 0..marked.compiled.scheme().program().section_count() {
        put_hint(alloc, &mut values, marked, range, section)?;
    }
    Ok(Value::Array(values))
}

/// Behind each `atomic` in some lines of a text its locks.
pub fn hints_value(
    alloc: Global,
    source: &[u8],
    compiled: &Compiled,
    range: Option<Range>,
) -> Result<Value, AllocError>
    requires { IsSpelled source.now (program_of compiled.now).source }
    ensures { IfOk result (λ v. AreHints source.now range compiled.now (view v)) }
{
    let spans = node_spans(alloc, source, compiled.scheme().program())?;
    let marked = Marked {
        source,
        compiled,
        spans: &spans,
    };
    hint_values(alloc, &marked, range)
}

/// Adds how many locks there are.
fn put_lock_count(text: &mut String, count: usize) -> Result<(), AllocError>
    ensures { OnOk result (string_bytes text.new ≡ string_bytes text.old ++ lock_count count) }
{
    match count {
        0 => text.push_str("no lock"),
        1 => text.push_str("1 lock"),
        _ => Ok(write!(text, "{count} locks")?),
    }
}

/// Adds numbers behind a comma each.
pub fn put_others(text: &mut String, others: &[u16]) -> Result<(), AllocError>
    ensures { OnOk result (string_bytes text.new
        ≡ string_bytes text.old ++ flat_map (λ n. codes ", " ++ decimal n) others.now) }
{
    for other in others {
        write!(text, ", {}", *other)?;
    }
    Ok(())
}

/// Adds which sections are excluded.
fn put_excluded(text: &mut String, sections: &[u16]) -> Result<(), AllocError>
    ensures { OnOk result (string_bytes text.new ≡ string_bytes text.old ++ excluded_text sections.now) }
{
    match sections {
        [] => text.push_str("excludes no section"),
        [only] => Ok(write!(text, "excludes section {}", *only)?),
        [first, others @ ..] => {
            write!(text, "excludes sections {}", *first)?;
            put_others(text, others)
        }
    }
}

/// Whether sections exclude each other in every state, or in some.
fn excludes(conflict: &Conflict) -> bool
    ensures { result ≡ excludes_by conflict.now }
{
    match conflict {
        Conflict::Always(_) | Conflict::Sometimes(_) => true,
        Conflict::Never => false,
    }
}

/// The other one of two sections.
fn partner(section: u16, pair: &SectionPair) -> Option<u16>
    ensures { result ≡ partner_by section pair.now }
{
    if pair.first == section {
        Some(pair.second)
    } else if pair.second == section {
        Some(pair.first)
    } else {
        None
    }
}

/// Adds the other one of two sections, if they exclude each other.
fn add_excluded(found: &mut Vec<u16>, section: u16, pair: &SectionPair) -> Result<(), AllocError>
    ensures { OnOk result (found.new.items ≡ found.old.items ++ excluded_in pair.now (partner_by section pair.now)) }
{
    if let Some(other) = partner(section, pair) {
        if excludes(&pair.conflict) {
            found.push(other)?;
        }
    }
    Ok(())
}

/// The sections that a section excludes.
fn excluded(alloc: Global, pairs: &[SectionPair], section: u16) -> Result<Vec<u16>, AllocError>
    ensures { IfOk result (λ found. found.items ≡ excluded_by pairs.now section) }
{
    let mut found = Vec::new(alloc);
    for pair in pairs {
        add_excluded(&mut found, section, pair)?;
    }
    Ok(found)
}

/// How many locks a section takes.
fn set_length(compiled: &Compiled, section: u16) -> usize
    requires { section < length (sections_of (program_of compiled.now).texts) }
    ensures { result ≡ length (set_at compiled.now section) }
{
    compiled.facts();
    compiled.set(section).len()
}

/// How many locks a section takes, and which sections it excludes.
fn lens_title(
    alloc: Global,
    compiled: &Compiled,
    pairs: &[SectionPair],
    section: u16,
) -> Result<String, AllocError>
    requires { section < length (sections_of (program_of compiled.now).texts) }
    ensures { IfOk result (λ text. string_bytes text ≡ lens_title_by compiled.now pairs.now section) }
{
    let mut text = String::new(alloc);
    put_lock_count(&mut text, set_length(compiled, section))?;
    text.push_str(" · ")?;
    put_excluded(&mut text, excluded(alloc, pairs, section)?.as_slice())?;
    Ok(text)
}

/// A text above an `atomic`.
fn lens_value(alloc: Global, source: &[u8], head: Span, title: String) -> Result<Value, AllocError>
    requires { IsWithin (length source.now) head }
    ensures { IfOk result (λ v. view v ≡ lens_json source.now head (string_bytes title)) }
{
    let command = Members::new(alloc)
        .with("command", "")?
        .with("title", title)?;
    let members = Members::new(alloc)
        .with("command", command.object())?
        .with_made("range", range_value(alloc, source, head))?;
    Ok(members.object())
}

/// The lens of a section.
fn section_lens(
    alloc: Global,
    marked: &Marked<'_>,
    pairs: &[SectionPair],
    section: u16,
) -> Result<Value, AllocError>
    requires marked { IsMarked marked.now }
    requires section { section < length (sections_of (program_of marked.now.compiled.now).texts) }
    ensures { IfOk result (λ v. view v ≡ lens_json marked.now.source.now (head_at marked.now.spans.now section)
        (lens_title_by marked.now.compiled.now pairs.now section)) }
{
    let title = lens_title(alloc, marked.compiled, pairs, section)?;
    lens_value(alloc, marked.source, head_of(marked, section), title)
}

/// The lenses of all sections.
fn lens_values(
    alloc: Global,
    marked: &Marked<'_>,
    pairs: &[SectionPair],
) -> Result<Value, AllocError>
    requires { IsMarked marked.now }
    ensures { IfOk result (λ v. view v ≡ list (flat_map
        (lenses_at marked.now.compiled.now marked.now.source.now marked.now.spans.now pairs.now)
        (section_numbers marked.now.compiled.now))) }
{
    let mut values = Vec::new(alloc);
    for section in 0..marked.compiled.scheme().program().section_count() {
        values.push(section_lens(alloc, marked, pairs, section)?)?;
    }
    Ok(Value::Array(values))
}

/// Above each `atomic` of a text how many locks it takes, and which sections it excludes.
pub fn lenses_value(alloc: Global, source: &[u8], compiled: &Compiled) -> Result<Value, AllocError>
    requires { IsSpelled source.now (program_of compiled.now).source }
    ensures { IfOk result (λ v. AreLenses source.now compiled.now (view v)) }
{
    let spans = node_spans(alloc, source, compiled.scheme().program())?;
    let pairs = conflicts(alloc, compiled)?;
    let marked = Marked {
        source,
        compiled,
        spans: &spans,
    };
    lens_values(alloc, &marked, pairs.as_slice())
}
