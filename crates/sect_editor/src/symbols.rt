//! What is listed of a text: what it declares, and its sections.

ghost use Rattle.std.specs.Prelude.{◌≡◌, ◌<◌, ◌++◌, List, Some, IfOk, IfSome, OnOk, length, map, option_map};
ghost use Rattle.std.specs.{List.{flat_map}, String.{string_bytes}};
ghost use Rattle.serde_json.specs.{Data.{Data}, View.{view}};
ghost use Rattle.sect_front.specs.{Front.{IsSpelled}, FaultPlaces.{IsWithin}};
ghost use Rattle.sect_types.specs.Sections.{sections_of};
ghost use Rattle.sect_emit.specs.{Compiled.{program_of}, Explaining.{section_at}, Labels.{thread_name}};
ghost use Rattle.sect_editor.specs.{Asking.{IsJudged}, Marks.{section_numbers}};
ghost use Rattle.sect_editor.specs.Symbols.{symbol_kind as symbol_kind_by, symbol_json, symbol_by, symbols_of};
ghost use Rattle.sect_editor.specs.Symbols.{section_with, section_symbols, AreSectionSymbols, AreSymbols};
ghost use Rattle.sect_editor.specs.steps.{Marking.{IsMarked}, Naming.{AreNamesWithin}};

use crate::marks::{Marked, head_of};
use crate::query::names_of;
use crate::ranges::range_value;
use crate::text::OpenText;
use sect_emit::{Compiled, put_thread_name};
use sect_front::Span;
use sect_object::Members;
use sect_places::{NameSpan, Role, Thing, node_spans};
use serde_json::Value;
use std::alloc::{AllocError, Global};

/// How the protocol calls what is listed.
fn symbol_kind(role: Role) -> Option<u32>
    ensures { result ≡ symbol_kind_by role }
{
    match role {
        Role::Declared(Thing::Record) => Some(23),
        Role::Declared(Thing::Global) => Some(13),
        Role::Declared(Thing::Procedure) => Some(12),
        Role::Declared(Thing::Thread) => Some(2),
        _ => None,
    }
}

/// A name that is listed as what the protocol calls so.
fn symbol_value(
    alloc: Global,
    source: &[u8],
    named: &NameSpan,
    kind: u32,
) -> Result<Value, AllocError>
    requires { IsWithin (length source.now) named.now.span }
    ensures { IfOk result (λ v. view v ≡ symbol_json source.now named.now kind) }
{
    let name = format!(in alloc; "{}", named.used.name)?;
    let members = Members::new(alloc)
        .with("kind", kind)?
        .with("name", name)?
        .with_made("range", range_value(alloc, source, named.span))?
        .with_made("selectionRange", range_value(alloc, source, named.span))?;
    Ok(members.object())
}

/// Adds a name to what is listed, if it is.
fn put_symbol(
    alloc: Global,
    values: &mut Vec<Value>,
    source: &[u8],
    named: &NameSpan,
) -> Result<(), AllocError>
    requires { IsWithin (length source.now) named.now.span }
    ensures { OnOk result (map view values.new.items ≡ map view values.old.items
        ++ symbol_by source.now named.now (symbol_kind_by named.now.used.role)) }
{
    match symbol_kind(named.used.role) {
        Some(kind) => {
            let value = symbol_value(alloc, source, named, kind)?;
            values.push(value)?;
            Ok(())
        }
        None => Ok(()),
    }
}

/// Adds what a text declares.
fn put_declared(
    alloc: Global,
    values: &mut Vec<Value>,
    source: &[u8],
    names: &[NameSpan],
) -> Result<(), AllocError>
    requires { AreNamesWithin (length source.now) names.now }
    ensures { OnOk result (map view values.new.items
        ≡ map view values.old.items ++ symbols_of source.now names.now) }
{
    for named in names {
        put_symbol(alloc, values, source, named)?;
    }
    Ok(())
}

/// A section that stands at these bytes.
fn section_value(
    alloc: Global,
    source: &[u8],
    head: Span,
    thread: String,
    name: String,
) -> Result<Value, AllocError>
    requires { IsWithin (length source.now) head }
    ensures { IfOk result (λ v. view v
        ≡ section_with source.now head (string_bytes thread) (string_bytes name)) }
{
    let members = Members::new(alloc)
        .with("detail", thread)?
        .with("kind", 24)?
        .with("name", name)?
        .with_made("range", range_value(alloc, source, head))?
        .with_made("selectionRange", range_value(alloc, source, head))?;
    Ok(members.object())
}

/// The name of the thread of a section.
fn owner_of(alloc: Global, compiled: &Compiled, section: u16) -> Result<String, AllocError>
    requires { section < length (sections_of (program_of compiled.now).texts) }
    ensures { IfOk result (λ name. string_bytes name
        ≡ thread_name (program_of compiled.now).source (section_at compiled.now section).thread) }
{
    let program = compiled.scheme().program();
    let thread = program.section(section).thread;
    let mut name = String::new(alloc);
    put_thread_name(&mut name, program, thread)?;
    Ok(name)
}

/// Adds a section.
fn put_section(
    alloc: Global,
    values: &mut Vec<Value>,
    marked: &Marked<'_>,
    section: u16,
) -> Result<(), AllocError>
    requires marked { IsMarked marked.now }
    requires section { section < length (sections_of (program_of marked.now.compiled.now).texts) }
    ensures { OnOk result (map view values.new.items ≡ map view values.old.items
        ++ section_symbols marked.now.compiled.now marked.now.source.now marked.now.spans.now section) }
{
    let owner = owner_of(alloc, marked.compiled, section)?;
    let name = format!(in alloc; "section {section}")?;
    let head = head_of(marked, section);
    values.push(section_value(alloc, marked.source, head, owner, name)?)?;
    Ok(())
}

/// Adds the sections of a program.
fn put_marked_sections(
    alloc: Global,
    values: &mut Vec<Value>,
    marked: &Marked<'_>,
) -> Result<(), AllocError>
    requires { IsMarked marked.now }
    ensures { OnOk result (map view values.new.items ≡ map view values.old.items
        ++ flat_map (section_symbols marked.now.compiled.now marked.now.source.now marked.now.spans.now)
        (section_numbers marked.now.compiled.now)) }
{
    for section in 0..marked.compiled.scheme().program().section_count() {
        put_section(alloc, values, marked, section)?;
    }
    Ok(())
}

/// Adds the sections of the program of a text.
fn put_sections(
    alloc: Global,
    values: &mut Vec<Value>,
    source: &[u8],
    compiled: &Compiled,
) -> Result<(), AllocError>
    requires { IsSpelled source.now (program_of compiled.now).source }
    ensures { OnOk result ((sections : List Data) × AreSectionSymbols source.now (Some compiled.now) sections
        × (map view values.new.items ≡ map view values.old.items ++ sections)) }
{
    let spans = node_spans(alloc, source, compiled.scheme().program())?;
    let marked = Marked {
        source,
        compiled,
        spans: &spans,
    };
    put_marked_sections(alloc, values, &marked)
}

/// Adds the sections of a text, if it has a compiled program.
fn put_found(
    alloc: Global,
    values: &mut Vec<Value>,
    source: &[u8],
    found: Option<&Compiled>,
) -> Result<(), AllocError>
    requires { IfSome found (λ c. IsSpelled source.now (program_of c.now).source) }
    ensures { OnOk result ((sections : List Data)
        × AreSectionSymbols source.now (option_map (λ c. c.now) found.entry) sections
        × (map view values.new.items ≡ map view values.old.items ++ sections)) }
{
    match found {
        Some(compiled) => put_sections(alloc, values, source, compiled),
        None => Ok(()),
    }
}

/// What a text declares, and then its sections, if it is accepted.
pub fn symbols_value(alloc: Global, text: OpenText<'_>) -> Result<Value, AllocError>
    requires { IsJudged text }
    ensures { IfOk result (λ v. AreSymbols text.entry.source.now text.entry.reading.k (view v)) }
{
    let names = names_of(alloc, text.source)?;
    let mut values = Vec::new(alloc);
    put_declared(alloc, &mut values, text.source, names.as_slice())?;
    put_found(alloc, &mut values, text.source, text.compiled)?;
    Ok(Value::Array(values))
}
