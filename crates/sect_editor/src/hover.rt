//! What is told of the place under the pointer.

ghost use Rattle.std.specs.{Prelude.{◌≡◌, ◌<◌, ◌++◌, Some, IfOk, OnOk, IfSome, length}, Option.{option_copied}};
ghost use Rattle.std.specs.String.{string_bytes};
ghost use Rattle.serde_json.specs.View.{view};
ghost use Rattle.sect_front.specs.Front.{IsSpelled};
ghost use Rattle.sect_types.specs.Sections.{sections_of};
ghost use Rattle.sect_emit.specs.Compiled.{program_of};
ghost use Rattle.sect_editor.specs.Hovering.{touches_span as touches_by, IsFirst, is_head_under, IsSectionTold};
ghost use Rattle.sect_editor.specs.Hovering.{is_statement_under, is_node_under, node_count, IsNodeTold, AreNodesTold};
ghost use Rattle.sect_editor.specs.Hovering.{node_head, node_lines as node_lines_by, AreAllNodesTold, section_count};
ghost use Rattle.sect_editor.specs.Hovering.{hover_json, IsHover, IsHoverIf};
ghost use Rattle.sect_names.specs.Printing.{AreNamed};
ghost use Rattle.sect_editor.specs.steps.Pointing.{IsPointed};

use crate::marks::put_set;
use crate::objects::name_text;
use crate::referring::declared_under;
use sect_emit::{Compiled, put_explained_section, put_section_node, section_flow, section_locks};
use sect_front::Span;
use sect_names::{Lock, put_locks};
use sect_places::{NodeSpan, NodeSpans, node_lines, node_spans, tree_names};
use serde_json::{Value, json};
use std::alloc::{AllocError, Global};
use std::fmt::Write;

/// A place of a text, its compiled program, and where its nodes come from.
#[derive(Clone, Copy)]
struct Pointed<'a> {
    at: usize,
    compiled: &'a Compiled,
    spans: &'a NodeSpans,
}

/// Whether a place stands at some bytes, or right behind them.
fn touches_span(at: usize, span: Span) -> bool
    ensures { result ≡ touches_by at span }
{
    span.start <= at && at <= span.end
}

/// The section whose `atomic` stands at a place.
fn section_under(pointed: &Pointed<'_>) -> Option<u16>
    requires { IsPointed pointed.now }
    ensures { IsFirst (is_head_under pointed.now.spans.now pointed.now.at) (section_count pointed.now.compiled.now)
        result }
{
    for section in 0..pointed.compiled.scheme().program().section_count() {
        if touches_span(pointed.at, pointed.spans.head(section)) {
            return Some(section);
        }
    }
    None
}

/// The lock set of a section, and the lines of `explain`.
fn section_lines(
    alloc: Global,
    source: &[u8],
    compiled: &Compiled,
    section: u16,
) -> Result<String, AllocError>
    requires spelled { IsSpelled source.now (program_of compiled.now).source }
    requires section { section < length (sections_of (program_of compiled.now).texts) }
    ensures { IfOk result (λ text. IsSectionTold source.now compiled.now (Some section) (string_bytes text)) }
{
    let lines = node_lines(alloc, source, compiled.scheme().program())?;
    let mut text = String::from_str(alloc, "Locks: ")?;
    put_set(&mut text, compiled, section)?;
    text.push_str("\n\n```\n")?;
    put_explained_section(alloc, &mut text, compiled, lines.as_slice(), section)?;
    text.push_str("```\n")?;
    Ok(text)
}

/// What is told of a section, if there is one.
fn section_text(
    alloc: Global,
    source: &[u8],
    compiled: &Compiled,
    section: Option<u16>,
) -> Result<String, AllocError>
    requires spelled { IsSpelled source.now (program_of compiled.now).source }
    requires section { IfSome section (λ i. i < length (sections_of (program_of compiled.now).texts)) }
    ensures { IfOk result (λ text. IsSectionTold source.now compiled.now section (string_bytes text)) }
{
    match section {
        Some(section) => section_lines(alloc, source, compiled, section),
        None => Ok(String::new(alloc)),
    }
}

/// Whether a statement stands at a place.
fn is_under(at: usize, span: Option<&NodeSpan>) -> bool
    ensures { result ≡ is_statement_under at (option_copied span.entry) }
{
    match span {
        Some(span) => touches_span(at, span.item),
        None => false,
    }
}

/// The first node of a section whose statement stands at a place.
fn node_under(pointed: &Pointed<'_>, section: u16) -> Option<u16>
    requires pointed { IsPointed pointed.now }
    requires section { section < length (sections_of (program_of pointed.now.compiled.now).texts) }
    ensures { IsFirst (is_node_under pointed.now.spans.now pointed.now.at section)
        (node_count pointed.now.compiled.now section) result }
{
    let spans = pointed.spans.section(section);
    for node in 0..section_flow(pointed.compiled, section).exit() {
        if is_under(pointed.at, spans.get(node as usize)) {
            return Some(node);
        }
    }
    None
}

/// Adds what stands before the text of a node.
fn put_node_head(text: &mut String, section: u16, node: u16) -> Result<(), AllocError>
    ensures { OnOk result (string_bytes text.new ≡ string_bytes text.old ++ node_head section node) }
{
    Ok(write!(text, "section {section}, node {node}: ")?)
}

/// Adds a node of a section and what it does, and locks that are needed from there on.
fn put_node(
    text: &mut String,
    compiled: &Compiled,
    section: u16,
    node: u16,
    needed: &[Lock],
) -> Result<(), AllocError>
    requires section { section < length (sections_of (program_of compiled.now).texts) }
    requires named { AreNamed (program_of compiled.now) needed.now }
    ensures { OnOk result (string_bytes text.new
        ≡ string_bytes text.old ++ node_lines_by compiled.now section node needed.now) }
{
    put_node_head(text, section, node)?;
    put_section_node(text, compiled, section, u32::from(node))?;
    text.push_str("\nneeded from here on: ")?;
    put_locks(text, compiled.scheme().program(), needed)?;
    text.push_str("\n")?;
    Ok(())
}

/// What is told of a node of a section: what it does, and the locks that are needed from there on.
fn node_text(
    alloc: Global,
    compiled: &Compiled,
    section: u16,
    node: u16,
) -> Result<String, AllocError>
    requires section { section < length (sections_of (program_of compiled.now).texts) }
    requires node { node < node_count compiled.now section }
    ensures { IfOk result (λ text. IsNodeTold compiled.now section (Some node) (string_bytes text)) }
{
    let needed = section_locks(compiled, section).at(alloc, node)?;
    let mut text = String::from_str(alloc, "```\n")?;
    put_node(&mut text, compiled, section, node, needed.as_slice())?;
    text.push_str("```\n")?;
    Ok(text)
}

/// What is told of the node of a section that stands at a place, if one does.
fn nodes_text(alloc: Global, pointed: &Pointed<'_>, section: u16) -> Result<String, AllocError>
    requires pointed { IsPointed pointed.now }
    requires section { section < length (sections_of (program_of pointed.now.compiled.now).texts) }
    ensures { IfOk result (λ text. AreNodesTold pointed.now.compiled.now pointed.now.spans.now pointed.now.at section
        (string_bytes text)) }
{
    match node_under(pointed, section) {
        Some(node) => node_text(alloc, pointed.compiled, section, node),
        None => Ok(String::new(alloc)),
    }
}

/// The same of all sections.
fn all_nodes_text(alloc: Global, pointed: &Pointed<'_>) -> Result<String, AllocError>
    requires { IsPointed pointed.now }
    ensures { IfOk result (λ text. AreAllNodesTold pointed.now.compiled.now pointed.now.spans.now pointed.now.at
        (section_count pointed.now.compiled.now) (string_bytes text)) }
{
    let mut text = String::new(alloc);
    for section in 0..pointed.compiled.scheme().program().section_count() {
        let here = nodes_text(alloc, pointed, section)?;
        text.push_str(here.as_str())?;
    }
    Ok(text)
}

/// A text that is told of a place, if there is one.
fn told_value(alloc: Global, text: String) -> Result<Value, AllocError>
    ensures { IfOk result (λ v. view v ≡ hover_json (string_bytes text)) }
{
    if text.is_empty() {
        Ok(Value::Null)
    } else {
        json!(in alloc; {"contents": {"kind": "markdown", "value": text}})
    }
}

/// What is told of a place of a text.
fn hover_at(
    alloc: Global,
    source: &[u8],
    compiled: &Compiled,
    at: usize,
) -> Result<Value, AllocError>
    requires { IsSpelled source.now (program_of compiled.now).source }
    ensures { IfOk result (λ v. IsHover source.now at compiled.now (view v)) }
{
    let program = compiled.scheme().program();
    let names = tree_names(alloc, source, program.tree())?;
    let spans = node_spans(alloc, source, program)?;
    let pointed = Pointed {
        at,
        compiled,
        spans: &spans,
    };
    let declared = declared_under(names.as_slice(), at);
    let mut text = name_text(alloc, compiled, names.as_slice(), declared)?;
    let section = section_text(alloc, source, compiled, section_under(&pointed))?;
    text.push_str(section.as_str())?;
    let nodes = all_nodes_text(alloc, &pointed)?;
    text.push_str(nodes.as_str())?;
    told_value(alloc, text)
}

/// What is told of a place of a text, if there is one.
pub fn hover_value(
    alloc: Global,
    source: &[u8],
    compiled: &Compiled,
    at: Option<usize>,
) -> Result<Value, AllocError>
    requires { IsSpelled source.now (program_of compiled.now).source }
    ensures { IfOk result (λ v. IsHoverIf source.now at compiled.now (view v)) }
{
    match at {
        Some(at) => hover_at(alloc, source, compiled, at),
        None => Ok(Value::Null),
    }
}
