//! What stands behind the number of a site.

ghost use Rattle.std.specs.{Prelude.{◌≡◌, ◌≤◌, ◌<◌, ◌++◌, [], IfOk, IfSome, OnOk, length, map}, String.{string_bytes}};
ghost use Rattle.std.specs.Prelude.{slice_get, slice_index_or};
ghost use Rattle.sect_types.specs.Sections.{sections_of};
ghost use Rattle.sect_places.specs.NodeSpans.{IsCallWithin, IsNodeWithin};
ghost use Rattle.sect_emit.specs.{Compiled.{program_of}, Graphed.{graphed_nodes}, Labels.{record_name}};
ghost use Rattle.sect_front.specs.declared.tree.GlobalObject.{GlobalObject};
ghost use Rattle.sect_legend.specs.Legend.{call_note, called_text, made_text, making, section_sites, sites_at};
ghost use Rattle.sect_legend.specs.Legend.{site_names as site_names_by};
ghost use Rattle.sect_legend.specs.{Legend.{ArePlaced, mark_of}, steps.Told.{made_by as made_by_label}};
ghost use Rattle.sect_emit.specs.declared.graphs.GraphOf.TheVariants as graphed;

use crate::places::{Places, put_spot};
use sect_emit::{GraphOf, graphed_flow};
use sect_front::{GlobalObject, Span, Tree};
use sect_places::{NodeSpan, NodeSpans};
use sect_types::{Action, Label};
use std::alloc::{AllocError, Global};
use std::fmt::Write;

/// Adds the call in the thread, which begins there.
fn put_called(text: &mut String, places: &Places<'_>, at: usize) -> Result<(), AllocError>
    requires { at ≤ length places.now.source.now }
    ensures { OnOk result (string_bytes text.new
        ≡ string_bytes text.old ++ called_text (mark_of places.now) places.now.source.now at) }
{
    text.push_str(" (called in ")?;
    put_spot(text, places, at)?;
    text.push_str(")")?;
    Ok(())
}

/// Adds of a procedure's statement the call in the thread.
fn put_call(text: &mut String, places: &Places<'_>, call: Option<Span>) -> Result<(), AllocError>
    requires { IsCallWithin (length places.now.source.now) call }
    ensures { OnOk result (string_bytes text.new
        ≡ string_bytes text.old ++ call_note (mark_of places.now) places.now.source.now call) }
{
    match call {
        None => Ok(()),
        Some(span) => put_called(text, places, span.start),
    }
}

/// Adds where this statement stands, and the call in the thread.
fn put_made(text: &mut String, places: &Places<'_>, span: NodeSpan) -> Result<(), AllocError>
    requires { IsNodeWithin (length places.now.source.now) span }
    ensures { OnOk result (string_bytes text.new
        ≡ string_bytes text.old ++ made_text (mark_of places.now) places.now.source.now span) }
{
    text.push_str(" made in ")?;
    put_spot(text, places, span.item.start)?;
    put_call(text, places, span.call)
}

/// Adds where the statement stands that a node comes from.
fn put_making(
    text: &mut String,
    places: &Places<'_>,
    from: Option<NodeSpan>,
) -> Result<(), AllocError>
    requires { IfSome from (IsNodeWithin (length places.now.source.now)) }
    ensures { OnOk result (string_bytes text.new
        ≡ string_bytes text.old ++ making (mark_of places.now) places.now.source.now from) }
{
    match from {
        None => Ok(()),
        Some(span) => put_made(text, places, span),
    }
}

/// Adds the name of a record.
fn put_record(text: &mut String, tree: &Tree, number: u16) -> Result<(), AllocError>
    ensures { OnOk result (string_bytes text.new ≡ string_bytes text.old ++ record_name tree.now number) }
{
    if let Some(declared) = tree.records().get(number as usize) {
        write!(text, "{}", declared.name)?;
    }
    Ok(())
}

/// What a `new` of a record is called that comes from there.
fn made_name(
    alloc: Global,
    places: &Places<'_>,
    shape: u16,
    from: Option<NodeSpan>,
) -> Result<String, AllocError>
    requires { IfSome from (IsNodeWithin (length places.now.source.now)) }
    ensures { IfOk result (λ text. string_bytes text ≡ record_name (program_of places.now.compiled.now).source shape
        ++ making (mark_of places.now) places.now.source.now from) }
{
    let mut text = String::new(alloc);
    put_record(&mut text, places.compiled.scheme().program().tree(), shape)?;
    put_making(&mut text, places, from)?;
    Ok(text)
}

/// The record of what a node makes.
fn made_by(label: Label) -> Option<u16>
    ensures { result ≡ made_by_label label }
{
    match label {
        Label::Act(Action::New(_, shape, _)) => Some(shape),
        _ => None,
    }
}

/// A node of a section.
#[derive(Clone, Copy)]
struct SectionNode {
    section: u16,
    node: u16,
}

/// Where a node of a section comes from.
fn origin_of(spans: &NodeSpans, node: SectionNode) -> Option<NodeSpan>
    requires { node.section < length spans.now.sections }
    ensures { result ≡ slice_get (slice_index_or spans.now.sections node.section []) node.node }
{
    spans.section(node.section).get(node.node as usize).copied()
}

/// Adds what the site of a node is called, if it is a `new`.
fn put_node(
    alloc: Global,
    names: &mut Vec<String>,
    places: &Places<'_>,
    node: SectionNode,
) -> Result<(), AllocError>
    requires placed { ArePlaced places.now }
    requires section { node.section < length (sections_of (program_of places.now.compiled.now).texts) }
    requires node { node.node < length (graphed_nodes places.now.compiled.now (graphed.Section node.section)) }
    ensures { OnOk result (map string_bytes names.new.items ≡ map string_bytes names.old.items
        ++ sites_at places.now.compiled.now (mark_of places.now) places.now.source.now places.now.spans.now.sections
        node.section node.node) }
{
    let flow = graphed_flow(places.compiled, GraphOf::Section(node.section));
    if let Some(shape) = made_by(flow.action(node.node)) {
        let from = origin_of(places.spans, node);
        names.push(made_name(alloc, places, shape, from)?)?;
    }
    Ok(())
}

/// Adds what the sites of a section are called.
fn put_section(
    alloc: Global,
    names: &mut Vec<String>,
    places: &Places<'_>,
    section: u16,
) -> Result<(), AllocError>
    requires placed { ArePlaced places.now }
    requires section { section < length (sections_of (program_of places.now.compiled.now).texts) }
    ensures { OnOk result (map string_bytes names.new.items ≡ map string_bytes names.old.items
        ++ section_sites places.now.compiled.now (mark_of places.now) places.now.source.now
        places.now.spans.now.sections section) }
{
    for node in 0..graphed_flow(places.compiled, GraphOf::Section(section)).exit() {
        put_node(alloc, names, places, SectionNode { section, node })?;
    }
    Ok(())
}

/// What globals are called.
fn global_names(alloc: Global, globals: &[GlobalObject]) -> Result<Vec<String>, AllocError>
    ensures { IfOk result (λ names. map string_bytes names.items
        ≡ map (λ (g : GlobalObject). g.name) globals.now) }
{
    let mut names = Vec::new(alloc);
    for global in globals {
        names.push(format!(in alloc; "{}", global.name)?)?;
    }
    Ok(names)
}

/// What all sites are called, by number.
pub fn site_names(alloc: Global, places: &Places<'_>) -> Result<Vec<String>, AllocError>
    requires { ArePlaced places.now }
    ensures { IfOk result (λ names. map string_bytes names.items ≡ site_names_by places.now.compiled.now
        (mark_of places.now) places.now.source.now places.now.spans.now.sections) }
{
    let program = places.compiled.scheme().program();
    program.facts();
    let mut names = global_names(alloc, program.tree().globals())?;
    for section in 0..program.section_count() {
        put_section(alloc, &mut names, places, section)?;
    }
    Ok(names)
}
