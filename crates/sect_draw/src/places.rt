//! Where statements and faults stand, as it is printed.

ghost use Rattle.std.specs.{Prelude.{◌≡◌, ◌≤◌, ◌++◌, All, IfSome, OnOk, length, option_map}, String.{string_bytes}};
ghost use Rattle.sect_emit.specs.Graphed.{IsThere};
ghost use Rattle.sect_places.specs.NodeSpans.{IsNodeWithin, IsCallWithin};
ghost use Rattle.sect_world.specs.Standings.{IsStandingThere};
ghost use Rattle.sect_draw.specs.Places.{place_text, called_text, origin_text, spans_at, origin_of, words_at};
ghost use Rattle.sect_draw.specs.Places.{statement_text};
ghost use Rattle.sect_draw.specs.Placing.{IsPlaced, places_shown};

use sect_emit::{Compiled, GraphOf, put_graphed_node};
use sect_front::Span;
use sect_places::{LineIndex, NodeSpan, NodeSpans};
use sect_world::Standing;
use std::alloc::AllocError;
use std::fmt::Write;

/// A text, where the nodes of its program come from, and the name of its file, if it has one.
#[derive(Clone, Copy)]
pub struct Places<'a> {
    pub source: &'a LineIndex<'a>,
    pub spans: &'a NodeSpans,
    pub file: Option<&'a str>,
}

/// Adds the line and the column of a place, behind the name of its file if it has one.
fn put_place(
    text: &mut String,
    file: Option<&str>,
    source: &LineIndex<'_>,
    at: usize,
) -> Result<(), AllocError>
    requires { at ≤ length source.now }
    ensures { OnOk result (string_bytes text.new
        ≡ string_bytes text.old ++ place_text (option_map (λ f. f.now) file.entry) source.now at) }
{
    if let Some(name) = file {
        text.push_str(name)?;
        text.push_str(":")?;
    }
    let place = source.position(at);
    Ok(write!(text, "{}:{}", place.line, place.column)?)
}

/// Adds the place of a call, if there is one.
fn put_call(
    text: &mut String,
    file: Option<&str>,
    source: &LineIndex<'_>,
    call: Option<Span>,
) -> Result<(), AllocError>
    requires { IsCallWithin (length source.now) call }
    ensures { OnOk result (string_bytes text.new
        ≡ string_bytes text.old ++ called_text (option_map (λ f. f.now) file.entry) source.now call) }
{
    match call {
        None => Ok(()),
        Some(span) => {
            text.push_str(" called at ")?;
            put_place(text, file, source, span.start)
        }
    }
}

/// Adds where a node comes from: the place of its statement, and that of the call if it is a procedure's.
fn put_origin(
    text: &mut String,
    file: Option<&str>,
    source: &LineIndex<'_>,
    span: NodeSpan,
) -> Result<(), AllocError>
    requires { IsNodeWithin (length source.now) span }
    ensures { OnOk result (string_bytes text.new
        ≡ string_bytes text.old ++ origin_text (option_map (λ f. f.now) file.entry) source.now span) }
{
    put_place(text, file, source, span.item.start)?;
    put_call(text, file, source, span.call)
}

/// Where the nodes of a graph of a program come from.
fn spans_of<'a>(compiled: &Compiled, places: &Places<'a>, graph: GraphOf) -> &'a [NodeSpan]
    requires placed { IsPlaced compiled.now places.now }
    requires there { IsThere compiled.now graph }
    ensures spans { result.now ≡ spans_at places.now.spans.now graph }
    ensures within { All (IsNodeWithin (length places.now.source.now)) result.now }
{
    match graph {
        GraphOf::Thread(thread) => places.spans.thread(thread),
        GraphOf::Section(section) => places.spans.section(section),
    }
}

/// Where that comes from which stands where a thread stands.
fn origin_at(compiled: &Compiled, places: &Places<'_>, standing: Standing) -> Option<NodeSpan>
    requires placed { IsPlaced compiled.now places.now }
    requires there { IsStandingThere compiled.now standing }
    ensures origin { result ≡ origin_of places.now.spans.now standing }
    ensures within { IfSome result (IsNodeWithin (length places.now.source.now)) }
{
    match standing {
        Standing::At(graph, node) => {
            let spans = spans_of(compiled, places, graph);
            spans.get(node as usize).copied()
        }
        Standing::Broken(_) => None,
    }
}

/// Adds these words, and where that comes from behind them which stands where a thread stands; nothing where it comes
/// from nowhere.
pub fn put_words_at(
    text: &mut String,
    words: &str,
    file: Option<&str>,
    compiled: &Compiled,
    places: &Places<'_>,
    standing: Standing,
) -> Result<(), AllocError>
    requires placed { IsPlaced compiled.now places.now }
    requires there { IsStandingThere compiled.now standing }
    ensures { OnOk result (string_bytes text.new ≡ string_bytes text.old
        ++ words_at words.now (option_map (λ f. f.now) file.entry) places.now.source.now
        (origin_of places.now.spans.now standing)) }
{
    match origin_at(compiled, places, standing) {
        None => Ok(()),
        Some(span) => {
            text.push_str(words)?;
            put_origin(text, file, places.source, span)
        }
    }
}

/// Adds the statement or the test where a thread stands, and its place.
pub fn put_statement(
    text: &mut String,
    compiled: &Compiled,
    places: &Places<'_>,
    standing: Standing,
) -> Result<(), AllocError>
    requires placed { IsPlaced compiled.now places.now }
    requires there { IsStandingThere compiled.now standing }
    ensures { OnOk result (string_bytes text.new ≡ string_bytes text.old
        ++ statement_text compiled.now (places_shown places.now) standing) }
{
    match standing {
        Standing::At(graph, node) => {
            text.push_str(" ")?;
            put_graphed_node(text, compiled, graph, node)?;
            put_words_at(text, " ", None, compiled, places, standing)
        }
        Standing::Broken(_) => Ok(()),
    }
}
