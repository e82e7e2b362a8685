//! Nodes as JSON, with the places that they come from.

ghost use Rattle.std.specs.{Prelude.{◌≡◌, All, IfOk, length}, String.{string_bytes}};
ghost use Rattle.serde_json.specs.View.{view};
ghost use Rattle.sect_places.specs.NodeSpans.{IsNodeWithin};
ghost use Rattle.sect_lint.specs.Json.{span_json};
ghost use Rattle.sect_emit.specs.Graphed.{IsThere, graphed_deed};
ghost use Rattle.sect_json.specs.{Nodes.{next_at}, Inspecting.{origin_with, origin_json, spans_at, thread_node_with}};
ghost use Rattle.sect_json.specs.Sites.{bytes_json};
ghost use Rattle.sect_json.specs.steps.Inspected.{IsInspected};

use crate::context::Inspected;
use crate::nodes::next_value;
use crate::sites::bytes_value;
use sect_emit::{GraphOf, put_graphed_node};
use sect_lint::span_value;
use sect_object::Members;
use sect_places::{LineIndex, NodeSpan};
use serde_json::Value;
use std::alloc::{AllocError, Global};

/// A node of a graph, with the place that it comes from.
pub fn placed_node(
    alloc: Global,
    of: &Inspected<'_>,
    graph: GraphOf,
    node: u16,
) -> Result<Value, AllocError>
    requires inspected { IsInspected of.now }
    requires there { IsThere of.now.compiled.now graph }
    ensures { IfOk result (λ v. view v ≡ thread_node_with (next_at of.now.compiled.now graph node) node
        (origin_json of.now.source.now (spans_at of.now.spans.now graph) node)
        (graphed_deed of.now.compiled.now graph node)) }
{
    let told = node_told(alloc, of, graph, node)?;
    told_node(alloc, told, node)
}

/// What is told of a node: where control goes on, where it comes from, and what it does.
#[derive(Drop)]
struct NodeTold {
    next: Value,
    place: Value,
    text: String,
}

/// What is told of a node of a graph.
fn node_told(
    alloc: Global,
    of: &Inspected<'_>,
    graph: GraphOf,
    node: u16,
) -> Result<NodeTold, AllocError>
    requires inspected { IsInspected of.now }
    requires there { IsThere of.now.compiled.now graph }
    ensures next { IfOk result (λ told. view told.next ≡ next_at of.now.compiled.now graph node) }
    ensures place { IfOk result (λ told. view told.place
        ≡ origin_json of.now.source.now (spans_at of.now.spans.now graph) node) }
    ensures text { IfOk result (λ told. string_bytes told.text ≡ graphed_deed of.now.compiled.now graph node) }
{
    let mut text = String::new(alloc);
    put_graphed_node(&mut text, of.compiled, graph, node)?;
    Ok(NodeTold {
        next: next_value(alloc, of.compiled, graph, node)?,
        place: origin_at(alloc, of, graph, node)?,
        text,
    })
}

/// Where a node of a graph comes from.
pub fn origin_at(
    alloc: Global,
    of: &Inspected<'_>,
    graph: GraphOf,
    node: u16,
) -> Result<Value, AllocError>
    requires inspected { IsInspected of.now }
    requires there { IsThere of.now.compiled.now graph }
    ensures { IfOk result (λ v. view v
        ≡ origin_json of.now.source.now (spans_at of.now.spans.now graph) node) }
{
    origin_value(alloc, of.source, spans_of(of, graph), node)
}

/// Where the nodes of a graph come from.
fn spans_of<'a>(of: &'a Inspected<'_>, graph: GraphOf) -> &'a [NodeSpan]
    requires inspected { IsInspected of.now }
    requires there { IsThere of.now.compiled.now graph }
    ensures spans { result.now ≡ spans_at of.now.spans.now graph }
    ensures within { All (IsNodeWithin (length of.now.source.now)) result.now }
{
    match graph {
        GraphOf::Thread(thread) => of.spans.thread(thread),
        GraphOf::Section(section) => of.spans.section(section),
    }
}

/// A node with what is told of it.
fn told_node(alloc: Global, told: NodeTold, node: u16) -> Result<Value, AllocError>
    ensures { IfOk result (λ v. view v
        ≡ thread_node_with (view told.next) node (view told.place) (string_bytes told.text)) }
{
    let NodeTold { next, place, text } = told;
    let members = Members::new(alloc)
        .with("next", next)?
        .with("node", node)?
        .with("place", place)?
        .with("text", text)?;
    Ok(members.object())
}

/// Where a node comes from: the statement, and the call that it is of.
fn origin_value(
    alloc: Global,
    source: &LineIndex<'_>,
    spans: &[NodeSpan],
    node: u16,
) -> Result<Value, AllocError>
    requires { All (IsNodeWithin (length source.now)) spans.now }
    ensures { IfOk result (λ v. view v ≡ origin_json source.now spans.now node) }
{
    match spans.get(node as usize) {
        None => told_origin(alloc, Value::Null, Value::Null),
        Some(span) => span_origin(alloc, source, *span),
    }
}

/// Where a node comes from that comes from there.
fn span_origin(alloc: Global, source: &LineIndex<'_>, span: NodeSpan) -> Result<Value, AllocError>
    requires { IsNodeWithin (length source.now) span }
    ensures { IfOk result (λ v. view v ≡ origin_with (bytes_json source.now span.call)
        (span_json source.now span.item)) }
{
    let call = bytes_value(alloc, source, span.call)?;
    let statement = span_value(alloc, source, span.item)?;
    told_origin(alloc, call, statement)
}

/// A call and a statement.
pub fn told_origin(alloc: Global, call: Value, statement: Value) -> Result<Value, AllocError>
    ensures { IfOk result (λ v. view v ≡ origin_with (view call) (view statement)) }
{
    let members = Members::new(alloc)
        .with("call", call)?
        .with("statement", statement)?;
    Ok(members.object())
}
