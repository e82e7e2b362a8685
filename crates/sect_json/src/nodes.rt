//! Graphs as JSON.

ghost use Rattle.std.specs.{Prelude.{◌≡◌, Some, IfOk, option_map, slice_get}, String.{string_bytes}};
ghost use Rattle.serde_json.specs.View.{view};
ghost use Rattle.sect_emit.specs.Graphed.{IsThere, graphed_nodes};
ghost use Rattle.sect_json.specs.Nodes.{next_json, next_at, node_with, node_json, nodes_json};

use sect_emit::{Compiled, GraphOf, graphed_flow, put_graphed_node};
use sect_graph::Successors;
use sect_object::Members;
use serde_json::{Value, json};
use std::alloc::{AllocError, Global};

/// The nodes of a graph, by number, the exit last.
pub fn nodes_value(alloc: Global, compiled: &Compiled, of: GraphOf) -> Result<Value, AllocError>
    requires { IsThere compiled.now of }
    ensures { IfOk result (λ v. view v ≡ nodes_json compiled.now of) }
{
    let mut values = Vec::new(alloc);
    for node in 0..graphed_flow(compiled, of).exit() + 1 {
        values.push(node_value(alloc, compiled, of, node)?)?;
    }
    Ok(Value::Array(values))
}

/// A node of a graph.
fn node_value(
    alloc: Global,
    compiled: &Compiled,
    of: GraphOf,
    node: u16,
) -> Result<Value, AllocError>
    requires { IsThere compiled.now of }
    ensures { IfOk result (λ v. view v ≡ node_json compiled.now of node) }
{
    let mut text = String::new(alloc);
    put_graphed_node(&mut text, compiled, of, node)?;
    let next = next_value(alloc, compiled, of, node)?;
    told_node(alloc, next, node, text)
}

/// The nodes to which control may go on from a node.
pub fn next_value(
    alloc: Global,
    compiled: &Compiled,
    of: GraphOf,
    node: u16,
) -> Result<Value, AllocError>
    requires { IsThere compiled.now of }
    ensures { IfOk result (λ v. view v ≡ next_at compiled.now of node) }
{
    successors_value(alloc, successors(compiled, of, node))
}

/// Where control goes on from a node, none from the exit.
fn successors(compiled: &Compiled, of: GraphOf, node: u16) -> Option<Successors>
    requires { IsThere compiled.now of }
    ensures { result ≡ option_map (λ x. x.next) (slice_get (graphed_nodes compiled.now of) node) }
{
    let flow = graphed_flow(compiled, of);
    if node < flow.exit() {
        Some(flow.succ(node))
    } else {
        None
    }
}

/// A node with what it does.
fn told_node(alloc: Global, next: Value, node: u16, text: String) -> Result<Value, AllocError>
    ensures { IfOk result (λ v. view v ≡ node_with (view next) node (string_bytes text)) }
{
    let members = Members::new(alloc)
        .with("next", next)?
        .with("node", node)?
        .with("text", text)?;
    Ok(members.object())
}

/// Where control goes on.
fn successors_value(alloc: Global, next: Option<Successors>) -> Result<Value, AllocError>
    ensures { IfOk result (λ v. view v ≡ next_json next) }
{
    match next {
        None => json!(in alloc; []),
        Some(Successors::Next(node)) => json!(in alloc; [node]),
        Some(Successors::Branch(holds, fails)) => json!(in alloc; [holds, fails]),
    }
}
