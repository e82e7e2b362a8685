//! The control-flow graph of one text.

ghost use Rattle.std.specs.Prelude.{◌≡◌, ◌<◌, ◌≤◌, length, slice_get, Some, IfOk, option_map};
ghost use Rattle.sect_types.specs.{Traces.{node_count}, declared.declarations.limits.TheConstants.{MOST_STATEMENTS}};
ghost use Rattle.sect_graph.specs.{Graphs.{IsGraphOf}, Layout.{flow_nodes}};

use crate::emit::{emit_text, text_count};
use sect_types::{Label, Text};
use std::alloc::{AllocError, Global};
use std::marker::Model;

/// Where control goes on from a node.
#[derive(Clone, Copy)]
pub enum Successors {
    Next(u16),
    /// From a test: where it holds, and where it doesn't. They may be one node.
    Branch(u16, u16),
}

/// A node: what it does, and where control goes on.
#[derive(Clone, Copy)]
pub struct Node {
    pub label: Label,
    pub next: Successors,
}

/// The control-flow graph of a text (Kildall's, with a statement or a test a node). Nodes are numbered from 0 in text
/// order, the exit last.
#[derive(Drop)]
pub struct Flow {
    nodes: Vec<Node>,
}

impl Model for Flow {
    ghost use Rattle.std.specs.Prelude.{List, length, ◌≤◌};
    ghost use Rattle.sect_types.specs.declared.declarations.limits.TheConstants.{MOST_STATEMENTS};
    ghost use Rattle.sect_graph.specs.declared.flow.Node.{Node};

    ghost Value = { List Node };

    ghost view = { λ f. f.nodes.items };

    ghost invariant = { λ f. length f.nodes.items ≤ MOST_STATEMENTS };
}

impl Flow {
    /// The node where control begins.
    pub fn entry(&self) -> u16
        ensures { result ≡ 0 }
    {
        0
    }

    /// The node where control ends, numbered last: it does nothing. It is at most `MOST_STATEMENTS`.
    pub fn exit(&self) -> u16
        ensures number { result ≡ length self.now }
        ensures most { result ≤ MOST_STATEMENTS }
    {
        self.nodes.len() as u16
    }

    /// What a node does.
    pub fn action(&self, number: u16) -> Label
        requires { number < length self.now }
        ensures { option_map (λ x. x.label) (slice_get self.now number) ≡ Some result }
    {
        self.nodes[number as usize].label
    }

    /// Where control goes on from a node.
    pub fn succ(&self, number: u16) -> Successors
        requires { number < length self.now }
        ensures { option_map (λ x. x.next) (slice_get self.now number) ≡ Some result }
    {
        self.nodes[number as usize].next
    }
}

/// The control-flow graph of a text, in which a section is one node.
pub fn flow_of(alloc: Global, text: &Text) -> Result<Flow, AllocError>
    requires { node_count text.now ≤ MOST_STATEMENTS }
    ensures graph { IfOk result (IsGraphOf text.now) }
    ensures nodes { IfOk result (λ flow. flow ≡ flow_nodes text.now) }
{
    let count = text_count(text);
    let mut nodes = Vec::with_capacity(alloc, count)?;
    emit_text(&mut nodes, text, count as u16)?;
    Ok(Flow { nodes })
}
