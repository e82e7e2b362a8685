//! Nodes, one after another in text order.

ghost use Rattle.sect_types.specs.{declared.declarations.limits.TheConstants.{MOST_STATEMENTS}, Statements.{Stop}};
ghost use Rattle.sect_types.specs.{Texts.{step_then}, Traces.{node_count}};
ghost use Rattle.std.specs.Prelude.{◌≡◌, ◌+◌, ◌≤◌, ◌++◌, ◌∷◌, [], length, OnOk};
ghost use Rattle.sect_graph.specs.{Layout.{entry_of, nodes_of}, Paths.{node}};

use crate::flow::{Node, Successors};
use sect_types::{Label, Step, Text};
use std::alloc::AllocError;

/// How many nodes a text has.
#[cycle(count)]
pub fn text_count(text: &Text) -> usize
    requires { node_count text.now ≤ MOST_STATEMENTS }
    ensures { result ≡ node_count text.now }
{
    let mut count = 0;
    for step in text.as_slice() {
        count += step_count(step);
    }
    count
}

/// How many nodes a statement has.
#[cycle(count)]
fn step_count(step: &Step) -> usize
    requires { node_count (step_then step.now Stop) ≤ MOST_STATEMENTS }
    ensures { result ≡ node_count (step_then step.now Stop) }
{
    match step {
        Step::Do(_) => 1,
        Step::If(_, holds, fails) => 1 + text_count(holds) + text_count(fails),
        Step::While(_, body) => 1 + text_count(body),
        Step::Section(_, _) => 1,
    }
}

/// Where a text is entered whose first node is numbered `start`, if it has one, and that goes on to `next`.
#[tactic(auto, using(crate::proofs::Emitting::entry_of_text))]
fn entry_to(text: &Text, start: u16, next: u16) -> u16
    ensures { result ≡ entry_of text.now start next }
{
    if text.as_slice().is_empty() {
        next
    } else {
        start
    }
}

/// Adds the nodes of a text, from whose end control goes on to `next`.
#[cycle(emit)]
pub fn emit_text(nodes: &mut Vec<Node>, text: &Text, next: u16) -> Result<(), AllocError>
    requires { length nodes.old.items + node_count text.now ≤ MOST_STATEMENTS }
    ensures { OnOk result (nodes.new.items ≡ nodes.old.items ++ nodes_of text.now (length nodes.old.items) next) }
{
    let steps = text.as_slice();
    for (i, step) in steps.iter().enumerate() {
        let mut after = next;
        if i + 1 < steps.len() {
            after = (nodes.len() + step_count(step)) as u16;
        }
        emit_step(nodes, step, after)?;
    }
    Ok(())
}

/// Adds the nodes of a statement, from whose end control goes on to `next`.
#[cycle(emit)]
fn emit_step(nodes: &mut Vec<Node>, step: &Step, next: u16) -> Result<(), AllocError>
    requires { length nodes.old.items + node_count (step_then step.now Stop) ≤ MOST_STATEMENTS }
    ensures { OnOk result (nodes.new.items
        ≡ nodes.old.items ++ nodes_of (step_then step.now Stop) (length nodes.old.items) next) }
{
    let start = nodes.len() as u16;
    match step {
        Step::Do(action) => put(nodes, Label::Act(*action), Successors::Next(next)),
        Step::If(condition, holds, fails) => {
            let other = start + 1 + text_count(holds) as u16;
            let first = entry_to(holds, start + 1, next);
            let second = entry_to(fails, other, next);
            put(
                nodes,
                Label::Test(*condition),
                Successors::Branch(first, second),
            )?;
            emit_text(nodes, holds, next)?;
            emit_text(nodes, fails, next)?;
            Ok(())
        }
        Step::While(condition, body) => {
            let first = entry_to(body, start + 1, start);
            put(
                nodes,
                Label::Test(*condition),
                Successors::Branch(first, next),
            )?;
            emit_text(nodes, body, start)?;
            Ok(())
        }
        Step::Section(number, _) => put(nodes, Label::Section(*number), Successors::Next(next)),
    }
}

/// Adds one node.
fn put(nodes: &mut Vec<Node>, label: Label, next: Successors) -> Result<(), AllocError>
    ensures { OnOk result (nodes.new.items ≡ nodes.old.items ++ node label next ∷ []) }
{
    nodes.push(Node { label, next })?;
    Ok(())
}
