//! Sets of states, as marks.

ghost use Rattle.std.specs.Prelude.{◌≡◌, ◌<◌, ◌≤◌, IfOk, ℕ, length};
ghost use Rattle.sect_endings.specs.Graphs.{IsEnd};
ghost use Rattle.sect_endings.specs.steps.Sets.{AreMarks, AreKept, IsNarrowed, In, MovesInto, IsMet};
ghost use Rattle.sect_endings.specs.steps.Sets.{rank_of as rank_in};

use crate::graph::Graph;
use crate::moves::{is_end, is_met, moves_into, rank_of};
use crate::ranks::ranking;
use std::alloc::{AllocError, Global};

/// All states.
pub fn all_states(alloc: Global, graph: &Graph) -> Result<Vec<bool>, AllocError>
    ensures size { IfOk result (λ marks. length marks.items ≡ graph.now.states) }
    ensures all { IfOk result (λ marks. (s : ℕ) → s < graph.now.states → In marks.items s) }
{
    let mut marks = Vec::new(alloc);
    marks.resize(graph.states(), true)?;
    Ok(marks)
}

/// The states where no thread may go.
pub fn ends_of(alloc: Global, graph: &Graph) -> Result<Vec<bool>, AllocError>
    ensures { IfOk result (λ marks. AreMarks graph.now.states marks.items (IsEnd graph.now)) }
{
    let mut marks = Vec::with_capacity(alloc, graph.states())?;
    for state in 0..graph.states() {
        marks.push(is_end(graph, state))?;
    }
    Ok(marks)
}

/// The states from which some thread leads into a set.
pub fn moving(alloc: Global, graph: &Graph, within: &[bool]) -> Result<Vec<bool>, AllocError>
    ensures { IfOk result (λ marks. AreMarks graph.now.states marks.items (MovesInto graph.now within.now)) }
{
    let mut marks = Vec::with_capacity(alloc, graph.states())?;
    for state in 0..graph.states() {
        marks.push(moves_into(graph, within, state))?;
    }
    Ok(marks)
}

/// The states where a thread may not go, or leads into a set.
pub fn meeting(
    alloc: Global,
    graph: &Graph,
    within: &[bool],
    thread: u16,
) -> Result<Vec<bool>, AllocError>
    ensures { IfOk result (λ marks. AreMarks graph.now.states marks.items (IsMet graph.now within.now thread)) }
{
    let mut marks = Vec::with_capacity(alloc, graph.states())?;
    for state in 0..graph.states() {
        marks.push(is_met(graph, within, thread, state))?;
    }
    Ok(marks)
}

/// The states without a rank.
pub fn unranked(alloc: Global, graph: &Graph, ranks: &[usize]) -> Result<Vec<bool>, AllocError>
    ensures { IfOk result (λ marks. AreMarks graph.now.states marks.items
        (λ s. graph.now.states ≤ rank_in graph.now ranks.now s)) }
{
    let mut marks = Vec::with_capacity(alloc, graph.states())?;
    for state in 0..graph.states() {
        marks.push(graph.states() <= rank_of(graph, ranks, state))?;
    }
    Ok(marks)
}

/// Takes the states without a rank out of a set. Tells whether there were any.
fn keep_ranked(graph: &Graph, ranks: &[usize], marks: &mut [bool]) -> bool
    requires { length marks.old ≡ graph.now.states }
    ensures { AreKept graph.now ranks.now marks.old marks.new graph.now.states result }
{
    let mut changed = false;
    for state in 0..graph.states() {
        if marks[state] && graph.states() <= rank_of(graph, ranks, state) {
            marks[state] = false;
            changed = true;
        }
    }
    changed
}

/// Leaves those states of a set from which a way within it comes to a goal. Tells whether they are fewer.
pub fn narrow(
    alloc: Global,
    graph: &Graph,
    goals: &[bool],
    marks: &mut [bool],
) -> Result<bool, AllocError>
    requires { length marks.old ≡ graph.now.states }
    ensures { IfOk result (IsNarrowed graph.now goals.now marks.old marks.new) }
{
    let ranks = ranking(alloc, graph, marks, goals)?;
    Ok(keep_ranked(graph, &ranks, marks))
}
