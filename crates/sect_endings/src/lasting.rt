//! From where runs need not end.

ghost use Rattle.std.specs.Prelude.{◌≡◌, ◌<◌, ℕ, IfOk, length, false};
ghost use Rattle.sect_endings.specs.steps.Lasting.{IsCandidate, IsSettled, AllMove, AllMeet, IsLess, IsPassed};

use crate::graph::Graph;
use crate::sets::{all_states, meeting, moving, narrow};
use std::alloc::{AllocError, Global};

/// Takes the states out of a set that don't lead into it. Tells whether there were any.
fn narrow_to_moves(alloc: Global, graph: &Graph, marks: &mut [bool]) -> Result<bool, AllocError>
    requires { length marks.old ≡ graph.now.states }
    ensures less { IfOk result (IsLess marks.old marks.new) }
    ensures stays { IfOk result (λ _. (threads : ℕ) → IsCandidate graph.now threads marks.old
        → IsCandidate graph.now threads marks.new) }
    ensures moves { IfOk result (λ changed. changed ≡ false → AllMove graph.now marks.new) }
{
    let goals = moving(alloc, graph, marks)?;
    let changed = narrow(alloc, graph, &goals, marks)?;
    Ok(changed)
}

/// Takes the states out of a set from which no way within it comes to where a thread is met. Tells whether there were
/// any.
fn narrow_to_thread(
    alloc: Global,
    graph: &Graph,
    thread: u16,
    marks: &mut [bool],
) -> Result<bool, AllocError>
    requires { length marks.old ≡ graph.now.states }
    ensures less { IfOk result (IsLess marks.old marks.new) }
    ensures stays { IfOk result (λ _. (threads : ℕ) → thread < threads → IsCandidate graph.now threads marks.old
        → IsCandidate graph.now threads marks.new) }
    ensures meets { IfOk result (λ changed. changed ≡ false → AllMeet graph.now marks.new thread) }
{
    let goals = meeting(alloc, graph, marks, thread)?;
    let changed = narrow(alloc, graph, &goals, marks)?;
    Ok(changed)
}

/// Takes states out of a set for the sake of moves, and of so many first threads. Tells whether there were any.
fn pass(alloc: Global, graph: &Graph, threads: u16, marks: &mut [bool]) -> Result<bool, AllocError>
    requires { length marks.old ≡ graph.now.states }
    ensures { IfOk result (IsPassed graph.now threads threads marks.old marks.new) }
{
    let mut changed = narrow_to_moves(alloc, graph, marks)?;
    for thread in 0..threads {
        if narrow_to_thread(alloc, graph, thread, marks)? {
            changed = true;
        }
    }
    Ok(changed)
}

/// The states from which a run need not end though none of so many first threads is left out.
pub fn lasting(alloc: Global, graph: &Graph, threads: u16) -> Result<Vec<bool>, AllocError>
    ensures all { IfOk result (λ marks. IsCandidate graph.now threads marks.items) }
    ensures settled { IfOk result (λ marks. IsSettled graph.now threads marks.items) }
{
    let mut marks = all_states(alloc, graph)?;
    let mut more = true;
    'narrow: while more {
        more = pass(alloc, graph, threads, &mut marks)?;
    }
    Ok(marks)
}
