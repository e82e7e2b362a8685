//! How states reach others: each state that does so has a rank, and leads to a lower one.

ghost use Rattle.std.specs.Prelude.{◌≡◌, ◌<◌, ◌≤◌, ℕ, IfOk};
ghost use Rattle.std.specs.Bool.{Decides};
ghost use Rattle.sect_endings.specs.steps.Sets.{JoinsNow, AreRanks, AreAllRanks};

use crate::graph::Graph;
use crate::moves::{has, move_below, rank_of};
use std::alloc::{AllocError, Global};

/// Whether a state without a rank is in a set, and is a goal there or leads to a state that has a rank.
fn joins(graph: &Graph, within: &[bool], goals: &[bool], ranks: &[usize], state: usize) -> bool
    ensures { Decides result (JoinsNow graph.now within.now goals.now ranks.now state) }
{
    graph.states() <= rank_of(graph, ranks, state)
        && has(within, state)
        && (has(goals, state) || move_below(graph, ranks, state, graph.states()).is_some())
}

/// Gives ranks, from so many on, to the states that have none and join those that have. Gives how many have one now.
fn sweep(
    graph: &Graph,
    within: &[bool],
    goals: &[bool],
    ranks: &mut [usize],
    ranked: usize,
) -> usize
    requires { AreRanks graph.now within.now goals.now ranks.old ranked }
    ensures ranks { AreRanks graph.now within.now goals.now ranks.new result }
    ensures more { ranked ≤ result }
    ensures all { result ≡ ranked → AreAllRanks graph.now within.now goals.now ranks.new }
{
    let mut count = ranked;
    for step in 0..graph.states() {
        let state = graph.states() - 1 - step;
        if joins(graph, within, goals, ranks, state) {
            ranks[state] = count;
            count += 1;
        }
    }
    count
}

/// The ranks of the states from which a way within a set comes to a goal. The others have the number of all states.
pub fn ranking(
    alloc: Global,
    graph: &Graph,
    within: &[bool],
    goals: &[bool],
) -> Result<Vec<usize>, AllocError>
    ensures ranks { IfOk result (λ ranks. (n : ℕ) × AreRanks graph.now within.now goals.now ranks.items n) }
    ensures all { IfOk result (λ ranks. AreAllRanks graph.now within.now goals.now ranks.items) }
{
    let mut ranks = Vec::new(alloc);
    ranks.resize(graph.states(), graph.states())?;
    let mut ranked = 0;
    let mut more = true;
    'more: while more {
        let count = sweep(graph, within, goals, &mut ranks, ranked);
        more = ranked < count;
        ranked = count;
    }
    Ok(ranks)
}
