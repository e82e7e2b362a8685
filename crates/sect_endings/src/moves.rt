//! Where threads lead to, seen from one state.

ghost use Rattle.std.specs.Prelude.{◌≡◌, ◌<◌, ◌≤◌, ℕ, Some, MatchOption, get_or, false};
ghost use Rattle.std.specs.Bool.{Decides};
ghost use Rattle.sect_endings.specs.Graphs.{go, IsEnd};
ghost use Rattle.sect_endings.specs.steps.Sets.{In, IsMet, MovesInto, LeadsBelow, rank_of as rank_in};

use crate::graph::Graph;

/// Whether a state is marked.
pub fn has(marks: &[bool], state: usize) -> bool
    ensures { result ≡ get_or marks.now state false }
{
    state < marks.len() && marks[state]
}

/// The rank of a state.
pub fn rank_of(graph: &Graph, ranks: &[usize], state: usize) -> usize
    ensures { result ≡ rank_in graph.now ranks.now state }
{
    if state < ranks.len() {
        ranks[state]
    } else {
        graph.states()
    }
}

/// Whether no thread may go.
pub fn is_end(graph: &Graph, state: usize) -> bool
    ensures { Decides result (IsEnd graph.now state) }
{
    for thread in 0..graph.threads() {
        if graph.go(state, thread).is_some() {
            return false;
        }
    }
    true
}

/// Whether a thread may not go, or leads into a set.
pub fn is_met(graph: &Graph, marks: &[bool], thread: u16, state: usize) -> bool
    ensures { Decides result (IsMet graph.now marks.now thread state) }
{
    match graph.go(state, thread) {
        None => true,
        Some(next) => has(marks, next),
    }
}

/// The first thread that leads into a set, and where it leads to.
pub fn move_into(graph: &Graph, marks: &[bool], state: usize) -> Option<(u16, usize)>
    ensures { MatchOption result (MovesInto graph.now marks.now state → ⊥)
        (λ m. (go graph.now state m.0 ≡ Some m.1) × In marks.now m.1) }
{
    for thread in 0..graph.threads() {
        if let Some(next) = graph.go(state, thread) {
            if has(marks, next) {
                return Some((thread, next));
            }
        }
    }
    None
}

/// The first thread that leads to a rank below a bound, and where it leads to.
pub fn move_below(
    graph: &Graph,
    ranks: &[usize],
    state: usize,
    bound: usize,
) -> Option<(u16, usize)>
    ensures { MatchOption result (LeadsBelow graph.now ranks.now state bound → ⊥)
        (λ m. (go graph.now state m.0 ≡ Some m.1) × (rank_in graph.now ranks.now m.1 < bound)) }
{
    for thread in 0..graph.threads() {
        if let Some(next) = graph.go(state, thread) {
            if rank_of(graph, ranks, next) < bound {
                return Some((thread, next));
            }
        }
    }
    None
}

/// Whether some thread leads into a set.
pub fn moves_into(graph: &Graph, marks: &[bool], state: usize) -> bool
    ensures { Decides result (MovesInto graph.now marks.now state) }
{
    move_into(graph, marks, state).is_some()
}
