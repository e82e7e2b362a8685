//! Rounds that runs go within a set of states.

ghost use Rattle.std.specs.Prelude.{◌≡◌, ◌<◌, ◌⊎◌, ◌++◌, ◌∷◌, [], ℕ, Bool, List, Some, OnOk, IfOk, MatchOption, length};
ghost use Rattle.std.specs.Prelude.{take, drop};
ghost use Rattle.sect_endings.specs.Graphs.{go, IsWalk};
ghost use Rattle.sect_endings.specs.steps.Sets.{In, AreRanks, MovesInto, LeadsBelow, rank_of as rank_in};
ghost use Rattle.sect_endings.specs.steps.Lasting.{IsSettled, AllMeet};
ghost use Rattle.sect_endings.specs.steps.Walking.{Comes, Passes, Circles, IsRoundFrom};

use crate::graph::Graph;
use crate::moves::{has, move_below, move_into, rank_of};
use crate::ranks::ranking;
use crate::sets::meeting;
use crate::verdict::Round;
use std::alloc::{AllocError, Global};

/// A run that has come to a state by these threads.
#[derive(Drop)]
pub struct Run {
    pub order: Vec<u16>,
    pub state: usize,
}

/// A thread goes, and leads the run to a state.
fn step(run: &mut Run, thread: u16, state: usize) -> Result<(), AllocError>
    ensures order { OnOk result (run.new.order.items ≡ run.old.order.items ++ thread ∷ []) }
    ensures state { OnOk result (run.new.state ≡ state) }
{
    run.order.push(thread)?;
    run.state = state;
    Ok(())
}

/// From a state that is no goal a thread that leads to a lower rank, and where it leads to.
fn towards(graph: &Graph, goals: &[bool], ranks: &[usize], state: usize) -> Option<(u16, usize)>
    ensures { MatchOption result
        (In goals.now state ⊎ (LeadsBelow graph.now ranks.now state (rank_in graph.now ranks.now state) → ⊥))
        (λ m. (go graph.now state m.0 ≡ Some m.1)
        × (rank_in graph.now ranks.now m.1 < rank_in graph.now ranks.now state)) }
{
    if has(goals, state) {
        return None;
    }
    move_below(graph, ranks, state, rank_of(graph, ranks, state))
}

/// Leads a run from a state that has a rank to a goal.
pub fn walk(graph: &Graph, goals: &[bool], ranks: &[usize], run: &mut Run) -> Result<(), AllocError>
    ensures { OnOk result ((within : List Bool) (n : ℕ) → AreRanks graph.now within goals.now ranks.now n
        → rank_in graph.now ranks.now run.old.state < graph.now.states
        → Comes graph.now within run.old.state run.old.order.items run.new.state run.new.order.items
        × In goals.now run.new.state) }
{
    'go: while let Some((thread, next)) = towards(graph, goals, ranks, run.state) {
        step(run, thread, next)?;
    }
    Ok(())
}

/// Leads a run within a set to where a thread is met, and lets it go there if it may.
fn meet(
    alloc: Global,
    graph: &Graph,
    within: &[bool],
    thread: u16,
    run: &mut Run,
) -> Result<(), AllocError>
    requires size { length within.now ≡ graph.now.states }
    requires inside { In within.now run.old.state }
    requires meets { AllMeet graph.now within.now thread }
    ensures { OnOk result (Passes graph.now within.now thread run.old.state run.old.order.items run.new.state
        run.new.order.items) }
{
    let goals = meeting(alloc, graph, within, thread)?;
    let ranks = ranking(alloc, graph, within, &goals)?;
    walk(graph, &goals, &ranks, run)?;
    if let Some(next) = graph.go(run.state, thread) {
        step(run, thread, next)?;
    }
    Ok(())
}

/// Lets the first thread go that leads into a set.
fn go_once(graph: &Graph, within: &[bool], run: &mut Run) -> Result<(), AllocError>
    requires { MovesInto graph.now within.now run.old.state }
    ensures { OnOk result ((t : ℕ) × (go graph.now run.old.state t ≡ Some run.new.state)
        × In within.now run.new.state × (run.new.order.items ≡ run.old.order.items ++ t ∷ [])) }
{
    if let Some((thread, next)) = move_into(graph, within, run.state) {
        step(run, thread, next)?;
    }
    Ok(())
}

/// Leads a run within a set so that each of so many first threads is met, and by one move where this takes none.
fn circle(
    alloc: Global,
    graph: &Graph,
    within: &[bool],
    threads: u16,
    run: &mut Run,
) -> Result<(), AllocError>
    requires size { length within.now ≡ graph.now.states }
    requires inside { In within.now run.old.state }
    requires settled { IsSettled graph.now threads within.now }
    ensures { OnOk result (Circles graph.now within.now threads run.old.state run.old.order.items run.new.state
        run.new.order.items) }
{
    let before = run.order.len();
    for thread in 0..threads {
        meet(alloc, graph, within, thread, run)?;
    }
    if before < run.order.len() {
        return Ok(());
    }
    go_once(graph, within, run)?;
    Ok(())
}

/// The order of a run, cut at a place.
fn cut(alloc: Global, run: Run, at: usize) -> Result<Round, AllocError>
    requires { at < length run.order.items }
    ensures before { IfOk result (λ r. r.before.items ≡ take at run.order.items) }
    ensures round { IfOk result (λ r. r.round.items ≡ drop at run.order.items) }
{
    let Run {
        order: mut before,
        state: _,
    } = run;
    let round = Vec::from_slice(alloc, &before[at..])?;
    before.truncate(at);
    Ok(Round { before, round })
}

/// A round within a set, along which each of so many first threads is met, to which a run comes that is in the set.
pub fn round_of(
    alloc: Global,
    graph: &Graph,
    within: &[bool],
    threads: u16,
    run: Run,
) -> Result<Round, AllocError>
    requires size { length within.now ≡ graph.now.states }
    requires inside { In within.now run.state }
    requires settled { IsSettled graph.now threads within.now }
    requires there { IsWalk graph.now 0 run.order.items run.state }
    ensures { IfOk result (λ r. (s : ℕ)
        × IsRoundFrom graph.now threads run.state r.before.items r.round.items s) }
{
    let mut run = run;
    let mut seen: Vec<usize> = Vec::new(alloc);
    seen.resize(graph.states(), 0)?;
    'round: while seen[run.state] == 0 {
        seen[run.state] = run.order.len() + 1;
        circle(alloc, graph, within, threads, &mut run)?;
    }
    let at = seen[run.state] - 1;
    let round = cut(alloc, run, at)?;
    Ok(round)
}
