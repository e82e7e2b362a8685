//! Whether the runs of a graph end.

ghost use Rattle.std.specs.Prelude.{◌≡◌, ◌<◌, ℕ, List, IfOk, MatchOption, length, get_or, false};
ghost use Rattle.sect_endings.specs.{Graphs.{IsWalk}, Runs.{CanEnd, IsVerdict}};
ghost use Rattle.sect_endings.specs.steps.{Sets.{In, AreMarks}, Lasting.{IsSettled}, Walking.{IsRoundFrom}};

use crate::graph::Graph;
use crate::lasting::lasting;
use crate::moves::{has, rank_of};
use crate::ranks::ranking;
use crate::rounds::{Run, round_of, walk};
use crate::sets::{all_states, ends_of, unranked};
use std::alloc::{AllocError, Global};

/// The threads that lead from state 0 to a state, and those that lead from there back to it.
#[derive(Drop)]
pub struct Round {
    pub before: Vec<u16>,
    pub round: Vec<u16>,
}

/// Whether the runs of a graph end. A run is fair if no thread is left out for ever that may go all the time.
#[derive(Drop)]
pub enum Verdict {
    EveryRunEnds,
    /// A run that goes this round never ends, but it isn't fair, as none is that never ends.
    EveryFairRunEnds(Round),
    /// A fair run goes this round, though from each state that it comes to a run can end.
    SomeFairRunNeverEnds(Round),
    /// A fair run goes this round, and from there no run can end.
    SomeRunCantEnd(Round),
}

/// The states from which no run can end.
fn traps_of(alloc: Global, graph: &Graph, all: &[bool]) -> Result<Vec<bool>, AllocError>
    requires { (s : ℕ) → s < graph.now.states → In all.now s }
    ensures traps { IfOk result (λ marks. AreMarks graph.now.states marks.items (λ s. CanEnd graph.now s → ⊥)) }
    ensures others { IfOk result (λ marks. (s : ℕ) → s < graph.now.states → get_or marks.items s false ≡ false
        → CanEnd graph.now s) }
{
    let ends = ends_of(alloc, graph)?;
    let ranks = ranking(alloc, graph, all, &ends)?;
    let traps = unranked(alloc, graph, &ranks)?;
    Ok(traps)
}

/// A run to a state from which no run can end, if there is one.
fn trapped(alloc: Global, graph: &Graph) -> Result<Option<Run>, AllocError>
    requires { 0 < graph.now.states }
    ensures { IfOk result (λ found. MatchOption found
        ((order : List ℕ) (q : ℕ) → IsWalk graph.now 0 order q → CanEnd graph.now q)
        (λ run. IsWalk graph.now 0 run.order.items run.state × (CanEnd graph.now run.state → ⊥))) }
{
    let all = all_states(alloc, graph)?;
    let traps = traps_of(alloc, graph, &all)?;
    let ranks = ranking(alloc, graph, &all, &traps)?;
    if graph.states() <= rank_of(graph, &ranks, 0) {
        return Ok(None);
    }
    let mut run = Run {
        order: Vec::new(alloc),
        state: 0,
    };
    walk(graph, &traps, &ranks, &mut run)?;
    Ok(Some(run))
}

/// A round from state 0 within a set, along which each of so many first threads is met.
fn round_at_start(
    alloc: Global,
    graph: &Graph,
    within: &[bool],
    threads: u16,
) -> Result<Round, AllocError>
    requires size { length within.now ≡ graph.now.states }
    requires inside { In within.now 0 }
    requires settled { IsSettled graph.now threads within.now }
    ensures { IfOk result (λ r. (s : ℕ) × IsRoundFrom graph.now threads 0 r.before.items r.round.items s) }
{
    let run = Run {
        order: Vec::new(alloc),
        state: 0,
    };
    let round = round_of(alloc, graph, within, threads, run)?;
    Ok(round)
}

/// Whether the runs from state 0 end.
pub fn verdict_of(alloc: Global, graph: &Graph) -> Result<Verdict, AllocError>
    requires { 0 < graph.now.states }
    ensures { IfOk result (IsVerdict graph.now) }
{
    let endless = lasting(alloc, graph, 0)?;
    if !has(&endless, 0) {
        return Ok(Verdict::EveryRunEnds);
    }
    let fair = lasting(alloc, graph, graph.threads())?;
    if let Some(run) = trapped(alloc, graph)? {
        let round = round_of(alloc, graph, &fair, graph.threads(), run)?;
        return Ok(Verdict::SomeRunCantEnd(round));
    }
    if has(&fair, 0) {
        let round = round_at_start(alloc, graph, &fair, graph.threads())?;
        return Ok(Verdict::SomeFairRunNeverEnds(round));
    }
    let round = round_at_start(alloc, graph, &endless, 0)?;
    Ok(Verdict::EveryFairRunEnds(round))
}
