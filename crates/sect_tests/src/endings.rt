//! Whether the runs of graphs end, by hand.

use sect_endings::{Graph, Round, Verdict, verdict_of};
use std::alloc::{AllocGlobal, Global};
use std::process::Abort;
use std::test::Fail;

/// What is said of the runs of a graph with so many states and threads.
fn told(alloc: Global, states: usize, threads: u16, next: &[u32]) -> Result<Verdict, Fail> {
    let mut row = Vec::new(alloc);
    row.extend_from_slice(next)?;
    let graph = Graph::new(states, threads, row);
    if states == 0 {
        return Ok(Verdict::EveryRunEnds);
    }
    Ok(verdict_of(alloc, &graph)?)
}

/// The round is this one, behind these threads.
fn is_round(rt: &(impl Abort + AllocGlobal), found: &Round, before: &[u16], round: &[u16]) {
    assert!(rt; found.before.as_slice() == before);
    assert!(rt; found.round.as_slice() == round);
}

/// No state.
const NO: u32 = u32::MAX;

/// Two threads with a section each.
#[test]
fn every_run_ends(rt: HostRuntime) -> Result<(), Fail> {
    let verdict = told(rt.alloc(), 4, 2, &[1, 2, NO, 3, 3, NO, NO, NO])?;
    assert!(&rt; matches!(verdict, Verdict::EveryRunEnds));
    Ok(())
}

/// Thread 1 waits in a loop for thread 0.
#[test]
fn fair_runs_end(rt: HostRuntime) -> Result<(), Fail> {
    let verdict = told(rt.alloc(), 3, 2, &[1, 0, NO, 2, NO, NO])?;
    let Verdict::EveryFairRunEnds(found) = &verdict else {
        assert!(&rt; false);
        return Ok(());
    };
    is_round(&rt, found, &[], &[1]);
    Ok(())
}

/// A thread waits for nobody.
#[test]
fn none_can_end(rt: HostRuntime) -> Result<(), Fail> {
    let verdict = told(rt.alloc(), 1, 1, &[0])?;
    let Verdict::SomeRunCantEnd(found) = &verdict else {
        assert!(&rt; false);
        return Ok(());
    };
    is_round(&rt, found, &[], &[0]);
    Ok(())
}

/// Thread 0 waits for a flag that thread 1 sets and takes back.
#[test]
fn a_fair_run_goes_on(rt: HostRuntime) -> Result<(), Fail> {
    let verdict = told(rt.alloc(), 4, 2, &[0, 1, 2, 0, NO, 3, NO, NO])?;
    let Verdict::SomeFairRunNeverEnds(found) = &verdict else {
        assert!(&rt; false);
        return Ok(());
    };
    is_round(&rt, found, &[0, 1], &[1, 0, 1]);
    Ok(())
}

/// Two threads take two forks, one after another, and wait in a loop for the second: 0 none has any, 1 and 2 one of
/// them has its first, 3 each has, 4 and 5 one is done, 6 both are.
#[test]
fn forks_that_none_gives_back(rt: HostRuntime) -> Result<(), Fail> {
    let next = [1, 2, 4, 3, 3, 5, 3, 3, NO, 6, 6, NO, NO, NO];
    let verdict = told(rt.alloc(), 7, 2, &next)?;
    let Verdict::SomeRunCantEnd(found) = &verdict else {
        assert!(&rt; false);
        return Ok(());
    };
    is_round(&rt, found, &[0, 1], &[0, 1]);
    Ok(())
}
