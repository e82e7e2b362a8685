//! Runs in many interleavings, each compared with the run by whole sections in the order that it has come to.

use super::programs::{
    ACCOUNT, ALIASED_STORE, CHANGED_PATH, EMPTY_SECTION, LINKED_LIST, LOCAL_ONLY, LOCKS_EVERYTHING,
    NEVER_FILLED, NULL_REFERENCE, ONE_CLASS, PROCEDURE, PROTECTED, TWO_NAMES, TWO_THREADS, WALK,
};
use super::{answer_of, expect_bytes};
use std::alloc::{AllocError, Global};
use std::fmt::Write;
use std::process::Abort;
use std::sync::Wait;
use std::test::Fail;
use std::thread::Threads;
use std::time::{Clock, CpuClock};

/// The programs, and how many threads each has.
const THREADS: &[(&str, u8)] = &[
    (EMPTY_SECTION, 1),
    (ACCOUNT, 1),
    (TWO_THREADS, 2),
    (LOCAL_ONLY, 1),
    (TWO_NAMES, 1),
    (ONE_CLASS, 2),
    (CHANGED_PATH, 2),
    (ALIASED_STORE, 1),
    (LINKED_LIST, 2),
    (WALK, 2),
    (NULL_REFERENCE, 2),
    (NEVER_FILLED, 1),
    (PROTECTED, 1),
    (LOCKS_EVERYTHING, 2),
    (PROCEDURE, 2),
];

/// Rounds in which each of these programs comes to its end, though each thread has but one turn a round.
const ROUNDS: u8 = 60;

/// Adds the turns of the threads from one on, up to another, each so many times.
fn put_turns(words: &mut String, from: u8, to: u8, stretch: u8) -> Result<(), AllocError> {
    for thread in from..to {
        for _ in 0..stretch {
            write!(words, " {thread}")?;
        }
    }
    Ok(())
}

/// A schedule that names each of the threads in turn, a first one first, each so many times.
fn schedule_of(alloc: Global, threads: u8, first: u8, stretch: u8) -> Result<String, AllocError> {
    let mut words = String::new(alloc);
    for _ in 0..ROUNDS {
        put_turns(&mut words, first, threads, stretch)?;
        put_turns(&mut words, 0, first, stretch)?;
    }
    Ok(words)
}

/// What a schedule has come to: what is printed behind its turns.
fn outcome_of(alloc: Global, printed: &str) -> Result<String, AllocError> {
    let mut outcome = String::new(alloc);
    for line in printed.lines() {
        if !line.starts_with("turn ") {
            outcome.push_str(line)?;
            outcome.push_str("\n")?;
        }
    }
    Ok(outcome)
}

/// The threads of an outcome's order.
fn order_of(outcome: &str) -> &str {
    for line in outcome.lines() {
        if let Some(order) = line.strip_prefix("order ") {
            return if order == "none" { "" } else { order };
        }
    }
    ""
}

/// What a schedule by which all threads end has come to.
fn ended_by(
    rt: &(impl Threads + Wait + Sync + Clock + CpuClock + AllocGlobal + Abort),
    source: &str,
    line: &str,
) -> Result<String, Fail> {
    let (status, printed) = answer_of(rt, line, source.as_bytes())?;
    assert_eq!(rt; status, 0, "{line}: {printed}");
    let outcome = outcome_of(rt.alloc(), &printed)?;
    assert!(rt; !outcome.contains(" running\n"), "{line}: {outcome}");
    Ok(outcome)
}

/// All threads end by these turns, and the outcome is that of whole sections in the order that is printed.
fn expect_serial(
    rt: &(impl Threads + Wait + Sync + Clock + CpuClock + AllocGlobal + Abort),
    source: &str,
    (k, fuel): (&str, &str),
    turns: &str,
) -> Result<(), Fail> {
    let line = format!(in rt.alloc(); "schedule {k} {fuel} {turns}")?;
    let outcome = ended_by(rt, source, &line)?;
    let order = order_of(&outcome);
    let line = format!(in rt.alloc(); "serial {fuel} {order}")?;
    expect_bytes(rt, &line, source.as_bytes(), 0, &outcome)
}

/// How many fields a path may have, and how much fuel each thread has.
const OPTIONS: &[(&str, &str)] = &[
    ("", ""),
    ("--k 0", ""),
    ("--k 1", "--fuel 3"),
    ("--k 3", ""),
    ("", "--fuel 2"),
];

/// These turns come to whole sections, with each of the options.
fn expect_each_serial(
    rt: &(impl Threads + Wait + Sync + Clock + CpuClock + AllocGlobal + Abort),
    source: &str,
    turns: &str,
) -> Result<(), Fail> {
    for (k, fuel) in OPTIONS {
        expect_serial(rt, source, (k, fuel), turns)?;
    }
    Ok(())
}

/// Schedules that begin with each of so many threads come to whole sections, with stretches of so many turns.
fn expect_stretches(
    rt: &(impl Threads + Wait + Sync + Clock + CpuClock + AllocGlobal + Abort),
    source: &str,
    threads: u8,
    stretch: u8,
) -> Result<(), Fail> {
    for first in 0..threads {
        let turns = schedule_of(rt.alloc(), threads, first, stretch)?;
        expect_each_serial(rt, source, &turns)?;
    }
    Ok(())
}

#[test]
fn stretches_of_turns_come_to_whole_sections(rt: HostRuntime) -> Result<(), Fail> {
    for (source, threads) in THREADS {
        for stretch in 1..8u8 {
            expect_stretches(&rt, source, *threads, stretch)?;
        }
    }
    Ok(())
}
