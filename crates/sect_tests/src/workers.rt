//! Sections whose locks several workers infer.

use crate::programs::{LIST, TWO_ADDING, scheme};
use sect_infer::{InferFault, Locks, Seen, infer, infer_all};
use sect_names::Scheme;
use std::alloc::{AllocError, Global};
use std::process::Abort;
use std::sync::Wait;
use std::sync::atomic::{AtomicU32, Ordering};
use std::test::Fail;
use std::thread;
use std::thread::Threads;
use std::time::{Clock, Duration};

/// A thread with four sections, each of which reads another object.
const FOUR: &[u8] =
    b"record Acct { int bal; } global Acct a; global Acct b; global Acct c; global Acct d; \
thread t { int v; atomic { v = a.bal; } atomic { v = b.bal; } atomic { v = c.bal; } atomic { v = d.bal; } }";

/// How often a worker waits for the other ones, a millisecond each time.
const MOST_WAITS: u32 = 10_000;

/// Keeps the worker of each section until so many sections were seen, or it has waited too often.
#[derive(Drop)]
struct Meeting<'a> {
    clock: &'a HostRuntime,
    wanted: u32,
    seen: AtomicU32,
    late: AtomicU32,
}

impl<'a> Meeting<'a> {
    /// Of so many sections none was seen yet.
    fn new(clock: &'a HostRuntime, wanted: u32) -> Meeting<'a> {
        Meeting {
            clock,
            wanted,
            seen: AtomicU32::new(0),
            late: AtomicU32::new(0),
        }
    }
}

/// Waits until so many sections were seen, and says whether they were.
fn have_met(clock: &impl Clock, seen: &AtomicU32, wanted: u32) -> bool {
    for _ in 0..MOST_WAITS {
        if seen.load(Ordering::SeqCst) >= wanted {
            return true;
        }
        thread::sleep(clock, Duration::from_millis(1));
    }
    false
}

impl<'a> Seen for Meeting<'a> {
    fn starts(&self, _worker: u16) -> bool {
        true
    }

    fn at(&self, _section: u16) {
        self.seen.fetch_add(1, Ordering::SeqCst);
        if !have_met(self.clock, &self.seen, self.wanted) {
            self.late.fetch_add(1, Ordering::SeqCst);
        }
    }
}

/// As many workers as a scheme has sections are all at work at once: each has found its section's locks before any of
/// them ends.
fn all_meet(
    rt: &(impl Threads + Wait + Sync + AllocGlobal + Abort),
    scheme: &Scheme,
    meeting: &Meeting<'_>,
) -> Result<(), Fail> {
    let sections = scheme.program().section_count();
    let found = infer_all(rt, rt.alloc(), scheme, sections, meeting)?;
    assert_eq!(rt; found.len(), usize::from(sections));
    assert_eq!(rt; meeting.late.load(Ordering::SeqCst), 0);
    assert_eq!(rt; meeting.seen.load(Ordering::SeqCst), u32::from(sections));
    Ok(())
}

#[test]
fn workers_are_at_work_at_once(rt: HostRuntime) -> Result<(), Fail> {
    let two = scheme(rt.alloc(), TWO_ADDING, 2)?;
    all_meet(&rt, &two, &Meeting::new(&rt, 2))?;
    let four = scheme(rt.alloc(), FOUR, 2)?;
    all_meet(&rt, &four, &Meeting::new(&rt, 4))
}

/// Has the workers from this one on started, and counts how often each section is seen.
#[derive(Drop)]
struct Counts {
    first: u16,
    seen: Vec<AtomicU32>,
}

impl Counts {
    /// None so far, of so many sections.
    fn new(alloc: Global, first: u16, sections: usize) -> Result<Counts, AllocError> {
        let mut seen = Vec::new(alloc);
        for _ in 0..sections {
            seen.push(AtomicU32::new(0))?;
        }
        Ok(Counts { first, seen })
    }
}

impl Seen for Counts {
    fn starts(&self, worker: u16) -> bool {
        worker >= self.first
    }

    fn at(&self, section: u16) {
        if let Some(count) = self.seen.get(usize::from(section)) {
            count.fetch_add(1, Ordering::SeqCst);
        }
    }
}

/// Three workers, of whom those from this one on are started, find what one call after another finds, and each section
/// is seen once.
fn each_is_seen_once(
    rt: &(impl Threads + Wait + Sync + AllocGlobal + Abort),
    scheme: &Scheme,
    first: u16,
) -> Result<(), Fail> {
    let counts = Counts::new(
        rt.alloc(),
        first,
        usize::from(scheme.program().section_count()),
    )?;
    let all = infer_all(rt, rt.alloc(), scheme, 3, &counts)?;
    are_found_alone(rt, scheme, all.as_slice())?;
    for count in counts.seen.as_slice() {
        assert_eq!(rt; count.load(Ordering::SeqCst), 1, "from {first} on");
    }
    Ok(())
}

#[test]
fn the_caller_infers_for_workers_that_are_not_started(rt: HostRuntime) -> Result<(), Fail> {
    let scheme = scheme(rt.alloc(), FOUR, 2)?;
    for first in 0..4u16 {
        each_is_seen_once(&rt, &scheme, first)?;
    }
    Ok(())
}

/// Has all workers started, is told of sections and does nothing.
#[derive(Clone, Copy)]
struct Unseen;

impl Seen for Unseen {
    fn starts(&self, _worker: u16) -> bool {
        true
    }

    fn at(&self, _section: u16) {}
}

/// The locks of a node are those that one call finds.
fn has_node_of(
    rt: &(impl AllocGlobal + Abort),
    found: &Locks,
    alone: &Locks,
    node: usize,
) -> Result<(), Fail> {
    assert!(rt; node < found.node_count() && node < alone.node_count() && node < 65_536);
    let (one, other) = (
        found.at(rt.alloc(), node as u16)?,
        alone.at(rt.alloc(), node as u16)?,
    );
    assert!(rt; one.as_slice() == other.as_slice(), "node {node}");
    Ok(())
}

/// The locks of a section are those that one call finds.
fn is_found_alone(
    rt: &(impl AllocGlobal + Abort),
    scheme: &Scheme,
    section: usize,
    found: &Locks,
) -> Result<(), Fail> {
    assert!(rt; section < usize::from(scheme.program().section_count()));
    let alone = infer(rt.alloc(), scheme, section as u16)?;
    assert!(rt; found.entry() == alone.entry(), "section {section}");
    assert_eq!(rt; found.node_count(), alone.node_count());
    for node in 0..alone.node_count() {
        has_node_of(rt, found, &alone, node)?;
    }
    Ok(())
}

/// The locks of each section are those that one call finds.
fn are_found_alone(
    rt: &(impl AllocGlobal + Abort),
    scheme: &Scheme,
    all: &[Locks],
) -> Result<(), Fail> {
    assert_eq!(rt; all.len(), usize::from(scheme.program().section_count()));
    for (section, found) in all.iter().enumerate() {
        is_found_alone(rt, scheme, section, found)?;
    }
    Ok(())
}

/// So many workers find what one call after another finds.
fn agree(
    rt: &(impl Threads + Wait + Sync + AllocGlobal + Abort),
    scheme: &Scheme,
    workers: u16,
) -> Result<(), Fail> {
    let all = infer_all(rt, rt.alloc(), scheme, workers, &Unseen)?;
    are_found_alone(rt, scheme, all.as_slice())
}

/// Any number of workers finds what one call after another finds.
fn agree_all(
    rt: &(impl Threads + Wait + Sync + AllocGlobal + Abort),
    scheme: &Scheme,
) -> Result<(), Fail> {
    for workers in 1..17u16 {
        agree(rt, scheme, workers)?;
    }
    Ok(())
}

#[test]
fn any_number_of_workers_finds_the_same(rt: HostRuntime) -> Result<(), Fail> {
    agree_all(&rt, &scheme(rt.alloc(), LIST, 2)?)?;
    agree_all(&rt, &scheme(rt.alloc(), FOUR, 2)?)
}

/// So many workers are refused.
fn is_refused(
    rt: &(impl Threads + Wait + Sync + AllocGlobal + Abort),
    scheme: &Scheme,
    workers: u16,
) {
    match infer_all(rt, rt.alloc(), scheme, workers, &Unseen) {
        Ok(_) => assert!(rt; false, "{workers} workers"),
        Err(fault) => assert!(rt; fault == InferFault::BadWorkers),
    }
}

#[test]
fn other_numbers_of_workers_are_refused(rt: HostRuntime) -> Result<(), Fail> {
    let list = scheme(rt.alloc(), LIST, 2)?;
    is_refused(&rt, &list, 0);
    is_refused(&rt, &list, 17);
    is_refused(&rt, &list, 65535);
    Ok(())
}
