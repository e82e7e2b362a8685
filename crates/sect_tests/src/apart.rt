//! Sections that run at the same moment, and such as must not.

use sect_emit::{Compiled, compile};
use sect_modes::Key;
use sect_run::{Awaited, Gate, Meter, run_threads};
use sect_world::EventKind;
use std::alloc::Global;
use std::process::Abort;
use std::sync::Wait;
use std::sync::atomic::{AtomicU32, Ordering};
use std::test::Fail;
use std::thread;
use std::thread::Threads;
use std::time::{Clock, Duration};

/// Two threads with long sections on objects of their own.
const TWO_OBJECTS: &str = "record Acct { int bal; } global Acct a; global Acct b;
thread p { int i; int v; atomic { while (i < 100) { v = a.bal; v = v + 1; a.bal = v; i = i + 1; } } }
thread q { int i; int v; atomic { while (i < 100) { v = b.bal; v = v + 2; b.bal = v; i = i + 1; } } }
";

/// Two threads with long sections that read one object.
const TWO_READERS: &str = "record Acct { int bal; } global Acct a;
thread p { int i; int v; atomic { while (i < 100) { v = a.bal; i = i + 1; } } }
thread q { int i; int v; atomic { while (i < 100) { v = a.bal; i = i + 1; } } }
";

/// Two threads with long sections that write to one object.
const ONE_OBJECT: &str = "record Acct { int bal; } global Acct a;
thread p { int i; int v; atomic { while (i < 100) { v = a.bal; v = v + 1; a.bal = v; i = i + 1; } } }
thread q { int i; int v; atomic { while (i < 100) { v = a.bal; v = v + 1; a.bal = v; i = i + 1; } } }
";

/// Two threads with long loops outside sections.
const LOCAL_CODE: &str = "record Acct { int bal; } global Acct a; global Acct b;
thread p { int i; while (i < 100) { i = i + 1; } atomic { a.bal = i; } }
thread q { int i; while (i < 100) { i = i + 1; } atomic { b.bal = i; } }
";

/// Two threads that walk a list many times, under the key of its class. The section of the third, by which the list may
/// be any, isn't come to: one that waited to write would keep the second reader waiting behind it.
const WALKS: &str = "record Node { int val; Node next; } global Node a;
thread p { Node x; int i; int v;
  atomic { while (i < 50) { x = a; while (x != null) { v = x.val; x = x.next; } i = i + 1; } } }
thread q { Node x; int i; int v;
  atomic { while (i < 50) { x = a; while (x != null) { v = x.val; x = x.next; } i = i + 1; } } }
thread w { int i; if (i == 1) { atomic { a.next = a; } } }
";

/// How often the workers of the first two threads have been about to run a stretch without the lock, how often one of
/// them has looked for the other in vain, and how many stretches couldn't be added.
#[derive(Drop)]
struct Seen {
    first: AtomicU32,
    second: AtomicU32,
    in_vain: AtomicU32,
    stale: AtomicU32,
}

impl Seen {
    /// None has been.
    fn new() -> Seen {
        Seen {
            first: AtomicU32::new(0),
            second: AtomicU32::new(0),
            in_vain: AtomicU32::new(0),
            stale: AtomicU32::new(0),
        }
    }

    /// How often the worker of a thread has been, before this.
    fn come(&self, thread: u16) -> u32 {
        match thread {
            0 => self.first.fetch_add(1, Ordering::SeqCst),
            _ => self.second.fetch_add(1, Ordering::SeqCst),
        }
    }

    /// One has looked for the other in vain.
    fn miss(&self) {
        self.in_vain.fetch_add(1, Ordering::SeqCst);
    }

    /// A stretch couldn't be added.
    fn refuse(&self) {
        self.stale.fetch_add(1, Ordering::SeqCst);
    }

    /// Whether the worker of the other thread has been.
    fn has_come_beside(&self, thread: u16) -> bool {
        match thread {
            0 => self.second.load(Ordering::SeqCst) > 0,
            _ => self.first.load(Ordering::SeqCst) > 0,
        }
    }
}

/// An open gate that keeps each worker of the first two threads, when it is about to run a stretch without the lock for
/// the first time, until the other is as far, or for so many looks, a millisecond apart.
#[derive(Drop)]
struct KeepsApart<'a> {
    clock: &'a HostRuntime,
    looks: u32,
    seen: &'a Seen,
}

/// Whether the worker of the other thread has been, before so many looks are over.
fn is_beside(clock: &impl Clock, seen: &Seen, looks: u32, thread: u16) -> bool {
    for _ in 0..looks {
        if seen.has_come_beside(thread) {
            return true;
        }
        thread::sleep(clock, Duration::from_millis(1));
    }
    false
}

impl<'a> Gate for KeepsApart<'a> {
    fn starts(&self, _thread: u16) -> bool {
        true
    }

    fn is_open(&self) -> bool {
        true
    }

    fn at(&self, _thread: u16, _kind: EventKind) {}

    fn apart(&self, thread: u16) {
        if thread < 2
            && self.seen.come(thread) == 0
            && !is_beside(self.clock, self.seen, self.looks, thread)
        {
            self.seen.miss();
        }
    }

    fn was_stale(&self, _thread: u16) {
        self.seen.refuse();
    }
}

/// A program compiled for paths of two fields.
fn compiled(alloc: Global, text: &str) -> Result<Compiled, Fail> {
    Ok(compile(alloc, text.as_bytes(), 2)?)
}

/// Runs a program whose workers are kept so, sees that each stretch was added, and hands out how many workers looked in
/// vain for the other.
fn run_kept(
    rt: &(impl Threads + Wait + Sync + AllocGlobal + Abort),
    clock: &HostRuntime,
    text: &str,
    looks: u32,
) -> Result<u32, Fail> {
    let compiled = compiled(rt.alloc(), text)?;
    let seen = Seen::new();
    let gate = KeepsApart {
        clock,
        looks,
        seen: &seen,
    };
    let _run = run_threads(rt, rt.alloc(), &compiled, 10_000, &gate)?;
    assert_eq!(rt; seen.stale.load(Ordering::SeqCst), 0);
    Ok(seen.in_vain.load(Ordering::SeqCst))
}

#[test]
fn sections_on_two_objects_run_at_the_same_moment(rt: HostRuntime) -> Result<(), Fail> {
    assert_eq!(rt; run_kept(&rt, &rt, TWO_OBJECTS, 10_000)?, 0);
    Ok(())
}

#[test]
fn sections_that_read_one_object_run_at_the_same_moment(rt: HostRuntime) -> Result<(), Fail> {
    assert_eq!(rt; run_kept(&rt, &rt, TWO_READERS, 10_000)?, 0);
    Ok(())
}

#[test]
fn sections_that_walk_one_list_run_at_the_same_moment(rt: HostRuntime) -> Result<(), Fail> {
    assert_eq!(rt; run_kept(&rt, &rt, WALKS, 10_000)?, 0);
    Ok(())
}

#[test]
fn code_outside_sections_runs_at_the_same_moment(rt: HostRuntime) -> Result<(), Fail> {
    assert_eq!(rt; run_kept(&rt, &rt, LOCAL_CODE, 10_000)?, 0);
    Ok(())
}

#[test]
fn sections_that_write_to_one_object_never_run_at_the_same_moment(
    rt: HostRuntime,
) -> Result<(), Fail> {
    assert_eq!(rt; run_kept(&rt, &rt, ONE_OBJECT, 200)?, 1);
    Ok(())
}

/// An open gate that measures what threads wait for, and keeps each worker that is about to run a stretch without the
/// lock until another one waits, or for so many looks, a millisecond apart.
#[derive(Drop)]
struct KeepsForWaits<'a, R: Clock + Wait + Sync> {
    clock: &'a R,
    meter: Meter<'a, R>,
    waits: AtomicU32,
}

/// Whether a thread has come to wait, before so many looks are over.
fn is_waited(clock: &impl Clock, waits: &AtomicU32, looks: u32) -> bool {
    for _ in 0..looks {
        if waits.load(Ordering::SeqCst) > 0 {
            return true;
        }
        thread::sleep(clock, Duration::from_millis(1));
    }
    false
}

impl<'a, R: Clock + Wait + Sync> Gate for KeepsForWaits<'a, R> {
    fn starts(&self, _thread: u16) -> bool {
        true
    }

    fn is_open(&self) -> bool {
        true
    }

    fn at(&self, _thread: u16, _kind: EventKind) {}

    fn apart(&self, _thread: u16) {
        let _is_waited = is_waited(self.clock, &self.waits, 10_000);
    }

    fn was_stale(&self, thread: u16) {
        self.meter.was_stale(thread);
    }

    fn waits(&self, thread: u16, awaited: Awaited) {
        self.meter.waits(thread, awaited);
        self.waits.fetch_add(1, Ordering::SeqCst);
    }

    fn has_waited(&self, thread: u16) {
        self.meter.has_waited(thread);
    }
}

#[test]
fn the_wait_of_a_section_is_measured(rt: HostRuntime) -> Result<(), Fail> {
    let compiled = compiled(rt.alloc(), ONE_OBJECT)?;
    let gate = KeepsForWaits {
        clock: &rt,
        meter: Meter::new(&rt, rt.alloc(), 2)?,
        waits: AtomicU32::new(0),
    };
    let _run = run_threads(&rt, rt.alloc(), &compiled, 10_000, &gate)?;
    let KeepsForWaits {
        clock: _,
        meter,
        waits: _,
    } = gate;
    let measured = meter.measured()?;
    assert_eq!(rt; measured.stale, 0);
    assert_eq!(rt; measured.tallies.len(), 1);
    let tally = measured.tallies.get(0).ok_or("one wait")?;
    assert_eq!(rt; tally.count, 1);
    assert!(rt; tally.awaited.grip.key == Key::Global(0));
    assert!(rt; tally.total > Duration::ZERO);
    Ok(())
}
