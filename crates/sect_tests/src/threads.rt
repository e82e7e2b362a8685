//! Compiled programs run by threads: who is started, what the gate is told, and who is woken.

ghost use Rattle.std.specs.Prelude.{◌<◌};

use sect_emit::{Compiled, compile};
use sect_run::{Gate, run_threads};
use sect_world::{Deed, Event, EventKind};
use std::alloc::{AllocError, Global};
use std::process::Abort;
use std::sync::Wait;
use std::sync::atomic::{AtomicU32, Ordering};
use std::test::Fail;
use std::thread;
use std::thread::Threads;
use std::time::{Clock, Duration};

/// Threads whose objects are in different classes, so that none waits.
const APART: &str = "record Acct { int bal; } record Node { int val; }
global Acct a; global Node b;
thread p { int v; v = 1; atomic { a.bal = v; v = a.bal; a.bal = 3; } v = 2; }
thread q { atomic { b.val = 2; } }
";

/// Two threads that add to one object.
const ADDING: &str = "record Acct { int bal; } global Acct a;
thread p { int t; atomic { t = a.bal; t = t + 1; a.bal = t; } }
thread q { int t; atomic { t = a.bal; t = t + 1; a.bal = t; } }
";

/// Three threads that read what thread 0 writes.
const READERS: &str = "record Acct { int bal; } global Acct a;
thread w { atomic { a.bal = 1; } }
thread p { int v; atomic { v = a.bal; } }
thread q { int v; atomic { v = a.bal; } }
thread r { int v; atomic { v = a.bal; } }
";

/// How many kinds of events there are.
const KINDS: usize = 7;

/// How often a gate looks before it gives up, a millisecond apart.
const LOOKS: u32 = 10_000;

/// The place of a kind among all.
fn place_of(kind: EventKind) -> usize
    ensures { result < KINDS }
{
    match kind {
        EventKind::Local => 0,
        EventKind::Enter => 1,
        EventKind::Take => 2,
        EventKind::Begin => 3,
        EventKind::Again => 4,
        EventKind::Act => 5,
        EventKind::Leave => 6,
    }
}

/// The kind of an event.
fn kind_of(event: &Event) -> EventKind {
    match event.deed {
        Deed::Local => EventKind::Local,
        Deed::Enter => EventKind::Enter,
        Deed::Take { key: _, mode: _ } => EventKind::Take,
        Deed::Begin => EventKind::Begin,
        Deed::Again => EventKind::Again,
        Deed::Act => EventKind::Act,
        Deed::Leave => EventKind::Leave,
    }
}

/// Counts events by thread and kind, and has workers started for the threads from this one on.
#[derive(Drop)]
struct Counts {
    first: u16,
    counts: Vec<AtomicU32>,
}

impl Counts {
    /// None so far, of so many threads.
    fn new(alloc: Global, threads: usize, first: u16) -> Result<Counts, AllocError> {
        let mut counts = Vec::new(alloc);
        for _ in 0..threads {
            for _ in 0..KINDS {
                counts.push(AtomicU32::new(0))?;
            }
        }
        Ok(Counts { first, counts })
    }

    /// How many events of a kind a thread has made.
    fn of(&self, thread: u16, kind: EventKind) -> u32 {
        match self.counts.get(thread as usize * KINDS + place_of(kind)) {
            Some(count) => count.load(Ordering::SeqCst),
            None => 0,
        }
    }
}

impl Gate for Counts {
    fn starts(&self, thread: u16) -> bool {
        thread >= self.first
    }

    fn is_open(&self) -> bool {
        false
    }

    fn at(&self, thread: u16, kind: EventKind) {
        if let Some(count) = self.counts.get(thread as usize * KINDS + place_of(kind)) {
            count.fetch_add(1, Ordering::SeqCst);
        }
    }
}

/// All kinds but `Take`: a key may be taken in another thread's turn.
const OWN: [EventKind; 6] = [
    EventKind::Local,
    EventKind::Enter,
    EventKind::Begin,
    EventKind::Again,
    EventKind::Act,
    EventKind::Leave,
];

/// How many events of a kind a thread has among these.
fn made(events: &[Event], thread: u16, kind: EventKind) -> usize {
    events
        .iter()
        .filter(|event| event.thread == thread && kind_of(event) == kind)
        .count()
}

/// A program compiled for paths of two fields.
fn compiled(alloc: Global, text: &str) -> Result<Compiled, Fail> {
    Ok(compile(alloc, text.as_bytes(), 2)?)
}

/// A run whose gate has the workers of threads from this one on started is told of each of a thread's own events, once.
fn expect_told(
    rt: &(impl Threads + Wait + Sync + AllocGlobal + Abort),
    text: &str,
    kinds: &[EventKind],
    first: u16,
) -> Result<(), Fail> {
    let compiled = compiled(rt.alloc(), text)?;
    let gate = Counts::new(rt.alloc(), 2, first)?;
    let run = run_threads(rt, rt.alloc(), &compiled, 10_000, &gate)?;
    let events = run.events.since(rt.alloc(), 0)?;
    for thread in 0..2u16 {
        assert_eq!(rt; made(events.as_slice(), thread, EventKind::Leave), 1);
        for kind in kinds {
            let told = gate.of(thread, *kind) as usize;
            assert_eq!(rt; told, made(events.as_slice(), thread, *kind), "{thread}");
        }
    }
    Ok(())
}

#[test]
fn gate_is_told_of_each_event(rt: HostRuntime) -> Result<(), Fail> {
    expect_told(&rt, APART, &OWN, 0)?;
    expect_told(&rt, APART, &[EventKind::Take], 0)?;
    expect_told(&rt, ADDING, &OWN, 0)
}

#[test]
fn caller_makes_the_turns_of_the_first_thread(rt: HostRuntime) -> Result<(), Fail> {
    expect_told(&rt, APART, &OWN, 1)?;
    expect_told(&rt, APART, &[EventKind::Take], 1)?;
    expect_told(&rt, ADDING, &OWN, 1)
}

#[test]
fn caller_makes_all_turns_where_no_worker_is_started(rt: HostRuntime) -> Result<(), Fail> {
    expect_told(&rt, APART, &OWN, 2)?;
    expect_told(&rt, APART, &[EventKind::Take], 2)?;
    expect_told(&rt, ADDING, &OWN, 2)
}

/// An open gate that counts what it is told all the same, and how often it is asked whether it is open. It has all
/// workers started, or none.
#[derive(Drop)]
struct CountsOpen {
    starts: bool,
    told: AtomicU32,
    asked: AtomicU32,
}

impl Gate for CountsOpen {
    fn starts(&self, _thread: u16) -> bool {
        self.starts
    }

    fn is_open(&self) -> bool {
        self.asked.fetch_add(1, Ordering::SeqCst);
        true
    }

    fn at(&self, _thread: u16, _kind: EventKind) {
        self.told.fetch_add(1, Ordering::SeqCst);
    }
}

/// A run whose gate is open goes to its end, and the gate is asked for that once and told nothing.
fn expect_untold(
    rt: &(impl Threads + Wait + Sync + AllocGlobal + Abort),
    starts: bool,
) -> Result<(), Fail> {
    let compiled = compiled(rt.alloc(), ADDING)?;
    let gate = CountsOpen {
        starts,
        told: AtomicU32::new(0),
        asked: AtomicU32::new(0),
    };
    let run = run_threads(rt, rt.alloc(), &compiled, 10_000, &gate)?;
    assert_eq!(rt; gate.told.load(Ordering::SeqCst), 0);
    assert_eq!(rt; gate.asked.load(Ordering::SeqCst), 1);
    let events = run.events.since(rt.alloc(), 0)?;
    for thread in 0..2u16 {
        assert_eq!(rt; made(events.as_slice(), thread, EventKind::Act), 3);
        assert_eq!(rt; made(events.as_slice(), thread, EventKind::Leave), 1);
    }
    Ok(())
}

#[test]
fn open_gate_is_told_nothing(rt: HostRuntime) -> Result<(), Fail> {
    expect_untold(&rt, true)?;
    expect_untold(&rt, false)
}

/// Keeps the readers before their sections until the writer has begun, the writer in its section until the three wait
/// for its key, and each reader in its section until all three are in theirs.
#[derive(Drop)]
struct KeepsReaders<'a> {
    clock: &'a HostRuntime,
    begun: AtomicU32,
    taken: AtomicU32,
    inside: AtomicU32,
    late: AtomicU32,
}

/// Looks until so many were counted, and says whether they were.
fn was_reached(clock: &impl Clock, count: &AtomicU32, wanted: u32) -> bool {
    for _ in 0..LOOKS {
        if count.load(Ordering::SeqCst) >= wanted {
            return true;
        }
        thread::sleep(clock, Duration::from_millis(1));
    }
    false
}

impl<'a> KeepsReaders<'a> {
    /// Keeps the caller until so many were counted. Whoever waits in vain is late.
    fn keep(&self, count: &AtomicU32, wanted: u32) {
        if !was_reached(self.clock, count, wanted) {
            self.late.fetch_add(1, Ordering::SeqCst);
        }
    }
}

impl<'a> Gate for KeepsReaders<'a> {
    fn starts(&self, _thread: u16) -> bool {
        true
    }

    fn is_open(&self) -> bool {
        false
    }

    fn at(&self, thread: u16, kind: EventKind) {
        match (thread, kind) {
            // Each reader takes the keys of all and of the class, and then waits for that of the object.
            (0, EventKind::Begin) => {
                self.begun.fetch_add(1, Ordering::SeqCst);
                self.keep(&self.taken, 6);
                thread::sleep(self.clock, Duration::from_millis(200));
            }
            (0, _) => {}
            (_, EventKind::Enter) => self.keep(&self.begun, 1),
            (_, EventKind::Take) => {
                self.taken.fetch_add(1, Ordering::SeqCst);
            }
            (_, EventKind::Begin) => {
                self.inside.fetch_add(1, Ordering::SeqCst);
                self.keep(&self.inside, 3);
            }
            _ => {}
        }
    }
}

/// How many keys others take in the turn in which thread 0 leaves: the events that follow at once.
fn let_in(events: &[Event]) -> usize {
    let mut after = events.iter().skip_while(|event| event.thread != 0
        || kind_of(event) != EventKind::Leave);
    let _leave = after.next();
    after
        .take_while(|event| kind_of(event) == EventKind::Take)
        .count()
}

#[test]
fn one_leave_wakes_three_readers(rt: HostRuntime) -> Result<(), Fail> {
    let compiled = compiled(rt.alloc(), READERS)?;
    let gate = KeepsReaders {
        clock: &rt,
        begun: AtomicU32::new(0),
        taken: AtomicU32::new(0),
        inside: AtomicU32::new(0),
        late: AtomicU32::new(0),
    };
    let run = run_threads(&rt, rt.alloc(), &compiled, 10_000, &gate)?;
    assert_eq!(rt; gate.late.load(Ordering::SeqCst), 0);
    assert_eq!(rt; gate.inside.load(Ordering::SeqCst), 3);
    let events = run.events.since(rt.alloc(), 0)?;
    assert_eq!(rt; let_in(events.as_slice()), 3);
    Ok(())
}
