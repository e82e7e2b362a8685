//! The command `run` over memory, and runs whose threads are kept at a gate.

use super::programs::PROCEDURE;
use super::{LIST, TWO_ADD, answer_of, expect_runs_in_order};
use sect_answers::{Format, run_outcome};
use sect_run::Gate;
use sect_world::EventKind;
use std::alloc::{AllocError, Global};
use std::fmt::Write;
use std::process::Abort;
use std::sync::Wait;
use std::sync::atomic::{AtomicBool, Ordering};
use std::test::Fail;
use std::thread;
use std::thread::Threads;
use std::time::{Clock, CpuClock, Duration};

const APART: &str = "record Acct { int bal; }
global Acct a; global Acct b;
thread p { Acct x; x = b; x = a; atomic { x.bal = 1; } }
thread q { atomic { b.bal = 2; } }
";

/// How often a gate looks before it gives up, a millisecond apart.
const LOOKS: u32 = 10_000;

/// Looks until it is set, and says whether it was.
fn was_seen(rt: &HostRuntime, seen: &AtomicBool) -> bool {
    for _ in 0..LOOKS {
        if seen.load(Ordering::SeqCst) {
            return true;
        }
        thread::sleep(rt, Duration::from_millis(1));
    }
    false
}

/// Keeps thread 0 after its `begin` until thread 1 was seen to leave.
#[derive(Drop)]
struct KeepsTheFirst<'a> {
    rt: &'a HostRuntime,
    left: AtomicBool,
    gave_up: AtomicBool,
}

impl<'a> Gate for KeepsTheFirst<'a> {
    fn starts(&self, _thread: u16) -> bool {
        true
    }

    fn is_open(&self) -> bool {
        false
    }

    fn at(&self, thread: u16, kind: EventKind) {
        if thread == 1 && kind == EventKind::Leave {
            self.left.store(true, Ordering::SeqCst);
        }
        if thread == 0 && kind == EventKind::Begin && !was_seen(self.rt, &self.left) {
            self.gave_up.store(true, Ordering::SeqCst);
        }
    }
}

/// Keeps each of two threads after its `begin` until the other was seen to begin.
#[derive(Drop)]
struct KeepsBoth<'a> {
    rt: &'a HostRuntime,
    first: AtomicBool,
    second: AtomicBool,
    gave_up: AtomicBool,
}

/// Says that one thread has begun, looks whether the other has, and says whether that was seen.
fn have_met(rt: &HostRuntime, own: &AtomicBool, other: &AtomicBool) -> bool {
    own.store(true, Ordering::SeqCst);
    was_seen(rt, other)
}

impl<'a> Gate for KeepsBoth<'a> {
    fn starts(&self, _thread: u16) -> bool {
        true
    }

    fn is_open(&self) -> bool {
        false
    }

    fn at(&self, thread: u16, kind: EventKind) {
        if kind != EventKind::Begin {
            return;
        }
        let met = if thread == 0 {
            have_met(self.rt, &self.first, &self.second)
        } else {
            have_met(self.rt, &self.second, &self.first)
        };
        if !met {
            self.gave_up.store(true, Ordering::SeqCst);
        }
    }
}

#[test]
fn two_sections_overlap(rt: HostRuntime) -> Result<(), Fail> {
    let gate = KeepsTheFirst {
        rt: &rt,
        left: AtomicBool::new(false),
        gave_up: AtomicBool::new(false),
    };
    let shown = run_outcome(
        &rt,
        rt.alloc(),
        APART.as_bytes(),
        2,
        10_000,
        &gate,
        Format::Text,
    )?;
    assert!(rt; !gate.gave_up.load(Ordering::SeqCst));
    assert_eq!(rt;
        shown.as_str(),
        "thread 0 done\nthread 1 done\norder 1 0\nobject a bal=1\nobject b bal=2\n"
    );
    Ok(())
}

#[test]
fn two_workers_were_seen(rt: HostRuntime) -> Result<(), Fail> {
    let gate = KeepsBoth {
        rt: &rt,
        first: AtomicBool::new(false),
        second: AtomicBool::new(false),
        gave_up: AtomicBool::new(false),
    };
    let shown = run_outcome(
        &rt,
        rt.alloc(),
        APART.as_bytes(),
        2,
        10_000,
        &gate,
        Format::Text,
    )?;
    assert!(rt; !gate.gave_up.load(Ordering::SeqCst));
    assert!(rt; gate.first.load(Ordering::SeqCst));
    assert!(rt; gate.second.load(Ordering::SeqCst));
    assert!(rt;
        shown.starts_with("thread 0 done\nthread 1 done\n"),
        "{shown}"
    );
    assert!(rt;
        shown.ends_with("\nobject a bal=1\nobject b bal=2\n"),
        "{shown}"
    );
    Ok(())
}

/// A run of two threads that add to one object loses neither addition.
fn expect_two(
    rt: &(impl Threads + Wait + Sync + Clock + CpuClock + AllocGlobal + Abort),
) -> Result<(), Fail> {
    let (status, shown) = answer_of(rt, "run", TWO_ADD.as_bytes())?;
    assert_eq!(rt; status, 0, "{shown}");
    let begins = shown.starts_with("thread 0 done\nthread 1 done\norder ");
    assert!(rt; begins && shown.ends_with("\nobject a bal=2\n"), "{shown}");
    Ok(())
}

#[test]
fn no_addition_is_lost(rt: HostRuntime) -> Result<(), Fail> {
    for _ in 0..100u8 {
        expect_two(&rt)?;
    }
    Ok(())
}

#[test]
fn whole_sections_come_to_the_same(rt: HostRuntime) -> Result<(), Fail> {
    expect_runs_in_order(&rt, LIST, 100)
}

#[test]
fn whole_sections_with_calls_come_to_the_same(rt: HostRuntime) -> Result<(), Fail> {
    expect_runs_in_order(&rt, PROCEDURE, 20)
}

/// 64 threads, each of which adds 1 to one object so many times.
fn contenders(alloc: Global, times: u32) -> Result<String, AllocError> {
    let mut source = String::from_str(alloc, "record Acct { int bal; } global Acct a; ")?;
    for thread in 0..64u8 {
        write!(
            source,
            "thread t{thread} {{ int i; int v; while (i < {times}) {{ \
            atomic {{ v = a.bal; v = v + 1; a.bal = v; }} i = i + 1; }} }} "
        )?;
    }
    Ok(source)
}

#[test]
fn sixty_four_threads_contend(rt: HostRuntime) -> Result<(), Fail> {
    let source = contenders(rt.alloc(), 200)?;
    let (status, shown) = answer_of(&rt, "run", source.as_bytes())?;
    assert_eq!(rt; status, 0, "{shown}");
    assert!(rt; shown.ends_with("\nobject a bal=12800\n"), "{shown}");
    Ok(())
}
