//! Random programs with long sections, run by threads: each comes to what its whole sections come to in that order.

use crate::orders::{outcome_text, shown};
use sect_emit::compile;
use sect_run::{Gate, run_threads};
use sect_world::EventKind;
use std::alloc::{AllocError, Global};
use std::process::Abort;
use std::sync::Wait;
use std::sync::atomic::{AtomicU32, Ordering};
use std::test::Fail;
use std::thread::Threads;

/// How many programs are run.
const PROGRAMS: u32 = 100;

/// The fuel of each thread.
const FUEL: u32 = 2_000;

/// What a section may do in each round of its loop.
const STATEMENTS: [&str; 14] = [
    "t = a.v;",
    "a.v = t;",
    "t = b.v;",
    "b.v = t;",
    "x = a.next;",
    "a.next = b;",
    "b.next = x;",
    "t = x.v;",
    "x.v = t;",
    "x = new N;",
    "a.next = x;",
    "t = t + i;",
    "x = b;",
    "print t;",
];

/// Numbers that look random, one after another.
#[derive(Drop)]
struct Numbers {
    state: u32,
}

impl Numbers {
    /// One of the statements.
    fn statement(&mut self) -> &'static str {
        self.state = self
            .state
            .wrapping_mul(1_664_525)
            .wrapping_add(1_013_904_223);
        let place = (self.state >> 16) as usize % STATEMENTS.len();
        STATEMENTS[place]
    }
}

/// Adds a thread with code outside sections and two sections, each with a loop.
fn put_thread(text: &mut String, name: &str, numbers: &mut Numbers) -> Result<(), AllocError> {
    text.push_str("thread ")?;
    text.push_str(name)?;
    text.push_str(" { N x; int t; int i; x = a; while (i < 20) { i = i + 1; } ")?;
    for _ in 0..2u8 {
        text.push_str("i = 0; atomic { while (i < 20) { ")?;
        for _ in 0..3u8 {
            text.push_str(numbers.statement())?;
        }
        text.push_str(" i = i + 1; } } ")?;
    }
    text.push_str("}\n")
}

/// A program of three threads.
fn program(alloc: Global, numbers: &mut Numbers) -> Result<String, AllocError> {
    let mut text = String::from_str(
        alloc,
        "record N { int v; N next; } global N a; global N b;\n",
    )?;
    put_thread(&mut text, "p", numbers)?;
    put_thread(&mut text, "q", numbers)?;
    put_thread(&mut text, "r", numbers)?;
    Ok(text)
}

/// An open gate that counts the stretches that are run, and those that couldn't be added.
#[derive(Drop)]
struct Stretches {
    run: AtomicU32,
    stale: AtomicU32,
}

impl Gate for Stretches {
    fn starts(&self, _thread: u16) -> bool {
        true
    }

    fn is_open(&self) -> bool {
        true
    }

    fn at(&self, _thread: u16, _kind: EventKind) {}

    fn apart(&self, _thread: u16) {
        self.run.fetch_add(1, Ordering::SeqCst);
    }

    fn was_stale(&self, _thread: u16) {
        self.stale.fetch_add(1, Ordering::SeqCst);
    }
}

/// A run of a program comes to what whole sections come to in its order.
fn expect_serial(
    rt: &(impl Threads + Wait + Sync + AllocGlobal + Abort),
    source: &str,
    gate: &Stretches,
) -> Result<(), Fail> {
    let alloc = rt.alloc();
    let compiled = compile(alloc, source.as_bytes(), 2)?;
    let run = run_threads(rt, alloc, &compiled, FUEL, gate)?;
    let came_to = outcome_text(alloc, compiled.scheme().program(), &run.outcome)?;
    let wanted = shown(alloc, source, FUEL, run.outcome.order())?;
    assert!(rt; came_to.as_str() == wanted.as_str(), "{source}");
    Ok(())
}

#[test]
fn random_programs_come_to_what_whole_sections_come_to(rt: HostRuntime) -> Result<(), Fail> {
    let mut numbers = Numbers { state: 1 };
    let gate = Stretches {
        run: AtomicU32::new(0),
        stale: AtomicU32::new(0),
    };
    for _ in 0..PROGRAMS {
        let source = program(rt.alloc(), &mut numbers)?;
        expect_serial(&rt, source.as_str(), &gate)?;
    }
    assert!(rt; gate.run.load(Ordering::SeqCst) > PROGRAMS);
    assert_eq!(rt; gate.stale.load(Ordering::SeqCst), 0);
    Ok(())
}
