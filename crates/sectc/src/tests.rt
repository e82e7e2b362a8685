//! The program over memory: sweeps over many texts, threads that are kept at a gate, and streams that fail. What single
//! command lines print is told by the cases of `sect_cases`.

mod changed;
mod check;
mod hostile;
mod names;
mod programs;
mod run;
mod screens;
mod sessions;
mod streams;
mod stretch;
mod words;
mod workers;

use sect_command::command;
use std::alloc::{AllocError, Global};
use std::process::Abort;
use std::sync::Wait;
use std::test::Fail;
use std::thread::Threads;
use std::time::{Clock, CpuClock};

/// Two threads that add to one object.
const TWO_ADD: &str = "record Acct { int bal; }
global Acct a;
thread p { int t; atomic { t = a.bal; t = t + 1; a.bal = t; } }
thread q { int t; atomic { t = a.bal; t = t + 1; a.bal = t; } }
";

/// A thread that sums up a list, and one that puts a node at its front.
const LIST: &str = "record Node { int val; Node next; }
global Node head;
thread sum { Node p; int v; int s;
  atomic { p = head.next;
    while (p != null) { v = p.val; s = s + v; p = p.next; }
    print s; } }
thread push { Node n; Node p; int v; v = 5;
  atomic { n = new Node; n.val = v; p = head.next; n.next = p; head.next = n; } }
";

/// Adds a word.
fn put_word(alloc: Global, words: &mut Vec<String>, word: &str) -> Result<(), AllocError> {
    words.push(String::from_str(alloc, word)?)?;
    Ok(())
}

/// The words of a line, the program's name first.
fn words_of(alloc: Global, line: &str) -> Result<Vec<String>, AllocError> {
    let mut words = Vec::new(alloc);
    put_word(alloc, &mut words, "sectc")?;
    for word in line.split_whitespace() {
        put_word(alloc, &mut words, word)?;
    }
    Ok(words)
}

/// Runs a command line on an input, and returns the status.
fn status_of(
    rt: &(impl Threads + Wait + Sync + Clock + CpuClock + AllocGlobal + Abort),
    line: &str,
    input: &[u8],
    out: &mut Vec<u8>,
) -> Result<u8, AllocError> {
    let words = words_of(rt.alloc(), line)?;
    Ok(command(rt, words.as_slice(), input, out))
}

/// The text of what is printed.
fn text_of(alloc: Global, bytes: &[u8]) -> Result<String, AllocError> {
    let shown = String::from_utf8_lossy(alloc, bytes)?;
    String::from_str(alloc, shown.as_str())
}

/// What a command line prints of an input, and the status.
fn answer_of(
    rt: &(impl Threads + Wait + Sync + Clock + CpuClock + AllocGlobal + Abort),
    line: &str,
    input: &[u8],
) -> Result<(u8, String), Fail> {
    let mut out = Vec::new(rt.alloc());
    let status = status_of(rt, line, input, &mut out)?;
    Ok((status, text_of(rt.alloc(), out.as_slice())?))
}

/// Runs a command line on a source, and compares the status and the text.
fn expect_bytes(
    rt: &(impl Threads + Wait + Sync + Clock + CpuClock + AllocGlobal + Abort),
    line: &str,
    source: &[u8],
    status: u8,
    text: &str,
) -> Result<(), Fail> {
    let (got, shown) = answer_of(rt, line, source)?;
    assert_eq!(rt; got, status, "{line}: {shown}");
    assert_eq!(rt; shown.as_str(), text, "{line}");
    Ok(())
}

/// A run of a program of two sections, of thread 0 and of thread 1, comes to what they come to in their order.
fn expect_run_in_order(
    rt: &(impl Threads + Wait + Sync + Clock + CpuClock + AllocGlobal + Abort),
    source: &str,
) -> Result<(), Fail> {
    let (status, shown) = answer_of(rt, "run", source.as_bytes())?;
    assert_eq!(rt; status, 0, "{shown}");
    let order = if shown.contains("\norder 0 1\n") {
        "serial 0 1"
    } else {
        "serial 1 0"
    };
    expect_bytes(rt, order, source.as_bytes(), 0, &shown)
}

/// So many runs of a program of two sections come to what they come to in their order.
fn expect_runs_in_order(
    rt: &(impl Threads + Wait + Sync + Clock + CpuClock + AllocGlobal + Abort),
    source: &str,
    count: u8,
) -> Result<(), Fail> {
    for _ in 0..count {
        expect_run_in_order(rt, source)?;
    }
    Ok(())
}
