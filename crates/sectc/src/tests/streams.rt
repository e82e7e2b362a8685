//! Readers and writers that fail, for each command.

use super::programs::TWO_THREADS;
use super::{answer_of, words_of};
use sect_command::command;
use std::io;
use std::io::{ErrorKind, Read, Write};
use std::process::Abort;
use std::sync::Wait;
use std::test::Fail;
use std::thread::Threads;
use std::time::{Clock, CpuClock};

/// A certificate and the text that it is of.
const CERTIFIED: &str =
    "sect-cert 2\nk 2\nsections 1\nsection 0 nodes 1\nnode 0: W all\nentry: W all\n\
    chain 0: 0 W all\nend\nthread e { atomic all { } }\n";

/// Each command with an input, and texts that are refused.
const COMMANDS: &[(&str, &str)] = &[
    ("locks", TWO_THREADS),
    ("explain", TWO_THREADS),
    ("conflicts", TWO_THREADS),
    ("conflicts --format json", TWO_THREADS),
    ("outcomes --format json", TWO_THREADS),
    ("compile", TWO_THREADS),
    ("compile --cert", TWO_THREADS),
    ("compile --workers 2 --cert", TWO_THREADS),
    ("check", CERTIFIED),
    ("serial 0 1", TWO_THREADS),
    ("schedule 0 1 0 1 0 1 0 1", TWO_THREADS),
    ("run", TWO_THREADS),
    ("locks", "thread t { atomic {"),
    ("check", "end\n$"),
];

/// Gives a text a byte at a time, and then fails.
#[derive(Drop)]
struct FailingReader<'a> {
    left: &'a [u8],
}

impl<'a> Read for FailingReader<'a> {
    fn read(&mut self, buf: &mut [u8]) -> io::Result<usize> {
        let Some((first, rest)) = self.left.split_first() else {
            return Err(io::Error::from(ErrorKind::TimedOut));
        };
        if buf.is_empty() {
            return Ok(0);
        }
        buf[0] = *first;
        self.left = rest;
        Ok(1)
    }
}

/// Takes some bytes, one at a time, and then fails; and it may fail where it is asked to hand on what it has.
#[derive(Drop)]
struct FailingWriter {
    room: usize,
    flushes: bool,
}

impl Write for FailingWriter {
    fn write(&mut self, buf: &[u8]) -> io::Result<usize> {
        if self.room == 0 {
            return Err(io::Error::from(ErrorKind::BrokenPipe));
        }
        if buf.is_empty() {
            return Ok(0);
        }
        self.room -= 1;
        Ok(1)
    }

    fn flush(&mut self) -> io::Result<()> {
        if self.flushes {
            Ok(())
        } else {
            Err(io::Error::from(ErrorKind::BrokenPipe))
        }
    }
}

/// A command whose input fails behind these bytes says so.
fn expect_unread(
    rt: &(impl Threads + Wait + Sync + Clock + CpuClock + AllocGlobal + Abort),
    words: &[String],
    given: &[u8],
) -> Result<(), Fail> {
    let mut out: Vec<u8> = Vec::new(rt.alloc());
    let got = command(rt, words, FailingReader { left: given }, &mut out);
    assert_eq!(rt; got, 3, "{}", given.len());
    assert!(rt;
        out.as_slice() == b"input or output failed\n".as_slice(),
        "{}",
        given.len()
    );
    Ok(())
}

/// A command whose input fails anywhere says so.
fn expect_all_unread(
    rt: &(impl Threads + Wait + Sync + Clock + CpuClock + AllocGlobal + Abort),
    line: &str,
    bytes: &[u8],
) -> Result<(), Fail> {
    let words = words_of(rt.alloc(), line)?;
    for given in 0..bytes.len() {
        expect_unread(rt, words.as_slice(), &bytes[..given])?;
    }
    Ok(())
}

#[test]
fn a_reader_fails_in_the_middle(rt: HostRuntime) -> Result<(), Fail> {
    for (line, input) in COMMANDS {
        expect_all_unread(&rt, line, input.as_bytes())?;
    }
    Ok(())
}

/// The status of a command line, where there is room for so many bytes.
fn written(
    rt: &(impl Threads + Wait + Sync + Clock + CpuClock + AllocGlobal + Abort),
    words: &[String],
    input: &[u8],
    room: usize,
    flushes: bool,
) -> u8 {
    command(rt, words, input, &mut FailingWriter { room, flushes })
}

/// A command fails where its output does, and has its own status where all of its output is taken.
fn expect_unwritten(
    rt: &(impl Threads + Wait + Sync + Clock + CpuClock + AllocGlobal + Abort),
    words: &[String],
    input: &[u8],
    count: usize,
    status: u8,
) {
    for room in 0..count {
        assert_eq!(rt; written(rt, words, input, room, true), 3, "{room}");
    }
    assert_eq!(rt; written(rt, words, input, count, true), status);
    assert_eq!(rt; written(rt, words, input, count, false), 3);
}

/// A command fails wherever its output does.
fn expect_line_unwritten(
    rt: &(impl Threads + Wait + Sync + Clock + CpuClock + AllocGlobal + Abort),
    line: &str,
    input: &[u8],
) -> Result<(), Fail> {
    let (status, text) = answer_of(rt, line, input)?;
    let words = words_of(rt.alloc(), line)?;
    expect_unwritten(rt, words.as_slice(), input, text.len(), status);
    Ok(())
}

#[test]
fn a_writer_fails_in_the_middle(rt: HostRuntime) -> Result<(), Fail> {
    for (line, input) in COMMANDS {
        expect_line_unwritten(&rt, line, input.as_bytes())?;
    }
    Ok(())
}

/// A wrong command line is answered though no input can be read, and fails where its output does.
fn expect_told(
    rt: &(impl Threads + Wait + Sync + Clock + CpuClock + AllocGlobal + Abort),
    line: &str,
) -> Result<(), Fail> {
    let words = words_of(rt.alloc(), line)?;
    let mut out: Vec<u8> = Vec::new(rt.alloc());
    let got = command(rt, words.as_slice(), FailingReader { left: b"" }, &mut out);
    assert_eq!(rt; got, 2, "{line}");
    assert_eq!(rt;
        written(rt, words.as_slice(), b"", out.len() / 2, true),
        3,
        "{line}"
    );
    Ok(())
}

#[test]
fn wrong_words_are_answered_without_the_input(rt: HostRuntime) -> Result<(), Fail> {
    for line in ["", "--help", "locks --k x", "compile --workers 65536"] {
        expect_told(&rt, line)?;
    }
    Ok(())
}
