//! What `lint` says of files whose names no case can have.

use super::words_of;
use sect_command::{Around, REFUSED, Screen, Texts, Writers, command_on_texts};
use std::alloc::Global;
use std::io;
use std::process::Abort;
use std::sync::Wait;
use std::test::Fail;
use std::thread::Threads;
use std::time::{Clock, CpuClock};

/// One text, to which every name leads.
#[derive(Drop)]
struct OneText<'a> {
    text: &'a [u8],
}

impl Texts for OneText<'_> {
    ghost use Rattle.std.specs.Prelude.{None};

    ghost bytes_of = { λ _ _. None };

    fn text_of(&self, alloc: Global, _name: &str, _most: u64) -> io::Result<Vec<u8>> {
        Ok(self.text.to_vec(alloc)?)
    }
}

/// A command line refuses a text of one bad byte, and what it prints has this in it.
fn expect_told(
    rt: &(impl Threads + Wait + Sync + Clock + CpuClock + AllocGlobal + Abort),
    line: &str,
    part: &str,
) -> Result<(), Fail> {
    let words = words_of(rt.alloc(), line)?;
    let around = Around {
        texts: &OneText { text: b"$" },
        screen: Screen {
            colours: false,
            hints: false,
        },
    };
    let mut writers = Writers {
        output: Vec::new(rt.alloc()),
        errors: Vec::new(rt.alloc()),
    };
    let status = command_on_texts(rt, words.as_slice(), &around, &b""[..], &mut writers);
    assert_eq!(rt; status, REFUSED, "{line}");
    let shown = super::text_of(rt.alloc(), writers.output.as_slice())?;
    assert!(rt; shown.contains(part), "{line}: {shown}");
    Ok(())
}

#[test]
fn control_signs_of_a_name_are_shown_as_bytes(rt: HostRuntime) -> Result<(), Fail> {
    expect_told(&rt, "lint a\u{1b}[31m.sect", "\n --> a\\x1b[31m.sect:1:1\n")?;
    expect_told(&rt, "lint a\u{7f}\u{e9}", "\n --> a\\x7f\\xc3\\xa9:1:1\n")?;
    expect_told(&rt, "lint caf\u{e9}.sect", "\n --> caf\u{e9}.sect:1:1\n")
}

#[test]
fn names_are_written_as_uris(rt: HostRuntime) -> Result<(), Fail> {
    let lint = "lint --format sarif";
    for (name, uri) in [
        ("/tmp/a.sect", "file:///tmp/a.sect"),
        ("../a-b_c~d.sect", "../a-b_c~d.sect"),
        ("caf\u{e9}.sect", "caf%C3%A9.sect"),
        ("%41:?#[]@\u{1b}.sect", "%2541%3A%3F%23%5B%5D%40%1B.sect"),
    ] {
        let line = format!(in rt.alloc(); "{lint} {name}")?;
        let part = format!(in rt.alloc(); "\"artifactLocation\":{{\"uri\":\"{uri}\"}}")?;
        expect_told(&rt, line.as_str(), part.as_str())?;
    }
    Ok(())
}
