//! What is shown to somebody at a terminal and to nobody else: colours, and where more is said of a refusal.

use super::{text_of, words_of};
use sect_command::{Around, NoTexts, Screen, Writers, command_on_texts, shows_colours};
use std::process::Abort;
use std::sync::Wait;
use std::test::Fail;
use std::thread::Threads;
use std::time::{Clock, CpuClock};

/// A text with a mistake.
const WRONG: &[u8] = b"thread t { x = 1; }\n";

/// What a command line writes to standard output and to standard error, of the text with a mistake on such a screen.
fn told(
    rt: &(impl Threads + Wait + Sync + Clock + CpuClock + AllocGlobal + Abort),
    line: &str,
    screen: Screen,
) -> Result<(String, String), Fail> {
    let words = words_of(rt.alloc(), line)?;
    let around = Around {
        texts: &NoTexts,
        screen,
    };
    let mut writers = Writers {
        output: Vec::new(rt.alloc()),
        errors: Vec::new(rt.alloc()),
    };
    let _status = command_on_texts(rt, words.as_slice(), &around, WRONG, &mut writers);
    let output = text_of(rt.alloc(), writers.output.as_slice())?;
    let errors = text_of(rt.alloc(), writers.errors.as_slice())?;
    Ok((output, errors))
}

#[test]
fn standard_error_is_told_of_lint_at_a_terminal(rt: HostRuntime) -> Result<(), Fail> {
    for (line, hints, said) in [
        ("locks", true, "sectc lint says where and why\n"),
        ("locks", false, ""),
        ("serial 0", true, "sectc lint says where and why\n"),
        ("locks --k 4", true, ""),
        ("lint", true, ""),
        ("inspect", true, ""),
        ("check", true, ""),
        ("serial p", true, "sectc lint says where and why\n"),
    ] {
        let screen = Screen {
            colours: false,
            hints,
        };
        let (_output, errors) = told(&rt, line, screen)?;
        assert_eq!(rt; errors.as_str(), said, "{line}");
    }
    Ok(())
}

#[test]
fn an_answer_is_in_colours_where_they_are_shown(rt: HostRuntime) -> Result<(), Fail> {
    for (line, colours, is_painted) in [
        ("lint", true, true),
        ("lint", false, false),
        ("lint --color never", true, false),
        ("lint --color always", false, true),
        ("lint --format json", true, false),
        ("explain", true, false),
    ] {
        let screen = Screen {
            colours,
            hints: false,
        };
        let (output, _errors) = told(&rt, line, screen)?;
        assert_eq!(rt; output.contains("\u{1b}[1;31m"), is_painted, "{line}");
    }
    Ok(())
}

#[test]
fn a_terminal_shows_colours_unless_it_is_told_not_to(rt: HostRuntime) -> Result<(), Fail> {
    assert!(rt; shows_colours(true, b"", b"xterm"));
    assert!(rt; shows_colours(true, b"", b""));
    assert!(rt; !shows_colours(true, b"1", b"xterm"));
    assert!(rt; !shows_colours(true, b"", b"dumb"));
    assert!(rt; !shows_colours(false, b"", b"xterm"));
    Ok(())
}
