//! Texts that are cut short: each is answered or refused by name, and all commands refuse alike.

use super::programs::PROGRAMS;
use super::{answer_of, expect_bytes};
use std::process::Abort;
use std::sync::Wait;
use std::test::Fail;
use std::thread::Threads;
use std::time::{Clock, CpuClock};

/// The refusals of a source text, up to the number of a line, an item or a record.
const REFUSED: [&str; 18] = [
    "refused 1 BadByte line ",
    "refused 2 BadNumber line ",
    "refused 3 LongName line ",
    "refused 4 Unexpected line ",
    "refused 5 UnexpectedEnd line ",
    "refused 6 TooDeep line ",
    "refused 7 TooLarge line ",
    "refused 10 Unknown item ",
    "refused 11 Twice item ",
    "refused 12 WrongType item ",
    "refused 13 SharedOutside item ",
    "refused 14 Nested item ",
    "refused 15 TooMany item ",
    "refused 16 Recursion item ",
    "refused 17 Arguments item ",
    "refused 20 NoSuchGlobal record ",
    "refused 21 GuardIsGuarded record ",
    "refused 22 HintTwice record ",
];

/// Those of the hints, at which `serial` doesn't look.
const HINTED: &[&str] = &["refused 20 ", "refused 21 ", "refused 22 "];

/// Those of a program that is right as a whole and is cut somewhere.
const CUT: &[&str] = &[
    "refused 1 BadByte line ",
    "refused 4 Unexpected line ",
    "refused 5 UnexpectedEnd line ",
    "refused 20 NoSuchGlobal record ",
];

/// The refusal of an order without threads.
const LEFT: &[&str] = &["refused 81 SectionsLeft thread "];

/// The refusals of a certificate and the source behind it, up to where they are.
const CHECKED: [&str; 12] = [
    "refused 40 Source ",
    "refused 41 Text 30 BadCertLine line ",
    "refused 41 Text 31 CertEnd line ",
    "refused 41 Text 32 NotCanonical line ",
    "refused 41 Text 33 OldVersion line 1",
    "refused 42 WrongProgram",
    "refused 43 NotGenerated section ",
    "refused 44 NotCarried section ",
    "refused 45 EntryNotCovered section ",
    "refused 46 NotMaximal section ",
    "refused 47 BrokenChain section ",
    "refused 48 NoChain section ",
];

/// The text is one line, and begins as one of these.
fn is_one_of(text: &str, refusals: &[&str]) -> bool {
    let begins = refusals.iter().any(|refusal| text.starts_with(*refusal));
    begins && text.ends_with("\n") && text.lines().count() == 1
}

/// What `locks` answers to a source text, which is refused as one of these if it is refused.
fn expect_known(
    rt: &(impl Threads + Wait + Sync + Clock + CpuClock + AllocGlobal + Abort),
    source: &[u8],
    refusals: &[&str],
) -> Result<(u8, String), Fail> {
    let (status, shown) = answer_of(rt, "locks", source)?;
    let is_refused = status == 1 && is_one_of(&shown, refusals);
    assert!(rt; status == 0 || is_refused, "{status}: {shown}");
    Ok((status, shown))
}

/// A command answers a source text that `locks` answers, and refuses another by the same line.
fn expect_alike(
    rt: &(impl Threads + Wait + Sync + Clock + CpuClock + AllocGlobal + Abort),
    line: &str,
    source: &[u8],
    status: u8,
    shown: &str,
) -> Result<(), Fail> {
    let (other, text) = answer_of(rt, line, source)?;
    assert_eq!(rt; other, status, "{line}: {text}");
    assert!(rt; status == 0 || text.as_str() == shown, "{line}: {text}");
    Ok(())
}

/// `compile`, `schedule` and `run` answer a source text that `locks` answers, and refuse another by the same line.
fn expect_all_alike(
    rt: &(impl Threads + Wait + Sync + Clock + CpuClock + AllocGlobal + Abort),
    source: &[u8],
    status: u8,
    shown: &str,
) -> Result<(), Fail> {
    for line in ["compile", "schedule", "run --fuel 500"] {
        expect_alike(rt, line, source, status, shown)?;
    }
    expect_serial(rt, source, status, shown)
}

/// `serial` refuses a source text by the line of `locks`, but for hints, and else answers it or misses its sections.
fn expect_serial(
    rt: &(impl Threads + Wait + Sync + Clock + CpuClock + AllocGlobal + Abort),
    source: &[u8],
    status: u8,
    shown: &str,
) -> Result<(), Fail> {
    let (other, text) = answer_of(rt, "serial", source)?;
    if status == 0 || is_one_of(shown, HINTED) {
        let is_left = other == 1 && is_one_of(&text, LEFT);
        assert!(rt; other == 0 || is_left, "{other}: {text}");
    } else {
        assert_eq!(rt; other, 1);
        assert_eq!(rt; text.as_str(), shown);
    }
    Ok(())
}

/// The refusals that end in a line.
const LINED: &[&str] = &[
    "refused 1 ",
    "refused 2 ",
    "refused 3 ",
    "refused 4 ",
    "refused 5 ",
    "refused 6 ",
];

/// The report of a text that is refused so names the number of the refusal, and the line, where it ends in one.
fn expect_named(rt: &(impl AllocGlobal + Abort), report: &str, refused: &str) -> Result<(), Fail> {
    let number = refused.split_whitespace().nth(1).unwrap_or("");
    let heading = format!(in rt.alloc(); "error[{number}]: ")?;
    assert!(rt; report.starts_with(heading.as_str()), "{refused}: {report}");
    if is_one_of(refused, LINED) {
        let line = refused.split_whitespace().last().unwrap_or("");
        let place = format!(in rt.alloc(); " --> {line}:")?;
        let second = report.lines().nth(1).unwrap_or("");
        assert!(rt; second.starts_with(place.as_str()), "{refused}: {report}");
    }
    Ok(())
}

/// `lint` accepts a source text that `locks` answers, and reports of another the mistake for which `locks` refuses it.
pub(super) fn expect_linted(
    rt: &(impl Threads + Wait + Sync + Clock + CpuClock + AllocGlobal + Abort),
    source: &[u8],
) -> Result<(), Fail> {
    let (status, shown) = expect_known(rt, source, &REFUSED)?;
    let (other, report) = answer_of(rt, "lint", source)?;
    assert_eq!(rt; other, status, "{report}");
    if status == 1 {
        expect_named(rt, &report, &shown)?;
    }
    Ok(())
}

/// Each command answers a source text, or refuses it by the line by which the others do, which is one of these.
fn expect_answers(
    rt: &(impl Threads + Wait + Sync + Clock + CpuClock + AllocGlobal + Abort),
    source: &[u8],
    refusals: &[&str],
) -> Result<(), Fail> {
    let (status, shown) = expect_known(rt, source, refusals)?;
    expect_all_alike(rt, source, status, &shown)
}

/// Each command answers any source text, or refuses it by the line by which the others do.
pub(super) fn expect_any(
    rt: &(impl Threads + Wait + Sync + Clock + CpuClock + AllocGlobal + Abort),
    source: &[u8],
) -> Result<(), Fail> {
    expect_answers(rt, source, &REFUSED)
}

/// Whether `check` finds that the input is valid; it refuses it by name where it isn't.
pub(super) fn is_valid(
    rt: &(impl Threads + Wait + Sync + Clock + CpuClock + AllocGlobal + Abort),
    input: &[u8],
) -> Result<bool, Fail> {
    let (status, text) = answer_of(rt, "check", input)?;
    let is_valid = status == 0 && text.as_str() == "valid\n";
    let is_refused = status == 1 && is_one_of(&text, &CHECKED);
    assert!(rt; is_valid || is_refused, "{status}: {text}");
    Ok(is_valid)
}

/// Each beginning of a text is answered, or refused as one of these.
fn expect_beginnings(
    rt: &(impl Threads + Wait + Sync + Clock + CpuClock + AllocGlobal + Abort),
    source: &[u8],
    refusals: &[&str],
) -> Result<(), Fail> {
    for count in 0..source.len() {
        expect_answers(rt, &source[..count], refusals)?;
    }
    Ok(())
}

#[test]
fn beginnings_of_programs(rt: HostRuntime) -> Result<(), Fail> {
    for source in PROGRAMS {
        expect_beginnings(&rt, source.as_bytes(), CUT)?;
    }
    Ok(())
}

/// The beginning of a certificate lacks the line in which it is cut.
fn expect_cut(
    rt: &(impl Threads + Wait + Sync + Clock + CpuClock + AllocGlobal + Abort),
    begun: &[u8],
) -> Result<(), Fail> {
    let feeds = begun.iter().filter(|byte| **byte == b'\n').count();
    let line = feeds.saturating_add(1);
    let text = format!(in rt.alloc(); "refused 41 Text 31 CertEnd line {line}\n")?;
    expect_bytes(rt, "check", begun, 1, &text)
}

/// Each beginning of a program's certificate lacks the line in which it is cut.
fn expect_cuts(
    rt: &(impl Threads + Wait + Sync + Clock + CpuClock + AllocGlobal + Abort),
    source: &str,
) -> Result<(), Fail> {
    let (status, certificate) = answer_of(rt, "compile --cert", source.as_bytes())?;
    assert_eq!(rt; status, 0, "{certificate}");
    let bytes = certificate.as_bytes();
    for count in 0..bytes.len() {
        expect_cut(rt, &bytes[..count])?;
    }
    Ok(())
}

#[test]
fn beginnings_of_certificates(rt: HostRuntime) -> Result<(), Fail> {
    for source in PROGRAMS {
        expect_cuts(&rt, source)?;
    }
    Ok(())
}
