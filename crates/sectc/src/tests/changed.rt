//! Texts whose bytes are swapped, dropped or doubled: each is answered or refused by name.

use super::hostile::{expect_any, expect_linted, is_valid};
use super::programs::PROGRAMS;
use super::{answer_of, text_of};
use std::alloc::{AllocError, Global};
use std::process::Abort;
use std::sync::Wait;
use std::test::Fail;
use std::thread::Threads;
use std::time::{Clock, CpuClock};

/// Numbers that look like chance, the same ones each time.
#[derive(Drop)]
pub struct Chance {
    pub state: u32,
}

impl Chance {
    /// The next number below a bound; 0 where the bound is 0.
    pub fn below(&mut self, bound: usize) -> usize {
        self.state = self.state.wrapping_mul(1664525).wrapping_add(1013904223);
        let number = (self.state >> 8) as usize;
        if bound == 0 { 0 } else { number % bound }
    }
}

/// Swaps two bytes of a text, drops one or doubles one, wherever chance will have it.
fn change(text: &mut Vec<u8>, chance: &mut Chance) -> Result<(), AllocError> {
    let (one, other) = (chance.below(text.len()), chance.below(text.len()));
    if one >= text.len() || other >= text.len() {
        return Ok(());
    }
    match chance.below(3) {
        0 => text.swap(one, other),
        1 => {
            text.remove(one);
        }
        _ => {
            let byte = text[one];
            text.insert(one, byte)?;
        }
    }
    Ok(())
}

/// The text with one to three changes.
pub fn changed(alloc: Global, text: &[u8], chance: &mut Chance) -> Result<Vec<u8>, AllocError> {
    let mut bytes = Vec::from_slice(alloc, text)?;
    change(&mut bytes, chance)?;
    for _ in 0..chance.below(3) {
        change(&mut bytes, chance)?;
    }
    Ok(bytes)
}

/// How many texts are made of each program, and as many of its certificate.
const TEXTS: u16 = 360;

/// The text with some changes is answered, or refused by name.
fn expect_answered(
    rt: &(impl Threads + Wait + Sync + Clock + CpuClock + AllocGlobal + Abort),
    source: &[u8],
    chance: &mut Chance,
) -> Result<(), Fail> {
    let input = changed(rt.alloc(), source, chance)?;
    expect_any(rt, input.as_slice())
}

#[test]
fn changed_programs(rt: HostRuntime) -> Result<(), Fail> {
    let mut chance = Chance { state: 1 };
    for source in PROGRAMS {
        for _ in 0..TEXTS {
            expect_answered(&rt, source.as_bytes(), &mut chance)?;
        }
    }
    Ok(())
}

/// How many texts are made of each program for `lint`: more than 10,000 of all.
const LINTED: u16 = 720;

#[test]
fn changed_programs_are_linted(rt: HostRuntime) -> Result<(), Fail> {
    let mut chance = Chance { state: 3 };
    for source in PROGRAMS {
        for _ in 0..LINTED {
            let input = changed(rt.alloc(), source.as_bytes(), &mut chance)?;
            expect_linted(&rt, input.as_slice())?;
        }
    }
    Ok(())
}

/// The lines of a certificate that name what its sections take at their entries.
fn entries_of(alloc: Global, certificate: &str) -> Result<String, AllocError> {
    let mut entries = String::new(alloc);
    for line in certificate.lines() {
        if line.starts_with("entry: ") {
            entries.push_str(line)?;
            entries.push_str("\n")?;
        }
    }
    Ok(entries)
}

/// A changed certificate that is found valid names the same locks at the entries: a section has one least set, and each
/// valid certificate shows it.
fn expect_same_entries(
    rt: &(impl AllocGlobal + Abort),
    certificate: &str,
    changed: &[u8],
) -> Result<(), Fail> {
    let changed = text_of(rt.alloc(), changed)?;
    let wanted = entries_of(rt.alloc(), certificate)?;
    let found = entries_of(rt.alloc(), &changed)?;
    assert_eq!(rt; found.as_str(), wanted.as_str(), "{changed}");
    Ok(())
}

/// A certificate with some changes, and the source text behind it, is judged.
fn expect_judged(
    rt: &(impl Threads + Wait + Sync + Clock + CpuClock + AllocGlobal + Abort),
    certificate: &str,
    source: &[u8],
    chance: &mut Chance,
) -> Result<(), Fail> {
    let changed = changed(rt.alloc(), certificate.as_bytes(), chance)?;
    let mut input = Vec::from_slice(rt.alloc(), changed.as_slice())?;
    input.extend_from_slice(source)?;
    if is_valid(rt, input.as_slice())? {
        expect_same_entries(rt, certificate, changed.as_slice())?;
    }
    Ok(())
}

/// The certificate of a program, with some changes each time, is judged.
fn expect_all_judged(
    rt: &(impl Threads + Wait + Sync + Clock + CpuClock + AllocGlobal + Abort),
    source: &[u8],
    chance: &mut Chance,
) -> Result<(), Fail> {
    let (status, certificate) = answer_of(rt, "compile --cert", source)?;
    assert_eq!(rt; status, 0, "{certificate}");
    for _ in 0..TEXTS {
        expect_judged(rt, &certificate, source, chance)?;
    }
    Ok(())
}

#[test]
fn changed_certificates(rt: HostRuntime) -> Result<(), Fail> {
    let mut chance = Chance { state: 2 };
    for source in PROGRAMS {
        expect_all_judged(&rt, source.as_bytes(), &mut chance)?;
    }
    Ok(())
}
