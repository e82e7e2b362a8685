//! The command `compile` with workers, over memory.

use super::programs::{LINKED_LIST, PROGRAMS};
use super::{answer_of, expect_bytes};
use std::process::Abort;
use std::sync::Wait;
use std::test::Fail;
use std::thread::Threads;
use std::time::{Clock, CpuClock};

/// Command lines without a word on workers.
const WITHOUT: &[&str] = &["compile", "compile --cert", "compile --cert --k 0"];

/// So many workers print what is printed without a word on workers.
fn expect_same_line(
    rt: &(impl Threads + Wait + Sync + Clock + CpuClock + AllocGlobal + Abort),
    source: &[u8],
    without: &str,
    workers: u8,
) -> Result<(), Fail> {
    let (status, text) = answer_of(rt, without, source)?;
    assert_eq!(rt; status, 0, "{without}: {text}");
    let line = format!(in rt.alloc(); "{without} --workers {workers}")?;
    expect_bytes(rt, &line, source, 0, &text)
}

/// So many workers print what is printed without a word on workers, as a listing and as a certificate.
fn expect_same(
    rt: &(impl Threads + Wait + Sync + Clock + CpuClock + AllocGlobal + Abort),
    source: &str,
    workers: u8,
) -> Result<(), Fail> {
    for line in WITHOUT {
        expect_same_line(rt, source.as_bytes(), line, workers)?;
    }
    Ok(())
}

#[test]
fn workers_print_the_same(rt: HostRuntime) -> Result<(), Fail> {
    for workers in [1u8, 2, 4, 16] {
        expect_same(&rt, LINKED_LIST, workers)?;
        expect_same(&rt, "", workers)?;
    }
    Ok(())
}

#[test]
fn three_workers_print_the_same_of_each_example(rt: HostRuntime) -> Result<(), Fail> {
    for source in PROGRAMS {
        expect_same(&rt, source, 3)?;
    }
    Ok(())
}
