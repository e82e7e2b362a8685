//! The lines that tell what came of the work.

use crate::failure::Failure;
use crate::long_texts::written_twice;
use crate::rounds::{THREADS, granted};
use crate::sets::{classes_found, sites_found};
use crate::turns::run_turns;
use crate::work::Work;
use std::alloc::Global;

/// Does a piece of work. It gives the line that tells what came of it.
pub fn line(alloc: Global, work: Work, source: &[u8]) -> Result<String, Failure> {
    match work {
        Work::Sets { times } => sets_line(alloc, source, times),
        Work::Classes { times } => classes_line(alloc, source, times),
        Work::Schedule { k } => run_turns(alloc, source, k),
        Work::Table { keys, rounds } => table_line(alloc, keys, rounds),
        Work::Certificate { sections, locks } => certificate_line(alloc, sections, locks),
    }
}

/// The number of sites of the points-to sets.
fn sets_line(alloc: Global, source: &[u8], times: u32) -> Result<String, Failure> {
    let sites = sites_found(alloc, source, times)?;
    Ok(format!(in alloc; "{sites} sites\n")?)
}

/// The number of classes of the sites.
fn classes_line(alloc: Global, source: &[u8], times: u32) -> Result<String, Failure> {
    let classes = classes_found(alloc, source, times)?;
    Ok(format!(in alloc; "{classes} classes\n")?)
}

/// How many requests to the lock table were granted at once.
fn table_line(alloc: Global, keys: u32, rounds: u32) -> Result<String, Failure> {
    let granted = granted(alloc, keys, rounds)?;
    let asked = u64::from(rounds) * u64::from(THREADS);
    Ok(format!(in alloc; "{granted} of {asked} requests granted at once\n")?)
}

/// How long a certificate is, and whether it is read and written back as it was.
fn certificate_line(alloc: Global, sections: u32, locks: u32) -> Result<String, Failure> {
    let (bytes, same) = written_twice(alloc, sections, locks)?;
    Ok(format!(in alloc; "{bytes} bytes, the same again: {same}\n")?)
}
