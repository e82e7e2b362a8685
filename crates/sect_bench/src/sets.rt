//! Points-to sets and classes, found again and again.

use crate::failure::Failure;
use sect_front::parse;
use sect_points::{classes, points_to};
use sect_types::{Program, check_types};
use std::alloc::Global;

/// The program of a source text.
fn program_of(alloc: Global, source: &[u8]) -> Result<Program, Failure> {
    Ok(check_types(alloc, parse(alloc, source)?)?)
}

/// Finds the points-to sets of a text's program so many times. It gives how many sites they have.
pub fn sites_found(alloc: Global, source: &[u8], times: u32) -> Result<u16, Failure> {
    let program = program_of(alloc, source)?;
    let mut found = 0;
    for _ in 0..times {
        found = points_to(alloc, &program)?.sites();
    }
    Ok(found)
}

/// Finds the points-to sets and the classes of a text's program so many times. It gives how many classes there are.
pub fn classes_found(alloc: Global, source: &[u8], times: u32) -> Result<u16, Failure> {
    let program = program_of(alloc, source)?;
    let mut found = 0;
    for _ in 0..times {
        found = classes(alloc, points_to(alloc, &program)?)?.class_count();
    }
    Ok(found)
}
