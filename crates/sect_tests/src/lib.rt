//! Tests of the crates below, through their public surfaces: what no clause says, and each public call at work once.
//! A crate with tests is proved twice, so the tests of all libraries stand here, one module a subject.
#![tactic(auto)]

#[cfg(test)]
mod apart;
#[cfg(test)]
mod asking;
#[cfg(test)]
mod carrying;
#[cfg(test)]
mod certificates;
#[cfg(test)]
mod certifying;
#[cfg(test)]
mod classes;
#[cfg(test)]
mod conditions;
#[cfg(test)]
mod covering;
#[cfg(test)]
mod endings;
#[cfg(test)]
mod graphs;
#[cfg(test)]
mod guarding;
#[cfg(test)]
mod inference;
#[cfg(test)]
mod keys;
#[cfg(test)]
mod limits;
#[cfg(test)]
mod modes;
#[cfg(test)]
mod numbering;
#[cfg(test)]
mod orders;
#[cfg(test)]
mod parsing;
#[cfg(test)]
mod places;
#[cfg(test)]
mod pointing;
#[cfg(test)]
mod printing;
#[cfg(test)]
mod programs;
#[cfg(test)]
mod questions;
#[cfg(test)]
mod random;
#[cfg(test)]
mod requests;
#[cfg(test)]
mod threads;
#[cfg(test)]
mod typing;
#[cfg(test)]
mod wanted;
#[cfg(test)]
mod workers;
#[cfg(test)]
mod worlds;
