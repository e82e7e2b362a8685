//! What a run writes.

use std::alloc::Global;

/// What is answered to a text, what is said of that on standard error, whether `lint` says more of it, and the exit
/// status that it asks for.
#[derive(Drop)]
pub struct Answer {
    pub status: u8,
    pub text: Vec<u8>,
    pub remarks: Vec<u8>,
    pub is_linted: bool,
}

/// What a run writes to standard output and to standard error, and its exit status: the greatest that any of its
/// answers asks for.
#[derive(Drop)]
pub struct Report {
    pub status: u8,
    pub text: Vec<u8>,
    pub complaints: Vec<u8>,
}
