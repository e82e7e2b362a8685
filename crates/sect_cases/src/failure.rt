//! Why a file of cases can't be run.

use std::alloc::{AllocError, AllocFailed};
use std::io;
use thiserror::Error;

/// Why a file of cases can't be run to its end. `Display` is what the program says of it.
#[derive(Clone, Copy, Debug, Error)]
pub enum Failure {
    /// A growth was refused.
    #[error("out of memory")]
    Memory,
    /// The output failed.
    #[error("the output failed")]
    Output,
    /// The file of cases is missing, can't be read or isn't text.
    #[error("can't be read as text")]
    Unread,
    /// The line of this number is none that a file of cases may have.
    #[error("line {0}: no line of a case")]
    UnknownLine(usize),
    /// The line of this number stands before the first command.
    #[error("line {0}: stands before the first command")]
    NoCommand(usize),
    /// The case whose command stands on the line of this number says neither what is printed nor the status.
    #[error("line {0}: the case has no expectation")]
    NoExpectation(usize),
    /// The case whose command stands on the line of this number names a file that can't be read.
    #[error("line {0}: a file that the case names can't be read")]
    NoInput(usize),
    /// The case whose command stands on the line of this number has bytes that aren't written as `\x` and two digits.
    #[error("line {0}: bytes of the case can't be read")]
    BadBytes(usize),
}

impl From<AllocError> for Failure {
    fn from(_refused: AllocError) -> Failure {
        Failure::Memory
    }
}

impl<T: Drop> From<AllocFailed<T>> for Failure {
    fn from(_refused: AllocFailed<T>) -> Failure {
        Failure::Memory
    }
}

impl From<io::Error> for Failure {
    fn from(_failed: io::Error) -> Failure {
        Failure::Output
    }
}
