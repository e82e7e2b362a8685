//! Why a text isn't read.

use std::alloc::{AllocError, AllocFailed};
use thiserror::Error;

/// Why a text is no certificate's. Lines are counted from 1, and the line is the first with which no certificate's text
/// goes on.
#[derive(Debug, Drop, Error)]
pub enum CertFault {
    /// Want of memory.
    #[error("out of memory")]
    Memory,
    /// A line that isn't of a form allowed there, or has a number above 4294967295.
    #[error("30 BadCertLine line {line}")]
    BadCertLine { line: usize },
    /// A line is still due, and no line feed is left.
    #[error("31 CertEnd line {line}")]
    CertEnd { line: usize },
    /// A line of an allowed form with a leading zero, with a section or node number that isn't the next one, or with a
    /// chain number that doesn't rise; or bytes after the line `end`.
    #[error("32 NotCanonical line {line}")]
    NotCanonical { line: usize },
    /// The first line is that of version 1, `sect-cert 1` with its line feed.
    #[error("33 OldVersion line 1")]
    OldVersion,
}

/// Why a line isn't taken.
#[derive(Clone, Copy)]
pub enum LineFault {
    /// Want of memory.
    Memory,
    /// Its form isn't allowed there, or a number is too great.
    Bad,
    /// Its form is allowed, but not its numbers.
    Odd,
}

impl From<AllocError> for LineFault {
    ghost use Rattle.std.specs.Prelude.{◌≡◌};
    ghost use Rattle.sect_cert.specs.declared.fault.LineFault.TheVariants.{Memory};

    ghost from_gives = { λ _ e. e ≡ Memory };

    fn from(_refused: AllocError) -> LineFault {
        LineFault::Memory
    }
}

impl<T: Drop> From<AllocFailed<T>> for LineFault {
    ghost use Rattle.std.specs.Prelude.{◌≡◌};
    ghost use Rattle.sect_cert.specs.declared.fault.LineFault.TheVariants.{Memory};

    ghost from_gives = { λ _ e. e ≡ Memory };

    fn from(_refused: AllocFailed<T>) -> LineFault {
        LineFault::Memory
    }
}
