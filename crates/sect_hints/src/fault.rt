//! The rules on hints, and the faults that name them.

use std::alloc::{AllocError, AllocFailed};
use thiserror::Error;

/// A rule that a record's hints may break, in the order in which they are named.
#[derive(Clone, Copy)]
pub enum Rule {
    /// A record with more than one hint.
    HintTwice,
    /// A hint that no global has as its name.
    NoSuchGlobal,
    /// A hint that names a global of a record with a hint of its own, right or wrong.
    GuardIsGuarded,
}

/// Why a program has no guards. Records are numbered from 0 in text order.
#[derive(Debug, Drop, Error)]
pub enum HintFault {
    /// Want of memory.
    #[error("out of memory")]
    Memory,
    /// The record's hint is no global's name.
    #[error("20 NoSuchGlobal record {record}")]
    NoSuchGlobal { record: u16 },
    /// The record's hint names a global whose own record carries a hint.
    #[error("21 GuardIsGuarded record {record}")]
    GuardIsGuarded { record: u16 },
    /// The record carries more than one hint.
    #[error("22 HintTwice record {record}")]
    HintTwice { record: u16 },
}

impl Rule {
    ghost use Rattle.std.specs.Prelude.{◌≡◌};
    ghost use Rattle.sect_hints.specs.Faults.{hint_fault};

    /// The fault of a record that breaks the rule.
    pub(crate) fn at(self, record: u16) -> HintFault
        ensures { result ≡ hint_fault self «record» }
    {
        match self {
            Rule::HintTwice => HintFault::HintTwice { record },
            Rule::NoSuchGlobal => HintFault::NoSuchGlobal { record },
            Rule::GuardIsGuarded => HintFault::GuardIsGuarded { record },
        }
    }
}

impl From<AllocError> for HintFault {
    ghost use Rattle.std.specs.Prelude.{◌≡◌};
    ghost use Rattle.sect_hints.specs.declared.fault.HintFault.TheVariants.{Memory};

    ghost from_gives = { λ _ e. e ≡ Memory };

    fn from(_refused: AllocError) -> HintFault {
        HintFault::Memory
    }
}

impl<T: Drop> From<AllocFailed<T>> for HintFault {
    ghost use Rattle.std.specs.Prelude.{◌≡◌};
    ghost use Rattle.sect_hints.specs.declared.fault.HintFault.TheVariants.{Memory};

    ghost from_gives = { λ _ e. e ≡ Memory };

    fn from(_refused: AllocFailed<T>) -> HintFault {
        HintFault::Memory
    }
}
