//! Why a program has no scheme.

ghost use Rattle.std.specs.Prelude.{◌≡◌};
ghost use Rattle.sect_names.specs.{declared.fault.SchemeFault.TheVariants.{Memory}, Verdicts.{fault_of}};

use sect_hints::HintFault;
use std::alloc::AllocError;
use thiserror::Error;

/// Why a program has no scheme. Records are numbered from 0 in text order.
#[derive(Debug, Drop, Error)]
pub enum SchemeFault {
    /// Want of memory.
    #[error("out of memory")]
    Memory,
    /// Paths of so many fields aren't offered.
    #[error("60 BadK")]
    BadK,
    /// The record's hint is no global's name.
    #[error("20 NoSuchGlobal record {record}")]
    NoSuchGlobal { record: u16 },
    /// The record's hint names a global whose own record carries a hint.
    #[error("21 GuardIsGuarded record {record}")]
    GuardIsGuarded { record: u16 },
    /// The record carries more than one hint.
    #[error("22 HintTwice record {record}")]
    HintTwice { record: u16 },
}

impl From<AllocError> for SchemeFault {
    ghost from_gives = { λ _ e. e ≡ Memory };

    fn from(_refused: AllocError) -> SchemeFault {
        SchemeFault::Memory
    }
}

impl From<HintFault> for SchemeFault {
    ghost from_gives = { λ f e. e ≡ fault_of f };

    fn from(fault: HintFault) -> SchemeFault {
        match fault {
            HintFault::Memory => SchemeFault::Memory,
            HintFault::NoSuchGlobal { record } => SchemeFault::NoSuchGlobal { record },
            HintFault::GuardIsGuarded { record } => SchemeFault::GuardIsGuarded { record },
            HintFault::HintTwice { record } => SchemeFault::HintTwice { record },
        }
    }
}
