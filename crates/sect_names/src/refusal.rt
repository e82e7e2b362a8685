//! Why a source text is refused, by whichever layer.

ghost use Rattle.std.specs.Prelude.{◌≡◌};
ghost use Rattle.sect_names.specs.declared.refusal.SourceRefusal.TheVariants.{Memory};
ghost use Rattle.sect_names.specs.Sources.{of_front, of_types, of_scheme};

use crate::fault::SchemeFault;
use sect_front::FrontFault;
use sect_types::TypeFault;
use std::alloc::AllocError;
use thiserror::Error;

/// Why a source text is refused. `Display` is what the program prints after the word `refused`, so that a refusal can
/// stand inside another.
#[derive(Debug, Drop, Error)]
pub enum SourceRefusal {
    /// Want of memory.
    #[error("out of memory")]
    Memory,
    /// The text spells no tree.
    #[error("{0}")]
    Front(FrontFault),
    /// A rule of the types is broken.
    #[error("{0}")]
    Types(TypeFault),
    /// Paths of so many fields aren't offered, or a rule of the hints is broken.
    #[error("{0}")]
    Scheme(SchemeFault),
}

impl From<AllocError> for SourceRefusal {
    ghost from_gives = { λ _ r. r ≡ Memory };

    fn from(_refused: AllocError) -> SourceRefusal {
        SourceRefusal::Memory
    }
}

impl From<FrontFault> for SourceRefusal {
    ghost from_gives = { λ fault r. r ≡ of_front fault };

    fn from(fault: FrontFault) -> SourceRefusal {
        match fault {
            FrontFault::Memory => SourceRefusal::Memory,
            other => SourceRefusal::Front(other),
        }
    }
}

impl From<TypeFault> for SourceRefusal {
    ghost from_gives = { λ fault r. r ≡ of_types fault };

    fn from(fault: TypeFault) -> SourceRefusal {
        match fault {
            TypeFault::Memory => SourceRefusal::Memory,
            other => SourceRefusal::Types(other),
        }
    }
}

impl From<SchemeFault> for SourceRefusal {
    ghost from_gives = { λ fault r. r ≡ of_scheme fault };

    fn from(fault: SchemeFault) -> SourceRefusal {
        match fault {
            SchemeFault::Memory => SourceRefusal::Memory,
            other => SourceRefusal::Scheme(other),
        }
    }
}
