//! Why a source text isn't compiled by several workers.

ghost use Rattle.std.specs.Prelude.{◌≡◌};
ghost use Rattle.sect_emit.specs.{declared.fault.CompileFault.TheVariants.{Memory}, Faults.{of_workers, of_source}};

use sect_infer::InferFault;
use sect_names::SourceRefusal;
use std::alloc::AllocError;
use thiserror::Error;

/// Why a source text isn't compiled by several workers. `Display` is what the program prints after the word `refused`.
#[derive(Debug, Drop, Error)]
pub enum CompileFault {
    /// Want of memory.
    #[error("out of memory")]
    Memory,
    /// The number of workers is refused.
    #[error("{0}")]
    Workers(InferFault),
    /// The source text is refused.
    #[error("{0}")]
    Source(SourceRefusal),
}

impl From<AllocError> for CompileFault {
    ghost from_gives = { λ _ r. r ≡ Memory };

    fn from(_refused: AllocError) -> CompileFault {
        CompileFault::Memory
    }
}

impl From<InferFault> for CompileFault {
    ghost from_gives = { λ fault r. r ≡ of_workers fault };

    fn from(fault: InferFault) -> CompileFault {
        match fault {
            InferFault::Memory => CompileFault::Memory,
            InferFault::BadWorkers => CompileFault::Workers(fault),
        }
    }
}

impl From<SourceRefusal> for CompileFault {
    ghost from_gives = { λ why r. r ≡ of_source why };

    fn from(why: SourceRefusal) -> CompileFault {
        match why {
            SourceRefusal::Memory => CompileFault::Memory,
            other => CompileFault::Source(other),
        }
    }
}
