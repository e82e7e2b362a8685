//! Why a run has no answer.

use std::alloc::AllocError;
use std::io;
use std::io::ErrorKind;
use thiserror::Error;

/// Why a run has no answer.
#[derive(Clone, Copy, Debug, Error)]
pub enum Failure {
    #[error("out of memory")]
    Memory,
    #[error("input or output failed")]
    Streams,
}

impl From<AllocError> for Failure {
    ghost use Rattle.std.specs.Prelude.{◌≡◌};
    ghost use Rattle.sect_command.specs.declared.failure.Failure.TheVariants.{Memory};

    ghost from_gives = { λ _ failure. failure ≡ Memory };

    fn from(_refused: AllocError) -> Failure {
        Failure::Memory
    }
}

impl From<io::Error> for Failure {
    fn from(failed: io::Error) -> Failure {
        if failed.kind() == ErrorKind::OutOfMemory {
            Failure::Memory
        } else {
            Failure::Streams
        }
    }
}
