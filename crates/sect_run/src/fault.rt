//! Why a program isn't run to its end.

use std::alloc::AllocError;
use thiserror::Error;

/// Why a compiled program isn't run to its end.
#[derive(Clone, Copy, Debug, PartialEq, Eq, Error)]
pub enum RunFault {
    /// A growth was refused.
    #[error("out of memory")]
    Memory,
}

impl From<AllocError> for RunFault {
    fn from(_refused: AllocError) -> RunFault {
        RunFault::Memory
    }
}
