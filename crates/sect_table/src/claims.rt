//! What stands in a table, and what its calls answer.

use sect_modes::{Key, Mode};
use std::alloc::AllocError;
use thiserror::Error;

/// A key that a thread holds, and in which mode.
#[derive(Clone, Copy)]
pub struct Hold {
    pub key: Key,
    pub mode: Mode,
}

/// A thread that holds a key or waits for it, and in which mode.
#[derive(Clone, Copy)]
pub struct Claim {
    pub thread: u16,
    pub mode: Mode,
}

/// A thread that came to hold a key, and in which mode.
#[derive(Clone, Copy, PartialEq, Eq)]
pub struct Grant {
    pub thread: u16,
    pub key: Key,
    pub mode: Mode,
}

/// What becomes of a request that isn't refused.
#[derive(Clone, Copy, Debug, PartialEq, Eq)]
pub enum Answer {
    /// The thread holds the key.
    Granted,
    /// The thread waits for the key.
    Queued,
}

/// Why a request is refused.
#[derive(Clone, Copy, Debug, PartialEq, Eq, Error)]
pub enum TableFault {
    /// The thread waits for a key already.
    #[error("50 AlreadyWaiting")]
    AlreadyWaiting,
    /// The thread holds this key already.
    #[error("51 AlreadyHeld")]
    AlreadyHeld,
    /// A growth was refused.
    #[error("out of memory")]
    Memory,
}

impl From<AllocError> for TableFault {
    ghost use Rattle.std.specs.Prelude.{◌≡◌};
    ghost use Rattle.sect_table.specs.declared.claims.TableFault.TheVariants.{Memory};

    ghost from_gives = { λ _ fault. fault ≡ Memory };

    fn from(_refused: AllocError) -> TableFault {
        TableFault::Memory
    }
}
