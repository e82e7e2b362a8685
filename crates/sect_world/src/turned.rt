//! What turns come to.

use std::alloc::AllocError;
use thiserror::Error;

/// What an event is, without its key and mode.
#[derive(Clone, Copy, Debug, PartialEq, Eq)]
pub enum EventKind {
    /// A statement or test outside a section.
    Local,
    /// Comes to a section.
    Enter,
    /// Comes to hold a key.
    Take,
    /// Starts the section.
    Begin,
    /// Gives all back, to enter anew.
    Again,
    /// A statement or test of the section.
    Act,
    /// Leaves the section.
    Leave,
}

/// What the turn of a thread has come to.
#[derive(Clone, Copy, Debug, PartialEq, Eq)]
pub enum Turned {
    /// It has made an event of this kind.
    Moved(EventKind),
    /// It waits for a key, and nothing has happened.
    Waits,
    /// It has ended, and nothing has happened.
    Ended,
}

/// Why a turn is refused.
#[derive(Clone, Copy, Debug, PartialEq, Eq, Error)]
pub enum WorldFault {
    /// The program has no thread of this number.
    #[error("70 NoSuchThread {0}")]
    NoSuchThread(u16),
    /// A growth was refused.
    #[error("out of memory")]
    Memory,
}

impl From<AllocError> for WorldFault {
    ghost use Rattle.std.specs.Prelude.{◌≡◌};
    ghost use Rattle.sect_world.specs.declared.turned.WorldFault.TheVariants.{Memory};

    ghost from_gives = { λ _ fault. fault ≡ Memory };

    fn from(_refused: AllocError) -> WorldFault {
        WorldFault::Memory
    }
}
