//! Why the names of a certificate aren't a program's.

ghost use Rattle.std.specs.Prelude.{◌≡◌};
ghost use Rattle.sect_check.specs.declared.unresolved.Unresolved.TheVariants.{Memory};

use std::alloc::{AllocError, AllocFailed};

/// Why the names of a certificate aren't a program's.
#[derive(Clone, Copy)]
pub enum Unresolved {
    /// Want of memory.
    Memory,
    /// They stand for nothing that is there.
    Wrong,
}

impl From<AllocError> for Unresolved {
    ghost from_gives = { λ _ e. e ≡ Memory };

    fn from(_refused: AllocError) -> Unresolved {
        Unresolved::Memory
    }
}

impl<T: Drop> From<AllocFailed<T>> for Unresolved {
    ghost from_gives = { λ _ e. e ≡ Memory };

    fn from(_refused: AllocFailed<T>) -> Unresolved {
        Unresolved::Memory
    }
}
