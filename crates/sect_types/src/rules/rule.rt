//! The rules that a typed program obeys, and the faults that name them.

use crate::rules::spot::Uncounted;
use std::alloc::{AllocError, AllocFailed};
use thiserror::Error;

/// A rule that an item may break, the least first.
#[derive(Clone, Copy)]
pub enum Rule {
    /// A name that nothing has.
    Unknown,
    /// A name that an earlier declaration has.
    Twice,
    /// Types that don't agree.
    WrongType,
    /// A load, a store, a `new`, a `print` or a `call` outside a section and outside a procedure.
    SharedOutside,
    /// A section in a section or in a procedure.
    Nested,
    /// An item that passes a limit.
    TooMany,
    /// A call in a procedure of one that is it or reaches it by calls.
    Recursion,
    /// A call with another number of arguments than the procedure has parameters.
    Arguments,
}

/// Why a walk through the items ends early.
#[derive(Clone, Copy)]
pub enum WalkFault {
    Memory,
    /// The item of this number, and the least rule that it breaks.
    Broken(u64, Rule),
}

/// Why a tree has no program. An item is a record, a field, a global, a procedure, a thread, a parameter, a local or a
/// statement; items are numbered from 0 in text order.
#[derive(Debug, Drop, Error)]
pub enum TypeFault {
    /// Want of memory.
    #[error("out of memory")]
    Memory,
    /// The item uses a name that nothing has.
    #[error("10 Unknown item {item}")]
    Unknown { item: u64 },
    /// An earlier declaration has the item's name.
    #[error("11 Twice item {item}")]
    Twice { item: u64 },
    /// All names in the item are known, and their types don't agree.
    #[error("12 WrongType item {item}")]
    WrongType { item: u64 },
    /// The item is a load, a store, a `new`, a `print` or a `call` and stands outside `atomic` and outside `proc`.
    #[error("13 SharedOutside item {item}")]
    SharedOutside { item: u64 },
    /// The item is an `atomic` inside `atomic` or `proc`.
    #[error("14 Nested item {item}")]
    Nested { item: u64 },
    /// The item is the first of its kind past a limit, or a call whose expansion passes one.
    #[error("15 TooMany item {item}")]
    TooMany { item: u64 },
    /// The item is a call in a procedure of one that is it or reaches it by calls.
    #[error("16 Recursion item {item}")]
    Recursion { item: u64 },
    /// The item is a call with another number of arguments than the procedure has parameters.
    #[error("17 Arguments item {item}")]
    Arguments { item: u64 },
}

impl From<AllocError> for WalkFault {
    ghost use Rattle.std.specs.Prelude.{◌≡◌};
    ghost use Rattle.sect_types.specs.declared.rules.rule.WalkFault.TheVariants.{Memory};

    ghost from_gives = { λ _ e. e ≡ Memory };

    fn from(_refused: AllocError) -> WalkFault {
        WalkFault::Memory
    }
}

impl<T: Drop> From<AllocFailed<T>> for WalkFault {
    ghost use Rattle.std.specs.Prelude.{◌≡◌};
    ghost use Rattle.sect_types.specs.declared.rules.rule.WalkFault.TheVariants.{Memory};

    ghost from_gives = { λ _ e. e ≡ Memory };

    fn from(_refused: AllocFailed<T>) -> WalkFault {
        WalkFault::Memory
    }
}

impl From<Uncounted> for WalkFault {
    ghost use Rattle.std.specs.Prelude.{◌≡◌};
    ghost use Rattle.sect_types.specs.declared.rules.rule.WalkFault.TheVariants.{Memory};

    ghost from_gives = { λ _ e. e ≡ Memory };

    fn from(_past: Uncounted) -> WalkFault {
        WalkFault::Memory
    }
}

impl From<WalkFault> for TypeFault {
    ghost use Rattle.std.specs.Prelude.{◌≡◌};
    ghost use Rattle.sect_types.specs.Faults.{type_fault};

    ghost from_gives = { λ fault e. e ≡ type_fault fault };

    fn from(fault: WalkFault) -> TypeFault {
        match fault {
            WalkFault::Memory => TypeFault::Memory,
            WalkFault::Broken(item, rule) => match rule {
                Rule::Unknown => TypeFault::Unknown { item },
                Rule::Twice => TypeFault::Twice { item },
                Rule::WrongType => TypeFault::WrongType { item },
                Rule::SharedOutside => TypeFault::SharedOutside { item },
                Rule::Nested => TypeFault::Nested { item },
                Rule::TooMany => TypeFault::TooMany { item },
                Rule::Recursion => TypeFault::Recursion { item },
                Rule::Arguments => TypeFault::Arguments { item },
            },
        }
    }
}
