//! Locks.

ghost use Rattle.std.specs.Prelude.{◌≡◌, ◌↔◌, IfOk, IsTrue};
ghost use Rattle.sect_names.specs.Order.{LockBefore};

use crate::path::Path;
use std::alloc::AllocError;
use std::cmp::Ordering;

/// What a path lock allows of its object. Writing allows reading.
#[derive(Clone, Copy, PartialEq, Eq, PartialOrd, Ord, Hash)]
pub enum Effect {
    Read,
    Write,
}

/// What a class lock allows of all objects of its class. Writing allows reading and making.
#[derive(Clone, Copy, PartialEq, Eq, PartialOrd, Ord, Hash)]
pub enum Right {
    Read,
    Write,
    Make,
}

/// A lock: the one on all objects, a coarse one on a class, or a fine one on the object of a path. The derived order is
/// the canonical one: the lock on all first; class locks by class, then by right; then path locks by path, then `R`
/// before `W`.
#[derive(Drop, PartialEq, Eq, PartialOrd, Ord, Hash)]
pub enum Lock {
    /// Allows all on every object: it covers every lock.
    All,
    Class(u16, Right),
    Path(Path, Effect),
}

/// Whether a lock stands before another in canonical order.
#[tactic(auto, using(crate::proofs::Preceding::before_tells))]
pub fn precedes(lock: &Lock, other: &Lock) -> bool
    ensures { IsTrue result ↔ LockBefore lock.now other.now }
{
    matches!(lock.cmp(other), Ordering::Less)
}

impl Lock {
    /// A lock equal to this one.
    pub fn try_clone(&self) -> Result<Lock, AllocError>
        ensures { IfOk result (λ lock. lock ≡ self.now) }
    {
        match self {
            Lock::All => Ok(Lock::All),
            Lock::Class(class, right) => Ok(Lock::Class(*class, *right)),
            Lock::Path(path, effect) => Ok(Lock::Path(path.try_clone()?, *effect)),
        }
    }
}
