//! Locks as the tests write them down.

use crate::programs::NEXT;
use indexmap::IndexSet;
use sect_names::{Effect, Lock, Path, Right};
use sect_points::Variable;
use std::process::Abort;
use std::test::Fail;

/// A lock: on everything, on a class, or on the path of a variable and so many times the field `next`.
#[derive(Clone, Copy)]
pub enum Wanted {
    Everything,
    All(u16, Right),
    At(Variable, usize, Effect),
}

/// The path of a variable and so many times the field `next`, at most 3.
pub fn path(rt: &(impl Abort + AllocGlobal), base: Variable, fields: usize) -> Result<Path, Fail> {
    let next = [NEXT, NEXT, NEXT];
    assert!(rt; fields <= 3);
    Ok(Path::new(rt.alloc(), base).extended(&next[..fields])?)
}

/// The lock that is wanted.
pub fn lock(rt: &(impl Abort + AllocGlobal), wanted: Wanted) -> Result<Lock, Fail> {
    match wanted {
        Wanted::Everything => Ok(Lock::All),
        Wanted::All(class, right) => Ok(Lock::Class(class, right)),
        Wanted::At(base, fields, effect) => Ok(Lock::Path(path(rt, base, fields)?, effect)),
    }
}

/// The locks that are wanted, in their order.
pub fn locks(rt: &(impl Abort + AllocGlobal), wanted: &[Wanted]) -> Result<Vec<Lock>, Fail> {
    let mut locks = Vec::new(rt.alloc());
    for each in wanted {
        locks.push(lock(rt, *each)?)?;
    }
    Ok(locks)
}

/// The set of the locks that are wanted.
pub fn set(rt: &(impl Abort + AllocGlobal), wanted: &[Wanted]) -> Result<IndexSet<Lock>, Fail> {
    let mut locks = IndexSet::new(rt.alloc());
    for each in wanted {
        locks.insert(lock(rt, *each)?)?;
    }
    Ok(locks)
}
