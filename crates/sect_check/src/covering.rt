//! Locks that are covered by those of a list.

ghost use Rattle.std.specs.Prelude.{◌≡◌, ◌<◌, ◌↔◌, length, IfOk, IfSome, IsTrue};
ghost use Rattle.sect_lemmas.specs.Lists.{Has};
ghost use Rattle.sect_names.specs.{declared.lock.Lock.{Lock}, Locks.{CoveredBy}};
ghost use Rattle.sect_check.specs.Valid.{list_at, AreCovered};

use crate::claims::Claims;
use indexmap::IndexSet;
use sect_names::{Lock, Scheme};
use std::alloc::{AllocError, Global};

/// The list of a node.
pub fn list_at(claims: &Claims, node: u16) -> &[Lock]
    requires { node < length claims.now.nodes }
    ensures { result.now ≡ list_at claims.now node }
{
    claims.nodes.at(node as usize).as_slice()
}

/// Whether the lock is in the list.
pub fn has(locks: &[Lock], lock: &Lock) -> bool
    ensures { IsTrue result ↔ Has locks.now lock.now }
{
    locks.contains(lock)
}

/// The locks of a list as a set.
pub fn set_of(alloc: Global, locks: &[Lock]) -> Result<IndexSet<Lock>, AllocError>
    ensures { IfOk result (λ set. (l : Lock) → Has set.keys l ↔ Has locks.now l) }
{
    let mut set = IndexSet::with_capacity(alloc, locks.len())?;
    for lock in locks {
        set.insert(lock.try_clone()?)?;
    }
    Ok(set)
}

/// Whether some lock of the list covers this one.
pub fn is_covered(scheme: &Scheme, locks: &[Lock], lock: &Lock) -> bool
    ensures { IsTrue result ↔ CoveredBy scheme.now locks.now lock.now }
{
    for big in locks {
        if scheme.covers(big, lock) {
            return true;
        }
    }
    false
}

/// Whether each of these locks is covered by some lock of the set.
pub fn are_covered(
    scheme: &Scheme,
    set: &IndexSet<Lock>,
    locks: &[Lock],
) -> Result<bool, AllocError>
    ensures { IfOk result (λ it. IsTrue it ↔ AreCovered scheme.now set.now.keys locks.now) }
{
    for lock in locks {
        if !scheme.is_covered(set, lock)? {
            return Ok(false);
        }
    }
    Ok(true)
}

/// Of how many locks a set is made: fewer are gone over one by one.
const MANY: usize = 65;

/// The locks of a list as a set, where they are many.
pub fn set_of_many(alloc: Global, locks: &[Lock]) -> Result<Option<IndexSet<Lock>>, AllocError>
    ensures { IfOk result (λ set. IfSome set (λ some. (l : Lock) → Has some.keys l ↔ Has locks.now l)) }
{
    if locks.len() < MANY {
        return Ok(None);
    }
    Ok(Some(set_of(alloc, locks)?))
}

/// The locks of a list, and their set where they are many.
#[derive(Clone, Copy)]
pub struct Above<'a> {
    pub locks: &'a [Lock],
    pub set: &'a Option<IndexSet<Lock>>,
}

/// Whether some lock of the list covers this one.
pub fn covers(scheme: &Scheme, above: Above<'_>, lock: &Lock) -> Result<bool, AllocError>
    requires { IfSome above.set.now (λ some. (l : Lock) → Has some.keys l ↔ Has above.locks.now l) }
    ensures { IfOk result (λ it. IsTrue it ↔ CoveredBy scheme.now above.entry.locks.now lock.now) }
{
    match above.set {
        None => Ok(is_covered(scheme, above.locks, lock)),
        Some(set) => scheme.is_covered(set, lock),
    }
}

/// Whether each of these locks is covered by some lock of the list.
pub fn covers_each(scheme: &Scheme, above: Above<'_>, locks: &[Lock]) -> Result<bool, AllocError>
    requires { IfSome above.set.now (λ some. (l : Lock) → Has some.keys l ↔ Has above.locks.now l) }
    ensures { IfOk result (λ it. IsTrue it ↔ AreCovered scheme.now above.entry.locks.now locks.now) }
{
    for lock in locks {
        if !covers(scheme, above, lock)? {
            return Ok(false);
        }
    }
    Ok(true)
}

/// How many places of a list are searched for a lock.
pub const NEAR: usize = 4;

/// Whether a list has a lock at this place, or not far behind it. The place is then the one behind the lock.
pub fn has_near(locks: &[Lock], place: &mut usize, lock: &Lock) -> bool
    ensures { IsTrue result → Has locks.now lock.now }
{
    let end = locks.len().min(place.saturating_add(NEAR));
    for here in *place..end {
        if locks[here] == *lock {
            *place = here + 1;
            return true;
        }
    }
    false
}
