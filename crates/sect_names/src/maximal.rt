//! The locks of a set that no other of them covers.

ghost use Rattle.std.specs.Prelude.{◌≡◌, ◌↔◌, ℕ, IfOk, IsTrue};
ghost use Rattle.sect_lemmas.specs.Lists.{Has};
ghost use Rattle.sect_names.specs.{declared.lock.Right.{Right}, Locks.{Grants, CoveredBy, IsOutdone}};
ghost use Rattle.sect_names.specs.Order.{AreMaximal};
ghost use Rattle.sect_points.specs.Partitions.{HasClass};
ghost use Rattle.sect_names.specs.declared.lock.Lock.TheVariants as lock;
ghost use Rattle.sect_names.specs.declared.lock.Effect.TheVariants as effects;

use crate::lock::{Effect, Lock, Right};
use crate::path::Path;
use crate::scheme::Scheme;
use indexmap::IndexSet;
use std::alloc::{AllocError, Global};
use std::collections::BTreeSet;

/// Whether a set has a lock.
fn has(locks: &IndexSet<Lock>, lock: &Lock) -> bool
    ensures { IsTrue result ↔ Has locks.now.keys lock.now }
{
    locks.contains(lock)
}

/// Whether a set has a lock on this class that allows the effect on each of its objects.
fn has_class(locks: &IndexSet<Lock>, class: u16, effect: Effect) -> bool
    ensures { IsTrue result ↔ ((right : Right) × Grants right effect × Has locks.now.keys (lock.Class class right)) }
{
    has(locks, &Lock::Class(class, Right::Write))
        || effect == Effect::Read && has(locks, &Lock::Class(class, Right::Read))
}

/// Whether a set has the lock to write this path, which outdoes that to read it.
fn has_write(locks: &IndexSet<Lock>, path: &Path, effect: Effect) -> Result<bool, AllocError>
    ensures { IfOk result (λ it. IsTrue it
        ↔ ((effect ≡ effects.Read) × Has locks.now.keys (lock.Path path.now effects.Write))) }
{
    Ok(effect == Effect::Read && has(locks, &Lock::Path(path.try_clone()?, Effect::Write)))
}

impl Scheme {
    /// The locks of a set that no other of them covers, in canonical order: the lock on all; class locks by class, and
    /// then to read, to write, to make; then path locks by path, one before those that go on from it, and then to read,
    /// to write.
    pub fn maximal(&self, alloc: Global, locks: &IndexSet<Lock>) -> Result<Vec<Lock>, AllocError>
        ensures { IfOk result (λ kept. AreMaximal self.now (Has locks.now.keys) kept.items) }
    {
        let mut kept = BTreeSet::new(alloc);
        for i in 0..locks.len() {
            let lock = &locks[i];
            if !self.is_outdone(locks, lock)? {
                kept.insert(lock.try_clone()?)?;
            }
        }
        Ok(kept.into_iter().collect(alloc)?)
    }

    /// Whether a lock of the set covers this one.
    pub fn is_covered(&self, locks: &IndexSet<Lock>, lock: &Lock) -> Result<bool, AllocError>
        ensures { IfOk result (λ covered. IsTrue covered ↔ CoveredBy self.now locks.now.keys lock.now) }
    {
        Ok(has(locks, lock) || self.is_outdone(locks, lock)?)
    }

    /// Whether another lock of the set covers this one.
    fn is_outdone(&self, locks: &IndexSet<Lock>, lock: &Lock) -> Result<bool, AllocError>
        ensures { IfOk result (λ outdone. IsTrue outdone ↔ IsOutdone self.now (Has locks.now.keys) lock.now) }
    {
        match lock {
            Lock::All => Ok(false),
            Lock::Class(class, right) => {
                let by_write = *right != Right::Write
                    && has(locks, &Lock::Class(*class, Right::Write));
                Ok(by_write || has(locks, &Lock::All))
            }
            Lock::Path(path, effect) => {
                let by_class = self.has_class_of(locks, path, *effect) || has(locks, &Lock::All);
                Ok(by_class || has_write(locks, path, *effect)?)
            }
        }
    }

    /// Whether a set has a lock on the class of this path that allows the effect on each of its objects.
    fn has_class_of(&self, locks: &IndexSet<Lock>, path: &Path, effect: Effect) -> bool
        ensures { IsTrue result ↔ ((class : ℕ) × HasClass self.now.classes path.now class
            × ((right : Right) × Grants right effect × Has locks.now.keys (lock.Class class right))) }
    {
        match self.class_of(path) {
            Some(class) => has_class(locks, class, effect),
            None => false,
        }
    }
}
