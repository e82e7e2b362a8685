//! What comes of a change that is tried: whether a section takes a lock still.

ghost use Rattle.std.specs.{Prelude.{◌≡◌, ◌↔◌, ◌++◌, List, ℕ, IsTrue, OnOk}, String.{string_bytes}};
ghost use Rattle.sect_lemmas.specs.Lists.{Has};
ghost use Rattle.sect_conflicts.specs.Conflicts.{set_at};
ghost use Rattle.sect_warnings.specs.{ClassLocks.{class_lock}, Outcomes.{IsOutcome}};

use crate::class_mark::{ClassLock, is_class_lock};
use sect_emit::Compiled;
use sect_names::{Lock, put_locks};
use std::alloc::AllocError;

/// The locks that a section takes; one that isn't there takes none.
fn set_of(compiled: &Compiled, section: u16) -> &[Lock]
    ensures { result.now ≡ set_at compiled.now section }
{
    compiled.facts();
    if section < compiled.scheme().program().section_count() {
        compiled.set(section)
    } else {
        &[]
    }
}

/// Whether a set has the lock on a class.
fn has_lock(set: &[Lock], wanted: ClassLock) -> bool
    ensures { IsTrue result ↔ Has set.now (class_lock wanted.class wanted.effect) }
{
    for lock in set {
        if is_class_lock(lock, wanted) {
            return true;
        }
    }
    false
}

/// Adds what is tried comes to for a section: it takes the lock still, or others in its place.
pub fn put_outcome(
    text: &mut String,
    compiled: &Compiled,
    section: u16,
    lock: ClassLock,
) -> Result<(), AllocError>
    ensures { OnOk result ((said : List ℕ) × IsOutcome compiled.now section (class_lock lock.class lock.effect) said
        × (string_bytes text.new ≡ string_bytes text.old ++ said)) }
{
    compiled.facts();
    let set = set_of(compiled, section);
    if has_lock(set, lock) {
        return text.push_str(" doesn't help");
    }
    text.push_str(" would give `")?;
    put_locks(text, compiled.scheme().program(), set)?;
    text.push_str("`")
}
