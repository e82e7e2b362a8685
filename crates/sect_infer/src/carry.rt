//! What is found to be needed at a node because of what is needed where control may go on.

ghost use Rattle.std.specs.Prelude.{◌≡◌, ◌<◌, length, slice_get, Some, OnOk};
ghost use Rattle.sect_names.specs.{declared.lock.Lock.{Lock}, Locks.{IsLockOf}};
ghost use Rattle.sect_names.specs.{Carrying.{CarriedBack, LockOn}, Touching.{LeavesOthers}};
ghost use Rattle.sect_infer.specs.Numberings.{HasLock, AreNumbers, IsFinding, Finds};
ghost use Rattle.sect_infer.specs.steps.Putting.{AreOn, IsOnOneOf};

use crate::numbering::Numbering;
use crate::numbers::Numbers;
use sect_names::{Change, Earlier, Effect, Lock, Path, Scheme};
use sect_types::Label;
use std::alloc::{AllocError, Global};

/// A node as locks are carried back over it: its statement, in a thread of the program.
#[derive(Clone, Copy)]
pub struct Transfer<'a> {
    pub scheme: &'a Scheme,
    pub thread: u16,
    pub label: &'a Label,
}

/// Finds a lock.
pub fn find(
    alloc: Global,
    scheme: &Scheme,
    numbering: &mut Numbering,
    found: &mut Numbers,
    lock: Lock,
) -> Result<(), AllocError>
    requires { IsFinding scheme.now numbering.old found.old }
    ensures { OnOk result (Finds scheme.now numbering.old found.old numbering.new found.new (λ l. l ≡ lock)) }
{
    let number = numbering.number_taken(alloc, scheme, lock)?;
    found.insert(number)?;
    Ok(())
}

impl Transfer<'_> {
    /// Finds what is needed before the node for one lock that is needed after it, which has this number.
    #[inline(always)]
    pub fn carry_one(
        self,
        alloc: Global,
        numbering: &mut Numbering,
        found: &mut Numbers,
        number: usize,
    ) -> Result<(), AllocError>
        requires finding { IsFinding self.scheme.now numbering.old found.old }
        requires number { number < length numbering.old.keys }
        requires lawful { (l : Lock) → slice_get numbering.old.keys number ≡ Some l
            → IsLockOf self.scheme.now self.thread l }
        ensures { OnOk result ((l : Lock) → slice_get numbering.old.keys number ≡ Some l
            → Finds self.entry.scheme.now numbering.old found.old numbering.new found.new
            (CarriedBack self.entry.scheme.now self.entry.thread self.entry.label.now l)) }
    {
        let change = Change::of(self.thread, self.label);
        self.carry_by(alloc, &change, numbering, found, number)
    }

    /// Finds the lock with this effect on a path, if that has a class.
    #[inline(always)]
    fn find_on(
        self,
        alloc: Global,
        numbering: &mut Numbering,
        found: &mut Numbers,
        effect: Effect,
        path: Path,
    ) -> Result<(), AllocError>
        requires { IsFinding self.scheme.now numbering.old found.old }
        ensures { OnOk result (Finds self.entry.scheme.now numbering.old found.old numbering.new found.new
            (LockOn self.entry.scheme.now effect path)) }
    {
        match self.scheme.class_of(&path) {
            None => Ok(()),
            Some(class) => {
                let lock = self.scheme.lock_in(class, effect, path);
                let number = numbering.number_in(alloc, class, lock)?;
                found.insert(number)?;
                Ok(())
            }
        }
    }

    /// Finds the locks with this effect on each of the paths.
    fn find_all_on(
        self,
        alloc: Global,
        numbering: &mut Numbering,
        found: &mut Numbers,
        effect: Effect,
        mut paths: Vec<Path>,
    ) -> Result<(), AllocError>
        requires { IsFinding self.scheme.now numbering.old found.old }
        ensures { OnOk result (Finds self.entry.scheme.now numbering.old found.old numbering.new found.new
            (AreOn self.entry.scheme.now effect paths.items)) }
    {
        while let Some(path) = paths.pop() {
            self.find_on(alloc, numbering, found, effect, path)?;
        }
        Ok(())
    }

    /// Finds the locks with this effect on each of the paths that may denote before the node what a path denotes after
    /// it.
    #[inline(always)]
    fn find_each_on(
        self,
        alloc: Global,
        numbering: &mut Numbering,
        found: &mut Numbers,
        effect: Effect,
        paths: Earlier,
    ) -> Result<(), AllocError>
        requires { IsFinding self.scheme.now numbering.old found.old }
        ensures { OnOk result (Finds self.entry.scheme.now numbering.old found.old numbering.new found.new
            (IsOnOneOf self.entry.scheme.now effect paths)) }
    {
        match paths {
            Earlier::Nothing => Ok(()),
            Earlier::Alone(path) => self.find_on(alloc, numbering, found, effect, path),
            Earlier::Any(paths) => self.find_all_on(alloc, numbering, found, effect, paths),
        }
    }

    /// Finds what is needed before the node for one lock that is needed after it, where the node touches that.
    #[inline(never)]
    fn carry_over(
        self,
        alloc: Global,
        numbering: &mut Numbering,
        found: &mut Numbers,
        number: usize,
    ) -> Result<(), AllocError>
        requires finding { IsFinding self.scheme.now numbering.old found.old }
        requires number { number < length numbering.old.keys }
        ensures { OnOk result ((l : Lock) → slice_get numbering.old.keys number ≡ Some l
            → Finds self.entry.scheme.now numbering.old found.old numbering.new found.new
            (CarriedBack self.entry.scheme.now self.entry.thread self.entry.label.now l)) }
    {
        match numbering.lock(number) {
            Lock::All | Lock::Class(_, _) => {
                found.insert(number)?;
                Ok(())
            }
            Lock::Path(path, effect) => {
                let effect = *effect;
                let paths = self.scheme.earlier(alloc, self.thread, *self.label, path)?;
                self.find_each_on(alloc, numbering, found, effect, paths)
            }
        }
    }

    /// Finds what is needed before the node, which may change this, for one lock that is needed after it, which has
    /// this number.
    #[inline(always)]
    fn carry_by(
        self,
        alloc: Global,
        change: &Change,
        numbering: &mut Numbering,
        found: &mut Numbers,
        number: usize,
    ) -> Result<(), AllocError>
        requires finding { IsFinding self.scheme.now numbering.old found.old }
        requires number { number < length numbering.old.keys }
        requires lawful { (l : Lock) → slice_get numbering.old.keys number ≡ Some l
            → IsLockOf self.scheme.now self.thread l }
        requires others { LeavesOthers self.thread self.label.now change.now }
        ensures { OnOk result ((l : Lock) → slice_get numbering.old.keys number ≡ Some l
            → Finds self.entry.scheme.now numbering.old found.old numbering.new found.new
            (CarriedBack self.entry.scheme.now self.entry.thread self.entry.label.now l)) }
    {
        if change.leaves(numbering.lock(number)) {
            found.insert(number)?;
            Ok(())
        } else {
            self.carry_over(alloc, numbering, found, number)
        }
    }

    /// Finds what is needed before the node, which may change this, for the locks that are needed after it, which have
    /// these numbers.
    fn carry_each(
        self,
        alloc: Global,
        change: &Change,
        numbering: &mut Numbering,
        found: &mut Numbers,
        numbers: &[usize],
    ) -> Result<(), AllocError>
        requires finding { IsFinding self.scheme.now numbering.old found.old }
        requires numbers { AreNumbers numbering.old.keys numbers.now }
        requires lawful { (l : Lock) → HasLock numbering.old.keys numbers.now l
            → IsLockOf self.scheme.now self.thread l }
        requires others { LeavesOthers self.thread self.label.now change.now }
        ensures { OnOk result (Finds self.entry.scheme.now numbering.old found.old numbering.new found.new
            (λ r. (l : Lock) × HasLock numbering.old.keys numbers.now l
            × CarriedBack self.entry.scheme.now self.entry.thread self.entry.label.now l r)) }
    {
        for number in numbers {
            self.carry_by(alloc, change, numbering, found, *number)?;
        }
        Ok(())
    }

    /// Finds what is needed before the node for the locks that are needed after it, which have these numbers.
    pub fn carry(
        self,
        alloc: Global,
        numbering: &mut Numbering,
        found: &mut Numbers,
        numbers: &[usize],
    ) -> Result<(), AllocError>
        requires finding { IsFinding self.scheme.now numbering.old found.old }
        requires numbers { AreNumbers numbering.old.keys numbers.now }
        requires lawful { (l : Lock) → HasLock numbering.old.keys numbers.now l
            → IsLockOf self.scheme.now self.thread l }
        ensures { OnOk result (Finds self.entry.scheme.now numbering.old found.old numbering.new found.new
            (λ r. (l : Lock) × HasLock numbering.old.keys numbers.now l
            × CarriedBack self.entry.scheme.now self.entry.thread self.entry.label.now l r)) }
    {
        let change = Change::of(self.thread, self.label);
        if change.leaves_all() {
            found.insert_all(numbers)
        } else {
            self.carry_each(alloc, &change, numbering, found, numbers)
        }
    }
}
