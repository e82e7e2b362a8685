//! Locks by their numbers.

ghost use Rattle.std.specs.Prelude.{◌≡◌, ◌↔◌, ◌<◌, ◌≤◌, ◌||◌, ℕ, ◌++◌, ◌∷◌, length, slice_get, [], Some, IfOk, OnOk};
ghost use Rattle.std.specs.Prelude.{List, IsTrue, IsFalse, MatchOption, false, slice_index_or};
ghost use Rattle.sect_lemmas.specs.Lists.{Has};
ghost use Rattle.sect_names.specs.{declared.lock.Lock.{Lock}, Schemes.{SchemeView}};
ghost use Rattle.sect_names.specs.{Climbing.{IsAbove}, Above.{over_class}};
ghost use Rattle.sect_infer.specs.Numbers.{has_number, AreApart};
ghost use Rattle.sect_infer.specs.Numberings.{IsToWrite, ClassIs, IsOfClass, AreClassed, AreAbove, IsNumbering};
ghost use Rattle.sect_infer.specs.Numberings.{IsNumberingOfSome, IsNumbered, is_under};
ghost use Rattle.sect_infer.specs.steps.Putting.{IsBroad, AreWritesTold, AreBroadTold, AreThere};
ghost use Rattle.sect_infer.specs.steps.Putting.{IsWithin, AreWithin};
ghost use Rattle.sect_infer.specs.steps.Putting.{over_writes, over_reads, IsPut, IsSame, IsTold, IsToldBelow};
ghost use Rattle.sect_names.specs.declared.lock.Effect.TheVariants as effect;
ghost use Rattle.sect_names.specs.declared.lock.Right.TheVariants as right;
ghost use Rattle.sect_names.specs.declared.lock.Lock.TheVariants as lock;

use crate::numbers::{Numbers, has};
use indexmap::IndexSet;
use sect_names::{Effect, Lock, Path, Right, Scheme};
use smallvec::SmallVec;
use std::alloc::{AllocError, Global};
use std::marker::Model;

/// Locks, numbered from 0 in the order in which they came, and for each the numbers of the other locks there that cover
/// it: mostly none, at most four, so two are kept inline. None of those has to be there. One that comes behind a lock
/// that it covers is told then.
pub struct Numbering {
    locks: IndexSet<Lock>,
    above: Vec<SmallVec<usize, 2>>,

    /// For each lock on a path, the class of the path.
    classes: Vec<Option<u16>>,

    /// Whether there may be locks to write paths.
    writes: bool,

    /// Whether there may be the lock on all, or locks on a class that cover locks on paths.
    broad: bool,

    /// The greatest number that is told above another lock, if any is.
    highest: Option<usize>,
}

impl Drop for Numbering {
    fn drop(self) {
        let Numbering {
            locks: _,
            above: _,
            classes: _,
            writes: _,
            broad: _,
            highest: _,
        } = self;
    }
}

impl Model for Numbering {
    ghost use Rattle.std.specs.Prelude.{map};
    ghost use Rattle.std.specs.Coded.{codes};
    ghost use Rattle.sect_points.specs.Paths.{path_code};
    ghost use Rattle.sect_infer.specs.{Numberings.{NumberingView}, steps.Putting.{IsKept}};

    ghost Value = { NumberingView };

    ghost coded = { Prim.hlevel (codes, path_code) };

    ghost view = { λ t. record {
      keys = t.locks.keys;
      above = map (λ v. v.items) t.above.items;
      classes = t.classes.items;
    } };

    ghost invariant = { λ t. IsKept t.writes t.broad t.highest t.locks.keys (map (λ v. v.items) t.above.items) };
}

/// What became of a lock that was to be put behind the others.
#[derive(Clone, Copy)]
struct Added {
    /// The number that it has now.
    number: usize,

    /// Whether it wasn't there before.
    is_new: bool,
}

/// Whether a lock is one to write a path.
fn is_to_write(lock: &Lock) -> bool
    ensures { IsTrue result ↔ IsToWrite lock.now }
{
    matches!(lock, Lock::Path(_, Effect::Write))
}

/// Whether a lock is the one on all, or one on a class that covers locks on paths.
fn is_broad(lock: &Lock) -> bool
    ensures { IsTrue result ↔ IsBroad lock.now }
{
    match lock {
        Lock::All => true,
        Lock::Class(_, right) => *right != Right::Make,
        Lock::Path(_, _) => false,
    }
}

/// The class of a lock's path, if it is on one that has a class.
fn class_in(scheme: &Scheme, lock: &Lock) -> Option<u16>
    ensures { ClassIs scheme.now lock.now result }
{
    match lock {
        Lock::All | Lock::Class(_, _) => None,
        Lock::Path(path, _) => scheme.class_of(path),
    }
}

/// Whether the class that is told is this one.
fn is_of(its: Option<u16>, class: u16) -> bool
    ensures { IsTrue result ↔ (its ≡ Some class) }
{
    its == Some(class)
}

/// Whether the lock with this right over a class covers another, which isn't it, and of whose path the class is
/// told.
fn is_over_class(class: u16, right: Right, other: &Lock, its: Option<u16>) -> bool
    ensures { (s : SchemeView) → ClassIs s other.now its
        → IsTrue result ↔ IsAbove s (lock.Class class right) other.now }
{
    match other {
        Lock::All => false,
        Lock::Class(number, part) => { *number == class && *part != right && right.includes(*part) }
        Lock::Path(_, effect) => is_of(its, class) && right.grants(*effect),
    }
}

/// Whether a broad lock covers another, which isn't it, and of whose path the class is told.
fn is_over(big: &Lock, other: &Lock, its: Option<u16>) -> bool
    ensures { (s : SchemeView) → IsBroad big.now → ClassIs s other.now its
        → IsTrue result ↔ IsAbove s big.now other.now }
{
    match big {
        Lock::All => !matches!(other, Lock::All),
        Lock::Class(class, right) => is_over_class(*class, *right, other, its),
        Lock::Path(_, _) => false,
    }
}

/// The greater of a number and one that there may be.
fn greater(most: Option<usize>, number: usize) -> usize
    ensures first { (n : ℕ) → IsWithin most n → n ≤ result }
    ensures second { number ≤ result }
{
    match most {
        Some(other) if number < other => other,
        _ => number,
    }
}

/// Whether all of the numbers are greater than one.
fn are_beyond(numbers: &[usize], most: usize) -> bool
    ensures { IsTrue result → (n : ℕ) → Has numbers.now n → most < n }
{
    for number in numbers {
        if *number <= most {
            return false;
        }
    }
    true
}

impl Numbering {
    /// No locks.
    pub fn new(alloc: Global) -> Numbering
        ensures keys { result.keys ≡ [] }
        ensures above { result.above ≡ [] }
        ensures classes { result.classes ≡ [] }
    {
        Numbering {
            locks: IndexSet::new(alloc),
            above: Vec::new(alloc),
            classes: Vec::new(alloc),
            writes: false,
            broad: false,
            highest: None,
        }
    }

    /// No locks, with room for so many.
    pub fn with_room(alloc: Global, count: usize) -> Result<Numbering, AllocError>
        ensures keys { IfOk result (λ t. t.keys ≡ []) }
        ensures above { IfOk result (λ t. t.above ≡ []) }
        ensures classes { IfOk result (λ t. t.classes ≡ []) }
    {
        Ok(Numbering {
            locks: IndexSet::with_capacity(alloc, count)?,
            above: Vec::with_capacity(alloc, count)?,
            classes: Vec::with_capacity(alloc, count)?,
            writes: false,
            broad: false,
            highest: None,
        })
    }

    /// How many locks there are.
    pub fn len(&self) -> usize
        ensures { result ≡ length self.now.keys }
    {
        self.locks.len()
    }

    /// The lock with a number.
    pub fn lock(&self, number: usize) -> &Lock
        requires { number < length self.now.keys }
        ensures { slice_get self.now.keys number ≡ Some result.now }
    {
        &self.locks[number]
    }

    /// The numbers of the other locks that cover the lock with this number.
    #[inline(always)]
    pub fn above(&self, number: usize) -> &[usize]
        requires { number < length self.now.above }
        ensures { result.now ≡ slice_index_or self.now.above number [] }
    {
        self.above[number].as_slice()
    }

    /// Whether another lock, whose number is one of these, covers the lock with this number.
    #[inline(always)]
    pub fn is_under(&self, numbers: &Numbers, number: usize) -> bool
        requires { number < length self.now.above }
        ensures { result ≡ is_under self.now.above numbers.now number }
    {
        for big in self.above[number].as_slice() {
            if numbers.has(*big) {
                return true;
            }
        }
        false
    }

    /// Whether another lock, whose number is one of these, covers the lock with this number.
    fn is_below(&self, numbers: &[usize], number: usize) -> bool
        requires { number < length self.now.above }
        ensures { result ≡ is_under self.now.above numbers.now number }
    {
        for big in self.above[number].as_slice() {
            if has(numbers, *big) {
                return true;
            }
        }
        false
    }

    /// Whether the lock with this number has one of these numbers, or another whose number is one of them covers it.
    pub fn is_told(&self, numbers: &[usize], number: usize) -> bool
        requires { number < length self.now.above }
        ensures { result ≡ has_number numbers.now number || is_under self.now.above numbers.now number }
    {
        has(numbers, number) || self.is_below(numbers, number)
    }

    /// The number of a lock.
    pub fn find(&self, lock: &Lock) -> Option<usize>
        ensures { MatchOption result (Has self.now.keys lock.now → ⊥)
            (λ n. slice_get self.now.keys n ≡ Some lock.now) }
    {
        self.locks.get_index_of(lock)
    }

    /// Whether there may be locks to write paths.
    fn has_writes(&self) -> bool
        ensures { AreWritesTold result self.now.keys }
    {
        self.writes
    }

    /// Whether there may be locks to write paths among those that are there and this one.
    fn has_writes_with(&self, lock: &Lock) -> bool
        ensures there { AreWritesTold result self.now.keys }
        ensures behind { AreWritesTold result (self.now.keys ++ lock.now ∷ []) }
    {
        self.has_writes() || is_to_write(lock)
    }

    /// The greatest of these numbers, and of those that are told of any lock, if there are any.
    fn highest_with(&self, numbers: &[usize]) -> Option<usize>
        ensures there { AreWithin result self.now.above }
        ensures behind { (n : ℕ) → Has numbers.now n → IsWithin result n }
    {
        let mut highest = self.highest;
        for number in numbers {
            highest = Some(greater(highest, *number));
        }
        highest
    }

    /// Whether it is seen at once that none of these locks covers another lock.
    pub fn has_none_above(&self, numbers: &Numbers) -> bool
        ensures { IsTrue result → (n : ℕ) → is_under self.now.above numbers.now n ≡ false }
    {
        match self.highest {
            None => true,
            Some(most) => are_beyond(numbers.members(), most),
        }
    }

    /// Whether there may be the lock on all, or locks on a class that cover locks on paths.
    fn has_broad(&self) -> bool
        ensures { AreBroadTold result self.now.keys }
    {
        self.broad
    }

    /// Whether there may be such locks among those that are there and this one.
    fn has_broad_with(&self, lock: &Lock) -> bool
        ensures there { AreBroadTold result self.now.keys }
        ensures behind { AreBroadTold result (self.now.keys ++ lock.now ∷ []) }
    {
        self.has_broad() || is_broad(lock)
    }

    /// The number of a lock, which comes now unless it is there.
    pub fn number(
        &mut self,
        alloc: Global,
        scheme: &Scheme,
        lock: &Lock,
    ) -> Result<usize, AllocError>
        requires { IsNumbering scheme.now self.old }
        ensures { IfOk result (IsNumbered scheme.now self.old self.new lock.now) }
    {
        if let Some(number) = self.find(lock) {
            return Ok(number);
        }
        let class = class_in(scheme, lock);
        self.put(alloc, class, lock.try_clone()?)
    }

    /// The number of a lock, as `number` gives it, which takes the lock.
    pub fn number_taken(
        &mut self,
        alloc: Global,
        scheme: &Scheme,
        lock: Lock,
    ) -> Result<usize, AllocError>
        requires { IsNumbering scheme.now self.old }
        ensures { IfOk result (IsNumbered scheme.now self.old self.new lock) }
    {
        if let Some(number) = self.find(&lock) {
            return Ok(number);
        }
        let class = class_in(scheme, &lock);
        self.put(alloc, class, lock)
    }

    /// The number of a lock, which comes now unless it is there. If it is on a path, that is one of this class.
    #[inline(always)]
    pub fn number_in(&mut self, alloc: Global, class: u16, lock: Lock) -> Result<usize, AllocError>
        requires { IsNumberingOfSome self.old }
        ensures { (s : SchemeView) → IsNumbering s self.old → IsOfClass s.classes lock class
            → IfOk result (IsNumbered s self.old self.new lock) }
    {
        if self.has_broad() {
            // What stands above it takes longer to find than it.
            if let Some(number) = self.find(&lock) {
                return Ok(number);
            }
        }
        self.put(alloc, Some(class), lock)
    }

    /// The number of a lock, which comes now unless it is there. If it is on a path, this is the path's class.
    #[inline(always)]
    fn put(&mut self, alloc: Global, class: Option<u16>, lock: Lock) -> Result<usize, AllocError>
        requires { IsNumberingOfSome self.old }
        ensures { (s : SchemeView) → IsNumbering s self.old → ClassIs s lock class
            → IfOk result (IsNumbered s self.old self.new lock) }
    {
        match lock {
            Lock::All => self.put_all(alloc),
            Lock::Class(number, Right::Make) => self.put_make(alloc, number),
            Lock::Class(number, right) => self.put_class(alloc, number, right),
            Lock::Path(path, Effect::Read) => self.put_read(alloc, class, path),
            Lock::Path(path, Effect::Write) => self.put_write(alloc, class, path),
        }
    }

    /// The number of the lock to read a path of this class, which comes now unless it is there.
    #[inline(always)]
    fn put_read(
        &mut self,
        alloc: Global,
        class: Option<u16>,
        path: Path,
    ) -> Result<usize, AllocError>
        ensures { (s : SchemeView) → IsNumbering s self.old → ClassIs s (lock.Path path effect.Read) class
            → IfOk result (IsNumbered s self.old self.new (lock.Path path effect.Read)) }
    {
        let mut above = self.over_reads(alloc, class)?;
        self.push_write(&mut above, &path)?;
        Ok(
            self.add(Lock::Path(path, Effect::Read), class, above)?
                .number,
        )
    }

    /// The number of the lock to write a path of this class, which comes now unless it is there, and then stands above
    /// the lock to read the path.
    fn put_write(
        &mut self,
        alloc: Global,
        class: Option<u16>,
        path: Path,
    ) -> Result<usize, AllocError>
        requires { IsNumberingOfSome self.old }
        ensures { (s : SchemeView) → IsNumbering s self.old → ClassIs s (lock.Path path effect.Write) class
            → IfOk result (IsNumbered s self.old self.new (lock.Path path effect.Write)) }
    {
        let above = self.over_writes(alloc, class)?;
        let read = Lock::Path(path.try_clone()?, Effect::Read);
        let added = self.add(Lock::Path(path, Effect::Write), class, above)?;
        self.tell_one(&read, added)?;
        Ok(added.number)
    }

    /// The number of the lock to make objects of a class, which comes now unless it is there.
    fn put_make(&mut self, alloc: Global, class: u16) -> Result<usize, AllocError>
        ensures { (s : SchemeView) → IsNumbering s self.old
            → IfOk result (IsNumbered s self.old self.new (lock.Class class right.Make)) }
    {
        let above = self.over_class(alloc, class, Right::Make)?;
        Ok(
            self.add(Lock::Class(class, Right::Make), None, above)?
                .number,
        )
    }

    /// The number of a lock on a class that covers locks on paths. It comes now unless it is there.
    fn put_class(&mut self, alloc: Global, class: u16, right: Right) -> Result<usize, AllocError>
        requires numbering { IsNumberingOfSome self.old }
        ensures { (s : SchemeView) → IsNumbering s self.old → IsBroad (lock.Class class right)
            → IfOk result (IsNumbered s self.old self.new (lock.Class class right)) }
    {
        let above = self.over_class(alloc, class, right)?;
        self.put_over(&Lock::Class(class, right), above)
    }

    /// The number of the lock on all, which comes now unless it is there.
    fn put_all(&mut self, alloc: Global) -> Result<usize, AllocError>
        requires { IsNumberingOfSome self.old }
        ensures { (s : SchemeView) → IsNumbering s self.old
            → IfOk result (IsNumbered s self.old self.new lock.All) }
    {
        self.put_over(&Lock::All, SmallVec::new(alloc))
    }

    /// The number of a broad lock, which comes now unless it is there, and then stands above those that it covers. The
    /// numbers of those above it are these.
    fn put_over(&mut self, lock: &Lock, above: SmallVec<usize, 2>) -> Result<usize, AllocError>
        requires { IsNumberingOfSome self.old }
        ensures { (s : SchemeView) → IsNumbering s self.old → IsBroad lock.now
            → AreAbove s self.old.keys lock.now above.items
            → IfOk result (IsNumbered s self.old self.new lock.now) }
    {
        let Added { number, is_new } = self.add(lock.try_clone()?, None, above)?;
        if is_new {
            self.tell_below(lock, number)?;
        }
        Ok(number)
    }

    /// The numbers of the lock on all and of that to write this class, where they are there.
    #[inline(always)]
    fn over_writes(
        &self,
        alloc: Global,
        class: Option<u16>,
    ) -> Result<SmallVec<usize, 2>, AllocError>
        ensures { IfOk result (λ above. AreThere self.now.keys (over_writes class) above.items) }
    {
        let mut above = SmallVec::new(alloc);
        if !self.has_broad() {
            return Ok(above);
        }
        self.push_found(&mut above, &Lock::All)?;
        match class {
            None => Ok(above),
            Some(number) => {
                self.push_found(&mut above, &Lock::Class(number, Right::Write))?;
                Ok(above)
            }
        }
    }

    /// The numbers of the lock on all and of those to write and to read this class, where they are there.
    #[inline(always)]
    fn over_reads(
        &self,
        alloc: Global,
        class: Option<u16>,
    ) -> Result<SmallVec<usize, 2>, AllocError>
        ensures { IfOk result (λ above. AreThere self.now.keys (over_reads class) above.items) }
    {
        let mut above = self.over_writes(alloc, class)?;
        match class {
            None => Ok(above),
            Some(number) => {
                self.push_read(&mut above, number)?;
                Ok(above)
            }
        }
    }

    /// The numbers of the locks above one on a class, where they are there.
    fn over_class(
        &self,
        alloc: Global,
        class: u16,
        right: Right,
    ) -> Result<SmallVec<usize, 2>, AllocError>
        ensures { IfOk result (λ above. AreThere self.now.keys (over_class class right) above.items) }
    {
        match right {
            Right::Write => self.over_writes(alloc, None),
            Right::Read | Right::Make => self.over_writes(alloc, Some(class)),
        }
    }

    /// Puts the number of a lock behind others, if it is there.
    fn push_found(&self, above: &mut SmallVec<usize, 2>, lock: &Lock) -> Result<(), AllocError>
        ensures { OnOk result ((locks : List Lock) → AreThere self.now.keys locks above.old.items
            → AreThere self.now.keys (locks ++ lock.now ∷ []) above.new.items) }
    {
        if let Some(number) = self.find(lock) {
            above.push(number)?;
        }
        Ok(())
    }

    /// Puts the number of the lock to read a class behind others, if it is there.
    #[inline(always)]
    fn push_read(&self, above: &mut SmallVec<usize, 2>, class: u16) -> Result<(), AllocError>
        ensures { OnOk result ((locks : List Lock) → AreThere self.now.keys locks above.old.items
            → AreThere self.now.keys (locks ++ lock.Class class right.Read ∷ []) above.new.items) }
    {
        if self.has_broad() {
            self.push_found(above, &Lock::Class(class, Right::Read))?;
        }
        Ok(())
    }

    /// Puts the number of the lock to write a path behind others, if it is there.
    #[inline(always)]
    fn push_write(&self, above: &mut SmallVec<usize, 2>, path: &Path) -> Result<(), AllocError>
        ensures { OnOk result ((locks : List Lock) → AreThere self.now.keys locks above.old.items
            → AreThere self.now.keys (locks ++ lock.Path path.now effect.Write ∷ []) above.new.items) }
    {
        if self.has_writes() {
            self.push_found(above, &Lock::Path(path.try_clone()?, Effect::Write))?;
        }
        Ok(())
    }

    /// Puts a lock behind the others unless it is there, with the numbers of those above it, and its path's class.
    fn add(
        &mut self,
        lock: Lock,
        class: Option<u16>,
        above: SmallVec<usize, 2>,
    ) -> Result<Added, AllocError>
        ensures there { IfOk result (λ added. slice_get self.new.keys added.number ≡ Some lock) }
        ensures new { IfOk result (λ added. IsTrue added.is_new → IsPut self.old self.new lock class above.items) }
        ensures old { IfOk result (λ added. IsFalse added.is_new → IsSame self.old self.new) }
    {
        self.writes = self.has_writes_with(&lock);
        self.broad = self.has_broad_with(&lock);
        self.highest = self.highest_with(above.as_slice());
        let (number, is_new) = self.locks.insert_full(lock)?;
        if !is_new {
            return Ok(Added { number, is_new });
        }
        self.above.push(above)?;
        self.classes.push(class)?;
        Ok(Added { number, is_new })
    }

    /// Puts the number of a lock behind those above another.
    fn tell(&mut self, number: usize, above: usize) -> Result<(), AllocError>
        requires { number < length self.old.above }
        ensures { OnOk result (IsTold self.old self.new number above) }
    {
        self.highest = self.highest_with(&[above]);
        self.above[number].push(above)?;
        Ok(())
    }

    /// Puts the number of a lock, if that is new, behind those above another, if that is there.
    fn tell_one(&mut self, lock: &Lock, added: Added) -> Result<(), AllocError>
        requires { length self.old.above ≡ length self.old.keys }
        ensures there { OnOk result (IsTrue added.is_new → (number : ℕ) → slice_get self.old.keys number ≡ Some lock.now
            → AreApart self.old.keys → IsTold self.old self.new number added.number) }
        ensures absent { OnOk result ((Has self.old.keys lock.now → ⊥) → self.new ≡ self.old) }
        ensures old { OnOk result (IsFalse added.is_new → self.new ≡ self.old) }
    {
        if !added.is_new {
            return Ok(());
        }
        if let Some(number) = self.find(lock) {
            self.tell(number, added.number)?;
        }
        Ok(())
    }

    /// Puts a number behind those above another, if that is to be told.
    fn tell_if(&mut self, tells: bool, number: usize, above: usize) -> Result<(), AllocError>
        requires { number < length self.old.above }
        ensures told { OnOk result (IsTrue tells → IsTold self.old self.new number above) }
        ensures same { OnOk result (IsFalse tells → self.new ≡ self.old) }
    {
        if tells {
            self.tell(number, above)?;
        }
        Ok(())
    }

    /// Puts the number of a broad lock behind those above each lock that it covers.
    #[cold]
    #[inline(never)]
    fn tell_below(&mut self, big: &Lock, number: usize) -> Result<(), AllocError>
        requires count { length self.old.above ≡ length self.old.keys }
        requires classes { length self.old.classes ≡ length self.old.keys }
        ensures { OnOk result ((s : SchemeView) → IsBroad big.now → AreClassed s self.old
            → IsToldBelow s self.old self.new big.now number) }
    {
        for other in 0..self.len() {
            let tells = is_over(big, self.lock(other), self.classes[other]);
            self.tell_if(tells, other, number)?;
        }
        Ok(())
    }
}
