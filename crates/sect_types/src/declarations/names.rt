//! Names by their numbers.

ghost use Rattle.std.specs.Prelude.{◌≡◌, ◌<◌, ◌++◌, ◌∷◌, [], OnOk, OnErr, IfOk, IfSome, false, length};
ghost use Rattle.sect_types.specs.Sight.{place, added, has_name, same_name};

use indexmap::IndexSet;
use sect_front::Name;
use std::alloc::{AllocError, Global};
use std::marker::Model;

/// The most names that are numbered.
pub const MOST_NAMES: usize = 65535;

/// Among so many names one is found sooner by a look at each.
const FEW_NAMES: usize = 8;

/// Whether two names are the same.
#[inline(always)]
fn are_same(one: &Name, other: &Name) -> bool
    ensures { result ≡ same_name one.now other.now }
{
    *one == *other
}

/// The number of a name among these.
fn place_among(names: &[Name], name: &Name) -> Option<usize>
    ensures place { result ≡ place name.now names.now }
    ensures within { IfSome result (λ number. number < length names.now) }
{
    names.iter().position(|other| are_same(name, other))
}

/// Whether a name is in a set.
fn has(set: &IndexSet<Name>, name: &Name) -> bool
    ensures { result ≡ has_name name.now set.now.keys }
{
    if set.len() <= FEW_NAMES {
        return set.as_slice().iter().any(|other| are_same(name, other));
    }
    set.contains(name)
}

/// Different names, numbered from 0 in the order in which they were first seen.
pub struct Names {
    set: IndexSet<Name>,
}

impl Drop for Names {
    fn drop(self) {
        let Names { set: _ } = self;
    }
}

impl Model for Names {
    ghost use Rattle.std.specs.Prelude.{ℕ, List, length, ◌≤◌};
    ghost use Rattle.sect_types.specs.declared.declarations.names.TheConstants.{MOST_NAMES};

    ghost Value = { List (List ℕ) };

    ghost view = { λ names. names.set.keys };

    ghost invariant = { λ names. length names.set.keys ≤ MOST_NAMES };
}

impl Names {
    /// No names.
    pub fn new(alloc: Global) -> Names
        ensures { result ≡ [] }
    {
        Names {
            set: IndexSet::new(alloc),
        }
    }

    /// No names, and room for so many.
    pub fn with_room(alloc: Global, count: usize) -> Result<Names, AllocError>
        ensures { IfOk result (λ names. names ≡ []) }
    {
        Ok(Names {
            set: IndexSet::with_capacity(alloc, count)?,
        })
    }

    /// The number of a name.
    // where it is put in place of a call, room is made for more than it needs
    #[inline(never)]
    pub fn number_of(&self, name: &Name) -> Option<u16>
        ensures { result ≡ place name.now self.now }
    {
        if self.set.len() > FEW_NAMES {
            return self.number_in_set(name);
        }
        let number = place_among(self.set.as_slice(), name)?;
        Some(number as u16)
    }

    /// The number of a name, found by its hash.
    // most lists are short, and are gone through by fewer instructions so
    #[inline(never)]
    fn number_in_set(&self, name: &Name) -> Option<u16>
        ensures { result ≡ place name.now self.now }
    {
        let number = self.set.get_index_of(name)?;
        Some(number as u16)
    }

    /// Whether the name is among these.
    pub fn has(&self, name: &Name) -> bool
        ensures { result ≡ has_name name.now self.now }
    {
        has(&self.set, name)
    }

    /// How many names there are.
    pub fn len(&self) -> usize
        ensures { result ≡ length self.now }
    {
        self.set.len()
    }

    /// Adds a new name.
    pub fn add(&mut self, name: Name) -> Result<(), AllocError>
        requires different { has_name name self.old ≡ false }
        requires room { length self.old < MOST_NAMES }
        ensures names { OnOk result (self.new ≡ self.old ++ name ∷ []) }
        ensures err { OnErr result (self.new ≡ self.old) }
    {
        self.set.insert(name)?;
        Ok(())
    }
}

/// Names of which only the membership counts, any number of them.
pub struct NameSet {
    set: IndexSet<Name>,
}

impl Drop for NameSet {
    fn drop(self) {
        let NameSet { set: _ } = self;
    }
}

impl Model for NameSet {
    ghost use Rattle.std.specs.Prelude.{ℕ, List};

    ghost Value = { List (List ℕ) };

    ghost view = { λ names. names.set.keys };
}

impl NameSet {
    /// No names.
    pub fn new(alloc: Global) -> NameSet
        ensures { result ≡ [] }
    {
        NameSet {
            set: IndexSet::new(alloc),
        }
    }

    /// Whether the name is among these.
    pub fn has(&self, name: &Name) -> bool
        ensures { result ≡ has_name name.now self.now }
    {
        has(&self.set, name)
    }

    /// Adds a name unless it is there.
    pub fn collect(&mut self, name: Name) -> Result<(), AllocError>
        ensures names { OnOk result (self.new ≡ added self.old name) }
        ensures err { OnErr result (self.new ≡ self.old) }
    {
        self.set.insert(name)?;
        Ok(())
    }
}
