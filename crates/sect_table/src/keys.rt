//! Keys by their numbers.

ghost use Rattle.std.specs.Prelude.{◌≡◌, ◌<◌, ◌≤◌, ◌^◌, ◌++◌, ◌∷◌, [], OnOk, OnErr, IfSome, length};
ghost use Rattle.sect_table.specs.steps.Keys.{place_in};

use indexmap::IndexSet;
use sect_modes::{Key, is_same};
use std::alloc::{AllocError, Global};
use std::marker::Model;

/// Keys, each once, numbered in the order in which they were first seen. In `marks` stands where a key is looked for
/// first: the number of the last key that came to have this mark.
#[derive(Drop)]
pub(crate) struct Keys {
    set: IndexSet<Key>,
    marks: [usize; MARKS],
}

/// How many marks there are: one for all objects, 63 for classes, and the others for globals.
const MARKS: usize = 256;

/// The mark of a key. The objects that threads make have none, since there may be any number of them.
fn mark_of(key: Key) -> Option<usize>
    ensures { IfSome result (λ mark. mark < MARKS) }
{
    match key {
        Key::All => Some(0),
        Key::Class(class) => Some(1 + class as usize % 63),
        Key::Global(global) => Some(64 + global as usize % 192),
        Key::Made {
            thread: _,
            number: _,
        } => None,
    }
}

/// A key's number comes to stand at its mark, if it has one.
fn put_number(marks: &mut [usize; MARKS], key: Key, number: usize) {
    if let Some(mark) = mark_of(key) {
        marks[mark] = number;
    }
}

impl Model for Keys {
    ghost use Rattle.std.specs.Prelude.{List};
    ghost use Rattle.sect_modes.specs.declared.key.Key.{Key as AKey};

    ghost Value = { List AKey };

    ghost view = { λ keys. keys.set.keys };
}

impl Keys {
    pub fn new(alloc: Global) -> Keys
        ensures { result ≡ [] }
    {
        Keys {
            set: IndexSet::new(alloc),
            marks: [0; MARKS],
        }
    }

    pub fn len(&self) -> usize
        ensures len { result ≡ length self.now }
        ensures small { result < 2 ^ 63 }
    {
        self.set.len()
    }

    /// The number that stands at a key's mark, where it is the number of the key.
    fn marked(&self, key: Key) -> Option<usize>
        ensures { IfSome result (λ number. number ≡ place_in key self.now) }
    {
        let number = self.marks[mark_of(key)?];
        let keys = self.set.as_slice();
        if number < keys.len() && is_same(keys[number], key) {
            Some(number)
        } else {
            None
        }
    }

    /// The number of a key that is sought among all, or how many there are.
    fn sought(&self, key: Key) -> usize
        ensures place { result ≡ place_in key self.now }
        ensures within { result ≤ length self.now }
    {
        match self.set.get_index_of(&key) {
            Some(number) => number,
            None => self.set.len(),
        }
    }

    /// The number of a key, or how many there are.
    pub fn number_of(&self, key: Key) -> usize
        ensures place { result ≡ place_in key self.now }
        ensures within { result ≤ length self.now }
    {
        match self.marked(key) {
            Some(number) => number,
            None => self.sought(key),
        }
    }

    /// Adds a new key.
    pub fn add(&mut self, key: Key) -> Result<(), AllocError>
        requires { place_in key self.old ≡ length self.old }
        ensures keys { OnOk result (self.new ≡ self.old ++ key ∷ []) }
        ensures err { OnErr result (self.new ≡ self.old) }
    {
        let number = self.set.len();
        self.set.insert(key)?;
        put_number(&mut self.marks, key, number);
        Ok(())
    }
}
