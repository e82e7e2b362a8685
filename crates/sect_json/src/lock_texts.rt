//! Texts of locks, each of which is made once.

ghost use Rattle.std.specs.Prelude.{◌≡◌, ◌<◌, ◌++◌, ◌∷◌, [], ℕ, List, Some, OnOk, MatchOption, length, map, slice_get};
ghost use Rattle.serde_json.specs.Written.{compact_text};
ghost use Rattle.sect_lemmas.specs.Lists.{Has};
ghost use Rattle.sect_names.specs.Printing.{IsNamed, AreNamed};
ghost use Rattle.sect_json.specs.{Values.{list}, Locks.{lock_json}};
ghost use Rattle.sect_json.specs.steps.Writes.{AreLockTexts};

use crate::locks::lock_value;
use crate::writing::{put_comma, put_value};
use indexmap::IndexSet;
use sect_names::Lock;
use sect_types::Program;
use std::alloc::{AllocError, Global};
use std::marker::Model;

/// The locks that have been told, each with its text.
pub struct LockTexts {
    locks: IndexSet<Lock>,
    texts: Vec<Vec<u8>>,
}

impl Drop for LockTexts {
    fn drop(self) {
        let LockTexts { locks: _, texts: _ } = self;
    }
}

impl Model for LockTexts {
    ghost use Rattle.std.specs.Prelude.{map};
    ghost use Rattle.std.specs.Coded.{codes};
    ghost use Rattle.sect_points.specs.Paths.{path_code};
    ghost use Rattle.sect_json.specs.steps.Writes.{LockTextsView};

    ghost Value = { LockTextsView };

    ghost coded = { Prim.hlevel (codes, path_code) };

    ghost view = { λ t. record {
      keys = t.locks.keys;
      texts = map (λ v. v.items) t.texts.items;
    } };
}

impl LockTexts {
    /// No locks.
    pub fn new(alloc: Global) -> LockTexts
        ensures keys { result.keys ≡ [] }
        ensures texts { result.texts ≡ [] }
    {
        LockTexts {
            locks: IndexSet::new(alloc),
            texts: Vec::new(alloc),
        }
    }

    /// The number of a lock that has been told.
    fn find(&self, lock: &Lock) -> Option<usize>
        ensures { MatchOption result (Has self.now.keys lock.now → ⊥)
            (λ n. slice_get self.now.keys n ≡ Some lock.now) }
    {
        self.locks.get_index_of(lock)
    }

    /// Keeps the text of a lock that hasn't been told.
    fn keep(&mut self, lock: &Lock, text: Vec<u8>) -> Result<(), AllocError>
        requires { Has self.old.keys lock.now → ⊥ }
        ensures keys { OnOk result (self.new.keys ≡ self.old.keys ++ lock.now ∷ []) }
        ensures texts { OnOk result (self.new.texts ≡ self.old.texts ++ text.items ∷ []) }
    {
        self.locks.insert(lock.try_clone()?)?;
        Ok(self.texts.push(text)?)
    }

    /// Adds the text of a lock that hasn't been told, and keeps it.
    fn put_new(
        &mut self,
        alloc: Global,
        out: &mut Vec<u8>,
        program: &Program,
        lock: &Lock,
    ) -> Result<(), AllocError>
        requires told { AreLockTexts program.now.source self.old }
        requires named { IsNamed program.now lock.now }
        requires new { Has self.old.keys lock.now → ⊥ }
        ensures told { OnOk result (AreLockTexts program.now.source self.new) }
        ensures text { OnOk result (out.new.items
            ≡ out.old.items ++ compact_text (lock_json program.now.source lock.now)) }
    {
        let mut text = Vec::new(alloc);
        put_value(alloc, &mut text, &lock_value(alloc, program, lock)?)?;
        out.extend_from_slice(text.as_slice())?;
        self.keep(lock, text)
    }

    /// Adds the text of the lock with a number.
    fn put_old(&self, out: &mut Vec<u8>, number: usize) -> Result<(), AllocError>
        requires { number < length self.now.texts }
        ensures { OnOk result ((text : List ℕ) → slice_get self.now.texts number ≡ Some text
            → out.new.items ≡ out.old.items ++ text) }
    {
        out.extend_from_slice(self.texts[number].as_slice())?;
        Ok(())
    }

    /// Adds the text of a lock.
    pub fn put(
        &mut self,
        alloc: Global,
        out: &mut Vec<u8>,
        program: &Program,
        lock: &Lock,
    ) -> Result<(), AllocError>
        requires told { AreLockTexts program.now.source self.old }
        requires named { IsNamed program.now lock.now }
        ensures told { OnOk result (AreLockTexts program.now.source self.new) }
        ensures text { OnOk result (out.new.items
            ≡ out.old.items ++ compact_text (lock_json program.now.source lock.now)) }
    {
        match self.find(lock) {
            Some(number) => self.put_old(out, number),
            None => self.put_new(alloc, out, program, lock),
        }
    }

    /// Adds the text of locks, in their order.
    pub fn put_all(
        &mut self,
        alloc: Global,
        out: &mut Vec<u8>,
        program: &Program,
        locks: &[Lock],
    ) -> Result<(), AllocError>
        requires told { AreLockTexts program.now.source self.old }
        requires named { AreNamed program.now locks.now }
        ensures told { OnOk result (AreLockTexts program.now.source self.new) }
        ensures text { OnOk result (out.new.items
            ≡ out.old.items ++ compact_text (list (map (lock_json program.now.source) locks.now))) }
    {
        out.push(b'[')?;
        for (index, lock) in locks.iter().enumerate() {
            put_comma(out, index)?;
            self.put(alloc, out, program, lock)?;
        }
        Ok(out.push(b']')?)
    }
}
