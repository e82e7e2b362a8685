//! Lists in which neighbours are often equal, which contracts see as their elements in order.

ghost use Rattle.std.specs.Prelude.{◌≡◌, ◌≢◌, ◌<◌, ◌-◌, Some, slice_get, [], ◌∷◌, ◌++◌, length, IfOk, OnOk, OnErr};
ghost use Rattle.std.specs.Prelude.{IsTrue};

use std::alloc::{AllocError, Global};
use std::marker::Model;

/// A list of any length. An element that is added again is kept once.
pub struct Runs<T: Drop> {
    kept: Vec<T>,
    numbers: Vec<usize>,
}

impl<T: Drop> Drop for Runs<T> {
    fn drop(self) {
        let Runs {
            kept: _,
            numbers: _,
        } = self;
    }
}

impl<T: Drop> Model for Runs<T> {
    ghost use Rattle.std.specs.Prelude.{List, length};
    ghost use Rattle.sect_cert.specs.steps.Runs.{numbered, AreBelow};

    ghost Value = { List T };

    ghost view = { λ r. numbered r.kept.items r.numbers.items };

    ghost invariant = { λ r. AreBelow (length r.kept.items) r.numbers.items };
}

impl<T: Drop> Runs<T> {
    /// No elements.
    pub fn new(alloc: Global) -> Runs<T>
        ensures { result ≡ [] }
    {
        Runs {
            kept: Vec::new(alloc),
            numbers: Vec::new(alloc),
        }
    }

    /// No elements, and room for so many.
    pub fn with_capacity(alloc: Global, count: usize) -> Result<Runs<T>, AllocError>
        ensures { IfOk result (λ runs. runs ≡ []) }
    {
        Ok(Runs {
            kept: Vec::new(alloc),
            numbers: Vec::with_capacity(alloc, count)?,
        })
    }

    /// How many there are.
    pub fn len(&self) -> usize
        ensures { result ≡ length self.now }
    {
        self.numbers.len()
    }

    /// The element at an index.
    pub fn at(&self, index: usize) -> &T
        requires { index < length self.now }
        ensures { slice_get self.now index ≡ Some result.now }
    {
        let number = self.numbers[index];
        &self.kept[number]
    }

    /// Whether the elements at two indices are kept as one. Then they are equal.
    pub fn is_one(&self, index: usize, other: usize) -> bool
        requires index { index < length self.now }
        requires other { other < length self.now }
        ensures { IsTrue result → slice_get self.now index ≡ slice_get self.now other }
    {
        self.numbers[index] == self.numbers[other]
    }

    /// Adds an element at the end.
    pub fn push(&mut self, item: T) -> Result<(), AllocError>
        ensures ok { OnOk result (self.new ≡ self.old ++ item ∷ []) }
        ensures err { OnErr result (self.new ≡ self.old) }
    {
        let number = self.kept.len();
        self.kept.push(item)?;
        self.numbers.push(number)?;
        Ok(())
    }

    /// Adds the last element once more.
    pub fn push_again(&mut self) -> Result<(), AllocError>
        requires { self.old ≢ [] }
        ensures ok { OnOk result ((last : T) → slice_get self.old (length self.old - 1) ≡ Some last
            → self.new ≡ self.old ++ last ∷ []) }
        ensures err { OnErr result (self.new ≡ self.old) }
    {
        let number = self.numbers[self.numbers.len() - 1];
        self.numbers.push(number)?;
        Ok(())
    }
}
