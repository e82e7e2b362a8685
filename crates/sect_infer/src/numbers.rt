//! Sets of numbers.

ghost use Rattle.std.specs.Prelude.{◌≡◌, ◌<◌, ◌≤◌, ℕ, ◌++◌, ◌∷◌, [], false, length, slice_index_or, IfOk, OnOk};
ghost use Rattle.sect_infer.specs.Numbers.{has_number, with_number, with_numbers};

use std::alloc::{AllocError, Global};
use std::marker::Model;

/// Numbers, each at most once, in the order in which they came.
#[derive(Drop)]
pub struct Numbers {
    members: Vec<usize>,
    marks: Vec<bool>,
}

impl Model for Numbers {
    ghost use Rattle.std.specs.Prelude.{List, ℕ};
    ghost use Rattle.sect_infer.specs.Numbers.{AreMarked};

    ghost Value = { List ℕ };

    ghost view = { λ n. n.members.items };

    ghost invariant = { λ n. AreMarked n.members.items n.marks.items };
}

/// Fills up the room that the marks have. No more numbers are marked.
fn fill_room(marks: &mut Vec<bool>) -> Result<(), AllocError>
    ensures more { length marks.old.items ≤ length marks.new.items }
    ensures same { (n : ℕ) → slice_index_or marks.new.items n false ≡ slice_index_or marks.old.items n false }
{
    let room = marks.capacity();
    marks.resize(room, false)?;
    Ok(())
}

/// Makes room for the mark of a number behind all marks. No more numbers are marked.
#[cold]
#[inline(never)]
fn add_marks(marks: &mut Vec<bool>, number: usize) -> Result<(), AllocError>
    requires { length marks.old.items ≤ number }
    ensures room { OnOk result (number < length marks.new.items) }
    ensures same { (n : ℕ) → slice_index_or marks.new.items n false ≡ slice_index_or marks.old.items n false }
{
    marks.resize(number, false)?;
    marks.push(false)?;
    fill_room(marks)
}

/// Makes room for the mark of a number. No more numbers are marked.
#[inline(always)]
fn make_room(marks: &mut Vec<bool>, number: usize) -> Result<(), AllocError>
    ensures room { OnOk result (number < length marks.new.items) }
    ensures same { (n : ℕ) → slice_index_or marks.new.items n false ≡ slice_index_or marks.old.items n false }
{
    if marks.len() <= number {
        add_marks(marks, number)?;
    }
    Ok(())
}

/// Whether a number is one of these.
pub fn has(numbers: &[usize], number: usize) -> bool
    ensures { result ≡ has_number numbers.now number }
{
    numbers.contains(&number)
}

impl Numbers {
    /// None.
    pub fn new(alloc: Global) -> Numbers
        ensures { result ≡ [] }
    {
        Numbers {
            members: Vec::new(alloc),
            marks: Vec::new(alloc),
        }
    }

    /// None, with room for so many, and for the marks of all that are below a number.
    pub fn with_room(alloc: Global, count: usize, below: usize) -> Result<Numbers, AllocError>
        ensures { IfOk result (λ n. n ≡ []) }
    {
        let mut marks = Vec::with_capacity(alloc, below)?;
        marks.resize(below, false)?;
        Ok(Numbers {
            members: Vec::with_capacity(alloc, count)?,
            marks,
        })
    }

    /// Whether a number is there.
    pub fn has(&self, number: usize) -> bool
        ensures { result ≡ has_number self.now number }
    {
        number < self.marks.len() && self.marks[number]
    }

    /// Adds a number, unless it is there.
    #[inline(always)]
    pub fn insert(&mut self, number: usize) -> Result<(), AllocError>
        ensures { OnOk result (self.new ≡ with_number self.old number) }
    {
        if !self.has(number) {
            self.mark(number)?;
        }
        Ok(())
    }

    /// Adds a number that isn't there.
    #[inline(always)]
    fn mark(&mut self, number: usize) -> Result<(), AllocError>
        requires { has_number self.old number ≡ false }
        ensures { OnOk result (self.new ≡ self.old ++ number ∷ []) }
    {
        make_room(&mut self.marks, number)?;
        self.members.push(number)?;
        self.marks[number] = true;
        Ok(())
    }

    /// Adds numbers, in order, but those that are there.
    pub fn insert_all(&mut self, numbers: &[usize]) -> Result<(), AllocError>
        ensures { OnOk result (self.new ≡ with_numbers self.old numbers.now) }
    {
        for number in numbers {
            self.insert(*number)?;
        }
        Ok(())
    }

    /// The numbers.
    pub fn members(&self) -> &[usize]
        ensures { result.now ≡ self.now }
    {
        self.members.as_slice()
    }

    /// Takes all numbers out.
    pub fn clear(&mut self)
        ensures { self.new ≡ [] }
    {
        for number in self.members.as_slice() {
            self.marks[*number] = false;
        }
        self.members.clear();
    }
}
