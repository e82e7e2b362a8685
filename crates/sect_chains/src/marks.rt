//! Marks of numbers.

ghost use Rattle.std.specs.Prelude.{◌≡◌, ◌<◌, ◌≤◌, ◌-◌, ◌++◌, [], false, length, replicate, OnOk};
ghost use Rattle.sect_chains.specs.steps.Marking.{is_marked, with_mark};

use std::alloc::{AllocError, Global};
use std::marker::Model;

/// For each number a mark, as far as there are marks. A number behind them isn't marked.
#[derive(Drop)]
pub struct Marks {
    marks: Vec<bool>,
}

impl Model for Marks {
    ghost use Rattle.std.specs.Prelude.{Bool, List};

    ghost Value = { List Bool };

    ghost view = { λ m. m.marks.items };
}

impl Marks {
    /// None.
    pub fn new(alloc: Global) -> Marks
        ensures { result ≡ [] }
    {
        Marks {
            marks: Vec::new(alloc),
        }
    }

    /// Whether a number is marked.
    #[inline(always)]
    pub fn has(&self, number: usize) -> bool
        ensures { result ≡ is_marked self.now number }
    {
        number < self.marks.len() && self.marks[number]
    }

    /// Makes room for the mark of a number: for those of all below a count.
    #[cold]
    #[inline(never)]
    fn grow(&mut self, count: usize) -> Result<(), AllocError>
        requires { length self.old ≤ count }
        ensures { OnOk result (self.new ≡ self.old ++ replicate (count - length self.old) false) }
    {
        self.marks.resize(count, false)
    }

    /// Marks a number that is below a count.
    #[inline(always)]
    pub fn mark(&mut self, number: usize, count: usize) -> Result<(), AllocError>
        requires { number < count }
        ensures { OnOk result (self.new ≡ with_mark self.old count number) }
    {
        if self.marks.len() <= number {
            self.grow(count)?;
        }
        self.marks[number] = true;
        Ok(())
    }
}
