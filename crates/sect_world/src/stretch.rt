//! A stretch of a thread's code that is run apart from its world.

ghost use Rattle.std.specs.Prelude.{◌≡◌, ℕ, length};
ghost use Rattle.sect_world.specs.Stretches.{IsStretchOf, events_in};

use crate::apart::Apart;
use crate::local_stretch::LocalStretch;
use sect_emit::Compiled;
use std::alloc::AllocError;

/// A stretch of a thread's code that is run apart from its world.
#[derive(Drop)]
pub enum Stretch {
    /// A stretch of the section that the thread runs.
    Section(Apart),
    /// A stretch outside sections.
    Local(LocalStretch),
}

impl Stretch {
    /// Goes on by so many events at most, until it can't go on apart. Where memory is refused it has come as far as
    /// that.
    pub fn run(&mut self, compiled: &Compiled, most: u32) -> Result<(), AllocError>
        requires { (t : ℕ) × IsStretchOf compiled.now t self.old }
        ensures { (t : ℕ) → IsStretchOf compiled.now t self.old → IsStretchOf compiled.now t self.new }
    {
        match self {
            Stretch::Section(apart) => apart.run(compiled, most),
            Stretch::Local(local) => local.run(compiled, most),
        }
    }

    /// How many events it has.
    pub fn count(&self) -> u32
        ensures { (t : ℕ) → length (events_in t self.now) ≡ result }
    {
        match self {
            Stretch::Section(apart) => apart.acts,
            Stretch::Local(local) => local.steps,
        }
    }
}
