//! Where statements are expanded.

ghost use Rattle.std.specs.Prelude.{◌+◌, ◌≤◌, length};
ghost use Rattle.sect_types.specs.Limits.{most_all_locals};

use crate::expansion::expand::Setting;
use crate::rules::scope::Scope;

/// What all threads see, how deep calls stand in one another at most, and what the statements see, whose variables have
/// the numbers from `first` on.
#[derive(Drop)]
pub struct Inside<'a> {
    pub setting: &'a Setting<'a>,
    pub most: usize,
    pub scope: &'a Scope<'a>,
    pub first: u16,
    ghost own: { first + length scope.now.locals ≤ most_all_locals },
}
