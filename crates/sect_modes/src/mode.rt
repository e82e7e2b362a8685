//! The five modes, and what they allow beside each other.

ghost use Rattle.std.specs.Prelude.{◌≡◌, Some};
ghost use Rattle.sect_modes.specs.Mode.{are_compatible, join_of, is_at_least, intention_of, IsLeastUpperBound};
ghost use Rattle.sect_modes.specs.Mode.{mode_text};

use std::fmt;

/// What the holder of a key may do with it and with its parts. `Display` is its usual short name.
#[derive(Clone, Copy, Debug, PartialEq, Eq)]
pub enum Mode {
    /// Parts of it are held to be read.
    IntentionShared,
    /// Parts of it are held to be written or made.
    IntentionExclusive,
    /// All of it may be read.
    Shared,
    /// All of it may be read, and parts of it are held to be written or made.
    SharedIntentionExclusive,
    /// All of it may be read, written and made.
    Exclusive,
}

impl fmt::Display for Mode {
    ghost output = { λ m. Some (mode_text m) };

    fn fmt<W: fmt::Write>(&self, f: &mut fmt::Formatter<W>) -> fmt::Result {
        match self {
            Mode::IntentionShared => f.write_str("IS"),
            Mode::IntentionExclusive => f.write_str("IX"),
            Mode::Shared => f.write_str("S"),
            Mode::SharedIntentionExclusive => f.write_str("SIX"),
            Mode::Exclusive => f.write_str("X"),
        }
    }
}

/// Whether two threads may hold one key, one in each of these modes.
pub fn compatible(left: Mode, right: Mode) -> bool
    ensures { result ≡ are_compatible left right }
{
    use Mode::*;
    match (left, right) {
        (IntentionShared, Exclusive) | (Exclusive, _) => false,
        (IntentionShared, _) => true,
        (IntentionExclusive, IntentionShared | IntentionExclusive) => true,
        (Shared, IntentionShared | Shared) => true,
        (SharedIntentionExclusive, IntentionShared) => true,
        _ => false,
    }
}

/// Whether a mode gives every right of another one.
pub fn at_least(mode: Mode, wanted: Mode) -> bool
    ensures { result ≡ is_at_least mode wanted }
{
    use Mode::*;
    match (mode, wanted) {
        (_, IntentionShared) | (Exclusive, _) => true,
        (IntentionExclusive, IntentionExclusive) | (Shared, Shared) => true,
        (SharedIntentionExclusive, IntentionExclusive | Shared | SharedIntentionExclusive) => true,
        _ => false,
    }
}

/// The weakest mode that gives the rights of both.
pub fn join(left: Mode, right: Mode) -> Mode
    ensures value { result ≡ join_of left right }
    ensures least { IsLeastUpperBound result left right }
{
    use Mode::*;
    match (left, right) {
        (IntentionExclusive, Shared) | (Shared, IntentionExclusive) => SharedIntentionExclusive,
        _ => { if at_least(left, right) { left } else { right } }
    }
}

/// The mode that is due on a whole before one of its parts is held in this mode.
pub fn intention(mode: Mode) -> Mode
    ensures { result ≡ intention_of mode }
{
    match mode {
        Mode::IntentionShared | Mode::Shared => Mode::IntentionShared,
        _ => Mode::IntentionExclusive,
    }
}
