//! Laws of the modes, for the crates that build on them.

ghost use Rattle.sect_modes.specs.Mode.{IsPartialOrder, SharesDownwards, KeepsApart};

use crate::mode::Mode;

/// The order of modes is partial.
pub fn order_of_modes(a: Mode, b: Mode, c: Mode)
    ensures { IsPartialOrder a b c }
{
    let _ = (a, b, c);
}

/// Sharing is symmetric, and weaker modes share more.
pub fn sharing_of_modes(a: Mode, b: Mode, c: Mode)
    ensures { SharesDownwards a b c }
{
    let _ = (a, b, c);
}

/// The exclusive mode shares with none, and a reading mode with no making one.
pub fn apartness_of_modes(a: Mode, b: Mode)
    ensures { KeepsApart a b }
{
    let _ = (a, b);
}
