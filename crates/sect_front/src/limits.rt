//! The limits of a text.

ghost use Rattle.std.specs.Prelude.{◌≡◌};
ghost use Rattle.sect_front.specs.Limits.{most_bytes, most_name_bytes, most_depth};

/// The most bytes of a text.
pub const MOST_BYTES: usize = 1048576;

/// The most bytes of a name.
pub const MOST_NAME_BYTES: usize = 32;

/// The most blocks that stand in one another, the braces of a record, a procedure or a thread counted.
pub const MOST_DEPTH: usize = 32;

/// The constants are the limits that the definitions state.
pub fn limits_of_texts()
    ensures bytes { MOST_BYTES ≡ most_bytes }
    ensures name_bytes { MOST_NAME_BYTES ≡ most_name_bytes }
    ensures depth { MOST_DEPTH ≡ most_depth }
{}
