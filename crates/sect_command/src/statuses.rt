//! Exit statuses.

ghost use Rattle.std.specs.Prelude.{◌≡◌};
ghost use Rattle.sect_command.specs.Statuses.{done, refused, wrong_words, failed};

/// The status of a run that did what was asked.
pub const DONE: u8 = 0;

/// The status of a run whose input was refused.
pub const REFUSED: u8 = 1;

/// The status of a run whose command line is wrong.
pub const WRONG_WORDS: u8 = 2;

/// The status of a run that lacked memory, or whose input or output failed.
pub const FAILED: u8 = 3;

/// The constants are the statuses that the definitions state.
pub fn statuses_are_numbers()
    ensures done { DONE ≡ done }
    ensures refused { REFUSED ≡ refused }
    ensures wrong_words { WRONG_WORDS ≡ wrong_words }
    ensures failed { FAILED ≡ failed }
{}
