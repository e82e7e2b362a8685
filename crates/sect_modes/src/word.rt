//! A key as one word, for threads that take keys by compare-and-swap: five counts of holders, one for each mode, of
//! twelve bits each, and above them the sign that somebody waits.

ghost use Rattle.std.specs.Prelude.{◌≡◌, ◌<◌, ℕ, List, length};
ghost use Rattle.sect_modes.specs.declared.mode.Mode.{Mode as AMode};
ghost use Rattle.sect_modes.specs.Word.{unit_of, against as against_of, waited_word, goes_with, GivesBack, Fits};

use crate::mode::Mode;

/// What a holder in this mode adds to the word.
pub fn unit(mode: Mode) -> u64
    ensures { result ≡ unit_of mode }
{
    match mode {
        Mode::IntentionShared => 1,
        Mode::IntentionExclusive => 1 << 12,
        Mode::Shared => 1 << 24,
        Mode::SharedIntentionExclusive => 1 << 36,
        Mode::Exclusive => 1 << 48,
    }
}

/// The bits of the word that count the holders in modes that aren't compatible with this one.
pub fn against(mode: Mode) -> u64
    ensures { result ≡ against_of mode }
{
    match mode {
        Mode::IntentionShared => 0x0fff_0000_0000_0000,
        Mode::IntentionExclusive => 0x0fff_ffff_ff00_0000,
        Mode::Shared => 0x0fff_fff0_00ff_f000,
        Mode::SharedIntentionExclusive => 0x0fff_ffff_ffff_f000,
        Mode::Exclusive => 0x0fff_ffff_ffff_ffff,
    }
}

/// Whether the key of this word may be taken in this mode: the modes of all its holders are compatible with it.
pub fn admits(word: u64, mode: Mode) -> bool
    ensures { (waiting : ℕ) (holders : List AMode) → length holders < 4096 → word ≡ waited_word waiting holders
        → result ≡ goes_with mode holders }
{
    word & against(mode) == 0
}

/// Taking and giving keep the word that of the holders, and the words of up to 64 holders fit.
pub fn words_of_holders()
    ensures gives { (m : AMode) (before after : List AMode) → GivesBack m before after }
    ensures fits { (holders : List AMode) → Fits holders }
{}
