//! The constants of the modes in C.

ghost use Rattle.std.specs.{Prelude.{◌≡◌, ◌++◌, OnOk}, List.{flat_map}, String.{string_bytes}};
ghost use Rattle.sect_modes.specs.Word.{unit_of, against as against_of};
ghost use Rattle.sect_c.specs.Words.{entry_c, words_c};

use sect_modes::{Mode, against, unit};
use std::alloc::AllocError;
use std::fmt::Write;

/// The modes in the order of their constants.
const MODES: [Mode; 5] = [
    Mode::IntentionShared,
    Mode::IntentionExclusive,
    Mode::Shared,
    Mode::SharedIntentionExclusive,
    Mode::Exclusive,
];

/// Adds a number of a table.
fn put_entry(text: &mut String, number: u64) -> Result<(), AllocError>
    ensures { OnOk result (string_bytes text.new ≡ string_bytes text.old ++ entry_c number) }
{
    Ok(write!(text, "  UINT64_C({number}),\n")?)
}

/// Adds what a holder in each of these modes adds to a word.
fn put_units(text: &mut String, modes: &[Mode]) -> Result<(), AllocError>
    ensures { OnOk result (string_bytes text.new
        ≡ string_bytes text.old ++ flat_map (λ m. entry_c (unit_of m)) modes.now) }
{
    for mode in modes {
        put_unit(text, *mode)?;
    }
    Ok(())
}

/// Adds what a holder in this mode adds to a word.
fn put_unit(text: &mut String, mode: Mode) -> Result<(), AllocError>
    ensures { OnOk result (string_bytes text.new ≡ string_bytes text.old ++ entry_c (unit_of mode)) }
{
    put_entry(text, unit(mode))
}

/// Adds which bits of a word keep each of these modes out.
fn put_masks(text: &mut String, modes: &[Mode]) -> Result<(), AllocError>
    ensures { OnOk result (string_bytes text.new
        ≡ string_bytes text.old ++ flat_map (λ m. entry_c (against_of m)) modes.now) }
{
    for mode in modes {
        put_mask(text, *mode)?;
    }
    Ok(())
}

/// Adds which bits of a word keep this mode out.
fn put_mask(text: &mut String, mode: Mode) -> Result<(), AllocError>
    ensures { OnOk result (string_bytes text.new ≡ string_bytes text.old ++ entry_c (against_of mode)) }
{
    put_entry(text, against(mode))
}

/// Adds both tables.
pub fn put_words(text: &mut String) -> Result<(), AllocError>
    ensures { OnOk result (string_bytes text.new ≡ string_bytes text.old ++ words_c) }
{
    text.push_str("static const uint64_t sect_unit[] = {\n")?;
    put_units(text, &MODES)?;
    text.push_str("};\nstatic const uint64_t sect_against[] = {\n")?;
    put_masks(text, &MODES)?;
    text.push_str("};\n")?;
    Ok(())
}
