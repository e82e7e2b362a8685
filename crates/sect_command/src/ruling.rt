//! What the words of `lint` say of warnings.

ghost use Rattle.std.specs.{Prelude.{◌≡◌, ◌++◌, IfOk, OnOk, length}, List.{AllZip}};
ghost use Rattle.clap.specs.Matches.{found_of};
ghost use Rattle.sect_command.specs.Ruling.{AddsRulings, SaysRulings, SaysWhich, option_of as option_by, places_in};
ghost use Rattle.sect_command.specs.Ruling.{all_word as all_word_by, rulings_to};
ghost use Rattle.sect_command.specs.Saying.{values_in};

use crate::usage::UsageFault;
use clap::ArgMatches;
use sect_answers::is_near;
use sect_warnings::{CODES, Level, Ruling, Which};
use std::alloc::{AllocError, Global};

/// The option that says so.
fn option_of(level: Level) -> &'static str
    ensures { result.now ≡ option_by level }
{
    match level {
        Level::Allow => "allow",
        Level::Deny => "deny",
    }
}

/// The word that stands for all warnings.
fn all_word(level: Level) -> &'static str
    ensures { result.now ≡ all_word_by level }
{
    match level {
        Level::Allow => "all",
        Level::Deny => "warnings",
    }
}

/// The first name of a warning that is near a word; the word for all warnings is near none.
fn near_name(word: &str) -> Option<&'static str> {
    for code in CODES {
        let name = code.name();
        if word != "all" && is_near(word.as_bytes(), name.as_bytes()) {
            return Some(name);
        }
    }
    None
}

/// Why a word names no warnings: a name that is near it is told.
fn unknown(alloc: Global, level: Level, word: &str) -> Result<UsageFault, AllocError> {
    let value = String::from_str(alloc, word)?;
    let option = option_of(level);
    match near_name(word) {
        Some(near) => Ok(UsageFault::NearWarning {
            value,
            option,
            near,
        }),
        None => Ok(UsageFault::Warning {
            value,
            option,
            all: all_word(level),
        }),
    }
}

/// The warnings that a word names.
fn which_of(alloc: Global, level: Level, word: &str) -> Result<Which, UsageFault>
    ensures { IfOk result (SaysWhich level word.now) }
{
    if word.as_bytes() == all_word(level).as_bytes() {
        return Ok(Which::All);
    }
    for code in CODES {
        if word.as_bytes() == code.name().as_bytes() {
            return Ok(Which::One(*code));
        }
    }
    Err(unknown(alloc, level, word)?)
}

/// The warnings that the values of an option name.
fn warnings_of(
    alloc: Global,
    options: &ArgMatches<'_>,
    level: Level,
) -> Result<Vec<Which>, UsageFault>
    ensures { IfOk result (λ named. AllZip (SaysWhich level) (values_in (found_of options.now) (option_by level))
        named.items) }
{
    let mut named = Vec::new(alloc);
    let Some(words) = options.get_strs(option_of(level)) else {
        return Ok(named);
    };
    for word in words {
        named.push(which_of(alloc, level, word)?)?;
    }
    Ok(named)
}

/// At which words the values of an option stand.
fn places_of<'a>(options: &'a ArgMatches<'_>, level: Level) -> &'a [usize]
    ensures { result.now ≡ places_in (found_of options.now) (option_by level) }
{
    match options.indices_of(option_of(level)) {
        Some(places) => places,
        None => &[],
    }
}

/// Adds rulings of these warnings, at these words.
fn put_rulings(
    rulings: &mut Vec<Ruling>,
    level: Level,
    places: &[usize],
    named: &[Which],
) -> Result<(), AllocError>
    ensures { OnOk result (rulings.new.items
        ≡ rulings.old.items ++ rulings_to level places.now named.now (length named.now)) }
{
    for (number, which) in named.iter().enumerate() {
        let at = places.get(number).copied().unwrap_or(0);
        rulings.push(Ruling {
            at,
            which: *which,
            level,
        })?;
    }
    Ok(())
}

/// Adds what the words of an option say of warnings.
fn add_rulings(
    alloc: Global,
    options: &ArgMatches<'_>,
    level: Level,
    rulings: &mut Vec<Ruling>,
) -> Result<(), UsageFault>
    ensures { OnOk result (AddsRulings (found_of options.now) level rulings.old.items rulings.new.items) }
{
    let named = warnings_of(alloc, options, level)?;
    put_rulings(rulings, level, places_of(options, level), named.as_slice())?;
    Ok(())
}

/// What the words of `lint` say of warnings.
pub fn rulings_of(alloc: Global, options: &ArgMatches<'_>) -> Result<Vec<Ruling>, UsageFault>
    ensures { IfOk result (λ rulings. SaysRulings (found_of options.now) rulings.items) }
{
    let mut rulings = Vec::new(alloc);
    add_rulings(alloc, options, Level::Deny, &mut rulings)?;
    add_rulings(alloc, options, Level::Allow, &mut rulings)?;
    Ok(rulings)
}
