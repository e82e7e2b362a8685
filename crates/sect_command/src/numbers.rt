//! Options whose values are numbers.

ghost use Rattle.std.specs.{Prelude.{◌≤◌, ◌^◌, SomeIff, IfOk}, Str.Parse.{IsNumeral, digits_value}};
ghost use Rattle.clap.specs.Matches.{first_value, found_of};
ghost use Rattle.sect_command.specs.Saying.{SaysNumber, MaySayNumber};

use crate::usage::UsageFault;
use clap::ArgMatches;
use std::alloc::Global;

/// The greatest number that an option takes which is neither fuel nor a number of states.
pub const MOST: u32 = 65535;

/// The most fields of a path where the command line doesn't say.
pub const DEFAULT_K: u16 = 2;

/// The workers that infer locks where the command line doesn't say.
pub const DEFAULT_WORKERS: u16 = 1;

/// An option whose value is a number: its name, the numbers that it takes, from 1 on, and the number where the command
/// line doesn't say.
pub struct Bounded {
    name: &'static str,
    most: u32,
    default: u32,
}

/// The units of fuel of each thread.
pub const FUEL: Bounded = Bounded {
    name: "fuel",
    most: 1_000_000,
    default: 10_000,
};

/// The most states that outcomes are sought among.
pub const STATES: Bounded = Bounded {
    name: "most",
    most: 10_000_000,
    default: 100_000,
};

impl Bounded {
    /// The number that the option gives, or the default.
    pub fn of(&self, alloc: Global, matches: &ArgMatches<'_>) -> Result<u32, UsageFault>
        ensures { IfOk result (SaysNumber 1 self.now.most self.now.default
            (first_value (found_of matches.now) self.now.name.now)) }
    {
        let Some(text) = matches.get_str(self.name) else {
            return Ok(self.default);
        };
        match number(text, self.most) {
            Some(given) if given > 0 => Ok(given),
            _ => Err(UsageFault::Number {
                value: String::from_str(alloc, text)?,
                option: self.name,
                least: 1,
                most: self.most,
            }),
        }
    }
}

/// The number that a text spells, where it is decimal digits alone and at most `most`.
pub fn number(text: &str, most: u32) -> Option<u32>
    ensures { SomeIff result (IsNumeral 10 text.now × (digits_value 10 text.now ≤ most)) (digits_value 10 text.now) }
{
    if let Some(b'+') = text.as_bytes().first() {
        return None;
    }
    let n = text.parse::<u32>().ok()?;
    if n <= most { Some(n) } else { None }
}

/// The number that an option gives, if it gives one.
pub fn number_of(
    alloc: Global,
    options: &ArgMatches<'_>,
    name: &'static str,
) -> Result<Option<u16>, UsageFault>
    ensures { IfOk result (MaySayNumber 0 MOST (first_value (found_of options.now) name.now)) }
{
    let Some(text) = options.get_str(name) else {
        return Ok(None);
    };
    match number(text, MOST) {
        Some(n) => Ok(Some(n as u16)),
        None => Err(UsageFault::Number {
            value: String::from_str(alloc, text)?,
            option: name,
            least: 0,
            most: MOST,
        }),
    }
}

/// The number that an option gives, or the default.
pub fn number_or(
    alloc: Global,
    options: &ArgMatches<'_>,
    name: &'static str,
    default: u16,
) -> Result<u16, UsageFault>
    ensures { IfOk result (SaysNumber 0 MOST default (first_value (found_of options.now) name.now)) }
{
    Ok(number_of(alloc, options, name)?.unwrap_or(default))
}
