//! Why a command line is wrong.

use clap::error::ErrorKind;
use std::alloc::{AllocError, AllocFailed};
use thiserror::Error;

/// Why a command line is wrong. `Display` is what the program prints of it.
#[derive(Debug, Drop, Error)]
pub enum UsageFault {
    /// What `clap` refuses: an unknown command or option, an option given twice, a call for help.
    #[error("{0}\nA source text is read from FILE, or on standard input, as in: sectc locks < FILE\n")]
    Words(clap::Error),
    /// A subcommand that is none of the program's.
    #[error("error: unknown command '{0}'\n")]
    Subcommand(String),
    /// A call for the version.
    #[error("{0}")]
    Version(clap::Error),
    /// A value that isn't decimal digits alone or lies outside `least` to `most`, and its option.
    #[error("error: invalid value '{value}' for '--{option}': a number from {least} to {most} is wanted\n")]
    Number {
        value: String,
        option: &'static str,
        least: u32,
        most: u32,
    },
    /// A word in the place of a thread's number that isn't decimal digits alone or is too great.
    #[error("error: invalid thread '{0}': a number from 0 to 65535 is wanted\n")]
    Thread(String),
    /// A word that gives a thread no number of turns behind `:`, or too great a one.
    #[error("error: invalid turns '{0}': a number from 1 to 1000000 is wanted behind ':'\n")]
    Turns(String),
    /// A word of digits alone in the place of a file.
    #[error("error: unexpected argument '{0}': a file of digits alone is named './{0}'\n")]
    NumberForFile(String),
    /// A value of `--format` that is no format.
    #[error("error: invalid value '{0}' for '--format': text or json is wanted\n")]
    Format(String),
    /// A value of `--format` that is no form of `lint`.
    #[error("error: invalid value '{0}' for '--format': text, json or sarif is wanted\n")]
    LintFormat(String),
    /// A value of `--color` that says nothing of colours.
    #[error("error: invalid value '{0}' for '--color': auto, always or never is wanted\n")]
    Colour(String),
    /// A word that names no warning, where one is wanted, and the word for all of them.
    #[error("error: invalid value '{value}' for '--{option}': {all} or the name of a warning is wanted\n")]
    Warning {
        value: String,
        option: &'static str,
        all: &'static str,
    },
    /// The same of a word that is near a name.
    #[error("error: invalid value '{value}' for '--{option}': did you mean `{near}`?\n")]
    NearWarning {
        value: String,
        option: &'static str,
        near: &'static str,
    },
    /// JSON where the named option makes a text.
    #[error("error: invalid value 'json' for '--format': with '--{0}' text is wanted\n")]
    TextOnly(&'static str),
    /// A growth was refused.
    #[error("out of memory\n")]
    Memory,
}

impl From<AllocError> for UsageFault {
    fn from(_refused: AllocError) -> UsageFault {
        UsageFault::Memory
    }
}

impl<T: Drop> From<AllocFailed<T>> for UsageFault {
    fn from(_refused: AllocFailed<T>) -> UsageFault {
        UsageFault::Memory
    }
}

impl From<clap::Error> for UsageFault {
    fn from(refused: clap::Error) -> UsageFault {
        match refused.kind() {
            ErrorKind::OutOfMemory => UsageFault::Memory,
            ErrorKind::DisplayVersion => UsageFault::Version(refused),
            _ => UsageFault::Words(refused),
        }
    }
}
