//! Which work the words of the command line ask for.

use crate::failure::Failure;
use std::alloc::{AllocError, Global};

/// The work of one measurement, and its sizes.
#[derive(Clone, Copy)]
pub enum Work {
    /// The points-to sets of the program on standard input, found so many times.
    Sets { times: u32 },
    /// Its points-to sets and the classes of its sites, found so many times.
    Classes { times: u32 },
    /// The program behind the first line of standard input, compiled with paths of at most so many fields, and turns of
    /// the threads that the line names.
    Schedule { k: u16 },
    /// So many rounds, in each of which 64 threads ask the lock table for a key, in turn over so many keys.
    Table { keys: u32, rounds: u32 },
    /// A certificate of so many sections and so many locks in each list, written, read and written again.
    Certificate { sections: u32, locks: u32 },
}

/// What is done where the command line asks for nothing.
const EACH_IN_TURN: [Work; 4] = [
    Work::Sets { times: 2 },
    Work::Classes { times: 2 },
    Work::Table {
        keys: 10000,
        rounds: 10,
    },
    Work::Certificate {
        sections: 2,
        locks: 4,
    },
];

impl Work {
    /// Whether it is done on the text on standard input.
    pub fn reads(&self) -> bool {
        matches!(
            self,
            Work::Sets { .. } | Work::Classes { .. } | Work::Schedule { .. }
        )
    }
}

/// What the words ask for, the program's name first.
pub fn works(alloc: Global, words: &[String]) -> Result<Vec<Work>, Failure> {
    match words {
        [_] => Ok(copied(alloc, &EACH_IN_TURN)?),
        [_, what, times] => {
            let work = repeated(what.as_str(), number(times)?)?;
            Ok(copied(alloc, &[work])?)
        }
        [_, what, first, second] => {
            let work = of_size(what.as_str(), number(first)?, number(second)?)?;
            Ok(copied(alloc, &[work])?)
        }
        _ => Err(Failure::Usage),
    }
}

/// A list of these.
fn copied(alloc: Global, works: &[Work]) -> Result<Vec<Work>, AllocError> {
    let mut list = Vec::new(alloc);
    list.extend_from_slice(works)?;
    Ok(list)
}

/// The work of this name that is done so many times.
fn repeated(what: &str, times: u32) -> Result<Work, Failure> {
    match what {
        "sets" => Ok(Work::Sets { times }),
        "classes" => Ok(Work::Classes { times }),
        "schedule" => Ok(Work::Schedule {
            k: u16::try_from(times)?,
        }),
        _ => Err(Failure::Usage),
    }
}

/// The work of this name that has these two sizes.
fn of_size(what: &str, first: u32, second: u32) -> Result<Work, Failure> {
    match what {
        "table" => Ok(Work::Table {
            keys: first,
            rounds: second,
        }),
        "cert" => Ok(Work::Certificate {
            sections: first,
            locks: second,
        }),
        _ => Err(Failure::Usage),
    }
}

/// The number that a word spells.
fn number(word: &String) -> Result<u32, Failure> {
    match word.parse::<u32>() {
        Ok(number) => Ok(number),
        Err(_) => Err(Failure::Usage),
    }
}
