//! What the words of a command line say of a run: threads, by number or by name.

ghost use Rattle.std.specs.{Prelude.{◌≡◌, ◌≤◌, ◌⊎◌, ◌++◌, true, IfOk, codes, length, map}, String.{string_bytes}};
ghost use Rattle.clap.specs.Matches.{found_of};
ghost use Rattle.sect_command.specs.Saying.{AreThreads, SaysThread, values_in};
ghost use Rattle.sect_command.specs.Wanting.{take_threads as take_threads_by};

use crate::numbers::{MOST, number};
use crate::usage::UsageFault;
use clap::ArgMatches;
use sect_answers::ThreadWord;
use sect_front::is_name;
use std::alloc::Global;

/// Whether the words are those of a command that takes threads.
fn take_threads(words: &[String]) -> bool
    ensures { result ≡ take_threads_by (map string_bytes words.now) }
{
    match words.get(1) {
        Some(command) => matches!(command.as_str(), "serial" | "schedule"),
        None => false,
    }
}

/// Where the words of digits alone begin that the words end with.
fn digits_start(words: &[String]) -> usize
    ensures { result ≤ length words.now }
{
    for place in (0..words.len()).rev() {
        if !words[place].as_bytes().iter().all(u8::is_ascii_digit) {
            return place + 1;
        }
    }
    0
}

/// How many of the words `clap` is told. Of the numbers at the end of a command line that takes threads that is the
/// first one alone, which may be an option's value: each behind it is a thread.
pub fn told_count(words: &[String]) -> usize
    ensures count { result ≤ length words.now }
    ensures threads { (result ≡ length words.now) ⊎ (take_threads_by (map string_bytes words.now) ≡ true) }
{
    if take_threads(words) {
        words.len().min(digits_start(words).saturating_add(1))
    } else {
        words.len()
    }
}

/// How a word names a thread: by its number, or by a name.
pub fn thread_of(alloc: Global, word: &str) -> Result<ThreadWord, UsageFault>
    ensures { IfOk result (SaysThread word.now) }
{
    match number(word, MOST) {
        Some(thread) => Ok(ThreadWord::Number(thread as u16)),
        None if is_name(word.as_bytes()) => Ok(ThreadWord::Name(String::from_str(alloc, word)?)),
        None => Err(UsageFault::Thread(String::from_str(alloc, word)?)),
    }
}

/// The threads that `clap` has found.
fn found_threads(alloc: Global, matches: &ArgMatches<'_>) -> Result<Vec<ThreadWord>, UsageFault>
    ensures { IfOk result (λ threads. AreThreads (values_in (found_of matches.now) (codes "threads")) threads.items) }
{
    let mut threads = Vec::new(alloc);
    let Some(words) = matches.get_strs("threads") else {
        return Ok(threads);
    };
    for word in words {
        threads.push(thread_of(alloc, word)?)?;
    }
    Ok(threads)
}

/// The threads that `clap` has found, and those that the words name of which it wasn't told.
pub fn threads_of(
    alloc: Global,
    matches: &ArgMatches<'_>,
    untold: &[String],
) -> Result<Vec<ThreadWord>, UsageFault>
    ensures { IfOk result (λ threads. AreThreads
        (values_in (found_of matches.now) (codes "threads") ++ map string_bytes untold.now) threads.items) }
{
    let mut threads = found_threads(alloc, matches)?;
    threads.reserve(untold.len())?;
    for word in untold {
        threads.push(thread_of(alloc, word.as_str())?)?;
    }
    Ok(threads)
}
