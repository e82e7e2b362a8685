//! What the words of a command line say of turns: a thread, or a thread and how many turns it has.

ghost use Rattle.std.specs.{Prelude.{◌≡◌, ◌++◌, IfOk, OnOk, codes, map, replicate}, String.{string_bytes}};
ghost use Rattle.clap.specs.Matches.{found_of};
ghost use Rattle.sect_command.specs.{Requests.{turns_of as turns_by_counts}, steps.Turning.{AddsTurns}};
ghost use Rattle.sect_command.specs.Saying.{AreTurns, SaysTurns, values_in};

use crate::numbers::number;
use crate::request::Turns;
use crate::running::thread_of;
use crate::usage::UsageFault;
use clap::ArgMatches;
use sect_answers::ThreadWord;
use std::alloc::{AllocError, Global};

/// The most turns that a word gives a thread.
const MOST_TURNS: u32 = 1_000_000;

/// What a word says of turns: a thread, and how many it has. Without `:` that is one.
fn turns_by(alloc: Global, word: &str) -> Result<(ThreadWord, u32), UsageFault>
    ensures { IfOk result (λ said. SaysTurns word.now said.0 said.1) }
{
    let Some((name, count)) = word.split_once(':') else {
        return Ok((thread_of(alloc, word)?, 1));
    };
    match number(count, MOST_TURNS) {
        Some(turns) if turns > 0 => Ok((thread_of(alloc, name)?, turns)),
        _ => Err(UsageFault::Turns(String::from_str(alloc, word)?)),
    }
}

/// Adds the turns of a word.
fn add_turns(alloc: Global, word: &str, turns: &mut Turns) -> Result<(), UsageFault>
    ensures { OnOk result (AddsTurns word.now turns.old turns.new) }
{
    let (thread, count) = turns_by(alloc, word)?;
    turns.threads.push(thread)?;
    turns.counts.push(count)?;
    Ok(())
}

/// The turns of the words that `clap` has found.
fn found_turns(alloc: Global, matches: &ArgMatches<'_>) -> Result<Turns, UsageFault>
    ensures { IfOk result (λ turns. AreTurns (values_in (found_of matches.now) (codes "threads"))
        turns.threads.items turns.counts.items) }
{
    let mut turns = Turns {
        threads: Vec::new(alloc),
        counts: Vec::new(alloc),
    };
    let Some(words) = matches.get_strs("threads") else {
        return Ok(turns);
    };
    for word in words {
        add_turns(alloc, word, &mut turns)?;
    }
    Ok(turns)
}

/// The turns of the words that `clap` has found, and of those of which it wasn't told.
pub fn turns_of(
    alloc: Global,
    matches: &ArgMatches<'_>,
    untold: &[String],
) -> Result<Turns, UsageFault>
    ensures { IfOk result (λ turns. AreTurns
        (values_in (found_of matches.now) (codes "threads") ++ map string_bytes untold.now) turns.threads.items
        turns.counts.items) }
{
    let mut turns = found_turns(alloc, matches)?;
    for word in untold {
        add_turns(alloc, word.as_str(), &mut turns)?;
    }
    Ok(turns)
}

/// Adds so many turns of a thread.
fn add_times(turns: &mut Vec<u16>, count: u32, thread: u16) -> Result<(), AllocError>
    ensures { OnOk result (turns.new.items ≡ turns.old.items ++ replicate count thread) }
{
    for _turn in 0..count {
        turns.push(thread)?;
    }
    Ok(())
}

/// The turns of these threads, of each so many as stand at its place.
#[tactic(auto, using(crate::proofs::Said::turns_next))]
pub fn repeated(alloc: Global, counts: &[u32], threads: &[u16]) -> Result<Vec<u16>, AllocError>
    ensures { IfOk result (λ turns. turns.items ≡ turns_by_counts counts.now threads.now) }
{
    let mut turns = Vec::new(alloc);
    for place in 0..counts.len().min(threads.len()) {
        add_times(&mut turns, counts[place], threads[place])?;
    }
    Ok(turns)
}
