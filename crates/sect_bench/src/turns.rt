//! Runs of programs, turn by turn.

use crate::failure::Failure;
use sect_emit::{Compiled, compile};
use sect_store::{Outcome, put_outcome};
use sect_types::Program;
use sect_world::{Turned, World};
use std::alloc::Global;
use std::str;

/// How many statements and tests each thread may do.
const FUEL: u32 = 1_000_000;

/// A turn of a thread. One that is refused for memory is made again: it has changed nothing. `Work` is answered where
/// there is no such thread, and where it is refused again.
fn turn(world: &mut World<'_>, thread: u16) -> Result<Turned, Failure> {
    if let Ok(turned) = world.turn(thread) {
        return Ok(turned);
    }
    match world.turn(thread) {
        Ok(turned) => Ok(turned),
        Err(_) => Err(Failure::Work),
    }
}

/// The thread that a word names.
fn thread_of(word: &str) -> Result<u16, Failure> {
    match word.parse::<u16>() {
        Ok(thread) => Ok(thread),
        Err(_) => Err(Failure::Usage),
    }
}

/// Makes the turns of the threads that the words name.
fn make_turns(world: &mut World<'_>, threads: &str) -> Result<(), Failure> {
    for word in threads.split_whitespace() {
        turn(world, thread_of(word)?)?;
    }
    Ok(())
}

/// What is shown of an outcome.
fn shown(alloc: Global, program: &Program, outcome: &Outcome) -> Result<String, Failure> {
    let mut text = String::new(alloc);
    put_outcome(alloc, &mut text, program, outcome)?;
    Ok(text)
}

/// Makes the turns of the threads that the words name in a compiled program. It gives the outcome.
fn outcome_of(alloc: Global, compiled: &Compiled, threads: &str) -> Result<String, Failure> {
    let mut world = World::start(alloc, compiled, FUEL)?;
    make_turns(&mut world, threads)?;
    shown(alloc, compiled.scheme().program(), &world.finish().outcome)
}

/// Makes the turns of the threads that the first line of the input names, in the program of the text behind it, and
/// gives the outcome. A turn that is refused for memory is made again, once.
pub fn run_turns(alloc: Global, input: &[u8], k: u16) -> Result<String, Failure> {
    let Some((threads, source)) = str::from_utf8(input)?.split_once('\n') else {
        return Err(Failure::Usage);
    };
    let compiled = compile(alloc, source.as_bytes(), k)?;
    outcome_of(alloc, &compiled, threads)
}
