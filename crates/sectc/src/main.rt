//! `sectc COMMAND [OPTIONS] [FILE ..]`: reads source texts from files or on standard input, and answers on standard
//! output.
#![tactic(auto)]

#[cfg(test)]
mod tests;

use sect_command::{
    Around, FAILED, OUT_OF_MEMORY, Screen, SystemFiles, WRONG_WORDS, Writers, command_on_texts,
    shows_colours, told,
};
use std::env::FillError;
use std::io::IsTerminal;
use std::process::ExitCode;
use std::{env, io, str};

/// The most bytes of a short word, as all numbers of a schedule are.
const SHORT: usize = 64;

fn main(rt: HostRuntime) -> ExitCode {
    let mut writers = Writers {
        output: rt.stdout(),
        errors: rt.stderr(),
    };
    let around = Around {
        texts: &SystemFiles { rt: &rt },
        screen: screen_of(&rt, &writers),
    };
    let status = match arguments(&rt) {
        Ok(words) => command_on_texts(&rt, words.as_slice(), &around, rt.stdin(), &mut writers),
        Err(refused) if refused.kind() == io::ErrorKind::OutOfMemory => {
            told(&mut writers.output, FAILED, OUT_OF_MEMORY)
        }
        Err(_) => WRONG_WORDS,
    };
    ExitCode::from(status)
}

/// What the streams of the program are shown on.
fn screen_of<O: io::Write + IsTerminal, E: io::Write + IsTerminal>(
    rt: &impl std::rt::Env,
    writers: &Writers<O, E>,
) -> Screen {
    let (mut no_color, mut term) = ([0u8; SHORT], [0u8; SHORT]);
    Screen {
        colours: shows_colours(
            writers.output.is_terminal(),
            variable(rt, "NO_COLOR", &mut no_color),
            variable(rt, "TERM", &mut term),
        ),
        hints: writers.errors.is_terminal(),
    }
}

/// The value of an environment variable, which is empty where it isn't set, and of a longer one as many bytes as there
/// is room for.
fn variable<'a>(rt: &impl std::rt::Env, name: &str, room: &'a mut [u8]) -> &'a [u8] {
    match rt.var(name, room) {
        Ok(length) => &room[..length],
        Err(FillError::TooLong) => room,
        Err(FillError::NotPresent) => &room[..0],
    }
}

/// The words of the command line, the program's name first. An argument that is no text fails.
fn arguments(rt: &(impl std::rt::Env + AllocGlobal)) -> io::Result<Vec<String>> {
    match short_arguments(rt)? {
        Some(words) => Ok(words),
        None => {
            let words: Vec<String> = env::args(rt)?.collect(rt.alloc())?;
            Ok(words)
        }
    }
}

/// The words of the command line, if each is a short text. `env::args` keeps 256 bytes for each word, which are 16 MB
/// for a schedule of 60,000 turns.
fn short_arguments(rt: &(impl std::rt::Env + AllocGlobal)) -> io::Result<Option<Vec<String>>> {
    let mut room = [0u8; SHORT];
    let mut words = Vec::new(rt.alloc());
    for place in 0..usize::MAX {
        match rt.arg(place, &mut room) {
            Err(FillError::NotPresent) => return Ok(Some(words)),
            Err(FillError::TooLong) => return Ok(None),
            Ok(length) => match str::from_utf8(&room[..length]) {
                Ok(word) => words.push(String::from_str(rt.alloc(), word)?)?,
                Err(_) => return Ok(None),
            },
        }
    }
    Ok(None)
}
