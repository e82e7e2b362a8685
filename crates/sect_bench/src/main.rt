//! `sect_bench [WHAT SIZE..]`: does the work of one measurement, so often or so large as its sizes say, and prints a
//! line of what came of it. Without words it does each in turn, at a small size. `bench/run` times it.
#![tactic(auto)]

mod failure;
mod lines;
mod long_texts;
mod rounds;
mod sets;
mod turns;
mod work;

use crate::failure::Failure;
use crate::lines::line;
use crate::work::{Work, works};
use std::alloc::Global;
use std::io::{Read, Write};
use std::process::ExitCode;
use std::{env, io};

fn main(rt: HostRuntime) -> ExitCode {
    match done(&rt, rt.stdin(), rt.stdout()) {
        Ok(()) => ExitCode::SUCCESS,
        Err(failure) => {
            // Where even this can't be written, the status tells it.
            let _ = writeln!(rt.stderr(), "{failure}");
            ExitCode::from(failure.status())
        }
    }
}

/// Does what the words of the command line ask for.
fn done<I: Read + Drop, O: Write + Drop>(
    rt: &(impl std::rt::Env + AllocGlobal),
    mut input: I,
    mut output: O,
) -> Result<(), Failure> {
    let works = works_wanted(rt)?;
    let source = source_for(rt.alloc(), works.as_slice(), &mut input)?;
    print_each(rt.alloc(), works.as_slice(), source.as_slice(), &mut output)
}

/// The work that the words of the command line ask for.
fn works_wanted(rt: &(impl std::rt::Env + AllocGlobal)) -> Result<Vec<Work>, Failure> {
    let words: Vec<String> = env::args(rt)?.collect(rt.alloc())?;
    works(rt.alloc(), words.as_slice())
}

/// The whole input, if any of the works reads it.
fn source_for(alloc: Global, works: &[Work], input: &mut impl Read) -> io::Result<Vec<u8>> {
    let mut source = Vec::new(alloc);
    if works.iter().any(|work| work.reads()) {
        input.read_to_end(&mut source)?;
    }
    Ok(source)
}

/// Does each work, and prints its line.
fn print_each(
    alloc: Global,
    works: &[Work],
    source: &[u8],
    output: &mut impl Write,
) -> Result<(), Failure> {
    for work in works {
        let line = line(alloc, *work, source)?;
        output.write_all(line.as_bytes())?;
    }
    Ok(output.flush()?)
}
