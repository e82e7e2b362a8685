//! `sect_cases FILE..`: runs the command of each case in these files over memory, and compares its status and what it
//! prints with what the case says. It prints what differs, a line a file, and how many cases there were.
#![tactic(auto)]

mod answer;
mod bytes;
mod case;
mod failure;
mod files;
mod form;
mod wanted;

use crate::files::run_files;
use std::env;
use std::io::Write;
use std::process::ExitCode;

fn main(rt: HostRuntime) -> ExitCode {
    let mut output = rt.stdout();
    let Ok(names) = names_of(&rt) else {
        return ExitCode::FAILURE;
    };
    match run_files(&rt, names.as_slice(), &mut output) {
        Ok(true) => ExitCode::SUCCESS,
        Ok(false) => ExitCode::FAILURE,
        Err(failure) => {
            // Where even this can't be written, the status tells it.
            let _ = writeln!(rt.stderr(), "{failure}");
            ExitCode::FAILURE
        }
    }
}

/// The words of the command line, the program's name first.
fn names_of(rt: &(impl std::rt::Env + AllocGlobal)) -> std::io::Result<Vec<String>> {
    let names: Vec<String> = env::args(rt)?.collect(rt.alloc())?;
    Ok(names)
}
