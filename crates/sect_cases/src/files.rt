//! Runs files of cases.

use crate::answer::answer_of;
use crate::case::{Case, cases_of};
use crate::failure::Failure;
use crate::wanted::{is_expected, put_difference};
use std::fs;
use std::io::Write;
use std::rt::Files;
use std::sync::Wait;
use std::thread::Threads;
use std::time::{Clock, CpuClock};

/// How many cases were run, and how many of them differ from what they say.
#[derive(Clone, Copy)]
struct Tally {
    run: usize,
    differing: usize,
}

/// Runs a case, prints how its answer differs if it does, and says whether it is as expected.
fn run_case(
    rt: &(impl Files + Threads + Wait + Sync + Clock + CpuClock + AllocGlobal),
    name: &str,
    case: &Case<'_>,
    output: &mut impl Write,
) -> Result<bool, Failure> {
    let answer = answer_of(rt, case)?;
    let expected = is_expected(rt.alloc(), case, &answer)?;
    if !expected {
        put_difference(output, name, case, &answer)?;
    }
    Ok(expected)
}

/// Runs the cases of a file.
fn run_file(
    rt: &(impl Files + Threads + Wait + Sync + Clock + CpuClock + AllocGlobal),
    name: &str,
    output: &mut impl Write,
) -> Result<Tally, Failure> {
    let bytes = fs::read(rt, name).map_err(|_| Failure::Unread)?;
    let text = std::str::from_utf8(bytes.as_slice()).map_err(|_| Failure::Unread)?;
    let cases = cases_of(rt.alloc(), text)?;
    let mut differing = 0usize;
    for case in cases.iter() {
        if !run_case(rt, name, case, output)? {
            differing = differing.saturating_add(1);
        }
    }
    Ok(Tally {
        run: cases.len(),
        differing,
    })
}

/// Prints how a file's cases came out, and says whether all are as expected.
fn put_file(output: &mut impl Write, name: &str, tally: Tally) -> Result<bool, Failure> {
    let Tally { run, differing } = tally;
    if differing == 0 {
        writeln!(output, "{name}: {run}")?;
    } else {
        writeln!(output, "{name}: {run}, of which {differing} differ")?;
    }
    Ok(differing == 0)
}

/// Runs the files of these names but the first, which is the program's. It says whether all cases are as expected.
pub fn run_files(
    rt: &(impl Files + Threads + Wait + Sync + Clock + CpuClock + AllocGlobal),
    names: &[String],
    output: &mut impl Write,
) -> Result<bool, Failure> {
    let mut all = true;
    let mut count = 0usize;
    for name in names.iter().skip(1) {
        match run_file(rt, name.as_str(), output) {
            Ok(tally) => {
                count = count.saturating_add(tally.run);
                all = put_file(output, name.as_str(), tally)? && all;
            }
            Err(failure) => {
                writeln!(output, "{name}: {failure}")?;
                all = false;
            }
        }
    }
    writeln!(output, "{count} cases")?;
    output.flush()?;
    Ok(all)
}
