//! Outcomes as they are printed, with the places of their faults.

ghost use Rattle.std.specs.{Prelude.{◌≡◌, ◌++◌, [], Some, OnOk}, String.{string_bytes}, List.{flat_map}};
ghost use Rattle.sect_store.specs.Printing.{by_place, order_line, out_line, store_lines};
ghost use Rattle.sect_emit.specs.Compiled.{program_of};
ghost use Rattle.sect_draw.specs.Places.{thread_line, ran_outcome, ran_numbered};
ghost use Rattle.sect_draw.specs.Placing.{AreFound, places_shown};

use crate::faults::{fault_of, put_fault};
use crate::places::Places;
use sect_emit::Compiled;
use sect_store::{Outcome, put_outcome};
use sect_types::{End, Program};
use sect_world::Standing;
use std::alloc::{AllocError, Global};
use std::fmt::Write;

/// By what the faults of a run are found: its compiled program, the places of that, and where each thread stood that
/// has run something before it ran the last.
#[derive(Clone, Copy)]
pub struct Faults<'a> {
    pub compiled: &'a Compiled,
    pub places: Places<'a>,
    pub ran: &'a [Option<Standing>],
}

/// Adds how a thread has ended, and where its fault stands, if one has ended it.
fn put_thread(
    text: &mut String,
    faults: &Faults<'_>,
    thread: usize,
    end: Option<End>,
) -> Result<(), AllocError>
    requires { AreFound faults.now }
    ensures { OnOk result (string_bytes text.new ≡ string_bytes text.old
        ++ thread_line (places_shown faults.now.places) faults.now.ran.now thread end) }
{
    match end {
        None => write!(text, "thread {thread} running")?,
        Some(how) => write!(text, "thread {thread} {how}")?,
    }
    let fault = fault_of(end, faults.ran, thread);
    put_fault(
        text,
        faults.places.file,
        faults.compiled,
        &faults.places,
        fault,
    )?;
    text.push_str("\n")
}

/// Adds how each thread of a run has ended, and where its fault stands.
fn put_threads(
    text: &mut String,
    faults: &Faults<'_>,
    ends: &[Option<End>],
) -> Result<(), AllocError>
    requires { AreFound faults.now }
    ensures { OnOk result (string_bytes text.new ≡ string_bytes text.old
        ++ by_place (thread_line (places_shown faults.now.places) faults.now.ran.now) 0 ends.now) }
{
    for (thread, end) in ends.iter().enumerate() {
        put_thread(text, faults, thread, *end)?;
    }
    Ok(())
}

/// Adds the outcome of a run of a compiled program, and where its faults stand.
pub fn put_ran_outcome(
    alloc: Global,
    text: &mut String,
    faults: &Faults<'_>,
    outcome: &Outcome,
) -> Result<(), AllocError>
    requires { AreFound faults.now }
    ensures { OnOk result (string_bytes text.new ≡ string_bytes text.old
        ++ ran_outcome (program_of faults.now.compiled.now) (Some (places_shown faults.now.places)) faults.now.ran.now
        outcome.now) }
{
    put_threads(text, faults, outcome.ends())?;
    let order = Vec::from_slice(alloc, outcome.order())?;
    let output = Vec::from_slice(alloc, outcome.output())?;
    let store = outcome.store().try_clone()?;
    let rest = Outcome::new(Vec::new(alloc), order, output, store);
    put_outcome(alloc, text, faults.compiled.scheme().program(), &rest)
}

/// Adds the output and the objects of an outcome.
fn put_rest(
    alloc: Global,
    text: &mut String,
    program: &Program,
    outcome: &Outcome,
) -> Result<(), AllocError>
    ensures { OnOk result (string_bytes text.new ≡ string_bytes text.old
        ++ (flat_map out_line outcome.now.output ++ store_lines program.now outcome.now.store)) }
{
    let output = Vec::from_slice(alloc, outcome.output())?;
    let store = outcome.store().try_clone()?;
    let rest = Outcome::new(Vec::new(alloc), Vec::new(alloc), output, store);
    let mut lines = String::new(alloc);
    put_outcome(alloc, &mut lines, program, &rest)?;
    match lines.as_str().strip_prefix("order none\n") {
        None => unreachable!(),
        Some(behind) => text.push_str(behind),
    }
}

/// Adds the threads of an order, in a line.
fn put_order(text: &mut String, order: &[u16]) -> Result<(), AllocError>
    ensures { OnOk result (string_bytes text.new ≡ string_bytes text.old ++ order_line order.now) }
{
    if order.is_empty() {
        return text.push_str("order none\n");
    }
    text.push_str("order")?;
    for thread in order {
        write!(text, " {thread}")?;
    }
    text.push_str("\n")
}

/// Adds the outcome of this number, as one of several, and where its faults stand.
pub fn put_ran_numbered(
    alloc: Global,
    text: &mut String,
    faults: &Faults<'_>,
    number: usize,
    outcome: &Outcome,
) -> Result<(), AllocError>
    requires { AreFound faults.now }
    ensures { OnOk result (string_bytes text.new ≡ string_bytes text.old
        ++ ran_numbered (program_of faults.now.compiled.now) (places_shown faults.now.places) faults.now.ran.now number
        outcome.now) }
{
    write!(text, "outcome {number}: ")?;
    put_order(text, outcome.order())?;
    put_threads(text, faults, outcome.ends())?;
    put_rest(alloc, text, faults.compiled.scheme().program(), outcome)
}
