//! The command `outcomes`.

ghost use Rattle.std.specs.{Prelude.{◌≡◌, ◌≤◌, ◌++◌, ℕ, IfOk, IfErr, IsOkUnless, OnOk}, String.{string_bytes}};
ghost use Rattle.sect_types.specs.Programs.{ProgramView};
ghost use Rattle.sect_names.specs.Sources.{IsTypedText};
ghost use Rattle.sect_serial.specs.Exploring.{HasStates};
ghost use Rattle.sect_answers.specs.declared.refusal.Refusal.TheVariants.{Memory};
ghost use Rattle.sect_answers.specs.Outcomes.{AreAllOutcomes, IsOutcomesDue, outcomes_text, outcomes_in, count_text};
ghost use Rattle.sect_answers.specs.Outcomes.{counts_line};

use crate::format::Format;
use crate::refusal::Refusal;
use sect_json::outcomes_document;
use sect_names::program_of;
use sect_serial::{Outcomes, outcomes};
use sect_store::Printer;
use sect_types::Program;
use sect_world::{every_order_is_run, every_run_is_serial};
use std::alloc::{AllocError, Global};
use std::fmt::Write;

/// Adds a number of things of this name, which has an `s` behind it unless it is one thing.
fn put_count(text: &mut String, number: usize, name: &str) -> Result<(), AllocError>
    ensures { OnOk result (string_bytes text.new ≡ string_bytes text.old ++ count_text number name.now) }
{
    write!(text, "{number} {name}")?;
    if number != 1 {
        text.push_str("s")?;
    }
    Ok(())
}

/// Adds a line with how many outcomes there are, and how many states lead to them.
pub fn put_counts(text: &mut String, outcomes: &Outcomes) -> Result<(), AllocError>
    ensures { OnOk result (string_bytes text.new ≡ string_bytes text.old ++ counts_line outcomes.now) }
{
    put_count(text, outcomes.len(), "outcome")?;
    text.push_str(" of ")?;
    put_count(text, outcomes.states(), "state")?;
    text.push_str("\n")
}

/// Adds how many outcomes there are, and each with its order.
fn put_outcomes(
    alloc: Global,
    text: &mut String,
    program: &Program,
    outcomes: &Outcomes,
) -> Result<(), AllocError>
    ensures { OnOk result (string_bytes text.new ≡ string_bytes text.old ++ outcomes_text program.now outcomes.now) }
{
    put_counts(text, outcomes)?;
    let printer = Printer::new(alloc, program)?;
    for number in 0..outcomes.len() {
        let (end, order) = outcomes.at(number);
        let outcome = end.try_clone()?.into_outcome(alloc, order.to_threads()?)?;
        printer.put_numbered(text, number, &outcome)?;
    }
    Ok(())
}

/// All outcomes of a program, as they are printed.
fn outcomes_printed(
    alloc: Global,
    program: &Program,
    outcomes: &Outcomes,
    format: Format,
) -> Result<String, AllocError>
    ensures { IfOk result (λ text. string_bytes text ≡ outcomes_in format program.now outcomes.now) }
{
    match format {
        Format::Text => {
            let mut text = String::new(alloc);
            put_outcomes(alloc, &mut text, program, outcomes)?;
            Ok(text)
        }
        Format::Json => outcomes_document(alloc, program, outcomes),
    }
}

/// All outcomes that complete runs of the compiled program of a source text can have, where each thread has this much
/// fuel: each once, with an order of whole sections that gives it. Where there are more than `most` states between
/// sections, it is refused. The program's hints aren't looked at.
pub fn all_outcomes(
    alloc: Global,
    source: &[u8],
    fuel: u32,
    most: u32,
    format: Format,
) -> Result<String, Refusal>
    // These are all outcomes of the program.
    ensures answers { IfOk result (λ text. AreAllOutcomes source.now fuel most format (string_bytes text)) }
    // A program with no more states than that is answered, unless memory runs out.
    ensures only { (p : ProgramView) (states : ℕ) → IsTypedText source.now p → HasStates p fuel states
        → states ≤ most → IsOkUnless result Memory }
    // A refusal is due, and it is the first that is.
    ensures refuses { IfErr result (IsOutcomesDue source.now fuel most) }
{
    every_run_is_serial();
    every_order_is_run();
    let program = program_of(alloc, source)?;
    let all = outcomes(alloc, &program, fuel, most)?;
    Ok(outcomes_printed(alloc, &program, &all, format)?)
}
