//! The command `serial`.

ghost use Rattle.std.specs.{Prelude.{IfOk, IfErr, IsOkUnless}, String.{string_bytes}};
ghost use Rattle.sect_types.specs.{Programs.{ProgramView}, Whole.{SerialEndView, RunsWhole}};
ghost use Rattle.sect_answers.specs.{declared.refusal.Refusal.TheVariants.{Memory}, Serial.{IsOutcome, IsSerialDue}};
ghost use Rattle.sect_names.specs.Sources.{IsTypedText};

use crate::format::Format;
use crate::outcome::outcome_printed;
use crate::refusal::Refusal;
use sect_names::program_of;
use sect_serial::serial;
use std::alloc::Global;

/// The outcome of the program of a source text, run by whole sections of these threads in their order. Its hints aren't
/// looked at.
pub fn serial_outcome(
    alloc: Global,
    source: &[u8],
    fuel: u32,
    order: Vec<u16>,
    format: Format,
) -> Result<String, Refusal>
    // The program runs by whole sections in that order to an end, and this is the outcome.
    ensures answers { IfOk result (λ text. IsOutcome source.now fuel order.items format (string_bytes text)) }
    // A program that runs so is answered, unless memory runs out.
    ensures only { (p : ProgramView) (e : SerialEndView) → IsTypedText source.now p
        → RunsWhole p fuel order.items e → IsOkUnless result Memory }
    // A refusal is due, and it is the first that is.
    ensures refuses { IfErr result (IsSerialDue source.now fuel order.items) }
{
    let program = program_of(alloc, source)?;
    let end = serial(alloc, &program, fuel, order.as_slice())?;
    let outcome = end.into_outcome(alloc, order)?;
    Ok(outcome_printed(alloc, &program, &outcome, format)?)
}
