//! The commands `run` and `serial` with where faults stand.

ghost use Rattle.std.specs.Prelude.{◌≡◌, IfOk, IfErr, IsOkUnless, option_map};
ghost use Rattle.std.specs.String.{string_bytes};
ghost use Rattle.sect_front.specs.Front.{IsSpelled};
ghost use Rattle.sect_types.specs.Whole.{SerialEndView, RunsWhole};
ghost use Rattle.sect_names.specs.{Schemes.{SchemeView}, Sources.{IsAccepted}};
ghost use Rattle.sect_emit.specs.Compiled.{program_of};
ghost use Rattle.sect_world.specs.declared.world.Run.{Run};
ghost use Rattle.sect_run.specs.Ends.{IsWholeRun};
ghost use Rattle.sect_answers.specs.{declared.refusal.Refusal.TheVariants.{Memory}, Answers.{IsDue}};
ghost use Rattle.sect_answers.specs.Placed.{IsOutcomePlaced, IsPlacedRun, IsPlacedSerial, IsPlacedSerialDue};

use crate::placed::{PlacedText, outcome_placed};
use crate::refusal::Refusal;
use crate::run::{MeasuredRun, Timed, measured_run};
use sect_emit::{Compiled, compile};
use sect_names::texts_have_one_program;
use sect_run::{OpenGate, RunFault, run_threads};
use sect_serial::serial;
use std::alloc::Global;
use std::sync::Wait;
use std::thread::Threads;
use std::time::{Clock, CpuClock};

/// The outcome of a source text's compiled program, run by threads, with where its faults stand.
pub fn placed_run<R: Threads + Wait + Sync>(
    rt: &R,
    alloc: Global,
    text: PlacedText<'_>,
    k: u16,
    fuel: u32,
) -> Result<String, Refusal>
    // The text is accepted, and this is the outcome of a complete run of its compiled program.
    ensures answers { IfOk result (λ printed. IsPlacedRun (option_map (λ name. name.now) text.entry.file)
        text.entry.source.now k fuel (string_bytes printed)) }
    // A text that is accepted is run to its end, unless memory runs out.
    ensures only { (s : SchemeView) → IsAccepted text.entry.source.now k s → IsOkUnless result Memory }
    // A refusal is due, and it is the first that is.
    ensures refuses { IfErr result (IsDue text.entry.source.now k) }
{
    let compiled = compile(alloc, text.source, k)?;
    Ok(ran_printed(rt, alloc, text, &compiled, fuel)?)
}

/// The outcome of a compiled program, whose text this is, run by threads.
fn ran_printed<R: Threads + Wait + Sync>(
    rt: &R,
    alloc: Global,
    text: PlacedText<'_>,
    compiled: &Compiled,
    fuel: u32,
) -> Result<String, RunFault>
    requires { IsSpelled text.source.now (program_of compiled.now).source }
    ensures { IfOk result (λ printed. (run : Run) × IsWholeRun compiled.now fuel run
        × IsOutcomePlaced (option_map (λ name. name.now) text.entry.file) text.entry.source.now compiled.now fuel
        run.outcome (string_bytes printed)) }
{
    let run = run_threads(rt, alloc, compiled, fuel, &OpenGate)?;
    Ok(outcome_placed(alloc, text, compiled, fuel, &run.outcome)?)
}

/// The outcome of a source text's compiled program, run by threads, with where its faults stand, and what the run took.
pub fn placed_timed_run<R: Threads + Wait + Sync + Clock + CpuClock>(
    rt: &R,
    alloc: Global,
    text: PlacedText<'_>,
    k: u16,
    fuel: u32,
) -> Result<Timed, Refusal>
    // The outcome is what `placed_run` answers.
    ensures answers { IfOk result (λ timed. IsPlacedRun (option_map (λ name. name.now) text.entry.file)
        text.entry.source.now k fuel (string_bytes timed.outcome)) }
    // A text that is accepted is run to its end, unless memory runs out.
    ensures only { (s : SchemeView) → IsAccepted text.entry.source.now k s → IsOkUnless result Memory }
    // A refusal is due, and it is the first that is.
    ensures refuses { IfErr result (IsDue text.entry.source.now k) }
{
    let compiled = compile(alloc, text.source, k)?;
    Ok(timed_printed(rt, alloc, text, &compiled, fuel)?)
}

/// The outcome of a compiled program, whose text this is, run by threads, and what the run took.
fn timed_printed<R: Threads + Wait + Sync + Clock + CpuClock>(
    rt: &R,
    alloc: Global,
    text: PlacedText<'_>,
    compiled: &Compiled,
    fuel: u32,
) -> Result<Timed, RunFault>
    requires { IsSpelled text.source.now (program_of compiled.now).source }
    ensures { IfOk result (λ timed. (run : Run) × IsWholeRun compiled.now fuel run
        × IsOutcomePlaced (option_map (λ name. name.now) text.entry.file) text.entry.source.now compiled.now fuel
        run.outcome (string_bytes timed.outcome)) }
{
    let MeasuredRun { run, times } = measured_run(rt, alloc, compiled, fuel)?;
    let outcome = outcome_placed(alloc, text, compiled, fuel, &run.outcome)?;
    Ok(Timed { outcome, times })
}

/// The outcome of the program of a source text, run by whole sections of these threads in their order, with where its
/// faults stand. These are found by its compiled program, so its hints are looked at.
pub fn placed_serial(
    alloc: Global,
    text: PlacedText<'_>,
    k: u16,
    fuel: u32,
    order: Vec<u16>,
) -> Result<String, Refusal>
    // The text is accepted, its program runs by whole sections in that order to an end, and this is the outcome.
    ensures answers { IfOk result (λ printed. IsPlacedSerial (option_map (λ name. name.now) text.entry.file)
        text.entry.source.now k fuel order.items (string_bytes printed)) }
    // A text that is accepted, and whose program runs so, is answered, unless memory runs out.
    ensures only { (s : SchemeView) (e : SerialEndView) → IsAccepted text.entry.source.now k s
        → RunsWhole s.program fuel order.items e → IsOkUnless result Memory }
    // A refusal is due, and it is the first that is.
    ensures refuses { IfErr result (IsPlacedSerialDue text.entry.source.now k fuel order.items) }
{
    texts_have_one_program();
    let compiled = compile(alloc, text.source, k)?;
    let end = serial(alloc, compiled.scheme().program(), fuel, order.as_slice())?;
    let outcome = end.into_outcome(alloc, order)?;
    Ok(outcome_placed(alloc, text, &compiled, fuel, &outcome)?)
}
