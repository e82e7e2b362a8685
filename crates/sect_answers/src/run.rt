//! The command `run`.

ghost use Rattle.std.specs.{Prelude.{◌≡◌, IfOk, IfErr, IsOkUnless}, String.{string_bytes}};
ghost use Rattle.sect_names.specs.{Schemes.{SchemeView}, Sources.{IsAccepted}};
ghost use Rattle.sect_emit.specs.Compiled.{program_of};
ghost use Rattle.sect_world.specs.declared.world.Run.{Run};
ghost use Rattle.sect_run.specs.Ends.{IsWholeRun};
ghost use Rattle.sect_answers.specs.{declared.refusal.Refusal.TheVariants.{Memory}, Answers.{IsDue}};
ghost use Rattle.sect_answers.specs.{Formats.{outcome_in}, Running.{IsOutcomeOfRun}};

use crate::format::Format;
use crate::outcome::outcome_printed;
use crate::refusal::Refusal;
use crate::times::{Reading, put_times};
use sect_emit::{Compiled, compile};
use sect_run::{Gate, Meter, RunFault, run_threads};
use sect_world::Run;
use std::alloc::Global;
use std::sync::Wait;
use std::thread::Threads;
use std::time::{Clock, CpuClock};

/// The outcome of a source text's compiled program, run by threads that pass this gate.
pub fn run_outcome<R: Threads + Wait + Sync, G: Gate>(
    rt: &R,
    alloc: Global,
    source: &[u8],
    k: u16,
    fuel: u32,
    gate: &G,
    format: Format,
) -> Result<String, Refusal>
    // The text is accepted, and this is the outcome of a complete run of its compiled program. It comes to the same by
    // whole sections in the order of that run.
    ensures answers { IfOk result (λ text. IsOutcomeOfRun source.now k fuel format (string_bytes text)) }
    // A text that is accepted is run to its end, unless memory runs out.
    ensures only { (s : SchemeView) → IsAccepted source.now k s → IsOkUnless result Memory }
    // A refusal is due, and it is the first that is.
    ensures refuses { IfErr result (IsDue source.now k) }
{
    let compiled = compile(alloc, source, k)?;
    Ok(outcome_of(rt, alloc, &compiled, fuel, gate, format)?)
}

/// The outcome of a compiled program, run by threads that pass this gate.
fn outcome_of<R: Threads + Wait + Sync, G: Gate>(
    rt: &R,
    alloc: Global,
    compiled: &Compiled,
    fuel: u32,
    gate: &G,
    format: Format,
) -> Result<String, RunFault>
    ensures { IfOk result (λ text. (run : Run) × IsWholeRun compiled.now fuel run
        × (string_bytes text ≡ outcome_in format (program_of compiled.now) run.outcome)) }
{
    let run = run_threads(rt, alloc, compiled, fuel, gate)?;
    let program = compiled.scheme().program();
    Ok(outcome_printed(alloc, program, &run.outcome, format)?)
}

/// The outcome of a run as it is printed, and lines that tell what the run took and what its threads waited for.
#[derive(Drop)]
pub struct Timed {
    pub outcome: String,
    pub times: String,
}

/// The outcome of a source text's compiled program, run by threads, and what the run took.
pub fn timed_outcome<R: Threads + Wait + Sync + Clock + CpuClock>(
    rt: &R,
    alloc: Global,
    source: &[u8],
    k: u16,
    fuel: u32,
    format: Format,
) -> Result<Timed, Refusal>
    // The outcome is what `run_outcome` answers.
    ensures answers { IfOk result (λ timed. IsOutcomeOfRun source.now k fuel format (string_bytes timed.outcome)) }
    // A text that is accepted is run to its end, unless memory runs out.
    ensures only { (s : SchemeView) → IsAccepted source.now k s → IsOkUnless result Memory }
    // A refusal is due, and it is the first that is.
    ensures refuses { IfErr result (IsDue source.now k) }
{
    let compiled = compile(alloc, source, k)?;
    Ok(timed_of(rt, alloc, &compiled, fuel, format)?)
}

/// A run that has been measured, and lines that tell what it took and what its threads waited for.
#[derive(Drop)]
pub struct MeasuredRun {
    pub run: Run,
    pub times: String,
}

/// A run of a compiled program by threads, and what it took.
pub fn measured_run<R: Threads + Wait + Sync + Clock + CpuClock>(
    rt: &R,
    alloc: Global,
    compiled: &Compiled,
    fuel: u32,
) -> Result<MeasuredRun, RunFault>
    ensures { IfOk result (λ measured. IsWholeRun compiled.now fuel measured.run) }
{
    let program = compiled.scheme().program();
    let meter = Meter::new(rt, alloc, program.thread_count())?;
    let began = Reading::of(rt);
    let run = run_threads(rt, alloc, compiled, fuel, &meter)?;
    let took = Reading::of(rt).since(began);
    let measured = meter.measured()?;
    let mut times = String::new(alloc);
    put_times(&mut times, program, took, &run.events, &measured)?;
    Ok(MeasuredRun { run, times })
}

/// The outcome of a compiled program, run by threads, and what the run took.
fn timed_of<R: Threads + Wait + Sync + Clock + CpuClock>(
    rt: &R,
    alloc: Global,
    compiled: &Compiled,
    fuel: u32,
    format: Format,
) -> Result<Timed, RunFault>
    ensures { IfOk result (λ timed. (run : Run) × IsWholeRun compiled.now fuel run
        × (string_bytes timed.outcome ≡ outcome_in format (program_of compiled.now) run.outcome)) }
{
    let program = compiled.scheme().program();
    let meter = Meter::new(rt, alloc, program.thread_count())?;
    let began = Reading::of(rt);
    let run = run_threads(rt, alloc, compiled, fuel, &meter)?;
    let took = Reading::of(rt).since(began);
    let measured = meter.measured()?;
    let mut times = String::new(alloc);
    put_times(&mut times, program, took, &run.events, &measured)?;
    let outcome = outcome_printed(alloc, program, &run.outcome, format)?;
    Ok(Timed { outcome, times })
}
