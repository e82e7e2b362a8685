//! The command `schedule`.

ghost use Rattle.std.specs.{Prelude.{◌≡◌, ◌++◌, IfOk, IfErr, OnOk, IsOkUnless, length}, String.{string_bytes}};
ghost use Rattle.sect_front.specs.Front.{IsSpelled};
ghost use Rattle.sect_names.specs.{Schemes.{SchemeView}, Sources.{IsAccepted}};
ghost use Rattle.sect_store.specs.Printing.{outcome_text as printed};
ghost use Rattle.sect_emit.specs.Compiled.{program_of};
ghost use Rattle.sect_world.specs.Schedules.{IsUnrun};
ghost use Rattle.sect_answers.specs.declared.refusal.Refusal.TheVariants.{Memory};
ghost use Rattle.sect_answers.specs.Scheduling.{AreTurnLines, AreTurnsOf, AreThreads, IsScheduled, IsScheduleDue};
ghost use Rattle.sect_answers.specs.Turns.{turn_lines as lines_by};
ghost use Rattle.sect_lemmas.specs.Blocks.{AreEnough, blocks_of};

use crate::format::Format;
use crate::refusal::Refusal;
use crate::turns::put_turns;
use sect_emit::{Compiled, compile};
use sect_json::turns_document;
use sect_names::texts_have_one_program;
use sect_store::put_outcome;
use sect_types::Program;
use sect_world::{Progress, WorldFault, run_schedule};
use std::alloc::{AllocError, Global};

/// The turns of these threads from the start of a source text's compiled program, a line each with the events that it
/// made, and what the run has come to.
pub fn schedule_outcome(
    alloc: Global,
    source: &[u8],
    k: u16,
    fuel: u32,
    schedule: Vec<u16>,
    format: Format,
) -> Result<String, Refusal>
    // The source is accepted, and these are the turns of its compiled program.
    ensures answers { IfOk result (λ text. IsScheduled source.now k fuel schedule.items format (string_bytes text)) }
    // Where a text is accepted and the schedule has numbers of its threads alone, the turns are made, unless memory
    // runs out.
    ensures only { (s : SchemeView) → IsAccepted source.now k s → AreThreads s schedule.items
        → IsOkUnless result Memory }
    // A refusal is due: the text is judged first, and then the schedule.
    ensures refuses { IfErr result (IsScheduleDue source.now k schedule.items) }
{
    texts_have_one_program();
    let compiled = compile(alloc, source, k)?;
    let wanted = Wanted {
        fuel,
        threads: schedule.as_slice(),
        format,
    };
    Ok(turns_printed(alloc, source, &compiled, wanted)?)
}

/// The threads that have a turn each, with how much fuel for each thread, and how the turns are printed.
#[derive(Clone, Copy)]
struct Wanted<'a> {
    fuel: u32,
    threads: &'a [u16],
    format: Format,
}

/// The turns of these threads from the start of a compiled program, whose text this is, as they are printed.
fn turns_printed(
    alloc: Global,
    source: &[u8],
    compiled: &Compiled,
    wanted: Wanted<'_>,
) -> Result<String, WorldFault>
    requires { IsSpelled source.now (program_of compiled.now).source }
    ensures answers { IfOk result (λ text. AreTurnsOf wanted.entry.format source.now compiled.now
        wanted.entry.fuel wanted.entry.threads.now (string_bytes text)) }
    ensures refuses { IfErr result (λ why.
        IsUnrun why wanted.entry.threads.now (length compiled.now.scheme.program.texts)) }
{
    match wanted.format {
        Format::Text => turn_lines(alloc, compiled, wanted.fuel, wanted.threads),
        Format::Json => turns_document(alloc, source, compiled, wanted.fuel, wanted.threads),
    }
}

/// A line for each turn of these threads from the start of a compiled program, and what they have come to.
fn turn_lines(
    alloc: Global,
    compiled: &Compiled,
    fuel: u32,
    schedule: &[u16],
) -> Result<String, WorldFault>
    ensures answers { IfOk result (λ text. AreTurnLines compiled.now fuel schedule.now (string_bytes text)) }
    ensures refuses { IfErr result (λ why. IsUnrun why schedule.now (length compiled.now.scheme.program.texts)) }
{
    let progress = run_schedule(alloc, compiled, fuel, schedule)?;
    Ok(progress_text(alloc, compiled.scheme().program(), &progress)?)
}

/// Adds a line for each turn of a run.
pub fn put_progress(
    alloc: Global,
    text: &mut String,
    program: &Program,
    progress: &Progress,
) -> Result<(), AllocError>
    requires { AreEnough progress.now.made.items progress.now.run.events.items }
    ensures { OnOk result (string_bytes text.new ≡ string_bytes text.old
        ++ lines_by program.now (blocks_of progress.now.made.items progress.now.run.events.items)) }
{
    let events = progress.run.events.since(alloc, 0)?;
    put_turns(text, program, progress.made.as_slice(), events.as_slice())
}

/// A line for each turn of a run, and what it has come to.
fn progress_text(
    alloc: Global,
    program: &Program,
    progress: &Progress,
) -> Result<String, AllocError>
    requires { AreEnough progress.now.made.items progress.now.run.events.items }
    ensures { IfOk result (λ text. string_bytes text
        ≡ lines_by program.now (blocks_of progress.now.made.items progress.now.run.events.items)
        ++ printed program.now progress.now.run.outcome) }
{
    let mut text = String::new(alloc);
    put_progress(alloc, &mut text, program, progress)?;
    put_outcome(alloc, &mut text, program, &progress.run.outcome)?;
    Ok(text)
}
