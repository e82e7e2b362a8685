//! The command `schedule` with where faults stand, and what each turn has run.

ghost use Rattle.std.specs.Prelude.{IfOk, IfErr, IsOkUnless, length, option_map};
ghost use Rattle.std.specs.String.{string_bytes};
ghost use Rattle.sect_front.specs.Front.{IsSpelled};
ghost use Rattle.sect_names.specs.{Schemes.{SchemeView}, Sources.{IsAccepted}};
ghost use Rattle.sect_emit.specs.Compiled.{program_of};
ghost use Rattle.sect_world.specs.Schedules.{IsUnrun};
ghost use Rattle.sect_answers.specs.declared.refusal.Refusal.TheVariants.{Memory};
ghost use Rattle.sect_answers.specs.Placed.{AreLinesPlaced, ArePlacedTurns, IsChartPlaced, IsPlacedChart};
ghost use Rattle.sect_answers.specs.Scheduling.{AreThreads, IsScheduleDue};

use crate::placed::{PlacedText, Ran, put_placed};
use crate::refusal::Refusal;
use crate::schedule::put_progress;
use sect_draw::{Places, chart, ran_in_turns};
use sect_emit::{Compiled, compile};
use sect_names::texts_have_one_program;
use sect_places::{LineIndex, node_spans};
use sect_world::{WorldFault, run_schedule};
use std::alloc::Global;

/// The turns of these threads from the start of a source text's compiled program, a line each with the events that it
/// made, and what the run has come to, with where its faults stand.
pub fn placed_turns(
    alloc: Global,
    text: PlacedText<'_>,
    k: u16,
    fuel: u32,
    schedule: Vec<u16>,
) -> Result<String, Refusal>
    // The text is accepted, and these are the turns of its compiled program.
    ensures answers { IfOk result (λ printed. ArePlacedTurns (option_map (λ name. name.now) text.entry.file)
        text.entry.source.now k fuel schedule.items (string_bytes printed)) }
    // Where a text is accepted and the schedule has numbers of its threads alone, the turns are made, unless memory
    // runs out.
    ensures only { (s : SchemeView) → IsAccepted text.entry.source.now k s → AreThreads s schedule.items
        → IsOkUnless result Memory }
    // A refusal is due: the text is judged first, and then the schedule.
    ensures refuses { IfErr result (IsScheduleDue text.entry.source.now k schedule.items) }
{
    texts_have_one_program();
    let compiled = compile(alloc, text.source, k)?;
    Ok(lines_printed(alloc, text, &compiled, fuel, schedule.as_slice())?)
}

/// A line for each turn of these threads from the start of a compiled program, whose text this is, and what they have
/// come to.
fn lines_printed(
    alloc: Global,
    text: PlacedText<'_>,
    compiled: &Compiled,
    fuel: u32,
    schedule: &[u16],
) -> Result<String, WorldFault>
    requires { IsSpelled text.source.now (program_of compiled.now).source }
    ensures answers { IfOk result (λ printed. AreLinesPlaced (option_map (λ name. name.now) text.entry.file)
        text.entry.source.now compiled.now fuel schedule.now (string_bytes printed)) }
    ensures refuses { IfErr result (λ why. IsUnrun why schedule.now (length compiled.now.scheme.program.texts)) }
{
    let progress = run_schedule(alloc, compiled, fuel, schedule)?;
    let ran = ran_in_turns(alloc, compiled, fuel, schedule)?;
    let run = Ran {
        text,
        compiled,
        ran: ran.as_slice(),
    };
    let mut printed = String::new(alloc);
    put_progress(alloc, &mut printed, compiled.scheme().program(), &progress)?;
    put_placed(alloc, &mut printed, run, &progress.run.outcome)?;
    Ok(printed)
}

/// The turns of these threads from the start of a source text's compiled program, as a chart that says what each of
/// them has run, and where that stands, and what the run has come to, with where its faults stand.
pub fn placed_chart(
    alloc: Global,
    text: PlacedText<'_>,
    k: u16,
    fuel: u32,
    schedule: Vec<u16>,
) -> Result<String, Refusal>
    // The text is accepted, and this is the chart of these turns of its compiled program.
    ensures answers { IfOk result (λ printed. IsPlacedChart (option_map (λ name. name.now) text.entry.file)
        text.entry.source.now k fuel schedule.items (string_bytes printed)) }
    // Where a text is accepted and the schedule has numbers of its threads alone, the turns are made, unless memory
    // runs out.
    ensures only { (s : SchemeView) → IsAccepted text.entry.source.now k s → AreThreads s schedule.items
        → IsOkUnless result Memory }
    // A refusal is due: the text is judged first, and then the schedule.
    ensures refuses { IfErr result (IsScheduleDue text.entry.source.now k schedule.items) }
{
    texts_have_one_program();
    let compiled = compile(alloc, text.source, k)?;
    Ok(chart_printed(alloc, text, &compiled, fuel, schedule.as_slice())?)
}

/// The chart of the turns of these threads from the start of a compiled program, whose text this is.
fn chart_printed(
    alloc: Global,
    text: PlacedText<'_>,
    compiled: &Compiled,
    fuel: u32,
    schedule: &[u16],
) -> Result<String, WorldFault>
    requires { IsSpelled text.source.now (program_of compiled.now).source }
    ensures answers { IfOk result (λ printed. IsChartPlaced (option_map (λ name. name.now) text.entry.file)
        text.entry.source.now compiled.now fuel schedule.now (string_bytes printed)) }
    ensures refuses { IfErr result (λ why. IsUnrun why schedule.now (length compiled.now.scheme.program.texts)) }
{
    let lines = LineIndex::new(alloc, text.source)?;
    let spans = node_spans(alloc, text.source, compiled.scheme().program())?;
    let places = Places {
        source: &lines,
        spans: &spans,
        file: text.file,
    };
    chart(alloc, compiled, fuel, schedule, Some(places))
}
