//! The command `schedule --chart`.

ghost use Rattle.std.specs.{Prelude.{IfOk, IfErr, IsOkUnless}, String.{string_bytes}};
ghost use Rattle.sect_names.specs.{Schemes.{SchemeView}, Sources.{IsAccepted}};
ghost use Rattle.sect_answers.specs.{declared.refusal.Refusal.TheVariants.{Memory}, Charting.{IsCharted}};
ghost use Rattle.sect_answers.specs.Scheduling.{AreThreads, IsScheduleDue};

use crate::refusal::Refusal;
use sect_draw::chart;
use sect_emit::compile;
use sect_names::texts_have_one_program;
use std::alloc::Global;

/// The turns of these threads from the start of a source text's compiled program, as a chart with a column for each
/// thread and a row for each turn, and what the run has come to.
pub fn schedule_chart(
    alloc: Global,
    source: &[u8],
    k: u16,
    fuel: u32,
    schedule: Vec<u16>,
) -> Result<String, Refusal>
    // The source is accepted, and this is the chart of these turns of its compiled program.
    ensures answers { IfOk result (λ text. IsCharted source.now k fuel schedule.items (string_bytes text)) }
    // Where a text is accepted and the schedule has numbers of its threads alone, the turns are made, unless memory
    // runs out.
    ensures only { (s : SchemeView) → IsAccepted source.now k s → AreThreads s schedule.items
        → IsOkUnless result Memory }
    // A refusal is due: the text is judged first, and then the schedule.
    ensures refuses { IfErr result (IsScheduleDue source.now k schedule.items) }
{
    texts_have_one_program();
    let compiled = compile(alloc, source, k)?;
    Ok(chart(alloc, &compiled, fuel, schedule.as_slice(), None)?)
}
