//! The command `outcomes` with where faults stand.

ghost use Rattle.std.specs.Prelude.{◌≡◌, ◌≤◌, ◌<◌, ◌++◌, ℕ, List, IfOk, IfErr, OnOk, IsOkUnless, length, option_map};
ghost use Rattle.std.specs.Prelude.{slice_get, Some};
ghost use Rattle.std.specs.String.{string_bytes};
ghost use Rattle.sect_front.specs.Front.{IsSpelled};
ghost use Rattle.sect_types.specs.Whole.{SerialEndView};
ghost use Rattle.sect_names.specs.{Schemes.{SchemeView}, Sources.{IsAccepted}};
ghost use Rattle.sect_serial.specs.Exploring.{HasStates};
ghost use Rattle.sect_emit.specs.Compiled.{program_of};
ghost use Rattle.sect_answers.specs.{declared.refusal.Refusal.TheVariants.{Memory}, Outcomes.{counts_line}};
ghost use Rattle.sect_answers.specs.Placed.{AreListed, AreListedPlaced, ArePlacedOutcomes, AreWhole, IsListed};
ghost use Rattle.sect_answers.specs.Placed.{IsPlacedOutcomesDue, IsReplayed, shown_of};

use crate::outcomes::put_counts;
use crate::placed::{PlacedText, ran_by};
use crate::refusal::Refusal;
use sect_draw::{Faults, Places, put_ran_numbered};
use sect_emit::{Compiled, compile};
use sect_names::texts_have_one_program;
use sect_places::{LineIndex, NodeSpans, node_spans};
use sect_serial::{Outcomes, outcomes};
use sect_world::{every_order_is_run, every_run_is_serial};
use std::alloc::{AllocError, Global};

/// All outcomes that complete runs of the compiled program of a source text can have, as `all_outcomes` answers them,
/// each with where its faults stand. These are found by its compiled program, so its hints are looked at.
pub fn placed_outcomes(
    alloc: Global,
    text: PlacedText<'_>,
    k: u16,
    fuel: u32,
    most: u32,
) -> Result<String, Refusal>
    // The text is accepted, and these are all outcomes of its program.
    ensures answers { IfOk result (λ printed. ArePlacedOutcomes (option_map (λ name. name.now) text.entry.file)
        text.entry.source.now k fuel most (string_bytes printed)) }
    // A text that is accepted, whose program has no more states than that, is answered, unless memory runs out.
    ensures only { (s : SchemeView) (states : ℕ) → IsAccepted text.entry.source.now k s
        → HasStates s.program fuel states → states ≤ most → IsOkUnless result Memory }
    // A refusal is due, and it is the first that is.
    ensures refuses { IfErr result (IsPlacedOutcomesDue text.entry.source.now k fuel most) }
{
    texts_have_one_program();
    every_run_is_serial();
    every_order_is_run();
    let compiled = compile(alloc, text.source, k)?;
    let all = outcomes(alloc, compiled.scheme().program(), fuel, most)?;
    Ok(list_printed(alloc, text, &compiled, fuel, &all)?)
}

/// A compiled program with its text, where its nodes come from, and the name of the file, if it has one; its runs have
/// this much fuel for each thread.
#[derive(Clone, Copy)]
struct Replayed<'a> {
    compiled: &'a Compiled,
    source: &'a LineIndex<'a>,
    spans: &'a NodeSpans,
    file: Option<&'a str>,
    fuel: u32,
}

/// All outcomes of a compiled program, whose text this is.
fn list_printed(
    alloc: Global,
    text: PlacedText<'_>,
    compiled: &Compiled,
    fuel: u32,
    outcomes: &Outcomes,
) -> Result<String, AllocError>
    requires spelled { IsSpelled text.source.now (program_of compiled.now).source }
    requires whole { AreWhole compiled.now fuel outcomes.now.found }
    ensures { IfOk result (λ printed. AreListedPlaced (option_map (λ name. name.now) text.entry.file)
        text.entry.source.now compiled.now fuel outcomes.now (string_bytes printed)) }
{
    let lines = LineIndex::new(alloc, text.source)?;
    let spans = node_spans(alloc, text.source, compiled.scheme().program())?;
    let replayed = Replayed {
        compiled,
        source: &lines,
        spans: &spans,
        file: text.file,
        fuel,
    };
    let mut printed = String::new(alloc);
    put_counts(&mut printed, outcomes)?;
    put_list(alloc, &mut printed, replayed, outcomes)?;
    Ok(printed)
}

/// Adds outcomes, one after another.
fn put_list(
    alloc: Global,
    text: &mut String,
    replayed: Replayed<'_>,
    outcomes: &Outcomes,
) -> Result<(), AllocError>
    requires placed { IsReplayed replayed }
    requires whole { AreWhole replayed.compiled.now replayed.fuel outcomes.now.found }
    ensures { OnOk result ((lines : List ℕ) × AreListed replayed.entry.compiled.now replayed.entry.fuel
        (shown_of replayed.entry) 0 outcomes.now.found lines
        × (string_bytes text.new ≡ string_bytes text.old ++ lines)) }
{
    for number in 0..outcomes.len() {
        put_one(alloc, text, replayed, outcomes, number)?;
    }
    Ok(())
}

/// Adds the outcome of this number.
fn put_one(
    alloc: Global,
    text: &mut String,
    replayed: Replayed<'_>,
    outcomes: &Outcomes,
    number: usize,
) -> Result<(), AllocError>
    requires placed { IsReplayed replayed }
    requires whole { AreWhole replayed.compiled.now replayed.fuel outcomes.now.found }
    requires there { number < length outcomes.now.found }
    ensures { OnOk result ((x : SerialEndView × List ℕ) × (line : List ℕ)
        × (slice_get outcomes.now.found number ≡ Some x)
        × IsListed replayed.entry.compiled.now replayed.entry.fuel (shown_of replayed.entry) number x line
        × (string_bytes text.new ≡ string_bytes text.old ++ line)) }
{
    let (end, order) = outcomes.at(number);
    let threads = order.to_threads()?;
    let ran = ran_by(alloc, replayed.compiled, replayed.fuel, threads.as_slice())?;
    let faults = Faults {
        compiled: replayed.compiled,
        places: Places {
            source: replayed.source,
            spans: replayed.spans,
            file: replayed.file,
        },
        ran: ran.as_slice(),
    };
    let outcome = end.try_clone()?.into_outcome(alloc, threads)?;
    put_ran_numbered(alloc, text, &faults, number, &outcome)
}
