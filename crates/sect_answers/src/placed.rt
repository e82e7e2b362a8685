//! Outcomes of a source text's compiled program, with where their faults stand.

ghost use Rattle.std.specs.Prelude.{◌≡◌, IfOk, OnOk, option_map};
ghost use Rattle.std.specs.String.{string_bytes};
ghost use Rattle.sect_front.specs.Front.{IsSpelled};
ghost use Rattle.sect_types.specs.Whole.{SerialEndView, RunsWhole};
ghost use Rattle.sect_emit.specs.Compiled.{program_of};
ghost use Rattle.sect_draw.specs.{Chart.{AreRanInOrder}, Placing.{AreThere}};
ghost use Rattle.sect_answers.specs.Placed.{AddsOutcome, IsOutcomePlaced};

use sect_draw::{Faults, Places, put_ran_outcome, ran_in_order};
use sect_emit::Compiled;
use sect_places::{LineIndex, node_spans};
use sect_store::Outcome;
use sect_world::{Standing, WorldFault};
use std::alloc::{AllocError, Global};

/// A source text, and the name of its file, if it has one.
#[derive(Clone, Copy)]
pub struct PlacedText<'a> {
    pub file: Option<&'a str>,
    pub source: &'a [u8],
}

/// A compiled program that has run, its text, and where each thread that has run something stood before it ran the
/// last.
#[derive(Clone, Copy)]
pub struct Ran<'a> {
    pub text: PlacedText<'a>,
    pub compiled: &'a Compiled,
    pub ran: &'a [Option<Standing>],
}

/// Where each thread that has run something stood before it ran the last, in a run in which these threads leave a
/// section each, in this order; none where there is no such run.
pub fn ran_by(
    alloc: Global,
    compiled: &Compiled,
    fuel: u32,
    order: &[u16],
) -> Result<Vec<Option<Standing>>, AllocError>
    ensures told { (end : SerialEndView) → RunsWhole (program_of compiled.now) fuel order.now end
        → IfOk result (λ ran. AreRanInOrder compiled.now fuel order.now ran.items) }
    ensures there { IfOk result (λ ran. AreThere compiled.now ran.items) }
{
    match ran_in_order(alloc, compiled, fuel, order) {
        Ok(Some(ran)) => Ok(ran),
        Ok(None) => Ok(Vec::new(alloc)),
        Err(WorldFault::NoSuchThread(_)) => Ok(Vec::new(alloc)),
        Err(WorldFault::Memory) => Err(AllocError),
    }
}

/// Adds what a run has come to, with where its faults stand.
pub fn put_placed(
    alloc: Global,
    printed: &mut String,
    run: Ran<'_>,
    outcome: &Outcome,
) -> Result<(), AllocError>
    requires spelled { IsSpelled run.text.source.now (program_of run.compiled.now).source }
    requires there { AreThere run.compiled.now run.ran.now }
    ensures { OnOk result (AddsOutcome (option_map (λ name. name.now) run.entry.text.file) run.entry.text.source.now
        run.entry.compiled.now run.entry.ran.now outcome.now (string_bytes printed.old)
        (string_bytes printed.new)) }
{
    let lines = LineIndex::new(alloc, run.text.source)?;
    let spans = node_spans(alloc, run.text.source, run.compiled.scheme().program())?;
    let faults = Faults {
        compiled: run.compiled,
        places: Places {
            source: &lines,
            spans: &spans,
            file: run.text.file,
        },
        ran: run.ran,
    };
    put_ran_outcome(alloc, printed, &faults, outcome)
}

/// An outcome of a compiled program, to which whole sections come in its order, with where its faults stand.
pub fn outcome_placed(
    alloc: Global,
    text: PlacedText<'_>,
    compiled: &Compiled,
    fuel: u32,
    outcome: &Outcome,
) -> Result<String, AllocError>
    requires spelled { IsSpelled text.source.now (program_of compiled.now).source }
    requires runs { (end : SerialEndView) × RunsWhole (program_of compiled.now) fuel outcome.now.order end }
    ensures { IfOk result (λ printed. IsOutcomePlaced (option_map (λ name. name.now) text.entry.file)
        text.entry.source.now compiled.now fuel outcome.now (string_bytes printed)) }
{
    let ran = ran_by(alloc, compiled, fuel, outcome.order())?;
    let run = Ran {
        text,
        compiled,
        ran: ran.as_slice(),
    };
    let mut printed = String::new(alloc);
    put_placed(alloc, &mut printed, run, outcome)?;
    Ok(printed)
}
