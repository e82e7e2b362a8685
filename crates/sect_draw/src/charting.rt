//! Charts of turns.

ghost use Rattle.std.specs.Prelude.{◌≡◌, ◌<◌, ◌+◌, ◌++◌, length, IfOk, OnOk, IfErr, IfSome, vec_len, option_map};
ghost use Rattle.std.specs.String.{string_bytes};
ghost use Rattle.sect_emit.specs.{Compiled.{program_of}, Labels.{thread_name}};
ghost use Rattle.sect_world.specs.{Schedules.{IsUnrun}, Worlds.{IsRefused}};
ghost use Rattle.sect_draw.specs.Chart.{TurnView, IsChart, turn_row as row_of, heading as heading_of};
ghost use Rattle.sect_draw.specs.Places.{ran_outcome};
ghost use Rattle.sect_draw.specs.steps.{CellTexts.{texts}, Turning.{IsCharted, kept_shown}};
ghost use Rattle.sect_draw.specs.Placing.{AreThere, IsPlaced, places_shown};

use crate::cells::{Turn, turn_row};
use crate::noting::{Kept, noted_turn, nothing_kept};
use crate::outcomes::{Faults, put_ran_outcome};
use crate::places::Places;
use crate::tables::table;
use sect_emit::{Compiled, put_thread_name};
use sect_store::{Outcome, put_outcome};
use sect_world::{Standing, World, WorldFault};
use std::alloc::{AllocError, Global};

/// The chart of the turns of these threads from the start of a compiled program: a column for each thread, a row for
/// each turn, and then what they have come to. With the places of the program it says what each turn has run, and where
/// that and faults stand.
pub fn chart(
    alloc: Global,
    compiled: &Compiled,
    fuel: u32,
    schedule: &[u16],
    places: Option<Places<'_>>,
) -> Result<String, WorldFault>
    requires { IfSome places (IsPlaced compiled.now) }
    ensures answers { IfOk result (λ text. IsChart compiled.now fuel schedule.now
        (option_map places_shown places.entry) (string_bytes text)) }
    ensures refuses { IfErr result (λ why.
        IsUnrun why schedule.now (length (program_of compiled.now).texts)) }
{
    let mut world = World::start(alloc, compiled, fuel)?;
    let columns = 1 + world.thread_count() as usize;
    let mut kept = nothing_kept(alloc, &world)?;
    let mut rows = Vec::with_capacity(alloc, 1 + schedule.len())?;
    rows.push_reserved(heading(alloc, &world)?);
    for (number, thread) in schedule.iter().enumerate() {
        let turn = Numbered {
            number,
            thread: *thread,
            places,
        };
        match charted_turn(alloc, &mut world, &mut kept, turn) {
            Ok(row) => rows.push_reserved(row),
            Err(fault) => return Err(fault),
        }
    }
    world.facts();
    let mut text = table(alloc, rows.as_slice(), columns)?;
    let run = world.finish();
    let told = Told {
        compiled,
        places,
        ran: kept.ran.as_slice(),
    };
    put_told(alloc, &mut text, told, &run.outcome)?;
    Ok(text)
}

/// A compiled program that has run, its places where these are told, and where each thread stood that has run something
/// before it ran the last.
#[derive(Clone, Copy)]
struct Told<'a> {
    compiled: &'a Compiled,
    places: Option<Places<'a>>,
    ran: &'a [Option<Standing>],
}

/// Adds what a run has come to, with the places of its faults where places are told.
fn put_told(
    alloc: Global,
    text: &mut String,
    told: Told<'_>,
    outcome: &Outcome,
) -> Result<(), AllocError>
    requires placed { IfSome told.places (IsPlaced told.compiled.now) }
    requires there { AreThere told.compiled.now told.ran.now }
    ensures { OnOk result (string_bytes text.new ≡ string_bytes text.old
        ++ ran_outcome (program_of told.entry.compiled.now) (option_map places_shown told.entry.places)
        told.entry.ran.now outcome.now) }
{
    match told.places {
        None => put_outcome(alloc, text, told.compiled.scheme().program(), outcome),
        Some(places) => {
            let faults = Faults {
                compiled: told.compiled,
                places,
                ran: told.ran,
            };
            put_ran_outcome(alloc, text, &faults, outcome)
        }
    }
}

/// What stands above the columns: `turn`, and the name of each thread.
fn heading(alloc: Global, world: &World<'_>) -> Result<Vec<String>, AllocError>
    ensures row { IfOk result (λ row. texts row.items ≡ heading_of (program_of world.now.compiled)) }
    ensures count { IfOk result (λ row. vec_len row ≡ 1 + length (program_of world.now.compiled).texts) }
{
    let mut cells = Vec::new(alloc);
    cells.push(String::from_str(alloc, "turn")?)?;
    for thread in 0..world.thread_count() {
        cells.push(name(alloc, world, thread)?)?;
    }
    Ok(cells)
}

/// The name of a thread.
fn name(alloc: Global, world: &World<'_>, thread: u16) -> Result<String, AllocError>
    requires { thread < length (program_of world.now.compiled).texts }
    ensures { IfOk result (λ text. string_bytes text
        ≡ thread_name (program_of world.now.compiled).source thread) }
{
    let mut text = String::new(alloc);
    put_thread_name(&mut text, world.program(), thread)?;
    Ok(text)
}

/// The turn of a thread, its number, and the places of the program where these are told.
#[derive(Clone, Copy)]
struct Numbered<'a> {
    number: usize,
    thread: u16,
    places: Option<Places<'a>>,
}

/// The turn of a thread: its row.
fn charted_turn(
    alloc: Global,
    world: &mut World<'_>,
    kept: &mut Kept,
    turn: Numbered<'_>,
) -> Result<Vec<String>, WorldFault>
    requires placed { IfSome turn.places (IsPlaced world.old.compiled) }
    requires there { AreThere world.old.compiled kept.old.ran.items }
    ensures charted { IfOk result (λ row. (x : TurnView)
        × IsCharted turn.entry.thread world.old world.new (kept_shown kept.old) (kept_shown kept.new) x
        × (texts row.items ≡ row_of world.old.compiled (option_map places_shown turn.entry.places)
        turn.entry.number x)) }
    ensures count { IfOk result (λ row. vec_len row ≡ 1 + length (program_of world.old.compiled).texts) }
    ensures there { OnOk result (AreThere world.new.compiled kept.new.ran.items) }
    ensures within { OnOk result (turn.entry.thread < length (program_of world.old.compiled).texts) }
    ensures refused { IfErr result (λ fault.
        IsRefused fault turn.entry.thread (length (program_of world.old.compiled).texts)) }
{
    let _count = world.thread_count();
    let made = match noted_turn(alloc, world, kept, turn.thread) {
        Ok(made) => made,
        Err(fault) => return Err(fault),
    };
    let (_, printed) = world.output().split_at(made.delivered);
    let told = Turn {
        world,
        thread: turn.thread,
        turned: made.turned,
        events: made.events.as_slice(),
        delivered: printed,
        waiting: kept.waiting.as_slice(),
        stood: made.stood,
        ran: kept.ran.as_slice(),
        places: turn.places,
    };
    Ok(turn_row(alloc, turn.number, &told)?)
}
