//! What each thread comes to by a turn.

ghost use Rattle.std.specs.{Prelude.{◌≡◌, ◌≢◌, ◌+◌, ◌++◌, [], length, IfOk, OnOk, vec_len}, List.{flat_map}};
ghost use Rattle.std.specs.String.{string_bytes};
ghost use Rattle.sect_emit.specs.Compiled.{program_of};
ghost use Rattle.sect_world.specs.declared.event.Deed.TheVariants.{Enter};
ghost use Rattle.sect_draw.specs.Chart.{own_deed, prints_text, lets_text, ended_text, moved_text, own_text};
ghost use Rattle.sect_draw.specs.Chart.{let_in_text, cell_text, place_text, ran_by, ran_text, turn_row as row_of};
ghost use Rattle.sect_draw.specs.steps.CellTexts.{texts};
ghost use Rattle.sect_draw.specs.steps.Turning.{shown, program_in, compiled_in, places_in, AreOfThreads};
ghost use Rattle.sect_draw.specs.steps.Turning.{HasEntered, IsTold};

use crate::faults::{fault_of, is_run, put_fault};
use crate::places::{Places, put_statement};
use crate::waits::put_wait;
use crate::words::put_deed;
use sect_emit::{put_blanks, put_thread_name};
use sect_types::{End, Program};
use sect_world::{Deed, Event, Standing, Turned, World};
use std::alloc::{AllocError, Global};
use std::fmt::Write;

/// A turn that has led to a world: its thread, what it has come to, its events, the numbers that it has delivered, who
/// waits now, in the order in which they began to, where its thread stood before, and where each thread stood that has
/// run something before it ran the last. With places, it is told what the turn has run, and where that stands.
#[derive(Clone, Copy)]
pub struct Turn<'a> {
    pub world: &'a World<'a>,
    pub thread: u16,
    pub turned: Turned,
    pub events: &'a [Event],
    pub delivered: &'a [i64],
    pub waiting: &'a [u16],
    pub stood: Standing,
    pub ran: &'a [Option<Standing>],
    pub places: Option<Places<'a>>,
}

/// The row of a turn: its number, and a cell for each thread.
pub fn turn_row(alloc: Global, number: usize, turn: &Turn<'_>) -> Result<Vec<String>, AllocError>
    requires { IsTold turn.now }
    ensures row { IfOk result (λ row. texts row.items
        ≡ row_of (compiled_in turn.now) (places_in turn.now) number (shown turn.now)) }
    ensures count { IfOk result (λ row. vec_len row ≡ 1 + length (program_in turn.now).texts) }
{
    let mut cells = Vec::new(alloc);
    cells.push(place(alloc, number)?)?;
    for thread in 0..turn.world.thread_count() {
        cells.push(cell(alloc, turn, thread)?)?;
    }
    Ok(cells)
}

/// The number of a turn, in at least four places.
fn place(alloc: Global, number: usize) -> Result<String, AllocError>
    ensures { IfOk result (λ text. string_bytes text ≡ place_text number) }
{
    let digits = format!(in alloc; "{number}")?;
    let mut text = String::new(alloc);
    put_blanks(&mut text, 4usize.saturating_sub(digits.len()))?;
    text.push_str(digits.as_str())?;
    Ok(text)
}

/// What a thread comes to by a turn.
fn cell(alloc: Global, turn: &Turn<'_>, thread: u16) -> Result<String, AllocError>
    requires { IsTold turn.now }
    ensures { IfOk result (λ text. string_bytes text
        ≡ cell_text (compiled_in turn.now) (places_in turn.now) (shown turn.now) thread) }
{
    let mut text = String::new(alloc);
    if thread == turn.thread {
        put_own(&mut text, turn)?;
    } else {
        put_let_in(&mut text, turn.world.program(), thread, turn.events)?;
    }
    Ok(text)
}

/// Adds what the thread comes to whose turn it is.
fn put_own(text: &mut String, turn: &Turn<'_>) -> Result<(), AllocError>
    requires { IsTold turn.now }
    ensures { OnOk result (string_bytes text.new ≡ string_bytes text.old
        ++ own_text (compiled_in turn.now) (places_in turn.now) (shown turn.now) turn.now.turned) }
{
    match turn.turned {
        Turned::Moved(_) => put_moved(text, turn),
        Turned::Waits => put_wait(text, turn.world, turn.thread, turn.waiting),
        Turned::Ended => text.push_str("has ended"),
    }
}

/// Adds the deed of a turn, what it delivers, whom it lets in, and how its thread has ended, if it has.
fn put_moved(text: &mut String, turn: &Turn<'_>) -> Result<(), AllocError>
    requires told { IsTold turn.now }
    requires some { turn.now.events.now ≢ [] }
    ensures { OnOk result (string_bytes text.new ≡ string_bytes text.old
        ++ moved_text (compiled_in turn.now) (places_in turn.now) (shown turn.now) turn.now.events.now) }
{
    let Some((own, others)) = turn.events.split_first() else {
        unreachable!()
    };
    put_own_deed(text, turn.world, turn.thread, own.deed)?;
    put_ran(text, turn, own.deed)?;
    put_delivered(text, turn.delivered)?;
    put_lets(text, turn.world.program(), others)?;
    put_end(text, turn, turn.world.end_of(turn.thread))
}

/// Adds the statement or the test that a turn has run, and its place, where places are told.
fn put_ran(text: &mut String, turn: &Turn<'_>, deed: Deed) -> Result<(), AllocError>
    requires { IsTold turn.now }
    ensures { OnOk result (string_bytes text.new ≡ string_bytes text.old
        ++ ran_text (compiled_in turn.now) (places_in turn.now) turn.now.stood deed) }
{
    let Some(places) = &turn.places else {
        return Ok(());
    };
    if is_run(deed) {
        put_statement(text, turn.world.compiled(), places, turn.stood)
    } else {
        Ok(())
    }
}

/// Adds what a thread does; of one that enters a section the section's number too.
fn put_own_deed(
    text: &mut String,
    world: &World<'_>,
    thread: u16,
    deed: Deed,
) -> Result<(), AllocError>
    requires { deed ≡ Enter → HasEntered world.now.state thread }
    ensures { OnOk result (string_bytes text.new ≡ string_bytes text.old
        ++ own_deed (program_of world.now.compiled) world.now.state thread deed) }
{
    match deed {
        Deed::Enter => Ok(write!(text, "enter section {}", world.section_of(thread))?),
        other => put_deed(text, world.program(), other),
    }
}

/// Adds the numbers that a turn delivers.
fn put_delivered(text: &mut String, delivered: &[i64]) -> Result<(), AllocError>
    ensures { OnOk result (string_bytes text.new ≡ string_bytes text.old ++ flat_map prints_text delivered.now) }
{
    for number in delivered {
        write!(text, ", prints {number}")?;
    }
    Ok(())
}

/// Adds whose events these are, who are let in.
fn put_lets(text: &mut String, program: &Program, events: &[Event]) -> Result<(), AllocError>
    requires { AreOfThreads program.now events.now }
    ensures { OnOk result (string_bytes text.new
        ≡ string_bytes text.old ++ flat_map (lets_text program.now) events.now) }
{
    for event in events {
        text.push_str(", lets ")?;
        put_thread_name(text, program, event.thread)?;
        text.push_str(" in")?;
    }
    Ok(())
}

/// Adds how the thread has ended whose turn it is, if it has, and where the fault stands that has ended it, where
/// places are told.
fn put_end(text: &mut String, turn: &Turn<'_>, end: Option<End>) -> Result<(), AllocError>
    requires { IsTold turn.now }
    ensures { OnOk result (string_bytes text.new ≡ string_bytes text.old
        ++ ended_text (places_in turn.now) end (ran_by (shown turn.now))) }
{
    let Some(how) = end else {
        return Ok(());
    };
    write!(text, ", end: {how}")?;
    match &turn.places {
        None => Ok(()),
        Some(places) => {
            let fault = fault_of(end, turn.ran, turn.thread as usize);
            put_fault(text, None, turn.world.compiled(), places, fault)
        }
    }
}

/// Adds what a thread does by events of another thread's turn.
fn put_let_in(
    text: &mut String,
    program: &Program,
    thread: u16,
    events: &[Event],
) -> Result<(), AllocError>
    ensures { OnOk result (string_bytes text.new
        ≡ string_bytes text.old ++ let_in_text program.now thread events.now) }
{
    for event in events {
        if event.thread == thread {
            put_deed(text, program, event.deed)?;
        }
    }
    Ok(())
}
