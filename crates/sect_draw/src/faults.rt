//! Where the faults of a run stand.

ghost use Rattle.std.specs.{Prelude.{◌≡◌, ◌++◌, IfOk, IfSome, None, Some, OnOk, replicate}, String.{string_bytes}};
ghost use Rattle.sect_lemmas.specs.Lists.{put_at};
ghost use Rattle.std.specs.Prelude.{All, option_map, slice_index_or};
ghost use Rattle.sect_world.specs.Standings.{IsStandingThere};
ghost use Rattle.sect_draw.specs.Places.{is_run as is_run_by, is_run_first as is_run_first_by, ran_after};
ghost use Rattle.sect_draw.specs.Places.{fault_at, standing_at};
ghost use Rattle.sect_draw.specs.Placing.{AreThere, IsPlaced, places_shown};

use crate::places::{Places, put_words_at};
use sect_emit::Compiled;
use sect_types::End;
use sect_world::{Deed, Event, Standing};
use std::alloc::{AllocError, Global};

/// Where each of so many threads stood that has run something: none has.
pub fn none_ran(alloc: Global, threads: usize) -> Result<Vec<Option<Standing>>, AllocError>
    ensures { IfOk result (λ ran. ran.items ≡ replicate threads None) }
{
    let mut ran = Vec::with_capacity(alloc, threads)?;
    for _thread in 0..threads {
        ran.push(None)?;
    }
    Ok(ran)
}

/// Whether a thread that does this runs a statement or a test.
pub fn is_run(deed: Deed) -> bool
    ensures { result ≡ is_run_by deed }
{
    match deed {
        Deed::Local | Deed::Act => true,
        _ => false,
    }
}

/// Whether the thread whose turn these are the events of has run a statement or a test.
fn is_run_first(events: &[Event]) -> bool
    ensures { result ≡ is_run_first_by events.now }
{
    match events.first() {
        None => false,
        Some(event) => is_run(event.deed),
    }
}

/// Puts where a thread stood, if there is one of this number.
fn put_stood(ran: &mut Vec<Option<Standing>>, thread: u16, stood: Standing)
    ensures { ran.new.items ≡ put_at thread (Some stood) ran.old.items }
{
    if let Some(place) = ran.get_mut(thread as usize) {
        *place = Some(stood);
    }
}

/// Notes where a thread stood before its turn that has made these events, if it has run something. `ran` has for each
/// thread where it stood before it ran the last.
pub fn note_ran(ran: &mut Vec<Option<Standing>>, thread: u16, stood: Standing, events: &[Event])
    ensures { ran.new.items ≡ ran_after thread stood events.now ran.old.items }
{
    if is_run_first(events) {
        put_stood(ran, thread, stood);
    }
}

/// Where a thread stood before it ran what has ended it by a fault, if a fault has.
pub fn fault_of(end: Option<End>, ran: &[Option<Standing>], thread: usize) -> Option<Standing>
    ensures { result ≡ standing_at end (slice_index_or ran.now thread None) }
{
    match end {
        Some(End::Failed(_)) => match ran.get(thread) {
            None => None,
            Some(stood) => *stood,
        },
        Some(End::Done) | None => None,
    }
}

/// Adds where a fault stands, if there is one.
pub fn put_fault(
    text: &mut String,
    file: Option<&str>,
    compiled: &Compiled,
    places: &Places<'_>,
    fault: Option<Standing>,
) -> Result<(), AllocError>
    requires placed { IsPlaced compiled.now places.now }
    requires there { IfSome fault (IsStandingThere compiled.now) }
    ensures { OnOk result (string_bytes text.new ≡ string_bytes text.old
        ++ fault_at (option_map (λ f. f.now) file.entry) (places_shown places.now) fault) }
{
    match fault {
        None => Ok(()),
        Some(stood) => put_words_at(text, " at ", file, compiled, places, stood),
    }
}
