//! The events of a run, in few bytes.

ghost use Rattle.std.specs.Prelude.{◌≡◌, ◌≤◌, ◌<◌, ◌+◌, ◌++◌, ◌∷◌, [], length, drop, vec_len, vec_capacity, IfOk, OnOk};
ghost use Rattle.std.specs.Prelude.{replicate, count_by};
ghost use Rattle.sect_world.specs.steps.Tracing.{noted_of, taken_by, count_of, count_in, deed_of, events_of};
ghost use Rattle.sect_world.specs.{steps.Tracing.{notes_again}, Traces.{agains_in}};
ghost use Rattle.sect_world.specs.declared.trace.Note.{Note as ANote};

use crate::event::{Deed, Event};
use sect_modes::{Key, Mode};
use std::alloc::{AllocError, Global};
use std::marker::Model;

/// What a thread does, but for the key that it takes.
#[derive(Clone, Copy)]
enum Noted {
    Local,
    Enter,
    Take(Mode),
    Begin,
    Again,
    Act,
    Leave,
}

/// An event, but for the key that it takes.
#[derive(Clone, Copy)]
struct Note {
    thread: u16,
    what: Noted,
}

/// The events of a run, in order. A run may have millions, and most take no key: what is taken stands aside, in the
/// order of the events that take it.
pub struct Trace {
    notes: Vec<Note>,
    taken: Vec<Key>,
}

impl Drop for Trace {
    fn drop(self) {
        let Trace { notes: _, taken: _ } = self;
    }
}

impl Model for Trace {
    ghost use Rattle.std.specs.Prelude.{◌≡◌, ◌-◌, length, min, vec_len, vec_capacity};
    ghost use Rattle.sect_world.specs.Traces.{TraceView};
    ghost use Rattle.sect_world.specs.steps.Tracing.{count_in, events_of};

    ghost Value = { TraceView };

    ghost view = { λ t. record {
      items = events_of t.notes.items t.taken.items;
      room = min (vec_capacity t.notes - vec_len t.notes) (vec_capacity t.taken - vec_len t.taken);
    } };

    ghost invariant = { λ t. count_in t.notes.items ≡ length t.taken.items };
}

impl Trace {
    /// No events.
    pub fn new(alloc: Global) -> Trace
        ensures { result.items ≡ [] }
    {
        Trace {
            notes: Vec::new(alloc),
            taken: Vec::new(alloc),
        }
    }

    /// How many events there are.
    pub fn len(&self) -> usize
        ensures { result ≡ length self.now.items }
    {
        self.notes.len()
    }

    /// How many of the events are an `again`.
    pub fn agains(&self) -> usize
        ensures { result ≡ agains_in self.now.items }
    {
        agains_among(self.notes.as_slice())
    }

    /// Where the events' memory comes from.
    pub fn allocator(&self) -> Global {
        *self.notes.allocator()
    }

    /// Makes room for so many events more.
    pub fn reserve(&mut self, more: usize) -> Result<(), AllocError>
        ensures items { self.new.items ≡ self.old.items }
        ensures room { OnOk result (more ≤ self.new.room) }
    {
        self.notes.reserve(more)?;
        self.taken.reserve(more)?;
        Ok(())
    }

    /// One event more, for which there is room.
    pub fn push_reserved(&mut self, event: Event)
        requires { 0 < self.old.room }
        ensures items { self.new.items ≡ self.old.items ++ event ∷ [] }
        ensures room { self.old.room ≤ self.new.room + 1 }
    {
        let Event { thread, deed } = event;
        put_aside(&mut self.taken, deed);
        self.notes.push_reserved(Note {
            thread,
            what: note_of(deed),
        });
    }

    /// An event so many times more, for which there is room.
    pub(crate) fn push_many(&mut self, event: Event, count: u32)
        requires { count ≤ self.old.room }
        ensures { self.new.items ≡ self.old.items ++ replicate count event }
    {
        for _made in 0..count {
            self.push_reserved(event);
        }
    }

    /// The events behind the first `count`.
    pub fn since(&self, alloc: Global, count: usize) -> Result<Vec<Event>, AllocError>
        requires { count ≤ length self.now.items }
        ensures { IfOk result (λ events. events.items ≡ drop count self.now.items) }
    {
        let (_, notes) = self.notes.as_slice().split_at(count);
        let (_, taken) = self
            .taken
            .as_slice()
            .split_at(self.taken.len() - keys_in(notes));
        events_from(alloc, notes, taken)
    }
}

/// Puts aside what is taken.
fn put_aside(taken: &mut Vec<Key>, deed: Deed)
    requires { vec_len taken.old < vec_capacity taken.old }
    ensures taken { taken.new.items ≡ taken.old.items ++ taken_by deed }
    ensures room { vec_capacity taken.new ≡ vec_capacity taken.old }
{
    if let Deed::Take { key, mode: _ } = deed {
        taken.push_reserved(key);
    }
}

/// What is noted of a deed.
fn note_of(deed: Deed) -> Noted
    ensures { result ≡ noted_of deed }
{
    match deed {
        Deed::Local => Noted::Local,
        Deed::Enter => Noted::Enter,
        Deed::Take { key: _, mode } => Noted::Take(mode),
        Deed::Begin => Noted::Begin,
        Deed::Again => Noted::Again,
        Deed::Act => Noted::Act,
        Deed::Leave => Noted::Leave,
    }
}

/// How many keys are taken by what is noted so.
fn keys_of(what: Noted) -> usize
    ensures { result ≡ count_of what }
{
    match what {
        Noted::Take(_) => 1,
        Noted::Local => 0,
        Noted::Enter => 0,
        Noted::Begin => 0,
        Noted::Again => 0,
        Noted::Act => 0,
        Noted::Leave => 0,
    }
}

/// How many keys these take.
fn keys_in(notes: &[Note]) -> usize
    ensures { result ≡ count_in notes.now }
{
    let mut count = 0;
    for note in notes {
        count += keys_of(note.what);
    }
    count
}

/// Whether an `again` is noted so.
fn notes_again(what: Noted) -> bool
    ensures { result ≡ notes_again what }
{
    match what {
        Noted::Again => true,
        Noted::Take(_) => false,
        Noted::Local => false,
        Noted::Enter => false,
        Noted::Begin => false,
        Noted::Act => false,
        Noted::Leave => false,
    }
}

/// How many of these are an `again`.
fn agains_among(notes: &[Note]) -> usize
    ensures { result ≡ count_by (λ (n : ANote). notes_again n.what) notes.now }
{
    notes.iter().filter(|note| notes_again(note.what)).count()
}

/// The deed that is noted so, which takes the key at this place if it takes one.
fn deed_at(what: Noted, taken: &[Key], next: usize) -> Deed
    requires { count_of what + next ≤ length taken.now }
    ensures { result ≡ deed_of what (drop next taken.now) }
{
    match what {
        Noted::Local => Deed::Local,
        Noted::Enter => Deed::Enter,
        Noted::Take(mode) => Deed::Take {
            key: taken[next],
            mode,
        },
        Noted::Begin => Deed::Begin,
        Noted::Again => Deed::Again,
        Noted::Act => Deed::Act,
        Noted::Leave => Deed::Leave,
    }
}

/// The events that are noted so, which take these keys in order.
fn events_from(alloc: Global, notes: &[Note], taken: &[Key]) -> Result<Vec<Event>, AllocError>
    requires { count_in notes.now ≡ length taken.now }
    ensures { IfOk result (λ events. events.items ≡ events_of notes.now taken.now) }
{
    let mut events = Vec::with_capacity(alloc, notes.len())?;
    let mut next = 0;
    for note in notes {
        events.push_reserved(Event {
            thread: note.thread,
            deed: deed_at(note.what, taken, next),
        });
        next += keys_of(note.what);
    }
    Ok(events)
}
