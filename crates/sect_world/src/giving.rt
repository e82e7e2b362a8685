//! A thread gives back what it holds, and others come to hold it.

ghost use Rattle.std.specs.Prelude.{◌≡◌, ◌<◌, ◌≤◌, ◌+◌, ◌++◌, ◌∷◌, length, false, vec_len, vec_capacity, OnOk};
ghost use Rattle.std.specs.Prelude.{OnErr};
ghost use Rattle.sect_graph.specs.Rests.{rest_at};
ghost use Rattle.sect_table.specs.{Contents.{is_waiting, released}, Sound.{IsKept as IsTableKept}};
ghost use Rattle.sect_emit.specs.{Compiled.{program_of}, Graphed.{text_at}};
ghost use Rattle.sect_world.specs.{declared.runner.Phase.TheVariants.{Outside}, Events.{frame_out}};
ghost use Rattle.sect_world.specs.Viewing.{EndsSo, frame_of};
ghost use Rattle.sect_world.specs.steps.{Fits.{takes}, Taking.{CanAdvance, all_advanced, takers}};

use crate::asking::take;
use crate::event::Event;
use crate::runner::{Phase, Runner};
use crate::trace::Trace;
use sect_emit::Compiled;
use sect_table::{Grant, Grants, Table};
use sect_types::{End, Fault};
use std::alloc::AllocError;

/// The threads that the last turn has let in, in order, and room for the grants that let them in.
#[derive(Drop)]
pub struct LetIn {
    pub grants: Grants,
    pub granted: Vec<u16>,
}

/// Each grant is a `take` event of the thread that waited; `granted` tells whose.
fn take_grants(
    trace: &mut Trace,
    runners: &mut Vec<Runner>,
    granted: &mut Vec<u16>,
    grants: &[Grant],
)
    requires room { length grants.now ≤ trace.old.room }
    requires place { vec_len granted.old + length grants.now ≤ vec_capacity granted.old }
    requires advance { CanAdvance grants.now runners.old.items }
    ensures trace { trace.new.items ≡ trace.old.items ++ takes grants.now }
    ensures runners { runners.new.items ≡ all_advanced grants.now runners.old.items }
    ensures granted { granted.new.items ≡ granted.old.items ++ takers grants.now }
    ensures place { vec_capacity granted.new ≡ vec_capacity granted.old }
{
    for grant in grants {
        take(trace, runners, *grant);
        granted.push_reserved(grant.thread);
    }
}

/// What the event's thread holds goes to who waits for it: the event, and a `take` event of each that is let in.
pub fn give_back(
    trace: &mut Trace,
    runners: &mut Vec<Runner>,
    table: &mut Table,
    let_in: &mut LetIn,
    event: Event,
)
    requires thread { event.thread < length table.old.held }
    requires idle { is_waiting event.thread table.old ≡ false }
    requires grants { length table.old.held ≤ let_in.old.grants.threads }
    requires room { 1 + length table.old.held ≤ trace.old.room }
    requires place { length table.old.held ≤ vec_capacity let_in.old.granted }
    requires advance { CanAdvance (released event.thread table.old).grants runners.old.items }
    ensures trace { trace.new.items ≡ trace.old.items ++ event ∷ takes (released event.thread table.old).grants }
    ensures runners { runners.new.items ≡ all_advanced (released event.thread table.old).grants runners.old.items }
    ensures granted { let_in.new.granted.items ≡ takers (released event.thread table.old).grants }
    ensures held { table.new.held ≡ (released event.thread table.old).held }
    ensures entries { table.new.entries ≡ (released event.thread table.old).entries }
    ensures kept { IsTableKept table.new }
    ensures threads { let_in.new.grants.threads ≡ let_in.old.grants.threads }
    ensures place { vec_capacity let_in.new.granted ≡ vec_capacity let_in.old.granted }
{
    trace.push_reserved(event);
    table.release_all(event.thread, &mut let_in.grants);
    let_in.granted.clear();
    take_grants(
        trace,
        runners,
        &mut let_in.granted,
        let_in.grants.as_slice(),
    );
}

/// How a thread has ended that comes out of a section, by a fault or else to this node of its own graph.
fn end_after(compiled: &Compiled, thread: u16, how: Option<Fault>, node: u16) -> Option<End>
    requires { thread < length (program_of compiled.now).texts }
    ensures { EndsSo how (rest_at (text_at compiled.now thread) node) result }
{
    match how {
        Some(fault) => Some(End::Failed(fault)),
        None => {
            compiled.facts();
            let flow = compiled.scheme().graph().thread(thread);
            if node < flow.exit() {
                None
            } else {
                Some(End::Done)
            }
        }
    }
}

/// A thread comes out of its section, by a fault or at the end: what it has printed is delivered. Where memory is
/// refused nothing has changed.
pub fn come_out(
    compiled: &Compiled,
    thread: u16,
    how: Option<Fault>,
    runner: &mut Runner,
    output: &mut Vec<i64>,
) -> Result<(), AllocError>
    requires { thread < length (program_of compiled.now).texts }
    ensures phase { OnOk result (runner.new.phase ≡ Outside) }
    ensures frame { OnOk result (frame_of (text_at compiled.now thread) runner.new
        ≡ frame_out how (frame_of (text_at compiled.now thread) runner.old)) }
    ensures wanted { OnOk result ((runner.new.wanted ≡ runner.old.wanted) × (runner.new.taken ≡ runner.old.taken)) }
    ensures output { OnOk result (output.new.items ≡ output.old.items ++ runner.old.work.printed) }
    ensures refused { OnErr result ((runner.new ≡ runner.old) × (output.new.items ≡ output.old.items)) }
{
    runner.work.deliver(output)?;
    runner.phase = Phase::Outside;
    runner.ended = end_after(compiled, thread, how, runner.node);
    Ok(())
}
