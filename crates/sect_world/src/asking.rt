//! A thread asks for a key.

ghost use Rattle.std.specs.Prelude.{◌≡◌, ◌<◌, ◌≤◌, ◌+◌, ◌++◌, ◌∷◌, [], length, false, Some, slice_get, OnErr, IfOk};
ghost use Rattle.sect_table.specs.{Contents.{holds}, Sound.{IsKept as IsTableKept}};
ghost use Rattle.sect_emit.specs.declared.plan.Grip.{Grip as Wish};
ghost use Rattle.sect_world.specs.declared.runner.Runner.{Runner as Asker};
ghost use Rattle.sect_world.specs.steps.{Fits.{take_of}, Taking.{Wishes, IsAsked, HasRoomAt, advanced_at, turn_by}};

use crate::event::{Deed, Event};
use crate::runner::Runner;
use crate::trace::Trace;
use crate::turned::{EventKind, Turned};
use sect_emit::Grip;
use sect_table::{Answer, Grant, Table};
use std::alloc::AllocError;

/// The first key that a thread wants.
fn wish(runner: &Runner) -> Grip
    requires { (g : Wish) × Wishes runner.now g }
    ensures { Wishes runner.now result }
{
    runner.wanted[runner.taken]
}

/// The first key that a thread wants, if it wants one.
pub fn first_wish(runner: &Runner) -> Option<Grip>
    ensures { result ≡ slice_get runner.now.wanted.items runner.now.taken }
{
    if runner.taken < runner.wanted.len() {
        Some(runner.wanted[runner.taken])
    } else {
        None
    }
}

/// A thread comes to hold the first key that it wants: one event.
pub fn take(trace: &mut Trace, runners: &mut Vec<Runner>, grant: Grant)
    requires room { 0 < trace.old.room }
    requires thread { HasRoomAt grant.thread runners.old.items }
    ensures trace { trace.new.items ≡ trace.old.items ++ take_of grant ∷ [] }
    ensures runners { runners.new.items ≡ advanced_at grant.thread runners.old.items }
    ensures room { trace.old.room ≤ trace.new.room + 1 }
{
    runners[grant.thread as usize].taken += 1;
    let Grant { thread, key, mode } = grant;
    trace.push_reserved(Event {
        thread,
        deed: Deed::Take { key, mode },
    });
}

/// A thread asks for the first key that it wants: it comes to hold it, or it waits. A thread that waits already goes on
/// waiting.
pub fn ask(
    trace: &mut Trace,
    runners: &mut Vec<Runner>,
    table: &mut Table,
    thread: u16,
) -> Result<Answer, AllocError>
    requires held { thread < length table.old.held }
    requires room { HasRoomAt thread runners.old.items }
    requires wishes { (r : Asker) → slice_get runners.old.items thread ≡ Some r
        → (g : Wish) × Wishes r g × (holds thread g.key table.old ≡ false) }
    requires kept { IsTableKept table.old }
    ensures ok { IfOk result (λ answer. (r : Asker) → slice_get runners.old.items thread ≡ Some r
        → (g : Wish) → Wishes r g
        → IsAsked answer thread g trace.old.items trace.new.items runners.old.items runners.new.items
        table.old table.new) }
    ensures err_trace { OnErr result (trace.new.items ≡ trace.old.items) }
    ensures err_runners { OnErr result (runners.new ≡ runners.old) }
    ensures err_table { OnErr result (table.new ≡ table.old) }
    ensures kept { IsTableKept table.new }
{
    if table.is_waiting(thread) {
        return Ok(Answer::Queued);
    }
    trace.reserve(1)?;
    let Grip { key, mode } = wish(&runners[thread as usize]);
    match table.admit(thread, key, mode)? {
        Answer::Granted => {
            take(trace, runners, Grant { thread, key, mode });
            Ok(Answer::Granted)
        }
        Answer::Queued => Ok(Answer::Queued),
    }
}

/// What the answer to a thread that asks makes of its turn.
pub fn turned_by(answer: Answer) -> Turned
    ensures { result ≡ turn_by answer }
{
    match answer {
        Answer::Granted => Turned::Moved(EventKind::Take),
        Answer::Queued => Turned::Waits,
    }
}
