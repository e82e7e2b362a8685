//! What a worker does each time that it holds the run's lock.

ghost use Rattle.std.specs.Prelude.{◌≡◌, ◌<◌, Some, None, IfOk, IfSome, OnOk, OnErr};
ghost use Rattle.sect_world.specs.{Stretches.{IsStretchOf}, Sights.{first_wish}};
ghost use Rattle.sect_run.specs.steps.Shares.{AreBelow, IsSameRun, threads_in};
ghost use Rattle.sect_run.specs.steps.Turns.{IsVisited, IsVisitBrokenOff, MayBeAdded};

use crate::fault::RunFault;
use crate::gate::Awaited;
use crate::turn::waking_turns_of;
use sect_world::{Stretch, Turned, World, states_are_well_kept};

/// What a worker asks of a visit.
#[derive(Clone, Copy)]
pub struct Terms {
    /// How many turns are made at most.
    pub most: u16,
    /// Whether the worker takes a stretch along, if its thread can go on apart.
    pub takes: bool,
}

/// What a visit has come to.
#[derive(Clone, Copy)]
pub struct Visit {
    /// What its last turn has come to.
    pub turned: Turned,
    /// What the thread waits for, if its last turn has come to that.
    pub awaited: Option<Awaited>,
    /// Whether the stretch that was brought could not be added.
    pub was_stale: bool,
}

/// Adds the stretch that was brought, if there is one; whether it can't be added.
fn add_brought(
    world: &mut World<'_>,
    thread: u16,
    stretch: &mut Option<Stretch>,
) -> Result<bool, RunFault>
    requires thread { thread < threads_in world.old.compiled }
    requires stretch { IfSome stretch.old (IsStretchOf world.old.compiled thread) }
    ensures acts { MayBeAdded thread world.old world.new }
    ensures same { IsSameRun world.old world.new }
    ensures gone { stretch.new ≡ None }
{
    let Some(brought) = stretch.take() else {
        return Ok(false);
    };
    world.facts();
    states_are_well_kept();
    let fits = world.commit(thread, &brought)?;
    Ok(!fits)
}

/// A stretch that a thread's worker may take along, if there is one.
fn lend_stretch(world: &World<'_>, thread: u16) -> Result<Option<Stretch>, RunFault>
    requires { thread < threads_in world.now.compiled }
    ensures { IfOk result (λ lent. IfSome lent (IsStretchOf world.now.compiled thread)) }
{
    world.facts();
    states_are_well_kept();
    Ok(world.lend(thread)?)
}

/// What a thread waits for: the key that it wants first, if it wants one, and the section that it has entered.
fn awaited_by(world: &World<'_>, thread: u16) -> Option<Awaited>
    ensures { IfSome result (λ awaited. first_wish world.now.state thread ≡ Some awaited.grip) }
{
    let Some(grip) = world.first_wish(thread) else {
        return None;
    };
    world.facts();
    states_are_well_kept();
    let section = world.section_of(thread);
    Some(Awaited { section, grip })
}

/// What a thread waits for, where its turn has come to that.
fn awaited_at(world: &World<'_>, thread: u16, turned: Turned) -> Option<Awaited> {
    match turned {
        Turned::Waits => awaited_by(world, thread),
        Turned::Moved(_) | Turned::Ended => None,
    }
}

/// Adds the stretch that a thread's worker has brought, if there is one, and makes turns of the thread, one at least
/// and as many as may be at most, until it can't move. The numbers of those whom they let in take the place of those
/// that stood in `woken`. Then the worker gets a stretch to take along, if it asks for one and the thread can go on
/// apart.
pub fn make_visit(
    world: &mut World<'_>,
    thread: u16,
    terms: Terms,
    woken: &mut Vec<u16>,
    stretch: &mut Option<Stretch>,
) -> Result<Visit, RunFault>
    requires thread { thread < threads_in world.old.compiled }
    requires stretch { IfSome stretch.old (IsStretchOf world.old.compiled thread) }
    ensures visited { IfOk result (λ visit.
        IsVisited thread terms.most visit.turned woken.new.items world.old world.new) }
    ensures err { OnErr result (IsVisitBrokenOff thread terms.most world.old world.new) }
    ensures same { IsSameRun world.old world.new }
    ensures below { OnOk result (AreBelow (threads_in world.old.compiled) woken.new.items) }
    ensures stretch { IfSome stretch.new (IsStretchOf world.old.compiled thread) }
{
    let was_stale = add_brought(world, thread, stretch)?;
    let turned = waking_turns_of(world, thread, terms.most, woken)?;
    let awaited = awaited_at(world, thread, turned);
    if terms.takes {
        *stretch = lend_stretch(world, thread)?;
    }
    Ok(Visit {
        turned,
        awaited,
        was_stale,
    })
}
