//! Turns of threads that are there.

ghost use Rattle.std.specs.Prelude.{◌≡◌, ◌<◌, ◌↔◌, ◌++◌, IsTrue, IfOk, OnOk, OnErr};
ghost use Rattle.sect_world.specs.Worlds.{IsTurned};
ghost use Rattle.sect_run.specs.steps.Shares.{AreBelow, IsSameRun, threads_in};
ghost use Rattle.sect_run.specs.steps.Turns.{AreBrokenOff, AreTurns, IsBrokenOff, MayGoOn};

use crate::fault::RunFault;
use sect_world::{Turned, World, WorldFault, states_are_well_kept};

/// The turn of a thread. Those whom it lets in are threads of the program too.
pub fn turn_of(world: &mut World<'_>, thread: u16) -> Result<Turned, RunFault>
    requires { thread < threads_in world.old.compiled }
    ensures turned { IfOk result (λ turned. IsTurned thread turned world.old world.new) }
    ensures err { OnErr result (world.new ≡ world.old) }
    ensures same { IsSameRun world.old world.new }
    ensures granted { OnOk result (AreBelow (threads_in world.old.compiled) world.new.granted) }
{
    world.facts();
    states_are_well_kept();
    match world.turn(thread) {
        Ok(turned) => Ok(turned),
        Err(WorldFault::NoSuchThread(_)) => unreachable!(),
        Err(WorldFault::Memory) => Err(RunFault::Memory),
    }
}

/// The turn of a thread, and whom it lets in. Their numbers come behind those that stand in `woken`.
#[tactic(auto, using(crate::proofs::Turning::none_more))]
pub fn waking_turn_of(
    world: &mut World<'_>,
    thread: u16,
    woken: &mut Vec<u16>,
) -> Result<Turned, RunFault>
    requires { thread < threads_in world.old.compiled }
    ensures turned { IfOk result (λ turned. IsTurned thread turned world.old world.new) }
    ensures err { OnErr result (IsBrokenOff thread world.old world.new) }
    ensures same { IsSameRun world.old world.new }
    ensures woken { OnOk result (woken.new.items ≡ woken.old.items ++ world.new.granted) }
    ensures below { OnOk result (AreBelow (threads_in world.old.compiled) world.new.granted) }
{
    let turned = turn_of(world, thread)?;
    if !world.granted().is_empty() {
        woken.extend_from_slice(world.granted())?;
    }
    Ok(turned)
}

/// Whether a thread whose turn came to this may make another at once: it has moved.
fn may_go_on(turned: &Turned) -> bool
    ensures { IsTrue result ↔ MayGoOn turned.now }
{
    matches!(turned, Turned::Moved(_))
}

/// Turns of a thread, one at least and at most so many, until it can't move. The answer is what the last turn came to,
/// and the numbers of those whom they let in take the place of those that stood in `woken`.
pub fn waking_turns_of(
    world: &mut World<'_>,
    thread: u16,
    most: u16,
    woken: &mut Vec<u16>,
) -> Result<Turned, RunFault>
    requires { thread < threads_in world.old.compiled }
    ensures turned { IfOk result (λ turned. AreTurns thread most turned woken.new.items world.old world.new) }
    ensures err { OnErr result (AreBrokenOff thread most world.old world.new) }
    ensures same { IsSameRun world.old world.new }
    ensures below { OnOk result (AreBelow (threads_in world.old.compiled) woken.new.items) }
{
    woken.clear();
    let mut turned = waking_turn_of(world, thread, woken)?;
    for _made in 1..most {
        if !may_go_on(&turned) {
            break;
        }
        turned = waking_turn_of(world, thread, woken)?;
    }
    Ok(turned)
}
