//! What no worker has done.

ghost use Rattle.std.specs.Prelude.{◌≡◌, OnOk};
ghost use Rattle.sect_run.specs.steps.Shares.{IsSameRun};
ghost use Rattle.sect_world.specs.Worlds.{AllEnded};

use crate::fault::RunFault;
use crate::gate::{Gate, Passage};
use crate::turn::turn_of;
use sect_emit::Compiled;
use sect_world::{Turned, World};
use std::sync::Wait;

/// A turn of each thread.
fn make_round<G: Gate>(
    passage: &Passage<'_, G>,
    compiled: &Compiled,
    world: &mut World<'_>,
) -> Result<(), RunFault>
    requires { world.old.compiled ≡ compiled.now }
    ensures { IsSameRun world.old world.new }
{
    for thread in 0..compiled.scheme().program().thread_count() {
        match turn_of(world, thread)? {
            Turned::Moved(kind) => passage.tell(thread, kind),
            Turned::Waits | Turned::Ended => {}
        }
    }
    Ok(())
}

/// Turns of all threads until all have ended.
pub fn run_rest<R: Wait, G: Gate>(
    rt: &R,
    passage: &Passage<'_, G>,
    compiled: &Compiled,
    world: &mut World<'_>,
) -> Result<(), RunFault>
    requires { world.old.compiled ≡ compiled.now }
    ensures same { IsSameRun world.old world.new }
    ensures ended { OnOk result (AllEnded world.new.state) }
{
    for _ in rt.forever() {
        if world.all_ended() {
            return Ok(());
        }
        make_round(passage, compiled, world)?;
    }
    unreachable!()
}
