//! Runs by schedule.

ghost use Rattle.std.specs.Prelude.{◌<◌, ℕ, length, IfOk, OnOk, IfErr};
ghost use Rattle.sect_lemmas.specs.Lists.{Has};
ghost use Rattle.sect_emit.specs.Compiled.{program_of};
ghost use Rattle.sect_world.specs.{Schedules.{IsProgress, IsUnrun}, Worlds.{IsRefused}};
ghost use Rattle.sect_world.specs.steps.Counting.{IsCounted};

use crate::turned::WorldFault;
use crate::world::{Run, World};
use sect_emit::Compiled;
use std::alloc::Global;

/// How far a schedule has come: the run, and how many of its events each turn made.
#[derive(Drop)]
pub struct Progress {
    pub run: Run,
    pub made: Vec<usize>,
}

/// The turn of a thread: how many events it made.
fn counted_turn(world: &mut World<'_>, thread: u16) -> Result<usize, WorldFault>
    ensures counted { IfOk result (λ n. IsCounted thread n world.old world.new) }
    ensures within { OnOk result (thread < length (program_of world.old.compiled).texts) }
    ensures refused { IfErr result (λ fault.
        IsRefused fault thread (length (program_of world.old.compiled).texts)) }
{
    world.facts();
    let before = world.trace().len();
    match world.turn(thread) {
        Ok(_) => Ok(world.trace().len() - before),
        Err(fault) => Err(fault),
    }
}

/// Runs a compiled program from its start by the turns of these threads, one after another. Refused where one of the
/// numbers is no thread's, and for want of memory.
pub fn run_schedule(
    alloc: Global,
    compiled: &Compiled,
    fuel: u32,
    schedule: &[u16],
) -> Result<Progress, WorldFault>
    ensures ok { IfOk result (IsProgress compiled.now fuel schedule.now) }
    ensures within { OnOk result ((t : ℕ) → Has schedule.now t → t < length (program_of compiled.now).texts) }
    ensures refused { IfErr result (λ fault.
        IsUnrun fault schedule.now (length (program_of compiled.now).texts)) }
{
    let mut world = World::start(alloc, compiled, fuel)?;
    let mut made = Vec::with_capacity(alloc, schedule.len())?;
    for thread in schedule {
        match counted_turn(&mut world, *thread) {
            Ok(count) => made.push_reserved(count),
            Err(fault) => return Err(fault),
        }
    }
    world.facts();
    Ok(Progress {
        run: world.finish(),
        made,
    })
}
