//! Turns, with what is kept of those before.

ghost use Rattle.std.specs.Prelude.{◌≡◌, ◌<◌, ◌↔◌, IfOk, OnOk, IfErr, IfSome, IsSome, IsTrue, IsOkUnless, length};
ghost use Rattle.sect_types.specs.Whole.{SerialEndView, RunsWhole};
ghost use Rattle.sect_emit.specs.Compiled.{program_of};
ghost use Rattle.sect_world.specs.{Schedules.{IsUnrun}, Worlds.{IsRefused}};
ghost use Rattle.sect_draw.specs.Chart.{TurnView, AreRan, AreRanInOrder, nothing_noted};
ghost use Rattle.sect_world.specs.declared.turned.WorldFault.TheVariants.{Memory};
ghost use Rattle.sect_draw.specs.{Placing.{AreThere}, steps.Turning.{GoesOn, IsCharted, IsMade, kept_shown}};
ghost use Rattle.sect_draw.specs.steps.Resting.{GoesThrough, IsLast, IsResting};

use crate::faults::{none_ran, note_ran};
use crate::waits::note_turn;
use sect_emit::Compiled;
use sect_world::{Event, EventKind, Standing, Turned, World, WorldFault, states_are_well_kept};
use std::alloc::{AllocError, Global};

/// What is kept of the turns before: who waits, in the order in which they began to, and where each thread stood that
/// has run something before it ran the last.
#[derive(Drop)]
pub struct Kept {
    pub waiting: Vec<u16>,
    pub ran: Vec<Option<Standing>>,
}

/// A turn: what it has come to, its events, where its thread stood before it, and how many numbers had been delivered.
#[derive(Drop)]
pub struct Made {
    pub turned: Turned,
    pub events: Vec<Event>,
    pub stood: Standing,
    pub delivered: usize,
}

/// What is kept before the first turn.
pub fn nothing_kept(alloc: Global, world: &World<'_>) -> Result<Kept, AllocError>
    ensures noted { IfOk result (λ kept. kept_shown kept
        ≡ nothing_noted (length (program_of world.now.compiled).texts)) }
    ensures there { IfOk result (λ kept. AreThere world.now.compiled kept.ran.items) }
{
    Ok(Kept {
        waiting: Vec::new(alloc),
        ran: none_ran(alloc, world.thread_count() as usize)?,
    })
}

/// The turn of a thread.
pub fn noted_turn(
    alloc: Global,
    world: &mut World<'_>,
    kept: &mut Kept,
    thread: u16,
) -> Result<Made, WorldFault>
    requires { AreThere world.old.compiled kept.old.ran.items }
    ensures noted { IfOk result (λ made. (x : TurnView) × IsMade made world.old.state x
        × IsCharted thread world.old world.new (kept_shown kept.old) (kept_shown kept.new) x) }
    ensures there { OnOk result (AreThere world.new.compiled kept.new.ran.items) }
    ensures within { OnOk result (thread < length (program_of world.old.compiled).texts) }
    ensures refused { IfErr result (λ fault.
        IsRefused fault thread (length (program_of world.old.compiled).texts)) }
{
    if thread >= world.thread_count() {
        return Err(WorldFault::NoSuchThread(thread));
    }
    let stood = world.standing(thread);
    let (events, delivered) = (world.trace().len(), world.output().len());
    match world.turn(thread) {
        Ok(turned) => {
            note_turn(&mut kept.waiting, thread, turned, world.granted())?;
            let made = world.trace().since(alloc, events)?;
            note_ran(&mut kept.ran, thread, stood, made.as_slice());
            Ok(Made {
                turned,
                events: made,
                stood,
                delivered,
            })
        }
        Err(fault) => Err(fault),
    }
}

/// Where each thread stood that has run something before it ran the last, after the turns of these threads from the
/// start of a compiled program.
pub fn ran_in_turns(
    alloc: Global,
    compiled: &Compiled,
    fuel: u32,
    schedule: &[u16],
) -> Result<Vec<Option<Standing>>, WorldFault>
    ensures answers { IfOk result (λ ran. AreRan compiled.now fuel schedule.now ran.items) }
    ensures there { IfOk result (λ ran. AreThere compiled.now ran.items) }
    ensures refuses { IfErr result (λ why.
        IsUnrun why schedule.now (length (program_of compiled.now).texts)) }
{
    let mut world = World::start(alloc, compiled, fuel)?;
    let mut kept = nothing_kept(alloc, &world)?;
    for thread in schedule {
        match noted_turn(alloc, &mut world, &mut kept, *thread) {
            Ok(_) => {}
            Err(fault) => return Err(fault),
        }
    }
    Ok(kept.ran)
}

/// Whether a thread is to make no turn behind this one: it has left a section, waits or has ended.
fn is_last(turned: Turned) -> bool
    ensures { IsTrue result ↔ IsLast turned }
{
    match turned {
        Turned::Moved(kind) => kind == EventKind::Leave,
        Turned::Waits | Turned::Ended => true,
    }
}

/// Makes turns of a thread until it leaves a section or has ended, while all others stand outside: so it never waits.
fn run_on(
    alloc: Global,
    world: &mut World<'_>,
    kept: &mut Kept,
    thread: u16,
) -> Result<(), WorldFault>
    requires rests { IsResting world.old.state }
    requires there { AreThere world.old.compiled kept.old.ran.items }
    ensures led { OnOk result (GoesOn world.old (kept_shown kept.old) world.new (kept_shown kept.new)) }
    ensures through { OnOk result (GoesThrough thread world.old world.new) }
    ensures there { OnOk result (AreThere world.new.compiled kept.new.ran.items) }
    ensures within { OnOk result (thread < length (program_of world.old.compiled).texts) }
    ensures refused { IfErr result (λ fault.
        IsRefused fault thread (length (program_of world.old.compiled).texts)) }
{
    states_are_well_kept();
    'turns: loop {
        world.facts();
        let made = match noted_turn(alloc, world, kept, thread) {
            Ok(made) => made,
            Err(fault) => return Err(fault),
        };
        if is_last(made.turned) {
            return Ok(());
        }
    }
}

/// Where each thread stood that has run something before it ran the last, in a run that comes to its end, in which
/// these threads leave a section each, in this order, one after another; none where there is no such run.
pub fn ran_in_order(
    alloc: Global,
    compiled: &Compiled,
    fuel: u32,
    order: &[u16],
) -> Result<Option<Vec<Option<Standing>>>, WorldFault>
    // It is such a run.
    ensures answers { IfOk result (λ found. IfSome found (λ ran.
        AreRanInOrder compiled.now fuel order.now ran.items × AreThere compiled.now ran.items)) }
    // Where whole sections of these threads, one after another, come to an end, a run is found, unless memory runs out.
    ensures found { (end : SerialEndView) → RunsWhole (program_of compiled.now) fuel order.now end
        → IfOk result (λ found. IsSome found) × IsOkUnless result Memory }
    // Else the first of the order that is no thread is named, or memory has run out.
    ensures refuses { IfErr result (λ why.
        IsUnrun why order.now (length (program_of compiled.now).texts)) }
{
    states_are_well_kept();
    let mut world = World::start(alloc, compiled, fuel)?;
    let mut kept = nothing_kept(alloc, &world)?;
    for thread in order {
        world.facts();
        run_on(alloc, &mut world, &mut kept, *thread)?;
    }
    for thread in 0..world.thread_count() {
        run_on(alloc, &mut world, &mut kept, thread)?;
    }
    world.facts();
    if world.all_ended() && world.order() == order {
        Ok(Some(kept.ran))
    } else {
        Ok(None)
    }
}
