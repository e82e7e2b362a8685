//! Worlds: whose they are, whom a turn lets in, what goes on apart from them, and what a run has come to.

ghost use Rattle.std.specs.Prelude.{◌≡◌, IfOk};
ghost use Rattle.sect_world.specs.Stretches.{IsStretchOf};

use crate::programs::TWO_ADDING;
use sect_emit::{Compiled, compile};
use sect_world::{EventKind, Stretch, Turned, World};
use std::process::Abort;
use std::test::Fail;

/// The turns of two threads that add to one object. The second waits for the object's key until the first leaves.
const TURNS: &[(u16, Turned)] = &[
    (0, Turned::Moved(EventKind::Enter)),
    (0, Turned::Moved(EventKind::Take)),
    (0, Turned::Moved(EventKind::Take)),
    (0, Turned::Moved(EventKind::Take)),
    (0, Turned::Moved(EventKind::Begin)),
    (1, Turned::Moved(EventKind::Enter)),
    (1, Turned::Moved(EventKind::Take)),
    (1, Turned::Moved(EventKind::Take)),
    (1, Turned::Waits),
    (0, Turned::Moved(EventKind::Act)),
    (0, Turned::Moved(EventKind::Act)),
    (0, Turned::Moved(EventKind::Act)),
];

/// What is left once the first thread has left.
const REST: &[(u16, Turned)] = &[
    (0, Turned::Ended),
    (1, Turned::Moved(EventKind::Begin)),
    (1, Turned::Moved(EventKind::Act)),
    (1, Turned::Moved(EventKind::Act)),
    (1, Turned::Moved(EventKind::Act)),
    (1, Turned::Moved(EventKind::Leave)),
];

/// The turns of the second thread, where the first hasn't made one.
const SECOND_ALONE: &[(u16, Turned)] = &[
    (1, Turned::Moved(EventKind::Enter)),
    (1, Turned::Moved(EventKind::Take)),
    (1, Turned::Moved(EventKind::Take)),
    (1, Turned::Moved(EventKind::Take)),
    (1, Turned::Moved(EventKind::Begin)),
    (1, Turned::Moved(EventKind::Act)),
    (1, Turned::Moved(EventKind::Act)),
    (1, Turned::Moved(EventKind::Act)),
    (1, Turned::Moved(EventKind::Leave)),
];

/// Each of these turns comes to what is wanted, lets nobody in, and leaves some thread that hasn't ended.
fn expect_turns(
    rt: &(impl AllocGlobal + Abort),
    world: &mut World<'_>,
    turns: &[(u16, Turned)],
) -> Result<(), Fail>
    ensures { world.new.compiled ≡ world.old.compiled }
{
    for (thread, wanted) in turns {
        assert!(rt; !world.all_ended());
        let turned = world.turn(*thread)?;
        assert_eq!(rt; turned, *wanted);
        assert!(rt; world.granted().is_empty());
    }
    Ok(())
}

#[test]
fn a_leave_grants_and_a_run_ends(rt: HostRuntime) -> Result<(), Fail> {
    let compiled = compile(rt.alloc(), TWO_ADDING, 2)?;
    let mut world = World::start(rt.alloc(), &compiled, 100)?;
    expect_turns(&rt, &mut world, TURNS)?;
    let left = world.turn(0)?;
    assert_eq!(rt; left, Turned::Moved(EventKind::Leave));
    assert!(rt; world.granted() == [1u16].as_slice());
    expect_turns(&rt, &mut world, REST)?;
    assert!(rt; world.all_ended());
    let run = world.finish();
    // All turns but that which waited and that of the ended thread made one event, and one made another's `take` too.
    assert_eq!(rt; run.events.len(), 18);
    Ok(())
}

#[test]
fn a_section_that_goes_on_apart_is_added(rt: HostRuntime) -> Result<(), Fail> {
    let compiled = compile(rt.alloc(), TWO_ADDING, 2)?;
    let mut world = World::start(rt.alloc(), &compiled, 100)?;
    expect_turns(&rt, &mut world, TURNS.get(..9).expect(&rt, "nine"))?;
    let stretch = taken_along(&rt, &world)?;
    expect_brought(&rt, &mut world, &stretch, (true, 11))?;
    let left = world.turn(0)?;
    assert_eq!(rt; left, Turned::Moved(EventKind::Leave));
    assert!(rt; world.granted() == [1u16].as_slice());
    expect_turns(&rt, &mut world, REST)
}

/// A world of this program in which thread 0 is in its section, ahead of thread 1.
fn begun<'a>(rt: &(impl AllocGlobal + Abort), compiled: &'a Compiled) -> Result<World<'a>, Fail>
    ensures { IfOk result (λ world. world.compiled ≡ compiled.now) }
{
    let mut world = World::start(rt.alloc(), compiled, 100)?;
    expect_turns(rt, &mut world, TURNS.get(..5).expect(rt, "five"))?;
    Ok(world)
}

/// A stretch of thread 0, gone on apart as far as it can.
fn taken_along(rt: &impl Abort, world: &World<'_>) -> Result<Stretch, Fail>
    ensures { IfOk result (IsStretchOf world.now.compiled 0) }
{
    assert!(rt; world.threads() > 0);
    let mut stretch = world.lend(0)?.expect(rt, "it goes on");
    stretch.run(world.compiled(), 100)?;
    Ok(stretch)
}

/// Thread 0 brings a stretch, which fits or doesn't, and there are so many events then.
fn expect_brought(
    rt: &impl Abort,
    world: &mut World<'_>,
    stretch: &Stretch,
    wanted: (bool, usize),
) -> Result<(), Fail>
    requires { IsStretchOf world.old.compiled 0 stretch.now }
    ensures { world.new.compiled ≡ world.old.compiled }
{
    assert!(rt; world.threads() > 0);
    let fits = world.commit(0, stretch)?;
    assert!(rt; (fits, world.trace().len()) == wanted);
    Ok(())
}

#[test]
fn a_stretch_is_added_once(rt: HostRuntime) -> Result<(), Fail> {
    let compiled = compile(rt.alloc(), TWO_ADDING, 2)?;
    let mut world = begun(&rt, &compiled)?;
    let stretch = taken_along(&rt, &world)?;
    expect_brought(&rt, &mut world, &stretch, (true, 8))?;
    // The thread no longer is where the stretch begins.
    expect_brought(&rt, &mut world, &stretch, (false, 8))
}

#[test]
fn a_stretch_is_refused_where_its_thread_has_gone_on(rt: HostRuntime) -> Result<(), Fail> {
    let compiled = compile(rt.alloc(), TWO_ADDING, 2)?;
    let mut world = begun(&rt, &compiled)?;
    let stretch = taken_along(&rt, &world)?;
    expect_turns(&rt, &mut world, &[(0, Turned::Moved(EventKind::Act))])?;
    expect_brought(&rt, &mut world, &stretch, (false, 6))
}

#[test]
fn a_stretch_is_refused_where_the_store_shows_something_else(rt: HostRuntime) -> Result<(), Fail> {
    let compiled = compile(rt.alloc(), TWO_ADDING, 2)?;
    let first = begun(&rt, &compiled)?;
    let stretch = taken_along(&rt, &first)?;
    // In this world thread 1 has added to the object before thread 0 begins.
    let mut second = World::start(rt.alloc(), &compiled, 100)?;
    expect_turns(&rt, &mut second, SECOND_ALONE)?;
    expect_turns(&rt, &mut second, TURNS.get(..5).expect(&rt, "five"))?;
    expect_brought(&rt, &mut second, &stretch, (false, 14))
}

/// A section on the object of a record that has a guard.
const GUARDED_LOOP: &[u8] =
    b"record Lock { } record Cell protected_by g { int val; } global Lock g; global Cell c; \
thread p { int i; int v; atomic { while (i < 3) { v = c.val; c.val = i; i = i + 1; } } }";

#[test]
fn a_stretch_goes_on_over_guarded_objects(rt: HostRuntime) -> Result<(), Fail> {
    let compiled = compile(rt.alloc(), GUARDED_LOOP, 2)?;
    let mut world = World::start(rt.alloc(), &compiled, 100)?;
    for _ in 0..8u8 {
        if world.turn(0)? == Turned::Moved(EventKind::Begin) {
            break;
        }
    }
    let stretch = taken_along(&rt, &world)?;
    // Four tests, and three statements three times.
    assert_eq!(rt; stretch.count(), 13);
    Ok(())
}

/// Whether a world at the start of this program with 100 units of fuel is one of the other with so many.
fn is_of(
    rt: &(impl AllocGlobal + Abort),
    compiled: &Compiled,
    other: &Compiled,
    fuel: u32,
) -> Result<bool, Fail> {
    let world = World::start(rt.alloc(), compiled, 100)?;
    Ok(world.is_of(other, fuel))
}

#[test]
fn worlds_are_of_one_program_and_fuel(rt: HostRuntime) -> Result<(), Fail> {
    let adding = compile(rt.alloc(), TWO_ADDING, 2)?;
    let again = compile(rt.alloc(), TWO_ADDING, 2)?;
    let shorter = compile(rt.alloc(), TWO_ADDING, 1)?;
    let other = compile(rt.alloc(), b"thread e { atomic { } }", 2)?;
    assert!(rt; is_of(&rt, &adding, &again, 100)?);
    assert!(rt; !is_of(&rt, &adding, &again, 99)?);
    assert!(rt; !is_of(&rt, &adding, &shorter, 100)?);
    assert!(rt; !is_of(&rt, &adding, &other, 100)?);
    Ok(())
}
