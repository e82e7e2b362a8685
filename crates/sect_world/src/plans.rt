//! The plan of a lock set in a state.

ghost use Rattle.std.specs.Prelude.{◌≡◌, ◌≤◌, ◌+◌, ◌∷◌, [], ◌++◌, List, length, vec_len, vec_capacity, OnOk, OnErr};
ghost use Rattle.sect_emit.specs.declared.plan.Grip.{Grip};
ghost use Rattle.sect_emit.specs.Plan.{key_of as key_by, gathered, object_wishes};
ghost use Rattle.sect_world.specs.steps.Wishing.{wishes_in};

use crate::lookup::path_datum;
use sect_emit::{Grip, add_grip, object_mode};
use sect_modes::Key;
use sect_names::Lock;
use sect_store::{Store, Work};
use sect_types::{Datum, ObjectName};
use std::alloc::AllocError;

/// The key of an object.
pub fn key_of(name: ObjectName) -> Key
    ensures { result ≡ key_by name }
{
    match name {
        ObjectName::Global(global) => Key::Global(global),
        ObjectName::Made { thread, number } => Key::Made { thread, number },
    }
}

/// The object that a lock asks for in this state, and its mode, if it asks for one.
pub fn wish_of(store: &Store, work: &Work, lock: &Lock) -> Option<Grip>
    ensures { wishes_in result ≡ object_wishes store.now work.now.locals (lock.now ∷ []) }
{
    let Lock::Path(path, effect) = lock else {
        return None;
    };
    match path_datum(store, work, path) {
        Datum::Refers(name) => Some(Grip {
            key: key_of(name),
            mode: object_mode(*effect),
        }),
        Datum::Number(_) | Datum::Null => None,
    }
}

/// Adds the object that a lock asks for in this state, if it asks for one.
fn add_object(
    objects: &mut Vec<Grip>,
    store: &Store,
    work: &Work,
    lock: &Lock,
) -> Result<(), AllocError>
    ensures { OnOk result ((wishes : List Grip) → objects.old.items ≡ gathered wishes
        → objects.new.items ≡ gathered (object_wishes store.now work.now.locals (lock.now ∷ []) ++ wishes)) }
{
    match wish_of(store, work, lock) {
        None => Ok(()),
        Some(grip) => add_grip(objects, grip),
    }
}

/// Puts the objects that a lock set asks for in this state, each with its mode, in key order, in the place of what
/// stands in `objects`.
pub fn put_objects(
    objects: &mut Vec<Grip>,
    store: &Store,
    work: &Work,
    locks: &[Lock],
) -> Result<(), AllocError>
    ensures { OnOk result (objects.new.items ≡ gathered (object_wishes store.now work.now.locals locks.now)) }
{
    objects.clear();
    for place in (0..locks.len()).rev() {
        add_object(objects, store, work, &locks[place])?;
    }
    Ok(())
}

/// Adds these, for which there is room.
fn add_reserved(plan: &mut Vec<Grip>, grips: &[Grip])
    requires { vec_len plan.old + length grips.now ≤ vec_capacity plan.old }
    ensures items { plan.new.items ≡ plan.old.items ++ grips.now }
    ensures capacity { vec_capacity plan.new ≡ vec_capacity plan.old }
{
    for grip in grips {
        plan.push_reserved(*grip);
    }
}

/// Puts a fixed part and objects in the place of what stands in `plan`, mostly in the room that it has. Where memory is
/// refused the plan stays.
pub fn put_plan(plan: &mut Vec<Grip>, part: &[Grip], objects: &[Grip]) -> Result<(), AllocError>
    ensures ok { OnOk result (plan.new.items ≡ part.now ++ objects.now) }
    ensures err { OnErr result (plan.new ≡ plan.old) }
{
    let count = part.len() + objects.len();
    if plan.capacity() < count {
        *plan = Vec::with_capacity(*plan.allocator(), count)?;
    }
    plan.clear();
    add_reserved(plan, part);
    add_reserved(plan, objects);
    Ok(())
}
