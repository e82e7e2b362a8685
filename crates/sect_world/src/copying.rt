//! What a thread that goes on apart from its world copies of the store.

use crate::runner::Runner;
use sect_emit::{Compiled, Grip};
use sect_front::Items;
use sect_modes::{Key, Mode, at_least};
use sect_store::{Cell, Object, Store};
use sect_types::{Datum, ObjectName, ValueType};
use std::alloc::AllocError;

/// The most objects that a thread copies.
const MOST_OBJECTS: usize = 64;

/// An object that a thread comes to, and the number of its record, if that is known. Who comes to an object by the
/// object's own key needn't know it: an object of a record that has a guard is locked by the guard's key alone.
#[derive(Clone, Copy)]
struct Found {
    name: ObjectName,
    of: Option<u16>,
}

/// Whether a key, held in a mode, is enough to read the object of this name and class, of a record without a guard.
fn is_enough(grip: Grip, name: ObjectName, class: Option<u16>) -> bool {
    match grip.key {
        Key::All => grip.mode == Mode::Exclusive,
        Key::Class(number) => class == Some(number) && at_least(grip.mode, Mode::Shared),
        Key::Global(global) => name == ObjectName::Global(global),
        Key::Made { thread, number } => name == ObjectName::Made { thread, number },
    }
}

/// The global that guards the record of an object, if one does.
fn guard_of(compiled: &Compiled, found: Found) -> Option<u16> {
    compiled.scheme().guards().guard(found.of?)
}

/// Whether who holds these keys may read an object: it, or what guards its record, is locked.
fn may_read(compiled: &Compiled, held: &[Grip], found: Found, object: &Object) -> bool {
    let (name, site) = match guard_of(compiled, found) {
        None => (found.name, object.site()),
        Some(guard) => (ObjectName::Global(guard), guard),
    };
    let numbers = compiled.scheme().classes().numbers();
    let class = numbers.get(site as usize).copied();
    held.iter().any(|grip| is_enough(*grip, name, class))
}

/// Adds an object, unless it is there.
fn put_found(all: &mut Vec<Found>, found: Found) -> Result<(), AllocError> {
    if !all.iter().any(|known| known.name == found.name) {
        all.push(found)?;
    }
    Ok(())
}

/// The record of the objects to which a field or a local of this type refers, if it is known.
fn record_of(types: Option<&Items<ValueType>>, place: usize) -> Option<u16> {
    match types?.as_slice().get(place) {
        Some(ValueType::Refers(of)) => Some(*of),
        Some(ValueType::Int) => None,
        None => None,
    }
}

/// Adds the objects to which data refer, where these types are known of them.
fn put_referred(
    all: &mut Vec<Found>,
    data: &[Datum],
    types: Option<&Items<ValueType>>,
) -> Result<(), AllocError> {
    for place in 0..data.len() {
        if let Datum::Refers(name) = data[place] {
            let of = record_of(types, place);
            put_found(all, Found { name, of })?;
        }
    }
    Ok(())
}

/// Adds the objects whose keys these are.
fn put_keys(all: &mut Vec<Found>, globals: &[u16], grips: &[Grip]) -> Result<(), AllocError> {
    for grip in grips {
        match grip.key {
            Key::Global(global) => {
                let name = ObjectName::Global(global);
                let of = globals.get(global as usize).copied();
                put_found(all, Found { name, of })?;
            }
            Key::Made { thread, number } => {
                let name = ObjectName::Made { thread, number };
                put_found(all, Found { name, of: None })?;
            }
            Key::All | Key::Class(_) => {}
        }
    }
    Ok(())
}

/// Adds what the fields of an object hold.
fn put_cells(cells: &mut Vec<Cell>, name: ObjectName, fields: &[Datum]) -> Result<(), AllocError> {
    for field in 0..u16::MAX {
        let Some(datum) = fields.get(field as usize) else {
            break;
        };
        let datum = *datum;
        cells.push(Cell { name, field, datum })?;
    }
    Ok(())
}

/// Whether the record of this number is guarded by a global whose key is among these.
fn is_guarded_by(compiled: &Compiled, held: &[Grip], of: u16) -> bool {
    match compiled.scheme().guards().guard(of) {
        None => false,
        Some(guard) => held.iter().any(|grip| grip.key == Key::Global(guard)),
    }
}

/// Adds the globals of records that are guarded by the keys that are held: the section may name them, and has no key of
/// theirs.
fn put_guarded(all: &mut Vec<Found>, compiled: &Compiled, held: &[Grip]) -> Result<(), AllocError> {
    let globals = compiled.scheme().program().globals();
    for global in 0..u16::MAX {
        let Some(of) = globals.get(global as usize) else {
            break;
        };
        let of = *of;
        if all.len() < MOST_OBJECTS && is_guarded_by(compiled, held, of) {
            let name = ObjectName::Global(global);
            put_found(all, Found { name, of: Some(of) })?;
        }
    }
    Ok(())
}

/// The types of the fields of an object's record, if that is known.
fn types_of(compiled: &Compiled, of: Option<u16>) -> Option<&Items<ValueType>> {
    compiled.scheme().program().records().get(of? as usize)
}

/// What the fields of the objects hold that a thread with this plan may read and that it comes to first: those of its
/// keys, globals that these guard, those to which its locals refer, and those to which these refer, and so on.
pub fn copied(
    compiled: &Compiled,
    thread: u16,
    runner: &Runner,
    store: &Store,
) -> Result<Vec<Cell>, AllocError> {
    let alloc = *runner.wanted.allocator();
    let program = compiled.scheme().program();
    let mut all = Vec::new(alloc);
    put_keys(&mut all, program.globals(), runner.wanted.as_slice())?;
    put_guarded(&mut all, compiled, runner.wanted.as_slice())?;
    put_referred(
        &mut all,
        runner.work.locals(),
        program.locals().get(thread as usize),
    )?;
    let mut cells = Vec::new(alloc);
    for at in 0..MOST_OBJECTS {
        let Some(found) = all.get(at) else {
            break;
        };
        let found = *found;
        if let Some(object) = store.object(found.name) {
            if may_read(compiled, runner.wanted.as_slice(), found, object) {
                put_cells(&mut cells, found.name, object.fields())?;
                put_referred(&mut all, object.fields(), types_of(compiled, found.of))?;
            }
        }
    }
    Ok(cells)
}
