//! A part of a store, on which statements run without the rest.

ghost use Rattle.std.specs.Prelude.{◌≡◌, ◌↔◌, IsTrue, map, OnOk, OnErr, IfOk, IfSome};
ghost use Rattle.sect_types.specs.Store.{StoreView, write as write_by};
ghost use Rattle.sect_store.specs.Parts.{Shows, ShowsAll, IsPartOf, IsSamePart, written, is_cell_of};
ghost use Rattle.sect_store.specs.Parts.{updated as cell_after, ComesTo, MayComeTo, left_in, left_paid};

use crate::store::Store;
use crate::value::{compute, integer};
use crate::work::Work;
use sect_types::{Action, Datum, Fault, ObjectName};
use std::alloc::{AllocError, Global};

/// A field of an object, by its number, and what it holds.
#[derive(Clone, Copy)]
pub struct Cell {
    pub name: ObjectName,
    pub field: u16,
    pub datum: Datum,
}

/// Some fields of a store after some writes, and these writes, in order.
#[derive(Drop)]
pub struct Part {
    pub cells: Vec<Cell>,
    pub writes: Vec<Cell>,
}

/// What a statement that is tried on a part of a store comes to.
#[derive(Clone, Copy)]
pub enum Tried {
    /// It is through.
    Went,
    /// It has come to a fault.
    Fell(Fault),
    /// It makes an object, or loads from a field that the part doesn't have. Nothing has changed.
    Beyond,
}

/// Whether a cell is that field of that object.
fn is_of(cell: Cell, name: ObjectName, field: u16) -> bool
    ensures { result ≡ is_cell_of name field cell }
{
    name == cell.name && field == cell.field
}

/// A cell once this is written to that field of that object.
fn updated(cell: Cell, name: ObjectName, field: u16, datum: Datum) -> Cell
    ensures { result ≡ cell_after name field datum cell }
{
    if is_of(cell, name, field) {
        Cell {
            name: cell.name,
            field: cell.field,
            datum,
        }
    } else {
        cell
    }
}

/// Writes to that field of that object, wherever it is among the cells.
fn update_all(cells: &mut Vec<Cell>, name: ObjectName, field: u16, datum: Datum)
    ensures { cells.new.items ≡ map (cell_after name field datum) cells.old.items }
{
    for cell in cells.iter_mut() {
        *cell = updated(*cell, name, field, datum);
    }
}

impl Part {
    /// What a field of an object holds, where the part has it.
    fn look(&self, name: ObjectName, field: u16) -> Option<Datum>
        ensures { IfSome result (λ datum. (s : StoreView) → ShowsAll s self.now.cells.items
            → Shows s (record { name = name; field = field; datum = datum })) }
    {
        for cell in self.cells.as_slice() {
            if is_of(*cell, name, field) {
                return Some(cell.datum);
            }
        }
        None
    }

    /// Writes to a field of an object.
    fn write(&mut self, name: ObjectName, field: u16, datum: Datum) -> Result<(), AllocError>
        ensures ok { OnOk result ((s : StoreView) → IsPartOf self.old s → IsPartOf self.new s
            × (written s self.new.writes.items ≡ write_by (written s self.old.writes.items) name field datum)) }
        ensures err { OnErr result (IsSamePart self.old self.new) }
    {
        self.writes.push(Cell { name, field, datum })?;
        update_all(&mut self.cells, name, field, datum);
        Ok(())
    }
}

/// Tries a statement on a part of a store, for a unit of fuel: what it does there, `act` does in each store of which
/// that is a part. Where memory is refused nothing has changed.
pub fn act_apart(action: &Action, work: &mut Work, part: &mut Part) -> Result<Tried, AllocError>
    ensures comes { IfOk result (ComesTo (left_in action.now work.old) work.old work.new part.old part.new) }
    ensures plain { IfOk result (MayComeTo action.now) }
    ensures refused { OnErr result ((work.new ≡ work.old) × IsSamePart part.old part.new) }
{
    if let Action::New(_, _, _) = action {
        return Ok(Tried::Beyond);
    }
    if !work.pay() {
        return Ok(Tried::Fell(Fault::Fuel));
    }
    match run_apart(action, work, part) {
        Ok(Tried::Went) => Ok(Tried::Went),
        Ok(Tried::Fell(fault)) => Ok(Tried::Fell(fault)),
        Ok(Tried::Beyond) => {
            work.give_back();
            Ok(Tried::Beyond)
        }
        Err(refused) => {
            work.give_back();
            Err(refused)
        }
    }
}

/// Tries a statement on a part of a store, where its unit of fuel has been paid.
fn run_apart(action: &Action, work: &mut Work, part: &mut Part) -> Result<Tried, AllocError>
    ensures comes { IfOk result (ComesTo (left_paid action.now work.old) work.old work.new part.old part.new) }
    ensures refused { OnErr result ((work.new ≡ work.old) × IsSamePart part.old part.new) }
{
    match action {
        Action::Assign(target, value) => {
            let datum = work.datum(value);
            work.assign(*target, datum);
        }
        Action::Compute(target, left, operator, right) => {
            let left = integer(work.datum(left));
            let right = integer(work.datum(right));
            let Some(number) = compute(*operator, left, right) else {
                return Ok(Tried::Fell(Fault::Overflow));
            };
            work.assign(*target, Datum::Number(number));
        }
        Action::New(_, _, _) => return Ok(Tried::Beyond),
        Action::Load(target, base, field) => {
            let Datum::Refers(name) = work.base(base) else {
                return Ok(Tried::Fell(Fault::Null));
            };
            let Some(datum) = part.look(name, field.number) else {
                return Ok(Tried::Beyond);
            };
            work.assign(*target, datum);
        }
        Action::Store(base, field, value) => {
            let Datum::Refers(name) = work.base(base) else {
                return Ok(Tried::Fell(Fault::Null));
            };
            part.write(name, field.number, work.datum(value))?;
        }
        Action::Print(value) => work.print(integer(work.datum(value)))?,
    }
    Ok(Tried::Went)
}

impl Store {
    /// Whether a field of an object is there and holds this.
    fn shows(&self, cell: Cell) -> bool
        ensures { IsTrue result ↔ Shows self.now cell }
    {
        match self.object(cell.name) {
            None => false,
            Some(object) => match object.fields().get(cell.field as usize) {
                None => false,
                Some(datum) => *datum == cell.datum,
            },
        }
    }

    /// Whether all of these fields are there and hold this.
    pub fn shows_all(&self, cells: &[Cell]) -> bool
        ensures { IsTrue result ↔ ShowsAll self.now cells.now }
    {
        for cell in cells {
            if !self.shows(*cell) {
                return false;
            }
        }
        true
    }

    /// Makes these writes, one after another.
    pub fn write_all(&mut self, writes: &[Cell])
        ensures { self.new ≡ written self.old writes.now }
    {
        for cell in writes {
            self.write(cell.name, cell.field, cell.datum);
        }
    }
}
