//! What a turn changes of the objects, as JSON.

ghost use Rattle.std.specs.Prelude.{◌≡◌, ◌<◌, ℕ, [], ◌∷◌, Some, IfOk, length, map, slice_index_or};
ghost use Rattle.serde_json.specs.View.{view};
ghost use Rattle.sect_types.specs.Meaning.{WorkView, Added, first_datum, fresh, name_in, stored};
ghost use Rattle.sect_types.specs.{Programs.{ProgramView}, Sight.{names_of_declared}};
ghost use Rattle.sect_types.specs.Store.{StoreView, object_at, same_datum};
ghost use Rattle.sect_types.specs.declared.meaning.store.ObjectName.TheVariants.{Made};
ghost use Rattle.sect_store.specs.Printing.{fields_at};
ghost use Rattle.sect_emit.specs.{Compiled.{program_of}, Graphed.{IsThere}};
ghost use Rattle.sect_world.specs.{Sights.{work_of}, Standings.{IsStandingThere}};
ghost use Rattle.sect_json.specs.Values.{by_place};
ghost use Rattle.sect_json.specs.Changes.{placed_json, written_json, changes_json, next_change};
ghost use Rattle.sect_json.specs.steps.Changing.{IsNextAction, node_action, standing_action, action_change};
ghost use Rattle.sect_json.specs.steps.Changing.{came_change, change_shown};

use crate::objects::datum_value;
use sect_emit::{Compiled, GraphOf, graphed_flow};
use sect_front::Declaration;
use sect_object::Members;
use sect_store::{Printer, Store, Work, put_object_name};
use sect_types::{Action, Datum, Label, ObjectName, Program, ValueType};
use sect_world::{Standing, World};
use serde_json::Value;
use std::alloc::{AllocError, Global};
use std::fmt::Write;

/// The fields that the next turn of a thread changes, and what they hold afterwards.
pub fn changed_values(
    alloc: Global,
    printer: &Printer<'_>,
    world: &World<'_>,
    thread: u16,
) -> Result<Vec<Value>, AllocError>
    requires printer { printer.now ≡ program_of world.now.compiled }
    requires thread { thread < length world.now.state.threads }
    ensures { IfOk result (λ values. map view values.items ≡ changes_json (program_of world.now.compiled)
        world.now.state.store thread (work_of world.now.state thread).made
        (next_change world.now.compiled world.now.state thread)) }
{
    let action = next_action(world, thread);
    let by = Actor {
        printer,
        store: world.store(),
        work: world.work(thread),
        thread,
    };
    action_values(alloc, &by, action)
}

/// The statement that a thread in a section runs next.
fn next_action(world: &World<'_>, thread: u16) -> Option<Action>
    requires { thread < length world.now.state.threads }
    ensures { IsNextAction world.now.compiled world.now.state thread result }
{
    world.facts();
    let standing = world.standing(thread);
    action_at(world.compiled(), standing)
}

/// The statement of a section at which a thread stands.
fn action_at(compiled: &Compiled, standing: Standing) -> Option<Action>
    requires { IsStandingThere compiled.now standing }
    ensures { result ≡ standing_action compiled.now standing }
{
    match standing {
        Standing::At(GraphOf::Section(section), node) => {
            action_of(compiled, GraphOf::Section(section), node)
        }
        Standing::At(GraphOf::Thread(_), _) => None,
        Standing::Broken(_) => None,
    }
}

/// The statement of a node.
fn action_of(compiled: &Compiled, of: GraphOf, node: u16) -> Option<Action>
    requires { IsThere compiled.now of }
    ensures { result ≡ node_action compiled.now of node }
{
    let flow = graphed_flow(compiled, of);
    if node >= flow.exit() {
        return None;
    }
    match flow.action(node) {
        Label::Act(action) => Some(action),
        Label::Test(_) => None,
        Label::Section(_) => None,
    }
}

/// A thread that runs a statement of its section: the store before that, what the thread works with, and its number.
#[derive(Clone, Copy)]
struct Actor<'a> {
    printer: &'a Printer<'a>,
    store: &'a Store,
    work: &'a Work,
    thread: u16,
}

/// What a statement does to the store.
#[derive(Clone, Copy)]
enum Change {
    Nothing,
    /// It writes this to the field of this number.
    Written(ObjectName, u16, Datum),
    /// It makes an object of the record of the first number, at the site of the second.
    Made(u16, u16),
}

/// The fields that a statement changes.
fn action_values(
    alloc: Global,
    by: &Actor<'_>,
    action: Option<Action>,
) -> Result<Vec<Value>, AllocError>
    ensures { IfOk result (λ values. map view values.items ≡ changes_json by.now.printer.now by.now.store.now
        by.now.thread by.now.work.now.made
        (action_change by.now.printer.now by.now.thread by.now.store.now by.now.work.now action)) }
{
    match change_of(by.work, action) {
        Change::Nothing => Ok(Vec::new(alloc)),
        Change::Written(object, number, datum) => {
            written_values(alloc, by, object, number, datum)
        }
        Change::Made(shape, site) => new_values(alloc, by, shape, site),
    }
}

/// What a statement does to the store, if there is one.
fn change_of(work: &Work, action: Option<Action>) -> Change
    ensures { (p : ProgramView) (t : ℕ) (s : StoreView)
        → change_shown p result ≡ action_change p t s work.now action }
{
    match action {
        None => Change::Nothing,
        Some(action) => {
            if work.fuel() == 0 {
                return Change::Nothing;
            }
            change_by(work, action)
        }
    }
}

/// What a statement does to the store for which fuel is left.
fn change_by(work: &Work, action: Action) -> Change
    requires { 0 < work.now.fuel }
    ensures { (p : ProgramView) (t : ℕ) (s : StoreView)
        → change_shown p result ≡ action_change p t s work.now (Some action) }
{
    match action {
        Action::Assign(_, _) => Change::Nothing,
        Action::Compute(_, _, _, _) => Change::Nothing,
        Action::New(_, shape, site) => Change::Made(shape, site),
        Action::Load(_, _, _) => Change::Nothing,
        Action::Store(base, field, value) => {
            write_of(work.base(&base), field.number, work.datum(&value))
        }
        Action::Print(_) => Change::Nothing,
    }
}

/// What a write to a field of what this refers to does.
fn write_of(to: Datum, number: u16, datum: Datum) -> Change
    ensures { (p : ProgramView) (w : WorkView)
        → change_shown p result ≡ came_change (stored number datum (name_in to) w) }
{
    match to {
        Datum::Number(_) => Change::Nothing,
        Datum::Null => Change::Nothing,
        Datum::Refers(object) => Change::Written(object, number, datum),
    }
}

/// A field of an object, and what it holds.
#[derive(Clone, Copy)]
struct Filled {
    object: ObjectName,
    number: usize,
    datum: Datum,
}

/// The field to which this is written, unless it holds that already.
fn written_values(
    alloc: Global,
    by: &Actor<'_>,
    object: ObjectName,
    number: u16,
    datum: Datum,
) -> Result<Vec<Value>, AllocError>
    ensures { IfOk result (λ values. map view values.items
        ≡ written_json by.now.printer.now object number datum (object_at by.now.store.now object)) }
{
    match by.store.object(object) {
        None => Ok(Vec::new(alloc)),
        Some(found) => {
            let filled = Filled {
                object,
                number: number as usize,
                datum,
            };
            if same(found.field(number), datum) {
                Ok(Vec::new(alloc))
            } else {
                one_value(alloc, by, found.site(), filled)
            }
        }
    }
}

/// Whether the two are one.
fn same(left: Datum, right: Datum) -> bool
    ensures { result ≡ same_datum left right }
{
    left == right
}

/// A field of an object that was made at a site.
fn one_value(
    alloc: Global,
    by: &Actor<'_>,
    site: u16,
    filled: Filled,
) -> Result<Vec<Value>, AllocError>
    ensures { IfOk result (λ values. map view values.items
        ≡ placed_json by.now.printer.now filled.object (fields_at by.now.printer.now site) filled.number filled.datum
        ∷ []) }
{
    let mut values = Vec::new(alloc);
    let declared = by.printer.fields(site);
    values.push(filled_value(alloc, by.printer.program(), declared, filled)?)?;
    Ok(values)
}

/// The fields of an object that is made of a record, at a site.
fn new_values(
    alloc: Global,
    by: &Actor<'_>,
    shape: u16,
    site: u16,
) -> Result<Vec<Value>, AllocError>
    ensures { IfOk result (λ values. map view values.items
        ≡ changes_json by.now.printer.now by.now.store.now by.now.thread by.now.work.now.made
        (Added (fresh site (slice_index_or by.now.printer.now.records shape [])))) }
{
    match by.printer.program().records().get(shape as usize) {
        None => Ok(Vec::new(alloc)),
        Some(types) => first_values(alloc, by, site, types.as_slice()),
    }
}

/// The fields of an object that is made at a site, which are of these types.
fn first_values(
    alloc: Global,
    by: &Actor<'_>,
    site: u16,
    types: &[ValueType],
) -> Result<Vec<Value>, AllocError>
    ensures { IfOk result (λ values. map view values.items
        ≡ by_place (placed_json by.now.printer.now (Made by.now.thread by.now.work.now.made)
        (fields_at by.now.printer.now site)) 0 (map first_datum types.now)) }
{
    let object = ObjectName::Made {
        thread: by.thread,
        number: by.work.made(),
    };
    let declared = by.printer.fields(site);
    let mut values = Vec::new(alloc);
    for (number, of) in types.iter().enumerate() {
        let datum = first(*of);
        let filled = Filled {
            object,
            number,
            datum,
        };
        values.push(filled_value(alloc, by.printer.program(), declared, filled)?)?;
    }
    Ok(values)
}

/// What a fresh field holds.
fn first(of: ValueType) -> Datum
    ensures { result ≡ first_datum of }
{
    match of {
        ValueType::Int => Datum::Number(0),
        ValueType::Refers(_) => Datum::Null,
    }
}

/// A field of an object whose record declares these.
fn filled_value(
    alloc: Global,
    program: &Program,
    declared: &[Declaration],
    filled: Filled,
) -> Result<Value, AllocError>
    ensures { IfOk result (λ v. view v ≡ placed_json program.now filled.object (names_of_declared declared.now)
        filled.number filled.datum) }
{
    let mut name = String::new(alloc);
    if let Some(field) = declared.get(filled.number) {
        write!(name, "{}", field.name)?;
    }
    let mut object = String::new(alloc);
    put_object_name(&mut object, program, filled.object)?;
    let members = Members::new(alloc)
        .with("name", name)?
        .with("object", object)?
        .with_made("value", datum_value(alloc, program, filled.datum))?;
    Ok(members.object())
}
