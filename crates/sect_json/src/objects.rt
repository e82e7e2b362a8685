//! Objects as JSON.

ghost use Rattle.std.specs.{Prelude.{◌≡◌, ◌++◌, IfOk, OnOk, map}, String.{string_bytes}};
ghost use Rattle.serde_json.specs.View.{view};
ghost use Rattle.sect_types.specs.Sight.{names_of_declared};
ghost use Rattle.sect_json.specs.{Values.{list}, Objects.{datum_json, field_json, object_json, objects_json, row_json}};

use sect_front::Declaration;
use sect_object::Members;
use sect_store::{Object, Printer, Store, put_global_name, put_object_name};
use sect_types::{Datum, Program};
use serde_json::Value;
use std::alloc::{AllocError, Global};
use std::fmt::Write;

/// All objects, in the order of keys: the globals, then by thread what it made.
pub fn objects_value(
    alloc: Global,
    printer: &Printer<'_>,
    store: &Store,
) -> Result<Value, AllocError>
    ensures { IfOk result (λ v. view v ≡ list (objects_json printer.now store.now)) }
{
    let mut values = Vec::new(alloc);
    for (global, object) in store.globals().iter().enumerate() {
        let mut name = String::new(alloc);
        put_global_name(&mut name, printer.program(), global)?;
        values.push(object_value(alloc, printer, name, object)?)?;
    }
    for (thread, row) in store.made().iter().enumerate() {
        push_row(alloc, &mut values, printer, thread, row.as_slice())?;
    }
    Ok(Value::Array(values))
}

/// Adds the objects that a thread made.
fn push_row(
    alloc: Global,
    values: &mut Vec<Value>,
    printer: &Printer<'_>,
    thread: usize,
    row: &[Object],
) -> Result<(), AllocError>
    ensures { OnOk result (map view values.new.items
        ≡ map view values.old.items ++ row_json printer.now thread row.now) }
{
    for (number, object) in row.iter().enumerate() {
        let name = format!(in alloc; "{thread}#{number}")?;
        values.push(object_value(alloc, printer, name, object)?)?;
    }
    Ok(())
}

/// An object of this name.
fn object_value(
    alloc: Global,
    printer: &Printer<'_>,
    name: String,
    object: &Object,
) -> Result<Value, AllocError>
    ensures { IfOk result (λ v. view v ≡ object_json printer.now (string_bytes name) object.now) }
{
    let declared = printer.fields(object.site());
    let mut fields = Vec::new(alloc);
    for (number, datum) in object.fields().iter().enumerate() {
        fields.push(field_value(alloc, printer.program(), declared, number, *datum)?)?;
    }
    let members = Members::new(alloc)
        .with("fields", fields)?
        .with("name", name)?;
    Ok(members.object())
}

/// A field of an object whose record declares these.
fn field_value(
    alloc: Global,
    program: &Program,
    declared: &[Declaration],
    number: usize,
    datum: Datum,
) -> Result<Value, AllocError>
    ensures { IfOk result (λ v. view v
        ≡ field_json program.now (names_of_declared declared.now) number datum) }
{
    let mut name = String::new(alloc);
    if let Some(field) = declared.get(number) {
        write!(name, "{}", field.name)?;
    }
    let members = Members::new(alloc)
        .with("name", name)?
        .with_made("value", datum_value(alloc, program, datum))?;
    Ok(members.object())
}

/// What a field or a local holds.
pub fn datum_value(alloc: Global, program: &Program, datum: Datum) -> Result<Value, AllocError>
    ensures { IfOk result (λ v. view v ≡ datum_json program.now datum) }
{
    match datum {
        Datum::Number(number) => Ok(Value::from(number)),
        Datum::Null => Ok(Value::Null),
        Datum::Refers(object) => {
            let mut name = String::new(alloc);
            put_object_name(&mut name, program, object)?;
            Ok(Value::String(name))
        }
    }
}
