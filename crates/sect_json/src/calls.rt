//! Procedures and calls as JSON.

ghost use Rattle.std.specs.Prelude.{◌≡◌, ◌<◌, ◌∷◌, ◌++◌, IfOk, IfSome, OnOk, length, map, position};
ghost use Rattle.serde_json.specs.View.{view};
ghost use Rattle.sect_json.specs.Values.{by_place};
ghost use Rattle.sect_json.specs.Calls.{procedure_json, thread_item as thread_by, from_item, calls_within, call_json};
ghost use Rattle.sect_json.specs.Calls.{calls_json};
ghost use Rattle.sect_places.specs.Declarations.{is_called, is_thread};
ghost use Rattle.sect_lint.specs.Calls.{procedure_item as procedure_by};
ghost use Rattle.sect_json.specs.steps.Inspected.{AreNamesWithin};
ghost use Rattle.sect_front.specs.FaultPlaces.{IsWithin};

use crate::context::Inspected;
use crate::sites::{bytes_value, found_bytes};
use sect_front::{Name, Procedure};
use sect_lint::{is_call_in, procedure_item, span_value};
use sect_object::Members;
use sect_places::{LineIndex, NameSpan, Role, Thing, procedure_of};
use serde_json::Value;
use std::alloc::{AllocError, Global};
use std::fmt::Write;

/// A procedure, and where its name is declared.
fn procedure_value(
    alloc: Global,
    of: &Inspected<'_>,
    procedure: &Procedure,
) -> Result<Value, AllocError>
    requires { AreNamesWithin (length of.now.source.now) of.now.names.now }
    ensures { IfOk result (λ v. view v ≡ procedure_json of.now.source.now of.now.names.now procedure.now) }
{
    let name = format!(in alloc; "{}", procedure.name)?;
    let declared = found_bytes(of.names, procedure_of(of.names, &procedure.name));
    let place = bytes_value(alloc, of.source, declared)?;
    let members = Members::new(alloc)
        .with("name", name)?
        .with("place", place)?;
    Ok(members.object())
}

/// Procedures, in their order.
pub fn procedure_values(
    alloc: Global,
    of: &Inspected<'_>,
    procedures: &[Procedure],
) -> Result<Vec<Value>, AllocError>
    requires { AreNamesWithin (length of.now.source.now) of.now.names.now }
    ensures { IfOk result (λ values. map view values.items
        ≡ map (procedure_json of.now.source.now of.now.names.now) procedures.now) }
{
    let mut values = Vec::new(alloc);
    for procedure in procedures {
        values.push(procedure_value(alloc, of, procedure)?)?;
    }
    Ok(values)
}

fn declares_thread(named: &NameSpan, name: &Name) -> bool
    ensures { result ≡ is_called is_thread name.now named.now }
{
    matches!(named.used.role, Role::Declared(Thing::Thread)) && *name == named.used.name
}

/// The declaration of a thread, by its number among the names.
fn thread_at(names: &[NameSpan], name: &Name) -> Option<usize>
    ensures is { result ≡ position (is_called is_thread name.now) names.now }
    ensures within { IfSome result (λ number. number < length names.now) }
{
    names.iter().position(|named| declares_thread(named, name))
}

/// The item of a thread.
fn thread_item(names: &[NameSpan], name: &Name) -> Option<usize>
    ensures { result ≡ thread_by names.now name.now }
{
    match thread_at(names, name) {
        Some(number) => Some(names[number].used.item),
        None => None,
    }
}

/// A call by its number.
fn call_value(
    alloc: Global,
    source: &LineIndex<'_>,
    number: usize,
    named: &NameSpan,
) -> Result<Value, AllocError>
    requires { IsWithin (length source.now) named.now.span }
    ensures { IfOk result (λ v. view v ≡ call_json source.now number named.now) }
{
    let procedure = format!(in alloc; "{}", named.used.name)?;
    let members = Members::new(alloc)
        .with("call", number)?
        .with_made("place", span_value(alloc, source, named.span))?
        .with("procedure", procedure)?;
    Ok(members.object())
}

/// Adds a call, and then those of the procedure that it calls, where these stand in one another at most so deep.
#[cycle(call)]
fn put_call(
    alloc: Global,
    values: &mut Vec<Value>,
    of: &Inspected<'_>,
    named: &NameSpan,
    most: usize,
) -> Result<(), AllocError>
    requires named { IsWithin (length of.now.source.now) named.now.span }
    requires names { AreNamesWithin (length of.now.source.now) of.now.names.now }
    ensures { OnOk result (map view values.new.items ≡ map view values.old.items
        ++ by_place (call_json of.now.source.now) (length values.old.items)
        (named.now ∷ from_item (calls_within most of.now.names.now)
        (procedure_by of.now.names.now named.now.used.name))) }
{
    values.push(call_value(alloc, of.source, values.len(), named)?)?;
    match procedure_item(of.names, &named.used.name) {
        Some(item) => put_calls(alloc, values, of, item, most),
        None => Ok(()),
    }
}

/// Adds the calls of the thread or procedure that is this item, each before those of the procedure that it calls, where
/// calls stand in one another at most so deep.
#[cycle(call)]
fn put_calls(
    alloc: Global,
    values: &mut Vec<Value>,
    of: &Inspected<'_>,
    scope: usize,
    most: usize,
) -> Result<(), AllocError>
    requires { AreNamesWithin (length of.now.source.now) of.now.names.now }
    ensures { OnOk result (map view values.new.items ≡ map view values.old.items
        ++ by_place (call_json of.now.source.now) (length values.old.items)
        (calls_within most of.now.names.now scope)) }
{
    if most == 0 {
        return Ok(());
    }
    for named in of.names {
        if is_call_in(named, scope) {
            put_call(alloc, values, of, named, most - 1)?;
        }
    }
    Ok(())
}

/// The calls of a thread of this name, where there are so many procedures.
pub fn calls_value(
    alloc: Global,
    of: &Inspected<'_>,
    name: &Name,
    most: usize,
) -> Result<Value, AllocError>
    requires { AreNamesWithin (length of.now.source.now) of.now.names.now }
    ensures { IfOk result (λ v. view v ≡ calls_json of.now.source.now of.now.names.now most name.now) }
{
    let mut values = Vec::new(alloc);
    if let Some(item) = thread_item(of.names, name) {
        put_calls(alloc, &mut values, of, item, most)?;
    }
    Ok(Value::Array(values))
}
