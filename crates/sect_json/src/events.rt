//! The events of a turn, as JSON.

ghost use Rattle.std.specs.Prelude.{◌≡◌, ◌++◌, IfOk, OnOk, map};
ghost use Rattle.serde_json.specs.View.{view};
ghost use Rattle.sect_json.specs.Values.{list};
ghost use Rattle.sect_json.specs.Turns.{plain_event_json, event_json, events_json, own_json, told_json, taking_json};
ghost use Rattle.sect_json.specs.steps.Turning.{told_shown};

use crate::keys::{key_value, mode_value};
use sect_object::Members;
use sect_types::Program;
use sect_world::{Deed, Event};
use serde_json::Value;
use std::alloc::{AllocError, Global};

/// What is told of a turn beside its deed: the fields that it has changed, the locals of its thread after it, the
/// statement that comes next, that which it has run with its place, and whether the thread runs on.
#[derive(Drop)]
pub struct Told {
    pub fields: Value,
    pub locals: Value,
    pub next: Value,
    pub place: Value,
    pub state: String,
    pub text: String,
}

/// The events of a turn. The first is its thread's own, beside which all this is told.
pub fn turn_value(
    alloc: Global,
    program: &Program,
    told: Told,
    events: &[Event],
) -> Result<Value, AllocError>
    ensures { IfOk result (λ v. view v ≡ list (events_json program.now (told_shown told) events.now)) }
{
    let Some((own, others)) = events.split_first() else {
        return Ok(Value::Array(Vec::new(alloc)));
    };
    let mut values = Vec::new(alloc);
    values.push(own_value(alloc, program, told, *own)?)?;
    put_others(alloc, &mut values, program, others)?;
    Ok(Value::Array(values))
}

/// Adds the events of other threads.
fn put_others(
    alloc: Global,
    values: &mut Vec<Value>,
    program: &Program,
    events: &[Event],
) -> Result<(), AllocError>
    ensures { OnOk result (map view values.new.items
        ≡ map view values.old.items ++ map (event_json program.now) events.now) }
{
    for event in events {
        values.push(event_value(alloc, program, *event)?)?;
    }
    Ok(())
}

/// What the thread does whose turn it is.
fn own_value(
    alloc: Global,
    program: &Program,
    told: Told,
    event: Event,
) -> Result<Value, AllocError>
    ensures { IfOk result (λ v. view v ≡ own_json program.now (told_shown told) event.thread event.deed) }
{
    let thread = event.thread;
    match event.deed {
        Deed::Local => told_value(alloc, told, "local", thread),
        Deed::Enter => told_value(alloc, told, "enter", thread),
        Deed::Take { key, mode } => {
            let key = key_value(alloc, program, key)?;
            let mode = mode_value(alloc, mode)?;
            taking_value(alloc, told, key, mode, thread)
        }
        Deed::Begin => told_value(alloc, told, "begin", thread),
        Deed::Again => told_value(alloc, told, "again", thread),
        Deed::Act => told_value(alloc, told, "act", thread),
        Deed::Leave => told_value(alloc, told, "leave", thread),
    }
}

/// A deed of this name, with what is told beside it.
fn told_value(alloc: Global, told: Told, name: &str, thread: u16) -> Result<Value, AllocError>
    ensures { IfOk result (λ v. view v ≡ told_json (told_shown told) name.now thread) }
{
    let Told {
        fields,
        locals,
        next,
        place,
        state,
        text,
    } = told;
    let members = Members::new(alloc)
        .with("deed", name)?
        .with("fields", fields)?
        .with("locals", locals)?
        .with("next", next)?
        .with("place", place)?
        .with("state", state)?
        .with("text", text)?
        .with("thread", thread)?;
    Ok(members.object())
}

/// A thread takes a key, with what is told beside it.
fn taking_value(
    alloc: Global,
    told: Told,
    key: Value,
    mode: Value,
    thread: u16,
) -> Result<Value, AllocError>
    ensures { IfOk result (λ v. view v ≡ taking_json (told_shown told) (view key) (view mode) thread) }
{
    let Told {
        fields,
        locals,
        next,
        place,
        state,
        text,
    } = told;
    let members = Members::new(alloc)
        .with("deed", "take")?
        .with("fields", fields)?
        .with("key", key)?
        .with("locals", locals)?
        .with("mode", mode)?
        .with("next", next)?
        .with("place", place)?
        .with("state", state)?
        .with("text", text)?
        .with("thread", thread)?;
    Ok(members.object())
}

/// What another thread does.
fn event_value(alloc: Global, program: &Program, event: Event) -> Result<Value, AllocError>
    ensures { IfOk result (λ v. view v ≡ event_json program.now event) }
{
    let thread = event.thread;
    match event.deed {
        Deed::Local => plain_event_value(alloc, "local", thread),
        Deed::Enter => plain_event_value(alloc, "enter", thread),
        Deed::Take { key, mode } => {
            let members = Members::new(alloc)
                .with("deed", "take")?
                .with_made("key", key_value(alloc, program, key))?
                .with_made("mode", mode_value(alloc, mode))?
                .with("thread", thread)?;
            Ok(members.object())
        }
        Deed::Begin => plain_event_value(alloc, "begin", thread),
        Deed::Again => plain_event_value(alloc, "again", thread),
        Deed::Act => plain_event_value(alloc, "act", thread),
        Deed::Leave => plain_event_value(alloc, "leave", thread),
    }
}

/// A deed of this name, and the thread that does it.
fn plain_event_value(alloc: Global, name: &str, thread: u16) -> Result<Value, AllocError>
    ensures { IfOk result (λ v. view v ≡ plain_event_json name.now thread) }
{
    let members = Members::new(alloc)
        .with("deed", name)?
        .with("thread", thread)?;
    Ok(members.object())
}
