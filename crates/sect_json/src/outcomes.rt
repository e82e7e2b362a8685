//! What runs have come to, as JSON.

ghost use Rattle.std.specs.{Prelude.{◌≡◌, IfOk, map}, String.{string_bytes}};
ghost use Rattle.serde_json.specs.View.{view};
ghost use Rattle.sect_json.specs.Values.{count, integer, list, document_text};
ghost use Rattle.sect_json.specs.Outcomes.{outcomes_json, found_json, outcome_json, thread_json};

use crate::objects::objects_value;
use crate::writing::document;
use sect_object::Members;
use sect_serial::Outcomes;
use sect_store::{Outcome, Printer};
use sect_types::{End, Program};
use serde_json::{Value, json};
use std::alloc::{AllocError, Global};

/// All outcomes of a program.
pub fn outcomes_document(
    alloc: Global,
    program: &Program,
    outcomes: &Outcomes,
) -> Result<String, AllocError>
    ensures { IfOk result (λ text. string_bytes text
        ≡ document_text (outcomes_json program.now outcomes.now)) }
{
    let value = outcomes_value(alloc, program, outcomes)?;
    document(alloc, &value)
}

/// How many states there are, and each outcome.
fn outcomes_value(
    alloc: Global,
    program: &Program,
    outcomes: &Outcomes,
) -> Result<Value, AllocError>
    ensures { IfOk result (λ v. view v ≡ outcomes_json program.now outcomes.now) }
{
    let found = found_values(alloc, program, outcomes)?;
    let members = Members::new(alloc)
        .with("outcomes", found)?
        .with("states", outcomes.states())?;
    Ok(members.object())
}

/// Each outcome with an order that gives it.
fn found_values(
    alloc: Global,
    program: &Program,
    outcomes: &Outcomes,
) -> Result<Vec<Value>, AllocError>
    ensures { IfOk result (λ values. map view values.items
        ≡ map (found_json program.now) outcomes.now.found) }
{
    let printer = Printer::new(alloc, program)?;
    let mut values = Vec::new(alloc);
    for number in 0..outcomes.len() {
        let (end, order) = outcomes.at(number);
        let outcome = end.try_clone()?.into_outcome(alloc, order.to_threads()?)?;
        values.push(outcome_value(alloc, &printer, &outcome)?)?;
    }
    Ok(values)
}

/// What a run of a program has come to.
pub fn outcome_document(
    alloc: Global,
    program: &Program,
    outcome: &Outcome,
) -> Result<String, AllocError>
    ensures { IfOk result (λ text. string_bytes text
        ≡ document_text (outcome_json program.now outcome.now)) }
{
    let printer = Printer::new(alloc, program)?;
    let value = outcome_value(alloc, &printer, outcome)?;
    document(alloc, &value)
}

/// What a run has come to.
pub fn outcome_value(
    alloc: Global,
    printer: &Printer<'_>,
    outcome: &Outcome,
) -> Result<Value, AllocError>
    ensures { IfOk result (λ v. view v ≡ outcome_json printer.now outcome.now) }
{
    let members = Members::new(alloc)
        .with_made("objects", objects_value(alloc, printer, outcome.store()))?
        .with_made("order", order_value(alloc, outcome.order()))?
        .with_made("output", output_value(alloc, outcome.output()))?
        .with_made("threads", threads_value(alloc, outcome.ends()))?;
    Ok(members.object())
}

/// The threads whose sections ran, in their order.
fn order_value(alloc: Global, order: &[u16]) -> Result<Value, AllocError>
    ensures { IfOk result (λ v. view v ≡ list (map count order.now)) }
{
    let mut values = Vec::new(alloc);
    for thread in order {
        values.push(Value::from(*thread))?;
    }
    Ok(Value::Array(values))
}

/// The numbers that were printed.
fn output_value(alloc: Global, output: &[i64]) -> Result<Value, AllocError>
    ensures { IfOk result (λ v. view v ≡ list (map integer output.now)) }
{
    let mut values = Vec::new(alloc);
    for number in output {
        values.push(Value::from(*number))?;
    }
    Ok(Value::Array(values))
}

/// How each thread has ended.
fn threads_value(alloc: Global, ends: &[Option<End>]) -> Result<Value, AllocError>
    ensures { IfOk result (λ v. view v ≡ list (map thread_json ends.now)) }
{
    let mut values = Vec::new(alloc);
    for end in ends {
        values.push(thread_value(alloc, *end)?)?;
    }
    Ok(Value::Array(values))
}

/// How a thread has ended, if it has.
fn thread_value(alloc: Global, end: Option<End>) -> Result<Value, AllocError>
    ensures { IfOk result (λ v. view v ≡ thread_json end) }
{
    match end {
        None => json!(in alloc; {"state": "running"}),
        Some(end) => json!(in alloc; {"state": format!(in alloc; "{end}")?}),
    }
}
