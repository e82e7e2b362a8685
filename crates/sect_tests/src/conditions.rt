//! Conditions on the outcome of a run.

use crate::programs::{LIST, TWO_ADDING, program_of};
use sect_front::{Comparison, Operator};
use sect_questions::{Condition, Value, holds};
use sect_serial::serial;
use sect_store::Outcome;
use sect_types::{End, Fault};
use std::alloc::{AllocError, AllocGlobal, Global};
use std::process::Abort;
use std::test::Fail;

/// A thread that prints four numbers, and one whose sum is out of range.
const PRINTING: &[u8] = b"record A { int f; } global A a; \
thread p { atomic { print 5; print 7; print 5; print 0; a.f = 9223372036854775807; } } \
thread q { int x; x = 9223372036854775807 + 1; }";

/// The outcome of a program in an order.
fn outcome_of(alloc: Global, source: &[u8], order: &[u16]) -> Result<Outcome, Fail> {
    let program = program_of(alloc, source)?;
    let mut threads = Vec::new(alloc);
    threads.extend_from_slice(order)?;
    Ok(serial(alloc, &program, 100, order)?.into_outcome(alloc, threads)?)
}

/// What stands at the end of these fields of the global of number 0.
fn path(alloc: Global, fields: &[u16]) -> Result<Value, AllocError> {
    let mut numbers = Vec::new(alloc);
    numbers.extend_from_slice(fields)?;
    Ok(Value::Path(0, numbers))
}

/// A value with a number, by an operator.
fn computed(alloc: Global, one: Value, by: Operator, other: i64) -> Result<Value, AllocError> {
    let other = Box::new(alloc, Value::Number(other))?;
    Ok(Value::Computed(by, Box::new(alloc, one)?, other))
}

/// The condition holds, or it doesn't, and its opposite the other way round.
fn says(
    rt: &(impl Abort + AllocGlobal),
    outcome: &Outcome,
    condition: Condition,
    wanted: bool,
) -> Result<(), Fail> {
    let found = holds(outcome, &condition)?;
    assert!(rt; found == wanted);
    let opposite = Condition::Not(Box::new(rt.alloc(), condition)?);
    let found = holds(outcome, &opposite)?;
    assert!(rt; found != wanted);
    Ok(())
}

/// Whether a value that is there compares so with a number.
fn compares(
    rt: &(impl Abort + AllocGlobal),
    outcome: &Outcome,
    (value, comparison, number): (Value, Comparison, i64),
    wanted: bool,
) -> Result<(), Fail> {
    let condition = Condition::Compares(value, comparison, Value::Number(number));
    says(rt, outcome, condition, wanted)
}

#[test]
fn comparisons_are_of_what_is_left(rt: HostRuntime) -> Result<(), Fail> {
    let outcome = outcome_of(rt.alloc(), TWO_ADDING, &[0, 1])?;
    for (comparison, number, wanted) in [
        (Comparison::Equal, 2, true),
        (Comparison::Equal, 1, false),
        (Comparison::NotEqual, 2, false),
        (Comparison::Less, 2, false),
        (Comparison::Less, 3, true),
        (Comparison::LessOrEqual, 2, true),
        (Comparison::LessOrEqual, 1, false),
    ] {
        let balance = path(rt.alloc(), &[0])?;
        compares(&rt, &outcome, (balance, comparison, number), wanted)?;
    }
    Ok(())
}

#[test]
fn nothing_holds_behind_null(rt: HostRuntime) -> Result<(), Fail> {
    let outcome = outcome_of(rt.alloc(), LIST, &[0, 1])?;
    let first = path(rt.alloc(), &[1, 0])?;
    compares(&rt, &outcome, (first, Comparison::Equal, 5), true)?;
    let last = Condition::Compares(path(rt.alloc(), &[1, 1])?, Comparison::Equal, Value::Null);
    says(&rt, &outcome, last, true)?;
    for comparison in [Comparison::Equal, Comparison::NotEqual, Comparison::Less] {
        let past = path(rt.alloc(), &[1, 1, 0])?;
        compares(&rt, &outcome, (past, comparison, 0), false)?;
    }
    Ok(())
}

#[test]
fn references_are_of_one_object(rt: HostRuntime) -> Result<(), Fail> {
    let outcome = outcome_of(rt.alloc(), LIST, &[0, 1])?;
    let (one, same) = (path(rt.alloc(), &[])?, path(rt.alloc(), &[])?);
    says(
        &rt,
        &outcome,
        Condition::Compares(one, Comparison::Equal, same),
        true,
    )?;
    let (one, other) = (path(rt.alloc(), &[])?, path(rt.alloc(), &[1])?);
    says(
        &rt,
        &outcome,
        Condition::Compares(one, Comparison::Equal, other),
        false,
    )
}

#[test]
fn printed_numbers_are_told(rt: HostRuntime) -> Result<(), Fail> {
    let outcome = outcome_of(rt.alloc(), PRINTING, &[0])?;
    for (value, number, wanted) in [
        (Value::Printed(1), 7, true),
        (Value::Printed(1), 5, false),
        (Value::Printed(4), 0, false),
        (Value::PrintedCount, 4, true),
        (Value::TimesPrinted(5), 2, true),
        (Value::TimesPrinted(6), 0, true),
    ] {
        compares(&rt, &outcome, (value, Comparison::Equal, number), wanted)?;
    }
    let all = vec![in rt.alloc(); 5, 7, 5, 0]?;
    says(&rt, &outcome, Condition::Prints(all), true)?;
    let some = vec![in rt.alloc(); 5, 7, 5]?;
    says(&rt, &outcome, Condition::Prints(some), false)
}

#[test]
fn threads_end_so(rt: HostRuntime) -> Result<(), Fail> {
    let outcome = outcome_of(rt.alloc(), PRINTING, &[0])?;
    for (thread, end, wanted) in [
        (0, Some(End::Done), true),
        (0, None, false),
        (1, Some(End::Failed(Fault::Overflow)), true),
        (1, Some(End::Failed(Fault::Null)), false),
        (2, Some(End::Done), false),
        (2, None, false),
    ] {
        says(&rt, &outcome, Condition::Ends(thread, end), wanted)?;
    }
    Ok(())
}

#[test]
fn sums_are_whole_numbers(rt: HostRuntime) -> Result<(), Fail> {
    let outcome = outcome_of(rt.alloc(), PRINTING, &[0])?;
    let most = i64::MAX;
    let more = computed(rt.alloc(), path(rt.alloc(), &[0])?, Operator::Add, 1)?;
    compares(&rt, &outcome, (more, Comparison::LessOrEqual, most), false)?;
    let square = computed(
        rt.alloc(),
        path(rt.alloc(), &[0])?,
        Operator::Multiply,
        most,
    )?;
    let less = computed(rt.alloc(), square, Operator::Subtract, most)?;
    compares(&rt, &outcome, (less, Comparison::Less, most), false)?;
    let square = computed(
        rt.alloc(),
        path(rt.alloc(), &[0])?,
        Operator::Multiply,
        most,
    )?;
    let cube = computed(rt.alloc(), square, Operator::Multiply, most)?;
    let condition = Condition::Compares(cube, Comparison::Less, Value::Null);
    assert!(rt; holds(&outcome, &condition).is_err());
    Ok(())
}

/// A condition that holds, of a thread that is there, or one that doesn't.
fn is_done(alloc: Global, wanted: bool) -> Result<Box<Condition>, AllocError> {
    let thread = if wanted { 0 } else { 2 };
    Ok(Box::new(alloc, Condition::Ends(thread, Some(End::Done)))?)
}

#[test]
fn conditions_are_joined(rt: HostRuntime) -> Result<(), Fail> {
    let outcome = outcome_of(rt.alloc(), PRINTING, &[0])?;
    for (first, second) in [(true, true), (true, false), (false, true), (false, false)] {
        let (one, other) = (is_done(rt.alloc(), first)?, is_done(rt.alloc(), second)?);
        says(&rt, &outcome, Condition::Both(one, other), first && second)?;
        let (one, other) = (is_done(rt.alloc(), first)?, is_done(rt.alloc(), second)?);
        says(
            &rt,
            &outcome,
            Condition::Either(one, other),
            first || second,
        )?;
    }
    Ok(())
}
