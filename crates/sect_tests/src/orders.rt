//! Programs run by whole sections in an order.

use crate::programs::{LIST, printed, program_of};
use sect_serial::{SerialEnd, serial};
use sect_store::{Outcome, Store, put_outcome};
use sect_types::{Datum, End, ObjectName, Program};
use std::alloc::Global;
use std::process::Abort;
use std::test::Fail;

const LOOPS: &str = "record A { int f; } global A a;
 thread t { int i; int x;
   while (i < 3) { i = i + 1;
     if (i != 2) { atomic { x = a.f; x = x + i; a.f = x; print x; } } else { atomic { print 7; } } } }
 thread u { }";

const LEAST: &str = "thread f { int x; x = 0 - 9223372036854775807; x = x - 1; }";

const BELOW: &str = "thread f { int x; x = 0 - 9223372036854775807; x = x - 1; x = x - 1; }";

const ENDLESS: &str = "thread f { int x; while (0 == 0) { x = 1; } atomic { } }";

const OVER_INSIDE: &str = "record A { int f; } global A a;
 thread t { int i; atomic { a.f = 3; print 1; i = 9223372036854775807 * 2; a.f = 4; } i = 2; }";

const REST_FAILS: &str = "thread t { int i; atomic { print 0; } i = 9223372036854775807 * 2; }";

const SPINNING: &str = "record F { int up; } global F f;
 thread get { int u; while (u == 0) { atomic { u = f.up; } } }";

/// Programs, with fuel and the order of threads, and what is shown.
const ORDERS: &[(&str, u32, &[u16], &str)] = &[
    (
        LOOPS,
        100,
        &[0, 0, 0],
        "thread 0 done\nthread 1 done\norder 0 0 0\nout 1\nout 7\nout 4\nobject a f=4\n",
    ),
    (LOOPS, 100, &[0, 0], "81 SectionsLeft thread 0"),
    (LOOPS, 100, &[0, 0, 0, 0], "80 NoSection thread 0"),
    (LOOPS, 100, &[0, 1], "80 NoSection thread 1"),
    (ENDLESS, 100, &[0], "80 NoSection thread 0"),
    (ENDLESS, 100, &[], "thread 0 fuel\norder none\n"),
    (LEAST, 10, &[], "thread 0 done\norder none\n"),
    (BELOW, 10, &[], "thread 0 overflow\norder none\n"),
    (
        OVER_INSIDE,
        100,
        &[0],
        "thread 0 overflow\norder 0\nout 1\nobject a f=3\n",
    ),
    (REST_FAILS, 100, &[0], "thread 0 overflow\norder 0\nout 0\n"),
];

/// What is shown of an outcome.
pub fn outcome_text(alloc: Global, program: &Program, outcome: &Outcome) -> Result<String, Fail> {
    let mut text = String::new(alloc);
    put_outcome(alloc, &mut text, program, outcome)?;
    Ok(text)
}

/// What is shown of the end of a run in an order.
fn end_text(
    alloc: Global,
    program: &Program,
    end: SerialEnd,
    order: &[u16],
) -> Result<String, Fail> {
    let mut threads = Vec::new(alloc);
    threads.extend_from_slice(order)?;
    let outcome = end.into_outcome(alloc, threads)?;
    outcome_text(alloc, program, &outcome)
}

/// What the run of a program in an order shows: the outcome, or the fault.
pub fn shown(alloc: Global, source: &str, fuel: u32, order: &[u16]) -> Result<String, Fail> {
    let program = program_of(alloc, source.as_bytes())?;
    match serial(alloc, &program, fuel, order) {
        Ok(end) => end_text(alloc, &program, end, order),
        Err(fault) => Ok(printed(alloc, &fault)?),
    }
}

/// The run of a program with so much fuel in an order shows this.
fn shows(
    rt: &(impl Abort + AllocGlobal),
    (source, fuel, order): (&str, u32, &[u16]),
    wanted: &str,
) -> Result<(), Fail> {
    let text = shown(rt.alloc(), source, fuel, order)?;
    assert!(rt; text.as_str() == wanted, "{text}");
    Ok(())
}

#[test]
fn orders_come_to_outcomes(rt: HostRuntime) -> Result<(), Fail> {
    for (source, fuel, order, wanted) in ORDERS {
        shows(&rt, (source, *fuel, order), wanted)?;
    }
    Ok(())
}

/// More fuel shows the same, as `sect_free::fuel_only_helps` says where no thread has ended for want of it.
fn shows_with_more(
    rt: &(impl Abort + AllocGlobal),
    source: &str,
    order: &[u16],
    wanted: &str,
) -> Result<(), Fail> {
    for fuel in [200, 10000] {
        shows(rt, (source, fuel, order), wanted)?;
    }
    Ok(())
}

#[test]
fn more_fuel_changes_no_outcome(rt: HostRuntime) -> Result<(), Fail> {
    sect_free::fuel_only_helps();
    for (source, _, order, wanted) in ORDERS {
        if *source != ENDLESS {
            shows_with_more(&rt, source, order, wanted)?;
        }
    }
    shows_with_more(&rt, ENDLESS, &[], "thread 0 fuel\norder none\n")
}

#[test]
fn a_round_goes_on(rt: HostRuntime) -> Result<(), Fail> {
    sect_free::rounds_never_end();
    for order in [[].as_slice(), &[0], &[0, 0, 0, 0, 0, 0, 0]] {
        shows(&rt, (SPINNING, 100, order), "81 SectionsLeft thread 0")?;
    }
    shows(
        &rt,
        (SPINNING, 2, &[0]),
        "thread 0 fuel\norder 0\nobject f up=0\n",
    )
}

/// The end of the run in which one thread has pushed a node that the other then found.
fn is_pushed(rt: &impl Abort, end: &SerialEnd) -> Result<(), Fail> {
    assert_eq!(rt; end.ends(), [End::Done, End::Done].as_slice());
    assert_eq!(rt; end.output(), [5].as_slice());
    let made = ObjectName::Made {
        thread: 1,
        number: 0,
    };
    let node = end.store().object(made).ok_or("node")?;
    assert_eq!(rt; node.fields(), [Datum::Number(5), Datum::Null].as_slice());
    assert_eq!(rt; node.site(), 1);
    assert_eq!(rt; end.store().made_by(1).len(), 1);
    assert_eq!(rt; end.store().made_by(2).len(), 0);
    assert_eq!(rt; end.store().globals().len(), 1);
    Ok(())
}

#[test]
fn the_end_shows_its_parts(rt: HostRuntime) -> Result<(), Fail> {
    let program = program_of(rt.alloc(), LIST)?;
    is_pushed(&rt, &serial(rt.alloc(), &program, 10000, &[1, 0])?)
}

/// The outcome of two threads of which the first still runs.
fn half_run(alloc: Global, program: &Program) -> Result<Outcome, Fail> {
    let store = Store::first(alloc, program)?;
    let ends = vec![in alloc; None, Some(End::Done)]?;
    Ok(Outcome::new(ends, Vec::new(alloc), Vec::new(alloc), store))
}

#[test]
fn a_thread_that_runs_is_shown_so(rt: HostRuntime) -> Result<(), Fail> {
    let program = program_of(rt.alloc(), b"thread t { } thread u { }")?;
    let text = outcome_text(rt.alloc(), &program, &half_run(rt.alloc(), &program)?)?;
    assert_eq!(rt;
        text.as_str(),
        "thread 0 running\nthread 1 done\norder none\n"
    );
    Ok(())
}
