//! What the numbers of a program stand for.

use crate::programs::program_of;
use sect_types::{Action, Base, Program, Step, Text, Value, ValueType};
use std::fmt::Write;
use std::process::Abort;
use std::test::Fail;

/// A list with two threads: one adds an element, the other sums up.
const LIST: &[u8] =
    b"record Pad { } record Node { int val; Node next; Pad pad; } global Node head; global Pad end;
thread push { Node n; int v; v = 5; atomic { n = new Node; n.val = v; head.next = n; } }
thread sum { int s; Node p; int v;
  if (s == 0) { atomic { p = head.next; } } else { atomic { p = new Node; } }
  while (p != null) { p = null; atomic { print s; } } }";

#[test]
fn declarations_by_number(rt: HostRuntime) -> Result<(), Fail> {
    are_declared(&rt, &program_of(rt.alloc(), LIST)?);
    Ok(())
}

/// The records, globals and locals of the list by number.
fn are_declared(rt: &impl Abort, program: &Program) {
    let records = program.records();
    assert!(rt; records.len() == 2);
    assert_eq!(rt; records[0].as_slice().len(), 0);
    assert_eq!(rt;
        records[1].as_slice(),
        [ValueType::Int, ValueType::Refers(1), ValueType::Refers(0)].as_slice()
    );
    assert_eq!(rt; program.globals(), [1, 0].as_slice());
    let locals = program.locals();
    assert!(rt; locals.len() == 2);
    assert_eq!(rt;
        locals[0].as_slice(),
        [ValueType::Refers(1), ValueType::Int].as_slice()
    );
    assert_eq!(rt;
        locals[1].as_slice(),
        [ValueType::Int, ValueType::Refers(1), ValueType::Int].as_slice()
    );
    assert_eq!(rt; program.tree().threads().len(), 2);
}

/// How many threads, sections, sites and statements these texts have.
const COUNTS: &[(&[u8], [u32; 4])] = &[
    (LIST, [2, 4, 4, 14]),
    (b"", [0, 0, 0, 0]),
    (CALLS, [2, 3, 4, 20]),
];

#[test]
fn counts_of_a_program(rt: HostRuntime) -> Result<(), Fail> {
    for (text, wanted) in COUNTS {
        let program = program_of(rt.alloc(), text)?;
        let found = [
            u32::from(program.thread_count()),
            u32::from(program.section_count()),
            u32::from(program.site_count()),
            program.statement_count(),
        ];
        assert!(rt; found == *wanted);
    }
    Ok(())
}

#[test]
fn statements_by_number(rt: HostRuntime) -> Result<(), Fail> {
    let program = program_of(rt.alloc(), LIST)?;
    program.facts();
    assert!(rt; program.thread_count() == 2);
    let push = program.text(0).as_slice();
    assert!(rt; push.len() == 2);
    assert!(rt;
        matches!(&push[0], Step::Do(Action::Assign(1, Value::Number(n))) if n.value() == 5)
    );
    let sum = program.text(1).as_slice();
    assert!(rt; sum.len() == 2);
    assert!(rt; matches!(&sum[0], Step::If(_, _, _)));
    assert!(rt; matches!(&sum[1], Step::While(_, _)));
    Ok(())
}

#[test]
fn sections_by_number(rt: HostRuntime) -> Result<(), Fail> {
    let program = program_of(rt.alloc(), LIST)?;
    assert!(rt; program.section_count() == 4);
    for number in 0..4u16 {
        let section = program.section(number);
        assert_eq!(rt;
            section.thread,
            if number == 0 { 0 } else { 1 },
            "of section {number}"
        );
        assert_eq!(rt;
            section.body.as_slice().len(),
            if number == 0 { 3 } else { 1 },
            "of section {number}"
        );
    }
    Ok(())
}

/// The target, the record and the site of the last `new` of a text that stands in no block.
fn last_new(text: &Text) -> Option<(u16, u16, u16)> {
    let mut last = None;
    for step in text.as_slice() {
        if let Step::Do(Action::New(target, of, site)) = step {
            last = Some((*target, *of, *site));
        }
    }
    last
}

#[test]
fn sites_by_number(rt: HostRuntime) -> Result<(), Fail> {
    let program = program_of(rt.alloc(), LIST)?;
    assert!(rt; program.section_count() == 4);
    assert_eq!(rt; last_new(program.section(0).body), Some((0, 1, 2)));
    assert_eq!(rt; last_new(program.section(1).body), None);
    assert_eq!(rt; last_new(program.section(2).body), Some((1, 1, 3)));
    assert_eq!(rt; last_new(program.section(3).body), None);
    Ok(())
}

#[test]
fn fields_by_number(rt: HostRuntime) -> Result<(), Fail> {
    let program = program_of(rt.alloc(), LIST)?;
    assert!(rt; program.section_count() == 4);
    let [_made, own, front] = program.section(0).body.as_slice() else {
        return Err(Fail::from("the first section has other statements"));
    };
    let Step::Do(Action::Store(Base::Local(0), val, Value::Local(1))) = own else {
        return Err(Fail::from("the second statement isn't n.val = v"));
    };
    assert_eq!(rt; (val.of, val.number), (1, 0));
    let Step::Do(Action::Store(Base::Global(0), next, Value::Local(0))) = front else {
        return Err(Fail::from("the third statement isn't head.next = n"));
    };
    assert_eq!(rt; (next.of, next.number), (1, 1));
    Ok(())
}

/// A procedure that is called by another one and by both threads.
const CALLS: &[u8] = b"record R { } proc make(int a) { R b; b = new R; }
proc twice(R x, int a) { call make(a); x = null; call make(1); }
thread t { int b; atomic { call twice(null, 2); } b = 1; atomic { call make(b); } }
thread u { R r; atomic { r = null; call make(4); } }";

#[test]
fn locals_of_calls_by_number(rt: HostRuntime) -> Result<(), Fail> {
    let program = program_of(rt.alloc(), CALLS)?;
    are_called(&rt, &program, 0, "b x#0 a#0 a#1 b#1 a#2 b#2 a#3 b#3 ")?;
    are_called(&rt, &program, 1, "r a#0 b#0 ")
}

/// The locals of a thread have these names, in the order of their numbers, with a blank behind each.
fn are_called(
    rt: &(impl Abort + AllocGlobal),
    program: &Program,
    thread: u16,
    wanted: &str,
) -> Result<(), Fail> {
    assert!(rt; (thread as usize) < program.locals().len());
    let count = program.locals()[thread as usize].as_slice().len();
    assert!(rt; count <= 64);
    let mut names = String::new(rt.alloc());
    for number in 0..count as u16 {
        write!(names, "{} ", program.local_name(thread, number))?;
    }
    assert_eq!(rt; names.as_str(), wanted);
    Ok(())
}

#[test]
fn types_and_sites_of_calls(rt: HostRuntime) -> Result<(), Fail> {
    let program = program_of(rt.alloc(), CALLS)?;
    assert!(rt; program.locals().len() == 2);
    assert_eq!(rt;
        program.locals()[1].as_slice(),
        [ValueType::Refers(0), ValueType::Int, ValueType::Refers(0)].as_slice()
    );
    assert!(rt; program.section_count() == 3);
    assert_eq!(rt; last_new(program.section(0).body), Some((6, 0, 1)));
    assert_eq!(rt; last_new(program.section(1).body), Some((8, 0, 2)));
    assert_eq!(rt; last_new(program.section(2).body), Some((2, 0, 3)));
    Ok(())
}
