//! Small texts with the answer that each has, the items counted by hand.

use crate::programs::printed;
use sect_front::parse;
use sect_types::{TypeFault, check_types};
use std::alloc::Global;
use std::process::Abort;
use std::test::Fail;

/// Texts without a fault.
const ACCEPTED: &[&str] = &[
    "",
    "thread e { atomic { } }",
    // A record is known in every record, also before its own text.
    "record A { B next; A own; } record B { A back; int f; }",
    // One name among records, fields, globals and threads is no repetition.
    "record A { int A; } global A A; thread A { }",
    "record A { int f; } record B { int f; } global A a; global B b; thread t { int f; int t; } thread u { int f; }",
    // A hint is no use of a name here.
    "record A protected_by nowhere protected_by nowhere { int f; }",
    // Assignments.
    "record A { } global A a; thread t { int i; int j; A x; A y; i = 5; i = j; x = null; x = a; x = y; i = i; }",
    "thread t { int i; i = i + 1; i = 2 - i; i = i * i; i = 9223372036854775807 * 0; }",
    // Loads, stores, `new` and `print`, of locals and of globals.
    "record A { int f; A g; } global A a; thread t { A x; int i; atomic { x = new A; i = a.f; i = x.f; x = a.g; x = \
        x.g; } }",
    "record A { int f; A g; } global A a; thread t { A x; int i; atomic { a.f = 1; a.f = i; x.f = 2; a.g = null; a.g \
        = x; x.g = a; } }",
    "thread t { int i; atomic { print 0; print i; } }",
    // Tests.
    "thread t { int i; if (i == 1) { } if (1 != i) { } while (1 < i) { } while (i <= 2) { } }",
    "record A { } global A a; thread t { A x; if (null == null) { } if (x == null) { } if (null != x) { } if (x == \
        a) { } if (a != a) { } if (null == a) { } }",
    // Sections stand in branches and loops, and one after another.
    "thread t { if (1 == 1) { atomic { print 1; } } else { atomic { print 2; } } while (1 < 2) { atomic { } } atomic \
        { } }",
    // What stands in a section may be nested in tests.
    "record A { int f; } global A a; thread t { atomic { if (1 == 1) { while (1 == 2) { a.f = 1; } } else { print 1; \
        } } }",
    // A text may use a global declared after nothing else, and a field has the name of its record.
    "record R { R R; } global R r; thread t { R x; atomic { x = r.R; x.R = r; r.R = null; } }",
    // The greatest numbers of fields and threads stand below in tests of their own.
    "thread t { } thread u { }",
    "record A { } thread t { A x; A y; x = y; }",
    "record A { } global A a; global A b; thread t { A x; x = a; if (a == b) { x = b; } }",
    "thread t { int i; i = 0; } thread u { int i; i = 1; }",
    // One name for a record, a global, a procedure and a thread.
    "record f { } global f f; proc f() { } thread f { atomic { call f(); } }",
    // A call of a procedure that is declared later, and names that two procedures and a thread have.
    "record A { } proc f(int x) { int y; y = x; call g(y, null); } proc g(int x, A y) { y = null; } \
        thread t { int x; int y; atomic { call f(x); call g(1, null); } }",
    // A procedure's statements are those of a section; a parameter is assigned to as a local is.
    "record A { int v; } global A a; proc f(A x) { int i; i = x.v; x.v = 1; x = new A; print i; i = a.v; } \
        thread t { atomic { call f(a); } }",
    // Two ways to one procedure are no way back.
    "proc f() { call g(); call h(); } proc g() { call h(); } proc h() { }",
];

/// Texts with a fault, and the fault.
const REFUSED: &[(&str, &str)] = &[
    // An unknown name.
    ("record A { B f; }", "10 Unknown item 1"),
    ("record A { int f; A g; B h; }", "10 Unknown item 3"),
    ("global A a;", "10 Unknown item 0"),
    ("record A { } global A a; global B b;", "10 Unknown item 2"),
    ("thread t { A x; }", "10 Unknown item 1"),
    ("thread t { x = 1; }", "10 Unknown item 1"),
    ("thread t { int x; x = y; }", "10 Unknown item 2"),
    ("thread t { int x; x = 1 + y; }", "10 Unknown item 2"),
    ("thread t { int x; x = y + 1; }", "10 Unknown item 2"),
    ("thread t { y = 1 + 1; }", "10 Unknown item 1"),
    (
        "thread t { int x; atomic { x = new A; } }",
        "10 Unknown item 3",
    ),
    (
        "record A { } thread t { atomic { x = new A; } }",
        "10 Unknown item 3",
    ),
    (
        "record A { int f; } global A a; thread t { int i; atomic { i = a.g; } }",
        "10 Unknown item 6",
    ),
    (
        "record A { int f; } thread t { int i; atomic { i = a.f; } }",
        "10 Unknown item 5",
    ),
    (
        "record A { int f; } global A a; thread t { atomic { i = a.f; } }",
        "10 Unknown item 5",
    ),
    (
        "record A { int f; } global A a; thread t { atomic { a.g = 1; } }",
        "10 Unknown item 5",
    ),
    (
        "record A { int f; } global A a; thread t { atomic { b.f = 1; } }",
        "10 Unknown item 5",
    ),
    (
        "record A { int f; } global A a; thread t { atomic { a.f = v; } }",
        "10 Unknown item 5",
    ),
    ("thread t { atomic { print x; } }", "10 Unknown item 2"),
    ("thread t { if (x == 1) { } }", "10 Unknown item 1"),
    ("thread t { int i; while (i < x) { } }", "10 Unknown item 2"),
    // A local of another thread isn't known, nor is a thread or a record a value.
    (
        "thread t { int x; } thread u { x = 1; }",
        "10 Unknown item 3",
    ),
    ("thread t { int x; x = t; }", "10 Unknown item 2"),
    ("record A { } thread t { A x; x = A; }", "10 Unknown item 3"),
    // With an unknown target a field of an integer base is known, and the target is not.
    (
        "record A { int f; } thread t { int i; atomic { x = i.f; } }",
        "10 Unknown item 5",
    ),
    // A name twice.
    ("record A { } record B { } record A { }", "11 Twice item 2"),
    ("record A { int f; int f; }", "11 Twice item 2"),
    (
        "record A { int f; } record B { A f; int g; B f; }",
        "11 Twice item 5",
    ),
    (
        "record A { } record B { } global A a; global B a;",
        "11 Twice item 3",
    ),
    ("thread t { } thread t { }", "11 Twice item 1"),
    ("thread t { int x; int x; }", "11 Twice item 2"),
    (
        "thread t { int x; } thread u { int x; int y; int x; }",
        "11 Twice item 5",
    ),
    (
        "record A { } global A a; thread t { int a; }",
        "11 Twice item 3",
    ),
    // The unknown type comes before the repeated name.
    ("record A { int f; B f; }", "10 Unknown item 2"),
    // Types that don't agree.
    (
        "record A { } thread t { A x; x = 1; }",
        "12 WrongType item 3",
    ),
    ("thread t { int x; x = null; }", "12 WrongType item 2"),
    (
        "record A { } record B { } thread t { A x; B y; x = y; }",
        "12 WrongType item 5",
    ),
    (
        "record A { } record B { } global B b; thread t { A x; x = b; }",
        "12 WrongType item 5",
    ),
    (
        "record A { } thread t { A x; int i; i = x; }",
        "12 WrongType item 4",
    ),
    (
        "record A { } global A a; thread t { int i; a = i; }",
        "12 WrongType item 4",
    ),
    (
        "record A { } global A a; thread t { a = null; }",
        "12 WrongType item 3",
    ),
    (
        "record A { } global A a; thread t { a = a; }",
        "12 WrongType item 3",
    ),
    (
        "record A { } thread t { A x; int i; i = x + 1; }",
        "12 WrongType item 4",
    ),
    ("thread t { int i; i = 1 * null; }", "12 WrongType item 2"),
    (
        "record A { } thread t { A x; x = 1 - 1; }",
        "12 WrongType item 3",
    ),
    (
        "record A { } record B { } thread t { A x; atomic { x = new B; } }",
        "12 WrongType item 5",
    ),
    (
        "record A { } thread t { int i; atomic { i = new A; } }",
        "12 WrongType item 4",
    ),
    (
        "record A { } global A a; thread t { atomic { a = new A; } }",
        "12 WrongType item 4",
    ),
    (
        "record A { int f; } global A a; thread t { A x; atomic { x = a.f; } }",
        "12 WrongType item 6",
    ),
    (
        "record A { A g; } global A a; thread t { int i; atomic { i = a.g; } }",
        "12 WrongType item 6",
    ),
    (
        "record A { int f; } global A a; thread t { atomic { a = a.f; } }",
        "12 WrongType item 5",
    ),
    (
        "thread t { int i; atomic { i = i.f; } }",
        "12 WrongType item 3",
    ),
    (
        "thread t { int i; atomic { i.f = 1; } }",
        "12 WrongType item 3",
    ),
    (
        "record A { int f; } global A a; thread t { atomic { a.f = null; } }",
        "12 WrongType item 5",
    ),
    (
        "record A { A g; } global A a; thread t { atomic { a.g = 1; } }",
        "12 WrongType item 5",
    ),
    (
        "record A { A g; } record B { } global A a; global B b; thread t { atomic { a.g = b; } }",
        "12 WrongType item 7",
    ),
    ("thread t { atomic { print null; } }", "12 WrongType item 2"),
    (
        "record A { } global A a; thread t { atomic { print a; } }",
        "12 WrongType item 4",
    ),
    (
        "thread t { int i; if (i == null) { } }",
        "12 WrongType item 2",
    ),
    (
        "record A { } thread t { A x; while (x < x) { } }",
        "12 WrongType item 3",
    ),
    (
        "record A { } thread t { A x; if (x <= null) { } }",
        "12 WrongType item 3",
    ),
    ("thread t { if (null < null) { } }", "12 WrongType item 1"),
    (
        "record A { } record B { } global A a; global B b; thread t { if (a == b) { } }",
        "12 WrongType item 5",
    ),
    (
        "record A { } record B { } thread t { A x; B y; while (x != y) { } }",
        "12 WrongType item 5",
    ),
    // Shared things outside a section.
    (
        "record A { int f; } global A a; thread t { a.f = 1; }",
        "13 SharedOutside item 4",
    ),
    (
        "record A { int f; } global A a; thread t { int i; i = a.f; }",
        "13 SharedOutside item 5",
    ),
    (
        "record A { int f; } thread t { print 1; }",
        "13 SharedOutside item 3",
    ),
    (
        "record A { } thread t { A x; x = new A; }",
        "13 SharedOutside item 3",
    ),
    (
        "thread t { atomic { } while (1 == 2) { print 1; } }",
        "13 SharedOutside item 3",
    ),
    // The type comes before the place.
    ("thread t { print null; }", "12 WrongType item 1"),
    // A section in a section.
    ("thread t { atomic { atomic { } } }", "14 Nested item 2"),
    ("thread t { atomic { atomic all { } } }", "14 Nested item 2"),
    (
        "thread t { atomic { if (1 == 1) { } else { while (1 < 2) { atomic { } } } } }",
        "14 Nested item 4",
    ),
    (
        "thread t { atomic { print 1; atomic { print null; } } }",
        "14 Nested item 3",
    ),
    // Procedures and calls: an unknown name.
    (
        "proc f() { x = 1; } thread t { int x; }",
        "10 Unknown item 1",
    ),
    ("proc f(A x) { }", "10 Unknown item 1"),
    ("proc f(int x) { } proc g() { x = 1; }", "10 Unknown item 3"),
    ("thread t { atomic { call t(); } }", "10 Unknown item 2"),
    // A name twice. A call means the first procedure of its name.
    ("proc f() { } proc f() { }", "11 Twice item 1"),
    ("proc f(int x) { int x; }", "11 Twice item 2"),
    (
        "record A { } global A a; proc f(int a) { }",
        "11 Twice item 3",
    ),
    (
        "proc g() { call f(1); } proc f(int n) { } proc f() { }",
        "11 Twice item 4",
    ),
    // The types of arguments, compared as they are written: `null` is right for a record that nothing has.
    (
        "record A { } proc f(int n, A x) { } thread t { atomic { call f(1, 2); } }",
        "12 WrongType item 6",
    ),
    (
        "record A { } record B { } global B b; proc f(A x) { } proc g() { call f(b); }",
        "12 WrongType item 6",
    ),
    (
        "proc p() { call q(1); } proc q(Foo x) { }",
        "12 WrongType item 1",
    ),
    (
        "proc p() { call q(null); } proc q(Foo x) { }",
        "10 Unknown item 3",
    ),
    // A section in a procedure.
    (
        "proc f() { if (1 == 1) { atomic { } } }",
        "14 Nested item 2",
    ),
    // A call that leads back, also from a block, and by a call with a wrong number of arguments.
    (
        "proc f() { call g(); } proc g() { call h(); } proc h() { call g(); }",
        "16 Recursion item 3",
    ),
    (
        "proc f() { if (1 == 1) { } else { while (1 == 1) { call f(); } } }",
        "16 Recursion item 3",
    ),
    (
        "proc f() { call g(1); } proc g() { call f(); }",
        "16 Recursion item 1",
    ),
    // Another number of arguments, for which types aren't looked at.
    (
        "proc f(int n) { } thread t { atomic { call f(null, 1); } }",
        "17 Arguments item 4",
    ),
    // Of several rules at a call the least.
    (
        "proc f() { } thread t { atomic { call f(x); } }",
        "10 Unknown item 3",
    ),
    (
        "proc f(int n) { } thread t { call f(null); }",
        "12 WrongType item 3",
    ),
    (
        "proc f() { } thread t { call f(1); }",
        "13 SharedOutside item 2",
    ),
    // The first item at fault is named, whatever comes after it.
    ("record A { B f; B g; } record A { }", "10 Unknown item 1"),
    ("thread t { int x; int x; y = 1; }", "11 Twice item 2"),
    (
        "thread t { atomic { } print 1; atomic { atomic { } } }",
        "13 SharedOutside item 2",
    ),
];

/// What is answered for a text: its fault, or nothing.
pub fn answer(alloc: Global, text: &str) -> Result<String, Fail> {
    match check_types(alloc, parse(alloc, text.as_bytes())?) {
        Ok(_) => Ok(String::new(alloc)),
        Err(fault) => Ok(printed(alloc, &fault)?),
    }
}

/// The text has this answer.
fn answers(rt: &(impl Abort + AllocGlobal), text: &str, wanted: &str) -> Result<(), Fail> {
    let found = answer(rt.alloc(), text)?;
    assert!(rt; found.as_str() == wanted, "{found} at {text}");
    Ok(())
}

#[test]
fn accepts_typed_texts(rt: HostRuntime) -> Result<(), Fail> {
    for text in ACCEPTED {
        answers(&rt, text, "")?;
    }
    Ok(())
}

#[test]
fn names_the_first_item_at_fault(rt: HostRuntime) -> Result<(), Fail> {
    for (text, wanted) in REFUSED {
        answers(&rt, text, wanted)?;
    }
    Ok(())
}

/// The fault is printed so.
fn prints(rt: &(impl Abort + AllocGlobal), fault: &TypeFault, wanted: &str) -> Result<(), Fail> {
    let text = printed(rt.alloc(), fault)?;
    assert!(rt; text.as_str() == wanted, "{text}");
    Ok(())
}

#[test]
fn refusals_are_printed(rt: HostRuntime) -> Result<(), Fail> {
    prints(&rt, &TypeFault::Memory, "out of memory")?;
    prints(
        &rt,
        &TypeFault::TooMany { item: 9600 },
        "15 TooMany item 9600",
    )
}
