//! Small programs with the guards of their records, or the refusal of their hints.

use crate::programs::{
    GUARDED, GUARDED_BY_A_CELL, GUARDED_BY_NOTHING, GUARDED_TWICE, printed, program_of, scheme,
};
use sect_hints::{Guards, guards};
use sect_names::{MOST_PATH_FIELDS, Scheme, SchemeFault, check_k, scheme_of};
use sect_types::Program;
use std::alloc::{AllocError, Global};
use std::fmt::Write;
use std::process::Abort;
use std::test::Fail;

/// These are the guards, and one record past the last has none.
fn are_guards(rt: &impl Abort, found: &Guards, wanted: &[Option<u16>]) {
    assert_eq!(rt; found.len(), wanted.len());
    let mut record = 0u16;
    for guard in wanted {
        assert!(rt; found.guard(record) == *guard, "record {record}");
        record = record.wrapping_add(1);
    }
    assert_eq!(rt; found.guard(record), None);
}

/// The guard of each record of these texts.
const RIGHT: &[(&[u8], &[Option<u16>])] = &[
    (b"", &[]),
    (GUARDED, &[None, Some(0)]),
    // Its cells are made.
    (
        b"record Lock { int n; } record Cell protected_by g { int val; } \
        global Lock g; global Lock h; \
        thread t { Cell x; atomic { x = new Cell; x.val = 1; } }",
        &[None, Some(0)],
    ),
    // Each record may have a guard of its own, and one global may guard many.
    (
        b"record A protected_by h { } record Lock { } record B protected_by g { } \
        record C protected_by h { } record D { } global D d; global Lock g; global Lock h;",
        &[Some(2), None, Some(1), Some(2), None],
    ),
];

/// The program has these guards.
fn has_guards(
    rt: &(impl Abort + AllocGlobal),
    program: &Program,
    wanted: &[Option<u16>],
) -> Result<(), Fail> {
    are_guards(rt, &guards(rt.alloc(), program)?, wanted);
    Ok(())
}

/// The program of a text has these guards.
fn text_has_guards(
    rt: &(impl Abort + AllocGlobal),
    text: &[u8],
    wanted: &[Option<u16>],
) -> Result<(), Fail> {
    has_guards(rt, &program_of(rt.alloc(), text)?, wanted)
}

#[test]
fn guards_of_records(rt: HostRuntime) -> Result<(), Fail> {
    for (text, wanted) in RIGHT {
        text_has_guards(&rt, text, wanted)?;
    }
    Ok(())
}

/// What is answered for the hints of a text: the refusal, or nothing.
fn answer(alloc: Global, text: &[u8]) -> Result<String, Fail> {
    match guards(alloc, &program_of(alloc, text)?) {
        Ok(_) => Ok(String::new(alloc)),
        Err(fault) => Ok(printed(alloc, &fault)?),
    }
}

/// Texts whose hints are refused, and the line that says why.
const WRONG: &[(&[u8], &str)] = &[
    (GUARDED_BY_A_CELL, "21 GuardIsGuarded record 1"),
    (GUARDED_BY_NOTHING, "20 NoSuchGlobal record 1"),
    (GUARDED_TWICE, "22 HintTwice record 1"),
    // In one record a second hint comes first, whatever the hints say, and then a name that no global has.
    (
        b"record Lock { } record Cell protected_by nowhere protected_by g { } global Lock g;",
        "22 HintTwice record 1",
    ),
    (
        b"record Cell protected_by c protected_by c { } global Cell c;",
        "22 HintTwice record 0",
    ),
    // The name of a record, a field, a thread or a local is no global's.
    (
        b"record Cell protected_by t { int t; } thread t { int u; }",
        "20 NoSuchGlobal record 0",
    ),
    // The first record at fault is named, whatever the faults are.
    (
        b"record A protected_by g { } record B protected_by nowhere { } \
        record C protected_by g protected_by g { } record Lock { } global Lock g;",
        "20 NoSuchGlobal record 1",
    ),
    // A hint that is wrong itself still makes its record a hinted one.
    (
        b"record A protected_by b { } record B protected_by nowhere { } global B b;",
        "21 GuardIsGuarded record 0",
    ),
];

/// The hints of a text have this answer.
fn hints_answer(rt: &(impl Abort + AllocGlobal), text: &[u8], wanted: &str) -> Result<(), Fail> {
    let found = answer(rt.alloc(), text)?;
    assert!(rt; found.as_str() == wanted, "{found}");
    Ok(())
}

#[test]
fn wrong_hints(rt: HostRuntime) -> Result<(), Fail> {
    for (text, wanted) in WRONG {
        hints_answer(&rt, text, wanted)?;
    }
    Ok(())
}

/// A text of 64 records, of which the last has this hint, and a global of the first.
fn many_records(alloc: Global, hint: &str) -> Result<String, AllocError> {
    let mut text = String::new(alloc);
    for number in 0..63u8 {
        write!(text, "record r{number} {{ }} ")?;
    }
    write!(text, "record r63 protected_by {hint} {{ }} global r0 g;")?;
    Ok(text)
}

#[test]
fn the_last_of_many_records(rt: HostRuntime) -> Result<(), Fail> {
    let right = many_records(rt.alloc(), "g")?;
    hints_answer(&rt, right.as_bytes(), "")?;
    let wrong = many_records(rt.alloc(), "h")?;
    hints_answer(&rt, wrong.as_bytes(), "20 NoSuchGlobal record 63")
}

/// What is answered for a text and the most fields of a path: the refusal, or nothing.
fn scheme_answer(alloc: Global, text: &[u8], k: u16) -> Result<String, Fail> {
    match scheme_of(alloc, program_of(alloc, text)?, k) {
        Ok(_) => Ok(String::new(alloc)),
        Err(fault) => Ok(printed(alloc, &fault)?),
    }
}

/// How many fields a path may have is judged before the hints.
const SCHEMES: &[(&[u8], u16, &str)] = &[
    (GUARDED, 0, ""),
    (GUARDED, MOST_PATH_FIELDS, ""),
    (GUARDED_BY_NOTHING, 2, "20 NoSuchGlobal record 1"),
    (GUARDED_BY_A_CELL, 2, "21 GuardIsGuarded record 1"),
    (GUARDED_TWICE, 2, "22 HintTwice record 1"),
    (GUARDED_TWICE, 4, "60 BadK"),
];

/// A text and the most fields of a path have this answer.
fn text_answers(
    rt: &(impl Abort + AllocGlobal),
    text: &[u8],
    k: u16,
    wanted: &str,
) -> Result<(), Fail> {
    let found = scheme_answer(rt.alloc(), text, k)?;
    assert!(rt; found.as_str() == wanted, "{found}");
    Ok(())
}

#[test]
fn schemes_of_texts(rt: HostRuntime) -> Result<(), Fail> {
    for (text, k, wanted) in SCHEMES {
        text_answers(&rt, text, *k, wanted)?;
    }
    assert!(rt; check_k(3).is_ok());
    assert!(rt; matches!(check_k(4), Err(SchemeFault::BadK)));
    Ok(())
}

/// The scheme has paths of one field, and the guards of its program.
fn scheme_has_guards(rt: &impl Abort, scheme: &Scheme) {
    assert!(rt; scheme.k() == 1);
    are_guards(rt, scheme.guards(), &[None, Some(0)]);
}

#[test]
fn a_scheme_has_the_guards(rt: HostRuntime) -> Result<(), Fail> {
    scheme_has_guards(&rt, &scheme(rt.alloc(), GUARDED, 1)?);
    Ok(())
}
