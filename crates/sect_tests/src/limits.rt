//! The limits of a program, each at its number and one past it.

use crate::typing::answer;
use std::alloc::Global;
use std::fmt::Write;
use std::process::Abort;
use std::test::Fail;

/// Adds numbered copies of a text, in which `#` stands for the number.
fn copies(all: &mut String, text: &str, count: usize) -> Result<(), Fail> {
    for number in 0..count {
        for part in text.split_inclusive('#') {
            match part.strip_suffix('#') {
                Some(before) => {
                    all.push_str(before)?;
                    write!(all, "{number}")?;
                }
                None => all.push_str(part)?,
            }
        }
    }
    Ok(())
}

/// A text of three parts, of which the middle one stands there so often.
fn repeated(
    alloc: Global,
    before: &str,
    text: &str,
    count: usize,
    after: &str,
) -> Result<String, Fail> {
    let mut all = String::new(alloc);
    all.push_str(before)?;
    copies(&mut all, text, count)?;
    all.push_str(after)?;
    Ok(all)
}

/// The text of these parts, of which the second stands there so often, has this answer.
fn answers(
    rt: &(impl Abort + AllocGlobal),
    (before, text, count, after): (&str, &str, usize, &str),
    wanted: &str,
) -> Result<(), Fail> {
    let source = repeated(rt.alloc(), before, text, count, after)?;
    let found = answer(rt.alloc(), &source)?;
    assert!(rt; found.as_str() == wanted, "{count} of {text}: {found}");
    Ok(())
}

/// What stands before, what is repeated, how often it may be, what stands after, and the answer to one more.
const LIMITS: &[(&str, &str, u16, &str, &str)] = &[
    ("", "record r# { }", 64, "", "15 TooMany item 64"),
    (
        "record a { int f; } record r { ",
        "r f#; ",
        16,
        "}",
        "15 TooMany item 19",
    ),
    (
        "record r { } ",
        "global r g#; ",
        256,
        "",
        "15 TooMany item 257",
    ),
    ("", "thread t# { }", 64, "", "15 TooMany item 64"),
    (
        "thread s { int x; } thread t { ",
        "int x#; ",
        64,
        "}",
        "15 TooMany item 67",
    ),
    (
        "thread t { ",
        "atomic { } ",
        256,
        "}",
        "15 TooMany item 257",
    ),
    (
        "thread s { int i; while (i < 1) { ",
        "atomic { } ",
        256,
        "} }",
        "15 TooMany item 259",
    ),
    (
        "record r { } thread t { r x; atomic { ",
        "x = new r; ",
        1024,
        "} }",
        "15 TooMany item 1028",
    ),
    (
        "record r { } global r a; global r b; thread t { r x; atomic { ",
        "x = new r; ",
        1022,
        "} }",
        "15 TooMany item 1028",
    ),
    (
        "thread t { int x; ",
        "x = 1; ",
        4096,
        "}",
        "15 TooMany item 4098",
    ),
    (
        "thread t { int x; if (1 == 1) { ",
        "x = x + 1; ",
        4095,
        "}}",
        "15 TooMany item 4098",
    ),
    (
        "thread t { ",
        "while (1 < 2) { } ",
        4096,
        "}",
        "15 TooMany item 4097",
    ),
    (
        "thread s { atomic { } } thread t { ",
        "if (1 == 1) { } else { } ",
        4095,
        "}",
        "15 TooMany item 4098",
    ),
    (
        "thread t { atomic { ",
        "print 1; ",
        4095,
        "}}",
        "15 TooMany item 4097",
    ),
    (
        "thread s { int x; x = 1; } thread t { int x; ",
        "x = 1; ",
        4095,
        "}",
        "15 TooMany item 4100",
    ),
    // Of procedures, and of the text that calls expand to.
    ("", "proc p#() { }", 64, "", "15 TooMany item 64"),
    (
        "proc f(",
        "int x#, ",
        63,
        "int y) { }",
        "15 TooMany item 65",
    ),
    (
        "proc f(int n) { ",
        "int x#; ",
        63,
        "}",
        "15 TooMany item 65",
    ),
    (
        "proc f() { } thread t { atomic { ",
        "call f(); ",
        4096,
        "}}",
        "15 TooMany item 4099",
    ),
    (
        "proc f() { } proc g() { call f(); } thread t { atomic { ",
        "call g(); ",
        2048,
        "}}",
        "15 TooMany item 2053",
    ),
    (
        "proc f(int n) { } thread t { atomic { ",
        "call f(1); ",
        4095,
        "}}",
        "15 TooMany item 4099",
    ),
    (
        "proc f() { int x; ",
        "x = 1; ",
        4094,
        "} thread t { atomic { call f(); } }",
        "15 TooMany item 4099",
    ),
    (
        "record r { } global r a; proc f() { r x; x = new r; } thread t { atomic { ",
        "call f(); ",
        1023,
        "}}",
        "15 TooMany item 1030",
    ),
];

#[test]
fn limits_are_exact(rt: HostRuntime) -> Result<(), Fail> {
    for (before, text, most, after, wanted) in LIMITS {
        answers(&rt, (before, text, *most as usize, after), "")?;
        answers(&rt, (before, text, *most as usize + 1, after), wanted)?;
    }
    Ok(())
}

/// Where several rules are broken at the item that passes a limit, the least is named.
const PAST_LIMITS: &[(&str, &str, usize, &str, &str)] = &[
    ("", "record r# { }", 64, "record r0 { }", "11 Twice item 64"),
    (
        "record r { ",
        "int f#; ",
        16,
        "s f0; }",
        "10 Unknown item 17",
    ),
    (
        "record r { } thread t { r x; atomic { ",
        "x = new r; ",
        1024,
        "} x = new r; }",
        "13 SharedOutside item 1028",
    ),
    (
        "thread t { ",
        "atomic { } ",
        255,
        "atomic { atomic { } } }",
        "14 Nested item 257",
    ),
    (
        "thread t { int x; ",
        "x = 1; ",
        4096,
        "x = null; }",
        "12 WrongType item 4098",
    ),
    ("", "proc p#() { }", 64, "proc p0() { }", "11 Twice item 64"),
    // A call that has no expansion passes no limit.
    (
        "proc f() { } thread t { atomic { ",
        "call f(); ",
        4096,
        "call f(1); }}",
        "17 Arguments item 4099",
    ),
];

#[test]
fn the_least_rule_at_a_limit(rt: HostRuntime) -> Result<(), Fail> {
    for (before, text, count, after, wanted) in PAST_LIMITS {
        answers(&rt, (before, text, *count, after), wanted)?;
    }
    Ok(())
}

/// What is repeated in procedures, for which no limit holds where they are declared.
const IN_PROCEDURES: &[(&str, &str, usize, &str, &str)] = &[
    ("proc f() { int x; ", "x = 1; ", 100_000, "}", ""),
    (
        "proc f() { int x; ",
        "x = 1; ",
        100_000,
        "y = 1; }",
        "10 Unknown item 100002",
    ),
    (
        "record r { } proc f() { r x; ",
        "x = new r; ",
        1025,
        "}",
        "",
    ),
    (
        "proc f() { } proc g() { ",
        "call f(); ",
        4097,
        "} thread t { }",
        "",
    ),
    // A way back through the 65th procedure is named at the call, which stands before it.
    (
        "",
        "proc p#() { } ",
        63,
        "proc q() { call r(); } proc r() { call q(); }",
        "16 Recursion item 64",
    ),
];

#[test]
fn procedures_alone_pass_no_limit(rt: HostRuntime) -> Result<(), Fail> {
    for (before, text, count, after, wanted) in IN_PROCEDURES {
        answers(&rt, (before, text, *count, after), wanted)?;
    }
    Ok(())
}

/// How many blocks stand in one another in a procedure, how many round its call in a section, and the answer.
const BLOCKS: &[(usize, usize, &str)] = &[
    (20, 10, ""),
    (21, 10, "15 TooMany item 34"),
    (30, 0, ""),
    (31, 0, "15 TooMany item 34"),
    (0, 30, ""),
    (1, 30, "15 TooMany item 34"),
];

/// Adds a text within so many blocks.
fn put_in_blocks(all: &mut String, text: &str, count: usize) -> Result<(), Fail> {
    copies(all, "if (1 == 1) { ", count)?;
    all.push_str(text)?;
    copies(all, "} ", count)
}

/// A procedure of so many blocks, called within so many.
fn called_in_blocks(alloc: Global, deep: usize, around: usize) -> Result<String, Fail> {
    let mut source = String::new(alloc);
    source.push_str("proc f() { ")?;
    put_in_blocks(&mut source, "", deep)?;
    source.push_str("} thread t { atomic { ")?;
    put_in_blocks(&mut source, "call f(); ", around)?;
    source.push_str("} }")?;
    Ok(source)
}

/// A procedure of so many blocks, called within so many, has this answer.
fn answers_in_blocks(
    rt: &(impl Abort + AllocGlobal),
    deep: usize,
    around: usize,
    wanted: &str,
) -> Result<(), Fail> {
    let source = called_in_blocks(rt.alloc(), deep, around)?;
    let found = answer(rt.alloc(), &source)?;
    assert!(rt; found.as_str() == wanted, "{deep} and {around}: {found}");
    Ok(())
}

#[test]
fn blocks_of_the_expanded_text(rt: HostRuntime) -> Result<(), Fail> {
    for (deep, around, wanted) in BLOCKS {
        answers_in_blocks(&rt, *deep, *around, wanted)?;
    }
    Ok(())
}
