//! Questions as text.

use crate::programs::program_of;
use sect_asking::{QuestionFault, print_question, read_question};
use sect_types::Program;
use std::alloc::{AllocGlobal, Global};
use std::process::Abort;
use std::test::Fail;

/// Two records, of which one refers to both.
const ASKED: &[u8] = b"record Acct { int bal; } record Node { int val; Node next; Acct of; } \
global Acct a; global Node head; thread get { } thread always { }";

/// The question is read, and printed so.
fn reads(
    rt: &(impl Abort + AllocGlobal),
    program: &Program,
    text: &str,
    printed: &str,
) -> Result<(), Fail> {
    let question = read_question(rt.alloc(), program, text.as_bytes())?;
    let found = print_question(rt.alloc(), program, &question)?;
    assert!(rt; found.as_str() == printed);
    let again = read_question(rt.alloc(), program, printed.as_bytes())?;
    let found = print_question(rt.alloc(), program, &again)?;
    assert!(rt; found.as_str() == printed);
    Ok(())
}

/// The question is refused so.
fn refuses(
    rt: &(impl Abort + AllocGlobal),
    program: &Program,
    text: &str,
    wanted: QuestionFault,
) -> Result<(), Fail> {
    match read_question(rt.alloc(), program, text.as_bytes()) {
        Ok(_) => assert!(rt; false),
        Err(fault) => assert!(rt; fault == wanted),
    }
    Ok(())
}

#[test]
fn questions_read_back(rt: HostRuntime) -> Result<(), Fail> {
    let program = program_of(rt.alloc(), ASKED)?;
    for text in [
        "always a.bal == 2",
        "exists a.bal + 1 * 3 - -2 <= head.next.val",
        "never head.next.of == a && head != null || null == null",
        "keeps (a.bal < 0 || 0 < a.bal) && (head.val == 1 && head.next == head)",
        "keeps !(a.bal == 1) && !(!(a.bal == 2 || a.bal == 3))",
        "ends",
        "outcomes 12",
        "first get always",
        "always print == []",
        "always print == [1, -2, 3]",
        "exists print[0] == #print || #-5 == #5 * 2",
        "never thread get == done || thread always == running",
        "never thread get == null || thread always == overflow || thread always == fuel",
    ] {
        reads(&rt, &program, text, text)?;
    }
    Ok(())
}

#[test]
fn questions_are_printed(rt: HostRuntime) -> Result<(), Fail> {
    let program = program_of(rt.alloc(), ASKED)?;
    for (text, printed) in [
        (" \t ends // at all", "ends"),
        ("first 1 0", "first always get"),
        ("never a.bal>1", "never 1 < a.bal"),
        ("keeps 1>=a.bal", "keeps a.bal <= 1"),
        (
            "exists ((a.bal == 1)&&(head == null))||(a.bal==2)",
            "exists a.bal == 1 && head == null || a.bal == 2",
        ),
        ("exists !a.bal == -0", "exists !(a.bal == 0)"),
        ("exists thread 0 != done", "exists !(thread get == done)"),
        ("exists print != [ ]", "exists !(print == [])"),
    ] {
        reads(&rt, &program, text, printed)?;
    }
    Ok(())
}

#[test]
fn questions_are_refused(rt: HostRuntime) -> Result<(), Fail> {
    use QuestionFault::{BadCondition, BadQuestion, UnknownName, WrongKind};
    let program = program_of(rt.alloc(), ASKED)?;
    for (text, wanted) in [
        ("always a.bal = 2", BadCondition(13)),
        ("always a.bel == 2", UnknownName(9)),
        ("always a.bal == null", WrongKind(13)),
        ("always thread z == done", UnknownName(14)),
        ("sometimes a.bal == 1", BadQuestion),
        ("", BadQuestion),
        ("always", BadCondition(6)),
        ("always a.bal == 1 )", BadCondition(18)),
        ("always (a.bal + 1) * 2 == 4", BadCondition(17)),
        ("always a.bal == 9223372036854775808", BadCondition(16)),
        ("always print < [1]", BadCondition(13)),
        ("always print == [1,]", BadCondition(19)),
        ("always thread get == ended", BadCondition(21)),
        ("ends now", BadCondition(5)),
        ("outcomes -1", BadCondition(9)),
        ("first", BadCondition(5)),
        ("first get nobody", UnknownName(10)),
        ("always b == null", UnknownName(7)),
        ("always thread 2 == done", UnknownName(14)),
        ("always a.bal.x == 1", WrongKind(13)),
        ("always a == head", WrongKind(9)),
        ("always a < a", WrongKind(9)),
        ("always 1 + null == 1", WrongKind(9)),
    ] {
        refuses(&rt, &program, text, wanted)?;
    }
    Ok(())
}

/// So many of this sign behind `always`, and a condition.
fn signs(alloc: Global, sign: &str, count: usize) -> Result<String, Fail> {
    let mut text = format!(in alloc; "always ")?;
    for _each in 0..count {
        text.push_str(sign)?;
    }
    text.push_str("a.bal == 1")?;
    Ok(text)
}

#[test]
fn operators_are_counted(rt: HostRuntime) -> Result<(), Fail> {
    let program = program_of(rt.alloc(), ASKED)?;
    // the `.` is one of 256
    for (sign, place) in [
        ("!", 264),
        ("1 == 1 || ", 2568),
        ("1 == 1 && ", 2568),
        ("1 + ", 1032),
    ] {
        let most = signs(rt.alloc(), sign, 255)?;
        assert!(rt; read_question(rt.alloc(), &program, most.as_bytes()).is_ok());
        let more = signs(rt.alloc(), sign, 256)?;
        refuses(
            &rt,
            &program,
            more.as_str(),
            QuestionFault::BadCondition(place),
        )?;
    }
    Ok(())
}
