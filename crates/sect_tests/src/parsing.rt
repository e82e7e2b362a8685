//! Source texts that are read, printed or refused.

use crate::programs::{ACCOUNTS, APART, CHAIN, GUARDED, LIST, NULL, SHARED};
use sect_front::{FrontFault, MOST_BYTES, Tree, is_name, is_same, parse, print, tokens_of};
use std::alloc::{AllocError, Global};
use std::test::Fail;

/// Programs of all forms, named by what they show.
const PROGRAMS: &[(&str, &[u8])] = &[
    ("an empty section", b"thread e { atomic { } }"),
    (
        "one object",
        b"record Acct { int bal; }\nglobal Acct a;\n\
        thread p { int t; atomic { t = a.bal; t = t + 1; a.bal = t; } }",
    ),
    (
        "two threads at one object",
        b"record Acct { int bal; }\nglobal Acct a;\n\
        thread p { int t; atomic { t = a.bal; t = t + 1; a.bal = t; } }\n\
        thread q { int t; atomic { t = a.bal; t = t + 1; a.bal = t; } }\n",
    ),
    ("a list", LIST),
    ("classes", SHARED),
    (
        "two names of one object",
        b"record Cell { int val; }\nglobal Cell a;\n\
        thread t { Cell x; Cell y; int v; x = a; y = a;\n\tatomic { v = x.val; y.val = 3; } }",
    ),
    ("a reader and a writer", APART),
    ("a path without a class", NULL),
    ("two sections of a thread", CHAIN),
    ("a hint", GUARDED),
    ("one class of two objects", ACCOUNTS),
    ("no section", b"thread f { int x; x = 1; x = 2; }"),
    ("a procedure", MOVE),
    (
        "procedures that call each other",
        b"proc f() { call g(); }\nproc g() { if (1 == 1) { call f(); } else { call g(); } }",
    ),
];

/// Two threads that call a procedure with parameters and a local.
const MOVE: &[u8] = b"record Acct { int bal; } global Acct a; global Acct b;\n\
    proc move(Acct x, Acct y, int n) { int t; t = x.bal; t = t - n; x.bal = t; t = y.bal; t = t + n; y.bal = t; }\n\
    thread p { atomic { call move(a, b, 3); } } thread q { atomic { call move(b, a, 1); } }";

#[test]
fn accepts_every_form(rt: HostRuntime) -> Result<(), Fail> {
    for (name, text) in PROGRAMS {
        assert!(rt; parse(rt.alloc(), text).is_ok(), "{name}");
    }
    for text in [
        b"".as_slice(),
        b" \t\r\n// a comment of any bytes: \xff#!".as_slice(),
        b"record R protected_by a protected_by b protected_by a { } global R a;".as_slice(),
        b"thread t { int x; x=1+2;x=x*x;x=x-3;if(x<=3){}else{}while(x<null){}if(x!=1){print x;}}".as_slice(),
        b"thread aaaaaaaaaaaaaaaaaaaaaaaaaaaaaaaa { _9.A_z = 9223372036854775807; x = 0; }".as_slice(),
        b"proc f(f f){f f;call f(f,null,0);call f();}thread f{f f;call f(1);f=f;}".as_slice(),
    ] {
        assert!(rt; parse(rt.alloc(), text).is_ok());
    }
    Ok(())
}

#[test]
fn every_beginning_of_a_program(rt: HostRuntime) -> Result<(), Fail> {
    for (name, text) in PROGRAMS {
        for end in 0..text.len() {
            let answer = parse(rt.alloc(), &text[..end]);
            assert!(rt;
                matches!(
                    answer,
                    Ok(_)
                        | Err(
                            FrontFault::BadByte { .. }
                                | FrontFault::Unexpected { .. }
                                | FrontFault::UnexpectedEnd { .. }
                        )
                ),
                "{name} {end}"
            );
        }
    }
    Ok(())
}

/// Texts that are refused, and the line that says why.
const REFUSALS: &[(&[u8], &[u8])] = &[
    (b"thread t } $", b"1 BadByte line 1"),
    (b"thread\n\n #", b"1 BadByte line 3"),
    (b"thread t {\n x = 1 ! = 2; }", b"1 BadByte line 2"),
    (b"/ comment", b"1 BadByte line 1"),
    (b"\n\x00", b"1 BadByte line 2"),
    (b"thread t { int x; x = 01; }", b"2 BadNumber line 1"),
    (
        b"thread t { int x; x = 9223372036854775808; }",
        b"2 BadNumber line 1",
    ),
    (b"// one\nthread t { x = 1y; }", b"2 BadNumber line 2"),
    (
        b"} 99999999999999999999999999999999999999999",
        b"2 BadNumber line 1",
    ),
    (
        b"thread aaaaaaaaaaaaaaaaaaaaaaaaaaaaaaaaa { }",
        b"3 LongName line 1",
    ),
    (b"thread t { x = y.f.g; }", b"4 Unexpected line 1"),
    (b"thread t {\n x = y z; }", b"4 Unexpected line 2"),
    (b"class", b"4 Unexpected line 1"),
    (b"global R g; record R { }", b"4 Unexpected line 1"),
    (b"thread t { }\nglobal R g;", b"4 Unexpected line 2"),
    (b"thread t { x = 1; int y; }", b"4 Unexpected line 1"),
    (b"thread if { }", b"4 Unexpected line 1"),
    (
        b"thread t { if (1 < 2) { } else\n if (1 < 2) { } }",
        b"4 Unexpected line 2",
    ),
    (b"thread t { new = 1; }", b"4 Unexpected line 1"),
    (b"thread e { atomic all all { } }\n", b"4 Unexpected line 1"),
    (b"thread e {\n int all; }", b"4 Unexpected line 2"),
    (b"thread e { all { } }", b"4 Unexpected line 1"),
    (b"thread t { } }", b"4 Unexpected line 1"),
    (b"thread t { atomic {", b"5 UnexpectedEnd line 1"),
    (b"thread t {\n\n", b"5 UnexpectedEnd line 2"),
    (b"thread t { // }\n }\nrecord", b"4 Unexpected line 3"),
    (b"thread t { x = 1", b"5 UnexpectedEnd line 1"),
    (b"record R {\n", b"5 UnexpectedEnd line 1"),
    (b"record R {\n ", b"5 UnexpectedEnd line 2"),
    (b"proc f(int x,) { }", b"4 Unexpected line 1"),
    (b"proc f(,) { }", b"4 Unexpected line 1"),
    (b"proc f(int x int y) { }", b"4 Unexpected line 1"),
    (b"proc f(x) { }", b"4 Unexpected line 1"),
    (b"proc f(1) { }", b"4 Unexpected line 1"),
    (b"proc f { }", b"4 Unexpected line 1"),
    (b"proc f(int x);", b"4 Unexpected line 1"),
    (b"proc f() { }\nglobal R g;", b"4 Unexpected line 2"),
    (b"thread t { }\nproc f() { }", b"4 Unexpected line 2"),
    (b"proc f() { x = 1; int y; }", b"4 Unexpected line 1"),
    (b"thread t { call f(,); }", b"4 Unexpected line 1"),
    (b"thread t { call f(1,); }", b"4 Unexpected line 1"),
    (b"thread t { call f(1\n2); }", b"4 Unexpected line 2"),
    (b"thread t { call f(x.y); }", b"4 Unexpected line 1"),
    (b"thread t { call f; }", b"4 Unexpected line 1"),
    (b"thread t { call f()\n}", b"4 Unexpected line 2"),
    (b"thread t { x = call f(); }", b"4 Unexpected line 1"),
    (b"thread t { x = 1, 2; }", b"4 Unexpected line 1"),
    (b"thread t { int call; }", b"4 Unexpected line 1"),
    (b"thread proc { }", b"4 Unexpected line 1"),
    (b"proc f(int", b"5 UnexpectedEnd line 1"),
    (b"proc f()\n{\n", b"5 UnexpectedEnd line 2"),
    (b"thread t { call f(1,", b"5 UnexpectedEnd line 1"),
];

#[test]
fn refuses_with_number_and_line(rt: HostRuntime) -> Result<(), Fail> {
    for (text, wanted) in REFUSALS {
        let answer = match parse(rt.alloc(), text) {
            Ok(_) => format!(in rt.alloc(); "accepted")?,
            Err(fault) => format!(in rt.alloc(); "{fault}")?,
        };
        assert!(rt; answer.as_bytes() == *wanted, "{answer}");
    }
    Ok(())
}

/// A thread or a procedure with so many blocks in one another, its own braces counted, and a line for each.
fn nested(alloc: Global, head: &[u8], depth: usize) -> Result<Vec<u8>, AllocError> {
    let mut text = Vec::new(alloc);
    text.extend_from_slice(head)?;
    for _ in 1..depth {
        text.extend_from_slice(b"\nif (1 == 1) {")?;
    }
    for _ in 0..depth {
        text.push(b'}')?;
    }
    Ok(text)
}

#[test]
fn blocks_of_depth_33(rt: HostRuntime) -> Result<(), Fail> {
    for head in [b"thread t {".as_slice(), b"proc f() {".as_slice()] {
        assert!(rt; parse(rt.alloc(), nested(rt.alloc(), head, 32)?.as_slice()).is_ok());
        assert!(rt;
            matches!(
                parse(rt.alloc(), nested(rt.alloc(), head, 33)?.as_slice()),
                Err(FrontFault::TooDeep { line: 33 })
            )
        );
    }
    Ok(())
}

#[test]
fn texts_above_the_size(rt: HostRuntime) -> Result<(), Fail> {
    let mut text = vec![in rt.alloc(); b' '; MOST_BYTES]?;
    assert!(rt; parse(rt.alloc(), text.as_slice()).is_ok());
    text.push(b' ')?;
    assert!(rt;
        matches!(
            parse(rt.alloc(), text.as_slice()),
            Err(FrontFault::TooLarge)
        )
    );
    Ok(())
}

/// The text that is printed of a text's tree.
fn printed(alloc: Global, text: &[u8]) -> Result<Vec<u8>, Fail> {
    let tree = parse(alloc, text)?;
    Ok(print(alloc, &tree)?)
}

/// The tree that is read from what is printed of a tree.
fn read_back(alloc: Global, tree: &Tree) -> Result<Tree, Fail> {
    let text = print(alloc, tree)?;
    Ok(parse(alloc, text.as_slice())?)
}

/// Whether what is printed of a text's tree reads back as that tree.
fn reads_back(alloc: Global, text: &[u8]) -> Result<bool, Fail> {
    let tree = parse(alloc, text)?;
    let back = read_back(alloc, &tree)?;
    Ok(is_same(&tree, &back))
}

/// How many tokens a text's tree has.
fn token_count(alloc: Global, text: &[u8]) -> Result<usize, Fail> {
    let tree = parse(alloc, text)?;
    Ok(tokens_of(alloc, &tree)?.len())
}

#[test]
fn prints_what_reads_back(rt: HostRuntime) -> Result<(), Fail> {
    for (name, text) in PROGRAMS {
        assert!(rt; reads_back(rt.alloc(), text)?, "{name}");
    }
    Ok(())
}

#[test]
fn trees_of_different_texts_differ(rt: HostRuntime) -> Result<(), Fail> {
    let tree = parse(rt.alloc(), b"thread f { int x; x = 1; }")?;
    for text in [
        b"thread f { int x; x = 2; }".as_slice(),
        b"thread g { int x; x = 1; }".as_slice(),
        b"thread f { int x; x = 1; x = 1; }".as_slice(),
        b"".as_slice(),
    ] {
        let other = parse(rt.alloc(), text)?;
        assert!(rt; !is_same(&tree, &other));
    }
    Ok(())
}

/// Texts, and each as it is printed.
const PRINTED: &[(&[u8], &[u8])] = &[
    (b"// nothing", b""),
    (
        b"thread f { int x; x = 1; x = 2; }",
        b"thread f {\nint x ;\nx = 1 ;\nx = 2 ;\n}\n",
    ),
    (
        b"proc f(int n, R x) { call f(1, null); }",
        b"proc f ( int n , R x ) {\ncall f ( 1 , null ) ;\n}\n",
    ),
    (
        b"record R protected_by a { int f; } global R a; thread t { R x; if (x != null) { x = a; } else { } \
        atomic { x = new R; x.f = 2; } atomic all { while (1 <= 2) { print x; } x = a.f; x = 1 - 2; } }",
        b"record R protected_by a {\nint f ;\n}\nglobal R a ;\nthread t {\nR x ;\nif ( x != null ) {\nx = a ;\n}\n\
        else {\n}\natomic {\nx = new R ;\nx . f = 2 ;\n}\natomic all {\nwhile ( 1 <= 2 ) {\nprint x ;\n}\nx = a . f ;\n\
        x = 1 - 2 ;\n}\n}\n",
    ),
];

#[test]
fn prints_line_by_line(rt: HostRuntime) -> Result<(), Fail> {
    for (text, wanted) in PRINTED {
        let found = printed(rt.alloc(), text)?;
        assert!(rt; found.as_slice() == *wanted);
    }
    Ok(())
}

#[test]
fn a_text_has_its_tokens(rt: HostRuntime) -> Result<(), Fail> {
    let count = token_count(rt.alloc(), b"thread f { int x; x = 1; x = 2; }")?;
    assert_eq!(rt; count, 15);
    Ok(())
}

#[test]
fn names(rt: HostRuntime) {
    for name in [
        b"a".as_slice(),
        b"_".as_slice(),
        b"Z9_".as_slice(),
        b"threads".as_slice(),
        b"aaaaaaaaaaaaaaaaaaaaaaaaaaaaaaaa".as_slice(),
    ] {
        assert!(rt; is_name(name));
    }
    for other in [
        b"".as_slice(),
        b"9".as_slice(),
        b"a b".as_slice(),
        b"a.b".as_slice(),
        b"thread".as_slice(),
        b"class".as_slice(),
        b"call".as_slice(),
        b"proc".as_slice(),
        b"protected_by".as_slice(),
        b"aaaaaaaaaaaaaaaaaaaaaaaaaaaaaaaaa".as_slice(),
    ] {
        assert!(rt; !is_name(other));
    }
}
