//! Places of the items of a text that has each form, found by hand.

use sect_front::{GappedText, innermost_brace, parse, parse_gapped, tokens_of};
use sect_places::{ItemWords, Position, TokenRange, Wish, item_spans, item_words, position_of};
use std::alloc::Global;
use std::test::Fail;

/// A text that has each form of an item.
const FORMS: &[u8] = b"record R protected_by g { int a; R b; }\nglobal R g;\n\
    proc f(R x, int n) { int t; t = x . a; if (t<=n) { print t; } else { } call f(x,null); }\n// c;\n\
    thread p { int i; while (i<3) { i=i+1; } atomic all { call f(g,9223372036854775807); g.a = i ; }\n\
    atomic // all\n{ x=new\n  R; } }";

/// The bytes of each item, and its line and column.
const WANTED: &[(&[u8], usize, usize)] = &[
    (b"record R", 1, 1),
    (b"int a", 1, 27),
    (b"R b", 1, 34),
    (b"global R g", 2, 1),
    (b"proc f", 3, 1),
    (b"R x", 3, 8),
    (b"int n", 3, 13),
    (b"int t", 3, 22),
    (b"t = x . a", 3, 29),
    (b"if (t<=n)", 3, 40),
    (b"print t", 3, 52),
    (b"call f(x,null)", 3, 72),
    (b"thread p", 5, 1),
    (b"int i", 5, 12),
    (b"while (i<3)", 5, 19),
    (b"i=i+1", 5, 33),
    (b"atomic all", 5, 42),
    (b"call f(g,9223372036854775807)", 5, 55),
    (b"g.a = i", 5, 86),
    (b"atomic", 6, 1),
    (b"x=new\n  R", 7, 3),
];

#[test]
fn spans_of_every_form(rt: HostRuntime) -> Result<(), Fail> {
    let spans = item_spans(rt.alloc(), FORMS)?;
    assert_eq!(rt; spans.len(), WANTED.len());
    for (span, (text, line, column)) in spans.iter().zip(WANTED) {
        assert!(rt;
            FORMS.get(span.start..span.end) == Some(*text),
            "line {line} column {column}"
        );
        if span.start <= FORMS.len() {
            assert_eq!(rt;
                position_of(FORMS, span.start),
                Position {
                    line: *line,
                    column: *column,
                }
            );
        }
    }
    Ok(())
}

/// A text with long gaps: before its first token, three between tokens, and behind its last.
const GAPPED: &[u8] = b"  // blanks and a comment before the first token\nrecord R {\n\
    int a; // a comment behind a declaration, and blanks\n    \n    int b; }\nglobal R g; // short\n\
    thread t {                                        atomic { g.a = 1; // a comment behind a statement\n  \
    } } // a comment that the end closes";

/// Its long gaps.
const GAPS: &[&[u8]] = &[
    b"  // blanks and a comment before the first token\n",
    b" // a comment behind a declaration, and blanks\n    \n    ",
    b"                                        ",
    b" // a comment behind a statement\n  ",
    b" // a comment that the end closes",
];

#[test]
fn long_gaps_are_kept(rt: HostRuntime) -> Result<(), Fail> {
    let mut gaps = Vec::new(rt.alloc());
    assert!(rt; parse_gapped(rt.alloc(), GAPPED, &mut gaps).is_ok());
    assert_eq!(rt; gaps.len(), GAPS.len());
    for (gap, wanted) in gaps.iter().zip(GAPS) {
        assert!(rt; GAPPED.get(gap.start..gap.end) == Some(*wanted));
    }
    Ok(())
}

/// Whether the same words were read.
fn are_same(some: &ItemWords, others: &ItemWords) -> bool {
    some.tokens.len() == others.tokens.len()
        && some.names.len() == others.names.len()
        && (some.spans.iter().zip(others.spans.iter())).all(|(one, other)| one.start == other.start
            && one.end == other.end)
        && (some.names.iter().zip(others.names.iter())).all(|(one, other)| one.span.start
            == other.span.start
            && one.used.name == other.used.name)
}

/// How many tokens and names of a text are read by the help of its long gaps, if as many and the same ones are read
/// without.
fn read_both_ways(alloc: Global, source: &[u8]) -> Result<Option<(usize, usize)>, Fail> {
    let tree = parse(alloc, source)?;
    let mut gaps = Vec::new(alloc);
    let gapped = parse_gapped(alloc, source, &mut gaps).is_ok();
    let text = GappedText {
        bytes: source,
        gaps: gaps.as_slice(),
    };
    let count = tokens_of(alloc, &tree)?.len();
    let all = TokenRange { first: 0, count };
    let wish = Wish::Mattering(0);
    let with = item_words(alloc, text, &tree, wish, all)?;
    let without = item_words(alloc, GappedText::new(source), &tree, wish, all)?;
    if gapped && are_same(&with, &without) {
        Ok(Some((with.tokens.len(), with.names.len())))
    } else {
        Ok(None)
    }
}

#[test]
fn words_are_the_same_behind_long_gaps(rt: HostRuntime) -> Result<(), Fail> {
    assert!(rt; read_both_ways(rt.alloc(), GAPPED)? == Some((27, 6)));
    let none = b"thread t{int x;x=1;}";
    assert!(rt; read_both_ways(rt.alloc(), none)? == Some((11, 2)));
    Ok(())
}

#[test]
fn the_open_brace_is_found_behind_long_gaps(rt: HostRuntime) -> Result<(), Fail> {
    let source = b"// a comment that is long enough to be kept\nthread t { atomic { } atomic {\n\
        // another one, which is as long as the first\n";
    let mut gaps = Vec::new(rt.alloc());
    assert!(rt; parse_gapped(rt.alloc(), source, &mut gaps).is_err());
    assert_eq!(rt; gaps.len(), 2);
    let text = GappedText {
        bytes: source,
        gaps: gaps.as_slice(),
    };
    assert!(rt; innermost_brace(rt.alloc(), text)? == Some(73));
    assert!(rt; innermost_brace(rt.alloc(), GappedText::new(source))? == Some(73));
    Ok(())
}
