//! What is said of a token that can't stand where it does.

ghost use Rattle.std.specs.{Prelude.{◌≡◌, ◌≤◌, length}, List.{list_any}, Str.{bytes_eq}};
ghost use Rattle.sect_front.specs.{FaultPlaces.{IsWithin}, Samples.{kind_spelling}};
ghost use Rattle.sect_advice.specs.Advising.{expects as expects_by, outside as outside_by, behind_name as behind_by};
ghost use Rattle.sect_advice.specs.Advising.{at_value as value_by, at_end as end_by, behind_word as word_by};
ghost use Rattle.sect_advice.specs.Advising.{inside as inside_by, on_token as on_token_by};

use crate::advice::Advice;
use crate::before::{begins_line, bytes_between, word_before};
use crate::word::{is_text, of_statement, unless};
use sect_front::{Span, TokenKind};

/// Whether a kind of tokens is spelled so.
fn is_spelled(kind: TokenKind, word: &[u8]) -> bool
    ensures { result ≡ bytes_eq (kind_spelling kind) word.now }
{
    is_text(kind.spelling().as_bytes(), word)
}

/// Whether one of these kinds is spelled so.
fn expects(kinds: &[TokenKind], word: &[u8]) -> bool
    ensures { result ≡ expects_by kinds.now word.now }
{
    kinds.iter().any(|kind| is_spelled(*kind, word))
}

/// What is said of a token outside threads and procedures.
fn outside(word: &[u8]) -> Option<Advice>
    ensures { result ≡ outside_by word.now }
{
    if is_text(word, b";") {
        Some(Advice::SpareSemicolon)
    } else if is_text(word, b"}") {
        Some(Advice::SpareBrace)
    } else if is_text(word, b"record") || is_text(word, b"global") || is_text(word, b"proc") {
        Some(Advice::Order)
    } else if is_text(word, b"struct") || is_text(word, b"typedef") {
        Some(Advice::Record)
    } else {
        Some(Advice::Outside)
    }
}

/// What is said of a token behind the first name of a statement.
fn behind_name(before: &[u8], word: &[u8]) -> Option<Advice>
    ensures { result ≡ behind_by before.now word.now }
{
    let by_sign = if is_text(word, b"(") {
        Some(Advice::Call)
    } else if is_text(word, b"+") || is_text(word, b"-") || is_text(word, b"*") {
        Some(Advice::Compound)
    } else {
        None
    };
    unless(of_statement(before), by_sign)
}

/// What is said of a token where a value may stand.
fn at_value(word: &[u8]) -> Option<Advice>
    ensures { result ≡ value_by word.now }
{
    if is_text(word, b"-") {
        Some(Advice::Negative)
    } else if is_text(word, b"call") {
        Some(Advice::Call)
    } else {
        None
    }
}

/// What is said of a token where a statement or a declaration may end.
fn at_end(word: &[u8], new_line: bool) -> Option<Advice>
    ensures { result ≡ end_by word.now new_line }
{
    if is_text(word, b"=") {
        Some(Advice::Initial)
    } else if is_text(word, b",") {
        Some(Advice::OneEach)
    } else if is_text(word, b"(") {
        Some(Advice::Call)
    } else if new_line {
        Some(Advice::Semicolon)
    } else {
        None
    }
}

/// What is said of a token behind a word of the language.
fn behind_word(before: &[u8], word: &[u8]) -> Option<Advice>
    ensures { result ≡ word_by before.now word.now }
{
    if is_text(before, b"if") || is_text(before, b"while") {
        Some(Advice::Parentheses)
    } else if is_text(before, b"else") && is_text(word, b"if") {
        Some(Advice::ElseIf)
    } else {
        None
    }
}

/// What is said of a token in a thread or a procedure, by what may stand there.
fn inside(kinds: &[TokenKind], before: &[u8], word: &[u8], new_line: bool) -> Option<Advice>
    ensures { result ≡ inside_by kinds.now before.now word.now new_line }
{
    if is_text(word, b".") {
        Some(Advice::OneField)
    } else if expects(kinds, b"<") {
        Some(Advice::Test)
    } else if expects(kinds, b"print") {
        if is_text(word, b"int") {
            Some(Advice::LocalsFirst)
        } else {
            None
        }
    } else if expects(kinds, b"=") {
        behind_name(before, word)
    } else if expects(kinds, b"null") {
        at_value(word)
    } else if expects(kinds, b";") {
        at_end(word, new_line)
    } else {
        behind_word(before, word)
    }
}

/// What is said of a token of these bytes, which can't stand where it does, but one of these kinds may.
pub fn on_token(source: &[u8], span: Span, kinds: &[TokenKind]) -> Option<Advice>
    requires { IsWithin (length source.now) span }
    ensures { result ≡ on_token_by source.now span kinds.now }
{
    let word = bytes_between(source, span.start, span.end);
    if expects(kinds, b"thread") {
        outside(word)
    } else {
        let before = word_before(source, span.start);
        inside(kinds, before, word, begins_line(source, span.start))
    }
}
