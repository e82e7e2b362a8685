//! Which kinds of tokens are told.

ghost use Rattle.std.specs.{Prelude.{◌≡◌, ◌++◌, OnOk, take}, List.{flat_map}, String.{string_bytes}};
ghost use Rattle.sect_lint.specs.Kinds.{kind_words, open_kind as open_kind_by, lead as lead_by};
ghost use Rattle.sect_lint.specs.Kinds.{separator as separator_by, next_kind, rest_text, kinds_text};

use sect_front::TokenKind;
use std::alloc::AllocError;

/// How a kind of tokens is told that has many spellings.
fn open_kind(kind: TokenKind) -> &'static str
    ensures { result.now ≡ open_kind_by kind }
{
    match kind {
        TokenKind::Name => "a name",
        _ => "a number",
    }
}

/// Adds how a kind of tokens is told.
fn put_kind(text: &mut String, kind: TokenKind) -> Result<(), AllocError>
    ensures { OnOk result (string_bytes text.new ≡ string_bytes text.old ++ kind_words kind) }
{
    let spelling = kind.spelling();
    if spelling.is_empty() {
        return text.push_str(open_kind(kind));
    }
    text.push_str("`")?;
    text.push_str(spelling)?;
    text.push_str("`")
}

/// What stands before the first of more than two kinds, of which these are all but the first.
fn lead(others: &[TokenKind]) -> &'static str
    ensures { result.now ≡ lead_by others.now }
{
    if others.len() > 1 { "one of " } else { "" }
}

/// What stands between kinds, of which these are all but the first.
fn separator(others: &[TokenKind]) -> &'static str
    ensures { result.now ≡ separator_by others.now }
{
    if others.len() > 1 { ", " } else { " or " }
}

/// Adds a kind behind others.
fn put_next(text: &mut String, between: &str, kind: TokenKind) -> Result<(), AllocError>
    ensures { OnOk result (string_bytes text.new ≡ string_bytes text.old ++ next_kind between.now kind) }
{
    text.push_str(between)?;
    put_kind(text, kind)
}

/// Adds kinds behind another.
fn put_others(text: &mut String, between: &str, kinds: &[TokenKind]) -> Result<(), AllocError>
    ensures { OnOk result (string_bytes text.new
        ≡ string_bytes text.old ++ flat_map (next_kind between.now) kinds.now) }
{
    for kind in kinds {
        put_next(text, between, *kind)?;
    }
    Ok(())
}

/// The first of them, five at most.
fn first_five(kinds: &[TokenKind]) -> &[TokenKind]
    ensures { result.now ≡ take 5 kinds.now }
{
    if kinds.len() > 5 {
        kinds.split_at(5).0
    } else {
        kinds
    }
}

/// Adds that kinds are left out, if there are more than five.
fn put_rest(text: &mut String, kinds: &[TokenKind]) -> Result<(), AllocError>
    ensures { OnOk result (string_bytes text.new ≡ string_bytes text.old ++ rest_text kinds.now) }
{
    if kinds.len() > 5 {
        return text.push_str(", ..");
    }
    Ok(())
}

/// Adds which kinds of tokens may stand somewhere, six of them at most.
pub fn put_kinds(text: &mut String, kinds: &[TokenKind]) -> Result<(), AllocError>
    ensures { OnOk result (string_bytes text.new ≡ string_bytes text.old ++ kinds_text kinds.now) }
{
    let Some((first, others)) = kinds.split_first() else {
        return Ok(());
    };
    text.push_str("expected ")?;
    text.push_str(lead(others))?;
    put_kind(text, *first)?;
    put_others(text, separator(others), first_five(others))?;
    put_rest(text, others)
}
