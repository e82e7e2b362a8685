//! What is reported of a source text that is refused.

ghost use Rattle.std.specs.{Prelude.{◌≡◌, ◌≤◌, ◌++◌, All, OnOk, length}, Fmt.{decimal}, String.{string_bytes}};
ghost use Rattle.std.specs.List.{flat_map};
ghost use Rattle.sect_front.specs.FaultPlaces.{IsWithin};
ghost use Rattle.sect_lint.specs.Details.{position_text, place_text, detail_text, earlier_text, called_text};
ghost use Rattle.sect_lint.specs.Details.{next_text, circle_text};
ghost use Rattle.sect_lint.specs.{Details.{IsDetailWithin}, Reports.{heading, note_line, report}};

use crate::advised::wanted;
use crate::diagnostic::{Detail, Diagnostic};
use crate::excerpt::{put_excerpt, put_margin};
use crate::file::put_place_line;
use crate::kinds::put_kinds;
use crate::label::{put_counts, put_quoted, put_typed, put_types};
use crate::mistake::Mistake;
use sect_front::Span;
use sect_places::{LineIndex, Position, position_of};
use std::alloc::{AllocError, Global};
use std::fmt::Write;

/// Adds a line and a column.
fn put_position(text: &mut String, position: Position) -> Result<(), AllocError>
    ensures { OnOk result (string_bytes text.new ≡ string_bytes text.old ++ position_text position) }
{
    Ok(write!(text, "{}:{}", position.line, position.column)?)
}

/// Adds the line and the column of a place.
fn put_place(text: &mut String, source: &[u8], at: usize) -> Result<(), AllocError>
    requires { at ≤ length source.now }
    ensures { OnOk result (string_bytes text.new ≡ string_bytes text.old ++ place_text source.now at) }
{
    put_position(text, position_of(source, at))
}

/// Adds where a name is first declared.
fn put_earlier(text: &mut String, source: &[u8], at: usize) -> Result<(), AllocError>
    requires { at ≤ length source.now }
    ensures { OnOk result (string_bytes text.new ≡ string_bytes text.old ++ earlier_text source.now at) }
{
    text.push_str(" first declared at ")?;
    put_place(text, source, at)?;
    Ok(())
}

/// Adds a call with its place, behind these words.
fn put_call(
    text: &mut String,
    source: &LineIndex<'_>,
    called: Span,
    words: &str,
) -> Result<(), AllocError>
    requires { IsWithin (length source.now) called }
    ensures { OnOk result (string_bytes text.new ≡ string_bytes text.old
        ++ called_text source.now called words.now) }
{
    put_quoted(text, source.text(), called)?;
    text.push_str(words)?;
    put_position(text, source.position(called.start))
}

/// Adds a call behind others.
fn put_next(text: &mut String, source: &LineIndex<'_>, called: Span) -> Result<(), AllocError>
    requires { IsWithin (length source.now) called }
    ensures { OnOk result (string_bytes text.new ≡ string_bytes text.old ++ next_text source.now called) }
{
    text.push_str(", ")?;
    put_call(text, source, called, " at ")
}

/// Adds calls behind another.
fn put_others(text: &mut String, source: &LineIndex<'_>, calls: &[Span]) -> Result<(), AllocError>
    requires { All (IsWithin (length source.now)) calls.now }
    ensures { OnOk result (string_bytes text.new
        ≡ string_bytes text.old ++ flat_map (next_text source.now) calls.now) }
{
    for called in calls {
        put_next(text, source, *called)?;
    }
    Ok(())
}

/// Adds the calls of a circle, each with its place.
fn put_circle(text: &mut String, source: &LineIndex<'_>, calls: &[Span]) -> Result<(), AllocError>
    requires { All (IsWithin (length source.now)) calls.now }
    ensures { OnOk result (string_bytes text.new ≡ string_bytes text.old ++ circle_text source.now calls.now) }
{
    let Some((first, others)) = calls.split_first() else {
        return Ok(());
    };
    put_call(text, source, *first, " is called at ")?;
    put_others(text, source, others)
}

/// Adds what is said beside the carets.
fn put_detail(
    alloc: Global,
    text: &mut String,
    source: &[u8],
    detail: &Detail,
) -> Result<(), AllocError>
    requires { IsDetailWithin (length source.now) detail.now }
    ensures { OnOk result (string_bytes text.new ≡ string_bytes text.old ++ detail_text source.now detail.now) }
{
    match detail {
        Detail::Nothing => Ok(()),
        Detail::Bytes(count) => Ok(write!(text, " {count} bytes")?),
        Detail::OpenBrace(at) => {
            text.push_str(" the `{` at ")?;
            put_place(text, source, *at)?;
            text.push_str(" is open")
        }
        Detail::Earlier(span) => put_earlier(text, source, span.start),
        Detail::Type(part) => {
            text.push_str(" ")?;
            put_typed(text, source, *part)
        }
        Detail::Types(left, right) => {
            text.push_str(" ")?;
            put_types(text, source, *left, *right)
        }
        Detail::Limit(limit) => {
            text.push_str(" ")?;
            text.push_str(limit.words())
        }
        Detail::Counts(counts) => {
            text.push_str(" ")?;
            put_counts(text, source, *counts)
        }
        Detail::Circle(calls) => {
            text.push_str(" ")?;
            put_circle(text, &LineIndex::new(alloc, source)?, calls.as_slice())
        }
        Detail::Expected(kinds) => {
            text.push_str(" ")?;
            put_kinds(text, kinds.as_slice())
        }
    }
}

/// Adds the number and the title of a mistake.
#[tactic(auto, unfolding(crate::specs::Reports::heading))]
fn put_heading(text: &mut String, mistake: Mistake) -> Result<(), AllocError>
    ensures { OnOk result (string_bytes text.new ≡ string_bytes text.old ++ heading mistake) }
{
    let title = mistake.title();
    Ok(write!(text, "error[{}]: {title}\n", mistake.number())?)
}

/// Adds what is wanted, below a line of this number.
#[tactic(auto, unfolding(crate::specs::Reports::note_line))]
fn put_note(text: &mut String, words: &str, number: &str, line: usize) -> Result<(), AllocError>
    requires { number.now ≡ decimal line }
    ensures { OnOk result (string_bytes text.new ≡ string_bytes text.old ++ note_line line words.now) }
{
    text.push_str("\n")?;
    put_margin(text, number)?;
    text.push_str("= ")?;
    text.push_str(words)
}

/// Adds the report of a diagnostic of a source text: the number and the title of the mistake, where it stands, behind
/// this mark, the line with carets under the bytes, and what is wanted, but for the line feed at its end.
pub fn put_report(
    alloc: Global,
    text: &mut String,
    mark: &str,
    source: &[u8],
    diagnostic: &Diagnostic,
) -> Result<(), AllocError>
    requires span { IsWithin (length source.now) diagnostic.now.span }
    requires detail { IsDetailWithin (length source.now) diagnostic.now.detail }
    ensures { OnOk result (string_bytes text.new
        ≡ string_bytes text.old ++ report mark.now source.now diagnostic.now) }
{
    let position = position_of(source, diagnostic.span.start);
    let Position { line, column } = position;
    let number = format!(in alloc; "{line}")?;
    put_heading(text, diagnostic.mistake)?;
    put_place_line(text, mark, position)?;
    put_excerpt(text, source, diagnostic.span, number.as_str(), column)?;
    put_detail(alloc, text, source, &diagnostic.detail)?;
    put_note(text, wanted(source, diagnostic), number.as_str(), line)?;
    Ok(())
}
