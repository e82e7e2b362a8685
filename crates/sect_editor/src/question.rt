//! What may be asked of an open document, and what is answered.

ghost use Rattle.std.specs.Prelude.{◌≡◌, ◌≤◌, IfOk, IfSome, length, option_map, option_and_then};
ghost use Rattle.serde_json.specs.{Find.{pointer}, View.{view}};
ghost use Rattle.sect_editor.specs.{Positions.{range_in as range_in_by}, Accepted.{IsToldOf}};
ghost use Rattle.sect_editor.specs.{Asking.{byte_told as byte_by, IsJudged, IsAnswerTo}, Hovering.{IsHoverIf}};
ghost use Rattle.sect_editor.specs.Marks.{AreHints, AreLenses, hinted_range as range_by};

use crate::completion::completion_value;
use crate::hover::hover_value;
use crate::marks::{hints_value, lenses_value};
use crate::position::{Encoding, Range, offset, range_in};
use crate::query::{Query, answer_query, place_at};
use crate::symbols::symbols_value;
use crate::text::OpenText;
use serde_json::Value;
use std::alloc::{AllocError, Global};

/// What may be asked of a document.
#[derive(Clone, Copy)]
pub enum Question {
    /// Something that its names tell.
    Names(Query),
    /// What it declares, and its sections.
    Symbols,
    /// What stands at a place.
    Hover,
    /// The locks behind each `atomic`.
    Hints,
    /// How many locks each `atomic` takes, and which sections it excludes.
    Lenses,
    /// What may be written at a place.
    Completion,
}

/// The byte at the place that a message tells, if it tells one.
fn byte_told(encoding: Encoding, source: &[u8], message: &Value) -> Option<usize>
    ensures byte { result ≡ byte_by encoding source.now (view message.now) }
    ensures within { IfSome result (λ at. at ≤ length source.now) }
{
    Some(offset(encoding, source, place_at(message, "/params/position")?))
}

/// What stands at a place.
fn hover(alloc: Global, text: OpenText<'_>, message: &Value) -> Result<Value, AllocError>
    requires { IsJudged text }
    ensures { IfOk result (λ v. IsToldOf (IsHoverIf text.entry.source.now
        (byte_by text.entry.reading.encoding text.entry.source.now (view message.now))) text.entry.source.now
        text.entry.reading.k (view v)) }
{
    let at = byte_told(text.reading.encoding, text.source, message);
    match text.compiled {
        Some(compiled) => hover_value(alloc, text.source, compiled, at),
        None => Ok(Value::Null),
    }
}

/// The range at a place of a message.
fn range_at(message: &Value, path: &str) -> Option<Range>
    ensures { result ≡ option_and_then range_in_by (pointer path.now (view message.now)) }
{
    range_in(message.pointer(path)?)
}

/// The range for which hints are asked, if one is told.
fn hinted_range(message: &Value) -> Option<Range>
    ensures { result ≡ range_by (view message.now) }
{
    range_at(message, "/params/range")
}

/// The locks behind each `atomic`.
fn hints(alloc: Global, text: OpenText<'_>, message: &Value) -> Result<Value, AllocError>
    requires { IsJudged text }
    ensures { IfOk result (λ v. IsToldOf (AreHints text.entry.source.now (range_by (view message.now)))
        text.entry.source.now text.entry.reading.k (view v)) }
{
    let range = hinted_range(message);
    match text.compiled {
        Some(compiled) => hints_value(alloc, text.source, compiled, range),
        None => Ok(Value::Null),
    }
}

/// How many locks each `atomic` takes, and which sections it excludes.
fn lenses(alloc: Global, text: OpenText<'_>) -> Result<Value, AllocError>
    requires { IsJudged text }
    ensures { IfOk result (λ v. IsToldOf (AreLenses text.entry.source.now) text.entry.source.now
        text.entry.reading.k (view v)) }
{
    match text.compiled {
        Some(compiled) => lenses_value(alloc, text.source, compiled),
        None => Ok(Value::Null),
    }
}

/// What is answered to a message that asks something of a document: a value, or nothing where a name is to be given
/// that can't be.
pub fn answer(
    alloc: Global,
    question: Question,
    text: OpenText<'_>,
    message: &Value,
) -> Result<Option<Value>, AllocError>
    requires { IsJudged text }
    ensures { IfOk result (λ answer. IsAnswerTo question text.entry.reading (view message.now) text.entry.uri.now
        text.entry.source.now (option_map view answer)) }
{
    let value = match question {
        Question::Names(query) => return answer_query(alloc, query, text, message),
        Question::Symbols => symbols_value(alloc, text)?,
        Question::Hover => hover(alloc, text, message)?,
        Question::Hints => hints(alloc, text, message)?,
        Question::Lenses => lenses(alloc, text)?,
        Question::Completion => {
            let at = byte_told(text.reading.encoding, text.source, message);
            completion_value(alloc, text.source, at)?
        }
    };
    Ok(Some(value))
}
