//! A diagnostic as JSON.

ghost use Rattle.std.specs.Prelude.{◌≡◌, ◌≤◌, ◌∷◌, [], All, IfOk, length, map};
ghost use Rattle.serde_json.specs.View.{view};
ghost use Rattle.sect_front.specs.FaultPlaces.{IsWithin};
ghost use Rattle.sect_lint.specs.{Details.{IsDetailWithin}, Kinds.{kinds_text}};
ghost use Rattle.sect_lint.specs.Labels.{typed_text, counts_text, IsTypedWithin};
ghost use Rattle.sect_lint.specs.Json.{list, place_json, span_json, label_json, call_json, labels_json};
ghost use Rattle.sect_lint.specs.Json.{diagnostic_json};

use crate::advised::wanted;
use crate::diagnostic::{Counts, Detail, Diagnostic, Typed};
use crate::kinds::put_kinds;
use crate::label::{put_counts, put_quoted, put_typed};
use sect_front::{Span, TokenKind};
use sect_places::LineIndex;
use serde_json::{Value, json};
use std::alloc::{AllocError, Global};

/// A place.
fn place_value(alloc: Global, source: &LineIndex<'_>, at: usize) -> Result<Value, AllocError>
    requires { at ≤ length source.now }
    ensures { IfOk result (λ v. view v ≡ place_json source.now at) }
{
    let position = source.position(at);
    let (line, column) = (position.line, position.column);
    json!(in alloc; {"column": column, "line": line, "offset": at})
}

/// The places at which a span begins and ends.
pub fn span_value(alloc: Global, source: &LineIndex<'_>, span: Span) -> Result<Value, AllocError>
    requires { IsWithin (length source.now) span }
    ensures { IfOk result (λ v. view v ≡ span_json source.now span) }
{
    json!(in alloc; {"end": place_value(alloc, source, span.end)?, "start": place_value(alloc, source, span.start)?})
}

/// What is said of a span.
pub fn label_value(
    alloc: Global,
    source: &LineIndex<'_>,
    message: &str,
    span: Span,
) -> Result<Value, AllocError>
    requires { IsWithin (length source.now) span }
    ensures { IfOk result (λ v. view v ≡ label_json source.now message.now span) }
{
    json!(in alloc; {"message": message, "span": span_value(alloc, source, span)?})
}

/// What a part of a text is.
fn typed_value(alloc: Global, source: &LineIndex<'_>, typed: Typed) -> Result<Value, AllocError>
    requires { IsTypedWithin (length source.now) typed }
    ensures { IfOk result (λ v. view v ≡ label_json source.now (typed_text source.now typed) typed.span) }
{
    let mut text = String::new(alloc);
    put_typed(&mut text, source.text(), typed)?;
    label_value(alloc, source, text.as_str(), typed.span)
}

/// How many arguments a call gives, and how many the procedure takes.
fn counts_value(alloc: Global, source: &LineIndex<'_>, counts: Counts) -> Result<Value, AllocError>
    requires { IsWithin (length source.now) counts.procedure }
    ensures { IfOk result (λ v. view v ≡ label_json source.now (counts_text source.now counts) counts.procedure) }
{
    let mut text = String::new(alloc);
    put_counts(&mut text, source.text(), counts)?;
    label_value(alloc, source, text.as_str(), counts.procedure)
}

/// What two parts of a text are.
fn types_value(
    alloc: Global,
    source: &LineIndex<'_>,
    left: Typed,
    right: Typed,
) -> Result<Value, AllocError>
    requires left { IsTypedWithin (length source.now) left }
    requires right { IsTypedWithin (length source.now) right }
    ensures { IfOk result (λ v. view v ≡ list (label_json source.now (typed_text source.now left) left.span
        ∷ label_json source.now (typed_text source.now right) right.span ∷ [])) }
{
    json!(in alloc; [typed_value(alloc, source, left)?, typed_value(alloc, source, right)?])
}

/// Which kinds of tokens may stand somewhere.
fn kinds_value(
    alloc: Global,
    source: &LineIndex<'_>,
    kinds: &[TokenKind],
    span: Span,
) -> Result<Value, AllocError>
    requires { IsWithin (length source.now) span }
    ensures { IfOk result (λ v. view v ≡ label_json source.now (kinds_text kinds.now) span) }
{
    let mut text = String::new(alloc);
    put_kinds(&mut text, kinds)?;
    label_value(alloc, source, text.as_str(), span)
}

/// A call of a circle.
fn call_value(alloc: Global, source: &LineIndex<'_>, called: Span) -> Result<Value, AllocError>
    requires { IsWithin (length source.now) called }
    ensures { IfOk result (λ v. view v ≡ call_json source.now called) }
{
    let mut text = String::new(alloc);
    put_quoted(&mut text, source.text(), called)?;
    text.push_str(" is called here")?;
    label_value(alloc, source, text.as_str(), called)
}

/// The calls of a circle.
fn circle_value(alloc: Global, source: &LineIndex<'_>, calls: &[Span]) -> Result<Value, AllocError>
    requires { All (IsWithin (length source.now)) calls.now }
    ensures { IfOk result (λ v. view v ≡ list (map (call_json source.now) calls.now)) }
{
    let mut values = Vec::new(alloc);
    for called in calls {
        values.push(call_value(alloc, source, *called)?)?;
    }
    Ok(Value::Array(values))
}

/// A list of one value.
pub fn one_of(alloc: Global, value: Value) -> Result<Value, AllocError>
    ensures { IfOk result (λ v. view v ≡ list (view value ∷ [])) }
{
    json!(in alloc; [value])
}

/// What is said beside the carets.
fn labels_value(
    alloc: Global,
    source: &LineIndex<'_>,
    diagnostic: &Diagnostic,
) -> Result<Value, AllocError>
    requires span { IsWithin (length source.now) diagnostic.now.span }
    requires detail { IsDetailWithin (length source.now) diagnostic.now.detail }
    ensures { IfOk result (λ v. view v ≡ labels_json source.now diagnostic.now) }
{
    match &diagnostic.detail {
        Detail::Nothing => json!(in alloc; []),
        Detail::Bytes(count) => {
            let message = format!(in alloc; "{count} bytes")?;
            one_of(
                alloc,
                label_value(alloc, source, message.as_str(), diagnostic.span)?,
            )
        }
        Detail::OpenBrace(at) => {
            let _facts = source.text();
            let brace = Span {
                start: *at,
                end: *at + 1,
            };
            one_of(
                alloc,
                label_value(alloc, source, "this `{` is open", brace)?,
            )
        }
        Detail::Earlier(span) => {
            one_of(
                alloc,
                label_value(alloc, source, "first declared here", *span)?,
            )
        }
        Detail::Type(part) => one_of(alloc, typed_value(alloc, source, *part)?),
        Detail::Types(left, right) => types_value(alloc, source, *left, *right),
        Detail::Limit(limit) => {
            one_of(
                alloc,
                label_value(alloc, source, limit.words(), diagnostic.span)?,
            )
        }
        Detail::Counts(counts) => one_of(alloc, counts_value(alloc, source, *counts)?),
        Detail::Circle(calls) => circle_value(alloc, source, calls.as_slice()),
        Detail::Expected(kinds) => {
            one_of(
                alloc,
                kinds_value(alloc, source, kinds.as_slice(), diagnostic.span)?,
            )
        }
    }
}

/// A diagnostic of a source text.
pub fn diagnostic_value(
    alloc: Global,
    source: &[u8],
    diagnostic: &Diagnostic,
) -> Result<Value, AllocError>
    requires span { IsWithin (length source.now) diagnostic.now.span }
    requires detail { IsDetailWithin (length source.now) diagnostic.now.detail }
    ensures { IfOk result (λ v. view v ≡ diagnostic_json source.now diagnostic.now) }
{
    let lines = LineIndex::new(alloc, source)?;
    let code = diagnostic.mistake.number();
    let title = diagnostic.mistake.title();
    let note = wanted(source, diagnostic);
    json!(in alloc; {"code": code, "labels": labels_value(alloc, &lines, diagnostic)?, "message": title,
        "notes": [note], "severity": "error", "span": span_value(alloc, &lines, diagnostic.span)?})
}
