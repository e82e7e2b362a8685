//! A diagnostic as a log of SARIF 2.1.0.

ghost use Rattle.std.specs.{Prelude.{◌≡◌, ◌≤◌, ◌++◌, All, IfOk, OnOk, length, map}, String.{string_bytes}};
ghost use Rattle.serde_json.specs.View.{view};
ghost use Rattle.sect_front.specs.FaultPlaces.{IsWithin};
ghost use Rattle.sect_lint.specs.{Details.{IsDetailWithin}, Json.{list}, Advised.{advice_of as advice_by, advised}};
ghost use Rattle.sect_lint.specs.Sarif.{region as region_by, region_json, located_json, point as point_by};
ghost use Rattle.sect_lint.specs.Sarif.{point_region as point_region_by, location_json, related_json, related_call};
ghost use Rattle.sect_lint.specs.Sarif.{related_by, aside_by};
ghost use Rattle.sect_lint.specs.Sarif.{said_by, result_json, rule_json, tool_json, run_json, log_json};
ghost use Rattle.sect_lint.specs.Sarif.{diagnostic_log as log_by, empty_log as empty_by};

use crate::advised::put_advised;
use crate::diagnostic::{Detail, Diagnostic};
use crate::json::one_of;
use crate::kinds::put_kinds;
use crate::label::{put_counts, put_quoted, put_typed, put_types};
use crate::mistake::Mistake;
use sect_characters::{character_column, whole};
use sect_front::Span;
use sect_places::{LineIndex, Position};
use serde_json::{Value, json};
use std::alloc::{AllocError, Global};
use std::fmt::Write;

/// The bytes, lines and columns of a span, which is from one position to another.
fn region(alloc: Global, span: Span, start: Position, end: Position) -> Result<Value, AllocError>
    requires { span.start ≤ span.end }
    ensures { IfOk result (λ v. view v ≡ region_by span start end) }
{
    let (offset, bytes) = (span.start, span.end - span.start);
    let (start_line, start_column) = (start.line, start.column);
    let (end_line, end_column) = (end.line, end.column);
    json!(in alloc; {"byteLength": bytes, "byteOffset": offset, "endColumn": end_column, "endLine": end_line,
        "startColumn": start_column, "startLine": start_line})
}

/// The bytes, lines and columns of tokens: before one there is ASCII alone on its line.
fn region_value(alloc: Global, source: &LineIndex<'_>, span: Span) -> Result<Value, AllocError>
    requires { IsWithin (length source.now) span }
    ensures { IfOk result (λ v. view v ≡ region_json source.now span) }
{
    let start = source.position(span.start);
    let end = source.position(span.end);
    region(alloc, span, start, end)
}

/// The line and the column of a place, both counted from 1, and columns in characters.
fn point(source: &LineIndex<'_>, at: usize) -> Position
    requires { at ≤ length source.now }
    ensures { result ≡ point_by source.now at }
{
    Position {
        line: source.position(at).line,
        column: character_column(source.text(), at),
    }
}

/// The characters of which some bytes have a part: their bytes, and lines and columns in characters.
fn point_region(alloc: Global, source: &LineIndex<'_>, span: Span) -> Result<Value, AllocError>
    requires { IsWithin (length source.now) span }
    ensures { IfOk result (λ v. view v ≡ point_region_by source.now span) }
{
    let characters = whole(source.text(), span);
    let start = point(source, characters.start);
    let end = point(source, characters.end);
    region(alloc, characters, start, end)
}

/// A region of the text of this URI.
fn located(alloc: Global, uri: &str, place: Value) -> Result<Value, AllocError>
    ensures { IfOk result (λ v. view v ≡ located_json uri.now (view place)) }
{
    json!(in alloc; {"physicalLocation": {"artifactLocation": {"uri": uri}, "region": place}})
}

/// Where tokens of the text of this URI stand.
pub fn location_value(
    alloc: Global,
    uri: &str,
    source: &LineIndex<'_>,
    span: Span,
) -> Result<Value, AllocError>
    requires { IsWithin (length source.now) span }
    ensures { IfOk result (λ v. view v ≡ location_json uri.now source.now span) }
{
    located(alloc, uri, region_value(alloc, source, span)?)
}

/// What is said of another place.
fn related_value(
    alloc: Global,
    uri: &str,
    source: &LineIndex<'_>,
    message: &str,
    span: Span,
) -> Result<Value, AllocError>
    requires { IsWithin (length source.now) span }
    ensures { IfOk result (λ v. view v ≡ related_json uri.now source.now message.now span) }
{
    json!(in alloc; {"message": {"text": message},
        "physicalLocation": {"artifactLocation": {"uri": uri}, "region": region_value(alloc, source, span)?}})
}

/// A call of a circle.
fn call_value(
    alloc: Global,
    uri: &str,
    source: &LineIndex<'_>,
    called: Span,
) -> Result<Value, AllocError>
    requires { IsWithin (length source.now) called }
    ensures { IfOk result (λ v. view v ≡ related_call uri.now source.now called) }
{
    let mut text = String::new(alloc);
    put_quoted(&mut text, source.text(), called)?;
    text.push_str(" is called here")?;
    related_value(alloc, uri, source, text.as_str(), called)
}

/// The calls of a circle.
fn circle_value(
    alloc: Global,
    uri: &str,
    source: &LineIndex<'_>,
    calls: &[Span],
) -> Result<Value, AllocError>
    requires { All (IsWithin (length source.now)) calls.now }
    ensures { IfOk result (λ v. view v ≡ list (map (related_call uri.now source.now) calls.now)) }
{
    let mut values = Vec::new(alloc);
    for called in calls {
        values.push(call_value(alloc, uri, source, *called)?)?;
    }
    Ok(Value::Array(values))
}

/// The places beside that of the mistake.
fn related_values(
    alloc: Global,
    uri: &str,
    source: &LineIndex<'_>,
    detail: &Detail,
) -> Result<Value, AllocError>
    requires { IsDetailWithin (length source.now) detail.now }
    ensures { IfOk result (λ v. view v ≡ list (related_by uri.now source.now detail.now)) }
{
    match detail {
        Detail::OpenBrace(at) => {
            let _facts = source.text();
            let brace = Span {
                start: *at,
                end: *at + 1,
            };
            one_of(
                alloc,
                related_value(alloc, uri, source, "this `{` is open", brace)?,
            )
        }
        Detail::Earlier(span) => {
            one_of(
                alloc,
                related_value(alloc, uri, source, "first declared here", *span)?,
            )
        }
        Detail::Circle(calls) => circle_value(alloc, uri, source, calls.as_slice()),
        _ => json!(in alloc; []),
    }
}

/// Adds what is said beside the carets, where it has no place of its own, behind a colon.
pub fn put_aside(text: &mut String, source: &[u8], detail: &Detail) -> Result<(), AllocError>
    requires { IsDetailWithin (length source.now) detail.now }
    ensures { OnOk result (string_bytes text.new ≡ string_bytes text.old ++ aside_by source.now detail.now) }
{
    match detail {
        Detail::Nothing | Detail::OpenBrace(_) | Detail::Earlier(_) | Detail::Circle(_) => Ok(()),
        Detail::Bytes(count) => Ok(write!(text, ": {count} bytes")?),
        Detail::Type(part) => {
            text.push_str(": ")?;
            put_typed(text, source, *part)
        }
        Detail::Types(left, right) => {
            text.push_str(": ")?;
            put_types(text, source, *left, *right)
        }
        Detail::Limit(limit) => {
            text.push_str(": ")?;
            text.push_str(limit.words())
        }
        Detail::Counts(counts) => {
            text.push_str(": ")?;
            put_counts(text, source, *counts)
        }
        Detail::Expected(kinds) => {
            text.push_str(": ")?;
            put_kinds(text, kinds.as_slice())
        }
    }
}

/// What is wrong, what is said beside it, and what is to be written instead, where that is known.
fn message_of(alloc: Global, source: &[u8], diagnostic: &Diagnostic) -> Result<String, AllocError>
    requires span { IsWithin (length source.now) diagnostic.now.span }
    requires detail { IsDetailWithin (length source.now) diagnostic.now.detail }
    ensures { IfOk result (λ text. string_bytes text
        ≡ said_by source.now diagnostic.now ++ advised (advice_by source.now diagnostic.now)) }
{
    let mut text = String::new(alloc);
    text.push_str(diagnostic.mistake.title())?;
    put_aside(&mut text, source, &diagnostic.detail)?;
    put_advised(&mut text, source, diagnostic)?;
    Ok(text)
}

/// A mistake, and where it stands.
fn result_value(
    alloc: Global,
    uri: &str,
    source: &LineIndex<'_>,
    diagnostic: &Diagnostic,
) -> Result<Value, AllocError>
    requires span { IsWithin (length source.now) diagnostic.now.span }
    requires detail { IsDetailWithin (length source.now) diagnostic.now.detail }
    ensures { IfOk result (λ v. view v ≡ result_json uri.now source.now diagnostic.now) }
{
    let place = point_region(alloc, source, diagnostic.span)?;
    json!(in alloc; {"level": "error", "locations": [located(alloc, uri, place)?],
        "message": {"text": message_of(alloc, source.text(), diagnostic)?},
        "relatedLocations": related_values(alloc, uri, source, &diagnostic.detail)?,
        "ruleId": format!(in alloc; "{}", diagnostic.mistake.number())?})
}

/// What a mistake is.
fn rule_value(alloc: Global, mistake: Mistake) -> Result<Value, AllocError>
    ensures { IfOk result (λ v. view v ≡ rule_json mistake) }
{
    let note = mistake.note();
    let title = mistake.title();
    json!(in alloc; {"help": {"text": note}, "id": format!(in alloc; "{}", mistake.number())?,
        "shortDescription": {"text": title}})
}

/// The program that looked, with these rules.
pub fn tool_value(alloc: Global, rules: Value) -> Result<Value, AllocError>
    ensures { IfOk result (λ v. view v ≡ tool_json (view rules)) }
{
    json!(in alloc; {"driver": {"name": "sectc", "rules": rules}})
}

/// A run that has these results.
pub fn run_value(alloc: Global, results: Value, tool: Value) -> Result<Value, AllocError>
    ensures { IfOk result (λ v. view v ≡ run_json (view results) (view tool)) }
{
    json!(in alloc; {"columnKind": "unicodeCodePoints", "results": results, "tool": tool})
}

/// The log of one run.
pub fn log_value(alloc: Global, run: Value) -> Result<Value, AllocError>
    ensures { IfOk result (λ v. view v ≡ log_json (view run)) }
{
    json!(in alloc; {"$schema": "https://json.schemastore.org/sarif-2.1.0.json", "runs": [run], "version": "2.1.0"})
}

/// The log of a diagnostic of the source text of this URI.
pub fn diagnostic_log(
    alloc: Global,
    uri: &str,
    source: &[u8],
    diagnostic: &Diagnostic,
) -> Result<Value, AllocError>
    requires span { IsWithin (length source.now) diagnostic.now.span }
    requires detail { IsDetailWithin (length source.now) diagnostic.now.detail }
    ensures { IfOk result (λ v. view v ≡ log_by uri.now source.now diagnostic.now) }
{
    let rules = one_of(alloc, rule_value(alloc, diagnostic.mistake)?)?;
    let tool = tool_value(alloc, rules)?;
    let lines = LineIndex::new(alloc, source)?;
    let results = one_of(alloc, result_value(alloc, uri, &lines, diagnostic)?)?;
    log_value(alloc, run_value(alloc, results, tool)?)
}

/// The log of a text of which nothing is told.
pub fn empty_log(alloc: Global) -> Result<Value, AllocError>
    ensures { IfOk result (λ v. view v ≡ empty_by) }
{
    let rules = json!(in alloc; [])?;
    let tool = tool_value(alloc, rules)?;
    let results = json!(in alloc; [])?;
    log_value(alloc, run_value(alloc, results, tool)?)
}
