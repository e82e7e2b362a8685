//! The mistake of a text that is refused, as an editor shows it.

ghost use Rattle.std.specs.{Prelude.{◌≡◌, IfOk, All, length, map}, String.{string_bytes}};
ghost use Rattle.serde_json.specs.View.{view};
ghost use Rattle.sect_front.specs.FaultPlaces.{IsWithin};
ghost use Rattle.sect_lint.specs.Details.{IsDetailWithin};
ghost use Rattle.sect_editor.specs.Mistaken.{related_json, related_call, related_by, mistake_json};
ghost use Rattle.sect_editor.specs.Mistaken.{message_of as message_by};
ghost use Rattle.sect_editor.specs.Ranges.{list};

use crate::position::Encoding;
use crate::ranges::{characters_value, location_value};
use sect_front::Span;
use sect_lint::{Detail, Diagnostic, put_aside, put_quoted, wanted};
use sect_object::Members;
use serde_json::{Value, json};
use std::alloc::{AllocError, Global};

/// Another place of a document, and what is said of it.
fn related_value(
    alloc: Global,
    uri: &str,
    source: &[u8],
    message: &str,
    span: Span,
) -> Result<Value, AllocError>
    requires { IsWithin (length source.now) span }
    ensures { IfOk result (λ v. view v ≡ related_json uri.now source.now message.now span) }
{
    let members = Members::new(alloc)
        .with_made("location", location_value(alloc, uri, source, span))?
        .with("message", message)?;
    Ok(members.object())
}

/// A call of a circle.
fn call_value(alloc: Global, uri: &str, source: &[u8], called: Span) -> Result<Value, AllocError>
    requires { IsWithin (length source.now) called }
    ensures { IfOk result (λ v. view v ≡ related_call uri.now source.now called) }
{
    let mut text = String::new(alloc);
    put_quoted(&mut text, source, called)?;
    text.push_str(" is called here")?;
    related_value(alloc, uri, source, text.as_str(), called)
}

/// The calls of a circle.
fn circle_value(
    alloc: Global,
    uri: &str,
    source: &[u8],
    calls: &[Span],
) -> Result<Value, AllocError>
    requires { All (IsWithin (length source.now)) calls.now }
    ensures { IfOk result (λ v. view v ≡ list (map (related_call uri.now source.now) calls.now)) }
{
    let mut values = Vec::new(alloc);
    for called in calls {
        values.push(call_value(alloc, uri, source, *called)?)?;
    }
    Ok(Value::Array(values))
}

/// The places beside that of a mistake.
fn related_values(
    alloc: Global,
    uri: &str,
    source: &[u8],
    detail: &Detail,
) -> Result<Value, AllocError>
    requires { IsDetailWithin (length source.now) detail.now }
    ensures { IfOk result (λ v. view v ≡ list (related_by uri.now source.now detail.now)) }
{
    match detail {
        Detail::OpenBrace(at) => {
            let brace = Span {
                start: *at,
                end: *at + 1,
            };
            json!(in alloc; [related_value(alloc, uri, source, "this `{` is open", brace)?])
        }
        Detail::Earlier(span) => {
            json!(in alloc; [related_value(alloc, uri, source, "first declared here", *span)?])
        }
        Detail::Circle(calls) => circle_value(alloc, uri, source, calls.as_slice()),
        _ => json!(in alloc; []),
    }
}

/// What is wrong and what is said beside it, and on the next line what is wanted.
fn message_of(alloc: Global, source: &[u8], diagnostic: &Diagnostic) -> Result<String, AllocError>
    requires span { IsWithin (length source.now) diagnostic.now.span }
    requires detail { IsDetailWithin (length source.now) diagnostic.now.detail }
    ensures { IfOk result (λ text. string_bytes text ≡ message_by source.now diagnostic.now) }
{
    let mut text = String::new(alloc);
    text.push_str(diagnostic.mistake.title())?;
    put_aside(&mut text, source, &diagnostic.detail)?;
    text.push_str("\n")?;
    text.push_str(wanted(source, diagnostic))?;
    Ok(text)
}

/// The mistake of a text that is refused.
pub fn mistake_value(
    alloc: Global,
    encoding: Encoding,
    uri: &str,
    source: &[u8],
    diagnostic: &Diagnostic,
) -> Result<Value, AllocError>
    requires span { IsWithin (length source.now) diagnostic.now.span }
    requires detail { IsDetailWithin (length source.now) diagnostic.now.detail }
    ensures { IfOk result (λ v. view v ≡ mistake_json encoding uri.now source.now diagnostic.now) }
{
    let code = diagnostic.mistake.number();
    json!(in alloc; {
        "code": code,
        "message": message_of(alloc, source, diagnostic)?,
        "range": characters_value(alloc, encoding, source, diagnostic.span)?,
        "relatedInformation": related_values(alloc, uri, source, &diagnostic.detail)?,
        "severity": 1,
        "source": "sectc"
    })
}
