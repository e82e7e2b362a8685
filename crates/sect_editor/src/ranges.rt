//! Places of a text, as the protocol tells them.

ghost use Rattle.std.specs.Prelude.{◌≡◌, ◌≤◌, IfOk, length};
ghost use Rattle.serde_json.specs.View.{view};
ghost use Rattle.sect_front.specs.FaultPlaces.{IsWithin};
ghost use Rattle.sect_editor.specs.Ranges.{spot_json, stretch_json, place_json, range_json, location_json};
ghost use Rattle.sect_editor.specs.Ranges.{point_json, characters_json};

use crate::position::{Encoding, units_before};
use sect_characters::whole;
use sect_front::Span;
use sect_object::Members;
use sect_places::position_of;
use serde_json::Value;
use std::alloc::{AllocError, Global};

/// A line, and units of the encoding on it, both counted from 0.
fn spot_value(alloc: Global, line: usize, units: u64) -> Result<Value, AllocError>
    ensures { IfOk result (λ v. view v ≡ spot_json line units) }
{
    let members = Members::new(alloc)
        .with("character", units)?
        .with("line", line)?;
    Ok(members.object())
}

/// From one place to another.
fn stretch_value(alloc: Global, start: Value, end: Value) -> Result<Value, AllocError>
    ensures { IfOk result (λ v. view v ≡ stretch_json (view start) (view end)) }
{
    let members = Members::new(alloc).with("end", end)?.with("start", start)?;
    Ok(members.object())
}

/// Where a token begins or ends.
pub fn place_value(alloc: Global, source: &[u8], at: usize) -> Result<Value, AllocError>
    requires { at ≤ length source.now }
    ensures { IfOk result (λ v. view v ≡ place_json source.now at) }
{
    let position = position_of(source, at);
    spot_value(alloc, position.line - 1, (position.column - 1) as u64)
}

/// The places at which tokens begin and end.
pub fn range_value(alloc: Global, source: &[u8], span: Span) -> Result<Value, AllocError>
    requires { IsWithin (length source.now) span }
    ensures { IfOk result (λ v. view v ≡ range_json source.now span) }
{
    let start = place_value(alloc, source, span.start)?;
    let end = place_value(alloc, source, span.end)?;
    stretch_value(alloc, start, end)
}

/// Where any byte stands.
fn point_value(
    alloc: Global,
    encoding: Encoding,
    source: &[u8],
    at: usize,
) -> Result<Value, AllocError>
    requires { at ≤ length source.now }
    ensures { IfOk result (λ v. view v ≡ point_json encoding source.now at) }
{
    let line = position_of(source, at).line - 1;
    spot_value(alloc, line, units_before(encoding, source, at))
}

/// The places at which the characters begin and end of which some bytes have a part.
pub fn characters_value(
    alloc: Global,
    encoding: Encoding,
    source: &[u8],
    span: Span,
) -> Result<Value, AllocError>
    requires { IsWithin (length source.now) span }
    ensures { IfOk result (λ v. view v ≡ characters_json encoding source.now span) }
{
    let characters = whole(source, span);
    let start = point_value(alloc, encoding, source, characters.start)?;
    let end = point_value(alloc, encoding, source, characters.end)?;
    stretch_value(alloc, start, end)
}

/// Tokens of a document.
pub fn location_value(
    alloc: Global,
    uri: &str,
    source: &[u8],
    span: Span,
) -> Result<Value, AllocError>
    requires { IsWithin (length source.now) span }
    ensures { IfOk result (λ v. view v ≡ location_json uri.now source.now span) }
{
    let members = Members::new(alloc)
        .with_made("range", range_value(alloc, source, span))?
        .with("uri", uri)?;
    Ok(members.object())
}
