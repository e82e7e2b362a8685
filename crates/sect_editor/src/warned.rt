//! The warnings of a text that is accepted, as an editor shows them.

ghost use Rattle.std.specs.{Prelude.{◌≡◌, IfOk, length, map}, String.{string_bytes}};
ghost use Rattle.serde_json.specs.View.{view};
ghost use Rattle.sect_front.specs.{Front.{IsSpelled}, FaultPlaces.{IsWithin}};
ghost use Rattle.sect_emit.specs.Compiled.{program_of};
ghost use Rattle.sect_editor.specs.Ranges.{list};
ghost use Rattle.sect_editor.specs.Warned.{message_of as message_by, tags as tags_by, warning_json, AreWarningsOf};
ghost use Rattle.sect_warnings.specs.Reports.{AreWithin};

use crate::ranges::range_value;
use sect_emit::Compiled;
use sect_object::Members;
use sect_warnings::{Placed, Spare, Told, placed_warnings, put_behind, title};
use serde_json::{Value, json};
use std::alloc::{AllocError, Global};

/// What nothing uses is shown as something that may go.
fn tags(alloc: Global, told: Told) -> Result<Value, AllocError>
    ensures { IfOk result (λ v. view v ≡ list (tags_by told)) }
{
    match told {
        Told::Declaration(Spare::Unused(_)) => json!(in alloc; [1]),
        Told::Declaration(Spare::Hint) | Told::Section(_) => json!(in alloc; []),
    }
}

/// What is told, what is said of its bytes, and on the next line what it means.
fn message_of(alloc: Global, placed: &Placed) -> Result<String, AllocError>
    ensures { IfOk result (λ text. string_bytes text ≡ message_by placed.now) }
{
    let mut text = title(alloc, placed.told())?;
    put_behind(&mut text, ": ", placed.label())?;
    text.push_str("\n")?;
    text.push_str(placed.note())?;
    Ok(text)
}

/// A warning, at some bytes.
fn warning_value(alloc: Global, source: &[u8], placed: &Placed) -> Result<Value, AllocError>
    requires { IsWithin (length source.now) placed.now.span }
    ensures { IfOk result (λ v. view v ≡ warning_json source.now placed.now) }
{
    let told = placed.told();
    let message = message_of(alloc, placed)?;
    let members = Members::new(alloc)
        .with("code", told.name())?
        .with("message", message)?
        .with_made("range", range_value(alloc, source, placed.span()))?
        .with("severity", 2)?
        .with("source", "sectc")?
        .with_made("tags", tags(alloc, told))?;
    Ok(members.object())
}

/// Some warnings.
fn warning_values(alloc: Global, source: &[u8], placed: &[Placed]) -> Result<Value, AllocError>
    requires { AreWithin (length source.now) placed.now }
    ensures { IfOk result (λ v. view v ≡ list (map (warning_json source.now) placed.now)) }
{
    let mut values = Vec::new(alloc);
    for warning in placed {
        values.push(warning_value(alloc, source, warning)?)?;
    }
    Ok(Value::Array(values))
}

/// The warnings of the compiled program of a text.
pub fn warnings_of(alloc: Global, source: &[u8], compiled: &Compiled) -> Result<Value, AllocError>
    requires { IsSpelled source.now (program_of compiled.now).source }
    ensures { IfOk result (λ v. AreWarningsOf source.now compiled.now (view v)) }
{
    let placed = placed_warnings(alloc, source, compiled)?;
    warning_values(alloc, source, placed.as_slice())
}
