//! A warning as JSON.

ghost use Rattle.std.specs.Prelude.{◌≡◌, IfOk, length};
ghost use Rattle.serde_json.specs.View.{view};
ghost use Rattle.sect_front.specs.FaultPlaces.{IsWithin};
ghost use Rattle.sect_warnings.specs.Json.{labels_json, warning_json};

use crate::placed::Placed;
use crate::report::title;
use sect_lint::{label_value, span_value};
use sect_places::LineIndex;
use serde_json::{Value, json};
use std::alloc::{AllocError, Global};

/// What is said of the bytes that are marked, if anything.
fn labels_value(alloc: Global, source: &LineIndex<'_>, placed: &Placed) -> Result<Value, AllocError>
    requires { IsWithin (length source.now) placed.now.span }
    ensures { IfOk result (λ v. view v ≡ labels_json source.now placed.now.span placed.now.label) }
{
    match placed.label().as_bytes() {
        [] => json!(in alloc; []),
        _ => json!(in alloc; [label_value(alloc, source, placed.label(), placed.span())?]),
    }
}

/// A warning of a source text.
pub fn warning_value(
    alloc: Global,
    source: &LineIndex<'_>,
    placed: &Placed,
) -> Result<Value, AllocError>
    requires { IsWithin (length source.now) placed.now.span }
    ensures { IfOk result (λ v. view v ≡ warning_json source.now placed.now) }
{
    let told = placed.told();
    let (code, note) = (told.name(), placed.note());
    json!(in alloc; {
        "code": code,
        "labels": labels_value(alloc, source, placed)?,
        "message": title(alloc, told)?,
        "notes": [note],
        "severity": "warning",
        "span": span_value(alloc, source, placed.span())?
    })
}
