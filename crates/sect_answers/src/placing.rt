//! Where the mistake of a source text stands.

ghost use Rattle.std.specs.{Prelude.{◌≡◌, ◌≤◌, ◌++◌, OnOk, length}, String.{string_bytes}};
ghost use Rattle.sect_answers.specs.Placing.{AddsPlace, place_mark};

use sect_lint::{Judgment, lint};
use sect_names::SourceRefusal;
use sect_places::position_of;
use std::alloc::{AllocError, Global};
use std::fmt::Write;

/// Adds the line and the column of the mistake for which a source text is refused, as `:3:56`. Nothing is added where
/// the text is accepted, or where no path may have so many fields.
pub fn put_mistake_place(
    alloc: Global,
    text: &mut String,
    source: &[u8],
    k: u16,
) -> Result<(), AllocError>
    ensures { OnOk result (AddsPlace source.now k (string_bytes text.old) (string_bytes text.new)) }
{
    match lint(alloc, source, k) {
        Ok(Judgment::Refused(diagnostic)) => put_place(text, source, diagnostic.span.start),
        Err(SourceRefusal::Memory) => Err(AllocError),
        Ok(Judgment::Accepted(_)) | Err(_) => Ok(()),
    }
}

/// Adds the line and the column of a place.
fn put_place(text: &mut String, source: &[u8], at: usize) -> Result<(), AllocError>
    requires { at ≤ length source.now }
    ensures { OnOk result (string_bytes text.new ≡ string_bytes text.old ++ place_mark source.now at) }
{
    let place = position_of(source, at);
    Ok(write!(text, ":{}:{}", place.line, place.column)?)
}
