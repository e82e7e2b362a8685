//! The outcome of a run as the commands print it.

ghost use Rattle.std.specs.{Prelude.{◌≡◌, IfOk}, String.{string_bytes}};
ghost use Rattle.sect_answers.specs.Formats.{outcome_in};

use crate::format::Format;
use sect_json::outcome_document;
use sect_store::{Outcome, put_outcome};
use sect_types::Program;
use std::alloc::{AllocError, Global};

/// An outcome of a program, as it is printed.
pub fn outcome_printed(
    alloc: Global,
    program: &Program,
    outcome: &Outcome,
    format: Format,
) -> Result<String, AllocError>
    ensures { IfOk result (λ text. string_bytes text ≡ outcome_in format program.now outcome.now) }
{
    match format {
        Format::Text => {
            let mut text = String::new(alloc);
            put_outcome(alloc, &mut text, program, outcome)?;
            Ok(text)
        }
        Format::Json => outcome_document(alloc, program, outcome),
    }
}
