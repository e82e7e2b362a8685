//! The command `explain`.

ghost use Rattle.std.specs.Prelude.{IfOk, IfErr, IsOkUnless};
ghost use Rattle.sect_names.specs.{Schemes.{SchemeView}, Sources.{IsAccepted}};
ghost use Rattle.sect_answers.specs.{declared.refusal.Refusal.TheVariants.{Memory}, Answers.{IsDue}};
ghost use Rattle.sect_answers.specs.Explaining.{IsProgramExplanation, IsExplanationPrinted, IsPlacedExplanation};
ghost use Rattle.sect_front.specs.Front.{IsSpelled};
ghost use Rattle.sect_emit.specs.Compiled.{program_of};

use crate::format::Format;
use crate::refusal::Refusal;
use sect_emit::{Compiled, compile, explanation};
use sect_json::explanation_document;
use sect_places::node_lines;
use std::alloc::{AllocError, Global};

/// Why each section of a source text takes each of its locks.
pub fn program_explanation(
    alloc: Global,
    source: &[u8],
    k: u16,
    format: Format,
) -> Result<Vec<u8>, Refusal>
    // The text is accepted, and each section has a chain of steps for each of its locks.
    ensures answers { IfOk result (λ text. IsProgramExplanation source.now k format text.items) }
    // A text that is accepted is answered, unless memory runs out.
    ensures only { (s : SchemeView) → IsAccepted source.now k s → IsOkUnless result Memory }
    // A refusal is due, and it is the first that is.
    ensures refuses { IfErr result (IsDue source.now k) }
{
    let compiled = compile(alloc, source, k)?;
    Ok(explanation_printed(alloc, source, &compiled, format)?)
}

/// Why each section of a compiled program takes its locks, with the lines of its text, which that is.
fn placed_explanation(
    alloc: Global,
    source: &[u8],
    compiled: &Compiled,
) -> Result<Vec<u8>, AllocError>
    requires { IsSpelled source.now (program_of compiled.now).source }
    ensures { IfOk result (λ text. IsPlacedExplanation source.now compiled.now text.items) }
{
    let lines = node_lines(alloc, source, compiled.scheme().program())?;
    explanation(alloc, compiled, lines.as_slice())
}

/// Why each section of a compiled program takes its locks, as it is printed of its text.
fn explanation_printed(
    alloc: Global,
    source: &[u8],
    compiled: &Compiled,
    format: Format,
) -> Result<Vec<u8>, AllocError>
    requires { IsSpelled source.now (program_of compiled.now).source }
    ensures { IfOk result (λ text. IsExplanationPrinted source.now compiled.now format text.items) }
{
    match format {
        Format::Text => placed_explanation(alloc, source, compiled),
        Format::Json => Ok(explanation_document(alloc, compiled)?.into_bytes()),
    }
}
