//! The commands `lint` and `inspect`.

ghost use Rattle.std.specs.{Prelude.{None, IfOk, IfErr, option_map}, String.{string_bytes}};
ghost use Rattle.sect_emit.specs.Compiled.{IsCompiledFrom};
ghost use Rattle.sect_lint.specs.declared.format.LintFormat.TheVariants.{Json};
ghost use Rattle.sect_answers.specs.Findings.{IsUnblamed, IsInspection, IsLintDue};

use crate::refusal::Refusal;
use sect_emit::{Compiled, compile_scheme};
use sect_json::inspection_document;
use sect_lint::{Judgment, LintFormat, lint, report_as};
use sect_warnings::{Telling, Warned, warnings_as};
use std::alloc::Global;

/// The warnings of the source text of this file, where it is accepted, told so. A text that is refused is reported on,
/// by a refusal. How many fields a path may have is judged before the source. A text on standard input has no file.
pub fn findings(
    alloc: Global,
    file: Option<&str>,
    source: &[u8],
    k: u16,
    telling: Telling<'_>,
) -> Result<Warned, Refusal>
    // The text is accepted, and the warnings are those that are due.
    ensures answers { IfOk result (λ warned. IsUnblamed (option_map (λ name. name.now) file.entry) source.now k
        telling.entry.format telling.entry.rulings.now (string_bytes warned.text) warned.is_refused) }
    // The report is of the mistake for which the text is refused.
    ensures refuses { IfErr result (IsLintDue (option_map (λ name. name.now) file.entry) source.now k
        telling.entry.format) }
{
    let compiled = compiled_or_report(alloc, file, source, k, telling.format)?;
    Ok(warnings_as(alloc, file, source, &compiled, telling)?)
}

/// What is known of a source text that is accepted, as a document. A text that is refused is reported on as by
/// `findings`.
pub fn inspection(alloc: Global, source: &[u8], k: u16) -> Result<Vec<u8>, Refusal>
    // The text is accepted, and this is the document of its compiled program.
    ensures answers { IfOk result (λ text. IsInspection source.now k text.items) }
    // The report is of the mistake for which the text is refused.
    ensures refuses { IfErr result (IsLintDue None source.now k Json) }
{
    let compiled = compiled_or_report(alloc, None, source, k, LintFormat::Json)?;
    Ok(inspection_document(alloc, source, &compiled)?)
}

/// The compiled program of the source text of this file, or the report on the mistake for which it is refused.
fn compiled_or_report(
    alloc: Global,
    file: Option<&str>,
    source: &[u8],
    k: u16,
    format: LintFormat,
) -> Result<Compiled, Refusal>
    ensures answers { IfOk result (IsCompiledFrom source.now k) }
    ensures refuses { IfErr result (IsLintDue (option_map (λ name. name.now) file.entry) source.now k format) }
{
    match lint(alloc, source, k)? {
        Judgment::Accepted(scheme) => {
            let compiled = compile_scheme(alloc, scheme)?;
            Ok(compiled)
        }
        Judgment::Refused(diagnostic) => {
            let report = report_as(alloc, file, source, &diagnostic, format)?;
            Err(Refusal::Report(report))
        }
    }
}
