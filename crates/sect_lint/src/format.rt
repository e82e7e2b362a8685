//! The forms in which a diagnostic is printed.

ghost use Rattle.std.specs.{Prelude.{◌≡◌, IfOk, length, option_map, false}, String.{string_bytes}};
ghost use Rattle.serde_json.specs.{View.{view}, Written.{compact_text, has_float}};
ghost use Rattle.sect_front.specs.FaultPlaces.{IsWithin};
ghost use Rattle.sect_lint.specs.{Details.{IsDetailWithin}, Files.{place_mark as place_mark_by}, Reports.{report}};
ghost use Rattle.sect_lint.specs.Formats.{report_as as report_by, clean};

use crate::diagnostic::Diagnostic;
use crate::file::{place_mark, uri_of};
use crate::json::diagnostic_value;
use crate::report::put_report;
use crate::sarif::{diagnostic_log, empty_log};
use serde_json::Value;
use std::alloc::{AllocError, Global};

/// How a diagnostic is printed.
#[derive(Clone, Copy)]
pub enum LintFormat {
    /// For a reader.
    Text,
    /// An object of JSON.
    Json,
    /// A log of SARIF 2.1.0.
    Sarif,
}

/// A value without blanks.
pub fn compact(alloc: Global, value: &Value) -> Result<String, AllocError>
    requires { has_float (view value.now) ≡ false }
    ensures { IfOk result (λ text. string_bytes text ≡ compact_text (view value.now)) }
{
    let text = value.to_string(alloc)?;
    Ok(text)
}

/// The report of a diagnostic for a reader.
fn report_text(
    alloc: Global,
    file: Option<&str>,
    source: &[u8],
    diagnostic: &Diagnostic,
) -> Result<String, AllocError>
    requires span { IsWithin (length source.now) diagnostic.now.span }
    requires detail { IsDetailWithin (length source.now) diagnostic.now.detail }
    ensures { IfOk result (λ text. string_bytes text
        ≡ report (place_mark_by (option_map (λ name. name.now) file.entry)) source.now diagnostic.now) }
{
    let mark = place_mark(alloc, file)?;
    let mut text = String::new(alloc);
    put_report(alloc, &mut text, mark.as_str(), source, diagnostic)?;
    Ok(text)
}

/// A diagnostic of the source text of this file as it is printed, but for the line feed at its end. A text on standard
/// input has no file.
pub fn report_as(
    alloc: Global,
    file: Option<&str>,
    source: &[u8],
    diagnostic: &Diagnostic,
    format: LintFormat,
) -> Result<String, AllocError>
    requires span { IsWithin (length source.now) diagnostic.now.span }
    requires detail { IsDetailWithin (length source.now) diagnostic.now.detail }
    ensures { IfOk result (λ text. string_bytes text
        ≡ report_by format (option_map (λ name. name.now) file.entry) source.now diagnostic.now) }
{
    match format {
        LintFormat::Text => report_text(alloc, file, source, diagnostic),
        LintFormat::Json => {
            let value = diagnostic_value(alloc, source, diagnostic)?;
            compact(alloc, &value)
        }
        LintFormat::Sarif => {
            let uri = uri_of(alloc, file)?;
            let log = diagnostic_log(alloc, uri.as_str(), source, diagnostic)?;
            compact(alloc, &log)
        }
    }
}

/// What is printed of a source text of which nothing is told.
pub fn clean_text(alloc: Global, format: LintFormat) -> Result<String, AllocError>
    ensures { IfOk result (λ text. string_bytes text ≡ clean format) }
{
    match format {
        LintFormat::Text | LintFormat::Json => Ok(String::new(alloc)),
        LintFormat::Sarif => {
            let log = empty_log(alloc)?;
            let mut text = compact(alloc, &log)?;
            text.push_str("\n")?;
            Ok(text)
        }
    }
}
