//! The option that says how an answer is printed.

ghost use Rattle.std.specs.Prelude.{IfOk, codes};
ghost use Rattle.clap.specs.Matches.{first_value, found_of};
ghost use Rattle.sect_command.specs.Saying.{SaysFormat, SaysLintFormat};

use crate::usage::UsageFault;
use clap::ArgMatches;
use sect_answers::Format;
use sect_lint::LintFormat;
use std::alloc::Global;

/// The format that the option names, or text.
pub fn format_of(alloc: Global, options: &ArgMatches<'_>) -> Result<Format, UsageFault>
    ensures { IfOk result (SaysFormat (first_value (found_of options.now) (codes "format"))) }
{
    match options.get_str("format") {
        None | Some("text") => Ok(Format::Text),
        Some("json") => Ok(Format::Json),
        Some(other) => Err(UsageFault::Format(String::from_str(alloc, other)?)),
    }
}

/// The form that the option names, or text.
pub fn lint_format_of(alloc: Global, options: &ArgMatches<'_>) -> Result<LintFormat, UsageFault>
    ensures { IfOk result (SaysLintFormat (first_value (found_of options.now) (codes "format"))) }
{
    match options.get_str("format") {
        None | Some("text") => Ok(LintFormat::Text),
        Some("json") => Ok(LintFormat::Json),
        Some("sarif") => Ok(LintFormat::Sarif),
        Some(other) => Err(UsageFault::LintFormat(String::from_str(alloc, other)?)),
    }
}
