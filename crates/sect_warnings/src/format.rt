//! The forms in which warnings are printed.

ghost use Rattle.std.specs.Prelude.{◌≡◌, ◌++◌, IfOk, OnOk, length, option_map};
ghost use Rattle.std.specs.{List.{flat_map}, String.{string_bytes}};
ghost use Rattle.sect_front.specs.{Front.{IsSpelled}, FaultPlaces.{IsWithin}};
ghost use Rattle.sect_warnings.specs.Reports.{AreWithin};
ghost use Rattle.sect_warnings.specs.Formats.{json_line, told as told_by, printed as printed_by, AreAllPlaced};
ghost use Rattle.sect_warnings.specs.Formats.{AreTold, AreWarningsPrinted};

use crate::comment::unnoted;
use crate::json::warning_value;
use crate::judge::warnings;
use crate::place::places_of;
use crate::placed::Placed;
use crate::remedy::Accepted;
use crate::report::reports_text;
use crate::ruling::{Ruling, is_refused, told_of};
use crate::sarif::warnings_log;
use crate::spare::spares;
use sect_emit::Compiled;
use sect_lint::{LintFormat, clean_text, compact, place_mark, uri_of};
use sect_places::{LineIndex, tree_names};
use std::alloc::{AllocError, Global};

/// Adds a warning as an object of JSON, and a line feed.
#[tactic(auto, unfolding(crate::specs::Formats::json_line))]
fn put_json(
    alloc: Global,
    text: &mut String,
    source: &LineIndex<'_>,
    placed: &Placed,
) -> Result<(), AllocError>
    requires { IsWithin (length source.now) placed.now.span }
    ensures { OnOk result (string_bytes text.new ≡ string_bytes text.old ++ json_line source.now placed.now) }
{
    let value = warning_value(alloc, source, placed)?;
    let line = compact(alloc, &value)?;
    text.push_str(line.as_str())?;
    text.push_str("\n")
}

/// Adds warnings as objects of JSON, one a line.
fn put_lines(
    alloc: Global,
    text: &mut String,
    source: &LineIndex<'_>,
    placed: &[Placed],
) -> Result<(), AllocError>
    requires { AreWithin (length source.now) placed.now }
    ensures { OnOk result (string_bytes text.new
        ≡ string_bytes text.old ++ flat_map (json_line source.now) placed.now) }
{
    for warning in placed {
        put_json(alloc, text, source, warning)?;
    }
    Ok(())
}

/// Warnings as objects of JSON, one a line.
fn json_lines(alloc: Global, source: &[u8], placed: &[Placed]) -> Result<String, AllocError>
    requires { AreWithin (length source.now) placed.now }
    ensures { IfOk result (λ text. string_bytes text ≡ flat_map (json_line source.now) placed.now) }
{
    let mut text = String::new(alloc);
    let lines = LineIndex::new(alloc, source)?;
    put_lines(alloc, &mut text, &lines, placed)?;
    Ok(text)
}

/// Warnings as a log of SARIF.
fn log_text(
    alloc: Global,
    file: Option<&str>,
    source: &[u8],
    placed: &[Placed],
) -> Result<String, AllocError>
    requires { AreWithin (length source.now) placed.now }
    ensures { IfOk result (λ text. string_bytes text
        ≡ told_by LintFormat.Sarif (option_map (λ name. name.now) file.entry) source.now placed.now) }
{
    let uri = uri_of(alloc, file)?;
    let log = warnings_log(alloc, uri.as_str(), source, placed)?;
    let mut text = compact(alloc, &log)?;
    text.push_str("\n")?;
    Ok(text)
}

/// Some warnings of the text of this file in this form.
fn told(
    alloc: Global,
    file: Option<&str>,
    source: &[u8],
    placed: &[Placed],
    format: LintFormat,
) -> Result<String, AllocError>
    requires { AreWithin (length source.now) placed.now }
    ensures { IfOk result (λ text. string_bytes text
        ≡ told_by format (option_map (λ name. name.now) file.entry) source.now placed.now) }
{
    match format {
        LintFormat::Text => {
            let mark = place_mark(alloc, file)?;
            reports_text(alloc, mark.as_str(), source, placed)
        }
        LintFormat::Json => json_lines(alloc, source, placed),
        LintFormat::Sarif => log_text(alloc, file, source, placed),
    }
}

/// Warnings of the text of this file as they are printed.
fn printed(
    alloc: Global,
    file: Option<&str>,
    source: &[u8],
    placed: &[Placed],
    format: LintFormat,
) -> Result<String, AllocError>
    requires { AreWithin (length source.now) placed.now }
    ensures { IfOk result (λ text. string_bytes text
        ≡ printed_by format (option_map (λ name. name.now) file.entry) source.now placed.now) }
{
    match placed {
        [] => clean_text(alloc, format),
        _ => told(alloc, file, source, placed, format),
    }
}

/// What is worth a second look in the compiled program of a source text, with the bytes that are marked and what is
/// said of them: of its sections, and then of its declarations.
fn all_warnings(
    alloc: Global,
    source: &[u8],
    compiled: &Compiled,
) -> Result<Vec<Placed>, AllocError>
    requires { IsSpelled source.now compiled.now.scheme.program.source }
    ensures placed { IfOk result (λ all. AreAllPlaced source.now compiled.now all.items) }
    ensures within { IfOk result (λ all. AreWithin (length source.now) all.items) }
{
    let found = warnings(alloc, compiled)?;
    let names = tree_names(alloc, source, compiled.scheme().program().tree())?;
    let accepted = Accepted {
        source,
        names: names.as_slice(),
        compiled,
    };
    let mut placed = places_of(alloc, accepted, found.as_slice())?;
    let mut spares = spares(alloc, compiled.scheme(), names.as_slice())?;
    placed.append(&mut spares)?;
    Ok(placed)
}

/// The same but for those that comments allow.
pub fn placed_warnings(
    alloc: Global,
    source: &[u8],
    compiled: &Compiled,
) -> Result<Vec<Placed>, AllocError>
    requires { IsSpelled source.now compiled.now.scheme.program.source }
    ensures told { IfOk result (λ told. AreTold source.now compiled.now told.items) }
    ensures within { IfOk result (λ told. AreWithin (length source.now) told.items) }
{
    let all = all_warnings(alloc, source, compiled)?;
    unnoted(alloc, source, all)
}

/// How warnings are told: in this form, but for those that these rulings allow.
#[derive(Clone, Copy)]
pub struct Telling<'a> {
    pub format: LintFormat,
    pub rulings: &'a [Ruling],
}

/// What is printed of warnings, and whether the text is refused for one of them.
#[derive(Drop)]
pub struct Warned {
    pub text: String,
    pub is_refused: bool,
}

/// What is worth a second look in the compiled program of a source text, as it is printed of the text of this file. A
/// text on standard input has none.
pub fn warnings_as(
    alloc: Global,
    file: Option<&str>,
    source: &[u8],
    compiled: &Compiled,
    telling: Telling<'_>,
) -> Result<Warned, AllocError>
    requires { IsSpelled source.now compiled.now.scheme.program.source }
    ensures { IfOk result (λ warned. AreWarningsPrinted (option_map (λ name. name.now) file.entry) source.now
        compiled.now telling.entry.format telling.entry.rulings.now (string_bytes warned.text) warned.is_refused) }
{
    let placed = placed_warnings(alloc, source, compiled)?;
    let told = told_of(alloc, telling.rulings, placed)?;
    let text = printed(alloc, file, source, told.as_slice(), telling.format)?;
    let is_refused = is_refused(telling.rulings, told.as_slice());
    Ok(Warned { text, is_refused })
}
