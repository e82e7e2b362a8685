//! What is reported of warnings, for a reader.

ghost use Rattle.std.specs.{Prelude.{◌≡◌, ◌++◌, OnOk, IfOk, length, codes}, List.{flat_map}, Fmt.{decimal}};
ghost use Rattle.std.specs.String.{string_bytes};
ghost use Rattle.sect_front.specs.FaultPlaces.{IsWithin};
ghost use Rattle.sect_warnings.specs.Titles.{title_of, told_of, told_title, doing as doing_by};
ghost use Rattle.sect_warnings.specs.Reports.{heading, note_line, report, reports, AreWithin};

use crate::placed::{Placed, put_behind};
use crate::warning::{Finding, Told, Warning};
use sect_lint::{put_excerpt, put_margin, put_place_line};
use sect_names::Effect;
use sect_places::{LineIndex, Position};
use std::alloc::{AllocError, Global};
use std::fmt::Write;

/// What a class is locked for.
fn doing(effect: Effect) -> &'static str
    ensures { result.now ≡ doing_by effect }
{
    match effect {
        Effect::Read => "reading",
        Effect::Write => "writing",
    }
}

/// Adds what is told of a section, in a few words.
fn put_told(text: &mut String, finding: Finding) -> Result<(), AllocError>
    ensures { OnOk result (string_bytes text.new ≡ string_bytes text.old ++ told_of finding) }
{
    match finding {
        Finding::NoLock => text.push_str(" takes no lock"),
        Finding::AllForOne => text.push_str(" locks everything where one lock would do"),
        Finding::ClassLock { class, effect } => {
            let doing = doing(effect);
            Ok(write!(text, " locks all of class {class} for {doing}")?)
        }
        Finding::NeverFilled { .. } => text.push_str(" goes through a local that is always null"),
        Finding::LostUpdate(update) => {
            let section = update.load.section;
            Ok(write!(
                text,
                " stores to a field what section {section} has loaded from it"
            )?)
        }
        Finding::NoCommonField { other } => Ok(write!(
            text,
            " excludes section {other}, though neither stores to a field that the other uses"
        )?),
    }
}

/// Adds what is told of a section, with its number.
fn put_section(text: &mut String, warning: Warning) -> Result<(), AllocError>
    ensures { OnOk result (string_bytes text.new ≡ string_bytes text.old ++ title_of warning) }
{
    write!(text, "section {}", warning.section)?;
    put_told(text, warning.finding)
}

/// Adds what is told, in a few words.
fn put_title(text: &mut String, told: Told) -> Result<(), AllocError>
    ensures { OnOk result (string_bytes text.new ≡ string_bytes text.old ++ told_title told) }
{
    match told {
        Told::Section(warning) => put_section(text, warning),
        Told::Declaration(spare) => text.push_str(spare.title()),
    }
}

/// What is told, in a few words.
pub fn title(alloc: Global, told: Told) -> Result<String, AllocError>
    ensures { IfOk result (λ text. string_bytes text ≡ told_title told) }
{
    let mut text = String::new(alloc);
    put_title(&mut text, told)?;
    Ok(text)
}

/// Adds the name of a warning and what is told.
#[tactic(auto, unfolding(crate::specs::Reports::heading))]
fn put_heading(text: &mut String, told: Told) -> Result<(), AllocError>
    ensures { OnOk result (string_bytes text.new ≡ string_bytes text.old ++ heading told) }
{
    let name = told.name();
    write!(text, "warning[{name}]: ")?;
    put_title(text, told)?;
    text.push_str("\n")
}

/// Adds what it means, below a line of this number.
#[tactic(auto, unfolding(crate::specs::Reports::note_line))]
fn put_note(text: &mut String, note: &str, number: &str, line: usize) -> Result<(), AllocError>
    requires { number.now ≡ decimal line }
    ensures { OnOk result (string_bytes text.new ≡ string_bytes text.old ++ note_line line note.now) }
{
    text.push_str("\n")?;
    put_margin(text, number)?;
    Ok(write!(text, "= {note}\n")?)
}

/// Adds the report of a warning, whose place stands behind this mark.
fn put_report(
    alloc: Global,
    text: &mut String,
    mark: &str,
    source: &LineIndex<'_>,
    placed: &Placed,
) -> Result<(), AllocError>
    requires { IsWithin (length source.now) placed.now.span }
    ensures { OnOk result (string_bytes text.new ≡ string_bytes text.old ++ report mark.now source.now placed.now) }
{
    let (told, span) = (placed.told(), placed.span());
    let position = source.position(span.start);
    let Position { line, column } = position;
    let number = format!(in alloc; "{line}")?;
    put_heading(text, told)?;
    put_place_line(text, mark, position)?;
    put_excerpt(text, source.text(), span, number.as_str(), column)?;
    put_behind(text, " ", placed.label())?;
    put_note(text, placed.note(), number.as_str(), line)
}

/// Adds the reports of warnings, each behind an empty line.
fn put_others(
    alloc: Global,
    text: &mut String,
    mark: &str,
    source: &LineIndex<'_>,
    others: &[Placed],
) -> Result<(), AllocError>
    requires { AreWithin (length source.now) others.now }
    ensures { OnOk result (string_bytes text.new
        ≡ string_bytes text.old ++ flat_map (λ q. codes "\n" ++ report mark.now source.now q) others.now) }
{
    for other in others {
        text.push_str("\n")?;
        put_report(alloc, text, mark, source, other)?;
    }
    Ok(())
}

/// The reports of warnings, whose places stand behind this mark, with an empty line between them.
pub fn reports_text(
    alloc: Global,
    mark: &str,
    source: &[u8],
    placed: &[Placed],
) -> Result<String, AllocError>
    requires { AreWithin (length source.now) placed.now }
    ensures { IfOk result (λ text. string_bytes text ≡ reports mark.now source.now placed.now) }
{
    let mut text = String::new(alloc);
    let Some((first, others)) = placed.split_first() else {
        return Ok(text);
    };
    let lines = LineIndex::new(alloc, source)?;
    put_report(alloc, &mut text, mark, &lines, first)?;
    put_others(alloc, &mut text, mark, &lines, others)?;
    Ok(text)
}
