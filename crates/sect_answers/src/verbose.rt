//! The commands `locks` and `conflicts` with what stands behind their numbers.

ghost use Rattle.std.specs.Prelude.{◌≡◌, ◌<◌, ◌++◌, IfOk, IfErr, OnOk, IsOkUnless, length, option_map};
ghost use Rattle.std.specs.{List.{flat_map}, String.{string_bytes}};
ghost use Rattle.sect_front.specs.Front.{IsSpelled};
ghost use Rattle.sect_types.specs.Sections.{sections_of};
ghost use Rattle.sect_names.specs.{Printing.{locks_text}, Schemes.{SchemeView}, Sources.{IsAccepted}};
ghost use Rattle.sect_emit.specs.Compiled.{program_of};
ghost use Rattle.sect_conflicts.specs.{Comparing.{AreConflicts}, Conflicts.{set_at}, Naming.{IsConflictNamed}};
ghost use Rattle.sect_answers.specs.declared.verbose.Verbose.TheVariants.{Locks, Conflicts};
ghost use Rattle.sect_legend.specs.Legend.{ArePlaced, mark_of};
ghost use Rattle.sect_answers.specs.{declared.refusal.Refusal.TheVariants.{Memory}, Answers.{IsDue}};
ghost use Rattle.sect_answers.specs.Conflicting.{conflict_text};
ghost use Rattle.sect_answers.specs.Verbose.{AreLinesOf, IsExplained, IsVerboseAnswer, file_mark, numbered};
ghost use Rattle.sect_answers.specs.Verbose.{set_line, two_line};
ghost use Rattle.sect_lint.specs.Files.{place_mark as place_mark_of};

use crate::conflicts::{put_conflict, put_heading};
use crate::refusal::Refusal;
use sect_conflicts::{Conflict, SectionPair, conflicts};
use sect_emit::{Compiled, compile};
use sect_legend::{Places, class_lines, put_section};
use sect_lint::place_mark;
use sect_names::put_locks;
use sect_places::{LineIndex, node_spans};
use std::alloc::{AllocError, Global};
use std::fmt::Write;

/// An answer that has a form in which its numbers are explained.
#[derive(Clone, Copy)]
pub enum Verbose {
    Locks,
    Conflicts,
}

/// The lock set of each section of a source text of this file, or which of its sections exclude each other: each
/// section with its thread and where it stands, and behind them each class with its sites.
pub fn verbose_answer(
    alloc: Global,
    file: Option<&str>,
    source: &[u8],
    k: u16,
    of: Verbose,
) -> Result<String, Refusal>
    // The text is accepted, and each section, each pair and each class has its line.
    ensures answers { IfOk result (λ text. IsVerboseAnswer (option_map (λ name. name.now) file.entry) source.now k of
        (string_bytes text)) }
    // A text that is accepted is answered, unless memory runs out.
    ensures only { (s : SchemeView) → IsAccepted source.now k s → IsOkUnless result Memory }
    // A refusal is due, and it is the first that is.
    ensures refuses { IfErr result (IsDue source.now k) }
{
    let compiled = compile(alloc, source, k)?;
    Ok(explained(alloc, file, source, &compiled, of)?)
}

/// What is told of a compiled program, whose text this is.
fn explained(
    alloc: Global,
    file: Option<&str>,
    source: &[u8],
    compiled: &Compiled,
    of: Verbose,
) -> Result<String, AllocError>
    requires { IsSpelled source.now (program_of compiled.now).source }
    ensures { IfOk result (λ text. IsExplained (option_map (λ name. name.now) file.entry) source.now compiled.now of
        (string_bytes text)) }
{
    let mark = place_mark(alloc, file)?;
    let lines = LineIndex::new(alloc, source)?;
    let spans = node_spans(alloc, source, compiled.scheme().program())?;
    let places = Places {
        mark: marked(file, mark.as_str()),
        source: &lines,
        compiled,
        spans: &spans,
    };
    let mut text = lines_of(alloc, &places, of)?;
    text.push_str(class_lines(alloc, &places)?.as_str())?;
    Ok(text)
}

/// What stands before line and column, where the text has a file.
fn marked<'a>(file: Option<&str>, mark: &'a str) -> Option<&'a str>
    requires { mark.now ≡ place_mark_of (option_map (λ name. name.now) file) }
    ensures { option_map (λ mark. mark.now) result ≡ file_mark (option_map (λ name. name.now) file.entry) }
{
    match file {
        Some(_) => Some(mark),
        None => None,
    }
}

/// The lines of sections, or of pairs of them.
fn lines_of(alloc: Global, places: &Places<'_>, of: Verbose) -> Result<String, AllocError>
    requires { ArePlaced places.now }
    ensures { IfOk result (λ text. AreLinesOf of places.now.compiled.now (mark_of places.now) places.now.source.now
        places.now.spans.now.heads (string_bytes text)) }
{
    match of {
        Verbose::Locks => set_lines(alloc, places),
        Verbose::Conflicts => pair_lines(alloc, places),
    }
}

/// A line for each section.
fn set_lines(alloc: Global, places: &Places<'_>) -> Result<String, AllocError>
    requires { ArePlaced places.now }
    ensures { IfOk result (λ text. AreLinesOf Locks places.now.compiled.now (mark_of places.now) places.now.source.now
        places.now.spans.now.heads (string_bytes text)) }
{
    let mut text = String::new(alloc);
    for section in 0..places.compiled.scheme().program().section_count() {
        put_set_line(&mut text, places, section)?;
    }
    Ok(text)
}

/// Adds the locks of a section.
fn put_set(text: &mut String, compiled: &Compiled, section: u16) -> Result<(), AllocError>
    requires { section < length (sections_of (program_of compiled.now).texts) }
    ensures { OnOk result (string_bytes text.new
        ≡ string_bytes text.old ++ locks_text (program_of compiled.now).source (set_at compiled.now section)) }
{
    compiled.facts();
    put_locks(text, compiled.scheme().program(), compiled.set(section))
}

/// Adds the line of a section.
fn put_set_line(text: &mut String, places: &Places<'_>, section: u16) -> Result<(), AllocError>
    requires placed { ArePlaced places.now }
    requires section { section < length (sections_of (program_of places.now.compiled.now).texts) }
    ensures { OnOk result (string_bytes text.new ≡ string_bytes text.old ++ set_line places.now.compiled.now
        (mark_of places.now) places.now.source.now places.now.spans.now.heads section) }
{
    text.push_str("section ")?;
    put_numbered(text, places, section)?;
    text.push_str(": ")?;
    put_set(text, places.compiled, section)?;
    text.push_str("\n")
}

/// Adds the number of a section, with its thread and where it stands.
fn put_numbered(text: &mut String, places: &Places<'_>, section: u16) -> Result<(), AllocError>
    requires placed { ArePlaced places.now }
    requires section { section < length (sections_of (program_of places.now.compiled.now).texts) }
    ensures { OnOk result (string_bytes text.new ≡ string_bytes text.old ++ numbered places.now.compiled.now
        (mark_of places.now) places.now.source.now places.now.spans.now.heads section) }
{
    write!(text, "{section} (")?;
    put_section(text, places, section)?;
    text.push_str(")")
}

/// The heading, and a line for each pair of sections.
fn pair_lines(alloc: Global, places: &Places<'_>) -> Result<String, AllocError>
    requires { ArePlaced places.now }
    ensures { IfOk result (λ text. AreLinesOf Conflicts places.now.compiled.now (mark_of places.now)
        places.now.source.now places.now.spans.now.heads (string_bytes text)) }
{
    let pairs = conflicts(alloc, places.compiled)?;
    let mut text = String::new(alloc);
    put_heading(&mut text, pairs.as_slice())?;
    put_pairs(&mut text, places, pairs.as_slice())?;
    Ok(text)
}

/// Adds a line for each pair of sections.
fn put_pairs(
    text: &mut String,
    places: &Places<'_>,
    pairs: &[SectionPair],
) -> Result<(), AllocError>
    requires placed { ArePlaced places.now }
    requires told { AreConflicts places.now.compiled.now pairs.now }
    ensures { OnOk result (string_bytes text.new ≡ string_bytes text.old ++ flat_map (two_line places.now.compiled.now
        (mark_of places.now) places.now.source.now places.now.spans.now.heads) pairs.now) }
{
    places.compiled.facts();
    for pair in pairs {
        put_pair(text, places, pair)?;
    }
    Ok(())
}

/// Adds the line of a pair of sections.
fn put_pair(text: &mut String, places: &Places<'_>, pair: &SectionPair) -> Result<(), AllocError>
    requires placed { ArePlaced places.now }
    requires first { pair.now.first < length (sections_of (program_of places.now.compiled.now).texts) }
    requires second { pair.now.second < length (sections_of (program_of places.now.compiled.now).texts) }
    requires named { IsConflictNamed (program_of places.now.compiled.now) pair.now.conflict }
    ensures { OnOk result (string_bytes text.new ≡ string_bytes text.old ++ two_line places.now.compiled.now
        (mark_of places.now) places.now.source.now places.now.spans.now.heads pair.now) }
{
    text.push_str("sections ")?;
    put_numbered(text, places, pair.first)?;
    text.push_str(" and ")?;
    put_numbered(text, places, pair.second)?;
    text.push_str(" ")?;
    put_told(text, places.compiled, &pair.conflict)?;
    text.push_str("\n")
}

/// Adds whether two sections of a compiled program exclude each other.
fn put_told(text: &mut String, compiled: &Compiled, conflict: &Conflict) -> Result<(), AllocError>
    requires { IsConflictNamed (program_of compiled.now) conflict.now }
    ensures { OnOk result (string_bytes text.new
        ≡ string_bytes text.old ++ conflict_text (program_of compiled.now) conflict.now) }
{
    put_conflict(text, compiled.scheme().program(), conflict)
}
