//! The command `conflicts`.

ghost use Rattle.std.specs.{Prelude.{◌≡◌, ◌≢◌, ◌++◌, [], IfOk, IfErr, OnOk, IsOkUnless}, String.{string_bytes}};
ghost use Rattle.std.specs.List.{flat_map};
ghost use Rattle.sect_names.specs.{Schemes.{SchemeView}, Sources.{IsAccepted}};
ghost use Rattle.sect_answers.specs.{declared.refusal.Refusal.TheVariants.{Memory}, Answers.{IsDue}};
ghost use Rattle.sect_answers.specs.Conflicting.{AreProgramConflicts, AreConflictsPrinted, AreConflictLines, heading};
ghost use Rattle.sect_answers.specs.Conflicting.{pair_line, conflict_text, clash_text, path_pair_text, path_pairs_text};
ghost use Rattle.sect_answers.specs.Conflicting.{pairs_word, count_of, is_always, is_sometimes, is_never};
ghost use Rattle.sect_conflicts.specs.Naming.{IsPairNamed, ArePairsNamed, IsConflictNamed, AreConflictsNamed};

use crate::format::Format;
use crate::refusal::Refusal;
use sect_conflicts::{Conflict, KeyClash, PathPair, SectionPair, conflicts};
use sect_draw::put_key;
use sect_emit::{Compiled, compile};
use sect_json::conflicts_document;
use sect_names::put_path;
use sect_types::Program;
use std::alloc::{AllocError, Global};
use std::fmt::Write;

/// Which sections of a source text exclude each other: how many pairs of sections of different threads do, and then a
/// line for each pair, in the order of section numbers; or the document of the pairs.
pub fn program_conflicts(
    alloc: Global,
    source: &[u8],
    k: u16,
    format: Format,
) -> Result<String, Refusal>
    // The text is accepted, and each pair has its line, or its value.
    ensures answers { IfOk result (λ text. AreProgramConflicts source.now k format (string_bytes text)) }
    // A text that is accepted is answered, unless memory runs out.
    ensures only { (s : SchemeView) → IsAccepted source.now k s → IsOkUnless result Memory }
    // A refusal is due, and it is the first that is.
    ensures refuses { IfErr result (IsDue source.now k) }
{
    let compiled = compile(alloc, source, k)?;
    Ok(conflicts_printed(alloc, &compiled, format)?)
}

/// The pairs of sections of a compiled program, as they are printed.
fn conflicts_printed(
    alloc: Global,
    compiled: &Compiled,
    format: Format,
) -> Result<String, AllocError>
    ensures { IfOk result (λ text. AreConflictsPrinted compiled.now format (string_bytes text)) }
{
    match format {
        Format::Text => conflict_lines(alloc, compiled),
        Format::Json => conflicts_document(alloc, compiled),
    }
}

/// The heading, and a line for each pair of sections.
fn conflict_lines(alloc: Global, compiled: &Compiled) -> Result<String, AllocError>
    ensures { IfOk result (λ text. AreConflictLines compiled.now (string_bytes text)) }
{
    compiled.facts();
    let pairs = conflicts(alloc, compiled)?;
    let mut text = String::new(alloc);
    put_heading(&mut text, pairs.as_slice())?;
    put_pairs(&mut text, compiled.scheme().program(), pairs.as_slice())?;
    Ok(text)
}

/// How many pairs exclude each other in every state.
fn count_always(pairs: &[SectionPair]) -> usize
    ensures { result ≡ count_of is_always pairs.now }
{
    pairs
        .iter()
        .filter(|pair| matches!(pair.conflict, Conflict::Always(_)))
        .count()
}

/// How many do so in some states.
fn count_sometimes(pairs: &[SectionPair]) -> usize
    ensures { result ≡ count_of is_sometimes pairs.now }
{
    pairs
        .iter()
        .filter(|pair| matches!(pair.conflict, Conflict::Sometimes(_)))
        .count()
}

/// How many go together.
fn count_never(pairs: &[SectionPair]) -> usize
    ensures { result ≡ count_of is_never pairs.now }
{
    pairs
        .iter()
        .filter(|pair| matches!(pair.conflict, Conflict::Never))
        .count()
}

/// What so many pairs are called.
fn pairs_called(count: usize) -> &'static str
    ensures { result.now ≡ pairs_word count }
{
    if count == 1 { "pair" } else { "pairs" }
}

/// Adds how many pairs there are, and how many of each kind.
pub fn put_heading(text: &mut String, pairs: &[SectionPair]) -> Result<(), AllocError>
    ensures { OnOk result (string_bytes text.new ≡ string_bytes text.old ++ heading pairs.now) }
{
    let count = pairs.len();
    let called = pairs_called(count);
    let always = count_always(pairs);
    let sometimes = count_sometimes(pairs);
    let never = count_never(pairs);
    write!(
        text,
        "{count} {called}: {always} exclude each other, {sometimes} sometimes, {never} go together\n"
    )?;
    Ok(())
}

/// Adds a line for each pair of sections.
fn put_pairs(text: &mut String, program: &Program, pairs: &[SectionPair]) -> Result<(), AllocError>
    requires { AreConflictsNamed program.now pairs.now }
    ensures { OnOk result (string_bytes text.new
        ≡ string_bytes text.old ++ flat_map (pair_line program.now) pairs.now) }
{
    for pair in pairs {
        write!(text, "sections {} and {} ", pair.first, pair.second)?;
        put_conflict(text, program, &pair.conflict)?;
        text.push_str("\n")?;
    }
    Ok(())
}

/// Adds whether two sections exclude each other.
pub fn put_conflict(
    text: &mut String,
    program: &Program,
    conflict: &Conflict,
) -> Result<(), AllocError>
    requires { IsConflictNamed program.now conflict.now }
    ensures { OnOk result (string_bytes text.new
        ≡ string_bytes text.old ++ conflict_text program.now conflict.now) }
{
    match conflict {
        Conflict::Always(clash) => {
            text.push_str("exclude each other: ")?;
            put_clash(text, program, clash)
        }
        Conflict::Sometimes(pairs) => {
            text.push_str("exclude each other where ")?;
            put_path_pairs(text, program, pairs.as_slice())
        }
        Conflict::Never => text.push_str("go together"),
    }
}

/// Adds a key and both modes, as `class 1 S, IX`.
fn put_clash(text: &mut String, program: &Program, clash: &KeyClash) -> Result<(), AllocError>
    ensures { OnOk result (string_bytes text.new
        ≡ string_bytes text.old ++ clash_text program.now clash.now) }
{
    put_key(text, program, clash.key)?;
    Ok(write!(text, " {}, {}", clash.first, clash.second)?)
}

/// Adds pairs of paths, with `, or ` between them.
fn put_path_pairs(
    text: &mut String,
    program: &Program,
    pairs: &[PathPair],
) -> Result<(), AllocError>
    requires some { pairs.now ≢ [] }
    requires named { ArePairsNamed program.now pairs.now }
    ensures { OnOk result (string_bytes text.new
        ≡ string_bytes text.old ++ path_pairs_text program.now.source pairs.now) }
{
    let Some((first, others)) = pairs.split_first() else {
        unreachable!()
    };
    put_path_pair(text, program, first)?;
    for pair in others {
        text.push_str(", or ")?;
        put_path_pair(text, program, pair)?;
    }
    Ok(())
}

/// Adds two paths, as `head.next is x`.
fn put_path_pair(text: &mut String, program: &Program, pair: &PathPair) -> Result<(), AllocError>
    requires { IsPairNamed program.now pair.now }
    ensures { OnOk result (string_bytes text.new
        ≡ string_bytes text.old ++ path_pair_text program.now.source pair.now) }
{
    put_path(text, program, &pair.first)?;
    text.push_str(" is ")?;
    put_path(text, program, &pair.second)
}
