//! Sections that exclude each other, though they have no field in common.

ghost use Rattle.std.specs.Prelude.{◌≡◌, ◌∷◌, [], length, map, IfOk, OnOk};
ghost use Rattle.sect_lemmas.specs.Lists.{Has};
ghost use Rattle.sect_types.specs.Sections.{sections_of};
ghost use Rattle.sect_places.specs.SectionItems.{section_items_of};
ghost use Rattle.sect_conflicts.specs.{declared.conflict.SectionPair.{SectionPair as SectionPairOf}, Selecting.{Adds}};
ghost use Rattle.sect_conflicts.specs.{Comparing.{AreCompared}, Conflicts.{IsConflict, Selects}};
ghost use Rattle.sect_warnings.specs.{Apart.{pair_warning, is_of as is_of_by, firsts as firsts_by}, Warnings.{IsDue}};
ghost use Rattle.sect_warnings.specs.{Warnings.{AreOfPairs}, steps.Usage.{AreAllUsed, is_all as is_all_by, by_part}};

use crate::fields::{Usage, share_field, share_record, usages_of};
use crate::warning::{Finding, Warning};
use sect_conflicts::{Conflict, SectionPair, conflicts};
use sect_emit::Compiled;
use sect_modes::Key;
use std::alloc::{AllocError, Global};

fn is_all(key: Key) -> bool
    ensures { result ≡ is_all_by key }
{
    matches!(key, Key::All)
}

/// Whether two sections exclude each other in every state by an object or a class, by what is told of them.
fn exclude_by_part(conflict: &Conflict) -> bool
    ensures { result ≡ by_part conflict.now }
{
    match conflict {
        Conflict::Always(clash) => !is_all(clash.key),
        Conflict::Sometimes(_) | Conflict::Never => false,
    }
}

/// Adds that two sections exclude each other without a common field, if they do.
fn add_pair(
    found: &mut Vec<Warning>,
    compiled: &Compiled,
    usages: &[Usage],
    items: &[usize],
    pair: &SectionPair,
) -> Result<(), AllocError>
    requires usages { AreAllUsed compiled.now usages.now }
    requires items { items.now ≡ section_items_of compiled.now.scheme.program.source }
    requires many { length items.now ≡ length (sections_of compiled.now.scheme.program.texts) }
    requires compared { AreCompared compiled.now pair.now.first pair.now.second }
    requires conflict { IsConflict compiled.now pair.now.first pair.now.second pair.now.conflict }
    ensures { OnOk result (Adds (IsDue compiled.now)
        (pair_warning compiled.now.scheme.program.source pair.now ∷ []) found.old.items found.new.items) }
{
    compiled.facts();
    if !exclude_by_part(&pair.conflict) {
        return Ok(());
    }
    let (one, other) = (&usages[pair.first as usize], &usages[pair.second as usize]);
    if !share_record(one, other) {
        return Ok(());
    }
    if share_field(one, other) {
        return Ok(());
    }
    let item = items[pair.first as usize];
    found.push(Warning {
        section: pair.first,
        finding: Finding::NoCommonField { other: pair.second },
        item,
    })?;
    Ok(())
}

/// All that is told of these pairs of sections, of a program whose sections are these items.
fn all_of_pairs(
    alloc: Global,
    compiled: &Compiled,
    items: &[usize],
    pairs: &[SectionPair],
) -> Result<Vec<Warning>, AllocError>
    requires items { items.now ≡ section_items_of compiled.now.scheme.program.source }
    requires many { length items.now ≡ length (sections_of compiled.now.scheme.program.texts) }
    requires pairs { (p : SectionPairOf) → Has pairs.now p → AreCompared compiled.now p.first p.second
        × IsConflict compiled.now p.first p.second p.conflict }
    ensures { IfOk result (λ all. Selects (IsDue compiled.now)
        (map (pair_warning compiled.now.scheme.program.source) pairs.now) all.items) }
{
    let usages = usages_of(alloc, compiled)?;
    let mut all = Vec::new(alloc);
    for pair in pairs {
        add_pair(&mut all, compiled, usages.as_slice(), items, pair)?;
    }
    Ok(all)
}

/// Whether the warning before is of this section.
fn is_of(last: Option<u16>, section: u16) -> bool
    ensures { result ≡ is_of_by last section }
{
    match last {
        Some(last) => last == section,
        None => false,
    }
}

/// The first warning of each section.
fn firsts(alloc: Global, all: &[Warning]) -> Result<Vec<Warning>, AllocError>
    ensures { IfOk result (λ list. list.items ≡ firsts_by all.now) }
{
    let mut list = Vec::new(alloc);
    let mut last = None;
    for warning in all {
        if !is_of(last, warning.section) {
            list.push(*warning)?;
        }
        last = Some(warning.section);
    }
    Ok(list)
}

/// What is told of two sections of a program whose sections are these items.
pub fn of_pairs(
    alloc: Global,
    compiled: &Compiled,
    items: &[usize],
) -> Result<Vec<Warning>, AllocError>
    requires items { items.now ≡ section_items_of compiled.now.scheme.program.source }
    requires many { length items.now ≡ length (sections_of compiled.now.scheme.program.texts) }
    ensures { IfOk result (λ found. AreOfPairs compiled.now found.items) }
{
    let pairs = conflicts(alloc, compiled)?;
    let all = all_of_pairs(alloc, compiled, items, pairs.as_slice())?;
    firsts(alloc, all.as_slice())
}
