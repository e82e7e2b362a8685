//! Whether what is claimed of one section is right.

ghost use Rattle.std.specs.Prelude.{◌≡◌, ◌<◌, ◌+◌, ◌↔◌, length, IfOk, IsTrue};
ghost use Rattle.sect_lemmas.specs.Lists.{Has};
ghost use Rattle.sect_graph.specs.Predecessors.{StaysWithin};
ghost use Rattle.sect_names.specs.{declared.lock.Lock.{Lock}, Needed.{end_locks}, Order.{AreInOrder}};
ghost use Rattle.sect_check.specs.Valid.{AreApart};
ghost use Rattle.sect_check.specs.steps.Shapes.{HaveShape, AreLawfulLists, AreLawfulChains};
ghost use Rattle.sect_check.specs.steps.Parts.{JudgesLists, JudgesEntry, JudgesSection};

use crate::chains::judge_chains;
use crate::claims::Claims;
use crate::covering::{are_covered, list_at, set_of};
use crate::fault::SectionFault;
use crate::judged::Judged;
use crate::lists::{first_uncarried, first_ungenerated};
use indexmap::IndexSet;
use sect_names::{Lock, Scheme};
use std::alloc::{AllocError, Global};

/// Whether the lists of the nodes are right.
fn judge_lists(alloc: Global, section: Judged<'_>, claims: &Claims) -> Result<(), SectionFault>
    requires count { length claims.now.nodes ≡ length section.flow.now + 1 }
    requires within { StaysWithin section.flow.now }
    requires lawful { AreLawfulLists section.scheme.now section.thread claims.now }
    ensures { JudgesLists section.entry.scheme.now section.entry.thread
        (end_locks section.entry.locking) section.entry.flow.now claims.now result }
{
    if let Some(node) = first_ungenerated(alloc, section, claims) {
        return Err(SectionFault::NotGenerated { node });
    }
    match first_uncarried(alloc, section, claims)? {
        None => Ok(()),
        Some((from, to)) => Err(SectionFault::NotCarried { from, to }),
    }
}

/// Whether the list is in canonical order and no lock of it covers another, where the set has the same locks.
fn is_maximal(
    alloc: Global,
    scheme: &Scheme,
    set: &IndexSet<Lock>,
    locks: &[Lock],
) -> Result<bool, AllocError>
    requires { (l : Lock) → Has set.now.keys l ↔ Has locks.now l }
    ensures { IfOk result (λ it. IsTrue it ↔ (AreInOrder locks.now × AreApart scheme.now locks.now)) }
{
    let maximal = scheme.maximal(alloc, set)?;
    Ok(maximal.as_slice() == locks)
}

/// Whether the entry list is right, but for its chains, where the set has the same locks.
fn judge_entry(
    alloc: Global,
    scheme: &Scheme,
    claims: &Claims,
    set: &IndexSet<Lock>,
) -> Result<(), SectionFault>
    requires nodes { 0 < length claims.now.nodes }
    requires set { (l : Lock) → Has set.now.keys l ↔ Has claims.now.entry l }
    ensures { JudgesEntry scheme.now claims.now result }
{
    if !are_covered(scheme, set, list_at(claims, 0))? {
        return Err(SectionFault::EntryNotCovered);
    }
    if !is_maximal(alloc, scheme, set, claims.entry.as_slice())? {
        return Err(SectionFault::NotMaximal);
    }
    Ok(())
}

/// Whether what is claimed of a section is right: else its first fault.
pub fn judge_section(
    alloc: Global,
    section: Judged<'_>,
    claims: &Claims,
) -> Result<(), SectionFault>
    requires shape { HaveShape section.flow.now claims.now }
    requires within { StaysWithin section.flow.now }
    requires lawful { AreLawfulLists section.scheme.now section.thread claims.now }
    requires chains { AreLawfulChains section.scheme.now section.thread claims.now.chains }
    ensures { JudgesSection section.entry.scheme.now section.entry.thread
        (end_locks section.entry.locking) section.entry.flow.now claims.now result }
{
    judge_lists(alloc, section, claims)?;
    let set = set_of(alloc, claims.entry.as_slice())?;
    judge_entry(alloc, section.scheme, claims, &set)?;
    judge_chains(alloc, section, claims)
}
