//! The chains of a section.

ghost use Rattle.std.specs.Prelude.{◌≡◌, ◌<◌, ◌≤◌, List, length, slice_get, Some, IfOk};
ghost use Rattle.sect_lemmas.specs.Lists.{Has};
ghost use Rattle.sect_types.specs.Sections.{SectionView, sections_of};
ghost use Rattle.sect_graph.specs.{declared.flow.Node.{Node}, Predecessors.{StaysWithin}};
ghost use Rattle.sect_names.specs.{declared.lock.Lock.{Lock}, Needed.{end_locks, end_of}, Chains.{link}};
ghost use Rattle.sect_names.specs.Laws.{AreLawful};
ghost use Rattle.sect_infer.specs.{Sets.{AreLocksOf}, Numbers.{AreApart}};
ghost use Rattle.sect_chains.specs.{Chains.{AreChains}, declared.keep.KeptLink.{KeptLink}};
ghost use Rattle.sect_chains.specs.Numbered.{chains_in};
ghost use Rattle.sect_chains.specs.steps.{Trails.{RespectCover, AreTops}, Starting.{AreStarts}};
ghost use Rattle.sect_chains.specs.steps.Working.{links_of};

use crate::chain::Chain;
use crate::numbered::NumberedChains;
use crate::starts::starts_of;
use crate::trail::trail_of;
use crate::work::{Searched, Trail};
use sect_front::Locking;
use sect_infer::Locks;
use sect_names::{
    Lock, Scheme, carrying_back_respects_covering, end_lock, locks_stay_the_programs,
    steps_of_sections,
};
use std::alloc::{AllocError, Global};

/// For each lock that a section takes at its entry, in order, the steps along which it is needed: its first chain. That
/// is the shortest, and of those that are as short the one that stands before the others, compared from their ends by
/// nodes and by the canonical order of locks. `AllocError` is answered only where a growth was refused.
pub fn chains(
    alloc: Global,
    scheme: &Scheme,
    locks: &Locks,
    section: u16,
) -> Result<Vec<Chain>, AllocError>
    requires section { section < length (sections_of scheme.now.program.texts) }
    requires locks { (of : SectionView) (g : List Node)
        → slice_get (sections_of scheme.now.program.texts) section ≡ Some of
        → slice_get scheme.now.graphs.sections section ≡ Some g
        → AreLocksOf scheme.now (end_of scheme.now section) of g locks.now }
    ensures { (of : SectionView) (g : List Node)
        → slice_get (sections_of scheme.now.program.texts) section ≡ Some of
        → slice_get scheme.now.graphs.sections section ≡ Some g
        → IfOk result (λ chains.
        AreChains scheme.now of.thread (end_of scheme.now section) g locks.now.entry chains.items) }
{
    let numbered = numbered_chains(alloc, scheme, locks, section)?;
    numbered.linked(alloc)
}

/// The chains of a section's locks, as `chains` gives them, with the locks of their steps by number.
pub fn numbered_chains(
    alloc: Global,
    scheme: &Scheme,
    locks: &Locks,
    section: u16,
) -> Result<NumberedChains, AllocError>
    requires section { section < length (sections_of scheme.now.program.texts) }
    requires locks { (of : SectionView) (g : List Node)
        → slice_get (sections_of scheme.now.program.texts) section ≡ Some of
        → slice_get scheme.now.graphs.sections section ≡ Some g
        → AreLocksOf scheme.now (end_of scheme.now section) of g locks.now }
    ensures { (of : SectionView) (g : List Node)
        → slice_get (sections_of scheme.now.program.texts) section ≡ Some of
        → slice_get scheme.now.graphs.sections section ≡ Some g
        → IfOk result (λ chains.
        AreChains scheme.now of.thread (end_of scheme.now section) g locks.now.entry (chains_in chains)) }
{
    scheme.facts();
    scheme.program().facts();
    needed_locks_have_trails(scheme, locks, section);
    only_the_programs(scheme, section);
    let thread = scheme.program().section(section).thread;
    let flow = scheme.graph().section(section);
    let last = locks_of_end(alloc, scheme.program().locking(section))?;
    let searched = Searched {
        scheme,
        thread,
        flow,
        last: last.as_slice(),
    };
    found(alloc, searched, locks.entry())
}

/// What the end of a section generates, as a list.
fn locks_of_end(alloc: Global, locking: Locking) -> Result<Vec<Lock>, AllocError>
    ensures { IfOk result (λ locks. locks.items ≡ end_locks locking) }
{
    let mut locks = Vec::new(alloc);
    if let Some(lock) = end_lock(locking) {
        locks.push(lock)?;
    }
    Ok(locks)
}

/// What the nodes of a section's graph and the section's end generate, and what the nodes carry back, are locks of the
/// program; where a lock covers another, what it is carried back to covers what the other is; and control stays in the
/// graph.
fn only_the_programs(scheme: &Scheme, section: u16)
    ensures lawful { (of : SectionView) (g : List Node)
        → slice_get (sections_of scheme.now.program.texts) section ≡ Some of
        → slice_get scheme.now.graphs.sections section ≡ Some g
        → AreLawful scheme.now of.thread (end_of scheme.now section) g }
    ensures within { (of : SectionView) (g : List Node)
        → slice_get (sections_of scheme.now.program.texts) section ≡ Some of
        → slice_get scheme.now.graphs.sections section ≡ Some g → StaysWithin g }
    ensures respects { (of : SectionView) (g : List Node)
        → slice_get (sections_of scheme.now.program.texts) section ≡ Some of
        → slice_get scheme.now.graphs.sections section ≡ Some g → RespectCover scheme.now of.thread g }
{
    scheme.facts();
    scheme.program().facts();
    locks_stay_the_programs();
    carrying_back_respects_covering();
    steps_of_sections();
}

/// Steps lead on from each of the entry's locks at the first node, and from no other lock there that covers it.
fn needed_locks_have_trails(scheme: &Scheme, locks: &Locks, section: u16)
    requires { (of : SectionView) (g : List Node)
        → slice_get (sections_of scheme.now.program.texts) section ≡ Some of
        → slice_get scheme.now.graphs.sections section ≡ Some g
        → AreLocksOf scheme.now (end_of scheme.now section) of g locks.now }
    ensures { (of : SectionView) (g : List Node)
        → slice_get (sections_of scheme.now.program.texts) section ≡ Some of
        → slice_get scheme.now.graphs.sections section ≡ Some g
        → AreTops scheme.now of.thread (end_of scheme.now section) g locks.now.entry }
{
    scheme.facts();
    let _facts = locks.entry();
}

/// The first chain of each of these locks.
fn found(alloc: Global, section: Searched<'_>, locks: &[Lock]) -> Result<NumberedChains, AllocError>
    requires within { StaysWithin section.flow.now }
    requires lawful { AreLawful section.scheme.now section.thread section.last.now section.flow.now }
    requires respects { RespectCover section.scheme.now section.thread section.flow.now }
    requires tops { AreTops section.scheme.now section.thread section.last.now section.flow.now locks.now }
    requires few { length section.last.now ≤ 1 }
    ensures { IfOk result (λ chains.
        AreChains section.entry.scheme.now section.entry.thread section.entry.last.now section.entry.flow.now
        locks.now (chains_in chains)) }
{
    let trail = trail_of(alloc, section)?;
    let starts = starts_of(alloc, &trail)?;
    let mut chains = Vec::with_capacity(alloc, locks.len())?;
    for lock in locks {
        chains.push(start_of(&trail, &starts, lock))?;
    }
    Ok(NumberedChains::of(trail.numbering, trail.steps, chains))
}

/// Where the chain of a lock that is needed at the entry begins.
fn start_of(trail: &Trail, starts: &Vec<Option<usize>>, lock: &Lock) -> usize
    requires numbers { (x : KeptLink) → Has trail.now.steps.items x → x.number < length trail.now.numbering.keys }
    requires apart { AreApart trail.now.numbering.keys }
    requires starts { AreStarts (length trail.now.numbering.keys) trail.now.steps.items (length trail.now.steps.items)
        starts.now.items }
    requires there { Has (links_of trail.now.numbering.keys trail.now.steps.items) (link 0 lock.now) }
    ensures within { result < length trail.now.steps.items }
    ensures first { slice_get (links_of trail.now.numbering.keys trail.now.steps.items) result
        ≡ Some (link 0 lock.now) }
{
    let number = trail.numbering.find(lock).unwrap();
    starts[number].unwrap()
}
