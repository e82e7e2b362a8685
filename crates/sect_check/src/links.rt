//! Whether the steps of a claimed chain link to each other.

ghost use Rattle.std.specs.Prelude.{◌≡◌, ◌≤◌, ◌<◌, ◌-◌, ◌↔◌, length, slice_get, Some, MatchOption, IfOk, IsTrue};
ghost use Rattle.sect_graph.specs.Paths.{IsSuccessor};
ghost use Rattle.sect_names.specs.{Locks.{IsLockOf}, Carrying.{CarriedBack}, Needed.{end_locks}};
ghost use Rattle.sect_names.specs.Chains.{link, IsGeneratedAt, LinksTo, IsChain};
ghost use Rattle.sect_check.specs.Faults.{IsFirst, ComesRight, EndsRight, IsStepRight};
ghost use Rattle.sect_check.specs.steps.Shapes.{AreLawfulLinks};

use crate::claimed_links::{ClaimedLink, ClaimedLinks};
use crate::covering::has;
use crate::judged::Judged;
use crate::lists::generated_at;
use sect_graph::{Flow, Successors};
use sect_names::{Lock, stays};
use sect_types::Label;
use std::alloc::{AllocError, Global};

/// The node of this number, unless it is the exit or past it.
fn node_of(flow: &Flow, number: u32) -> Option<u16>
    ensures { MatchOption result (length flow.now ≤ number) (λ node. (node ≡ number) × (node < length flow.now)) }
{
    if number < flow.exit() as u32 {
        Some(number as u16)
    } else {
        None
    }
}

/// Whether control may go on to the node of this number.
fn leads_to(next: Successors, number: u32) -> bool
    ensures { IsTrue result ↔ IsSuccessor next number }
{
    match next {
        Successors::Next(node) => node as u32 == number,
        Successors::Branch(holds, fails) => holds as u32 == number || fails as u32 == number,
    }
}

/// Whether the node of a step generates its lock.
fn is_generated(alloc: Global, section: Judged<'_>, step: ClaimedLink<'_>) -> bool
    ensures { IsTrue result ↔ IsGeneratedAt section.entry.scheme.now section.entry.thread
        (end_locks section.entry.locking) section.entry.flow.now (link step.entry.node step.entry.lock.now) }
{
    if step.node > section.flow.exit() as u32 {
        return false;
    }
    match generated_at(
        alloc,
        section.scheme,
        section.thread,
        section.locking,
        section.flow,
        step.node as u16,
    ) {
        Some(lock) => lock == *step.lock,
        None => false,
    }
}

/// Whether a lock is needed before a node because of another that is needed after it.
fn is_carried_back(
    alloc: Global,
    section: Judged<'_>,
    label: &Label,
    after: &Lock,
    before: &Lock,
) -> Result<bool, AllocError>
    requires { IsLockOf section.scheme.now section.thread after.now }
    ensures { IfOk result (λ it. IsTrue it
        ↔ CarriedBack section.entry.scheme.now section.entry.thread label.now after.now before.now) }
{
    if stays(section.thread, label, after) {
        return Ok(before == after);
    }
    let carried = section
        .scheme
        .rewrite(alloc, section.thread, *label, after)?;
    Ok(has(carried.as_slice(), before))
}

/// A step of a claimed chain and the one behind it, and whether their locks are known to be one.
#[derive(Clone, Copy)]
struct Pair<'a> {
    step: ClaimedLink<'a>,
    next: ClaimedLink<'a>,
    same: bool,
}

/// Whether a step links to another. Mostly its lock is that one's, and stays.
fn links_to(alloc: Global, section: Judged<'_>, pair: Pair<'_>) -> Result<bool, AllocError>
    requires lawful { IsLockOf section.scheme.now section.thread pair.next.lock.now }
    requires same { IsTrue pair.same → pair.step.lock.now ≡ pair.next.lock.now }
    ensures { IfOk result (λ it. IsTrue it
        ↔ LinksTo section.entry.scheme.now section.entry.thread section.entry.flow.now
        (link pair.entry.step.node pair.entry.step.lock.now) (link pair.entry.next.node pair.entry.next.lock.now)) }
{
    let Pair { step, next, same } = pair;
    let Some(node) = node_of(section.flow, step.node) else {
        return Ok(false);
    };
    if !leads_to(section.flow.succ(node), next.node) {
        return Ok(false);
    }
    let label = section.flow.action(node);
    if same && stays(section.thread, &label, next.lock) {
        return Ok(true);
    }
    is_carried_back(alloc, section, &label, next.lock, step.lock)
}

/// The step at an index, behind another, and that one.
fn pair_at(links: &ClaimedLinks, number: usize) -> Pair<'_>
    requires past { 0 < number }
    requires there { number < length links.now }
    ensures step { slice_get links.now (number - 1) ≡ Some (link result.step.node result.step.lock.now) }
    ensures next { slice_get links.now number ≡ Some (link result.next.node result.next.lock.now) }
    ensures same { IsTrue result.same → result.step.lock.now ≡ result.next.lock.now }
{
    Pair {
        step: links.at(number - 1),
        next: links.at(number),
        same: links.is_one(number - 1, number),
    }
}

/// Whether the steps begin at the entry with this lock.
fn begins(links: &ClaimedLinks, lock: &Lock) -> bool
    ensures { IsTrue result ↔ (slice_get links.now 0 ≡ Some (link 0 lock.now)) }
{
    if links.len() == 0 {
        return false;
    }
    let first = links.at(0);
    first.node == 0 && *first.lock == *lock
}

/// Whether a step that isn't the first is linked to by the one before it, and the last one's lock is generated.
fn is_right(
    alloc: Global,
    section: Judged<'_>,
    links: &ClaimedLinks,
    number: usize,
) -> Result<bool, AllocError>
    requires number { number < length links.now }
    requires lawful { AreLawfulLinks section.scheme.now section.thread links.now }
    ensures { IfOk result (λ it. IsTrue it
        ↔ (ComesRight section.entry.scheme.now section.entry.thread section.entry.flow.now links.now number
        × EndsRight section.entry.scheme.now section.entry.thread (end_locks section.entry.locking)
        section.entry.flow.now links.now number)) }
{
    let count = links.len();
    if number > 0 && !links_to(alloc, section, pair_at(links, number))? {
        return Ok(false);
    }
    Ok(number + 1 < count || is_generated(alloc, section, links.at(number)))
}

/// The first step at which these aren't a chain of the lock.
pub fn first_wrong(
    alloc: Global,
    section: Judged<'_>,
    lock: &Lock,
    links: &ClaimedLinks,
) -> Result<Option<usize>, AllocError>
    requires { AreLawfulLinks section.scheme.now section.thread links.now }
    ensures { IfOk result (λ found. MatchOption found
        (IsChain section.entry.scheme.now section.entry.thread (end_locks section.entry.locking)
        section.entry.flow.now lock.now links.now)
        (IsFirst (IsStepRight section.entry.scheme.now section.entry.thread (end_locks section.entry.locking)
        section.entry.flow.now lock.now links.now))) }
{
    if !begins(links, lock) {
        return Ok(Some(0));
    }
    for number in 0..links.len() {
        if !is_right(alloc, section, links, number)? {
            return Ok(Some(number));
        }
    }
    Ok(None)
}
