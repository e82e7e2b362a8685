//! Whether the lists of a section's nodes are right.

ghost use Rattle.std.specs.Prelude.{◌≡◌, ◌≤◌, ◌<◌, ◌+◌, ◌⊎◌, ◌↔◌, ℕ, length, Some, IfOk, IfSome, IfNone, IsTrue};
ghost use Rattle.sect_lemmas.specs.Lists.{Has};
ghost use Rattle.sect_graph.specs.{Paths.{IsSuccessor}, Predecessors.{StaysWithin}};
ghost use Rattle.sect_names.specs.{declared.lock.Lock.{Lock}, Needed.{end_locks}, Chains.{link, IsGeneratedAt}};
ghost use Rattle.sect_names.specs.{Locks.{CoveredBy, IsLockOf}, Carrying.{CarriedBack}};
ghost use Rattle.sect_check.specs.Valid.{list_at, CoversGenerated, AreCarriedInto, CoversCarried};
ghost use Rattle.sect_check.specs.Faults.{IsFirst, IsFirstPair};
ghost use Rattle.sect_check.specs.steps.Shapes.{AreLawfulLists};

use crate::claims::Claims;
use crate::covering::{Above, covers, covers_each, has_near, is_covered, list_at, set_of_many};
use crate::judged::Judged;
use indexmap::IndexSet;
use sect_front::Locking;
use sect_graph::{Flow, Successors};
use sect_names::{Change, Lock, Scheme, end_lock, stays};
use sect_types::Label;
use std::alloc::{AllocError, Global};

/// What a node generates; the exit, what the end of the section does.
pub fn generated_at(
    alloc: Global,
    scheme: &Scheme,
    thread: u16,
    locking: Locking,
    flow: &Flow,
    node: u16,
) -> Option<Lock>
    requires { node ≤ length flow.now }
    ensures { (l : Lock) → (result ≡ Some l)
        ↔ IsGeneratedAt scheme.now thread (end_locks locking) flow.now (link node l) }
{
    if node < flow.exit() {
        scheme.generate(alloc, thread, flow.action(node))
    } else {
        end_lock(locking)
    }
}

/// Whether what a node generates is covered by its list.
fn covers_generated(alloc: Global, section: Judged<'_>, claims: &Claims, node: u16) -> bool
    requires there { node ≤ length section.flow.now }
    requires count { length claims.now.nodes ≡ length section.flow.now + 1 }
    ensures { IsTrue result ↔ CoversGenerated section.entry.scheme.now section.entry.thread
        (end_locks section.entry.locking) section.entry.flow.now claims.now node }
{
    match generated_at(
        alloc,
        section.scheme,
        section.thread,
        section.locking,
        section.flow,
        node,
    ) {
        Some(lock) => is_covered(section.scheme, list_at(claims, node), &lock),
        None => true,
    }
}

/// The first node, the exit counted, of which a lock that it generates isn't covered by its list.
pub fn first_ungenerated(alloc: Global, section: Judged<'_>, claims: &Claims) -> Option<u16>
    requires { length claims.now.nodes ≡ length section.flow.now + 1 }
    ensures none { IfNone result ((j : ℕ) →
        CoversGenerated section.entry.scheme.now section.entry.thread (end_locks section.entry.locking)
        section.entry.flow.now claims.now j) }
    ensures some { IfSome result
        (IsFirst (CoversGenerated section.entry.scheme.now section.entry.thread (end_locks section.entry.locking)
        section.entry.flow.now claims.now)) }
{
    for node in 0..section.flow.exit() + 1 {
        if !covers_generated(alloc, section, claims, node) {
            return Some(node);
        }
    }
    None
}

/// Whether what a lock is carried back to over a node is covered by locks of a list.
fn is_carried_into(
    alloc: Global,
    section: Judged<'_>,
    label: &Label,
    above: Above<'_>,
    lock: &Lock,
) -> Result<bool, AllocError>
    requires lawful { IsLockOf section.scheme.now section.thread lock.now }
    requires set { IfSome above.set.now (λ some. (l : Lock) → Has some.keys l ↔ Has above.locks.now l) }
    ensures { IfOk result (λ it. IsTrue it
        ↔ ((r : Lock) → CarriedBack section.entry.scheme.now section.entry.thread label.now lock.now r
        → CoveredBy section.entry.scheme.now above.entry.locks.now r)) }
{
    if stays(section.thread, label, lock) {
        return covers(section.scheme, above, lock);
    }
    let carried = section.scheme.rewrite(alloc, section.thread, *label, lock)?;
    covers_each(section.scheme, above, carried.as_slice())
}

/// Whether a lock is known to be in a list: those of its list are, or it is near the place.
fn is_known(above: Above<'_>, held: bool, place: &mut usize, lock: &Lock) -> bool
    requires { IsTrue held → Has above.locks.now lock.now }
    ensures { IsTrue result → Has above.entry.locks.now lock.now }
{
    held || has_near(above.locks, place, lock)
}

/// Whether what the locks of a list are carried back to over a node is covered by locks of another one. Those that stay
/// and are there are covered.
fn carries_into(
    alloc: Global,
    section: Judged<'_>,
    label: Label,
    above: Above<'_>,
    list: Listed<'_>,
) -> Result<bool, AllocError>
    requires lawful { (l : Lock) → Has list.locks.now l → IsLockOf section.scheme.now section.thread l }
    requires set { IfSome above.set.now (λ some. (l : Lock) → Has some.keys l ↔ Has above.locks.now l) }
    requires held { IsTrue list.held → (l : Lock) → Has list.locks.now l → Has above.locks.now l }
    ensures { IfOk result (λ it. IsTrue it
        ↔ AreCarriedInto section.entry.scheme.now section.entry.thread label above.entry.locks.now
        list.entry.locks.now) }
{
    if list.held && Change::of(section.thread, &label).leaves_all() {
        return Ok(true);
    }
    let mut place = 0;
    for lock in list.locks {
        if stays(section.thread, &label, lock) && is_known(above, list.held, &mut place, lock) {
            continue;
        }
        if !is_carried_into(alloc, section, &label, above, lock)? {
            return Ok(false);
        }
    }
    Ok(true)
}

/// A node, and the locks of its list.
#[derive(Clone, Copy)]
struct Left<'a> {
    from: u16,
    above: Above<'a>,
}

/// The locks of a list, and whether they are known to be those of another one.
#[derive(Clone, Copy)]
struct Listed<'a> {
    locks: &'a [Lock],
    held: bool,
}

/// The list of a node, and whether it is that of the other.
fn list_beside(claims: &Claims, other: u16, node: u16) -> Listed<'_>
    requires other { other < length claims.now.nodes }
    requires node { node < length claims.now.nodes }
    ensures locks { result.locks.now ≡ list_at claims.now node }
    ensures held { IsTrue result.held → list_at claims.now node ≡ list_at claims.now other }
{
    Listed {
        locks: list_at(claims, node),
        held: claims.nodes.is_one(node as usize, other as usize),
    }
}

/// The set of a node's list, if it has many locks, where that of the list before is at hand.
fn next_set(
    alloc: Global,
    claims: &Claims,
    node: u16,
    set: Option<IndexSet<Lock>>,
) -> Result<Option<IndexSet<Lock>>, AllocError>
    requires there { node < length claims.now.nodes }
    requires before { (h : ℕ) → node ≡ h + 1
        → IfSome set (λ some. (l : Lock) → Has some.keys l ↔ Has (list_at claims.now h) l) }
    ensures { IfOk result (λ set.
        IfSome set (λ some. (l : Lock) → Has some.keys l ↔ Has (list_at claims.now node) l)) }
{
    if 0 < node && claims.nodes.is_one(node as usize, node as usize - 1) {
        return Ok(set);
    }
    set_of_many(alloc, list_at(claims, node))
}

/// The nodes to which control may go on, the lesser first; they may be one.
fn in_order(next: Successors) -> (u16, u16)
    ensures each { (j : ℕ) → IsSuccessor next j ↔ ((j ≡ result.0) ⊎ (j ≡ result.1)) }
    ensures order { result.0 ≤ result.1 }
{
    match next {
        Successors::Next(node) => (node, node),
        Successors::Branch(holds, fails) => {
            if holds <= fails {
                (holds, fails)
            } else {
                (fails, holds)
            }
        }
    }
}

/// The first node to which control may go on from this one such that a lock of its list, carried back, isn't covered by
/// this one's list.
fn first_uncarried_from(
    alloc: Global,
    section: Judged<'_>,
    claims: &Claims,
    left: Left<'_>,
) -> Result<Option<u16>, AllocError>
    requires there { left.from < length section.flow.now }
    requires locks { left.above.locks.now ≡ list_at claims.now left.from }
    requires set { IfSome left.above.set.now (λ some. (l : Lock) → Has some.keys l ↔ Has left.above.locks.now l) }
    requires count { length claims.now.nodes ≡ length section.flow.now + 1 }
    requires within { StaysWithin section.flow.now }
    requires lawful { AreLawfulLists section.scheme.now section.thread claims.now }
    ensures none { IfOk result (λ found. IfNone found ((j : ℕ) →
        CoversCarried section.entry.scheme.now section.entry.thread section.entry.flow.now claims.now
        left.entry.from j)) }
    ensures some { IfOk result (λ found. IfSome found
        (IsFirst (CoversCarried section.entry.scheme.now section.entry.thread section.entry.flow.now claims.now
        left.entry.from))) }
{
    let label = section.flow.action(left.from);
    let (first, second) = in_order(section.flow.succ(left.from));
    let at_first = list_beside(claims, left.from, first);
    if !carries_into(alloc, section, label, left.above, at_first)? {
        return Ok(Some(first));
    }
    if second == first {
        return Ok(None);
    }
    let at_second = list_beside(claims, left.from, second);
    if !carries_into(alloc, section, label, left.above, at_second)? {
        return Ok(Some(second));
    }
    Ok(None)
}

/// The first edge, by the node that it leaves and then by the node to which it leads, such that a lock of that one's
/// list, carried back, isn't covered by the first one's list.
pub fn first_uncarried(
    alloc: Global,
    section: Judged<'_>,
    claims: &Claims,
) -> Result<Option<(u16, u16)>, AllocError>
    requires count { length claims.now.nodes ≡ length section.flow.now + 1 }
    requires within { StaysWithin section.flow.now }
    requires lawful { AreLawfulLists section.scheme.now section.thread claims.now }
    ensures none { IfOk result (λ found. IfNone found ((i j : ℕ) →
        CoversCarried section.entry.scheme.now section.entry.thread section.entry.flow.now claims.now i j)) }
    ensures some { IfOk result (λ found. IfSome found (λ e.
        IsFirstPair (CoversCarried section.entry.scheme.now section.entry.thread section.entry.flow.now claims.now)
        e.0 e.1)) }
{
    let mut set = None;
    for from in 0..section.flow.exit() {
        set = next_set(alloc, claims, from, set)?;
        let above = Above {
            locks: list_at(claims, from),
            set: &set,
        };
        let left = Left { from, above };
        if let Some(to) = first_uncarried_from(alloc, section, claims, left)? {
            return Ok(Some((from, to)));
        }
    }
    Ok(None)
}
