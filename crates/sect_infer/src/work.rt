//! The worklist: what is needed at a node because of what is needed where control may go on (Kildall).

ghost use Rattle.std.specs.Prelude.{◌≡◌, ◌<◌, ℕ, [], length, slice_index_or, IfOk, IsTrue, MatchOption, OnOk, ⊤};
ghost use Rattle.sect_lemmas.specs.Lists.{Has};
ghost use Rattle.sect_graph.specs.Predecessors.{StaysWithin};
ghost use Rattle.sect_infer.specs.steps.Needs.{need, IsSeed, AreLawful};
ghost use Rattle.sect_infer.specs.steps.Working.{AreNumbered, AreLawfulAt, IsCarried, IsVisit, IsBegun, IsSettled};
ghost use Rattle.sect_infer.specs.steps.Working.{AllStay, IsPassedOn, IsTakenOver, IsOwnPut, IsGeneratedPut};
ghost use Rattle.sect_infer.specs.steps.Working.{IsFreshPut};
ghost use Rattle.sect_infer.specs.Numberings.{AreNumbers, HasLock, IsNumbering, IsFinding, Finds, fresh_from};

use crate::carry::{Transfer, find};
use crate::lists::Lists;
use crate::numbering::Numbering;
use crate::numbers::Numbers;
use crate::waiting::Waiting;
use sect_graph::{Flow, Successors, predecessors_of};
use sect_names::{Change, Lock, Scheme};
use sect_types::Label;
use std::alloc::{AllocError, Global};

/// A section whose locks are inferred.
#[derive(Clone, Copy)]
pub struct Analysed<'a> {
    pub scheme: &'a Scheme,
    pub thread: u16,
    pub flow: &'a Flow,
}

/// What was found at the nodes of a section's graph: a numbering of locks, for each node the numbers of those that were
/// found there, and the numbers that are found where a node is gone over.
#[derive(Drop)]
pub struct Solution {
    pub numbering: Numbering,
    pub lists: Lists,
    pub found: Numbers,
}

/// Finds what is needed at a node for what is known where control may go on from it.
fn find_after(
    alloc: Global,
    section: Analysed<'_>,
    solution: &mut Solution,
    node: u16,
) -> Result<(), AllocError>
    requires node { node < length section.flow.now }
    requires finding { IsFinding section.scheme.now solution.old.numbering solution.old.found }
    requires numbered { AreNumbered section.scheme.now section.flow.now solution.old.numbering solution.old.lists }
    requires lawful { AreLawfulAt section.scheme.now section.thread solution.old.numbering.keys solution.old.lists }
    ensures found { OnOk result (Finds section.entry.scheme.now solution.old.numbering solution.old.found
        solution.new.numbering solution.new.found (IsCarried section.entry.scheme.now section.entry.thread
        section.entry.flow.now solution.old.numbering.keys solution.old.lists node)) }
    ensures lists { solution.new.lists ≡ solution.old.lists }
{
    let label = section.flow.action(node);
    let transfer = Transfer {
        scheme: section.scheme,
        thread: section.thread,
        label: &label,
    };
    let Solution {
        numbering,
        lists,
        found,
    } = solution;
    match section.flow.succ(node) {
        Successors::Next(next) => transfer.carry(alloc, numbering, found, lists.of(next)),
        Successors::Branch(holds, fails) => {
            transfer.carry(alloc, numbering, found, lists.of(holds))?;
            transfer.carry(alloc, numbering, found, lists.of(fails))
        }
    }
}

/// Finds what a node generates.
fn find_own(
    alloc: Global,
    section: Analysed<'_>,
    solution: &mut Solution,
    node: u16,
) -> Result<(), AllocError>
    requires node { node < length section.flow.now }
    requires finding { IsFinding section.scheme.now solution.old.numbering solution.old.found }
    ensures found { OnOk result (Finds section.entry.scheme.now solution.old.numbering solution.old.found
        solution.new.numbering solution.new.found
        (λ l. IsSeed section.entry.scheme.now section.entry.thread section.entry.flow.now (need node l))) }
    ensures lists { solution.new.lists ≡ solution.old.lists }
{
    let scheme = section.scheme;
    match scheme.generate(alloc, section.thread, section.flow.action(node)) {
        None => Ok(()),
        Some(lock) => {
            find(
                alloc,
                scheme,
                &mut solution.numbering,
                &mut solution.found,
                lock,
            )
        }
    }
}

/// Numbers that were found at a node, and those of them that weren't known there.
#[derive(Clone, Copy)]
struct Found<'a> {
    all: &'a Numbers,
    more: &'a [usize],
}

/// Those of the numbers that weren't known that no other that was found is above.
fn fresh(alloc: Global, numbering: &Numbering, found: Found<'_>) -> Result<Vec<usize>, AllocError>
    requires { (n : ℕ) → Has found.more.now n → n < length numbering.now.above }
    ensures { IfOk result (λ fresh. fresh.items
        ≡ fresh_from numbering.now.above found.entry.all.now found.entry.more.now) }
{
    let mut fresh = Vec::with_capacity(alloc, found.more.len())?;
    for number in found.more {
        if !numbering.is_under(found.all, *number) {
            fresh.push(*number)?;
        }
    }
    Ok(fresh)
}

/// Puts the numbers that weren't known behind those at the node, but for those that another that was found is above.
/// Whether there are any.
fn put_fresh(
    alloc: Global,
    numbering: &Numbering,
    lists: &mut Lists,
    node: u16,
    found: Found<'_>,
) -> Result<bool, AllocError>
    requires node { node < length lists.old }
    requires numbers { (n : ℕ) → Has found.more.now n → n < length numbering.now.above }
    ensures { IfOk result (IsFreshPut lists.old lists.new node
        (fresh_from numbering.now.above found.entry.all.now found.entry.more.now)) }
{
    if numbering.has_none_above(found.all) {
        lists.extend(alloc, node, found.more)?;
        return Ok(!found.more.is_empty());
    }
    let fresh = fresh(alloc, numbering, found)?;
    lists.extend(alloc, node, fresh.as_slice())?;
    Ok(!fresh.is_empty())
}

/// Goes over a node: finds what it needs for what is known now, beside what was known there. Whether there is more.
fn visit(
    alloc: Global,
    section: Analysed<'_>,
    solution: &mut Solution,
    node: u16,
) -> Result<bool, AllocError>
    requires node { node < length section.flow.now }
    requires numbered { AreNumbered section.scheme.now section.flow.now solution.old.numbering solution.old.lists }
    requires lawful { AreLawfulAt section.scheme.now section.thread solution.old.numbering.keys solution.old.lists }
    ensures { IfOk result (IsVisit section.entry.scheme.now section.entry.thread section.entry.flow.now
        solution.old.numbering solution.old.lists solution.new.numbering solution.new.lists node) }
{
    solution.found.clear();
    solution.found.insert_all(solution.lists.of(node))?;
    let known = solution.found.members().len();
    find_after(alloc, section, solution, node)?;
    find_own(alloc, section, solution, node)?;
    let all = &solution.found;
    let found = Found {
        all,
        more: &all.members()[known..],
    };
    put_fresh(alloc, &solution.numbering, &mut solution.lists, node, found)
}

/// Whether a node touches none of the locks with these numbers.
fn all_stay(thread: u16, label: &Label, numbering: &Numbering, numbers: &[usize]) -> bool
    requires { AreNumbers numbering.now.keys numbers.now }
    ensures { IsTrue result → AllStay thread label.now (HasLock numbering.now.keys numbers.now) }
{
    let change = Change::of(thread, label);
    for number in numbers {
        if !change.leaves(numbering.lock(*number)) {
            return false;
        }
    }
    true
}

/// The node behind this one, if nothing is known of this one yet, and it touches none of the locks that are known
/// there.
fn passed_on(section: Analysed<'_>, solution: &Solution, node: u16) -> Option<u16>
    requires node { node < length section.flow.now }
    requires numbers { (j : ℕ) → AreNumbers solution.now.numbering.keys (slice_index_or solution.now.lists j []) }
    ensures { MatchOption result ⊤ (IsPassedOn section.entry.thread section.entry.flow.now
        solution.now.numbering.keys solution.now.lists node) }
{
    let Successors::Next(next) = section.flow.succ(node) else {
        return None;
    };
    let label = section.flow.action(node);
    let lists = &solution.lists;
    if lists.of(node).is_empty()
        && all_stay(section.thread, &label, &solution.numbering, lists.of(next))
    {
        Some(next)
    } else {
        None
    }
}

/// Puts the number of a lock behind a node's, unless it is there or that of one that covers it.
fn put_own(
    alloc: Global,
    scheme: &Scheme,
    solution: &mut Solution,
    node: u16,
    lock: Lock,
) -> Result<(), AllocError>
    requires node { node < length solution.old.lists }
    requires numbering { IsNumbering scheme.now solution.old.numbering }
    ensures { OnOk result (IsOwnPut scheme.now solution.old.numbering solution.old.lists
        solution.new.numbering solution.new.lists node lock) }
{
    let number = solution.numbering.number_taken(alloc, scheme, lock)?;
    if !solution.numbering.is_told(solution.lists.of(node), number) {
        solution.lists.extend(alloc, node, &[number])?;
    }
    Ok(())
}

/// Puts the number of what a node generates behind the node's, unless it is there or that of a lock that covers it.
fn put_generated(
    alloc: Global,
    section: Analysed<'_>,
    solution: &mut Solution,
    node: u16,
) -> Result<(), AllocError>
    requires node { node < length section.flow.now }
    requires there { node < length solution.old.lists }
    requires numbering { IsNumbering section.scheme.now solution.old.numbering }
    ensures { OnOk result (IsGeneratedPut section.entry.scheme.now section.entry.thread section.entry.flow.now
        solution.old.numbering solution.old.lists solution.new.numbering solution.new.lists node) }
{
    let scheme = section.scheme;
    match scheme.generate(alloc, section.thread, section.flow.action(node)) {
        None => Ok(()),
        Some(lock) => put_own(alloc, scheme, solution, node, lock),
    }
}

/// Goes over a node to which what is known behind it is passed on. Whether there is more than was known.
fn pass_on(
    alloc: Global,
    section: Analysed<'_>,
    solution: &mut Solution,
    node: u16,
    next: u16,
) -> Result<bool, AllocError>
    requires node { node < length section.flow.now }
    requires next { next < length solution.old.lists }
    requires numbered { AreNumbered section.scheme.now section.flow.now solution.old.numbering solution.old.lists }
    requires lawful { AreLawfulAt section.scheme.now section.thread solution.old.numbering.keys solution.old.lists }
    requires passed { IsPassedOn section.thread section.flow.now solution.old.numbering.keys solution.old.lists node
        next }
    ensures { IfOk result (IsVisit section.entry.scheme.now section.entry.thread section.entry.flow.now
        solution.old.numbering solution.old.lists solution.new.numbering solution.new.lists node) }
{
    solution.lists.share(node, next);
    put_generated(alloc, section, solution, node)?;
    Ok(!solution.lists.of(node).is_empty())
}

/// The node behind this one where its test doesn't hold, if nothing is known of this one yet, and it touches none of
/// the locks that are known there.
fn taken_over(section: Analysed<'_>, solution: &Solution, node: u16) -> Option<u16>
    requires node { node < length section.flow.now }
    requires numbers { (j : ℕ) → AreNumbers solution.now.numbering.keys (slice_index_or solution.now.lists j []) }
    ensures { MatchOption result ⊤ (IsTakenOver section.entry.thread section.entry.flow.now
        solution.now.numbering.keys solution.now.lists node) }
{
    let Successors::Branch(_, fails) = section.flow.succ(node) else {
        return None;
    };
    let label = section.flow.action(node);
    let lists = &solution.lists;
    if lists.of(node).is_empty()
        && all_stay(section.thread, &label, &solution.numbering, lists.of(fails))
    {
        Some(fails)
    } else {
        None
    }
}

/// Goes over a node that takes over what is known behind it at one of two nodes. Whether there is more than was known.
fn take_over(
    alloc: Global,
    section: Analysed<'_>,
    solution: &mut Solution,
    node: u16,
    next: u16,
) -> Result<bool, AllocError>
    requires node { node < length section.flow.now }
    requires next { next < length solution.old.lists }
    requires numbered { AreNumbered section.scheme.now section.flow.now solution.old.numbering solution.old.lists }
    requires lawful { AreLawfulAt section.scheme.now section.thread solution.old.numbering.keys solution.old.lists }
    requires taken { IsTakenOver section.thread section.flow.now solution.old.numbering.keys solution.old.lists node
        next }
    ensures { IfOk result (IsVisit section.entry.scheme.now section.entry.thread section.entry.flow.now
        solution.old.numbering solution.old.lists solution.new.numbering solution.new.lists node) }
{
    solution.lists.share(node, next);
    visit(alloc, section, solution, node)?;
    Ok(!solution.lists.of(node).is_empty())
}

/// Goes over a node to which nothing is passed on: takes over what is known behind it where its test doesn't hold, or
/// finds what it needs. Whether there is more.
fn gather(
    alloc: Global,
    section: Analysed<'_>,
    solution: &mut Solution,
    node: u16,
) -> Result<bool, AllocError>
    requires node { node < length section.flow.now }
    requires within { StaysWithin section.flow.now }
    requires numbered { AreNumbered section.scheme.now section.flow.now solution.old.numbering solution.old.lists }
    requires lawful { AreLawfulAt section.scheme.now section.thread solution.old.numbering.keys solution.old.lists }
    ensures { IfOk result (IsVisit section.entry.scheme.now section.entry.thread section.entry.flow.now
        solution.old.numbering solution.old.lists solution.new.numbering solution.new.lists node) }
{
    match taken_over(section, solution, node) {
        Some(next) => take_over(alloc, section, solution, node, next),
        None => visit(alloc, section, solution, node),
    }
}

/// Goes over a node: passes on to it what is known behind it, or gathers what it needs. Whether there is more.
fn go_over(
    alloc: Global,
    section: Analysed<'_>,
    solution: &mut Solution,
    node: u16,
) -> Result<bool, AllocError>
    requires node { node < length section.flow.now }
    requires within { StaysWithin section.flow.now }
    requires numbered { AreNumbered section.scheme.now section.flow.now solution.old.numbering solution.old.lists }
    requires lawful { AreLawfulAt section.scheme.now section.thread solution.old.numbering.keys solution.old.lists }
    ensures { IfOk result (IsVisit section.entry.scheme.now section.entry.thread section.entry.flow.now
        solution.old.numbering solution.old.lists solution.new.numbering solution.new.lists node) }
{
    match passed_on(section, solution, node) {
        Some(next) => pass_on(alloc, section, solution, node, next),
        None => gather(alloc, section, solution, node),
    }
}

/// Finds the locks that are needed from each node of a section's graph on: those that a node generates, and those that
/// are carried back to it from where control may go on, but for locks that another covers which was found before.
pub fn settle(
    alloc: Global,
    section: Analysed<'_>,
    solution: &mut Solution,
) -> Result<(), AllocError>
    requires lawful { AreLawful section.scheme.now section.thread section.flow.now }
    requires begun { IsBegun section.flow.now solution.old.numbering solution.old.lists }
    ensures { OnOk result (IsSettled section.entry.scheme.now section.entry.thread section.entry.flow.now
        solution.new.numbering solution.new.lists) }
{
    let predecessors = predecessors_of(alloc, section.flow)?;
    let mut waiting = Waiting::new(alloc, section.flow.exit());
    while let Some(node) = waiting.pop_last() {
        let any = go_over(alloc, section, solution, node)?;
        if any {
            waiting.insert_all(predecessors.of(node))?;
        }
    }
    Ok(())
}
