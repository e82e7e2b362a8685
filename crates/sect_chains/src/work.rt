//! The search for what is needed at the nodes of a section's graph (Kildall).

ghost use Rattle.std.specs.Prelude.{◌≡◌, ◌<◌, ◌≤◌, ⊤, ℕ, [], length, slice_get, Some, None, slice_index_or, IfOk, OnOk};
ghost use Rattle.sect_lemmas.specs.Lists.{Has};
ghost use Rattle.sect_graph.specs.{declared.flow.Node.{Node}, Paths.{LeadsTo}, Predecessors.{AreBefore, IsAscending}};
ghost use Rattle.sect_names.specs.{declared.link.Link.{Link}, declared.lock.Lock.{Lock}, Carrying.{CarriedBack}};
ghost use Rattle.sect_names.specs.{Chains.{link, IsGeneratedAt, LinksTo}, Laws.{AreLawful}};
ghost use Rattle.sect_chains.specs.declared.keep.KeptLink.{KeptLink};
ghost use Rattle.sect_chains.specs.steps.Working.{links_of, IsWork, GoesOn, IsGeneratedBy, IsGeneratedBelow};
ghost use Rattle.sect_chains.specs.steps.Working.{HasAllGenerated};
ghost use Rattle.sect_chains.specs.steps.Ordering.{IsInOrder, AllBefore, AddsTo, LinkBelow, BeginsInOrder};

use crate::keep::{KeptLink, Siblings, keep};
use crate::marks::Marks;
use sect_graph::Flow;
use sect_infer::{Numbering, Numbers, Transfer, room_for};
use sect_names::{Link, Lock, Scheme, stays};
use std::alloc::{AllocError, Global};

/// A section whose chains are searched.
#[derive(Clone, Copy)]
pub struct Searched<'a> {
    pub scheme: &'a Scheme,
    pub thread: u16,
    pub flow: &'a Flow,
    /// What the section's end generates.
    pub last: &'a [Lock],
}

/// Steps, each once, in the order in which they came; the numbering of their locks; and for each node of a graph, the
/// exit too, the marks of all locks that were found there, by their numbers.
#[derive(Drop)]
pub struct Trail {
    pub numbering: Numbering,
    pub found: Vec<Marks>,
    pub steps: Vec<KeptLink>,
}

/// No marks, for so many nodes.
fn none_found(alloc: Global, count: usize) -> Result<Vec<Marks>, AllocError>
    ensures count { IfOk result (λ found. length found.items ≡ count) }
    ensures none { IfOk result (λ found. (j : ℕ) → slice_index_or found.items j [] ≡ []) }
{
    let mut found = Vec::with_capacity(alloc, count)?;
    for _ in 0..count {
        found.push(Marks::new(alloc))?;
    }
    Ok(found)
}

impl Searched<'_> {
    /// Keeps the step of a lock that a node generates, or the section's end.
    fn put(self, alloc: Global, trail: &mut Trail, node: u16, lock: &Lock) -> Result<(), AllocError>
        requires generated { IsGeneratedAt self.scheme.now self.thread self.last.now self.flow.now
            (link node lock.now) }
        requires work { IsWork self.scheme.now self.thread self.last.now self.flow.now trail.old }
        requires sorted { IsInOrder trail.old }
        requires before { AllBefore trail.old None (link node lock.now) }
        ensures kept { OnOk result (GoesOn self.entry.scheme.now self.entry.thread self.entry.last.now
            self.entry.flow.now trail.old trail.new
            (λ a. a ≡ link node lock.now)) }
        ensures order { OnOk result (AddsTo self.entry.scheme.now trail.old trail.new None
            (λ a. a ≡ link node lock.now) (λ a. a ≡ link node lock.now)) }
    {
        let number = trail.numbering.number(alloc, self.scheme, lock)?;
        let step = KeptLink {
            node,
            number,
            next: None,
        };
        keep(&trail.numbering, &mut trail.found, &mut trail.steps, step)
    }

    /// Keeps the step of what a node generates.
    fn put_by_node(self, alloc: Global, trail: &mut Trail, node: u16) -> Result<(), AllocError>
        requires node { node < length self.flow.now }
        requires work { IsWork self.scheme.now self.thread self.last.now self.flow.now trail.old }
        requires sorted { IsInOrder trail.old }
        requires before { (l : Lock) → AllBefore trail.old None (link node l) }
        ensures order { OnOk result (AddsTo self.entry.scheme.now trail.old trail.new None (λ a. a.node ≡ node)
            (IsGeneratedBy self.entry.scheme.now self.entry.thread self.entry.flow.now node)) }
        ensures kept { OnOk result (GoesOn self.entry.scheme.now self.entry.thread self.entry.last.now
            self.entry.flow.now trail.old trail.new
            (IsGeneratedBy self.entry.scheme.now self.entry.thread self.entry.flow.now node)) }
    {
        let label = self.flow.action(node);
        match self.scheme.generate(alloc, self.thread, label) {
            None => Ok(()),
            Some(lock) => self.put(alloc, trail, node, &lock),
        }
    }

    /// Keeps the steps of what the nodes generate.
    fn put_by_nodes(self, alloc: Global, trail: &mut Trail) -> Result<(), AllocError>
        requires work { IsWork self.scheme.now self.thread self.last.now self.flow.now trail.old }
        requires none { trail.old.steps.items ≡ [] }
        ensures order { OnOk result (AddsTo self.entry.scheme.now trail.old trail.new None
            (λ a. a.node < length self.entry.flow.now)
            (IsGeneratedBelow self.entry.scheme.now self.entry.thread self.entry.flow.now
            (length self.entry.flow.now))) }
        ensures kept { OnOk result (GoesOn self.entry.scheme.now self.entry.thread self.entry.last.now
            self.entry.flow.now trail.old trail.new
            (IsGeneratedBelow self.entry.scheme.now self.entry.thread self.entry.flow.now
            (length self.entry.flow.now))) }
    {
        for node in 0..self.flow.exit() {
            self.put_by_node(alloc, trail, node)?;
        }
        Ok(())
    }

    /// Keeps the steps of what the section's end generates.
    fn put_at_end(self, alloc: Global, trail: &mut Trail) -> Result<(), AllocError>
        requires work { IsWork self.scheme.now self.thread self.last.now self.flow.now trail.old }
        requires few { length self.last.now ≤ 1 }
        requires sorted { IsInOrder trail.old }
        requires before { (l : Lock) → AllBefore trail.old None (link (length self.flow.now) l) }
        ensures order { OnOk result (AddsTo self.entry.scheme.now trail.old trail.new None
            (λ a. a.node ≡ length self.entry.flow.now)
            (λ a. (a.node ≡ length self.entry.flow.now) × Has self.entry.last.now a.lock)) }
        ensures kept { OnOk result (GoesOn self.entry.scheme.now self.entry.thread self.entry.last.now
            self.entry.flow.now trail.old trail.new
            (λ a. (a.node ≡ length self.entry.flow.now) × Has self.entry.last.now a.lock)) }
    {
        for lock in self.last {
            self.put(alloc, trail, self.flow.exit(), lock)?;
        }
        Ok(())
    }

    /// The steps of what the nodes generate, and the section's end.
    pub fn generated(self, alloc: Global) -> Result<Trail, AllocError>
        requires { length self.last.now ≤ 1 }
        ensures work { IfOk result (λ trail. IsWork self.entry.scheme.now self.entry.thread self.entry.last.now
            self.entry.flow.now trail) }
        ensures all { IfOk result (λ trail. HasAllGenerated self.entry.scheme.now self.entry.thread
            self.entry.last.now self.entry.flow.now trail) }
        ensures order { IfOk result (λ trail. BeginsInOrder self.entry.scheme.now self.entry.thread
            self.entry.last.now self.entry.flow.now trail) }
    {
        let room = room_for(self.flow);
        let numbering = Numbering::with_room(alloc, room)?;
        let found = none_found(alloc, self.flow.exit() as usize + 1)?;
        let steps = Vec::with_capacity(alloc, room)?;
        let mut trail = Trail {
            numbering,
            found,
            steps,
        };
        self.put_by_nodes(alloc, &mut trail)?;
        self.put_at_end(alloc, &mut trail)?;
        Ok(trail)
    }

    /// Keeps the steps at a node that link to the one at an index, in the canonical order of their locks, whatever the
    /// node's statement does.
    fn carry_over(
        self,
        alloc: Global,
        trail: &mut Trail,
        fresh: &mut Numbers,
        node: u16,
        index: usize,
    ) -> Result<(), AllocError>
        requires node { node < length self.flow.now }
        requires index { index < length trail.old.steps.items }
        requires leads { (y : Node) (x : KeptLink) → slice_get self.flow.now node ≡ Some y
            → slice_get trail.old.steps.items index ≡ Some x → LeadsTo y x.node }
        requires lawful { AreLawful self.scheme.now self.thread self.last.now self.flow.now }
        requires work { IsWork self.scheme.now self.thread self.last.now self.flow.now trail.old }
        requires sorted { IsInOrder trail.old }
        requires before { (l : Lock) → AllBefore trail.old (Some index) (link node l) }
        ensures order { OnOk result ((y : Node) (b : Link) → slice_get self.entry.flow.now node ≡ Some y
            → slice_get (links_of trail.old.numbering.keys trail.old.steps.items) index ≡ Some b
            → AddsTo self.entry.scheme.now trail.old trail.new (Some index) (λ a. a.node ≡ node)
            (λ a. (a.node ≡ node) × CarriedBack self.entry.scheme.now self.entry.thread y.label b.lock a.lock)) }
        ensures kept { OnOk result ((y : Node) (b : Link) → slice_get self.entry.flow.now node ≡ Some y
            → slice_get (links_of trail.old.numbering.keys trail.old.steps.items) index ≡ Some b
            → GoesOn self.entry.scheme.now self.entry.thread self.entry.last.now
            self.entry.flow.now trail.old trail.new
            (λ a. (a.node ≡ node) × CarriedBack self.entry.scheme.now self.entry.thread y.label b.lock a.lock)) }
    {
        let label = self.flow.action(node);
        let number = trail.steps[index].number;
        fresh.clear();
        let transfer = Transfer {
            scheme: self.scheme,
            thread: self.thread,
            label: &label,
        };
        transfer.carry_one(alloc, &mut trail.numbering, fresh, number)?;
        let siblings = Siblings {
            node,
            next: Some(index),
        };
        siblings.keep_found(
            alloc,
            &trail.numbering,
            &mut trail.found,
            &mut trail.steps,
            fresh,
        )
    }

    /// Keeps the steps at a node that link to the one at an index, in the canonical order of their locks. Mostly the
    /// lock stays.
    fn carry_to(
        self,
        alloc: Global,
        trail: &mut Trail,
        fresh: &mut Numbers,
        node: u16,
        index: usize,
    ) -> Result<(), AllocError>
        requires node { node < length self.flow.now }
        requires index { index < length trail.old.steps.items }
        requires leads { (y : Node) (x : KeptLink) → slice_get self.flow.now node ≡ Some y
            → slice_get trail.old.steps.items index ≡ Some x → LeadsTo y x.node }
        requires lawful { AreLawful self.scheme.now self.thread self.last.now self.flow.now }
        requires work { IsWork self.scheme.now self.thread self.last.now self.flow.now trail.old }
        requires sorted { IsInOrder trail.old }
        requires before { (l : Lock) → AllBefore trail.old (Some index) (link node l) }
        ensures order { OnOk result ((y : Node) (b : Link) → slice_get self.entry.flow.now node ≡ Some y
            → slice_get (links_of trail.old.numbering.keys trail.old.steps.items) index ≡ Some b
            → AddsTo self.entry.scheme.now trail.old trail.new (Some index) (λ a. a.node ≡ node)
            (λ a. (a.node ≡ node) × CarriedBack self.entry.scheme.now self.entry.thread y.label b.lock a.lock)) }
        ensures kept { OnOk result ((y : Node) (b : Link) → slice_get self.entry.flow.now node ≡ Some y
            → slice_get (links_of trail.old.numbering.keys trail.old.steps.items) index ≡ Some b
            → GoesOn self.entry.scheme.now self.entry.thread self.entry.last.now
            self.entry.flow.now trail.old trail.new
            (λ a. (a.node ≡ node) × CarriedBack self.entry.scheme.now self.entry.thread y.label b.lock a.lock)) }
    {
        let label = self.flow.action(node);
        let number = trail.steps[index].number;
        if stays(self.thread, &label, trail.numbering.lock(number)) {
            let step = KeptLink {
                node,
                number,
                next: Some(index),
            };
            return keep(&trail.numbering, &mut trail.found, &mut trail.steps, step);
        }
        self.carry_over(alloc, trail, fresh, node, index)
    }

    /// Keeps the steps that link to the one at an index, at the nodes from which control may go on to its own, in
    /// order.
    pub fn carry(
        self,
        alloc: Global,
        predecessors: &[u16],
        trail: &mut Trail,
        fresh: &mut Numbers,
        index: usize,
    ) -> Result<(), AllocError>
        requires index { index < length trail.old.steps.items }
        requires before { (x : KeptLink) → slice_get trail.old.steps.items index ≡ Some x
            → AreBefore self.flow.now x.node predecessors.now }
        requires ascending { IsAscending predecessors.now }
        requires lawful { AreLawful self.scheme.now self.thread self.last.now self.flow.now }
        requires work { IsWork self.scheme.now self.thread self.last.now self.flow.now trail.old }
        requires sorted { IsInOrder trail.old }
        requires below { LinkBelow trail.old index }
        ensures order { OnOk result ((b : Link)
            → slice_get (links_of trail.old.numbering.keys trail.old.steps.items) index ≡ Some b
            → AddsTo self.entry.scheme.now trail.old trail.new (Some index) (λ a. ⊤)
            (λ a. LinksTo self.entry.scheme.now self.entry.thread self.entry.flow.now a b)) }
        ensures kept { OnOk result ((b : Link)
            → slice_get (links_of trail.old.numbering.keys trail.old.steps.items) index ≡ Some b
            → GoesOn self.entry.scheme.now self.entry.thread self.entry.last.now
            self.entry.flow.now trail.old trail.new
            (λ a. LinksTo self.entry.scheme.now self.entry.thread self.entry.flow.now a b)) }
    {
        for node in predecessors {
            self.carry_to(alloc, trail, fresh, *node, index)?;
        }
        Ok(())
    }
}
