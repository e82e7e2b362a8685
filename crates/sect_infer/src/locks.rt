//! The locks of a section, node by node.

ghost use Rattle.std.specs.Prelude.{◌≡◌, ◌↔◌, ◌<◌, ◌∷◌, [], ℕ, List, map, length, slice_get, Some, IfOk, IsTrue};
ghost use Rattle.std.specs.Map.Iter.{deref};
ghost use Rattle.sect_lemmas.specs.Lists.{Has};
ghost use Rattle.sect_names.specs.declared.lock.Lock.{Lock};
ghost use Rattle.sect_infer.specs.Numbers.{AreApart};
ghost use Rattle.sect_infer.specs.steps.Listing.{IsOrder, IsListable, is_kept, listed};

use crate::lists::Lists;
use crate::numbering::Numbering;
use crate::numbers::Numbers;
use crate::order::in_order;
use sect_names::Lock;
use std::alloc::{AllocError, Global};
use std::marker::Model;

/// The locks of a section: for each node of its graph, the exit too, the maximal ones of those that are needed from
/// there on, in canonical order. Those of the first node are taken at the section's entry.
pub struct Locks {
    numbering: Numbering,
    order: Vec<usize>,
    lists: Lists,
    entry: Vec<Lock>,
}

impl Drop for Locks {
    fn drop(self) {
        let Locks {
            numbering: _,
            order: _,
            lists: _,
            entry: _,
        } = self;
    }
}

impl Model for Locks {
    ghost use Rattle.std.specs.Prelude.{map};
    ghost use Rattle.std.specs.Coded.{codes};
    ghost use Rattle.sect_points.specs.Paths.{path_code};
    ghost use Rattle.sect_infer.specs.Sets.{LocksView};
    ghost use Rattle.sect_infer.specs.steps.Listing.{listed, IsListable};

    ghost Value = { LocksView };

    ghost coded = { Prim.hlevel (codes, path_code) };

    ghost view = { λ l. record {
      at = map (listed l.numbering l.order.items) l.lists;
      entry = l.entry.items;
    } };

    ghost invariant = { λ l. IsListable l.numbering l.order.items };
}

/// Those of these numbers that are below another one, each once.
fn all_below(alloc: Global, numbers: &Numbers, count: usize) -> Result<Vec<usize>, AllocError>
    ensures once { IfOk result (λ below. AreApart below.items) }
    ensures all { IfOk result (λ below. (n : ℕ) → Has below.items n ↔ ((n < count) × Has numbers.now n)) }
{
    let mut below = Vec::with_capacity(alloc, numbers.members().len())?;
    for number in 0..count {
        if numbers.has(number) {
            below.push(number)?;
        }
    }
    Ok(below)
}

/// The numbers of the locks that these lists have, and maybe of others, in the canonical order of the locks.
fn order_of(alloc: Global, numbering: &Numbering, lists: &Lists) -> Result<Vec<usize>, AllocError>
    requires { AreApart numbering.now.keys }
    ensures { IfOk result (λ order. IsOrder numbering.now.keys lists.now order.items) }
{
    let count = numbering.len();
    let listed = lists.numbers(alloc, count)?;
    let numbers = all_below(alloc, &listed, count)?;
    in_order(alloc, numbering, numbers.as_slice())
}

/// Whether a number is among these, and none of them is that of another lock that covers its lock.
fn is_kept(numbering: &Numbering, numbers: &Numbers, number: usize) -> bool
    requires { number < length numbering.now.above }
    ensures { result ≡ is_kept numbering.now.above numbers.now number }
{
    numbers.has(number) && !numbering.is_under(numbers, number)
}

/// Those of the locks with these numbers that no other of them covers, in canonical order, where they are kept. The
/// numbers take the place of those that stood in `found`.
fn lent<'a>(
    alloc: Global,
    found: &mut Numbers,
    numbering: &'a Numbering,
    order: &[usize],
    numbers: &[usize],
) -> Result<Vec<&'a Lock>, AllocError>
    requires { IsListable numbering.now order.now }
    ensures { IfOk result (λ locks. map deref locks.items ≡ listed numbering.now order.now numbers.now) }
{
    found.clear();
    found.insert_all(numbers)?;
    let mut locks = Vec::with_capacity(alloc, numbers.len())?;
    for number in order {
        if is_kept(numbering, found, *number) {
            locks.push(numbering.lock(*number))?;
        }
    }
    Ok(locks)
}

/// Locks equal to these.
fn copies(alloc: Global, locks: &[&Lock]) -> Result<Vec<Lock>, AllocError>
    ensures { IfOk result (λ copies. copies.items ≡ map deref locks.now) }
{
    let mut copies = Vec::with_capacity(alloc, locks.len())?;
    for lock in locks {
        copies.push(lock.try_clone()?)?;
    }
    Ok(copies)
}

/// Those of the locks with these numbers that no other of them covers, in canonical order.
fn list(
    alloc: Global,
    numbering: &Numbering,
    order: &[usize],
    numbers: &[usize],
) -> Result<Vec<Lock>, AllocError>
    requires { IsListable numbering.now order.now }
    ensures { IfOk result (λ locks. locks.items ≡ listed numbering.now order.now numbers.now) }
{
    let mut found = Numbers::with_room(alloc, numbers.len(), numbering.len())?;
    let locks = lent(alloc, &mut found, numbering, order, numbers)?;
    copies(alloc, locks.as_slice())
}

/// Those of the locks with these numbers that no other of them covers, in canonical order, where no others are asked
/// for.
pub fn list_alone(
    alloc: Global,
    numbering: &Numbering,
    numbers: &[usize],
) -> Result<Vec<Lock>, AllocError>
    requires apart { AreApart numbering.now.keys }
    requires count { length numbering.now.above ≡ length numbering.now.keys }
    ensures { IfOk result (λ locks. (order : List ℕ) × IsOrder numbering.now.keys (numbers.now ∷ []) order
        × (locks.items ≡ listed numbering.now order numbers.now)) }
{
    let count = numbering.len();
    let mut found = Numbers::with_room(alloc, numbers.len(), count)?;
    found.insert_all(numbers)?;
    let below = all_below(alloc, &found, count)?;
    let order = in_order(alloc, numbering, below.as_slice())?;
    let locks = lent(alloc, &mut found, numbering, order.as_slice(), numbers)?;
    copies(alloc, locks.as_slice())
}

impl Locks {
    /// The locks of which each node has those with its numbers.
    pub(crate) fn of(alloc: Global, numbering: Numbering, lists: Lists) -> Result<Locks, AllocError>
        requires some { 0 < length lists }
        requires apart { AreApart numbering.keys }
        requires count { length numbering.above ≡ length numbering.keys }
        ensures { IfOk result (λ locks. (order : List ℕ) × IsOrder numbering.keys lists order
            × (locks.at ≡ map (listed numbering order) lists) × (slice_get locks.at 0 ≡ Some locks.entry)) }
    {
        let order = order_of(alloc, &numbering, &lists)?;
        let entry = list(alloc, &numbering, order.as_slice(), lists.of(0))?;
        Ok(Locks {
            numbering,
            order,
            lists,
            entry,
        })
    }

    /// The locks that the section takes at its entry, where those of its nodes are let go.
    pub(crate) fn into_entry(self) -> Vec<Lock>
        ensures { result.items ≡ self.entry }
    {
        let Locks {
            numbering: _,
            order: _,
            lists: _,
            entry,
        } = self;
        entry
    }

    /// How many nodes there are, the exit counted.
    pub fn node_count(&self) -> usize
        ensures { result ≡ length self.now.at }
    {
        self.lists.len()
    }

    /// The locks of a node: the maximal ones of those that are needed from it on, in canonical order.
    pub fn at(&self, alloc: Global, node: u16) -> Result<Vec<Lock>, AllocError>
        requires { node < length self.now.at }
        ensures { IfOk result (λ locks. slice_get self.now.at node ≡ Some locks.items) }
    {
        list(
            alloc,
            &self.numbering,
            self.order.as_slice(),
            self.lists.of(node),
        )
    }

    /// The locks of a node as `at` gives them, where they are kept. `room` is written to, so that it may serve for one
    /// node after another.
    pub fn lent_at(
        &self,
        alloc: Global,
        room: &mut Numbers,
        node: u16,
    ) -> Result<Vec<&Lock>, AllocError>
        requires { node < length self.now.at }
        ensures { IfOk result (λ locks. slice_get self.now.at node ≡ Some (map deref locks.items)) }
    {
        lent(
            alloc,
            room,
            &self.numbering,
            self.order.as_slice(),
            self.lists.of(node),
        )
    }

    /// Whether two nodes are known to have the same locks.
    pub fn are_one(&self, node: u16, other: u16) -> bool
        requires node { node < length self.now.at }
        requires other { other < length self.now.at }
        ensures { IsTrue result → slice_get self.now.at node ≡ slice_get self.now.at other }
    {
        self.lists.of(node) == self.lists.of(other)
    }

    /// The locks that the section takes at its entry: the least set that protects, in canonical order.
    pub fn entry(&self) -> &[Lock]
        ensures { result.now ≡ self.now.entry }
    {
        self.entry.as_slice()
    }
}
