//! Steps that are kept, one after another.

ghost use Rattle.std.specs.Prelude.{◌≡◌, ◌<◌, ℕ, List, length, OnOk};
ghost use Rattle.sect_lemmas.specs.Lists.{Has};
ghost use Rattle.sect_infer.specs.{Numbers.{AreApart}, Numberings.{AreNumbers, IsOrderOf}};
ghost use Rattle.sect_chains.specs.steps.Keeping.{kept, is_outdone, is_new, keep_one, keep_each};

use crate::marks::Marks;
use sect_infer::{Numbering, Numbers, in_order};
use std::alloc::{AllocError, Global};

/// A node, the exit as the number behind the last node's; by its number a lock that is needed from there on; and the
/// index of the step to which this one links, none where the lock is generated.
#[derive(Clone, Copy)]
pub struct KeptLink {
    pub node: u16,
    pub number: usize,
    pub next: Option<usize>,
}

/// Steps at one node that link to one: their node, and the index of the step to which they link, none where their locks
/// are generated.
#[derive(Clone, Copy)]
pub struct Siblings {
    pub node: u16,
    pub next: Option<usize>,
}

/// Whether another lock, whose number is marked, covers the lock with this number.
#[inline(always)]
fn is_outdone(numbering: &Numbering, found: &Marks, number: usize) -> bool
    requires { number < length numbering.now.above }
    ensures { result ≡ is_outdone numbering.now.above found.now number }
{
    for big in numbering.above(number) {
        if found.has(*big) {
            return true;
        }
    }
    false
}

/// Whether a lock is another than those whose numbers are marked, and none of them covers it.
#[inline(always)]
fn is_new(numbering: &Numbering, found: &Marks, number: usize) -> bool
    requires { number < length numbering.now.above }
    ensures { result ≡ is_new numbering.now.above found.now number }
{
    !found.has(number) && !is_outdone(numbering, found, number)
}

/// Finds the lock of a step at its node. The step is kept, unless the lock was found there or another that covers it.
pub fn keep(
    numbering: &Numbering,
    found: &mut Vec<Marks>,
    steps: &mut Vec<KeptLink>,
    step: KeptLink,
) -> Result<(), AllocError>
    requires node { step.node < length found.old.items }
    requires count { length numbering.now.above ≡ length numbering.now.keys }
    requires number { step.number < length numbering.now.above }
    ensures { OnOk result (kept found.new.items steps.new.items
        ≡ keep_one numbering.now.above (kept found.old.items steps.old.items) step) }
{
    if is_new(numbering, &found[step.node as usize], step.number) {
        steps.push(step)?;
    }
    found[step.node as usize].mark(step.number, numbering.len())
}

impl Siblings {
    /// Finds the locks with these numbers at the node. Their steps are kept in the same way as one is.
    fn keep_all(
        self,
        numbering: &Numbering,
        found: &mut Vec<Marks>,
        steps: &mut Vec<KeptLink>,
        numbers: &[usize],
    ) -> Result<(), AllocError>
        requires node { self.node < length found.old.items }
        requires count { length numbering.now.above ≡ length numbering.now.keys }
        requires numbers { (n : ℕ) → Has numbers.now n → n < length numbering.now.above }
        ensures { OnOk result (kept found.new.items steps.new.items
            ≡ keep_each numbering.now.above (kept found.old.items steps.old.items) self.node self.next numbers.now) }
    {
        for number in numbers {
            let step = KeptLink {
                node: self.node,
                number: *number,
                next: self.next,
            };
            keep(numbering, found, steps, step)?;
        }
        Ok(())
    }

    /// Finds the locks with these numbers at the node, in their canonical order. Their steps are kept in the same way
    /// as one is.
    #[tactic(auto, using(crate::proofs::Listing::few_in_order))]
    pub fn keep_found(
        self,
        alloc: Global,
        numbering: &Numbering,
        found: &mut Vec<Marks>,
        steps: &mut Vec<KeptLink>,
        numbers: &Numbers,
    ) -> Result<(), AllocError>
        requires node { self.node < length found.old.items }
        requires count { length numbering.now.above ≡ length numbering.now.keys }
        requires apart { AreApart numbering.now.keys }
        requires once { AreApart numbers.now }
        requires numbers { AreNumbers numbering.now.keys numbers.now }
        ensures { OnOk result ((order : List ℕ) × IsOrderOf numbering.now.keys numbers.now order
            × (kept found.new.items steps.new.items
            ≡ keep_each numbering.now.above (kept found.old.items steps.old.items) self.node self.next order)) }
    {
        let members = numbers.members();
        // Mostly there is one.
        if members.len() <= 1 {
            return self.keep_all(numbering, found, steps, members);
        }
        let order = in_order(alloc, numbering, members)?;
        self.keep_all(numbering, found, steps, order.as_slice())
    }
}
