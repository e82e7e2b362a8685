//! The nodes that wait to be gone over.

ghost use Rattle.std.specs.Prelude.{◌≡◌, ◌↔◌, ◌<◌, ◌⊎◌, ◌++◌, ◌∷◌, [], ℕ, OnOk, MatchOption};
ghost use Rattle.std.specs.{List.Sorted.{IsStrictlySortedBy}, Ordering.{nat_cmp}};
ghost use Rattle.sect_lemmas.specs.Lists.{Has};

use std::alloc::{AllocError, Global};
use std::collections::BTreeSet;
use std::marker::Model;

/// Nodes that wait: all below one, and some from it on. At first all do, and mostly the last is taken.
#[derive(Drop)]
pub struct Waiting {
    below: u16,
    others: BTreeSet<u16>,
}

impl Model for Waiting {
    ghost use Rattle.std.specs.Prelude.{List, ℕ, ◌++◌};
    ghost use Rattle.std.specs.List.{range_with_len};
    ghost use Rattle.sect_infer.specs.steps.Queued.{IsQueue};

    ghost Value = { List ℕ };

    ghost view = { λ w. range_with_len 0 w.below ++ w.others.keys };

    ghost invariant = { λ w. IsQueue w.below w.others.keys };
}

impl Waiting {
    /// The nodes below this one.
    pub fn new(alloc: Global, exit: u16) -> Waiting
        ensures { (i : ℕ) → Has result i ↔ (i < exit) }
    {
        Waiting {
            below: exit,
            others: BTreeSet::new(alloc),
        }
    }

    /// Takes out the last.
    pub fn pop_last(&mut self) -> Option<u16>
        ensures { MatchOption result (self.old ≡ []) (λ node. self.old ≡ self.new ++ node ∷ []) }
    {
        if let Some(node) = self.others.pop_last() {
            return Some(node);
        }
        if self.below == 0 {
            return None;
        }
        self.below -= 1;
        Some(self.below)
    }

    /// Puts a node among them.
    pub fn insert(&mut self, node: u16) -> Result<(), AllocError>
        ensures { OnOk result ((i : ℕ) → Has self.new i ↔ (Has self.old i ⊎ (i ≡ node))) }
    {
        if self.below <= node {
            self.others.insert(node)?;
        }
        Ok(())
    }

    /// Puts these nodes among them.
    pub fn insert_all(&mut self, nodes: &[u16]) -> Result<(), AllocError>
        ensures nodes { OnOk result ((i : ℕ) → Has self.new i ↔ (Has self.old i ⊎ Has nodes.now i)) }
        ensures ordered { OnOk result (IsStrictlySortedBy nat_cmp self.new) }
    {
        for node in nodes {
            self.insert(*node)?;
        }
        self.facts();
        Ok(())
    }

    /// They are in order, which the clause says.
    fn facts(&self)
        ensures { IsStrictlySortedBy nat_cmp self.now }
    {
        let _facts = &self.others;
    }
}
