//! The nodes from which control may go on to each node, and to the exit.

ghost use Rattle.std.specs.Prelude.{◌≡◌, ◌<◌, [], ◌∷◌, ◌++◌, ℕ, length, slice_index_or, slice_set, IfOk, OnOk};
ghost use Rattle.sect_graph.specs.Predecessors.{IsAdded, StaysWithin, AreAllBefore};

use crate::flow::{Flow, Successors};
use smallvec::SmallVec;
use std::alloc::{AllocError, Global};
use std::marker::Model;

/// For each node of a graph, and for the exit, the nodes from which control may go on to it, each once, in order.
/// Mostly these are two at most, so they are kept inline.
#[derive(Drop)]
pub struct Predecessors {
    lists: Vec<SmallVec<u16, 2>>,
}

impl Model for Predecessors {
    ghost use Rattle.std.specs.Prelude.{List, ℕ, map};

    ghost Value = { List (List ℕ) };

    ghost view = { λ p. map (λ v. v.items) p.lists.items };
}

impl Predecessors {
    /// None, for so many nodes.
    fn new(alloc: Global, count: u16) -> Result<Predecessors, AllocError>
        ensures count { IfOk result (λ p. length p ≡ count) }
        ensures none { IfOk result (λ p. (m : ℕ) → slice_index_or p m [] ≡ []) }
    {
        let mut lists = Vec::with_capacity(alloc, count as usize)?;
        for _ in 0..count {
            lists.push(SmallVec::new(alloc))?;
        }
        Ok(Predecessors { lists })
    }

    /// Control may go on from one node to another, or to the exit.
    fn add(&mut self, from: u16, to: u16) -> Result<(), AllocError>
        requires { to < length self.old }
        ensures count { OnOk result (length self.new ≡ length self.old) }
        ensures added { OnOk result (IsAdded self.old self.new to from) }
        ensures behind { OnOk result (self.new ≡ slice_set self.old to (slice_index_or self.old to [] ++ from ∷ [])) }
    {
        self.lists[to as usize].push(from)?;
        Ok(())
    }

    /// The nodes from which control may go on to this one.
    pub fn of(&self, node: u16) -> &[u16]
        requires { node < length self.now }
        ensures { result.now ≡ slice_index_or self.now node [] }
    {
        self.lists[node as usize].as_slice()
    }
}

/// The predecessors of the nodes of a graph, and of its exit.
pub fn predecessors_of(alloc: Global, flow: &Flow) -> Result<Predecessors, AllocError>
    requires { StaysWithin flow.now }
    ensures { IfOk result (AreAllBefore flow.now) }
{
    let mut lists = Predecessors::new(alloc, flow.exit() + 1)?;
    for node in 0..flow.exit() {
        match flow.succ(node) {
            Successors::Next(next) => lists.add(node, next)?,
            Successors::Branch(holds, fails) => {
                lists.add(node, holds)?;
                if fails != holds {
                    lists.add(node, fails)?;
                }
            }
        }
    }
    Ok(lists)
}
