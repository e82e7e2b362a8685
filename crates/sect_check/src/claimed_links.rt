//! The links of claimed chains, in which neighbours often have one lock.

ghost use Rattle.std.specs.Prelude.{◌≡◌, ◌≢◌, ◌<◌, ◌-◌, [], ◌∷◌, ◌++◌, Some, slice_get, length, OnOk, IfOk, IsTrue};
ghost use Rattle.sect_names.specs.{declared.link.Link.{Link}, Chains.{link}};

use sect_cert::Runs;
use sect_names::Lock;
use std::alloc::{AllocError, Global};
use std::marker::Model;

/// A link of a claimed chain: a node of the section's graph, and a lock that is needed from there on.
#[derive(Clone, Copy)]
pub struct ClaimedLink<'a> {
    pub node: u32,
    pub lock: &'a Lock,
}

/// Links, as many as there may be. A lock that is that of the link before is kept once.
#[derive(Drop)]
pub struct ClaimedLinks {
    nodes: Vec<u32>,
    locks: Runs<Lock>,
}

impl Model for ClaimedLinks {
    ghost use Rattle.std.specs.Prelude.{◌≡◌, List, length};
    ghost use Rattle.std.specs.Coded.{codes};
    ghost use Rattle.sect_points.specs.Paths.{path_code};
    ghost use Rattle.sect_names.specs.declared.link.Link.{Link};
    ghost use Rattle.sect_check.specs.steps.Claimed.{linked};

    ghost Value = { List Link };

    ghost coded = { Prim.hlevel (codes, path_code) };

    ghost view = { λ c. linked c.nodes.items c.locks };

    ghost invariant = { λ c. length c.nodes.items ≡ length c.locks };
}

impl ClaimedLinks {
    /// No links, and room for so many.
    pub fn with_capacity(alloc: Global, count: usize) -> Result<ClaimedLinks, AllocError>
        ensures { IfOk result (λ links. links ≡ []) }
    {
        Ok(ClaimedLinks {
            nodes: Vec::with_capacity(alloc, count)?,
            locks: Runs::with_capacity(alloc, count)?,
        })
    }

    /// How many there are.
    pub fn len(&self) -> usize
        ensures { result ≡ length self.now }
    {
        self.nodes.len()
    }

    /// The link at an index.
    pub fn at(&self, index: usize) -> ClaimedLink<'_>
        requires { index < length self.now }
        ensures { slice_get self.now index ≡ Some (link result.node result.lock.now) }
    {
        ClaimedLink {
            node: self.nodes[index],
            lock: self.locks.at(index),
        }
    }

    /// Whether the locks of two links are kept as one. Then they are equal.
    pub fn is_one(&self, index: usize, other: usize) -> bool
        requires index { index < length self.now }
        requires other { other < length self.now }
        ensures { IsTrue result → (a b : Link) → slice_get self.now index ≡ Some a
            → slice_get self.now other ≡ Some b → a.lock ≡ b.lock }
    {
        self.locks.is_one(index, other)
    }

    /// Adds a link at the end.
    pub fn push(&mut self, node: u32, lock: Lock) -> Result<(), AllocError>
        ensures { OnOk result (self.new ≡ self.old ++ link node lock ∷ []) }
    {
        self.nodes.reserve(1)?;
        self.locks.push(lock)?;
        self.nodes.push(node)?;
        Ok(())
    }

    /// Adds a link at this node with the lock of the last one.
    pub fn push_again(&mut self, node: u32) -> Result<(), AllocError>
        requires { self.old ≢ [] }
        ensures { OnOk result ((last : Link) → slice_get self.old (length self.old - 1) ≡ Some last
            → self.new ≡ self.old ++ link node last.lock ∷ []) }
    {
        self.nodes.reserve(1)?;
        self.locks.push_again()?;
        self.nodes.push(node)?;
        Ok(())
    }
}
