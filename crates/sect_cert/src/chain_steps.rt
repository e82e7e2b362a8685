//! The steps of chains, in which neighbours often have one lock. Contracts see them as steps in order.

ghost use Rattle.std.specs.Prelude.{◌≡◌, ◌≢◌, ◌<◌, ◌-◌, [], ◌∷◌, ◌++◌, Some, slice_get, length, IfOk, OnOk, IsTrue};
ghost use Rattle.std.specs.Option.{option_map};
ghost use Rattle.sect_cert.specs.declared.certificate.CertStep.{CertStep};

use crate::certificate::CertStep;
use crate::lock::CertLock;
use crate::runs::Runs;
use std::alloc::{AllocError, Global};
use std::marker::Model;

/// Steps, as many as there may be. A lock that is that of the step before is kept once.
pub struct ChainSteps {
    nodes: Vec<u32>,
    locks: Runs<CertLock>,
}

impl Drop for ChainSteps {
    fn drop(self) {
        let ChainSteps { nodes: _, locks: _ } = self;
    }
}

impl Model for ChainSteps {
    ghost use Rattle.std.specs.Prelude.{◌≡◌, List, length};
    ghost use Rattle.sect_cert.specs.declared.certificate.CertStep.{CertStep};
    ghost use Rattle.sect_cert.specs.steps.Stepping.{stepped};

    ghost Value = { List CertStep };

    ghost view = { λ s. stepped s.nodes.items s.locks };

    ghost invariant = { λ s. length s.nodes.items ≡ length s.locks };
}

impl ChainSteps {
    /// No steps.
    pub fn new(alloc: Global) -> ChainSteps
        ensures { result ≡ [] }
    {
        ChainSteps {
            nodes: Vec::new(alloc),
            locks: Runs::new(alloc),
        }
    }

    /// No steps, and room for so many.
    pub fn with_capacity(alloc: Global, count: usize) -> Result<ChainSteps, AllocError>
        ensures { IfOk result (λ steps. steps ≡ []) }
    {
        Ok(ChainSteps {
            nodes: Vec::with_capacity(alloc, count)?,
            locks: Runs::with_capacity(alloc, count)?,
        })
    }

    /// How many there are.
    pub fn len(&self) -> usize
        ensures { result ≡ length self.now }
    {
        self.nodes.len()
    }

    /// The node of the step at an index.
    pub fn node(&self, index: usize) -> u32
        requires { index < length self.now }
        ensures { option_map (λ (x : CertStep). x.node) (slice_get self.now index) ≡ Some result }
    {
        self.nodes[index]
    }

    /// The lock of the step at an index.
    pub fn lock(&self, index: usize) -> &CertLock
        requires { index < length self.now }
        ensures { option_map (λ (x : CertStep). x.lock) (slice_get self.now index) ≡ Some result.now }
    {
        self.locks.at(index)
    }

    /// Whether the locks of two steps are kept as one. Then they are equal.
    pub fn is_one(&self, index: usize, other: usize) -> bool
        requires index { index < length self.now }
        requires other { other < length self.now }
        ensures { IsTrue result → option_map (λ (x : CertStep). x.lock) (slice_get self.now index)
            ≡ option_map (λ (x : CertStep). x.lock) (slice_get self.now other) }
    {
        self.locks.is_one(index, other)
    }

    /// Adds a step at the end.
    pub fn push(&mut self, step: CertStep) -> Result<(), AllocError>
        ensures { OnOk result (self.new ≡ self.old ++ step ∷ []) }
    {
        self.nodes.reserve(1)?;
        self.locks.push(step.lock)?;
        self.nodes.push(step.node)?;
        Ok(())
    }

    /// Adds a step at this node with the lock of the last one.
    pub fn push_again(&mut self, node: u32) -> Result<(), AllocError>
        requires { self.old ≢ [] }
        ensures { OnOk result ((last : CertStep) → slice_get self.old (length self.old - 1) ≡ Some last
            → self.new ≡ self.old ++ record { node = node; lock = last.lock } ∷ []) }
    {
        self.nodes.reserve(1)?;
        self.locks.push_again()?;
        self.nodes.push(node)?;
        Ok(())
    }
}
