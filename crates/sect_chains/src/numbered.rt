//! Chains with their locks by number.

ghost use Rattle.std.specs.Prelude.{◌≡◌, ◌<◌, List, length, map, slice_get, Some, IfOk};
ghost use Rattle.sect_chains.specs.declared.numbered.NumberedStep.{NumberedStep};
ghost use Rattle.sect_chains.specs.{Numbered.{chains_in, links_by, HaveLocks}};
ghost use Rattle.sect_chains.specs.steps.Following.{chain_from, AreChained};

use crate::chain::Chain;
use crate::keep::KeptLink;
use crate::trail::steps_from;
use sect_infer::Numbering;
use sect_names::{Link, Lock};
use std::alloc::{AllocError, Global};
use std::marker::Model;

/// A step of a chain: its node, the exit as the number behind the last node's, and by its number a lock that is needed
/// from there on.
#[derive(Clone, Copy)]
pub struct NumberedStep {
    pub node: u16,
    pub number: usize,
}

/// Chains whose steps have their locks by number, and the locks with these numbers, each once. Steps with one number
/// have one lock. A step that many chains have is kept once, with the one to which it links.
#[derive(Drop)]
pub struct NumberedChains {
    numbering: Numbering,
    steps: Vec<KeptLink>,
    starts: Vec<usize>,
}

impl Model for NumberedChains {
    ghost use Rattle.std.specs.Prelude.{map};
    ghost use Rattle.std.specs.Coded.{codes};
    ghost use Rattle.sect_points.specs.Paths.{path_code};
    ghost use Rattle.sect_chains.specs.Numbered.{NumberedView};
    ghost use Rattle.sect_chains.specs.steps.Following.{chain_from, AreChained};

    ghost Value = { NumberedView };

    ghost coded = { Prim.hlevel (codes, path_code) };

    ghost view = { λ c. record {
      keys = c.numbering.keys;
      chains = map (chain_from c.steps.items) c.starts.items;
    } };

    ghost invariant = { λ c. AreChained c.numbering.keys c.steps.items c.starts.items };
}

impl NumberedChains {
    /// The chains that begin with the steps at these indices, each of which goes on with the step to which it links.
    pub(crate) fn of(
        numbering: Numbering,
        steps: Vec<KeptLink>,
        starts: Vec<usize>,
    ) -> NumberedChains
        requires { AreChained numbering.keys steps.items starts.items }
        ensures keys { result.keys ≡ numbering.keys }
        ensures chains { result.chains ≡ map (chain_from steps.items) starts.items }
    {
        NumberedChains {
            numbering,
            steps,
            starts,
        }
    }

    /// How many chains there are.
    pub fn len(&self) -> usize
        ensures { result ≡ length self.now.chains }
    {
        self.starts.len()
    }

    /// How many locks have a number.
    pub fn lock_count(&self) -> usize
        ensures { result ≡ length self.now.keys }
    {
        self.numbering.len()
    }

    /// The lock with a number.
    pub fn lock(&self, number: usize) -> &Lock
        requires { number < length self.now.keys }
        ensures { slice_get self.now.keys number ≡ Some result.now }
    {
        self.numbering.lock(number)
    }

    /// The steps of a chain, in order.
    pub fn chain(&self, alloc: Global, index: usize) -> Result<Vec<NumberedStep>, AllocError>
        requires { index < length self.now.chains }
        ensures steps { IfOk result (λ steps. slice_get self.now.chains index ≡ Some steps.items) }
        ensures numbers { IfOk result (λ steps. HaveLocks self.now.keys steps.items) }
    {
        steps_from(alloc, self.steps.as_slice(), self.starts[index])
    }

    /// Steps, each with its lock.
    fn links(&self, alloc: Global, steps: &[NumberedStep]) -> Result<Vec<Link>, AllocError>
        requires { HaveLocks self.now.keys steps.now }
        ensures { IfOk result (λ links. links.items ≡ links_by self.now.keys steps.now) }
    {
        let mut links = Vec::with_capacity(alloc, steps.len())?;
        for step in steps {
            links.push(Link {
                node: u32::from(step.node),
                lock: self.lock(step.number).try_clone()?,
            })?;
        }
        Ok(links)
    }

    /// The chains, each step with its lock.
    pub fn linked(&self, alloc: Global) -> Result<Vec<Chain>, AllocError>
        ensures { IfOk result (λ chains. chains.items ≡ chains_in self.now) }
    {
        let mut chains = Vec::with_capacity(alloc, self.len())?;
        for index in 0..self.len() {
            let steps = self.chain(alloc, index)?;
            let links = self.links(alloc, steps.as_slice())?;
            chains.push(Chain::of(links))?;
        }
        Ok(chains)
    }
}
