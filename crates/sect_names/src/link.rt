//! The steps of chains.

ghost use Rattle.std.specs.Prelude.{◌≡◌, IfOk};

use crate::lock::Lock;
use std::alloc::AllocError;

/// A step of a chain: a node of a section's graph by its number, the exit as the number behind the last node's, and a
/// lock that is needed from there on.
#[derive(Drop, PartialEq, Eq)]
pub struct Link {
    pub node: u32,
    pub lock: Lock,
}

impl Link {
    /// A step equal to this one.
    pub fn try_clone(&self) -> Result<Link, AllocError>
        ensures { IfOk result (λ copy. copy ≡ self.now) }
    {
        Ok(Link {
            node: self.node,
            lock: self.lock.try_clone()?,
        })
    }
}
