//! The grants of one release.

ghost use Rattle.std.specs.Prelude.{◌≡◌, [], IfOk};

use crate::claims::Grant;
use std::alloc::{AllocError, Global};
use std::marker::Model;

/// The grants of one release, in their order, with room for one of each thread.
#[derive(Drop)]
pub struct Grants {
    pub(crate) list: Vec<Grant>,
    threads: usize,
}

impl Model for Grants {
    ghost use Rattle.std.specs.Prelude.{◌≤◌, vec_capacity};
    ghost use Rattle.sect_table.specs.Granted.{Granted};

    ghost Value = { Granted };

    ghost view = { λ grants. record { threads = grants.threads; list = grants.list.items } };

    ghost invariant = { λ grants. grants.threads ≤ vec_capacity grants.list };
}

impl Grants {
    /// No grants, and room for one of each of so many threads.
    pub fn with_threads(alloc: Global, threads: usize) -> Result<Self, AllocError>
        ensures { IfOk result (λ grants. grants ≡ record { threads = threads; list = [] }) }
    {
        Ok(Grants {
            list: Vec::with_capacity(alloc, threads)?,
            threads,
        })
    }

    /// For how many threads there is room.
    pub fn threads(&self) -> usize
        ensures { result ≡ self.now.threads }
    {
        self.threads
    }

    /// Forgets the grants, and keeps the room.
    pub fn clear(&mut self)
        ensures { self.new ≡ record { threads = self.old.threads; list = [] } }
    {
        self.list.clear();
    }

    /// The grants in their order.
    pub fn as_slice(&self) -> &[Grant]
        ensures { result.now ≡ self.now.list }
    {
        self.list.as_slice()
    }
}
