//! Locks that many steps have.

ghost use Rattle.std.specs.Prelude.{◌≡◌, ◌<◌, ℕ, Option, None, length, IfOk, OnOk};
ghost use Rattle.sect_lemmas.specs.Lists.{Has};
ghost use Rattle.sect_names.specs.{declared.lock.Lock.{Lock}, Printing.{IsNamed}};
ghost use Rattle.sect_infer.specs.Numberings.{lock_at};
ghost use Rattle.sect_cert.specs.{declared.lock.CertLock.{CertLock}, Texts.{IsLock}};
ghost use Rattle.sect_emit.specs.{Words.{lock_words}, steps.Known.{AreKnown}};

use crate::words::lock_of;
use sect_cert::CertLock;
use sect_chains::NumberedChains;
use sect_types::Program;
use std::alloc::{AllocError, Global};
use std::marker::Model;

/// For the number of each lock what it is by its names, none where it wasn't named yet. A path that is named again is
/// the one that is kept.
#[derive(Drop)]
pub struct KnownLocks {
    named: Vec<Option<CertLock>>,
}

impl Model for KnownLocks {
    ghost use Rattle.std.specs.Prelude.{List, Option};
    ghost use Rattle.sect_cert.specs.declared.lock.CertLock.{CertLock};

    ghost Value = { List (Option CertLock) };

    ghost view = { λ k. k.named.items };
}

impl KnownLocks {
    /// None, for so many numbers.
    pub fn new(alloc: Global, count: usize) -> Result<KnownLocks, AllocError>
        ensures count { IfOk result (λ known. length known ≡ count) }
        ensures none { IfOk result (λ known. (o : Option CertLock) → Has known o → o ≡ None) }
    {
        let mut named = Vec::with_capacity(alloc, count)?;
        for _ in 0..count {
            named.push(None)?;
        }
        Ok(KnownLocks { named })
    }

    /// The lock with a number, by its names, which isn't known yet.
    fn put(
        &mut self,
        alloc: Global,
        program: &Program,
        chains: &NumberedChains,
        number: usize,
    ) -> Result<CertLock, AllocError>
        requires there { number < length chains.now.keys }
        requires named { IsNamed program.now (lock_at chains.now.keys number) }
        requires known { AreKnown program.now.source chains.now.keys self.old }
        ensures words { IfOk result (λ words. words ≡ lock_words program.now.source (lock_at chains.now.keys number)) }
        ensures good { IfOk result IsLock }
        ensures known { OnOk result (AreKnown program.now.source chains.now.keys self.new) }
    {
        let named = lock_of(alloc, program, chains.lock(number))?;
        self.named[number] = Some(named.share()?);
        Ok(named)
    }

    /// The lock with a number, by its names.
    pub fn named(
        &mut self,
        alloc: Global,
        program: &Program,
        chains: &NumberedChains,
        number: usize,
    ) -> Result<CertLock, AllocError>
        requires there { number < length chains.now.keys }
        requires named { IsNamed program.now (lock_at chains.now.keys number) }
        requires known { AreKnown program.now.source chains.now.keys self.old }
        ensures words { IfOk result (λ words. words ≡ lock_words program.now.source (lock_at chains.now.keys number)) }
        ensures good { IfOk result IsLock }
        ensures known { OnOk result (AreKnown program.now.source chains.now.keys self.new) }
    {
        if let Some(known) = &self.named[number] {
            return known.share();
        }
        self.put(alloc, program, chains, number)
    }
}
