//! The lock table.

ghost use Rattle.std.specs.Prelude.{◌≡◌, ◌≢◌, ◌+◌, ◌-◌, ◌<◌, ◌≤◌, [], ℕ, length, true, false, Err, OnOk, OnErr, IfOk};
ghost use Rattle.std.specs.Prelude.{IfErr, IsOk};
ghost use Rattle.sect_modes.specs.declared.mode.Mode.TheVariants.{Exclusive};
ghost use Rattle.sect_table.specs.declared.claims.Answer.TheVariants.{Granted};
ghost use Rattle.sect_table.specs.declared.claims.TableFault.TheVariants.{Memory};
ghost use Rattle.sect_table.specs.Contents.{entry_of, mode_in, held_by, holds, first_of, is_waiting, released};
ghost use Rattle.sect_table.specs.{Contents.{IsEmptyFor}, Answers.{IsAnswered, IsAdmitted, IsRefused}, Sound.{IsKept}};

use crate::arena::Arena;
use crate::claims::{Answer, Claim, TableFault};
use crate::grants::Grants;
use crate::{releases, requests};
use sect_modes::{Key, Mode};
use std::alloc::{AllocError, Global};
use std::marker::Model;

/// Who holds which key in which mode, and who waits.
///
/// Threads are numbered from 0. No key has two entries. The holders of a key are pairwise compatible, a thread waits
/// for one key at most, and no first waiter is compatible with all holders of its key.
#[derive(Drop)]
pub struct Table {
    arena: Box<Arena>,
}

impl Model for Table {
    ghost use Rattle.sect_table.specs.Contents.{Contents};
    ghost use Rattle.sect_table.specs.Sound.{IsKept};

    ghost Value = { Contents };

    ghost view = { λ table. table.arena.value };

    ghost invariant = { λ table. IsKept table.arena.value };
}

impl Table {
    /// A table of so many threads, in which nobody holds or waits.
    pub fn with_threads(alloc: Global, threads: usize) -> Result<Self, AllocError>
        ensures empty { IfOk result (λ table. IsEmptyFor threads table) }
        ensures kept { IfOk result IsKept }
    {
        Ok(Table {
            arena: Box::new(alloc, Arena::with_threads(alloc, threads)?)?,
        })
    }

    /// The number of threads.
    pub fn threads(&self) -> usize
        ensures count { result ≡ length self.now.held }
        ensures kept { IsKept self.now }
    {
        self.arena.thread_count()
    }

    /// Whether a thread waits for a key.
    pub fn is_waiting(&self, thread: u16) -> bool
        requires { thread < length self.now.held }
        ensures waits { result ≡ is_waiting thread self.now }
        ensures kept { IsKept self.now }
    {
        self.arena.waits(thread)
    }

    /// The mode in which a thread holds a key.
    pub fn held(&self, thread: u16, key: Key) -> Option<Mode>
        requires { thread < length self.now.held }
        ensures mode { result ≡ mode_in key (held_by self.now thread) }
        ensures kept { IsKept self.now }
    {
        requests::held(&*self.arena, thread, key)
    }

    /// The first that waits for a key, and in which mode.
    pub fn first_waiter(&self, key: Key) -> Option<Claim>
        ensures waiter { result ≡ first_of (entry_of key self.now.entries).waiters }
        ensures kept { IsKept self.now }
    {
        requests::first_waiter(&*self.arena, key)
    }

    /// The number of free nodes: of requests that need no memory, on keys that were asked for before.
    pub fn spare(&self) -> usize
        ensures count { result ≡ self.now.spare }
        ensures kept { IsKept self.now }
    {
        self.arena.spare()
    }

    /// Asks for a key. The thread gets it unless another thread's mode is in its way or another thread waits for it;
    /// then it waits, behind all others. It is refused where it waits already, and else where it holds the key.
    ///
    /// A request takes all memory that its grant and its release will need.
    pub fn request(&mut self, thread: u16, key: Key, mode: Mode) -> Result<Answer, TableFault>
        requires { thread < length self.old.held }
        ensures ok { IfOk result (λ answer. IsAnswered answer thread key mode self.old self.new) }
        ensures admitted { OnOk result (IsAdmitted thread key self.old) }
        ensures refused { IfErr result (λ fault. IsRefused fault thread key self.old) }
        ensures err { OnErr result (self.new ≡ self.old) }

        // A free node serves a request on a key that some thread holds.
        ensures spare { OnOk result (self.new.spare ≡ self.old.spare - 1) }
        ensures enough { (holder : ℕ) → holds holder key self.old ≡ true → 0 < self.old.spare → result ≢ Err Memory }

        ensures kept { IsKept self.new }
    {
        requests::request(&mut *self.arena, thread, key, mode)
    }

    /// Asks for a key for a thread that neither waits nor holds the key, as `request` does.
    pub fn admit(&mut self, thread: u16, key: Key, mode: Mode) -> Result<Answer, AllocError>
        requires thread { thread < length self.old.held }
        requires admitted { IsAdmitted thread key self.old }
        ensures ok { IfOk result (λ answer. IsAnswered answer thread key mode self.old self.new) }
        ensures err { OnErr result (self.new ≡ self.old) }
        ensures spare { OnOk result (self.new.spare ≡ self.old.spare - 1) }
        ensures enough { (holder : ℕ) → holds holder key self.old ≡ true → 0 < self.old.spare → IsOk result }
        ensures kept { IsKept self.new }
    {
        requests::admit(&mut *self.arena, thread, key, mode)
    }

    /// Gives a thread a key that nobody holds or waits for, in exclusive mode.
    pub fn give_fresh(&mut self, thread: u16, key: Key) -> Result<(), AllocError>
        requires thread { thread < length self.old.held }
        requires holders { (entry_of key self.old.entries).holders ≡ [] }
        requires waiters { (entry_of key self.old.entries).waiters ≡ [] }
        ensures ok { OnOk result (IsAnswered Granted thread key Exclusive self.old self.new) }
        ensures spare { OnOk result (self.new.spare ≡ self.old.spare - 1) }
        ensures err { OnErr result (self.new ≡ self.old) }
        ensures kept { IsKept self.new }
    {
        requests::give_fresh(&mut *self.arena, thread, key)
    }

    /// Gives all keys of a thread back, in the order in which it came to hold them. On each key waiters come to hold
    /// it, from the front, while they are compatible with its holders; `grants` lists them in that order.
    pub fn release_all(&mut self, thread: u16, grants: &mut Grants)
        requires thread { thread < length self.old.held }
        requires idle { is_waiting thread self.old ≡ false }
        requires room { length self.old.held ≤ grants.old.threads }
        ensures emptied { held_by self.new thread ≡ [] }
        ensures held { self.new.held ≡ (released thread self.old).held }
        ensures entries { self.new.entries ≡ (released thread self.old).entries }
        ensures grants { grants.new.list ≡ (released thread self.old).grants }
        ensures few { length grants.new.list ≤ length self.new.held }
        ensures threads { grants.new.threads ≡ grants.old.threads }
        ensures spare { self.new.spare ≡ self.old.spare + length (held_by self.old thread) }
        ensures kept { IsKept self.new }
    {
        releases::release_all(&mut *self.arena, &mut grants.list, thread);
    }
}
