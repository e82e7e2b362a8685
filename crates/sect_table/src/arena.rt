//! The nodes of a table, and the lists in which they stand.

ghost use Rattle.std.specs.Prelude.{◌≡◌, ◌<◌, ◌≤◌, ◌+◌, ◌-◌, ◌++◌, ◌∷◌, [], ◌==◌, ◌||◌, ◌^◌, drop, length, slice_set};
ghost use Rattle.std.specs.{Prelude.{OnOk, OnErr, IfOk, IsOk, Some, vec_len, vec_capacity}, Option.{option_map}};
ghost use Rattle.sect_modes.specs.Mode.{are_compatible};
ghost use Rattle.sect_table.specs.Contents.{number_of, entry_of, no_entry, put, is_waiting, may_join, mode_for};
ghost use Rattle.sect_table.specs.Contents.{held_by, first_of, first_hold, claim_of, give, with_holder, with_waiter};
ghost use Rattle.sect_table.specs.Contents.{with_grant, without_holder, AreApart, IsEmptyFor, mode_in};
ghost use Rattle.sect_table.specs.{Sound.{AreTogether}, declared.claims.Hold.{Hold as AHold}};
ghost use Rattle.sect_table.specs.steps.{Arena.{queue_at, chain_at, no_node, SameLists, NumberAdded}, Keys.{place_in}};
ghost use Rattle.sect_table.specs.steps.Links.{ArePlaced};

use crate::claims::{Claim, Grant, Hold};
use crate::keys::Keys;
use crate::lists::Lists;
use sect_modes::{Key, Mode, at_least, compatible, is_same};
use std::alloc::{AllocError, Global};
use std::marker::Model;

/// One arena of nodes, each a request or free. In `queues`, list 0 has the free nodes, list 2k + 1 the holders of key
/// number k and list 2k + 2 its waiters. In `chains`, list 0 has the free nodes, list 2t + 1 what thread t holds and
/// list 2t + 2 what it waits for.
pub(crate) struct Arena {
    nodes: Vec<Grant>,
    keys: Keys,
    queues: Lists,
    chains: Lists,
    threads: usize,
}

impl Drop for Arena {
    fn drop(self) {
        let Arena {
            nodes: _,
            keys: _,
            queues: _,
            chains: _,
            threads: _,
        } = self;
    }
}

impl Model for Arena {
    ghost use Rattle.sect_table.specs.Contents.{Contents};
    ghost use Rattle.sect_table.specs.steps.Arena.{shown, IsArena};

    ghost Value = { Contents };

    ghost view = { λ s. shown s.nodes.items s.keys s.threads s.queues s.chains };

    ghost invariant = { λ s. IsArena s.nodes.items s.keys s.threads s.queues s.chains };
}

impl Arena {
    /// An arena of so many threads, with no key and no node.
    pub fn with_threads(alloc: Global, threads: usize) -> Result<Self, AllocError>
        ensures { IfOk result (λ arena. IsEmptyFor threads arena) }
    {
        let mut queues = Lists::new(alloc);
        queues.reserve_lists()?;
        queues.add_list();
        let mut chains = Lists::new(alloc);
        chains.reserve_lists()?;
        chains.add_list();
        for step in 0..threads {
            chains.reserve_lists()?;
            chains.add_list();
            chains.add_list();
        }
        Ok(Arena {
            nodes: Vec::new(alloc),
            keys: Keys::new(alloc),
            queues,
            chains,
            threads,
        })
    }

    /// The number of a key, or how many there are.
    pub fn number_of(&self, key: Key) -> usize
        ensures number { result ≡ number_of key self.now.entries }
        ensures within { result ≤ length self.now.entries }
    {
        self.keys.number_of(key)
    }

    /// The number of threads.
    pub fn thread_count(&self) -> usize
        ensures { result ≡ length self.now.held }
    {
        self.threads
    }

    /// How many keys were asked for.
    pub fn key_count(&self) -> usize
        ensures { result ≡ length self.now.entries }
    {
        self.keys.len()
    }

    /// The number of free nodes.
    pub fn spare(&self) -> usize
        ensures { result ≡ self.now.spare }
    {
        self.queues.len(0)
    }

    /// Whether a thread waits.
    pub fn waits(&self, thread: u16) -> bool
        requires { thread < length self.now.held }
        ensures { result ≡ is_waiting thread self.now }
    {
        let list = thread as usize + thread as usize + 2;
        self.chains.first(list).is_some()
    }

    /// One more free node.
    fn add_node(&mut self) -> Result<(), AllocError>
        ensures held { self.new.held ≡ self.old.held }
        ensures entries { self.new.entries ≡ self.old.entries }
        ensures spare { OnOk result (self.new.spare ≡ self.old.spare + 1) }
        ensures err { OnErr result (self.new ≡ self.old) }
    {
        reserve_node(&mut self.nodes, &mut self.queues, &mut self.chains)?;
        push_node(&mut self.nodes, &mut self.queues, &mut self.chains);
        Ok(())
    }

    /// One more key, with no holders and no waiters.
    fn add_key(&mut self, key: Key) -> Result<(), AllocError>
        requires { number_of key self.old.entries ≡ length self.old.entries }
        ensures held { self.new.held ≡ self.old.held }
        ensures entries { OnOk result (self.new.entries ≡ self.old.entries ++ no_entry key ∷ []) }
        ensures spare { self.new.spare ≡ self.old.spare }
        ensures err { OnErr result (self.new ≡ self.old) }
    {
        push_key(&mut self.keys, &mut self.queues, key)?;
        Ok(())
    }

    /// One more key, with no holders and no waiters, and one more free node.
    fn add_key_and_node(&mut self, key: Key) -> Result<(), AllocError>
        requires { number_of key self.old.entries ≡ length self.old.entries }
        ensures held { self.new.held ≡ self.old.held }
        ensures entries { OnOk result (self.new.entries ≡ self.old.entries ++ no_entry key ∷ []) }
        ensures spare { OnOk result (self.new.spare ≡ self.old.spare + 1) }
        ensures err { OnErr result (self.new ≡ self.old) }
    {
        reserve_node(&mut self.nodes, &mut self.queues, &mut self.chains)?;
        push_key(&mut self.keys, &mut self.queues, key)?;
        push_node(&mut self.nodes, &mut self.queues, &mut self.chains);
        Ok(())
    }

    /// Sees to it that there is a free node, and that the key is known.
    pub fn prepare(&mut self, key: Key, at: usize) -> Result<(), AllocError>
        requires { at ≡ number_of key self.old.entries }
        ensures number { OnOk result (at ≡ number_of key self.new.entries) }
        ensures known { OnOk result (at < length self.new.entries) }
        ensures held { self.new.held ≡ self.old.held }
        ensures entries { OnOk result (self.new.entries ≡ put (entry_of key self.old.entries) self.old.entries) }
        ensures some { OnOk result (0 < self.new.spare) }
        ensures spare { OnOk result (self.new.spare - 1 ≡ self.old.spare - 1) }
        ensures err { OnErr result (self.new ≡ self.old) }
        ensures enough { at < length self.old.entries → 0 < self.old.spare → IsOk result }
    {
        match (at == self.key_count(), self.spare() == 0) {
            (false, false) => Ok(()),
            (false, true) => {
                self.add_node()?;
                Ok(())
            }
            (true, false) => {
                self.add_key(key)?;
                Ok(())
            }
            (true, true) => {
                self.add_key_and_node(key)?;
                Ok(())
            }
        }
    }

    /// The first that waits for a key.
    #[tactic(auto, using(crate::proofs::Shown::key_lists))]
    pub fn first_waiter(&self, key: Key, at: usize) -> Option<Claim>
        requires number { at ≡ number_of key self.now.entries }
        requires known { at < length self.now.entries }
        ensures { result ≡ first_of (entry_of key self.now.entries).waiters }
    {
        let node = self.queues.first(at + at + 2)?;
        let request = self.nodes[node];
        Some(Claim {
            thread: request.thread,
            mode: request.mode,
        })
    }

    /// What a thread has held for the longest time.
    pub fn first_held(&self, thread: u16) -> Option<Hold>
        requires { thread < length self.now.held }
        ensures { result ≡ first_hold (held_by self.now thread) }
    {
        let list = thread as usize + thread as usize + 1;
        let node = self.chains.first(list)?;
        let request = self.nodes[node];
        Some(Hold {
            key: request.key,
            mode: request.mode,
        })
    }

    /// The number of the key that a thread has held for the longest time.
    pub fn first_number(&self, thread: u16) -> usize
        requires thread { thread < length self.now.held }
        requires some { 0 < length (held_by self.now thread) }
        ensures { (h : AHold) → first_hold (held_by self.now thread) ≡ Some h
            → result ≡ number_of h.key self.now.entries }
    {
        let list = thread as usize + thread as usize + 1;
        let node = self.chains.first(list).unwrap();
        (self.queues.list_of(node) - 1) / 2
    }

    /// Whether each other holder of a key lets a thread join in a mode.
    #[tactic(auto, using(crate::proofs::Shown::key_lists))]
    pub fn lets_in(&self, thread: u16, mode: Mode, key: Key, at: usize) -> bool
        requires number { at ≡ number_of key self.now.entries }
        requires known { at < length self.now.entries }
        ensures { result ≡ may_join (entry_of key self.now.entries).holders thread mode }
    {
        all_let_in(&self.nodes, &self.queues, at + at + 1, thread, mode)
    }

    /// Who has held a key for the longest time.
    #[tactic(auto, using(crate::proofs::Shown::key_lists))]
    fn first_holder(&self, key: Key, at: usize) -> Option<Grant>
        requires number { at ≡ number_of key self.now.entries }
        requires known { at < length self.now.entries }
        ensures { option_map (λ g. claim_of g.thread g.mode) result
            ≡ first_of (entry_of key self.now.entries).holders }
    {
        let node = self.queues.first(at + at + 1)?;
        Some(self.nodes[node])
    }

    /// Whether each other holder of a key lets a thread join in a mode, where the holders share it pairwise. A first
    /// holder whose mode is at least that one decides for all: with a weaker mode the others share too.
    pub fn admits(&self, thread: u16, mode: Mode, key: Key, at: usize) -> bool
        requires number { at ≡ number_of key self.now.entries }
        requires known { at < length self.now.entries }
        requires together { AreTogether (entry_of key self.now.entries).holders }
        ensures { result ≡ may_join (entry_of key self.now.entries).holders thread mode }
    {
        let Some(first) = self.first_holder(key, at) else {
            return true;
        };
        if at_least(first.mode, mode) {
            return lets(first, thread, mode);
        }
        self.lets_in(thread, mode, key, at)
    }

    /// How many keys a thread holds.
    pub fn held_count(&self, thread: u16) -> usize
        requires { thread < length self.now.held }
        ensures { result ≡ length (held_by self.now thread) }
    {
        self.chains.len(thread as usize + thread as usize + 1)
    }

    /// The mode in which a key is among those that a thread holds.
    pub fn held_mode(&self, thread: u16, key: Key) -> Option<Mode>
        requires { thread < length self.now.held }
        ensures { result ≡ mode_in key (held_by self.now thread) }
    {
        let list = thread as usize + thread as usize + 1;
        mode_along(&self.nodes, &self.chains, list, key)
    }

    /// The mode in which a thread is among the holders of a key.
    #[tactic(auto, using(crate::proofs::Shown::key_lists))]
    pub fn mode_of(&self, thread: u16, key: Key, at: usize) -> Option<Mode>
        requires number { at ≡ number_of key self.now.entries }
        requires known { at < length self.now.entries }
        ensures { result ≡ mode_for thread (entry_of key self.now.entries).holders }
    {
        mode_among(&self.nodes, &self.queues, at + at + 1, thread)
    }

    /// A free node goes to the end of a key's holders and of a thread's list.
    #[tactic(auto, using(crate::proofs::Shown::key_lists, crate::proofs::Shown::seen))]
    pub fn add_holder(&mut self, thread: u16, mode: Mode, key: Key, at: usize)
        requires thread { thread < length self.old.held }
        requires number { at ≡ number_of key self.old.entries }
        requires known { at < length self.old.entries }
        requires spare { 0 < self.old.spare }
        ensures held { self.new.held ≡ give thread key mode self.old.held }
        ensures entries { self.new.entries ≡
            put (with_holder (claim_of thread mode) (entry_of key self.old.entries)) self.old.entries }
        ensures spare { self.new.spare + 1 ≡ self.old.spare }
    {
        let node = self.queues.first(0).unwrap();
        self.nodes[node] = Grant { thread, key, mode };
        self.queues.move_to(node, at + at + 1);
        self.chains
            .move_to(node, thread as usize + thread as usize + 1);
    }

    /// A free node goes to the end of a key's waiters.
    #[tactic(auto, using(crate::proofs::Shown::key_lists, crate::proofs::Shown::seen))]
    pub fn add_waiter(&mut self, thread: u16, mode: Mode, key: Key, at: usize)
        requires thread { thread < length self.old.held }
        requires number { at ≡ number_of key self.old.entries }
        requires known { at < length self.old.entries }
        requires spare { 0 < self.old.spare }
        ensures held { self.new.held ≡ self.old.held }
        ensures entries { self.new.entries ≡
            put (with_waiter (claim_of thread mode) (entry_of key self.old.entries)) self.old.entries }
        ensures spare { self.new.spare + 1 ≡ self.old.spare }
    {
        let node = self.queues.first(0).unwrap();
        self.nodes[node] = Grant { thread, key, mode };
        self.queues.move_to(node, at + at + 2);
        self.chains
            .move_to(node, thread as usize + thread as usize + 2);
    }

    /// The first waiter of a key goes to the end of its holders and of its thread's list.
    #[tactic(auto, using(crate::proofs::Shown::key_lists))]
    pub fn grant_first(&mut self, key: Key, at: usize) -> Grant
        requires number { at ≡ number_of key self.old.entries }
        requires known { at < length self.old.entries }
        requires waits { 0 < length (entry_of key self.old.entries).waiters }
        ensures key { result.key ≡ key }
        ensures thread { result.thread < length self.old.held }
        ensures first { first_of (entry_of key self.old.entries).waiters ≡ Some (claim_of result.thread result.mode) }
        ensures held { self.new.held ≡ give result.thread key result.mode self.old.held }
        ensures entries { self.new.entries ≡
            put (with_grant (claim_of result.thread result.mode) (entry_of key self.old.entries)) self.old.entries }
        ensures spare { self.new.spare ≡ self.old.spare }
    {
        let node = self.queues.first(at + at + 2).unwrap();
        let request = self.nodes[node];
        self.queues.move_to(node, at + at + 1);
        self.chains.move_to(node, request.thread as usize + request.thread as usize + 1);
        request
    }

    /// The node of the first key in a thread's list leaves the list and the key's holders, and is free.
    #[tactic(auto, using(crate::proofs::Shown::seen))]
    pub fn release_first(&mut self, thread: u16, key: Key, at: usize)
        requires thread { thread < length self.old.held }
        requires number { at ≡ number_of key self.old.entries }
        requires known { at < length self.old.entries }
        requires first { option_map (λ h. h.key) (first_hold (held_by self.old thread)) ≡ Some key }
        requires apart { AreApart (entry_of key self.old.entries).holders }
        ensures held { self.new.held ≡ slice_set self.old.held thread (drop 1 (held_by self.old thread)) }
        ensures entries { self.new.entries ≡
            put (without_holder thread (entry_of key self.old.entries)) self.old.entries }
        ensures spare { self.new.spare ≡ self.old.spare + 1 }
    {
        let node = self
            .chains
            .first(thread as usize + thread as usize + 1)
            .unwrap();
        self.queues.move_to(node, 0);
        self.chains.move_to(node, 0);
    }
}

/// Makes room for one more node.
fn reserve_node(
    nodes: &mut Vec<Grant>,
    queues: &mut Lists,
    chains: &mut Lists,
) -> Result<(), AllocError>
    requires queues { ArePlaced queues.old }
    requires chains { ArePlaced chains.old }
    ensures room { OnOk result (vec_len nodes.new < vec_capacity nodes.new) }
    ensures queues_room { OnOk result (0 < queues.new.room) }
    ensures chains_room { OnOk result (0 < chains.new.room) }
    ensures nodes { nodes.new.items ≡ nodes.old.items }
    ensures queues { SameLists queues.old queues.new }
    ensures chains { SameLists chains.old chains.new }
{
    nodes.reserve(1)?;
    queues.reserve()?;
    chains.reserve()
}

/// One more node, which is free.
fn push_node(nodes: &mut Vec<Grant>, queues: &mut Lists, chains: &mut Lists)
    requires room { vec_len nodes.old < vec_capacity nodes.old }
    requires queues_room { 0 < queues.old.room }
    requires chains_room { 0 < chains.old.room }
    requires queues { 0 < length queues.old.lists }
    requires chains { 0 < length chains.old.lists }
    ensures nodes { nodes.new.items ≡ nodes.old.items ++ no_node ∷ [] }
    ensures queues { NumberAdded queues.old queues.new }
    ensures chains { NumberAdded chains.old chains.new }
{
    nodes.push_reserved(Grant {
        thread: 0,
        key: Key::Class(0),
        mode: Mode::Exclusive,
    });
    queues.add_number(0);
    chains.add_number(0);
}

/// One more key, with no holders and no waiters.
fn push_key(keys: &mut Keys, queues: &mut Lists, key: Key) -> Result<(), AllocError>
    requires queues { ArePlaced queues.old }
    requires new { place_in key keys.old ≡ length keys.old }
    ensures keys { OnOk result (keys.new ≡ keys.old ++ key ∷ []) }
    ensures queues { OnOk result (queues.new.lists ≡ (queues.old.lists ++ [] ∷ []) ++ [] ∷ []) }
    ensures few { OnOk result (length queues.new.lists < 2 ^ 60) }
    ensures size { queues.new.size ≡ queues.old.size }
    ensures room { queues.new.room ≡ queues.old.room }
    ensures labels { queues.new.labels ≡ queues.old.labels }
    ensures placed { ArePlaced queues.new }
    ensures err_keys { OnErr result (keys.new ≡ keys.old) }
    ensures err_queues { OnErr result (queues.new.lists ≡ queues.old.lists) }
{
    queues.reserve_lists()?;
    keys.add(key)?;
    queues.add_list();
    queues.add_list();
    Ok(())
}

/// Whether this holder lets the thread's mode in.
fn lets(holder: Grant, thread: u16, mode: Mode) -> bool
    ensures { result ≡ ((holder.thread == thread) || are_compatible holder.mode mode) }
{
    holder.thread == thread || compatible(holder.mode, mode)
}

/// Whether each other holder in a list lets a thread join.
fn all_let_in(nodes: &[Grant], queues: &Lists, list: usize, thread: u16, mode: Mode) -> bool
    requires list { list < length queues.now.lists }
    requires nodes { length nodes.now ≡ queues.now.size }
    ensures { result ≡ may_join (queue_at nodes.now queues.now.lists list) thread mode }
{
    let mut at = queues.first(list);
    for step in 0..queues.len(list) {
        let Some(node) = at else {
            return true;
        };
        if !lets(nodes[node], thread, mode) {
            return false;
        }
        at = queues.after(node);
    }
    true
}

/// The mode in which a list has a thread.
fn mode_among(nodes: &[Grant], queues: &Lists, list: usize, thread: u16) -> Option<Mode>
    requires list { list < length queues.now.lists }
    requires nodes { length nodes.now ≡ queues.now.size }
    ensures { result ≡ mode_for thread (queue_at nodes.now queues.now.lists list) }
{
    let mut at = queues.first(list);
    for step in 0..queues.len(list) {
        let node = at?;
        if nodes[node].thread == thread {
            return Some(nodes[node].mode);
        }
        at = queues.after(node);
    }
    None
}

/// The mode in which a list has a key.
fn mode_along(nodes: &[Grant], chains: &Lists, list: usize, key: Key) -> Option<Mode>
    requires list { list < length chains.now.lists }
    requires nodes { length nodes.now ≡ chains.now.size }
    ensures { result ≡ mode_in key (chain_at nodes.now chains.now.lists list) }
{
    let mut at = chains.first(list);
    for step in 0..chains.len(list) {
        let node = at?;
        if is_same(nodes[node].key, key) {
            return Some(nodes[node].mode);
        }
        at = chains.after(node);
    }
    None
}
