//! Asking for keys.

ghost use Rattle.std.specs.Prelude.{◌≡◌, ◌≢◌, ◌<◌, ◌+◌, ◌-◌, [], length, true, ℕ, Err, OnOk, OnErr, IfOk, IfErr};
ghost use Rattle.std.specs.Prelude.{IsOk};
ghost use Rattle.sect_modes.specs.declared.mode.Mode.TheVariants.{Exclusive};
ghost use Rattle.sect_table.specs.declared.claims.Answer.TheVariants.{Granted};
ghost use Rattle.sect_table.specs.declared.claims.TableFault.TheVariants.{Memory};
ghost use Rattle.sect_table.specs.Contents.{number_of, entry_of, mode_in, held_by, holds, is_free, first_of};
ghost use Rattle.sect_table.specs.{Answers.{IsAnswered, IsAdmitted, IsRefused}, Sound.{AreTogether, IsKept}};

use crate::arena::Arena;
use crate::claims::{Answer, Claim, TableFault};
use sect_modes::{Key, Mode};
use std::alloc::AllocError;

/// The most keys of a thread among which one is sought. Where it holds more, its mode is sought among those of the key.
const FEW: usize = 16;

/// The mode in which a thread holds a key.
pub(crate) fn held(arena: &Arena, thread: u16, key: Key) -> Option<Mode>
    requires thread { thread < length arena.now.held }
    requires kept { IsKept arena.now }
    ensures { result ≡ mode_in key (held_by arena.now thread) }
{
    if arena.held_count(thread) <= FEW {
        arena.held_mode(thread, key)
    } else {
        held_at(arena, thread, key, arena.number_of(key))
    }
}

/// The mode in which a thread holds the key of this number.
fn held_at(arena: &Arena, thread: u16, key: Key, at: usize) -> Option<Mode>
    requires kept { IsKept arena.now }
    requires number { at ≡ number_of key arena.now.entries }
    ensures { result ≡ mode_in key (held_by arena.now thread) }
{
    if at == arena.key_count() {
        return None;
    }
    arena.mode_of(thread, key, at)
}

/// The first that waits for a key.
pub(crate) fn first_waiter(arena: &Arena, key: Key) -> Option<Claim>
    ensures { result ≡ first_of (entry_of key arena.now.entries).waiters }
{
    let at = arena.number_of(key);
    if at == arena.key_count() {
        return None;
    }
    arena.first_waiter(key, at)
}

/// Whether nobody waits for a key, and its holders let the thread join.
fn is_free_for(arena: &Arena, thread: u16, mode: Mode, key: Key, at: usize) -> bool
    requires number { at ≡ number_of key arena.now.entries }
    requires known { at < length arena.now.entries }
    requires together { AreTogether (entry_of key arena.now.entries).holders }
    ensures { result ≡ is_free thread key mode arena.now }
{
    arena.first_waiter(key, at).is_none() && arena.admits(thread, mode, key, at)
}

/// Grants the key or queues for it.
fn enter(arena: &mut Arena, thread: u16, mode: Mode, key: Key, at: usize) -> Answer
    requires thread { thread < length arena.old.held }
    requires number { at ≡ number_of key arena.old.entries }
    requires known { at < length arena.old.entries }
    requires together { AreTogether (entry_of key arena.old.entries).holders }
    requires spare { 0 < arena.old.spare }
    ensures answer { IsAnswered result thread key mode arena.old arena.new }
    ensures spare { arena.new.spare + 1 ≡ arena.old.spare }
{
    if is_free_for(arena, thread, mode, key, at) {
        arena.add_holder(thread, mode, key, at);
        Answer::Granted
    } else {
        arena.add_waiter(thread, mode, key, at);
        Answer::Queued
    }
}

/// Asks for a key for a thread that neither waits nor holds the key.
pub(crate) fn admit(
    arena: &mut Arena,
    thread: u16,
    key: Key,
    mode: Mode,
) -> Result<Answer, AllocError>
    requires thread { thread < length arena.old.held }
    requires kept { IsKept arena.old }
    requires admitted { IsAdmitted thread key arena.old }
    ensures ok { IfOk result (λ answer. IsAnswered answer thread key mode arena.old arena.new) }
    ensures spare { OnOk result (arena.new.spare ≡ arena.old.spare - 1) }
    ensures kept { IsKept arena.new }
    ensures enough { (holder : ℕ) → holds holder key arena.old ≡ true → 0 < arena.old.spare → IsOk result }
    ensures err { OnErr result (arena.new ≡ arena.old) }
{
    let at = arena.number_of(key);
    arena.prepare(key, at)?;
    Ok(enter(arena, thread, mode, key, at))
}

/// Asks for a key.
pub(crate) fn request(
    arena: &mut Arena,
    thread: u16,
    key: Key,
    mode: Mode,
) -> Result<Answer, TableFault>
    requires thread { thread < length arena.old.held }
    requires kept { IsKept arena.old }
    ensures ok { IfOk result (λ answer. IsAnswered answer thread key mode arena.old arena.new) }
    ensures admitted { OnOk result (IsAdmitted thread key arena.old) }
    ensures spare { OnOk result (arena.new.spare ≡ arena.old.spare - 1) }
    ensures kept { IsKept arena.new }
    ensures refused { IfErr result (λ fault. IsRefused fault thread key arena.old) }
    ensures enough { (holder : ℕ) → holds holder key arena.old ≡ true → 0 < arena.old.spare → result ≢ Err Memory }
    ensures err { OnErr result (arena.new ≡ arena.old) }
{
    if arena.waits(thread) {
        return Err(TableFault::AlreadyWaiting);
    }
    if held(arena, thread, key).is_some() {
        return Err(TableFault::AlreadyHeld);
    }
    Ok(admit(arena, thread, key, mode)?)
}

/// Gives a thread a key that nobody holds or waits for.
pub(crate) fn give_fresh(arena: &mut Arena, thread: u16, key: Key) -> Result<(), AllocError>
    requires thread { thread < length arena.old.held }
    requires kept { IsKept arena.old }
    requires holders { (entry_of key arena.old.entries).holders ≡ [] }
    requires waiters { (entry_of key arena.old.entries).waiters ≡ [] }
    ensures ok { OnOk result (IsAnswered Granted thread key Exclusive arena.old arena.new) }
    ensures spare { OnOk result (arena.new.spare ≡ arena.old.spare - 1) }
    ensures kept { IsKept arena.new }
    ensures err { OnErr result (arena.new ≡ arena.old) }
{
    let at = arena.number_of(key);
    arena.prepare(key, at)?;
    arena.add_holder(thread, Mode::Exclusive, key, at);
    Ok(())
}
