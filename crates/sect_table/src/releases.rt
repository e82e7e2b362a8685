//! Giving keys back.

ghost use Rattle.std.specs.Prelude.{◌≡◌, ◌+◌, ◌<◌, ◌≤◌, ◌++◌, [], length, map, false, vec_len, vec_capacity};
ghost use Rattle.sect_table.specs.Contents.{number_of, entry_of, put, held_by, is_waiting, let_in as let_in_entry};
ghost use Rattle.sect_table.specs.Contents.{let_through, give_all, grant_of, released};
ghost use Rattle.sect_table.specs.Sound.{IsSound, IsKept, IsFirstBlocked, waiting_count};

use crate::arena::Arena;
use crate::claims::Grant;
use sect_modes::Key;

/// The first waiters of a key come to hold it, as far as the holders let them.
fn let_in(arena: &mut Arena, grants: &mut Vec<Grant>, key: Key, at: usize)
    requires sound { IsSound arena.old }
    requires number { at ≡ number_of key arena.old.entries }
    requires known { at < length arena.old.entries }
    requires room { vec_len grants.old + waiting_count arena.old.entries ≤ vec_capacity grants.old }
    ensures sound { IsSound arena.new }
    ensures blocked { IsFirstBlocked (entry_of key arena.new.entries).holders (entry_of key arena.new.entries).waiters }
    ensures held { arena.new.held ≡
        give_all key (let_through (entry_of key arena.old.entries).holders
        (entry_of key arena.old.entries).waiters) arena.old.held }
    ensures entries { arena.new.entries ≡ put (let_in_entry (entry_of key arena.old.entries)) arena.old.entries }
    ensures spare { arena.new.spare ≡ arena.old.spare }
    ensures grants { grants.new.items ≡
        grants.old.items ++ map (grant_of key) (let_through (entry_of key arena.old.entries).holders
        (entry_of key arena.old.entries).waiters) }
    ensures few { vec_len grants.new + waiting_count arena.new.entries ≤
        vec_len grants.old + waiting_count arena.old.entries }
    ensures capacity { vec_capacity grants.new ≡ vec_capacity grants.old }
{
    while let Some(waiter) = arena.first_waiter(key, at) {
        if !arena.lets_in(waiter.thread, waiter.mode, key, at) {
            break;
        }
        grants.push_reserved(arena.grant_first(key, at));
    }
}

/// Gives all keys of a thread back, and lets in who waited for them.
pub(crate) fn release_all(arena: &mut Arena, grants: &mut Vec<Grant>, thread: u16)
    requires thread { thread < length arena.old.held }
    requires waits { is_waiting thread arena.old ≡ false }
    requires kept { IsKept arena.old }
    requires room { length arena.old.held ≤ vec_capacity grants.old }
    ensures emptied { held_by arena.new thread ≡ [] }
    ensures held { arena.new.held ≡ (released thread arena.old).held }
    ensures entries { arena.new.entries ≡ (released thread arena.old).entries }
    ensures spare { arena.new.spare ≡ arena.old.spare + length (held_by arena.old thread) }
    ensures grants { grants.new.items ≡ (released thread arena.old).grants }
    ensures few { length grants.new.items ≤ length arena.new.held }
    ensures kept { IsKept arena.new }
    ensures capacity { vec_capacity grants.new ≡ vec_capacity grants.old }
{
    grants.clear();
    while let Some(hold) = arena.first_held(thread) {
        let at = arena.first_number(thread);
        arena.release_first(thread, hold.key, at);
        let_in(arena, grants, hold.key, at);
    }
}
