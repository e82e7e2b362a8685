//! Who waits for what.

ghost use Rattle.std.specs.{Prelude.{◌≡◌, ◌<◌, ◌++◌, length, Some, OnOk}, List.{flat_map}, String.{string_bytes}};
ghost use Rattle.sect_emit.specs.{declared.plan.Grip.{Grip as Wish}, Compiled.{program_of}, Labels.{thread_name}};
ghost use Rattle.sect_world.specs.Sights.{first_wish, mode_of};
ghost use Rattle.sect_draw.specs.Waits.{waiting_after, ahead_of, against_text, behind_text, holders_text, wait_text};

use crate::words::put_key;
use sect_emit::{Grip, put_thread_name};
use sect_modes::{Key, compatible, is_same};
use sect_world::{Turned, World};
use std::alloc::AllocError;
use std::fmt::Write;

/// Notes who waits after a turn. `waiting` has the threads that wait, in the order in which they began to, and `let_in`
/// those that the turn has let in.
pub fn note_turn(
    waiting: &mut Vec<u16>,
    thread: u16,
    turned: Turned,
    let_in: &[u16],
) -> Result<(), AllocError>
    ensures { OnOk result (waiting.new.items ≡ waiting_after thread turned let_in.now waiting.old.items) }
{
    match turned {
        Turned::Moved(_) => waiting.retain(|waiter| !let_in.contains(waiter)),
        Turned::Waits => {
            if !waiting.contains(&thread) {
                waiting.push(thread)?;
            }
        }
        Turned::Ended => {}
    }
    Ok(())
}

/// Adds for what a thread waits: the key that it wants first with the mode, each thread that holds the key in a mode
/// that isn't compatible, and each that began to wait for it before.
pub fn put_wait(
    text: &mut String,
    world: &World<'_>,
    thread: u16,
    waiting: &[u16],
) -> Result<(), AllocError>
    requires { (wish : Wish) × (first_wish world.now.state thread ≡ Some wish) }
    ensures { OnOk result (string_bytes text.new ≡ string_bytes text.old
        ++ wait_text (program_of world.now.compiled) world.now.state thread waiting.now) }
{
    let Some(wish) = world.first_wish(thread) else {
        unreachable!()
    };
    text.push_str("waits for ")?;
    put_key(text, world.program(), wish.key)?;
    write!(text, ": wants {}", wish.mode)?;
    put_holders(text, world, wish)?;
    put_ahead(text, world, thread, wish.key, waiting)
}

/// Adds each thread that holds the wanted key in a mode that isn't compatible.
fn put_holders(text: &mut String, world: &World<'_>, wish: Grip) -> Result<(), AllocError>
    ensures { OnOk result (string_bytes text.new ≡ string_bytes text.old
        ++ holders_text (program_of world.now.compiled) wish world.now.state) }
{
    for holder in 0..world.thread_count() {
        put_holder(text, world, holder, wish)?;
    }
    Ok(())
}

/// Adds a thread, if it holds the wanted key in a mode that isn't compatible.
fn put_holder(
    text: &mut String,
    world: &World<'_>,
    holder: u16,
    wish: Grip,
) -> Result<(), AllocError>
    requires state { holder < length world.now.state.threads }
    requires text { holder < length (program_of world.now.compiled).texts }
    ensures { OnOk result (string_bytes text.new ≡ string_bytes text.old
        ++ against_text (thread_name (program_of world.now.compiled).source holder)
        (mode_of world.now.state holder wish.key) wish.mode) }
{
    let Some(mode) = world.held(holder, wish.key) else {
        return Ok(());
    };
    if compatible(mode, wish.mode) {
        return Ok(());
    }
    text.push_str(", ")?;
    put_thread_name(text, world.program(), holder)?;
    Ok(write!(text, " holds {mode}")?)
}

/// Adds each thread that began to wait before this one and wants this key.
fn put_ahead(
    text: &mut String,
    world: &World<'_>,
    thread: u16,
    key: Key,
    waiting: &[u16],
) -> Result<(), AllocError>
    ensures { OnOk result (string_bytes text.new ≡ string_bytes text.old
        ++ flat_map (behind_text (program_of world.now.compiled) world.now.state key)
        (ahead_of thread waiting.now)) }
{
    for waiter in waiting {
        if *waiter == thread {
            return Ok(());
        }
        put_waiter(text, world, *waiter, key)?;
    }
    Ok(())
}

/// Adds a thread that waits, if it wants this key first.
fn put_waiter(text: &mut String, world: &World<'_>, waiter: u16, key: Key) -> Result<(), AllocError>
    ensures { OnOk result (string_bytes text.new ≡ string_bytes text.old
        ++ behind_text (program_of world.now.compiled) world.now.state key waiter) }
{
    let _count = world.thread_count();
    let Some(wish) = world.first_wish(waiter) else {
        return Ok(());
    };
    if !is_same(wish.key, key) {
        return Ok(());
    }
    text.push_str(", behind ")?;
    put_thread_name(text, world.program(), waiter)
}
