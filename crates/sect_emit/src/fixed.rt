//! The part of a section's plan that is the same in all states.

ghost use Rattle.std.specs.Prelude.{◌≡◌, IfOk, OnOk};
ghost use Rattle.sect_lemmas.specs.Lists.{Has};
ghost use Rattle.sect_modes.specs.Mode.{intention_of};
ghost use Rattle.sect_names.specs.declared.lock.Lock.{Lock};
ghost use Rattle.sect_emit.specs.Plan.{grip as grip_of, with_grip, IsFixedPart, class_mode as mode_of_class};
ghost use Rattle.sect_emit.specs.Plan.{intended as mode_intended};
ghost use Rattle.sect_emit.specs.steps.Wishes.{HasWishes, IsClassedLock};
ghost use Rattle.sect_modes.specs.declared.key.Key.TheVariants as key;

use crate::plan::Grip;
use sect_modes::{Key, Mode, intention, is_below, is_same, join};
use sect_names::{Effect, Lock, Right, Scheme};
use std::alloc::{AllocError, Global};

/// Adds a key to an ascending list; a key that is there already gets the join of both modes.
pub fn add_grip(grips: &mut Vec<Grip>, wish: Grip) -> Result<(), AllocError>
    ensures { OnOk result (grips.new.items ≡ with_grip wish grips.old.items) }
{
    for place in 0..grips.len() {
        let held = grips[place];
        if is_same(wish.key, held.key) {
            grips[place] = Grip {
                key: held.key,
                mode: join(wish.mode, held.mode),
            };
            return Ok(());
        }
        if is_below(wish.key, held.key) {
            grips.insert(place, wish)?;
            return Ok(());
        }
    }
    grips.push(wish)?;
    Ok(())
}

/// A key in a mode.
fn grip(key: Key, mode: Mode) -> Grip
    ensures { result ≡ grip_of key mode }
{
    Grip { key, mode }
}

/// The mode of a class for a lock on it.
fn class_mode(right: Right) -> Mode
    ensures { result ≡ mode_of_class right }
{
    match right {
        Right::Read => Mode::Shared,
        Right::Write => Mode::Exclusive,
        Right::Make => Mode::IntentionExclusive,
    }
}

/// The mode of a class for a lock on one of its objects.
fn intended(effect: Effect) -> Mode
    ensures { result ≡ mode_intended effect }
{
    match effect {
        Effect::Read => Mode::IntentionShared,
        Effect::Write => Mode::IntentionExclusive,
    }
}

/// Adds a class in this mode, and the key of all objects in the mode's intention.
fn add_class(part: &mut Vec<Grip>, class: u16, mode: Mode) -> Result<(), AllocError>
    ensures { OnOk result (part.new.items ≡ with_grip (grip_of key.All (intention_of mode))
        (with_grip (grip_of (key.Class class) mode) part.old.items)) }
{
    add_grip(part, grip(Key::Class(class), mode))?;
    add_grip(part, grip(Key::All, intention(mode)))
}

/// Adds the keys that a lock asks for whatever the state.
fn add_lock(part: &mut Vec<Grip>, scheme: &Scheme, lock: &Lock) -> Result<(), AllocError>
    requires { IsClassedLock scheme.now lock.now }
    ensures { OnOk result (HasWishes scheme.now lock.now part.old.items part.new.items) }
{
    match lock {
        Lock::All => add_grip(part, grip(Key::All, Mode::Exclusive)),
        Lock::Class(class, right) => add_class(part, *class, class_mode(*right)),
        Lock::Path(path, effect) => {
            let class = scheme.class_of(path).unwrap();
            add_class(part, class, intended(*effect))
        }
    }
}

/// The fixed part of the plan of a lock set.
pub fn fixed_part(alloc: Global, scheme: &Scheme, locks: &[Lock]) -> Result<Vec<Grip>, AllocError>
    requires { (l : Lock) → Has locks.now l → IsClassedLock scheme.now l }
    ensures { IfOk result (λ part. IsFixedPart scheme.now locks.now part.items) }
{
    let mut part = Vec::new(alloc);
    for place in (0..locks.len()).rev() {
        add_lock(&mut part, scheme, &locks[place])?;
    }
    Ok(part)
}
