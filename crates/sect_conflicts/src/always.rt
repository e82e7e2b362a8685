//! What a section asks for in every state.

ghost use Rattle.std.specs.Prelude.{◌≡◌, ◌&&◌, ◌∷◌, [], ◌++◌, ℕ, List, not, false, IfOk, OnOk, IfSome, IfNone};
ghost use Rattle.sect_lemmas.specs.Lists.{Has};
ghost use Rattle.sect_points.specs.{declared.holders.Variable.TheVariants.{Global as GlobalOf}, Paths.{var}};
ghost use Rattle.sect_modes.specs.{Key.{is_same_key}, Mode.{are_compatible}};
ghost use Rattle.sect_emit.specs.{declared.plan.Grip.{Grip as GripOf}, Plan.{grip, gathered, Ascends}};
ghost use Rattle.sect_conflicts.specs.Conflicts.{Clash};
ghost use Rattle.sect_conflicts.specs.steps.Steady.{global_wishes, steady_of, IsFirstIn};

use crate::conflict::KeyClash;
use sect_emit::{Grip, add_grip, object_mode};
use sect_modes::{Key, Mode, compatible, is_same};
use sect_names::{Lock, Path};
use sect_points::Variable;
use std::alloc::{AllocError, Global};

/// The global that a path names, if it has no fields.
fn named_global(path: &Path) -> Option<u16>
    ensures some { IfSome result (λ g. path.now ≡ var (GlobalOf g)) }
    ensures none { IfNone result ((g : ℕ) → path.now ≡ var (GlobalOf g) → ⊥) }
{
    let base = path.base();
    if !path.is_variable(base) {
        return None;
    }
    match base {
        Variable::Global(global) => Some(global),
        Variable::Local(_, _) => None,
    }
}

/// Adds the global that a lock names, if it names one.
fn add_global(globals: &mut Vec<Grip>, lock: &Lock) -> Result<(), AllocError>
    ensures { OnOk result ((wishes : List GripOf) → globals.old.items ≡ gathered wishes
        → globals.new.items ≡ gathered (global_wishes (lock.now ∷ []) ++ wishes)) }
{
    let Lock::Path(path, effect) = lock else {
        return Ok(());
    };
    match named_global(path) {
        Some(global) => add_grip(
            globals,
            Grip {
                key: Key::Global(global),
                mode: object_mode(*effect),
            },
        ),
        None => Ok(()),
    }
}

/// The globals that a lock set names, each with its mode, in key order.
fn globals_of(alloc: Global, locks: &[Lock]) -> Result<Vec<Grip>, AllocError>
    ensures { IfOk result (λ globals. globals.items ≡ gathered (global_wishes locks.now)) }
{
    let mut globals = Vec::new(alloc);
    for place in (0..locks.len()).rev() {
        add_global(&mut globals, &locks[place])?;
    }
    Ok(globals)
}

/// What a lock set with this fixed part asks for in every state, in key order.
pub fn always_asked(alloc: Global, part: &[Grip], locks: &[Lock]) -> Result<Vec<Grip>, AllocError>
    ensures { IfOk result (λ asked. asked.items ≡ steady_of part.now locks.now) }
{
    let globals = globals_of(alloc, locks)?;
    let mut asked = Vec::from_slice(alloc, part)?;
    asked.extend_from_slice(globals.as_slice())?;
    Ok(asked)
}

/// Whether two wishes are for one key, in modes that aren't compatible.
fn clashes(wish: Grip, other: Grip) -> bool
    ensures { result ≡ (is_same_key wish.key other.key && not (are_compatible wish.mode other.mode)) }
{
    is_same(wish.key, other.key) && !compatible(wish.mode, other.mode)
}

/// The mode in which a list has the key of a wish, if that isn't compatible with the wish's mode.
pub fn mode_against(wish: Grip, others: &[Grip]) -> Option<Mode>
    ensures some { IfSome result (λ n. Has others.now (grip wish.key n) × (are_compatible wish.mode n ≡ false)) }
    ensures none { IfNone result ((y : GripOf) → Has others.now y → wish.key ≡ y.key
        → are_compatible wish.mode y.mode ≡ false → ⊥) }
{
    for other in others {
        if clashes(wish, *other) {
            return Some(other.mode);
        }
    }
    None
}

/// The first key that stands in both lists in modes that aren't compatible.
pub fn first_clash(wishes: &[Grip], others: &[Grip]) -> Option<KeyClash>
    requires { Ascends wishes.now }
    ensures some { IfSome result (IsFirstIn wishes.now others.now) }
    ensures none { IfNone result (Clash wishes.now others.now → ⊥) }
{
    for wish in wishes {
        if let Some(mode) = mode_against(*wish, others) {
            return Some(KeyClash {
                key: wish.key,
                first: wish.mode,
                second: mode,
            });
        }
    }
    None
}
