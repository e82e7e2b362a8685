//! The locks of a certificate, by the program's numbers.

ghost use Rattle.std.specs.{Prelude.{◌≡◌, ◌≤◌, MatchOption, Some, IsTrue, ◌↔◌}, Option.{option_map}};
ghost use Rattle.sect_lemmas.specs.Lists.{Has};
ghost use Rattle.sect_names.specs.Locks.{depth, IsClassed, IsLockOf};
ghost use Rattle.sect_check.specs.Names.{path_named as path_by, Denotes};
ghost use Rattle.sect_check.specs.steps.Resolving.{Finds, Resolves};
ghost use Rattle.sect_names.specs.declared.lock.Lock.TheVariants as lock;

use crate::names::{field_named, record_of_field, record_of_variable};
use crate::naming::Naming;
use crate::unresolved::Unresolved;
use sect_cert::{CertLock, CertPath};
use sect_names::{Effect, Lock, Path, Right, Scheme};
use sect_types::MOST_SITES;
use std::alloc::Global;

/// The path of these names.
fn path_named(alloc: Global, naming: &Naming, named: &CertPath) -> Result<Path, Unresolved>
    ensures { Finds result (path_by naming.now.scheme.program naming.now.thread named.now) }
{
    let program = naming.scheme().program();
    let variable = naming.base_named(named.base).ok_or(Unresolved::Wrong)?;
    let mut path = Path::new(alloc, variable);
    let mut reached = record_of_variable(program, variable);
    for name in named.fields.as_slice() {
        let of = reached.ok_or(Unresolved::Wrong)?;
        let field = field_named(program, of, name).ok_or(Unresolved::Wrong)?;
        path.push(field)?;
        reached = record_of_field(program, field);
    }
    match reached {
        Some(_) => Ok(path),
        None => Err(Unresolved::Wrong),
    }
}

/// Whether a path has at most k fields and a class.
fn is_offered(scheme: &Scheme, path: &Path) -> bool
    ensures { IsTrue result ↔ ((depth path.now ≤ scheme.now.most) × IsClassed scheme.now path.now) }
{
    path.fields().len() <= scheme.k() as usize && scheme.class_of(path).is_some()
}

/// The lock with this effect on the path of these names.
fn path_lock(
    alloc: Global,
    naming: &Naming,
    named: &CertPath,
    effect: Effect,
) -> Result<Lock, Unresolved>
    ensures { Resolves result (λ m.
        (option_map (λ x. lock.Path x effect) (path_by naming.now.scheme.program naming.now.thread named.now) ≡ Some m)
        × IsLockOf naming.now.scheme naming.now.thread m) }
{
    let path = path_named(alloc, naming, named)?;
    if !is_offered(naming.scheme(), &path) {
        return Err(Unresolved::Wrong);
    }
    Ok(Lock::Path(path, effect))
}

/// The class of this number, if a site has it. The search ends at its first site.
fn class_in(numbers: &[u16], class: u16) -> Option<u16>
    ensures { MatchOption result (Has numbers.now class → ⊥) (λ found. (found ≡ class) × Has numbers.now found) }
{
    if numbers.contains(&class) {
        Some(class)
    } else {
        None
    }
}

/// The class of this number.
fn class_of(scheme: &Scheme, number: u32) -> Option<u16>
    ensures { MatchOption result (Has scheme.now.classes.numbers number → ⊥)
        (λ class. (class ≡ number) × Has scheme.now.classes.numbers number) }
{
    if number < MOST_SITES as u32 {
        class_in(scheme.classes().numbers(), number as u16)
    } else {
        let _facts = scheme.classes().class_count();
        None
    }
}

/// The lock with this right on the class of this number.
fn class_lock(naming: &Naming, number: u32, right: Right) -> Result<Lock, Unresolved>
    ensures { Resolves result (λ m.
        (Some (lock.Class number right) ≡ Some m) × IsLockOf naming.now.scheme naming.now.thread m) }
{
    match class_of(naming.scheme(), number) {
        Some(class) => Ok(Lock::Class(class, right)),
        None => Err(Unresolved::Wrong),
    }
}

/// The lock that a certificate names.
pub fn lock_of(alloc: Global, naming: &Naming, named: &CertLock) -> Result<Lock, Unresolved>
    ensures { Resolves result (Denotes naming.now.scheme naming.now.thread named.now) }
{
    match named {
        CertLock::WriteAll => Ok(Lock::All),
        CertLock::ReadPath(path) => path_lock(alloc, naming, path.path(), Effect::Read),
        CertLock::WritePath(path) => path_lock(alloc, naming, path.path(), Effect::Write),
        CertLock::ReadClass(number) => class_lock(naming, *number, Right::Read),
        CertLock::WriteClass(number) => class_lock(naming, *number, Right::Write),
        CertLock::MakeClass(number) => class_lock(naming, *number, Right::Make),
    }
}
