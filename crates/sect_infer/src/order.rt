//! Numbers in the canonical order of their locks.

ghost use Rattle.std.specs.Prelude.{◌≡◌, ◌<◌, Some, map, slice_get, IfOk};
ghost use Rattle.sect_lemmas.specs.Lists.{Has};
ghost use Rattle.sect_infer.specs.{Numbers.{AreApart}, Numberings.{AreNumbers, IsOrderOf}};
ghost use Rattle.sect_infer.specs.declared.order.NumberedLock.{NumberedLock};

use crate::numbering::Numbering;
use sect_names::Lock;
use std::alloc::{AllocError, Global};

/// A lock and its number. They are in the canonical order of their locks.
#[derive(Clone, Copy, PartialEq, Eq, PartialOrd, Ord)]
struct NumberedLock<'a> {
    lock: &'a Lock,
    number: usize,
}

/// These numbers, each with its lock.
fn with_locks<'a>(
    alloc: Global,
    numbering: &'a Numbering,
    numbers: &[usize],
) -> Result<Vec<NumberedLock<'a>>, AllocError>
    requires { AreNumbers numbering.now.keys numbers.now }
    ensures numbers { IfOk result (λ locks. map (λ (x : NumberedLock). x.number) locks.items ≡ numbers.now) }
    ensures locks { IfOk result (λ locks. (x : NumberedLock) → Has locks.items x
        → slice_get numbering.now.keys x.number ≡ Some x.lock.now) }
{
    let mut locks = Vec::with_capacity(alloc, numbers.len())?;
    for number in numbers {
        locks.push(NumberedLock {
            lock: numbering.lock(*number),
            number: *number,
        })?;
    }
    Ok(locks)
}

/// The numbers of these locks.
fn numbers_of(alloc: Global, locks: &[NumberedLock<'_>]) -> Result<Vec<usize>, AllocError>
    ensures { IfOk result (λ numbers. numbers.items ≡ map (λ (x : NumberedLock). x.number) locks.now) }
{
    let mut numbers = Vec::with_capacity(alloc, locks.len())?;
    for lock in locks {
        numbers.push(lock.number)?;
    }
    Ok(numbers)
}

/// These numbers, of which no two are one, in the canonical order of their locks. `AllocError` is answered only where a
/// growth was refused.
pub fn in_order(
    alloc: Global,
    numbering: &Numbering,
    numbers: &[usize],
) -> Result<Vec<usize>, AllocError>
    requires apart { AreApart numbering.now.keys }
    requires once { AreApart numbers.now }
    requires numbers { AreNumbers numbering.now.keys numbers.now }
    ensures { IfOk result (λ order. IsOrderOf numbering.now.keys numbers.now order.items) }
{
    let mut locks = with_locks(alloc, numbering, numbers)?;
    locks.sort()?;
    numbers_of(alloc, locks.as_slice())
}
