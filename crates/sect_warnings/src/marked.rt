//! Sections that are marked `all`, and what they would take without the mark.

ghost use Rattle.std.specs.{Prelude.{◌≡◌, ◌<◌, ◌↔◌, length, IsTrue, IfOk}, String.{string_bytes}};
ghost use Rattle.sect_types.specs.Sections.{sections_of};
ghost use Rattle.sect_warnings.specs.{Warnings.{IsDueOf}, Labels.{IsLabelOf}};

use crate::warning::Finding;
use sect_emit::Compiled;
use sect_front::Locking;
use sect_infer::infer_unmarked;
use sect_names::{Lock, put_locks};
use std::alloc::{AllocError, Global};

/// Whether there is one lock, and no other.
fn is_one(locks: &[Lock]) -> bool
    ensures { IsTrue result ↔ (length locks.now ≡ 1) }
{
    locks.len() == 1
}

/// Whether a section is marked `all`, and would take one lock without the mark.
pub fn takes_all_for_one(
    alloc: Global,
    compiled: &Compiled,
    section: u16,
) -> Result<bool, AllocError>
    requires { section < length (sections_of compiled.now.scheme.program.texts) }
    ensures { IfOk result (λ takes. IsTrue takes ↔ IsDueOf compiled.now section Finding.AllForOne) }
{
    compiled.facts();
    let scheme = compiled.scheme();
    match scheme.program().locking(section) {
        Locking::Inferred => Ok(false),
        Locking::All => {
            let locks = infer_unmarked(alloc, scheme, section)?;
            Ok(is_one(locks.entry()))
        }
    }
}

/// What is said of a section that takes all for one lock.
pub fn would_take(alloc: Global, compiled: &Compiled, section: u16) -> Result<String, AllocError>
    requires { IsDueOf compiled.now section Finding.AllForOne }
    ensures { IfOk result (λ label. IsLabelOf compiled.now section (string_bytes label)) }
{
    compiled.facts();
    let scheme = compiled.scheme();
    let locks = infer_unmarked(alloc, scheme, section)?;
    let mut text = String::new(alloc);
    text.push_str("without `all` it would take `")?;
    put_locks(&mut text, scheme.program(), locks.entry())?;
    text.push_str("`")?;
    Ok(text)
}
