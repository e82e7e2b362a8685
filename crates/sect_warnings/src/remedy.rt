//! What a lock on a whole class means, and whether longer paths would spare a section it.

ghost use Rattle.std.specs.{Prelude.{◌≡◌, ◌++◌, List, ℕ, IfOk, IfSome, OnOk}, String.{string_bytes}};
ghost use Rattle.sect_emit.specs.Compiled.{IsCompiledFrom};
ghost use Rattle.sect_warnings.specs.{ClassLocks.{class_lock}, Remedies.{IsDeepSaid}};
ghost use Rattle.sect_warnings.specs.steps.Trials.{IsBareNote};

use crate::class_mark::ClassLock;
use crate::outcome::put_outcome;
use crate::warning::Finding;
use sect_emit::{Compiled, compile};
use sect_names::MOST_PATH_FIELDS;
use sect_places::NameSpan;
use std::alloc::{AllocError, Global};

/// A source text that is accepted, its names, and its compiled program.
#[derive(Clone, Copy)]
pub struct Accepted<'a> {
    pub source: &'a [u8],
    pub names: &'a [NameSpan],
    pub compiled: &'a Compiled,
}

/// A section, and the class lock that it takes.
#[derive(Clone, Copy)]
pub struct ClassWarning {
    pub section: u16,
    pub lock: ClassLock,
}

/// The compiled program of a text that is accepted, for paths of the most fields that there are: the one that is kept,
/// if there is one. Such a text is accepted whatever k is, so it fails only where memory runs out.
fn deepest(alloc: Global, source: &[u8], kept: Option<Compiled>) -> Result<Compiled, AllocError>
    requires { IfSome kept (IsCompiledFrom source.now 3) }
    ensures { IfOk result (IsCompiledFrom source.now 3) }
{
    match kept {
        Some(deep) => Ok(deep),
        None => match compile(alloc, source, MOST_PATH_FIELDS) {
            Ok(deep) => Ok(deep),
            Err(_) => Err(AllocError),
        },
    }
}

/// Adds what paths of the most fields come to, where paths may have more. `kept` has the program that was compiled for
/// that, or will have it.
fn put_deep(
    alloc: Global,
    text: &mut String,
    accepted: Accepted<'_>,
    kept: &mut Option<Compiled>,
    of: ClassWarning,
) -> Result<(), AllocError>
    requires kept { IfSome kept.old (IsCompiledFrom accepted.source.now 3) }
    ensures said { OnOk result ((said : List ℕ) × IsDeepSaid accepted.entry.source.now accepted.entry.compiled.now
        of.section (class_lock of.lock.class of.lock.effect) said
        × (string_bytes text.new ≡ string_bytes text.old ++ said)) }
    ensures kept { IfSome kept.new (IsCompiledFrom accepted.entry.source.now 3) }
{
    accepted.compiled.facts();
    if accepted.compiled.scheme().k() >= MOST_PATH_FIELDS {
        return Ok(());
    }
    let deep = deepest(alloc, accepted.source, kept.take())?;
    text.push_str("; `--k 3`")?;
    put_outcome(text, &deep, of.section, of.lock)?;
    *kept = Some(deep);
    Ok(())
}

/// What a class lock of a section means, and what paths of the most fields come to.
pub fn class_note(
    alloc: Global,
    accepted: Accepted<'_>,
    kept: &mut Option<Compiled>,
    of: ClassWarning,
) -> Result<String, AllocError>
    requires { IfSome kept.old (IsCompiledFrom accepted.source.now 3) }
    ensures note { IfOk result (λ text. IsBareNote accepted.entry.source.now accepted.entry.compiled.now of.section
        (class_lock of.lock.class of.lock.effect) (string_bytes text)) }
    ensures kept { IfSome kept.new (IsCompiledFrom accepted.entry.source.now 3) }
{
    let ClassLock { class, effect } = of.lock;
    let mut text = String::from_str(alloc, Finding::ClassLock { class, effect }.note())?;
    put_deep(alloc, &mut text, accepted, kept, of)?;
    Ok(text)
}
