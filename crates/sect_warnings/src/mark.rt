//! What is marked for a warning, what is said of it, and what it means.

ghost use Rattle.std.specs.Prelude.{◌≡◌, ◌<◌, ℕ, Option, None, IfOk, IfSome, length, map};
ghost use Rattle.sect_lemmas.specs.Lists.{Has};
ghost use Rattle.sect_types.specs.Items.{items};
ghost use Rattle.sect_places.specs.{NodeOrigins.{AreOrigins}, Spans.{AreProper}};
ghost use Rattle.sect_emit.specs.Compiled.{IsCompiledFrom};
ghost use Rattle.sect_conflicts.specs.Conflicts.{set_at};
ghost use Rattle.sect_warnings.specs.{ClassLocks.{class_lock}, Warnings.{IsDue}};
ghost use Rattle.sect_warnings.specs.steps.{Reasons.{AreReasons}, Trials.{IsBareClass, IsBareMark}};
ghost use Rattle.sect_warnings.specs.steps.Trials.{trial_of as trial_by};

use crate::apart_mark::apart_text;
use crate::class_mark::{ClassLock, Need, need_of};
use crate::lost_mark::lost_text;
use crate::marked::would_take;
use crate::reasons::{Reasons, reasons_of};
use crate::remedy::{Accepted, ClassWarning, class_note};
use crate::trials::Trial;
use crate::warning::{Finding, Warning};
use sect_emit::Compiled;
use sect_places::NodeOrigins;
use std::alloc::{AllocError, Global};
use std::marker::Model;

/// The item whose bytes are marked, what is said of them, what it means, and which hint is to be tried for it; nothing
/// is said by an empty text. What the hint comes to stands behind the note.
#[derive(Drop)]
pub struct Mark {
    pub item: usize,
    pub label: String,
    pub note: String,
    pub trial: Option<Trial>,
}

impl Model for Mark {
    ghost use Rattle.std.specs.String.{string_bytes};
    ghost use Rattle.sect_warnings.specs.steps.Trials.{BareView};

    ghost Value = { BareView };

    ghost view = { λ m. record {
      item = m.item;
      label = string_bytes m.label;
      note = string_bytes m.note;
      trial = m.trial;
    } };
}

/// What was found for one warning, and is kept for the next: the chains of a section, and the program compiled for
/// paths of the most fields.
#[derive(Drop)]
pub struct Kept {
    reasons: Option<Reasons>,
    deep: Option<Compiled>,
}

impl Kept {
    /// Nothing yet.
    pub fn new() -> Kept
        ensures reasons { result.reasons ≡ None }
        ensures deep { result.deep ≡ None }
    {
        Kept {
            reasons: None,
            deep: None,
        }
    }
}

/// The hint of a record that is to be tried for a class lock, if that is of any.
fn trial_of(of: ClassWarning, guarded: Option<u16>) -> Option<Trial>
    ensures { result ≡ trial_by of.section of.lock.class of.lock.effect guarded }
{
    match guarded {
        Some(guarded) => Some(Trial {
            of,
            guarded: guarded as usize,
        }),
        None => None,
    }
}

/// What is marked for a class lock that a section takes.
fn class_mark(
    alloc: Global,
    accepted: Accepted<'_>,
    origins: &NodeOrigins,
    kept: &mut Kept,
    of: ClassWarning,
) -> Result<Mark, AllocError>
    requires taken { Has (set_at accepted.compiled.now of.section) (class_lock of.lock.class of.lock.effect) }
    requires origins { AreOrigins accepted.compiled.now.scheme.program origins.now }
    requires reasons { IfSome kept.old.reasons (AreReasons accepted.compiled.now) }
    requires deep { IfSome kept.old.deep (IsCompiledFrom accepted.source.now 3) }
    ensures marks { IfOk result (IsBareClass accepted.entry.source.now accepted.entry.compiled.now of) }
    ensures within { IfOk result (λ m. m.item < length (items accepted.entry.compiled.now.scheme.program.source)) }
    ensures reasons { IfSome kept.new.reasons (AreReasons accepted.entry.compiled.now) }
    ensures deep { IfSome kept.new.deep (IsCompiledFrom accepted.entry.source.now 3) }
{
    accepted.compiled.facts();
    let reasons = reasons_of(alloc, accepted.compiled, of.section, kept.reasons.take())?;
    let Need {
        item,
        label,
        guarded,
    } = need_of(alloc, accepted.compiled, origins, &reasons, of.lock)?;
    kept.reasons = Some(reasons);
    let note = class_note(alloc, accepted, &mut kept.deep, of)?;
    Ok(Mark {
        item,
        label,
        note,
        trial: trial_of(of, guarded),
    })
}

/// What is marked for a warning, but for what a hint comes to. `kept` has what was found for the warning before.
pub fn mark_of(
    alloc: Global,
    accepted: Accepted<'_>,
    origins: &NodeOrigins,
    kept: &mut Kept,
    warning: Warning,
) -> Result<Mark, AllocError>
    requires due { IsDue accepted.compiled.now warning }
    requires item { warning.item < length (items accepted.compiled.now.scheme.program.source) }
    requires names { AreProper (length accepted.source.now) (map (λ n. n.span) accepted.names.now) }
    requires origins { AreOrigins accepted.compiled.now.scheme.program origins.now }
    requires reasons { IfSome kept.old.reasons (AreReasons accepted.compiled.now) }
    requires deep { IfSome kept.old.deep (IsCompiledFrom accepted.source.now 3) }
    ensures marks { IfOk result (IsBareMark accepted.entry.source.now accepted.entry.names.now
        accepted.entry.compiled.now warning) }
    ensures within { IfOk result (λ m. m.item < length (items accepted.entry.compiled.now.scheme.program.source)) }
    ensures reasons { IfSome kept.new.reasons (AreReasons accepted.entry.compiled.now) }
    ensures deep { IfSome kept.new.deep (IsCompiledFrom accepted.entry.source.now 3) }
{
    let Warning {
        section,
        finding,
        item,
    } = warning;
    let label = match finding {
        Finding::ClassLock { class, effect } => {
            let lock = ClassLock { class, effect };
            return class_mark(
                alloc,
                accepted,
                origins,
                kept,
                ClassWarning { section, lock },
            );
        }
        Finding::AllForOne => would_take(alloc, accepted.compiled, section)?,
        Finding::NoCommonField { other } => {
            apart_text(alloc, accepted.compiled, section, other)?
        }
        Finding::LostUpdate(update) => lost_text(alloc, accepted, update)?,
        Finding::NoLock | Finding::NeverFilled { .. } => String::new(alloc),
    };
    let note = String::from_str(alloc, finding.note())?;
    Ok(Mark {
        item,
        label,
        note,
        trial: None,
    })
}
