//! Hints that would spare sections their class locks: that of each record is tried once, for all locks that it may
//! spare.

ghost use Rattle.std.specs.Prelude.{◌≡◌, ◌++◌, ℕ, List, is_some, length, IfOk, OnOk};
ghost use Rattle.std.specs.{List.{list_any}, String.{string_bytes}};
ghost use Rattle.sect_places.specs.NameSpans.{AreNameSpans};
ghost use Rattle.sect_warnings.specs.{Hinting.{hint_words}, Outcomes.{IsOutcome}, ClassLocks.{class_lock}};
ghost use Rattle.sect_warnings.specs.steps.Trials.{sought as sought_by, AreNoted, IsAdded, IsTriedFor, IsTrialSaid};
ghost use Rattle.sect_warnings.specs.steps.Trials.{with_note};

use crate::hinting::{TriedHint, tried_hint};
use crate::placed::Placed;
use crate::remedy::{Accepted, ClassWarning};
use std::alloc::{AllocError, Global};

/// A class lock that a section takes, and the record whose hint may spare the section that lock.
#[derive(Clone, Copy)]
pub struct Trial {
    pub of: ClassWarning,
    pub guarded: usize,
}

/// The class lock for which a record's hint is to be tried, if this trial is one of that record.
fn sought(trial: Option<Trial>, guarded: usize) -> Option<ClassWarning>
    ensures { result ≡ sought_by guarded trial }
{
    match trial {
        Some(trial) if trial.guarded == guarded => Some(trial.of),
        _ => None,
    }
}

/// Whether a record's hint is to be tried for any lock.
fn is_sought(trials: &[Option<Trial>], guarded: usize) -> bool
    ensures { result ≡ list_any (λ t. is_some (sought_by guarded t)) trials.now }
{
    trials.iter().any(|trial| sought(*trial, guarded).is_some())
}

/// Adds what a record's hint comes to, which was tried, to the note of a warning, if it was tried for that.
fn put_said(
    alloc: Global,
    trial: Option<Trial>,
    tried: &TriedHint,
    guarded: usize,
    placed: &mut Placed,
) -> Result<(), AllocError>
    ensures { OnOk result ((said : List ℕ) × IsAdded tried.now.compiled
        (hint_words tried.now.name (string_bytes tried.now.guard)) (sought_by guarded trial) said
        × (placed.new ≡ with_note placed.old said)) }
{
    match sought(trial, guarded) {
        None => Ok(()),
        Some(of) => {
            let said = tried.said(alloc, of)?;
            placed.extend_note(said.as_str())?;
            Ok(())
        }
    }
}

/// Adds what a record's hint comes to, which was tried, to the notes of the warnings that it was tried for.
fn put_outcomes(
    alloc: Global,
    trials: &[Option<Trial>],
    tried: &TriedHint,
    guarded: usize,
    placed: &mut Vec<Placed>,
) -> Result<(), AllocError>
    requires { length placed.old.items ≡ length trials.now }
    ensures { OnOk result (AreNoted (λ t. IsAdded tried.now.compiled
        (hint_words tried.now.name (string_bytes tried.now.guard)) (sought_by guarded t)) trials.now
        placed.old.items placed.new.items) }
{
    for number in 0..trials.len() {
        put_said(alloc, trials[number], tried, guarded, &mut placed[number])?;
    }
    Ok(())
}

/// Adds what a record's hint comes to, to the notes of the warnings for which it is to be tried.
fn try_hint(
    alloc: Global,
    accepted: Accepted<'_>,
    trials: &[Option<Trial>],
    guarded: usize,
    placed: &mut Vec<Placed>,
) -> Result<(), AllocError>
    requires many { length placed.old.items ≡ length trials.now }
    requires names { AreNameSpans accepted.source.now accepted.compiled.now.scheme.program.source accepted.names.now }
    ensures { OnOk result (AreNoted (IsTriedFor accepted.entry.source.now accepted.entry.names.now
        accepted.entry.compiled.now guarded) trials.now placed.old.items placed.new.items) }
{
    if !is_sought(trials, guarded) {
        return Ok(());
    }
    match tried_hint(alloc, accepted, guarded)? {
        Some(tried) => {
            put_outcomes(alloc, trials, &tried, guarded, placed)?;
            Ok(())
        }
        None => Ok(()),
    }
}

/// Adds what hints come to, to the notes of the warnings for which they are to be tried. No text is compiled twice.
pub fn try_hints(
    alloc: Global,
    accepted: Accepted<'_>,
    trials: &[Option<Trial>],
    placed: &mut Vec<Placed>,
) -> Result<(), AllocError>
    requires many { length placed.old.items ≡ length trials.now }
    requires names { AreNameSpans accepted.source.now accepted.compiled.now.scheme.program.source accepted.names.now }
    ensures { OnOk result (AreNoted (IsTrialSaid accepted.entry.source.now accepted.entry.names.now
        accepted.entry.compiled.now) trials.now placed.old.items placed.new.items) }
{
    accepted.compiled.facts();
    let records = accepted.compiled.scheme().program().tree().records();
    for guarded in 0..records.len() {
        try_hint(alloc, accepted, trials, guarded, placed)?;
    }
    Ok(())
}
