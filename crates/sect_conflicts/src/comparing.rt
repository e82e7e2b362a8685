//! All pairs of sections of different threads, and whether they exclude each other.

ghost use Rattle.std.specs.Prelude.{◌≡◌, ◌<◌, ◌+◌, ◌↔◌, [], length, IfOk, OnOk, IsTrue};
ghost use Rattle.sect_conflicts.specs.{Conflicts.{IsConflict}, Comparing.{AreConflicts}};
ghost use Rattle.sect_conflicts.specs.steps.{Profiles.{AreProfiles}, Progress.{AreConflictsBefore}};

use crate::always::first_clash;
use crate::conflict::{Conflict, PathPair, SectionPair};
use crate::pairs::path_pairs;
use crate::profile::{Profile, profiles_of};
use sect_emit::Compiled;
use std::alloc::{AllocError, Global};

/// Whether there is no pair.
fn is_none(found: &[PathPair]) -> bool
    ensures { IsTrue result ↔ (found.now ≡ []) }
{
    found.is_empty()
}

/// Whether two sections exclude each other, if their threads differ.
fn conflict_of(
    alloc: Global,
    compiled: &Compiled,
    profiles: &[Profile],
    first: u16,
    second: u16,
) -> Result<Conflict, AllocError>
    requires profiles { AreProfiles compiled.now profiles.now }
    requires first { first < length profiles.now }
    requires second { second < length profiles.now }
    ensures { IfOk result (IsConflict compiled.now first second) }
{
    compiled.facts();
    let profile = &profiles[first as usize];
    let other = &profiles[second as usize];
    if let Some(clash) = first_clash(profile.always.as_slice(), other.always.as_slice()) {
        return Ok(Conflict::Always(clash));
    }
    let found = path_pairs(
        alloc,
        compiled.set(first),
        profile.sites.as_slice(),
        compiled.set(second),
        other.sites.as_slice(),
    )?;
    if is_none(found.as_slice()) {
        Ok(Conflict::Never)
    } else {
        Ok(Conflict::Sometimes(found))
    }
}

/// Adds the pairs of a section and those of greater numbers.
fn add_conflicts(
    alloc: Global,
    found: &mut Vec<SectionPair>,
    compiled: &Compiled,
    profiles: &[Profile],
    first: u16,
) -> Result<(), AllocError>
    requires profiles { AreProfiles compiled.now profiles.now }
    requires first { first < length profiles.now }
    requires before { AreConflictsBefore compiled.now first 0 found.old.items }
    ensures { OnOk result (AreConflictsBefore compiled.now (first + 1) 0 found.new.items) }
{
    let count = compiled.scheme().program().section_count();
    for second in first + 1..count {
        if profiles[first as usize].thread != profiles[second as usize].thread {
            let conflict = conflict_of(alloc, compiled, profiles, first, second)?;
            found.push(SectionPair {
                first,
                second,
                conflict,
            })?;
        }
    }
    Ok(())
}

/// The pairs of sections of different threads, in the order of their numbers, and whether they exclude each other.
/// Sections of one thread are never in progress together and aren't compared.
pub fn conflicts(alloc: Global, compiled: &Compiled) -> Result<Vec<SectionPair>, AllocError>
    ensures { IfOk result (λ pairs. AreConflicts compiled.now pairs.items) }
{
    let profiles = profiles_of(alloc, compiled)?;
    let mut found = Vec::new(alloc);
    for first in 0..compiled.scheme().program().section_count() {
        add_conflicts(alloc, &mut found, compiled, profiles.as_slice(), first)?;
    }
    Ok(found)
}
