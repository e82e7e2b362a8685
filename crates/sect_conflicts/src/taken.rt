//! Which keys sections have to take: those that may keep another thread out.

ghost use Rattle.std.specs.Prelude.{◌≡◌, ◌<◌, ◌++◌, ◌∷◌, [], Some, IfOk, OnOk, length, slice_get, slice_index_or};
ghost use Rattle.std.specs.List.{flat_map};
ghost use Rattle.sect_types.specs.Sections.{sections_of};
ghost use Rattle.sect_emit.specs.Compiled.{program_of};
ghost use Rattle.sect_conflicts.specs.{Conflicts.{Selects, set_at}, Selecting.{Adds}};
ghost use Rattle.sect_conflicts.specs.Taken.{AreTaken, IsKeyMet, IsPathMet, lock_fields, looked_of};
ghost use Rattle.sect_conflicts.specs.steps.Profiles.{AreSitesOfLock, AreSitesOfLocks, AreProfiles};
ghost use Rattle.sect_conflicts.specs.steps.Taking.{IsTaken, section_fields};

use crate::meeting::{Others, is_key_met, is_path_met};
use crate::profile::{Profile, profiles_of};
use sect_emit::{Compiled, Grip};
use sect_names::Lock;
use sect_points::SiteSet;
use sect_types::Field;
use std::alloc::{AllocError, Global};
use std::marker::Model;

/// The keys that a section takes in every state, and the locks on paths whose objects it takes.
#[derive(Drop)]
pub struct SectionKeys {
    pub part: Vec<Grip>,
    pub paths: Vec<Lock>,
}

/// Of each section the keys that it takes in every state, and the locks on paths whose objects it takes.
pub struct Taken {
    sections: Vec<SectionKeys>,
}

impl Drop for Taken {
    fn drop(self) {
        let Taken { sections: _ } = self;
    }
}

impl Model for Taken {
    ghost use Rattle.std.specs.Prelude.{map};
    ghost use Rattle.std.specs.Coded.{codes};
    ghost use Rattle.sect_points.specs.Paths.{path_code};
    ghost use Rattle.sect_conflicts.specs.declared.taken.SectionKeys.{SectionKeys};
    ghost use Rattle.sect_conflicts.specs.Taken.{TakenView};

    ghost Value = { TakenView };

    ghost coded = { Prim.hlevel (codes, path_code) };

    ghost view = { λ t. record {
      parts = map (λ (k : SectionKeys). k.part.items) t.sections.items;
      paths = map (λ (k : SectionKeys). k.paths.items) t.sections.items;
    } };
}

impl Taken {
    /// The keys that a section takes in every state, in key order.
    pub fn part(&self, section: u16) -> &[Grip]
        requires { section < length self.now.parts }
        ensures { slice_get self.now.parts section ≡ Some result.now }
    {
        self.sections[section as usize].part.as_slice()
    }

    /// The locks on paths whose objects a section takes, in canonical order.
    pub fn paths(&self, section: u16) -> &[Lock]
        requires { section < length self.now.paths }
        ensures { slice_get self.now.paths section ≡ Some result.now }
    {
        self.sections[section as usize].paths.as_slice()
    }

    /// The fields that the paths follow: they are read while others may write them.
    pub fn looked(&self, alloc: Global) -> Result<Vec<Field>, AllocError>
        ensures { IfOk result (λ fields. fields.items ≡ looked_of self.now) }
    {
        let mut fields = Vec::new(alloc);
        add_sections(&mut fields, self.sections.as_slice())?;
        Ok(fields)
    }
}

/// Adds the fields that the paths of these sections follow.
fn add_sections(fields: &mut Vec<Field>, sections: &[SectionKeys]) -> Result<(), AllocError>
    ensures { OnOk result (fields.new.items ≡ fields.old.items ++ flat_map section_fields sections.now) }
{
    for keys in sections {
        add_fields(fields, keys.paths.as_slice())?;
    }
    Ok(())
}

/// Adds the fields that these paths follow.
fn add_fields(fields: &mut Vec<Field>, paths: &[Lock]) -> Result<(), AllocError>
    ensures { OnOk result (fields.new.items ≡ fields.old.items ++ flat_map lock_fields paths.now) }
{
    for lock in paths {
        add_lock_fields(fields, lock)?;
    }
    Ok(())
}

/// Adds the fields that the path of a lock follows.
fn add_lock_fields(fields: &mut Vec<Field>, lock: &Lock) -> Result<(), AllocError>
    ensures { OnOk result (fields.new.items ≡ fields.old.items ++ lock_fields lock.now) }
{
    match lock {
        Lock::Path(path, _) => fields.extend_from_slice(path.fields()),
        Lock::All | Lock::Class(_, _) => Ok(()),
    }
}

/// Adds a key, if it is met.
fn add_key(part: &mut Vec<Grip>, others: &Others<'_>, grip: Grip) -> Result<(), AllocError>
    requires { AreProfiles others.now.compiled.now others.now.profiles.now }
    ensures { OnOk result (Adds (IsKeyMet others.now.compiled.now others.now.thread) (grip ∷ []) part.old.items
        part.new.items) }
{
    if is_key_met(others, grip) {
        part.push(grip)?;
    }
    Ok(())
}

/// Adds a lock with the sites of its path, if it is met.
fn add_path(
    paths: &mut Vec<Lock>,
    others: &Others<'_>,
    lock: &Lock,
    sites: &SiteSet,
) -> Result<(), AllocError>
    requires profiles { AreProfiles others.now.compiled.now others.now.profiles.now }
    requires sites { AreSitesOfLock others.now.compiled.now.scheme lock.now sites.now }
    ensures { OnOk result (Adds (IsPathMet others.now.compiled.now others.now.thread) (lock.now ∷ []) paths.old.items
        paths.new.items) }
{
    if is_path_met(others, lock, sites) {
        paths.push(lock.try_clone()?)?;
    }
    Ok(())
}

/// Adds those of these locks, with the sites of their paths, that are met.
fn add_paths(
    paths: &mut Vec<Lock>,
    others: &Others<'_>,
    locks: &[Lock],
    sites: &[SiteSet],
) -> Result<(), AllocError>
    requires profiles { AreProfiles others.now.compiled.now others.now.profiles.now }
    requires each { length locks.now ≡ length sites.now }
    requires sites { AreSitesOfLocks others.now.compiled.now.scheme locks.now sites.now }
    ensures { OnOk result (Adds (IsPathMet others.now.compiled.now others.now.thread) locks.now paths.old.items
        paths.new.items) }
{
    for place in 0..locks.len() {
        add_path(paths, others, &locks[place], &sites[place])?;
    }
    Ok(())
}

/// The keys of a section's fixed part that are met.
fn taken_part(alloc: Global, others: &Others<'_>, section: u16) -> Result<Vec<Grip>, AllocError>
    requires profiles { AreProfiles others.now.compiled.now others.now.profiles.now }
    requires within { section < length (sections_of (program_of others.now.compiled.now).texts) }
    ensures { IfOk result (λ part. Selects (IsKeyMet others.now.compiled.now others.now.thread)
        (slice_index_or others.now.compiled.now.parts section []) part.items) }
{
    others.compiled.facts();
    let keys = others.compiled.part(section);
    let mut part = Vec::new(alloc);
    for grip in keys {
        add_key(&mut part, others, *grip)?;
    }
    Ok(part)
}

/// The locks of a section on paths that are met.
fn taken_paths(alloc: Global, others: &Others<'_>, section: u16) -> Result<Vec<Lock>, AllocError>
    requires profiles { AreProfiles others.now.compiled.now others.now.profiles.now }
    requires within { section < length (sections_of (program_of others.now.compiled.now).texts) }
    ensures { IfOk result (λ paths. Selects (IsPathMet others.now.compiled.now others.now.thread)
        (set_at others.now.compiled.now section) paths.items) }
{
    others.compiled.facts();
    let locks = others.compiled.set(section);
    let sites = others.profiles[section as usize].sites.as_slice();
    let mut paths = Vec::new(alloc);
    add_paths(&mut paths, others, locks, sites)?;
    Ok(paths)
}

/// What a section takes of its plan.
fn section_keys(
    alloc: Global,
    compiled: &Compiled,
    profiles: &[Profile],
    section: u16,
) -> Result<SectionKeys, AllocError>
    requires profiles { AreProfiles compiled.now profiles.now }
    requires within { section < length (sections_of (program_of compiled.now).texts) }
    ensures { IfOk result (IsTaken compiled.now section) }
{
    let thread = profiles[section as usize].thread;
    let others = Others {
        compiled,
        profiles,
        thread,
    };
    let part = taken_part(alloc, &others, section)?;
    let paths = taken_paths(alloc, &others, section)?;
    Ok(SectionKeys { part, paths })
}

/// What each section takes of its plan, if it leaves out the keys for which no section of another thread ever asks in a
/// mode that isn't compatible.
pub fn taken_keys(alloc: Global, compiled: &Compiled) -> Result<Taken, AllocError>
    ensures { IfOk result (λ taken. AreTaken compiled.now taken) }
{
    let profiles = profiles_of(alloc, compiled)?;
    let mut sections = Vec::new(alloc);
    for section in 0..compiled.scheme().program().section_count() {
        sections.push(section_keys(alloc, compiled, profiles.as_slice(), section)?)?;
    }
    Ok(Taken { sections })
}
