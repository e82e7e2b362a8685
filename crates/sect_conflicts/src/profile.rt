//! What is gathered of each section once, before sections are compared.

ghost use Rattle.std.specs.Prelude.{◌<◌, length, IfOk};
ghost use Rattle.sect_types.specs.Sections.{sections_of};
ghost use Rattle.sect_conflicts.specs.steps.Profiles.{AreSitesOfLock, AreSitesOfLocks, IsProfile, AreProfiles};

use crate::always::always_asked;
use sect_emit::{Compiled, Grip};
use sect_names::{Lock, Scheme};
use sect_points::{SiteSet, path_sites};
use std::alloc::{AllocError, Global};

/// What a section is compared by: its thread, what it asks for in every state, in key order, and for each of its locks
/// the sites whose objects its path may denote. A lock that isn't on a path has none.
#[derive(Drop)]
pub struct Profile {
    pub thread: u16,
    pub always: Vec<Grip>,
    pub sites: Vec<SiteSet>,
}

/// The sites whose objects the path of a lock may denote.
fn lock_sites(scheme: &Scheme, lock: &Lock) -> SiteSet
    ensures { AreSitesOfLock scheme.now lock.now result }
{
    let points = scheme.classes().points();
    match lock {
        Lock::Path(path, _) => path_sites(points, path.base(), path.fields()),
        Lock::All | Lock::Class(_, _) => SiteSet::new(),
    }
}

/// Those of each lock of a set.
fn sites_of_locks(
    alloc: Global,
    scheme: &Scheme,
    locks: &[Lock],
) -> Result<Vec<SiteSet>, AllocError>
    ensures { IfOk result (λ sites. AreSitesOfLocks scheme.now locks.now sites.items) }
{
    let mut sites = Vec::new(alloc);
    for lock in locks {
        sites.push(lock_sites(scheme, lock))?;
    }
    Ok(sites)
}

/// The profile of a section.
fn profile_of(alloc: Global, compiled: &Compiled, section: u16) -> Result<Profile, AllocError>
    requires { section < length (sections_of compiled.now.scheme.program.texts) }
    ensures { IfOk result (IsProfile compiled.now section) }
{
    compiled.facts();
    let thread = compiled.scheme().program().section(section).thread;
    let locks = compiled.set(section);
    let always = always_asked(alloc, compiled.part(section), locks)?;
    let sites = sites_of_locks(alloc, compiled.scheme(), locks)?;
    Ok(Profile {
        thread,
        always,
        sites,
    })
}

/// The profile of each section, by number.
pub fn profiles_of(alloc: Global, compiled: &Compiled) -> Result<Vec<Profile>, AllocError>
    ensures { IfOk result (λ profiles. AreProfiles compiled.now profiles.items) }
{
    let mut profiles = Vec::new(alloc);
    for section in 0..compiled.scheme().program().section_count() {
        profiles.push(profile_of(alloc, compiled, section)?)?;
    }
    Ok(profiles)
}
