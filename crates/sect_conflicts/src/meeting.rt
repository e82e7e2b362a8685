//! Whether a key that a section takes may keep another thread out.

ghost use Rattle.std.specs.Prelude.{◌≡◌, ◌<◌, ◌↔◌, IsTrue, length};
ghost use Rattle.sect_types.specs.Sections.{sections_of};
ghost use Rattle.sect_names.specs.Schemes.{SchemeView};
ghost use Rattle.sect_emit.specs.Compiled.{program_of};
ghost use Rattle.sect_conflicts.specs.Taken.{IsOfOther, AsksAgainst, IsKeyMet};
ghost use Rattle.sect_conflicts.specs.Taken.{MeetsLock, MeetsAny, IsPathMet};
ghost use Rattle.sect_conflicts.specs.steps.Profiles.{AreSitesOfLock, AreSitesOfLocks, AreProfiles};
ghost use Rattle.sect_conflicts.specs.steps.Taking.{IsKeyMetBy, IsPathMetBy};

use crate::always::mode_against;
use crate::pairs::share_site;
use crate::profile::Profile;
use sect_emit::{Compiled, Grip, object_mode};
use sect_modes::compatible;
use sect_names::Lock;
use sect_points::SiteSet;

/// The sections of a program as a thread sees them: those of other threads may be kept out by its keys.
#[derive(Clone, Copy)]
pub struct Others<'a> {
    pub compiled: &'a Compiled,
    pub profiles: &'a [Profile],
    pub thread: u16,
}

/// Whether a section asks for a key in every state in a mode that isn't compatible with this one.
fn asks_against(wish: Grip, part: &[Grip]) -> bool
    ensures { IsTrue result ↔ AsksAgainst wish part.now }
{
    mode_against(wish, part).is_some()
}

/// Whether this is a section of another thread.
fn is_of_other(others: &Others<'_>, section: u16) -> bool
    requires profiles { AreProfiles others.now.compiled.now others.now.profiles.now }
    requires within { section < length (sections_of (program_of others.now.compiled.now).texts) }
    ensures { IsTrue result ↔ IsOfOther others.now.compiled.now others.now.thread section }
{
    let thread = others.profiles[section as usize].thread;
    if thread == others.thread {
        return false;
    }
    true
}

/// Whether this is a section of another thread, which asks for the key in every state, in a mode that isn't compatible.
fn is_key_met_by(others: &Others<'_>, section: u16, wish: Grip) -> bool
    requires profiles { AreProfiles others.now.compiled.now others.now.profiles.now }
    requires within { section < length (sections_of (program_of others.now.compiled.now).texts) }
    ensures { IsTrue result ↔ IsKeyMetBy others.now.compiled.now others.now.thread wish section }
{
    if !is_of_other(others, section) {
        return false;
    }
    others.compiled.facts();
    asks_against(wish, others.compiled.part(section))
}

/// Whether a section of another thread asks for a key in every state, in a mode that isn't compatible.
pub fn is_key_met(others: &Others<'_>, wish: Grip) -> bool
    requires { AreProfiles others.now.compiled.now others.now.profiles.now }
    ensures { IsTrue result ↔ IsKeyMet others.now.compiled.now others.now.thread wish }
{
    for section in 0..others.compiled.scheme().program().section_count() {
        if is_key_met_by(others, section, wish) {
            return true;
        }
    }
    false
}

/// Whether two locks are on paths that may denote one object, in modes that aren't compatible.
fn meets_lock(lock: &Lock, sites: &SiteSet, other: &Lock, other_sites: &SiteSet) -> bool
    ensures { (s : SchemeView) → AreSitesOfLock s lock.now sites.now → AreSitesOfLock s other.now other_sites.now
        → IsTrue result ↔ MeetsLock s lock.now other.now }
{
    let Lock::Path(_, effect) = lock else {
        return false;
    };
    let Lock::Path(_, other_effect) = other else {
        return false;
    };
    !compatible(object_mode(*effect), object_mode(*other_effect)) && share_site(sites, other_sites)
}

/// Whether a lock meets one of these.
fn meets_any(lock: &Lock, sites: &SiteSet, others: &[Lock], other_sites: &[SiteSet]) -> bool
    requires { length others.now ≡ length other_sites.now }
    ensures { (s : SchemeView) → AreSitesOfLock s lock.now sites.now → AreSitesOfLocks s others.now other_sites.now
        → IsTrue result ↔ MeetsAny s lock.now others.now }
{
    for place in 0..others.len() {
        if meets_lock(lock, sites, &others[place], &other_sites[place]) {
            return true;
        }
    }
    false
}

/// Whether this is a section of another thread that locks a path which may denote the object of this lock's path, in a
/// mode that isn't compatible.
fn is_path_met_by(others: &Others<'_>, section: u16, lock: &Lock, sites: &SiteSet) -> bool
    requires profiles { AreProfiles others.now.compiled.now others.now.profiles.now }
    requires within { section < length (sections_of (program_of others.now.compiled.now).texts) }
    requires sites { AreSitesOfLock others.now.compiled.now.scheme lock.now sites.now }
    ensures { IsTrue result ↔ IsPathMetBy others.now.compiled.now others.now.thread lock.now section }
{
    if !is_of_other(others, section) {
        return false;
    }
    others.compiled.facts();
    let locks = others.compiled.set(section);
    let other_sites = others.profiles[section as usize].sites.as_slice();
    meets_any(lock, sites, locks, other_sites)
}

/// Whether a section of another thread locks a path that may denote the object of this lock's path, in a mode that
/// isn't compatible.
pub fn is_path_met(others: &Others<'_>, lock: &Lock, sites: &SiteSet) -> bool
    requires profiles { AreProfiles others.now.compiled.now others.now.profiles.now }
    requires sites { AreSitesOfLock others.now.compiled.now.scheme lock.now sites.now }
    ensures { IsTrue result ↔ IsPathMet others.now.compiled.now others.now.thread lock.now }
{
    for section in 0..others.compiled.scheme().program().section_count() {
        if is_path_met_by(others, section, lock, sites) {
            return true;
        }
    }
    false
}
