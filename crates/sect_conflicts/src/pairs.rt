//! The pairs of paths by which two lock sets may ask for one object.

ghost use Rattle.std.specs.Prelude.{◌≡◌, ◌↔◌, ℕ, length, IsTrue, OnOk, IfOk};
ghost use Rattle.sect_names.specs.Schemes.{SchemeView};
ghost use Rattle.sect_points.specs.Sites.{InBoth};
ghost use Rattle.sect_conflicts.specs.Conflicts.{MayBeOne, Selects, paths_of_two, paths_with, paths_between};
ghost use Rattle.sect_conflicts.specs.Selecting.{Adds};
ghost use Rattle.sect_conflicts.specs.steps.Profiles.{AreSitesOfLock, AreSitesOfLocks};

use crate::conflict::PathPair;
use sect_emit::object_mode;
use sect_modes::compatible;
use sect_names::Lock;
use sect_points::SiteSet;
use std::alloc::{AllocError, Global};

/// Whether two sets have a site in common.
pub fn share_site(sites: &SiteSet, others: &SiteSet) -> bool
    ensures { IsTrue result ↔ ((site : ℕ) × InBoth sites.now.words others.now.words site) }
{
    sites.common(others).is_some()
}

/// Adds the paths of two locks, with their sites, if they may denote one object and aren't both only read.
fn add_pair(
    found: &mut Vec<PathPair>,
    lock: &Lock,
    sites: &SiteSet,
    other: &Lock,
    other_sites: &SiteSet,
) -> Result<(), AllocError>
    ensures { OnOk result ((s : SchemeView) → AreSitesOfLock s lock.now sites.now
        → AreSitesOfLock s other.now other_sites.now
        → Adds (MayBeOne s) (paths_of_two lock.now other.now) found.old.items found.new.items) }
{
    let Lock::Path(path, effect) = lock else {
        return Ok(());
    };
    let Lock::Path(other_path, other_effect) = other else {
        return Ok(());
    };
    if compatible(object_mode(*effect), object_mode(*other_effect)) {
        return Ok(());
    }
    if share_site(sites, other_sites) {
        let first = path.try_clone()?;
        let second = other_path.try_clone()?;
        found.push(PathPair { first, second })?;
    }
    Ok(())
}

/// Adds those of a lock and each of others, in their order.
fn add_pairs(
    found: &mut Vec<PathPair>,
    lock: &Lock,
    sites: &SiteSet,
    others: &[Lock],
    other_sites: &[SiteSet],
) -> Result<(), AllocError>
    requires { length others.now ≡ length other_sites.now }
    ensures { OnOk result ((s : SchemeView) → AreSitesOfLock s lock.now sites.now
        → AreSitesOfLocks s others.now other_sites.now
        → Adds (MayBeOne s) (paths_with lock.now others.now) found.old.items found.new.items) }
{
    for place in 0..others.len() {
        add_pair(found, lock, sites, &others[place], &other_sites[place])?;
    }
    Ok(())
}

/// The pairs of paths of two lock sets, with the sites of each lock, that may denote one object and aren't both only
/// read, in the order of both sets.
pub fn path_pairs(
    alloc: Global,
    locks: &[Lock],
    sites: &[SiteSet],
    others: &[Lock],
    other_sites: &[SiteSet],
) -> Result<Vec<PathPair>, AllocError>
    requires first { length locks.now ≡ length sites.now }
    requires second { length others.now ≡ length other_sites.now }
    ensures { IfOk result (λ found. (s : SchemeView) → AreSitesOfLocks s locks.now sites.now
        → AreSitesOfLocks s others.now other_sites.now
        → Selects (MayBeOne s) (paths_between locks.now others.now) found.items) }
{
    let mut found = Vec::new(alloc);
    for place in 0..locks.len() {
        add_pairs(
            &mut found,
            &locks[place],
            &sites[place],
            others,
            other_sites,
        )?;
    }
    Ok(found)
}
