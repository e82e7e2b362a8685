//! Stores of what another section of the thread has loaded from the same field.

ghost use Rattle.std.specs.Prelude.{◌≡◌, ◌↔◌, ◌∷◌, [], IsTrue, IfOk, IfSome, OnOk};
ghost use Rattle.sect_places.specs.NodeOrigins.{AreOrigins};
ghost use Rattle.sect_conflicts.specs.{Conflicts.{Selects}, Selecting.{Adds}};
ghost use Rattle.sect_warnings.specs.Lost.{loads_in as loads_in_by, IsLost, with_stores, all_pairs, AreLost};
ghost use Rattle.sect_warnings.specs.Lost.{has_store as has_store_by, once as once_by};
ghost use Rattle.sect_warnings.specs.steps.Losing.{AreAccesses, IsInSection, IsReached, MayBeLost};

use crate::access::{Access, accesses};
use crate::fields::is_same;
use indexmap::IndexSet;
use sect_emit::{Compiled, section_thread};
use sect_flows::{LocalAt, may_flow_to};
use sect_names::Effect;
use sect_places::NodeOrigins;
use sect_types::Field;
use std::alloc::{AllocError, Global};

/// A load, and a store of another section of the thread by which what others have stored in between may be lost.
#[derive(Clone, Copy, Default)]
pub struct LostUpdate {
    pub load: Access,
    pub store: Access,
}

/// A compiled program, its loads, and its stores of locals.
#[derive(Clone, Copy)]
struct Accessed<'a> {
    compiled: &'a Compiled,
    loads: &'a [Access],
    stores: &'a [Access],
}

/// A load, and where the value may be that it gives, once that is asked for.
#[derive(Drop)]
struct Loaded {
    load: Access,
    reached: Option<IndexSet<LocalAt>>,
}

/// Whether one of these loads stands in a section and is from a field.
fn loads_in(loads: &[Access], section: u16, field: Field) -> bool
    ensures { result ≡ loads_in_by loads.now section field }
{
    loads.iter().any(|load| load.section == section && is_same(load.field, field))
}

/// Whether the fields of a load and a store are one, and so are their threads, and the section of the store doesn't load
/// from the field.
fn may_be_lost(of: Accessed<'_>, load: &Access, store: &Access) -> bool
    requires accesses { AreAccesses of.compiled.now of.loads.now of.stores.now }
    requires load { IsInSection of.compiled.now load.now }
    requires store { IsInSection of.compiled.now store.now }
    ensures { IsTrue result ↔ MayBeLost of.entry.compiled.now load.now store.now }
{
    is_same(load.field, store.field)
        && section_thread(of.compiled, load.section) == section_thread(of.compiled, store.section)
        && !loads_in(of.loads, store.section, store.field)
}

/// Where the value of a load may be: what was found before, or what is found now.
fn reached_by(
    alloc: Global,
    compiled: &Compiled,
    load: &Access,
    kept: Option<IndexSet<LocalAt>>,
) -> Result<IndexSet<LocalAt>, AllocError>
    requires section { IsInSection compiled.now load.now }
    requires kept { IfSome kept (λ found. IsReached compiled.now load.now found.keys) }
    ensures { IfOk result (λ found. IsReached compiled.now load.now found.keys) }
{
    if let Some(found) = kept {
        return Ok(found);
    }
    compiled.facts();
    let _there = compiled.scheme().program().section(load.section);
    let thread = section_thread(compiled, load.section);
    let graph = compiled.scheme().graph();
    may_flow_to(alloc, graph, thread, load.point(), load.local)
}

/// Adds that a store loses what a load has missed, if it does.
fn add_store(
    alloc: Global,
    found: &mut Vec<LostUpdate>,
    of: Accessed<'_>,
    loaded: &mut Loaded,
    store: &Access,
) -> Result<(), AllocError>
    requires accesses { AreAccesses of.compiled.now of.loads.now of.stores.now }
    requires load { IsInSection of.compiled.now loaded.old.load }
    requires store { IsInSection of.compiled.now store.now }
    requires reached { IfSome loaded.old.reached (λ set. IsReached of.compiled.now loaded.old.load set.keys) }
    ensures added { OnOk result (Adds (IsLost of.entry.compiled.now)
        (record { load = loaded.old.load; store = store.now } ∷ []) found.old.items found.new.items) }
    ensures load { loaded.new.load ≡ loaded.old.load }
    ensures reached { OnOk result (IfSome loaded.new.reached
        (λ set. IsReached of.entry.compiled.now loaded.old.load set.keys)) }
{
    let load = loaded.load;
    if !may_be_lost(of, &load, store) {
        return Ok(());
    }
    let reached = reached_by(alloc, of.compiled, &load, loaded.reached.take())?;
    let is_lost = reached.contains(&store.local_there());
    loaded.reached = Some(reached);
    if is_lost {
        found.push(LostUpdate {
            load,
            store: *store,
        })?;
    }
    Ok(())
}

/// Adds the stores that lose what a load has missed.
fn add_stores(
    alloc: Global,
    found: &mut Vec<LostUpdate>,
    of: Accessed<'_>,
    load: &Access,
) -> Result<(), AllocError>
    requires accesses { AreAccesses of.compiled.now of.loads.now of.stores.now }
    requires load { IsInSection of.compiled.now load.now }
    ensures { OnOk result (Adds (IsLost of.entry.compiled.now) (with_stores of.entry.stores.now load.now)
        found.old.items found.new.items) }
{
    let mut loaded = Loaded {
        load: *load,
        reached: None,
    };
    for store in of.stores {
        add_store(alloc, found, of, &mut loaded, store)?;
    }
    Ok(())
}

/// All lost updates of loads and stores.
fn all_lost(alloc: Global, of: Accessed<'_>) -> Result<Vec<LostUpdate>, AllocError>
    requires { AreAccesses of.compiled.now of.loads.now of.stores.now }
    ensures { IfOk result (λ all. Selects (IsLost of.entry.compiled.now) (all_pairs of.entry.compiled.now)
        all.items) }
{
    let mut all = Vec::new(alloc);
    for load in of.loads {
        add_stores(alloc, &mut all, of, load)?;
    }
    Ok(all)
}

/// Whether one of these has this store.
fn has_store(list: &[LostUpdate], store: &Access) -> bool
    ensures { result ≡ has_store_by list.now store.now }
{
    list.iter().any(|update| {
        update.store.section == store.section && update.store.node == store.node
    })
}

/// Of each store the first.
fn once(alloc: Global, all: &[LostUpdate]) -> Result<Vec<LostUpdate>, AllocError>
    ensures { IfOk result (λ list. list.items ≡ once_by all.now) }
{
    let mut list = Vec::new(alloc);
    for update in all {
        if !has_store(list.as_slice(), &update.store) {
            list.push(*update)?;
        }
    }
    Ok(list)
}

/// The lost updates of a program whose nodes come from there: of each such store with the first load.
pub fn lost_updates(
    alloc: Global,
    compiled: &Compiled,
    origins: &NodeOrigins,
) -> Result<Vec<LostUpdate>, AllocError>
    requires { AreOrigins compiled.now.scheme.program origins.now }
    ensures { IfOk result (λ lost. AreLost compiled.now lost.items) }
{
    let loads = accesses(alloc, compiled, Effect::Read, origins)?;
    let stores = accesses(alloc, compiled, Effect::Write, origins)?;
    let of = Accessed {
        compiled,
        loads: loads.as_slice(),
        stores: stores.as_slice(),
    };
    let all = all_lost(alloc, of)?;
    once(alloc, all.as_slice())
}
