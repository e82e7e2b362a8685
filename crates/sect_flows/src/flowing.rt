//! Where a value may flow.

ghost use Rattle.std.specs.Prelude.{◌≡◌, ◌<◌, ◌↔◌, length, OnOk, IfOk};
ghost use Rattle.sect_lemmas.specs.Lists.{Has};
ghost use Rattle.sect_flows.specs.declared.point.LocalAt.{LocalAt as ALocalAt};
ghost use Rattle.sect_flows.specs.{Flows.{Passes, MayFlow}, steps.Adding.{Adds, IsPassed, IsSet, IsNext}};

use crate::passing::{keeps, set_by};
use crate::point::{LocalAt, ProgramPoint};
use crate::way::{Way, way_at};
use indexmap::IndexSet;
use sect_graph::{Graph, Successors};
use sect_types::Label;
use std::alloc::{AllocError, Global};

/// Adds a local.
fn add(found: &mut IndexSet<LocalAt>, point: ProgramPoint, local: u16) -> Result<(), AllocError>
    ensures { OnOk result (Adds (λ k. (k.point ≡ point) × (k.local ≡ local)) found.old.keys found.new.keys) }
{
    found.insert(LocalAt { point, local })?;
    Ok(())
}

/// Adds the locals that the value of one is in at a point right behind a statement.
fn add_passed(
    found: &mut IndexSet<LocalAt>,
    label: &Label,
    local: u16,
    point: ProgramPoint,
) -> Result<(), AllocError>
    ensures { OnOk result (Adds (λ k. (k.point ≡ point) × Passes label.now local k.local)
        found.old.keys found.new.keys) }
{
    if keeps(label, local) {
        add(found, point, local)?;
    }
    if let Some(target) = set_by(label, local) {
        add(found, point, target)?;
    }
    Ok(())
}

/// The point of a node to which a way leads.
fn point_of(way: &Way, node: u16) -> ProgramPoint
    ensures { result ≡ record { section = way.now.section; node = node } }
{
    ProgramPoint {
        section: way.section,
        node,
    }
}

/// Adds the locals that the value of one is in where a way leads.
fn add_behind(found: &mut IndexSet<LocalAt>, way: &Way, local: u16) -> Result<(), AllocError>
    ensures { OnOk result (Adds (IsPassed way.now local) found.old.keys found.new.keys) }
{
    match way.to {
        Successors::Next(next) => add_passed(found, &way.label, local, point_of(way, next)),
        Successors::Branch(holds, fails) => {
            add_passed(found, &way.label, local, point_of(way, holds))?;
            add_passed(found, &way.label, local, point_of(way, fails))
        }
    }
}

/// Adds a local where a way leads.
fn add_set(found: &mut IndexSet<LocalAt>, way: &Way, local: u16) -> Result<(), AllocError>
    ensures { OnOk result (Adds (IsSet way.now local) found.old.keys found.new.keys) }
{
    match way.to {
        Successors::Next(next) => add(found, point_of(way, next), local),
        Successors::Branch(holds, fails) => {
            add(found, point_of(way, holds), local)?;
            add(found, point_of(way, fails), local)
        }
    }
}

/// Adds the locals to which a value goes in one step from that at a place.
fn follow(
    graph: &Graph,
    thread: u16,
    found: &mut IndexSet<LocalAt>,
    place: usize,
) -> Result<(), AllocError>
    requires { thread < length graph.now.threads }
    ensures { OnOk result (Adds (IsNext graph.now thread found.old.keys place) found.old.keys found.new.keys) }
{
    let Some(at) = found.get_index(place) else {
        return Ok(());
    };
    let LocalAt { point, local } = *at;
    let Some(way) = way_at(graph, thread, point) else {
        return Ok(());
    };
    add_behind(found, &way, local)
}

/// The locals to which the value may flow that the statement at a point sets a local to: along some control path of the
/// thread, by assignments and sums.
pub fn may_flow_to(
    alloc: Global,
    graph: &Graph,
    thread: u16,
    point: ProgramPoint,
    local: u16,
) -> Result<IndexSet<LocalAt>, AllocError>
    requires { thread < length graph.now.threads }
    ensures { IfOk result (λ found. (k : ALocalAt) → Has found.keys k ↔ MayFlow graph.now thread point local k) }
{
    let mut found = IndexSet::new(alloc);
    if let Some(way) = way_at(graph, thread, point) {
        add_set(&mut found, &way, local)?;
    }
    let mut place = 0;
    'places: while place < found.len() {
        follow(graph, thread, &mut found, place)?;
        place += 1;
    }
    Ok(found)
}
