//! Loads and stores in the sections of a program.

ghost use Rattle.std.specs.Prelude.{◌≡◌, ◌<◌, ◌++◌, length, IfOk, OnOk};
ghost use Rattle.sect_types.specs.Sections.{sections_of};
ghost use Rattle.sect_graph.specs.Layout.{flow_nodes};
ghost use Rattle.sect_places.specs.NodeOrigins.{AreOrigins};
ghost use Rattle.sect_emit.specs.Explaining.{section_at};
ghost use Rattle.sect_warnings.specs.Lost.{accessed as accessed_by, found_at, in_section, accesses as accesses_by};
ghost use Rattle.sect_warnings.specs.Lost.{point_of as point_of_by, local_there as local_there_by};

use crate::judge::Place;
use sect_emit::{Compiled, section_flow};
use sect_flows::{LocalAt, ProgramPoint};
use sect_names::Effect;
use sect_places::{NodeOrigins, Origin};
use sect_types::{Action, Field, Label, Value};
use std::alloc::{AllocError, Global};

/// A node of a section that sets a local to what a field has, or a field to what a local has.
#[derive(Clone, Copy, Default)]
pub struct Access {
    pub section: u16,
    pub node: u16,
    /// The item that the node comes from.
    pub item: usize,
    pub field: Field,
    pub local: u16,
}

impl Access {
    /// Where it stands.
    pub fn point(&self) -> ProgramPoint
        ensures { result ≡ point_of_by self.now }
    {
        ProgramPoint {
            section: Some(self.section),
            node: self.node,
        }
    }

    /// Its local there.
    pub fn local_there(&self) -> LocalAt
        ensures { result ≡ local_there_by self.now }
    {
        LocalAt {
            point: self.point(),
            local: self.local,
        }
    }
}

/// The field and the local of a load, or of a store of a local.
fn accessed(effect: Effect, label: Label) -> Option<(Field, u16)>
    ensures { result ≡ accessed_by effect label }
{
    match (effect, label) {
        (Effect::Read, Label::Act(Action::Load(local, _, field)))
        | (Effect::Write, Label::Act(Action::Store(_, field, Value::Local(local)))) => {
            Some((field, local))
        }
        _ => None,
    }
}

/// Adds the access of a node that comes from an item, if it is one.
fn add_access(
    list: &mut Vec<Access>,
    place: Place,
    found: Option<(Field, u16)>,
) -> Result<(), AllocError>
    ensures { OnOk result (list.new.items
        ≡ list.old.items ++ found_at place.section place.node place.item found) }
{
    if let Some((field, local)) = found {
        list.push(Access {
            section: place.section,
            node: place.node,
            item: place.item,
            field,
            local,
        })?;
    }
    Ok(())
}

/// Adds those of a section, whose nodes come from there.
fn add_section(
    list: &mut Vec<Access>,
    compiled: &Compiled,
    effect: Effect,
    section: u16,
    origins: &[Origin],
) -> Result<(), AllocError>
    requires section { section < length (sections_of compiled.now.scheme.program.texts) }
    requires origins { length origins.now ≡ length (flow_nodes (section_at compiled.now section).body) }
    ensures { OnOk result (list.new.items ≡ list.old.items ++ in_section effect compiled.now section origins.now) }
{
    let flow = section_flow(compiled, section);
    for node in 0..flow.exit() {
        let place = Place {
            section,
            node,
            item: origins[node as usize].item,
        };
        add_access(list, place, accessed(effect, flow.action(node)))?;
    }
    Ok(())
}

/// All loads of a program, or all its stores of locals, section by section and node by node.
pub fn accesses(
    alloc: Global,
    compiled: &Compiled,
    effect: Effect,
    origins: &NodeOrigins,
) -> Result<Vec<Access>, AllocError>
    requires { AreOrigins compiled.now.scheme.program origins.now }
    ensures { IfOk result (λ list. list.items ≡ accesses_by effect compiled.now) }
{
    compiled.facts();
    let mut list = Vec::new(alloc);
    for section in 0..compiled.scheme().program().section_count() {
        add_section(
            &mut list,
            compiled,
            effect,
            section,
            origins.section(section),
        )?;
    }
    Ok(list)
}
