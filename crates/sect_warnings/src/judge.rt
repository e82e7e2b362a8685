//! Which warnings are due.

ghost use Rattle.std.specs.{Prelude.{◌≡◌, ◌<◌, ◌↔◌, [], ◌∷◌, ◌++◌, length, map, IsTrue, IfOk, OnOk}, List.{flat_map}};
ghost use Rattle.sect_types.specs.Sections.{sections_of};
ghost use Rattle.sect_graph.specs.Layout.{flow_nodes};
ghost use Rattle.sect_emit.specs.Explaining.{section_at};
ghost use Rattle.sect_warnings.specs.Warnings.{warning, through as through_by, unfilled_at, to_node, at_section};
ghost use Rattle.sect_warnings.specs.Warnings.{class_at, IsDue, AreWarnings, AreAtItems, lost_warning};
ghost use Rattle.sect_warnings.specs.Warnings.{is_print as is_print_by, prints as prints_by};
ghost use Rattle.sect_conflicts.specs.{Conflicts.{set_at}, Selecting.{Adds}};

use crate::apart::of_pairs;
use crate::lost::{LostUpdate, lost_updates};
use crate::marked::takes_all_for_one;
use crate::warning::{Finding, Warning};
use sect_emit::{Compiled, section_thread};
use sect_names::{Effect, Lock, Right};
use sect_places::{Origin, node_origins, section_items};
use sect_types::{Action, Base, Label};
use std::alloc::{AllocError, Global};

/// A node of a section, and the item that it comes from.
#[derive(Clone, Copy)]
pub struct Place {
    pub section: u16,
    pub node: u16,
    pub item: usize,
}

/// A section, and the item that it is.
#[derive(Clone, Copy)]
struct Head {
    section: u16,
    item: usize,
}

/// The local whose object a node loads from or stores to, if there is one.
fn through(label: Label) -> Option<u16>
    ensures { result ≡ through_by label }
{
    match label {
        Label::Act(Action::Load(_, Base::Local(local), _))
        | Label::Act(Action::Store(Base::Local(local), _, _)) => Some(local),
        _ => None,
    }
}

/// Adds what is told of a node.
fn add_node(
    found: &mut Vec<Warning>,
    compiled: &Compiled,
    place: Place,
    label: Label,
) -> Result<(), AllocError>
    requires { place.section < length (sections_of compiled.now.scheme.program.texts) }
    ensures { OnOk result (Adds (IsDue compiled.now)
        (unfilled_at place.section place.node place.item (through_by label)) found.old.items found.new.items) }
{
    let Some(local) = through(label) else {
        return Ok(());
    };
    let thread = section_thread(compiled, place.section);
    if compiled
        .scheme()
        .classes()
        .points()
        .is_never_filled(thread, local)
    {
        let finding = Finding::NeverFilled {
            node: place.node,
            local,
        };
        found.push(Warning {
            section: place.section,
            finding,
            item: place.item,
        })?;
    }
    Ok(())
}

/// Adds what is told of the nodes of a section, which come from there.
fn add_nodes(
    found: &mut Vec<Warning>,
    compiled: &Compiled,
    section: u16,
    origins: &[Origin],
) -> Result<(), AllocError>
    requires section { section < length (sections_of compiled.now.scheme.program.texts) }
    requires origins { length origins.now ≡ length (flow_nodes (section_at compiled.now section).body) }
    ensures { OnOk result (Adds (IsDue compiled.now)
        (to_node section (flow_nodes (section_at compiled.now section).body) origins.now (length origins.now))
        found.old.items found.new.items) }
{
    compiled.facts();
    let flow = compiled.scheme().graph().section(section);
    for node in 0..flow.exit() {
        let place = Place {
            section,
            node,
            item: origins[node as usize].item,
        };
        add_node(found, compiled, place, flow.action(node))?;
    }
    Ok(())
}

/// Whether a set has no lock.
fn has_none(set: &[Lock]) -> bool
    ensures { IsTrue result ↔ (set.now ≡ []) }
{
    set.is_empty()
}

/// Whether a node prints.
fn is_print(label: Label) -> bool
    ensures { result ≡ is_print_by label }
{
    matches!(label, Label::Act(Action::Print(_)))
}

/// Whether a section prints, which is admitted in sections alone.
fn prints(compiled: &Compiled, section: u16) -> bool
    requires { section < length (sections_of compiled.now.scheme.program.texts) }
    ensures { result ≡ prints_by compiled.now section }
{
    compiled.facts();
    let flow = compiled.scheme().graph().section(section);
    for node in 0..flow.exit() {
        if is_print(flow.action(node)) {
            return true;
        }
    }
    false
}

/// Adds that a section, which is this item, takes no lock, if it takes none and prints nothing.
fn add_lockless(
    found: &mut Vec<Warning>,
    compiled: &Compiled,
    section: u16,
    item: usize,
) -> Result<(), AllocError>
    requires { section < length (sections_of compiled.now.scheme.program.texts) }
    ensures { OnOk result (Adds (IsDue compiled.now) (warning section item Finding.NoLock ∷ []) found.old.items
        found.new.items) }
{
    compiled.facts();
    if prints(compiled, section) {
        return Ok(());
    }
    if has_none(compiled.set(section)) {
        found.push(Warning {
            section,
            finding: Finding::NoLock,
            item,
        })?;
    }
    Ok(())
}

/// Adds that a section, which is this item and takes this lock, locks a whole class, if it does.
fn add_class(
    found: &mut Vec<Warning>,
    section: u16,
    item: usize,
    lock: &Lock,
) -> Result<(), AllocError>
    ensures { OnOk result (found.new.items ≡ found.old.items ++ class_at section item lock.now) }
{
    let (class, effect) = match lock {
        Lock::Class(class, Right::Read) => (*class, Effect::Read),
        Lock::Class(class, Right::Write) => (*class, Effect::Write),
        _ => return Ok(()),
    };
    found.push(Warning {
        section,
        finding: Finding::ClassLock { class, effect },
        item,
    })?;
    Ok(())
}

/// Adds that a section, which is this item, takes all for one lock, if it does.
fn add_all_for_one(
    alloc: Global,
    found: &mut Vec<Warning>,
    compiled: &Compiled,
    section: u16,
    item: usize,
) -> Result<(), AllocError>
    requires { section < length (sections_of compiled.now.scheme.program.texts) }
    ensures { OnOk result (Adds (IsDue compiled.now) (warning section item Finding.AllForOne ∷ []) found.old.items
        found.new.items) }
{
    if takes_all_for_one(alloc, compiled, section)? {
        found.push(Warning {
            section,
            finding: Finding::AllForOne,
            item,
        })?;
    }
    Ok(())
}

/// Adds which whole classes a section, which is this item, locks with these locks.
fn put_classes(
    found: &mut Vec<Warning>,
    section: u16,
    item: usize,
    locks: &[Lock],
) -> Result<(), AllocError>
    ensures { OnOk result (found.new.items ≡ found.old.items ++ flat_map (class_at section item) locks.now) }
{
    for lock in locks {
        add_class(found, section, item, lock)?;
    }
    Ok(())
}

/// Adds which whole classes a section, which is this item, locks.
fn add_classes(
    found: &mut Vec<Warning>,
    compiled: &Compiled,
    section: u16,
    item: usize,
) -> Result<(), AllocError>
    requires { section < length (sections_of compiled.now.scheme.program.texts) }
    ensures { OnOk result (Adds (IsDue compiled.now) (flat_map (class_at section item) (set_at compiled.now section))
        found.old.items found.new.items) }
{
    compiled.facts();
    put_classes(found, section, item, compiled.set(section))?;
    Ok(())
}

/// Adds what is told of a section that is this item, and whose nodes come from there.
fn add_section(
    alloc: Global,
    found: &mut Vec<Warning>,
    compiled: &Compiled,
    head: Head,
    origins: &[Origin],
) -> Result<(), AllocError>
    requires section { head.section < length (sections_of compiled.now.scheme.program.texts) }
    requires origins { length origins.now ≡ length (flow_nodes (section_at compiled.now head.section).body) }
    ensures { OnOk result (Adds (IsDue compiled.now)
        (at_section compiled.now head.section head.item origins.now) found.old.items found.new.items) }
{
    add_lockless(found, compiled, head.section, head.item)?;
    add_all_for_one(alloc, found, compiled, head.section, head.item)?;
    add_classes(found, compiled, head.section, head.item)?;
    add_nodes(found, compiled, head.section, origins)?;
    Ok(())
}

/// Adds what is told of lost updates.
fn put_lost(found: &mut Vec<Warning>, lost: &[LostUpdate]) -> Result<(), AllocError>
    ensures { OnOk result (found.new.items ≡ found.old.items ++ map lost_warning lost.now) }
{
    for update in lost {
        found.push(Warning {
            section: update.store.section,
            finding: Finding::LostUpdate(*update),
            item: update.store.item,
        })?;
    }
    Ok(())
}

/// What is worth a second look in a compiled program: all that is due, section by section, then of pairs of them, and
/// then of what goes from one to another.
pub fn warnings(alloc: Global, compiled: &Compiled) -> Result<Vec<Warning>, AllocError>
    ensures due { IfOk result (λ found. AreWarnings compiled.now found.items) }
    // Each stands at an item of the program's tree.
    ensures items { IfOk result (λ found. AreAtItems compiled.now.scheme.program.source found.items) }
{
    compiled.facts();
    let program = compiled.scheme().program();
    let items = section_items(alloc, program)?;
    let origins = node_origins(alloc, program)?;
    let mut found = Vec::new(alloc);
    for section in 0..program.section_count() {
        let item = items[section as usize];
        let head = Head { section, item };
        add_section(alloc, &mut found, compiled, head, origins.section(section))?;
    }
    let mut apart = of_pairs(alloc, compiled, items.as_slice())?;
    found.append(&mut apart)?;
    let lost = lost_updates(alloc, compiled, &origins)?;
    put_lost(&mut found, lost.as_slice())?;
    Ok(found)
}
