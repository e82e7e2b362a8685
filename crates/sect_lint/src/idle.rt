//! Hints that protect nothing.

ghost use Rattle.std.specs.Prelude.{◌≡◌, IfOk};
ghost use Rattle.sect_lint.specs.Idle.{touches as touches_by, is_touched_in as touched_in_by, is_touched as touched_by};
ghost use Rattle.sect_lint.specs.Idle.{is_idle as idle_by, idle_from};
ghost use Rattle.sect_places.specs.Declarations.{is_record as record_by};

use sect_graph::Flow;
use sect_names::Scheme;
use sect_places::{NameSpan, Role, Thing};
use sect_types::{Action, Label};
use std::alloc::{AllocError, Global};

/// Whether a node loads from an object of a record, or stores to one.
fn touches(label: Label, of: u16) -> bool
    ensures { result ≡ touches_by of label }
{
    match label {
        Label::Act(Action::Load(_, _, field)) | Label::Act(Action::Store(_, field, _)) => {
            field.of == of
        }
        _ => false,
    }
}

/// Whether a section touches an object of a record.
fn is_touched_in(flow: &Flow, of: u16) -> bool
    ensures { result ≡ touched_in_by of flow.now }
{
    for node in 0..flow.exit() {
        if touches(flow.action(node), of) {
            return true;
        }
    }
    false
}

/// Whether some section touches an object of a record.
fn is_touched(scheme: &Scheme, of: u16) -> bool
    ensures { result ≡ touched_by scheme.now of }
{
    scheme.facts();
    let graph = scheme.graph();
    for section in 0..scheme.program().section_count() {
        if is_touched_in(graph.section(section), of) {
            return true;
        }
    }
    false
}

/// Whether a record has a guard, and no section touches an object of it.
fn is_idle(scheme: &Scheme, of: u16) -> bool
    ensures { result ≡ idle_by scheme.now of }
{
    scheme.guards().guard(of).is_some() && !is_touched(scheme, of)
}

/// Whether a record has a guard, and no section touches an object of it. A record that isn't there has none.
fn is_idle_at(scheme: &Scheme, number: usize) -> bool
    ensures { result ≡ idle_by scheme.now number }
{
    scheme.facts();
    scheme.program().facts();
    number < scheme.guards().len() && is_idle(scheme, number as u16)
}

fn is_record(named: &NameSpan) -> bool
    ensures { result ≡ record_by named.now.used.role }
{
    matches!(named.used.role, Role::Declared(Thing::Record))
}

/// The names of the records that have a hint and of which no section touches an object, in text order.
pub fn idle_hints(
    alloc: Global,
    scheme: &Scheme,
    names: &[NameSpan],
) -> Result<Vec<NameSpan>, AllocError>
    ensures { IfOk result (λ list. list.items ≡ idle_from scheme.now 0 names.now) }
{
    let mut list = Vec::new(alloc);
    let mut number = 0;
    for named in names {
        if is_record(named) {
            if is_idle_at(scheme, number) {
                list.push(*named)?;
            }
            number += 1;
        }
    }
    Ok(list)
}
