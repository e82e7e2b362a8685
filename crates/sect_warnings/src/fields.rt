//! The fields that sections use.

ghost use Rattle.std.specs.Prelude.{◌≡◌, ◌<◌, ◌||◌, length, IfOk, OnOk};
ghost use Rattle.sect_types.specs.Sections.{sections_of};
ghost use Rattle.sect_warnings.specs.Fields.{stored as stored_by, used as used_by, is_same_field, has_field as has_by};
ghost use Rattle.sect_warnings.specs.Fields.{with_field, have_common as have_common_by, have_record};
ghost use Rattle.sect_warnings.specs.Fields.{has_record as has_record_by};
ghost use Rattle.sect_warnings.specs.steps.Usage.{AreUsed, AreAllUsed};

use sect_emit::{Compiled, section_flow};
use sect_types::{Action, Field, Label};
use std::alloc::{AllocError, Global};

/// The field that a node stores to.
fn stored(label: Label) -> Option<Field>
    ensures { result ≡ stored_by label }
{
    match label {
        Label::Act(Action::Store(_, field, _)) => Some(field),
        _ => None,
    }
}

/// The field that a node loads from or stores to.
fn used(label: Label) -> Option<Field>
    ensures { result ≡ used_by label }
{
    match label {
        Label::Act(Action::Load(_, _, field)) | Label::Act(Action::Store(_, field, _)) => {
            Some(field)
        }
        _ => None,
    }
}

pub fn is_same(field: Field, other: Field) -> bool
    ensures { result ≡ is_same_field field other }
{
    field.of == other.of && field.number == other.number
}

fn has_field(fields: &[Field], wanted: Field) -> bool
    ensures { result ≡ has_by fields.now wanted }
{
    fields.iter().any(|field| is_same(*field, wanted))
}

/// Adds a field that isn't there yet.
fn add_field(fields: &mut Vec<Field>, field: Option<Field>) -> Result<(), AllocError>
    ensures { OnOk result (fields.new.items ≡ with_field fields.old.items field) }
{
    let Some(field) = field else {
        return Ok(());
    };
    if has_field(fields.as_slice(), field) {
        return Ok(());
    }
    fields.push(field)?;
    Ok(())
}

/// The fields that a section stores to, and all that it uses, each once, in the order of their first nodes.
#[derive(Drop)]
pub struct Usage {
    pub stored: Vec<Field>,
    pub used: Vec<Field>,
}

/// The fields of a section.
pub fn usage_of(alloc: Global, compiled: &Compiled, section: u16) -> Result<Usage, AllocError>
    requires { section < length (sections_of compiled.now.scheme.program.texts) }
    ensures { IfOk result (AreUsed compiled.now section) }
{
    let flow = section_flow(compiled, section);
    let mut stores = Vec::new(alloc);
    let mut uses = Vec::new(alloc);
    for node in 0..flow.exit() {
        add_field(&mut stores, stored(flow.action(node)))?;
        add_field(&mut uses, used(flow.action(node)))?;
    }
    Ok(Usage {
        stored: stores,
        used: uses,
    })
}

/// The fields of all sections.
pub fn usages_of(alloc: Global, compiled: &Compiled) -> Result<Vec<Usage>, AllocError>
    ensures { IfOk result (λ usages. AreAllUsed compiled.now usages.items) }
{
    compiled.facts();
    let mut usages = Vec::new(alloc);
    for section in 0..compiled.scheme().program().section_count() {
        usages.push(usage_of(alloc, compiled, section)?)?;
    }
    Ok(usages)
}

/// Whether some field is in both lists.
fn have_common(fields: &[Field], others: &[Field]) -> bool
    ensures { result ≡ have_common_by fields.now others.now }
{
    fields.iter().any(|field| has_field(others, *field))
}

/// Whether a list has a field of the record that this one is of.
fn has_record(fields: &[Field], wanted: Field) -> bool
    ensures { result ≡ has_record_by fields.now wanted }
{
    fields.iter().any(|field| field.of == wanted.of)
}

/// Whether two sections use fields of one record.
pub fn share_record(one: &Usage, other: &Usage) -> bool
    ensures { result ≡ have_record one.now.used.items other.now.used.items }
{
    let others = other.used.as_slice();
    one.used
        .as_slice()
        .iter()
        .any(|field| has_record(others, *field))
}

/// Whether one of two sections stores to a field that the other uses.
pub fn share_field(one: &Usage, other: &Usage) -> bool
    ensures { result ≡ (have_common_by one.now.stored.items other.now.used.items
        || have_common_by other.now.stored.items one.now.used.items) }
{
    have_common(one.stored.as_slice(), other.used.as_slice())
        || have_common(other.stored.as_slice(), one.used.as_slice())
}
