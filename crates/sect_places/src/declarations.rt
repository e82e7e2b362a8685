//! Which declaration a name of a text refers to.

ghost use Rattle.std.specs.Prelude.{◌≡◌, ◌<◌, IfSome, length};
ghost use Rattle.sect_places.specs.Declarations.{is_record, is_field, is_global, is_procedure, is_local, is_type};
ghost use Rattle.sect_places.specs.Declarations.{is_base, is_called, is_called_in, does_in, record_of as record_by};
ghost use Rattle.sect_places.specs.Declarations.{global_of as global_by, procedure_of as procedure_by};
ghost use Rattle.sect_places.specs.Declarations.{field_of as field_by, local_of as local_by};
ghost use Rattle.sect_places.specs.Declarations.{variable_of as variable_by, type_in as type_by, base_in as base_by};

use crate::name_use::{NameSpan, Role, Thing};
use sect_front::Name;

fn declares_record(named: &NameSpan, name: &Name) -> bool
    ensures { result ≡ is_called is_record name.now named.now }
{
    matches!(named.used.role, Role::Declared(Thing::Record)) && *name == named.used.name
}

fn declares_global(named: &NameSpan, name: &Name) -> bool
    ensures { result ≡ is_called is_global name.now named.now }
{
    matches!(named.used.role, Role::Declared(Thing::Global)) && *name == named.used.name
}

fn declares_procedure(named: &NameSpan, name: &Name) -> bool
    ensures { result ≡ is_called is_procedure name.now named.now }
{
    matches!(named.used.role, Role::Declared(Thing::Procedure)) && *name == named.used.name
}

fn declares_field(named: &NameSpan, scope: usize, name: &Name) -> bool
    ensures { result ≡ is_called_in is_field scope name.now named.now }
{
    named.used.scope == scope
        && matches!(named.used.role, Role::Declared(Thing::Field))
        && *name == named.used.name
}

fn declares_local(named: &NameSpan, scope: usize, name: &Name) -> bool
    ensures { result ≡ is_called_in is_local scope name.now named.now }
{
    named.used.scope == scope
        && matches!(named.used.role, Role::Declared(Thing::Local))
        && *name == named.used.name
}

fn is_type_in(named: &NameSpan, item: usize) -> bool
    ensures { result ≡ does_in is_type item named.now }
{
    named.used.item == item && matches!(named.used.role, Role::Type)
}

fn is_base_in(named: &NameSpan, item: usize) -> bool
    ensures { result ≡ does_in is_base item named.now }
{
    named.used.item == item && matches!(named.used.role, Role::Base)
}

/// The record of a name, by the number of its declaration among the names of the text.
pub fn record_of(names: &[NameSpan], name: &Name) -> Option<usize>
    ensures is { result ≡ record_by names.now name.now }
    ensures within { IfSome result (λ number. number < length names.now) }
{
    names.iter().position(|named| declares_record(named, name))
}

/// The global of a name.
pub fn global_of(names: &[NameSpan], name: &Name) -> Option<usize>
    ensures is { result ≡ global_by names.now name.now }
    ensures within { IfSome result (λ number. number < length names.now) }
{
    names.iter().position(|named| declares_global(named, name))
}

/// The procedure of a name.
pub fn procedure_of(names: &[NameSpan], name: &Name) -> Option<usize>
    ensures is { result ≡ procedure_by names.now name.now }
    ensures within { IfSome result (λ number. number < length names.now) }
{
    names
        .iter()
        .position(|named| declares_procedure(named, name))
}

/// The field of a name in the record whose item this is.
pub fn field_of(names: &[NameSpan], scope: usize, name: &Name) -> Option<usize>
    ensures is { result ≡ field_by names.now scope name.now }
    ensures within { IfSome result (λ number. number < length names.now) }
{
    names
        .iter()
        .position(|named| declares_field(named, scope, name))
}

/// The local of a name in the thread or procedure whose item this is.
fn local_of(names: &[NameSpan], scope: usize, name: &Name) -> Option<usize>
    ensures is { result ≡ local_by names.now scope name.now }
    ensures within { IfSome result (λ number. number < length names.now) }
{
    names
        .iter()
        .position(|named| declares_local(named, scope, name))
}

/// The local, or else the global, that a name denotes in the thread or procedure whose item this is.
pub fn variable_of(names: &[NameSpan], scope: usize, name: &Name) -> Option<usize>
    ensures is { result ≡ variable_by names.now scope name.now }
    ensures within { IfSome result (λ number. number < length names.now) }
{
    match local_of(names, scope, name) {
        Some(number) => Some(number),
        None => global_of(names, name),
    }
}

/// The name of the record that the declaration of this item refers to. There is none where it is an `int`.
pub fn type_in(names: &[NameSpan], item: usize) -> Option<usize>
    ensures is { result ≡ type_by names.now item }
    ensures within { IfSome result (λ number. number < length names.now) }
{
    names.iter().position(|named| is_type_in(named, item))
}

/// The name before the dot in this item.
pub fn base_in(names: &[NameSpan], item: usize) -> Option<usize>
    ensures is { result ≡ base_by names.now item }
    ensures within { IfSome result (λ number. number < length names.now) }
{
    names.iter().position(|named| is_base_in(named, item))
}
