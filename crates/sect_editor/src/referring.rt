//! Which declaration a name of a text refers to, and which names refer to it.

ghost use Rattle.std.specs.Prelude.{◌≡◌, ◌<◌, IfSome, IfOk, length, position};
ghost use Rattle.sect_lint.specs.Naming.{found as found_by, variable as variable_by, base_by, field_by};
ghost use Rattle.sect_editor.specs.Referring.{base_record as base_record_by, type_by, record_by};
ghost use Rattle.sect_editor.specs.Referring.{declaration_of as declaration_by, touches as touches_by};
ghost use Rattle.sect_editor.specs.Referring.{name_at as name_at_by, is_there as is_there_by};
ghost use Rattle.sect_editor.specs.Referring.{declared_under as declared_under_by, refers as refers_by};
ghost use Rattle.sect_editor.specs.Referring.{uses_of as uses_by};

use sect_front::{Name, Span};
use sect_places::{
    NameSpan, Role, base_in, field_of, global_of, procedure_of, record_of, type_in, variable_of,
};
use std::alloc::{AllocError, Global};

/// The name of a number.
fn found(names: &[NameSpan], number: Option<usize>) -> Option<NameSpan>
    requires { IfSome number (λ k. k < length names.now) }
    ensures { result ≡ found_by names.now number }
{
    match number {
        Some(k) => Some(names[k]),
        None => None,
    }
}

/// The declaration of a variable.
fn variable(names: &[NameSpan], scope: usize, name: &Name) -> Option<NameSpan>
    ensures { result ≡ variable_by names.now scope name.now }
{
    found(names, variable_of(names, scope, name))
}

/// The declaration of what stands before a dot.
fn base_of(names: &[NameSpan], base: Option<NameSpan>) -> Option<NameSpan>
    ensures { result ≡ base_by names.now base }
{
    match base {
        Some(base) => variable(names, base.used.scope, &base.used.name),
        None => None,
    }
}

/// The name of the record that a declaration refers to.
pub fn type_of(names: &[NameSpan], declared: Option<NameSpan>) -> Option<NameSpan>
    ensures { result ≡ type_by names.now declared }
{
    match declared {
        Some(declared) => found(names, type_in(names, declared.used.item)),
        None => None,
    }
}

/// The declaration of a record that is named.
fn record_named(names: &[NameSpan], named: Option<NameSpan>) -> Option<NameSpan>
    ensures { result ≡ record_by names.now named }
{
    match named {
        Some(named) => found(names, record_of(names, &named.used.name)),
        None => None,
    }
}

/// The record that what stands before the dot of an item refers to.
pub fn base_record(names: &[NameSpan], item: usize) -> Option<NameSpan>
    ensures { result ≡ base_record_by names.now item }
{
    let base = base_of(names, found(names, base_in(names, item)));
    record_named(names, type_of(names, base))
}

/// The field of a record.
fn field_in(names: &[NameSpan], field: &Name, declared: Option<NameSpan>) -> Option<NameSpan>
    ensures { result ≡ field_by names.now field.now declared }
{
    match declared {
        Some(declared) => found(names, field_of(names, declared.used.item, field)),
        None => None,
    }
}

/// The declaration that a name refers to.
pub fn declaration_of(names: &[NameSpan], named: &NameSpan) -> Option<NameSpan>
    ensures { result ≡ declaration_by names.now named.now }
{
    let used = &named.used;
    match used.role {
        Role::Declared(_) => Some(*named),
        Role::Type => found(names, record_of(names, &used.name)),
        Role::Guard => found(names, global_of(names, &used.name)),
        Role::Target | Role::Base | Role::Operand(_) => variable(names, used.scope, &used.name),
        Role::Field => field_in(names, &used.name, base_record(names, used.item)),
        Role::Procedure => found(names, procedure_of(names, &used.name)),
    }
}

/// Whether a place stands at a byte of a name, or right behind it.
fn touches(named: &NameSpan, at: usize) -> bool
    ensures { result ≡ touches_by at named.now }
{
    named.span.start <= at && at <= named.span.end
}

fn number_at(names: &[NameSpan], at: usize) -> Option<usize>
    ensures is { result ≡ position (touches_by at) names.now }
    ensures within { IfSome result (λ k. k < length names.now) }
{
    names.iter().position(|named| touches(named, at))
}

/// The name at a place.
pub fn name_at(names: &[NameSpan], at: usize) -> Option<NameSpan>
    ensures { result ≡ name_at_by names.now at }
{
    found(names, number_at(names, at))
}

/// The declaration of the name at a place, if one is told.
pub fn declared_under(names: &[NameSpan], at: usize) -> Option<NameSpan>
    ensures { result ≡ declared_under_by names.now at }
{
    match name_at(names, at) {
        Some(named) => declaration_of(names, &named),
        None => None,
    }
}

/// Whether this is the declaration.
fn is_there(declared: &NameSpan, other: Option<NameSpan>) -> bool
    ensures { result ≡ is_there_by declared.now other }
{
    match other {
        Some(other) => other.span.start == declared.span.start,
        None => false,
    }
}

/// Whether a name refers to a declaration.
fn refers(names: &[NameSpan], declared: &NameSpan, named: &NameSpan) -> bool
    ensures { result ≡ refers_by names.now declared.now named.now }
{
    named.used.name == declared.used.name && is_there(declared, declaration_of(names, named))
}

/// The bytes of all names that refer to a declaration, with its own, in text order.
pub fn uses_of(
    alloc: Global,
    names: &[NameSpan],
    declared: &NameSpan,
) -> Result<Vec<Span>, AllocError>
    ensures { IfOk result (λ spans. spans.items ≡ uses_by names.now declared.now) }
{
    let mut spans = Vec::new(alloc);
    for named in names {
        if refers(names, declared, named) {
            spans.push(named.span)?;
        }
    }
    Ok(spans)
}
