//! What the names of a text tell of a mistake.

ghost use Rattle.std.specs.Prelude.{◌≡◌, ◌<◌, IfSome, length};
ghost use Rattle.sect_places.specs.Declarations.{base_in as base_in_by};
ghost use Rattle.sect_lint.specs.Naming.{found as found_by, type_of as type_by, variable as variable_by};
ghost use Rattle.sect_lint.specs.Naming.{base_by as base_variable_by, base_type as base_type_by};
ghost use Rattle.sect_lint.specs.Naming.{field_in as field_in_by, member_of as member_by, unknown_at as unknown_at_by};
ghost use Rattle.sect_lint.specs.Naming.{declared_at as declared_at_by, earlier_at as earlier_at_by};
ghost use Rattle.sect_lint.specs.Naming.{knows_field as knows_field_by, knows as knows_by, is_unknown_in as unknown_by};
ghost use Rattle.sect_lint.specs.Naming.{unknown_name as unknown_name_by, clashes as clashes_when};
ghost use Rattle.sect_lint.specs.Naming.{is_earlier as earlier_by, is_declared_in, earlier_name as earlier_name_by};
ghost use Rattle.sect_lint.specs.Naming.{earlier_detail as earlier_detail_by};

use crate::diagnostic::Detail;
use sect_front::Name;
use sect_places::{
    NameSpan, Role, Thing, base_in, field_of, global_of, procedure_of, record_of, type_in,
    variable_of,
};

/// The name of a number.
pub fn found(names: &[NameSpan], number: Option<usize>) -> Option<NameSpan>
    requires { IfSome number (λ k. k < length names.now) }
    ensures { result ≡ found_by names.now number }
{
    match number {
        Some(k) => Some(names[k]),
        None => None,
    }
}

/// The record that what is declared refers to, unless it is an `int`.
pub fn type_of(names: &[NameSpan], declared: &NameSpan) -> Option<Name>
    ensures { result ≡ type_by names.now declared.now }
{
    match found(names, type_in(names, declared.used.item)) {
        Some(named) => Some(named.used.name),
        None => None,
    }
}

/// The declaration of a variable.
pub fn variable(names: &[NameSpan], scope: usize, name: &Name) -> Option<NameSpan>
    ensures { result ≡ variable_by names.now scope name.now }
{
    found(names, variable_of(names, scope, name))
}

/// The declaration of what stands before the dot of an item.
fn base_variable(names: &[NameSpan], item: usize) -> Option<NameSpan>
    ensures { result ≡ base_variable_by names.now (found_by names.now (base_in_by names.now item)) }
{
    match found(names, base_in(names, item)) {
        Some(base) => variable(names, base.used.scope, &base.used.name),
        None => None,
    }
}

/// The record that what stands before the dot of an item refers to, if it refers to one.
fn base_type(names: &[NameSpan], item: usize) -> Option<Name>
    ensures { result ≡ base_type_by names.now item }
{
    match base_variable(names, item) {
        Some(declared) => type_of(names, &declared),
        None => None,
    }
}

/// The field of a record, both by name.
fn field_in(names: &[NameSpan], field: &Name, declared: &Name) -> Option<NameSpan>
    ensures { result ≡ field_in_by names.now field.now declared.now }
{
    match found(names, record_of(names, declared)) {
        Some(shape) => found(names, field_of(names, shape.used.item, field)),
        None => None,
    }
}

/// The field behind the dot of an item.
pub fn member_of(names: &[NameSpan], item: usize, field: &Name) -> Option<NameSpan>
    ensures { result ≡ member_by names.now item field.now }
{
    match base_type(names, item) {
        Some(declared) => field_in(names, field, &declared),
        None => None,
    }
}

/// Whether there is such a field behind the dot of an item, as far as that is known.
fn knows_field(names: &[NameSpan], item: usize, field: &Name) -> bool
    ensures { result ≡ knows_field_by names.now field.now (base_type_by names.now item) }
{
    match base_type(names, item) {
        Some(declared) => field_in(names, field, &declared).is_some(),
        None => true,
    }
}

/// Whether a name has a declaration.
fn knows(names: &[NameSpan], named: &NameSpan) -> bool
    ensures { result ≡ knows_by names.now named.now named.now.used.role }
{
    let used = named.used;
    match used.role {
        Role::Declared(_) => true,
        Role::Type => record_of(names, &used.name).is_some(),
        Role::Guard => global_of(names, &used.name).is_some(),
        Role::Target => variable_of(names, used.scope, &used.name).is_some(),
        Role::Base => variable_of(names, used.scope, &used.name).is_some(),
        Role::Field => knows_field(names, used.item, &used.name),
        Role::Operand(_) => variable_of(names, used.scope, &used.name).is_some(),
        Role::Procedure => procedure_of(names, &used.name).is_some(),
    }
}

/// Whether a name stands in an item, and nothing has it.
fn is_unknown_in(names: &[NameSpan], item: usize, named: &NameSpan) -> bool
    ensures { result ≡ unknown_by names.now item named.now }
{
    named.used.item == item && !knows(names, named)
}

fn unknown_at(names: &[NameSpan], item: usize) -> Option<usize>
    ensures is { result ≡ unknown_at_by names.now item }
    ensures within { IfSome result (λ k. k < length names.now) }
{
    names
        .iter()
        .position(|named| is_unknown_in(names, item, named))
}

/// The first name of an item that nothing has.
pub fn unknown_name(names: &[NameSpan], item: usize) -> Option<NameSpan>
    ensures { result ≡ unknown_name_by names.now item }
{
    found(names, unknown_at(names, item))
}

/// Whether what is declared so can't have the name of a thing; `here` says whether both stand in one declaration.
fn clashes(thing: Thing, role: Role, here: bool) -> bool
    ensures { result ≡ clashes_when thing role here }
{
    match thing {
        Thing::Record => matches!(role, Role::Declared(Thing::Record)),
        Thing::Field => here && matches!(role, Role::Declared(Thing::Field)),
        Thing::Global => matches!(role, Role::Declared(Thing::Global)),
        Thing::Procedure => matches!(role, Role::Declared(Thing::Procedure)),
        Thing::Thread => matches!(role, Role::Declared(Thing::Thread)),
        Thing::Local => {
            (here && matches!(role, Role::Declared(Thing::Local)))
                || matches!(role, Role::Declared(Thing::Global))
        }
    }
}

/// Whether a name is an earlier declaration of what is declared.
fn is_earlier(declared: &NameSpan, named: &NameSpan) -> bool
    ensures { result ≡ earlier_by declared.now named.now }
{
    let here = named.used.scope == declared.used.scope;
    named.used.item < declared.used.item
        && named.used.name == declared.used.name
        && match declared.used.role {
            Role::Declared(thing) => clashes(thing, named.used.role, here),
            _ => false,
        }
}

/// Whether a name is declared in an item.
fn declares(named: &NameSpan, item: usize) -> bool
    ensures { result ≡ is_declared_in item named.now }
{
    named.used.item == item && matches!(named.used.role, Role::Declared(_))
}

pub fn declared_at(names: &[NameSpan], item: usize) -> Option<usize>
    ensures is { result ≡ declared_at_by names.now item }
    ensures within { IfSome result (λ k. k < length names.now) }
{
    names.iter().position(|named| declares(named, item))
}

fn earlier_at(names: &[NameSpan], declared: &NameSpan) -> Option<usize>
    ensures is { result ≡ earlier_at_by names.now declared.now }
    ensures within { IfSome result (λ k. k < length names.now) }
{
    names.iter().position(|named| is_earlier(declared, named))
}

/// The first declaration of the name that an item declares again.
fn earlier_name(names: &[NameSpan], item: usize) -> Option<NameSpan>
    ensures { result ≡ earlier_name_by names.now item }
{
    match found(names, declared_at(names, item)) {
        Some(declared) => found(names, earlier_at(names, &declared)),
        None => None,
    }
}

/// Where the name that an item declares again is first declared.
pub fn earlier_detail(names: &[NameSpan], item: usize) -> Detail
    ensures { result ≡ earlier_detail_by (earlier_name_by names.now item) }
{
    match earlier_name(names, item) {
        Some(named) => Detail::Earlier(named.span),
        None => Detail::Nothing,
    }
}
