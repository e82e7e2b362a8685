//! What may be written at a place of a text, whether or not it is one of the language.

ghost use Rattle.std.specs.Prelude.{◌≡◌, ◌<◌, ◌≤◌, ◌∷◌, ◌++◌, [], IfOk, IfSome, OnOk, length, map, filter, position};
ghost use Rattle.serde_json.specs.View.{view};
ghost use Rattle.sect_editor.specs.Completing.{is_thing as is_thing_by, is_named as is_named_by};
ghost use Rattle.sect_editor.specs.Completing.{is_named_in as is_in_by, found_in, variable_of as variable_by};
ghost use Rattle.sect_editor.specs.Completing.{record_named as record_named_by, record_of as record_by};
ghost use Rattle.sect_editor.specs.Completing.{is_field_of as is_field_by, item_kind as kind_by, item_json};
ghost use Rattle.sect_editor.specs.Completing.{declared_item, keyword_item, outer_keywords, inner_keywords};
ghost use Rattle.sect_editor.specs.Completing.{is_offered as is_offered_by, offers, IsCompletion};
ghost use Rattle.sect_places.specs.declared.name_use.Thing.TheVariants.{Local};

use crate::declaring::{Declared, base_of, declared_in, scope_of};
use crate::words::words_of;
use sect_front::Name;
use sect_places::Thing;
use serde_json::{Value, json};
use std::alloc::{AllocError, Global};

/// Whether two things are of one kind.
fn is_thing(what: Thing, other: Thing) -> bool
    ensures { result ≡ is_thing_by what other }
{
    what == other
}

/// Whether that is declared under that name.
fn is_named(declared: &Declared, what: Thing, name: &Name) -> bool
    ensures { result ≡ is_named_by what name.now declared.now }
{
    is_thing(what, declared.what) && *name == declared.name
}

/// Whether that is declared under that name in that declaration.
fn is_named_in(declared: &Declared, scope: usize, what: Thing, name: &Name) -> bool
    ensures { result ≡ is_in_by scope what name.now declared.now }
{
    declared.scope == scope && is_named(declared, what, name)
}

/// What is declared at a place, if one is given.
fn found(all: &[Declared], number: Option<usize>) -> Option<Declared>
    requires { IfSome number (λ k. k < length all.now) }
    ensures { result ≡ found_in all.now number }
{
    match number {
        Some(k) => Some(all[k]),
        None => None,
    }
}

/// The number of the local of a name.
fn local_of(all: &[Declared], scope: usize, name: &Name) -> Option<usize>
    ensures is { result ≡ position (is_in_by scope Local name.now) all.now }
    ensures within { IfSome result (λ k. k < length all.now) }
{
    all.iter().position(|declared| is_named_in(declared, scope, Thing::Local, name))
}

/// The number of what is declared so under a name.
fn number_of(all: &[Declared], what: Thing, name: &Name) -> Option<usize>
    ensures is { result ≡ position (is_named_by what name.now) all.now }
    ensures within { IfSome result (λ k. k < length all.now) }
{
    all.iter()
        .position(|declared| is_named(declared, what, name))
}

/// The local of a name, or else the global.
fn variable_of(all: &[Declared], scope: usize, name: &Name) -> Option<Declared>
    ensures { result ≡ variable_by all.now scope name.now }
{
    let number = local_of(all, scope, name).or(number_of(all, Thing::Global, name));
    found(all, number)
}

/// The record of a name.
fn record_named(all: &[Declared], name: &Name) -> Option<Declared>
    ensures { result ≡ record_named_by all.now name.now }
{
    found(all, number_of(all, Thing::Record, name))
}

/// The record of a variable's type.
fn record_of(all: &[Declared], scope: usize, name: &Name) -> Option<Declared>
    ensures { result ≡ record_by all.now scope name.now }
{
    record_named(all, &variable_of(all, scope, name)?.of?)
}

/// How the protocol calls what is offered.
fn item_kind(what: Thing) -> u32
    ensures { result ≡ kind_by what }
{
    match what {
        Thing::Record => 22,
        Thing::Field => 5,
        Thing::Procedure => 3,
        Thing::Global | Thing::Thread | Thing::Local => 6,
    }
}

/// What is offered.
fn item_value(alloc: Global, kind: u32, label: &str) -> Result<Value, AllocError>
    ensures { IfOk result (λ v. view v ≡ item_json kind label.now) }
{
    json!(in alloc; {"kind": kind, "label": label})
}

/// A declared name that is offered.
fn declared_value(alloc: Global, declared: &Declared) -> Result<Value, AllocError>
    ensures { IfOk result (λ v. view v ≡ declared_item declared.now) }
{
    let label = format!(in alloc; "{}", declared.name)?;
    item_value(alloc, item_kind(declared.what), label.as_str())
}

/// Adds a keyword to what is offered.
fn put_keyword(alloc: Global, values: &mut Vec<Value>, word: &str) -> Result<(), AllocError>
    ensures { OnOk result (map view values.new.items ≡ map view values.old.items ++ keyword_item word.now ∷ []) }
{
    values.push(item_value(alloc, 14, word)?)?;
    Ok(())
}

/// Adds the keywords that may begin a declaration, or stand in one.
fn put_outer_keywords(alloc: Global, values: &mut Vec<Value>) -> Result<(), AllocError>
    ensures { OnOk result (map view values.new.items ≡ map view values.old.items ++ map keyword_item outer_keywords) }
{
    put_keyword(alloc, values, "global")?;
    put_keyword(alloc, values, "int")?;
    put_keyword(alloc, values, "proc")?;
    put_keyword(alloc, values, "protected_by")?;
    put_keyword(alloc, values, "record")?;
    put_keyword(alloc, values, "thread")
}

/// Adds the keywords of statements.
fn put_inner_keywords(alloc: Global, values: &mut Vec<Value>) -> Result<(), AllocError>
    ensures { OnOk result (map view values.new.items ≡ map view values.old.items ++ map keyword_item inner_keywords) }
{
    put_keyword(alloc, values, "all")?;
    put_keyword(alloc, values, "atomic")?;
    put_keyword(alloc, values, "call")?;
    put_keyword(alloc, values, "else")?;
    put_keyword(alloc, values, "if")?;
    put_keyword(alloc, values, "new")?;
    put_keyword(alloc, values, "null")?;
    put_keyword(alloc, values, "print")?;
    put_keyword(alloc, values, "while")
}

/// Whether a declared name is known where one writes.
fn is_offered(declared: &Declared, scope: usize) -> bool
    ensures { result ≡ is_offered_by scope declared.now }
{
    match declared.what {
        Thing::Record | Thing::Global | Thing::Procedure => true,
        Thing::Local => declared.scope == scope,
        Thing::Field | Thing::Thread => false,
    }
}

/// Adds the names that are known where one writes.
fn put_known(
    alloc: Global,
    values: &mut Vec<Value>,
    all: &[Declared],
    scope: usize,
) -> Result<(), AllocError>
    ensures { OnOk result (map view values.new.items
        ≡ map view values.old.items ++ map declared_item (filter (is_offered_by scope) all.now)) }
{
    for declared in all {
        if is_offered(declared, scope) {
            values.push(declared_value(alloc, declared)?)?;
        }
    }
    Ok(())
}

/// Whether something is a field of the record of that number.
fn is_field_of(declared: &Declared, scope: usize) -> bool
    ensures { result ≡ is_field_by scope declared.now }
{
    declared.scope == scope && is_thing(Thing::Field, declared.what)
}

/// Adds the fields of a record.
fn put_fields(
    alloc: Global,
    values: &mut Vec<Value>,
    all: &[Declared],
    scope: usize,
) -> Result<(), AllocError>
    ensures { OnOk result (map view values.new.items
        ≡ map view values.old.items ++ map declared_item (filter (is_field_by scope) all.now)) }
{
    for declared in all {
        if is_field_of(declared, scope) {
            values.push(declared_value(alloc, declared)?)?;
        }
    }
    Ok(())
}

/// Adds what is offered in a declaration, behind this name and a dot if there is one.
fn put_offers(
    alloc: Global,
    values: &mut Vec<Value>,
    all: &[Declared],
    scope: usize,
    base: Option<Name>,
) -> Result<(), AllocError>
    ensures { OnOk result (map view values.new.items ≡ map view values.old.items ++ offers all.now scope base) }
{
    match base {
        None => {
            put_outer_keywords(alloc, values)?;
            put_inner_keywords(alloc, values)?;
            put_known(alloc, values, all, scope)
        }
        Some(name) => match record_of(all, scope, &name) {
            Some(record) => put_fields(alloc, values, all, record.scope),
            None => Ok(()),
        },
    }
}

/// What may be written behind a byte of a text, if there is one.
pub fn completion_value(
    alloc: Global,
    source: &[u8],
    at: Option<usize>,
) -> Result<Value, AllocError>
    requires { IfSome at (λ a. a ≤ length source.now) }
    ensures { IfOk result (λ v. IsCompletion source.now at (view v)) }
{
    let Some(at) = at else {
        return Ok(Value::Null);
    };
    let all = words_of(alloc, source)?;
    let declared = declared_in(alloc, all.as_slice())?;
    let front = words_of(alloc, &source[..at])?;
    let (scope, base) = (scope_of(front.as_slice()), base_of(front.as_slice()));
    let mut values = Vec::new(alloc);
    put_offers(alloc, &mut values, declared.as_slice(), scope, base)?;
    Ok(Value::Array(values))
}
