//! Types by number.

ghost use Rattle.std.specs.Prelude.{◌≡◌, ◌++◌, true, IfOk, length};
ghost use Rattle.sect_types.specs.{Rules.{knows_kind}, Sight.{has_name}};
ghost use Rattle.sect_types.specs.Environments.{record_number as record_number_by, type_of as type_by};
ghost use Rattle.sect_types.specs.Environments.{types_of as types_by, field_types as field_types_by};
ghost use Rattle.sect_types.specs.Environments.{global_records as global_records_by};
ghost use Rattle.sect_types.specs.steps.Listing.{all_known, fields_fine, globals_known, locals_fine};
ghost use Rattle.sect_types.specs.steps.FreshTypes.{fresh_types as fresh_types_by, local_types as local_types_by};
ghost use Rattle.sect_types.specs.steps.FreshTypes.{fresh_known, all_fresh_known};

use crate::declarations::names::Names;
use crate::expansion::expand::Fresh;
use sect_front::{Declaration, GlobalObject, Items, Kind, Name, Record, Thread};
use std::alloc::{AllocError, Global};

/// What a field or a local holds.
#[derive(Clone, Copy, Debug, PartialEq, Eq)]
pub enum ValueType {
    /// An `i64`.
    Int,
    /// `null`, or a reference to an object of the record of this number.
    Refers(u16),
}

/// The number of a record that is known.
#[tactic(auto, using(crate::proofs::Heads::placed))]
fn record_number(record_names: &Names, name: &Name) -> u16
    requires { has_name name.now record_names.now ≡ true }
    ensures { result ≡ record_number_by record_names.now name.now }
{
    record_names.number_of(name).unwrap()
}

/// The type that is written so.
fn type_of(record_names: &Names, kind: &Kind) -> ValueType
    requires { knows_kind record_names.now kind.now ≡ true }
    ensures { result ≡ type_by record_names.now kind.now }
{
    match kind {
        Kind::Int => ValueType::Int,
        Kind::Record(name) => ValueType::Refers(record_number(record_names, name)),
    }
}

/// The types of these declarations.
fn types_of(
    alloc: Global,
    record_names: &Names,
    list: &[Declaration],
) -> Result<Items<ValueType>, AllocError>
    requires { all_known record_names.now list.now ≡ true }
    ensures { IfOk result (λ types. types ≡ types_by record_names.now list.now) }
{
    let mut types = Items::new(alloc);
    for declaration in list {
        types.push(type_of(record_names, &declaration.kind))?;
    }
    Ok(types)
}

/// The types of the fields of each record.
pub(crate) fn field_types(
    alloc: Global,
    record_names: &Names,
    records: &[Record],
) -> Result<Vec<Items<ValueType>>, AllocError>
    requires { fields_fine record_names.now records.now ≡ true }
    ensures { IfOk result (λ all. all.items ≡ field_types_by record_names.now records.now) }
{
    let mut all = Vec::new(alloc);
    for of in records {
        let types = types_of(alloc, record_names, of.fields.as_slice())?;
        all.push(types)?;
    }
    Ok(all)
}

/// The number of the record of each global.
pub(crate) fn global_records(
    alloc: Global,
    record_names: &Names,
    globals: &[GlobalObject],
) -> Result<Vec<u16>, AllocError>
    requires { globals_known record_names.now globals.now ≡ true }
    ensures { IfOk result (λ all. all.items ≡ global_records_by record_names.now globals.now) }
{
    let mut all = Vec::new(alloc);
    for global in globals {
        all.push(record_number(record_names, &global.of))?;
    }
    Ok(all)
}

/// The types of the locals of a thread, the fresh ones after its own.
fn all_types_of(
    alloc: Global,
    record_names: &Names,
    thread: &Thread,
    fresh: &Items<Fresh>,
) -> Result<Items<ValueType>, AllocError>
    requires own { all_known record_names.now thread.now.locals ≡ true }
    requires fresh { fresh_known record_names.now fresh.now ≡ true }
    ensures { IfOk result (λ types. types ≡ types_by record_names.now thread.now.locals
        ++ fresh_types_by record_names.now fresh.now) }
{
    let mut types = types_of(alloc, record_names, thread.locals.as_slice())?;
    for local in fresh.as_slice() {
        types.push(type_of(record_names, &local.declared.kind))?;
    }
    Ok(types)
}

/// The types of the locals of each thread, the fresh ones after its own.
pub(crate) fn local_types(
    alloc: Global,
    record_names: &Names,
    threads: &[Thread],
    fresh: &[Items<Fresh>],
) -> Result<Vec<Items<ValueType>>, AllocError>
    requires many { length threads.now ≡ length fresh.now }
    requires own { locals_fine record_names.now threads.now ≡ true }
    requires fresh { all_fresh_known record_names.now fresh.now ≡ true }
    ensures { IfOk result (λ all. all.items ≡ local_types_by record_names.now threads.now fresh.now) }
{
    let mut all = Vec::new(alloc);
    for number in 0..threads.len() {
        let types = all_types_of(alloc, record_names, &threads[number], &fresh[number])?;
        all.push(types)?;
    }
    Ok(all)
}
