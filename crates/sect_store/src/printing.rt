//! An outcome as it is printed.

ghost use Rattle.std.specs.{Prelude.{◌≡◌, ◌++◌, OnOk, [], slice_index_or, codes}, String.{string_bytes}};
ghost use Rattle.std.specs.{List.{flat_map}, Fmt.{decimal}};
ghost use Rattle.sect_types.specs.{Programs.{sites_of}, Sight.{names_of_globals, names_of_declared}};
ghost use Rattle.sect_store.specs.Printing.{by_place, thread_line, order_line, out_line, datum_text, fields_at};
ghost use Rattle.sect_store.specs.Printing.{field_text, fields_text, made_lines, store_lines, outcome_text};
ghost use Rattle.sect_store.specs.Printing.{object_name};

use crate::object::Object;
use crate::outcome::Outcome;
use crate::site::site_records;
use crate::store::Store;
use itoa::Buffer;
use sect_front::Declaration;
use sect_types::{Datum, End, ObjectName, Program};
use std::alloc::{AllocError, Global};
use std::fmt::Write;

/// Adds the outcome of a run of a program to a text: a line for each thread, the order, the output, and a line for each
/// object, with the program's names.
pub fn put_outcome(
    alloc: Global,
    text: &mut String,
    program: &Program,
    outcome: &Outcome,
) -> Result<(), AllocError>
    ensures { OnOk result (string_bytes text.new ≡ string_bytes text.old ++ outcome_text program.now outcome.now) }
{
    put_ends(text, outcome.ends())?;
    put_order(text, outcome.order())?;
    put_output(text, outcome.output())?;
    let sites = site_records(alloc, program)?;
    put_store(text, program, sites.as_slice(), outcome.store())
}

/// Adds how each thread has ended.
pub fn put_ends(text: &mut String, ends: &[Option<End>]) -> Result<(), AllocError>
    ensures { OnOk result (string_bytes text.new ≡ string_bytes text.old ++ by_place thread_line 0 ends.now) }
{
    for (thread, end) in ends.iter().enumerate() {
        match end {
            None => write!(text, "thread {thread} running\n")?,
            Some(end) => write!(text, "thread {thread} {end}\n")?,
        }
    }
    Ok(())
}

/// Adds the threads in the order of their sections.
pub fn put_order(text: &mut String, order: &[u16]) -> Result<(), AllocError>
    ensures { OnOk result (string_bytes text.new ≡ string_bytes text.old ++ order_line order.now) }
{
    if order.is_empty() {
        return text.push_str("order none\n");
    }
    text.push_str("order")?;
    for thread in order {
        text.push_str(" ")?;
        put_number(text, *thread as usize)?;
    }
    text.push_str("\n")
}

/// Adds the numbers that were printed.
pub fn put_output(text: &mut String, output: &[i64]) -> Result<(), AllocError>
    ensures { OnOk result (string_bytes text.new ≡ string_bytes text.old ++ flat_map out_line output.now) }
{
    for number in output {
        write!(text, "out {number}\n")?;
    }
    Ok(())
}

/// Adds the objects. `sites` has the record of each site.
pub fn put_store(
    text: &mut String,
    program: &Program,
    sites: &[u16],
    store: &Store,
) -> Result<(), AllocError>
    requires { sites.now ≡ sites_of program.now.globals program.now.texts }
    ensures { OnOk result (string_bytes text.new ≡ string_bytes text.old ++ store_lines program.now store.now) }
{
    for (global, object) in store.globals().iter().enumerate() {
        text.push_str("object ")?;
        put_global_name(text, program, global)?;
        put_fields(text, program, sites, object)?;
    }
    for (thread, row) in store.made().iter().enumerate() {
        put_made(text, program, sites, thread, row.as_slice())?;
    }
    Ok(())
}

/// Adds the objects that a thread made.
fn put_made(
    text: &mut String,
    program: &Program,
    sites: &[u16],
    thread: usize,
    row: &[Object],
) -> Result<(), AllocError>
    requires { sites.now ≡ sites_of program.now.globals program.now.texts }
    ensures { OnOk result (string_bytes text.new ≡ string_bytes text.old ++ made_lines program.now thread row.now) }
{
    for (number, object) in row.iter().enumerate() {
        text.push_str("object ")?;
        put_made_name(text, thread, number)?;
        put_fields(text, program, sites, object)?;
    }
    Ok(())
}

/// Adds the fields of an object, and ends its line.
fn put_fields(
    text: &mut String,
    program: &Program,
    sites: &[u16],
    object: &Object,
) -> Result<(), AllocError>
    requires { sites.now ≡ sites_of program.now.globals program.now.texts }
    ensures { OnOk result (string_bytes text.new ≡ string_bytes text.old ++ fields_text program.now object.now) }
{
    let fields = fields_at(program, sites, object.site());
    for (number, datum) in object.fields().iter().enumerate() {
        put_field(text, program, fields, number, *datum)?;
    }
    text.push_str("\n")
}

/// Adds a field of an object whose record declares these.
fn put_field(
    text: &mut String,
    program: &Program,
    fields: &[Declaration],
    number: usize,
    datum: Datum,
) -> Result<(), AllocError>
    ensures { OnOk result (string_bytes text.new
        ≡ string_bytes text.old ++ field_text program.now (names_of_declared fields.now) number datum) }
{
    match fields.get(number) {
        None => text.push_str(" =")?,
        Some(field) => {
            text.push_str(" ")?;
            field.name.push_to(text)?;
            text.push_str("=")?;
        }
    }
    put_datum(text, program, datum)
}

/// The declarations of the fields of the objects that are made at a site.
pub fn fields_at<'a>(program: &'a Program, sites: &[u16], site: u16) -> &'a [Declaration]
    requires { sites.now ≡ sites_of program.now.globals program.now.texts }
    ensures { names_of_declared result.now ≡ fields_at program.now site }
{
    let of = match sites.get(site as usize) {
        None => 0,
        Some(of) => *of,
    };
    match program.tree().records().get(of as usize) {
        None => &[],
        Some(record) => record.fields.as_slice(),
    }
}

/// Adds what a field holds.
fn put_datum(text: &mut String, program: &Program, datum: Datum) -> Result<(), AllocError>
    ensures { OnOk result (string_bytes text.new ≡ string_bytes text.old ++ datum_text program.now datum) }
{
    match datum {
        Datum::Number(number) => text.push_str(Buffer::new().format(number))?,
        Datum::Null => text.push_str("null")?,
        Datum::Refers(name) => put_object_name(text, program, name)?,
    }
    Ok(())
}

/// Adds what an object is called: a global's has its name, one that a thread made the numbers of both.
pub fn put_object_name(
    text: &mut String,
    program: &Program,
    name: ObjectName,
) -> Result<(), AllocError>
    ensures { OnOk result (string_bytes text.new ≡ string_bytes text.old ++ object_name program.now name) }
{
    match name {
        ObjectName::Global(number) => put_global_name(text, program, number as usize),
        ObjectName::Made { thread, number } => {
            put_made_name(text, thread as usize, number as usize)
        }
    }
}

/// Adds what an object is called that a thread made.
fn put_made_name(text: &mut String, thread: usize, number: usize) -> Result<(), AllocError>
    ensures { OnOk result (string_bytes text.new
        ≡ string_bytes text.old ++ decimal thread ++ codes "#" ++ decimal number) }
{
    put_number(text, thread)?;
    text.push_str("#")?;
    put_number(text, number)
}

/// Adds a number.
fn put_number(text: &mut String, number: usize) -> Result<(), AllocError>
    ensures { OnOk result (string_bytes text.new ≡ string_bytes text.old ++ decimal number) }
{
    let mut buffer = Buffer::new();
    text.push_str(buffer.format(number))
}

/// Adds the name of a global; nothing where there is no such global.
pub fn put_global_name(
    text: &mut String,
    program: &Program,
    number: usize,
) -> Result<(), AllocError>
    ensures { OnOk result (string_bytes text.new
        ≡ string_bytes text.old ++ slice_index_or (names_of_globals program.now.source.globals) number []) }
{
    match program.tree().globals().get(number) {
        None => Ok(()),
        Some(global) => global.name.push_to(text),
    }
}
