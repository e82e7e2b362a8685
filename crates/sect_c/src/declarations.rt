//! Records, globals and plans in C, and what shows the fields of an object.

ghost use Rattle.std.specs.Prelude.{◌≡◌, ◌<◌, ◌++◌, List, length, slice_index_or, OnOk, [], Some, slice_get, codes};
ghost use Rattle.std.specs.{List.{flat_map}, String.{string_bytes}};
ghost use Rattle.sect_names.specs.Locks.{IsField};
ghost use Rattle.sect_types.specs.declared.declarations.types.ValueType.{ValueType as AType};
ghost use Rattle.sect_emit.specs.Listing.{by_number};
ghost use Rattle.sect_c.specs.Naming.{field_c, field_type as field_type_by};
ghost use Rattle.sect_c.specs.Declarations.{field_type_c, field_line, structure_c, global_line, whole_c, grip_c};
ghost use Rattle.sect_c.specs.Declarations.{plan_c, shown_c, shown_value_c, shown_line, case_c, opening_c};

use crate::context::Context;
use crate::naming::{put_field, put_global, put_record, put_type};
use crate::statements::is_looked;
use crate::types::field_type;
use sect_emit::Grip;
use sect_modes::{Key, Mode};
use sect_names::field_name;
use sect_types::{Field, Program, ValueType};
use std::alloc::AllocError;
use std::fmt::Write;

/// Adds the type of a field.
fn put_field_type(text: &mut String, context: &Context<'_>, field: Field) -> Result<(), AllocError>
    requires { IsField context.now.program.now field }
    ensures { OnOk result (string_bytes text.new ≡ string_bytes text.old ++ field_type_c context.now.program.now
        context.now.looked.now field (field_type_by context.now.program.now field)) }
{
    let of = field_type(context.program, field);
    if is_looked(context.looked, field) {
        text.push_str("_Atomic(")?;
        put_type(text, context.program, of)?;
        text.push_str(") ")
    } else {
        put_type(text, context.program, of)
    }
}

/// Adds the declaration of a field.
fn put_field_line(text: &mut String, context: &Context<'_>, field: Field) -> Result<(), AllocError>
    requires { IsField context.now.program.now field }
    ensures { OnOk result (string_bytes text.new ≡ string_bytes text.old ++ field_line context.now.program.now
        context.now.looked.now field.of field.number (field_type_by context.now.program.now field)) }
{
    text.push_str("  ")?;
    put_field_type(text, context, field)?;
    put_field(text, context.program, field)?;
    text.push_str(";\n")
}

/// Adds the declarations of a record's fields.
fn put_field_lines(text: &mut String, context: &Context<'_>, of: u16) -> Result<(), AllocError>
    requires { of < length context.now.program.now.records }
    ensures { OnOk result (string_bytes text.new ≡ string_bytes text.old ++ by_number (field_line
        context.now.program.now context.now.looked.now of) 0 (slice_index_or context.now.program.now.records of [])) }
{
    context.program.facts();
    let records = context.program.records();
    let fields = records[of as usize].as_slice();
    for number in 0..fields.len() {
        put_field_line(
            text,
            context,
            Field {
                of,
                number: number as u16,
            },
        )?;
    }
    Ok(())
}

/// Adds that there is a record.
pub fn put_opening(text: &mut String, program: &Program, of: u16) -> Result<(), AllocError>
    requires { of < length program.now.records }
    ensures { OnOk result ((fields : List AType) → string_bytes text.new
        ≡ string_bytes text.old ++ opening_c program.now of fields) }
{
    put_record(text, program, of)?;
    text.push_str(";\n")
}

/// Adds the structure of a record.
pub fn put_structure(text: &mut String, context: &Context<'_>, of: u16) -> Result<(), AllocError>
    requires { of < length context.now.program.now.records }
    ensures { OnOk result ((fields : List AType) → slice_get context.now.program.now.records of ≡ Some fields
        → string_bytes text.new ≡ string_bytes text.old
        ++ structure_c context.now.program.now context.now.looked.now of fields) }
{
    put_record(text, context.program, of)?;
    text.push_str(" {\n  struct sect_object head;\n")?;
    put_field_lines(text, context, of)?;
    text.push_str("};\n")?;
    Ok(())
}

/// Adds the object of a global of this record.
pub fn put_global_line(
    text: &mut String,
    program: &Program,
    global: u16,
    of: u16,
) -> Result<(), AllocError>
    requires global { global < length program.now.globals }
    requires of { of < length program.now.records }
    ensures { OnOk result (string_bytes text.new ≡ string_bytes text.old ++ global_line program.now global of) }
{
    text.push_str("static _Alignas(64) ")?;
    put_record(text, program, of)?;
    text.push_str(" ")?;
    put_global(text, program, global)?;
    Ok(write!(
        text,
        " = {{ .head = {{ .number = {global}, .record = {of} }} }};\n"
    )?)
}

/// Adds a key that is taken in every state.
fn put_grip(text: &mut String, grip: &Grip) -> Result<(), AllocError>
    ensures { OnOk result (string_bytes text.new ≡ string_bytes text.old ++ grip_c grip.now) }
{
    match grip.key {
        Key::All => put_whole(text, 0, grip.mode),
        Key::Class(class) => put_whole(text, class as u32 + 1, grip.mode),
        Key::Global(_) | Key::Made { .. } => Ok(()),
    }
}

/// Adds the key of this number among those of all objects and of classes.
fn put_whole(text: &mut String, number: u32, mode: Mode) -> Result<(), AllocError>
    ensures { OnOk result (string_bytes text.new ≡ string_bytes text.old ++ whole_c number mode) }
{
    Ok(write!(text, " {{ &wholes[{number}].key, SECT_{mode}, 0 }},")?)
}

/// Adds the keys that are taken in every state.
fn put_grips(text: &mut String, part: &[Grip]) -> Result<(), AllocError>
    ensures { OnOk result (string_bytes text.new ≡ string_bytes text.old ++ flat_map grip_c part.now) }
{
    for grip in part {
        put_grip(text, grip)?;
    }
    Ok(())
}

/// Adds the keys that a section takes in every state.
pub fn put_plan(text: &mut String, section: u16, part: &[Grip]) -> Result<(), AllocError>
    ensures { OnOk result (string_bytes text.new ≡ string_bytes text.old ++ plan_c section part.now) }
{
    write!(text, "static const struct sect_grip plan_{section}[] = {{")?;
    put_grips(text, part)?;
    text.push_str(" { NULL, SECT_IS, 0 } };\n")?;
    Ok(())
}

/// How a field is shown, to its name.
fn shown(of: ValueType) -> &'static str
    ensures { result.now ≡ shown_c of }
{
    match of {
        ValueType::Int => "    sect_show_int(\"",
        ValueType::Refers(_) => "    sect_show_reference(program, \"",
    }
}

/// Adds the value of an atomic field that is shown.
fn put_atomic_value(text: &mut String, program: &Program, field: Field) -> Result<(), AllocError>
    requires { IsField program.now field }
    ensures { OnOk result (string_bytes text.new ≡ string_bytes text.old
        ++ (codes "SECT_GET(&o->" ++ field_c program.now.source field ++ codes "));\n")) }
{
    text.push_str("SECT_GET(&o->")?;
    put_field(text, program, field)?;
    text.push_str("));\n")?;
    Ok(())
}

/// Adds the value of a plain field that is shown.
fn put_plain_value(text: &mut String, program: &Program, field: Field) -> Result<(), AllocError>
    requires { IsField program.now field }
    ensures { OnOk result (string_bytes text.new ≡ string_bytes text.old
        ++ (codes "o->" ++ field_c program.now.source field ++ codes ");\n")) }
{
    text.push_str("o->")?;
    put_field(text, program, field)?;
    text.push_str(");\n")?;
    Ok(())
}

/// Adds the value of a field that is shown.
fn put_shown_value(text: &mut String, context: &Context<'_>, field: Field) -> Result<(), AllocError>
    requires { IsField context.now.program.now field }
    ensures { OnOk result (string_bytes text.new
        ≡ string_bytes text.old ++ shown_value_c context.now.program.now context.now.looked.now field) }
{
    if is_looked(context.looked, field) {
        put_atomic_value(text, context.program, field)
    } else {
        put_plain_value(text, context.program, field)
    }
}

/// Adds what shows a field.
fn put_shown_line(text: &mut String, context: &Context<'_>, field: Field) -> Result<(), AllocError>
    requires { IsField context.now.program.now field }
    ensures { OnOk result (string_bytes text.new ≡ string_bytes text.old ++ shown_line context.now.program.now
        context.now.looked.now field.of field.number (field_type_by context.now.program.now field)) }
{
    text.push_str(shown(field_type(context.program, field)))?;
    write!(text, "{}\", ", field_name(context.program, field))?;
    put_shown_value(text, context, field)
}

/// Adds what shows the fields of a record's objects.
fn put_shown_lines(text: &mut String, context: &Context<'_>, of: u16) -> Result<(), AllocError>
    requires { of < length context.now.program.now.records }
    ensures { OnOk result (string_bytes text.new ≡ string_bytes text.old ++ by_number (shown_line
        context.now.program.now context.now.looked.now of) 0 (slice_index_or context.now.program.now.records of [])) }
{
    context.program.facts();
    let records = context.program.records();
    let fields = records[of as usize].as_slice();
    for number in 0..fields.len() {
        put_shown_line(
            text,
            context,
            Field {
                of,
                number: number as u16,
            },
        )?;
    }
    Ok(())
}

/// Adds the case of a record's objects.
pub fn put_case(text: &mut String, context: &Context<'_>, of: u16) -> Result<(), AllocError>
    requires { of < length context.now.program.now.records }
    ensures { OnOk result ((fields : List AType) → slice_get context.now.program.now.records of ≡ Some fields
        → string_bytes text.new ≡ string_bytes text.old
        ++ case_c context.now.program.now context.now.looked.now of fields) }
{
    write!(text, "  case {of}: {{\n    ")?;
    put_record(text, context.program, of)?;
    text.push_str(" *o = (void *)object; (void)o;\n")?;
    put_shown_lines(text, context, of)?;
    text.push_str("    break;\n  }\n")?;
    Ok(())
}
