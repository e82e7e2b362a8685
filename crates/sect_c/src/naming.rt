//! Names, types and values in C.

ghost use Rattle.std.specs.{Prelude.{◌≡◌, ◌<◌, ◌++◌, length, OnOk}, String.{string_bytes}};
ghost use Rattle.sect_names.specs.Locks.{IsField, IsVariable};
ghost use Rattle.sect_types.specs.Environments.{IsInRange};
ghost use Rattle.sect_emit.specs.Naming.{IsLocalOf, IsValueOf, IsBaseOf};
ghost use Rattle.sect_c.specs.Naming.{record_c, field_c, global_c, local_c, type_c, value_c, variable_c, base_c};
ghost use Rattle.sect_c.specs.Naming.{member_c};

use crate::context::Member;
use sect_names::field_name;
use sect_points::Variable;
use sect_types::{Base, Field, Program, Value, ValueType};
use std::alloc::AllocError;
use std::fmt::Write;

/// Adds the structure of a record.
pub fn put_record(text: &mut String, program: &Program, of: u16) -> Result<(), AllocError>
    requires { of < length program.now.records }
    ensures { OnOk result (string_bytes text.new ≡ string_bytes text.old ++ record_c program.now.source of) }
{
    let named = &program.tree().records()[of as usize];
    Ok(write!(text, "struct r_{}", named.name)?)
}

/// Adds the name of a field.
pub fn put_field(text: &mut String, program: &Program, field: Field) -> Result<(), AllocError>
    requires { IsField program.now field }
    ensures { OnOk result (string_bytes text.new ≡ string_bytes text.old ++ field_c program.now.source field) }
{
    Ok(write!(text, "f_{}", field_name(program, field))?)
}

/// Adds the name of a global.
pub fn put_global(text: &mut String, program: &Program, global: u16) -> Result<(), AllocError>
    requires { global < length program.now.globals }
    ensures { OnOk result (string_bytes text.new ≡ string_bytes text.old ++ global_c program.now.source global) }
{
    let named = &program.tree().globals()[global as usize];
    Ok(write!(text, "g_{}", named.name)?)
}

/// Adds the name of a local of a thread.
pub fn put_local(
    text: &mut String,
    program: &Program,
    thread: u16,
    local: u16,
) -> Result<(), AllocError>
    requires { IsLocalOf program.now thread local }
    ensures { OnOk result (string_bytes text.new ≡ string_bytes text.old ++ local_c program.now.source thread local) }
{
    let called = program.local_name(thread, local);
    Ok(write!(text, "l{local}_{}", called.name)?)
}

/// Adds a type, such that a name may follow at once.
pub fn put_type(text: &mut String, program: &Program, of: ValueType) -> Result<(), AllocError>
    requires { IsInRange (length program.now.records) of }
    ensures { OnOk result (string_bytes text.new ≡ string_bytes text.old ++ type_c program.now.source of) }
{
    match of {
        ValueType::Int => text.push_str("int64_t "),
        ValueType::Refers(of) => {
            put_record(text, program, of)?;
            text.push_str(" *")
        }
    }
}

/// Adds a value.
pub fn put_value(
    text: &mut String,
    program: &Program,
    thread: u16,
    value: Value,
) -> Result<(), AllocError>
    requires { IsValueOf program.now thread value }
    ensures { OnOk result (string_bytes text.new ≡ string_bytes text.old ++ value_c program.now.source thread value) }
{
    match value {
        Value::Number(number) => Ok(write!(text, "INT64_C({})", number.value())?),
        Value::Null => text.push_str("NULL"),
        Value::Local(local) => put_local(text, program, thread, local),
        Value::Global(global) => {
            text.push_str("&")?;
            put_global(text, program, global)
        }
    }
}

/// Adds the reference by which a variable's object is known.
pub fn put_variable(
    text: &mut String,
    program: &Program,
    variable: Variable,
) -> Result<(), AllocError>
    requires { IsVariable program.now variable }
    ensures { OnOk result (string_bytes text.new ≡ string_bytes text.old ++ variable_c program.now.source variable) }
{
    match variable {
        Variable::Global(global) => {
            text.push_str("&")?;
            put_global(text, program, global)
        }
        Variable::Local(thread, local) => put_local(text, program, thread, local),
    }
}

/// Adds what stands before a field of a base's object.
fn put_base(text: &mut String, program: &Program, thread: u16, base: Base) -> Result<(), AllocError>
    requires { IsBaseOf program.now thread base }
    ensures { OnOk result (string_bytes text.new ≡ string_bytes text.old ++ base_c program.now.source thread base) }
{
    match base {
        Base::Global(global) => {
            put_global(text, program, global)?;
            text.push_str(".")
        }
        Base::Local(local) => {
            put_local(text, program, thread, local)?;
            text.push_str("->")
        }
    }
}

/// Adds the field of the object that a base refers to.
pub fn put_member(
    text: &mut String,
    program: &Program,
    thread: u16,
    member: Member,
) -> Result<(), AllocError>
    requires base { IsBaseOf program.now thread member.base }
    requires field { IsField program.now member.field }
    ensures { OnOk result (string_bytes text.new ≡ string_bytes text.old ++ member_c program.now.source thread member) }
{
    put_base(text, program, thread, member.base)?;
    put_field(text, program, member.field)
}
