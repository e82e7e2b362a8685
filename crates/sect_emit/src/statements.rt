//! Statements and tests as they are printed.

ghost use Rattle.std.specs.{Prelude.{◌≡◌, ◌<◌, ◌++◌, length, codes, OnOk}, String.{string_bytes}};
ghost use Rattle.sect_names.specs.{Locks.{IsField}, Printing.{variable_text}};
ghost use Rattle.sect_emit.specs.Labels.{record_name, operator_text, value_text, access_text, target_text, action_text};
ghost use Rattle.sect_emit.specs.Labels.{condition_text, label_text};
ghost use Rattle.sect_emit.specs.Naming.{IsLocalOf, IsValueOf, IsBaseOf, IsActionOf, IsConditionOf, IsLabelOf};
ghost use Rattle.sect_points.specs.declared.holders.Variable.TheVariants as variable;

use sect_front::Operator;
use sect_names::field_name;
use sect_types::{Action, Base, Condition, Field, Label, Program, Value};
use std::alloc::AllocError;
use std::fmt::Write;

/// Adds what a node of a graph of this thread does: a statement without its `;`, a test without its brackets, or a
/// section by its number.
pub fn put_label(
    text: &mut String,
    program: &Program,
    thread: u16,
    label: Label,
) -> Result<(), AllocError>
    requires { IsLabelOf program.now thread label }
    ensures { OnOk result (string_bytes text.new
        ≡ string_bytes text.old ++ label_text program.now.source thread label) }
{
    match label {
        Label::Act(action) => put_action(text, program, thread, action),
        Label::Test(condition) => put_condition(text, program, thread, condition),
        Label::Section(number) => Ok(write!(text, "section {number}")?),
    }
}

/// Adds a statement.
fn put_action(
    text: &mut String,
    program: &Program,
    thread: u16,
    action: Action,
) -> Result<(), AllocError>
    requires { IsActionOf program.now thread action }
    ensures { OnOk result (string_bytes text.new
        ≡ string_bytes text.old ++ action_text program.now.source thread action) }
{
    match action {
        Action::Assign(target, value) => {
            put_target(text, program, thread, target)?;
            put_value(text, program, thread, value)
        }
        Action::Compute(target, left, operator, right) => {
            put_target(text, program, thread, target)?;
            put_value(text, program, thread, left)?;
            write!(text, " {} ", operator_sign(operator))?;
            put_value(text, program, thread, right)
        }
        Action::New(target, record, _site) => {
            put_target(text, program, thread, target)?;
            put_new(text, program, record)
        }
        Action::Load(target, base, field) => {
            put_target(text, program, thread, target)?;
            put_access(text, program, thread, base, field)
        }
        Action::Store(base, field, value) => {
            put_access(text, program, thread, base, field)?;
            text.push_str(" = ")?;
            put_value(text, program, thread, value)
        }
        Action::Print(value) => {
            text.push_str("print ")?;
            put_value(text, program, thread, value)
        }
    }
}

/// Adds a test.
fn put_condition(
    text: &mut String,
    program: &Program,
    thread: u16,
    condition: Condition,
) -> Result<(), AllocError>
    requires { IsConditionOf program.now thread condition }
    ensures { OnOk result (string_bytes text.new
        ≡ string_bytes text.old ++ condition_text program.now.source thread condition) }
{
    put_value(text, program, thread, condition.left)?;
    write!(text, " {} ", condition.comparison.spelling())?;
    put_value(text, program, thread, condition.right)
}

/// Adds the local that is assigned to, and the sign behind it.
fn put_target(
    text: &mut String,
    program: &Program,
    thread: u16,
    target: u16,
) -> Result<(), AllocError>
    requires { IsLocalOf program.now thread target }
    ensures { OnOk result (string_bytes text.new
        ≡ string_bytes text.old ++ target_text program.now.source thread target) }
{
    put_local(text, program, thread, target)?;
    text.push_str(" = ")
}

/// Adds `new` and the name of the record of this number.
fn put_new(text: &mut String, program: &Program, of: u16) -> Result<(), AllocError>
    requires { of < length program.now.records }
    ensures { OnOk result (string_bytes text.new
        ≡ string_bytes text.old ++ codes "new " ++ record_name program.now.source of) }
{
    let made = &program.tree().records()[of as usize];
    Ok(write!(text, "new {}", made.name)?)
}

/// Adds a value.
fn put_value(
    text: &mut String,
    program: &Program,
    thread: u16,
    value: Value,
) -> Result<(), AllocError>
    requires { IsValueOf program.now thread value }
    ensures { OnOk result (string_bytes text.new
        ≡ string_bytes text.old ++ value_text program.now.source thread value) }
{
    match value {
        Value::Number(number) => Ok(write!(text, "{}", number.value())?),
        Value::Null => text.push_str("null"),
        Value::Local(number) => put_local(text, program, thread, number),
        Value::Global(number) => put_global(text, program, number),
    }
}

/// Adds the field of an object that is loaded or stored.
fn put_access(
    text: &mut String,
    program: &Program,
    thread: u16,
    base: Base,
    field: Field,
) -> Result<(), AllocError>
    requires base { IsBaseOf program.now thread base }
    requires field { IsField program.now field }
    ensures { OnOk result (string_bytes text.new
        ≡ string_bytes text.old ++ access_text program.now.source thread base field) }
{
    match base {
        Base::Global(number) => put_global(text, program, number)?,
        Base::Local(number) => put_local(text, program, thread, number)?,
    }
    Ok(write!(text, ".{}", field_name(program, field))?)
}

/// Adds what a local of a thread is called.
fn put_local(
    text: &mut String,
    program: &Program,
    thread: u16,
    number: u16,
) -> Result<(), AllocError>
    requires { IsLocalOf program.now thread number }
    ensures { OnOk result (string_bytes text.new
        ≡ string_bytes text.old ++ variable_text program.now.source (variable.Local thread number)) }
{
    Ok(write!(text, "{}", program.local_name(thread, number))?)
}

/// Adds the name of a global.
fn put_global(text: &mut String, program: &Program, number: u16) -> Result<(), AllocError>
    requires { number < length program.now.globals }
    ensures { OnOk result (string_bytes text.new
        ≡ string_bytes text.old ++ variable_text program.now.source (variable.Global number)) }
{
    Ok(write!(text, "{}", program.tree().globals()[number as usize].name)?)
}

/// How an operator is written.
fn operator_sign(operator: Operator) -> &'static str
    ensures { result.now ≡ operator_text operator }
{
    match operator {
        Operator::Add => "+",
        Operator::Subtract => "-",
        Operator::Multiply => "*",
    }
}
