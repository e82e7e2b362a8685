//! Locks as they are printed.

ghost use Rattle.std.specs.{Prelude.{◌≡◌, ◌++◌, OnOk, Some, codes}, String.{string_bytes}};
ghost use Rattle.sect_types.specs.LocalNames.{local_text};
ghost use Rattle.sect_names.specs.Locks.{IsVariable, IsField, IsPathOf};
ghost use Rattle.sect_names.specs.Printing.{IsNamed, AreNamed, effect_text, right_text, variable_text, field_name};
ghost use Rattle.sect_names.specs.Printing.{path_text, lock_text, locks_text};

use crate::lock::{Effect, Lock, Right};
use crate::path::Path;
use sect_front::Name;
use sect_points::Variable;
use sect_types::{Field, LocalName, Program};
use std::alloc::AllocError;
use std::fmt;
use std::fmt::Write;

impl fmt::Display for Effect {
    ghost output = { λ e. Some (effect_text e) };

    fn fmt<W: fmt::Write>(&self, f: &mut fmt::Formatter<W>) -> fmt::Result {
        match self {
            Effect::Read => f.write_str("R"),
            Effect::Write => f.write_str("W"),
        }
    }
}

impl fmt::Display for Right {
    ghost output = { λ r. Some (right_text r) };

    fn fmt<W: fmt::Write>(&self, f: &mut fmt::Formatter<W>) -> fmt::Result {
        match self {
            Right::Read => f.write_str("R"),
            Right::Write => f.write_str("W"),
            Right::Make => f.write_str("M"),
        }
    }
}

/// Adds locks of a program to a text, joined by `, `, or `none` where there are none.
pub fn put_locks(text: &mut String, program: &Program, locks: &[Lock]) -> Result<(), AllocError>
    requires { AreNamed program.now locks.now }
    ensures { OnOk result (string_bytes text.new ≡ string_bytes text.old ++ locks_text program.now.source locks.now) }
{
    let Some((first, others)) = locks.split_first() else {
        return text.push_str("none");
    };
    put_lock(text, program, first)?;
    for lock in others {
        text.push_str(", ")?;
        put_lock(text, program, lock)?;
    }
    Ok(())
}

/// Adds a lock of a program to a text, as `M class 1` or `W head.next`.
pub fn put_lock(text: &mut String, program: &Program, lock: &Lock) -> Result<(), AllocError>
    requires { IsNamed program.now lock.now }
    ensures { OnOk result (string_bytes text.new ≡ string_bytes text.old ++ lock_text program.now.source lock.now) }
{
    match lock {
        Lock::All => text.push_str("W all"),
        Lock::Class(class, right) => Ok(write!(text, "{right} class {class}")?),
        Lock::Path(path, effect) => {
            put_effect(text, *effect)?;
            put_path(text, program, path)
        }
    }
}

/// Adds what a lock allows of the object of its path, and a blank.
fn put_effect(text: &mut String, effect: Effect) -> Result<(), AllocError>
    ensures { OnOk result (string_bytes text.new ≡ string_bytes text.old ++ effect_text effect ++ codes " ") }
{
    match effect {
        Effect::Read => text.push_str("R "),
        Effect::Write => text.push_str("W "),
    }
}

/// Adds a path of a program to a text, as `head.next`.
pub fn put_path(text: &mut String, program: &Program, path: &Path) -> Result<(), AllocError>
    requires { IsPathOf program.now path.now }
    ensures { OnOk result (string_bytes text.new ≡ string_bytes text.old ++ path_text program.now.source path.now) }
{
    put_variable(text, program, path.base())?;
    for field in path.fields() {
        text.push_str(".")?;
        field_name(program, *field).push_to(text)?;
    }
    Ok(())
}

/// Adds what a variable is called.
fn put_variable(text: &mut String, program: &Program, variable: Variable) -> Result<(), AllocError>
    requires { IsVariable program.now variable }
    ensures { OnOk result (string_bytes text.new ≡ string_bytes text.old ++ variable_text program.now.source variable) }
{
    match variable {
        Variable::Global(number) => { program.tree().globals()[number as usize].name.push_to(text) }
        Variable::Local(thread, number) => put_local(text, &program.local_name(thread, number)),
    }
}

/// Adds what a local is called.
fn put_local(text: &mut String, local: &LocalName) -> Result<(), AllocError>
    ensures { OnOk result (string_bytes text.new ≡ string_bytes text.old ++ local_text local.now) }
{
    match local.call {
        None => local.name.push_to(text),
        Some(_) => Ok(write!(text, "{local}")?),
    }
}

/// The name of a field.
pub fn field_name(program: &Program, field: Field) -> &Name
    requires { IsField program.now field }
    ensures { result.now ≡ field_name program.now.source field }
{
    let fields = program.tree().records()[field.of as usize]
        .fields
        .as_slice();
    &fields[field.number as usize].name
}
