//! What is said of two sections that exclude each other, though they have no field in common.

ghost use Rattle.std.specs.{Prelude.{◌≡◌, ◌<◌, ◌++◌, length, IfOk, OnOk}, String.{string_bytes}};
ghost use Rattle.sect_lemmas.specs.Lists.{Has};
ghost use Rattle.sect_types.specs.{Sections.{sections_of}, declared.expansion.action.Field.{Field as FieldOf}};
ghost use Rattle.sect_names.specs.{Locks.{IsField}, Printing.{AreNamed}};
ghost use Rattle.sect_emit.specs.Labels.{record_name};
ghost use Rattle.sect_warnings.specs.{Warnings.{IsDueOf}, Labels.{field_text, fields_text, needed_text, needs_text}};
ghost use Rattle.sect_warnings.specs.Labels.{apart_text as apart_text_by};

use crate::fields::usage_of;
use crate::warning::Finding;
use sect_emit::Compiled;
use sect_names::{Lock, field_name, put_locks};
use sect_types::{Field, Program};
use std::alloc::{AllocError, Global};
use std::fmt::Write;

/// Adds the name of a record.
fn put_record(text: &mut String, program: &Program, of: u16) -> Result<(), AllocError>
    requires { of < length program.now.records }
    ensures { OnOk result (string_bytes text.new ≡ string_bytes text.old ++ record_name program.now.source of) }
{
    let named = &program.tree().records()[of as usize];
    Ok(write!(text, "{}", named.name)?)
}

/// Adds a field with its record.
#[tactic(auto, unfolding(crate::specs::Labels::field_text))]
fn put_field(text: &mut String, program: &Program, field: &Field) -> Result<(), AllocError>
    requires { IsField program.now field.now }
    ensures { OnOk result (string_bytes text.new
        ≡ string_bytes text.old ++ field_text program.now.source field.now) }
{
    text.push_str("`")?;
    put_record(text, program, field.of)?;
    Ok(write!(text, ".{}`", field_name(program, *field))?)
}

/// Adds fields, with `, ` between them.
fn put_fields(text: &mut String, program: &Program, fields: &[Field]) -> Result<(), AllocError>
    requires { (f : FieldOf) → Has fields.now f → IsField program.now f }
    ensures { OnOk result (string_bytes text.new
        ≡ string_bytes text.old ++ fields_text program.now.source fields.now) }
{
    let Some((first, others)) = fields.split_first() else {
        return text.push_str("no field");
    };
    put_field(text, program, first)?;
    for field in others {
        text.push_str(", ")?;
        put_field(text, program, field)?;
    }
    Ok(())
}

/// Adds locks, and the fields that they are taken for.
fn put_needed(
    text: &mut String,
    program: &Program,
    locks: &[Lock],
    fields: &[Field],
) -> Result<(), AllocError>
    requires locks { AreNamed program.now locks.now }
    requires fields { (f : FieldOf) → Has fields.now f → IsField program.now f }
    ensures { OnOk result (string_bytes text.new
        ≡ string_bytes text.old ++ needed_text program.now.source locks.now fields.now) }
{
    text.push_str("`")?;
    put_locks(text, program, locks)?;
    text.push_str("` for ")?;
    put_fields(text, program, fields)?;
    Ok(())
}

/// Adds the locks of a section, and the fields that it uses.
fn put_needs(
    alloc: Global,
    text: &mut String,
    compiled: &Compiled,
    section: u16,
) -> Result<(), AllocError>
    requires { section < length (sections_of compiled.now.scheme.program.texts) }
    ensures { OnOk result (string_bytes text.new
        ≡ string_bytes text.old ++ needs_text compiled.now section) }
{
    compiled.facts();
    let program = compiled.scheme().program();
    let usage = usage_of(alloc, compiled, section)?;
    put_needed(text, program, compiled.set(section), usage.used.as_slice())?;
    Ok(())
}

/// What is said of two sections that exclude each other without a common field.
pub fn apart_text(
    alloc: Global,
    compiled: &Compiled,
    section: u16,
    other: u16,
) -> Result<String, AllocError>
    requires { IsDueOf compiled.now section (Finding.NoCommonField other) }
    ensures { IfOk result (λ text. string_bytes text ≡ apart_text_by compiled.now section other) }
{
    let mut text = String::new(alloc);
    text.push_str("takes ")?;
    put_needs(alloc, &mut text, compiled, section)?;
    write!(text, ", and section {other} takes ")?;
    put_needs(alloc, &mut text, compiled, other)?;
    Ok(text)
}
