//! Compiled programs as JSON.

ghost use Rattle.std.specs.{Prelude.{◌≡◌, ◌<◌, ◌++◌, IfOk, OnOk, length, map}, String.{string_bytes}};
ghost use Rattle.std.specs.List.{range_with_len, flat_map};
ghost use Rattle.serde_json.specs.View.{view};
ghost use Rattle.sect_types.specs.Sections.{sections_of};
ghost use Rattle.sect_points.specs.Paths.{base_of, fields_of};
ghost use Rattle.sect_names.specs.{Locks.{IsPathOf}, Printing.{IsNamed, AreNamed}};
ghost use Rattle.sect_emit.specs.Compiled.{program_of};
ghost use Rattle.sect_json.specs.Values.{list, document_text};
ghost use Rattle.sect_json.specs.Compiling.{grip_json, path_grips_json, reached_json, set_json, plan_json};
ghost use Rattle.sect_json.specs.Compiling.{section_with, section_json, thread_with, thread_json, compiled_with};
ghost use Rattle.sect_json.specs.Compiling.{compiled_json};

use crate::keys::{key_value, mode_value};
use crate::locks::{locks_value, path_value};
use crate::nodes::nodes_value;
use crate::writing::document;
use sect_emit::{Compiled, GraphOf, Grip, object_mode, put_thread_name, section_thread};
use sect_modes::Key;
use sect_names::{Lock, Path};
use sect_object::Members;
use sect_points::Variable;
use sect_types::Program;
use serde_json::Value;
use std::alloc::{AllocError, Global};

/// A compiled program: its threads and its sections, each with its graph.
pub fn compiled_document(alloc: Global, compiled: &Compiled) -> Result<String, AllocError>
    ensures { IfOk result (λ text. string_bytes text ≡ document_text (compiled_json compiled.now)) }
{
    let sections = section_values(alloc, compiled)?;
    let threads = thread_values(alloc, compiled)?;
    let value = compiled_value(alloc, sections, threads)?;
    document(alloc, &value)
}

/// Sections and threads.
fn compiled_value(
    alloc: Global,
    sections: Vec<Value>,
    threads: Vec<Value>,
) -> Result<Value, AllocError>
    ensures { IfOk result (λ v. view v ≡ compiled_with (map view sections.items) (map view threads.items)) }
{
    let members = Members::new(alloc)
        .with("sections", sections)?
        .with("threads", threads)?;
    Ok(members.object())
}

/// All sections, by number.
fn section_values(alloc: Global, compiled: &Compiled) -> Result<Vec<Value>, AllocError>
    ensures { IfOk result (λ values. map view values.items
        ≡ map (section_json compiled.now) (range_with_len 0 (length (sections_of (program_of compiled.now).texts)))) }
{
    let mut values = Vec::new(alloc);
    for section in 0..compiled.scheme().program().section_count() {
        values.push(section_value(alloc, compiled, section)?)?;
    }
    Ok(values)
}

/// A section.
fn section_value(alloc: Global, compiled: &Compiled, section: u16) -> Result<Value, AllocError>
    requires { section < length (sections_of (program_of compiled.now).texts) }
    ensures { IfOk result (λ v. view v ≡ section_json compiled.now section) }
{
    let locks = set_value(alloc, compiled, section)?;
    let nodes = nodes_value(alloc, compiled, GraphOf::Section(section))?;
    let plan = plan_value(alloc, compiled, section)?;
    let thread = section_thread(compiled, section);
    let told = Told { locks, nodes, plan };
    told_section(alloc, told, section, thread)
}

/// What is told of a section.
#[derive(Drop)]
struct Told {
    locks: Value,
    nodes: Value,
    plan: Value,
}

/// A section with what is told of it.
fn told_section(alloc: Global, told: Told, section: u16, thread: u16) -> Result<Value, AllocError>
    ensures { IfOk result (λ v. view v
        ≡ section_with (view told.locks) (view told.nodes) (view told.plan) section thread) }
{
    let Told { locks, nodes, plan } = told;
    let members = Members::new(alloc)
        .with("locks", locks)?
        .with("nodes", nodes)?
        .with("plan", plan)?
        .with("section", section)?
        .with("thread", thread)?;
    Ok(members.object())
}

/// The locks that a section takes.
pub fn set_value(alloc: Global, compiled: &Compiled, section: u16) -> Result<Value, AllocError>
    requires { section < length (sections_of (program_of compiled.now).texts) }
    ensures { IfOk result (λ v. view v ≡ set_json compiled.now section) }
{
    compiled.facts();
    locks_value(alloc, compiled.scheme().program(), compiled.set(section))
}

/// The keys that a section takes, each with its mode: those that it takes in every state, and then the objects of its
/// paths.
pub fn plan_value(alloc: Global, compiled: &Compiled, section: u16) -> Result<Value, AllocError>
    requires { section < length (sections_of (program_of compiled.now).texts) }
    ensures { IfOk result (λ v. view v ≡ plan_json compiled.now section) }
{
    compiled.facts();
    let program = compiled.scheme().program();
    let mut values = grip_values(alloc, program, compiled.part(section))?;
    put_path_grips(alloc, &mut values, program, compiled.set(section))?;
    Ok(Value::Array(values))
}

/// Keys with their modes, in their order.
fn grip_values(alloc: Global, program: &Program, grips: &[Grip]) -> Result<Vec<Value>, AllocError>
    ensures { IfOk result (λ values. map view values.items ≡ map (grip_json program.now) grips.now) }
{
    let mut values = Vec::new(alloc);
    for grip in grips {
        values.push(grip_value(alloc, program, *grip)?)?;
    }
    Ok(values)
}

/// Adds the object of each path that is locked, with its mode.
fn put_path_grips(
    alloc: Global,
    values: &mut Vec<Value>,
    program: &Program,
    locks: &[Lock],
) -> Result<(), AllocError>
    requires { AreNamed program.now locks.now }
    ensures { OnOk result (map view values.new.items
        ≡ map view values.old.items ++ flat_map (path_grips_json program.now) locks.now) }
{
    for lock in locks {
        put_path_grip(alloc, values, program, lock)?;
    }
    Ok(())
}

/// Adds the object of the path that a lock is on, if it is on one, with its mode.
fn put_path_grip(
    alloc: Global,
    values: &mut Vec<Value>,
    program: &Program,
    lock: &Lock,
) -> Result<(), AllocError>
    requires { IsNamed program.now lock.now }
    ensures { OnOk result (map view values.new.items
        ≡ map view values.old.items ++ path_grips_json program.now lock.now) }
{
    match lock {
        Lock::All => Ok(()),
        Lock::Class(_, _) => Ok(()),
        Lock::Path(path, effect) => {
            let members = Members::new(alloc)
                .with_made("key", reached_value(alloc, program, path))?
                .with_made("mode", mode_value(alloc, object_mode(*effect)))?;
            values.push(members.object())?;
            Ok(())
        }
    }
}

/// The object that a path leads to: of a global by its name, else by the path.
fn reached_value(alloc: Global, program: &Program, path: &Path) -> Result<Value, AllocError>
    requires { IsPathOf program.now path.now }
    ensures { IfOk result (λ v. view v
        ≡ reached_json program.now path.now (base_of path.now) (fields_of path.now)) }
{
    if path.fields().is_empty() {
        if let Variable::Global(number) = path.base() {
            return key_value(alloc, program, Key::Global(number));
        }
    }
    let members = Members::new(alloc)
        .with("kind", "path")?
        .with_made("path", path_value(alloc, program, path))?;
    Ok(members.object())
}

/// A key with its mode.
fn grip_value(alloc: Global, program: &Program, grip: Grip) -> Result<Value, AllocError>
    ensures { IfOk result (λ v. view v ≡ grip_json program.now grip) }
{
    let members = Members::new(alloc)
        .with_made("key", key_value(alloc, program, grip.key))?
        .with_made("mode", mode_value(alloc, grip.mode))?;
    Ok(members.object())
}

/// All threads, by number.
fn thread_values(alloc: Global, compiled: &Compiled) -> Result<Vec<Value>, AllocError>
    ensures { IfOk result (λ values. map view values.items
        ≡ map (thread_json compiled.now) (range_with_len 0 (length (program_of compiled.now).texts))) }
{
    let mut values = Vec::new(alloc);
    for thread in 0..compiled.scheme().program().thread_count() {
        values.push(thread_value(alloc, compiled, thread)?)?;
    }
    Ok(values)
}

/// A thread.
fn thread_value(alloc: Global, compiled: &Compiled, thread: u16) -> Result<Value, AllocError>
    requires { thread < length (program_of compiled.now).texts }
    ensures { IfOk result (λ v. view v ≡ thread_json compiled.now thread) }
{
    let nodes = nodes_value(alloc, compiled, GraphOf::Thread(thread))?;
    let mut name = String::new(alloc);
    put_thread_name(&mut name, compiled.scheme().program(), thread)?;
    told_thread(alloc, name, nodes, thread)
}

/// A thread with its nodes.
fn told_thread(alloc: Global, name: String, nodes: Value, thread: u16) -> Result<Value, AllocError>
    ensures { IfOk result (λ v. view v ≡ thread_with (string_bytes name) (view nodes) thread) }
{
    let members = Members::new(alloc)
        .with("name", name)?
        .with("nodes", nodes)?
        .with("thread", thread)?;
    Ok(members.object())
}
