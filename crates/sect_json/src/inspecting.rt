//! What is known of a program, as JSON.

ghost use Rattle.std.specs.Prelude.{◌≡◌, ◌<◌, ◌+◌, IfOk, OnOk, length, map};
ghost use Rattle.std.specs.List.{range_with_len};
ghost use Rattle.serde_json.specs.View.{view};
ghost use Rattle.sect_front.specs.Front.{IsSpelled};
ghost use Rattle.sect_emit.specs.{Compiled.{program_of}, Labels.{thread_name}, Graphed.{graphed_nodes}};
ghost use Rattle.sect_json.specs.{Values.{list}, Calls.{calls_json}};
ghost use Rattle.sect_json.specs.Inspecting.{thread_node_json, thread_with, thread_json, IsInspectionDocument};
ghost use Rattle.sect_json.specs.steps.Inspected.{IsInspected, IsHeadPut, IsProgramPut, rest_with, thread_told};
ghost use Rattle.sect_emit.specs.declared.graphs.GraphOf.TheVariants as graphed;

use crate::calls::{calls_value, procedure_values};
use crate::context::Inspected;
use crate::inspected_sections::put_sections;
use crate::placed_nodes::placed_node;
use crate::sites::{class_values, locals_value, site_values};
use crate::writing::{put_member, put_name, put_tail};
use sect_emit::{Compiled, GraphOf, graphed_flow, put_thread_name};
use sect_object::Members;
use sect_places::{LineIndex, node_spans, tree_names};
use serde_json::Value;
use std::alloc::{AllocError, Global};

/// What is known of a compiled program, whose text this is: its sections and its threads with their nodes, where they
/// stand, the locks that are needed at each node, and why; its classes, their sites, and to which of these its locals
/// and fields may refer; its procedures and calls.
pub fn inspection_document(
    alloc: Global,
    source: &[u8],
    compiled: &Compiled,
) -> Result<Vec<u8>, AllocError>
    requires { IsSpelled source.now (program_of compiled.now).source }
    ensures { IfOk result (λ text. IsInspectionDocument source.now compiled.now text.items) }
{
    let program = compiled.scheme().program();
    let spans = node_spans(alloc, source, program)?;
    let names = tree_names(alloc, source, program.tree())?;
    let lines = LineIndex::new(alloc, source)?;
    let of = Inspected {
        source: &lines,
        compiled,
        spans: &spans,
        names: names.as_slice(),
    };
    let mut out = Vec::new(alloc);
    put_program(alloc, &mut out, &of)?;
    out.push(b'\n')?;
    Ok(out)
}

/// Adds what is known of a program.
fn put_program(alloc: Global, out: &mut Vec<u8>, of: &Inspected<'_>) -> Result<(), AllocError>
    requires { IsInspected of.now }
    ensures { OnOk result (IsProgramPut of.now out.old.items out.new.items) }
{
    put_head(alloc, out, of)?;
    put_name(alloc, out, b',', "sections")?;
    put_sections(alloc, out, of)?;
    let sites = site_values(alloc, of)?;
    let threads = thread_values(alloc, of)?;
    put_tail(alloc, out, &rest_value(alloc, sites, threads)?)
}

/// Adds what is told of a program before its sections: its classes, its k and its procedures.
fn put_head(alloc: Global, out: &mut Vec<u8>, of: &Inspected<'_>) -> Result<(), AllocError>
    requires { IsInspected of.now }
    ensures { OnOk result (IsHeadPut of.now out.old.items out.new.items) }
{
    let scheme = of.compiled.scheme();
    let procedures = scheme.program().tree().procedures();
    let classes = Value::Array(class_values(alloc, scheme.classes())?);
    let procedures = Value::Array(procedure_values(alloc, of, procedures)?);
    put_member(alloc, out, b'{', "classes", &classes)?;
    put_member(alloc, out, b',', "k", &Value::from(scheme.k()))?;
    put_member(alloc, out, b',', "procedures", &procedures)
}

/// What is told of a program behind its sections.
fn rest_value(alloc: Global, sites: Vec<Value>, threads: Vec<Value>) -> Result<Value, AllocError>
    ensures { IfOk result (λ v. view v ≡ rest_with (map view sites.items) (map view threads.items)) }
{
    let members = Members::new(alloc)
        .with("sites", sites)?
        .with("threads", threads)?;
    Ok(members.object())
}

/// All threads, by number.
fn thread_values(alloc: Global, of: &Inspected<'_>) -> Result<Vec<Value>, AllocError>
    requires { IsInspected of.now }
    ensures { IfOk result (λ values. map view values.items
        ≡ map (thread_json of.now.compiled.now of.now.source.now of.now.spans.now of.now.names.now)
        (range_with_len 0 (length (program_of of.now.compiled.now).texts))) }
{
    let mut values = Vec::new(alloc);
    for thread in 0..of.compiled.scheme().program().thread_count() {
        values.push(thread_value(alloc, of, thread)?)?;
    }
    Ok(values)
}

/// A thread.
fn thread_value(alloc: Global, of: &Inspected<'_>, thread: u16) -> Result<Value, AllocError>
    requires inspected { IsInspected of.now }
    requires thread { thread < length (program_of of.now.compiled.now).texts }
    ensures { IfOk result (λ v. view v
        ≡ thread_json of.now.compiled.now of.now.source.now of.now.spans.now of.now.names.now thread) }
{
    let program = of.compiled.scheme().program();
    let mut name = String::new(alloc);
    put_thread_name(&mut name, program, thread)?;
    let told = Threaded {
        calls: thread_calls(alloc, of, thread)?,
        locals: locals_value(alloc, of, thread)?,
        name,
        nodes: thread_nodes(alloc, of, thread)?,
    };
    told_thread(alloc, told, thread)
}

/// What is told of a thread, beside its number.
#[derive(Drop)]
struct Threaded {
    calls: Value,
    locals: Value,
    name: String,
    nodes: Value,
}

/// A thread with what is told of it.
fn told_thread(alloc: Global, told: Threaded, thread: u16) -> Result<Value, AllocError>
    ensures { IfOk result (λ v. view v ≡ thread_with (thread_told told) thread) }
{
    let Threaded {
        calls,
        locals,
        name,
        nodes,
    } = told;
    let members = Members::new(alloc)
        .with("calls", calls)?
        .with("locals", locals)?
        .with("name", name)?
        .with("nodes", nodes)?
        .with("thread", thread)?;
    Ok(members.object())
}

/// The calls of a thread.
fn thread_calls(alloc: Global, of: &Inspected<'_>, thread: u16) -> Result<Value, AllocError>
    requires inspected { IsInspected of.now }
    requires thread { thread < length (program_of of.now.compiled.now).texts }
    ensures { IfOk result (λ v. view v ≡ calls_json of.now.source.now of.now.names.now
        (length (program_of of.now.compiled.now).source.procedures)
        (thread_name (program_of of.now.compiled.now).source thread)) }
{
    let program = of.compiled.scheme().program();
    program.facts();
    let tree = program.tree();
    let name = &tree.threads()[thread as usize].name;
    calls_value(alloc, of, name, tree.procedures().len())
}

/// The nodes of a thread, the exit last.
fn thread_nodes(alloc: Global, of: &Inspected<'_>, thread: u16) -> Result<Value, AllocError>
    requires inspected { IsInspected of.now }
    requires thread { thread < length (program_of of.now.compiled.now).texts }
    ensures { IfOk result (λ v. view v ≡ list (map
        (thread_node_json of.now.compiled.now of.now.source.now of.now.spans.now thread)
        (range_with_len 0 (length (graphed_nodes of.now.compiled.now (graphed.Thread thread)) + 1)))) }
{
    let mut values = Vec::new(alloc);
    for node in 0..graphed_flow(of.compiled, GraphOf::Thread(thread)).exit() + 1 {
        values.push(thread_node(alloc, of, thread, node)?)?;
    }
    Ok(Value::Array(values))
}

/// A node of a thread.
fn thread_node(
    alloc: Global,
    of: &Inspected<'_>,
    thread: u16,
    node: u16,
) -> Result<Value, AllocError>
    requires inspected { IsInspected of.now }
    requires thread { thread < length (program_of of.now.compiled.now).texts }
    ensures { IfOk result (λ v. view v
        ≡ thread_node_json of.now.compiled.now of.now.source.now of.now.spans.now thread node) }
{
    placed_node(alloc, of, GraphOf::Thread(thread), node)
}
