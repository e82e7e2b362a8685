//! A compiled program as it is printed.

ghost use Rattle.std.specs.{Prelude.{◌≡◌, ◌<◌, ◌++◌, Some, length, slice_get, IfOk, OnOk}, List.{flat_map}};
ghost use Rattle.std.specs.String.{string_bytes};
ghost use Rattle.sect_types.specs.{Statements.{TextView}, Sections.{SectionView, sections_of}};
ghost use Rattle.sect_graph.specs.declared.flow.Node.{Node};
ghost use Rattle.sect_names.specs.Printing.{IsNamed, AreNamed};
ghost use Rattle.sect_emit.specs.Labels.{thread_name};
ghost use Rattle.sect_emit.specs.Listing.{successors_text, node_line, exit_line, graph_lines, grip_line, path_line};
ghost use Rattle.sect_emit.specs.Listing.{thread_lines, section_lines, thread_listed, section_listed, listing_text};
ghost use Rattle.sect_emit.specs.Naming.{AreNodesOf};

use crate::compiled::Compiled;
use crate::plan::{Grip, object_mode};
use crate::statements::put_label;
use sect_graph::{Flow, Successors};
use sect_modes::Key;
use sect_names::{Lock, put_path};
use sect_types::Program;
use std::alloc::{AllocError, Global};
use std::fmt::Write;

/// The listing of a compiled program, a line for each part. For each thread its name and the nodes of its graph, in
/// which a section is one node; then for each section its thread, the keys of its plan that are the same in all states,
/// a line for each path that it locks, and the nodes of its graph.
pub fn listing(alloc: Global, compiled: &Compiled) -> Result<Vec<u8>, AllocError>
    ensures { IfOk result (λ text. text.items ≡ listing_text compiled.now) }
{
    let program = compiled.scheme().program();
    let mut text = String::new(alloc);
    for thread in 0..program.thread_count() {
        put_thread(&mut text, compiled, thread)?;
    }
    for section in 0..program.section_count() {
        put_section(&mut text, compiled, section)?;
    }
    Ok(text.into_bytes())
}

/// Adds the lines of a thread of a compiled program.
fn put_thread(text: &mut String, compiled: &Compiled, thread: u16) -> Result<(), AllocError>
    requires { thread < length compiled.now.scheme.program.texts }
    ensures { OnOk result ((of : TextView) → slice_get compiled.now.scheme.program.texts thread ≡ Some of
        → string_bytes text.new ≡ string_bytes text.old ++ thread_listed compiled.now thread of) }
{
    compiled.facts();
    let program = compiled.scheme().program();
    let _facts = program.text(thread);
    let flow = compiled.scheme().graph().thread(thread);
    put_thread_lines(text, program, thread, flow)
}

/// Adds the lines of a thread: its name and its graph.
fn put_thread_lines(
    text: &mut String,
    program: &Program,
    thread: u16,
    flow: &Flow,
) -> Result<(), AllocError>
    requires within { thread < length program.now.texts }
    requires named { AreNodesOf program.now thread flow.now }
    ensures { OnOk result (string_bytes text.new
        ≡ string_bytes text.old ++ thread_lines program.now.source thread flow.now) }
{
    write!(text, "thread {thread} ")?;
    put_thread_name(text, program, thread)?;
    text.push_str("\n")?;
    put_graph(text, program, thread, "at", "end", flow)
}

/// Adds the name of a thread.
pub fn put_thread_name(text: &mut String, program: &Program, thread: u16) -> Result<(), AllocError>
    requires { thread < length program.now.texts }
    ensures { OnOk result (string_bytes text.new
        ≡ string_bytes text.old ++ thread_name program.now.source thread) }
{
    program.facts();
    Ok(write!(text, "{}", program.tree().threads()[thread as usize].name)?)
}

/// A section that is listed: its number and its thread, what it holds in every state, its locks and its graph.
#[derive(Clone, Copy)]
struct Listed<'a> {
    number: u16,
    thread: u16,
    part: &'a [Grip],
    set: &'a [Lock],
    flow: &'a Flow,
}

/// Adds the lines of a section of a compiled program.
fn put_section(text: &mut String, compiled: &Compiled, section: u16) -> Result<(), AllocError>
    requires { section < length (sections_of compiled.now.scheme.program.texts) }
    ensures { OnOk result ((of : SectionView)
        → slice_get (sections_of compiled.now.scheme.program.texts) section ≡ Some of
        → string_bytes text.new ≡ string_bytes text.old ++ section_listed compiled.now section of) }
{
    compiled.facts();
    let program = compiled.scheme().program();
    let listed = Listed {
        number: section,
        thread: program.section(section).thread,
        part: compiled.part(section),
        set: compiled.set(section),
        flow: compiled.scheme().graph().section(section),
    };
    put_section_lines(text, program, listed)
}

/// Adds the lines of a section: what it holds and its graph.
fn put_section_lines(
    text: &mut String,
    program: &Program,
    section: Listed<'_>,
) -> Result<(), AllocError>
    requires locks { AreNamed program.now section.set.now }
    requires nodes { AreNodesOf program.now section.thread section.flow.now }
    ensures { OnOk result (string_bytes text.new ≡ string_bytes text.old ++ section_lines program.now.source
        section.entry.number section.entry.thread section.entry.part.now section.entry.set.now section.entry.flow.now) }
{
    write!(
        text,
        "section {} thread {}\n",
        section.number, section.thread
    )?;
    put_grips(text, section.part)?;
    put_paths(text, program, section.set)?;
    put_graph(text, program, section.thread, "node", "exit", section.flow)
}

/// Adds a line for each key that is taken in every state, which is `all` or a class.
fn put_grips(text: &mut String, grips: &[Grip]) -> Result<(), AllocError>
    ensures { OnOk result (string_bytes text.new ≡ string_bytes text.old ++ flat_map grip_line grips.now) }
{
    for grip in grips {
        put_grip(text, grip)?;
    }
    Ok(())
}

/// Adds the line of a key that is taken in every state.
fn put_grip(text: &mut String, grip: &Grip) -> Result<(), AllocError>
    ensures { OnOk result (string_bytes text.new ≡ string_bytes text.old ++ grip_line grip.now) }
{
    match grip.key {
        Key::All => write!(text, "lock all {}\n", grip.mode)?,
        Key::Class(class) => write!(text, "lock class {class} {}\n", grip.mode)?,
        Key::Global(_) | Key::Made { .. } => {}
    }
    Ok(())
}

/// Adds a line for each lock on a path.
fn put_paths(text: &mut String, program: &Program, locks: &[Lock]) -> Result<(), AllocError>
    requires { AreNamed program.now locks.now }
    ensures { OnOk result (string_bytes text.new
        ≡ string_bytes text.old ++ flat_map (path_line program.now.source) locks.now) }
{
    for lock in locks {
        put_path_lock(text, program, lock)?;
    }
    Ok(())
}

/// Adds the line of a lock, if that is on a path: the mode in which the path's object is held.
fn put_path_lock(text: &mut String, program: &Program, lock: &Lock) -> Result<(), AllocError>
    requires { IsNamed program.now lock.now }
    ensures { OnOk result (string_bytes text.new ≡ string_bytes text.old ++ path_line program.now.source lock.now) }
{
    let Lock::Path(path, effect) = lock else {
        return Ok(());
    };
    text.push_str("lock ")?;
    put_path(text, program, path)?;
    Ok(write!(text, " {}\n", object_mode(*effect))?)
}

/// Adds a line for each node of a graph, which begins with a word; that of the exit ends in another one.
fn put_graph(
    text: &mut String,
    program: &Program,
    thread: u16,
    word: &str,
    exit: &str,
    flow: &Flow,
) -> Result<(), AllocError>
    requires { AreNodesOf program.now thread flow.now }
    ensures { OnOk result (string_bytes text.new
        ≡ string_bytes text.old ++ graph_lines program.now.source thread word.now exit.now flow.now) }
{
    for node in 0..flow.exit() {
        put_node(text, program, thread, word, flow, node)?;
    }
    put_exit(text, word, exit, flow.exit())
}

/// Adds the line of an exit.
fn put_exit(text: &mut String, word: &str, exit: &str, number: u16) -> Result<(), AllocError>
    ensures { OnOk result (string_bytes text.new ≡ string_bytes text.old ++ exit_line word.now exit.now number) }
{
    Ok(write!(text, "{word} {number}: {exit}\n")?)
}

/// Adds the line of a node.
fn put_node(
    text: &mut String,
    program: &Program,
    thread: u16,
    word: &str,
    flow: &Flow,
    node: u16,
) -> Result<(), AllocError>
    requires within { node < length flow.now }
    requires named { AreNodesOf program.now thread flow.now }
    ensures { OnOk result ((of : Node) → slice_get flow.now node ≡ Some of
        → string_bytes text.new ≡ string_bytes text.old ++ node_line program.now.source thread word.now node of) }
{
    write!(text, "{word} {node}: ")?;
    put_label(text, program, thread, flow.action(node))?;
    put_successors(text, flow.succ(node))
}

/// Adds where control goes on from a node, and ends its line.
fn put_successors(text: &mut String, successors: Successors) -> Result<(), AllocError>
    ensures { OnOk result (string_bytes text.new ≡ string_bytes text.old ++ successors_text successors) }
{
    match successors {
        Successors::Next(next) => Ok(write!(text, " -> {next}\n")?),
        Successors::Branch(holds, fails) => Ok(write!(text, " -> {holds}, {fails}\n")?),
    }
}
