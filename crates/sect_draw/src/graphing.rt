//! Control-flow graphs in the language of Graphviz.

ghost use Rattle.std.specs.Prelude.{◌≡◌, ◌<◌, ◌≤◌, ◌+◌, ◌-◌, ◌++◌, ℕ, List, Some, length, slice_get, IfOk, OnOk};
ghost use Rattle.std.specs.String.{string_bytes};
ghost use Rattle.sect_types.specs.Sections.{sections_of};
ghost use Rattle.sect_graph.specs.Layout.{flow_nodes};
ghost use Rattle.sect_names.specs.{declared.lock.Lock.{Lock as ALock}, Printing.{IsNamed, AreNamed}};
ghost use Rattle.sect_store.specs.Printing.{by_place};
ghost use Rattle.sect_emit.specs.{Compiled.{program_of}, Explaining.{section_at, section_deed}};
ghost use Rattle.sect_draw.specs.Graphs.{escaped_byte, label_line, node_opening, node_closing, node_text, edge_text};
ghost use Rattle.sect_draw.specs.Graphs.{edges_text, node_edges, heading_text, cluster_text, AreGenerated, IsCluster};
ghost use Rattle.sect_draw.specs.Graphs.{IsGraph, section_words, takes_words, needs_words, node_with};
ghost use Rattle.sect_draw.specs.steps.Drawings.{AreNamedLocks, IsDrawing};

use sect_emit::{
    Compiled, put_section_node, put_thread_name, section_flow, section_generates, section_locks,
};
use sect_graph::Successors;
use sect_infer::Locks;
use sect_names::{Lock, put_lock, put_locks};
use sect_types::Program;
use std::alloc::{AllocError, Global};

/// What stands in front of the sections.
const OPENING: &str = "digraph sections {
  graph [fontname=\"monospace\"];
  node [fontname=\"monospace\", shape=box];
  edge [fontname=\"monospace\"];
";

/// The control-flow graphs of sections of a compiled program, from `first` on and before `end`: a cluster for each, a
/// node for each statement and test, with the locks that are needed from there on and the one that it generates.
pub fn graph(
    alloc: Global,
    compiled: &Compiled,
    first: u16,
    end: u16,
) -> Result<Vec<u8>, AllocError>
    requires order { first ≤ end }
    requires within { end ≤ length (sections_of (program_of compiled.now).texts) }
    ensures { IfOk result (λ text. IsGraph compiled.now first (end - first) text.items) }
{
    let mut text = Vec::new(alloc);
    put(&mut text, OPENING)?;
    for section in first..end {
        put_section(alloc, &mut text, compiled, section)?;
    }
    put(&mut text, "}\n")?;
    Ok(text)
}

/// Adds a text.
fn put(text: &mut Vec<u8>, more: &str) -> Result<(), AllocError>
    ensures { OnOk result (text.new.items ≡ text.old.items ++ more.now) }
{
    text.extend_from_slice(more.as_bytes())
}

/// Adds a line of a label.
fn put_line(text: &mut Vec<u8>, line: &str) -> Result<(), AllocError>
    ensures { OnOk result (text.new.items ≡ text.old.items ++ label_line line.now) }
{
    for byte in line.as_bytes() {
        put_byte(text, *byte)?;
    }
    put(text, "\\l")
}

/// Adds a byte in a string.
fn put_byte(text: &mut Vec<u8>, byte: u8) -> Result<(), AllocError>
    ensures { OnOk result (text.new.items ≡ text.old.items ++ escaped_byte byte) }
{
    if byte == b'"' || byte == b'\\' {
        text.push(b'\\')?;
    }
    text.push(byte)?;
    Ok(())
}

/// Adds the cluster of a section.
fn put_section(
    alloc: Global,
    text: &mut Vec<u8>,
    compiled: &Compiled,
    section: u16,
) -> Result<(), AllocError>
    requires { section < length (sections_of (program_of compiled.now).texts) }
    ensures { OnOk result ((cluster : List ℕ) × IsCluster compiled.now section cluster
        × (text.new.items ≡ text.old.items ++ cluster)) }
{
    let generated = generated_of(alloc, compiled, section)?;
    let drawing = Drawing {
        compiled,
        section,
        locks: section_locks(compiled, section),
        generated: generated.as_slice(),
    };
    put_cluster(alloc, text, &drawing)
}

/// The locks that the nodes of a section generate, the exit too.
fn generated_of(
    alloc: Global,
    compiled: &Compiled,
    section: u16,
) -> Result<Vec<Option<Lock>>, AllocError>
    requires { section < length (sections_of (program_of compiled.now).texts) }
    ensures generated { IfOk result (λ generated. AreGenerated compiled.now section generated.items) }
    ensures named { IfOk result (λ generated. AreNamedLocks (program_of compiled.now) generated.items) }
{
    let mut generated = Vec::new(alloc);
    for node in 0..section_flow(compiled, section).exit() + 1 {
        generated.push(section_generates(alloc, compiled, section, node))?;
    }
    Ok(generated)
}

/// A section that is drawn: the locks that are needed at its nodes, and those that they generate.
#[derive(Clone, Copy)]
struct Drawing<'a> {
    compiled: &'a Compiled,
    section: u16,
    locks: &'a Locks,
    generated: &'a [Option<Lock>],
}

/// Adds the cluster of a section: its label, its nodes and its edges.
fn put_cluster(alloc: Global, text: &mut Vec<u8>, of: &Drawing<'_>) -> Result<(), AllocError>
    requires { IsDrawing of.now }
    ensures { OnOk result (text.new.items ≡ text.old.items
        ++ cluster_text of.now.compiled.now of.now.section of.now.locks.now.at of.now.generated.now) }
{
    put_heading(alloc, text, of.compiled, of.section)?;
    put_nodes(alloc, text, of)?;
    put_edges(alloc, text, of)?;
    put(text, "  }\n")
}

/// Adds what stands above a section.
fn put_heading(
    alloc: Global,
    text: &mut Vec<u8>,
    compiled: &Compiled,
    section: u16,
) -> Result<(), AllocError>
    requires { section < length (sections_of (program_of compiled.now).texts) }
    ensures { OnOk result (text.new.items ≡ text.old.items ++ heading_text compiled.now section) }
{
    let named = section_line(alloc, compiled, section)?;
    let takes = takes_line(alloc, compiled, section)?;
    let opening = format!(in alloc; "  subgraph cluster_{section} {{\n    label=\"")?;
    put(text, opening.as_str())?;
    put_line(text, named.as_str())?;
    put_line(text, takes.as_str())?;
    put(text, "\";\n")?;
    Ok(())
}

/// The number of a section and its thread.
fn section_line(alloc: Global, compiled: &Compiled, section: u16) -> Result<String, AllocError>
    requires { section < length (sections_of (program_of compiled.now).texts) }
    ensures { IfOk result (λ line. string_bytes line ≡ section_words compiled.now section) }
{
    let program = compiled.scheme().program();
    let thread = program.section(section).thread;
    let mut line = format!(in alloc; "section {section} of ")?;
    put_thread_name(&mut line, program, thread)?;
    Ok(line)
}

/// The locks that a section takes.
fn takes_line(alloc: Global, compiled: &Compiled, section: u16) -> Result<String, AllocError>
    requires { section < length (sections_of (program_of compiled.now).texts) }
    ensures { IfOk result (λ line. string_bytes line ≡ takes_words compiled.now section) }
{
    compiled.facts();
    let program = compiled.scheme().program();
    let mut line = String::from_str(alloc, "takes ")?;
    put_locks(&mut line, program, compiled.set(section))?;
    Ok(line)
}

/// Adds the nodes of a section, the exit last.
fn put_nodes(alloc: Global, text: &mut Vec<u8>, of: &Drawing<'_>) -> Result<(), AllocError>
    requires { IsDrawing of.now }
    ensures { OnOk result (text.new.items ≡ text.old.items
        ++ by_place (node_text of.now.compiled.now of.now.section of.now.generated.now) 0 of.now.locks.now.at) }
{
    for node in 0..section_flow(of.compiled, of.section).exit() + 1 {
        put_node(alloc, text, of, node)?;
    }
    Ok(())
}

/// Adds a node of a section.
fn put_node(
    alloc: Global,
    text: &mut Vec<u8>,
    of: &Drawing<'_>,
    node: u16,
) -> Result<(), AllocError>
    requires drawing { IsDrawing of.now }
    requires node { node < length of.now.locks.now.at }
    ensures { OnOk result ((needed : List ALock) → slice_get of.now.locks.now.at node ≡ Some needed
        → text.new.items ≡ text.old.items
        ++ node_text of.now.compiled.now of.now.section of.now.generated.now node needed) }
{
    let needed = of.locks.at(alloc, node)?;
    let own = &of.generated[node as usize];
    put_needed(alloc, text, of, node, needed.as_slice(), own)
}

/// Adds a node of a section, where these locks are needed: what it does, the locks, and the lock that it generates.
fn put_needed(
    alloc: Global,
    text: &mut Vec<u8>,
    of: &Drawing<'_>,
    node: u16,
    needed: &[Lock],
    own: &Option<Lock>,
) -> Result<(), AllocError>
    requires section { of.now.section < length (sections_of (program_of of.now.compiled.now).texts) }
    requires named { AreNamed (program_of of.now.compiled.now) needed.now }
    requires own { (l : ALock) → own.now ≡ Some l → IsNamed (program_of of.now.compiled.now) l }
    ensures { OnOk result (text.new.items ≡ text.old.items
        ++ node_with of.now.compiled.now of.now.section node needed.now own.now) }
{
    let program = of.compiled.scheme().program();
    let deed = deed_line(alloc, of.compiled, of.section, node)?;
    let needs = needs_line(alloc, program, needed)?;
    let opening = opening_of(alloc, of.section, node)?;
    put(text, opening.as_str())?;
    put_line(text, deed.as_str())?;
    put_line(text, needs.as_str())?;
    put_generated(alloc, text, program, own)?;
    Ok(())
}

/// Where a node begins.
fn opening_of(alloc: Global, section: u16, node: u16) -> Result<String, AllocError>
    ensures { IfOk result (λ text. string_bytes text ≡ node_opening section node) }
{
    let text = format!(in alloc; "    s{section}n{node} [label=\"")?;
    Ok(text)
}

/// What a node does.
fn deed_line(
    alloc: Global,
    compiled: &Compiled,
    section: u16,
    node: u16,
) -> Result<String, AllocError>
    requires { section < length (sections_of (program_of compiled.now).texts) }
    ensures { IfOk result (λ line. string_bytes line ≡ section_deed compiled.now section node) }
{
    let mut line = String::new(alloc);
    put_section_node(&mut line, compiled, section, node as u32)?;
    Ok(line)
}

/// The locks that are needed from a node on.
fn needs_line(alloc: Global, program: &Program, needed: &[Lock]) -> Result<String, AllocError>
    requires { AreNamed program.now needed.now }
    ensures { IfOk result (λ line. string_bytes line ≡ needs_words program.now.source needed.now) }
{
    let mut line = String::from_str(alloc, "needs ")?;
    put_locks(&mut line, program, needed)?;
    Ok(line)
}

/// Adds the lock that a node generates, if it does, to the end of the node's line.
fn put_generated(
    alloc: Global,
    text: &mut Vec<u8>,
    program: &Program,
    generated: &Option<Lock>,
) -> Result<(), AllocError>
    requires { (l : ALock) → generated.now ≡ Some l → IsNamed program.now l }
    ensures { OnOk result (text.new.items ≡ text.old.items
        ++ node_closing program.now.source generated.now) }
{
    match generated {
        None => put(text, "\"];\n"),
        Some(lock) => {
            let mut line = String::from_str(alloc, "generates ")?;
            put_lock(&mut line, program, lock)?;
            put_line(text, line.as_str())?;
            put(text, "\", penwidth=2];\n")
        }
    }
}

/// Adds the edges of a section.
fn put_edges(alloc: Global, text: &mut Vec<u8>, of: &Drawing<'_>) -> Result<(), AllocError>
    requires { IsDrawing of.now }
    ensures { OnOk result (text.new.items ≡ text.old.items ++ by_place (node_edges of.now.section) 0
        (flow_nodes (section_at of.now.compiled.now of.now.section).body)) }
{
    let flow = section_flow(of.compiled, of.section);
    for node in 0..flow.exit() {
        put_successors(alloc, text, of.section, node, flow.succ(node))?;
    }
    Ok(())
}

/// Adds the edges of a node.
fn put_successors(
    alloc: Global,
    text: &mut Vec<u8>,
    section: u16,
    node: u16,
    successors: Successors,
) -> Result<(), AllocError>
    ensures { OnOk result (text.new.items ≡ text.old.items ++ edges_text section node successors) }
{
    match successors {
        Successors::Next(next) => put_edge(alloc, text, section, node, next, ""),
        Successors::Branch(holds, fails) => {
            put_edge(alloc, text, section, node, holds, " [label=\"true\"]")?;
            put_edge(alloc, text, section, node, fails, " [label=\"false\"]")?;
            Ok(())
        }
    }
}

/// Adds an edge, with what stands at it.
fn put_edge(
    alloc: Global,
    text: &mut Vec<u8>,
    section: u16,
    from: u16,
    to: u16,
    at: &str,
) -> Result<(), AllocError>
    ensures { OnOk result (text.new.items ≡ text.old.items ++ edge_text section from to at.now) }
{
    let line = format!(in alloc; "    s{section}n{from} -> s{section}n{to}{at};\n")?;
    put(text, line.as_str())
}
