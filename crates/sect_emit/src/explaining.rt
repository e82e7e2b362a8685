//! Why the sections of a compiled program take their locks, as it is printed.

ghost use Rattle.std.specs.Prelude.{◌≡◌, ◌<◌, ◌++◌, List, length, map, replicate, IfOk, OnOk, Some, option_map};
ghost use Rattle.std.specs.{Prelude.{slice_get}, Option.{option_copied}, String.{string_bytes}};
ghost use Rattle.sect_lemmas.specs.Lists.{Has};
ghost use Rattle.sect_types.specs.Sections.{sections_of};
ghost use Rattle.sect_names.specs.{declared.link.Link.{Link}, Printing.{IsNamed}};
ghost use Rattle.sect_emit.specs.Words.{IsChainNamed};
ghost use Rattle.sect_emit.specs.Explaining.{deed_text, node_text, widest, line_end, step_line, lock_line, chain_lines};
ghost use Rattle.sect_emit.specs.Explaining.{chains_lines, explained_lines, section_explained, IsChained};
ghost use Rattle.sect_emit.specs.Explaining.{IsExplanation};
ghost use Rattle.sect_emit.specs.Naming.{AreNodesOf};

use crate::compiled::Compiled;
use crate::printing::put_thread_name;
use crate::statements::put_label;
use sect_chains::Chain;
use sect_graph::Flow;
use sect_names::{Link, put_lock};
use sect_places::NodeLine;
use sect_types::Program;
use std::alloc::{AllocError, Global};
use std::fmt::Write;

/// Why each section takes its locks. For each lock of a section, in order, its chain, a line a step: the node and what
/// it does, the lock that is needed from there on, as it is called there, and the line from which the node comes:
/// `lines` has those of the nodes of each section.
pub fn explanation(
    alloc: Global,
    compiled: &Compiled,
    lines: &[Vec<NodeLine>],
) -> Result<Vec<u8>, AllocError>
    requires { length lines.now ≡ length (sections_of compiled.now.scheme.program.texts) }
    ensures { IfOk result (λ text. IsExplanation compiled.now (map (λ v. v.items) lines.now) text.items) }
{
    let mut text = String::new(alloc);
    for section in 0..compiled.scheme().program().section_count() {
        put_explained_section(alloc, &mut text, compiled, lines, section)?;
    }
    Ok(text.into_bytes())
}

/// A section that is explained: its number, its thread, its graph and the lines of the nodes.
#[derive(Clone, Copy)]
struct Explained<'a> {
    program: &'a Program,
    number: u16,
    thread: u16,
    flow: &'a Flow,
    lines: &'a [NodeLine],
}

/// Adds the lines that say why a section of a compiled program takes its locks: its number and its thread, and for each
/// lock, in order, its chain. `lines` has those of the nodes of each section.
pub fn put_explained_section(
    alloc: Global,
    text: &mut String,
    compiled: &Compiled,
    lines: &[Vec<NodeLine>],
    section: u16,
) -> Result<(), AllocError>
    requires section { section < length (sections_of compiled.now.scheme.program.texts) }
    requires lines { section < length lines.now }
    ensures { OnOk result ((chains : List (List Link)) × IsChained compiled.now section chains
        × (string_bytes text.new ≡ string_bytes text.old
        ++ section_explained compiled.now (map (λ v. v.items) lines.now) section chains)) }
{
    compiled.facts();
    let program = compiled.scheme().program();
    let explained = Explained {
        program,
        number: section,
        thread: program.section(section).thread,
        flow: compiled.scheme().graph().section(section),
        lines: lines[section as usize].as_slice(),
    };
    let chains = compiled.chains(alloc, section)?;
    put_explained(alloc, text, explained, chains.as_slice())
}

/// Adds the lines of a section: its thread and its chains.
fn put_explained(
    alloc: Global,
    text: &mut String,
    section: Explained<'_>,
    chains: &[Chain],
) -> Result<(), AllocError>
    requires within { section.thread < length section.program.now.texts }
    requires nodes { AreNodesOf section.program.now section.thread section.flow.now }
    requires named { (links : List Link) → Has chains.now links → IsChainNamed section.program.now links }
    ensures { OnOk result (string_bytes text.new ≡ string_bytes text.old ++ explained_lines
        section.entry.program.now.source section.entry.number section.entry.thread section.entry.flow.now
        section.entry.lines.now chains.now) }
{
    write!(text, "section {} in thread ", section.number)?;
    put_thread_name(text, section.program, section.thread)?;
    text.push_str("\n")?;
    put_chains(alloc, text, section, chains)
}

/// Adds the lines of chains.
fn put_chains(
    alloc: Global,
    text: &mut String,
    section: Explained<'_>,
    chains: &[Chain],
) -> Result<(), AllocError>
    requires nodes { AreNodesOf section.program.now section.thread section.flow.now }
    requires named { (links : List Link) → Has chains.now links → IsChainNamed section.program.now links }
    ensures { OnOk result (string_bytes text.new ≡ string_bytes text.old
        ++ chains_lines section.entry.program.now.source section.entry.thread section.entry.flow.now
        section.entry.lines.now chains.now) }
{
    if chains.is_empty() {
        return text.push_str("no lock is needed\n");
    }
    for chain in chains {
        put_chain(alloc, text, section, chain)?;
    }
    Ok(())
}

/// Adds the line of a lock and those of its chain, which begins with it.
fn put_chain(
    alloc: Global,
    text: &mut String,
    section: Explained<'_>,
    chain: &Chain,
) -> Result<(), AllocError>
    requires nodes { AreNodesOf section.program.now section.thread section.flow.now }
    requires named { IsChainNamed section.program.now chain.now }
    ensures { OnOk result (string_bytes text.new ≡ string_bytes text.old
        ++ chain_lines section.entry.program.now.source section.entry.thread section.entry.flow.now
        section.entry.lines.now chain.now) }
{
    put_first(text, section.program, chain)?;
    let width = greatest_width(alloc, section, chain)?;
    for link in chain.links() {
        put_step(alloc, text, section, width, link)?;
    }
    Ok(())
}

/// Adds the line of the lock that a chain begins with.
fn put_first(text: &mut String, program: &Program, chain: &Chain) -> Result<(), AllocError>
    requires { IsChainNamed program.now chain.now }
    ensures { OnOk result (string_bytes text.new ≡ string_bytes text.old ++ lock_line program.now.source chain.now) }
{
    let first = &chain.links()[0];
    text.push_str("lock ")?;
    put_lock(text, program, &first.lock)?;
    text.push_str("\n")
}

/// The width of the widest text of a node of a chain.
fn greatest_width(alloc: Global, section: Explained<'_>, chain: &Chain) -> Result<usize, AllocError>
    requires { AreNodesOf section.program.now section.thread section.flow.now }
    ensures { IfOk result (λ width.
        width ≡ widest section.entry.program.now.source section.entry.thread section.entry.flow.now chain.now) }
{
    let mut width = 0;
    for link in chain.links() {
        width = width.max(node_text(alloc, section, link.node)?.len());
    }
    Ok(width)
}

/// A node and what it does.
fn node_text(alloc: Global, section: Explained<'_>, node: u32) -> Result<String, AllocError>
    requires { AreNodesOf section.program.now section.thread section.flow.now }
    ensures { IfOk result (λ text. string_bytes text
        ≡ node_text section.entry.program.now.source section.entry.thread section.entry.flow.now node) }
{
    let mut text = format!(in alloc; "node {node}: ")?;
    put_deed(
        &mut text,
        section.program,
        section.thread,
        section.flow,
        node,
    )?;
    Ok(text)
}

/// Adds what a node of a graph of a thread does; the exit is called so.
pub fn put_deed(
    text: &mut String,
    program: &Program,
    thread: u16,
    flow: &Flow,
    node: u32,
) -> Result<(), AllocError>
    requires { AreNodesOf program.now thread flow.now }
    ensures { OnOk result (string_bytes text.new ≡ string_bytes text.old ++ deed_text program.now.source thread
        (option_map (λ x. x.label) (slice_get flow.now node))) }
{
    if node < flow.exit() as u32 {
        put_label(text, program, thread, flow.action(node as u16))
    } else {
        text.push_str("exit")
    }
}

/// Adds the line of a step, in which the lock stands behind a column of this width.
fn put_step(
    alloc: Global,
    text: &mut String,
    section: Explained<'_>,
    width: usize,
    link: &Link,
) -> Result<(), AllocError>
    requires nodes { AreNodesOf section.program.now section.thread section.flow.now }
    requires named { IsNamed section.program.now link.now.lock }
    ensures { OnOk result (string_bytes text.new ≡ string_bytes text.old
        ++ step_line section.entry.program.now.source section.entry.thread section.entry.flow.now
        section.entry.lines.now width link.now) }
{
    let node = node_text(alloc, section, link.node)?;
    write!(text, "  {node}")?;
    put_blanks(text, width.saturating_sub(node.len()))?;
    text.push_str("  ")?;
    put_lock(text, section.program, &link.lock)?;
    put_end(text, section.lines, link.node)
}

/// The line of a node; the exit has none.
fn line_at(lines: &[NodeLine], node: u32) -> Option<&NodeLine>
    ensures { option_copied result ≡ slice_get lines.now node }
{
    lines.get(node as usize)
}

/// Ends the line of a step by where its node comes from.
fn put_end(text: &mut String, lines: &[NodeLine], node: u32) -> Result<(), AllocError>
    ensures { OnOk result (string_bytes text.new
        ≡ string_bytes text.old ++ line_end (slice_get lines.now node)) }
{
    match line_at(lines, node) {
        Some(line) => put_place(text, line),
        None => text.push_str("\n"),
    }
}

/// Ends the line of a step by the line of its statement, and that of the call if there is one.
fn put_place(text: &mut String, line: &NodeLine) -> Result<(), AllocError>
    ensures { OnOk result (string_bytes text.new ≡ string_bytes text.old ++ line_end (Some line.now)) }
{
    write!(text, " (line {}", line.line)?;
    if let Some(call) = line.call {
        write!(text, ", called in line {call}")?;
    }
    text.push_str(")\n")
}

/// Adds blanks.
pub fn put_blanks(text: &mut String, count: usize) -> Result<(), AllocError>
    ensures { OnOk result (string_bytes text.new ≡ string_bytes text.old ++ replicate count 32) }
{
    for _blank in 0..count {
        text.push_str(" ")?;
    }
    Ok(())
}
