//! The graphs of a compiled program, and what their nodes do.

ghost use Rattle.std.specs.{Prelude.{◌≡◌, ◌<◌, ◌++◌, length, OnOk}, String.{string_bytes}};
ghost use Rattle.sect_graph.specs.Layout.{flow_nodes};
ghost use Rattle.sect_emit.specs.{Compiled.{program_of}, Graphed.{IsThere, graphed_nodes, graphed_deed, text_at}};
ghost use Rattle.sect_emit.specs.declared.graphs.GraphOf.TheVariants.{Thread};

use crate::compiled::Compiled;
use crate::explaining::put_deed;
use crate::nodes::section_flow;
use crate::sections::put_section_node;
use sect_graph::Flow;
use std::alloc::AllocError;

/// A graph of a compiled program, by the number of its thread or of its section. In that of a thread a section is one
/// node.
#[derive(Clone, Copy)]
pub enum GraphOf {
    Thread(u16),
    Section(u16),
}

/// The graph of a thread.
fn thread_flow(compiled: &Compiled, thread: u16) -> &Flow
    requires { thread < length (program_of compiled.now).texts }
    ensures { result.now ≡ flow_nodes (text_at compiled.now thread) }
{
    compiled.facts();
    let _facts = compiled.scheme().program().text(thread);
    compiled.scheme().graph().thread(thread)
}

/// The nodes of a graph, and where control goes on from each.
pub fn graphed_flow(compiled: &Compiled, of: GraphOf) -> &Flow
    requires { IsThere compiled.now of }
    ensures { result.now ≡ graphed_nodes compiled.now of }
{
    match of {
        GraphOf::Thread(thread) => thread_flow(compiled, thread),
        GraphOf::Section(section) => section_flow(compiled, section),
    }
}

/// Adds what a node of a graph does: a statement without its `;`, a test without its brackets, a section by its number,
/// or `exit`.
pub fn put_graphed_node(
    text: &mut String,
    compiled: &Compiled,
    of: GraphOf,
    node: u16,
) -> Result<(), AllocError>
    requires { IsThere compiled.now of }
    ensures { OnOk result (string_bytes text.new
        ≡ string_bytes text.old ++ graphed_deed compiled.now of node) }
{
    match of {
        GraphOf::Thread(thread) => put_thread_node(text, compiled, thread, node),
        GraphOf::Section(section) => put_section_node(text, compiled, section, node as u32),
    }
}

/// Adds what a node of a thread's graph does.
fn put_thread_node(
    text: &mut String,
    compiled: &Compiled,
    thread: u16,
    node: u16,
) -> Result<(), AllocError>
    requires { thread < length (program_of compiled.now).texts }
    ensures { OnOk result (string_bytes text.new
        ≡ string_bytes text.old ++ graphed_deed compiled.now (Thread thread) node) }
{
    compiled.facts();
    let program = compiled.scheme().program();
    let _facts = program.text(thread);
    let flow = compiled.scheme().graph().thread(thread);
    put_deed(text, program, thread, flow, node as u32)
}
