//! Graphs of small programs.

use crate::programs::program_of;
use sect_graph::{Flow, Graph, Successors, graph_of};
use sect_types::Label;
use std::alloc::Global;
use std::fmt::Write;
use std::process::Abort;
use std::test::Fail;

/// The graphs of a source text.
fn graph(alloc: Global, source: &str) -> Result<Graph, Fail> {
    Ok(graph_of(alloc, &program_of(alloc, source.as_bytes())?)?)
}

/// Adds a node's number and those that it leads to, as one line.
fn put_edge(text: &mut String, node: u16, next: Successors) -> Result<(), Fail> {
    match next {
        Successors::Next(next) => write!(text, "{node}: {next}\n")?,
        Successors::Branch(holds, fails) => write!(text, "{node}: {holds} {fails}\n")?,
    }
    Ok(())
}

/// What a node does: a statement, a test, or the section of this number, of three.
fn kind(label: Label) -> char {
    match label {
        Label::Act(_) => 'a',
        Label::Test(_) => 't',
        Label::Section(0) => '0',
        Label::Section(1) => '1',
        Label::Section(_) => '2',
    }
}

/// The kinds of the nodes as one line, and a line for each with its number and those that it leads to.
fn flow_text(alloc: Global, flow: &Flow) -> Result<String, Fail> {
    let mut text = String::new(alloc);
    for node in 0..flow.exit() {
        text.push(kind(flow.action(node)))?;
    }
    text.push('\n')?;
    for node in 0..flow.exit() {
        put_edge(&mut text, node, flow.succ(node))?;
    }
    Ok(text)
}

/// The graph has these nodes and edges, from the entry 0 to the exit.
fn is_flow(rt: &(impl Abort + AllocGlobal), flow: &Flow, wanted: &str) -> Result<(), Fail> {
    assert!(rt; flow.entry() == 0);
    let text = flow_text(rt.alloc(), flow)?;
    assert!(rt; text.as_str() == wanted, "{text}");
    Ok(())
}

/// The threads of a program have these graphs.
fn are_threads(
    rt: &(impl Abort + AllocGlobal),
    graph: &Graph,
    threads: &[&str],
) -> Result<(), Fail> {
    assert!(rt; graph.thread_count() == threads.len() && threads.len() <= 64);
    for (number, wanted) in threads.iter().enumerate() {
        is_flow(rt, graph.thread(number as u16), wanted)?;
    }
    Ok(())
}

/// The sections of a program have these graphs.
fn are_sections(
    rt: &(impl Abort + AllocGlobal),
    graph: &Graph,
    sections: &[&str],
) -> Result<(), Fail> {
    assert!(rt; graph.section_count() == sections.len() && sections.len() <= 256);
    for (number, wanted) in sections.iter().enumerate() {
        is_flow(rt, graph.section(number as u16), wanted)?;
    }
    Ok(())
}

/// The threads and the sections of a program have these graphs.
fn are_flows(
    rt: &(impl Abort + AllocGlobal),
    graph: &Graph,
    threads: &[&str],
    sections: &[&str],
) -> Result<(), Fail> {
    are_threads(rt, graph, threads)?;
    are_sections(rt, graph, sections)
}

/// Programs, and the graphs of their threads and sections.
const GRAPHS: &[(&str, &[&str], &[&str])] = &[
    // A loop with a branch.
    (
        "record A { int f; } global A a; global A b; \
        thread t { int x; atomic { while (x < 3) { x = a.f; if (x == 1) { b.f = x; } } } }",
        &["0\n0: 1\n"],
        &["tata\n0: 1 4\n1: 2\n2: 3 0\n3: 0\n"],
    ),
    // An empty branch leads on.
    (
        "thread t { atomic { if (1 == 1) { } } }",
        &["0\n0: 1\n"],
        &["t\n0: 1 1\n"],
    ),
    // An empty section has its exit alone.
    ("thread e { atomic { } }", &["0\n0: 1\n"], &["\n"]),
    // A section is one node of its thread.
    (
        "thread t { int x; if (x == 0) { atomic { x = 1; x = 2; } } else { x = 3; } atomic { } x = 4; } \
        thread u { atomic { while (1 == 2) { } } }",
        &["t0a1a\n0: 1 2\n1: 3\n2: 3\n3: 4\n4: 5\n", "2\n0: 1\n"],
        &["aa\n0: 1\n1: 2\n", "\n", "t\n0: 0 1\n"],
    ),
    // A call is what it expands to.
    (
        "proc f(int n) { int i; while (i < n) { i = i + 1; } } \
        thread t { atomic { call f(3); if (1 == 2) { call f(4); } } }",
        &["0\n0: 1\n"],
        &["aatataata\n0: 1\n1: 2\n2: 3 4\n3: 2\n4: 5 9\n5: 6\n6: 7\n7: 8 9\n8: 7\n"],
    ),
];

/// The program of a text has these graphs.
fn has_graphs(
    rt: &(impl Abort + AllocGlobal),
    text: &str,
    threads: &[&str],
    sections: &[&str],
) -> Result<(), Fail> {
    are_flows(rt, &graph(rt.alloc(), text)?, threads, sections)
}

#[test]
fn programs_have_graphs(rt: HostRuntime) -> Result<(), Fail> {
    for (text, threads, sections) in GRAPHS {
        has_graphs(&rt, text, threads, sections)?;
    }
    Ok(())
}
