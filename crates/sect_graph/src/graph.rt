//! The control-flow graphs of a program.

ghost use Rattle.sect_types.specs.declared.declarations.limits.TheConstants.{MOST_STATEMENTS};
ghost use Rattle.sect_types.specs.{Statements.{Stop, section_bodies, statement_count}, Texts.{step_then}};
ghost use Rattle.std.specs.Prelude.{◌≡◌, ◌<◌, ◌≤◌, ◌++◌, length, map, slice_get, Some, IfOk, OnOk};
ghost use Rattle.sect_graph.specs.{Layout.{flow_nodes}, Graphs.{AreGraphs}};

use crate::flow::{Flow, flow_of};
use sect_types::{Program, Step, Text};
use std::alloc::{AllocError, Global};
use std::marker::Model;

/// The control-flow graph of each thread, in which a section is one node, and that of each section.
pub struct Graph {
    threads: Vec<Flow>,
    sections: Vec<Flow>,
}

impl Drop for Graph {
    fn drop(self) {
        let Graph {
            threads: _,
            sections: _,
        } = self;
    }
}

impl Model for Graph {
    ghost use Rattle.sect_graph.specs.Graphs.{GraphView};

    ghost Value = { GraphView };

    ghost view = { λ g. record { threads = g.threads.items; sections = g.sections.items } };
}

impl Graph {
    /// How many threads there are.
    pub fn thread_count(&self) -> usize
        ensures { result ≡ length self.now.threads }
    {
        self.threads.len()
    }

    /// How many sections there are.
    pub fn section_count(&self) -> usize
        ensures { result ≡ length self.now.sections }
    {
        self.sections.len()
    }

    /// The graph of a thread.
    pub fn thread(&self, number: u16) -> &Flow
        requires { number < length self.now.threads }
        ensures { slice_get self.now.threads number ≡ Some result.now }
    {
        &self.threads[number as usize]
    }

    /// The graph of a section.
    pub fn section(&self, number: u16) -> &Flow
        requires { number < length self.now.sections }
        ensures { slice_get self.now.sections number ≡ Some result.now }
    {
        &self.sections[number as usize]
    }
}

/// The graphs of a program.
pub fn graph_of(alloc: Global, program: &Program) -> Result<Graph, AllocError>
    ensures { IfOk result (AreGraphs program.now.texts) }
{
    program.facts();
    let mut threads = Vec::new(alloc);
    let mut sections = Vec::new(alloc);
    for thread in 0..program.thread_count() {
        let text = program.text(thread);
        threads.push(flow_of(alloc, text)?)?;
        put_text(alloc, &mut sections, text)?;
    }
    Ok(Graph { threads, sections })
}

/// Adds the graphs of the sections of a text, in text order.
#[cycle(put)]
fn put_text(alloc: Global, sections: &mut Vec<Flow>, text: &Text) -> Result<(), AllocError>
    requires { statement_count text.now ≤ MOST_STATEMENTS }
    ensures { OnOk result (sections.new.items ≡ sections.old.items ++ map flow_nodes (section_bodies text.now)) }
{
    for step in text.as_slice() {
        put_step(alloc, sections, step)?;
    }
    Ok(())
}

/// Adds the graphs of the sections of a statement.
#[cycle(put)]
fn put_step(alloc: Global, sections: &mut Vec<Flow>, step: &Step) -> Result<(), AllocError>
    requires { statement_count (step_then step.now Stop) ≤ MOST_STATEMENTS }
    ensures { OnOk result (sections.new.items
        ≡ sections.old.items ++ map flow_nodes (section_bodies (step_then step.now Stop))) }
{
    match step {
        Step::Do(_) => Ok(()),
        Step::If(_, holds, fails) => {
            put_text(alloc, sections, holds)?;
            put_text(alloc, sections, fails)
        }
        Step::While(_, body) => put_text(alloc, sections, body),
        Step::Section(_, body) => {
            sections.push(flow_of(alloc, body)?)?;
            Ok(())
        }
    }
}
