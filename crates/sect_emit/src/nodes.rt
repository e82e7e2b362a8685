//! What is told of the nodes of a section: where control goes on, which locks are needed from there on, and which lock
//! a node generates.

ghost use Rattle.std.specs.Prelude.{◌≡◌, ◌↔◌, ◌<◌, ◌≤◌, ℕ, List, Some, length, slice_get};
ghost use Rattle.sect_types.specs.Sections.{sections_of};
ghost use Rattle.sect_graph.specs.Layout.{flow_nodes};
ghost use Rattle.sect_infer.specs.Sets.{AreNeeded};
ghost use Rattle.sect_names.specs.{declared.lock.Lock.{Lock}, Chains.{link, IsGeneratedAt}, Needed.{end_of}};
ghost use Rattle.sect_names.specs.Printing.{IsNamed, AreNamed};
ghost use Rattle.sect_emit.specs.Explaining.{section_at};

use crate::compiled::Compiled;
use sect_check::generated_at;
use sect_graph::Flow;
use sect_infer::Locks;
use sect_names::{Lock, locks_stay_the_programs, steps_of_sections};
use std::alloc::Global;

/// The control-flow graph of a section.
pub fn section_flow(compiled: &Compiled, section: u16) -> &Flow
    requires { section < length (sections_of compiled.now.scheme.program.texts) }
    ensures { result.now ≡ flow_nodes (section_at compiled.now section).body }
{
    compiled.facts();
    let _there = compiled.scheme().program().section(section);
    compiled.scheme().graph().section(section)
}

/// The locks of a section at each of its nodes, the exit too: the maximal ones of those that are needed from there on.
pub fn section_locks(compiled: &Compiled, section: u16) -> &Locks
    requires { section < length (sections_of compiled.now.scheme.program.texts) }
    ensures needed { AreNeeded compiled.now.scheme (section_at compiled.now section).thread
        (end_of compiled.now.scheme section) (section_at compiled.now section).body
        (flow_nodes (section_at compiled.now section).body) result.now.at }
    ensures named { (node : ℕ) (locks : List Lock) → slice_get result.now.at node ≡ Some locks
        → AreNamed compiled.now.scheme.program locks }
{
    compiled.facts();
    let _there = compiled.scheme().program().section(section);
    let _graph = compiled.scheme().graph().section(section);
    compiled.locks(section)
}

/// The lock that a node of a section generates; the exit, what the end of the section does.
pub fn section_generates(
    alloc: Global,
    compiled: &Compiled,
    section: u16,
    node: u16,
) -> Option<Lock>
    requires section { section < length (sections_of compiled.now.scheme.program.texts) }
    requires node { node ≤ length (flow_nodes (section_at compiled.now section).body) }
    ensures generated { (l : Lock) → (result ≡ Some l)
        ↔ IsGeneratedAt compiled.now.scheme (section_at compiled.now section).thread
        (end_of compiled.now.scheme section) (flow_nodes (section_at compiled.now section).body) (link node l) }
    ensures named { (l : Lock) → result ≡ Some l → IsNamed compiled.now.scheme.program l }
{
    locks_stay_the_programs();
    steps_of_sections();
    compiled.facts();
    let scheme = compiled.scheme();
    let program = scheme.program();
    program.facts();
    let thread = program.section(section).thread;
    let flow = scheme.graph().section(section);
    generated_at(alloc, scheme, thread, program.locking(section), flow, node)
}
