//! What is told of a section of a compiled program: its thread, what its nodes do, and why it takes its locks.

ghost use Rattle.std.specs.{Prelude.{◌≡◌, ◌<◌, ◌++◌, List, length, IfOk, OnOk}, String.{string_bytes}};
ghost use Rattle.sect_lemmas.specs.Lists.{Has};
ghost use Rattle.sect_types.specs.Sections.{sections_of};
ghost use Rattle.sect_names.specs.declared.link.Link.{Link};
ghost use Rattle.sect_emit.specs.{Words.{IsChainNamed}, Explaining.{IsChained, section_at, section_deed}};

use crate::compiled::Compiled;
use crate::explaining::put_deed;
use sect_chains::Chain;
use std::alloc::{AllocError, Global};

/// The thread of a section.
pub fn section_thread(compiled: &Compiled, section: u16) -> u16
    requires { section < length (sections_of compiled.now.scheme.program.texts) }
    ensures { result ≡ (section_at compiled.now section).thread }
{
    compiled.scheme().program().section(section).thread
}

/// Adds what a node of a section does: a statement without its `;`, a test without its brackets, or `exit`.
pub fn put_section_node(
    text: &mut String,
    compiled: &Compiled,
    section: u16,
    node: u32,
) -> Result<(), AllocError>
    requires { section < length (sections_of compiled.now.scheme.program.texts) }
    ensures { OnOk result (string_bytes text.new
        ≡ string_bytes text.old ++ section_deed compiled.now section node) }
{
    compiled.facts();
    let program = compiled.scheme().program();
    let thread = program.section(section).thread;
    let flow = compiled.scheme().graph().section(section);
    put_deed(text, program, thread, flow, node)
}

/// For each lock that a section takes, in order, a chain of steps to where it is needed.
pub fn section_chains(
    alloc: Global,
    compiled: &Compiled,
    section: u16,
) -> Result<Vec<Chain>, AllocError>
    requires { section < length (sections_of compiled.now.scheme.program.texts) }
    ensures chained { IfOk result (λ chains. IsChained compiled.now section chains.items) }
    ensures named { IfOk result (λ chains. (links : List Link) → Has chains.items links
        → IsChainNamed compiled.now.scheme.program links) }
{
    compiled.facts();
    let program = compiled.scheme().program();
    let _there = program.section(section);
    let _graph = compiled.scheme().graph().section(section);
    compiled.chains(alloc, section)
}
