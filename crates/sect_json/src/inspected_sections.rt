//! Sections with all that is known of them, as text: what is needed at their nodes is most of a document.

ghost use Rattle.std.specs.Prelude.{◌≡◌, ◌<◌, ◌++◌, IfOk, OnOk, codes, length, map, slice_index_or};
ghost use Rattle.serde_json.specs.{Data.{Data}, View.{view}, Written.{compact_text}};
ghost use Rattle.sect_front.specs.declared.tree.Locking.TheVariants.{Inferred};
ghost use Rattle.sect_types.specs.Sections.{sections_of};
ghost use Rattle.sect_names.specs.Printing.{AreNamed};
ghost use Rattle.sect_emit.specs.{Compiled.{program_of}, Graphed.{graphed_deed}};
ghost use Rattle.sect_json.specs.Values.{list};
ghost use Rattle.sect_json.specs.Inspecting.{origin_json, spans_at, thread_node_with, is_all, IsSectionInspected};
ghost use Rattle.sect_json.specs.{Locks.{lock_json}, Nodes.{next_at}};
ghost use Rattle.sect_json.specs.steps.Inspected.{IsInspected};
ghost use Rattle.sect_json.specs.steps.Sectioned.{AreChainsPut, AreNodesPut, AreSectionsPut, end_with, section_end};
ghost use Rattle.sect_json.specs.steps.Writes.{AreLockTexts, name_text, tail_text};
ghost use Rattle.sect_emit.specs.declared.graphs.GraphOf.TheVariants as graphed;

use crate::compiling::{plan_value, set_value};
use crate::context::Inspected;
use crate::lock_texts::LockTexts;
use crate::placed_nodes::placed_node;
use crate::step_texts::{Stepped, put_chains, step_tails};
use crate::writing::{put_comma, put_member, put_name, put_tail};
use sect_emit::{Compiled, GraphOf, graphed_flow, section_chains, section_locks, section_thread};
use sect_front::Locking;
use sect_lint::span_value;
use sect_names::Lock;
use sect_object::Members;
use sect_types::Program;
use serde_json::Value;
use std::alloc::{AllocError, Global};

/// Whether a section is marked.
fn all_value(compiled: &Compiled, section: u16) -> Value
    requires { section < length (sections_of (program_of compiled.now).texts) }
    ensures { view result ≡ is_all (slice_index_or (program_of compiled.now).lockings section Inferred) }
{
    match compiled.scheme().program().locking(section) {
        Locking::All => Value::Bool(true),
        Locking::Inferred => Value::Bool(false),
    }
}

/// Adds the chains of a section.
fn put_section_chains(
    alloc: Global,
    out: &mut Vec<u8>,
    texts: &mut LockTexts,
    compiled: &Compiled,
    section: u16,
) -> Result<(), AllocError>
    requires section { section < length (sections_of (program_of compiled.now).texts) }
    requires told { AreLockTexts (program_of compiled.now).source texts.old }
    ensures told { OnOk result (AreLockTexts (program_of compiled.now).source texts.new) }
    ensures text { OnOk result (AreChainsPut compiled.now section out.old.items out.new.items) }
{
    let chains = section_chains(alloc, compiled, section)?;
    let tails = step_tails(alloc, compiled, section)?;
    let of = Stepped {
        compiled,
        section,
        tails: tails.as_slice(),
    };
    put_chains(alloc, out, texts, of, chains.as_slice())
}

/// Adds the locks that are needed from a node on, with the brace before them.
fn put_needs(
    alloc: Global,
    out: &mut Vec<u8>,
    texts: &mut LockTexts,
    program: &Program,
    needed: &[Lock],
) -> Result<(), AllocError>
    requires told { AreLockTexts program.now.source texts.old }
    requires named { AreNamed program.now needed.now }
    ensures told { OnOk result (AreLockTexts program.now.source texts.new) }
    ensures text { OnOk result (out.new.items ≡ out.old.items ++ (name_text 123 (codes "needs")
        ++ compact_text (list (map (lock_json program.now.source) needed.now)))) }
{
    out.extend_from_slice(b"{\"needs\":")?;
    texts.put_all(alloc, out, program, needed)
}

/// Adds a node, but not what is needed there, and the brace behind it.
fn put_node(
    alloc: Global,
    out: &mut Vec<u8>,
    of: &Inspected<'_>,
    section: u16,
    node: u16,
) -> Result<(), AllocError>
    requires inspected { IsInspected of.now }
    requires section { section < length (sections_of (program_of of.now.compiled.now).texts) }
    ensures { OnOk result (out.new.items ≡ out.old.items ++ tail_text
        (thread_node_with (next_at of.now.compiled.now (graphed.Section section) node) node
        (origin_json of.now.source.now (spans_at of.now.spans.now (graphed.Section section)) node)
        (graphed_deed of.now.compiled.now (graphed.Section section) node))) }
{
    let value = placed_node(alloc, of, GraphOf::Section(section), node)?;
    put_tail(alloc, out, &value)
}

/// Adds the nodes of a section, the exit last, each with the locks that are needed from there on.
fn put_nodes(
    alloc: Global,
    out: &mut Vec<u8>,
    texts: &mut LockTexts,
    of: &Inspected<'_>,
    section: u16,
) -> Result<(), AllocError>
    requires inspected { IsInspected of.now }
    requires section { section < length (sections_of (program_of of.now.compiled.now).texts) }
    requires told { AreLockTexts (program_of of.now.compiled.now).source texts.old }
    ensures { OnOk result (AreNodesPut of.now section out.old.items out.new.items) }
{
    let locks = section_locks(of.compiled, section);
    let program = of.compiled.scheme().program();
    out.push(b'[')?;
    for node in 0..graphed_flow(of.compiled, GraphOf::Section(section)).exit() + 1 {
        let needed = locks.at(alloc, node)?;
        put_comma(out, node as usize)?;
        put_needs(alloc, out, texts, program, needed.as_slice())?;
        put_node(alloc, out, of, section, node)?;
    }
    Ok(out.push(b']')?)
}

/// What is told last of a section: its place, its plan, its number and its thread.
fn end_value(
    alloc: Global,
    place: Value,
    plan: Value,
    section: u16,
    thread: u16,
) -> Result<Value, AllocError>
    ensures { IfOk result (λ v. view v ≡ end_with (view place) (view plan) section thread) }
{
    let members = Members::new(alloc)
        .with("place", place)?
        .with("plan", plan)?
        .with("section", section)?
        .with("thread", thread)?;
    Ok(members.object())
}

/// Adds what is told last of a section, and the brace behind it.
fn put_end(
    alloc: Global,
    out: &mut Vec<u8>,
    of: &Inspected<'_>,
    section: u16,
) -> Result<(), AllocError>
    requires inspected { IsInspected of.now }
    requires section { section < length (sections_of (program_of of.now.compiled.now).texts) }
    ensures { OnOk result (out.new.items ≡ out.old.items
        ++ tail_text (section_end of.now.compiled.now of.now.source.now of.now.spans.now section)) }
{
    let place = span_value(alloc, of.source, of.spans.head(section))?;
    let plan = plan_value(alloc, of.compiled, section)?;
    let thread = section_thread(of.compiled, section);
    let value = end_value(alloc, place, plan, section, thread)?;
    put_tail(alloc, out, &value)
}

/// Adds a section: its locks and their chains, its nodes and the locks that are needed there.
fn put_section(
    alloc: Global,
    out: &mut Vec<u8>,
    of: &Inspected<'_>,
    section: u16,
) -> Result<(), AllocError>
    requires inspected { IsInspected of.now }
    requires section { section < length (sections_of (program_of of.now.compiled.now).texts) }
    ensures { OnOk result ((value : Data)
        × IsSectionInspected of.now.compiled.now of.now.source.now of.now.spans.now section value
        × (out.new.items ≡ out.old.items ++ compact_text value)) }
{
    let mut texts = LockTexts::new(alloc);
    put_member(alloc, out, b'{', "all", &all_value(of.compiled, section))?;
    put_name(alloc, out, b',', "chains")?;
    put_section_chains(alloc, out, &mut texts, of.compiled, section)?;
    let set = set_value(alloc, of.compiled, section)?;
    put_member(alloc, out, b',', "locks", &set)?;
    put_name(alloc, out, b',', "nodes")?;
    put_nodes(alloc, out, &mut texts, of, section)?;
    put_end(alloc, out, of, section)
}

/// Adds all sections, by number.
pub fn put_sections(alloc: Global, out: &mut Vec<u8>, of: &Inspected<'_>) -> Result<(), AllocError>
    requires { IsInspected of.now }
    ensures { OnOk result (AreSectionsPut of.now (length (sections_of (program_of of.now.compiled.now).texts))
        out.old.items out.new.items) }
{
    out.push(b'[')?;
    for section in 0..of.compiled.scheme().program().section_count() {
        put_comma(out, section as usize)?;
        put_section(alloc, out, of, section)?;
    }
    Ok(out.push(b']')?)
}
