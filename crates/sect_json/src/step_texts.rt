//! Chains of a section as text.

ghost use Rattle.std.specs.{Prelude.{◌≡◌, ◌<◌, ◌+◌, ◌++◌, List, IfOk, OnOk, length, map}, String.{string_bytes}};
ghost use Rattle.serde_json.specs.{Written.{compact_text}, View.{view}};
ghost use Rattle.sect_lemmas.specs.Lists.{Has};
ghost use Rattle.sect_types.specs.Sections.{sections_of};
ghost use Rattle.sect_names.specs.{declared.link.Link.{Link}, Printing.{IsNamed}};
ghost use Rattle.sect_emit.specs.{Compiled.{program_of}, Graphed.{graphed_nodes}, Words.{IsChainNamed}};
ghost use Rattle.sect_json.specs.{Values.{list}, Explaining.{chain_json, step_json}};
ghost use Rattle.sect_json.specs.steps.Stepping.{rest_with, step_tail, AreStepTails, IsStepped, AreStepsBelow};
ghost use Rattle.sect_json.specs.steps.Writes.{AreLockTexts};
ghost use Rattle.sect_emit.specs.declared.graphs.GraphOf.TheVariants as graphed;

use crate::lock_texts::LockTexts;
use crate::writing::{put_comma, put_tail};
use sect_chains::Chain;
use sect_emit::{Compiled, GraphOf, graphed_flow, put_section_node};
use sect_names::Link;
use sect_object::Members;
use serde_json::Value;
use std::alloc::{AllocError, Global};

/// A section whose chains are written, and for each node of it, the exit last, what stands behind the lock of a step.
#[derive(Clone, Copy)]
pub struct Stepped<'a> {
    pub compiled: &'a Compiled,
    pub section: u16,
    pub tails: &'a [Vec<u8>],
}

/// A step without its lock.
fn rest_value(alloc: Global, node: u16, text: String) -> Result<Value, AllocError>
    ensures { IfOk result (λ v. view v ≡ rest_with node (string_bytes text)) }
{
    let members = Members::new(alloc).with("node", node)?.with("text", text)?;
    Ok(members.object())
}

/// What stands behind the lock of a step at a node.
fn tail_of(
    alloc: Global,
    compiled: &Compiled,
    section: u16,
    node: u16,
) -> Result<Vec<u8>, AllocError>
    requires { section < length (sections_of (program_of compiled.now).texts) }
    ensures { IfOk result (λ tail. tail.items ≡ step_tail compiled.now section node) }
{
    let mut text = String::new(alloc);
    put_section_node(&mut text, compiled, section, node as u32)?;
    let mut tail = Vec::new(alloc);
    put_tail(alloc, &mut tail, &rest_value(alloc, node, text)?)?;
    Ok(tail)
}

/// What stands behind the lock of a step at each node of a section, the exit last.
pub fn step_tails(
    alloc: Global,
    compiled: &Compiled,
    section: u16,
) -> Result<Vec<Vec<u8>>, AllocError>
    requires { section < length (sections_of (program_of compiled.now).texts) }
    ensures count { IfOk result (λ tails. length tails.items
        ≡ length (graphed_nodes compiled.now (graphed.Section section)) + 1) }
    ensures tails { IfOk result (λ tails. AreStepTails compiled.now section (map (λ v. v.items) tails.items)) }
{
    let mut tails = Vec::new(alloc);
    for node in 0..graphed_flow(compiled, GraphOf::Section(section)).exit() + 1 {
        tails.push(tail_of(alloc, compiled, section, node)?)?;
    }
    Ok(tails)
}

/// Adds the text of a step.
fn put_step(
    alloc: Global,
    out: &mut Vec<u8>,
    texts: &mut LockTexts,
    of: Stepped<'_>,
    link: &Link,
) -> Result<(), AllocError>
    requires stepped { IsStepped of }
    requires told { AreLockTexts (program_of of.compiled.now).source texts.old }
    requires named { IsNamed (program_of of.compiled.now) link.now.lock }
    requires there { link.now.node < length of.tails.now }
    ensures told { OnOk result (AreLockTexts (program_of of.entry.compiled.now).source texts.new) }
    ensures text { OnOk result (out.new.items
        ≡ out.old.items ++ compact_text (step_json of.entry.compiled.now of.entry.section link.now)) }
{
    out.extend_from_slice(b"{\"lock\":")?;
    texts.put(alloc, out, of.compiled.scheme().program(), &link.lock)?;
    out.extend_from_slice(of.tails[link.node as usize].as_slice())?;
    Ok(())
}

/// Adds the text of steps, in their order.
fn put_steps(
    alloc: Global,
    out: &mut Vec<u8>,
    texts: &mut LockTexts,
    of: Stepped<'_>,
    links: &[Link],
) -> Result<(), AllocError>
    requires stepped { IsStepped of }
    requires told { AreLockTexts (program_of of.compiled.now).source texts.old }
    requires named { IsChainNamed (program_of of.compiled.now) links.now }
    requires there { AreStepsBelow (length of.tails.now) links.now }
    ensures told { OnOk result (AreLockTexts (program_of of.entry.compiled.now).source texts.new) }
    ensures text { OnOk result (out.new.items ≡ out.old.items
        ++ compact_text (list (map (step_json of.entry.compiled.now of.entry.section) links.now))) }
{
    out.push(b'[')?;
    for (index, link) in links.iter().enumerate() {
        put_comma(out, index)?;
        put_step(alloc, out, texts, of, link)?;
    }
    Ok(out.push(b']')?)
}

/// Adds the text of a chain.
fn put_chain(
    alloc: Global,
    out: &mut Vec<u8>,
    texts: &mut LockTexts,
    of: Stepped<'_>,
    chain: &Chain,
) -> Result<(), AllocError>
    requires stepped { IsStepped of }
    requires told { AreLockTexts (program_of of.compiled.now).source texts.old }
    requires named { IsChainNamed (program_of of.compiled.now) chain.now }
    requires there { AreStepsBelow (length of.tails.now) chain.now }
    ensures told { OnOk result (AreLockTexts (program_of of.entry.compiled.now).source texts.new) }
    ensures text { OnOk result (out.new.items
        ≡ out.old.items ++ compact_text (chain_json of.entry.compiled.now of.entry.section chain.now)) }
{
    out.extend_from_slice(b"{\"steps\":")?;
    put_steps(alloc, out, texts, of, chain.links())?;
    Ok(out.push(b'}')?)
}

/// Adds the text of the chains of a section.
pub fn put_chains(
    alloc: Global,
    out: &mut Vec<u8>,
    texts: &mut LockTexts,
    of: Stepped<'_>,
    chains: &[Chain],
) -> Result<(), AllocError>
    requires stepped { IsStepped of }
    requires told { AreLockTexts (program_of of.compiled.now).source texts.old }
    requires named { (links : List Link) → Has chains.now links → IsChainNamed (program_of of.compiled.now) links }
    requires there { (links : List Link) → Has chains.now links → AreStepsBelow (length of.tails.now) links }
    ensures told { OnOk result (AreLockTexts (program_of of.entry.compiled.now).source texts.new) }
    ensures text { OnOk result (out.new.items ≡ out.old.items
        ++ compact_text (list (map (chain_json of.entry.compiled.now of.entry.section) chains.now))) }
{
    out.push(b'[')?;
    for (index, chain) in chains.iter().enumerate() {
        put_comma(out, index)?;
        put_chain(alloc, out, texts, of, chain)?;
    }
    Ok(out.push(b']')?)
}
