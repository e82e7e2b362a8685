//! Why sections take their locks, as JSON.

ghost use Rattle.std.specs.{Prelude.{◌≡◌, ◌<◌, List, IfOk, length, map}, String.{string_bytes}};
ghost use Rattle.serde_json.specs.View.{view};
ghost use Rattle.sect_lemmas.specs.Lists.{Has};
ghost use Rattle.sect_types.specs.Sections.{sections_of};
ghost use Rattle.sect_names.specs.{declared.link.Link.{Link}, Printing.{IsNamed}};
ghost use Rattle.sect_emit.specs.{Compiled.{program_of}, Words.{IsChainNamed}};
ghost use Rattle.sect_json.specs.Values.{list};
ghost use Rattle.sect_json.specs.Explaining.{IsExplanationDocument, section_with, chain_json, step_json, step_with};
ghost use Rattle.sect_json.specs.steps.Explained.{IsExplained, AreExplained};

use crate::locks::{lock_value, sections_value};
use crate::writing::document;
use sect_chains::Chain;
use sect_emit::{Compiled, put_section_node, section_chains, section_thread};
use sect_names::Link;
use sect_object::Members;
use serde_json::{Value, json};
use std::alloc::{AllocError, Global};

/// Why each section of a compiled program takes its locks: for each of them the steps from the section's entry to where
/// it is needed.
pub fn explanation_document(alloc: Global, compiled: &Compiled) -> Result<String, AllocError>
    ensures { IfOk result (λ text. IsExplanationDocument compiled.now (string_bytes text)) }
{
    let sections = explained_values(alloc, compiled)?;
    let value = sections_value(alloc, sections)?;
    document(alloc, &value)
}

/// All sections, by number.
fn explained_values(alloc: Global, compiled: &Compiled) -> Result<Vec<Value>, AllocError>
    ensures { IfOk result (λ values. AreExplained compiled.now
        (length (sections_of (program_of compiled.now).texts)) (map view values.items)) }
{
    let mut values = Vec::new(alloc);
    for section in 0..compiled.scheme().program().section_count() {
        values.push(explained_value(alloc, compiled, section)?)?;
    }
    Ok(values)
}

/// A section, its thread, and a chain for each of its locks.
fn explained_value(alloc: Global, compiled: &Compiled, section: u16) -> Result<Value, AllocError>
    requires { section < length (sections_of (program_of compiled.now).texts) }
    ensures { IfOk result (λ v. IsExplained compiled.now section (view v)) }
{
    let found = section_chains(alloc, compiled, section)?;
    let chains = chains_value(alloc, compiled, section, found.as_slice())?;
    told_section(alloc, chains, section, section_thread(compiled, section))
}

/// A section with its chains.
fn told_section(
    alloc: Global,
    chains: Value,
    section: u16,
    thread: u16,
) -> Result<Value, AllocError>
    ensures { IfOk result (λ v. view v ≡ section_with (view chains) section thread) }
{
    let members = Members::new(alloc)
        .with("chains", chains)?
        .with("section", section)?
        .with("thread", thread)?;
    Ok(members.object())
}

/// The chains of a section.
pub fn chains_value(
    alloc: Global,
    compiled: &Compiled,
    section: u16,
    chains: &[Chain],
) -> Result<Value, AllocError>
    requires section { section < length (sections_of (program_of compiled.now).texts) }
    requires named { (links : List Link) → Has chains.now links → IsChainNamed (program_of compiled.now) links }
    ensures { IfOk result (λ v. view v ≡ list (map (chain_json compiled.now section) chains.now)) }
{
    let mut values = Vec::new(alloc);
    for chain in chains {
        values.push(chain_value(alloc, compiled, section, chain)?)?;
    }
    Ok(Value::Array(values))
}

/// The steps of a chain.
fn chain_value(
    alloc: Global,
    compiled: &Compiled,
    section: u16,
    chain: &Chain,
) -> Result<Value, AllocError>
    requires section { section < length (sections_of (program_of compiled.now).texts) }
    requires named { IsChainNamed (program_of compiled.now) chain.now }
    ensures { IfOk result (λ v. view v ≡ chain_json compiled.now section chain.now) }
{
    let steps = steps_value(alloc, compiled, section, chain.links())?;
    json!(in alloc; {"steps": steps})
}

/// Steps, in their order.
fn steps_value(
    alloc: Global,
    compiled: &Compiled,
    section: u16,
    links: &[Link],
) -> Result<Value, AllocError>
    requires section { section < length (sections_of (program_of compiled.now).texts) }
    requires named { (a : Link) → Has links.now a → IsNamed (program_of compiled.now) a.lock }
    ensures { IfOk result (λ v. view v ≡ list (map (step_json compiled.now section) links.now)) }
{
    let mut values = Vec::new(alloc);
    for link in links {
        values.push(step_value(alloc, compiled, section, link)?)?;
    }
    Ok(Value::Array(values))
}

/// A step: the node and what it does, and the lock that is needed from there on.
fn step_value(
    alloc: Global,
    compiled: &Compiled,
    section: u16,
    link: &Link,
) -> Result<Value, AllocError>
    requires section { section < length (sections_of (program_of compiled.now).texts) }
    requires named { IsNamed (program_of compiled.now) link.now.lock }
    ensures { IfOk result (λ v. view v ≡ step_json compiled.now section link.now) }
{
    let lock = lock_value(alloc, compiled.scheme().program(), &link.lock)?;
    let mut text = String::new(alloc);
    put_section_node(&mut text, compiled, section, link.node)?;
    told_step(alloc, lock, link.node, text)
}

/// A step with its lock.
fn told_step(alloc: Global, lock: Value, node: u32, text: String) -> Result<Value, AllocError>
    ensures { IfOk result (λ v. view v ≡ step_with (view lock) node (string_bytes text)) }
{
    let members = Members::new(alloc)
        .with("lock", lock)?
        .with("node", node)?
        .with("text", text)?;
    Ok(members.object())
}
