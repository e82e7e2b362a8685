//! A certificate as text.

ghost use Rattle.std.specs.Prelude.{◌≡◌, ◌++◌, ◌+◌, ◌<◌, ◌∷◌, ℕ, [], List, Result, OnOk, IfOk, length, codes};
ghost use Rattle.std.specs.{Fmt.{decimal}, List.{flat_map}};
ghost use Rattle.sect_cert.specs.declared.{lock.CertLock.{CertLock}, certificate.CertSection.{CertSection}};
ghost use Rattle.sect_cert.specs.declared.certificate.Cert.{Cert};
ghost use Rattle.sect_cert.specs.{Paths.{base_text, path_text}, Spelling.{spaced, list_words, chain_words}};
ghost use Rattle.sect_cert.specs.Texts.{HasText, lines_text, section_lines, begun_text, certificate_text};
ghost use Rattle.sect_cert.specs.Verdicts.{Judges, Gives};
ghost use Rattle.sect_cert.specs.steps.Writes.{IsListBefore, IsLockBefore, arrow_before, field_text, lock_text};
ghost use Rattle.sect_cert.specs.steps.Writes.{next_lock, fed_line, chain_text, nodes_text, section_text};
ghost use Rattle.sect_cert.specs.steps.Writes.{front_text};
ghost use Rattle.sect_cert.specs.declared.lock.CertLock.TheVariants as lock;
ghost use Rattle.sect_cert.specs.declared.line.CertLine.TheVariants as line;

use crate::certificate::{Cert, CertChain, CertSection};
use crate::chain_steps::ChainSteps;
use crate::fault::CertFault;
use crate::lock::{CertBase, CertLock, CertPath};
use crate::runs::Runs;
use crate::shared_path::SharedPath;
use itoa::Buffer;
use sect_front::{Items, Name};
use std::alloc::{AllocError, Global};

/// Writes a word behind a blank.
fn put_word(out: &mut Vec<u8>, word: &[u8]) -> Result<(), AllocError>
    ensures { OnOk result (out.new.items ≡ out.old.items ++ 32 ∷ word.now) }
{
    out.push(b' ')?;
    out.extend_from_slice(word)
}

/// Writes a word of one letter, or a sign, behind a blank.
#[inline(always)]
fn put_letter(out: &mut Vec<u8>, letter: u8) -> Result<(), AllocError>
    ensures { OnOk result (out.new.items ≡ out.old.items ++ 32 ∷ letter ∷ []) }
{
    out.push(b' ')?;
    Ok(out.push(letter)?)
}

/// Writes a number.
fn put_digits(out: &mut Vec<u8>, number: usize) -> Result<(), AllocError>
    ensures { OnOk result (out.new.items ≡ out.old.items ++ decimal number) }
{
    let mut buffer = Buffer::new();
    out.extend_from_slice(buffer.format(number).as_bytes())
}

/// Writes a number behind a blank.
fn put_number(out: &mut Vec<u8>, number: usize) -> Result<(), AllocError>
    ensures { OnOk result (out.new.items ≡ out.old.items ++ 32 ∷ decimal number) }
{
    out.push(b' ')?;
    put_digits(out, number)
}

/// Writes the base of a path behind a blank.
fn put_base(out: &mut Vec<u8>, base: &CertBase) -> Result<(), AllocError>
    ensures { OnOk result (out.new.items ≡ out.old.items ++ 32 ∷ base_text base.now) }
{
    match base {
        CertBase::Name(name) => put_word(out, name.as_bytes()),
        CertBase::InCall(name, call) => {
            put_word(out, name.as_bytes())?;
            out.push(b'#')?;
            put_digits(out, *call as usize)
        }
    }
}

/// Writes a field behind its point.
fn put_field(out: &mut Vec<u8>, field: &Name) -> Result<(), AllocError>
    ensures { OnOk result (out.new.items ≡ out.old.items ++ field_text field.now) }
{
    out.push(b'.')?;
    field.append_to(out)
}

/// Writes a path behind a blank.
pub fn put_path(out: &mut Vec<u8>, path: &CertPath) -> Result<(), AllocError>
    ensures { OnOk result (out.new.items ≡ out.old.items ++ 32 ∷ path_text path.now) }
{
    put_base(out, &path.base)?;
    for field in path.fields.as_slice() {
        put_field(out, field)?;
    }
    Ok(())
}

/// Writes the words of a lock of a path, each behind a blank.
fn put_path_lock(out: &mut Vec<u8>, mode: u8, path: &SharedPath) -> Result<(), AllocError>
    ensures { OnOk result (out.new.items ≡ out.old.items ++ spaced ((mode ∷ []) ∷ path_text path.now ∷ [])) }
{
    put_letter(out, mode)?;
    out.extend_from_slice(path.text())
}

/// Writes the words of a lock of a class, each behind a blank.
fn put_class_lock(out: &mut Vec<u8>, mode: u8, class: u32) -> Result<(), AllocError>
    ensures { OnOk result (out.new.items ≡ out.old.items ++ spaced ((mode ∷ []) ∷ codes "class" ∷ decimal class ∷ [])) }
{
    put_letter(out, mode)?;
    put_word(out, b"class")?;
    put_number(out, class as usize)
}

/// Writes the words of the lock of everything, each behind a blank.
fn put_all_lock(out: &mut Vec<u8>) -> Result<(), AllocError>
    ensures { OnOk result (out.new.items ≡ out.old.items ++ lock_text lock.WriteAll) }
{
    put_letter(out, b'W')?;
    put_word(out, b"all")
}

/// Writes the words of a lock, each behind a blank.
fn put_lock(out: &mut Vec<u8>, lock: &CertLock) -> Result<(), AllocError>
    ensures { OnOk result (out.new.items ≡ out.old.items ++ lock_text lock.now) }
{
    match lock {
        CertLock::WriteAll => put_all_lock(out),
        CertLock::ReadPath(path) => put_path_lock(out, b'R', path),
        CertLock::WritePath(path) => put_path_lock(out, b'W', path),
        CertLock::ReadClass(class) => put_class_lock(out, b'R', *class),
        CertLock::WriteClass(class) => put_class_lock(out, b'W', *class),
        CertLock::MakeClass(class) => put_class_lock(out, b'M', *class),
    }
}

/// Writes a comma and the words of a lock.
fn put_next_lock(out: &mut Vec<u8>, lock: &CertLock) -> Result<(), AllocError>
    ensures { OnOk result (out.new.items ≡ out.old.items ++ next_lock lock.now) }
{
    out.push(b',')?;
    put_lock(out, lock)
}

/// Writes a list of locks, behind a blank.
pub fn put_list(out: &mut Vec<u8>, locks: &[CertLock]) -> Result<(), AllocError>
    ensures { OnOk result (out.new.items ≡ out.old.items ++ spaced (list_words locks.now)) }
{
    let Some((first, others)) = locks.split_first() else {
        return put_word(out, b"none");
    };
    put_lock(out, first)?;
    for lock in others {
        put_next_lock(out, lock)?;
    }
    Ok(())
}

/// Makes the text of a step's lock of that of the step before, which is mostly the same.
fn next_lock_text(text: &mut Vec<u8>, steps: &ChainSteps, index: usize) -> Result<(), AllocError>
    requires there { index < length steps.now }
    requires before { IsLockBefore steps.now index text.old.items }
    ensures { OnOk result (IsLockBefore steps.now (index + 1) text.new.items) }
{
    if 0 < index && steps.is_one(index, index - 1) {
        return Ok(());
    }
    text.clear();
    put_lock(text, steps.lock(index))
}

/// Writes an arrow behind a blank, but not before the first step.
fn put_arrow(out: &mut Vec<u8>, index: usize) -> Result<(), AllocError>
    ensures { OnOk result (out.new.items ≡ out.old.items ++ arrow_before index) }
{
    if index == 0 {
        return Ok(());
    }
    put_letter(out, b'>')
}

/// Writes a step, each word behind a blank, by the text of its lock.
fn put_step(out: &mut Vec<u8>, index: usize, node: u32, lock: &[u8]) -> Result<(), AllocError>
    ensures { OnOk result (out.new.items ≡ out.old.items ++ (arrow_before index ++ 32 ∷ (decimal node ++ lock.now))) }
{
    put_arrow(out, index)?;
    put_number(out, node as usize)?;
    out.extend_from_slice(lock)
}

/// Writes the steps of a chain, joined by arrows, behind a blank.
fn put_steps(alloc: Global, out: &mut Vec<u8>, steps: &ChainSteps) -> Result<(), AllocError>
    ensures { OnOk result (out.new.items ≡ out.old.items ++ spaced (chain_words steps.now)) }
{
    let mut lock = Vec::new(alloc);
    for index in 0..steps.len() {
        next_lock_text(&mut lock, steps, index)?;
        put_step(out, index, steps.node(index), lock.as_slice())?;
    }
    Ok(())
}

/// Writes the line of a node, by the text of its list.
pub fn put_node(out: &mut Vec<u8>, node: usize, list: &[u8]) -> Result<(), AllocError>
    ensures { OnOk result ((locks : List CertLock) → list.now ≡ spaced (list_words locks)
        → out.new.items ≡ out.old.items ++ lines_text (line.Node node locks ∷ [])) }
{
    out.extend_from_slice(b"node")?;
    put_number(out, node)?;
    out.push(b':')?;
    out.extend_from_slice(list)?;
    Ok(out.push(b'\n')?)
}

/// Makes the text of a node's list of that of the node before, which is mostly the same.
fn next_list(
    text: &mut Vec<u8>,
    nodes: &Runs<Items<CertLock>>,
    node: usize,
) -> Result<(), AllocError>
    requires there { node < length nodes.now }
    requires before { IsListBefore nodes.now node text.old.items }
    ensures { OnOk result (IsListBefore nodes.now (node + 1) text.new.items) }
{
    if 0 < node && nodes.is_one(node, node - 1) {
        return Ok(());
    }
    text.clear();
    put_list(text, nodes.at(node).as_slice())
}

/// Writes the lines of a section's nodes.
fn put_nodes(
    alloc: Global,
    out: &mut Vec<u8>,
    nodes: &Runs<Items<CertLock>>,
) -> Result<(), AllocError>
    ensures { OnOk result (out.new.items ≡ out.old.items ++ nodes_text 0 nodes.now) }
{
    let mut list = Vec::new(alloc);
    for node in 0..nodes.len() {
        next_list(&mut list, nodes, node)?;
        put_node(out, node, list.as_slice())?;
    }
    Ok(())
}

/// Writes the line of an entry list.
pub fn put_entry(out: &mut Vec<u8>, locks: &[CertLock]) -> Result<(), AllocError>
    ensures { OnOk result (out.new.items ≡ out.old.items ++ lines_text (line.Entry locks.now ∷ [])) }
{
    out.extend_from_slice(b"entry:")?;
    put_list(out, locks)?;
    Ok(out.push(b'\n')?)
}

/// Writes the line of a chain.
pub fn put_chain(alloc: Global, out: &mut Vec<u8>, chain: &CertChain) -> Result<(), AllocError>
    ensures { OnOk result (out.new.items ≡ out.old.items ++ lines_text (line.Chain chain.now ∷ [])) }
{
    out.extend_from_slice(b"chain")?;
    put_number(out, chain.lock as usize)?;
    out.push(b':')?;
    put_steps(alloc, out, &chain.steps)?;
    Ok(out.push(b'\n')?)
}

/// Writes the lines of chains.
fn put_chains(alloc: Global, out: &mut Vec<u8>, chains: &[CertChain]) -> Result<(), AllocError>
    ensures { OnOk result (out.new.items ≡ out.old.items ++ flat_map chain_text chains.now) }
{
    for chain in chains {
        put_chain(alloc, out, chain)?;
    }
    Ok(())
}

/// Writes the first line of a section.
pub fn put_head(out: &mut Vec<u8>, section: usize, nodes: usize) -> Result<(), AllocError>
    ensures { OnOk result (out.new.items ≡ out.old.items ++ lines_text (line.Section section nodes ∷ [])) }
{
    out.extend_from_slice(b"section")?;
    put_number(out, section)?;
    out.extend_from_slice(b" nodes")?;
    put_number(out, nodes)?;
    Ok(out.push(b'\n')?)
}

/// Writes the lines of a section.
fn put_lines(
    alloc: Global,
    out: &mut Vec<u8>,
    number: usize,
    section: &CertSection,
) -> Result<(), AllocError>
    ensures { OnOk result (out.new.items ≡ out.old.items ++ section_text number section.now) }
{
    put_head(out, number, section.nodes.len())?;
    put_nodes(alloc, out, &section.nodes)?;
    put_entry(out, section.entry.as_slice())?;
    put_chains(alloc, out, section.chains.as_slice())
}

/// Writes the lines before the first section.
fn put_front(out: &mut Vec<u8>, k: u32, sections: usize) -> Result<(), AllocError>
    ensures { OnOk result (out.new.items ≡ out.old.items ++ front_text k sections) }
{
    out.extend_from_slice(b"sect-cert 2\nk")?;
    put_number(out, k as usize)?;
    out.extend_from_slice(b"\nsections")?;
    put_number(out, sections)?;
    Ok(out.push(b'\n')?)
}

/// Begins the text of a certificate of so many sections.
pub fn begin_cert(alloc: Global, k: u32, sections: usize) -> Result<Vec<u8>, AllocError>
    ensures { IfOk result (λ text. text.items ≡ begun_text k sections []) }
{
    let mut text = Vec::new(alloc);
    put_front(&mut text, k, sections)?;
    Ok(text)
}

/// The lines of one section more are those of a section.
pub fn sections_are_lines()
    ensures { (k count : ℕ) (before : List CertSection) (section : CertSection)
        → begun_text k count (before ++ section ∷ []) ≡ begun_text k count before
        ++ lines_text (line.Section (length before) (length section.nodes) ∷ section_lines section []) }
{}

/// Ends the text of a certificate, all of whose sections are written.
pub fn end_cert(out: &mut Vec<u8>) -> Result<(), AllocError>
    ensures { OnOk result ((cert : Cert) → out.old.items ≡ begun_text cert.k (length cert.sections) cert.sections
        → out.new.items ≡ certificate_text cert) }
{
    out.extend_from_slice(b"end\n")?;
    Ok(())
}

/// Writes all sections.
fn put_sections(
    alloc: Global,
    out: &mut Vec<u8>,
    sections: &[CertSection],
) -> Result<(), AllocError>
    ensures { OnOk result ((k count : ℕ) → out.old.items ≡ begun_text k count []
        → out.new.items ≡ begun_text k count sections.now) }
{
    for (number, section) in sections.iter().enumerate() {
        put_lines(alloc, out, number, section)?;
    }
    Ok(())
}

/// The text of a certificate.
pub fn write_cert(alloc: Global, cert: &Cert) -> Result<Vec<u8>, AllocError>
    ensures text { IfOk result (λ text. text.items ≡ certificate_text cert.now) }
    // Where the certificate has a text, reading gives it back, unless memory runs out.
    ensures reads_back { IfOk result (λ text. HasText cert.now →
        (answer : Result Cert CertFault) → Judges text.items answer → Gives cert.now answer) }
{
    let mut text = begin_cert(alloc, cert.k, cert.sections.len())?;
    put_sections(alloc, &mut text, cert.sections.as_slice())?;
    end_cert(&mut text)?;
    Ok(text)
}
