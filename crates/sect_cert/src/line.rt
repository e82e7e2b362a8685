//! One line after the first.

ghost use Rattle.std.specs.{Prelude.{◌≡◌, ◌++◌, codes, IsTrue}, Fmt.{decimal}};
ghost use Rattle.sect_cert.specs.Parts.{parts};
ghost use Rattle.sect_cert.specs.steps.Readers.{ReadsAs};
ghost use Rattle.sect_cert.specs.steps.Reading.{line_of as line_at, only_number as only_number_at};
ghost use Rattle.sect_cert.specs.steps.Reading.{section_line as section_at, node_line as node_at};
ghost use Rattle.sect_cert.specs.steps.Reading.{chain_line as chain_at, end_line as end_at};
ghost use Rattle.sect_cert.specs.steps.Reading.{colon_number as colon_number_at};

use crate::certificate::CertChain;
use crate::chain::steps_of;
use crate::fault::LineFault;
use crate::known_paths::KnownPaths;
use crate::list::locks_of;
use crate::lock::CertLock;
use crate::numbers::{ends_with, number, without_end};
use crate::parts::Parts;
use sect_front::Items;

/// A line, by its form.
#[derive(Drop)]
pub enum CertLine {
    /// `k K`
    K(u32),
    /// `sections N`
    Sections(u32),
    /// `section I nodes M`
    Section(u32, u32),
    /// `node J: LIST`
    Node(u32, Items<CertLock>),
    /// `entry: LIST`
    Entry(Items<CertLock>),
    /// `chain L: STEP > STEP ..`
    Chain(CertChain),
    /// `end`
    End,
}

/// The one number that is left.
fn only_number(mut words: Parts<'_>) -> Option<u32>
    ensures { result ≡ only_number_at words.entry }
{
    let word = words.next()?;
    if words.is_empty() { number(word) } else { None }
}

/// The first line of a section, by the words after `section`.
fn section_line(mut words: Parts<'_>) -> Option<CertLine>
    ensures { result ≡ section_at words.entry }
{
    let section = words.next()?;
    let mark = words.next()?;
    let nodes = words.next()?;
    if !words.is_empty() || mark != b"nodes".as_slice() {
        return None;
    }
    Some(CertLine::Section(number(section)?, number(nodes)?))
}

/// A number before a colon.
fn colon_number(word: &[u8]) -> Option<u32>
    ensures { result ≡ colon_number_at word.now }
{
    if ends_with(word, b':') {
        number(without_end(word, b':'))
    } else {
        None
    }
}

/// The line of a node, by the words after `node`.
fn node_line(paths: &mut KnownPaths, mut words: Parts<'_>) -> Result<CertLine, LineFault>
    ensures { ReadsAs result (node_at words.entry) }
{
    let word = words.next().ok_or(LineFault::Bad)?;
    let node = colon_number(word).ok_or(LineFault::Bad)?;
    Ok(CertLine::Node(node, locks_of(paths, words)?))
}

/// The line of a chain, by the words after `chain`.
fn chain_line(paths: &mut KnownPaths, mut words: Parts<'_>) -> Result<CertLine, LineFault>
    ensures { ReadsAs result (chain_at words.entry) }
{
    let word = words.next().ok_or(LineFault::Bad)?;
    let lock = colon_number(word).ok_or(LineFault::Bad)?;
    let steps = steps_of(paths, words)?;
    Ok(CertLine::Chain(CertChain { lock, steps }))
}

/// The last line, by the words after `end`, of which there are none.
fn end_line(words: Parts<'_>) -> Option<CertLine>
    ensures { result ≡ end_at words.entry }
{
    if words.is_empty() {
        Some(CertLine::End)
    } else {
        None
    }
}

/// Whether the line of the node of this number begins so, up to the colon.
pub fn is_node(head: &[u8], number: usize) -> bool
    ensures { IsTrue result → head.now ≡ codes "node " ++ decimal number }
{
    let (word, words) = Parts::of(head, b' ');
    if word != b"node".as_slice() {
        return false;
    }
    match only_number(words) {
        Some(found) => found as usize == number,
        None => false,
    }
}

/// The line that a text is, where no zero leads its numbers.
pub fn line_of(paths: &mut KnownPaths, text: &[u8]) -> Result<CertLine, LineFault>
    ensures { ReadsAs result (line_at (parts 32 text.now)) }
{
    let (head, words) = Parts::of(text, b' ');
    if head == b"k".as_slice() {
        Ok(CertLine::K(only_number(words).ok_or(LineFault::Bad)?))
    } else if head == b"sections".as_slice() {
        Ok(CertLine::Sections(only_number(words).ok_or(LineFault::Bad)?))
    } else if head == b"section".as_slice() {
        section_line(words).ok_or(LineFault::Bad)
    } else if head == b"node".as_slice() {
        node_line(paths, words)
    } else if head == b"entry:".as_slice() {
        Ok(CertLine::Entry(locks_of(paths, words)?))
    } else if head == b"chain".as_slice() {
        chain_line(paths, words)
    } else if head == b"end".as_slice() {
        end_line(words).ok_or(LineFault::Bad)
    } else {
        Err(LineFault::Bad)
    }
}
