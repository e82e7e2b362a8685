//! Which warnings comments allow.

ghost use Rattle.std.specs.Prelude.{◌≡◌, ◌≤◌, ◌++◌, ◌∷◌, [], IfOk, OnOk, length, take_while};
ghost use Rattle.sect_front.specs.FaultPlaces.{IsWithin};
ghost use Rattle.sect_lint.specs.Excerpts.{in_line};
ghost use Rattle.sect_warnings.specs.Comments.{is_blank as is_blank_by, behind_head as behind_head_by};
ghost use Rattle.sect_warnings.specs.Comments.{behind_entry as behind_entry_by, behind_other as behind_other_by};
ghost use Rattle.sect_warnings.specs.Comments.{reads_on as reads_on_by, reads as reads_by, allows as allows_by};
ghost use Rattle.sect_warnings.specs.Comments.{ended as ended_by, leading as leading_by, unnoted as unnoted_by};
ghost use Rattle.sect_warnings.specs.Reports.{AreWithin};
ghost use Rattle.sect_warnings.specs.Comments.{start_of as start_by, line_from as line_by, line_before as before_by};
ghost use Rattle.sect_warnings.specs.Comments.{is_comment as is_comment_by, is_noted as is_noted_by};

use crate::placed::Placed;
use sect_places::column_of;
use std::alloc::{AllocError, Global};

/// What a comment that allows warnings begins with, but for its blanks.
const HEAD: &[u8] = b"sectc:allow(";

/// How far a line has been read in search of a name in the list of its comment.
#[derive(Clone, Copy)]
enum Reading {
    /// No comment has begun.
    Code,
    /// A sign stands there with which one may begin.
    Slash,
    /// So many bytes of what such a comment begins with.
    Head(usize),
    /// So many bytes of the name, and nothing else of an entry.
    Entry(usize),
    /// An entry that isn't the name.
    Other,
    /// The list has ended, or there is none.
    Past,
    /// The name is an entry.
    Found,
}

/// Whether a byte is a blank or a tab.
fn is_blank(byte: u8) -> bool
    ensures { result ≡ is_blank_by byte }
{
    byte == b' ' || byte == b'\t'
}

/// How far a line has been read by a byte behind so many of the head.
fn behind_head(count: usize, byte: u8) -> Reading
    ensures { result ≡ behind_head_by count byte }
{
    match HEAD.get(count) {
        Some(wanted) if *wanted == byte => {
            if count + 1 == HEAD.len() {
                Reading::Entry(0)
            } else {
                Reading::Head(count + 1)
            }
        }
        _ => Reading::Past,
    }
}

/// The end of an entry: it is the name, or what comes behind.
fn ended(is_name: bool, next: Reading) -> Reading
    ensures { result ≡ ended_by is_name next }
{
    if is_name { Reading::Found } else { next }
}

/// How far a line has been read by a byte behind so many of the name.
fn behind_entry(name: &[u8], count: usize, byte: u8) -> Reading
    ensures { result ≡ behind_entry_by name.now count byte }
{
    match byte {
        b',' => ended(count == name.len(), Reading::Entry(0)),
        b')' => ended(count == name.len(), Reading::Past),
        _ => match name.get(count) {
            Some(wanted) if *wanted == byte => Reading::Entry(count + 1),
            _ => Reading::Other,
        },
    }
}

/// How far a line has been read by a byte behind an entry that isn't the name.
fn behind_other(byte: u8) -> Reading
    ensures { result ≡ behind_other_by byte }
{
    match byte {
        b',' => Reading::Entry(0),
        b')' => Reading::Past,
        _ => Reading::Other,
    }
}

/// How far a line has been read by a byte that is no blank.
fn reads_on(name: &[u8], so_far: Reading, byte: u8) -> Reading
    ensures { result ≡ reads_on_by name.now so_far byte }
{
    match so_far {
        Reading::Code if byte == b'/' => Reading::Slash,
        Reading::Slash if byte == b'/' => Reading::Head(0),
        Reading::Code | Reading::Slash => Reading::Code,
        Reading::Head(count) => behind_head(count, byte),
        Reading::Entry(count) => behind_entry(name, count, byte),
        Reading::Other => behind_other(byte),
        Reading::Past => Reading::Past,
        Reading::Found => Reading::Found,
    }
}

/// The same of any byte: blanks are passed over.
fn reads(name: &[u8], so_far: Reading, byte: u8) -> Reading
    ensures { result ≡ reads_by name.now so_far byte }
{
    if is_blank(byte) {
        so_far
    } else {
        reads_on(name, so_far, byte)
    }
}

/// Whether the comment of a line allows warnings of this name.
fn allows(name: &[u8], line: &[u8]) -> bool
    ensures { result ≡ allows_by name.now line.now }
{
    let mut so_far = Reading::Code;
    for byte in line {
        so_far = reads(name, so_far, *byte);
    }
    matches!(so_far, Reading::Found)
}

/// How many bytes stand before the first line feed.
fn line_length(bytes: &[u8]) -> usize
    ensures is { result ≡ length (take_while in_line bytes.now) }
    ensures within { result ≤ length bytes.now }
{
    bytes.iter().take_while(|byte| **byte != b'\n').count()
}

/// The rest of a line from a place on, without its line feed.
fn line_from(source: &[u8], start: usize) -> &[u8]
    requires { start ≤ length source.now }
    ensures { result.now ≡ line_by source.now start }
{
    let rest = &source[start..];
    &rest[..line_length(rest)]
}

/// Where the line of a place begins.
fn start_of(source: &[u8], at: usize) -> usize
    requires { at ≤ length source.now }
    ensures start { result ≡ start_by source.now at }
    ensures within { result ≤ at }
{
    at + 1 - column_of(source, at)
}

/// The line before the one that begins there, if there is one.
fn line_before(source: &[u8], start: usize) -> &[u8]
    requires { start ≤ length source.now }
    ensures { result.now ≡ before_by source.now start }
{
    if start == 0 {
        return &[];
    }
    line_from(source, start_of(source, start - 1))
}

/// The first byte of a line that is no blank, of those so far and one more.
fn leading(first: Option<u8>, byte: u8) -> Option<u8>
    ensures { result ≡ leading_by first byte }
{
    match first {
        None if !is_blank(byte) => Some(byte),
        _ => first,
    }
}

/// Whether a line is a comment, behind blanks.
fn is_comment(line: &[u8]) -> bool
    ensures { result ≡ is_comment_by line.now }
{
    let mut first = None;
    for byte in line {
        first = leading(first, *byte);
    }
    match first {
        Some(byte) => byte == b'/',
        None => false,
    }
}

/// Whether warnings of this name are allowed at a place: by the comment of its line, or of the line before, where
/// nothing else stands there.
fn is_noted(source: &[u8], at: usize, name: &str) -> bool
    requires { at ≤ length source.now }
    ensures { result ≡ is_noted_by source.now at name.now }
{
    let start = start_of(source, at);
    let before = line_before(source, start);
    let name = name.as_bytes();
    allows(name, line_from(source, start)) || (is_comment(before) && allows(name, before))
}

/// Adds a warning of a text, if no comment allows it.
fn add_unnoted(told: &mut Vec<Placed>, source: &[u8], placed: Placed) -> Result<(), AllocError>
    requires { IsWithin (length source.now) placed.span }
    ensures { OnOk result (told.new.items ≡ told.old.items ++ unnoted_by source.now (placed ∷ [])) }
{
    if is_noted(source, placed.span().start, placed.told().name()) {
        return Ok(());
    }
    Ok(told.push(placed)?)
}

/// Of these warnings of a text those that no comment allows.
pub fn unnoted(alloc: Global, source: &[u8], placed: Vec<Placed>) -> Result<Vec<Placed>, AllocError>
    requires { AreWithin (length source.now) placed.items }
    ensures { IfOk result (λ told. told.items ≡ unnoted_by source.now placed.items) }
{
    let mut told = Vec::new(alloc);
    for warning in placed {
        add_unnoted(&mut told, source, warning)?;
    }
    Ok(told)
}
