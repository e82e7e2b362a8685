//! The words of a text, whether or not it is one of the language.

ghost use Rattle.std.specs.{Prelude.{◌≡◌, ◌<◌, ◌≤◌, IfOk, length, take_while}, Str.{bytes_eq}};
ghost use Rattle.sect_front.specs.Words.{is_name_byte as is_name_byte_by};
ghost use Rattle.sect_editor.specs.Words.{word_of as word_by, word_length as length_by, AreWords};

use sect_front::{Name, after_gap, is_name};
use std::alloc::{AllocError, Global};

/// A word of a text.
#[derive(Clone, Copy)]
pub enum Word {
    Name(Name),
    /// `record`.
    Record,
    /// `global`.
    Global,
    /// `proc`.
    Procedure,
    /// `thread`.
    Thread,
    /// `int`.
    Int,
    /// `.`.
    Dot,
    /// Another word or sign.
    Other,
}

fn is_text(bytes: &[u8], text: &[u8]) -> bool
    ensures { result ≡ bytes_eq bytes.now text.now }
{
    bytes == text
}

/// What some bytes are.
fn word_of(bytes: &[u8]) -> Word
    ensures { result ≡ word_by bytes.now }
{
    if is_name(bytes) {
        Word::Name(Name::new(bytes))
    } else if is_text(bytes, b"record") {
        Word::Record
    } else if is_text(bytes, b"global") {
        Word::Global
    } else if is_text(bytes, b"proc") {
        Word::Procedure
    } else if is_text(bytes, b"thread") {
        Word::Thread
    } else if is_text(bytes, b"int") {
        Word::Int
    } else if is_text(bytes, b".") {
        Word::Dot
    } else {
        Word::Other
    }
}

/// Whether this byte may stand in a name.
fn is_name_byte(byte: u8) -> bool
    ensures { result ≡ is_name_byte_by byte }
{
    byte.is_ascii_alphabetic() || byte == b'_' || byte.is_ascii_digit()
}

/// How many bytes at the front may stand in a name.
fn name_length(bytes: &[u8]) -> usize
    ensures length { result ≡ length (take_while is_name_byte_by bytes.now) }
    ensures within { result ≤ length bytes.now }
{
    bytes.iter().take_while(|byte| is_name_byte(**byte)).count()
}

/// How many bytes the first word has.
fn word_length(bytes: &[u8]) -> usize
    requires { 0 < length bytes.now }
    ensures length { result ≡ length_by bytes.now }
    ensures some { 0 < result }
    ensures within { result ≤ length bytes.now }
{
    name_length(bytes).max(1)
}

/// All words of a text.
pub fn words_of(alloc: Global, bytes: &[u8]) -> Result<Vec<Word>, AllocError>
    ensures { IfOk result (λ words. AreWords bytes.now words.items) }
{
    let mut words = Vec::new(alloc);
    let mut rest = after_gap(bytes);
    while !rest.is_empty() {
        let (front, others) = rest.split_at(word_length(rest));
        words.push(word_of(front))?;
        rest = after_gap(others);
    }
    Ok(words)
}
