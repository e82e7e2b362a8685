//! Messages on a stream: header lines, an empty line, and as many bytes as the header says.

ghost use Rattle.std.specs.Prelude.{◌≡◌, ◌+◌, ◌≤◌, ◌++◌, IfSome, IfOk, OnOk, OnErr, ℕ, List, [], length, take};
ghost use Rattle.std.specs.String.{string_bytes};
ghost use Rattle.sect_lsp.specs.Framing.{place_of as place_by, number_from, content_length as length_by};
ghost use Rattle.sect_lsp.specs.Framing.{front_behind as behind, front_of as front_by, frame, IsTaken, Spells, IsRest};
ghost use Rattle.sect_lsp.specs.steps.Fronts.{IsFrontWithin};

use crate::limits::{MOST_HEADER, MOST_MESSAGE};
use std::alloc::{AllocError, Global};
use std::fmt::Write;
use std::marker::Model;

/// What stands at the front of a stream.
#[derive(Clone, Copy)]
pub enum Front {
    /// A message of so many bytes, behind a header of so many.
    Message { header: usize, body: usize },
    /// Less than a whole message.
    Part,
    /// Bytes with which no message begins.
    Malformed,
}

/// The first place at which a word stands in the bytes.
fn place_of(bytes: &[u8], word: &[u8]) -> Option<usize>
    ensures place { result ≡ place_by word.now bytes.now }
    ensures within { IfSome result (λ at. at + length word.now ≤ length bytes.now) }
{
    for at in 0..bytes.len() {
        if bytes[at..].starts_with(word) {
            return Some(at);
        }
    }
    None
}

/// The number that the digits at the front are, up to the end of their line.
fn number_at(bytes: &[u8]) -> Option<usize>
    ensures number { result ≡ number_from 0 bytes.now }
    ensures most { IfSome result (λ n. n ≤ MOST_MESSAGE) }
{
    let mut value = 0;
    for byte in bytes {
        if *byte == b'\r' {
            return Some(value);
        }
        if !byte.is_ascii_digit() {
            return None;
        }
        value = 10 * value + usize::from(*byte - b'0');
        if value > MOST_MESSAGE {
            return None;
        }
    }
    None
}

/// How many bytes a message has, by its header.
fn content_length(header: &[u8]) -> Option<usize>
    ensures length { result ≡ length_by header.now }
    ensures most { IfSome result (λ n. n ≤ MOST_MESSAGE) }
{
    let at = place_of(header, b"Content-Length: ")?;
    if at == 0 || header[at - 1] == b'\n' {
        number_at(&header[at + 16..])
    } else {
        None
    }
}

/// What stands at the front of the bytes, behind a header of so many.
fn front_behind(bytes: &[u8], header: usize) -> Front
    requires { header ≤ length bytes.now }
    ensures front { result ≡ behind bytes.now header (length_by (take header bytes.now)) }
    ensures within { IsFrontWithin (length bytes.now) result }
{
    match content_length(&bytes[..header]) {
        None => Front::Malformed,
        Some(body) => {
            if bytes.len() - header < body {
                Front::Part
            } else {
                Front::Message { header, body }
            }
        }
    }
}

/// The bytes among which a header ends.
fn first_bytes(bytes: &[u8]) -> &[u8]
    ensures first { result.now ≡ take MOST_HEADER bytes.now }
    ensures within { length result.now ≤ length bytes.now }
{
    if bytes.len() < MOST_HEADER {
        bytes
    } else {
        &bytes[..MOST_HEADER]
    }
}

/// What stands at the front of the bytes.
fn front_of(bytes: &[u8]) -> Front
    ensures front { result ≡ front_by bytes.now }
    ensures within { IsFrontWithin (length bytes.now) result }
{
    match place_of(first_bytes(bytes), b"\r\n\r\n") {
        Some(at) => front_behind(bytes, at + 4),
        None => {
            if bytes.len() < MOST_HEADER {
                Front::Part
            } else {
                Front::Malformed
            }
        }
    }
}

/// What has come of a stream and isn't read yet.
#[derive(Drop)]
pub struct Inbox {
    bytes: Vec<u8>,
}

impl Model for Inbox {
    ghost use Rattle.std.specs.Prelude.{ℕ, List};

    ghost Value = { List ℕ };

    ghost view = { λ inbox. inbox.bytes.items };
}

/// What is taken of a stream.
#[derive(Drop)]
pub enum Taken {
    /// The next message, without its header.
    Message(Vec<u8>),
    /// Nothing, since what has come is less than a whole message.
    Part,
    /// Nothing, since no message begins with what has come.
    Malformed,
}

impl Inbox {
    /// Nothing has come.
    pub fn new(alloc: Global) -> Inbox
        ensures { result ≡ [] }
    {
        Inbox {
            bytes: Vec::new(alloc),
        }
    }

    /// Adds what comes. Nothing is kept but what came.
    pub fn put(&mut self, piece: &[u8]) -> Result<(), AllocError>
        ensures ok { OnOk result (self.new ≡ self.old ++ piece.now) }
        ensures err { OnErr result (self.new ≡ self.old) }
    {
        self.bytes.extend_from_slice(piece)
    }

    /// Takes the next message, if all of it has come.
    pub fn next(&mut self) -> Result<Taken, AllocError>
        ensures { IfOk result (IsTaken self.old self.new) }
    {
        match front_of(self.bytes.as_slice()) {
            Front::Message { header, body } => {
                let rest = self.bytes.split_off(header + body)?;
                let message = self.bytes.split_off(header)?;
                self.bytes = rest;
                Ok(Taken::Message(message))
            }
            Front::Part => Ok(Taken::Part),
            Front::Malformed => Ok(Taken::Malformed),
        }
    }
}

/// The bytes of a stream are one list of messages and one rest, and the messages that have come stay, whatever comes
/// behind: so in which pieces the bytes come changes nothing.
pub fn pieces_change_no_message()
    ensures one { (bytes : List ℕ) (ms ns : List (List ℕ)) (r s : List ℕ) → Spells bytes ms r → IsRest r
        → Spells bytes ns s → IsRest s → (ms ≡ ns) × (r ≡ s) }
    ensures stay { (bytes more : List ℕ) (ms : List (List ℕ)) (rest : List ℕ) → Spells bytes ms rest
        → Spells (bytes ++ more) ms (rest ++ more) }
{}

/// A message as it is written.
pub fn frame_of(alloc: Global, message: &str) -> Result<String, AllocError>
    ensures { IfOk result (λ text. string_bytes text ≡ frame message.now) }
{
    let mut text = String::new(alloc);
    write!(text, "Content-Length: {}\r\n\r\n", message.len())?;
    text.push_str(message)?;
    Ok(text)
}
