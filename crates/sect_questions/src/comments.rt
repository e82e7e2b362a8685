//! The comments of a source text that are questions.

ghost use Rattle.std.specs.Prelude.{◌≡◌, ◌<◌, ◌≤◌, ◌+◌, ◌^◌, IfOk, length};
ghost use Rattle.sect_questions.specs.Comments.{opens as opens_by, asks as asks_by, line_length as length_of};
ghost use Rattle.sect_questions.specs.Comments.{in_comment, line_behind as line_by, asked_of};

use sect_front::Span;
use std::alloc::{AllocError, Global};

/// A comment that is a question: its line, counted from 1, and the bytes of the question, behind `//?`.
#[derive(Clone, Copy)]
pub struct AskedComment {
    pub line: usize,
    pub span: Span,
}

/// Whether these bytes open a comment.
fn opens(bytes: &[u8]) -> bool
    ensures { result ≡ opens_by bytes.now }
{
    match bytes {
        [first, second, ..] => *first == b'/' && *second == b'/',
        _ => false,
    }
}

/// Whether these bytes open a comment that is a question.
fn asks(bytes: &[u8]) -> bool
    ensures { result ≡ asks_by bytes.now }
{
    match bytes {
        [first, second, third, ..] => *first == b'/' && *second == b'/' && *third == b'?',
        _ => false,
    }
}

/// How many bytes the line has that these begin.
fn line_length(bytes: &[u8]) -> usize
    ensures length { result ≡ length_of bytes.now }
    ensures within { result ≤ length bytes.now }
{
    let mut length = 0;
    'line: while length < bytes.len() && bytes[length] != b'\n' {
        length += 1;
    }
    length
}

/// Whether what follows the first of these bytes is in a comment, where the first is in one or isn't.
fn goes_on(comment: bool, bytes: &[u8]) -> bool
    ensures { result ≡ in_comment comment bytes.now }
{
    match bytes {
        [] => false,
        [first, ..] => *first != b'\n' && (comment || opens(bytes)),
    }
}

/// The line of what follows a byte.
fn line_behind(line: usize, byte: u8) -> usize
    requires { line + 1 < 2 ^ 64 }
    ensures { result ≡ line_by line byte }
{
    if byte == b'\n' { line + 1 } else { line }
}

/// The comments of a text that are questions, those that begin `//?`, in its order.
pub fn asked_in(alloc: Global, source: &[u8]) -> Result<Vec<AskedComment>, AllocError>
    ensures { IfOk result (λ found. found.items ≡ asked_of source.now) }
{
    let mut found = Vec::new(alloc);
    let mut comment = false;
    let mut line = 1;
    for place in 0..source.len() {
        let rest = &source[place..];
        if !comment && asks(rest) {
            let end = place + line_length(rest);
            found.push(AskedComment {
                line,
                span: Span {
                    start: place + 3,
                    end,
                },
            })?;
        }
        line = line_behind(line, source[place]);
        comment = goes_on(comment, rest);
    }
    Ok(found)
}
