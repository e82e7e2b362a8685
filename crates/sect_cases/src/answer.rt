//! What a command answers.

use crate::bytes::put_piece;
use crate::case::Case;
use crate::failure::Failure;
use sect_command::{Around, Screen, SystemFiles, Writers, command_on_texts};
use std::alloc::{AllocError, Global};
use std::rt::Files;
use std::sync::Wait;
use std::thread::Threads;
use std::time::{Clock, CpuClock};

/// What a command prints on standard output and on standard error, and its status.
#[derive(Drop)]
pub struct Answer {
    pub status: u8,
    pub text: String,
    pub complaints: String,
}

/// The words of a line, the program's name first.
fn words_of(alloc: Global, line: &str) -> Result<Vec<String>, AllocError> {
    let mut words = Vec::new(alloc);
    words.push(String::from_str(alloc, "sectc")?)?;
    for word in line.split_whitespace() {
        words.push(String::from_str(alloc, word)?)?;
    }
    Ok(words)
}

/// Bytes as a text.
fn shown(alloc: Global, bytes: &[u8]) -> Result<String, AllocError> {
    let shown = String::from_utf8_lossy(alloc, bytes)?;
    String::from_str(alloc, shown.as_str())
}

/// What a command line answers to an input, and to the files that it names.
fn answer_to(
    rt: &(impl Files + Threads + Wait + Sync + Clock + CpuClock + AllocGlobal),
    line: &str,
    input: &[u8],
) -> Result<Answer, AllocError> {
    let words = words_of(rt.alloc(), line)?;
    let mut writers = Writers {
        output: Vec::new(rt.alloc()),
        errors: Vec::new(rt.alloc()),
    };
    let around = Around {
        texts: &SystemFiles { rt },
        screen: Screen {
            colours: false,
            hints: false,
        },
    };
    let status = command_on_texts(rt, words.as_slice(), &around, input, &mut writers);
    Ok(Answer {
        status,
        text: shown(rt.alloc(), writers.output.as_slice())?,
        complaints: shown(rt.alloc(), writers.errors.as_slice())?,
    })
}

/// The message at the front of what is written for an editor, and what stands behind it.
fn front_message(written: &str) -> Option<(&str, &str)> {
    let (header, rest) = written.split_once("\r\n\r\n")?;
    let length = header.strip_prefix("Content-Length: ")?.parse().ok()?;
    rest.split_at_checked(length)
}

/// The messages of what is written for an editor, a line each. What is behind no header that fits it stays as it is.
fn lines_of_messages(alloc: Global, written: &str) -> Result<String, AllocError> {
    let mut lines = String::new(alloc);
    let mut left = written;
    for _ in 0..written.len() {
        let Some((message, rest)) = front_message(left) else {
            break;
        };
        lines.push_str(message)?;
        lines.push_str("\n")?;
        left = rest;
    }
    lines.push_str(left)?;
    Ok(lines)
}

/// The pieces of a case's input, one behind the other.
fn pieces_of(rt: &(impl Files + AllocGlobal), case: &Case<'_>) -> Result<Vec<u8>, Failure> {
    let mut input = Vec::new(rt.alloc());
    for piece in case.input.iter() {
        put_piece(rt, &mut input, *piece, case.line)?;
    }
    Ok(input)
}

/// What the command of a case answers, to an editor a line for each message.
pub fn answer_of(
    rt: &(impl Files + Threads + Wait + Sync + Clock + CpuClock + AllocGlobal),
    case: &Case<'_>,
) -> Result<Answer, Failure> {
    let pieces = pieces_of(rt, case)?;
    let mut input = Vec::new(rt.alloc());
    if let Some(words) = case.before {
        let made = answer_to(rt, words, pieces.as_slice())?;
        input.extend_from_slice(made.text.as_bytes())?;
    }
    input.extend_from_slice(pieces.as_slice())?;
    let mut answer = answer_to(rt, case.words, input.as_slice())?;
    if case.is_conversation() {
        answer.text = lines_of_messages(rt.alloc(), answer.text.as_str())?;
    }
    Ok(answer)
}
