//! The bytes of an input.

use crate::failure::Failure;
use crate::form::Piece;
use std::fs;
use std::rt::Files;

/// Adds the bytes that a text stands for, in which `\x` and two hexadecimal digits are one byte. There are none where
/// other characters follow a `\x`.
fn put_bytes(input: &mut Vec<u8>, text: &str, line: usize) -> Result<(), Failure> {
    let mut first = true;
    for part in text.split("\\x") {
        let (digits, rest) = if first {
            ("", part)
        } else {
            halves(part, line)?
        };
        if !digits.is_empty() {
            input.push(byte_of(digits, line)?)?;
        }
        input.extend_from_slice(rest.as_bytes())?;
        first = false;
    }
    Ok(())
}

/// The two digits at the front of a text, and what stands behind them.
fn halves(part: &str, line: usize) -> Result<(&str, &str), Failure> {
    part.split_at_checked(2).ok_or(Failure::BadBytes(line))
}

/// The byte that two digits stand for.
fn byte_of(digits: &str, line: usize) -> Result<u8, Failure> {
    u8::from_str_radix(digits, 16).map_err(|_| Failure::BadBytes(line))
}

/// Adds a piece of the input of the case on this line.
pub fn put_piece(
    rt: &(impl Files + AllocGlobal),
    input: &mut Vec<u8>,
    piece: Piece<'_>,
    line: usize,
) -> Result<(), Failure> {
    match piece {
        Piece::Line(text) => {
            input.extend_from_slice(text.as_bytes())?;
            Ok(input.push(b'\n')?)
        }
        Piece::File(name) => {
            let bytes = fs::read(rt, name).map_err(|_| Failure::NoInput(line))?;
            Ok(input.extend_from_slice(bytes.as_slice())?)
        }
        Piece::Bytes(text) => put_bytes(input, text, line),
        Piece::Message(text) => {
            let header = format!(in rt.alloc(); "Content-Length: {}\r\n\r\n", text.len())?;
            input.extend_from_slice(header.as_bytes())?;
            Ok(input.extend_from_slice(text.as_bytes())?)
        }
        Piece::Repeated(times, text) => {
            for _ in 0..times {
                put_bytes(input, text, line)?;
            }
            Ok(())
        }
    }
}
