//! Zeros that lead a number.

ghost use Rattle.std.specs.Prelude.{◌≡◌, IfOk};
ghost use Rattle.sect_front.specs.Words.{is_name_byte as name_byte, is_digit as digit_of, begins};
ghost use Rattle.sect_cert.specs.Zeros.{leads as leads_of, is_exact as exact_line, plain};

use crate::numbers::is_digit;
use std::alloc::{AllocError, Global};

/// Whether a byte may stand in a name or number.
fn is_name_byte(byte: u8) -> bool
    ensures { result ≡ name_byte byte }
{
    byte.is_ascii_alphabetic() || byte == b'_' || is_digit(byte)
}

/// Whether a digit stands first.
fn begins_digit(bytes: &[u8]) -> bool
    ensures { result ≡ begins digit_of bytes.now }
{
    match bytes {
        [] => false,
        [first, ..] => is_digit(*first),
    }
}

/// Whether a byte is a zero that leads a number, by whether it stands inside a name or number and what follows it.
fn leads(inside: bool, byte: u8, others: &[u8]) -> bool
    ensures { result ≡ leads_of inside byte others.now }
{
    !inside && byte == b'0' && begins_digit(others)
}

/// Whether no zero leads a number of a line.
pub fn is_exact(line: &[u8]) -> bool
    ensures { result ≡ exact_line line.now }
{
    let mut rest = line;
    let mut before = b' ';
    while let Some((first, others)) = rest.split_first() {
        // Few bytes are zeros, and the byte before is looked at for these alone.
        if *first == b'0' && leads(is_name_byte(before), *first, others) {
            return false;
        }
        before = *first;
        rest = others;
    }
    true
}

/// A line without the zeros that lead its numbers.
pub fn without_zeros(alloc: Global, line: &[u8]) -> Result<Vec<u8>, AllocError>
    ensures { IfOk result (λ text. text.items ≡ plain line.now) }
{
    let mut text = Vec::new(alloc);
    let mut rest = line;
    let mut inside = false;
    while let Some((first, others)) = rest.split_first() {
        inside = if leads(inside, *first, others) {
            false
        } else {
            text.push(*first)?;
            is_name_byte(*first)
        };
        rest = others;
    }
    Ok(text)
}
