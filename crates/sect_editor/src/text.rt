//! The text of an open document.

use crate::position::Encoding;
use sect_emit::Compiled;

/// How a text is read: how many fields a path may have, at most 3, and how places are counted.
#[derive(Clone, Copy)]
pub struct Reading {
    pub k: u16,
    pub encoding: Encoding,
}

/// A document, its text, how that is read, and what it is compiled to, unless it is refused.
#[derive(Clone, Copy)]
pub struct OpenText<'a> {
    pub uri: &'a str,
    pub source: &'a [u8],
    pub reading: Reading,
    pub compiled: Option<&'a Compiled>,
}
