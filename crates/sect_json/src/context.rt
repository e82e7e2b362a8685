//! What a document of a whole program is made of.

use sect_emit::Compiled;
use sect_places::{LineIndex, NameSpan, NodeSpans};

/// A compiled program, its text, where its nodes come from, and the names of the text.
#[derive(Clone, Copy)]
pub struct Inspected<'a> {
    pub source: &'a LineIndex<'a>,
    pub compiled: &'a Compiled,
    pub spans: &'a NodeSpans,
    pub names: &'a [NameSpan],
}
