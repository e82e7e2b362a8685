//! Bytes of a source text.

/// Bytes of a source text: from `start` to before `end`, both counted from 0.
#[derive(Clone, Copy)]
pub struct Span {
    pub start: usize,
    pub end: usize,
}
