//! Tokens in a row.

ghost use Rattle.std.specs.Prelude.{◌≡◌, ◌+◌, ◌<◌, ◌≤◌, length};
ghost use Rattle.sect_places.specs.Spans.{span_in};

use sect_front::Span;

/// Tokens in a row: the number of the first, counted from 0 over the whole text, and how many there are.
#[derive(Clone, Copy)]
pub struct TokenRange {
    pub first: usize,
    pub count: usize,
}

/// The bytes from the first token of a range to its last, where `tokens` has the bytes of each token.
pub fn range_span(tokens: &[Span], range: TokenRange) -> Span
    requires some { 0 < range.count }
    requires within { range.first + range.count ≤ length tokens.now }
    ensures { result ≡ span_in tokens.now range }
{
    Span {
        start: tokens[range.first].start,
        end: tokens[range.first + range.count - 1].end,
    }
}
