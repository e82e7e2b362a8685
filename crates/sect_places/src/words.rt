//! The tokens of a part of a text, read off the text itself.

ghost use Rattle.std.specs.Prelude.{◌≡◌, ◌+◌, ◌≤◌, ◌<◌, IfOk, length, map, take, drop};
ghost use Rattle.sect_front.specs.{Front.{IsSpelled}, FaultPlaces.{token_span}, Gaps.{after_gap as gap_of}};
ghost use Rattle.sect_front.specs.{LongGaps.{AreGaps}, Grammar.{tokens_of as tokens_by}};
ghost use Rattle.sect_places.specs.Spans.{AreInOrder};
ghost use Rattle.sect_places.specs.steps.Standing.{StandsFrom, IsSought};

use crate::range::TokenRange;
use sect_front::{GappedText, Span, Token, Tree, first_length, first_token};
use std::alloc::{AllocError, Global};

/// A token that is sought in a text: it stands behind so many others, of which the first stands here. The next long gap
/// has this number.
#[derive(Clone, Copy)]
pub struct Sought<'a> {
    pub here: &'a [u8],
    pub left: usize,
    pub gap: usize,
}

impl<'a> Sought<'a> {
    /// The token of this number, from the start of the text on.
    pub fn new(text: GappedText<'a>, number: usize) -> Sought<'a>
        requires { AreGaps text.bytes.now text.gaps.now }
        ensures here { result.here.now ≡ gap_of text.entry.bytes.now }
        ensures left { result.left ≡ number }
    {
        let mut gap = 0;
        Sought {
            here: text.after_gap(text.bytes, &mut gap),
            left: number,
            gap,
        }
    }

    /// The same token, once one more has passed and this stands behind it and its gap, unless it is reached.
    pub fn past(self, after: &'a [u8], gap: usize) -> Sought<'a>
        ensures reached { self.entry.left ≡ 0 → (result.here.now ≡ self.entry.here.now) × (result.left ≡ 0) }
        ensures nearer { 0 < self.entry.left → (result.here.now ≡ after.now) × (result.left + 1 ≡ self.entry.left) }
    {
        if self.left == 0 {
            self
        } else {
            Sought {
                here: after,
                left: self.left - 1,
                gap,
            }
        }
    }
}

/// The token that is sought, once it is reached.
pub fn from_token<'a>(
    text: GappedText<'a>,
    tree: &Tree,
    number: usize,
    sought: Sought<'a>,
) -> Sought<'a>
    requires gaps { AreGaps text.bytes.now text.gaps.now }
    requires sought { IsSought text.bytes.now tree.now number sought.here.now sought.left }
    requires within { number ≤ length (tokens_by tree.now) }
    ensures { StandsFrom text.entry.bytes.now tree.now number result.here.now }
{
    let mut here = sought.here;
    let mut gap = sought.gap;
    for _passed in 0..sought.left {
        let (_, after) = here.split_at(first_length(here));
        here = text.after_gap(after, &mut gap);
    }
    Sought { here, left: 0, gap }
}

/// The tokens of a range, and the bytes of each, in a text that spells the tree. The first of them is sought.
pub fn sought_words(
    alloc: Global,
    text: GappedText,
    tree: &Tree,
    range: TokenRange,
    sought: Sought,
) -> Result<(Vec<Token>, Vec<Span>), AllocError>
    requires gaps { AreGaps text.bytes.now text.gaps.now }
    requires sought { IsSought text.bytes.now tree.now range.first sought.here.now sought.left }
    requires within { range.first + range.count ≤ length (tokens_by tree.now) }
    ensures tokens { IfOk result (λ r. r.0.items ≡ take range.count (drop range.first (tokens_by tree.now))) }
    ensures spans { IfOk result (λ r. (spelled : IsSpelled text.entry.bytes.now tree.now)
        → r.1.items ≡ take range.count (drop range.first (map token_span spelled.places))) }
    // Each token has some bytes, which lie in the text behind those of the one before it.
    ensures order { IfOk result (λ r. AreInOrder 0 (length text.entry.bytes.now) r.1.items) }
{
    let mut tokens = Vec::with_capacity(alloc, range.count)?;
    let mut spans = Vec::with_capacity(alloc, range.count)?;
    let first = from_token(text, tree, range.first, sought);
    let (mut here, mut gap) = (first.here, first.gap);
    for _passed in 0..range.count {
        let start = text.bytes.len() - here.len();
        let Some((token, count)) = first_token(here) else {
            unreachable!();
        };
        tokens.push(token)?;
        spans.push(Span {
            start,
            end: start + count,
        })?;
        let (_, after) = here.split_at(count);
        here = text.after_gap(after, &mut gap);
    }
    Ok((tokens, spans))
}

/// The tokens of a range, and the bytes of each, in a text that spells the tree.
pub fn range_words(
    alloc: Global,
    text: GappedText,
    tree: &Tree,
    range: TokenRange,
) -> Result<(Vec<Token>, Vec<Span>), AllocError>
    requires gaps { AreGaps text.bytes.now text.gaps.now }
    requires spelled { IsSpelled text.bytes.now tree.now }
    requires within { range.first + range.count ≤ length (tokens_by tree.now) }
    ensures tokens { IfOk result (λ r. r.0.items ≡ take range.count (drop range.first (tokens_by tree.now))) }
    ensures spans { IfOk result (λ r. (spelled : IsSpelled text.entry.bytes.now tree.now)
        → r.1.items ≡ take range.count (drop range.first (map token_span spelled.places))) }
    // Each token has some bytes, which lie in the text behind those of the one before it.
    ensures order { IfOk result (λ r. AreInOrder 0 (length text.entry.bytes.now) r.1.items) }
{
    let sought = Sought::new(text, range.first);
    sought_words(alloc, text, tree, range, sought)
}
