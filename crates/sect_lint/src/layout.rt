//! The tokens of the item at fault, read off the text.

ghost use Rattle.std.specs.Prelude.{◌≡◌, ◌<◌, ℕ, IfOk, List, length};
ghost use Rattle.sect_front.specs.{Front.{IsSpelled}, FaultPlaces.{IsWithin}, LongGaps.{AreGaps}};
ghost use Rattle.sect_types.specs.Items.{items};
ghost use Rattle.sect_places.specs.{Mattering.{wanted}, NameSpans.{AreNameSpans}, Ranges.{range}};
ghost use Rattle.sect_places.specs.{Spans.{AreInOrder, span_in}, declared.name_use.NameSpan.{NameSpan}};
ghost use Rattle.sect_lint.specs.Places.{marked};
ghost use Rattle.sect_lint.specs.steps.Laid.{AreOwnWords, IsOwnOpening, span_of};

use crate::culprit::marked_range;
use crate::mistake::Mistake;
use sect_front::{GappedText, Span, Token, Tree};
use sect_places::{
    ItemWords, NameSpan, Opening, TokenRange, Wish, item_range, item_words, range_opening,
    range_span, range_words,
};
use std::alloc::{AllocError, Global};

/// The tokens of an item, and the bytes of each.
#[derive(Drop)]
pub struct Words {
    pub tokens: Vec<Token>,
    pub spans: Vec<Span>,
}

/// The tokens of an item of a tree that the text spells.
pub fn words_of(
    alloc: Global,
    text: GappedText,
    tree: &Tree,
    item: usize,
) -> Result<Words, AllocError>
    requires gaps { AreGaps text.bytes.now text.gaps.now }
    requires spelled { IsSpelled text.bytes.now tree.now }
    requires there { item < length (items tree.now) }
    ensures { IfOk result (AreOwnWords text.entry.bytes.now tree.now item) }
{
    let range = item_range(tree, item);
    let (tokens, spans) = range_words(alloc, text, tree, range)?;
    Ok(Words { tokens, spans })
}

/// The tokens of an item of a tree that the text spells, of which the first are kept.
pub fn opening_of(
    alloc: Global,
    text: GappedText,
    tree: &Tree,
    item: usize,
) -> Result<Opening, AllocError>
    requires gaps { AreGaps text.bytes.now text.gaps.now }
    requires spelled { IsSpelled text.bytes.now tree.now }
    requires there { item < length (items tree.now) }
    ensures { IfOk result (IsOwnOpening text.entry.bytes.now tree.now item) }
{
    let range = item_range(tree, item);
    range_opening(alloc, text, tree, range)
}

/// The bytes of an item whole, of whose tokens the first are kept.
pub fn opening_span(opening: &Opening) -> Span
    requires { 0 < length opening.now.spans.items }
    ensures { result ≡ span_of opening.now }
{
    Span {
        start: opening.spans[0].start,
        end: opening.last.end,
    }
}

/// What a text tells of an item of its tree.
#[derive(Drop)]
pub struct Told {
    /// Those of its names that are wanted.
    pub names: Vec<NameSpan>,
    pub words: Words,
}

/// The names that are wanted of a tree that the text spells, and the tokens of an item.
pub fn told_by(
    alloc: Global,
    text: GappedText,
    tree: &Tree,
    item: usize,
    wish: Wish,
) -> Result<Told, AllocError>
    requires gaps { AreGaps text.bytes.now text.gaps.now }
    requires spelled { IsSpelled text.bytes.now tree.now }
    requires there { item < length (items tree.now) }
    ensures names { IfOk result (λ told. (names : List NameSpan) × AreNameSpans text.entry.bytes.now tree.now names
        × (told.names.items ≡ wanted wish names)) }
    ensures words { IfOk result (λ told. AreOwnWords text.entry.bytes.now tree.now item told.words) }
{
    let range = item_range(tree, item);
    let read = item_words(alloc, text, tree, wish, range)?;
    let ItemWords {
        names,
        tokens,
        spans,
    } = read;
    Ok(Told {
        names,
        words: Words { tokens, spans },
    })
}

/// The bytes of an item of these tokens, as far as they are marked for this mistake.
pub fn item_span(words: &Words, mistake: Mistake) -> Span
    requires { 0 < length words.now.spans.items }
    ensures is { result ≡ span_in words.now.spans.items (marked mistake (range 0 (length words.now.spans.items))) }
    ensures within { (total : ℕ) → AreInOrder 0 total words.now.spans.items → IsWithin total result }
{
    let spans = words.spans.as_slice();
    let whole = TokenRange {
        first: 0,
        count: spans.len(),
    };
    range_span(spans, marked_range(mistake, whole))
}
