//! Where the names of a text stand.

ghost use Rattle.std.specs.Prelude.{◌≡◌, ◌≤◌, ◌<◌, ◌+◌, ◌++◌, ◌∷◌, [], Some, IfOk, OnOk, MatchResult, List, length};
ghost use Rattle.std.specs.Prelude.{map, take, drop, slice_get};
ghost use Rattle.sect_front.specs.{Front.{IsSpelled, IsFault}, FaultPlaces.{token_span}, LongGaps.{AreGaps}};
ghost use Rattle.sect_front.specs.Grammar.{tokens_of};
ghost use Rattle.sect_places.specs.{Spans.{AreInOrder}, NameSpans.{AreNameSpans, HasNameSpans}, Mattering.{wanted}};
ghost use Rattle.sect_places.specs.{declared.name_use.NameUse.{NameUse as AUse}, declared.name_use.NameSpan.{NameSpan}};
ghost use Rattle.sect_places.specs.steps.{Standing.{IsSought}, Wanted.{AreWanted}};

use crate::name_use::NameSpan;
use crate::range::TokenRange;
use crate::uses::{Kept, kept_uses};
use crate::wish::Wish;
use crate::words::{Sought, sought_words};
use sect_front::{FrontFault, GappedText, Span, Token, Tree, first_length, parse, spells_name};
use std::alloc::{AllocError, Global};

/// Adds the name of this number among all, which stands at these bytes, if it is kept.
fn put_kept(
    names: &mut Vec<NameSpan>,
    kept: &Kept,
    number: usize,
    span: Span,
) -> Result<(), AllocError>
    requires numbered { length kept.now.numbers ≡ length kept.now.uses }
    requires more { length names.old.items < length kept.now.uses }
    ensures kept { OnOk result (slice_get kept.now.numbers (length names.old.items) ≡ Some number → (u : AUse)
        → slice_get kept.now.uses (length names.old.items) ≡ Some u
        → names.new.items ≡ names.old.items ++ record { used = u; span = span } ∷ []) }
    ensures other { OnOk result ((slice_get kept.now.numbers (length names.old.items) ≡ Some number → ⊥)
        → names.new.items ≡ names.old.items) }
{
    let next = names.len();
    if kept.numbers[next] == number {
        let used = kept.uses[next];
        names.push(NameSpan { used, span })?;
    }
    Ok(())
}

/// The names that are wanted of a tree that the text spells, in text order. With them the token of this number, sought
/// from where a token stands that has passed with the names.
fn wanted_names<'a>(
    alloc: Global,
    text: GappedText<'a>,
    tree: &Tree,
    wish: Wish,
    token: usize,
) -> Result<(Vec<NameSpan>, Sought<'a>), AllocError>
    requires gaps { AreGaps text.bytes.now text.gaps.now }
    requires spelled { IsSpelled text.bytes.now tree.now }
    requires within { token ≤ length (tokens_of tree.now) }
    ensures wanted { IfOk result (λ r. AreWanted text.entry.bytes.now tree.now wish r.0.items) }
    ensures sought { IfOk result (λ r. IsSought text.entry.bytes.now tree.now token r.1.here.now r.1.left) }
{
    let kept = kept_uses(alloc, tree, wish)?;
    let mut names = Vec::with_capacity(alloc, kept.uses.len())?;
    let mut number = 0;
    let mut sought = Sought::new(text, token);
    let (mut here, mut gap) = (sought.here, sought.gap);
    while names.len() < kept.uses.len() {
        let start = text.bytes.len() - here.len();
        let count = first_length(here);
        let (word, after) = here.split_at(count);
        if spells_name(word) {
            let end = start + count;
            put_kept(&mut names, &kept, number, Span { start, end })?;
            number += 1;
        }
        here = text.after_gap(after, &mut gap);
        sought = sought.past(here, gap);
    }
    Ok((names, sought))
}

/// All names of a tree that the text spells, in text order.
pub fn tree_names(alloc: Global, source: &[u8], tree: &Tree) -> Result<Vec<NameSpan>, AllocError>
    requires { IsSpelled source.now tree.now }
    ensures { IfOk result (λ names. AreNameSpans source.now tree.now names.items) }
{
    let (names, _) = wanted_names(alloc, GappedText::new(source), tree, Wish::All, 0)?;
    Ok(names)
}

/// What is read off a text for an item: names, and tokens with the bytes of each.
#[derive(Drop)]
pub struct ItemWords {
    pub names: Vec<NameSpan>,
    pub tokens: Vec<Token>,
    pub spans: Vec<Span>,
}

/// The names that are wanted of a tree that the text spells, in text order. With them the tokens of a range, and the
/// bytes of each.
pub fn item_words(
    alloc: Global,
    text: GappedText,
    tree: &Tree,
    wish: Wish,
    range: TokenRange,
) -> Result<ItemWords, AllocError>
    requires gaps { AreGaps text.bytes.now text.gaps.now }
    requires spelled { IsSpelled text.bytes.now tree.now }
    requires within { range.first + range.count ≤ length (tokens_of tree.now) }
    ensures names { IfOk result (λ r. (names : List NameSpan) × AreNameSpans text.entry.bytes.now tree.now names
        × (r.names.items ≡ wanted wish names)) }
    ensures tokens { IfOk result (λ r. r.tokens.items ≡ take range.count (drop range.first (tokens_of tree.now))) }
    ensures spans { IfOk result (λ r. (spelled : IsSpelled text.entry.bytes.now tree.now)
        → r.spans.items ≡ take range.count (drop range.first (map token_span spelled.places))) }
    // Each token has some bytes, which lie in the text behind those of the one before it.
    ensures order { IfOk result (λ r. AreInOrder 0 (length text.entry.bytes.now) r.spans.items) }
{
    let (names, sought) = wanted_names(alloc, text, tree, wish, range.first)?;
    let (tokens, spans) = sought_words(alloc, text, tree, range, sought)?;
    Ok(ItemWords {
        names,
        tokens,
        spans,
    })
}

/// All names of a text, in text order, or the text's first fault. `Memory` is answered only where a growth was refused.
pub fn name_spans(alloc: Global, source: &[u8]) -> Result<Vec<NameSpan>, FrontFault>
    ensures { MatchResult result (λ names. HasNameSpans source.now names.items) (IsFault source.now) }
{
    let tree = parse(alloc, source)?;
    match tree_names(alloc, source, &tree) {
        Ok(names) => Ok(names),
        Err(_) => Err(FrontFault::Memory),
    }
}
