//! The tokens of a part of a text, of which the first are kept and the others counted.

ghost use Rattle.std.specs.Prelude.{◌≡◌, ◌+◌, ◌≤◌, ◌<◌, ◌++◌, ◌∷◌, [], IfOk, length, map, take, drop};
ghost use Rattle.sect_front.specs.{Front.{IsSpelled}, FaultPlaces.{token_span}, LongGaps.{AreGaps}};
ghost use Rattle.sect_front.specs.Grammar.{tokens_of as tokens_by};
ghost use Rattle.sect_places.specs.{Spans.{AreInOrder}, Openings.{values_in, IsOpening}};

use crate::range::TokenRange;
use crate::words::{Sought, from_token};
use sect_front::{GappedText, Span, Token, Tree, first_token};
use std::alloc::{AllocError, Global};

/// How many tokens are kept.
const MOST_KEPT: usize = 4;

/// How many of them aren't counted.
const NOT_COUNTED: usize = 2;

/// Tokens that stand in a row.
#[derive(Drop)]
pub struct Opening {
    /// The first of them, four at most.
    pub tokens: Vec<Token>,
    /// The bytes of each of these.
    pub spans: Vec<Span>,
    /// How many of those behind the first two are names, integers or `null`: of a call its arguments.
    pub values: usize,
    /// The bytes of the last of all. It has none if there are no tokens.
    pub last: Span,
}

/// How many values a token is, one or none: a name, an integer or `null` is one.
fn value_count(token: &Token) -> usize
    ensures { result ≡ values_in (token.now ∷ []) }
{
    match token {
        Token::Number(_) | Token::Null | Token::Name(_) => 1,
        _ => 0,
    }
}

/// Adds a token and its bytes while few are kept, and tells how many values it is where it is counted.
fn put_token(
    tokens: &mut Vec<Token>,
    spans: &mut Vec<Span>,
    token: Token,
    span: Span,
) -> Result<usize, AllocError>
    ensures few { IfOk result (λ _. length tokens.old.items < 4 → (tokens.new.items ≡ tokens.old.items ++ token ∷ [])
        × (spans.new.items ≡ spans.old.items ++ span ∷ [])) }
    ensures many { IfOk result (λ _. 4 ≤ length tokens.old.items → (tokens.new.items ≡ tokens.old.items)
        × (spans.new.items ≡ spans.old.items)) }
    ensures first { IfOk result (λ more. length tokens.old.items < 2 → more ≡ 0) }
    ensures counted { IfOk result (λ more. 2 ≤ length tokens.old.items → more ≡ values_in (token ∷ [])) }
{
    let more = if tokens.len() < NOT_COUNTED {
        0
    } else {
        value_count(&token)
    };
    if tokens.len() < MOST_KEPT {
        tokens.push(token)?;
        spans.push(span)?;
    }
    Ok(more)
}

/// The tokens of a range, in a text that spells the tree: the first are kept, and the others counted.
pub fn range_opening(
    alloc: Global,
    text: GappedText,
    tree: &Tree,
    range: TokenRange,
) -> Result<Opening, AllocError>
    requires gaps { AreGaps text.bytes.now text.gaps.now }
    requires spelled { IsSpelled text.bytes.now tree.now }
    requires within { range.first + range.count ≤ length (tokens_by tree.now) }
    ensures opening { IfOk result (λ o. (spelled : IsSpelled text.entry.bytes.now tree.now)
        → IsOpening (take range.count (drop range.first (tokens_by tree.now)))
        (take range.count (drop range.first (map token_span spelled.places)))
        o.tokens.items o.spans.items o.values o.last) }
    // Each token has some bytes, which lie in the text behind those of the one before it.
    ensures order { IfOk result (λ _. (spelled : IsSpelled text.entry.bytes.now tree.now)
        → AreInOrder 0 (length text.entry.bytes.now)
        (take range.count (drop range.first (map token_span spelled.places)))) }
{
    let mut tokens = Vec::new(alloc);
    let mut spans = Vec::new(alloc);
    let mut values = 0;
    let mut last = Span { start: 0, end: 0 };
    let sought = Sought::new(text, range.first);
    let first = from_token(text, tree, range.first, sought);
    let (mut here, mut gap) = (first.here, first.gap);
    for _passed in 0..range.count {
        let start = text.bytes.len() - here.len();
        let Some((token, count)) = first_token(here) else {
            unreachable!();
        };
        let end = start + count;
        last = Span { start, end };
        let more = put_token(&mut tokens, &mut spans, token, last)?;
        values += more;
        let (_, after) = here.split_at(count);
        here = text.after_gap(after, &mut gap);
    }
    Ok(Opening {
        tokens,
        spans,
        values,
        last,
    })
}
