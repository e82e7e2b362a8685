//! A source text as a tree.
//!
//! The text is read by one function for each rule of the grammar. These call one another as deep as blocks stand in one
//! another, as what walks over a tree does, its `Drop` and `print` among them: at most 32, and a deeper block is
//! refused where it opens.

ghost use Rattle.std.specs.Prelude.{◌≡◌, ◌≢◌, ◌≤◌, [], IfOk, IfErr, length};
ghost use Rattle.sect_front.specs.Front.{IsSpelled, IsFault, Judges, Gives, Refuses, line_of as line};
ghost use Rattle.sect_front.specs.{FaultPlaces.{IsFaultSpan, IsWithin, AreKindsFor, word_span}, Lexing.{IsBadAt}};
ghost use Rattle.sect_front.specs.{TreeView.{TreeView}, Limits.{most_bytes}, LongGaps.{AreGaps}};
ghost use Rattle.sect_front.specs.ItemSpans.{AreSpansOf};

use crate::gaps::put_gaps;
use crate::limits::MOST_BYTES;
use crate::reading::{ReadFault, read};
use crate::span::Span;
use crate::token_kind::TokenKind;
use crate::tree::Tree;
use crate::words::{is_digit, is_letter, word_length};
use std::alloc::Global;
use thiserror::Error;

/// Why a text is refused. Lines are counted from 1.
#[derive(Debug, Drop, Error)]
pub enum FrontFault {
    /// Want of memory.
    #[error("out of memory")]
    Memory,
    /// A byte with which no token begins.
    #[error("1 BadByte line {line}")]
    BadByte { line: usize },
    /// An integer with a leading zero, above 9223372036854775807, or with a letter or `_` behind it.
    #[error("2 BadNumber line {line}")]
    BadNumber { line: usize },
    /// A name above 32 bytes.
    #[error("3 LongName line {line}")]
    LongName { line: usize },
    /// A token with which no text goes on.
    #[error("4 Unexpected line {line}")]
    Unexpected { line: usize },
    /// The text ends before a declaration does; the line is that of its last byte.
    #[error("5 UnexpectedEnd line {line}")]
    UnexpectedEnd { line: usize },
    /// A block of depth 33.
    #[error("6 TooDeep line {line}")]
    TooDeep { line: usize },
    /// More than 1,048,576 bytes.
    #[error("7 TooLarge line 1")]
    TooLarge,
}

/// A fault, and the bytes at which it stands.
#[derive(Drop)]
pub struct PlacedFault {
    pub fault: FrontFault,
    pub span: Span,
    /// The kinds of tokens that may stand in the place of an unexpected one, each once and in the order of the
    /// language's table of tokens, and of any other fault none.
    pub expected: Vec<TokenKind>,
}

/// A fault that no token in another's place would mend.
fn placed(alloc: Global, fault: FrontFault, span: Span) -> PlacedFault
    ensures fault { result.fault ≡ fault }
    ensures span { result.span ≡ span }
    ensures none { result.expected.items ≡ [] }
{
    PlacedFault {
        fault,
        span,
        expected: Vec::new(alloc),
    }
}

/// The line of a place.
fn line_of(bytes: &[u8], at: usize) -> usize
    requires at_in { at ≤ length bytes.now }
    requires fits { length bytes.now ≤ most_bytes }
    ensures { result ≡ line bytes.now at }
{
    bytes[..at].iter().filter(|byte| **byte == b'\n').count() + 1
}

/// The bytes from a place on that may stand in a name.
fn word_at(bytes: &[u8], at: usize) -> Span
    requires at_in { at ≤ length bytes.now }
    requires fits { length bytes.now ≤ most_bytes }
    ensures word { result ≡ word_span bytes.now at }
    ensures within { result.end ≤ length bytes.now }
{
    let length = word_length(&bytes[at..]);
    Span {
        start: at,
        end: at + length,
    }
}

/// The fault of a bad lexeme.
fn bad(alloc: Global, bytes: &[u8], at: usize) -> PlacedFault
    requires bad { IsBadAt bytes.now at }
    requires fits { length bytes.now ≤ most_bytes }
    ensures fault { IsFault bytes.now result.fault }
    ensures span { IsFaultSpan bytes.now result.fault result.span }
    ensures within { IsWithin (length bytes.now) result.span }
    ensures expected { AreKindsFor bytes.now result.fault result.span result.expected.items }
{
    let line = line_of(bytes, at);
    let word = word_at(bytes, at);
    if is_letter(bytes[at]) {
        placed(alloc, FrontFault::LongName { line }, word)
    } else if is_digit(bytes[at]) {
        placed(alloc, FrontFault::BadNumber { line }, word)
    } else {
        let span = Span {
            start: at,
            end: at + 1,
        };
        placed(alloc, FrontFault::BadByte { line }, span)
    }
}

/// The tree that a text spells, or why it spells none: `TooLarge` first, then the first bad lexeme of the whole text,
/// then the first token with which the text is no beginning of any or opens a block of depth 33, then its early end.
/// `Memory` is answered only where a growth was refused.
pub fn parse(alloc: Global, bytes: &[u8]) -> Result<Tree, FrontFault>
    // A tree that is given is spelled so, and a fault is the first one, on its line.
    ensures judges { Judges bytes.now result }
    // A tree that is spelled so is given, unless memory runs out.
    ensures only { (tree : TreeView) → IsSpelled bytes.now tree → Gives tree result }
    // A text that has a fault is refused with it, unless memory runs out.
    ensures refuses { (fault : FrontFault) → fault ≢ FrontFault.Memory → IsFault bytes.now fault
        → Refuses fault result }
{
    match parse_placed(alloc, bytes) {
        Ok(tree) => Ok(tree),
        Err(placed) => Err(placed.fault),
    }
}

/// The tree that a text spells and the spans of its items, in the order in which they begin, or its first fault and the
/// bytes at which that stands. That a tree is the only one and a fault the only fault is `parse`'s.
pub fn parse_spanned(alloc: Global, bytes: &[u8]) -> Result<(Tree, Vec<Span>), PlacedFault>
    // A tree that is given is spelled so.
    ensures tree { IfOk result (λ r. IsSpelled bytes.now r.0) }
    // The spans are those of its items: the tokens of each stand exactly there.
    ensures spans { IfOk result (λ r. AreSpansOf bytes.now r.0 r.1.items) }
    // A fault is the first one, on its line.
    ensures fault { IfErr result (λ placed. IsFault bytes.now placed.fault) }
    // It stands at these bytes, which are the text's.
    ensures span { IfErr result (λ placed. IsFaultSpan bytes.now placed.fault placed.span) }
    ensures within { IfErr result (λ placed. (placed.fault ≢ FrontFault.Memory)
        → IsWithin (length bytes.now) placed.span) }
    // In place of a token that can't stand where it does, one of these kinds may.
    ensures expected { IfErr result (λ placed. AreKindsFor bytes.now placed.fault placed.span placed.expected.items) }
{
    if bytes.len() > MOST_BYTES {
        let span = Span { start: 0, end: 1 };
        return Err(placed(alloc, FrontFault::TooLarge, span));
    }
    match read(alloc, bytes) {
        Ok(read) => Ok(read),
        Err(ReadFault::Memory) => {
            let span = Span { start: 0, end: 0 };
            Err(placed(alloc, FrontFault::Memory, span))
        }
        Err(ReadFault::Bad(at)) => Err(bad(alloc, bytes, at)),
        Err(ReadFault::Unexpected(span, expected)) => {
            let line = line_of(bytes, span.start);
            Err(PlacedFault {
                fault: FrontFault::Unexpected { line },
                span,
                expected,
            })
        }
        Err(ReadFault::TooDeep(span)) => {
            let line = line_of(bytes, span.start);
            Err(placed(alloc, FrontFault::TooDeep { line }, span))
        }
        Err(ReadFault::Unfinished) => {
            let start = bytes.len().saturating_sub(1);
            let line = line_of(bytes, start);
            let span = Span {
                start,
                end: bytes.len(),
            };
            Err(placed(alloc, FrontFault::UnexpectedEnd { line }, span))
        }
    }
}

/// The tree that a text spells, or its first fault and the bytes at which that stands. That a tree is the only one and
/// a fault the only fault is `parse`'s.
pub fn parse_placed(alloc: Global, bytes: &[u8]) -> Result<Tree, PlacedFault>
    // A tree that is given is spelled so.
    ensures tree { IfOk result (λ tree. IsSpelled bytes.now tree) }
    // A fault is the first one, on its line.
    ensures fault { IfErr result (λ placed. IsFault bytes.now placed.fault) }
    // It stands at these bytes, which are the text's.
    ensures span { IfErr result (λ placed. IsFaultSpan bytes.now placed.fault placed.span) }
    ensures within { IfErr result (λ placed. (placed.fault ≢ FrontFault.Memory)
        → IsWithin (length bytes.now) placed.span) }
    // In place of a token that can't stand where it does, one of these kinds may.
    ensures expected { IfErr result (λ placed. AreKindsFor bytes.now placed.fault placed.span placed.expected.items) }
{
    match parse_spanned(alloc, bytes) {
        Ok((tree, _)) => Ok(tree),
        Err(placed) => Err(placed),
    }
}

/// What `parse_placed` gives. With it the long gaps of the text are added to these, in the order of the text: what
/// reads the text again passes each at once.
pub fn parse_gapped(alloc: Global, bytes: &[u8], gaps: &mut Vec<Span>) -> Result<Tree, PlacedFault>
    requires { AreGaps bytes.now gaps.old.items }
    // A tree that is given is spelled so.
    ensures tree { IfOk result (λ tree. IsSpelled bytes.now tree) }
    // A fault is the first one, on its line.
    ensures fault { IfErr result (λ placed. IsFault bytes.now placed.fault) }
    // It stands at these bytes, which are the text's.
    ensures span { IfErr result (λ placed. IsFaultSpan bytes.now placed.fault placed.span) }
    ensures within { IfErr result (λ placed. (placed.fault ≢ FrontFault.Memory)
        → IsWithin (length bytes.now) placed.span) }
    // In place of a token that can't stand where it does, one of these kinds may.
    ensures expected { IfErr result (λ placed. AreKindsFor bytes.now placed.fault placed.span placed.expected.items) }
    // What is added are gaps of the text.
    ensures gaps { AreGaps bytes.now gaps.new.items }
{
    if bytes.len() <= MOST_BYTES && put_gaps(bytes, gaps).is_err() {
        let span = Span { start: 0, end: 0 };
        return Err(placed(alloc, FrontFault::Memory, span));
    }
    parse_placed(alloc, bytes)
}
