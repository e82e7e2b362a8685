//! The tree that a text spells.

ghost use Rattle.std.specs.Prelude.{◌≡◌, ◌≤◌, ◌++◌, length, List, ℕ, IfOk, IfErr, MatchOption};
ghost use Rattle.sect_front.specs.{TokenAt.{TokenAt}, Lexing.{Spells, IsBadAt}, ItemSpans.{AreSpansOf}};
ghost use Rattle.sect_front.specs.{Faults.{IsTree}, steps.Verdicts.{Reached, Spelling, IsAnswerOf, IsReadFault}};
ghost use Rattle.sect_front.specs.steps.{Passing.{text_start}, Declaring.{StopsText}};

use crate::cursor::{Cursor, Source, Spans, Stop};
use crate::expected::Expected;
use crate::lexer::{after_gap, behind, lexeme};
use crate::span::Span;
use crate::token_kind::TokenKind;
use crate::tree::Tree;
use std::alloc::{AllocError, Global};

/// Why a text spells no tree. Places are offsets in the text.
#[derive(Drop)]
pub enum ReadFault {
    Memory,
    /// No token stands at this place, and all that stands before it is tokens.
    Bad(usize),
    /// The tokens before the one with these bytes begin a tree, and with it they begin none. A token of one of these
    /// kinds may stand there.
    Unexpected(Span, Vec<TokenKind>),
    /// The token with these bytes opens too many blocks.
    TooDeep(Span),
    /// The tokens begin a tree and are none.
    Unfinished,
}

impl From<AllocError> for ReadFault {
    ghost use Rattle.std.specs.Prelude.{◌≡◌};
    ghost use Rattle.sect_front.specs.declared.reading.ReadFault.TheVariants.{Memory};

    ghost from_gives = { λ _ e. e ≡ Memory };

    fn from(_error: AllocError) -> ReadFault {
        ReadFault::Memory
    }
}

/// The place of the first bad lexeme from `here` on.
fn bad_from(bytes: &[u8], here: &[u8]) -> Option<usize>
    requires { length here.now ≤ length bytes.now }
    ensures { (before : List TokenAt) → Reached bytes.now before here.now
        → MatchOption result ((behind : List TokenAt) × Spells bytes.now (before ++ behind)) (IsBadAt bytes.now) }
{
    let mut here = here;
    while !here.is_empty() {
        let at = bytes.len() - here.len();
        let Some((_, length)) = lexeme(here) else {
            return Some(at);
        };
        here = behind(here, length);
    }
    None
}

/// The fault of a text in which this one comes before `here`: a bad lexeme anywhere in the text is named first.
fn unless_bad(bytes: &[u8], here: &[u8], fault: ReadFault) -> ReadFault
    requires { length here.now ≤ length bytes.now }
    ensures { (before : List TokenAt) → Reached bytes.now before here.now → IsAnswerOf bytes.now before fault result }
{
    match bad_from(bytes, here) {
        Some(at) => ReadFault::Bad(at),
        None => fault,
    }
}

/// The fault of a text of which this is left where a token would have to stand that this place takes.
fn unexpected(
    alloc: Global,
    bytes: &[u8],
    here: &[u8],
    expected: Expected,
) -> Result<ReadFault, AllocError>
    requires { length here.now ≤ length bytes.now }
    ensures { IfOk result (λ fault. (k l e : ℕ) → StopsText (Stop.At expected) (text_start bytes.now)
        (record { here = here.now; braces = k; last = l; end = e }) → IsReadFault bytes.now fault) }
{
    if here.is_empty() {
        return Ok(ReadFault::Unfinished);
    }
    let start = bytes.len() - here.len();
    let Some((_, length)) = lexeme(here) else {
        return Ok(ReadFault::Bad(start));
    };
    let kinds = expected.kinds(alloc)?;
    let span = Span {
        start,
        end: start + length,
    };
    let fault = ReadFault::Unexpected(span, kinds);
    Ok(unless_bad(bytes, behind(here, length), fault))
}

/// The fault of a text of which this is left where a block opens that is too deep.
fn too_deep(bytes: &[u8], here: &[u8]) -> ReadFault
    requires { length here.now ≤ length bytes.now }
    ensures { (k l e : ℕ) → StopsText Stop.TooDeep (text_start bytes.now)
        (record { here = here.now; braces = k; last = l; end = e }) → IsReadFault bytes.now result }
{
    let start = bytes.len() - here.len();
    let Some((_, length)) = lexeme(here) else {
        return ReadFault::Bad(start);
    };
    let span = Span {
        start,
        end: start + length,
    };
    unless_bad(bytes, behind(here, length), ReadFault::TooDeep(span))
}

/// The tree of a text and the spans of its items, or the first place at which there is none: a bad lexeme comes before
/// all other faults.
pub fn read(alloc: Global, bytes: &[u8]) -> Result<(Tree, Vec<Span>), ReadFault>
    ensures tree { IfOk result (λ r. Spelling bytes.now (λ list. IsTree list r.0)) }
    ensures spans { IfOk result (λ r. AreSpansOf bytes.now r.0 r.1.items) }
    ensures fault { IfErr result (IsReadFault bytes.now) }
{
    let mut cursor = Cursor::new(after_gap(bytes));
    let mut spans = Spans::new(alloc, bytes.len());
    match cursor.program(&mut spans) {
        Ok(source) => {
            let Source {
                records,
                globals,
                procedures,
                threads,
            } = source;
            let tree = Tree::new(records, globals, procedures, threads);
            Ok((tree, spans.into_items()))
        }
        Err(Stop::Memory) => Err(ReadFault::Memory),
        Err(Stop::At(expected)) => Err(unexpected(alloc, bytes, cursor.rest(), expected)?),
        Err(Stop::TooDeep) => Err(too_deep(bytes, cursor.rest())),
    }
}
