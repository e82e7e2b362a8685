//! Long gaps of a text, which are passed at once where the text is read again.

ghost use Rattle.std.specs.Prelude.{◌≡◌, [], IfOk};
ghost use Rattle.sect_front.specs.{Gaps.{after_gap as gap_of}, LongGaps.{IsRestOf, AreGaps}};

use crate::lexer::{after_gap, is_tight};
use crate::span::Span;
use std::alloc::AllocError;

/// A gap of so many bytes is long.
const LONG_GAP: usize = 12;

/// A text, and gaps of it, that is blanks and comments between its tokens, in the order of the text. Any may be left
/// out, and is then passed byte by byte.
#[derive(Clone, Copy)]
pub struct GappedText<'a> {
    pub bytes: &'a [u8],
    pub gaps: &'a [Span],
}

impl<'a> GappedText<'a> {
    /// A text of which no gap is known.
    pub fn new(bytes: &'a [u8]) -> GappedText<'a>
        ensures bytes { result.bytes.now ≡ bytes.now }
        ensures none { result.gaps.now ≡ [] }
    {
        GappedText { bytes, gaps: &[] }
    }

    /// What follows the blanks and comments at the front of a rest of the text. Where they are the gap of this number,
    /// they are passed at once, and the number is that of the next.
    pub fn after_gap(self, here: &'a [u8], next: &mut usize) -> &'a [u8]
        requires gaps { AreGaps self.bytes.now self.gaps.now }
        requires rest { IsRestOf self.bytes.now here.now }
        ensures { result.now ≡ gap_of here.now }
    {
        let at = self.bytes.len() - here.len();
        if *next < self.gaps.len() {
            let gap = self.gaps[*next];
            if gap.start == at {
                *next += 1;
                return &self.bytes[gap.end..];
            }
        }
        after_gap(here)
    }
}

/// What follows the blanks and comments at the front of a rest of a text. If they are many bytes, they are added to the
/// text's gaps.
#[inline(always)]
fn pass_gap<'a>(bytes: &[u8], here: &'a [u8], gaps: &mut Vec<Span>) -> Result<&'a [u8], AllocError>
    requires gaps { AreGaps bytes.now gaps.old.items }
    requires rest { IsRestOf bytes.now here.now }
    ensures after { IfOk result (λ after. after.now ≡ gap_of here.now) }
    ensures gaps { AreGaps bytes.now gaps.new.items }
{
    if is_tight(here) {
        return Ok(here);
    }
    pass_bytes(bytes, here, gaps)
}

/// The same, where a blank or a `/` stands at the front.
#[inline(always)]
fn pass_bytes<'a>(
    bytes: &[u8],
    here: &'a [u8],
    gaps: &mut Vec<Span>,
) -> Result<&'a [u8], AllocError>
    requires gaps { AreGaps bytes.now gaps.old.items }
    requires rest { IsRestOf bytes.now here.now }
    ensures after { IfOk result (λ after. after.now ≡ gap_of here.now) }
    ensures gaps { AreGaps bytes.now gaps.new.items }
{
    let after = after_gap(here);
    keep(bytes, here, after, gaps)?;
    Ok(after)
}

/// Adds the gap at the front of a rest of a text, behind which this follows, to the text's gaps, if it is many bytes.
#[inline(always)]
fn keep(bytes: &[u8], here: &[u8], after: &[u8], gaps: &mut Vec<Span>) -> Result<(), AllocError>
    requires gaps { AreGaps bytes.now gaps.old.items }
    requires rest { IsRestOf bytes.now here.now }
    requires after { after.now ≡ gap_of here.now }
    ensures { AreGaps bytes.now gaps.new.items }
{
    let (start, end) = (bytes.len() - here.len(), bytes.len() - after.len());
    if end - start >= LONG_GAP {
        gaps.push(Span { start, end })?;
    }
    Ok(())
}

/// Adds the long gaps of a text to these. A byte in a token begins none, so no token is looked at.
pub fn put_gaps(bytes: &[u8], gaps: &mut Vec<Span>) -> Result<(), AllocError>
    requires { AreGaps bytes.now gaps.old.items }
    ensures { AreGaps bytes.now gaps.new.items }
{
    let mut here = pass_gap(bytes, bytes, gaps)?;
    'more: while let Some((_, others)) = here.split_first() {
        here = pass_gap(bytes, others, gaps)?;
    }
    Ok(())
}
