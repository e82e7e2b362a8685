//! The innermost brace that is open at the end of a text.

ghost use Rattle.std.specs.Prelude.{◌≡◌, ◌<◌, ◌-◌, ℕ, List, IfOk, IfSome, OnOk, length, slice_get};
ghost use Rattle.sect_front.specs.{Lexing.{Spells}, TokenAt.{TokenAt}, FaultPlaces.{open_behind, open_braces}};
ghost use Rattle.sect_front.specs.LongGaps.{AreGaps};
ghost use Rattle.sect_front.specs.steps.Below.{AreBelow};

use crate::gaps::GappedText;
use crate::lexer::lexeme;
use crate::token::Token;
use std::alloc::{AllocError, Global};

/// Keeps which braces are open, behind one more token that stands at this place.
fn pass_token(braces: &mut Vec<usize>, at: usize, token: &Token) -> Result<(), AllocError>
    ensures open { OnOk result (braces.new.items ≡ open_behind at braces.old.items token.now) }
    ensures below { (total : ℕ) → at < total → AreBelow total braces.old.items
        → OnOk result (AreBelow total braces.new.items) }
{
    match token {
        Token::OpenBrace => braces.push(at)?,
        Token::CloseBrace => {
            braces.pop();
        }
        _ => {}
    }
    Ok(())
}

/// The place of the innermost brace that is open at the end of a text, if all that stands in the text is tokens.
pub fn innermost_brace(alloc: Global, text: GappedText) -> Result<Option<usize>, AllocError>
    requires { AreGaps text.bytes.now text.gaps.now }
    ensures brace { IfOk result (λ brace. (places : List TokenAt) → Spells text.entry.bytes.now places
        → brace ≡ slice_get (open_braces places) (length (open_braces places) - 1)) }
    ensures within { IfOk result (λ brace. IfSome brace (λ at. at < length text.entry.bytes.now)) }
{
    let mut braces = Vec::new(alloc);
    let mut next = 0;
    let mut here = text.after_gap(text.bytes, &mut next);
    while !here.is_empty() {
        let at = text.bytes.len() - here.len();
        let Some((token, length)) = lexeme(here) else {
            return Ok(None);
        };
        let (_, after) = here.split_at(length);
        here = text.after_gap(after, &mut next);
        pass_token(&mut braces, at, &token)?;
    }
    Ok(braces.last().copied())
}
