//! A tree as text.

ghost use Rattle.std.specs.{Prelude.{◌≡◌, ◌++◌, ◌≤◌, ◌<◌, ◌^◌, true, OnOk, IfOk, length}, Fmt.{decimal}};
ghost use Rattle.std.specs.List.{list_all};
ghost use Rattle.sect_front.specs.Spelling.{spelling_of, fixed_of, is_proper};
ghost use Rattle.sect_front.specs.Layout.{separator as separator_of, layout_of, IsTextOf};
ghost use Rattle.sect_front.specs.{Grammar.{tokens_of as grammar_tokens}, Front.{IsSpelled}, Limits.{most_bytes}};
ghost use Rattle.sect_front.specs.steps.Spread.{spread};

use crate::listing::tokens_of;
use crate::literal::Literal;
use crate::token::Token;
use crate::tree::Tree;
use std::alloc::{AllocError, Global};

fn put_decimal(alloc: Global, text: &mut Vec<u8>, value: Literal) -> Result<(), AllocError>
    ensures ok { OnOk result (text.new.items ≡ text.old.items ++ decimal value) }
    ensures low { value < 2 ^ 63 }
{
    let digits = format!(in alloc; "{}", value.value())?;
    text.extend_from_slice(digits.as_bytes())
}

/// How a keyword or a sign is spelled. A name and a number have no fixed spelling.
pub fn fixed_spelling(token: Token) -> &'static str
    ensures { result.now ≡ fixed_of token }
{
    match token {
        Token::Name(_) | Token::Number(_) => "",
        Token::Record => "record",
        Token::ProtectedBy => "protected_by",
        Token::Global => "global",
        Token::Proc => "proc",
        Token::Thread => "thread",
        Token::Int => "int",
        Token::New => "new",
        Token::Null => "null",
        Token::Print => "print",
        Token::If => "if",
        Token::Else => "else",
        Token::While => "while",
        Token::Atomic => "atomic",
        Token::All => "all",
        Token::Call => "call",
        Token::Class => "class",
        Token::OpenBrace => "{",
        Token::CloseBrace => "}",
        Token::OpenParen => "(",
        Token::CloseParen => ")",
        Token::Semicolon => ";",
        Token::Comma => ",",
        Token::Dot => ".",
        Token::Equal => "=",
        Token::Plus => "+",
        Token::Minus => "-",
        Token::Star => "*",
        Token::Comparison(comparison) => comparison.spelling(),
    }
}

/// Adds the spelling of a token.
fn put_spelling(alloc: Global, text: &mut Vec<u8>, token: Token) -> Result<(), AllocError>
    ensures ok { OnOk result (text.new.items ≡ text.old.items ++ spelling_of token) }
    ensures proper { is_proper token ≡ true }
{
    match token {
        Token::Name(name) => name.append_to(text),
        Token::Number(value) => put_decimal(alloc, text, value),
        _ => text.extend_from_slice(fixed_spelling(token).as_bytes()),
    }
}

/// What stands behind a token: a line feed after `;`, `{` and `}`, and a blank after any other.
fn separator(token: Token) -> u8
    ensures { result ≡ separator_of token }
{
    match token {
        Token::Semicolon | Token::OpenBrace | Token::CloseBrace => b'\n',
        _ => b' ',
    }
}

/// The tokens, each with what stands behind it.
fn put_tokens(alloc: Global, text: &mut Vec<u8>, tokens: &[Token]) -> Result<(), AllocError>
    ensures ok { OnOk result (text.new.items ≡ text.old.items ++ spread tokens.now) }
    ensures proper { OnOk result (list_all is_proper tokens.now ≡ true) }
{
    for token in tokens {
        put_spelling(alloc, text, *token)?;
        text.push(separator(*token))?;
    }
    Ok(())
}

/// The text of a tree: its tokens with one blank between two, but a line feed in place of the blank after `;`, `{` and
/// `}`, and a line feed at the end of a text that isn't empty.
pub fn print(alloc: Global, tree: &Tree) -> Result<Vec<u8>, AllocError>
    ensures layout { IfOk result (λ text. text.items ≡ layout_of (grammar_tokens tree.now)) }
    ensures spells { IfOk result (λ text. IsTextOf text.items tree.now) }
    // Where the text is within the size, it reads back as the same tree.
    ensures reads_back { IfOk result (λ text. length text.items ≤ most_bytes → IsSpelled text.items tree.now) }
{
    let mut text = Vec::new(alloc);
    if tree.is_empty() {
        return Ok(text);
    }
    let tokens = tokens_of(alloc, tree)?;
    put_tokens(alloc, &mut text, tokens.as_slice())?;
    Ok(text)
}
