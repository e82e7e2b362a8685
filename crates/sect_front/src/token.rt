//! Tokens.

use crate::literal::Literal;
use crate::name::Name;
use crate::tree::Comparison;

/// A token of a source text. `class` is a keyword that stands in no rule of the grammar.
#[derive(Clone, Copy)]
pub enum Token {
    Name(Name),
    Number(Literal),
    Record,
    ProtectedBy,
    Global,
    Proc,
    Thread,
    Int,
    New,
    Null,
    Print,
    If,
    Else,
    While,
    Atomic,
    All,
    Call,
    Class,
    OpenBrace,
    CloseBrace,
    OpenParen,
    CloseParen,
    Semicolon,
    Comma,
    Dot,
    Equal,
    Plus,
    Minus,
    Star,
    Comparison(Comparison),
}
