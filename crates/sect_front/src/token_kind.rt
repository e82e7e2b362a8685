//! Kinds of tokens.

ghost use Rattle.std.specs.Prelude.{◌≡◌};
ghost use Rattle.sect_front.specs.{Expected.{all_kinds as all_kinds_by}, Samples.{sample_of, kind_spelling}};

use crate::literal::Literal;
use crate::name::Name;
use crate::printing::fixed_spelling;
use crate::token::Token;
use crate::tree::Comparison;

/// What a token is, where it makes no difference which name or which integer.
#[derive(Clone, Copy)]
pub enum TokenKind {
    Name,
    Record,
    ProtectedBy,
    Global,
    Proc,
    Thread,
    Int,
    Null,
    New,
    Print,
    If,
    Else,
    While,
    Atomic,
    All,
    Call,
    Class,
    Number,
    OpenBrace,
    CloseBrace,
    OpenParen,
    CloseParen,
    Semicolon,
    Comma,
    Dot,
    Equal,
    Plus,
    Minus,
    Star,
    Comparison(Comparison),
}

impl TokenKind {
    /// How a keyword or a sign of this kind is spelled, and nothing for names and integers, which have many spellings.
    pub fn spelling(self) -> &'static str
        ensures { result.now ≡ kind_spelling self }
    {
        fixed_spelling(self.sample())
    }

    /// A token of this kind.
    pub(crate) fn sample(self) -> Token
        ensures { result ≡ sample_of self }
    {
        match self {
            TokenKind::Name => Token::Name(Name::new(b"x")),
            TokenKind::Record => Token::Record,
            TokenKind::ProtectedBy => Token::ProtectedBy,
            TokenKind::Global => Token::Global,
            TokenKind::Proc => Token::Proc,
            TokenKind::Thread => Token::Thread,
            TokenKind::Int => Token::Int,
            TokenKind::Null => Token::Null,
            TokenKind::New => Token::New,
            TokenKind::Print => Token::Print,
            TokenKind::If => Token::If,
            TokenKind::Else => Token::Else,
            TokenKind::While => Token::While,
            TokenKind::Atomic => Token::Atomic,
            TokenKind::All => Token::All,
            TokenKind::Call => Token::Call,
            TokenKind::Class => Token::Class,
            TokenKind::Number => Token::Number(Literal::new(0)),
            TokenKind::OpenBrace => Token::OpenBrace,
            TokenKind::CloseBrace => Token::CloseBrace,
            TokenKind::OpenParen => Token::OpenParen,
            TokenKind::CloseParen => Token::CloseParen,
            TokenKind::Semicolon => Token::Semicolon,
            TokenKind::Comma => Token::Comma,
            TokenKind::Dot => Token::Dot,
            TokenKind::Equal => Token::Equal,
            TokenKind::Plus => Token::Plus,
            TokenKind::Minus => Token::Minus,
            TokenKind::Star => Token::Star,
            TokenKind::Comparison(comparison) => Token::Comparison(comparison),
        }
    }
}

/// All kinds, in the order of the language's table of tokens.
pub(crate) fn all_kinds() -> [TokenKind; 33]
    ensures { result ≡ all_kinds_by }
{
    [
        TokenKind::Name,
        TokenKind::Record,
        TokenKind::ProtectedBy,
        TokenKind::Global,
        TokenKind::Proc,
        TokenKind::Thread,
        TokenKind::Int,
        TokenKind::Null,
        TokenKind::New,
        TokenKind::Print,
        TokenKind::If,
        TokenKind::Else,
        TokenKind::While,
        TokenKind::Atomic,
        TokenKind::All,
        TokenKind::Call,
        TokenKind::Class,
        TokenKind::Number,
        TokenKind::OpenBrace,
        TokenKind::CloseBrace,
        TokenKind::OpenParen,
        TokenKind::CloseParen,
        TokenKind::Semicolon,
        TokenKind::Comma,
        TokenKind::Dot,
        TokenKind::Equal,
        TokenKind::Plus,
        TokenKind::Minus,
        TokenKind::Star,
        TokenKind::Comparison(Comparison::Equal),
        TokenKind::Comparison(Comparison::NotEqual),
        TokenKind::Comparison(Comparison::Less),
        TokenKind::Comparison(Comparison::LessOrEqual),
    ]
}
