//! The marks that a question is made of.

ghost use Rattle.std.specs.Prelude.{◌≡◌, ℕ, List, true, Some, IfSome};
ghost use Rattle.sect_front.specs.{Lexing.{IsFirst as IsFirstToken}, declared.token.Token.{Token as AToken}};
ghost use Rattle.sect_asking.specs.{Marks.{IsFirst}, declared.mark.Mark.{Mark as AMark}};

use sect_front::{Comparison, Literal, Name, Token, first_token};

/// A sign or a keyword.
#[derive(Clone, Copy, PartialEq, Eq)]
pub enum Sign {
    Null,
    Print,
    Thread,
    Equal,
    NotEqual,
    Less,
    LessOrEqual,
    Greater,
    GreaterOrEqual,
    Plus,
    Minus,
    Star,
    Dot,
    Comma,
    OpenParen,
    CloseParen,
    OpenBracket,
    CloseBracket,
    Hash,
    Not,
    And,
    Or,
}

impl Sign {
    /// Whether it is this one.
    pub fn is(self, wanted: Sign) -> bool
        ensures { result ≡ true → self ≡ wanted }
    {
        self == wanted
    }
}

/// What a question is made of: names, integers, signs and keywords.
#[derive(Clone, Copy)]
pub enum Mark {
    Name(Name),
    Number(Literal),
    Sign(Sign),
}

/// The mark that a token of the language is, if questions have it.
fn mark_of(token: &Token) -> Option<Mark>
    ensures mark { IfSome result (λ m. (n : ℕ) (bytes : List ℕ) → IsFirstToken token.now n bytes → IsFirst m n bytes) }
    ensures names { (name : List ℕ) → token.now ≡ AToken.Name name → result ≡ Some (AMark.Name name) }
{
    let sign = match token {
        Token::Name(name) => return Some(Mark::Name(*name)),
        Token::Number(number) => return Some(Mark::Number(*number)),
        Token::Null => Sign::Null,
        Token::Print => Sign::Print,
        Token::Thread => Sign::Thread,
        Token::Plus => Sign::Plus,
        Token::Minus => Sign::Minus,
        Token::Star => Sign::Star,
        Token::Dot => Sign::Dot,
        Token::Comma => Sign::Comma,
        Token::OpenParen => Sign::OpenParen,
        Token::CloseParen => Sign::CloseParen,
        Token::Comparison(Comparison::Equal) => Sign::Equal,
        Token::Comparison(Comparison::NotEqual) => Sign::NotEqual,
        Token::Comparison(Comparison::Less) => Sign::Less,
        Token::Comparison(Comparison::LessOrEqual) => Sign::LessOrEqual,
        _ => return None,
    };
    Some(Mark::Sign(sign))
}

/// The sign at the front that only questions have, and how many bytes it has.
fn own_sign(bytes: &[u8]) -> Option<(Sign, usize)>
    ensures { IfSome result (λ r. IsFirst (AMark.Sign r.0) r.1 bytes.now) }
{
    match bytes {
        [b'>', b'=', ..] => Some((Sign::GreaterOrEqual, 2)),
        [b'>', ..] => Some((Sign::Greater, 1)),
        [b'&', b'&', ..] => Some((Sign::And, 2)),
        [b'|', b'|', ..] => Some((Sign::Or, 2)),
        [b'!', b'=', ..] => None,
        [b'!', ..] => Some((Sign::Not, 1)),
        [b'[', ..] => Some((Sign::OpenBracket, 1)),
        [b']', ..] => Some((Sign::CloseBracket, 1)),
        [b'#', ..] => Some((Sign::Hash, 1)),
        _ => None,
    }
}

/// The mark that stands at the front of these bytes, and how many of them spell it.
pub fn first_mark(bytes: &[u8]) -> Option<(Mark, usize)>
    ensures first { IfSome result (λ r. IsFirst r.0 r.1 bytes.now) }
    // Each name that stands there is given.
    ensures names { (name : List ℕ) (count : ℕ) → IsFirst (AMark.Name name) count bytes.now
        → result ≡ Some (AMark.Name name, count) }
{
    match first_token(bytes) {
        Some((token, count)) => match mark_of(&token) {
            None => None,
            Some(mark) => Some((mark, count)),
        },
        None => match own_sign(bytes) {
            None => None,
            Some((sign, count)) => Some((Mark::Sign(sign), count)),
        },
    }
}
