//! What is left of a text that is read, and its tokens.
//!
//! Each rule of the grammar is one function: it passes the tokens of what it reads, and where it can't it stops before
//! the token that may not stand there. Blocks stand in one another at most 32 deep, and so do the calls.

ghost use Rattle.std.specs.Prelude.{◌≡◌, ◌∷◌, [], List, ℕ, Some, None, true, false, IfOk, IfErr, IfSome, IfNone};
ghost use Rattle.sect_front.specs.{Words.{is_name_byte}, Braces.{brace}, Spelling.{spelling_of}};
ghost use Rattle.sect_front.specs.Grammar.{operand_token, operator_token, comparison_token, kind_token};
ghost use Rattle.sect_front.specs.declared.token.Token.{Token as AToken};
ghost use Rattle.sect_front.specs.declared.tree.Operator.{Operator as AnOperator};
ghost use Rattle.sect_front.specs.steps.{Recognition.{single_sign, double_sign}, Signs.{IsSign, sign_byte, sign_token}};
ghost use Rattle.sect_front.specs.steps.Signs.{keyword_token};
ghost use Rattle.sect_front.specs.steps.{Places.{takes}, Passing.{StandsBefore, Passes, IsAbsent, IsBare}};
ghost use Rattle.sect_front.specs.steps.Passing.{IsRefused, Stops, StopsAtBrace};

mod declarations;
mod spans;
mod statements;

use crate::expected::Expected;
use crate::lexer::{begins_with, behind, put_lexeme};
use crate::limits::MOST_DEPTH;
use crate::name::Name;
use crate::token::Token;
use crate::tree::{Comparison, Kind, Operand, Operator};
pub use declarations::Source;
pub use spans::Spans;
use std::alloc::{AllocError, AllocFailed};
use std::marker::Model;

/// Why a rule was not read to its end. What is left of the text begins where it stopped.
#[derive(Clone, Copy)]
pub enum Stop {
    Memory,
    /// Here a token would have to stand that this place takes.
    At(Expected),
    /// Here a block opens that is too deep.
    TooDeep,
}

impl From<AllocError> for Stop {
    ghost use Rattle.std.specs.Prelude.{◌≡◌};
    ghost use Rattle.sect_front.specs.declared.cursor.Stop.TheVariants.{Memory};

    ghost from_gives = { λ _ e. e ≡ Memory };

    fn from(_error: AllocError) -> Stop {
        Stop::Memory
    }
}

impl<T: Drop> From<AllocFailed<T>> for Stop {
    ghost use Rattle.std.specs.Prelude.{◌≡◌};
    ghost use Rattle.sect_front.specs.declared.cursor.Stop.TheVariants.{Memory};

    ghost from_gives = { λ _ e. e ≡ Memory };

    fn from(_error: AllocFailed<T>) -> Stop {
        Stop::Memory
    }
}

/// A keyword that may be left out where it stands.
#[derive(Clone, Copy)]
pub enum Keyword {
    Else,
    All,
    ProtectedBy,
}

impl Keyword {
    /// Whether a token is this keyword.
    fn is(self, token: &Token) -> bool
        ensures is { result ≡ true → token.now ≡ keyword_token self }
        ensures other { result ≡ false → token.now ≡ keyword_token self → ⊥ }
    {
        match self {
            Keyword::Else => matches!(token, Token::Else),
            Keyword::All => matches!(token, Token::All),
            Keyword::ProtectedBy => matches!(token, Token::ProtectedBy),
        }
    }
}

/// The operand that a token is.
fn operand(token: &Token) -> Option<Operand>
    ensures some { IfSome result (λ v. token.now ≡ operand_token v) }
    ensures none { IfNone result (takes Expected.Operand token.now ≡ false) }
{
    match token {
        Token::Name(name) => Some(Operand::Name(*name)),
        Token::Number(value) => Some(Operand::Number(*value)),
        Token::Null => Some(Operand::Null),
        _ => None,
    }
}

/// The type that a token is.
fn kind(token: &Token) -> Option<Kind>
    ensures some { IfSome result (λ k. token.now ≡ kind_token k) }
    ensures none { IfNone result (takes Expected.Kind token.now ≡ false) }
{
    match token {
        Token::Int => Some(Kind::Int),
        Token::Name(of) => Some(Kind::Record(*of)),
        _ => None,
    }
}

/// What is left of a text behind a token: with the gap how many bytes, and what follows the gap.
#[derive(Clone, Copy)]
pub struct Behind<'a> {
    left: usize,
    rest: &'a [u8],
}

/// What is left of a text, behind the gap before it, and how many braces are open there.
#[derive(Drop)]
pub struct Cursor<'a> {
    here: &'a [u8],
    braces: usize,
    /// How many bytes are left behind the last token that was passed.
    last: usize,
    /// How many are left behind the token before that one.
    end: usize,
}

impl<'a> Model for Cursor<'a> {
    ghost use Rattle.sect_front.specs.steps.Passing.{CursorView};

    ghost Value = { CursorView };

    ghost view = { λ c. record { here = c.here.now; braces = c.braces; last = c.last; end = c.end } };
}

impl<'a> Cursor<'a> {
    /// The start of a text, of which this follows the first gap.
    pub fn new(here: &'a [u8]) -> Cursor<'a>
        ensures { result ≡ record { here = here.now; braces = 0; last = 0; end = 0 } }
    {
        Cursor {
            here,
            braces: 0,
            last: 0,
            end: 0,
        }
    }

    /// What is left.
    pub fn rest(&self) -> &'a [u8]
        ensures { result.now ≡ self.now.here }
    {
        self.here
    }

    /// Puts the token that stands here, and gives what follows it, if one does.
    #[inline(always)]
    fn token(&self, token: &mut Token) -> Option<Behind<'a>>
        ensures some { IfSome result (λ b. StandsBefore self.now.here token.new b.rest.now b.left) }
        ensures none { IfNone result (IsBare self.now.here) }
    {
        let length = put_lexeme(self.here, token);
        if length == 0 {
            return None;
        }
        Some(Behind {
            left: self.here.len() - length,
            rest: behind(self.here, length),
        })
    }

    /// What follows a sign of one byte, with which no longer one begins, if it stands here.
    #[inline(always)]
    fn behind_sign(&self, sign: u8) -> Option<Behind<'a>>
        requires word { is_name_byte sign ≡ false }
        requires alone { double_sign sign ≡ None }
        ensures some { (token : AToken) → single_sign sign ≡ Some token
            → IfSome result (λ b. StandsBefore self.now.here token b.rest.now b.left) }
        ensures none { (token : AToken) → spelling_of token ≡ sign ∷ [] → IfNone result (IsAbsent token self.now) }
    {
        let Some((first, others)) = self.here.split_first() else {
            return None;
        };
        if *first != sign {
            return None;
        }
        Some(Behind {
            left: others.len(),
            rest: behind(self.here, 1),
        })
    }

    /// Passes a token that is no brace. What follows it is this.
    #[inline(always)]
    fn pass(&mut self, rest: Behind<'a>)
        ensures { self.new ≡ record {
          here = rest.entry.rest.now;
          braces = self.old.braces;
          last = rest.entry.left;
          end = self.old.last;
        } }
    {
        self.here = rest.rest;
        self.end = self.last;
        self.last = rest.left;
    }

    /// Passes a sign, if it stands here.
    #[inline(always)]
    fn takes(&mut self, sign: u8) -> bool
        requires word { is_name_byte sign ≡ false }
        requires alone { double_sign sign ≡ None }
        ensures taken { (token : AToken) → single_sign sign ≡ Some token → ((k : ℕ) → brace k token ≡ k)
            → result ≡ true → Passes self.old token self.new }
        ensures none { (token : AToken) → spelling_of token ≡ sign ∷ [] → result ≡ false → IsAbsent token self.old }
        ensures stays { result ≡ false → self.new ≡ self.old }
    {
        let Some(rest) = self.behind_sign(sign) else {
            return false;
        };
        self.pass(rest);
        true
    }

    /// Passes the sign that has to stand here.
    #[inline(always)]
    fn sign(&mut self, sign: u8, expected: Expected) -> Result<(), Stop>
        requires one { IsSign expected }
        requires byte { sign ≡ sign_byte expected }
        ensures ok { IfOk result (λ _. Passes self.old (sign_token expected) self.new) }
        ensures err { IfErr result (λ stop. Stops stop expected self.old self.new) }
    {
        if self.takes(sign) {
            return Ok(());
        }
        Err(Stop::At(expected))
    }

    /// Passes a `=` that isn't the first byte of `==`, if it stands here.
    #[inline(always)]
    fn takes_equal(&mut self) -> bool
        ensures taken { result ≡ true → Passes self.old AToken.Equal self.new }
        ensures none { result ≡ false → IsAbsent AToken.Equal self.old }
        ensures stays { result ≡ false → self.new ≡ self.old }
    {
        let Some((first, others)) = self.here.split_first() else {
            return false;
        };
        if *first != b'=' {
            return false;
        }
        if begins_with(others, b'=') {
            return false;
        }
        let rest = Behind {
            left: others.len(),
            rest: behind(self.here, 1),
        };
        self.pass(rest);
        true
    }

    /// Passes a keyword, if it stands here.
    fn takes_keyword(&mut self, keyword: Keyword) -> bool
        ensures taken { result ≡ true → Passes self.old (keyword_token keyword) self.new }
        ensures none { result ≡ false → IsAbsent (keyword_token keyword) self.old }
        ensures stays { result ≡ false → self.new ≡ self.old }
    {
        let mut token = Token::Class;
        let Some(rest) = self.token(&mut token) else {
            return false;
        };
        if !keyword.is(&token) {
            return false;
        }
        self.pass(rest);
        true
    }

    /// Passes the operator that stands here, if one does.
    #[inline(always)]
    fn takes_operator(&mut self) -> Option<Operator>
        ensures some { IfSome result (λ o. Passes self.old (operator_token o) self.new) }
        ensures none { IfNone result ((o : AnOperator) → IsAbsent (operator_token o) self.old) }
        ensures stays { IfNone result (self.new ≡ self.old) }
    {
        if self.takes(b'+') {
            return Some(Operator::Add);
        }
        if self.takes(b'-') {
            return Some(Operator::Subtract);
        }
        if self.takes(b'*') {
            return Some(Operator::Multiply);
        }
        None
    }

    /// Passes a `}`, if it stands here.
    #[inline(always)]
    fn takes_close(&mut self) -> bool
        ensures taken { result ≡ true → Passes self.old AToken.CloseBrace self.new }
        ensures none { result ≡ false → IsAbsent AToken.CloseBrace self.old }
        ensures stays { result ≡ false → self.new ≡ self.old }
    {
        let Some(rest) = self.behind_sign(b'}') else {
            return false;
        };
        self.here = rest.rest;
        self.end = self.last;
        self.last = rest.left;
        self.braces = self.braces.saturating_sub(1);
        true
    }

    /// Passes the `{` that has to stand here.
    fn open_brace(&mut self, expected: Expected) -> Result<(), Stop>
        ensures ok { IfOk result (λ _. Passes self.old AToken.OpenBrace self.new) }
        ensures err { IfErr result (λ stop. StopsAtBrace stop expected self.old self.new) }
    {
        let Some(rest) = self.behind_sign(b'{') else {
            return Err(Stop::At(expected));
        };
        if self.braces >= MOST_DEPTH {
            return Err(Stop::TooDeep);
        }
        self.here = rest.rest;
        self.end = self.last;
        self.last = rest.left;
        self.braces += 1;
        Ok(())
    }

    /// Passes the name that stands here, if one does.
    #[inline(always)]
    fn takes_name(&mut self) -> Option<Name>
        ensures some { IfSome result (λ name. Passes self.old (AToken.Name name) self.new) }
        ensures none { IfNone result (IsRefused Expected.Name self.old) }
        ensures stays { IfNone result (self.new ≡ self.old) }
    {
        let mut token = Token::Class;
        let Some(rest) = self.token(&mut token) else {
            return None;
        };
        let Token::Name(name) = &token else {
            return None;
        };
        self.pass(rest);
        Some(*name)
    }

    /// Passes the name that has to stand here.
    #[inline(always)]
    fn name(&mut self) -> Result<Name, Stop>
        ensures ok { IfOk result (λ name. Passes self.old (AToken.Name name) self.new) }
        ensures err { IfErr result (λ stop. Stops stop Expected.Name self.old self.new) }
    {
        let Some(name) = self.takes_name() else {
            return Err(Stop::At(Expected::Name));
        };
        Ok(name)
    }

    /// Passes the operand that stands here, if one does.
    #[inline(always)]
    fn takes_operand(&mut self) -> Option<Operand>
        ensures some { IfSome result (λ v. Passes self.old (operand_token v) self.new) }
        ensures none { IfNone result (IsRefused Expected.Operand self.old) }
        ensures stays { IfNone result (self.new ≡ self.old) }
    {
        let mut token = Token::Class;
        let Some(rest) = self.token(&mut token) else {
            return None;
        };
        let Some(value) = operand(&token) else {
            return None;
        };
        self.pass(rest);
        Some(value)
    }

    /// Passes the operand that has to stand here.
    #[inline(always)]
    fn operand(&mut self) -> Result<Operand, Stop>
        ensures ok { IfOk result (λ v. Passes self.old (operand_token v) self.new) }
        ensures err { IfErr result (λ stop. Stops stop Expected.Operand self.old self.new) }
    {
        let Some(value) = self.takes_operand() else {
            return Err(Stop::At(Expected::Operand));
        };
        Ok(value)
    }

    /// Passes a comparison.
    fn comparison(&mut self) -> Result<Comparison, Stop>
        ensures ok { IfOk result (λ o. Passes self.old (comparison_token o) self.new) }
        ensures err { IfErr result (λ stop. Stops stop Expected.Comparison self.old self.new) }
    {
        let mut token = Token::Class;
        let Some(rest) = self.token(&mut token) else {
            return Err(Stop::At(Expected::Comparison));
        };
        let Token::Comparison(comparison) = &token else {
            return Err(Stop::At(Expected::Comparison));
        };
        self.pass(rest);
        Ok(*comparison)
    }

    /// Passes the type that stands here, if one does.
    fn takes_kind(&mut self) -> Option<Kind>
        ensures some { IfSome result (λ k. Passes self.old (kind_token k) self.new) }
        ensures none { IfNone result (IsRefused Expected.Kind self.old) }
        ensures stays { IfNone result (self.new ≡ self.old) }
    {
        let mut token = Token::Class;
        let Some(rest) = self.token(&mut token) else {
            return None;
        };
        let Some(kind) = kind(&token) else {
            return None;
        };
        self.pass(rest);
        Some(kind)
    }
}
