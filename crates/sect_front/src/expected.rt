//! Which tokens may stand at a place of the grammar.

ghost use Rattle.std.specs.Prelude.{◌≡◌, IfOk, filter};
ghost use Rattle.sect_front.specs.{Expected.{all_kinds as all_kinds_by}, steps.{Places.{takes}, Kinds.{takes_kind}}};

use crate::token::Token;
use crate::token_kind::{TokenKind, all_kinds};
use std::alloc::{AllocError, Global};

/// A place of the grammar, by what may stand there.
#[derive(Clone, Copy)]
pub enum Expected {
    Name,
    Semicolon,
    Equal,
    OpenParen,
    CloseParen,
    /// `{` of a block of statements.
    OpenBrace,
    Comparison,
    Operand,
    /// Behind the name with which a statement begins.
    AfterName,
    /// Behind a target and `=`.
    Value,
    /// Behind a target, `=` and an operand that is no name.
    AfterFirst,
    /// Behind a target, `=` and a name.
    AfterFirstName,
    /// Behind `atomic`.
    AllOrBrace,
    /// Behind the `(` of a call.
    Argument,
    AfterArgument,
    /// Where a statement may begin, or a block end.
    Start,
    /// The same, behind an `if` that has no `else` yet.
    StartOrElse,
    /// The same, before the statements of a procedure or a thread.
    StartOrLocal,
    /// Behind a name that may be the type of a local.
    NameOrAfterName,
    /// Where a field may begin, or a record end.
    Field,
    HintOrBrace,
    /// Behind the `(` of a procedure.
    Parameter,
    AfterParameter,
    Kind,
    /// `{` of a procedure or a thread.
    OpenBody,
    /// Where a declaration may begin, by the kinds of those that have been read.
    Records,
    Globals,
    Procedures,
    Threads,
}

/// Whether an operator or the end of a statement is this token.
fn is_behind_first(token: &Token) -> bool
    ensures { result ≡ takes Expected.AfterFirst token.now }
{
    matches!(
        token,
        Token::Semicolon | Token::Plus | Token::Minus | Token::Star
    )
}

/// Whether a token is an operand.
fn is_operand(token: &Token) -> bool
    ensures { result ≡ takes Expected.Operand token.now }
{
    matches!(token, Token::Name(_) | Token::Number(_) | Token::Null)
}

/// Whether a token is a type.
fn is_kind(token: &Token) -> bool
    ensures { result ≡ takes Expected.Kind token.now }
{
    matches!(token, Token::Int | Token::Name(_))
}

/// Whether a statement, or the end of a block, begins with a token.
fn is_start(token: &Token) -> bool
    ensures { result ≡ takes Expected.Start token.now }
{
    matches!(
        token,
        Token::Name(_)
            | Token::Print
            | Token::If
            | Token::While
            | Token::Atomic
            | Token::Call
            | Token::CloseBrace
    )
}

impl Expected {
    /// Whether a token may stand there.
    pub fn takes(self, token: &Token) -> bool
        ensures { result ≡ takes self token.now }
    {
        match self {
            Expected::Name => matches!(token, Token::Name(_)),
            Expected::Semicolon => matches!(token, Token::Semicolon),
            Expected::Equal => matches!(token, Token::Equal),
            Expected::OpenParen => matches!(token, Token::OpenParen),
            Expected::CloseParen => matches!(token, Token::CloseParen),
            Expected::OpenBrace | Expected::OpenBody => matches!(token, Token::OpenBrace),
            Expected::Comparison => matches!(token, Token::Comparison(_)),
            Expected::Operand => is_operand(token),
            Expected::AfterName => matches!(token, Token::Equal | Token::Dot),
            Expected::Value => matches!(token, Token::New) || is_operand(token),
            Expected::AfterFirst => is_behind_first(token),
            Expected::AfterFirstName => matches!(token, Token::Dot) || is_behind_first(token),
            Expected::AllOrBrace => matches!(token, Token::All | Token::OpenBrace),
            Expected::Argument => matches!(token, Token::CloseParen) || is_operand(token),
            Expected::AfterArgument | Expected::AfterParameter => {
                matches!(token, Token::Comma | Token::CloseParen)
            }
            Expected::Start => is_start(token),
            Expected::StartOrElse => matches!(token, Token::Else) || is_start(token),
            Expected::StartOrLocal => matches!(token, Token::Int) || is_start(token),
            Expected::NameOrAfterName => {
                matches!(token, Token::Name(_) | Token::Equal | Token::Dot)
            }
            Expected::Field => matches!(token, Token::CloseBrace) || is_kind(token),
            Expected::HintOrBrace => matches!(token, Token::ProtectedBy | Token::OpenBrace),
            Expected::Parameter => matches!(token, Token::CloseParen) || is_kind(token),
            Expected::Kind => is_kind(token),
            Expected::Records => {
                matches!(
                    token,
                    Token::Record | Token::Global | Token::Proc | Token::Thread
                )
            }
            Expected::Globals => matches!(token, Token::Global | Token::Proc | Token::Thread),
            Expected::Procedures => matches!(token, Token::Proc | Token::Thread),
            Expected::Threads => matches!(token, Token::Thread),
        }
    }

    /// The kinds of tokens that may stand there.
    pub fn kinds(self, alloc: Global) -> Result<Vec<TokenKind>, AllocError>
        ensures { IfOk result (λ kinds. kinds.items ≡ filter (takes_kind self) all_kinds_by) }
    {
        let all = all_kinds();
        let mut kinds = Vec::new(alloc);
        for kind in all.as_slice() {
            if self.takes(&kind.sample()) {
                kinds.push(*kind)?;
            }
        }
        Ok(kinds)
    }
}
