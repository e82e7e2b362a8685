//! The statement or the test that an item is.

ghost use Rattle.std.specs.Prelude.{◌≡◌};
ghost use Rattle.sect_lint.specs.Forms.{form_of as form_by, named_form as named_by, after_name as after_by};
ghost use Rattle.sect_lint.specs.Forms.{assigned_form as assigned_by, is_new as new_by, is_dot as dot_by};
ghost use Rattle.sect_lint.specs.Forms.{first_form as first_by};

use sect_front::Token;

/// The statement or the test that an item is.
#[derive(Clone, Copy)]
pub enum Form {
    /// `print v`
    Print,
    /// `if (v == w)`, and so on
    Test,
    /// `x = v`
    Assign,
    /// `x = v + w`, and so on
    Compute,
    /// `x = new R`
    New,
    /// `x = y.f`
    Load,
    /// `y.f = v`
    Store,
    /// `call f(v)`, and so on
    Call,
    /// `atomic`
    Section,
    /// A declaration.
    Other,
}

fn is_new(token: &Token) -> bool
    ensures { result ≡ new_by token.now }
{
    matches!(token, Token::New)
}

fn is_dot(token: &Token) -> bool
    ensures { result ≡ dot_by token.now }
{
    matches!(token, Token::Dot)
}

/// The form of what is assigned to, by the tokens behind its `=`.
fn assigned_form(tokens: &[Token]) -> Form
    ensures { result ≡ assigned_by tokens.now }
{
    match tokens {
        [] => Form::Other,
        [first, ..] if is_new(first) => Form::New,
        [_] => Form::Assign,
        [_, second, ..] => {
            if is_dot(second) {
                Form::Load
            } else {
                Form::Compute
            }
        }
    }
}

/// The form of what begins with a name, by the token behind it, and those behind that.
fn after_name(token: &Token, tokens: &[Token]) -> Form
    ensures { result ≡ after_by token.now tokens.now }
{
    match token {
        Token::Dot => Form::Store,
        Token::Equal => assigned_form(tokens),
        _ => Form::Other,
    }
}

/// The form of what begins with a name, by the tokens behind it.
fn named_form(tokens: &[Token]) -> Form
    ensures { result ≡ named_by tokens.now }
{
    match tokens {
        [first, rest @ ..] => after_name(first, rest),
        [] => Form::Other,
    }
}

/// The form of an item, by its first token and those behind it.
fn first_form(token: &Token, tokens: &[Token]) -> Form
    ensures { result ≡ first_by token.now tokens.now }
{
    match token {
        Token::Print => Form::Print,
        Token::If => Form::Test,
        Token::While => Form::Test,
        Token::Call => Form::Call,
        Token::Atomic => Form::Section,
        Token::Name(_) => named_form(tokens),
        _ => Form::Other,
    }
}

/// The form of an item of these tokens.
pub fn form_of(tokens: &[Token]) -> Form
    ensures { result ≡ form_by tokens.now }
{
    match tokens {
        [first, rest @ ..] => first_form(first, rest),
        [] => Form::Other,
    }
}
