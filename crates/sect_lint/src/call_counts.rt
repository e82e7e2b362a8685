//! How many arguments a call has, and how many parameters the procedure.

ghost use Rattle.std.specs.Prelude.{◌≡◌, ◌<◌, IfSome, length};
ghost use Rattle.sect_places.specs.Openings.{is_value as value_by, values_in as values_by};
ghost use Rattle.sect_lint.specs.Counting.{called_at as called_by, parameters_of as parameters_by, has_name, counts_by};
ghost use Rattle.sect_lint.specs.Counting.{counts_detail as detail_by};
ghost use Rattle.sect_lint.specs.steps.Plain.{opened_counts as opened_by};

use crate::diagnostic::{Counts, Detail};
use sect_front::{Name, Procedure, Span, Token};
use sect_places::Opening;

/// Whether a token is an integer, `null` or a name.
fn is_value(token: &Token) -> bool
    ensures { result ≡ value_by token.now }
{
    matches!(token, Token::Number(_) | Token::Null | Token::Name(_))
}

/// How many values there are.
fn values_in(tokens: &[Token]) -> usize
    ensures { result ≡ values_by tokens.now }
{
    tokens.iter().filter(|token| is_value(*token)).count()
}

fn is_called(procedure: &Procedure, name: &Name) -> bool
    ensures { result ≡ has_name name.now procedure.now }
{
    procedure.name == *name
}

/// The number of the procedure of a name.
pub fn called_at(procedures: &[Procedure], name: &Name) -> Option<usize>
    ensures is { result ≡ called_by procedures.now name.now }
    ensures within { IfSome result (λ q. q < length procedures.now) }
{
    procedures
        .iter()
        .position(|procedure| is_called(procedure, name))
}

/// How many parameters the procedure of a name has.
fn parameters_of(procedures: &[Procedure], name: &Name) -> Option<usize>
    ensures { result ≡ parameters_by procedures.now name.now }
{
    match called_at(procedures, name) {
        Some(number) => Some(procedures[number].parameters.as_slice().len()),
        None => None,
    }
}

/// What is told of a call with so many arguments, where its procedure, if there is one, has so many parameters. Its
/// name has these bytes.
fn counts_at(procedure: Span, arguments: usize, parameters: Option<usize>) -> Detail
    ensures { result ≡ counts_by procedure arguments parameters }
{
    match parameters {
        Some(parameters) => Detail::Counts(Counts {
            procedure,
            arguments,
            parameters,
        }),
        None => Detail::Nothing,
    }
}

/// What is told of a call of these tokens that has another number of arguments than the procedure has parameters.
/// `spans` has the bytes of its tokens.
pub fn counts_detail(procedures: &[Procedure], tokens: &[Token], spans: &[Span]) -> Detail
    ensures { result ≡ detail_by procedures.now tokens.now spans.now }
{
    match (tokens, spans) {
        ([_, Token::Name(name), rest @ ..], [_, span, ..]) => {
            counts_at(*span, values_in(rest), parameters_of(procedures, name))
        }
        _ => Detail::Nothing,
    }
}

/// The same, where the first tokens of the call are kept and the others counted.
pub fn opened_counts(procedures: &[Procedure], opening: &Opening) -> Detail
    ensures { result ≡ opened_by procedures.now opening.now.tokens.items opening.now.spans.items opening.now.values }
{
    match (opening.tokens.as_slice(), opening.spans.as_slice()) {
        ([_, Token::Name(name), ..], [_, span, ..]) => {
            counts_at(*span, opening.values, parameters_of(procedures, name))
        }
        _ => Detail::Nothing,
    }
}
