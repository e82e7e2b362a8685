//! Which argument of a call has another type than its parameter.

ghost use Rattle.std.specs.Prelude.{◌≡◌, Some, drop};
ghost use Rattle.sect_lint.specs.Naming.{type_by, variable as variable_at};
ghost use Rattle.sect_lint.specs.Typing.{variable_in as variable_by, value_shape as value_by, typed_by, two as two_by};
ghost use Rattle.sect_lint.specs.Arguments.{takes as takes_by, fits as fits_by, parameter_by};
ghost use Rattle.sect_lint.specs.Arguments.{differing as differing_by, mistyped_detail as mistyped_by};
ghost use Rattle.sect_lint.specs.Arguments.{parameters_in as parameters_by, call_of as call_by, called_by as called_of};
ghost use Rattle.sect_lint.specs.Arguments.{called_detail as called_by};

use crate::call_counts::called_at;
use crate::diagnostic::{Detail, Typed};
use crate::form::{Form, form_of};
use crate::naming::{found, type_of, variable};
use crate::typing::{shape_of, two, typed, types_detail, value_shape, variable_in};
use sect_front::{Declaration, Kind, Name, Procedure, Span, Token};
use sect_places::{NameSpan, procedure_of};

/// A call, and the procedure that it calls, by their items.
#[derive(Clone, Copy)]
pub struct Call {
    pub item: usize,
    pub procedure: usize,
}

/// Whether a parameter of this type takes what refers to objects of that record, or an integer, where none is given.
fn takes(kind: &Kind, given: Option<Name>) -> bool
    ensures { result ≡ takes_by kind.now given }
{
    match (kind, given) {
        (Kind::Int, None) => true,
        (Kind::Record(wanted), Some(name)) => *wanted == name,
        _ => false,
    }
}

/// The record to whose objects a variable refers.
fn record_in(names: &[NameSpan], item: usize, name: &Name) -> Option<Name>
    ensures { result ≡ type_by names.now (variable_by names.now item name.now) }
{
    match variable_in(names, item, name) {
        Some(declared) => type_of(names, &declared),
        None => None,
    }
}

/// Whether a parameter of this type takes a value.
fn fits(names: &[NameSpan], item: usize, kind: &Kind, value: &Token) -> bool
    ensures { result ≡ fits_by names.now item kind.now value.now }
{
    match value {
        Token::Number(_) => takes(kind, None),
        Token::Null => matches!(kind, Kind::Record(_)),
        Token::Name(name) => takes(kind, record_in(names, item, name)),
        _ => true,
    }
}

/// A parameter, with its type.
fn parameter(names: &[NameSpan], declared: Option<NameSpan>) -> Option<Typed>
    ensures { result ≡ parameter_by names.now declared }
{
    match declared {
        Some(declared) => Some(Typed {
            span: declared.span,
            shape: shape_of(names, &declared),
        }),
        None => None,
    }
}

/// What stands behind the first two tokens.
fn later_tokens(tokens: &[Token]) -> &[Token]
    ensures { result.now ≡ drop 2 tokens.now }
{
    match tokens {
        [_, _, rest @ ..] => rest,
        _ => &[],
    }
}

/// The bytes behind those of the first two tokens.
fn later_spans(spans: &[Span]) -> &[Span]
    ensures { result.now ≡ drop 2 spans.now }
{
    match spans {
        [_, _, rest @ ..] => rest,
        _ => &[],
    }
}

/// An argument that its parameter doesn't take, and the parameter.
fn misfit(names: &[NameSpan], call: Call, declared: &Declaration, value: &Token, at: Span) -> Detail
    ensures { result ≡ two_by (typed_by (Some at) (value_by names.now call.item value.now))
        (parameter_by names.now (variable_at names.now call.procedure declared.now.name)) }
{
    two(
        typed(Some(at), value_shape(names, call.item, value)),
        parameter(names, variable(names, call.procedure, &declared.name)),
    )
}

/// The first argument that its parameter doesn't take, and the parameter. `tokens` are the arguments and what stands
/// behind each, and `spans` has their bytes.
fn differing(
    names: &[NameSpan],
    call: Call,
    parameters: &[Declaration],
    tokens: &[Token],
    spans: &[Span],
) -> Detail
    ensures { result ≡ differing_by names.now call parameters.now tokens.now spans.now }
{
    let mut values = tokens;
    let mut places = spans;
    for declared in parameters {
        let Some(value) = values.get(0) else {
            return Detail::Nothing;
        };
        let Some(at) = places.get(0) else {
            return Detail::Nothing;
        };
        if !fits(names, call.item, &declared.kind, value) {
            return misfit(names, call, declared, value, *at);
        }
        values = later_tokens(values);
        places = later_spans(places);
    }
    Detail::Nothing
}

/// The parameters of the first procedure of a name.
fn parameters_in<'a>(procedures: &'a [Procedure], name: &Name) -> &'a [Declaration]
    ensures { result.now ≡ parameters_by procedures.now name.now }
{
    match called_at(procedures, name) {
        Some(number) => procedures[number].parameters.as_slice(),
        None => &[],
    }
}

/// A call of the procedure of a name.
fn call_of(names: &[NameSpan], item: usize, name: &Name) -> Option<Call>
    ensures { result ≡ call_by names.now item name.now }
{
    match found(names, procedure_of(names, name)) {
        Some(named) => Some(Call {
            item,
            procedure: named.used.item,
        }),
        None => None,
    }
}

/// What is told of a call, if there is one, whose arguments have other types than the parameters.
fn called(
    names: &[NameSpan],
    call: Option<Call>,
    parameters: &[Declaration],
    tokens: &[Token],
    spans: &[Span],
) -> Detail
    ensures { result ≡ called_of names.now call parameters.now tokens.now spans.now }
{
    match call {
        Some(call) => differing(names, call, parameters, tokens, spans),
        None => Detail::Nothing,
    }
}

/// What is told of a call whose arguments have other types than the parameters.
fn called_detail(
    procedures: &[Procedure],
    names: &[NameSpan],
    item: usize,
    tokens: &[Token],
    spans: &[Span],
) -> Detail
    ensures { result ≡ called_by procedures.now names.now item tokens.now spans.now }
{
    match (tokens, spans) {
        ([_, Token::Name(name), _, values @ ..], [_, _, _, places @ ..]) => {
            let call = call_of(names, item, name);
            called(names, call, parameters_in(procedures, name), values, places)
        }
        _ => Detail::Nothing,
    }
}

/// What is told of an item of these tokens whose types don't agree: of a call an argument and its parameter. `spans`
/// has the bytes of its tokens.
pub fn mistyped_detail(
    procedures: &[Procedure],
    names: &[NameSpan],
    item: usize,
    tokens: &[Token],
    spans: &[Span],
) -> Detail
    ensures { result ≡ mistyped_by procedures.now names.now item tokens.now spans.now }
{
    match form_of(tokens) {
        Form::Call => called_detail(procedures, names, item, tokens, spans),
        form => types_detail(names, item, tokens, spans, form),
    }
}
