//! What the declarations of a text tell of an item whose types don't agree.

ghost use Rattle.std.specs.Prelude.{◌≡◌, ◌<◌, IfSome, length, position, slice_get};
ghost use Rattle.sect_lint.specs.Typing.{shape_of as shape_by, is_in as in_by, variable_in as variable_by};
ghost use Rattle.sect_lint.specs.Typing.{value_shape as value_shape_by, target_shape as target_shape_by};
ghost use Rattle.sect_lint.specs.Typing.{field_shape as field_shape_by, typed_by, joined as joined_by, made_by};
ghost use Rattle.sect_lint.specs.Typing.{value_at as value_by, target_at as target_by, member_at as member_by};
ghost use Rattle.sect_lint.specs.Typing.{one as one_by, two as two_by, unless_int as unless_by, loaded as loaded_by};
ghost use Rattle.sect_lint.specs.Typing.{stored as stored_by, types_detail as types_by};

use crate::diagnostic::{Detail, Shape, Typed};
use crate::form::Form;
use crate::naming::{found, member_of, variable};
use sect_front::{Name, Span, Token};
use sect_places::{NameSpan, Role, Thing, type_in};

/// What a variable or a field is, by its declaration.
pub fn shape_of(names: &[NameSpan], declared: &NameSpan) -> Shape
    ensures { result ≡ shape_by names.now declared.now }
{
    match found(names, type_in(names, declared.used.item)) {
        Some(named) => Shape::Reference(named.span),
        None => Shape::Int,
    }
}

fn is_in(named: &NameSpan, item: usize) -> bool
    ensures { result ≡ in_by item named.now }
{
    named.used.item == item
}

/// The first name of an item.
fn first_in(names: &[NameSpan], item: usize) -> Option<usize>
    ensures is { result ≡ position (in_by item) names.now }
    ensures within { IfSome result (λ k. k < length names.now) }
{
    names.iter().position(|named| is_in(named, item))
}

/// The declaration of a variable that stands in an item.
pub fn variable_in(names: &[NameSpan], item: usize, name: &Name) -> Option<NameSpan>
    ensures { result ≡ variable_by names.now item name.now }
{
    match found(names, first_in(names, item)) {
        Some(beside) => variable(names, beside.used.scope, name),
        None => None,
    }
}

/// What a token of an item is as a value: an integer, `null` or a variable.
pub fn value_shape(names: &[NameSpan], item: usize, token: &Token) -> Option<Shape>
    ensures { result ≡ value_shape_by names.now item token.now }
{
    match token {
        Token::Number(_) => Some(Shape::Int),
        Token::Null => Some(Shape::Null),
        Token::Name(name) => match variable_in(names, item, name) {
            Some(declared) => Some(shape_of(names, &declared)),
            None => None,
        },
        _ => None,
    }
}

/// What a token of an item is before `=`.
fn target_shape(names: &[NameSpan], item: usize, token: &Token) -> Option<Shape>
    ensures { result ≡ target_shape_by names.now item token.now }
{
    match token {
        Token::Name(name) => match variable_in(names, item, name) {
            Some(declared) => match declared.used.role {
                Role::Declared(Thing::Global) => Some(Shape::Global),
                _ => Some(shape_of(names, &declared)),
            },
            None => None,
        },
        _ => None,
    }
}

/// What a token of an item is behind the dot.
fn field_shape(names: &[NameSpan], item: usize, token: &Token) -> Option<Shape>
    ensures { result ≡ field_shape_by names.now item token.now }
{
    match token {
        Token::Name(name) => match member_of(names, item, name) {
            Some(declared) => Some(shape_of(names, &declared)),
            None => None,
        },
        _ => None,
    }
}

pub fn typed(span: Option<Span>, shape: Option<Shape>) -> Option<Typed>
    ensures { result ≡ typed_by span shape }
{
    match (span, shape) {
        (Some(span), Some(shape)) => Some(Typed { span, shape }),
        _ => None,
    }
}

/// The token of this number, as a value.
fn value_at(
    names: &[NameSpan],
    item: usize,
    tokens: &[Token],
    spans: &[Span],
    number: usize,
) -> Option<Typed>
    ensures { result ≡ value_by names.now item tokens.now spans.now number }
{
    let shape = match tokens.get(number) {
        Some(token) => value_shape(names, item, token),
        None => None,
    };
    typed(spans.get(number).copied(), shape)
}

/// The token of this number, as what is assigned to.
fn target_at(
    names: &[NameSpan],
    item: usize,
    tokens: &[Token],
    spans: &[Span],
    number: usize,
) -> Option<Typed>
    ensures { result ≡ target_by names.now item tokens.now spans.now number }
{
    let shape = match tokens.get(number) {
        Some(token) => target_shape(names, item, token),
        None => None,
    };
    typed(spans.get(number).copied(), shape)
}

/// The bytes from one token to another.
fn joined(first: Option<Span>, last: Option<Span>) -> Option<Span>
    ensures { result ≡ joined_by first last }
{
    match (first, last) {
        (Some(first), Some(last)) => Some(Span {
            start: first.start,
            end: last.end,
        }),
        _ => None,
    }
}

/// The field that three tokens are, of which the first has this number.
fn member_at(
    names: &[NameSpan],
    item: usize,
    tokens: &[Token],
    spans: &[Span],
    number: usize,
) -> Option<Typed>
    requires { number < 8 }
    ensures { result ≡ member_by names.now item tokens.now spans.now number }
{
    let shape = match tokens.get(number + 2) {
        Some(token) => field_shape(names, item, token),
        None => None,
    };
    let span = joined(spans.get(number).copied(), spans.get(number + 2).copied());
    typed(span, shape)
}

/// A `new` object, with the name of its record.
fn made(whole: Option<Span>, name: Option<Span>) -> Option<Typed>
    ensures { result ≡ made_by whole name }
{
    match name {
        Some(name) => typed(whole, Some(Shape::Reference(name))),
        None => None,
    }
}

/// The object that is made by the third and the fourth of these tokens.
fn made_in(spans: &[Span]) -> Option<Typed>
    ensures { result ≡ made_by (joined_by (slice_get spans.now 2) (slice_get spans.now 3)) (slice_get spans.now 3) }
{
    let name = spans.get(3).copied();
    made(joined(spans.get(2).copied(), name), name)
}

fn one(part: Option<Typed>) -> Detail
    ensures { result ≡ one_by part }
{
    match part {
        Some(part) => Detail::Type(part),
        None => Detail::Nothing,
    }
}

pub fn two(left: Option<Typed>, right: Option<Typed>) -> Detail
    ensures { result ≡ two_by left right }
{
    match (left, right) {
        (Some(left), Some(right)) => Detail::Types(left, right),
        _ => Detail::Nothing,
    }
}

/// Of a load what is assigned to and the field, or the base, if that has no fields.
fn loaded(target: Option<Typed>, member: Option<Typed>, base: Option<Typed>) -> Detail
    ensures { result ≡ loaded_by target member base }
{
    match member {
        Some(_) => two(target, member),
        None => one(base),
    }
}

/// Of a store the field and the value, or the base, if that has no fields.
fn stored(member: Option<Typed>, value: Option<Typed>, base: Option<Typed>) -> Detail
    ensures { result ≡ stored_by member value base }
{
    match member {
        Some(_) => two(member, value),
        None => one(base),
    }
}

/// A part that is no integer, or else what is told otherwise.
fn unless_int(part: Option<Typed>, otherwise: Detail) -> Detail
    ensures { result ≡ unless_by part otherwise }
{
    match part {
        Some(part) => match part.shape {
            Shape::Int => otherwise,
            _ => Detail::Type(part),
        },
        None => otherwise,
    }
}

/// What is told of an item of these tokens, of this form, whose types don't agree. `spans` has the bytes of its tokens.
pub fn types_detail(
    names: &[NameSpan],
    item: usize,
    tokens: &[Token],
    spans: &[Span],
    form: Form,
) -> Detail
    ensures { result ≡ types_by names.now item tokens.now spans.now form }
{
    match form {
        Form::Print => one(value_at(names, item, tokens, spans, 1)),
        Form::Test => two(
            value_at(names, item, tokens, spans, 2),
            value_at(names, item, tokens, spans, 4),
        ),
        Form::Assign => two(
            target_at(names, item, tokens, spans, 0),
            value_at(names, item, tokens, spans, 2),
        ),
        Form::Compute => {
            let right = unless_int(value_at(names, item, tokens, spans, 4), Detail::Nothing);
            let left = unless_int(value_at(names, item, tokens, spans, 2), right);
            unless_int(target_at(names, item, tokens, spans, 0), left)
        }
        Form::New => two(target_at(names, item, tokens, spans, 0), made_in(spans)),
        Form::Load => loaded(
            target_at(names, item, tokens, spans, 0),
            member_at(names, item, tokens, spans, 2),
            value_at(names, item, tokens, spans, 2),
        ),
        Form::Store => stored(
            member_at(names, item, tokens, spans, 0),
            value_at(names, item, tokens, spans, 4),
            value_at(names, item, tokens, spans, 0),
        ),
        Form::Call | Form::Section | Form::Other => Detail::Nothing,
    }
}
