//! The least rule of types that a statement breaks: a name in it isn't known, or its sides differ in type.

ghost use Rattle.std.specs.Prelude.{◌≡◌, ◌&&◌, is_some, true};
ghost use Rattle.sect_front.specs.declared.tree.Kind.TheVariants.{Int, Record};
ghost use Rattle.sect_types.specs.Rules.{has_field, local_accepts, local_is, local_gets, field_accepts, is_int};
ghost use Rattle.sect_types.specs.Rules.{compares};
ghost use Rattle.sect_types.specs.steps.Walks.{rule_in, of_types};

use crate::rules::resolve::{Denoted, Given, Looked, accepts, comparable, same_kind};
use crate::rules::rule::Rule;
use sect_front::{Comparison, Kind, Name};

/// Nothing if the sides agree.
fn agreed(agrees: bool) -> Result<(), Rule>
    ensures { rule_in result ≡ of_types true agrees }
{
    if agrees { Ok(()) } else { Err(Rule::WrongType) }
}

/// Whether a name denotes a local of this type.
fn is_local_of(denoted: &Denoted, kind: Kind) -> bool
    ensures { result ≡ local_is (Some denoted.now) kind }
{
    match denoted {
        Denoted::Local(_, own) => same_kind(*own, kind),
        Denoted::Global(_, _) => false,
    }
}

/// `to = from`
pub fn judge_assign(to: Option<Denoted>, from: Option<Given>) -> Result<(), Rule>
    ensures { rule_in result ≡ of_types (is_some to && is_some from) (local_accepts to from) }
{
    let Some(to) = to else {
        return Err(Rule::Unknown);
    };
    let Some(from) = from else {
        return Err(Rule::Unknown);
    };
    match to {
        Denoted::Local(_, kind) => agreed(accepts(kind, &from)),
        Denoted::Global(_, _) => Err(Rule::WrongType),
    }
}

/// `to = left + right`, with whatever operator.
pub fn judge_compute(
    to: Option<Denoted>,
    left: Option<Given>,
    right: Option<Given>,
) -> Result<(), Rule>
    ensures { rule_in result ≡ of_types (is_some to && (is_some left && is_some right))
        (local_is to Int && is_int left && is_int right) }
{
    let Some(to) = to else {
        return Err(Rule::Unknown);
    };
    let Some(left) = left else {
        return Err(Rule::Unknown);
    };
    let Some(right) = right else {
        return Err(Rule::Unknown);
    };
    agreed(is_local_of(&to, Kind::Int) && accepts(Kind::Int, &left) && accepts(Kind::Int, &right))
}

/// `to = new of`, where it is given whether there is a record of this name.
pub fn judge_new(to: Option<Denoted>, of: Name, is_record: bool) -> Result<(), Rule>
    ensures { rule_in result ≡ of_types (is_some to && is_record) (local_is to (Record of)) }
{
    let Some(to) = to else {
        return Err(Rule::Unknown);
    };
    if !is_record {
        return Err(Rule::Unknown);
    }
    agreed(is_local_of(&to, Kind::Record(of)))
}

/// `to = from.field`
pub fn judge_load(to: Option<Denoted>, from: Option<Denoted>, field: &Looked) -> Result<(), Rule>
    ensures { rule_in result ≡ of_types (is_some to && (is_some from && has_field field.now))
        (local_gets to field.now) }
{
    let Some(to) = to else {
        return Err(Rule::Unknown);
    };
    if from.is_none() {
        return Err(Rule::Unknown);
    }
    match field {
        Looked::Missing => Err(Rule::Unknown),
        Looked::OfInt => Err(Rule::WrongType),
        Looked::At(at) => agreed(is_local_of(&to, at.kind)),
    }
}

/// `to.field = from`
pub fn judge_store(to: Option<Denoted>, field: &Looked, from: Option<Given>) -> Result<(), Rule>
    ensures { rule_in result ≡ of_types (is_some to && (has_field field.now && is_some from))
        (field_accepts field.now from) }
{
    if to.is_none() {
        return Err(Rule::Unknown);
    }
    let Some(from) = from else {
        return Err(Rule::Unknown);
    };
    match field {
        Looked::Missing => Err(Rule::Unknown),
        Looked::OfInt => Err(Rule::WrongType),
        Looked::At(at) => agreed(accepts(at.kind, &from)),
    }
}

/// `print given`
pub fn judge_print(given: Option<Given>) -> Result<(), Rule>
    ensures { rule_in result ≡ of_types (is_some given) (is_int given) }
{
    let Some(given) = given else {
        return Err(Rule::Unknown);
    };
    agreed(accepts(Kind::Int, &given))
}

/// `left comparison right`
pub fn judge_comparison(
    left: Option<Given>,
    comparison: Comparison,
    right: Option<Given>,
) -> Result<(), Rule>
    ensures { rule_in result ≡ of_types (is_some left && is_some right) (compares comparison left right) }
{
    let Some(left) = left else {
        return Err(Rule::Unknown);
    };
    let Some(right) = right else {
        return Err(Rule::Unknown);
    };
    agreed(comparable(comparison, &left, &right))
}
