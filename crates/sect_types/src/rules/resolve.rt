//! What names and operands denote, by numbers and with their types.

ghost use Rattle.std.specs.Prelude.{◌≡◌};
ghost use Rattle.sect_types.specs.Sight.{kind_of as kind_by};
ghost use Rattle.sect_types.specs.Kinds.{same_kind as same_kind_by, accepts as accepts_by};
ghost use Rattle.sect_types.specs.Kinds.{of_one_kind as of_one_kind_by, comparable as comparable_by};
ghost use Rattle.sect_types.specs.Numbered.{base_by, value_at as value_at_by, value_by};

use crate::expansion::action::{Base, Field, Value};
use sect_front::{Comparison, Kind, Literal, Name};

/// What a name denotes: a local with its number and its type, or a global with its number and the name of its record.
#[derive(Clone, Copy)]
pub enum Denoted {
    Local(u16, Kind),
    Global(u16, Name),
}

/// What an operand denotes.
#[derive(Clone, Copy)]
pub enum Given {
    Number(Literal),
    Null,
    Base(Denoted),
}

/// A field, with its type as it is written.
#[derive(Clone, Copy)]
pub struct FieldAt {
    pub field: Field,
    pub kind: Kind,
}

/// What stands behind a dot.
#[derive(Clone, Copy)]
pub enum Looked {
    /// The base or the field isn't known.
    Missing,
    /// The base is an integer, which has no fields.
    OfInt,
    At(FieldAt),
}

/// Whether two types are the same.
pub fn same_kind(a: Kind, b: Kind) -> bool
    ensures { result ≡ same_kind_by a b }
{
    match a {
        Kind::Int => matches!(b, Kind::Int),
        Kind::Record(r) => match b {
            Kind::Int => false,
            Kind::Record(s) => r == s,
        },
    }
}

/// The type of what a name denotes.
pub fn kind_of(denoted: &Denoted) -> Kind
    ensures { result ≡ kind_by denoted.now }
{
    match denoted {
        Denoted::Local(_, kind) => *kind,
        Denoted::Global(_, of) => Kind::Record(*of),
    }
}

/// Whether a local or a field of this type can be set to the operand.
pub fn accepts(kind: Kind, given: &Given) -> bool
    ensures { result ≡ accepts_by kind given.now }
{
    match given {
        Given::Number(_) => matches!(kind, Kind::Int),
        Given::Null => matches!(kind, Kind::Record(_)),
        Given::Base(denoted) => same_kind(kind, kind_of(denoted)),
    }
}

/// Whether two operands are both integers, or both references of one record.
pub fn of_one_kind(left: &Given, right: &Given) -> bool
    ensures { result ≡ of_one_kind_by left.now right.now }
{
    match left {
        Given::Number(_) => accepts(Kind::Int, right),
        Given::Null => match right {
            Given::Number(_) => false,
            Given::Null => true,
            Given::Base(denoted) => matches!(kind_of(denoted), Kind::Record(_)),
        },
        Given::Base(denoted) => accepts(kind_of(denoted), right),
    }
}

/// Whether the comparison may stand between the two operands.
pub fn comparable(comparison: Comparison, left: &Given, right: &Given) -> bool
    ensures { result ≡ comparable_by comparison left.now right.now }
{
    match comparison {
        Comparison::Equal | Comparison::NotEqual => of_one_kind(left, right),
        Comparison::Less | Comparison::LessOrEqual => accepts(Kind::Int, left)
            && accepts(Kind::Int, right),
    }
}

/// What a name denotes, without its type.
pub fn base(denoted: Denoted) -> Base
    ensures { result ≡ base_by denoted }
{
    match denoted {
        Denoted::Local(number, _) => Base::Local(number),
        Denoted::Global(number, _) => Base::Global(number),
    }
}

fn value_at(denoted: Denoted) -> Value
    ensures { result ≡ value_at_by denoted }
{
    match denoted {
        Denoted::Local(number, _) => Value::Local(number),
        Denoted::Global(number, _) => Value::Global(number),
    }
}

/// The value of an operand.
pub fn value(given: Given) -> Value
    ensures { result ≡ value_by given }
{
    match given {
        Given::Number(n) => Value::Number(n),
        Given::Null => Value::Null,
        Given::Base(denoted) => value_at(denoted),
    }
}
