//! What operators and comparisons come to.

ghost use Rattle.std.specs.Prelude.{◌≡◌, true, SomeIff};
ghost use Rattle.sect_types.specs.Store.{same_datum};
ghost use Rattle.sect_types.specs.Meaning.{integer_of, result_of, fits, compares as compares_by, first_datum};

use sect_front::{Comparison, Operator};
use sect_types::{Datum, ValueType};

/// The number that a datum is; 0 for what is none, which a typed program doesn't ask for.
pub fn integer(datum: Datum) -> i64
    ensures { result ≡ integer_of datum }
{
    if let Datum::Number(number) = datum {
        number
    } else {
        0
    }
}

/// The sum, difference or product; none where it isn't an `i64`.
pub fn compute(operator: Operator, left: i64, right: i64) -> Option<i64>
    ensures { SomeIff result (fits (result_of operator left right) ≡ true) (result_of operator left right) }
{
    match operator {
        Operator::Add => left.checked_add(right),
        Operator::Subtract => left.checked_sub(right),
        Operator::Multiply => left.checked_mul(right),
    }
}

/// Whether the two are one.
fn same(left: Datum, right: Datum) -> bool
    ensures { result ≡ same_datum left right }
{
    left == right
}

/// Whether the two compare so. What isn't a number counts as 0 in `<` and `<=`.
pub fn compares(comparison: Comparison, left: Datum, right: Datum) -> bool
    ensures { result ≡ compares_by comparison left right }
{
    match comparison {
        Comparison::Equal => same(left, right),
        Comparison::NotEqual => !same(left, right),
        Comparison::Less => integer(left) < integer(right),
        Comparison::LessOrEqual => integer(left) <= integer(right),
    }
}

/// What a fresh field of a type holds, and a local at the start: 0 or null.
pub fn first(of: ValueType) -> Datum
    ensures { result ≡ first_datum of }
{
    match of {
        ValueType::Int => Datum::Number(0),
        ValueType::Refers(_) => Datum::Null,
    }
}
