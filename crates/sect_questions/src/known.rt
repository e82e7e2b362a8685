//! What a value of a condition comes to.

ghost use Rattle.std.specs.Prelude.{◌≡◌, SomeIff, true};
ghost use Rattle.sect_types.specs.{Meaning.{result_of}, Store.{same_name}};
ghost use Rattle.sect_questions.specs.Conditions.{known_of, whole_of, is_within, same_known, compares_known};

use sect_front::{Comparison, Operator};
use sect_types::{Datum, ObjectName};

/// What a value of a condition comes to.
#[derive(Clone, Copy)]
pub enum Known {
    Number(i128),
    Null,
    /// A reference to the object of this name.
    Refers(ObjectName),
}

/// Whether both name one object.
fn is_same_name(name: ObjectName, other: ObjectName) -> bool
    ensures { result ≡ same_name name other }
{
    name == other
}

impl Known {
    /// What a local or a field holds.
    pub fn of(datum: Datum) -> Known
        ensures { result ≡ known_of datum }
    {
        match datum {
            Datum::Number(number) => Known::Number(i128::from(number)),
            Datum::Null => Known::Null,
            Datum::Refers(name) => Known::Refers(name),
        }
    }

    /// The number that it is; 0 where it is none.
    fn whole(self) -> i128
        ensures { result ≡ whole_of self }
    {
        if let Known::Number(number) = self {
            number
        } else {
            0
        }
    }

    /// Whether the two are one.
    fn is_same(self, other: Known) -> bool
        ensures { result ≡ same_known self other }
    {
        match (self, other) {
            (Known::Number(number), Known::Number(second)) => number == second,
            (Known::Null, Known::Null) => true,
            (Known::Refers(name), Known::Refers(second)) => is_same_name(name, second),
            _ => false,
        }
    }

    /// Whether the two compare so. What isn't a number counts as 0 in `<` and `<=`.
    pub fn compares(self, comparison: Comparison, other: Known) -> bool
        ensures { result ≡ compares_known comparison self other }
    {
        match comparison {
            Comparison::Equal => self.is_same(other),
            Comparison::NotEqual => !self.is_same(other),
            Comparison::Less => self.whole() < other.whole(),
            Comparison::LessOrEqual => self.whole() <= other.whole(),
        }
    }
}

/// The sum, difference or product; none where it isn't an `i128`. What isn't a number counts as 0.
pub fn compute(operator: Operator, left: Known, right: Known) -> Option<i128>
    ensures { let n = result_of operator (whole_of left) (whole_of right) in SomeIff result (is_within n ≡ true) n }
{
    match operator {
        Operator::Add => left.whole().checked_add(right.whole()),
        Operator::Subtract => left.whole().checked_sub(right.whole()),
        Operator::Multiply => left.whole().checked_mul(right.whole()),
    }
}
