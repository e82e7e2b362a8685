//! Whether a condition holds of an outcome.

ghost use Rattle.std.specs.Prelude.{◌≡◌, Some, MatchResult};
ghost use Rattle.sect_questions.specs.Conditions.{at_path as at_path_by, times, value_of, holds as holds_by};
ghost use Rattle.sect_questions.specs.Conditions.{is_ended, HasGreat, HasGreatPart};

use crate::condition::{Condition, Value};
use crate::known::{Known, compute};
use sect_store::{Outcome, Store};
use sect_types::{Datum, End, ObjectName};
use thiserror::Error;

/// Why it isn't told whether a condition holds: a sum in it is beyond 128 bits.
#[derive(Clone, Copy, Debug, Error)]
#[error("a sum is beyond 128 bits")]
pub struct TooGreat;

/// What stands at the end of a path of fields; none where it looks through what is no reference.
fn at_path(store: &Store, from: Datum, fields: &[u16]) -> Option<Datum>
    ensures { result ≡ at_path_by store.now fields.now from }
{
    match fields {
        [] => Some(from),
        [field, rest @ ..] => match from {
            Datum::Refers(name) => match store.object(name) {
                None => None,
                Some(object) => match object.fields().get(*field as usize) {
                    None => None,
                    Some(next) => at_path(store, *next, rest),
                },
            },
            _ => None,
        },
    }
}

/// How often the number stands among these.
fn times_in(output: &[i64], wanted: i64) -> usize
    ensures { result ≡ times wanted output.now }
{
    output.iter().filter(|number| **number == wanted).count()
}

/// What a value comes to in an outcome; none where there is no such value.
fn find(outcome: &Outcome, value: &Value) -> Result<Option<Known>, TooGreat>
    ensures { MatchResult result
        (λ known. known ≡ value_of outcome.now value.now) (λ why. HasGreatPart outcome.now value.now) }
{
    match value {
        Value::Number(number) => Ok(Some(Known::Number(i128::from(*number)))),
        Value::Null => Ok(Some(Known::Null)),
        Value::Path(global, fields) => {
            let from = Datum::Refers(ObjectName::Global(*global));
            Ok(at_path(outcome.store(), from, fields.as_slice()).map(Known::of))
        }
        Value::Printed(place) => match outcome.output().get(*place) {
            None => Ok(None),
            Some(number) => Ok(Some(Known::Number(i128::from(*number)))),
        },
        Value::PrintedCount => Ok(Some(Known::Number(outcome.output().len() as i128))),
        Value::TimesPrinted(number) => {
            let times = times_in(outcome.output(), *number);
            Ok(Some(Known::Number(times as i128)))
        }
        Value::Computed(operator, left, right) => {
            match (find(outcome, left)?, find(outcome, right)?) {
                (Some(one), Some(other)) => match compute(*operator, one, other) {
                    None => Err(TooGreat),
                    Some(number) => Ok(Some(Known::Number(number))),
                },
                _ => Ok(None),
            }
        }
    }
}

/// Whether the thread of this number has ended so.
fn has_ended(ends: &[Option<End>], thread: u16, wanted: Option<End>) -> bool
    ensures { result ≡ is_ended ends.now thread wanted }
{
    match ends.get(thread as usize) {
        None => false,
        Some(end) => *end == wanted,
    }
}

/// Whether the condition holds of the outcome, unless a sum in it is too great to tell.
pub fn holds(outcome: &Outcome, condition: &Condition) -> Result<bool, TooGreat>
    ensures { MatchResult result
        (λ answer. answer ≡ holds_by outcome.now condition.now) (λ why. HasGreat outcome.now condition.now) }
{
    match condition {
        Condition::Compares(left, comparison, right) => {
            match (find(outcome, left)?, find(outcome, right)?) {
                (Some(one), Some(other)) => Ok(one.compares(*comparison, other)),
                _ => Ok(false),
            }
        }
        Condition::Ends(thread, end) => Ok(has_ended(outcome.ends(), *thread, *end)),
        Condition::Prints(numbers) => Ok(outcome.output() == numbers.as_slice()),
        Condition::Not(inner) => Ok(!holds(outcome, inner)?),
        Condition::Both(one, other) => Ok(holds(outcome, one)? && holds(outcome, other)?),
        Condition::Either(one, other) => Ok(holds(outcome, one)? || holds(outcome, other)?),
    }
}
