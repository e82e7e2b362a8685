//! When statements are the same.

ghost use Rattle.std.specs.Prelude.{◌≡◌, ◌↔◌, IsTrue, option_copied};
ghost use Rattle.sect_types.specs.{Statements.{Stop}, Texts.{step_then}};
ghost use Rattle.sect_serial.specs.steps.Rests.{Begins, after_first};

use crate::rest::{Part, Rest};
use sect_types::{Action, Condition, Step, Text, Value};
use std::marker::Model;

/// Statements that are read one after another: those of a block from some statement on, and then those of the parts of
/// a rest, the last part first.
#[derive(Drop)]
pub struct Statements<'r, 'a> {
    steps: &'a [Step],
    parts: &'r [Part<'a>],
}

impl<'r, 'a> Model for Statements<'r, 'a> {
    ghost use Rattle.sect_types.specs.Statements.{TextView, joined};
    ghost use Rattle.sect_types.specs.Texts.{statements_of};
    ghost use Rattle.sect_types.specs.Coding.{statements_code};
    ghost use Rattle.sect_serial.specs.steps.Rests.{rest_of, AreFull};

    ghost Value = { TextView };

    ghost coded = { statements_code };

    ghost view = { λ s. joined (statements_of s.steps.now) (rest_of s.parts.now) };

    ghost invariant = { λ s. AreFull s.parts.now };
}

impl<'r, 'a> Statements<'r, 'a> {
    /// All of a text.
    fn of(text: &'a Text) -> Statements<'r, 'a>
        ensures { result ≡ text.now }
    {
        Statements {
            steps: text.as_slice(),
            parts: &[],
        }
    }

    /// All of a rest.
    pub fn left_in(rest: &'r Rest<'a>) -> Statements<'r, 'a>
        ensures { result ≡ rest.now }
    {
        Statements {
            steps: &[],
            parts: rest.parts(),
        }
    }

    /// Reads the next statement.
    fn next(&mut self) -> Option<&'a Step>
        ensures next { Begins (option_copied result) self.old }
        ensures rest { self.new ≡ after_first self.old }
    {
        if let [step, rest @ ..] = self.steps {
            self.steps = rest;
            return Some(step);
        }
        let [below @ .., part] = self.parts else {
            return None;
        };
        let [step, rest @ ..] = part.steps() else {
            unreachable!();
        };
        self.steps = rest;
        self.parts = below;
        Some(step)
    }
}

/// Whether two values are the same.
fn same_value(left: Value, right: Value) -> bool
    ensures { IsTrue result ↔ (left ≡ right) }
{
    left == right
}

/// Whether two conditions are the same.
fn same_condition(left: Condition, right: Condition) -> bool
    ensures { IsTrue result ↔ (left ≡ right) }
{
    same_value(left.left, right.left)
        && left.comparison == right.comparison
        && same_value(left.right, right.right)
}

/// Whether two statements without blocks are the same.
fn same_action(left: Action, right: Action) -> bool
    ensures { IsTrue result ↔ (left ≡ right) }
{
    match (left, right) {
        (Action::Assign(x, v), Action::Assign(y, w)) => x == y && same_value(v, w),
        (Action::Compute(x, v, o, a), Action::Compute(y, w, p, b)) => {
            x == y && same_value(v, w) && o == p && same_value(a, b)
        }
        (Action::New(x, r, s), Action::New(y, q, t)) => x == y && r == q && s == t,
        (Action::Load(x, a, f), Action::Load(y, b, g)) => x == y && a == b && f == g,
        (Action::Store(a, f, v), Action::Store(b, g, w)) => a == b && f == g && same_value(v, w),
        (Action::Print(v), Action::Print(w)) => same_value(v, w),
        _ => false,
    }
}

/// Whether two statements are the same, with all statements in them.
#[cycle(same)]
fn same_step(left: &Step, right: &Step) -> bool
    ensures { IsTrue result ↔ (step_then left.now Stop ≡ step_then right.now Stop) }
{
    match (left, right) {
        (Step::Do(a), Step::Do(b)) => same_action(*a, *b),
        (Step::If(c, yes, no), Step::If(d, then, other)) => {
            same_condition(*c, *d)
                && same_statements(Statements::of(yes), Statements::of(then))
                && same_statements(Statements::of(no), Statements::of(other))
        }
        (Step::While(c, body), Step::While(d, other)) => {
            same_condition(*c, *d) && same_statements(Statements::of(body), Statements::of(other))
        }
        (Step::Section(n, body), Step::Section(m, other)) => {
            *n == *m && same_statements(Statements::of(body), Statements::of(other))
        }
        _ => false,
    }
}

/// Whether all statements are the same, however they are cut into parts.
#[cycle(same)]
pub fn same_statements(mut left: Statements<'_, '_>, mut right: Statements<'_, '_>) -> bool
    ensures { IsTrue result ↔ (left.entry ≡ right.entry) }
{
    loop {
        match (left.next(), right.next()) {
            (None, None) => return true,
            (Some(ours), Some(theirs)) => {
                if !same_step(ours, theirs) {
                    return false;
                }
            }
            _ => return false,
        }
    }
}
