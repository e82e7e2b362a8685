//! Statements of a procedure among the locals of a thread.

ghost use Rattle.std.specs.Prelude.{◌≡◌, ◌+◌, ◌-◌};
ghost use Rattle.sect_types.specs.Expanded.{moved_value as moved_value_by, moved_base as moved_base_by};
ghost use Rattle.sect_types.specs.Expanded.{moved_action as moved_action_by, moved_condition as moved_condition_by};
ghost use Rattle.sect_types.specs.steps.Below.{IsValueBelow, IsBaseBelow, IsActionBelow, IsConditionBelow};

use crate::expansion::action::{Action, Base, Condition, Value};

/// The value, where the variables have the numbers from this one on.
pub fn moved_value(first: u16, value: Value) -> Value
    requires { IsValueBelow (65536 - first) value }
    ensures { result ≡ moved_value_by first value }
{
    match value {
        Value::Local(number) => Value::Local(first + number),
        Value::Number(_) | Value::Null | Value::Global(_) => value,
    }
}

fn moved_base(first: u16, base: Base) -> Base
    requires { IsBaseBelow (65536 - first) base }
    ensures { result ≡ moved_base_by first base }
{
    match base {
        Base::Local(number) => Base::Local(first + number),
        Base::Global(number) => Base::Global(number),
    }
}

/// The statement, where the variables have the numbers from this one on.
pub fn moved_action(first: u16, action: Action) -> Action
    requires { IsActionBelow (65536 - first) action }
    ensures { result ≡ moved_action_by first action }
{
    match action {
        Action::Assign(x, v) => Action::Assign(first + x, moved_value(first, v)),
        Action::Compute(x, v, operator, w) => Action::Compute(
            first + x,
            moved_value(first, v),
            operator,
            moved_value(first, w),
        ),
        Action::New(x, of, site) => Action::New(first + x, of, site),
        Action::Load(x, base, field) => Action::Load(first + x, moved_base(first, base), field),
        Action::Store(base, field, v) => {
            Action::Store(moved_base(first, base), field, moved_value(first, v))
        }
        Action::Print(v) => Action::Print(moved_value(first, v)),
    }
}

/// The condition, where the variables have the numbers from this one on.
pub fn moved_condition(first: u16, condition: Condition) -> Condition
    requires { IsConditionBelow (65536 - first) condition }
    ensures { result ≡ moved_condition_by first condition }
{
    Condition {
        left: moved_value(first, condition.left),
        comparison: condition.comparison,
        right: moved_value(first, condition.right),
    }
}
