//! Statements in a row.

ghost use Rattle.std.specs.Prelude.{◌≡◌, ◌++◌, ◌∷◌, [], OnOk, true};
ghost use Rattle.sect_lemmas.specs.Lists.{Has};

use crate::holders::ThreadAction;
use sect_types::{Action, Base, Field, Value};
use std::alloc::{AllocError, Global};
use std::marker::Model;
use std::slice;

/// Where the statements of a row stand: most rows have one at most, which takes no room elsewhere.
#[derive(Drop)]
pub enum Standing {
    Nothing,
    Alone(ThreadAction),
    Many(Vec<ThreadAction>),
}

/// Statements, each maybe more than once.
#[derive(Drop)]
pub struct Row {
    statements: Standing,
}

impl Model for Row {
    ghost use Rattle.std.specs.Prelude.{List};
    ghost use Rattle.sect_points.specs.declared.holders.ThreadAction.{ThreadAction as APlaced};
    ghost use Rattle.sect_points.specs.steps.Standing.{standing_there};

    ghost Value = { List APlaced };

    ghost view = { λ r. standing_there r.statements };
}

impl Row {
    /// No statement.
    pub fn new() -> Row
        ensures { result ≡ [] }
    {
        Row {
            statements: Standing::Nothing,
        }
    }

    /// Adds a statement.
    pub fn push(&mut self, alloc: Global, placed: &ThreadAction) -> Result<(), AllocError>
        ensures { OnOk result (self.new ≡ self.old ++ placed.now ∷ []) }
    {
        match &mut self.statements {
            Standing::Nothing => self.statements = Standing::Alone(*placed),
            Standing::Alone(first) => {
                let mut many = Vec::with_capacity(alloc, 4)?;
                many.push_reserved(*first);
                many.push_reserved(*placed);
                self.statements = Standing::Many(many);
            }
            Standing::Many(many) => many.push(*placed)?,
        }
        Ok(())
    }

    /// Whether a statement stands in the row behind those of other threads.
    pub fn has(&self, placed: &ThreadAction) -> bool
        ensures { result ≡ true → Has self.now placed.now }
    {
        let statements = self.as_slice();
        let count = statements.len();
        // One that is there was mostly put not long ago.
        for later in 0..count {
            let put = &statements[count - 1 - later];
            if put.thread != placed.thread {
                return false;
            }
            if is_same(put, placed) {
                return true;
            }
        }
        false
    }

    /// The statements.
    pub fn as_slice(&self) -> &[ThreadAction]
        ensures { result.now ≡ self.now }
    {
        match &self.statements {
            Standing::Nothing => &[],
            Standing::Alone(only) => slice::from_ref(only),
            Standing::Many(many) => many.as_slice(),
        }
    }
}

/// Whether two statements are one assignment, one load or one store.
fn is_same(left: &ThreadAction, right: &ThreadAction) -> bool
    ensures { result ≡ true → left.now ≡ right.now }
{
    left.thread == right.thread && is_same_action(&left.action, &right.action)
}

/// Whether two actions are one assignment, one load or one store.
fn is_same_action(left: &Action, right: &Action) -> bool
    ensures { result ≡ true → left.now ≡ right.now }
{
    match (left, right) {
        (Action::Assign(to, value), Action::Assign(other, sum)) => {
            *to == *other && is_same_value(*value, *sum)
        }
        (Action::Load(to, base, field), Action::Load(other, origin, part)) => {
            *to == *other && is_same_base(*base, *origin) && is_same_field(*field, *part)
        }
        (Action::Store(base, field, value), Action::Store(other, part, sum)) => {
            is_same_base(*base, *other)
                && is_same_field(*field, *part)
                && is_same_value(*value, *sum)
        }
        _ => false,
    }
}

/// Whether two bases are one.
fn is_same_base(left: Base, right: Base) -> bool
    ensures { result ≡ true → left ≡ right }
{
    match (left, right) {
        (Base::Local(local), Base::Local(other)) => local == other,
        (Base::Global(global), Base::Global(other)) => global == other,
        _ => false,
    }
}

/// Whether two fields are one.
fn is_same_field(left: Field, right: Field) -> bool
    ensures { result ≡ true → left ≡ right }
{
    left.of == right.of && left.number == right.number
}

/// Whether two values are one local, one global or null.
fn is_same_value(left: Value, right: Value) -> bool
    ensures { result ≡ true → left ≡ right }
{
    match (left, right) {
        (Value::Local(local), Value::Local(other)) => local == other,
        (Value::Global(global), Value::Global(other)) => global == other,
        (Value::Null, Value::Null) => true,
        _ => false,
    }
}
