//! The variables that the statements of a thread name.

ghost use Rattle.std.specs.Prelude.{◌≡◌};
ghost use Rattle.sect_points.specs.PathClasses.{variable_of, variable_in};
ghost use Rattle.sect_names.specs.Carrying.{locked_for};

use sect_points::Variable;
use sect_types::{Base, Value};

/// The variable of a base in this thread.
pub fn variable_of(thread: u16, base: Base) -> Variable
    ensures { result ≡ variable_of thread base }
{
    match base {
        Base::Global(number) => Variable::Global(number),
        Base::Local(number) => Variable::Local(thread, number),
    }
}

/// The variable of a value in this thread, if it is one.
pub fn variable_in(thread: u16, value: Value) -> Option<Variable>
    ensures { result ≡ variable_in thread value }
{
    match value {
        Value::Number(_) | Value::Null => None,
        Value::Local(number) => Some(Variable::Local(thread, number)),
        Value::Global(number) => Some(Variable::Global(number)),
    }
}

/// The variable whose lock stands for the object of a variable: that of the guard, where there is one.
pub fn locked_for(guard: Option<u16>, variable: Variable) -> Variable
    ensures { result ≡ locked_for guard variable }
{
    match guard {
        None => variable,
        Some(number) => Variable::Global(number),
    }
}
