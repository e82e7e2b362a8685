//! What a statement does with the value of a local.

ghost use Rattle.std.specs.Prelude.{◌≡◌};
ghost use Rattle.sect_flows.specs.Flows.{is_local as is_local_by, keeps as keeps_by, set_by as set_by_by};

use sect_types::{Action, Label, Value};

fn is_local(value: Value, local: u16) -> bool
    ensures { result ≡ is_local_by value local }
{
    match value {
        Value::Local(own) => own == local,
        _ => false,
    }
}

/// Whether a local is left as it is.
pub fn keeps(label: &Label, local: u16) -> bool
    ensures { result ≡ keeps_by label.now local }
{
    match label {
        Label::Act(Action::Assign(target, _))
        | Label::Act(Action::Compute(target, _, _, _))
        | Label::Act(Action::New(target, _, _))
        | Label::Act(Action::Load(target, _, _)) => *target != local,
        _ => true,
    }
}

/// The local that is set by the value of this one, if one is.
pub fn set_by(label: &Label, local: u16) -> Option<u16>
    ensures { result ≡ set_by_by label.now local }
{
    match label {
        Label::Act(Action::Assign(target, value)) if is_local(*value, local) => Some(*target),
        Label::Act(Action::Compute(target, left, _, right))
            if is_local(*left, local) || is_local(*right, local) => { Some(*target) }
        _ => None,
    }
}
