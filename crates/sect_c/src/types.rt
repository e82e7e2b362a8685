//! What variables and fields hold.

ghost use Rattle.std.specs.Prelude.{◌≡◌, ◌<◌, length};
ghost use Rattle.sect_types.specs.Environments.{IsInRange};
ghost use Rattle.sect_names.specs.Locks.{IsField, IsVariable};
ghost use Rattle.sect_emit.specs.Naming.{IsLocalOf};
ghost use Rattle.sect_c.specs.Naming.{field_type as field_by, local_type as local_by, variable_type as variable_by};

use sect_points::Variable;
use sect_types::{Field, Program, ValueType};

/// What a local of a thread holds.
pub fn local_type(program: &Program, thread: u16, local: u16) -> ValueType
    requires { IsLocalOf program.now thread local }
    ensures holds { result ≡ local_by program.now thread local }
    ensures there { IsInRange (length program.now.records) result }
{
    program.facts();
    program.locals()[thread as usize].as_slice()[local as usize]
}

/// What a field holds.
pub fn field_type(program: &Program, field: Field) -> ValueType
    requires { IsField program.now field }
    ensures holds { result ≡ field_by program.now field }
    ensures there { IsInRange (length program.now.records) result }
{
    program.facts();
    program.records()[field.of as usize].as_slice()[field.number as usize]
}

/// What a variable holds.
pub fn variable_type(program: &Program, variable: Variable) -> ValueType
    requires { IsVariable program.now variable }
    ensures holds { result ≡ variable_by program.now variable }
    ensures there { IsInRange (length program.now.records) result }
{
    program.facts();
    match variable {
        Variable::Global(global) => ValueType::Refers(program.globals()[global as usize]),
        Variable::Local(thread, local) => local_type(program, thread, local),
    }
}
