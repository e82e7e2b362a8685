//! What a name of a certificate stands for in a program: a variable or a field.

ghost use Rattle.std.specs.Prelude.{◌≡◌, ◌<◌, length, slice_index_or, [], IfSome, IsTrue, nat_eq};
ghost use Rattle.std.specs.Cmp.Lexicographic.{pointwise};
ghost use Rattle.sect_types.specs.Sight.{place, names_of_declared};
ghost use Rattle.sect_types.specs.LocalNames.{all_local_names, place_of_local, is_same_call as same_call};
ghost use Rattle.sect_types.specs.LocalNames.{is_same_local as same_local};
ghost use Rattle.sect_check.specs.Names.{local_named as local_by, field_named as field_by, referred as refers_to};
ghost use Rattle.sect_check.specs.Names.{record_of_variable as variable_record, record_of_field as field_record};

use sect_front::{Declaration, Name};
use sect_points::Variable;
use sect_types::{Field, LocalName, Program, ValueType};

/// Whether two names are one. Those of different lengths are told apart at once.
pub fn is_same_name(one: &Name, other: &Name) -> bool
    ensures tells { result ≡ pointwise nat_eq one.now other.now }
    ensures same { IsTrue result → one.now ≡ other.now }
{
    one.as_bytes().len() == other.as_bytes().len() && *one == *other
}

/// The number of the field of this name.
fn number_in(list: &[Declaration], name: &Name) -> Option<usize>
    ensures place { result ≡ place name.now (names_of_declared list.now) }
    ensures within { IfSome result (λ number. number < length list.now) }
{
    for number in 0..list.len() {
        if is_same_name(name, &list[number].name) {
            return Some(number);
        }
    }
    None
}

/// Whether two names are of no call, or of the same one.
fn is_same_call(one: Option<u32>, other: Option<u32>) -> bool
    ensures { result ≡ same_call one other }
{
    match one {
        None => other.is_none(),
        Some(call) => match other {
            None => false,
            Some(number) => call == number,
        },
    }
}

/// Whether a local is called so.
fn is_same_local(one: &LocalName, other: &LocalName) -> bool
    ensures { result ≡ same_local one.now other.now }
{
    is_same_call(one.call, other.call) && is_same_name(&one.name, &other.name)
}

/// The number of a thread's local that is called so.
fn local_number(program: &Program, thread: u16, name: &LocalName) -> Option<u16>
    requires { thread < length program.now.locals }
    ensures { result ≡ place_of_local name.now (slice_index_or (all_local_names program.now.source) thread []) }
{
    program.facts();
    let _facts = program.tree();
    let count = program.locals()[thread as usize].as_slice().len() as u16;
    for number in 0..count {
        if is_same_local(name, &program.local_name(thread, number)) {
            return Some(number);
        }
    }
    None
}

/// The local of a thread that is called so.
pub fn local_named(program: &Program, thread: u16, name: &LocalName) -> Option<Variable>
    requires { thread < length program.now.locals }
    ensures { result ≡ local_by program.now.source thread name.now }
{
    let number = local_number(program, thread, name)?;
    Some(Variable::Local(thread, number))
}

/// The field of this name of a record.
pub fn field_named(program: &Program, of: u16, name: &Name) -> Option<Field>
    ensures { result ≡ field_by program.now.source of name.now }
{
    program.facts();
    let shape = program.tree().records().get(of as usize)?;
    let number = number_in(shape.fields.as_slice(), name)?;
    Some(Field {
        of,
        number: number as u16,
    })
}

/// The record to whose objects a type refers.
fn referred(of: ValueType) -> Option<u16>
    ensures { result ≡ refers_to of }
{
    match of {
        ValueType::Int => None,
        ValueType::Refers(number) => Some(number),
    }
}

/// The record to whose objects a variable refers, if it is a reference.
pub fn record_of_variable(program: &Program, variable: Variable) -> Option<u16>
    ensures { result ≡ variable_record program.now variable }
{
    match variable {
        Variable::Global(number) => program.globals().get(number as usize).copied(),
        Variable::Local(thread, number) => {
            let types = program.locals().get(thread as usize)?;
            referred(*types.as_slice().get(number as usize)?)
        }
    }
}

/// The record to whose objects a field refers, if it is a reference.
pub fn record_of_field(program: &Program, field: Field) -> Option<u16>
    ensures { result ≡ field_record program.now field }
{
    let types = program.records().get(field.of as usize)?;
    referred(*types.as_slice().get(field.number as usize)?)
}
