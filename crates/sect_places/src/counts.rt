//! How many tokens the parts of a statement and of a declaration have.

ghost use Rattle.std.specs.Prelude.{◌≡◌, ◌^◌, ◌<◌};
ghost use Rattle.sect_places.specs.Counts.{primitive_count as primitive_count_by, locking_count as locking_count_by};
ghost use Rattle.sect_places.specs.Counts.{operands_count as operands_count_by};
ghost use Rattle.sect_places.specs.Counts.{parameters_count as parameters_count_by};

use sect_front::{Declaration, Locking, Operand, Primitive};

pub fn primitive_count(primitive: &Primitive) -> usize
    ensures count { result ≡ primitive_count_by primitive.now }
    ensures some { 2 < result }
{
    match primitive {
        Primitive::Print(_) => 3,
        Primitive::Assign(_, _) => 4,
        Primitive::New(_, _) => 5,
        Primitive::Compute(_, _, _, _) | Primitive::Load(_, _, _) | Primitive::Store(_, _, _) => 6,
    }
}

pub fn locking_count(locking: Locking) -> usize
    ensures { result ≡ locking_count_by locking }
{
    match locking {
        Locking::Inferred => 0,
        Locking::All => 1,
    }
}

pub fn operands_count(values: &[Operand]) -> usize
    requires { operands_count_by values.now < 2 ^ 64 }
    ensures { result ≡ operands_count_by values.now }
{
    match values {
        [] => 0,
        [_, others @ ..] => 1 + 2 * others.len(),
    }
}

pub fn parameters_count(list: &[Declaration]) -> usize
    requires { parameters_count_by list.now < 2 ^ 64 }
    ensures { result ≡ parameters_count_by list.now }
{
    match list {
        [] => 0,
        [_, others @ ..] => 2 + 3 * others.len(),
    }
}
