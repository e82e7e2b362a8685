//! Which names of a tree are wanted.

ghost use Rattle.std.specs.Prelude.{◌≡◌};
ghost use Rattle.sect_places.specs.Declarations.{is_declaration as is_declaration_by};
ghost use Rattle.sect_places.specs.Mattering.{matters_to_all as matters_to_all_by, is_wanted as is_wanted_by};

use crate::name_use::{Role, Thing};
use sect_front::Name;

/// Which names of a tree are wanted.
#[derive(Clone, Copy)]
pub enum Wish {
    All,
    /// Those that matter to what is told of an item: its own, and of all others those that are declared, types, guards
    /// or called.
    Mattering(usize),
    /// Those of an item.
    Own(usize),
    /// Those of an item, and those by which things of this name are declared.
    Known(usize, Name),
    /// Those that are declared in an item or before it.
    Declared(usize),
    /// Those of procedures, as they are declared and called.
    Procedures,
}

/// Whether a name may matter to an item in which it doesn't stand.
fn matters_to_all(role: Role) -> bool
    ensures { result ≡ matters_to_all_by role }
{
    matches!(
        role,
        Role::Declared(_) | Role::Type | Role::Guard | Role::Procedure
    )
}

fn is_declaration(role: Role) -> bool
    ensures { result ≡ is_declaration_by role }
{
    matches!(role, Role::Declared(_))
}

impl Wish {
    /// Whether a name is wanted that does this in an item.
    pub fn takes(&self, item: usize, role: Role, name: &Name) -> bool
        ensures { result ≡ is_wanted_by self.now item role name.now }
    {
        match self {
            Wish::All => true,
            Wish::Mattering(own) => item == *own || matters_to_all(role),
            Wish::Own(own) => item == *own,
            Wish::Known(own, known) => item == *own || (is_declaration(role) && *known == *name),
            Wish::Declared(last) => item <= *last && is_declaration(role),
            Wish::Procedures => {
                matches!(role, Role::Declared(Thing::Procedure) | Role::Procedure)
            }
        }
    }
}
