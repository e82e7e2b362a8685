//! Which names tell of a mistake.

ghost use Rattle.std.specs.{Prelude.{◌≡◌, ◌<◌, IfOk, IfSome, true, length}, List.{list_all}};
ghost use Rattle.sect_places.specs.Declarations.{is_declaration as declaration_by};
ghost use Rattle.sect_lint.specs.steps.Wishes.{is_settled as settled_by, IsKnownBy, IsWish};

use sect_front::{Name, Tree};
use sect_places::{NameUse, Role, Wish, item_uses};
use sect_types::TypeFault;
use std::alloc::{AllocError, Global};

/// Whether a name is declared.
fn is_declaration(used: &NameUse) -> bool
    ensures { result ≡ declaration_by used.now.role }
{
    matches!(used.role, Role::Declared(_))
}

/// Whether a name is declared, or is this one and no field's.
fn is_settled(used: &NameUse, name: &Name) -> bool
    ensures { result ≡ settled_by name.now used.now }
{
    is_declaration(used) || (!matches!(used.role, Role::Field) && *name == used.name)
}

/// The first name that isn't declared.
fn first_reference(own: &[NameUse]) -> Option<usize>
    ensures { IfSome result (λ k. k < length own.now) }
{
    own.iter().position(|used| !is_declaration(used))
}

/// Whether all names are declared, or this one and no field's.
fn are_settled(own: &[NameUse], name: &Name) -> bool
    ensures { result ≡ list_all (settled_by name.now) own.now }
{
    own.iter().all(|used| is_settled(used, name))
}

/// The one name that isn't declared, unless it is a field's.
fn sole_reference(own: &[NameUse]) -> Option<Name>
    ensures { IfSome result (λ x. list_all (settled_by x) own.now ≡ true) }
{
    let name = own[first_reference(own)?].name;
    if are_settled(own, &name) {
        Some(name)
    } else {
        None
    }
}

/// The names that tell which one of an item nothing has.
fn known_by(alloc: Global, tree: &Tree, item: usize) -> Result<Wish, AllocError>
    ensures { IfOk result (IsKnownBy tree.now item) }
{
    let own = item_uses(alloc, tree, item)?;
    match sole_reference(own.as_slice()) {
        Some(name) => Ok(Wish::Known(item, name)),
        None => Ok(Wish::Mattering(item)),
    }
}

/// The names that tell of an item that breaks a rule on types.
pub fn wish_of(
    alloc: Global,
    tree: &Tree,
    item: usize,
    fault: &TypeFault,
) -> Result<Wish, AllocError>
    ensures { IfOk result (IsWish tree.now item fault.now) }
{
    match fault {
        TypeFault::Unknown { .. } => known_by(alloc, tree, item),
        TypeFault::Twice { item } => Ok(Wish::Declared(*item as usize)),
        TypeFault::Recursion { .. } => Ok(Wish::Procedures),
        _ => Ok(Wish::Mattering(item)),
    }
}
