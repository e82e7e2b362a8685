//! What is said beside the carets of a mistake, where that takes the place of no name but of those in the item.

ghost use Rattle.std.specs.Prelude.{◌≡◌, ◌<◌, ◌&&◌, IfOk, IfSome, length, position, true};
ghost use Rattle.sect_lint.specs.steps.Plain.{IsPlainBy, is_plain as is_plain_by, is_declared_there, use_limit};

use crate::call_counts::opened_counts;
use crate::diagnostic::Detail;
use crate::limit::Limit;
use sect_front::{Token, Tree};
use sect_places::{NameUse, Opening, Role, item_uses};
use sect_types::TypeFault;
use std::alloc::{AllocError, Global};

/// Whether a name is declared in an item.
fn is_declared_in(used: &NameUse, item: usize) -> bool
    ensures { result ≡ is_declared_there item used.now }
{
    used.item == item && matches!(used.role, Role::Declared(_))
}

/// The first name that is declared in an item.
fn declared_in(uses: &[NameUse], item: usize) -> Option<usize>
    ensures is { result ≡ position (is_declared_there item) uses.now }
    ensures within { IfSome result (λ k. k < length uses.now) }
{
    uses.iter().position(|used| is_declared_in(used, item))
}

/// The limit that an item of these tokens may pass, where these are the names of the tree.
fn limit_in(uses: &[NameUse], item: usize, tokens: &[Token]) -> Limit
    ensures { result ≡ use_limit uses.now (position (is_declared_there item) uses.now) tokens.now }
{
    match declared_in(uses, item) {
        Some(number) => match uses[number].role {
            Role::Declared(thing) => Limit::of_thing(thing),
            _ => Limit::of_statement(tokens),
        },
        None => Limit::of_statement(tokens),
    }
}

/// Whether what is said of an item that breaks this rule takes the place of no name but of those in the item.
pub fn is_plain(fault: &TypeFault) -> bool
    ensures { result ≡ is_plain_by fault.now }
{
    matches!(
        fault,
        TypeFault::TooMany { .. }
            | TypeFault::Arguments { .. }
            | TypeFault::SharedOutside { .. }
            | TypeFault::Nested { .. }
    )
}

/// What is said of an item that breaks this rule, if that takes the place of no other name. The first of its tokens are
/// kept.
pub fn plain_detail(
    alloc: Global,
    tree: &Tree,
    opening: &Opening,
    fault: &TypeFault,
) -> Result<Detail, AllocError>
    ensures { IfOk result (λ told. is_plain_by fault.now ≡ true → IsPlainBy tree.now opening.now fault.now told) }
{
    match fault {
        TypeFault::TooMany { item } => {
            let uses = item_uses(alloc, tree, *item as usize)?;
            let tokens = opening.tokens.as_slice();
            let limit = limit_in(uses.as_slice(), *item as usize, tokens);
            Ok(Detail::Limit(limit))
        }
        TypeFault::Arguments { .. } => Ok(opened_counts(tree.procedures(), opening)),
        _ => Ok(Detail::Nothing),
    }
}
