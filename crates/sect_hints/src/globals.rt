//! The globals by name.

ghost use Rattle.std.specs.Prelude.{◌≡◌, IfOk};
ghost use Rattle.sect_types.specs.Sight.{names_of_globals};
ghost use Rattle.sect_hints.specs.Names.{AreDifferent};

use indexmap::IndexSet;
use sect_front::{GlobalObject, Name};
use std::alloc::{AllocError, Global};

/// The names of the globals, each at its number.
pub fn names_of(alloc: Global, globals: &[GlobalObject]) -> Result<IndexSet<Name>, AllocError>
    requires { AreDifferent (names_of_globals globals.now) }
    ensures { IfOk result (λ names. names.keys ≡ names_of_globals globals.now) }
{
    let mut names = IndexSet::new(alloc);
    for global in globals {
        names.insert(global.name)?;
    }
    Ok(names)
}
