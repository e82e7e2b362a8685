//! What is told of the declarations of a text.

ghost use Rattle.std.specs.{Prelude.{◌≡◌, ◌++◌, IfOk, OnOk, map}, List.{flat_map}};
ghost use Rattle.sect_warnings.specs.Spares.{spare_at as spare_at_by, unused_at, hint_at, AreSpares};

use crate::placed::Placed;
use crate::warning::{Spare, Told};
use sect_front::Span;
use sect_lint::{idle_hints, unused_names};
use sect_names::Scheme;
use sect_places::{NameSpan, Role};
use std::alloc::{AllocError, Global};

/// What is told of a declaration, at these bytes.
fn spare_at(alloc: Global, span: Span, spare: Spare) -> Result<Placed, AllocError>
    ensures { IfOk result (λ placed. placed ≡ spare_at_by span spare) }
{
    let note = String::from_str(alloc, spare.note())?;
    let told = Told::Declaration(spare);
    Ok(Placed::new(told, span, String::new(alloc), note))
}

/// Adds that nothing uses what is declared, where a name declares something.
fn add_unused(alloc: Global, found: &mut Vec<Placed>, named: &NameSpan) -> Result<(), AllocError>
    ensures { OnOk result (found.new.items ≡ found.old.items ++ unused_at named.now) }
{
    if let Role::Declared(thing) = named.used.role {
        found.push(spare_at(alloc, named.span, Spare::Unused(thing))?)?;
    }
    Ok(())
}

/// Adds that nothing uses what these names declare.
fn put_unused(alloc: Global, found: &mut Vec<Placed>, names: &[NameSpan]) -> Result<(), AllocError>
    ensures { OnOk result (found.new.items ≡ found.old.items ++ flat_map unused_at names.now) }
{
    for named in names {
        add_unused(alloc, found, named)?;
    }
    Ok(())
}

/// Adds that the hints of these records have nothing to protect.
fn put_hints(alloc: Global, found: &mut Vec<Placed>, records: &[NameSpan]) -> Result<(), AllocError>
    ensures { OnOk result (found.new.items ≡ found.old.items ++ map hint_at records.now) }
{
    for named in records {
        found.push(spare_at(alloc, named.span, Spare::Hint)?)?;
    }
    Ok(())
}

/// What is told of the declarations of a text with these names: what is never used, and then which hints have nothing
/// to protect.
pub fn spares(alloc: Global, scheme: &Scheme, names: &[NameSpan]) -> Result<Vec<Placed>, AllocError>
    ensures { IfOk result (λ found. AreSpares scheme.now names.now found.items) }
{
    let unused = unused_names(alloc, names)?;
    let idle = idle_hints(alloc, scheme, names)?;
    let mut found = Vec::new(alloc);
    put_unused(alloc, &mut found, unused.as_slice())?;
    put_hints(alloc, &mut found, idle.as_slice())?;
    Ok(found)
}
