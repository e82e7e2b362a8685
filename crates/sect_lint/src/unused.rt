//! What is declared and never used.

ghost use Rattle.std.specs.{Prelude.{◌≡◌, ◌↔◌, ◌⊎◌, IfOk, OnOk, filter}, List.{flat_map}};
ghost use Rattle.sect_lemmas.specs.Lists.{Has};
ghost use Rattle.sect_lint.specs.Unused.{mentions, declared_by, referent_of as referent_by, AreUnused};
ghost use Rattle.sect_lint.specs.steps.Spare.{is_spare as spare_by};

use indexmap::IndexSet;
use sect_front::Name;
use sect_places::{NameSpan, Role, Thing};
use std::alloc::{AllocError, Global};

/// What a name may refer to. A local has the item of its thread or procedure.
#[derive(Clone, Copy, PartialEq, Eq, Hash)]
pub enum Referent {
    Record(Name),
    Global(Name),
    Procedure(Name),
    Local(usize, Name),
}

/// Adds what is referred to.
fn add(referents: &mut IndexSet<Referent>, referent: Referent) -> Result<(), AllocError>
    ensures { OnOk result ((r : Referent) → Has referents.new.keys r ↔ (Has referents.old.keys r ⊎ (r ≡ referent))) }
{
    referents.insert(referent)?;
    Ok(())
}

/// Adds what a name may refer to.
fn add_mentions(referents: &mut IndexSet<Referent>, named: &NameSpan) -> Result<(), AllocError>
    ensures { OnOk result ((r : Referent) → Has referents.new.keys r
        ↔ (Has referents.old.keys r ⊎ Has (mentions named.now) r)) }
{
    let used = named.used;
    match used.role {
        Role::Type => add(referents, Referent::Record(used.name)),
        Role::Guard => add(referents, Referent::Global(used.name)),
        Role::Target | Role::Base | Role::Operand(_) => {
            add(referents, Referent::Local(used.scope, used.name))?;
            add(referents, Referent::Global(used.name))
        }
        Role::Procedure => add(referents, Referent::Procedure(used.name)),
        Role::Field | Role::Declared(_) => Ok(()),
    }
}

/// What names may refer to.
fn all_mentions(alloc: Global, names: &[NameSpan]) -> Result<IndexSet<Referent>, AllocError>
    ensures { IfOk result (λ referents. (r : Referent) → Has referents.keys r ↔ Has (flat_map mentions names.now) r) }
{
    let mut referents = IndexSet::new(alloc);
    for named in names {
        add_mentions(&mut referents, named)?;
    }
    Ok(referents)
}

/// What is declared, but for fields and threads.
fn declared(scope: usize, name: Name, thing: Thing) -> Option<Referent>
    ensures { result ≡ declared_by scope name thing }
{
    match thing {
        Thing::Record => Some(Referent::Record(name)),
        Thing::Global => Some(Referent::Global(name)),
        Thing::Procedure => Some(Referent::Procedure(name)),
        Thing::Local => Some(Referent::Local(scope, name)),
        Thing::Field | Thing::Thread => None,
    }
}

/// What a name declares, but for fields and threads.
fn referent_of(named: &NameSpan) -> Option<Referent>
    ensures { result ≡ referent_by named.now }
{
    match named.used.role {
        Role::Declared(thing) => declared(named.used.scope, named.used.name, thing),
        _ => None,
    }
}

/// Whether a name declares what isn't among these.
fn is_spare(referents: &IndexSet<Referent>, named: &NameSpan) -> bool
    ensures { result ≡ spare_by referents.now.keys (referent_by named.now) }
{
    match referent_of(named) {
        Some(referent) => !referents.contains(&referent),
        None => false,
    }
}

/// The names that declare what isn't among these.
fn spare_names(
    alloc: Global,
    referents: &IndexSet<Referent>,
    names: &[NameSpan],
) -> Result<Vec<NameSpan>, AllocError>
    ensures { IfOk result (λ list. list.items
        ≡ filter (λ n. spare_by referents.now.keys (referent_by n)) names.now) }
{
    let mut list = Vec::new(alloc);
    for named in names {
        if is_spare(referents, named) {
            list.push(*named)?;
        }
    }
    Ok(list)
}

/// The names that are declared and never used, in text order: records, globals, procedures, locals and parameters.
pub fn unused_names(alloc: Global, names: &[NameSpan]) -> Result<Vec<NameSpan>, AllocError>
    ensures { IfOk result (λ list. AreUnused names.now list.items) }
{
    let referents = all_mentions(alloc, names)?;
    spare_names(alloc, &referents, names)
}
