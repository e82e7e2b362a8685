//! Which global guards each record.

ghost use Rattle.std.specs.Prelude.{◌≡◌, ◌<◌, ℕ, IfOk, IsOkUnless};
ghost use Rattle.sect_types.specs.Sight.{names_of_globals};
ghost use Rattle.sect_hints.specs.{declared.fault.Rule.{Rule}, declared.fault.HintFault.TheVariants.{Memory}};
ghost use Rattle.sect_hints.specs.Hints.{ObeysHints, IsFirstFault, AreGuards, AreUnguarded};
ghost use Rattle.sect_hints.specs.{Faults.{hint_fault, Judges, Refuses}, Verdicts.{FindsNamed, Finds}};

use crate::fault::{HintFault, Rule};
use crate::globals::names_of;
use crate::guarding::Guards;
use indexmap::IndexSet;
use sect_front::Name;
use sect_types::Program;
use std::alloc::Global;

/// The guard that a lone hint names.
fn guard_named(program: &Program, names: &IndexSet<Name>, name: &Name) -> Result<u16, Rule>
    requires { names.now.keys ≡ names_of_globals program.now.source.globals }
    ensures { FindsNamed program.now name.now result }
{
    program.facts();
    let tree = program.tree();
    let Some(global) = names.get_index_of(name) else {
        return Err(Rule::NoSuchGlobal);
    };
    let own = program.globals()[global];
    if tree.records()[own as usize].hints.as_slice().is_empty() {
        Ok(global as u16)
    } else {
        Err(Rule::GuardIsGuarded)
    }
}

/// The guard of a record with these hints.
fn guard_of(program: &Program, names: &IndexSet<Name>, hints: &[Name]) -> Result<Option<u16>, Rule>
    requires { names.now.keys ≡ names_of_globals program.now.source.globals }
    ensures { Finds program.now hints.now result }
{
    match hints {
        [] => Ok(None),
        [name] => Ok(Some(guard_named(program, names, name)?)),
        _ => Err(Rule::HintTwice),
    }
}

/// The guard of each record, or the first record that a rule on hints is broken at: a record carries at most one hint;
/// that hint is the name of a global; and the record of that global carries no hint. In one record `HintTwice` comes
/// before `NoSuchGlobal`, and `NoSuchGlobal` before `GuardIsGuarded`. `Memory` is answered only where a growth was
/// refused.
pub fn guards(alloc: Global, program: &Program) -> Result<Guards, HintFault>
    // Guards are given for a program that breaks no rule, and a fault is the first one.
    ensures judges { Judges program.now result }
    // Where no rule is broken guards are given, unless memory runs out.
    ensures only { ObeysHints program.now → IsOkUnless result Memory }
    // The first fault is the answer, unless memory runs out.
    ensures refuses { (r : ℕ) (rule : Rule) → IsFirstFault program.now r rule
        → Refuses (hint_fault rule r) result }
    ensures guards { IfOk result (AreGuards program.now) }
    // What guards a record is an object of a record that nothing guards.
    ensures unguarded { IfOk result (AreUnguarded program.now) }
{
    judge(alloc, program)
}

/// The same, by what it finds.
fn judge(alloc: Global, program: &Program) -> Result<Guards, HintFault>
    ensures judges { Judges program.now result }
    ensures guards { IfOk result (AreGuards program.now) }
    ensures unguarded { IfOk result (AreUnguarded program.now) }
{
    program.facts();
    let tree = program.tree();
    let names = names_of(alloc, tree.globals())?;
    let mut list = Vec::new(alloc);
    for (number, of) in tree.records().iter().enumerate() {
        match guard_of(program, &names, of.hints.as_slice()) {
            Ok(guard) => list.push(guard)?,
            Err(rule) => return Err(rule.at(number as u16)),
        }
    }
    Ok(Guards::of(list))
}
