//! Which sections exclude each other, as JSON.

ghost use Rattle.std.specs.{Prelude.{◌≡◌, IfOk, map}, String.{string_bytes}};
ghost use Rattle.serde_json.specs.View.{view};
ghost use Rattle.sect_json.specs.Values.{list};
ghost use Rattle.sect_json.specs.Conflicts.{IsConflictsDocument, conflicts_json, section_pair_json, modes_json};
ghost use Rattle.sect_json.specs.Conflicts.{path_pair_json};
ghost use Rattle.sect_conflicts.specs.Naming.{IsPairNamed, ArePairsNamed, IsConflictNamed, AreConflictsNamed};

use crate::keys::{key_value, mode_value};
use crate::locks::path_value;
use crate::writing::document;
use sect_conflicts::{Conflict, KeyClash, PathPair, SectionPair, conflicts};
use sect_emit::Compiled;
use sect_object::Members;
use sect_types::Program;
use serde_json::{Value, json};
use std::alloc::{AllocError, Global};

/// Which sections of a compiled program exclude each other: a value for each pair of sections of different threads, in
/// the order of section numbers.
pub fn conflicts_document(alloc: Global, compiled: &Compiled) -> Result<String, AllocError>
    ensures { IfOk result (λ text. IsConflictsDocument compiled.now (string_bytes text)) }
{
    compiled.facts();
    let pairs = conflicts(alloc, compiled)?;
    let value = conflicts_value(alloc, compiled.scheme().program(), pairs.as_slice())?;
    document(alloc, &value)
}

/// What there is to tell.
fn conflicts_value(
    alloc: Global,
    program: &Program,
    pairs: &[SectionPair],
) -> Result<Value, AllocError>
    requires { AreConflictsNamed program.now pairs.now }
    ensures { IfOk result (λ v. view v ≡ conflicts_json program.now pairs.now) }
{
    json!(in alloc; {"pairs": section_pairs_value(alloc, program, pairs)?})
}

/// All pairs of sections.
fn section_pairs_value(
    alloc: Global,
    program: &Program,
    pairs: &[SectionPair],
) -> Result<Value, AllocError>
    requires { AreConflictsNamed program.now pairs.now }
    ensures { IfOk result (λ v. view v ≡ list (map (section_pair_json program.now) pairs.now)) }
{
    let mut values = Vec::new(alloc);
    for pair in pairs {
        values.push(section_pair_value(alloc, program, pair)?)?;
    }
    Ok(Value::Array(values))
}

/// Two sections, and how they meet.
fn section_pair_value(
    alloc: Global,
    program: &Program,
    pair: &SectionPair,
) -> Result<Value, AllocError>
    requires { IsConflictNamed program.now pair.now.conflict }
    ensures { IfOk result (λ v. view v ≡ section_pair_json program.now pair.now) }
{
    let (first, second) = (pair.first, pair.second);
    match &pair.conflict {
        Conflict::Always(clash) => {
            let members = Members::new(alloc)
                .with("first", first)?
                .with_made("key", key_value(alloc, program, clash.key))?
                .with("meet", "exclude")?
                .with_made("modes", modes_value(alloc, clash))?
                .with("second", second)?;
            Ok(members.object())
        }
        Conflict::Sometimes(pairs) => {
            let members = Members::new(alloc)
                .with("first", first)?
                .with("meet", "where")?
                .with_made("paths", path_pairs_value(alloc, program, pairs.as_slice()))?
                .with("second", second)?;
            Ok(members.object())
        }
        Conflict::Never => {
            let members = Members::new(alloc)
                .with("first", first)?
                .with("meet", "together")?
                .with("second", second)?;
            Ok(members.object())
        }
    }
}

/// The modes in which both sections ask for a key.
fn modes_value(alloc: Global, clash: &KeyClash) -> Result<Value, AllocError>
    ensures { IfOk result (λ v. view v ≡ modes_json clash.now) }
{
    json!(in alloc; [mode_value(alloc, clash.first)?, mode_value(alloc, clash.second)?])
}

/// Pairs of paths.
fn path_pairs_value(
    alloc: Global,
    program: &Program,
    pairs: &[PathPair],
) -> Result<Value, AllocError>
    requires { ArePairsNamed program.now pairs.now }
    ensures { IfOk result (λ v. view v ≡ list (map (path_pair_json program.now.source) pairs.now)) }
{
    let mut values = Vec::new(alloc);
    for pair in pairs {
        values.push(path_pair_value(alloc, program, pair)?)?;
    }
    Ok(Value::Array(values))
}

/// Two paths.
fn path_pair_value(alloc: Global, program: &Program, pair: &PathPair) -> Result<Value, AllocError>
    requires { IsPairNamed program.now pair.now }
    ensures { IfOk result (λ v. view v ≡ path_pair_json program.now.source pair.now) }
{
    let members = Members::new(alloc)
        .with_made("first", path_value(alloc, program, &pair.first))?
        .with_made("second", path_value(alloc, program, &pair.second))?;
    Ok(members.object())
}
