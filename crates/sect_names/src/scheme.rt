//! What lock inference knows of a program.

ghost use Rattle.std.specs.Prelude.{◌≡◌, ◌≤◌, ◌↔◌, ◌<◌, ℕ, Some, Ok, Err, length, IsOkUnless, IfOk, OnOk, IfErr};
ghost use Rattle.sect_hints.specs.Hints.{ObeysHints};
ghost use Rattle.sect_names.specs.{declared.fault.SchemeFault.TheVariants.{Memory, BadK}, Schemes.{IsScheme}};
ghost use Rattle.sect_names.specs.Verdicts.{Judges};
ghost use Rattle.sect_points.specs.{Paths.{var}, Flow.{IsLeastFlow}, Partitions.{HasClass, IsParted}, Sets.{InSets}};
ghost use Rattle.sect_points.specs.Statements.{thread_actions};
ghost use Rattle.sect_types.specs.Programs.{sites_of};

use crate::fault::SchemeFault;
use crate::path::Path;
use sect_graph::{Graph, graph_of};
use sect_hints::{Guards, guards};
use sect_points::{Classes, Variable, class_of_path, classes, points_to};
use sect_types::Program;
use std::alloc::{AllocError, Global};
use std::marker::Model;

/// The most fields that a path may be allowed.
pub const MOST_PATH_FIELDS: u16 = 3;

/// A typed program whose hints obey the rules, and how many fields a path may have: with the classes of its sites, the
/// guards of its records and its control-flow graphs.
pub struct Scheme {
    program: Program,
    k: u16,
    classes: Classes,
    guards: Guards,
    graph: Graph,
}

impl Drop for Scheme {
    fn drop(self) {
        let Scheme {
            program: _,
            k: _,
            classes: _,
            guards: _,
            graph: _,
        } = self;
    }
}

impl Model for Scheme {
    ghost use Rattle.std.specs.Coded.{codes};
    ghost use Rattle.sect_front.specs.Coding.{block_code};
    ghost use Rattle.sect_types.specs.Coding.{statements_code};
    ghost use Rattle.sect_names.specs.Schemes.{SchemeView, IsScheme};

    ghost Value = { SchemeView };

    ghost coded = { Prim.hlevel (codes, block_code, statements_code) };

    ghost view = { λ s. record {
      program = s.program;
      most = s.k;
      classes = s.classes;
      guards = s.guards;
      graphs = s.graph;
    } };

    ghost invariant = { λ s. IsScheme (record {
      program = s.program;
      most = s.k;
      classes = s.classes;
      guards = s.guards;
      graphs = s.graph;
    }) };
}

/// Tests how many fields a path may have: `BadK` where `k` is above 3.
pub fn check_k(k: u16) -> Result<(), SchemeFault>
    ensures ok { OnOk result (k ≤ 3) }
    ensures err { IfErr result (λ fault. (fault ≡ BadK) × (3 < k)) }
{
    if k > MOST_PATH_FIELDS {
        return Err(SchemeFault::BadK);
    }
    Ok(())
}

/// Why a program has no scheme, and the program.
#[derive(Drop)]
pub struct Unguarded {
    pub fault: SchemeFault,
    pub program: Program,
}

/// The scheme of a program for paths of at most `k` fields. A program that has none is given back: with `BadK` where
/// `k` is above 3, else with the first fault of the hints.
pub fn guard(alloc: Global, program: Program, k: u16) -> Result<Scheme, Unguarded>
    ensures scheme { IfOk result (λ s. Judges program k (Ok s)) }
    ensures fault { IfErr result (λ u. Judges program k (Err u.fault)) }
    ensures only { k ≤ 3 → ObeysHints program → IfErr result (λ u. u.fault ≡ Memory) }
    ensures back { IfErr result (λ u. u.program ≡ program) }
{
    match parts_of(alloc, &program, k) {
        Ok((guards, classes, graph)) => Ok(Scheme {
            program,
            k,
            classes,
            guards,
            graph,
        }),
        Err(fault) => Err(Unguarded { fault, program }),
    }
}

/// The scheme of a program for paths of at most `k` fields: `BadK` where `k` is above 3, else the first fault of the
/// hints. `Memory` is answered only where a growth was refused.
pub fn scheme_of(alloc: Global, program: Program, k: u16) -> Result<Scheme, SchemeFault>
    ensures judges { Judges program k result }
    ensures only { k ≤ 3 → ObeysHints program → IsOkUnless result Memory }
{
    match guard(alloc, program, k) {
        Ok(scheme) => Ok(scheme),
        Err(unguarded) => Err(unguarded.fault),
    }
}

/// The guards, the classes and the graphs of a program's scheme, or the fault.
fn parts_of(
    alloc: Global,
    program: &Program,
    k: u16,
) -> Result<(Guards, Classes, Graph), SchemeFault>
    ensures few { OnOk result (k ≤ 3) }
    ensures obeys { OnOk result (ObeysHints program.now) }
    ensures scheme { IfOk result (λ parts. IsScheme (record {
      program = program.now;
      most = k;
      classes = parts.1;
      guards = parts.0;
      graphs = parts.2;
    })) }
    ensures refuses { IfErr result (λ fault. Judges program.now k (Err fault)) }
    ensures only { k ≤ 3 → ObeysHints program.now → IsOkUnless result Memory }
{
    check_k(k)?;
    let guards = guards(alloc, program)?;
    let classes = classes_of(alloc, program)?;
    let graph = graph_of(alloc, program)?;
    Ok((guards, classes, graph))
}

/// The classes of a program's sites.
fn classes_of(alloc: Global, program: &Program) -> Result<Classes, AllocError>
    ensures parted { IfOk result IsParted }
    ensures flow { IfOk result (λ c. IsLeastFlow (InSets c.sets) (thread_actions program.now)) }
    ensures sites { IfOk result (λ c. c.sets.sites ≡ length (sites_of program.now.globals program.now.texts)) }
{
    let classes = classes(alloc, points_to(alloc, program)?)?;
    Ok(classes)
}

impl Scheme {
    /// What a scheme keeps.
    pub fn facts(&self)
        ensures { IsScheme self.now }
    {
        let _facts = &self.program;
    }

    /// The program.
    pub fn program(&self) -> &Program
        ensures { result.now ≡ self.now.program }
    {
        &self.program
    }

    /// How many fields a path may have, 0 to 3.
    pub fn k(&self) -> u16
        ensures { result ≡ self.now.most }
    {
        self.k
    }

    /// The classes of the program's sites.
    pub fn classes(&self) -> &Classes
        ensures { result.now ≡ self.now.classes }
    {
        &self.classes
    }

    /// The guards of the program's records.
    pub fn guards(&self) -> &Guards
        ensures { result.now ≡ self.now.guards }
    {
        &self.guards
    }

    /// The control-flow graphs of the program.
    pub fn graph(&self) -> &Graph
        ensures { result.now ≡ self.now.graphs }
    {
        &self.graph
    }

    /// The class of a path: that of the objects that it may denote, none where it is always null.
    pub fn class_of(&self, path: &Path) -> Option<u16>
        ensures { (n : ℕ) → (result ≡ Some n) ↔ HasClass self.now.classes path.now n }
    {
        class_of_path(&self.classes, path.base(), path.fields())
    }

    /// The class of the path of a variable alone.
    pub fn class_of_variable(&self, variable: Variable) -> Option<u16>
        ensures { (n : ℕ) → (result ≡ Some n) ↔ HasClass self.now.classes (var variable) n }
    {
        class_of_path(&self.classes, variable, &[])
    }
}
