//! The points-to sets of a program.

ghost use Rattle.std.specs.Prelude.{◌≡◌, length, IfOk, OnOk};
ghost use Rattle.sect_types.specs.Programs.{sites_of};
ghost use Rattle.sect_points.specs.{Flow.{IsLeastFlow}, Sets.{InSets, IsEmpty, SameHolders, AreBelow}};
ghost use Rattle.sect_points.specs.Statements.{thread_actions, IsRoomFor};

use crate::marks::Marks;
use crate::readers::{Readers, rows_for};
use crate::sets::PointsTo;
use crate::solving::close;
use crate::statements::placed_statements;
use sect_types::Program;
use std::alloc::{AllocError, Global};

/// The least sets that are closed under the program's statements, whatever their order: Andersen's inclusions.
pub fn points_to(alloc: Global, program: &Program) -> Result<PointsTo, AllocError>
    ensures least { IfOk result (λ sets. IsLeastFlow (InSets sets) (thread_actions program.now)) }
    ensures below { IfOk result AreBelow }
    ensures sites { IfOk result (λ sets. sets.sites ≡ length (sites_of program.now.globals program.now.texts)) }
{
    let mut sets = empty_sets(alloc, program)?;
    fill(alloc, program, &mut sets)?;
    Ok(sets)
}

/// Fills empty sets with the least that are closed under the program's statements.
fn fill(alloc: Global, program: &Program, sets: &mut PointsTo) -> Result<(), AllocError>
    requires room { IsRoomFor program.now sets.old }
    requires empty { IsEmpty sets.old }
    ensures least { OnOk result (IsLeastFlow (InSets sets.new) (thread_actions program.now)) }
    ensures below { OnOk result (AreBelow sets.new) }
    ensures places { OnOk result (SameHolders sets.old sets.new) }
{
    let readers = readers_of(alloc, program)?;
    let mut moved = empty_sets(alloc, program)?;
    fill_by(alloc, program, sets, &mut moved, &readers)
}

/// The program's statements, to be found by what they read.
fn readers_of(alloc: Global, program: &Program) -> Result<Readers, AllocError>
    ensures { IfOk result (λ readers. readers ≡ thread_actions program.now) }
{
    let statements = placed_statements(alloc, program)?;
    Ok(Readers::new(alloc, rows_for(program), statements)?)
}

/// The same by these readers, with other empty sets for what has been moved on.
fn fill_by(
    alloc: Global,
    program: &Program,
    sets: &mut PointsTo,
    moved: &mut PointsTo,
    readers: &Readers,
) -> Result<(), AllocError>
    requires room { IsRoomFor program.now sets.old }
    requires empty { IsEmpty sets.old }
    requires other { IsRoomFor program.now moved.old }
    requires unmoved { IsEmpty moved.old }
    requires readers { readers.now ≡ thread_actions program.now }
    ensures least { OnOk result (IsLeastFlow (InSets sets.new) (thread_actions program.now)) }
    ensures below { OnOk result (AreBelow sets.new) }
    ensures places { OnOk result (SameHolders sets.old sets.new) }
{
    program.facts();
    let mut marks = Marks::new(alloc, sets.locals().len())?;
    sets.bounds();
    moved.bounds();
    close(sets, moved, readers, &mut marks);
    Ok(())
}

/// An empty set for each local and for each field of each site.
fn empty_sets(alloc: Global, program: &Program) -> Result<PointsTo, AllocError>
    ensures room { IfOk result (IsRoomFor program.now) }
    ensures empty { IfOk result IsEmpty }
{
    program.facts();
    let mut sets = PointsTo::new(alloc, program.site_count())?;
    for locals in program.locals() {
        sets.add_thread(alloc, locals.as_slice().len())?;
    }
    Ok(sets)
}
