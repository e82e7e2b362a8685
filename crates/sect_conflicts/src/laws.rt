//! Laws of what is told of two sections. The functions have empty bodies; the clauses say the laws.

ghost use Rattle.sect_emit.specs.Compiled.{CompiledView, IsCompiled};
ghost use Rattle.sect_conflicts.specs.Laws.{PlansAlwaysClash, PlansClashWherePathsMeet, PlansNeverClash};
ghost use Rattle.sect_conflicts.specs.Laws.{PlansGoTogetherAtTheStart};

/// Where two sections are said to exclude each other in every state, their plans clash in every state.
pub fn sections_always_clash()
    ensures { (c : CompiledView) → PlansAlwaysClash c }
{}

/// Else their plans clash exactly where some pair of the paths that are named denotes one object, each path as its plan
/// is made.
pub fn plans_clash_where_paths_meet()
    ensures { (c : CompiledView) → IsCompiled c → PlansClashWherePathsMeet c }
{}

/// Where two sections are said to go together, their plans don't clash, whenever each of them is made.
pub fn sections_that_go_together_never_clash()
    ensures { (c : CompiledView) → IsCompiled c → PlansNeverClash c }
{}

/// Two sections that aren't said to exclude each other in every state have a state in which their plans don't clash:
/// the start of each run.
pub fn sections_may_go_together_at_the_start()
    ensures { (c : CompiledView) → PlansGoTogetherAtTheStart c }
{}
