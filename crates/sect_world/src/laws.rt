//! Laws of the machine. The functions have empty bodies; the clauses say the laws.

ghost use Rattle.std.specs.Prelude.{ℕ, List};
ghost use Rattle.sect_emit.specs.{Compiled.{CompiledView, IsCompiled, AreSetsLeast}, State.{State}};
ghost use Rattle.sect_world.specs.{declared.event.Event.{Event}, Events.{Happens}, Runs.{IsRun}, Held.{HoldsEnough}};
ghost use Rattle.sect_world.specs.{Accesses.{ChangesAreAccesses, StepsLookWhereTheyLoad}, Kept.{IsWellKept}};
ghost use Rattle.sect_world.specs.Laws.{StatesAreWellKept, NoStateIsStuck, SomethingHappens, AccessesAreHeld};
ghost use Rattle.sect_world.specs.{Laws.{EveryRunIsSerial, EveryOrderIsRun}, Excluding.{ReadersAndWritersExclude}};
ghost use Rattle.sect_world.specs.{HeldPaths.{HoldersHoldTheClass, BeginningsAreHeld, NeededPathsStay}, Secured.{Good}};
ghost use Rattle.sect_world.specs.Together.{ClashingSectionsExclude, ClashWherePathsMeet, ClashOnNoTakenKey};
ghost use Rattle.sect_world.specs.Together.{ClashOnNoHeldKey};
ghost use Rattle.sect_world.specs.{Staying.{HeldObjectsStay}, Stretches.{StretchesAreRuns}};
ghost use Rattle.sect_world.specs.SerialFacts.{OnlySectionsDiffer, SectionsAreReplayed};

use sect_conflicts::{plans_clash_where_paths_meet, sections_that_go_together_never_clash};

/// Each state of a run of a compiled program is well kept, and good: each thread holds the classes of the objects that
/// it holds, and has secured what it still needs.
pub fn states_are_well_kept()
    ensures kept { (c : CompiledView) → IsCompiled c → StatesAreWellKept c }
    ensures good { (c : CompiledView) → IsCompiled c → (fuel : ℕ) (trace : List Event) (s : State)
        → IsRun c fuel trace s → Good c s }
    ensures events { (c : CompiledView) → IsCompiled c → (s after : State) (e : Event) → Good c s → Happens c s e after
        → IsWellKept c after → Good c after }
{}

/// No state of a run of a compiled program is stuck.
pub fn no_state_is_stuck()
    ensures { (c : CompiledView) → IsCompiled c → NoStateIsStuck c }
{}

/// While some thread hasn't ended, some event is enabled.
pub fn something_happens()
    ensures { (c : CompiledView) → IsCompiled c → SomethingHappens c }
{}

/// In each state of a run each thread in a section holds strongly enough what its next step loads from, stores to or
/// makes; in a good state it does, too.
pub fn every_access_is_held()
    ensures runs { (c : CompiledView) → IsCompiled c → AccessesAreHeld c }
    ensures good { (c : CompiledView) → IsCompiled c → (s : State) → Good c s → (t : ℕ) → HoldsEnough c s t }
{}

/// The access that the definitions name for a step is all that it has to do with objects: it changes none but by that,
/// and depends on none but the one that it loads from.
pub fn accesses_are_all_there_is()
    ensures changes { ChangesAreAccesses }
    ensures loads { StepsLookWhereTheyLoad }
{}

/// In no state of a run may a thread read what another may write.
pub fn readers_and_writers_exclude()
    ensures { (c : CompiledView) → IsCompiled c → ReadersAndWritersExclude c }
{}

/// Sections that are said to exclude each other in every state are in progress together in no state of a run.
pub fn clashing_sections_exclude_each_other()
    ensures { (c : CompiledView) → IsCompiled c → ClashingSectionsExclude c }
{}

/// Of two sections that aren't said to exclude each other in every state, the plans that threads make in two states of
/// a run clash exactly where a pair of the paths that are named denotes one object, each path in its state.
pub fn sections_clash_where_paths_meet()
    ensures { (c : CompiledView) → IsCompiled c → ClashWherePathsMeet c }
{
    plans_clash_where_paths_meet();
}

/// While one of two sections that go together is in progress, the mode in which it has taken a key goes with the one in
/// which the other wants that key first. A third thread may hold the key too, or wait for it in front, and keep the
/// other waiting so. With the least sets so it is with all that the first holds: the key of an object that the section
/// has made itself, which it holds without a `take`, is one that the other never asks for.
pub fn sections_that_go_together_clash_on_no_key()
    ensures taken { (c : CompiledView) → IsCompiled c → ClashOnNoTakenKey c }
    ensures held { (c : CompiledView) → IsCompiled c → AreSetsLeast c → ClashOnNoHeldKey c }
{
    sections_that_go_together_never_clash();
}

/// In each state of a run each thread holds, with the key of an object, that of its class; in a section it may read
/// what the beginnings of the paths denote that it still needs; and what these paths denote, other threads leave.
pub fn needed_paths_are_held()
    ensures classes { (c : CompiledView) → IsCompiled c → HoldersHoldTheClass c }
    ensures beginnings { (c : CompiledView) → IsCompiled c → BeginningsAreHeld c }
    ensures stay { (c : CompiledView) → IsCompiled c → NeededPathsStay c }
{}

/// In each run the store differs from what the sections that have left come to, run whole in their order, only in
/// objects that sections in progress may write; and each of these can be replayed from there as far as it has come.
pub fn the_store_follows_the_sections()
    ensures differ { (c : CompiledView) → IsCompiled c → OnlySectionsDiffer c }
    ensures replayed { (c : CompiledView) → IsCompiled c → SectionsAreReplayed c }
{}

/// While a thread is in a section and makes no event, it stays as it is, and so does each object that it may read,
/// whatever the others do. So what a section reads is the same whether it reads at once or late.
pub fn held_objects_stay()
    ensures { (c : CompiledView) → IsCompiled c → HeldObjectsStay c }
{}

/// A stretch that was run apart is a run of its thread from each world in which the thread is where the stretch begins,
/// with the same work, and whose store shows what the stretch knew then.
pub fn stretches_are_runs()
    ensures { (c : CompiledView) → IsCompiled c → StretchesAreRuns c }
{}

/// Each complete run of a compiled program comes to what whole sections come to, one after another in the order of the
/// `leave` events.
pub fn every_run_is_serial()
    ensures { (c : CompiledView) → IsCompiled c → EveryRunIsSerial c }
{}

/// Each order in which whole sections come to an end is the order of the `leave` events of a complete run, which comes
/// to that end. So whole sections in all orders come to exactly what complete runs come to.
pub fn every_order_is_run()
    ensures { (c : CompiledView) → IsCompiled c → EveryOrderIsRun c }
{}
