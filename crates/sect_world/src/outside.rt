//! Moves of a thread outside sections, into a section and to its beginning.

ghost use Rattle.std.specs.Prelude.{◌≡◌, ◌<◌, ℕ, List, [], ◌∷◌, true, false, None, drop, length, slice_get, Some, IfOk};
ghost use Rattle.std.specs.Prelude.{OnOk, OnErr};
ghost use Rattle.sect_types.specs.{Statements.{TextView, Section}, Programs.{environment_at}, Sections.{sections_of}};
ghost use Rattle.sect_types.specs.{Sound.{IsSound}, Meaning.{begins_step}, Whole.{local_step}};
ghost use Rattle.sect_graph.specs.{declared.flow.Node.{Node}, Rests.{rest_at}};
ghost use Rattle.sect_table.specs.Contents.{held_by};
ghost use Rattle.sect_emit.specs.{Plan.{meets as meets_by, object_wishes}, Compiled.{program_of}, Graphed.{text_at}};
ghost use Rattle.sect_emit.specs.State.{plan_at};
ghost use Rattle.sect_world.specs.{declared.runner.Phase.TheVariants.{Entered, Running}, Waiting.{grips}};
ghost use Rattle.sect_world.specs.Viewing.{frame_of};
ghost use Rattle.sect_world.specs.steps.Moves.{StepsLocally};

use crate::moving::{Step, chosen, run_node};
use crate::plans::{put_objects, put_plan, wish_of};
use crate::runner::{Phase, Runner};
use sect_emit::{Compiled, Grip};
use sect_modes::at_least;
use sect_names::Lock;
use sect_store::{Store, Work};
use sect_table::Table;
use sect_types::{End, Fault};
use std::alloc::{AllocError, Global};

/// Runs the statement or test of a node of a thread's own graph: the node at which control goes on, or the fault that
/// it comes to. Outside a section a statement leaves the store as it is. Where memory is refused nothing has changed.
fn run_outside(
    alloc: Global,
    step: Step<'_>,
    work: &mut Work,
    store: &mut Store,
) -> Result<Result<u16, Fault>, AllocError>
    requires thread { step.thread < length (program_of step.compiled.now).texts }
    requires flow { slice_get step.compiled.now.scheme.graphs.threads step.thread ≡ Some step.flow.now }
    requires node { step.node < length step.flow.now }
    requires step { begins_step (rest_at (text_at step.compiled.now step.thread) step.node) ≡ true }
    requires sound { IsSound (environment_at (program_of step.compiled.now) step.thread) false
        (rest_at (text_at step.compiled.now step.thread) step.node) }
    ensures steps { IfOk result (λ went. StepsLocally step.entry.compiled.now step.entry.thread
        (rest_at (text_at step.entry.compiled.now step.entry.thread) step.entry.node)
        work.old store.old store.new went work.new) }
    ensures refused { OnErr result ((work.new ≡ work.old) × (store.new ≡ store.old)) }
{
    step.compiled.facts();
    run_node(alloc, step, work, store)
}

/// A thread outside sections runs its next statement or test. At the end of its text it has ended. Where memory is
/// refused nothing has changed.
pub fn step_outside(
    alloc: Global,
    compiled: &Compiled,
    thread: u16,
    runner: &mut Runner,
    store: &mut Store,
) -> Result<(), AllocError>
    requires thread { thread < length (program_of compiled.now).texts }
    requires alive { runner.old.ended ≡ None }
    requires node { (g : List Node) → slice_get compiled.now.scheme.graphs.threads thread ≡ Some g
        → runner.old.node < length g }
    requires step { begins_step (rest_at (text_at compiled.now thread) runner.old.node) ≡ true }
    requires sound { IsSound (environment_at (program_of compiled.now) thread) false
        (rest_at (text_at compiled.now thread) runner.old.node) }
    ensures steps { OnOk result (frame_of (text_at compiled.now thread) runner.new
        ≡ local_step (program_of compiled.now) thread (frame_of (text_at compiled.now thread) runner.old)) }
    ensures phase { runner.new.phase ≡ runner.old.phase }
    ensures wanted { (runner.new.wanted ≡ runner.old.wanted) × (runner.new.taken ≡ runner.old.taken) }
    ensures store { store.new ≡ store.old }
    ensures refused { OnErr result (runner.new ≡ runner.old) }
{
    compiled.facts();
    let flow = compiled.scheme().graph().thread(thread);
    let step = Step {
        compiled,
        thread,
        flow,
        node: runner.node,
    };
    match run_outside(alloc, step, &mut runner.work, store)? {
        Ok(next) => {
            runner.node = next;
            if next >= flow.exit() {
                runner.ended = Some(End::Done);
            }
        }
        Err(fault) => runner.ended = Some(End::Failed(fault)),
    }
    Ok(())
}

/// A thread that comes to a section wants what the section's plan asks for in this state. Where memory is refused
/// nothing has changed. `objects` is room for those that are asked for.
pub fn enter(
    compiled: &Compiled,
    section: u16,
    runner: &mut Runner,
    store: &Store,
    objects: &mut Vec<Grip>,
) -> Result<(), AllocError>
    requires { section < length (sections_of (program_of compiled.now).texts) }
    ensures phase { OnOk result (runner.new.phase ≡ Entered) }
    ensures wanted { OnOk result (drop runner.new.taken runner.new.wanted.items
        ≡ plan_at compiled.now section store.now runner.old.work.locals) }
    ensures frame { OnOk result ((text : TextView) → frame_of text runner.new ≡ frame_of text runner.old) }
    ensures refused { OnErr result (runner.new ≡ runner.old) }
{
    compiled.facts();
    put_objects(objects, store, &runner.work, compiled.set(section))?;
    put_plan(
        &mut runner.wanted,
        compiled.part(section),
        objects.as_slice(),
    )?;
    runner.taken = 0;
    runner.phase = Phase::Entered;
    Ok(())
}

/// Whether a thread holds each key of a plan at least as strongly.
fn meets(table: &Table, thread: u16, plan: &[Grip]) -> bool
    requires { thread < length table.now.held }
    ensures { result ≡ meets_by (grips (held_by table.now thread)) plan.now }
{
    for grip in plan {
        match table.held(thread, grip.key) {
            None => return false,
            Some(mode) => {
                if !at_least(mode, grip.mode) {
                    return false;
                }
            }
        }
    }
    true
}

/// Whether a thread holds a key at least as strongly as this.
fn has(table: &Table, thread: u16, grip: Grip) -> bool
    requires { thread < length table.now.held }
    ensures { result ≡ meets_by (grips (held_by table.now thread)) (grip ∷ []) }
{
    match table.held(thread, grip.key) {
        None => false,
        Some(mode) => at_least(mode, grip.mode),
    }
}

/// Whether a thread holds the object that a lock asks for in this state, if it asks for one.
fn has_object(table: &Table, thread: u16, lock: &Lock, store: &Store, work: &Work) -> bool
    requires { thread < length table.now.held }
    ensures { result ≡ meets_by (grips (held_by table.now thread))
        (object_wishes store.now work.now.locals (lock.now ∷ [])) }
{
    match wish_of(store, work, lock) {
        None => true,
        Some(grip) => has(table, thread, grip),
    }
}

/// Whether a thread holds each object that a lock set asks for in this state.
fn has_objects(table: &Table, thread: u16, locks: &[Lock], store: &Store, work: &Work) -> bool
    requires { thread < length table.now.held }
    ensures { result ≡ meets_by (grips (held_by table.now thread))
        (object_wishes store.now work.now.locals locks.now) }
{
    for lock in locks {
        if !has_object(table, thread, lock, store, work) {
            return false;
        }
    }
    true
}

/// A thread that has entered a section.
#[derive(Clone, Copy)]
pub struct Entrant {
    pub thread: u16,
    pub section: u16,
}

/// Whether the plan of a section for a thread in this state is met by what it holds. The plan isn't made for that.
pub fn is_met(
    compiled: &Compiled,
    entrant: Entrant,
    runner: &Runner,
    store: &Store,
    table: &Table,
) -> bool
    requires section { entrant.section < length (sections_of (program_of compiled.now).texts) }
    requires thread { entrant.thread < length table.now.held }
    ensures { result ≡ meets_by (grips (held_by table.now entrant.thread))
        (plan_at compiled.now entrant.section store.now runner.now.work.locals) }
{
    compiled.facts();
    let Entrant { thread, section } = entrant;
    meets(table, thread, compiled.part(section))
        && has_objects(table, thread, compiled.set(section), store, &runner.work)
}

/// A thread whose plan is met begins its section; after it the thread goes on where its own graph leads.
pub fn begin(compiled: &Compiled, thread: u16, section: u16, runner: &mut Runner)
    requires thread { thread < length (program_of compiled.now).texts }
    requires node { (g : List Node) → slice_get compiled.now.scheme.graphs.threads thread ≡ Some g
        → runner.old.node < length g }
    ensures phase { runner.new.phase ≡ Running section 0 }
    ensures text { (i : ℕ) (body rest : TextView)
        → rest_at (text_at compiled.now thread) runner.old.node ≡ Section i body rest
        → rest_at (text_at compiled.now thread) runner.new.node ≡ rest }
    ensures wanted { (runner.new.wanted ≡ runner.old.wanted) × (runner.new.taken ≡ runner.old.taken) }
    ensures work { (runner.new.work ≡ runner.old.work) × (runner.new.ended ≡ runner.old.ended) }
{
    compiled.facts();
    let flow = compiled.scheme().graph().thread(thread);
    runner.phase = Phase::Running(section, 0);
    runner.node = chosen(flow.succ(runner.node), true);
}
