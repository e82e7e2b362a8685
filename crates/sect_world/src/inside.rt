//! Moves of a thread in a section.

ghost use Rattle.std.specs.Prelude.{◌≡◌, ◌<◌, ℕ, List, [], length, slice_get, Some, true, Option, IfOk, OnOk, OnErr};
ghost use Rattle.sect_types.specs.{Statements.{TextView}, Programs.{ProgramView}, Sections.{sections_of}};
ghost use Rattle.sect_types.specs.Store.{ObjectView};
ghost use Rattle.sect_types.specs.Meaning.{next, begins_step, one, Went, Added};
ghost use Rattle.sect_types.specs.declared.expansion.action.Action.TheVariants.{New};
ghost use Rattle.sect_types.specs.declared.meaning.store.ObjectName.TheVariants.{Made};
ghost use Rattle.sect_graph.specs.{declared.flow.Node.{Node}, Rests.{Begins, rest_at}};
ghost use Rattle.sect_modes.specs.declared.mode.Mode.TheVariants.{Exclusive};
ghost use Rattle.sect_store.specs.Undoing.{without_last};
ghost use Rattle.sect_table.specs.{declared.claims.Answer.TheVariants.{Granted}, Contents.{entry_of, held_by}};
ghost use Rattle.sect_table.specs.{Answers.{IsAnswered}, Sound.{IsKept}};
ghost use Rattle.sect_emit.specs.{Plan.{key_of as key_by}, Compiled.{program_of}};
ghost use Rattle.sect_world.specs.{Events.{step_in, changed_by, acting}, Kept.{IsTextOf}};
ghost use Rattle.sect_world.specs.Viewing.{body_at, thread_of, IsSited};
ghost use Rattle.sect_world.specs.steps.Moves.{Goes, IsStep, GivesKey, HoldsMore, grips_by, object_by};

use crate::moving::{Step, chosen, run_node};
use crate::runner::{Phase, Runner};
use sect_emit::Compiled;
use sect_modes::Key;
use sect_store::{Store, Work, finish_new};
use sect_table::Table;
use sect_types::{Action, Fault, Label};
use std::alloc::{AllocError, Global};

/// A `new`: the local that it sets, the record and the site.
#[derive(Clone, Copy)]
pub struct Making {
    pub target: u16,
    pub of: u16,
    pub site: u16,
}

/// The `new` that a statement is, where fuel is left for it and nothing guards its record: the key of its object is
/// held from then on.
fn new_with_key(compiled: &Compiled, work: &Work, label: Label) -> Option<Making>
    ensures { GivesKey compiled.now.scheme.guards work.now.fuel label result }
{
    let Label::Act(Action::New(target, of, site)) = label else {
        return None;
    };
    if work.fuel() == 0 || compiled.scheme().guards().guard(of).is_some() {
        return None;
    }
    Some(Making { target, of, site })
}

/// What a `new` of a thread does once its object is in the store: its target refers to the object, and the thread comes
/// to hold the object's key. Where memory is refused the object is taken back, and nothing else has changed.
fn hold_made(
    thread: u16,
    target: u16,
    work: &mut Work,
    store: &mut Store,
    table: &mut Table,
) -> Result<(), AllocError>
    requires fuel { 0 < work.old.fuel }
    requires thread { thread < length table.old.held }
    requires holders { (entry_of (key_by (Made thread work.old.made)) table.old.entries).holders ≡ [] }
    requires waiters { (entry_of (key_by (Made thread work.old.made)) table.old.entries).waiters ≡ [] }
    ensures work { OnOk result ((program : ProgramView) (of : ℕ) (site : ℕ) (found : Option ObjectView)
        → one program thread (New target of site) found work.old
        ≡ Went work.new (Added (object_by program of site))) }
    ensures store { OnOk result (store.new ≡ store.old) }
    ensures table { OnOk result (IsAnswered Granted thread (key_by (Made thread work.old.made)) Exclusive
        table.old table.new) }
    ensures kept { OnOk result (IsKept table.new) }
    ensures refused { OnErr result ((work.new ≡ work.old) × (store.new ≡ without_last store.old thread)
        × (table.new ≡ table.old)) }
{
    let key = Key::Made {
        thread,
        number: work.made(),
    };
    if let Err(refused) = table.give_fresh(thread, key) {
        store.unmake(thread);
        return Err(refused);
    }
    finish_new(work, thread, target);
    Ok(())
}

/// Runs the statement or test of a node of a section: the node at which control goes on, or the fault that it comes to.
/// Where it makes an object that nothing guards, the thread comes to hold its key. Where memory is refused nothing has
/// changed.
fn run_inside(
    alloc: Global,
    step: Step<'_>,
    work: &mut Work,
    store: &mut Store,
    table: &mut Table,
) -> Result<Result<u16, Fault>, AllocError>
    requires node { step.node < length step.flow.now }
    requires step { (x : Node) → slice_get step.flow.now step.node ≡ Some x → IsStep x.label }
    requires thread { step.thread < length table.old.held }
    requires holders { (entry_of (key_by (Made step.thread work.old.made)) table.old.entries).holders ≡ [] }
    requires waiters { (entry_of (key_by (Made step.thread work.old.made)) table.old.entries).waiters ≡ [] }
    ensures goes { IfOk result (λ went. (rest : ℕ → TextView) (k : TextView) (x : Node)
        → slice_get step.entry.flow.now step.entry.node ≡ Some x → Begins rest x k → begins_step k ≡ true
        → Goes rest step.entry.thread store.old
        (step_in step.entry.compiled.now step.entry.thread k work.old store.old) went work.new store.new) }
    ensures table { OnOk result ((rest : ℕ → TextView) (k : TextView) (x : Node)
        → slice_get step.entry.flow.now step.entry.node ≡ Some x → Begins rest x k
        → IsTextOf (program_of step.entry.compiled.now) step.entry.thread true k
        → HoldsMore step.entry.thread (grips_by step.entry.compiled.now step.entry.thread work.old.made
        (step_in step.entry.compiled.now step.entry.thread k work.old store.old)) table.old table.new) }
    ensures refused { OnErr result ((work.new ≡ work.old) × (store.new ≡ store.old) × (table.new ≡ table.old)) }
{
    let Step {
        compiled,
        thread,
        flow,
        node,
    } = step;
    compiled.facts();
    let program = compiled.scheme().program();
    match new_with_key(compiled, work, flow.action(node)) {
        Some(new) => {
            store.make(alloc, program, thread, new.of, new.site)?;
            hold_made(thread, new.target, work, store, table)?;
            Ok(Ok(chosen(flow.succ(node), true)))
        }
        None => run_node(alloc, step, work, store),
    }
}

/// A thread in a section, and the node of the section's graph to which it has come.
#[derive(Clone, Copy)]
pub struct Inside {
    pub thread: u16,
    pub section: u16,
    pub node: u16,
}

/// A thread runs the statement or test of a node of the section in which it is. Where memory is refused nothing has
/// changed.
pub fn step_inside(
    compiled: &Compiled,
    at: Inside,
    runner: &mut Runner,
    store: &mut Store,
    table: &mut Table,
) -> Result<(), AllocError>
    requires section { at.section < length (sections_of (program_of compiled.now).texts) }
    requires node { (g : List Node) → slice_get compiled.now.scheme.graphs.sections at.section ≡ Some g
        → at.node < length g }
    requires text { IsTextOf (program_of compiled.now) at.thread true
        (rest_at (body_at compiled.now at.section) at.node) }
    requires thread { at.thread < length table.old.held }
    requires holders { (entry_of (key_by (Made at.thread runner.old.work.made)) table.old.entries).holders ≡ [] }
    requires waiters { (entry_of (key_by (Made at.thread runner.old.work.made)) table.old.entries).waiters ≡ [] }
    ensures acts { OnOk result ((text : TextView)
        → thread_of compiled.now text runner.new (held_by table.new at.thread)
        ≡ acting compiled.now at.thread at.section (step_in compiled.now at.thread
        (rest_at (body_at compiled.now at.section) at.node) runner.old.work store.old)
        (thread_of compiled.now text runner.old (held_by table.old at.thread))) }
    ensures store { OnOk result (store.new ≡ changed_by at.thread (step_in compiled.now at.thread
        (rest_at (body_at compiled.now at.section) at.node) runner.old.work store.old) store.old) }
    ensures table { OnOk result (HoldsMore at.thread (grips_by compiled.now at.thread runner.old.work.made
        (step_in compiled.now at.thread (rest_at (body_at compiled.now at.section) at.node) runner.old.work store.old))
        table.old table.new) }
    ensures sited { OnOk result (IsSited compiled.now runner.new.phase) }
    ensures refused { OnErr result ((runner.new ≡ runner.old) × (store.new ≡ store.old) × (table.new ≡ table.old)) }
{
    compiled.facts();
    let Inside {
        thread,
        section,
        node,
    } = at;
    let flow = compiled.scheme().graph().section(section);
    let step = Step {
        compiled,
        thread,
        flow,
        node,
    };
    let alloc = *runner.wanted.allocator();
    let went = run_inside(alloc, step, &mut runner.work, store, table)?;
    runner.phase = match went {
        Ok(next) => Phase::Running(section, next),
        Err(fault) => Phase::Faulted(section, fault),
    };
    Ok(())
}
