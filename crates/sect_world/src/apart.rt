//! A stretch of a section that is run apart from its world.

ghost use Rattle.std.specs.Prelude.{◌≡◌, ◌<◌, ◌≤◌, ◌++◌, ℕ, true, length, slice_get, slice_set, vec_len, Some, IfOk};
ghost use Rattle.std.specs.Prelude.{IfSome, IfNone, OnErr};
ghost use Rattle.sect_types.specs.{Statements.{TextView}, Meaning.{next, found_at, looks, begins_step}};
ghost use Rattle.sect_types.specs.{Store.{StoreView}, Sections.{sections_of}};
ghost use Rattle.sect_graph.specs.{declared.flow.Node.{Node}, Rests.{Begins}};
ghost use Rattle.sect_store.specs.Parts.{ShowsAll, IsPartOf, IsSamePart, written};
ghost use Rattle.sect_emit.specs.Compiled.{CompiledView, program_of};
ghost use Rattle.sect_world.specs.declared.runner.{Phase.TheVariants.{Running}, Runner.{Runner as ARunner}};
ghost use Rattle.sect_world.specs.Acting.{IsApart, acts_of, moved_to, phase_by};
ghost use Rattle.sect_world.specs.steps.Moves.{Goes, IsStep, IsPlain};

use crate::inside::Inside;
use crate::moving::{Step, chosen};
use crate::runner::{Phase, Runner};
use sect_emit::Compiled;
use sect_store::{Cell, Part, Store, Tried, Work, act_apart};
use sect_types::{Fault, Label};
use std::alloc::AllocError;

/// A stretch of a section that is run apart from its world: the thread and the section; the node and the work with
/// which it begins, and what fields of the store it knew then; how far it has come, with what work and by how many
/// events; and its part of the store now.
#[derive(Drop)]
pub struct Apart {
    pub(crate) thread: u16,
    pub(crate) section: u16,
    pub(crate) node: u16,
    pub(crate) start: Work,
    pub(crate) known: Vec<Cell>,
    pub(crate) phase: Phase,
    pub(crate) work: Work,
    pub(crate) acts: u32,
    pub(crate) part: Part,
}

/// Tries the statement or test of a node, which isn't a section, on a part of a store: the node at which control goes
/// on, or the fault that it comes to. None where the part isn't enough. Nothing has changed then, nor where memory is
/// refused.
pub fn run_node_apart(
    step: Step<'_>,
    work: &mut Work,
    part: &mut Part,
) -> Result<Option<Result<u16, Fault>>, AllocError>
    requires node { step.node < length step.flow.now }
    requires step { (x : Node) → slice_get step.flow.now step.node ≡ Some x → IsStep x.label }
    ensures goes { IfOk result (λ ran. IfSome ran (λ went. (s : StoreView) → IsPartOf part.old s → IsPartOf part.new s
        × ((rest : ℕ → TextView) (k : TextView) (x : Node) → slice_get step.entry.flow.now step.entry.node ≡ Some x
        → Begins rest x k → begins_step k ≡ true
        → Goes rest step.entry.thread (written s part.old.writes.items) (next (program_of step.entry.compiled.now)
        step.entry.thread k (found_at (written s part.old.writes.items) (looks k work.old)) work.old) went work.new
        (written s part.new.writes.items)))) }
    ensures plain { IfOk result (λ ran. IfSome ran (λ went. (x : Node)
        → slice_get step.entry.flow.now step.entry.node ≡ Some x → IsPlain x.label)) }
    ensures none { IfOk result (λ ran. IfNone ran ((work.new ≡ work.old) × IsSamePart part.old part.new)) }
    ensures refused { OnErr result ((work.new ≡ work.old) × IsSamePart part.old part.new) }
{
    let Step {
        compiled: _,
        thread: _,
        flow,
        node,
    } = step;
    let successors = flow.succ(node);
    match flow.action(node) {
        Label::Act(action) => match act_apart(&action, work, part)? {
            Tried::Went => Ok(Some(Ok(chosen(successors, true)))),
            Tried::Fell(fault) => Ok(Some(Err(fault))),
            Tried::Beyond => Ok(None),
        },
        Label::Test(condition) => match work.test(&condition) {
            None => Ok(Some(Err(Fault::Fuel))),
            Some(holds) => Ok(Some(Ok(chosen(successors, holds)))),
        },
        Label::Section(_) => unreachable!(),
    }
}

/// Where a thread in a section is after a step.
fn phase_after(section: u16, went: Result<u16, Fault>) -> Phase
    ensures { result ≡ phase_by section went }
{
    match went {
        Ok(node) => Phase::Running(section, node),
        Err(fault) => Phase::Faulted(section, fault),
    }
}

impl Apart {
    /// Goes on by one event; whether it can.
    fn step(&mut self, compiled: &Compiled) -> Result<bool, AllocError>
        requires { IsApart compiled.now self.old }
        ensures apart { IsApart compiled.now self.new }
        ensures thread { self.new.thread ≡ self.old.thread }
    {
        let Phase::Running(section, node) = self.phase else {
            return Ok(false);
        };
        compiled.facts();
        let flow = compiled.scheme().graph().section(self.section);
        if section != self.section || node >= flow.exit() || self.acts == u32::MAX {
            return Ok(false);
        }
        if let Label::Section(_) = flow.action(node) {
            return Ok(false);
        }
        let step = Step {
            compiled,
            thread: self.thread,
            flow,
            node,
        };
        match run_node_apart(step, &mut self.work, &mut self.part)? {
            None => Ok(false),
            Some(went) => {
                self.phase = phase_after(self.section, went);
                self.acts += 1;
                Ok(true)
            }
        }
    }

    /// Goes on by so many events at most: until the section is at its end or broken off by a fault, or comes to what
    /// the part of the store isn't enough for. Where memory is refused it has come as far as that.
    pub fn run(&mut self, compiled: &Compiled, most: u32) -> Result<(), AllocError>
        requires { IsApart compiled.now self.old }
        ensures apart { IsApart compiled.now self.new }
        ensures thread { self.new.thread ≡ self.old.thread }
    {
        for _made in 0..most {
            if !self.step(compiled)? {
                break;
            }
        }
        Ok(())
    }
}

/// Whether a thread is where a stretch begins, with the same work, and the store shows what the stretch knew then.
pub fn stands(apart: &Apart, runner: &Runner, store: &Store) -> bool
    ensures phase { result ≡ true → runner.now.phase ≡ Running apart.now.section apart.now.node }
    ensures work { result ≡ true → runner.now.work ≡ apart.now.start }
    ensures known { result ≡ true → ShowsAll store.now apart.now.known.items }
{
    match runner.phase {
        Phase::Running(section, node) => {
            section == apart.section
                && node == apart.node
                && runner.work.is_same(&apart.start)
                && store.shows_all(apart.known.as_slice())
        }
        Phase::Outside => false,
        Phase::Entered => false,
        Phase::Faulted(_, _) => false,
    }
}

/// Puts a thread where a stretch has come to, with its work.
pub fn take_place(runners: &mut Vec<Runner>, thread: u16, phase: Phase, work: Work)
    requires { thread < vec_len runners.old }
    ensures { (r : ARunner) → slice_get runners.old.items thread ≡ Some r
        → runners.new.items ≡ slice_set runners.old.items thread (moved_to r phase work) }
{
    let runner = &mut runners[thread as usize];
    runner.phase = phase;
    runner.work = work;
}

/// A stretch of no event yet of a thread at a node of a section, which knows what these fields hold.
pub fn lent(at: Inside, runner: &Runner, known: Vec<Cell>) -> Result<Apart, AllocError>
    ensures thread { IfOk result (λ apart. apart.thread ≡ at.thread) }
    ensures apart { IfOk result (λ apart. (c : CompiledView) → at.section < length (sections_of (program_of c).texts)
        → IsApart c apart) }
{
    let alloc = *runner.wanted.allocator();
    let Inside {
        thread,
        section,
        node,
    } = at;
    let cells = Vec::from_slice(alloc, known.as_slice())?;
    Ok(Apart {
        thread,
        section,
        node,
        start: runner.work.try_clone()?,
        known,
        phase: Phase::Running(section, node),
        work: runner.work.try_clone()?,
        acts: 0,
        part: Part {
            cells,
            writes: Vec::new(alloc),
        },
    })
}
