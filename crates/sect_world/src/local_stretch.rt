//! A stretch of a thread's code outside sections that is run apart from its world.

ghost use Rattle.std.specs.Prelude.{◌≡◌, ◌<◌, ◌≤◌, ◌++◌, true, None, length, slice_get, slice_set, vec_len, Some, IfOk};
ghost use Rattle.sect_emit.specs.Compiled.{CompiledView, program_of};
ghost use Rattle.sect_world.specs.declared.runner.{Phase.TheVariants.{Outside}, Runner.{Runner as ARunner}};
ghost use Rattle.sect_world.specs.Locals.{IsLocalStretch, IsAfterStep, locals_of, gone_to};

use crate::apart::run_node_apart;
use crate::moving::Step;
use crate::runner::{Phase, Runner};
use sect_emit::Compiled;
use sect_store::{Part, Work};
use sect_types::{End, Fault, Label};
use std::alloc::{AllocError, Global};

/// A stretch of a thread's code outside sections that is run apart from its world: the thread; the node and the work
/// with which it begins; the node to which it has come, with what work, and how the thread has ended there, if it has;
/// and by how many events.
#[derive(Drop)]
pub struct LocalStretch {
    pub(crate) alloc: Global,
    pub(crate) thread: u16,
    pub(crate) node: u16,
    pub(crate) start: Work,
    pub(crate) at: u16,
    pub(crate) work: Work,
    pub(crate) ended: Option<End>,
    pub(crate) steps: u32,
}

/// The node at which a thread is after a step at a node of its own graph, and how it has ended then, if it has.
fn after_step(
    compiled: &Compiled,
    thread: u16,
    node: u16,
    went: Result<u16, Fault>,
) -> (u16, Option<End>)
    requires { thread < length (program_of compiled.now).texts }
    ensures { IsAfterStep compiled.now thread node went result.0 result.1 }
{
    compiled.facts();
    match went {
        Err(fault) => (node, Some(End::Failed(fault))),
        Ok(next) => {
            let flow = compiled.scheme().graph().thread(thread);
            if next < flow.exit() {
                (next, None)
            } else {
                (next, Some(End::Done))
            }
        }
    }
}

impl LocalStretch {
    /// Goes on by one event; whether it can.
    fn step(&mut self, compiled: &Compiled) -> Result<bool, AllocError>
        requires { IsLocalStretch compiled.now self.old }
        ensures stretch { IsLocalStretch compiled.now self.new }
        ensures thread { self.new.thread ≡ self.old.thread }
    {
        compiled.facts();
        let flow = compiled.scheme().graph().thread(self.thread);
        if self.ended.is_some() || self.at >= flow.exit() || self.steps == u32::MAX {
            return Ok(false);
        }
        if let Label::Section(_) = flow.action(self.at) {
            return Ok(false);
        }
        let step = Step {
            compiled,
            thread: self.thread,
            flow,
            node: self.at,
        };
        let mut nothing = Part {
            cells: Vec::new(self.alloc),
            writes: Vec::new(self.alloc),
        };
        let Some(went) = run_node_apart(step, &mut self.work, &mut nothing)? else {
            return Ok(false);
        };
        let (at, ended) = after_step(compiled, self.thread, self.at, went);
        self.at = at;
        self.ended = ended;
        self.steps += 1;
        Ok(true)
    }

    /// Goes on by so many events at most: until the thread has ended or comes to a section. Where memory is refused it
    /// has come as far as that.
    pub fn run(&mut self, compiled: &Compiled, most: u32) -> Result<(), AllocError>
        requires { IsLocalStretch compiled.now self.old }
        ensures stretch { IsLocalStretch compiled.now self.new }
        ensures thread { self.new.thread ≡ self.old.thread }
    {
        for _made in 0..most {
            if !self.step(compiled)? {
                break;
            }
        }
        Ok(())
    }
}

/// Whether a thread is where a stretch of its code outside sections begins, with the same work.
pub fn stands_outside(stretch: &LocalStretch, runner: &Runner) -> bool
    ensures phase { result ≡ true → runner.now.phase ≡ Outside }
    ensures node { result ≡ true → runner.now.node ≡ stretch.now.node }
    ensures alive { result ≡ true → runner.now.ended ≡ None }
    ensures work { result ≡ true → runner.now.work ≡ stretch.now.start }
{
    match runner.phase {
        Phase::Outside => {
            runner.node == stretch.node
                && runner.ended.is_none()
                && runner.work.is_same(&stretch.start)
        }
        Phase::Entered => false,
        Phase::Running(_, _) => false,
        Phase::Faulted(_, _) => false,
    }
}

/// Puts a thread where a stretch of its code outside sections has come, with its work.
pub fn go_to(runners: &mut Vec<Runner>, stretch: &LocalStretch, work: Work)
    requires { stretch.now.thread < vec_len runners.old }
    ensures { (r : ARunner) → slice_get runners.old.items stretch.now.thread ≡ Some r → runners.new.items
        ≡ slice_set runners.old.items stretch.now.thread (gone_to r stretch.now.at work stretch.now.ended) }
{
    let runner = &mut runners[stretch.thread as usize];
    runner.node = stretch.at;
    runner.work = work;
    runner.ended = stretch.ended;
}

/// A stretch of no event yet of a thread that is outside sections and hasn't ended.
pub fn lent_outside(thread: u16, runner: &Runner) -> Result<LocalStretch, AllocError>
    ensures thread { IfOk result (λ stretch. stretch.thread ≡ thread) }
    ensures stretch { IfOk result (λ stretch. (c : CompiledView) → thread < length (program_of c).texts
        → IsLocalStretch c stretch) }
{
    Ok(LocalStretch {
        alloc: *runner.wanted.allocator(),
        thread,
        node: runner.node,
        start: runner.work.try_clone()?,
        at: runner.node,
        work: runner.work.try_clone()?,
        ended: None,
        steps: 0,
    })
}
