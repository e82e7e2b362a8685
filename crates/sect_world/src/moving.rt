//! One statement or test, by the node of a control-flow graph.

ghost use Rattle.std.specs.Prelude.{◌≡◌, ◌<◌, ℕ, length, slice_get, Some, true, IfOk, OnErr};
ghost use Rattle.sect_types.specs.{Statements.{TextView}, Meaning.{next, found_at, looks, begins_step}};
ghost use Rattle.sect_graph.specs.{declared.flow.Node.{Node}, Rests.{Begins}};
ghost use Rattle.sect_emit.specs.Compiled.{program_of};
ghost use Rattle.sect_world.specs.steps.Moves.{Goes, IsStep, chosen};

use sect_emit::Compiled;
use sect_graph::{Flow, Successors};
use sect_store::{Store, Work, act};
use sect_types::{Fault, Label};
use std::alloc::{AllocError, Global};

/// A step of a thread of a compiled program: the statement or test of a node of one of the program's graphs.
#[derive(Clone, Copy)]
pub struct Step<'a> {
    pub compiled: &'a Compiled,
    pub thread: u16,
    pub flow: &'a Flow,
    pub node: u16,
}

/// Where control goes on from a node; from a test by whether it holds.
pub fn chosen(successors: Successors, holds: bool) -> u16
    ensures { result ≡ chosen successors holds }
{
    match successors {
        Successors::Next(node) => node,
        Successors::Branch(yes, otherwise) => { if holds { yes } else { otherwise } }
    }
}

/// Runs the statement or test of a node, which isn't a section: the node at which control goes on, or the fault that it
/// comes to. Where memory is refused nothing has changed.
pub fn run_node(
    alloc: Global,
    step: Step<'_>,
    work: &mut Work,
    store: &mut Store,
) -> Result<Result<u16, Fault>, AllocError>
    requires node { step.node < length step.flow.now }
    requires step { (x : Node) → slice_get step.flow.now step.node ≡ Some x → IsStep x.label }
    ensures goes { IfOk result (λ went. (rest : ℕ → TextView) (k : TextView) (x : Node)
        → slice_get step.entry.flow.now step.entry.node ≡ Some x → Begins rest x k → begins_step k ≡ true
        → Goes rest step.entry.thread store.old (next (program_of step.entry.compiled.now) step.entry.thread k
        (found_at store.old (looks k work.old)) work.old) went work.new store.new) }
    ensures refused { OnErr result ((work.new ≡ work.old) × (store.new ≡ store.old)) }
{
    let Step {
        compiled,
        thread,
        flow,
        node,
    } = step;
    let program = compiled.scheme().program();
    let successors = flow.succ(node);
    match flow.action(node) {
        Label::Act(action) => match act(alloc, program, thread, &action, work, store)? {
            None => Ok(Ok(chosen(successors, true))),
            Some(fault) => Ok(Err(fault)),
        },
        Label::Test(condition) => match work.test(&condition) {
            None => Ok(Err(Fault::Fuel)),
            Some(holds) => Ok(Ok(chosen(successors, holds))),
        },
        Label::Section(_) => unreachable!(),
    }
}
