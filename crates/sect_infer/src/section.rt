//! The least lock set of each section.

ghost use Rattle.std.specs.Prelude.{◌≡◌, ◌<◌, ◌+◌, ℕ, List, length, slice_get, Some, IfOk};
ghost use Rattle.sect_lemmas.specs.Lists.{Has};
ghost use Rattle.sect_types.specs.Sections.{SectionView, sections_of};
ghost use Rattle.sect_graph.specs.declared.flow.Node.{Node};
ghost use Rattle.sect_names.specs.{declared.lock.Lock.{Lock}, Locks.{IsLockOf}, Needed.{end_of}};
ghost use Rattle.sect_infer.specs.steps.{Needs.{AreLawful}, Found.{IsFound, IsOnAll, AreFirstFound}};
ghost use Rattle.sect_infer.specs.steps.Working.{IsSettled};
ghost use Rattle.sect_infer.specs.Sets.{AreLocksOf, AreTaken, AreUnmarkedAt};

use crate::lists::Lists;
use crate::locks::{Locks, list_alone};
use crate::numbering::Numbering;
use crate::numbers::Numbers;
use crate::work::{Analysed, Solution, settle};
use sect_graph::Flow;
use sect_names::{
    Lock, Scheme, carrying_back_respects_covering, end_lock, locks_stay_the_programs,
    steps_of_sections,
};
use std::alloc::{AllocError, Global};

/// For how many nodes there is room for locks from the first.
const MOST_NODES_WITH_ROOM: usize = 60;

/// The locks of a section: at each node of its graph, the exit too, the maximal ones of those that are needed from
/// there on, over all control paths; at its entry the least set that protects all that the section does. A section that
/// locks everything needs the lock on all at each node, which covers every other. `AllocError` is answered only where a
/// growth was refused.
pub fn infer(alloc: Global, scheme: &Scheme, section: u16) -> Result<Locks, AllocError>
    requires { section < length (sections_of scheme.now.program.texts) }
    ensures locks { (of : SectionView) (g : List Node)
        → slice_get (sections_of scheme.now.program.texts) section ≡ Some of
        → slice_get scheme.now.graphs.sections section ≡ Some g
        → IfOk result (AreLocksOf scheme.now (end_of scheme.now section) of g) }
    ensures lawful { (of : SectionView) → slice_get (sections_of scheme.now.program.texts) section ≡ Some of
        → IfOk result (λ sets. (j : ℕ) (locks : List Lock) → slice_get sets.at j ≡ Some locks
        → (lock : Lock) → Has locks lock → IsLockOf scheme.now of.thread lock) }
{
    scheme.facts();
    scheme.program().facts();
    only_the_programs(scheme, section);
    let thread = scheme.program().section(section).thread;
    let flow = scheme.graph().section(section);
    match end_lock(scheme.program().locking(section)) {
        None => found(alloc, scheme, thread, flow),
        Some(_) => on_all_of(alloc, scheme, flow),
    }
}

/// The locks of a section as if it weren't marked `all`: those that its nodes need, at each node and at its entry, as
/// `infer` gives them of a section without the mark. `AllocError` is answered only where a growth was refused.
pub fn infer_unmarked(alloc: Global, scheme: &Scheme, section: u16) -> Result<Locks, AllocError>
    requires { section < length (sections_of scheme.now.program.texts) }
    ensures { IfOk result (AreUnmarkedAt scheme.now section) }
{
    scheme.facts();
    scheme.program().facts();
    only_the_programs(scheme, section);
    let thread = scheme.program().section(section).thread;
    let flow = scheme.graph().section(section);
    found(alloc, scheme, thread, flow)
}

/// The locks that a section takes at its entry, as `infer` gives them. Those of the other nodes aren't put in order.
pub fn entry_locks(alloc: Global, scheme: &Scheme, section: u16) -> Result<Vec<Lock>, AllocError>
    requires { section < length (sections_of scheme.now.program.texts) }
    ensures locks { (of : SectionView) → slice_get (sections_of scheme.now.program.texts) section ≡ Some of
        → IfOk result (λ locks. AreTaken scheme.now (end_of scheme.now section) of locks.items) }
    ensures lawful { (of : SectionView) → slice_get (sections_of scheme.now.program.texts) section ≡ Some of
        → IfOk result (λ locks. (lock : Lock) → Has locks.items lock → IsLockOf scheme.now of.thread lock) }
{
    scheme.facts();
    scheme.program().facts();
    only_the_programs(scheme, section);
    let thread = scheme.program().section(section).thread;
    let flow = scheme.graph().section(section);
    match end_lock(scheme.program().locking(section)) {
        None => first_found(alloc, scheme, thread, flow),
        Some(_) => Ok(on_all_of(alloc, scheme, flow)?.into_entry()),
    }
}

/// What the nodes of a section's graph generate and carry back are locks of the program, which the clause says.
fn only_the_programs(scheme: &Scheme, section: u16)
    ensures { (of : SectionView) (g : List Node) → slice_get (sections_of scheme.now.program.texts) section ≡ Some of
        → slice_get scheme.now.graphs.sections section ≡ Some g → AreLawful scheme.now of.thread g }
{
    scheme.facts();
    scheme.program().facts();
    locks_stay_the_programs();
    carrying_back_respects_covering();
    steps_of_sections();
}

/// For how many locks there is room from the first: one for each node and four more, at least as many as short sections
/// mostly have. In longer ones most statements name locks again.
pub fn room_for(flow: &Flow) -> usize {
    let nodes = flow.exit() as usize;
    nodes.min(MOST_NODES_WITH_ROOM) + 4
}

/// What is found at the nodes of a graph that need locks of the program alone.
fn settled(alloc: Global, scheme: &Scheme, thread: u16, flow: &Flow) -> Result<Solution, AllocError>
    requires { AreLawful scheme.now thread flow.now }
    ensures { IfOk result (λ solution. IsSettled scheme.now thread flow.now solution.numbering solution.lists) }
{
    let section = Analysed {
        scheme,
        thread,
        flow,
    };
    let mut solution = Solution {
        numbering: Numbering::with_room(alloc, room_for(flow))?,
        lists: Lists::new(alloc, flow.exit() as usize + 1)?,
        found: Numbers::new(alloc),
    };
    settle(alloc, section, &mut solution)?;
    Ok(solution)
}

/// The locks of a graph whose nodes need locks of the program alone: at each node the maximal ones of those that are
/// derived there.
fn found(alloc: Global, scheme: &Scheme, thread: u16, flow: &Flow) -> Result<Locks, AllocError>
    requires { AreLawful scheme.now thread flow.now }
    ensures { IfOk result (IsFound scheme.now thread flow.now) }
{
    let solution = settled(alloc, scheme, thread, flow)?;
    Locks::of(alloc, solution.numbering, solution.lists)
}

/// The same at the first node alone.
fn first_found(
    alloc: Global,
    scheme: &Scheme,
    thread: u16,
    flow: &Flow,
) -> Result<Vec<Lock>, AllocError>
    requires { AreLawful scheme.now thread flow.now }
    ensures { IfOk result (λ locks. AreFirstFound scheme.now thread flow.now locks.items) }
{
    let solution = settled(alloc, scheme, thread, flow)?;
    list_alone(alloc, &solution.numbering, solution.lists.of(0))
}

/// The lock on all at each node of a graph, and at its exit.
fn on_all_of(alloc: Global, scheme: &Scheme, flow: &Flow) -> Result<Locks, AllocError>
    ensures { IfOk result (IsOnAll scheme.now (length flow.now + 1)) }
{
    let mut numbering = Numbering::new(alloc);
    let number = numbering.number(alloc, scheme, &Lock::All)?;
    let mut lists = Lists::new(alloc, flow.exit() as usize + 1)?;
    for node in 0..flow.exit() + 1 {
        lists.extend(alloc, node, &[number])?;
    }
    Locks::of(alloc, numbering, lists)
}
