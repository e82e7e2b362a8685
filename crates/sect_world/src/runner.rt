//! A thread of a program as it runs.

ghost use Rattle.std.specs.Prelude.{◌≡◌, ◌<◌, ◌≤◌, ◌+◌, ◌++◌, [], map, length, slice_index_or, IfOk, vec_len};
ghost use Rattle.std.specs.{Prelude.{vec_capacity}, List.{list_all}};
ghost use Rattle.sect_types.specs.Whole.{first_work as first_work_of, has_ended};
ghost use Rattle.sect_emit.specs.{Compiled.{program_of}, Graphed.{text_at}};
ghost use Rattle.sect_world.specs.declared.runner.Runner.{Runner as ARunner};
ghost use Rattle.sect_world.specs.Viewing.{IsFirst, AreFirst, BeginsSo};

use sect_emit::{Compiled, Grip};
use sect_store::Work;
use sect_types::{End, Fault};
use std::alloc::{AllocError, Global};

/// Where a thread is.
#[derive(Clone, Copy)]
pub enum Phase {
    /// Outside sections.
    Outside,
    /// It has entered a section, and asks for the keys of its plan.
    Entered,
    /// It runs the section of this number, and has come to this node of the section's graph.
    Running(u16, u16),
    /// A fault has broken off the section of this number.
    Faulted(u16, Fault),
}

/// A thread: where it is; the node of its own graph at which it goes on outside sections; what it works with; how it
/// has ended, if it has; the plan with which it entered a section, and how many keys of it it has come to hold.
pub struct Runner {
    pub phase: Phase,
    pub node: u16,
    pub work: Work,
    pub ended: Option<End>,
    pub wanted: Vec<Grip>,
    pub taken: usize,
}

impl Drop for Runner {
    fn drop(self) {
        let Runner {
            phase: _,
            node: _,
            work: _,
            ended: _,
            wanted: _,
            taken: _,
        } = self;
    }
}

/// What a thread works with at its start.
fn first_work(
    alloc: Global,
    compiled: &Compiled,
    fuel: u32,
    thread: u16,
) -> Result<Work, AllocError>
    ensures { IfOk result (λ work. work
        ≡ first_work_of fuel (slice_index_or (program_of compiled.now).locals thread [])) }
{
    let work = match compiled.scheme().program().locals().get(thread as usize) {
        None => Work::first(alloc, fuel, &[])?,
        Some(types) => Work::first(alloc, fuel, types.as_slice())?,
    };
    Ok(work)
}

/// How a thread has ended at its start: one that has nothing to do is done.
fn first_end(compiled: &Compiled, thread: u16) -> Option<End>
    requires { thread < length (program_of compiled.now).texts }
    ensures { BeginsSo (text_at compiled.now thread) result }
{
    compiled.facts();
    let flow = compiled.scheme().graph().thread(thread);
    if flow.exit() == 0 {
        Some(End::Done)
    } else {
        None
    }
}

/// A thread at its start.
fn first_runner(
    alloc: Global,
    compiled: &Compiled,
    fuel: u32,
    thread: u16,
) -> Result<Runner, AllocError>
    requires { thread < length (program_of compiled.now).texts }
    ensures { IfOk result (IsFirst compiled.now fuel thread) }
{
    Ok(Runner {
        phase: Phase::Outside,
        node: 0,
        work: first_work(alloc, compiled, fuel, thread)?,
        ended: first_end(compiled, thread),
        wanted: Vec::new(alloc),
        taken: 0,
    })
}

/// The threads of a program at their start, with so much fuel for each.
pub fn first_runners(
    alloc: Global,
    compiled: &Compiled,
    fuel: u32,
) -> Result<Vec<Runner>, AllocError>
    ensures count { IfOk result (λ all. length all.items ≡ length (program_of compiled.now).texts) }
    ensures first { IfOk result (λ all. AreFirst compiled.now fuel all.items) }
{
    let mut all = Vec::new(alloc);
    for thread in 0..compiled.scheme().program().thread_count() {
        all.push(first_runner(alloc, compiled, fuel, thread)?)?;
    }
    Ok(all)
}

/// Whether all of these threads have ended.
pub fn have_ended(runners: &[Runner]) -> bool
    ensures { result ≡ list_all (λ (r : ARunner). has_ended r.ended) runners.now }
{
    runners.iter().all(|runner| runner.ended.is_some())
}

/// Adds how each of these threads has ended, if it has.
pub fn put_ends(runners: &[Runner], ends: &mut Vec<Option<End>>)
    requires { vec_len ends.old + length runners.now ≤ vec_capacity ends.old }
    ensures { ends.new.items ≡ ends.old.items ++ map (λ (r : ARunner). r.ended) runners.now }
{
    for runner in runners {
        ends.push_reserved(runner.ended);
    }
}
