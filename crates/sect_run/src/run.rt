//! Runs by threads.

ghost use Rattle.std.specs.Prelude.{◌≡◌, Some, IfOk, length};
ghost use Rattle.sect_run.specs.Ends.{IsWholeRun};
ghost use Rattle.sect_run.specs.steps.Shares.{threads_in};

use crate::fault::RunFault;
use crate::gate::{Gate, Passage};
use crate::rest::run_rest;
use crate::share::{Naming, Post, SharedRun};
use crate::worker::{Shared, start_workers};
use crossbeam_utils::sync::Unparker;
use sect_emit::Compiled;
use sect_world::{Run, World};
use std::alloc::{AllocError, Global};
use std::marker::Brand;
use std::sync::atomic::{AtomicBool, Ordering};
use std::sync::{Mutex, Wait};
use std::thread::Threads;

/// A post for the worker of each thread.
fn all_posts<J: Naming>(alloc: Global, compiled: &Compiled) -> Result<Vec<Post<J>>, AllocError>
    requires { J.threads ≡ threads_in compiled.now }
    ensures { IfOk result (λ posts. length posts.items ≡ J.threads) }
{
    let threads = compiled.scheme().program().thread_count();
    let mut posts = Vec::new(alloc);
    for thread in 0..threads {
        posts.push(Post::new(alloc, thread, threads)?)?;
    }
    Ok(posts)
}

/// Who wakes the worker at each post.
fn unparkers_of<J: Naming>(alloc: Global, posts: &[Post<J>]) -> Result<Vec<Unparker>, AllocError>
    ensures { IfOk result (λ unparkers. length unparkers.items ≡ length posts.now) }
{
    let mut unparkers = Vec::new(alloc);
    for post in posts {
        unparkers.push(post.parker.unparker().clone()?)?;
    }
    Ok(unparkers)
}

/// The run that J names: `run_threads` calls it by that name.
fn run_named<J: Naming + Send + Sync, R: Threads + Wait + Sync, G: Gate>(
    rt: &R,
    alloc: Global,
    compiled: &Compiled,
    fuel: u32,
    gate: &G,
) -> Result<Run, RunFault>
    requires compiled { J.compiled ≡ Some compiled.now }
    requires fuel { J.fuel ≡ fuel }
    requires threads { J.threads ≡ threads_in compiled.now }
    ensures { IfOk result (IsWholeRun compiled.now fuel) }
{
    let posts: Vec<Post<J>> = all_posts(alloc, compiled)?;
    let unparkers = unparkers_of(alloc, posts.as_slice())?;
    let run: Mutex<SharedRun<J>> = Mutex::new(SharedRun::new(World::start(alloc, compiled, fuel)?));
    let refused = AtomicBool::new(false);
    let shared = Shared {
        run: &run,
        unparkers: unparkers.as_slice(),
        refused: &refused,
    };
    let passage = Passage::by(gate);
    start_workers(rt, &shared, compiled, &passage, posts);
    if refused.load(Ordering::SeqCst) {
        return Err(RunFault::Memory);
    }
    let mut world = run.into_inner().into_world(compiled);
    run_rest(rt, &passage, compiled, &mut world)?;
    world.facts();
    Ok(world.finish())
}

/// Runs a compiled program from its start, with so much fuel for each thread, by a worker for each thread: each makes
/// the turns of its thread under one lock, and tells the gate, unless that is open, of each event of its own turns
/// without the lock. Where the gate is open it may make several turns before it gives the lock away. A worker whose
/// thread has to wait for a key waits without the lock, and is woken by whoever lets its thread in. A worker that isn't
/// or can't be started leaves its thread to the caller, who makes what turns are left once all workers have stopped.
/// `Memory` is answered only where a growth was refused; all workers have stopped then too.
pub fn run_threads<R: Threads + Wait + Sync, G: Gate>(
    rt: &R,
    alloc: Global,
    compiled: &Compiled,
    fuel: u32,
    gate: &G,
) -> Result<Run, RunFault>
    ensures { IfOk result (IsWholeRun compiled.now fuel) }
{
    run_named::<Brand, R, G>(rt, alloc, compiled, fuel, gate)
}
