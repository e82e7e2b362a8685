//! The workers.

ghost use Rattle.std.specs.Prelude.{◌≡◌, ◌<◌, Some, IfOk, IfSome, OnOk, length};
ghost use Rattle.sect_world.specs.Stretches.{IsStretchOf};
ghost use Rattle.sect_run.specs.steps.{Shares.{AreBelow, threads_in}, Turns.{WasVisited}};

use crate::fault::RunFault;
use crate::gate::{Awaited, Gate, Passage};
use crate::patience::Patience;
use crate::share::{Naming, Post, SharedRun};
use crate::visit::{Terms, Visit};
use crossbeam_utils::sync::Unparker;
use sect_emit::Compiled;
use sect_world::Turned;
use std::sync::atomic::{AtomicBool, Ordering};
use std::sync::{Mutex, Wait};
use std::thread;
use std::thread::Threads;

/// What the workers share: the run under its lock, who wakes the worker of each thread, and whether a turn was refused.
#[derive(Drop)]
pub struct Shared<'a, J: Naming> {
    pub run: &'a Mutex<SharedRun<J>>,
    pub unparkers: &'a [Unparker],
    pub refused: &'a AtomicBool,
}

/// The most turns that a worker makes without giving the lock away.
const MOST_TURNS: u16 = 16;

/// The most events of a stretch that a worker runs without the lock.
const MOST_EVENTS: u32 = 4096;

/// What a worker asks of its next visit: one turn, unless the gate is open.
fn next_terms<G: Gate>(passage: &Passage<'_, G>, patience: &mut Patience) -> Terms {
    if passage.is_open {
        Terms {
            most: MOST_TURNS,
            takes: patience.takes_next(),
        }
    } else {
        Terms {
            most: 1,
            takes: false,
        }
    }
}

/// A worker's visit to the run under its lock.
fn visit_under<J: Naming, R: Wait>(
    rt: &R,
    run: &Mutex<SharedRun<J>>,
    compiled: &Compiled,
    terms: Terms,
    post: &mut Post<J>,
) -> Result<Visit, RunFault>
    requires compiled { J.compiled ≡ Some compiled.now }
    requires thread { post.old.thread < threads_in compiled.now }
    requires stretch { IfSome post.old.stretch (IsStretchOf compiled.now post.old.thread) }
    ensures same { post.new.thread ≡ post.old.thread }
    ensures visited { IfOk result (λ visit.
        WasVisited compiled.now J.fuel post.old.thread terms.most visit.turned post.new.woken.items) }
    ensures woken { OnOk result (AreBelow (threads_in compiled.now) post.new.woken.items) }
    ensures stretch { IfSome post.new.stretch (IsStretchOf compiled.now post.new.thread) }
{
    run.lock(rt).visit(
        compiled,
        post.thread,
        terms,
        &mut post.woken,
        &mut post.stretch,
    )
}

/// Runs the stretch that a worker has taken along, if there is one, without the lock. The gate is told before.
fn run_apart<J: Naming, G: Gate>(
    gate: &G,
    compiled: &Compiled,
    post: &mut Post<J>,
    patience: &mut Patience,
) -> Result<(), RunFault>
    requires { IfSome post.old.stretch (IsStretchOf compiled.now post.old.thread) }
    ensures same { post.new.thread ≡ post.old.thread }
    ensures stretch { IfSome post.new.stretch (IsStretchOf compiled.now post.new.thread) }
{
    let Some(mut stretch) = post.stretch.take() else {
        return Ok(());
    };
    gate.apart(post.thread);
    stretch.run(compiled, MOST_EVENTS)?;
    patience.learn(stretch.count());
    post.stretch = Some(stretch);
    Ok(())
}

/// Waits without the lock until the worker is woken. The gate is told before and after.
fn wait<J: Naming, R: Wait, G: Gate>(rt: &R, gate: &G, post: &Post<J>, awaited: Option<Awaited>) {
    if let Some(awaited) = awaited {
        gate.waits(post.thread, awaited);
    }
    post.parker.park(rt);
    gate.has_waited(post.thread);
}

/// Wakes the workers of these threads.
fn wake(unparkers: &[Unparker], woken: &[u16])
    requires { AreBelow (length unparkers.now) woken.now }
{
    for thread in woken {
        unparkers[*thread as usize].unpark();
    }
}

/// Has all workers stop. Those that wait are woken.
fn stop(unparkers: &[Unparker], refused: &AtomicBool) {
    refused.store(true, Ordering::SeqCst);
    for unparker in unparkers {
        unparker.unpark();
    }
}

/// Makes the turns of one thread until it has ended, or until a turn was refused, whosever. Where the gate is open, the
/// worker goes on without the lock as far as the thread can go on apart. Where the thread has to wait for a key its
/// worker waits without the lock.
fn work<J: Naming, R: Wait, G: Gate>(
    rt: &R,
    shared: &Shared<'_, J>,
    compiled: &Compiled,
    passage: &Passage<'_, G>,
    mut post: Post<J>,
)
    requires compiled { J.compiled ≡ Some compiled.now }
    requires threads { J.threads ≡ threads_in compiled.now }
    requires unparkers { length shared.now.unparkers.now ≡ J.threads }
{
    let mut patience = Patience::new();
    post.drop_stretch();
    for _ in rt.forever() {
        if shared.refused.load(Ordering::SeqCst) {
            return;
        }
        let terms = next_terms(passage, &mut patience);
        let visit = match visit_under(rt, shared.run, compiled, terms, &mut post) {
            Ok(visit) => visit,
            Err(RunFault::Memory) => return stop(shared.unparkers, shared.refused),
        };
        wake(shared.unparkers, post.woken.as_slice());
        if visit.was_stale {
            passage.gate.was_stale(post.thread);
        }
        match visit.turned {
            Turned::Moved(kind) => passage.tell(post.thread, kind),
            Turned::Waits => wait(rt, passage.gate, &post, visit.awaited),
            Turned::Ended => return,
        }
        if run_apart(passage.gate, compiled, &mut post, &mut patience).is_err() {
            return stop(shared.unparkers, shared.refused);
        }
    }
}

/// Starts a worker at each post where the gate says so, and returns when all have stopped. A worker that isn't started
/// makes no turn.
pub fn start_workers<J: Naming + Send + Sync, R: Threads + Wait + Sync, G: Gate>(
    rt: &R,
    shared: &Shared<'_, J>,
    compiled: &Compiled,
    passage: &Passage<'_, G>,
    posts: Vec<Post<J>>,
)
    requires compiled { J.compiled ≡ Some compiled.now }
    requires threads { J.threads ≡ threads_in compiled.now }
    requires unparkers { length shared.now.unparkers.now ≡ J.threads }
{
    thread::scope(
        thread::scope_env(),
        rt,
        |scope|
            requires { (J.compiled ≡ Some compiled.now) × (J.threads ≡ threads_in compiled.now)
                × (length shared.now.unparkers.now ≡ J.threads) }
        {
            for post in posts {
                if !passage.gate.starts(post.thread) {
                    continue;
                }
                let job = move ||
                    requires { (J.compiled ≡ Some compiled.now) × (J.threads ≡ threads_in compiled.now)
                        × (length shared.now.unparkers.now ≡ J.threads) }
                { work(rt, shared, compiled, passage, post) };
                let _ = scope.spawn(job);
            }
        },
    );
}
