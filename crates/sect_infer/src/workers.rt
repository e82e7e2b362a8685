//! The locks of all sections, by several workers.

ghost use Rattle.std.specs.Prelude.{◌≡◌, ◌<◌, ◌↔◌, Some, length, slice_set, IfOk, IfErr, OnOk, IsErrOf};
ghost use Rattle.sect_infer.specs.{Sets.{AreAllInferred}, Workers.{most_workers, AreOffered, AreRefused}};
ghost use Rattle.sect_infer.specs.declared.workers.InferFault.TheVariants.{BadWorkers};
ghost use Rattle.sect_infer.specs.steps.Sharing.{AreFound, IsShare, AreInPlace, AreOf};

use crate::locks::Locks;
use crate::section::infer;
use sect_names::Scheme;
use std::alloc::{AllocError, Global};
use std::sync::Wait;
use std::thread;
use std::thread::{Promise, PromisedHandle, Threads};
use thiserror::Error;

/// The most workers.
pub const MOST_WORKERS: u16 = 16;

/// The constant is the limit that the definitions state.
pub fn limit_of_workers()
    ensures { MOST_WORKERS ≡ most_workers }
{}

/// Why the locks of a program aren't inferred by several workers. `Display` is the refusal that the program prints.
#[derive(Clone, Copy, Debug, PartialEq, Eq, Error)]
pub enum InferFault {
    /// The number of workers isn't one of 1 to 16.
    #[error("61 BadWorkers")]
    BadWorkers,
    /// Want of memory.
    #[error("out of memory")]
    Memory,
}

impl From<AllocError> for InferFault {
    ghost use Rattle.std.specs.Prelude.{◌≡◌};
    ghost use Rattle.sect_infer.specs.declared.workers.InferFault.TheVariants.{Memory};

    ghost from_gives = { λ _ e. e ≡ Memory };

    fn from(_refused: AllocError) -> InferFault {
        InferFault::Memory
    }
}

/// Tests how many workers there are to be: `BadWorkers` where the number isn't one of 1 to 16.
pub fn check_workers(workers: u16) -> Result<(), InferFault>
    ensures ok { OnOk result (AreOffered workers) }
    ensures err { IfErr result (λ fault. (fault ≡ BadWorkers) × AreRefused workers) }
{
    if workers == 0 || workers > MOST_WORKERS {
        return Err(InferFault::BadWorkers);
    }
    Ok(())
}

/// Is told of each section once its locks are inferred, by whoever inferred them.
pub trait Seen: Sync {
    /// Whether this worker is to be started. The sections of a worker that isn't started are the caller's, as where the
    /// system can't start one.
    fn starts(&self, worker: u16) -> bool;

    /// The locks of this section are inferred.
    fn at(&self, section: u16);
}

/// The locks of a section, with its number.
#[derive(Drop)]
struct SectionLocks {
    section: u16,
    locks: Locks,
}

/// The locks of the sections that fall to a worker: of those whose number leaves its number over, divided by how many
/// workers there are.
fn share<S: Seen>(
    alloc: Global,
    scheme: &Scheme,
    worker: u16,
    workers: u16,
    seen: &S,
) -> Result<Vec<SectionLocks>, AllocError>
    requires { 0 < workers }
    ensures { IfOk result (λ found. IsShare scheme.now workers worker found.items) }
{
    scheme.program().facts();
    let mut found = Vec::new(alloc);
    for section in 0..scheme.program().section_count() {
        if section % workers == worker {
            let locks = infer(alloc, scheme, section)?;
            found.push(SectionLocks { section, locks })?;
            seen.at(section);
        }
    }
    Ok(found)
}

/// No section's locks yet.
fn no_locks(alloc: Global, scheme: &Scheme) -> Result<Vec<Option<Locks>>, AllocError>
    ensures { IfOk result (λ places. AreInPlace scheme.now places.items) }
{
    scheme.program().facts();
    let mut places = Vec::new(alloc);
    for _ in 0..scheme.program().section_count() {
        places.push(None)?;
    }
    Ok(places)
}

/// Puts the locks of a section in their place.
fn put(places: &mut Vec<Option<Locks>>, section: u16, locks: Locks)
    requires { section < length places.old.items }
    ensures { places.new.items ≡ slice_set places.old.items section (Some locks) }
{
    places[section as usize] = Some(locks);
}

/// Puts the locks of sections in their places.
fn put_all(scheme: &Scheme, places: &mut Vec<Option<Locks>>, found: Vec<SectionLocks>)
    requires places { AreInPlace scheme.now places.old.items }
    requires found { AreFound scheme.now found.items }
    ensures { AreInPlace scheme.now places.new.items }
{
    let _facts = scheme;
    for SectionLocks { section, locks } in found {
        put(places, section, locks);
    }
}

/// The locks of all sections. Those that aren't in their places are inferred here.
fn complete<S: Seen>(
    alloc: Global,
    scheme: &Scheme,
    places: Vec<Option<Locks>>,
    seen: &S,
) -> Result<Vec<Locks>, AllocError>
    requires { AreInPlace scheme.now places.items }
    ensures { IfOk result (λ all. AreAllInferred scheme.now all.items) }
{
    let _facts = scheme.program().section_count();
    let mut all = Vec::new(alloc);
    let mut section = 0;
    for place in places {
        match place {
            Some(locks) => all.push(locks)?,
            None => {
                all.push(infer(alloc, scheme, section)?)?;
                seen.at(section);
            }
        }
        section += 1;
    }
    Ok(all)
}

/// What a worker hands on when it is joined: the locks of the sections of this scheme that fall to it.
#[derive(Clone, Copy)]
struct ShareOf<'a> {
    scheme: &'a Scheme,
    worker: u16,
    workers: u16,
}

impl<'a> Promise<Result<Vec<SectionLocks>, AllocError>> for ShareOf<'a> {
    ghost use Rattle.std.specs.Prelude.{IfOk};
    ghost use Rattle.sect_infer.specs.steps.Sharing.{IsShare};

    ghost kept_by = { λ p r. IfOk r (λ found. IsShare p.scheme.now p.workers p.worker found.items) };
}

/// The thread of a worker.
type Handle<'a> = PromisedHandle<Result<Vec<SectionLocks>, AllocError>, ShareOf<'a>>;

/// Waits for the workers and puts what they found in its places.
fn join_all<'a, R: Threads>(
    rt: &R,
    alloc: Global,
    scheme: &Scheme,
    started: Vec<Handle<'a>>,
) -> Result<Vec<Option<Locks>>, AllocError>
    requires { AreOf scheme.now started.items }
    ensures { IfOk result (λ places. AreInPlace scheme.now places.items) }
{
    let mut places = no_locks(alloc, scheme)?;
    for handle in started {
        let found = handle.join(rt)?;
        put_all(scheme, &mut places, found);
    }
    Ok(places)
}

/// The locks of all sections, in order, each as `infer` gives them, by 1 to 16 workers: `BadWorkers` where the number
/// is another. Section i falls to worker i modulo `workers`; those of a worker that isn't or can't be started fall to
/// the caller. `Memory` is answered only where a growth was refused.
pub fn infer_all<R: Threads + Wait + Sync, S: Seen>(
    rt: &R,
    alloc: Global,
    scheme: &Scheme,
    workers: u16,
    seen: &S,
) -> Result<Vec<Locks>, InferFault>
    ensures locks { IfOk result (λ all. AreAllInferred scheme.now all.items) }
    ensures workers { IsErrOf result BadWorkers ↔ AreRefused workers }
{
    check_workers(workers)?;
    let places = thread::scope(
        thread::scope_env(),
        rt,
        |scope| -> Result<Vec<Option<Locks>>, AllocError>
            requires { 0 < workers }
            ensures { IfOk result (λ places. AreInPlace scheme.entry.now places.items) }
        {
            let mut started = Vec::with_capacity(alloc, usize::from(workers))?;
            for worker in 0..workers {
                if !seen.starts(worker) {
                    continue;
                }
                let job = move || -> Result<Vec<SectionLocks>, AllocError>
                    requires { 0 < workers }
                    ensures { IfOk result (λ found. IsShare scheme.entry.now workers worker found.items) }
                { share(alloc, scheme, worker, workers, seen) };
                let promised = ShareOf {
                    scheme,
                    worker,
                    workers,
                };
                if let Ok(handle) = scope.spawn_with(promised, job) {
                    started.push(handle)?;
                }
            }
            join_all(rt, alloc, scheme, started)
        },
    )?;
    Ok(complete(alloc, scheme, places, seen)?)
}
