//! Compilation.

ghost use Rattle.std.specs.Prelude.{◌≡◌, ◌↔◌, ℕ, List, map, IfOk, IfErr, IsErrOf, OnOk, IsOkUnless};
ghost use Rattle.sect_names.specs.{declared.refusal.SourceRefusal.TheVariants.{Memory}, Schemes.{SchemeView}};
ghost use Rattle.sect_names.specs.Sources.{IsAccepted, IsDue};
ghost use Rattle.sect_infer.specs.{Sets.{AreAllInferred}, Workers.{AreOffered, AreRefused}};
ghost use Rattle.sect_infer.specs.declared.workers.InferFault.TheVariants.{BadWorkers};
ghost use Rattle.sect_emit.specs.{Compiled.{IsCompiled, AreSetsLeast, IsCompiledFrom}, Faults.{IsDueBy}};
ghost use Rattle.sect_emit.specs.steps.Inferred.{entries_of, AreFixedParts};
ghost use Rattle.sect_emit.specs.declared.fault.CompileFault.TheVariants as fault;

use crate::compiled::Compiled;
use crate::fault::CompileFault;
use crate::fixed::fixed_part;
use crate::plan::Grip;
use sect_infer::{InferFault, Locks, Seen, check_workers, infer, infer_all};
use sect_names::{Scheme, SourceRefusal, accept};
use std::alloc::{AllocError, Global};
use std::sync::Wait;
use std::thread::Threads;

/// The compiled program of a source text, for paths of at most `k` fields. How many fields a path may have is judged
/// before the source; then the first fault of the text, of its types or of its hints is answered. `Memory` is answered
/// only where a growth was refused.
pub fn compile(alloc: Global, source: &[u8], k: u16) -> Result<Compiled, SourceRefusal>
    // The text is accepted, and this is its compiled program, with the least set of each section.
    ensures compiled { IfOk result (IsCompiledFrom source.now k) }
    // A text that is accepted is compiled, unless memory runs out.
    ensures only { (s : SchemeView) → IsAccepted source.now k s → IsOkUnless result Memory }
    // A refusal is due, and it is the first that is.
    ensures refuses { IfErr result (IsDue source.now k) }
{
    let scheme = accept(alloc, source, k)?;
    Ok(compile_scheme(alloc, scheme)?)
}

/// The compiled program of a scheme. It fails only where a growth was refused.
pub fn compile_scheme(alloc: Global, scheme: Scheme) -> Result<Compiled, AllocError>
    // It has the least set of each section.
    ensures compiled { IfOk result (λ c. (c.scheme ≡ scheme) × IsCompiled c × AreSetsLeast c) }
    // It is that of each source text that is accepted with this scheme.
    ensures from { (source : List ℕ) (k : ℕ) → IsAccepted source k scheme
        → IfOk result (IsCompiledFrom source k) }
{
    let locks = all_locks(alloc, &scheme)?;
    planned(alloc, scheme, locks)
}

/// The compiled program of a source text, as `compile` gives it, where 1 to 16 workers infer the locks of its sections:
/// `BadWorkers`, before all else, where their number is another. `Memory` is answered only where a growth was refused.
pub fn compile_with<R: Threads + Wait + Sync>(
    rt: &R,
    alloc: Global,
    source: &[u8],
    k: u16,
    workers: u16,
) -> Result<Compiled, CompileFault>
    // The text is accepted, and this is its compiled program, with the least set of each section.
    ensures compiled { IfOk result (IsCompiledFrom source.now k) }
    // A text that is accepted is compiled by so many workers as are offered, unless memory runs out.
    ensures only { (s : SchemeView) → AreOffered workers → IsAccepted source.now k s
        → IsOkUnless result fault.Memory }
    // What is answered is by so many workers as are offered.
    ensures offered { OnOk result (AreOffered workers) }
    // A refusal is due, and it is the first that is.
    ensures refuses { IfErr result (IsDueBy workers source.now k) }
{
    check_workers(workers)?;
    let scheme = accept(alloc, source, k)?;
    let locks = locks_by(rt, alloc, &scheme, workers)?;
    Ok(planned(alloc, scheme, locks)?)
}

/// The locks of each section, by so many workers. Where there is one, it is the caller.
fn locks_by<R: Threads + Wait + Sync>(
    rt: &R,
    alloc: Global,
    scheme: &Scheme,
    workers: u16,
) -> Result<Vec<Locks>, InferFault>
    requires { AreOffered workers }
    ensures locks { IfOk result (λ all. AreAllInferred scheme.now all.items) }
    ensures workers { IsErrOf result BadWorkers ↔ AreRefused workers }
{
    if workers == 1 {
        return Ok(all_locks(alloc, scheme)?);
    }
    infer_all(rt, alloc, scheme, workers, &Unseen)
}

/// Has all workers started, is told of sections and does nothing.
#[derive(Clone, Copy)]
pub struct Unseen;

impl Seen for Unseen {
    fn starts(&self, _worker: u16) -> bool {
        true
    }

    fn at(&self, _section: u16) {}
}

/// The compiled program of a scheme with the locks of each section.
fn planned(alloc: Global, scheme: Scheme, locks: Vec<Locks>) -> Result<Compiled, AllocError>
    requires { AreAllInferred scheme locks.items }
    ensures { IfOk result (λ c. (c.scheme ≡ scheme) × IsCompiled c × AreSetsLeast c) }
{
    let parts = all_parts(alloc, &scheme, locks.as_slice())?;
    let compiled = Compiled::of(scheme, locks, parts);
    compiled.facts();
    Ok(compiled)
}

/// The locks of each section.
fn all_locks(alloc: Global, scheme: &Scheme) -> Result<Vec<Locks>, AllocError>
    ensures { IfOk result (λ all. AreAllInferred scheme.now all.items) }
{
    let mut all = Vec::new(alloc);
    for section in 0..scheme.program().section_count() {
        all.push(infer(alloc, scheme, section)?)?;
    }
    Ok(all)
}

/// The fixed part of each section's plan.
fn all_parts(alloc: Global, scheme: &Scheme, all: &[Locks]) -> Result<Vec<Vec<Grip>>, AllocError>
    requires { AreAllInferred scheme.now all.now }
    ensures { IfOk result (λ parts.
        AreFixedParts scheme.now (entries_of all.now) (map (λ v. v.items) parts.items)) }
{
    scheme.facts();
    let mut parts = Vec::new(alloc);
    for locks in all {
        parts.push(fixed_part(alloc, scheme, locks.entry())?)?;
    }
    Ok(parts)
}
