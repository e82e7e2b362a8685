//! The text of a certificate.

ghost use Rattle.std.specs.Prelude.{◌≡◌, ◌↔◌, ◌<◌, ◌+◌, ℕ, List, length, IfOk, IfErr, IsErrOf, OnOk, IsOkUnless};
ghost use Rattle.sect_types.specs.Sections.{sections_of};
ghost use Rattle.sect_names.specs.{Schemes.{SchemeView}, Sources.{IsAccepted}};
ghost use Rattle.sect_infer.specs.{Sets.{AreInferredAt, AreAllInferred}, Workers.{AreOffered, AreRefused}};
ghost use Rattle.sect_infer.specs.declared.workers.InferFault.TheVariants.{BadWorkers};
ghost use Rattle.sect_emit.specs.{Certified.{IsCertifiedBy}, Faults.{IsDueBy}};
ghost use Rattle.sect_emit.specs.steps.Certifying.{IsBegun, IsWritten};
ghost use Rattle.sect_emit.specs.declared.fault.CompileFault.TheVariants as fault;

use crate::chains::numbered;
use crate::compiling::Unseen;
use crate::fault::CompileFault;
use crate::laws::claims::spelled_locks_are_valid;
use crate::lines::SectionLocks;
use crate::words::{put_chains, shared};
use sect_cert::{begin_cert, end_cert, put_entry, put_head, sections_are_lines};
use sect_infer::{InferFault, Locks, check_workers, infer, infer_all};
use sect_names::{Scheme, accept};
use std::alloc::{AllocError, Global};
use std::sync::Wait;
use std::thread::Threads;

/// The text of the certificate of a source text's compiled program, where 1 to 16 workers infer the locks of its
/// sections: `BadWorkers`, before all else, where their number is another. Where there is one worker, what is inferred
/// of a section is let go when its lines are written. `Memory` is answered only where a growth was refused.
pub fn certify_with<R: Threads + Wait + Sync>(
    rt: &R,
    alloc: Global,
    source: &[u8],
    k: u16,
    workers: u16,
) -> Result<Vec<u8>, CompileFault>
    // The text is accepted, and these are the bytes of the certificate of its compiled program, which the checker
    // accepts.
    ensures certified { IfOk result (λ text. IsCertifiedBy source.now k text.items) }
    // A text that is accepted is answered by so many workers as are offered, unless memory runs out.
    ensures only { (s : SchemeView) → AreOffered workers → IsAccepted source.now k s
        → IsOkUnless result fault.Memory }
    // What is answered is by so many workers as are offered.
    ensures offered { OnOk result (AreOffered workers) }
    // A refusal is due, and it is the first that is.
    ensures refuses { IfErr result (IsDueBy workers source.now k) }
{
    check_workers(workers)?;
    let scheme = accept(alloc, source, k)?;
    let text = text_by(rt, alloc, &scheme, workers)?;
    certificates_are_valid(&scheme);
    Ok(text)
}

/// What is spelled of a scheme's sections is a valid certificate.
fn certificates_are_valid(scheme: &Scheme)
    ensures { (source : List ℕ) (k : ℕ) (text : List ℕ) → IsAccepted source k scheme.now
        → IsWritten scheme.now text → IsCertifiedBy source k text }
{
    spelled_locks_are_valid();
    scheme.facts();
    scheme.program().facts();
    let _facts = scheme.program().tree();
}

/// The text of a scheme's certificate, by so many workers. Where there is one, it is the caller.
fn text_by<R: Threads + Wait + Sync>(
    rt: &R,
    alloc: Global,
    scheme: &Scheme,
    workers: u16,
) -> Result<Vec<u8>, InferFault>
    requires { AreOffered workers }
    ensures text { IfOk result (λ text. IsWritten scheme.now text.items) }
    ensures workers { IsErrOf result BadWorkers ↔ AreRefused workers }
{
    if workers == 1 {
        return Ok(text_by_one(alloc, scheme)?);
    }
    let all = infer_all(rt, alloc, scheme, workers, &Unseen)?;
    Ok(text_of(alloc, scheme, all.as_slice())?)
}

/// The text of a scheme's certificate, of which each section is inferred and written before the next one.
fn text_by_one(alloc: Global, scheme: &Scheme) -> Result<Vec<u8>, AllocError>
    ensures { IfOk result (λ text. IsWritten scheme.now text.items) }
{
    scheme.facts();
    let count = scheme.program().section_count();
    let mut text = begin_cert(alloc, scheme.k() as u32, count as usize)?;
    for section in 0..count {
        let locks = infer(alloc, scheme, section)?;
        put_words(alloc, &mut text, scheme, &locks, section)?;
    }
    end_cert(&mut text)?;
    Ok(text)
}

/// The text of a scheme's certificate by the locks of all sections.
pub fn text_of(alloc: Global, scheme: &Scheme, all: &[Locks]) -> Result<Vec<u8>, AllocError>
    requires { AreAllInferred scheme.now all.now }
    ensures { IfOk result (λ text. IsWritten scheme.now text.items) }
{
    scheme.facts();
    let count = scheme.program().section_count();
    let mut text = begin_cert(alloc, scheme.k() as u32, count as usize)?;
    for section in 0..count {
        put_words(alloc, &mut text, scheme, &all[section as usize], section)?;
    }
    end_cert(&mut text)?;
    Ok(text)
}

/// Writes by names what is inferred of a section: line by line, since all lines of a section may take far more room
/// than one.
fn put_words(
    alloc: Global,
    out: &mut Vec<u8>,
    scheme: &Scheme,
    locks: &Locks,
    section: u16,
) -> Result<(), AllocError>
    requires section { section < length (sections_of scheme.now.program.texts) }
    requires inferred { AreInferredAt scheme.now section locks.now }
    requires begun { IsBegun scheme.now section out.old.items }
    ensures { OnOk result (IsBegun scheme.now (section + 1) out.new.items) }
{
    sections_are_lines();
    scheme.facts();
    let words = SectionLocks {
        program: scheme.program(),
        locks,
        nodes: scheme.graph().section(section).exit() + 1,
    };
    let mut list = words.first_list(alloc)?;
    let entry = shared(alloc, list.named.as_slice())?;
    put_head(out, section as usize, words.nodes as usize)?;
    words.put_nodes(alloc, out, &mut list)?;
    put_entry(out, entry.as_slice())?;
    let chains = numbered(alloc, scheme, locks, section)?;
    put_chains(alloc, out, words.program, &chains, entry.as_slice())?;
    Ok(())
}
