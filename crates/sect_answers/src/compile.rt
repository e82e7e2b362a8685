//! The command `compile`.

ghost use Rattle.std.specs.Prelude.{◌≡◌, IfOk, IfErr, OnOk, IsOkUnless};
ghost use Rattle.sect_names.specs.{Schemes.{SchemeView}, Sources.{IsAccepted}};
ghost use Rattle.sect_check.specs.{Valid.{IsValid}, Verdicts.{IsRead}};
ghost use Rattle.sect_answers.specs.declared.refusal.Refusal.TheVariants.{Memory};
ghost use Rattle.sect_answers.specs.Compiling.{IsCertified, IsProgramListing, IsProgramDocument, IsCompileDue};
ghost use Rattle.sect_infer.specs.Workers.{AreOffered};

use crate::refusal::Refusal;
use sect_emit::{certify_with, compile_with, listing};
use sect_json::compiled_document;
use std::alloc::Global;
use std::sync::Wait;
use std::thread::Threads;

/// The listing of the compiled program of a source text, where so many workers infer the locks.
pub fn program_listing<R: Threads + Wait + Sync>(
    rt: &R,
    alloc: Global,
    source: &[u8],
    k: u16,
    workers: u16,
) -> Result<Vec<u8>, Refusal>
    // The text is accepted, and these are the bytes of the listing of its compiled program.
    ensures answers { IfOk result (λ text. IsProgramListing source.now k text.items) }
    // What is answered is by so many workers as are offered.
    ensures offered { OnOk result (AreOffered workers) }
    // A text that is accepted is answered by them, unless memory runs out.
    ensures only { (s : SchemeView) → AreOffered workers → IsAccepted source.now k s → IsOkUnless result Memory }
    // A refusal is due, and it is the first that is.
    ensures refuses { IfErr result (IsCompileDue source.now k workers) }
{
    let compiled = compile_with(rt, alloc, source, k, workers)?;
    Ok(listing(alloc, &compiled)?)
}

/// The compiled program of a source text as a document, where so many workers infer the locks.
pub fn program_document<R: Threads + Wait + Sync>(
    rt: &R,
    alloc: Global,
    source: &[u8],
    k: u16,
    workers: u16,
) -> Result<Vec<u8>, Refusal>
    // The text is accepted, and this is the document of its compiled program.
    ensures answers { IfOk result (λ text. IsProgramDocument source.now k text.items) }
    // What is answered is by so many workers as are offered.
    ensures offered { OnOk result (AreOffered workers) }
    // A text that is accepted is answered by them, unless memory runs out.
    ensures only { (s : SchemeView) → AreOffered workers → IsAccepted source.now k s → IsOkUnless result Memory }
    // A refusal is due, and it is the first that is.
    ensures refuses { IfErr result (IsCompileDue source.now k workers) }
{
    let compiled = compile_with(rt, alloc, source, k, workers)?;
    Ok(compiled_document(alloc, &compiled)?.into_bytes())
}

/// The text of the certificate of a source text's compiled program, where so many workers infer the locks.
pub fn program_certificate<R: Threads + Wait + Sync>(
    rt: &R,
    alloc: Global,
    source: &[u8],
    k: u16,
    workers: u16,
) -> Result<Vec<u8>, Refusal>
    // The text is accepted, and these are the bytes of the certificate of its compiled program.
    ensures answers { IfOk result (λ text. IsCertified source.now k text.items) }
    // The checker accepts them for this text.
    ensures valid { IfOk result (λ text. IsRead source.now k text.items IsValid) }
    // What is answered is by so many workers as are offered.
    ensures offered { OnOk result (AreOffered workers) }
    // A text that is accepted is answered by them, unless memory runs out.
    ensures only { (s : SchemeView) → AreOffered workers → IsAccepted source.now k s → IsOkUnless result Memory }
    // A refusal is due, and it is the first that is.
    ensures refuses { IfErr result (IsCompileDue source.now k workers) }
{
    Ok(certify_with(rt, alloc, source, k, workers)?)
}
