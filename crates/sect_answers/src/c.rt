//! The command `c`.

ghost use Rattle.std.specs.Prelude.{IfOk, IfErr, IsOkUnless};
ghost use Rattle.sect_names.specs.{Schemes.{SchemeView}, Sources.{IsAccepted}};
ghost use Rattle.sect_answers.specs.{declared.refusal.Refusal.TheVariants.{Memory}, Answers.{IsDue}};
ghost use Rattle.sect_answers.specs.InC.{IsProgramInC};

use crate::refusal::Refusal;
use sect_c::c_program;
use sect_emit::compile;
use std::alloc::Global;

/// The compiled program of a source text in C.
pub fn program_in_c(alloc: Global, source: &[u8], k: u16) -> Result<Vec<u8>, Refusal>
    // The text is accepted, and these are the bytes of its compiled program in C.
    ensures answers { IfOk result (λ text. IsProgramInC source.now k text.items) }
    // A text that is accepted is answered, unless memory runs out.
    ensures only { (s : SchemeView) → IsAccepted source.now k s → IsOkUnless result Memory }
    // A refusal is due, and it is the first that is.
    ensures refuses { IfErr result (IsDue source.now k) }
{
    let compiled = compile(alloc, source, k)?;
    Ok(c_program(alloc, &compiled)?)
}
