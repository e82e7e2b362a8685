//! The command `check`.

ghost use Rattle.std.specs.{Prelude.{◌≡◌, codes, IfOk, IfErr, IsOkUnless}, String.{string_bytes}};
ghost use Rattle.sect_answers.specs.declared.refusal.Refusal.TheVariants.{Memory};
ghost use Rattle.sect_answers.specs.Checking.{IsValidInput, IsCheckDue};

use crate::refusal::Refusal;
use crate::splitting::split;
use sect_check::check;
use std::alloc::Global;

/// The word `valid` for a certificate that is valid for the source text that stands behind it in one input, and for
/// paths of at most `k` fields.
pub fn verdict(alloc: Global, input: &[u8], k: u16) -> Result<String, Refusal>
    // The certificate is valid for the source, and the word is the answer.
    ensures answers { IfOk result (λ text. IsValidInput input.now k × (string_bytes text ≡ codes "valid\n")) }
    // A valid certificate is answered, unless memory runs out.
    ensures only { IsValidInput input.now k → IsOkUnless result Memory }
    // A refusal is due, and it is the first that is.
    ensures refuses { IfErr result (IsCheckDue input.now k) }
{
    let (cert, source) = split(input);
    check(alloc, source, k, cert)?;
    Ok(String::from_str(alloc, "valid\n")?)
}
