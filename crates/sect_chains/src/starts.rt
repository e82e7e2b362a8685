//! Where the steps of the first node stand.

ghost use Rattle.std.specs.Prelude.{◌≡◌, ◌<◌, ℕ, Option, None, length, IfOk};
ghost use Rattle.sect_lemmas.specs.Lists.{Has};
ghost use Rattle.sect_chains.specs.declared.keep.KeptLink.{KeptLink};
ghost use Rattle.sect_chains.specs.steps.Starting.{AreStarts};

use crate::work::Trail;
use std::alloc::{AllocError, Global};

/// Nothing, for so many numbers.
fn no_starts(alloc: Global, count: usize) -> Result<Vec<Option<usize>>, AllocError>
    ensures count { IfOk result (λ starts. length starts.items ≡ count) }
    ensures none { IfOk result (λ starts. (o : Option ℕ) → Has starts.items o → o ≡ None) }
{
    let mut starts = Vec::with_capacity(alloc, count)?;
    for _ in 0..count {
        starts.push(None)?;
    }
    Ok(starts)
}

/// For the number of each lock the index of its step at the first node, none where there is no such step.
pub fn starts_of(alloc: Global, trail: &Trail) -> Result<Vec<Option<usize>>, AllocError>
    requires { (x : KeptLink) → Has trail.now.steps.items x → x.number < length trail.now.numbering.keys }
    ensures { IfOk result (λ starts. AreStarts (length trail.now.numbering.keys) trail.now.steps.items
        (length trail.now.steps.items) starts.items) }
{
    let mut starts = no_starts(alloc, trail.numbering.len())?;
    for index in 0..trail.steps.len() {
        let step = trail.steps[index];
        if step.node == 0 {
            starts[step.number] = Some(index);
        }
    }
    Ok(starts)
}
