//! Where warnings stand, and what is said there.

ghost use Rattle.std.specs.Prelude.{IfOk, All, length};
ghost use Rattle.sect_front.specs.Front.{IsSpelled};
ghost use Rattle.sect_places.specs.NameSpans.{AreNameSpans};
ghost use Rattle.sect_warnings.specs.{Warnings.{IsDue, AreAtItems}, Reports.{ArePlaced, AreWithin}};

use crate::mark::{Kept, Mark, mark_of};
use crate::placed::Placed;
use crate::remedy::Accepted;
use crate::trials::try_hints;
use crate::warning::{Told, Warning};
use sect_places::{node_origins, tree_spans};
use std::alloc::{AllocError, Global};

/// The same as `places_of`, of some warnings.
fn some_places(
    alloc: Global,
    accepted: Accepted<'_>,
    found: &[Warning],
) -> Result<Vec<Placed>, AllocError>
    requires spelled { IsSpelled accepted.source.now accepted.compiled.now.scheme.program.source }
    requires names { AreNameSpans accepted.source.now accepted.compiled.now.scheme.program.source accepted.names.now }
    requires items { AreAtItems accepted.compiled.now.scheme.program.source found.now }
    requires due { All (IsDue accepted.compiled.now) found.now }
    ensures placed { IfOk result (λ placed. ArePlaced accepted.entry.source.now accepted.entry.names.now
        accepted.entry.compiled.now found.now placed.items) }
    ensures within { IfOk result (λ placed. AreWithin (length accepted.entry.source.now) placed.items) }
{
    let program = accepted.compiled.scheme().program();
    let tree = program.tree();
    let spans = tree_spans(alloc, accepted.source, tree)?;
    let origins = node_origins(alloc, program)?;
    let mut kept = Kept::new();
    let mut placed = Vec::with_capacity(alloc, found.len())?;
    let mut trials = Vec::with_capacity(alloc, found.len())?;
    for warning in found {
        let Mark {
            item,
            label,
            note,
            trial,
        } = mark_of(alloc, accepted, &origins, &mut kept, *warning)?;
        placed.push(Placed::new(Told::Section(*warning), spans[item], label, note))?;
        trials.push(trial)?;
    }
    try_hints(alloc, accepted, trials.as_slice(), &mut placed)?;
    Ok(placed)
}

/// Warnings of the compiled program of a source text, each with the bytes that are marked and what is said of them.
pub fn places_of(
    alloc: Global,
    accepted: Accepted<'_>,
    found: &[Warning],
) -> Result<Vec<Placed>, AllocError>
    requires spelled { IsSpelled accepted.source.now accepted.compiled.now.scheme.program.source }
    requires names { AreNameSpans accepted.source.now accepted.compiled.now.scheme.program.source accepted.names.now }
    requires items { AreAtItems accepted.compiled.now.scheme.program.source found.now }
    requires due { All (IsDue accepted.compiled.now) found.now }
    ensures placed { IfOk result (λ placed. ArePlaced accepted.entry.source.now accepted.entry.names.now
        accepted.entry.compiled.now found.now placed.items) }
    ensures within { IfOk result (λ placed. AreWithin (length accepted.entry.source.now) placed.items) }
{
    match found {
        [] => Ok(Vec::new(alloc)),
        _ => some_places(alloc, accepted, found),
    }
}
