//! What is needed at the nodes of a section's graph, with where each lock was carried back from.

ghost use Rattle.std.specs.Prelude.{◌≡◌, ◌<◌, ◌≤◌, length, IfOk};
ghost use Rattle.sect_names.specs.Laws.{AreLawful};
ghost use Rattle.sect_chains.specs.steps.{Trails.{RespectCover}, Following.{LinkBack, numbered, chain_from}};
ghost use Rattle.sect_chains.specs.steps.Ordering.{IsSearched};
ghost use Rattle.sect_graph.specs.Predecessors.{StaysWithin};

use crate::keep::KeptLink;
use crate::numbered::NumberedStep;
use crate::work::{Searched, Trail};
use sect_graph::predecessors_of;
use sect_infer::Numbers;
use std::alloc::{AllocError, Global};

/// What is needed from each node of a section's graph on, and why: what the nodes and the section's end generate, and
/// what is carried back from where control may go on, but for locks that another covers which was found before. The
/// search goes breadth first, so that each lock of the entry is found along its first chain.
pub fn trail_of(alloc: Global, section: Searched<'_>) -> Result<Trail, AllocError>
    requires within { StaysWithin section.flow.now }
    requires lawful { AreLawful section.scheme.now section.thread section.last.now section.flow.now }
    requires respects { RespectCover section.scheme.now section.thread section.flow.now }
    requires few { length section.last.now ≤ 1 }
    ensures { IfOk result (IsSearched section.entry.scheme.now section.entry.thread section.entry.last.now
        section.entry.flow.now) }
{
    let predecessors = predecessors_of(alloc, section.flow)?;
    let mut trail = section.generated(alloc)?;
    let mut fresh = Numbers::new(alloc);
    let mut done = 0;
    while done < trail.steps.len() {
        let nodes = predecessors.of(trail.steps[done].node);
        section.carry(alloc, nodes, &mut trail, &mut fresh, done)?;
        done += 1;
    }
    Ok(trail)
}

/// A step, without the one to which it links.
fn numbered(step: KeptLink) -> NumberedStep
    ensures { result ≡ numbered step }
{
    NumberedStep {
        node: step.node,
        number: step.number,
    }
}

/// How many steps stand behind the one at an index, up to where a lock is generated.
fn steps_behind(steps: &[KeptLink], start: usize) -> usize
    requires back { LinkBack steps.now }
    requires there { start < length steps.now }
    ensures { result ≤ start }
{
    let mut count = 0usize;
    let mut at = start;
    while let Some(next) = steps[at].next {
        count += 1;
        at = next;
    }
    count
}

/// The steps from the one at an index on, to where a lock is generated.
pub fn steps_from(
    alloc: Global,
    steps: &[KeptLink],
    start: usize,
) -> Result<Vec<NumberedStep>, AllocError>
    requires back { LinkBack steps.now }
    requires there { start < length steps.now }
    ensures { IfOk result (λ chain. chain.items ≡ chain_from steps.now start) }
{
    let mut chain = Vec::with_capacity(alloc, steps_behind(steps, start) + 1)?;
    let mut at = start;
    while let Some(next) = steps[at].next {
        chain.push(numbered(steps[at]))?;
        at = next;
    }
    chain.push(numbered(steps[at]))?;
    Ok(chain)
}
