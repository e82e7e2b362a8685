//! The chains of a section.

ghost use Rattle.std.specs.Prelude.{◌≡◌, ◌<◌, ◌≤◌, List, Some, length, slice_get, IfOk};
ghost use Rattle.sect_lemmas.specs.Lists.{Has};
ghost use Rattle.sect_types.specs.Sections.{SectionView, sections_of};
ghost use Rattle.sect_graph.specs.declared.flow.Node.{Node};
ghost use Rattle.sect_names.specs.{declared.link.Link.{Link}, Needed.{end_of}};
ghost use Rattle.sect_chains.specs.{Chains.{AreChains}, Numbered.{chains_in}};
ghost use Rattle.sect_infer.specs.Sets.{AreInferredAt};
ghost use Rattle.sect_emit.specs.Words.{IsChainNamed};

use sect_chains::{Chain, NumberedChains, numbered_chains};
use sect_infer::Locks;
use sect_names::{Scheme, locks_stay_the_programs, steps_of_sections};
use std::alloc::{AllocError, Global};

/// The chains of a section, which are fewer than there are numbers, with their locks by number.
pub fn numbered(
    alloc: Global,
    scheme: &Scheme,
    locks: &Locks,
    section: u16,
) -> Result<NumberedChains, AllocError>
    requires section { section < length (sections_of scheme.now.program.texts) }
    requires inferred { AreInferredAt scheme.now section locks.now }
    ensures chains { (of : SectionView) (g : List Node)
        → slice_get (sections_of scheme.now.program.texts) section ≡ Some of
        → slice_get scheme.now.graphs.sections section ≡ Some g
        → IfOk result (λ chains.
        AreChains scheme.now of.thread (end_of scheme.now section) g locks.now.entry (chains_in chains)) }
    ensures few { IfOk result (λ chains. length chains.chains ≤ 4294967296) }
    ensures named { IfOk result (λ chains. (links : List Link) → Has (chains_in chains) links
        → IsChainNamed scheme.now.program links) }
{
    scheme.facts();
    scheme.program().facts();
    locks_stay_the_programs();
    steps_of_sections();
    numbered_chains(alloc, scheme, locks, section)
}

/// The chains of a section, which are fewer than there are numbers.
pub fn found(
    alloc: Global,
    scheme: &Scheme,
    locks: &Locks,
    section: u16,
) -> Result<Vec<Chain>, AllocError>
    requires section { section < length (sections_of scheme.now.program.texts) }
    requires inferred { AreInferredAt scheme.now section locks.now }
    ensures chains { (of : SectionView) (g : List Node)
        → slice_get (sections_of scheme.now.program.texts) section ≡ Some of
        → slice_get scheme.now.graphs.sections section ≡ Some g
        → IfOk result (λ chains.
        AreChains scheme.now of.thread (end_of scheme.now section) g locks.now.entry chains.items) }
    ensures few { IfOk result (λ chains. length chains.items ≤ 4294967296) }
    ensures named { IfOk result (λ chains. (links : List Link) → Has chains.items links
        → IsChainNamed scheme.now.program links) }
{
    let chains = numbered(alloc, scheme, locks, section)?;
    chains.linked(alloc)
}
