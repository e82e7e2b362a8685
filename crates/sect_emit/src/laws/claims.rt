//! Laws of what is claimed of sections. The functions have empty bodies but for the laws that they stand on.

ghost use Rattle.std.specs.Prelude.{ℕ, List};
ghost use Rattle.sect_types.specs.{First.{IsTyped}, Programs.{IsOfTree}, Sections.{SectionView}, Sound.{AreSound}};
ghost use Rattle.sect_graph.specs.declared.flow.Node.{Node};
ghost use Rattle.sect_names.specs.{declared.link.Link.{Link}, Needed.{end_of}, Schemes.{SchemeView, IsScheme}};
ghost use Rattle.sect_infer.specs.Sets.{LocksView, AreLocksOf, AreAllInferred};
ghost use Rattle.sect_chains.specs.Chains.{AreChains};
ghost use Rattle.sect_cert.specs.declared.certificate.Cert.{Cert};
ghost use Rattle.sect_check.specs.{Meaning.{IsSectionAt}, Valid.{IsValid, IsValidSection}, Verdicts.{IsRead}};
ghost use Rattle.sect_emit.specs.{Certificates.{HasTheSets}, Claimed.{claims_of}};
ghost use Rattle.sect_emit.specs.Compiled.{CompiledView, IsCompiledFrom};
ghost use Rattle.sect_emit.specs.steps.Spelled.{IsSpelled};

use sect_check::valid_entry_lists_are_least;
use sect_names::{
    least_sets_are_one, locks_stay_the_programs, needed_step_by_step, steps_of_sections,
};

/// What is inferred of a section, with a chain for each lock that it takes at its entry, is right as the checker judges
/// it.
pub fn inferred_locks_are_valid_claims()
    ensures { (s : SchemeView) → IsScheme s → (i : ℕ) (of : SectionView) (g : List Node) → IsSectionAt s i of g
        → (locks : LocksView) → AreLocksOf s (end_of s i) of g locks
        → (chains : List (List Link)) → AreChains s of.thread (end_of s i) g locks.entry chains
        → IsValidSection s of.thread (end_of s i) g (claims_of locks chains) }
{
    needed_step_by_step();
}

/// What is inferred of each section of a typed program, spelled by the names of its text, is a valid certificate.
pub fn spelled_locks_are_valid()
    ensures { (s : SchemeView) → IsScheme s → IsTyped s.program.source → IsOfTree s.program
        → AreSound s.program.records s.program.globals s.program.locals s.program.texts
        → (all : List LocksView) → AreAllInferred s all → (a : Cert) → IsSpelled s all a → IsValid s a }
{
    inferred_locks_are_valid_claims();
    locks_stay_the_programs();
    steps_of_sections();
}

/// The entry lists of a certificate that is valid for a source text are the sets of the text's compiled program.
pub fn checked_entry_lists_are_the_sets()
    ensures { (source : List ℕ) (k : ℕ) (bytes : List ℕ) (c : CompiledView) → IsCompiledFrom source k c
        → (read : IsRead source k bytes IsValid) → HasTheSets c read.cert }
{
    valid_entry_lists_are_least();
    least_sets_are_one();
}
