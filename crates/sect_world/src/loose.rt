//! Laws of loose runs: what threads of a system may do with keys. The functions have bodies that at most cite a law.

ghost use Rattle.sect_emit.specs.Compiled.{CompiledView, IsCompiled, AreSetsLeast};
ghost use Rattle.sect_world.specs.Loose.{EveryLooseRunIsStrict, EveryLooseRunIsSerial, LookedPathsStay, IsSeen};
ghost use Rattle.sect_world.specs.Enough.{TakenKeysAreEnough};

use sect_conflicts::sections_that_go_together_never_clash;

/// Threads may take keys in any order, hold more than they need, leave out those for which no other section ever asks
/// in a mode that isn't compatible, hold none for what they make, and give keys back one by one: what they come to is
/// what a run of the machine comes to, with sections left in the same order, and where all threads have ended, what
/// whole sections come to in that order.
pub fn every_loose_run_is_strict()
    ensures strict { (c : CompiledView) → IsCompiled c → AreSetsLeast c → EveryLooseRunIsStrict c }
    ensures serial { (c : CompiledView) → IsCompiled c → AreSetsLeast c → EveryLooseRunIsSerial c }
{
    sections_that_go_together_never_clash();
}

/// While a thread that stands before a section holds the keys on the way along a path that the section needs, other
/// threads leave what the path denotes: so it may look its plan up field by field.
pub fn looked_paths_stay()
    ensures { (c : CompiledView) → IsCompiled c → AreSetsLeast c → LookedPathsStay c }
{
    sections_that_go_together_never_clash();
}

/// A key of which the fixed parts of the plans of all sections of other threads ask for compatible modes may be left
/// out; and so may the key of an object at the site of which no path lock of another thread asks for a mode that isn't
/// compatible.
pub fn keys_may_be_left_out()
    ensures { (c : CompiledView) → IsCompiled c → IsSeen c }
{}

/// So a thread that holds the keys which `sect_conflicts` says that a section takes may begin the section: each other
/// key of the plan may be left out.
pub fn taken_keys_are_enough()
    ensures { (c : CompiledView) → IsCompiled c → TakenKeysAreEnough c }
{
    keys_may_be_left_out();
}
