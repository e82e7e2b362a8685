//! Laws of runs in which no thread wants for fuel, proved. The functions have empty bodies.

ghost use Rattle.sect_free.specs.Freely.{FuelOnlyHelps, FreeEndsAreOne, FoundAreFree, FreeAreFound};
ghost use Rattle.sect_free.specs.States.{FuturesAreOfStates};
ghost use Rattle.sect_free.specs.Rounds.{RoundsNeverEnd, RoundsLeadOn};

/// What whole sections in an order come to with no want of fuel, they come to with more fuel.
pub fn fuel_only_helps()
    ensures { FuelOnlyHelps }
{}

/// With no want of fuel an order comes to one end, however much fuel there is.
pub fn free_ends_are_one()
    ensures { FreeEndsAreOne }
{}

/// The ends that orders come to with no want of fuel are those of all outcomes, over all fuels: each is there with
/// enough fuel, and with all that is more.
pub fn free_ends_are_outcomes()
    ensures found { FoundAreFree }
    ensures free { FreeAreFound }
{}

/// What may follow some sections, with no want of fuel, goes by the state that they lead to, without its fuel.
pub fn futures_are_of_states()
    ensures { FuturesAreOfStates }
{}

/// Sections that lead to the same state again, but for the fuel, go on so for ever: with enough fuel they go round as
/// often as one likes, and no thread wants for any. So no number of sections is the most that a run has.
pub fn rounds_never_end()
    ensures again { RoundsNeverEnd }
    ensures longer { RoundsLeadOn }
{}
