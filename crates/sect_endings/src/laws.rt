//! Laws of rounds and verdicts, proved. The functions have empty bodies.

ghost use Rattle.sect_endings.specs.Laws.{RoundsAreRuns, FairRoundsAreFair, VerdictsAreOne};

/// From the state of a round a run never ends, and of a fair round one in which no thread is left out for ever.
pub fn rounds_are_runs()
    ensures endless { RoundsAreRuns }
    ensures fair { FairRoundsAreFair }
{}

/// Two verdicts that are right of one graph say the same, but for the round.
pub fn verdicts_are_one()
    ensures { VerdictsAreOne }
{}
