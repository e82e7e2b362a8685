//! A law of outcomes, proved.

ghost use Rattle.sect_serial.specs.Exploring.{OutcomesAreOne};

/// What `outcomes` answers is determined: a program has one list of outcomes with so much fuel.
pub fn outcomes_are_one()
    ensures { OutcomesAreOne }
{}
