//! Compiled programs that threads of the system run, one for each thread of the program.
#![tactic(auto)]

mod fault;
mod gate;
mod meter;
mod patience;
mod rest;
mod run;
mod share;
mod turn;
mod visit;
mod worker;

pub use fault::RunFault;
pub use gate::{Awaited, Gate, OpenGate};
pub use meter::{Measured, Meter, Tally};
pub use run::run_threads;
