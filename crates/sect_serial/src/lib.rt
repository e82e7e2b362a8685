//! Programs run by whole sections, one after another: the meaning that every interleaving is held against.
#![tactic(auto)]

mod exploring;
mod frame;
mod laws;
mod rest;
mod run;
mod same;
mod states;
mod step;
mod whole;

pub use crate::exploring::{OutcomesFault, outcomes};
pub use crate::laws::outcomes_are_one;
pub use crate::states::{Order, Outcomes};
pub use crate::whole::{SerialEnd, SerialFault, serial};
