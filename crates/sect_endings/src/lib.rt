//! Whether the runs of a finite graph of states end.
#![tactic(auto)]

mod graph;
mod lasting;
mod laws;
mod moves;
mod ranks;
mod rounds;
mod sets;
mod verdict;

pub use crate::graph::Graph;
pub use crate::laws::{rounds_are_runs, verdicts_are_one};
pub use crate::verdict::{Round, Verdict, verdict_of};
