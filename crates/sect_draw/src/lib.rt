//! What is drawn of a compiled program: a chart of its turns, and the graphs of its sections.
#![tactic(auto)]

mod cells;
mod charting;
mod faults;
mod graphing;
mod noting;
mod outcomes;
mod places;
mod tables;
mod waits;
mod words;

pub use charting::chart;
pub use graphing::graph;
pub use noting::{ran_in_order, ran_in_turns};
pub use outcomes::{Faults, put_ran_numbered, put_ran_outcome};
pub use places::Places;
pub use words::{put_deed, put_key};
