//! Hints: which global guards each record, or the first record that a rule on hints is broken at.
#![tactic(auto)]

mod fault;
mod globals;
mod guarding;
mod hints;

pub use fault::HintFault;
pub use globals::names_of;
pub use guarding::Guards;
pub use hints::guards;
