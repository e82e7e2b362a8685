//! Chains: for each lock that a section takes, along which steps it is needed.
#![tactic(auto)]

mod chain;
mod keep;
mod marks;
mod numbered;
mod section;
mod starts;
mod trail;
mod work;

pub use chain::Chain;
pub use numbered::{NumberedChains, NumberedStep};
pub use section::{chains, numbered_chains};
