//! Programs by whole sections with as much fuel as they want: what of `sect_serial`'s outcomes doesn't go by the fuel.
#![tactic(auto)]

mod laws;

pub use crate::laws::{
    free_ends_are_one, free_ends_are_outcomes, fuel_only_helps, futures_are_of_states,
    rounds_never_end,
};
