//! Which sections of a compiled program exclude each other, and where.
#![tactic(auto)]

mod always;
mod comparing;
mod conflict;
mod laws;
mod meeting;
mod pairs;
mod profile;
mod taken;

pub use comparing::conflicts;
pub use conflict::{Conflict, KeyClash, PathPair, SectionPair};
pub use laws::{
    plans_clash_where_paths_meet, sections_always_clash, sections_may_go_together_at_the_start,
    sections_that_go_together_never_clash,
};
pub use taken::{Taken, taken_keys};
