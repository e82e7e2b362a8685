//! The modes in which threads hold keys, and the keys themselves.
//!
//! The modes and their tables are those of Gray, Lorie, Putzolu and Traiger, "Granularity of locks and degrees of
//! consistency in a shared data base" (1976).
#![tactic(auto)]

mod key;
mod laws;
mod mode;
mod word;

pub use key::{Key, is_below, is_same};
pub use laws::{apartness_of_modes, order_of_modes, sharing_of_modes};
pub use mode::{Mode, at_least, compatible, intention, join};
pub use word::{admits, against, unit, words_of_holders};
