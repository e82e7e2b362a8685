//! Characters of a text in UTF-8: where they begin and end, and columns in them.
#![tactic(auto)]

mod characters;

pub use characters::{character_column, whole};
