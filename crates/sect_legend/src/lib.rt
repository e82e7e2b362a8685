//! What stands behind the numbers of an answer: of a section its thread and its place, of a class its sites.
#![tactic(auto)]

mod classes;
mod places;
mod sections;
mod sites;

pub use classes::class_lines;
pub use places::Places;
pub use sections::put_section;
