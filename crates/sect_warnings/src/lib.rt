//! What is worth a second look in a program that is accepted, and where, as it is told to a reader.
#![tactic(auto)]

mod access;
mod apart;
mod apart_mark;
mod class_mark;
mod comment;
mod fields;
mod format;
mod hinting;
mod json;
mod judge;
mod laws;
mod lost;
mod lost_mark;
mod mark;
mod marked;
mod outcome;
mod place;
mod placed;
mod reasons;
mod remedy;
mod report;
mod ruling;
mod sarif;
mod spare;
mod trials;
mod warning;

pub use access::Access;
pub use format::{Telling, Warned, placed_warnings, warnings_as};
pub use judge::warnings;
pub use laws::{comments_allow_what_they_list, never_filled_locals_refer_to_nothing};
pub use lost::LostUpdate;
pub use placed::{Placed, put_behind};
pub use report::title;
pub use ruling::{CODES, Code, Level, Ruling, Which};
pub use spare::spares;
pub use warning::{Finding, Spare, Told, Warning};
