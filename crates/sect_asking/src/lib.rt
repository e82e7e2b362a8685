//! Questions about the runs of a program as text: printed and read.
#![tactic(auto)]

mod cursor;
mod mark;
mod phrase;
mod printing;
mod reading;
mod resolving;

pub use crate::printing::print_question;
pub use crate::reading::{QuestionFault, read_question};
