//! The command line of `sectc`: what its words ask for, and `command`, which goes by them, a reader and a writer.
#![tactic(auto)]

mod answering;
mod colours;
mod dispatch;
mod failure;
mod formats;
mod grammar;
mod numbers;
mod options;
mod printing;
mod report;
mod request;
mod ruling;
mod running;
mod serving;
mod statuses;
mod subcommand;
mod texts;
mod turns;
mod usage;

pub use colours::{Screen, shows_colours};
pub use dispatch::{OUT_OF_MEMORY, Writers, command, command_on_texts, told};
pub use statuses::{DONE, FAILED, REFUSED, WRONG_WORDS, statuses_are_numbers};
pub use texts::{Around, NoTexts, SystemFiles, Texts, kept_texts_are_enough};
