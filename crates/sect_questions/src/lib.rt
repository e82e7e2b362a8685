//! Questions about the runs of a program: what they ask, whether a condition holds of an outcome, and which comments
//! of a text are questions.
#![tactic(auto)]

mod comments;
mod condition;
mod holding;
mod known;
mod question;

pub use crate::comments::{AskedComment, asked_in};
pub use crate::condition::{Condition, Value};
pub use crate::holding::{TooGreat, holds};
pub use crate::question::Question;
