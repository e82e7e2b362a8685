//! What an editor shows of a text, as values of its protocol: what is wrong or worth a second look, what is declared
//! and named, what the sections lock, and what may be written.
#![tactic(auto)]

mod completion;
mod declaring;
mod diagnosing;
mod hover;
mod marks;
mod mistakes;
mod objects;
mod position;
mod query;
mod question;
mod ranges;
mod referring;
mod symbols;
mod text;
mod warned;
mod words;

pub use diagnosing::{Judged, judge};
pub use position::{Encoding, Place, Range, offset, range_in};
pub use query::{Query, text_at};
pub use question::{Question, answer};
pub use text::{OpenText, Reading};
