//! Colours of a terminal: the lines of an answer painted by their own form.
#![tactic(auto)]

mod find;
mod laws;
mod looks;
mod painting;
mod style;

pub use laws::painting_keeps_the_text;
pub use looks::Kind;
pub use painting::painted;
pub use style::Style;
