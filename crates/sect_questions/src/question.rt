//! What is asked about the runs of a program.

use crate::condition::Condition;

/// What is asked about all runs of a program.
#[derive(Drop)]
pub enum Question {
    /// Whether the condition holds of each outcome.
    Always(Condition),
    /// Whether the condition holds of some outcome.
    Exists(Condition),
    /// Whether the condition holds of no outcome.
    Never(Condition),
    /// Whether the condition holds at each moment between sections.
    Keeps(Condition),
    /// Whether each run ends in which no thread is left out for ever.
    Ends,
    /// Whether there are so many outcomes.
    Outcomes(u64),
    /// Not a question: while one of these threads has a section left, the first of them has the turn.
    First(Vec<u16>),
}
