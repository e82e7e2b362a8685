//! Conditions on the outcome of a run.

use sect_front::{Comparison, Operator};
use sect_types::End;

/// What a condition compares. Globals, fields and threads are numbered as in the program.
#[derive(Drop)]
pub enum Value {
    Number(i64),
    Null,
    /// The object of a global, or what stands at the end of a path of fields from there.
    Path(u16, Vec<u16>),
    /// The number that was printed at this place, from 0.
    Printed(usize),
    /// How many numbers were printed.
    PrintedCount,
    /// How often this number was printed.
    TimesPrinted(i64),
    /// The sum, difference or product of two values, a whole number without limit.
    Computed(Operator, Box<Value>, Box<Value>),
}

/// A condition on the outcome of a run.
#[derive(Drop)]
pub enum Condition {
    /// Two values compare so. It doesn't hold where one of them isn't there, whatever the comparison.
    Compares(Value, Comparison, Value),
    /// The thread has ended so, or, with none, still runs.
    Ends(u16, Option<End>),
    /// Exactly these numbers were printed.
    Prints(Vec<i64>),
    Not(Box<Condition>),
    Both(Box<Condition>, Box<Condition>),
    Either(Box<Condition>, Box<Condition>),
}
