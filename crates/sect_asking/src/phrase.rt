//! A question as it is written: with names, and with the parentheses and signs that it has.
//!
//! The place of a mark is told by how many bytes are left from its first on.

use sect_front::{Literal, Name, Operator};
use sect_types::End;

/// A name in its place.
#[derive(Clone, Copy)]
pub struct Word {
    pub name: Name,
    pub left: usize,
}

/// An integer, with `-` before it or without.
#[derive(Clone, Copy)]
pub struct Numeral {
    pub minus: bool,
    pub value: Literal,
}

/// A thread, by its name or its number.
#[derive(Clone, Copy)]
pub enum ThreadWord {
    Named(Word),
    Numbered(Literal, usize),
}

/// How two sums are compared.
#[derive(Clone, Copy, PartialEq, Eq)]
pub enum Relation {
    Equal,
    NotEqual,
    Less,
    LessOrEqual,
    Greater,
    GreaterOrEqual,
}

/// What is compared. The operator of a sum is in its place.
#[derive(Drop)]
pub enum ValuePhrase {
    Number(Numeral),
    Null,
    /// A global, and the fields behind it.
    Path(Word, Vec<Word>),
    Printed(Literal),
    PrintedCount,
    TimesPrinted(Numeral),
    Computed(Operator, usize, Box<ValuePhrase>, Box<ValuePhrase>),
}

/// A condition. The sign of a comparison is in its place.
#[derive(Drop)]
pub enum ConditionPhrase {
    Compares(Relation, usize, ValuePhrase, ValuePhrase),
    /// Whether the thread has ended so, or with none still runs, or the opposite where it is denied.
    Ends(ThreadWord, bool, Option<End>),
    /// Whether exactly these are printed, or the opposite where it is denied.
    Prints(bool, Vec<Numeral>),
    Not(Box<ConditionPhrase>),
    /// In parentheses.
    Group(Box<ConditionPhrase>),
    Both(Box<ConditionPhrase>, Box<ConditionPhrase>),
    Either(Box<ConditionPhrase>, Box<ConditionPhrase>),
}

/// A question.
#[derive(Drop)]
pub enum QuestionPhrase {
    Always(ConditionPhrase),
    Exists(ConditionPhrase),
    Never(ConditionPhrase),
    Keeps(ConditionPhrase),
    Ends,
    Outcomes(Literal),
    /// At least one thread.
    First(Vec<ThreadWord>),
}
