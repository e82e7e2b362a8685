//! What is left of a question that is read. Each rule of the grammar is one function: it passes the marks of what it
//! reads, and where it can't it stops before the mark that may not stand there.

ghost use Rattle.std.specs.Prelude.{◌≡◌, ◌≤◌, ℕ, List, [], true, false, length, drop, IfOk, IfSome, IfNone};
ghost use Rattle.sect_front.specs.Gaps.{after_gap as gap_of};
ghost use Rattle.sect_asking.specs.{Marks.{IsFirst}, declared.mark.Mark.{Mark as AMark}, Phrases.{mark_spot, spot_at}};
ghost use Rattle.sect_asking.specs.Phrases.{sign_spot, word_spot, number_spot, numeral_spots, thread_spots};
ghost use Rattle.sect_asking.specs.Phrases.{threads_spots, plain_spot, question_spots, is_question, has_some};
ghost use Rattle.sect_asking.specs.{Phrases.{AreStanding}, steps.Reading.{Reads}, Asking.{asks_word, IsNoQuestion}};

mod conditions;
mod values;

use crate::mark::{Mark, Sign, first_mark};
use crate::phrase::{Numeral, QuestionPhrase, ThreadWord, Word};
use sect_front::{Literal, Name, after_gap, is_same_word};
use std::alloc::{AllocError, AllocFailed, Global};
use std::marker::Model;

/// How many operators, dots, parentheses and `!` a question has at most.
pub const MOST_OPERATORS: usize = 256;

/// Why a rule was not read to its end. What is left of the question begins where it stopped.
#[derive(Clone, Copy)]
pub enum Stop {
    Memory,
    /// No question goes on so here, or here is an operator too many.
    Here,
}

impl From<AllocError> for Stop {
    ghost use Rattle.std.specs.Prelude.{◌≡◌};
    ghost use Rattle.sect_asking.specs.declared.cursor.Stop.TheVariants.{Memory};

    ghost from_gives = { λ _ e. e ≡ Memory };

    fn from(_error: AllocError) -> Stop {
        Stop::Memory
    }
}

impl<T: Drop> From<AllocFailed<T>> for Stop {
    ghost use Rattle.std.specs.Prelude.{◌≡◌};
    ghost use Rattle.sect_asking.specs.declared.cursor.Stop.TheVariants.{Memory};

    ghost from_gives = { λ _ e. e ≡ Memory };

    fn from(_error: AllocFailed<T>) -> Stop {
        Stop::Memory
    }
}

/// What follows so many bytes and the gap behind them.
fn behind(here: &[u8], count: usize) -> &[u8]
    requires { count ≤ length here.now }
    ensures { result.now ≡ gap_of (drop count here.now) }
{
    let (_, rest) = here.split_at(count);
    after_gap(rest)
}

/// What is left of a question, behind the gap before it, and how many operators may still stand in it.
#[derive(Drop)]
pub struct Cursor<'a> {
    here: &'a [u8],
    spare: usize,
}

impl<'a> Model for Cursor<'a> {
    ghost use Rattle.sect_asking.specs.steps.Reading.{CursorView};

    ghost Value = { CursorView };

    ghost view = { λ c. record { here = c.here.now; spare = c.spare } };
}

impl<'a> Cursor<'a> {
    /// The start of a question.
    pub fn new(bytes: &'a [u8]) -> Cursor<'a>
        ensures { result.here ≡ gap_of bytes.now }
    {
        Cursor {
            here: after_gap(bytes),
            spare: MOST_OPERATORS,
        }
    }

    /// How many bytes are left.
    pub fn left(&self) -> usize
        ensures { result ≡ length self.now.here }
    {
        self.here.len()
    }

    /// Passes the mark at the front, which has so many bytes.
    fn pass(&mut self, count: usize)
        requires { count ≤ length self.old.here }
        ensures marks { (m : AMark) → IsFirst m count self.old.here → Reads (mark_spot m) self.old.here self.new.here }
        ensures placed { (m : AMark) → IsFirst m count self.old.here
            → Reads (spot_at m (length self.old.here)) self.old.here self.new.here }
    {
        self.here = behind(self.here, count);
    }

    /// The sign that stands here, if one does, and how many bytes it has.
    fn sign(&self) -> Option<(Sign, usize)>
        ensures { IfSome result (λ r. IsFirst (AMark.Sign r.0) r.1 self.now.here) }
    {
        match first_mark(self.here) {
            Some((Mark::Sign(sign), count)) => Some((sign, count)),
            _ => None,
        }
    }

    /// Whether this sign stands here.
    fn has(&self, wanted: Sign) -> bool {
        match self.sign() {
            Some((sign, _)) => sign.is(wanted),
            None => false,
        }
    }

    /// Passes a sign, if it stands here.
    fn takes(&mut self, wanted: Sign) -> bool
        ensures taken { result ≡ true → Reads (sign_spot wanted) self.old.here self.new.here }
        ensures stays { result ≡ false → self.new ≡ self.old }
    {
        let Some((sign, count)) = self.sign() else {
            return false;
        };
        if !sign.is(wanted) {
            return false;
        }
        self.pass(count);
        true
    }

    /// Passes the sign that has to stand here.
    fn needs(&mut self, wanted: Sign) -> Result<(), Stop>
        ensures { IfOk result (λ _. Reads (sign_spot wanted) self.old.here self.new.here) }
    {
        if self.takes(wanted) {
            Ok(())
        } else {
            Err(Stop::Here)
        }
    }

    /// Passes an operator, if it stands here, unless it is one too many.
    fn takes_operator(&mut self, wanted: Sign) -> Result<bool, Stop>
        ensures taken { IfOk result (λ t. t ≡ true → Reads (sign_spot wanted) self.old.here self.new.here) }
        ensures stays { IfOk result (λ t. t ≡ false → self.new.here ≡ self.old.here) }
    {
        if self.spare == 0 && self.has(wanted) {
            return Err(Stop::Here);
        }
        if !self.takes(wanted) {
            return Ok(false);
        }
        self.spare = self.spare.saturating_sub(1);
        Ok(true)
    }

    /// Passes the name that has to stand here.
    fn word(&mut self) -> Result<Word, Stop>
        ensures { IfOk result (λ word. Reads (word_spot word) self.old.here self.new.here) }
    {
        let left = self.here.len();
        let found = first_mark(self.here);
        match &found {
            Some((Mark::Name(name), count)) => {
                self.pass(*count);
                Ok(Word { name: *name, left })
            }
            _ => Err(Stop::Here),
        }
    }

    /// Passes the integer that has to stand here.
    fn number(&mut self) -> Result<Literal, Stop>
        ensures { IfOk result (λ n. Reads (number_spot n) self.old.here self.new.here) }
    {
        let found = first_mark(self.here);
        match &found {
            Some((Mark::Number(number), count)) => {
                self.pass(*count);
                Ok(*number)
            }
            _ => Err(Stop::Here),
        }
    }

    /// Passes an integer, with `-` before it or without.
    fn numeral(&mut self) -> Result<Numeral, Stop>
        ensures { IfOk result (λ n. Reads (numeral_spots n) self.old.here self.new.here) }
    {
        let minus = self.takes(Sign::Minus);
        let value = self.number()?;
        Ok(Numeral { minus, value })
    }

    /// Passes a thread.
    fn thread(&mut self) -> Result<ThreadWord, Stop>
        ensures { IfOk result (λ t. Reads (thread_spots t) self.old.here self.new.here) }
    {
        match self.takes_thread() {
            Some(thread) => Ok(thread),
            None => Err(Stop::Here),
        }
    }

    /// Passes the thread that stands here, if one does.
    fn takes_thread(&mut self) -> Option<ThreadWord>
        ensures taken { IfSome result (λ t. Reads (thread_spots t) self.old.here self.new.here) }
        ensures stays { IfNone result (self.new ≡ self.old) }
    {
        let left = self.here.len();
        let found = first_mark(self.here);
        match &found {
            Some((Mark::Name(name), count)) => {
                self.pass(*count);
                Some(ThreadWord::Named(Word { name: *name, left }))
            }
            Some((Mark::Number(number), count)) => {
                self.pass(*count);
                Some(ThreadWord::Numbered(*number, left))
            }
            _ => None,
        }
    }

    /// Passes the threads that come first, at least one.
    fn threads(&mut self, alloc: Global) -> Result<Vec<ThreadWord>, Stop>
        ensures reads { IfOk result (λ ts. Reads (threads_spots ts.items) self.old.here self.new.here) }
        ensures some { IfOk result (λ ts. has_some ts.items ≡ true) }
    {
        let mut threads = Vec::new(alloc);
        threads.push(self.thread()?)?;
        while let Some(thread) = self.takes_thread() {
            threads.push(thread)?;
        }
        Ok(threads)
    }

    /// Passes the first word of a question, if it stands here.
    pub fn first_word(&mut self) -> Option<Asks>
        ensures word { IfSome result (λ asks. Reads (plain_spot (asks_word asks)) self.old.here self.new.here) }
        ensures none { IfNone result (IsNoQuestion self.old.here) }
    {
        let found = first_mark(self.here);
        let Some((Mark::Name(name), count)) = &found else {
            return None;
        };
        let asks = question_word(name)?;
        self.pass(*count);
        Some(asks)
    }

    /// Passes what follows the first word of a question.
    fn asked(&mut self, alloc: Global, asks: Asks) -> Result<QuestionPhrase, Stop>
        ensures reads { IfOk result (λ q. (start : List ℕ) → Reads (plain_spot (asks_word asks)) start self.old.here
            → Reads (question_spots q) start self.new.here) }
        ensures grammar { IfOk result (λ q. is_question q ≡ true) }
    {
        match asks {
            Asks::Always => Ok(QuestionPhrase::Always(self.condition(alloc)?)),
            Asks::Exists => Ok(QuestionPhrase::Exists(self.condition(alloc)?)),
            Asks::Never => Ok(QuestionPhrase::Never(self.condition(alloc)?)),
            Asks::Keeps => Ok(QuestionPhrase::Keeps(self.condition(alloc)?)),
            Asks::Ends => Ok(QuestionPhrase::Ends),
            Asks::Outcomes => Ok(QuestionPhrase::Outcomes(self.number()?)),
            Asks::First => Ok(QuestionPhrase::First(self.threads(alloc)?)),
        }
    }

    /// Passes what follows the first word of a question, to the end.
    pub fn rest(&mut self, alloc: Global, asks: Asks) -> Result<QuestionPhrase, Stop>
        ensures spells { IfOk result (λ q. (start : List ℕ) → Reads (plain_spot (asks_word asks)) start self.old.here
            → AreStanding start (question_spots q []) []) }
        ensures grammar { IfOk result (λ q. is_question q ≡ true) }
    {
        let phrase = self.asked(alloc, asks)?;
        if self.here.is_empty() {
            Ok(phrase)
        } else {
            Err(Stop::Here)
        }
    }
}

/// The first word of a question.
#[derive(Clone, Copy, PartialEq, Eq)]
pub enum Asks {
    Always,
    Exists,
    Never,
    Keeps,
    Ends,
    Outcomes,
    First,
}

/// The first word of a question that a name is.
fn question_word(name: &Name) -> Option<Asks>
    ensures some { IfSome result (λ asks. name.now ≡ asks_word asks) }
    ensures none { IfNone result ((asks : Asks) → name.now ≡ asks_word asks → ⊥) }
{
    let word = name.as_bytes();
    if is_same_word(word, b"always") {
        return Some(Asks::Always);
    }
    if is_same_word(word, b"exists") {
        return Some(Asks::Exists);
    }
    if is_same_word(word, b"never") {
        return Some(Asks::Never);
    }
    if is_same_word(word, b"keeps") {
        return Some(Asks::Keeps);
    }
    if is_same_word(word, b"ends") {
        return Some(Asks::Ends);
    }
    if is_same_word(word, b"outcomes") {
        return Some(Asks::Outcomes);
    }
    if is_same_word(word, b"first") {
        return Some(Asks::First);
    }
    None
}
