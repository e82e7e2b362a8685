//! Conditions, by one function for each rule of the grammar.

ghost use Rattle.std.specs.Prelude.{◌≡◌, ℕ, List, true, IfOk, IfSome, length};
ghost use Rattle.sect_asking.specs.Phrases.{Spot, sign_spot, placed_spot, relation_sign, equal_sign, end_spot};
ghost use Rattle.sect_asking.specs.Phrases.{plain_spot, numbers_spots, condition_spots, is_part};
ghost use Rattle.sect_asking.specs.declared.mark.Sign.{Sign as ASign};
ghost use Rattle.sect_asking.specs.{declared.printing.Part.{Part}, steps.Reading.{Reads}};

use crate::cursor::{Cursor, Stop, behind};
use crate::mark::{Mark, Sign, first_mark};
use crate::phrase::{ConditionPhrase, Numeral, Relation};
use sect_front::is_same_word;
use sect_types::{End, Fault};
use std::alloc::Global;

impl<'a> Cursor<'a> {
    /// cond = both {"||" both}
    #[cycle(condition)]
    pub fn condition(&mut self, alloc: Global) -> Result<ConditionPhrase, Stop>
        ensures reads { IfOk result (λ c. Reads (condition_spots c) self.old.here self.new.here) }
        ensures grammar { IfOk result (λ c. is_part Part.Whole c ≡ true) }
    {
        let mut condition = self.both(alloc)?;
        'more: while self.takes_operator(Sign::Or)? {
            let other = self.both(alloc)?;
            let (one, other) = (Box::new(alloc, condition)?, Box::new(alloc, other)?);
            condition = ConditionPhrase::Either(one, other);
        }
        Ok(condition)
    }

    /// both = one {"&&" one}
    #[cycle(condition)]
    fn both(&mut self, alloc: Global) -> Result<ConditionPhrase, Stop>
        ensures reads { IfOk result (λ c. Reads (condition_spots c) self.old.here self.new.here) }
        ensures grammar { IfOk result (λ c. is_part Part.OfEither c ≡ true) }
    {
        let mut condition = self.one(alloc)?;
        'more: while self.takes_operator(Sign::And)? {
            let other = self.one(alloc)?;
            let (one, other) = (Box::new(alloc, condition)?, Box::new(alloc, other)?);
            condition = ConditionPhrase::Both(one, other);
        }
        Ok(condition)
    }

    /// one = "!" one | "(" cond ")" | a comparison | what is printed | how a thread has ended
    #[cycle(condition)]
    fn one(&mut self, alloc: Global) -> Result<ConditionPhrase, Stop>
        ensures reads { IfOk result (λ c. Reads (condition_spots c) self.old.here self.new.here) }
        ensures grammar { IfOk result (λ c. is_part Part.OfBoth c ≡ true) }
    {
        if self.takes_operator(Sign::Not)? {
            let inner = self.one(alloc)?;
            return Ok(ConditionPhrase::Not(Box::new(alloc, inner)?));
        }
        if self.takes_operator(Sign::OpenParen)? {
            let inner = self.condition(alloc)?;
            self.needs(Sign::CloseParen)?;
            return Ok(ConditionPhrase::Group(Box::new(alloc, inner)?));
        }
        if self.takes(Sign::Thread) {
            return self.ends();
        }
        if self.begins_output() {
            return self.prints(alloc);
        }
        self.comparison(alloc)
    }

    /// Whether `print` stands here, and no `[` behind it.
    fn begins_output(&self) -> bool {
        match self.sign() {
            Some((Sign::Print, count)) => {
                let behind = Cursor {
                    here: behind(self.here, count),
                    spare: 0,
                };
                !behind.has(Sign::OpenBracket)
            }
            _ => false,
        }
    }

    /// sum cmp sum
    fn comparison(&mut self, alloc: Global) -> Result<ConditionPhrase, Stop>
        ensures reads { IfOk result (λ c. Reads (condition_spots c) self.old.here self.new.here) }
        ensures grammar { IfOk result (λ c. is_part Part.OfBoth c ≡ true) }
    {
        let one = self.sum(alloc)?;
        let left = self.left();
        let relation = self.relation()?;
        let other = self.sum(alloc)?;
        Ok(ConditionPhrase::Compares(relation, left, one, other))
    }

    /// Passes the sign of a comparison.
    fn relation(&mut self) -> Result<Relation, Stop>
        ensures { IfOk result (λ r.
            Reads (placed_spot (relation_sign r) (length self.old.here)) self.old.here self.new.here) }
    {
        let Some((sign, count)) = self.sign() else {
            return Err(Stop::Here);
        };
        let Some(relation) = relation_of(sign) else {
            return Err(Stop::Here);
        };
        self.pass(count);
        Ok(relation)
    }

    /// Passes `==` or `!=`, and tells whether it is `!=`.
    fn denies(&mut self) -> Result<bool, Stop>
        ensures { IfOk result (λ denied. Reads (sign_spot (equal_sign denied)) self.old.here self.new.here) }
    {
        if self.takes(Sign::Equal) {
            return Ok(false);
        }
        self.needs(Sign::NotEqual)?;
        Ok(true)
    }

    /// What follows `thread`: thread ("=="|"!=") end
    fn ends(&mut self) -> Result<ConditionPhrase, Stop>
        ensures reads { IfOk result (λ c. (start : List ℕ) → Reads (sign_spot ASign.Thread) start self.old.here
            → Reads (condition_spots c) start self.new.here) }
        ensures grammar { IfOk result (λ c. is_part Part.OfBoth c ≡ true) }
    {
        let thread = self.thread()?;
        let denied = self.denies()?;
        let end = self.end()?;
        Ok(ConditionPhrase::Ends(thread, denied, end))
    }

    /// "done" | "null" | "overflow" | "fuel" | "running"
    fn end(&mut self) -> Result<Option<End>, Stop>
        ensures { IfOk result (λ end. Reads (end_spot end) self.old.here self.new.here) }
    {
        if self.takes(Sign::Null) {
            return Ok(Some(End::Failed(Fault::Null)));
        }
        let found = first_mark(self.here);
        let Some((Mark::Name(name), count)) = &found else {
            return Err(Stop::Here);
        };
        let Some(end) = end_of(name.as_bytes()) else {
            return Err(Stop::Here);
        };
        self.pass(*count);
        Ok(end)
    }

    /// "print" ("=="|"!=") "[" [number {"," number}] "]"
    fn prints(&mut self, alloc: Global) -> Result<ConditionPhrase, Stop>
        ensures reads { IfOk result (λ c. Reads (condition_spots c) self.old.here self.new.here) }
        ensures grammar { IfOk result (λ c. is_part Part.OfBoth c ≡ true) }
    {
        self.needs(Sign::Print)?;
        let denied = self.denies()?;
        self.needs(Sign::OpenBracket)?;
        if self.takes(Sign::CloseBracket) {
            return Ok(ConditionPhrase::Prints(denied, Vec::new(alloc)));
        }
        let numbers = self.numbers(alloc)?;
        self.needs(Sign::CloseBracket)?;
        Ok(ConditionPhrase::Prints(denied, numbers))
    }

    /// number {"," number}
    fn numbers(&mut self, alloc: Global) -> Result<Vec<Numeral>, Stop>
        ensures { IfOk result (λ ns. Reads (numbers_spots ns.items) self.old.here self.new.here) }
    {
        let mut numbers = Vec::new(alloc);
        let first = self.numeral()?;
        numbers.push(first)?;
        while self.takes(Sign::Comma) {
            let number = self.numeral()?;
            numbers.push(number)?;
        }
        Ok(numbers)
    }
}

/// The comparison of a sign.
fn relation_of(sign: Sign) -> Option<Relation>
    ensures { IfSome result (λ r. sign ≡ relation_sign r) }
{
    match sign {
        Sign::Equal => Some(Relation::Equal),
        Sign::NotEqual => Some(Relation::NotEqual),
        Sign::Less => Some(Relation::Less),
        Sign::LessOrEqual => Some(Relation::LessOrEqual),
        Sign::Greater => Some(Relation::Greater),
        Sign::GreaterOrEqual => Some(Relation::GreaterOrEqual),
        _ => None,
    }
}

/// How a thread has ended that is said to have ended by this word: with none, it still runs.
fn end_of(word: &[u8]) -> Option<Option<End>>
    ensures { IfSome result (λ end. (w : List Spot) → end_spot end w ≡ plain_spot word.now w) }
{
    if is_same_word(word, b"done") {
        return Some(Some(End::Done));
    }
    if is_same_word(word, b"overflow") {
        return Some(Some(End::Failed(Fault::Overflow)));
    }
    if is_same_word(word, b"fuel") {
        return Some(Some(End::Failed(Fault::Fuel)));
    }
    if is_same_word(word, b"running") {
        return Some(None);
    }
    None
}
