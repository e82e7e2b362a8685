//! What is compared in a question, by one function for each rule of the grammar.

ghost use Rattle.std.specs.Prelude.{◌≡◌, ℕ, List, true, IfOk};
ghost use Rattle.sect_asking.specs.Phrases.{sign_spot, fields_spots, value_spots, is_value, is_term, is_sum};
ghost use Rattle.sect_asking.specs.declared.mark.{Sign.{Sign as ASign}, Mark.{Mark as AMark}};
ghost use Rattle.sect_asking.specs.{Marks.{IsFirst}, steps.Reading.{Reads, Goes, ReadsOperator, IsAdding}};

use crate::cursor::{Cursor, Stop};
use crate::mark::{Mark, Sign, first_mark};
use crate::phrase::{Numeral, ValuePhrase, Word};
use sect_front::Operator;
use std::alloc::Global;

impl<'a> Cursor<'a> {
    /// sum = term {("+"|"-") term}
    pub fn sum(&mut self, alloc: Global) -> Result<ValuePhrase, Stop>
        ensures reads { IfOk result (λ v. Reads (value_spots v) self.old.here self.new.here) }
        ensures grammar { IfOk result (λ v. is_sum v ≡ true) }
    {
        let mut sum = self.term(alloc)?;
        let mut left = self.left();
        while let Some(operator) = self.takes_adding()? {
            let other = self.term(alloc)?;
            let (one, other) = (Box::new(alloc, sum)?, Box::new(alloc, other)?);
            sum = ValuePhrase::Computed(operator, left, one, other);
            left = self.left();
        }
        Ok(sum)
    }

    /// Passes `+` or `-`, if one stands here.
    fn takes_adding(&mut self) -> Result<Option<Operator>, Stop>
        ensures reads { IfOk result (λ o. ReadsOperator o self.old.here self.new.here) }
        ensures adding { IfOk result (λ o. IsAdding o) }
    {
        if self.takes_operator(Sign::Plus)? {
            return Ok(Some(Operator::Add));
        }
        if self.takes_operator(Sign::Minus)? {
            return Ok(Some(Operator::Subtract));
        }
        Ok(None)
    }

    /// term = value {"*" value}
    fn term(&mut self, alloc: Global) -> Result<ValuePhrase, Stop>
        ensures reads { IfOk result (λ v. Reads (value_spots v) self.old.here self.new.here) }
        ensures grammar { IfOk result (λ v. is_term v ≡ true) }
    {
        let mut term = self.value(alloc)?;
        let mut left = self.left();
        while self.takes_operator(Sign::Star)? {
            let other = self.value(alloc)?;
            let (one, other) = (Box::new(alloc, term)?, Box::new(alloc, other)?);
            term = ValuePhrase::Computed(Operator::Multiply, left, one, other);
            left = self.left();
        }
        Ok(term)
    }

    /// value = number | "null" | name {"." name} | "print" "[" integer "]" | "#" "print" | "#" number
    fn value(&mut self, alloc: Global) -> Result<ValuePhrase, Stop>
        ensures reads { IfOk result (λ v. Reads (value_spots v) self.old.here self.new.here) }
        ensures grammar { IfOk result (λ v. is_value v ≡ true) }
    {
        let left = self.left();
        let found = first_mark(self.here);
        match &found {
            Some((Mark::Name(name), count)) => {
                self.pass(*count);
                let fields = self.fields(alloc)?;
                Ok(ValuePhrase::Path(Word { name: *name, left }, fields))
            }
            Some((Mark::Number(value), count)) => {
                self.pass(*count);
                Ok(ValuePhrase::Number(Numeral {
                    minus: false,
                    value: *value,
                }))
            }
            Some((Mark::Sign(sign), count)) => self.signed(*sign, *count),
            None => Err(Stop::Here),
        }
    }

    /// The value that begins with this sign, which has so many bytes.
    fn signed(&mut self, sign: Sign, count: usize) -> Result<ValuePhrase, Stop>
        requires { IsFirst (AMark.Sign sign) count self.old.here }
        ensures reads { IfOk result (λ v. Reads (value_spots v) self.old.here self.new.here) }
        ensures grammar { IfOk result (λ v. is_value v ≡ true) }
    {
        match sign {
            Sign::Null => {
                self.pass(count);
                Ok(ValuePhrase::Null)
            }
            Sign::Minus => {
                self.pass(count);
                let value = self.number()?;
                Ok(ValuePhrase::Number(Numeral { minus: true, value }))
            }
            Sign::Print => {
                self.pass(count);
                self.needs(Sign::OpenBracket)?;
                let place = self.number()?;
                self.needs(Sign::CloseBracket)?;
                Ok(ValuePhrase::Printed(place))
            }
            Sign::Hash => {
                self.pass(count);
                self.counted()
            }
            _ => Err(Stop::Here),
        }
    }

    /// What follows `#`.
    fn counted(&mut self) -> Result<ValuePhrase, Stop>
        ensures reads { IfOk result (λ v. (start : List ℕ) → Reads (sign_spot ASign.Hash) start self.old.here
            → Reads (value_spots v) start self.new.here) }
        ensures grammar { IfOk result (λ v. is_value v ≡ true) }
    {
        if self.takes(Sign::Print) {
            return Ok(ValuePhrase::PrintedCount);
        }
        let number = self.numeral()?;
        Ok(ValuePhrase::TimesPrinted(number))
    }

    /// {"." name}
    fn fields(&mut self, alloc: Global) -> Result<Vec<Word>, Stop>
        ensures { IfOk result (λ fs. Goes (fields_spots fs.items) self.old.here self.new.here) }
    {
        let mut fields = Vec::new(alloc);
        while self.takes_operator(Sign::Dot)? {
            let field = self.word()?;
            fields.push(field)?;
        }
        Ok(fields)
    }
}
