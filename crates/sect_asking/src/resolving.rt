//! What a question as it is written asks of a program: names become numbers, and kinds have to fit.

ghost use Rattle.std.specs.Prelude.{ℕ, List, ◌≡◌, ◌++◌, ◌<◌, ◌^◌, IfOk, IfSome, MatchResult, Ok};
ghost use Rattle.std.specs.Prelude.{map, length, position, slice_get};
ghost use Rattle.sect_types.specs.Sight.{same_name};
ghost use Rattle.sect_front.specs.declared.tree.{GlobalObject.{GlobalObject as AGlobalObject}};
ghost use Rattle.sect_front.specs.declared.tree.{Declaration.{Declaration as ADeclaration}, Thread.{Thread as AThread}};
ghost use Rattle.sect_types.specs.declared.declarations.types.ValueType.TheVariants.{Refers as ARefers};
ghost use Rattle.sect_asking.specs.Printing.{field_type as field_type_by, global_type as global_type_by};
ghost use Rattle.sect_asking.specs.Views.{value_view, condition_view, question_view};
ghost use Rattle.sect_asking.specs.Meaning.{IsAnswer, global_meant, field_meant, thread_meant, threads_meant};
ghost use Rattle.sect_asking.specs.Meaning.{named, fields_in, integer as integer_by, kind_of, may_equal, may_compare};
ghost use Rattle.sect_asking.specs.Meaning.{fields_meant, path_meant, value_meant, compared as compared_by, denied_if};
ghost use Rattle.sect_asking.specs.Meaning.{condition_meant, question_meant};

use crate::phrase::{
    ConditionPhrase, Numeral, QuestionPhrase, Relation, ThreadWord, ValuePhrase, Word,
};
use sect_front::{Comparison, Declaration, GlobalObject, Name, Thread};
use sect_questions::{Condition, Question, Value};
use sect_types::{Program, ValueType};
use std::alloc::{AllocError, AllocFailed, Global};

/// Why a question asks nothing of a program. A place is told by how many bytes are left from it on.
#[derive(Clone, Copy)]
pub enum Misfit {
    Memory,
    /// The program has no global, field or thread of this name.
    Unknown(usize),
    /// An integer beside a reference, references to two records, `<` or a sum of references, a field of an integer.
    Kind(usize),
}

impl From<AllocError> for Misfit {
    ghost use Rattle.std.specs.Prelude.{◌≡◌};
    ghost use Rattle.sect_asking.specs.declared.resolving.Misfit.TheVariants.{Memory};

    ghost from_gives = { λ _ e. e ≡ Memory };

    fn from(_error: AllocError) -> Misfit {
        Misfit::Memory
    }
}

impl<T: Drop> From<AllocFailed<T>> for Misfit {
    ghost use Rattle.std.specs.Prelude.{◌≡◌};
    ghost use Rattle.sect_asking.specs.declared.resolving.Misfit.TheVariants.{Memory};

    ghost from_gives = { λ _ e. e ≡ Memory };

    fn from(_error: AllocFailed<T>) -> Misfit {
        Misfit::Memory
    }
}

/// What a value is, by its kind.
#[derive(Clone, Copy, PartialEq, Eq)]
pub enum Kind {
    Int,
    Null,
    /// A reference to an object of the record of this number, or null.
    Refers(u16),
}

impl Kind {
    /// The kind of what has this type.
    fn of(of: ValueType) -> Kind
        ensures { result ≡ kind_of of }
    {
        match of {
            ValueType::Int => Kind::Int,
            ValueType::Refers(record) => Kind::Refers(record),
        }
    }

    /// Whether two values may be equal.
    fn equals(self, other: Kind) -> bool
        ensures { result ≡ may_equal self other }
    {
        match (self, other) {
            (Kind::Int, Kind::Int) => true,
            (Kind::Refers(one), Kind::Refers(second)) => one == second,
            (Kind::Null, Kind::Null) => true,
            (Kind::Null, Kind::Refers(_)) => true,
            (Kind::Refers(_), Kind::Null) => true,
            _ => false,
        }
    }

    /// Whether two values may compare so.
    fn compares(self, relation: Relation, other: Kind) -> bool
        ensures { result ≡ may_compare relation self other }
    {
        match relation {
            Relation::Equal | Relation::NotEqual => self.equals(other),
            _ => self == Kind::Int && other == Kind::Int,
        }
    }
}

/// The place of the global of this name.
fn place_of_global(globals: &[GlobalObject], name: &Name) -> Option<usize>
    ensures place { result ≡ position (λ (g : AGlobalObject). same_name name.now g.name) globals.now }
    ensures within { IfSome result (λ n. n < length globals.now) }
{
    globals.iter().position(|global| *name == global.name)
}

/// The place of the field of this name.
fn place_of_field(fields: &[Declaration], name: &Name) -> Option<usize>
    ensures place { result ≡ position (λ (d : ADeclaration). same_name name.now d.name) fields.now }
    ensures within { IfSome result (λ n. n < length fields.now) }
{
    fields.iter().position(|field| *name == field.name)
}

/// The place of the thread of this name.
fn place_of_thread(threads: &[Thread], name: &Name) -> Option<usize>
    ensures place { result ≡ position (λ (t : AThread). same_name name.now t.name) threads.now }
    ensures within { IfSome result (λ n. n < length threads.now) }
{
    threads.iter().position(|thread| *name == thread.name)
}

/// The number of what a name stands for, where that was found at this place.
fn number_at(word: &Word, place: Option<usize>) -> Result<u16, Misfit>
    requires { IfSome place (λ n. n < 2 ^ 16) }
    ensures { MatchResult result (λ n. named word.now place ≡ Ok n) (IsAnswer (named word.now place)) }
{
    match place {
        None => Err(Misfit::Unknown(word.left)),
        Some(number) => Ok(number as u16),
    }
}

/// The number of a global.
fn global_number(program: &Program, word: &Word) -> Result<u16, Misfit>
    ensures { MatchResult result (λ n. global_meant program.now word.now ≡ Ok n)
        (IsAnswer (global_meant program.now word.now)) }
{
    program.facts();
    let place = place_of_global(program.tree().globals(), &word.name);
    number_at(word, place)
}

/// The fields of a record; none where there is no such record.
fn fields_of(program: &Program, number: u16) -> &[Declaration]
    ensures { result.now ≡ fields_in (slice_get program.now.source.records number) }
{
    match program.tree().records().get(number as usize) {
        None => &[],
        Some(record) => record.fields.as_slice(),
    }
}

/// The number of a field of a record.
fn field_number(program: &Program, number: u16, word: &Word) -> Result<u16, Misfit>
    ensures { MatchResult result (λ n. field_meant program.now number word.now ≡ Ok n)
        (IsAnswer (field_meant program.now number word.now)) }
{
    program.facts();
    let _numbers = program.tree();
    let place = place_of_field(fields_of(program, number), &word.name);
    number_at(word, place)
}

/// The number of a thread.
fn thread_number(program: &Program, thread: &ThreadWord) -> Result<u16, Misfit>
    ensures { MatchResult result (λ n. thread_meant program.now thread.now ≡ Ok n)
        (IsAnswer (thread_meant program.now thread.now)) }
{
    program.facts();
    match thread {
        ThreadWord::Named(word) => {
            let place = place_of_thread(program.tree().threads(), &word.name);
            number_at(word, place)
        }
        ThreadWord::Numbered(number, left) => {
            if number.value() < u64::from(program.thread_count()) {
                Ok(number.value() as u16)
            } else {
                Err(Misfit::Unknown(*left))
            }
        }
    }
}

/// The integer that is written so.
fn integer(numeral: &Numeral) -> i64
    ensures { result ≡ integer_by numeral.now }
{
    let value = numeral.value.value() as i64;
    if numeral.minus { -value } else { value }
}

/// The integers that are written so.
fn integers(alloc: Global, numerals: &[Numeral]) -> Result<Vec<i64>, AllocError>
    ensures { IfOk result (λ list. list.items ≡ map integer_by numerals.now) }
{
    let mut integers = Vec::new(alloc);
    for numeral in numerals {
        integers.push(integer(numeral))?;
    }
    Ok(integers)
}

/// The numbers of these threads.
fn thread_numbers(
    alloc: Global,
    program: &Program,
    threads: &[ThreadWord],
) -> Result<Vec<u16>, Misfit>
    ensures { MatchResult result (λ list. threads_meant program.now threads.now ≡ Ok list.items)
        (IsAnswer (threads_meant program.now threads.now)) }
{
    let mut numbers = Vec::new(alloc);
    for thread in threads {
        numbers.push(thread_number(program, thread)?)?;
    }
    Ok(numbers)
}

/// The type of a field of a record.
fn field_type(program: &Program, number: u16, field: u16) -> ValueType
    ensures { result ≡ field_type_by program.now (ARefers number) field }
{
    let Some(record) = program.records().get(number as usize) else {
        return ValueType::Int;
    };
    match record.as_slice().get(field as usize) {
        None => ValueType::Int,
        Some(of) => *of,
    }
}

/// The type of a global: a reference to its record.
fn global_type(program: &Program, global: u16) -> ValueType
    ensures { result ≡ global_type_by program.now global }
{
    match program.globals().get(global as usize) {
        None => ValueType::Refers(0),
        Some(record) => ValueType::Refers(*record),
    }
}

/// Adds the numbers of the fields of a path that goes on from what is of this type, and gives the type of what stands
/// at its end.
fn put_fields(
    program: &Program,
    of: ValueType,
    fields: &[Word],
    numbers: &mut Vec<u16>,
) -> Result<ValueType, Misfit>
    ensures { MatchResult result
        (λ end. (fs : List ℕ) × (numbers.new.items ≡ numbers.old.items ++ fs)
        × (fields_meant program.now of fields.now ≡ Ok (fs, end)))
        (IsAnswer (fields_meant program.now of fields.now)) }
{
    let Some((first, others)) = fields.split_first() else {
        return Ok(of);
    };
    let ValueType::Refers(record) = of else {
        return Err(Misfit::Kind(first.left));
    };
    let number = field_number(program, record, first)?;
    numbers.push(number)?;
    put_fields(
        program,
        field_type(program, record, number),
        others,
        numbers,
    )
}

/// What stands at the end of these fields of a global, and its kind.
fn path(
    alloc: Global,
    program: &Program,
    global: &Word,
    fields: &[Word],
) -> Result<(Value, Kind), Misfit>
    ensures { MatchResult result
        (λ r. path_meant program.now global.now fields.now ≡ Ok (value_view r.0, r.1))
        (IsAnswer (path_meant program.now global.now fields.now)) }
{
    let number = global_number(program, global)?;
    let mut numbers = Vec::new(alloc);
    let end = put_fields(program, global_type(program, number), fields, &mut numbers)?;
    Ok((Value::Path(number, numbers), Kind::of(end)))
}

/// A value and its kind.
fn value(alloc: Global, program: &Program, phrase: &ValuePhrase) -> Result<(Value, Kind), Misfit>
    ensures { MatchResult result (λ r. value_meant program.now phrase.now ≡ Ok (value_view r.0, r.1))
        (IsAnswer (value_meant program.now phrase.now)) }
{
    match phrase {
        ValuePhrase::Number(numeral) => Ok((Value::Number(integer(numeral)), Kind::Int)),
        ValuePhrase::Null => Ok((Value::Null, Kind::Null)),
        ValuePhrase::Path(global, fields) => path(alloc, program, global, fields.as_slice()),
        ValuePhrase::Printed(place) => Ok((Value::Printed(place.value() as usize), Kind::Int)),
        ValuePhrase::PrintedCount => Ok((Value::PrintedCount, Kind::Int)),
        ValuePhrase::TimesPrinted(numeral) => {
            Ok((Value::TimesPrinted(integer(numeral)), Kind::Int))
        }
        ValuePhrase::Computed(operator, left, one, other) => {
            let (one, kind) = value(alloc, program, one)?;
            let (other, second) = value(alloc, program, other)?;
            if kind != Kind::Int || second != Kind::Int {
                return Err(Misfit::Kind(*left));
            }
            let (one, other) = (Box::new(alloc, one)?, Box::new(alloc, other)?);
            Ok((Value::Computed(*operator, one, other), Kind::Int))
        }
    }
}

/// Two values compared: `>` is `<` the other way round.
fn compared(relation: Relation, one: Value, other: Value) -> Condition
    ensures { condition_view result ≡ compared_by relation (value_view one) (value_view other) }
{
    match relation {
        Relation::Equal => Condition::Compares(one, Comparison::Equal, other),
        Relation::NotEqual => Condition::Compares(one, Comparison::NotEqual, other),
        Relation::Less => Condition::Compares(one, Comparison::Less, other),
        Relation::LessOrEqual => Condition::Compares(one, Comparison::LessOrEqual, other),
        Relation::Greater => Condition::Compares(other, Comparison::Less, one),
        Relation::GreaterOrEqual => Condition::Compares(other, Comparison::LessOrEqual, one),
    }
}

/// A condition, or its opposite.
fn unless(alloc: Global, denied: bool, condition: Condition) -> Result<Condition, AllocError>
    ensures { IfOk result (λ c. condition_view c ≡ denied_if denied (condition_view condition)) }
{
    if denied {
        Ok(Condition::Not(Box::new(alloc, condition)?))
    } else {
        Ok(condition)
    }
}

/// A condition.
fn condition(
    alloc: Global,
    program: &Program,
    phrase: &ConditionPhrase,
) -> Result<Condition, Misfit>
    ensures { MatchResult result (λ c. condition_meant program.now phrase.now ≡ Ok (condition_view c))
        (IsAnswer (condition_meant program.now phrase.now)) }
{
    match phrase {
        ConditionPhrase::Compares(relation, left, one, other) => {
            let (one, kind) = value(alloc, program, one)?;
            let (other, second) = value(alloc, program, other)?;
            if !kind.compares(*relation, second) {
                return Err(Misfit::Kind(*left));
            }
            Ok(compared(*relation, one, other))
        }
        ConditionPhrase::Ends(thread, denied, end) => {
            let number = thread_number(program, thread)?;
            Ok(unless(alloc, *denied, Condition::Ends(number, *end))?)
        }
        ConditionPhrase::Prints(denied, numerals) => {
            let numbers = integers(alloc, numerals.as_slice())?;
            Ok(unless(alloc, *denied, Condition::Prints(numbers))?)
        }
        ConditionPhrase::Not(inner) => {
            let inner = condition(alloc, program, inner)?;
            Ok(Condition::Not(Box::new(alloc, inner)?))
        }
        ConditionPhrase::Group(inner) => condition(alloc, program, inner),
        ConditionPhrase::Both(one, other) => {
            let one = condition(alloc, program, one)?;
            let other = condition(alloc, program, other)?;
            Ok(Condition::Both(Box::new(alloc, one)?, Box::new(alloc, other)?))
        }
        ConditionPhrase::Either(one, other) => {
            let one = condition(alloc, program, one)?;
            let other = condition(alloc, program, other)?;
            Ok(Condition::Either(Box::new(alloc, one)?, Box::new(alloc, other)?))
        }
    }
}

/// A question.
pub fn question(
    alloc: Global,
    program: &Program,
    phrase: &QuestionPhrase,
) -> Result<Question, Misfit>
    ensures { MatchResult result (λ q. question_meant program.now phrase.now ≡ Ok (question_view q))
        (IsAnswer (question_meant program.now phrase.now)) }
{
    match phrase {
        QuestionPhrase::Always(inner) => Ok(Question::Always(condition(alloc, program, inner)?)),
        QuestionPhrase::Exists(inner) => Ok(Question::Exists(condition(alloc, program, inner)?)),
        QuestionPhrase::Never(inner) => Ok(Question::Never(condition(alloc, program, inner)?)),
        QuestionPhrase::Keeps(inner) => Ok(Question::Keeps(condition(alloc, program, inner)?)),
        QuestionPhrase::Ends => Ok(Question::Ends),
        QuestionPhrase::Outcomes(count) => Ok(Question::Outcomes(count.value())),
        QuestionPhrase::First(threads) => {
            let numbers = thread_numbers(alloc, program, threads.as_slice())?;
            Ok(Question::First(numbers))
        }
    }
}
