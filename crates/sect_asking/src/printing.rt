//! A question as it is printed.

ghost use Rattle.std.specs.{Prelude.{◌≡◌, ◌++◌, IfOk, OnOk, codes}, String.{string_bytes}, Fmt.{signed_decimal}};
ghost use Rattle.sect_asking.specs.Printing.{field_name as field_name_by, field_type as field_type_by, global_type};
ghost use Rattle.sect_asking.specs.Printing.{global_name, thread_name, fields_text, operator_text, value_text};
ghost use Rattle.sect_asking.specs.Printing.{more_text, numbers_text, opening, closing, condition_text};
ghost use Rattle.sect_asking.specs.Printing.{needs_at_both, needs_at_either};
ghost use Rattle.sect_asking.specs.Printing.{threads_text, question_text};
ghost use Rattle.sect_store.specs.Printing.{state_text};

use sect_front::Operator;
use sect_questions::{Condition, Question, Value};
use sect_types::{End, Program, ValueType};
use std::alloc::{AllocError, Global};
use std::fmt::Write;

/// What a condition is a part of.
#[derive(Clone, Copy, PartialEq, Eq)]
enum Part {
    /// It stands alone, in parentheses or as the left side of `||`.
    Whole,
    /// It is the right side of `||` or the left side of `&&`.
    OfEither,
    /// It is the right side of `&&`.
    OfBoth,
}

impl Part {
    /// Whether an `&&` stands in parentheses here.
    fn parts_both(self) -> bool
        ensures { result ≡ needs_at_both self }
    {
        self == Part::OfBoth
    }

    /// Whether an `||` stands in parentheses here.
    fn parts_either(self) -> bool
        ensures { result ≡ needs_at_either self }
    {
        self != Part::Whole
    }
}

/// The question as a text that reads back as the same one, with the program's names: parentheses stand where they are
/// needed, and behind `!`.
pub fn print_question(
    alloc: Global,
    program: &Program,
    question: &Question,
) -> Result<String, AllocError>
    ensures { IfOk result (λ text. string_bytes text ≡ question_text program.now question.now) }
{
    let mut text = String::new(alloc);
    match question {
        Question::Always(condition) => put_whole(&mut text, program, "always ", condition)?,
        Question::Exists(condition) => put_whole(&mut text, program, "exists ", condition)?,
        Question::Never(condition) => put_whole(&mut text, program, "never ", condition)?,
        Question::Keeps(condition) => put_whole(&mut text, program, "keeps ", condition)?,
        Question::Ends => text.push_str("ends")?,
        Question::Outcomes(count) => write!(&mut text, "outcomes {count}")?,
        Question::First(threads) => put_first(&mut text, program, threads.as_slice())?,
    }
    Ok(text)
}

/// Adds a word and a condition.
fn put_whole(
    text: &mut String,
    program: &Program,
    word: &str,
    condition: &Condition,
) -> Result<(), AllocError>
    ensures { OnOk result (string_bytes text.new
        ≡ string_bytes text.old ++ word.now ++ condition_text program.now Part.Whole condition.now) }
{
    text.push_str(word)?;
    put_condition(text, program, Part::Whole, condition)
}

/// Adds which threads come first.
fn put_first(text: &mut String, program: &Program, threads: &[u16]) -> Result<(), AllocError>
    ensures { OnOk result (string_bytes text.new
        ≡ string_bytes text.old ++ codes "first" ++ threads_text program.now threads.now) }
{
    text.push_str("first")?;
    for thread in threads {
        text.push_str(" ")?;
        put_thread_name(text, program, *thread)?;
    }
    Ok(())
}

/// Adds a condition as a part of what stands around it.
fn put_condition(
    text: &mut String,
    program: &Program,
    part: Part,
    condition: &Condition,
) -> Result<(), AllocError>
    ensures { OnOk result (string_bytes text.new
        ≡ string_bytes text.old ++ condition_text program.now part condition.now) }
{
    match condition {
        Condition::Compares(left, comparison, right) => {
            put_value(text, program, left)?;
            text.push_str(" ")?;
            text.push_str(comparison.spelling())?;
            text.push_str(" ")?;
            put_value(text, program, right)
        }
        Condition::Ends(thread, end) => put_end(text, program, *thread, *end),
        Condition::Prints(numbers) => put_output(text, numbers.as_slice()),
        Condition::Not(inner) => {
            text.push_str("!")?;
            open(text, true)?;
            put_condition(text, program, Part::Whole, inner)?;
            close(text, true)
        }
        Condition::Both(one, other) => {
            open(text, part.parts_both())?;
            put_condition(text, program, Part::OfEither, one)?;
            text.push_str(" && ")?;
            put_condition(text, program, Part::OfBoth, other)?;
            close(text, part.parts_both())
        }
        Condition::Either(one, other) => {
            open(text, part.parts_either())?;
            put_condition(text, program, Part::Whole, one)?;
            text.push_str(" || ")?;
            put_condition(text, program, Part::OfEither, other)?;
            close(text, part.parts_either())
        }
    }
}

/// Adds `(`, where parentheses are needed.
fn open(text: &mut String, needed: bool) -> Result<(), AllocError>
    ensures { OnOk result (string_bytes text.new ≡ string_bytes text.old ++ opening needed) }
{
    if needed {
        text.push_str("(")?;
    }
    Ok(())
}

/// Adds `)`, where parentheses are needed.
fn close(text: &mut String, needed: bool) -> Result<(), AllocError>
    ensures { OnOk result (string_bytes text.new ≡ string_bytes text.old ++ closing needed) }
{
    if needed {
        text.push_str(")")?;
    }
    Ok(())
}

/// Adds how a thread has ended.
fn put_end(
    text: &mut String,
    program: &Program,
    thread: u16,
    end: Option<End>,
) -> Result<(), AllocError>
    ensures { OnOk result (string_bytes text.new
        ≡ string_bytes text.old ++ codes "thread " ++ thread_name program.now thread ++ codes " == "
        ++ state_text end) }
{
    text.push_str("thread ")?;
    put_thread_name(text, program, thread)?;
    text.push_str(" == ")?;
    match end {
        None => text.push_str("running"),
        Some(end) => Ok(write!(text, "{end}")?),
    }
}

/// Adds which numbers are printed.
fn put_output(text: &mut String, numbers: &[i64]) -> Result<(), AllocError>
    ensures { OnOk result (string_bytes text.new
        ≡ string_bytes text.old ++ codes "print == [" ++ numbers_text numbers.now ++ codes "]") }
{
    text.push_str("print == [")?;
    put_numbers(text, numbers)?;
    text.push_str("]")
}

/// Adds numbers, with a comma between two.
fn put_numbers(text: &mut String, numbers: &[i64]) -> Result<(), AllocError>
    ensures { OnOk result (string_bytes text.new ≡ string_bytes text.old ++ numbers_text numbers.now) }
{
    let Some((first, others)) = numbers.split_first() else {
        return Ok(());
    };
    put_number(text, *first)?;
    put_more(text, others)
}

/// Adds further numbers, each behind a comma.
fn put_more(text: &mut String, numbers: &[i64]) -> Result<(), AllocError>
    ensures { OnOk result (string_bytes text.new ≡ string_bytes text.old ++ more_text numbers.now) }
{
    for number in numbers {
        text.push_str(", ")?;
        put_number(text, *number)?;
    }
    Ok(())
}

/// Adds a number.
fn put_number(text: &mut String, number: i64) -> Result<(), AllocError>
    ensures { OnOk result (string_bytes text.new ≡ string_bytes text.old ++ signed_decimal number) }
{
    Ok(write!(text, "{number}")?)
}

/// Adds what is compared.
fn put_value(text: &mut String, program: &Program, value: &Value) -> Result<(), AllocError>
    ensures { OnOk result (string_bytes text.new ≡ string_bytes text.old ++ value_text program.now value.now) }
{
    match value {
        Value::Number(number) => put_number(text, *number),
        Value::Null => text.push_str("null"),
        Value::Path(global, fields) => put_path(text, program, *global, fields.as_slice()),
        Value::Printed(place) => Ok(write!(text, "print[{place}]")?),
        Value::PrintedCount => text.push_str("#print"),
        Value::TimesPrinted(number) => {
            text.push_str("#")?;
            put_number(text, *number)
        }
        Value::Computed(operator, left, right) => {
            put_value(text, program, left)?;
            put_operator(text, *operator)?;
            put_value(text, program, right)
        }
    }
}

/// Adds the sign of an operator.
fn put_operator(text: &mut String, operator: Operator) -> Result<(), AllocError>
    ensures { OnOk result (string_bytes text.new ≡ string_bytes text.old ++ operator_text operator) }
{
    match operator {
        Operator::Add => text.push_str(" + "),
        Operator::Subtract => text.push_str(" - "),
        Operator::Multiply => text.push_str(" * "),
    }
}

/// Adds a path.
fn put_path(
    text: &mut String,
    program: &Program,
    global: u16,
    fields: &[u16],
) -> Result<(), AllocError>
    ensures { OnOk result (string_bytes text.new ≡ string_bytes text.old ++ global_name program.now global
        ++ fields_text program.now (global_type program.now global) fields.now) }
{
    let of = match program.globals().get(global as usize) {
        None => 0,
        Some(record) => *record,
    };
    if let Some(declared) = program.tree().globals().get(global as usize) {
        declared.name.push_to(text)?;
    }
    put_fields(text, program, ValueType::Refers(of), fields)
}

/// Adds the fields of a path that goes on from what is of this type.
fn put_fields(
    text: &mut String,
    program: &Program,
    of: ValueType,
    fields: &[u16],
) -> Result<(), AllocError>
    ensures { OnOk result (string_bytes text.new ≡ string_bytes text.old ++ fields_text program.now of fields.now) }
{
    let mut of = of;
    for field in fields {
        text.push_str(".")?;
        put_field_name(text, program, of, *field)?;
        of = field_type(program, of, *field);
    }
    Ok(())
}

/// Adds the name of a field of what is of this type; nothing where it has no such field.
fn put_field_name(
    text: &mut String,
    program: &Program,
    of: ValueType,
    field: u16,
) -> Result<(), AllocError>
    ensures { OnOk result (string_bytes text.new ≡ string_bytes text.old ++ field_name_by program.now of field) }
{
    let ValueType::Refers(number) = of else {
        return Ok(());
    };
    let Some(record) = program.tree().records().get(number as usize) else {
        return Ok(());
    };
    match record.fields.as_slice().get(field as usize) {
        None => Ok(()),
        Some(declared) => declared.name.push_to(text),
    }
}

/// The type of a field of what is of this type; an integer's where it has no such field.
fn field_type(program: &Program, of: ValueType, field: u16) -> ValueType
    ensures { result ≡ field_type_by program.now of field }
{
    let ValueType::Refers(number) = of else {
        return ValueType::Int;
    };
    let Some(record) = program.records().get(number as usize) else {
        return ValueType::Int;
    };
    match record.as_slice().get(field as usize) {
        None => ValueType::Int,
        Some(of) => *of,
    }
}

/// Adds the name of a thread; nothing where there is no such thread.
fn put_thread_name(text: &mut String, program: &Program, thread: u16) -> Result<(), AllocError>
    ensures { OnOk result (string_bytes text.new ≡ string_bytes text.old ++ thread_name program.now thread) }
{
    match program.tree().threads().get(thread as usize) {
        None => Ok(()),
        Some(declared) => declared.name.push_to(text),
    }
}
