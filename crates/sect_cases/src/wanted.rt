//! Whether an answer is as a case says, and how the two differ.

use crate::answer::Answer;
use crate::case::Case;
use crate::form::Print;
use std::alloc::{AllocError, Global};
use std::io;
use std::io::Write;

/// Whether a line is what is printed next. Any lines are no line.
fn is_line(print: &Print<'_>, line: &str) -> bool {
    match print {
        Print::Line(text) => line == *text,
        Print::Holding(text) => line.contains(*text),
        Print::AnyLines => false,
    }
}

/// Where the lines go on behind the first from here on that is what is printed next, which has to be the very first
/// unless lines may be left out.
fn behind(print: &Print<'_>, lines: &[&str], from: usize, skips: bool) -> Option<usize> {
    let rest = lines.get(from..)?;
    let at = rest.iter().position(|line| is_line(print, *line))?;
    if at == 0 || skips {
        Some(from.saturating_add(at).saturating_add(1))
    } else {
        None
    }
}

/// Whether nothing but the empty line behind the last line feed is left from here on.
fn is_end(lines: &[&str], from: usize) -> bool {
    match lines.last() {
        Some(line) => line.is_empty() && from.saturating_add(1) == lines.len(),
        None => false,
    }
}

/// Whether these lines are what is printed, to the end.
fn are_printed(prints: &[Print<'_>], lines: &[&str]) -> bool {
    let mut from = 0usize;
    let mut skips = false;
    for print in prints {
        if matches!(print, Print::AnyLines) {
            skips = true;
            continue;
        }
        let Some(next) = behind(print, lines, from, skips) else {
            return false;
        };
        from = next;
        skips = false;
    }
    skips || is_end(lines, from)
}

/// Whether a text has the lines that are printed, to its end.
fn is_printed(alloc: Global, prints: &[Print<'_>], text: &str) -> Result<bool, AllocError> {
    // A text whose last line has its line feed has an empty line behind it.
    let lines: Vec<&str> = text.split('\n').collect(alloc)?;
    Ok(are_printed(prints, lines.as_slice()))
}

/// Whether an answer is as the case says.
pub fn is_expected(alloc: Global, case: &Case<'_>, answer: &Answer) -> Result<bool, AllocError> {
    let printed = is_printed(alloc, case.prints.as_slice(), answer.text.as_str())?;
    let told = is_printed(
        alloc,
        case.complaints.as_slice(),
        answer.complaints.as_str(),
    )?;
    Ok(printed && told && answer.status == case.status.unwrap_or(0))
}

/// Prints a line of what a case wants.
fn put_print(output: &mut impl Write, print: &Print<'_>) -> io::Result<()> {
    match print {
        Print::Line(text) => writeln!(output, "> {text}"),
        Print::Holding(text) => writeln!(output, ">~ {text}"),
        Print::AnyLines => writeln!(output, ">.."),
    }
}

/// Prints a line of what a case wants on standard error.
fn put_complaint(output: &mut impl Write, complaint: &Print<'_>) -> io::Result<()> {
    match complaint {
        Print::Line(text) | Print::Holding(text) => writeln!(output, "! {text}"),
        Print::AnyLines => Ok(()),
    }
}

/// Prints what a case wants.
fn put_wanted(output: &mut impl Write, case: &Case<'_>) -> io::Result<()> {
    for print in case.prints.iter() {
        put_print(output, print)?;
    }
    for complaint in case.complaints.iter() {
        put_complaint(output, complaint)?;
    }
    writeln!(output, "= {}", case.status.unwrap_or(0))
}

/// Prints an answer as a case would say it.
fn put_got(output: &mut impl Write, answer: &Answer) -> io::Result<()> {
    for line in answer.text.lines() {
        writeln!(output, "> {line}")?;
    }
    for line in answer.complaints.lines() {
        writeln!(output, "! {line}")?;
    }
    writeln!(output, "= {}", answer.status)
}

/// Prints what a case wants and what was got.
pub fn put_difference(
    output: &mut impl Write,
    name: &str,
    case: &Case<'_>,
    answer: &Answer,
) -> io::Result<()> {
    writeln!(output, "{name}: line {}: sectc{}", case.line, case.words)?;
    writeln!(output, "wanted:")?;
    put_wanted(output, case)?;
    writeln!(output, "got:")?;
    put_got(output, answer)
}
