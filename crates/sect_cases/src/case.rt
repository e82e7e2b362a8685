//! The cases of a file.

use crate::failure::Failure;
use crate::form::{Form, Piece, Print, form_of};
use std::alloc::Global;

/// A command line, its input, and what is expected of it.
#[derive(Drop)]
pub struct Case<'a> {
    /// The number of the line on which the command stands.
    pub line: usize,
    /// The words of the command line, without the program's name.
    pub words: &'a str,
    /// The command whose answer to the input stands in front of it, if there is one.
    pub before: Option<&'a str>,
    /// The pieces of the input, in order.
    pub input: Vec<Piece<'a>>,
    /// What is printed, in order.
    pub prints: Vec<Print<'a>>,
    /// What is printed on standard error, in order.
    pub complaints: Vec<Print<'a>>,
    /// The status, where the case says it.
    pub status: Option<u8>,
}

impl<'a> Case<'a> {
    /// A case of which nothing is known but its command line.
    fn new(alloc: Global, line: usize, words: &'a str) -> Case<'a> {
        Case {
            line,
            words,
            before: None,
            input: Vec::new(alloc),
            prints: Vec::new(alloc),
            complaints: Vec::new(alloc),
            status: None,
        }
    }

    /// Whether the case says anything of what is printed or of the status.
    fn expects(&self) -> bool {
        self.status.is_some() || !self.prints.is_empty()
    }

    /// Whether its input has messages of an editor.
    pub fn is_conversation(&self) -> bool {
        self.input
            .iter()
            .any(|piece| matches!(piece, Piece::Message(_)))
    }

    /// Adds what a line says of the case.
    fn put(&mut self, form: Form<'a>) -> Result<(), Failure> {
        match form {
            Form::Before(words) => self.before = Some(words),
            Form::Input(piece) => self.input.push(piece)?,
            Form::Print(print) => self.prints.push(print)?,
            Form::Complaint(print) => self.complaints.push(print)?,
            Form::Status(status) => self.status = Some(status),
            Form::Remark | Form::Command(_) => {}
        }
        Ok(())
    }
}

/// Adds a line to the cases before it.
fn put_line<'a>(
    alloc: Global,
    cases: &mut Vec<Case<'a>>,
    number: usize,
    line: &'a str,
) -> Result<(), Failure> {
    match form_of(line) {
        None => Err(Failure::UnknownLine(number)),
        Some(Form::Remark) => Ok(()),
        Some(Form::Command(words)) => Ok(cases.push(Case::new(alloc, number, words))?),
        Some(form) => match cases.last_mut() {
            Some(case) => case.put(form),
            None => Err(Failure::NoCommand(number)),
        },
    }
}

/// The cases of a text, in order. Each has an expectation.
pub fn cases_of(alloc: Global, text: &str) -> Result<Vec<Case<'_>>, Failure> {
    let mut cases = Vec::new(alloc);
    let mut number = 0usize;
    for line in text.lines() {
        number = number.saturating_add(1);
        put_line(alloc, &mut cases, number, line)?;
    }
    match cases.iter().find(|case| !case.expects()) {
        Some(case) => Err(Failure::NoExpectation(case.line)),
        None => Ok(cases),
    }
}
