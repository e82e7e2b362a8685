//! What is still to run.

ghost use Rattle.std.specs.{Prelude.{◌≡◌, option_copied, OnOk, IfOk}, Cmp.{partial_equiv_from_equiv}};
ghost use Rattle.sect_serial.specs.Comparing.{text_eq, text_equivalence};
ghost use Rattle.sect_types.specs.{Statements.{joined}, Texts.{statements_of}};
ghost use Rattle.sect_serial.specs.steps.Rests.{Begins, after_first, is_stop, rest_of, AreFull};

use crate::same::{Statements, same_statements};
use sect_types::{Step, Text};
use std::alloc::{AllocError, Global};
use std::marker::Model;

/// The statements of a block from some statement on.
#[derive(Drop)]
pub struct Part<'a> {
    steps: &'a [Step],
}

impl<'a> Model for Part<'a> {
    ghost use Rattle.sect_types.specs.Statements.{TextView};
    ghost use Rattle.sect_types.specs.Coding.{statements_code};

    ghost Value = { TextView };

    ghost coded = { statements_code };

    ghost use Rattle.sect_types.specs.Texts.{statements_of};

    ghost view = { λ p. statements_of p.steps.now };
}

impl<'a> Part<'a> {
    /// All statements of a text.
    fn of(text: &'a Text) -> Part<'a>
        ensures { result ≡ text.now }
    {
        Part {
            steps: text.as_slice(),
        }
    }

    /// Its statements.
    pub fn steps(&self) -> &'a [Step]
        ensures { statements_of result.now ≡ self.now }
    {
        self.steps
    }

    /// Whether it has no statement.
    fn is_empty(&self) -> bool
        ensures { result ≡ is_stop self.now }
    {
        self.steps.is_empty()
    }

    /// Its first statement.
    fn first(&self) -> Option<&'a Step>
        ensures { Begins (option_copied result) self.now }
    {
        self.steps.first()
    }

    /// Goes on past its first statement.
    fn advance(&mut self)
        ensures { self.new ≡ after_first self.old }
    {
        if let [_, rest @ ..] = self.steps {
            self.steps = rest;
        }
    }
}

/// What is still to run of a thread or a section: the rests of the blocks that it is in, the innermost last, none of
/// them empty. A loop stays the first statement of its block while its body is run, so a step costs the same however
/// much is left.
#[derive(Drop)]
pub struct Rest<'a> {
    parts: Vec<Part<'a>>,
}

impl<'a> Model for Rest<'a> {
    ghost use Rattle.sect_types.specs.Statements.{TextView};
    ghost use Rattle.sect_types.specs.Coding.{statements_code};

    ghost Value = { TextView };

    ghost coded = { statements_code };

    ghost use Rattle.sect_serial.specs.steps.Rests.{rest_of, AreFull};

    ghost view = { λ r. rest_of r.parts.items };

    ghost invariant = { λ r. AreFull r.parts.items };
}

impl<'a> Rest<'a> {
    /// All statements of a text.
    pub fn of(alloc: Global, text: &'a Text) -> Result<Rest<'a>, AllocError>
        ensures { IfOk result (λ rest. rest ≡ text.now) }
    {
        let mut rest = Rest {
            parts: Vec::new(alloc),
        };
        rest.enter(text)?;
        Ok(rest)
    }

    /// The rests of the blocks that it is in, the innermost last, none of them empty.
    pub fn parts(&self) -> &[Part<'a>]
        ensures all { rest_of result.now ≡ self.now }
        ensures full { AreFull result.now }
    {
        self.parts.as_slice()
    }

    /// A rest equal to this one.
    pub fn try_clone(&self) -> Result<Rest<'a>, AllocError>
        ensures { IfOk result (λ rest. rest ≡ self.now) }
    {
        let mut parts = Vec::new(*self.parts.allocator());
        for part in self.parts.as_slice() {
            parts.push(Part { steps: part.steps })?;
        }
        Ok(Rest { parts })
    }

    /// The statement that comes next.
    pub fn first(&self) -> Option<&'a Step>
        ensures { Begins (option_copied result) self.now }
    {
        match self.parts.last() {
            None => None,
            Some(part) => part.first(),
        }
    }

    /// Goes on past the statement that comes next.
    pub fn advance(&mut self)
        ensures { self.new ≡ after_first self.old }
    {
        if let Some(part) = self.parts.last_mut() {
            part.advance();
            if part.is_empty() {
                self.parts.pop();
            }
        }
    }

    /// Puts the statements of a text before all others.
    pub fn enter(&mut self, text: &'a Text) -> Result<(), AllocError>
        ensures { OnOk result (self.new ≡ joined text.now self.old) }
    {
        let part = Part::of(text);
        if !part.is_empty() {
            self.parts.push(part)?;
        }
        Ok(())
    }
}

impl PartialEq for Rest<'_> {
    ghost eq = { text_eq };

    ghost laws = { partial_equiv_from_equiv text_equivalence };

    fn eq(&self, other: &Self) -> bool {
        same_statements(Statements::left_in(self), Statements::left_in(other))
    }
}

impl Eq for Rest<'_> {
    ghost laws = { text_equivalence };
}
