//! The text of a thread, by numbers.

ghost use Rattle.std.specs.Prelude.{◌≡◌, ℕ, true, None, IfOk, OnOk, OnErr, option_copied};
ghost use Rattle.sect_types.specs.{Statements.{Stop, joined, section_body}, Sections.{AreNumbered}};
ghost use Rattle.sect_types.specs.steps.FoundSections.{IsSectionBelow};

use crate::expansion::action::{Action, Condition};
use sect_front::make_room;
use std::alloc::{AllocError, Global};
use std::marker::Model;

/// Statements, one after another.
#[cycle(text)]
#[derive(Drop)]
pub struct Text {
    steps: Vec<Step>,
}

/// A statement.
#[cycle(text)]
#[derive(Drop)]
pub enum Step {
    Do(Action),
    /// What is done where the condition holds, and what where it doesn't.
    If(Condition, Text, Text),
    While(Condition, Text),
    /// A section, with its number.
    Section(u16, Text),
}

impl Model for Text {
    ghost use Rattle.sect_types.specs.Statements.{TextView};
    ghost use Rattle.sect_types.specs.Coding.{statements_code};

    ghost Value = { TextView };

    ghost coded = { statements_code };

    ghost use Rattle.sect_types.specs.Statements.{weight};
    ghost use Rattle.sect_types.specs.Texts.{statements_of};

    ghost view = { λ t. statements_of t.steps.items };

    ghost size = { weight };

    ghost use Rattle.std.proofs.Common.{arith};
    ghost use Rattle.sect_types.specs.Falls.{falls};

    ghost size_decreases = { λ a h. Prim.omega (arith, falls a.steps.items) };
}

impl Text {
    ghost use Rattle.sect_types.specs.Texts.{step_then, statements_of};

    /// No statements.
    pub(crate) fn new(alloc: Global) -> Text
        ensures { result ≡ Stop }
    {
        Text {
            steps: Vec::new(alloc),
        }
    }

    /// No statements, with room for so many.
    pub(crate) fn with_room(alloc: Global, count: usize) -> Result<Text, AllocError>
        ensures { IfOk result (λ text. text ≡ Stop) }
    {
        Ok(Text {
            steps: Vec::with_capacity(alloc, count)?,
        })
    }

    /// The statements, in text order.
    pub fn as_slice(&self) -> &[Step]
        ensures { statements_of result.now ≡ self.now }
    {
        self.steps.as_slice()
    }

    /// Adds a statement at the end.
    #[tactic(auto, using(crate::proofs::PushedSteps::statements_of_push))]
    pub(crate) fn push(&mut self, step: Step) -> Result<(), AllocError>
        ensures ok { OnOk result (self.new ≡ joined self.old (step_then step Stop)) }
        ensures err { OnErr result (self.new ≡ self.old) }
    {
        if self.steps.len() == self.steps.capacity() {
            make_room(&mut self.steps)?;
        }
        self.steps.push(step)?;
        Ok(())
    }

    /// Whether the last statement is a section with a smaller number.
    pub(crate) fn ends_below(&self, number: u16) -> bool
        ensures { result ≡ true → (m : ℕ) → AreNumbered m self.now → section_body number self.now ≡ None }
    {
        match self.as_slice().last() {
            Some(step) => step.is_section_below(number),
            None => false,
        }
    }

    /// The body of the section of this number, if it is in this text.
    #[cycle(find)]
    pub(crate) fn section(&self, number: u16) -> Option<&Text>
        ensures { option_copied result ≡ section_body number self.now }
    {
        for step in self.as_slice() {
            if let Some(body) = step.section(number) {
                return Some(body);
            }
        }
        None
    }
}

impl Step {
    ghost use Rattle.sect_types.specs.Texts.{step_then};

    /// Whether it is a section with a smaller number.
    fn is_section_below(&self, number: u16) -> bool
        ensures { result ≡ true → IsSectionBelow number self.now }
    {
        match self {
            Step::Section(own, _) => *own < number,
            _ => false,
        }
    }

    /// The body of the section of this number, if it is this statement or in it.
    #[cycle(find)]
    fn section(&self, number: u16) -> Option<&Text>
        ensures { option_copied result ≡ section_body number (step_then self.now Stop) }
    {
        match self {
            Step::Do(_) => None,
            Step::If(_, yes, no) => match yes.section(number) {
                Some(body) => Some(body),
                None => no.section(number),
            },
            Step::While(_, body) => body.section(number),
            Step::Section(own, body) => { if *own == number { Some(body) } else { None } }
        }
    }
}
