//! Warnings with their places.

ghost use Rattle.std.specs.{Prelude.{◌≡◌, ◌++◌, OnOk}, String.{string_bytes}};
ghost use Rattle.sect_warnings.specs.Placed.{behind};
ghost use Rattle.sect_warnings.specs.steps.Trials.{with_note};

use crate::warning::Told;
use sect_front::Span;
use std::alloc::AllocError;
use std::marker::Model;

/// What is told, the bytes that are marked, what is said of these, and what it means; nothing is said by an empty text.
#[derive(Drop)]
pub struct Placed {
    told: Told,
    span: Span,
    label: String,
    note: String,
}

impl Model for Placed {
    ghost use Rattle.std.specs.String.{string_bytes};
    ghost use Rattle.sect_warnings.specs.Placed.{PlacedView};

    ghost Value = { PlacedView };

    ghost view = { λ p. record {
      told = p.told;
      span = p.span;
      label = string_bytes p.label;
      note = string_bytes p.note;
    } };
}

impl Placed {
    pub(crate) fn new(told: Told, span: Span, label: String, note: String) -> Placed
        ensures { result
            ≡ record { told = told; span = span; label = string_bytes label; note = string_bytes note } }
    {
        Placed {
            told,
            span,
            label,
            note,
        }
    }

    /// Adds to what it means.
    pub(crate) fn extend_note(&mut self, said: &str) -> Result<(), AllocError>
        ensures { OnOk result (self.new ≡ with_note self.old said.now) }
    {
        self.note.push_str(said)
    }

    /// What is told.
    pub fn told(&self) -> Told
        ensures { result ≡ self.now.told }
    {
        self.told
    }

    /// The bytes that are marked.
    pub fn span(&self) -> Span
        ensures { result ≡ self.now.span }
    {
        self.span
    }

    /// What is said of these bytes, or nothing.
    pub fn label(&self) -> &str
        ensures { result.now ≡ self.now.label }
    {
        self.label.as_str()
    }

    /// What it means, and what is advised.
    pub fn note(&self) -> &str
        ensures { result.now ≡ self.now.note }
    {
        self.note.as_str()
    }
}

/// Adds what is said, behind a sign. Where nothing is said, the sign is left out.
pub fn put_behind(text: &mut String, sign: &str, said: &str) -> Result<(), AllocError>
    ensures { OnOk result (string_bytes text.new ≡ string_bytes text.old ++ behind sign.now said.now) }
{
    match said.as_bytes() {
        [] => Ok(()),
        _ => {
            text.push_str(sign)?;
            text.push_str(said)
        }
    }
}
