//! Where items stand, as they are read.

ghost use Rattle.std.specs.Prelude.{◌≡◌, [], ◌∷◌, OnOk};
ghost use Rattle.sect_front.specs.{ItemSpans.{span_left}, steps.Spanning.{with_spans}};

use crate::span::Span;
use std::alloc::{AllocError, Global};
use std::marker::Model;

/// The spans of the items of a text that have been read, in the order in which they begin.
#[derive(Drop)]
pub struct Spans {
    alloc: Global,
    /// How many bytes the text has.
    total: usize,
    items: Vec<Span>,
}

impl Model for Spans {
    ghost use Rattle.sect_front.specs.steps.Spanning.{SpansView};

    ghost Value = { SpansView };

    ghost view = { λ s. record { total = s.total; items = s.items.items } };
}

impl Spans {
    /// None, of a text of so many bytes.
    pub fn new(alloc: Global, total: usize) -> Spans
        ensures { result ≡ record { total = total; items = [] } }
    {
        Spans {
            alloc,
            total,
            items: Vec::new(alloc),
        }
    }

    /// Where memory comes from.
    pub fn alloc(&self) -> Global {
        self.alloc
    }

    /// The spans.
    pub fn into_items(self) -> Vec<Span>
        ensures { result.items ≡ self.items }
    {
        self.items
    }

    /// Adds the span of an item, before whose first byte and behind whose last so many bytes are left.
    #[inline(always)]
    pub fn add(&mut self, start: usize, end: usize) -> Result<(), AllocError>
        ensures { OnOk result (self.new ≡ with_spans self.old (span_left self.old.total start end ∷ [])) }
    {
        self.items.push(Span {
            start: self.total.saturating_sub(start),
            end: self.total.saturating_sub(end),
        })?;
        Ok(())
    }
}
