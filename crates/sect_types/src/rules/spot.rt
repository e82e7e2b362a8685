//! How far a walk through the items has come.

ghost use Rattle.std.specs.Prelude.{◌≡◌, ◌+◌, ◌<◌, ◌≤◌, OnOk, OnErr, false, nat_le};
ghost use Rattle.sect_types.specs.Rules.{passes_by, after_item, after_primitive, plus_sums};
ghost use Rattle.sect_types.specs.Limits.{most_sections, most_sites, most_statements};
ghost use Rattle.sect_types.specs.steps.{Spots.{full_for, full_for_section}, Capped.{IsSmall}};
ghost use Rattle.sect_front.specs.Limits.{most_depth};

use crate::counting::sums::Sums;
use crate::declarations::limits::{
    MOST_CALLS, MOST_ITEMS, MOST_SECTIONS, MOST_SITES, MOST_STATEMENTS,
};
use sect_front::{MOST_DEPTH, Primitive};
use std::marker::Model;

/// There are more items than are counted.
#[derive(Clone, Copy)]
pub struct Uncounted;

/// What stands before the next item: how many items; and of the expanded text how many statements, sites, sections and
/// calls.
#[derive(Drop)]
pub struct Spot {
    items: u64,
    statements: u32,
    sites: u16,
    sections: u16,
    calls: u16,
}

impl Model for Spot {
    ghost use Rattle.sect_types.specs.Rules.{Counts};
    ghost use Rattle.sect_types.specs.steps.Judging.{IsWithin};

    ghost Value = { Counts };

    ghost view = { λ s. record {
      items = s.items;
      statements = s.statements;
      sites = s.sites;
      sections = s.sections;
      calls = s.calls;
    } };

    ghost invariant = { λ s. IsWithin s.statements s.sites s.sections s.calls };
}

impl Spot {
    /// The start of the text.
    pub fn start() -> Spot
        ensures { result ≡ record { items = 0; statements = 0; sites = 0; sections = 0; calls = 0 } }
    {
        Spot {
            items: 0,
            statements: 0,
            sites: 0,
            sections: 0,
            calls: 0,
        }
    }

    /// The number of the next item.
    pub fn item(&self) -> u64
        ensures { result ≡ self.now.items }
    {
        self.items
    }

    /// How many statements stand before.
    pub fn statements(&self) -> u32
        ensures count { result ≡ self.now.statements }
        ensures few { result ≤ most_statements }
    {
        self.statements
    }

    /// How many sites stand before.
    pub fn sites(&self) -> u16
        ensures count { result ≡ self.now.sites }
        ensures few { result ≤ most_sites }
    {
        self.sites
    }

    /// How many sections stand before.
    pub fn sections(&self) -> u16
        ensures count { result ≡ self.now.sections }
        ensures few { result ≤ most_sections }
    {
        self.sections
    }

    /// Whether this statement passes a limit here.
    pub fn is_full_for(&self, primitive: &Primitive) -> bool
        ensures { result ≡ full_for self.now primitive.now }
    {
        match primitive {
            Primitive::New(_, _) => self.statements >= MOST_STATEMENTS || self.sites >= MOST_SITES,
            _ => self.statements >= MOST_STATEMENTS,
        }
    }

    /// Whether an `if` or a `while` passes a limit here.
    pub fn is_full(&self) -> bool
        ensures { result ≡ nat_le most_statements self.now.statements }
    {
        self.statements >= MOST_STATEMENTS
    }

    /// Whether a section passes a limit here.
    pub fn is_full_for_section(&self) -> bool
        ensures { result ≡ full_for_section self.now }
    {
        self.statements >= MOST_STATEMENTS || self.sections >= MOST_SECTIONS
    }

    /// Whether an expansion that comes to this passes a limit here, in a block of this depth.
    pub fn passes(&self, sums: Sums, depth: usize) -> bool
        requires small { IsSmall sums }
        requires shallow { depth ≤ most_depth }
        ensures { result ≡ passes_by self.now depth sums }
    {
        self.statements + u32::from(sums.statements) > MOST_STATEMENTS
            || self.sites + sums.sites > MOST_SITES
            || self.calls + sums.calls > MOST_CALLS
            || depth + usize::from(sums.deep) > MOST_DEPTH
    }

    /// Passes an item that isn't counted but as an item.
    pub fn pass_item(&mut self) -> Result<(), Uncounted>
        ensures counted { OnOk result (self.new ≡ after_item self.old) }
        ensures uncounted { OnErr result (self.old.items ≡ MOST_ITEMS) }
    {
        if self.items == MOST_ITEMS {
            return Err(Uncounted);
        }
        self.items += 1;
        Ok(())
    }

    /// Passes a global, which is a site too.
    pub fn pass_global(&mut self) -> Result<(), Uncounted>
        requires { self.old.sites < most_sites }
        ensures counted { OnOk result (self.new
            ≡ record self.old { items = self.old.items + 1; sites = self.old.sites + 1 }) }
        ensures uncounted { OnErr result (self.old.items ≡ MOST_ITEMS) }
    {
        self.pass_item()?;
        self.sites += 1;
        Ok(())
    }

    /// Passes a statement without a block.
    pub fn pass_primitive(&mut self, primitive: &Primitive) -> Result<(), Uncounted>
        requires { full_for self.old primitive.now ≡ false }
        ensures counted { OnOk result (self.new ≡ after_primitive self.old primitive.now) }
        ensures uncounted { OnErr result (self.old.items ≡ MOST_ITEMS) }
    {
        self.pass_item()?;
        if let Primitive::New(_, _) = primitive {
            self.sites += 1;
        }
        self.statements += 1;
        Ok(())
    }

    /// Passes an `if` or a `while`.
    pub fn pass_test(&mut self) -> Result<(), Uncounted>
        requires { nat_le most_statements self.old.statements ≡ false }
        ensures counted { OnOk result (self.new
            ≡ record self.old { items = self.old.items + 1; statements = self.old.statements + 1 }) }
        ensures uncounted { OnErr result (self.old.items ≡ MOST_ITEMS) }
    {
        self.pass_item()?;
        self.statements += 1;
        Ok(())
    }

    /// Passes an `atomic`.
    pub fn pass_section(&mut self) -> Result<(), Uncounted>
        requires { full_for_section self.old ≡ false }
        ensures counted { OnOk result (self.new ≡ record self.old {
          items = self.old.items + 1;
          statements = self.old.statements + 1;
          sections = self.old.sections + 1;
        }) }
        ensures uncounted { OnErr result (self.old.items ≡ MOST_ITEMS) }
    {
        self.pass_item()?;
        self.sections += 1;
        self.statements += 1;
        Ok(())
    }

    /// Passes a call whose expansion comes to this.
    pub fn pass_sums(&mut self, sums: Sums) -> Result<(), Uncounted>
        requires small { IsSmall sums }
        requires room { passes_by self.old 0 sums ≡ false }
        ensures counted { OnOk result (self.new ≡ plus_sums (after_item self.old) sums) }
        ensures uncounted { OnErr result (self.old.items ≡ MOST_ITEMS) }
    {
        self.pass_item()?;
        self.statements += u32::from(sums.statements);
        self.sites += sums.sites;
        self.calls += sums.calls;
        Ok(())
    }
}
