//! Several outcomes of one program as they are printed.

ghost use Rattle.std.specs.{Prelude.{◌≡◌, ◌++◌, IfOk, OnOk}, String.{string_bytes}};
ghost use Rattle.sect_types.specs.Sight.{names_of_declared};
ghost use Rattle.sect_store.specs.Printing.{fields_at, numbered_text};

use crate::outcome::Outcome;
use crate::printing::{fields_at, put_ends, put_order, put_output, put_store};
use crate::site::site_records;
use sect_front::Declaration;
use sect_types::Program;
use std::alloc::{AllocError, Global};
use std::fmt::Write;
use std::marker::Model;

/// What it takes to print outcomes of a program: the program, and the record of each of its sites.
#[derive(Drop)]
pub struct Printer<'a> {
    program: &'a Program,
    sites: Vec<u16>,
}

impl<'a> Model for Printer<'a> {
    ghost use Rattle.std.specs.Prelude.{◌≡◌};
    ghost use Rattle.std.specs.Coded.{codes};
    ghost use Rattle.sect_front.specs.Coding.{block_code};
    ghost use Rattle.sect_types.specs.Coding.{statements_code};
    ghost use Rattle.sect_types.specs.Programs.{ProgramView, sites_of};

    ghost Value = { ProgramView };

    ghost coded = { Prim.hlevel (codes, block_code, statements_code) };

    ghost view = { λ p. p.program.now };

    ghost invariant = { λ p. p.sites.items ≡ sites_of p.program.now.globals p.program.now.texts };
}

impl<'a> Printer<'a> {
    /// Prints outcomes of this program.
    pub fn new(alloc: Global, program: &'a Program) -> Result<Printer<'a>, AllocError>
        ensures { IfOk result (λ printer. printer ≡ program.now) }
    {
        let sites = site_records(alloc, program)?;
        Ok(Printer { program, sites })
    }

    /// The program.
    pub fn program(&self) -> &Program
        ensures { result.now ≡ self.now }
    {
        self.program
    }

    /// The declarations of the fields of the objects that are made at a site.
    pub fn fields(&self, site: u16) -> &[Declaration]
        ensures { names_of_declared result.now ≡ fields_at self.now site }
    {
        fields_at(self.program, self.sites.as_slice(), site)
    }

    /// Adds the outcome of this number: a line with its number and order, how each thread has ended, the output, and a
    /// line for each object.
    pub fn put_numbered(
        &self,
        text: &mut String,
        number: usize,
        outcome: &Outcome,
    ) -> Result<(), AllocError>
        ensures { OnOk result (string_bytes text.new
            ≡ string_bytes text.old ++ numbered_text self.now number outcome.now) }
    {
        write!(text, "outcome {number}: ")?;
        put_order(text, outcome.order())?;
        put_ends(text, outcome.ends())?;
        put_output(text, outcome.output())?;
        put_store(text, self.program, self.sites.as_slice(), outcome.store())
    }
}
