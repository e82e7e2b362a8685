//! Where a statement stands, and what a call there is judged by.

ghost use Rattle.std.specs.Prelude.{◌≡◌, ◌<◌, ◌≤◌, map, length, true, false, Some, OnOk, OnErr};
ghost use Rattle.sect_types.specs.Items.{deeper as deeper_place, in_section as in_section_place};
ghost use Rattle.sect_types.specs.{Items.{is_inside as inside_at}, Sums.{number_of as number_by, sums, sums_at}};
ghost use Rattle.sect_types.specs.Rules.{by_place, depth_at, passes_by, plus_sums, after_item};
ghost use Rattle.sect_types.specs.declared.rules.place.Place.TheVariants.{InThread, InProcedure};
ghost use Rattle.sect_types.specs.steps.{Search.{returns_to}, Capped.{capped}, Standing.{AreReturning, AreTogether}};
ghost use Rattle.sect_front.specs.Limits.{most_depth};

use crate::counting::sums::Sums;
use crate::declarations::limits::MOST_ITEMS;
use crate::rules::called::Called;
use crate::rules::spot::{Spot, Uncounted};
use sect_front::{Name, Procedure};
use std::marker::Model;

/// Where a statement stands.
#[derive(Clone, Copy)]
pub enum Place {
    /// In a thread: whether in a section of it, and in how many blocks, the thread's braces counted.
    InThread(bool, usize),
    /// In the procedure of this number.
    InProcedure(usize),
}

/// Where statements stand, with the procedures that they may call: in a thread what a call of each comes to, in a
/// procedure which of them are it or reach it.
#[derive(Drop)]
pub struct Standing<'a> {
    called: &'a Called<'a>,
    at: Place,
    table: &'a [Sums],
    returning: &'a [bool],
}

impl<'a> Model for Standing<'a> {
    ghost use Rattle.sect_types.specs.steps.Standing.{StandingView, IsReady};
    ghost use Rattle.std.specs.Coded.{codes};
    ghost use Rattle.sect_front.specs.Coding.{block_code};

    ghost Value = { StandingView };

    ghost coded = { Prim.hlevel (codes, block_code) };

    ghost view = { λ s. record { procedures = s.called.now; at = s.at } };

    ghost invariant = { λ s. IsReady s.called.now s.at s.table.now s.returning.now };
}

impl<'a> Standing<'a> {
    /// In the braces of a thread.
    pub fn in_thread(called: &'a Called<'a>, table: &'a [Sums]) -> Standing<'a>
        requires { table.now ≡ map capped (sums called.now) }
        ensures { result ≡ record { procedures = called.now; at = InThread false 1 } }
    {
        Standing {
            called,
            at: Place::InThread(false, 1),
            table,
            returning: &[],
        }
    }

    /// In the procedure of this number.
    pub fn in_procedure(
        called: &'a Called<'a>,
        number: usize,
        returning: &'a [bool],
    ) -> Standing<'a>
        requires { AreReturning called.now number returning.now }
        ensures { result ≡ record { procedures = called.now; at = InProcedure number } }
    {
        Standing {
            called,
            at: Place::InProcedure(number),
            table: &[],
            returning,
        }
    }

    /// At another place of the same thread or procedure.
    fn elsewhere(&self, at: Place) -> Standing<'a>
        requires { AreTogether self.now.at at }
        ensures { result ≡ record self.now { at = at } }
    {
        Standing {
            called: self.called,
            at,
            table: self.table,
            returning: self.returning,
        }
    }

    /// In one more block.
    pub fn deeper(&self) -> Standing<'a>
        requires { depth_at self.now.at < most_depth }
        ensures { result ≡ record self.now { at = deeper_place self.now.at } }
    {
        let at = match self.at {
            Place::InThread(inside, depth) => Place::InThread(inside, depth + 1),
            Place::InProcedure(number) => Place::InProcedure(number),
        };
        self.elsewhere(at)
    }

    /// In a section.
    pub fn in_section(&self) -> Standing<'a>
        requires { depth_at self.now.at < most_depth }
        ensures { result ≡ record self.now { at = in_section_place self.now.at } }
    {
        let at = match self.at {
            Place::InThread(_, depth) => Place::InThread(true, depth + 1),
            Place::InProcedure(number) => Place::InProcedure(number),
        };
        self.elsewhere(at)
    }

    /// Whether in a section or in a procedure.
    pub fn is_inside(&self) -> bool
        ensures { result ≡ inside_at self.now.at }
    {
        match self.at {
            Place::InThread(inside, _) => inside,
            Place::InProcedure(_) => true,
        }
    }

    /// Whether in a thread, whose statements are counted where they stand.
    pub fn is_in_thread(&self) -> bool
        ensures { result ≡ by_place self.now.at true false }
    {
        matches!(self.at, Place::InThread(_, _))
    }

    /// The number of the first procedure of this name.
    pub fn number_of(&self, name: &Name) -> Option<usize>
        ensures { result ≡ number_by self.now.procedures name.now }
    {
        self.called.number_of(name)
    }

    /// The procedures, in text order.
    pub fn procedures(&self) -> &[Procedure]
        ensures { result.now ≡ self.now.procedures }
    {
        self.called.procedures()
    }

    /// Whether the expansion of a call of the procedure of this number passes a limit here.
    pub fn passes(&self, spot: &Spot, number: usize) -> bool
        requires there { number < length self.now.procedures }
        requires shallow { depth_at self.now.at ≤ most_depth }
        ensures { result ≡ by_place self.now.at (passes_by spot.now (depth_at self.now.at)
            (sums_at (sums self.now.procedures) (Some number))) false }
    {
        match self.at {
            Place::InThread(_, depth) => spot.passes(self.table[number], depth),
            Place::InProcedure(_) => false,
        }
    }

    /// Whether this is a procedure that is the one of this number, or that it reaches by calls.
    pub fn is_returned_to(&self, number: usize) -> bool
        requires { number < length self.now.procedures }
        ensures { result ≡ returns_to self.now.procedures self.now.at (Some number) }
    {
        match self.at {
            Place::InThread(_, _) => false,
            Place::InProcedure(_) => self.returning[number],
        }
    }

    /// Passes a call of the procedure of this number.
    pub fn pass_call(&self, spot: &mut Spot, number: usize) -> Result<(), Uncounted>
        requires there { number < length self.now.procedures }
        requires room { by_place self.now.at (passes_by spot.old (depth_at self.now.at)
            (sums_at (sums self.now.procedures) (Some number))) false ≡ false }
        ensures counted { OnOk result (spot.new ≡ by_place self.now.at (plus_sums (after_item spot.old)
            (sums_at (sums self.now.procedures) (Some number))) (after_item spot.old)) }
        ensures uncounted { OnErr result (spot.old.items ≡ MOST_ITEMS) }
    {
        match self.at {
            Place::InThread(_, _) => spot.pass_sums(self.table[number]),
            Place::InProcedure(_) => spot.pass_item(),
        }
    }
}
