//! A thread between its sections.

ghost use Rattle.std.specs.{Prelude.{◌≡◌, true, false, IfOk, OnOk}, Cmp.{partial_equiv_from_equiv}};
ghost use Rattle.sect_types.specs.{Programs.{environment_at}, Sound.{IsSound}};
ghost use Rattle.sect_types.specs.Whole.{settled, first_work, is_standing, ahead, body_of};
ghost use Rattle.sect_store.specs.Working.{left_with};
ghost use Rattle.sect_serial.specs.{Comparing.{frame_eq, frame_fed, frame_equivalence, frame_alike}, Trimming.{in_use}};
ghost use Rattle.sect_serial.specs.steps.Frames.{Ran, IsReady};

use crate::rest::Rest;
use crate::step::step;
use sect_store::{Store, Work};
use sect_types::{Datum, End, Fault, Program, Step, Text, ValueType};
use std::alloc::{AllocError, Global};
use std::hash::{Hash, Hasher};
use std::marker::Model;

/// Runs the body of a section; the fault that breaks it off, if one does.
fn run_body(
    alloc: Global,
    program: &Program,
    thread: u16,
    body: &Text,
    work: &mut Work,
    store: &mut Store,
) -> Result<Option<Fault>, AllocError>
    requires { IsSound (environment_at program.now thread) true body.now }
    ensures { IfOk result (λ fault. left_with fault work.new store.new
        ≡ body_of program.now thread body.now work.old store.old) }
{
    let mut rest = Rest::of(alloc, body)?;
    'steps: while rest.first().is_some() {
        let fault = step(alloc, program, thread, &mut rest, work, store)?;
        if fault.is_some() {
            return Ok(fault);
        }
    }
    Ok(None)
}

/// What is still to run of a thread, what it works with, and how it has ended, if it has.
#[derive(Drop)]
pub struct Frame<'a> {
    rest: Rest<'a>,
    work: Work,
    ended: Option<End>,
}

impl<'a> Model for Frame<'a> {
    ghost use Rattle.std.specs.Coded.{codes};
    ghost use Rattle.sect_types.specs.Coding.{statements_code};
    ghost use Rattle.sect_types.specs.Whole.{FrameView};

    ghost Value = { FrameView };

    ghost coded = { Prim.hlevel (codes, statements_code) };

    ghost view = { λ f. record { text = f.rest; work = f.work; ended = f.ended } };
}

impl<'a> Frame<'a> {
    /// A thread at the start of its text, with this much fuel and locals of these types.
    pub fn first(
        alloc: Global,
        fuel: u32,
        text: &'a Text,
        types: &[ValueType],
    ) -> Result<Frame<'a>, AllocError>
        ensures { IfOk result (λ frame. frame ≡ settled text.now (first_work fuel types.now)) }
    {
        let mut frame = Frame {
            rest: Rest::of(alloc, text)?,
            work: Work::first(alloc, fuel, types)?,
            ended: None,
        };
        frame.settle();
        Ok(frame)
    }

    /// A thread equal to this one.
    pub fn try_clone(&self) -> Result<Frame<'a>, AllocError>
        ensures { IfOk result (λ frame. frame ≡ self.now) }
    {
        Ok(Frame {
            rest: self.rest.try_clone()?,
            work: self.work.try_clone()?,
            ended: self.ended,
        })
    }

    /// What its locals hold, by number; nothing where it has ended, since nothing looks at them any more.
    fn locals(&self) -> &[Datum]
        ensures { result.now ≡ in_use self.now.ended self.now.work.locals }
    {
        match self.ended {
            None => self.work.locals(),
            Some(_) => &[],
        }
    }

    /// At the end of its text it has ended.
    fn settle(&mut self)
        ensures { self.old.ended ≡ None → self.new ≡ settled self.old.text self.old.work }
    {
        if self.rest.first().is_none() {
            self.ended = Some(End::Done);
        }
    }

    /// How it has ended, if it has.
    pub fn ended(&self) -> Option<End>
        ensures { result ≡ self.now.ended }
    {
        self.ended
    }

    /// Whether it has ended or stands before a section.
    fn is_standing(&self) -> bool
        ensures { result ≡ is_standing self.now }
    {
        self.ended.is_some() || matches!(self.rest.first(), Some(Step::Section(_, _)))
    }

    /// Runs its local code. Outside a section a statement leaves the store as it is.
    pub fn run_ahead(
        &mut self,
        alloc: Global,
        program: &Program,
        thread: u16,
        store: &mut Store,
    ) -> Result<(), AllocError>
        requires { IsReady (environment_at program.now thread) self.old }
        ensures ahead { OnOk result (self.new ≡ ahead program.now thread self.old) }
        ensures ready { OnOk result (IsReady (environment_at program.now thread) self.new) }
        ensures store { OnOk result (store.new ≡ store.old) }
    {
        'steps: while !self.is_standing() {
            match step(
                alloc,
                program,
                thread,
                &mut self.rest,
                &mut self.work,
                store,
            )? {
                None => self.settle(),
                Some(fault) => self.ended = Some(End::Failed(fault)),
            }
        }
        Ok(())
    }

    /// Runs its local code and then its next section, and delivers what that prints; whether it had one.
    pub fn run_section(
        &mut self,
        alloc: Global,
        program: &Program,
        thread: u16,
        store: &mut Store,
        output: &mut Vec<i64>,
    ) -> Result<bool, AllocError>
        requires { IsReady (environment_at program.now thread) self.old }
        ensures ran { IfOk result (λ ran. Ran program.now thread self.old store.old output.old.items ran
            self.new store.new output.new.items) }
        ensures ready { OnOk result (IsReady (environment_at program.now thread) self.new) }
    {
        self.run_ahead(alloc, program, thread, store)?;
        if self.ended.is_some() {
            return Ok(false);
        }
        let Some(Step::Section(_, body)) = self.rest.first() else {
            return Ok(false);
        };
        self.rest.advance();
        let fault = run_body(alloc, program, thread, body, &mut self.work, store)?;
        self.work.deliver(output)?;
        match fault {
            None => self.settle(),
            Some(fault) => self.ended = Some(End::Failed(fault)),
        }
        Ok(true)
    }
}

impl PartialEq for Frame<'_> {
    ghost eq = { frame_eq };

    ghost laws = { partial_equiv_from_equiv frame_equivalence };

    fn eq(&self, other: &Self) -> bool {
        self.locals() == other.locals()
            && self.work.is_as_far(&other.work)
            && self.ended == other.ended
            && self.rest == other.rest
    }
}

impl Eq for Frame<'_> {
    ghost laws = { frame_equivalence };
}

impl Hash for Frame<'_> {
    ghost hash_input = { frame_fed };

    ghost respects_eq = { frame_alike.fed };

    fn hash<H: Hasher>(&self, state: &mut H) {
        self.locals().hash(state);
        state.write_u32(self.work.fuel());
    }
}
