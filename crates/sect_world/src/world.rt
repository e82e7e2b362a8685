//! A moment of a run, with the events that led to it.

ghost use Rattle.std.specs.Prelude.{◌≡◌, ◌↔◌, true, IsTrue, length, ◌<◌, IfOk, OnOk, IfErr, OnErr, false, []};
ghost use Rattle.std.specs.Prelude.{IfSome, MatchBool};
ghost use Rattle.sect_types.specs.{Statements.{TextView, Section}, Sections.{sections_of}, Meaning.{begins_step}};
ghost use Rattle.sect_types.specs.Whole.{SerialEndView, RunsWhole, has_ended};
ghost use Rattle.sect_graph.specs.Rests.{rest_at};
ghost use Rattle.sect_modes.specs.{declared.key.Key.{Key as AKey}, declared.mode.Mode.{Mode as AMode}};
ghost use Rattle.sect_emit.specs.{Compiled.{IsCompiled, program_of}, Plan.{meets}};
ghost use Rattle.sect_emit.specs.State.{State, Outside, Entered, Running, ThreadState, IsThread, plan_at};
ghost use Rattle.sect_world.specs.{Events.{Happens, IsFree, IsReady, IsOver}, Runs.{IsRun, IsComplete, order_of}};
ghost use Rattle.sect_world.specs.{Blocked.{IsStuck}, declared.event.Deed.TheVariants.{Again}};
ghost use Rattle.sect_world.specs.Moments.{IsMoment, world_at};
ghost use Rattle.sect_world.specs.Worlds.{IsTurned, IsRefused, IsRunOf, AllEnded, first_world, outcome_at};
ghost use Rattle.sect_world.specs.{Waiting.{Asks}, Sights.{first_wish as wish_of, mode_of, end_of as ended_as}};
ghost use Rattle.sect_world.specs.{Sights.{work_of as work_by}, Standings.{IsStanding}};
ghost use Rattle.sect_world.specs.Viewing.{body_at, position_of, IsSited};
ghost use Rattle.sect_world.specs.{steps.Moves.{IsNext}, Acting.{IsApart, acts_of}};
ghost use Rattle.sect_world.specs.{Locals.{IsLocalStretch, locals_of}, Stretches.{IsStretchOf, AreAdded, events_in}};

use crate::apart::{Apart, lent, stands, take_place};
use crate::asking::{ask, first_wish, turned_by};
use crate::copying::copied;
use crate::event::{Deed, Event};
use crate::giving::{LetIn, come_out, give_back};
use crate::inside::{Inside, step_inside};
use crate::labels::next_label;
use crate::local_stretch::{LocalStretch, go_to, lent_outside, stands_outside};
use crate::outside::{Entrant, begin, enter, is_met, step_outside};
use crate::runner::{Phase, Runner, first_runners, have_ended, put_ends};
use crate::standing::{Standing, standing_of};
use crate::stretch::Stretch;
use crate::trace::Trace;
use crate::turned::{EventKind, Turned, WorldFault};
use sect_emit::{Compiled, Grip};
use sect_modes::{Key, Mode};
use sect_store::{Outcome, Store, Work};
use sect_table::{Grants, Table};
use sect_types::{End, Fault, Label, Program};
use std::alloc::{AllocError, Global};
use std::marker::Model;

/// A run: its events, and what it has come to.
#[derive(Drop)]
pub struct Run {
    pub events: Trace,
    pub outcome: Outcome,
}

/// A moment of a run, with the events that led to it, but for its compiled program: the fuel with which each thread
/// began, the events, the threads of the `leave` events in order, the store, what was delivered, the threads, who holds
/// and waits for which key, whom the last turn has let in, and room for how the threads end and for what a plan asks
/// for.
#[derive(Drop)]
pub struct Moment {
    fuel: u32,
    trace: Trace,
    order: Vec<u16>,
    store: Store,
    output: Vec<i64>,
    runners: Vec<Runner>,
    table: Table,
    let_in: LetIn,
    ends: Vec<Option<End>>,
    objects: Vec<Grip>,
}

impl Moment {
    /// The world of this moment, which was put aside, with its compiled program.
    pub fn resume(self, compiled: &Compiled) -> World<'_>
        requires { IsMoment compiled.now self }
        ensures { result ≡ world_at compiled.now self }
    {
        World {
            compiled,
            moment: self,
        }
    }
}

/// A moment of a run of a compiled program, with the events that led to it.
pub struct World<'a> {
    compiled: &'a Compiled,
    moment: Moment,
}

impl Drop for World<'_> {
    fn drop(self) {
        let World {
            compiled: _,
            moment: _,
        } = self;
    }
}

impl<'a> Model for World<'a> {
    ghost use Rattle.std.specs.Prelude.{length, ◌≡◌, []};
    ghost use Rattle.std.specs.Coded.{codes};
    ghost use Rattle.sect_front.specs.Coding.{block_code};
    ghost use Rattle.sect_types.specs.Coding.{statements_code};
    ghost use Rattle.sect_points.specs.Paths.{path_code};
    ghost use Rattle.sect_world.specs.Worlds.{WorldView};
    ghost use Rattle.sect_world.specs.Moments.{IsMoment, world_at};

    ghost Value = { WorldView };

    ghost coded = { Prim.hlevel (codes, block_code, statements_code, path_code) };

    ghost view = { λ w. world_at w.compiled.now w.moment };

    ghost invariant = { λ w. IsMoment w.compiled.now w.moment };
}

impl<'a> World<'a> {
    /// The world at the start of a compiled program, with so much fuel for each thread.
    pub fn start(alloc: Global, compiled: &'a Compiled, fuel: u32) -> Result<World<'a>, AllocError>
        ensures { IfOk result (λ world. world ≡ first_world compiled.now fuel) }
    {
        compiled.facts();
        let program = compiled.scheme().program();
        let threads = program.thread_count() as usize;
        let moment = Moment {
            fuel,
            trace: Trace::new(alloc),
            order: Vec::new(alloc),
            store: Store::first(alloc, program)?,
            output: Vec::new(alloc),
            runners: first_runners(alloc, compiled, fuel)?,
            table: Table::with_threads(alloc, threads)?,
            let_in: LetIn {
                grants: Grants::with_threads(alloc, threads)?,
                granted: Vec::with_capacity(alloc, threads)?,
            },
            ends: Vec::with_capacity(alloc, threads)?,
            objects: Vec::new(alloc),
        };
        Ok(World { compiled, moment })
    }

    /// What each world keeps: its events are a run of its compiled program, which leads from the start to its state.
    pub fn facts(&self)
        ensures compiled { IsCompiled self.now.compiled }
        ensures run { IsRun self.now.compiled self.now.fuel self.now.trace self.now.state }
        ensures order { self.now.order ≡ order_of self.now.trace }
        ensures going { IsStuck self.now.state → ⊥ }
    {
        let _facts = &self.moment.trace;
    }

    /// The events, in order.
    pub fn trace(&self) -> &Trace
        ensures { result.now.items ≡ self.now.trace }
    {
        &self.moment.trace
    }

    /// The threads of the `leave` events, in order.
    pub fn order(&self) -> &[u16]
        ensures { result.now ≡ self.now.order }
    {
        self.moment.order.as_slice()
    }

    /// The objects.
    pub fn store(&self) -> &Store
        ensures { result.now ≡ self.now.state.store }
    {
        &self.moment.store
    }

    /// The numbers that sections have delivered, in order.
    pub fn output(&self) -> &[i64]
        ensures { result.now ≡ self.now.state.output }
    {
        self.moment.output.as_slice()
    }

    /// The threads that the last turn has let in: those of its `take` events after its first event, in order.
    pub fn granted(&self) -> &[u16]
        ensures { result.now ≡ self.now.granted }
    {
        self.moment.let_in.granted.as_slice()
    }

    /// The number of threads.
    pub fn threads(&self) -> usize
        ensures { result ≡ length self.now.state.threads }
    {
        self.moment.runners.len()
    }

    /// The number of threads, at most 64.
    pub fn thread_count(&self) -> u16
        ensures count { result ≡ length self.now.state.threads }
        ensures texts { result ≡ length (program_of self.now.compiled).texts }
    {
        self.facts();
        self.program().thread_count()
    }

    /// The compiled program that runs.
    pub fn compiled(&self) -> &'a Compiled
        ensures { result.now ≡ self.now.compiled }
    {
        self.compiled
    }

    /// The program that runs.
    pub fn program(&self) -> &Program
        ensures { result.now ≡ program_of self.now.compiled }
    {
        self.compiled.scheme().program()
    }

    /// The key that a thread wants first, and its mode.
    pub fn first_wish(&self, thread: u16) -> Option<Grip>
        ensures { result ≡ wish_of self.now.state thread }
    {
        match self.moment.runners.get(thread as usize) {
            None => None,
            Some(runner) => first_wish(runner),
        }
    }

    /// The mode in which a thread holds a key.
    pub fn held(&self, thread: u16, key: Key) -> Option<Mode>
        requires { thread < length self.now.state.threads }
        ensures { result ≡ mode_of self.now.state thread key }
    {
        self.moment.table.held(thread, key)
    }

    /// How a thread has ended, if it has.
    pub fn end_of(&self, thread: u16) -> Option<End>
        requires { thread < length self.now.state.threads }
        ensures { result ≡ ended_as self.now.state thread }
    {
        self.moment.runners[thread as usize].ended
    }

    /// What a thread works with.
    pub fn work(&self, thread: u16) -> &Work
        requires { thread < length self.now.state.threads }
        ensures { result.now ≡ work_by self.now.state thread }
    {
        &self.moment.runners[thread as usize].work
    }

    /// Where a thread stands.
    pub fn standing(&self, thread: u16) -> Standing
        requires { thread < length self.now.state.threads }
        ensures { IsStanding self.now.compiled self.now.state thread result }
    {
        standing_of(thread, &self.moment.runners[thread as usize])
    }

    /// Whether all threads have ended.
    pub fn all_ended(&self) -> bool
        ensures { IsTrue result ↔ AllEnded self.now.state }
    {
        have_ended(self.moment.runners.as_slice())
    }

    /// Whether this is a world of that program, compiled for paths of as many fields, with so much fuel.
    pub fn is_of(&self, compiled: &Compiled, fuel: u32) -> bool
        ensures { IsTrue result ↔ IsRunOf self.now compiled.now fuel }
    {
        let (own, other) = (self.compiled.scheme(), compiled.scheme());
        own.program().is_same(other.program()) && own.k() == other.k() && self.moment.fuel == fuel
    }

    /// The run so far. Where all threads have ended it is what whole sections come to, one after another in the order
    /// of the `leave` events.
    pub fn finish(self) -> Run
        ensures events { result.events.items ≡ self.entry.trace }
        ensures outcome { result.outcome ≡ outcome_at self.entry.state self.entry.order }
        ensures serial { AllEnded self.entry.state → (e : SerialEndView) × IsComplete self.entry.state e
            × RunsWhole (program_of self.entry.compiled) self.entry.fuel self.entry.order e }
    {
        let World {
            compiled: _,
            moment,
        } = self;
        let Moment {
            trace,
            order,
            store,
            output,
            runners,
            mut ends,
            ..
        } = moment;
        put_ends(runners.as_slice(), &mut ends);
        Run {
            events: trace,
            outcome: Outcome::new(ends, order, output, store),
        }
    }

    /// Puts the world aside.
    pub fn suspend(self) -> Moment
        ensures moment { IsMoment self.entry.compiled result }
        ensures same { world_at self.entry.compiled result ≡ self.entry }
    {
        let World {
            compiled: _,
            moment,
        } = self;
        moment
    }

    /// The turn of a thread outside sections that runs its next statement or test.
    fn local(&mut self, thread: u16) -> Result<Turned, AllocError>
        requires { (th : ThreadState) × IsThread self.old.state thread th × IsFree th
            × (begins_step th.frame.text ≡ true) }
        ensures ok { IfOk result (λ turned. IsTurned thread turned self.old self.new) }
        ensures err { OnErr result (self.new ≡ self.old) }
    {
        let alloc = self.moment.trace.allocator();
        self.moment.trace.reserve(1)?;
        step_outside(
            alloc,
            self.compiled,
            thread,
            &mut self.moment.runners[thread as usize],
            &mut self.moment.store,
        )?;
        self.moment.let_in.granted.clear();
        let deed = Deed::Local;
        self.moment.trace.push_reserved(Event { thread, deed });
        Ok(Turned::Moved(EventKind::Local))
    }

    /// The turn of a thread that comes to a section: it wants what the section's plan asks for.
    fn enter(&mut self, thread: u16, section: u16) -> Result<Turned, AllocError>
        requires { (th : ThreadState) × IsThread self.old.state thread th × IsFree th
            × ((body : TextView) × (rest : TextView) × (th.frame.text ≡ Section section body rest)) }
        ensures ok { IfOk result (λ turned. IsTurned thread turned self.old self.new) }
        ensures err { OnErr result (self.new ≡ self.old) }
    {
        self.moment.trace.reserve(1)?;
        enter(
            self.compiled,
            section,
            &mut self.moment.runners[thread as usize],
            &self.moment.store,
            &mut self.moment.objects,
        )?;
        self.moment.let_in.granted.clear();
        let deed = Deed::Enter;
        self.moment.trace.push_reserved(Event { thread, deed });
        Ok(Turned::Moved(EventKind::Enter))
    }

    /// The turn of a thread that begins its section, since its plan is met.
    fn begin(&mut self, thread: u16, section: u16) -> Result<Turned, AllocError>
        requires { (th : ThreadState) × IsThread self.old.state thread th
            × ((body : TextView) × (rest : TextView) × IsReady th section body rest × (meets th.held
            (plan_at self.old.compiled section self.old.state.store th.frame.work.locals) ≡ true)) }
        ensures ok { IfOk result (λ turned. IsTurned thread turned self.old self.new) }
        ensures err { OnErr result (self.new ≡ self.old) }
    {
        self.moment.trace.reserve(1)?;
        begin(
            self.compiled,
            thread,
            section,
            &mut self.moment.runners[thread as usize],
        );
        self.moment.let_in.granted.clear();
        let deed = Deed::Begin;
        self.moment.trace.push_reserved(Event { thread, deed });
        Ok(Turned::Moved(EventKind::Begin))
    }

    /// The turn of a thread in a section, at this node of it, that runs its next statement or test.
    fn act(&mut self, thread: u16, section: u16, node: u16) -> Result<Turned, AllocError>
        requires { (th : ThreadState) × IsThread self.old.state thread th
            × (th.position ≡ Running section (rest_at (body_at self.old.compiled section) node))
            × (begins_step (rest_at (body_at self.old.compiled section) node) ≡ true) }
        ensures ok { IfOk result (λ turned. IsTurned thread turned self.old self.new) }
        ensures err { OnErr result (self.new ≡ self.old) }
    {
        self.moment.trace.reserve(1)?;
        let at = Inside {
            thread,
            section,
            node,
        };
        step_inside(
            self.compiled,
            at,
            &mut self.moment.runners[thread as usize],
            &mut self.moment.store,
            &mut self.moment.table,
        )?;
        self.moment.let_in.granted.clear();
        let deed = Deed::Act;
        self.moment.trace.push_reserved(Event { thread, deed });
        Ok(Turned::Moved(EventKind::Act))
    }

    /// Adds the events and the writes of a stretch of a section, where its thread is where the stretch begins and the
    /// store shows what the stretch knew then; whether that is so. Nothing has changed where it isn't.
    fn commit_section(&mut self, apart: &Apart) -> Result<bool, AllocError>
        requires thread { apart.now.thread < length self.old.state.threads }
        requires apart { IsApart self.old.compiled apart.now }
        ensures ok { IfOk result (λ fits. MatchBool fits
            (AreAdded (acts_of apart.now.acts apart.now.thread) self.old self.new) (self.new ≡ self.old)) }
        ensures err { OnErr result (self.new ≡ self.old) }
    {
        let place = apart.thread as usize;
        if !stands(apart, &self.moment.runners[place], &self.moment.store) {
            return Ok(false);
        }
        self.moment.trace.reserve(apart.acts as usize)?;
        let work = apart.work.try_clone()?;
        take_place(&mut self.moment.runners, apart.thread, apart.phase, work);
        self.moment.store.write_all(apart.part.writes.as_slice());
        let act = Event {
            thread: apart.thread,
            deed: Deed::Act,
        };
        self.moment.trace.push_many(act, apart.acts);
        self.moment.let_in.granted.clear();
        Ok(true)
    }

    /// Adds the events of a stretch outside sections, where its thread is where the stretch begins; whether that is so.
    /// Nothing has changed where it isn't.
    fn commit_local(&mut self, stretch: &LocalStretch) -> Result<bool, AllocError>
        requires thread { stretch.now.thread < length self.old.state.threads }
        requires stretch { IsLocalStretch self.old.compiled stretch.now }
        ensures ok { IfOk result (λ fits. MatchBool fits
            (AreAdded (locals_of stretch.now.steps stretch.now.thread) self.old self.new) (self.new ≡ self.old)) }
        ensures err { OnErr result (self.new ≡ self.old) }
    {
        let place = stretch.thread as usize;
        if !stands_outside(stretch, &self.moment.runners[place]) {
            return Ok(false);
        }
        self.moment.trace.reserve(stretch.steps as usize)?;
        let work = stretch.work.try_clone()?;
        go_to(&mut self.moment.runners, stretch, work);
        let local = Event {
            thread: stretch.thread,
            deed: Deed::Local,
        };
        self.moment.trace.push_many(local, stretch.steps);
        self.moment.let_in.granted.clear();
        Ok(true)
    }

    /// Adds the events of a stretch that was run apart, and its writes, where its thread still is where the stretch
    /// begins and the store still shows what the stretch knew then; whether that is so. Nothing has changed where it
    /// isn't, nor where memory is refused.
    pub fn commit(&mut self, thread: u16, stretch: &Stretch) -> Result<bool, AllocError>
        requires thread { thread < length self.old.state.threads }
        requires stretch { IsStretchOf self.old.compiled thread stretch.now }
        ensures ok { IfOk result (λ fits. MatchBool fits (AreAdded (events_in thread stretch.now) self.old self.new)
            (self.new ≡ self.old)) }
        ensures err { OnErr result (self.new ≡ self.old) }
    {
        match stretch {
            Stretch::Section(apart) => self.commit_section(apart),
            Stretch::Local(local) => self.commit_local(local),
        }
    }

    /// A stretch of no event yet of the section that a thread runs.
    fn lend_section(&self, thread: u16, section: u16, node: u16) -> Result<Apart, AllocError>
        requires thread { thread < length self.now.state.threads }
        requires section { section < length (sections_of (program_of self.now.compiled).texts) }
        ensures thread { IfOk result (λ apart. apart.thread ≡ thread) }
        ensures apart { IfOk result (IsApart self.now.compiled) }
    {
        let runner = &self.moment.runners[thread as usize];
        let known = copied(self.compiled, thread, runner, &self.moment.store)?;
        let at = Inside {
            thread,
            section,
            node,
        };
        lent(at, runner, known)
    }

    /// A stretch of no event yet of a thread outside sections, unless it has ended or comes to a section next.
    fn lend_local(&self, thread: u16) -> Result<Option<LocalStretch>, AllocError>
        requires { (th : ThreadState) × IsThread self.now.state thread th × (th.position ≡ Outside) }
        ensures { IfOk result (λ lent. IfSome lent (λ stretch. (stretch.thread ≡ thread)
            × IsLocalStretch self.now.compiled stretch)) }
    {
        if self.has_ended(thread) {
            return Ok(None);
        }
        if let Label::Section(_) = self.label_of(thread) {
            return Ok(None);
        }
        let runner = &self.moment.runners[thread as usize];
        let stretch = lent_outside(thread, runner)?;
        Ok(Some(stretch))
    }

    /// A stretch of no event yet of a thread's code, to be run apart, where the thread runs a section or code outside
    /// sections.
    pub fn lend(&self, thread: u16) -> Result<Option<Stretch>, AllocError>
        requires { thread < length self.now.state.threads }
        ensures { IfOk result (λ lent. IfSome lent (IsStretchOf self.now.compiled thread)) }
    {
        match self.phase_of(thread) {
            Phase::Running(section, node) => {
                Ok(Some(Stretch::Section(self.lend_section(thread, section, node)?)))
            }
            Phase::Outside => match self.lend_local(thread)? {
                None => Ok(None),
                Some(local) => Ok(Some(Stretch::Local(local))),
            },
            Phase::Entered => Ok(None),
            Phase::Faulted(_, _) => Ok(None),
        }
    }

    /// The turn of a thread that wants a key: it comes to hold the key, or waits for it.
    fn ask(&mut self, thread: u16) -> Result<Turned, AllocError>
        requires { (k : AKey) × (m : AMode) × Asks self.old.state thread k m }
        ensures ok { IfOk result (λ turned. IsTurned thread turned self.old self.new) }
        ensures err { OnErr result (self.new ≡ self.old) }
    {
        let answer = ask(
            &mut self.moment.trace,
            &mut self.moment.runners,
            &mut self.moment.table,
            thread,
        )?;
        self.moment.let_in.granted.clear();
        Ok(turned_by(answer))
    }

    /// The turn of a thread that gives all back, to enter its section anew.
    fn again(&mut self, thread: u16) -> Result<Turned, AllocError>
        requires { (after : State) × Happens self.old.compiled self.old.state
            (record { thread = thread; deed = Again }) after }
        ensures ok { IfOk result (λ turned. IsTurned thread turned self.old self.new) }
        ensures err { OnErr result (self.new ≡ self.old) }
    {
        self.moment.trace.reserve(1 + self.moment.runners.len())?;
        self.moment.runners[thread as usize].phase = Phase::Outside;
        let deed = Deed::Again;
        give_back(
            &mut self.moment.trace,
            &mut self.moment.runners,
            &mut self.moment.table,
            &mut self.moment.let_in,
            Event { thread, deed },
        );
        Ok(Turned::Moved(EventKind::Again))
    }

    /// The turn of a thread that leaves its section, at its end or by a fault.
    fn leave(&mut self, thread: u16, how: Option<Fault>) -> Result<Turned, AllocError>
        requires { (th : ThreadState) × IsThread self.old.state thread th × IsOver th.position how }
        ensures ok { IfOk result (λ turned. IsTurned thread turned self.old self.new) }
        ensures err { OnErr result (self.new ≡ self.old) }
    {
        self.moment.trace.reserve(1 + self.moment.runners.len())?;
        self.moment.order.reserve(1)?;
        come_out(
            self.compiled,
            thread,
            how,
            &mut self.moment.runners[thread as usize],
            &mut self.moment.output,
        )?;
        self.moment.order.push_reserved(thread);
        let deed = Deed::Leave;
        give_back(
            &mut self.moment.trace,
            &mut self.moment.runners,
            &mut self.moment.table,
            &mut self.moment.let_in,
            Event { thread, deed },
        );
        Ok(Turned::Moved(EventKind::Leave))
    }

    /// The turn of a thread outside sections.
    fn turn_outside(&mut self, thread: u16) -> Result<Turned, AllocError>
        requires { (th : ThreadState) × IsThread self.old.state thread th × (th.position ≡ Outside) }
        ensures ok { IfOk result (λ turned. IsTurned thread turned self.old self.new) }
        ensures err { OnErr result (self.new ≡ self.old) }
    {
        if self.has_ended(thread) {
            self.moment.let_in.granted.clear();
            return Ok(Turned::Ended);
        }
        match self.label_of(thread) {
            Label::Act(_) => self.local(thread),
            Label::Test(_) => self.local(thread),
            Label::Section(section) => self.enter(thread, section),
        }
    }

    /// The turn of a thread that has entered a section: it asks for a key, or looks whether its plan is still met.
    fn turn_entered(&mut self, thread: u16) -> Result<Turned, AllocError>
        requires { (th : ThreadState) × IsThread self.old.state thread th × (th.position ≡ Entered) }
        ensures ok { IfOk result (λ turned. IsTurned thread turned self.old self.new) }
        ensures err { OnErr result (self.new ≡ self.old) }
    {
        if self.wants_more(thread) {
            return self.ask(thread);
        }
        let section = self.section_of(thread);
        if self.meets_plan(thread, section) {
            self.begin(thread, section)
        } else {
            self.again(thread)
        }
    }

    /// The turn of a thread in a section, at this node of it.
    fn turn_inside(&mut self, thread: u16, section: u16, node: u16) -> Result<Turned, AllocError>
        requires section { section < length (sections_of (program_of self.old.compiled).texts) }
        requires thread { (th : ThreadState) × IsThread self.old.state thread th
            × (th.position ≡ Running section (rest_at (body_at self.old.compiled section) node)) }
        ensures ok { IfOk result (λ turned. IsTurned thread turned self.old self.new) }
        ensures err { OnErr result (self.new ≡ self.old) }
    {
        let exit = self.compiled.scheme().graph().section(section).exit();
        if node < exit {
            self.act(thread, section, node)
        } else {
            self.leave(thread, None)
        }
    }

    /// Whether a thread has ended.
    fn has_ended(&self, thread: u16) -> bool
        requires { (th : ThreadState) × IsThread self.now.state thread th }
        ensures { (th : ThreadState) → IsThread self.now.state thread th → result ≡ has_ended th.frame.ended }
    {
        self.moment.runners[thread as usize].ended.is_some()
    }

    /// What a thread outside sections that hasn't ended comes to next.
    fn label_of(&self, thread: u16) -> Label
        requires { (th : ThreadState) × IsThread self.now.state thread th × IsFree th }
        ensures { (th : ThreadState) → IsThread self.now.state thread th → IsNext result th.frame.text }
    {
        next_label(
            self.compiled,
            thread,
            self.moment.runners[thread as usize].node,
        )
    }

    /// Whether a thread that has entered a section wants a key more.
    fn wants_more(&self, thread: u16) -> bool
        requires { (th : ThreadState) × IsThread self.now.state thread th × (th.position ≡ Entered) }
        ensures asks { result ≡ true → (k : AKey) × (m : AMode) × Asks self.now.state thread k m }
        ensures none { result ≡ false → (th : ThreadState) → IsThread self.now.state thread th → th.wanted ≡ [] }
    {
        let runner = &self.moment.runners[thread as usize];
        runner.taken < runner.wanted.len()
    }

    /// The section that a thread has entered, which asks for its keys.
    pub fn section_of(&self, thread: u16) -> u16
        requires { (th : ThreadState) × IsThread self.now.state thread th × (th.position ≡ Entered) }
        ensures { (th : ThreadState) → IsThread self.now.state thread th
            → (body : TextView) × (rest : TextView) × (th.frame.text ≡ Section result body rest) }
    {
        match next_label(
            self.compiled,
            thread,
            self.moment.runners[thread as usize].node,
        ) {
            Label::Act(_) => unreachable!(),
            Label::Test(_) => unreachable!(),
            Label::Section(section) => section,
        }
    }

    /// Whether the plan of the section that a thread has entered is met by what the thread holds.
    fn meets_plan(&self, thread: u16, section: u16) -> bool
        requires { (th : ThreadState) × IsThread self.now.state thread th
            × ((body : TextView) × (rest : TextView) × (th.frame.text ≡ Section section body rest)) }
        ensures { (th : ThreadState) → IsThread self.now.state thread th
            → result ≡ meets th.held (plan_at self.now.compiled section self.now.state.store th.frame.work.locals) }
    {
        is_met(
            self.compiled,
            Entrant { thread, section },
            &self.moment.runners[thread as usize],
            &self.moment.store,
            &self.moment.table,
        )
    }

    /// Where a thread is.
    fn phase_of(&self, thread: u16) -> Phase
        requires { thread < length self.now.state.threads }
        ensures place { (th : ThreadState) × IsThread self.now.state thread th
            × (th.position ≡ position_of self.now.compiled result) }
        ensures sited { IsSited self.now.compiled result }
    {
        self.moment.runners[thread as usize].phase
    }

    /// Makes the one event that a thread's place allows, and the `take` events that it lets through; or none, where the
    /// thread waits or has ended. Refused where there is no such thread, and for want of memory; nothing has changed
    /// then.
    pub fn turn(&mut self, thread: u16) -> Result<Turned, WorldFault>
        ensures ok { IfOk result (λ turned. IsTurned thread turned self.old self.new) }
        ensures there { OnOk result (thread < length self.old.state.threads) }
        ensures refused { IfErr result (λ fault. IsRefused fault thread (length self.old.state.threads)) }
        ensures err { OnErr result (self.new ≡ self.old) }
        ensures going { IsStuck self.new.state → ⊥ }
    {
        self.facts();
        if thread as usize >= self.threads() {
            return Err(WorldFault::NoSuchThread(thread));
        }
        let turned = match self.phase_of(thread) {
            Phase::Outside => self.turn_outside(thread)?,
            Phase::Entered => self.turn_entered(thread)?,
            Phase::Running(section, node) => self.turn_inside(thread, section, node)?,
            Phase::Faulted(_, why) => self.leave(thread, Some(why))?,
        };
        self.facts();
        Ok(turned)
    }
}
