//! What the workers share, and what is each worker's own.

ghost use Rattle.std.specs.Prelude.{◌≡◌, ◌<◌, ◌≤◌, Some, None, OnOk, IfOk, IfSome, OnErr, vec_capacity};
ghost use Rattle.sect_world.specs.Stretches.{IsStretchOf};
ghost use Rattle.sect_run.specs.steps.Shares.{AreBelow, threads_in};
ghost use Rattle.sect_run.specs.steps.Turns.{IsVisitedAside, IsVisitBrokenOffAside, IsAsideOf};

use crate::fault::RunFault;
use crate::visit::{Terms, Visit, make_visit};
use crossbeam_utils::sync::Parker;
use sect_emit::Compiled;
use sect_world::{Moment, Stretch, World};
use std::alloc::{AllocError, Global};
use std::marker::{Brand, Model, PhantomData};

/// Names a run: its compiled program, if one is named, the fuel of each thread, and how many threads there are. Each
/// call of `run_threads` picks them, so that the type of what lies under the lock says of which run it is.
pub trait Naming {
    ghost use Rattle.std.specs.Prelude.{ℕ, Option};
    ghost use Rattle.sect_emit.specs.Compiled.{CompiledView};

    ghost compiled: { Option CompiledView };

    ghost fuel: { ℕ };

    ghost threads: { ℕ };
}

impl Naming for Brand {
    ghost use Rattle.std.specs.Prelude.{None};

    ghost compiled = { None };

    ghost fuel = { 0 };

    ghost threads = { 0 };
}

/// What lies under the lock: the run that J names, put aside between two turns. It is taken out while a turn is made.
pub struct SharedRun<J: Naming> {
    moment: Option<Moment>,
    name: PhantomData<J>,
}

impl<J: Naming> Drop for SharedRun<J> {
    fn drop(self) {
        let SharedRun { moment: _, name: _ } = self;
    }
}

impl<J: Naming> Model for SharedRun<J> {
    ghost use Rattle.std.specs.Prelude.{Option};
    ghost use Rattle.std.specs.Coded.{codes};
    ghost use Rattle.sect_front.specs.Coding.{block_code};
    ghost use Rattle.sect_types.specs.Coding.{statements_code};
    ghost use Rattle.sect_points.specs.Paths.{path_code};
    ghost use Rattle.sect_world.specs.Worlds.{WorldView};
    ghost use Rattle.sect_run.specs.steps.Shares.{IsKept};
    ghost use Rattle.sect_run.specs.steps.Turns.{world_aside};

    ghost Value = { Option WorldView };

    ghost coded = { Prim.hlevel (codes, block_code, statements_code, path_code) };

    ghost view = { λ run. world_aside run.moment J.compiled };

    ghost invariant = { λ run. IsKept run.moment J.compiled J.fuel };
}

impl<J: Naming> SharedRun<J> {
    /// The run of a world.
    pub fn new(world: World<'_>) -> SharedRun<J>
        requires { (J.compiled ≡ Some world.compiled) × (J.fuel ≡ world.fuel) }
        ensures { result ≡ Some world.entry }
    {
        SharedRun {
            moment: Some(world.suspend()),
            name: PhantomData,
        }
    }

    /// A visit of the worker of a thread: adds the stretch that it has brought, if there is one, and makes turns of the
    /// thread, one at least and as many as may be at most, until it can't move. The numbers of those whom they let in
    /// take the place of those that stood in `woken`.
    pub fn visit(
        &mut self,
        compiled: &Compiled,
        thread: u16,
        terms: Terms,
        woken: &mut Vec<u16>,
        stretch: &mut Option<Stretch>,
    ) -> Result<Visit, RunFault>
        requires compiled { J.compiled ≡ Some compiled.now }
        requires thread { thread < threads_in compiled.now }
        requires stretch { IfSome stretch.old (IsStretchOf compiled.now thread) }
        ensures visited { IfOk result (λ visit.
            IsVisitedAside thread terms.most visit.turned woken.new.items self.old self.new) }
        ensures err { OnErr result (IsVisitBrokenOffAside thread terms.most self.old self.new) }
        ensures same { IsAsideOf compiled.now J.fuel self.new }
        ensures below { OnOk result (AreBelow (threads_in compiled.now) woken.new.items) }
        ensures stretch { IfSome stretch.new (IsStretchOf compiled.now thread) }
    {
        let mut world = match self.moment.take() {
            Some(moment) => moment.resume(compiled),
            None => unreachable!(),
        };
        let visited = make_visit(&mut world, thread, terms, woken, stretch);
        self.moment = Some(world.suspend());
        visited
    }

    /// The world of the run.
    pub fn into_world(self, compiled: &Compiled) -> World<'_>
        requires { J.compiled ≡ Some compiled.now }
        ensures of { (result.compiled ≡ compiled.now) × (result.fuel ≡ J.fuel) }
        ensures world { self ≡ Some result }
    {
        let SharedRun { moment, name: _ } = self;
        match moment {
            Some(moment) => moment.resume(compiled),
            None => unreachable!(),
        }
    }
}

/// What is a worker's own: the thread whose turns it makes, where it waits, room for the numbers of those whom a turn
/// lets in, and the stretch of the thread's code that it runs without the lock, if there is one.
#[derive(Drop)]
pub struct Post<J: Naming> {
    pub thread: u16,
    pub parker: Parker,
    pub woken: Vec<u16>,
    pub stretch: Option<Stretch>,
    name: PhantomData<J>,
    ghost there: { thread < J.threads },
}

impl<J: Naming> Post<J> {
    /// The post of a thread, where there are so many threads.
    pub fn new(alloc: Global, thread: u16, threads: u16) -> Result<Post<J>, AllocError>
        requires { thread < J.threads }
        ensures thread { IfOk result (λ post. post.thread ≡ thread) }
        ensures room { IfOk result (λ post. threads ≤ vec_capacity post.woken) }
        ensures stretch { IfOk result (λ post. post.stretch ≡ None) }
    {
        Ok(Post {
            thread,
            parker: Parker::new(alloc)?,
            woken: Vec::with_capacity(alloc, threads as usize)?,
            stretch: None,
            name: PhantomData,
        })
    }

    /// Nothing is taken along any more.
    pub fn drop_stretch(&mut self)
        ensures none { self.new.stretch ≡ None }
        ensures same { self.new.thread ≡ self.old.thread }
    {
        self.stretch = None;
    }
}
