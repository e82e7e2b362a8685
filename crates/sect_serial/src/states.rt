//! States between sections and ends of runs, each once, with an order of sections that leads to it.

ghost use Rattle.std.specs.Prelude.{◌≡◌, ◌++◌, ◌∷◌, [], ◌<◌, false, length, slice_get, Some, OnOk, IfOk};
ghost use Rattle.std.specs.Map.Iter.{deref_pair};
ghost use Rattle.sect_serial.specs.steps.States.{has_state, has_end, KeepsEnd};

use crate::run::Run;
use crate::whole::SerialEnd;
use indexmap::IndexMap;
use std::alloc::{AllocError, Global};
use std::marker::Model;

/// The threads of sections, in the order in which they are run.
#[derive(Drop)]
pub struct Order {
    threads: Vec<u16>,
}

impl Model for Order {
    ghost use Rattle.std.specs.Prelude.{List, ℕ};

    ghost Value = { List ℕ };

    ghost view = { λ o. o.threads.items };
}

impl Order {
    /// No sections.
    pub(crate) fn new(alloc: Global) -> Order
        ensures { result ≡ [] }
    {
        Order {
            threads: Vec::new(alloc),
        }
    }

    /// The threads, in order, as a list of their own.
    pub fn to_threads(&self) -> Result<Vec<u16>, AllocError>
        ensures { IfOk result (λ threads. threads.items ≡ self.now) }
    {
        Vec::from_slice(*self.threads.allocator(), self.threads.as_slice())
    }

    /// An order equal to this one.
    pub(crate) fn try_clone(&self) -> Result<Order, AllocError>
        ensures { IfOk result (λ order. order ≡ self.now) }
    {
        Ok(Order {
            threads: self.to_threads()?,
        })
    }

    /// One section more, at the end.
    pub(crate) fn push(&mut self, thread: u16) -> Result<(), AllocError>
        ensures { OnOk result (self.new ≡ self.old ++ thread ∷ []) }
    {
        self.threads.push(thread)?;
        Ok(())
    }
}

/// States between sections, each with an order that leads to it. States that differ only in locals of threads that have
/// ended are one.
pub struct States<'a> {
    map: IndexMap<Run<'a>, Order>,
}

impl<'a> Drop for States<'a> {
    fn drop(self) {
        let States { map: _ } = self;
    }
}

impl<'a> Model for States<'a> {
    ghost use Rattle.std.specs.Coded.{codes};
    ghost use Rattle.sect_types.specs.Coding.{statements_code};
    ghost use Rattle.sect_serial.specs.steps.States.{States as AllStates};

    ghost Value = { AllStates };

    ghost coded = { Prim.hlevel (codes, statements_code) };

    ghost view = { λ s. s.map.entries };
}

impl<'a> States<'a> {
    /// No states.
    pub fn new(alloc: Global) -> States<'a>
        ensures { result ≡ [] }
    {
        States {
            map: IndexMap::new(alloc),
        }
    }

    /// How many there are.
    pub fn len(&self) -> usize
        ensures { result ≡ length self.now }
    {
        self.map.len()
    }

    /// Whether a state is there.
    pub fn has(&self, run: &Run<'a>) -> bool
        ensures { result ≡ has_state self.now run.now }
    {
        self.map.contains_key(run)
    }

    /// The state at a place, and its order.
    pub fn at(&self, place: usize) -> (&Run<'a>, &Order)
        requires { place < length self.now }
        ensures { slice_get self.now place ≡ Some (deref_pair result) }
    {
        self.map.get_index(place).unwrap()
    }

    /// One state more, which isn't there, at the end.
    pub fn add(&mut self, run: Run<'a>, order: Order) -> Result<(), AllocError>
        requires { has_state self.old run ≡ false }
        ensures { OnOk result (self.new ≡ self.old ++ (run.entry, order) ∷ []) }
    {
        self.map.insert(run, order)?;
        Ok(())
    }
}

/// What a program comes to in some orders: each end once, with the first order that gave it.
pub struct Ends {
    map: IndexMap<SerialEnd, Order>,
}

impl Drop for Ends {
    fn drop(self) {
        let Ends { map: _ } = self;
    }
}

impl Model for Ends {
    ghost use Rattle.sect_serial.specs.Exploring.{Found};

    ghost Value = { Found };

    ghost view = { λ e. e.map.entries };
}

impl Ends {
    /// None.
    pub fn new(alloc: Global) -> Ends
        ensures { result ≡ [] }
    {
        Ends {
            map: IndexMap::new(alloc),
        }
    }

    /// Whether an end is there.
    fn has(&self, end: &SerialEnd) -> bool
        ensures { result ≡ has_end self.now end.now }
    {
        self.map.contains_key(end)
    }

    /// One end more, which isn't there, with its order.
    fn add(&mut self, end: SerialEnd, order: Order) -> Result<(), AllocError>
        requires { has_end self.old end ≡ false }
        ensures { OnOk result (self.new ≡ self.old ++ (end, order) ∷ []) }
    {
        self.map.insert(end, order)?;
        Ok(())
    }

    /// Keeps an end with the order that gives it, unless it is there.
    pub fn keep(&mut self, end: SerialEnd, order: &Order) -> Result<(), AllocError>
        ensures { OnOk result (KeepsEnd end order.now self.old self.new) }
    {
        if self.has(&end) {
            return Ok(());
        }
        self.add(end, order.try_clone()?)
    }
}

/// All outcomes of a program, each once, with an order of sections that gives it, and how many states lead to them.
#[derive(Drop)]
pub struct Outcomes {
    states: usize,
    ends: Ends,
}

impl Model for Outcomes {
    ghost use Rattle.sect_serial.specs.Exploring.{OutcomesView};

    ghost Value = { OutcomesView };

    ghost view = { λ o. record { states = o.states; found = o.ends } };
}

impl Outcomes {
    /// These ends, found by way of so many states.
    pub(crate) fn new(states: usize, ends: Ends) -> Outcomes
        ensures { result ≡ record { states = states; found = ends } }
    {
        Outcomes { states, ends }
    }

    /// How many states there are between sections, the first included.
    pub fn states(&self) -> usize
        ensures { result ≡ self.now.states }
    {
        self.states
    }

    /// How many outcomes there are.
    pub fn len(&self) -> usize
        ensures { result ≡ length self.now.found }
    {
        self.ends.map.len()
    }

    /// The outcome at a place, and an order that gives it.
    pub fn at(&self, place: usize) -> (&SerialEnd, &Order)
        requires { place < length self.now.found }
        ensures { slice_get self.now.found place ≡ Some (deref_pair result) }
    {
        self.ends.map.get_index(place).unwrap()
    }
}
