//! A finite graph of states.

ghost use Rattle.std.specs.Prelude.{◌≡◌, ◌<◌, ◌+◌, ◌*◌, ℕ, Some, None, IfSome, IfNone, slice_get};
ghost use Rattle.std.specs.Bool.{Decides};
ghost use Rattle.sect_endings.specs.Graphs.{go, IsEnd};
ghost use Rattle.sect_endings.specs.steps.Sets.{IsMet, MovesInto, LeadsBelow, In, rank_of};

use std::marker::Model;

/// States, numbered from 0, and where each thread leads to from each of them.
#[derive(Drop)]
pub struct Graph {
    states: usize,
    threads: u16,
    next: Vec<u32>,
}

impl Model for Graph {
    ghost use Rattle.sect_endings.specs.Graphs.{GraphView};

    ghost Value = { GraphView };

    ghost view = { λ g. record { states = g.states; threads = g.threads; next = g.next.items } };
}

impl Graph {
    /// So many states and threads. Row by row, `next` has for each state and thread the state that the thread leads to
    /// from there. Any number that is none of a state says that it may not go.
    pub fn new(states: usize, threads: u16, next: Vec<u32>) -> Graph
        ensures { result ≡ record { states = states; threads = threads; next = next.items } }
    {
        Graph {
            states,
            threads,
            next,
        }
    }

    /// How many states there are.
    pub fn states(&self) -> usize
        ensures { result ≡ self.now.states }
    {
        self.states
    }

    /// How many threads there are.
    pub fn threads(&self) -> u16
        ensures { result ≡ self.now.threads }
    {
        self.threads
    }

    /// The number that stands for a state and a thread.
    fn entry(&self, state: usize, thread: u16) -> Option<u32>
        ensures { result ≡ slice_get self.now.next (state * self.now.threads + thread) }
    {
        let row = state.checked_mul(self.threads as usize)?;
        let place = row.checked_add(thread as usize)?;
        self.next.get(place).copied()
    }

    /// Where a thread leads to from a state, if it may go there.
    pub fn go(&self, state: usize, thread: u16) -> Option<usize>
        ensures { result ≡ go self.now state thread }
    {
        if self.threads <= thread {
            return None;
        }
        match self.entry(state, thread) {
            Some(next) if (next as usize) < self.states => Some(next as usize),
            _ => None,
        }
    }
}
