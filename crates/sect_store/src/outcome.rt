//! What a run has come to.

ghost use Rattle.std.specs.Prelude.{◌≡◌};

use crate::store::Store;
use sect_types::End;
use std::marker::Model;

/// What a run has come to: how each thread has ended, if it has; the threads whose sections ran, in their order; the
/// numbers that sections have printed; and the store.
pub struct Outcome {
    ends: Vec<Option<End>>,
    order: Vec<u16>,
    output: Vec<i64>,
    store: Store,
}

impl Drop for Outcome {
    fn drop(self) {
        let Outcome {
            ends: _,
            order: _,
            output: _,
            store: _,
        } = self;
    }
}

impl Model for Outcome {
    ghost use Rattle.sect_store.specs.Outcomes.{OutcomeView};

    ghost Value = { OutcomeView };

    ghost view = { λ o. record {
      ends = o.ends.items;
      order = o.order.items;
      output = o.output.items;
      store = o.store;
    } };
}

impl Outcome {
    /// The outcome of these parts.
    pub fn new(ends: Vec<Option<End>>, order: Vec<u16>, output: Vec<i64>, store: Store) -> Outcome
        ensures { result ≡ record {
          ends = ends.items;
          order = order.items;
          output = output.items;
          store = store;
        } }
    {
        Outcome {
            ends,
            order,
            output,
            store,
        }
    }

    /// How each thread has ended, by number; none for one that runs.
    pub fn ends(&self) -> &[Option<End>]
        ensures { result.now ≡ self.now.ends }
    {
        self.ends.as_slice()
    }

    /// The threads whose sections ran, in their order.
    pub fn order(&self) -> &[u16]
        ensures { result.now ≡ self.now.order }
    {
        self.order.as_slice()
    }

    /// The numbers that sections have printed, in their order.
    pub fn output(&self) -> &[i64]
        ensures { result.now ≡ self.now.output }
    {
        self.output.as_slice()
    }

    /// The objects.
    pub fn store(&self) -> &Store
        ensures { result.now ≡ self.now.store }
    {
        &self.store
    }
}
