//! Guards by record.

ghost use Rattle.std.specs.Prelude.{◌≡◌, None, length, slice_index_or};

use std::marker::Model;

/// The global that guards each record, where one does. Records and globals go by number, in text order.
#[derive(Drop)]
pub struct Guards {
    list: Vec<Option<u16>>,
}

impl Model for Guards {
    ghost use Rattle.std.specs.Prelude.{List, Option, ℕ};

    ghost Value = { List (Option ℕ) };

    ghost view = { λ g. g.list.items };
}

impl Guards {
    /// The guards of the records from 0 on.
    pub(crate) fn of(list: Vec<Option<u16>>) -> Guards
        ensures { result ≡ list.items }
    {
        Guards { list }
    }

    /// The number of the global that guards a record, where one does. A record that isn't there has none.
    pub fn guard(&self, record: u16) -> Option<u16>
        ensures { result ≡ slice_index_or self.now «record» None }
    {
        match self.list.get(record as usize) {
            Some(guard) => *guard,
            None => None,
        }
    }

    /// How many records there are.
    pub fn len(&self) -> usize
        ensures { result ≡ length self.now }
    {
        self.list.len()
    }
}
