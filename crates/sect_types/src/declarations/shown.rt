//! The names that all procedures and threads see.

use crate::declarations::names::{NameSet, Names};

/// The names of the records, also as a set; of the fields of each record; and of the globals.
pub struct Shown {
    pub known: NameSet,
    pub record_names: Names,
    pub field_names: Vec<Names>,
    pub global_names: Names,
}

impl Drop for Shown {
    fn drop(self) {
        let Shown {
            known: _,
            record_names: _,
            field_names: _,
            global_names: _,
        } = self;
    }
}
