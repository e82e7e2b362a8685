//! The names of locals as they are printed.

ghost use Rattle.std.specs.Prelude.{Some};
ghost use Rattle.sect_types.specs.LocalNames.{local_text};

use sect_front::Name;
use std::fmt;
use std::fmt::Write;

/// What a local is called: by its name, and a local of a call by its name, `#` and the number of the call.
#[derive(Clone, Copy)]
pub struct LocalName {
    /// The name with which it is declared.
    pub name: Name,
    /// The number of the call in its thread, if it is a local of one.
    pub call: Option<u32>,
}

impl fmt::Display for LocalName {
    ghost output = { λ l. Some (local_text l) };

    fn fmt<W: fmt::Write>(&self, f: &mut fmt::Formatter<W>) -> fmt::Result {
        match self.call {
            None => write!(f, "{}", self.name),
            Some(call) => write!(f, "{}#{call}", self.name),
        }
    }
}
