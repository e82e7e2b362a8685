//! The variables of a procedure: its parameters, then its locals.

ghost use Rattle.std.specs.Prelude.{◌≡◌, IfOk};
ghost use Rattle.sect_types.specs.Items.{variables as variables_by};

use crate::declarations::names::Names;
use sect_front::{Declaration, Procedure};
use std::alloc::{AllocError, Global};
use std::marker::Model;

/// The variables of a procedure, with their names.
pub struct Variables {
    list: Vec<Declaration>,
    names: Names,
}

impl Drop for Variables {
    fn drop(self) {
        let Variables { list: _, names: _ } = self;
    }
}

impl Model for Variables {
    ghost use Rattle.sect_types.specs.steps.Threads.{VariablesView};

    ghost Value = { VariablesView };

    ghost view = { λ v. record { list = v.list.items; names = v.names } };
}

impl Variables {
    /// These variables, whose names are given beside them.
    pub fn new(list: Vec<Declaration>, names: Names) -> Variables
        ensures { result ≡ record { list = list.items; names = names } }
    {
        Variables { list, names }
    }

    /// The parameters, then the locals.
    pub fn as_slice(&self) -> &[Declaration]
        ensures { result.now ≡ self.now.list }
    {
        self.list.as_slice()
    }

    /// Their names.
    pub fn names(&self) -> &Names
        ensures { result.now ≡ self.now.names }
    {
        &self.names
    }
}

/// The parameters of a procedure, then its locals.
pub fn all_of(alloc: Global, procedure: &Procedure) -> Result<Vec<Declaration>, AllocError>
    ensures { IfOk result (λ all. all.items ≡ variables_by procedure.now) }
{
    let mut all = Vec::new(alloc);
    all.extend_from_slice(procedure.parameters.as_slice())?;
    all.extend_from_slice(procedure.locals.as_slice())?;
    Ok(all)
}
