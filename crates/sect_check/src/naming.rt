//! What a thread's names stand for: its locals, and the globals of its program.

ghost use Rattle.std.specs.Prelude.{◌≡◌, ◌<◌, length};
ghost use Rattle.sect_types.specs.Sight.{place, names_of_globals};
ghost use Rattle.sect_check.specs.Names.{variable_named as variable_by, base_named as base_by};

use crate::names::local_named;
use indexmap::IndexSet;
use sect_cert::CertBase;
use sect_front::Name;
use sect_names::Scheme;
use sect_points::Variable;
use sect_types::LocalName;
use std::marker::Model;

/// A thread of an accepted program, and the names of the program's globals.
#[derive(Drop)]
pub struct Naming<'a> {
    scheme: &'a Scheme,
    globals: &'a IndexSet<Name>,
    thread: u16,
}

impl<'a> Model for Naming<'a> {
    ghost use Rattle.std.specs.Prelude.{◌≡◌, ◌<◌, length};
    ghost use Rattle.std.specs.Coded.{codes};
    ghost use Rattle.sect_front.specs.Coding.{block_code};
    ghost use Rattle.sect_types.specs.Coding.{statements_code};
    ghost use Rattle.sect_types.specs.Sight.{names_of_globals};
    ghost use Rattle.sect_check.specs.steps.Resolving.{NamingView};

    ghost Value = { NamingView };

    ghost coded = { Prim.hlevel (codes, block_code, statements_code) };

    ghost view = { λ n. record { scheme = n.scheme.now; thread = n.thread } };

    ghost invariant = { λ n. (n.globals.now.keys ≡ names_of_globals n.scheme.now.program.source.globals)
        × (n.thread < length n.scheme.now.program.locals) };
}

impl<'a> Naming<'a> {
    /// The names of a thread, where those of the globals are given.
    pub fn new(scheme: &'a Scheme, globals: &'a IndexSet<Name>, thread: u16) -> Naming<'a>
        requires globals { globals.now.keys ≡ names_of_globals scheme.now.program.source.globals }
        requires thread { thread < length scheme.now.program.locals }
        ensures { result ≡ record { scheme = scheme.now; thread = thread } }
    {
        Naming {
            scheme,
            globals,
            thread,
        }
    }

    /// The accepted program.
    pub fn scheme(&self) -> &Scheme
        ensures { result.now ≡ self.now.scheme }
    {
        self.scheme
    }

    /// The number of the global of this name.
    fn global_number(&self, name: &Name) -> Option<u16>
        ensures { result ≡ place name.now (names_of_globals self.now.scheme.program.source.globals) }
    {
        self.scheme.program().facts();
        let _facts = self.scheme.program().tree();
        let number = self.globals.get_index_of(name)?;
        Some(number as u16)
    }

    /// The variable that a name stands for: a local, else a global. The global is sought first, since its name is no
    /// local's.
    fn variable_named(&self, name: &Name) -> Option<Variable>
        ensures { result ≡ variable_by self.now.scheme.program.source self.now.thread name.now }
    {
        let _facts = self.scheme.program().tree();
        if let Some(number) = self.global_number(name) {
            return Some(Variable::Global(number));
        }
        let own = LocalName {
            name: *name,
            call: None,
        };
        local_named(self.scheme.program(), self.thread, &own)
    }

    /// The variable at which a path begins.
    pub fn base_named(&self, base: CertBase) -> Option<Variable>
        ensures { result ≡ base_by self.now.scheme.program.source self.now.thread base }
    {
        match base {
            CertBase::Name(name) => self.variable_named(&name),
            CertBase::InCall(name, call) => {
                let called = LocalName {
                    name,
                    call: Some(call),
                };
                local_named(self.scheme.program(), self.thread, &called)
            }
        }
    }
}
