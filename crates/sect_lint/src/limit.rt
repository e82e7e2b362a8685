//! The limits of a text that an item may pass.

ghost use Rattle.std.specs.Prelude.{◌≡◌};
ghost use Rattle.sect_lint.specs.Limits.{words_of, limit_of, statement_limit, item_limit};

use crate::form::{Form, form_of};
use sect_front::Token;
use sect_places::{NameSpan, Role, Thing};

/// What there is too much of.
#[derive(Clone, Copy)]
pub enum Limit {
    Records,
    Fields,
    Globals,
    Procedures,
    Threads,
    /// Locals of a thread, or parameters and locals of a procedure.
    Locals,
    Statements,
    /// Statements, or sites.
    Sites,
    /// Statements, or sections.
    Sections,
    /// Statements, sites or calls, or blocks in one another, once the call is expanded.
    Expansion,
}

impl Limit {
    /// What is past its limit, with the number.
    pub fn words(self) -> &'static str
        ensures { result.now ≡ words_of self }
    {
        match self {
            Limit::Records => "more than 64 records",
            Limit::Fields => "more than 16 fields",
            Limit::Globals => "more than 256 globals",
            Limit::Procedures => "more than 64 procedures",
            Limit::Threads => "more than 64 threads",
            Limit::Locals => "more than 64 locals",
            Limit::Statements => "more than 4096 statements",
            Limit::Sites =>
                "more than 4096 statements, or more than 1024 globals and `new` statements",
            Limit::Sections => "more than 4096 statements, or more than 256 sections",
            Limit::Expansion => {
                "expanded it is past 4096 statements, 1024 globals and `new` statements, 4096 calls or 32 blocks"
            }
        }
    }

    /// The limit of what is declared.
    pub fn of_thing(thing: Thing) -> Limit
        ensures { result ≡ limit_of thing }
    {
        match thing {
            Thing::Record => Limit::Records,
            Thing::Field => Limit::Fields,
            Thing::Global => Limit::Globals,
            Thing::Procedure => Limit::Procedures,
            Thing::Thread => Limit::Threads,
            Thing::Local => Limit::Locals,
        }
    }

    /// The limit that a statement of these tokens may pass.
    pub fn of_statement(tokens: &[Token]) -> Limit
        ensures { result ≡ statement_limit tokens.now }
    {
        match form_of(tokens) {
            Form::New => Limit::Sites,
            Form::Section => Limit::Sections,
            Form::Call => Limit::Expansion,
            _ => Limit::Statements,
        }
    }

    /// The limit that an item of these tokens may pass, in which this name is declared, if one is.
    pub fn of_item(declared: Option<NameSpan>, tokens: &[Token]) -> Limit
        ensures { result ≡ item_limit declared tokens.now }
    {
        match declared {
            Some(named) => match named.used.role {
                Role::Declared(thing) => Limit::of_thing(thing),
                _ => Limit::of_statement(tokens),
            },
            None => Limit::of_statement(tokens),
        }
    }
}
