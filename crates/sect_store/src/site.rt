//! The records of sites.

ghost use Rattle.std.specs.Prelude.{◌≡◌, ◌++◌, IfOk, OnOk};
ghost use Rattle.sect_types.specs.{Statements.{Stop, made_in}, Texts.{step_then}, Programs.{sites_of}};

use sect_types::{Action, Program, Step, Text};
use std::alloc::{AllocError, Global};

/// The number of the record of each site: of the globals, then of the `new` statements in text order.
pub fn site_records(alloc: Global, program: &Program) -> Result<Vec<u16>, AllocError>
    ensures { IfOk result (λ all. all.items ≡ sites_of program.now.globals program.now.texts) }
{
    let mut all = Vec::new(alloc);
    all.extend_from_slice(program.globals())?;
    for thread in 0..program.thread_count() {
        put_made(program.text(thread), &mut all)?;
    }
    Ok(all)
}

/// Adds the records of the `new` statements of a text.
#[cycle(made)]
fn put_made(text: &Text, all: &mut Vec<u16>) -> Result<(), AllocError>
    ensures { OnOk result (all.new.items ≡ all.old.items ++ made_in text.now) }
{
    for step in text.as_slice() {
        put_made_by(step, all)?;
    }
    Ok(())
}

/// Adds the record of a `new` statement, or those of the `new` statements in a statement.
#[cycle(made)]
fn put_made_by(step: &Step, all: &mut Vec<u16>) -> Result<(), AllocError>
    ensures { OnOk result (all.new.items ≡ all.old.items ++ made_in (step_then step.now Stop)) }
{
    match step {
        Step::Do(Action::New(_, record, _)) => all.push(*record)?,
        Step::Do(_) => {}
        Step::If(_, yes, no) => {
            put_made(yes, all)?;
            put_made(no, all)?;
        }
        Step::While(_, body) => put_made(body, all)?,
        Step::Section(_, body) => put_made(body, all)?,
    }
    Ok(())
}
