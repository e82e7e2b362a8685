//! One statement or test of what is still to run.

ghost use Rattle.std.specs.Prelude.{◌≡◌, true, IfOk};
ghost use Rattle.sect_types.specs.Meaning.{found_at, looks, next, begins_step};
ghost use Rattle.sect_serial.specs.steps.Moves.{stepped, stepped_by};

use crate::rest::Rest;
use sect_store::{Store, Work, act};
use sect_types::{Fault, Program, Step};
use std::alloc::{AllocError, Global};

/// Runs the statement or test that comes next, which isn't a section; the fault that it comes to, if it does.
pub fn step(
    alloc: Global,
    program: &Program,
    thread: u16,
    rest: &mut Rest<'_>,
    work: &mut Work,
    store: &mut Store,
) -> Result<Option<Fault>, AllocError>
    requires { begins_step rest.old ≡ true }
    ensures { IfOk result (λ fault. stepped rest.new work.new store.new fault
        ≡ stepped_by thread rest.old store.old
        (next program.now thread rest.old (found_at store.old (looks rest.old work.old)) work.old)) }
{
    match rest.first() {
        Some(Step::Do(action)) => {
            let fault = act(alloc, program, thread, action, work, store)?;
            if fault.is_none() {
                rest.advance();
            }
            Ok(fault)
        }
        Some(Step::If(condition, yes, no)) => {
            let Some(holds) = work.test(condition) else {
                return Ok(Some(Fault::Fuel));
            };
            rest.advance();
            if holds {
                rest.enter(yes)?;
            } else {
                rest.enter(no)?;
            }
            Ok(None)
        }
        Some(Step::While(condition, body)) => {
            let Some(holds) = work.test(condition) else {
                return Ok(Some(Fault::Fuel));
            };
            if holds {
                rest.enter(body)?;
            } else {
                rest.advance();
            }
            Ok(None)
        }
        Some(Step::Section(_, _)) | None => unreachable!(),
    }
}
