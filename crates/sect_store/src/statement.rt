//! What one statement without a block does.

ghost use Rattle.std.specs.Prelude.{◌≡◌, ◌<◌, ◌+◌, ◌^◌, ℕ, [], Option, slice_index_or, IfOk, OnErr};
ghost use Rattle.sect_types.specs.declared.expansion.action.Action.TheVariants.{New};
ghost use Rattle.sect_types.specs.declared.meaning.store.Datum.TheVariants.{Refers};
ghost use Rattle.sect_types.specs.{declared.meaning.store.ObjectName.TheVariants.{Made}, Programs.{ProgramView}};
ghost use Rattle.sect_types.specs.Store.{ObjectView};
ghost use Rattle.sect_types.specs.Meaning.{one, done, looked, found_at, assigned, fresh, Went, Added};
ghost use Rattle.sect_types.specs.Whole.{left_by};
ghost use Rattle.sect_store.specs.Working.{left_with};
ghost use Rattle.sect_store.specs.steps.Paying.{counted};

use crate::store::Store;
use crate::value::{compute, integer};
use crate::work::Work;
use sect_types::{Action, Datum, Fault, ObjectName, Program};
use std::alloc::{AllocError, Global};

/// Runs a statement of a thread for a unit of fuel; the fault that it comes to, if it does. It looks into one object
/// at most. Where memory is refused nothing has changed.
pub fn act(
    alloc: Global,
    program: &Program,
    thread: u16,
    action: &Action,
    work: &mut Work,
    store: &mut Store,
) -> Result<Option<Fault>, AllocError>
    ensures left { IfOk result (λ fault. left_with fault work.new store.new
        ≡ left_by thread store.old (one program.now thread action.now
        (found_at store.old (looked action.now work.old.locals)) work.old)) }
    ensures refused { OnErr result ((work.new ≡ work.old) × (store.new ≡ store.old)) }
{
    if !work.pay() {
        return Ok(Some(Fault::Fuel));
    }
    let ran = run_paid(alloc, program, thread, action, work, store);
    if ran.is_err() {
        work.give_back();
    }
    ran
}

/// Runs a statement for which its unit of fuel has been paid; the fault that it comes to, if it does.
fn run_paid(
    alloc: Global,
    program: &Program,
    thread: u16,
    action: &Action,
    work: &mut Work,
    store: &mut Store,
) -> Result<Option<Fault>, AllocError>
    requires { work.old.made + work.old.fuel + 1 < 2 ^ 32 }
    ensures left { IfOk result (λ fault. left_with fault work.new store.new
        ≡ left_by thread store.old (done program.now thread action.now
        (found_at store.old (looked action.now work.old.locals)) work.old)) }
    ensures refused { OnErr result ((work.new ≡ work.old) × (store.new ≡ store.old)) }
{
    match action {
        Action::Assign(target, value) => {
            let datum = work.datum(value);
            work.assign(*target, datum);
        }
        Action::Compute(target, left, operator, right) => {
            let left = integer(work.datum(left));
            let right = integer(work.datum(right));
            let Some(number) = compute(*operator, left, right) else {
                return Ok(Some(Fault::Overflow));
            };
            work.assign(*target, Datum::Number(number));
        }
        Action::New(target, record, site) => {
            store.make(alloc, program, thread, *record, *site)?;
            name_made(work, thread, *target);
        }
        Action::Load(target, base, field) => {
            let Datum::Refers(name) = work.base(base) else {
                return Ok(Some(Fault::Null));
            };
            let Some(object) = store.object(name) else {
                return Ok(Some(Fault::Null));
            };
            work.assign(*target, object.field(field.number));
        }
        Action::Store(base, field, value) => {
            let Datum::Refers(name) = work.base(base) else {
                return Ok(Some(Fault::Null));
            };
            store.write(name, field.number, work.datum(value));
        }
        Action::Print(value) => work.print(integer(work.datum(value)))?,
    }
    Ok(None)
}

/// Counts an object that a thread makes, whose unit of fuel has been paid, and puts its name into a local.
fn name_made(work: &mut Work, thread: u16, target: u16)
    requires { work.old.made + work.old.fuel + 1 < 2 ^ 32 }
    ensures { work.new ≡ assigned target (Refers (Made thread work.old.made)) (counted work.old) }
{
    let number = work.make();
    work.assign(target, Datum::Refers(ObjectName::Made { thread, number }));
}

/// What a `new` of a thread does to what it works with, once its object is in the store: a unit of fuel is paid, the
/// object is counted, and the target refers to it.
pub fn finish_new(work: &mut Work, thread: u16, target: u16)
    requires { 0 < work.old.fuel }
    ensures { (program : ProgramView) (of : ℕ) (site : ℕ) (found : Option ObjectView)
        → one program thread (New target of site) found work.old
        ≡ Went work.new (Added (fresh site (slice_index_or program.records of []))) }
{
    work.pay();
    name_made(work, thread, target);
}
