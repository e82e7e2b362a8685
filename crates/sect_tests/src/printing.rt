//! Locks as they are printed.

use crate::programs::{NEXT, program_of};
use sect_names::{Effect, Lock, Path, Right, put_lock, put_locks};
use sect_points::Variable;
use sect_types::Program;
use std::process::Abort;
use std::test::Fail;

/// A program with one global and one reference.
const LIST: &[u8] = b"record Node { int val; Node next; } global Node head; \
thread t { Node p; int v; atomic { p = head.next; v = p.val; } }";

#[test]
fn no_locks(rt: HostRuntime) -> Result<(), Fail> {
    let program = program_of(rt.alloc(), LIST)?;
    let mut text = String::new(rt.alloc());
    put_locks(&mut text, &program, &[])?;
    assert_eq!(rt; text.as_str(), "none");
    Ok(())
}

#[test]
fn locks_on_classes(rt: HostRuntime) -> Result<(), Fail> {
    let program = program_of(rt.alloc(), LIST)?;
    let mut text = String::new(rt.alloc());
    let locks = [
        Lock::Class(0, Right::Read),
        Lock::Class(1, Right::Write),
        Lock::Class(12, Right::Make),
    ];
    put_locks(&mut text, &program, &locks)?;
    assert_eq!(rt; text.as_str(), "R class 0, W class 1, M class 12");
    Ok(())
}

#[test]
fn a_lock_on_a_path(rt: HostRuntime) -> Result<(), Fail> {
    let program = program_of(rt.alloc(), LIST)?;
    prints(&rt, &program, Effect::Read, "R head.next")?;
    prints(&rt, &program, Effect::Write, "W head.next")
}

/// The lock on the second field of the first global is printed so.
fn prints(
    rt: &(impl Abort + AllocGlobal),
    program: &Program,
    effect: Effect,
    wanted: &str,
) -> Result<(), Fail> {
    let path = Path::new(rt.alloc(), Variable::Global(0)).extended(&[NEXT])?;
    assert!(rt; !program.globals().is_empty());
    assert!(rt; !program.records().is_empty());
    assert!(rt; program.records()[0].as_slice().len() > 1);
    let mut text = String::new(rt.alloc());
    put_lock(&mut text, program, &Lock::Path(path, effect))?;
    assert_eq!(rt; text.as_str(), wanted);
    Ok(())
}
