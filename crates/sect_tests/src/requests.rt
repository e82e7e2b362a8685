//! Whole runs of a lock table.

use crate::programs::printed;
use Answer::{Granted, Queued};
use Mode::{Exclusive, IntentionExclusive, IntentionShared, Shared};
use TableFault::{AlreadyHeld, AlreadyWaiting};
use sect_modes::{Key, Mode};
use sect_table::{Answer, Claim, Grant, Grants, Table, TableFault};
use std::alloc::Global;
use std::process::Abort;
use std::test::Fail;

/// The key that most runs speak of.
const A: Key = Key::Class(0);

/// Another key.
const B: Key = Key::Global(0);

/// The thread asks for a key, and is answered so.
fn asks(
    rt: &impl Abort,
    table: &mut Table,
    thread: u16,
    key: Key,
    mode: Mode,
    wanted: Result<Answer, TableFault>,
) {
    assert!(rt; (thread as usize) < table.threads());
    assert_eq!(rt; table.request(thread, key, mode), wanted);
}

/// The thread gives back what it holds.
fn releases(rt: &impl Abort, table: &mut Table, thread: u16, grants: &mut Grants) {
    assert!(rt; (thread as usize) < table.threads());
    assert!(rt; !table.is_waiting(thread));
    assert!(rt; table.threads() <= grants.threads());
    table.release_all(thread, grants);
}

/// The thread holds the key in this mode, or doesn't hold it.
fn holds(rt: &impl Abort, table: &Table, thread: u16, key: Key, wanted: Option<Mode>) {
    assert!(rt; (thread as usize) < table.threads());
    assert_eq!(rt; table.held(thread, key), wanted);
}

/// This thread waits first for key A, in this mode, or nobody waits.
fn waits_first(rt: &impl Abort, table: &Table, wanted: Option<(u16, Mode)>) {
    let waiter = table
        .first_waiter(A)
        .map(|claim: Claim| (claim.thread, claim.mode));
    assert_eq!(rt; waiter, wanted);
}

/// So many nodes are free.
fn spares(rt: &impl Abort, table: &Table, wanted: usize) {
    assert_eq!(rt; table.spare(), wanted);
}

/// The last release granted key A to these.
fn granted(rt: &impl Abort, grants: &Grants, wanted: &[(u16, Mode)]) {
    assert_eq!(rt; grants.as_slice().len(), wanted.len());
    for (grant, (thread, mode)) in grants.as_slice().iter().zip(wanted.iter()) {
        assert!(rt;
            *grant
                == Grant {
                    thread: *thread,
                    key: A,
                    mode: *mode
                }
        );
    }
}

/// A call of the table, and what is to come of it.
#[derive(Clone, Copy)]
enum Call<'a> {
    /// The thread asks for key A in this mode, and is answered so.
    Asks(u16, Mode, Result<Answer, TableFault>),
    /// It asks for key B.
    AsksOther(u16, Mode, Result<Answer, TableFault>),
    /// The thread gives back what it holds, by which these get key A in these modes.
    Releases(u16, &'a [(u16, Mode)]),
    /// The thread holds key A in this mode, or doesn't hold it.
    Holds(u16, Option<Mode>),
    /// This thread waits first for key A, in this mode, or nobody waits.
    WaitsFirst(Option<(u16, Mode)>),
    /// So many nodes are free.
    Spares(usize),
}

/// Does a call, and looks at what comes of it.
fn done(rt: &impl Abort, table: &mut Table, grants: &mut Grants, call: Call<'_>) {
    match call {
        Call::Asks(thread, mode, wanted) => asks(rt, table, thread, A, mode, wanted),
        Call::AsksOther(thread, mode, wanted) => asks(rt, table, thread, B, mode, wanted),
        Call::Releases(thread, wanted) => {
            releases(rt, table, thread, grants);
            granted(rt, grants, wanted);
        }
        Call::Holds(thread, wanted) => holds(rt, table, thread, A, wanted),
        Call::WaitsFirst(wanted) => waits_first(rt, table, wanted),
        Call::Spares(wanted) => spares(rt, table, wanted),
    }
}

/// Does these calls in turn.
fn goes_on(
    rt: &(impl Abort + AllocGlobal),
    table: &mut Table,
    calls: &[Call<'_>],
) -> Result<(), Fail> {
    let mut grants = Grants::with_threads(rt.alloc(), table.threads())?;
    for call in calls {
        done(rt, table, &mut grants, *call);
    }
    Ok(())
}

/// Does these calls in turn, on an empty table for so many threads.
fn runs(rt: &(impl Abort + AllocGlobal), threads: usize, calls: &[Call<'_>]) -> Result<(), Fail> {
    goes_on(rt, &mut Table::with_threads(rt.alloc(), threads)?, calls)
}

/// A waiter that could be let in waits behind one that could not.
const BEHIND_A_WAITER: &[Call<'static>] = &[
    Call::Asks(0, Shared, Ok(Granted)),
    Call::Asks(1, Exclusive, Ok(Queued)),
    Call::Asks(2, IntentionShared, Ok(Queued)),
    Call::WaitsFirst(Some((1, Exclusive))),
    Call::Releases(0, &[(1, Exclusive)]),
    Call::WaitsFirst(Some((2, IntentionShared))),
    Call::Releases(1, &[(2, IntentionShared)]),
    Call::WaitsFirst(None),
];

/// One release lets in two waiters.
const TWO_WAITERS: &[Call<'static>] = &[
    Call::Asks(0, Exclusive, Ok(Granted)),
    Call::Asks(1, IntentionShared, Ok(Queued)),
    Call::Asks(2, IntentionExclusive, Ok(Queued)),
    Call::Releases(0, &[(1, IntentionShared), (2, IntentionExclusive)]),
    Call::Holds(0, None),
    Call::Holds(1, Some(IntentionShared)),
    Call::Holds(2, Some(IntentionExclusive)),
];

/// A release lets nobody in while another holder stands in the way.
const SECOND_HOLDER: &[Call<'static>] = &[
    Call::Asks(0, Shared, Ok(Granted)),
    Call::Asks(1, Shared, Ok(Granted)),
    Call::Asks(2, Exclusive, Ok(Queued)),
    Call::Asks(3, IntentionShared, Ok(Queued)),
    Call::Releases(0, &[]),
    Call::Releases(1, &[(2, Exclusive)]),
];

/// A refused request changes nothing, also when it comes again.
const REFUSALS: &[Call<'static>] = &[
    Call::Asks(0, Shared, Ok(Granted)),
    Call::Asks(1, Exclusive, Ok(Queued)),
    Call::Asks(1, Shared, Err(AlreadyWaiting)),
    Call::Asks(0, Shared, Err(AlreadyHeld)),
    Call::Holds(0, Some(Shared)),
    Call::Holds(1, None),
    Call::WaitsFirst(Some((1, Exclusive))),
    Call::Spares(0),
    Call::Asks(1, Shared, Err(AlreadyWaiting)),
    Call::Asks(0, Shared, Err(AlreadyHeld)),
    Call::Holds(0, Some(Shared)),
    Call::Holds(1, None),
    Call::WaitsFirst(Some((1, Exclusive))),
    Call::Spares(0),
];

/// The nodes that a release frees are used again.
const FREE_NODES: &[Call<'static>] = &[
    Call::Asks(0, Shared, Ok(Granted)),
    Call::AsksOther(0, Exclusive, Ok(Granted)),
    Call::Asks(1, IntentionShared, Ok(Granted)),
    Call::Spares(0),
    Call::Releases(0, &[]),
    Call::Spares(2),
    Call::Asks(2, Shared, Ok(Granted)),
    Call::Spares(1),
    Call::Releases(1, &[]),
    Call::Releases(2, &[]),
    Call::Spares(3),
];

#[test]
fn whole_runs(rt: HostRuntime) -> Result<(), Fail> {
    for (threads, calls) in [
        (3, BEHIND_A_WAITER),
        (3, TWO_WAITERS),
        (4, SECOND_HOLDER),
        (2, REFUSALS),
        (3, FREE_NODES),
    ] {
        runs(&rt, threads, calls)?;
    }
    Ok(())
}

/// What a thread may do with a key that it was given fresh.
const FRESH: &[Call<'static>] = &[
    Call::Holds(0, Some(Exclusive)),
    Call::Asks(0, Shared, Err(AlreadyHeld)),
    Call::Releases(0, &[]),
    Call::Holds(0, None),
    Call::Spares(1),
];

/// A table whose one thread was given key A.
fn given(alloc: Global) -> Result<Table, Fail> {
    let mut table = Table::with_threads(alloc, 1)?;
    table.give_fresh(0, A)?;
    Ok(table)
}

#[test]
fn a_fresh_key(rt: HostRuntime) -> Result<(), Fail> {
    goes_on(&rt, &mut given(rt.alloc())?, FRESH)
}

/// Each of 64 threads asks for one key and gives it back.
fn goes_round(rt: &impl Abort, table: &mut Table, grants: &mut Grants) {
    for thread in 0..64 {
        let wanted = if thread == 0 { Granted } else { Queued };
        asks(rt, table, thread, A, Exclusive, Ok(wanted));
    }
    for thread in 0..64 {
        releases(rt, table, thread, grants);
    }
}

#[test]
fn many_rounds_over_one_key(rt: HostRuntime) -> Result<(), Fail> {
    let mut table = Table::with_threads(rt.alloc(), 64)?;
    let mut grants = Grants::with_threads(rt.alloc(), 64)?;
    for _ in 0..10_000 {
        goes_round(&rt, &mut table, &mut grants);
    }
    spares(&rt, &table, 64);
    Ok(())
}

/// The fault is printed so.
fn prints(rt: &(impl Abort + AllocGlobal), fault: &TableFault, wanted: &str) -> Result<(), Fail> {
    let text = printed(rt.alloc(), fault)?;
    assert!(rt; text.as_str() == wanted, "{text}");
    Ok(())
}

#[test]
fn printed_faults(rt: HostRuntime) -> Result<(), Fail> {
    prints(&rt, &AlreadyWaiting, "50 AlreadyWaiting")?;
    prints(&rt, &AlreadyHeld, "51 AlreadyHeld")?;
    prints(&rt, &TableFault::Memory, "out of memory")
}
