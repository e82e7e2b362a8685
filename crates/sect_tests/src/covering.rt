//! Which lock covers which, what is left of a set, and the order of locks.

use crate::programs::{SHARED, scheme};
use crate::wanted::{Wanted, lock, locks, path, set};
use Effect::{Read, Write};
use Variable::{Global, Local};
use Wanted::{All, At};
use sect_names::{Effect, Lock, Path, Right, Scheme};
use sect_points::Variable;
use std::cmp::Ordering;
use std::process::Abort;
use std::test::Fail;

/// The variables of the program.
const A: Variable = Global(0);

const X: Variable = Local(0, 0);

const Y: Variable = Local(0, 1);

const Z: Variable = Local(0, 2);

const W: Variable = Local(0, 3);

/// Which of the locks a lock covers.
fn row(rt: &impl AllocGlobal, scheme: &Scheme, locks: &[Lock], big: &Lock) -> Result<String, Fail> {
    let mut text = String::new(rt.alloc());
    for small in locks {
        text.push(if scheme.covers(big, small) { '+' } else { '-' })?;
    }
    Ok(text)
}

/// Which of these locks the first one covers.
fn covers(
    rt: &(impl Abort + AllocGlobal),
    scheme: &Scheme,
    big: Wanted,
    small: &[Wanted],
    expected: &str,
) -> Result<(), Fail> {
    let big = lock(rt, big)?;
    let found = row(rt, scheme, locks(rt, small)?.as_slice(), &big)?;
    assert!(rt; found.as_str() == expected, "{found}");
    Ok(())
}

/// The lines of the table of these locks.
fn covers_all(
    rt: &(impl Abort + AllocGlobal),
    scheme: &Scheme,
    small: &[Wanted],
    rows: &[(Wanted, &str)],
) -> Result<(), Fail> {
    for (big, expected) in rows {
        covers(rt, scheme, *big, small, expected)?;
    }
    Ok(())
}

/// The locks along the table, and a line for each lock that is asked about.
const ALONG: &[Wanted] = &[
    All(0, Right::Read),
    All(0, Right::Write),
    All(0, Right::Make),
    All(1, Right::Read),
    At(X, 0, Read),
    At(X, 0, Write),
    At(Y, 0, Read),
    At(X, 1, Read),
    At(Z, 0, Read),
    At(W, 1, Read),
];

/// What these locks cover of those along the table.
const TABLE: &[(Wanted, &str)] = &[
    (All(0, Right::Read), "+---+-+---"),
    (All(0, Right::Write), "+++-+++---"),
    (All(0, Right::Make), "--+-------"),
    (All(1, Right::Write), "---+---++-"),
    (At(X, 0, Read), "----+-----"),
    (At(X, 0, Write), "----++----"),
    (At(X, 1, Write), "-------+--"),
    (At(W, 1, Write), "---------+"),
];

/// The locks are these, in this order.
fn are_in_order(
    rt: &(impl Abort + AllocGlobal),
    found: &[Lock],
    kept: &[Wanted],
) -> Result<(), Fail> {
    let expected = locks(rt, kept)?;
    assert!(rt; found == expected.as_slice());
    Ok(())
}

/// Of these locks those are left, in this order.
fn leaves(
    rt: &(impl Abort + AllocGlobal),
    scheme: &Scheme,
    given: &[Wanted],
    kept: &[Wanted],
) -> Result<(), Fail> {
    let given = set(rt, given)?;
    let found = scheme.maximal(rt.alloc(), &given)?;
    are_in_order(rt, found.as_slice(), kept)
}

/// The first locks leave the second.
fn leave_all(
    rt: &(impl Abort + AllocGlobal),
    scheme: &Scheme,
    rows: &[(&[Wanted], &[Wanted])],
) -> Result<(), Fail> {
    for (given, kept) in rows {
        leaves(rt, scheme, given, kept)?;
    }
    Ok(())
}

/// Sets of locks, and what is left of each, in order.
const LEFT: &[(&[Wanted], &[Wanted])] = &[
    (&[], &[]),
    (
        &[
            At(W, 0, Write),
            At(Y, 1, Read),
            All(1, Right::Make),
            All(1, Right::Read),
            At(Y, 0, Read),
            At(X, 0, Read),
            At(X, 0, Write),
            At(A, 0, Read),
        ],
        &[
            All(1, Right::Read),
            All(1, Right::Make),
            At(A, 0, Read),
            At(X, 0, Write),
            At(Y, 0, Read),
            At(W, 0, Write),
        ],
    ),
    (
        &[
            At(Y, 1, Read),
            At(Y, 0, Write),
            At(X, 1, Write),
            At(X, 0, Read),
        ],
        &[
            At(X, 0, Read),
            At(X, 1, Write),
            At(Y, 0, Write),
            At(Y, 1, Read),
        ],
    ),
    (
        &[
            At(Y, 1, Write),
            At(X, 0, Write),
            All(0, Right::Make),
            All(0, Right::Write),
            All(0, Right::Read),
        ],
        &[All(0, Right::Write), At(Y, 1, Write)],
    ),
];

/// The scheme has the table of locks, and leaves what is left.
fn has_table(rt: &(impl Abort + AllocGlobal), scheme: &Scheme) -> Result<(), Fail> {
    covers_all(rt, scheme, ALONG, TABLE)?;
    leave_all(rt, scheme, LEFT)
}

#[test]
fn the_table_of_locks(rt: HostRuntime) -> Result<(), Fail> {
    has_table(&rt, &scheme(rt.alloc(), SHARED, 2)?)
}

/// Each comes before the next.
fn rise<T: Ord>(rt: &impl Abort, items: &[T]) {
    for pair in items.windows(2) {
        assert!(rt; pair[0] < pair[1]);
        assert!(rt; pair[1].cmp(&pair[0]) == Ordering::Greater);
        assert!(rt; pair[0].cmp(&pair[0]) == Ordering::Equal);
    }
}

/// The paths of these variables with so many times the field `next`.
fn paths(rt: &(impl Abort + AllocGlobal), wanted: &[(Variable, usize)]) -> Result<Vec<Path>, Fail> {
    let mut paths = Vec::new(rt.alloc());
    for (base, fields) in wanted {
        paths.push(path(rt, *base, *fields)?)?;
    }
    Ok(paths)
}

#[test]
fn the_order_of_paths(rt: HostRuntime) -> Result<(), Fail> {
    let wanted = [
        (Global(1), 0),
        (Global(1), 1),
        (Global(1), 2),
        (Global(2), 0),
        (Local(0, 3), 0),
        (Local(1, 0), 3),
        (Local(1, 2), 0),
    ];
    rise(&rt, paths(&rt, &wanted)?.as_slice());
    Ok(())
}

#[test]
fn the_order_of_locks(rt: HostRuntime) -> Result<(), Fail> {
    let wanted = [
        All(0, Right::Read),
        All(0, Right::Write),
        All(0, Right::Make),
        All(1, Right::Read),
        At(Global(0), 0, Read),
        At(Global(0), 0, Write),
        At(Global(0), 1, Read),
        At(Local(0, 0), 0, Read),
    ];
    rise(&rt, locks(&rt, &wanted)?.as_slice());
    Ok(())
}
