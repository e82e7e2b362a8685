//! What a statement needs, and what is needed before it for what is needed after it.

use crate::programs::{LIST, NULL, SHARED, scheme};
use crate::wanted::{Wanted, lock, locks};
use Effect::{Read, Write};
use Variable::{Global, Local};
use Wanted::{All, At};
use sect_names::{Effect, Lock, Right, Scheme};
use sect_points::Variable;
use sect_types::Label;
use std::process::Abort;
use std::test::Fail;

/// What is needed before a node of section 0 where the first lock is needed after it.
type Carried<'a> = (u16, Wanted, &'a [Wanted]);

/// What a node of a section needs of itself.
type Needed = (u16, u16, Option<Wanted>);

/// The thread of a section, and what the node of this number does there.
fn step(rt: &impl Abort, scheme: &Scheme, section: u16, node: u16) -> (u16, Label) {
    assert!(rt; section < scheme.program().section_count());
    assert!(rt; (section as usize) < scheme.graph().section_count());
    let flow = scheme.graph().section(section);
    assert!(rt; node < flow.exit());
    (scheme.program().section(section).thread, flow.action(node))
}

/// The locks, in whatever order.
fn are_these(rt: &impl Abort, found: &[Lock], expected: &[Lock]) {
    assert_eq!(rt; found.len(), expected.len());
    for lock in expected {
        assert!(rt; found.contains(lock));
    }
}

/// Over a node of section 0 the second locks are needed for the first.
fn carry(
    rt: &(impl Abort + AllocGlobal),
    scheme: &Scheme,
    node: u16,
    after: Wanted,
    before: &[Wanted],
) -> Result<(), Fail> {
    let (thread, label) = step(rt, scheme, 0, node);
    let after = lock(rt, after)?;
    let found = scheme.rewrite(rt.alloc(), thread, label, &after)?;
    are_these(rt, found.as_slice(), locks(rt, before)?.as_slice());
    Ok(())
}

/// The scheme carries locks back so.
fn carry_all(
    rt: &(impl Abort + AllocGlobal),
    scheme: &Scheme,
    rows: &[Carried<'_>],
) -> Result<(), Fail> {
    for (node, after, before) in rows {
        carry(rt, scheme, *node, *after, before)?;
    }
    Ok(())
}

/// The program carries locks back so.
fn carries(
    rt: &(impl Abort + AllocGlobal),
    text: &[u8],
    k: u16,
    rows: &[Carried<'_>],
) -> Result<(), Fail> {
    carry_all(rt, &scheme(rt.alloc(), text, k)?, rows)
}

/// This lock is needed, or none.
fn is_needed(
    rt: &(impl Abort + AllocGlobal),
    found: &Option<Lock>,
    wanted: Option<Wanted>,
) -> Result<(), Fail> {
    match (found, wanted) {
        (None, None) => Ok(()),
        (Some(found), Some(wanted)) => {
            assert!(rt; *found == lock(rt, wanted)?);
            Ok(())
        }
        _ => Err(Fail::from("one lock is needed, or none")),
    }
}

/// A node needs this lock of itself.
fn need(
    rt: &(impl Abort + AllocGlobal),
    scheme: &Scheme,
    section: u16,
    node: u16,
    wanted: Option<Wanted>,
) -> Result<(), Fail> {
    let (thread, label) = step(rt, scheme, section, node);
    is_needed(rt, &scheme.generate(rt.alloc(), thread, label), wanted)
}

/// The nodes need these locks of themselves.
fn need_all(rt: &(impl Abort + AllocGlobal), scheme: &Scheme, rows: &[Needed]) -> Result<(), Fail> {
    for (section, node, wanted) in rows {
        need(rt, scheme, *section, *node, *wanted)?;
    }
    Ok(())
}

/// The nodes of the program need these locks of themselves.
fn needs(rt: &(impl Abort + AllocGlobal), text: &[u8], rows: &[Needed]) -> Result<(), Fail> {
    need_all(rt, &scheme(rt.alloc(), text, 2)?, rows)
}

/// The variables of the programs.
const A: Variable = Global(0);

const X: Variable = Local(0, 0);

const Y: Variable = Local(0, 1);

const Z: Variable = Local(0, 2);

const W: Variable = Local(0, 3);

/// `x` may denote a and the new object, which are class 0, and `y` and `a.next` a alone.
const RING: &[u8] = b"record Node { int val; Node next; } global Node a; \
thread t { Node x; Node y; int v; y = a; atomic { x = y; x = a; x = null; y = x.next; \
a.next = a; v = x.val; x = new Node; v = v + 1; print v; while (v < 2) { } } }";

/// A program, how many fields a path of it may have, and what is carried back in it.
type Program<'a> = (&'a [u8], u16, &'a [Carried<'a>]);

/// What is needed before nodes of programs.
const CARRIED: &[Program<'static>] = &[
    (
        SHARED,
        2,
        &[
            // A store to what may be one.
            (0, At(Y, 1, Write), &[At(Y, 1, Write), At(Z, 0, Write)]),
            (0, At(X, 1, Write), &[At(Z, 0, Write)]),
            (0, At(Y, 0, Read), &[At(Y, 0, Read)]),
            // A load. Nothing is stored to `c.next`: `w.next` and `y.next.next` are always null.
            (1, At(W, 0, Write), &[At(Y, 1, Write)]),
            (1, At(W, 1, Write), &[]),
            (1, At(Y, 1, Read), &[At(Y, 1, Read)]),
        ],
    ),
    // A load where no path has a field.
    (SHARED, 0, &[(1, At(W, 0, Write), &[All(1, Right::Write)])]),
    (
        RING,
        2,
        &[
            // Assignments.
            (0, At(X, 1, Write), &[At(Y, 1, Write)]),
            (0, At(Y, 1, Write), &[At(Y, 1, Write)]),
            (1, At(X, 0, Read), &[At(A, 0, Read)]),
            (2, At(X, 1, Write), &[]),
            (2, At(Y, 0, Read), &[At(Y, 0, Read)]),
            (6, At(X, 0, Write), &[]),
            (6, At(A, 0, Write), &[At(A, 0, Write)]),
            // A long path.
            (3, At(Y, 1, Read), &[At(X, 2, Read)]),
            (3, At(Y, 2, Read), &[All(0, Right::Read)]),
            (3, All(0, Right::Read), &[All(0, Right::Read)]),
            // After `a.next = a` the path `a.next.next` is `a.next`, and that is a.
            (4, At(A, 1, Read), &[At(A, 0, Read)]),
            (4, At(A, 2, Read), &[At(A, 0, Read)]),
            (4, At(X, 2, Read), &[At(X, 2, Read), At(A, 0, Read)]),
            // What touches no object.
            (5, At(X, 1, Write), &[At(X, 1, Write)]),
            (7, At(X, 1, Write), &[At(X, 1, Write)]),
            (8, At(X, 1, Write), &[At(X, 1, Write)]),
            (9, At(X, 1, Write), &[At(X, 1, Write)]),
        ],
    ),
    // A longer path.
    (RING, 3, &[(3, At(Y, 2, Write), &[At(X, 3, Write)])]),
];

#[test]
fn locks_are_carried_back(rt: HostRuntime) -> Result<(), Fail> {
    for (text, k, rows) in CARRIED {
        carries(&rt, text, *k, rows)?;
    }
    Ok(())
}

/// One global guards all cells, and another guards nothing.
const GUARDED: &[u8] = b"record Lock { int n; } record Cell protected_by g { int val; } \
global Lock h; global Lock g; global Cell c; \
thread t { Cell x; int v; atomic { x = new Cell; c.val = 1; v = x.val; h.n = v; } }";

/// What nodes of programs need of themselves.
const NEEDED: &[(&[u8], &[Needed])] = &[
    // What touches no object.
    (
        RING,
        &[
            (0, 0, None),
            (0, 2, None),
            (0, 7, None),
            (0, 8, None),
            (0, 9, None),
        ],
    ),
    // Accesses.
    (
        LIST,
        &[
            (0, 0, Some(At(A, 0, Read))),
            (0, 2, Some(At(X, 0, Read))),
            (1, 0, Some(All(1, Right::Make))),
            (1, 1, Some(At(Local(1, 0), 0, Write))),
        ],
    ),
    // An access through null.
    (NULL, &[(0, 0, Some(At(Global(1), 0, Write))), (0, 2, None)]),
    // Hinted accesses: the second global is the guard.
    (
        GUARDED,
        &[
            (0, 0, Some(At(Global(1), 0, Write))),
            (0, 1, Some(At(Global(1), 0, Write))),
            (0, 2, Some(At(Global(1), 0, Read))),
            (0, 3, Some(At(A, 0, Write))),
        ],
    ),
];

#[test]
fn nodes_need_locks(rt: HostRuntime) -> Result<(), Fail> {
    for (text, rows) in NEEDED {
        needs(&rt, text, rows)?;
    }
    Ok(())
}
