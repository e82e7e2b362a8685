//! Small programs with the locks of their sections.

use crate::programs::{CHAIN, EVERYTHING, LIST, SHARED, scheme};
use crate::wanted::{Wanted, locks};
use Effect::{Read, Write};
use Variable::{Global, Local};
use Wanted::{All, At};
use sect_infer::{Locks, infer};
use sect_names::{Effect, Right, Scheme};
use sect_points::Variable;
use std::process::Abort;
use std::test::Fail;

/// A loop whose body ends with a branch.
const TURNS: &[u8] = b"record A { int f; } global A a; global A b; \
thread t { int x; atomic { while (x < 3) { x = a.f; if (x == 1) { b.f = x; } } } }";

/// Either branch has a global of its own.
const EITHER: &[u8] = b"record A { int f; } global A a; global A b; \
thread t { int x; atomic { if (x == 1) { x = a.f; } else { b.f = x; } x = 2; } }";

/// The locks of a section.
fn sets(rt: &(impl Abort + AllocGlobal), scheme: &Scheme, section: u16) -> Result<Locks, Fail> {
    assert!(rt; section < scheme.program().section_count());
    Ok(infer(rt.alloc(), scheme, section)?)
}

/// These are the locks at the entry, in this order.
fn takes(rt: &(impl Abort + AllocGlobal), sets: &Locks, wanted: &[Wanted]) -> Result<(), Fail> {
    let wanted = locks(rt, wanted)?;
    assert!(rt; sets.entry() == wanted.as_slice());
    Ok(())
}

/// These are the locks of a node, in this order.
fn needs(
    rt: &(impl Abort + AllocGlobal),
    sets: &Locks,
    node: u16,
    wanted: &[Wanted],
) -> Result<(), Fail> {
    assert!(rt; (node as usize) < sets.node_count());
    let found = sets.at(rt.alloc(), node)?;
    let wanted = locks(rt, wanted)?;
    assert!(rt; found.as_slice() == wanted.as_slice(), "node {node}");
    Ok(())
}

/// What is needed from some nodes on.
fn needs_all(
    rt: &(impl Abort + AllocGlobal),
    sets: &Locks,
    nodes: &[(u16, &[Wanted])],
) -> Result<(), Fail> {
    for (node, wanted) in nodes {
        needs(rt, sets, *node, wanted)?;
    }
    Ok(())
}

/// These are the locks: of so many nodes beside the exit, at the entry, and at some of the nodes.
fn are_found(
    rt: &(impl Abort + AllocGlobal),
    found: &Locks,
    count: u16,
    entry: &[Wanted],
    nodes: &[(u16, &[Wanted])],
) -> Result<(), Fail> {
    assert_eq!(rt; found.node_count(), usize::from(count) + 1);
    takes(rt, found, entry)?;
    needs_all(rt, found, nodes)
}

/// A section of a scheme has so many nodes beside its exit, takes these locks at its entry, and needs those from some
/// of its nodes on.
fn has_sets(
    rt: &(impl Abort + AllocGlobal),
    scheme: &Scheme,
    section: u16,
    count: u16,
    entry: &[Wanted],
    nodes: &[(u16, &[Wanted])],
) -> Result<(), Fail> {
    let found = sets(rt, scheme, section)?;
    are_found(rt, &found, count, entry, nodes)
}

/// A section of a text has so many nodes, takes these locks and needs those.
fn holds(
    rt: &(impl Abort + AllocGlobal),
    (text, k, section): (&[u8], u16, u16),
    count: u16,
    entry: &[Wanted],
    nodes: &[(u16, &[Wanted])],
) -> Result<(), Fail> {
    has_sets(
        rt,
        &scheme(rt.alloc(), text, k)?,
        section,
        count,
        entry,
        nodes,
    )
}

/// The variables of the programs.
const HEAD: Variable = Global(0);

const X: Variable = Local(0, 0);

const Y: Variable = Local(0, 1);

const Z: Variable = Local(0, 2);

const W: Variable = Local(0, 3);

/// What is needed while the list is read from a local on: its class covers each path from there.
const WALK: &[Wanted] = &[All(1, Right::Read)];

/// The locks of a program whose paths may be one.
const MAY_BE_ONE: &[Wanted] = &[
    At(X, 0, Write),
    At(Y, 0, Read),
    At(Y, 1, Write),
    At(Z, 0, Write),
];

/// The locks of a list that ends.
const ENDS: &[Wanted] = &[At(HEAD, 0, Write), At(X, 0, Read), At(X, 1, Read)];

/// The locks of the two programs with branches.
const BOTH: &[Wanted] = &[At(HEAD, 0, Read), At(Global(1), 0, Write)];

/// The lock on everything.
const ALL: &[Wanted] = &[Wanted::Everything];

/// What is needed from some nodes on.
type Nodes<'a> = &'a [(u16, &'a [Wanted])];

/// A program, the most fields of a path and a section; how many nodes the section has beside its exit, the locks at its
/// entry, and those from some of its nodes on.
type Row<'a> = ((&'a [u8], u16, u16), u16, &'a [Wanted], Nodes<'a>);

/// Sections and their locks.
const SECTIONS: &[Row<'static>] = &[
    // A list is read.
    (
        (LIST, 2, 0),
        6,
        &[All(1, Right::Read), At(HEAD, 0, Read)],
        &[
            (0, &[All(1, Right::Read), At(HEAD, 0, Read)]),
            (1, WALK),
            (3, WALK),
            (4, WALK),
            (5, &[]),
        ],
    ),
    // An object is made.
    (
        (LIST, 2, 1),
        5,
        &[All(1, Right::Make), At(HEAD, 0, Write)],
        &[
            (0, &[All(1, Right::Make), At(HEAD, 0, Write)]),
            (2, &[At(HEAD, 0, Write), At(Local(1, 0), 0, Write)]),
            (3, &[At(HEAD, 0, Write), At(Local(1, 0), 0, Write)]),
            (4, &[At(HEAD, 0, Write)]),
        ],
    ),
    // Paths that may be one, and the same by their class.
    (
        (SHARED, 2, 0),
        3,
        MAY_BE_ONE,
        &[
            (0, MAY_BE_ONE),
            (1, &[At(Y, 0, Read), At(Y, 1, Write)]),
            (2, &[At(W, 0, Write)]),
        ],
    ),
    (
        (SHARED, 0, 0),
        3,
        &[All(1, Right::Write), At(X, 0, Write), At(Y, 0, Read)],
        &[],
    ),
    // A list that ends, the sections beside it, and the list by its class.
    (
        (CHAIN, 2, 1),
        4,
        ENDS,
        &[(0, ENDS), (2, ENDS), (3, &[At(HEAD, 0, Write)])],
    ),
    ((CHAIN, 2, 0), 1, &[At(HEAD, 0, Write)], &[]),
    ((CHAIN, 2, 2), 2, &[At(Local(1, 0), 0, Read)], &[]),
    (
        (CHAIN, 0, 1),
        4,
        &[All(0, Right::Read), At(HEAD, 0, Write)],
        &[(2, &[All(0, Right::Read), At(HEAD, 0, Write)])],
    ),
    // Around a loop, and along either branch.
    ((TURNS, 2, 0), 4, BOTH, &[(0, BOTH), (2, BOTH), (3, BOTH)]),
    (
        (EITHER, 2, 0),
        4,
        BOTH,
        &[
            (0, BOTH),
            (1, &[At(HEAD, 0, Read)]),
            (2, &[At(Global(1), 0, Write)]),
            (3, &[]),
        ],
    ),
    // A section locks everything, another one beside it does not, and one locks everything and does nothing.
    ((EVERYTHING, 2, 0), 1, ALL, &[(0, ALL), (1, ALL)]),
    ((EVERYTHING, 2, 1), 1, &[At(HEAD, 0, Write)], &[(1, &[])]),
    ((b"thread e { atomic all { } }", 2, 0), 0, ALL, &[(0, ALL)]),
    // An empty section takes nothing.
    ((b"thread e { atomic { } }", 2, 0), 0, &[], &[]),
];

#[test]
fn sections_take_and_need_locks(rt: HostRuntime) -> Result<(), Fail> {
    for (section, count, entry, nodes) in SECTIONS {
        holds(&rt, *section, *count, entry, nodes)?;
    }
    Ok(())
}
