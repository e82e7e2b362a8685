//! Classes of sites and of paths of small programs.

use crate::programs::{ACCOUNTS, APART, CHAIN, NEXT, NULL, SHARED, program_of};
use Variable::{Global, Local};
use sect_points::{Classes, Variable, class_of_path, classes, points_to};
use std::process::Abort;
use std::test::Fail;

/// The classes of the sites 0 and 1, and how many classes there are.
type Parts = (u16, u16, u16);

/// A variable, how many times the field `next` follows it, and the class of that path.
type Leads = (Variable, usize, Option<u16>);

/// The classes of a program.
fn classes_of(rt: &impl AllocGlobal, text: &[u8]) -> Result<Classes, Fail> {
    let program = program_of(rt.alloc(), text)?;
    let sets = points_to(rt.alloc(), &program)?;
    Ok(classes(rt.alloc(), sets)?)
}

/// The sites are in these classes.
fn are_parted(rt: &impl Abort, found: &Classes, (first, second, count): Parts) {
    found.parted();
    assert!(rt; found.points().sites() >= 2);
    assert_eq!(rt; found.class_of_site(0), first);
    assert_eq!(rt; found.class_of_site(1), second);
    assert_eq!(rt; found.class_count(), count);
}

/// The paths lead to these classes.
fn lead(rt: &impl Abort, found: &Classes, rows: &[Leads]) {
    let path = [NEXT, NEXT, NEXT];
    for (place, (base, fields, class)) in rows.iter().enumerate() {
        assert!(rt; *fields <= 3);
        assert!(rt;
            class_of_path(found, *base, &path[..*fields]) == *class,
            "row {place}"
        );
    }
}

/// The sites and paths of a program are in these classes.
fn parts(
    rt: &(impl Abort + AllocGlobal),
    text: &[u8],
    sites: Parts,
    rows: &[Leads],
) -> Result<(), Fail> {
    let found = classes_of(rt, text)?;
    are_parted(rt, &found, sites);
    lead(rt, &found, rows);
    Ok(())
}

/// The heads of two lists are in one class, so are what their fields hold, and so on: the rule on fields alone brings
/// the ends together. The sites go a, b (the heads), then e, d, c, f: a.next = c, b.next = d, c.next = e, d.next = f.
const LISTS: &[u8] = b"record Node { int val; Node next; } global Node a; global Node b; \
global Node e; global Node d; global Node c; global Node f; global Node g; \
thread t { Node x; x = a; x = b; \
atomic { a.next = c; b.next = d; c.next = e; d.next = f; } }";

/// Programs, the classes of their sites 0 and 1 with how many classes there are, and where paths lead.
const PARTED: &[(&[u8], Parts, &[Leads])] = &[
    // Sites that one local may hold are together.
    (
        SHARED,
        (0, 0, 2),
        &[
            (Local(0, 1), 0, Some(0)),
            (Local(0, 2), 0, Some(1)),
            (Local(0, 0), 1, Some(1)),
            (Local(0, 1), 1, Some(1)),
            (Local(0, 1), 2, None),
        ],
    ),
    // Sites apart have classes of their own.
    (
        APART,
        (0, 1, 2),
        &[
            (Global(0), 0, Some(0)),
            (Global(0), 1, Some(1)),
            (Local(0, 0), 0, Some(1)),
            (Global(1), 1, None),
            (Global(2), 0, None),
            (Local(1, 0), 0, None),
        ],
    ),
    // A path that is null has no class.
    (
        NULL,
        (0, 1, 2),
        &[
            (Local(0, 0), 0, None),
            (Local(0, 0), 1, None),
            (Global(1), 0, Some(1)),
        ],
    ),
    // A class has paths that end.
    (
        CHAIN,
        (0, 0, 1),
        &[
            (Local(0, 0), 0, Some(0)),
            (Local(0, 0), 1, Some(0)),
            (Local(0, 0), 2, None),
            (Local(1, 0), 0, Some(0)),
        ],
    ),
    // One class by copies.
    (
        ACCOUNTS,
        (0, 0, 1),
        &[(Local(0, 0), 0, Some(0)), (Global(1), 0, Some(0))],
    ),
    // The fields of one class are together.
    (
        LISTS,
        (0, 0, 4),
        &[
            (Global(2), 0, Some(1)),
            (Global(3), 0, Some(2)),
            (Global(4), 0, Some(2)),
            (Global(5), 0, Some(1)),
            (Global(6), 0, Some(3)),
            (Local(0, 0), 2, Some(1)),
            (Local(0, 0), 3, None),
        ],
    ),
];

#[test]
fn sites_and_paths_have_classes(rt: HostRuntime) -> Result<(), Fail> {
    for (text, sites, rows) in PARTED {
        parts(&rt, text, *sites, rows)?;
    }
    Ok(())
}

#[test]
fn no_sites_no_classes(rt: HostRuntime) -> Result<(), Fail> {
    let found = classes_of(&rt, b"")?;
    assert_eq!(rt; found.class_count(), 0);
    lead(&rt, &found, &[(Global(0), 0, None)]);
    Ok(())
}
