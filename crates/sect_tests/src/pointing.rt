//! Points-to sets of small programs.

use crate::programs::program_of;
use Holder::{Local, Slot};
use sect_points::{Holder, PointsTo, points_to};
use std::process::Abort;
use std::test::Fail;

/// A local or a field of a site, and which of the first three sites it holds.
type Held = (Holder, [bool; 3]);

/// In these sets each holds just those.
fn are_held(rt: &impl Abort, sets: &PointsTo, rows: &[Held]) {
    for (place, (holder, sites)) in rows.iter().enumerate() {
        let found = [
            sets.has(*holder, 0),
            sets.has(*holder, 1),
            sets.has(*holder, 2),
        ];
        assert!(rt; found == *sites, "row {place}");
    }
}

/// In the program of the text each holds just those.
fn holds(rt: &(impl Abort + AllocGlobal), text: &[u8], rows: &[Held]) -> Result<(), Fail> {
    let sets = points_to(rt.alloc(), &program_of(rt.alloc(), text)?)?;
    are_held(rt, &sets, rows);
    Ok(())
}

/// Programs, and what locals and fields hold in them.
const HELD: &[(&[u8], &[Held])] = &[
    // Objects flow through fields. Site 0 is the global, and site 1 the `new`.
    (
        b"record N { int v; N next; } global N head; \
        thread t { N p; N q; int v; atomic { p = new N; head.next = p; q = head.next; v = q.v; } } \
        thread u { N p; atomic { p = null; } }",
        &[
            (Local(0, 0), [false, true, false]),
            (Slot(0, 1), [false, true, false]),
            (Local(0, 1), [false, true, false]),
            (Slot(1, 1), [false, false, false]),
            (Local(0, 2), [false, false, false]),
            (Local(1, 0), [false, false, false]),
            (Local(2, 0), [false, false, false]),
        ],
    ),
    // Order does not count: what comes last reaches what stands first.
    (
        b"record N { N next; } global N a; global N b; \
        thread t { N p; N q; N r; r = q; q = p; p = a; atomic { b.next = p; } }",
        &[
            (Local(0, 2), [true, false, false]),
            (Slot(1, 0), [true, false, false]),
            (Slot(0, 0), [false, false, false]),
        ],
    ),
    // Blocks count: what is made in a branch, in a loop and in a section.
    (
        b"record N { N next; } global N a; \
        thread t { N p; atomic { if (a == a) { p = new N; } else { while (p != p) { p = new N; } } } }",
        &[(Local(0, 0), [false, true, true])],
    ),
];

#[test]
fn objects_flow(rt: HostRuntime) -> Result<(), Fail> {
    for (text, rows) in HELD {
        holds(&rt, text, rows)?;
    }
    Ok(())
}
