//! Programs that several tests speak of, and what is made of a text.

use sect_front::parse;
use sect_names::{Scheme, scheme_of};
use sect_types::{Field, Program, check_types};
use std::alloc::{AllocError, Global};
use std::fmt::Display;
use std::test::Fail;

/// The program of a text.
pub fn program_of(alloc: Global, text: &[u8]) -> Result<Program, Fail> {
    Ok(check_types(alloc, parse(alloc, text)?)?)
}

/// The scheme of a text, for paths of at most `k` fields.
pub fn scheme(alloc: Global, text: &[u8], k: u16) -> Result<Scheme, Fail> {
    Ok(scheme_of(alloc, program_of(alloc, text)?, k)?)
}

/// A fault as it is printed.
pub fn printed(alloc: Global, fault: &impl Display) -> Result<String, AllocError> {
    Ok(format!(in alloc; "{fault}")?)
}

/// The field `next` of all programs here that have references.
pub const NEXT: Field = Field { of: 0, number: 1 };

/// A section that does nothing.
pub const EMPTY: &[u8] = b"thread e { atomic { } }";

/// A section that adds one to a field of a global.
pub const ADDING: &[u8] = b"record Acct { int bal; }\nglobal Acct a;\n\
thread p { int t; atomic { t = a.bal; t = t + 1; a.bal = t; } }\n";

/// Two sections that do so.
pub const TWO_ADDING: &[u8] = b"record Acct { int bal; }\nglobal Acct a;\n\
thread p { int t; atomic { t = a.bal; t = t + 1; a.bal = t; } }\n\
thread q { int t; atomic { t = a.bal; t = t + 1; a.bal = t; } }\n";

/// Two locals denote one object.
pub const ALIASED: &[u8] = b"record Cell { int val; } global Cell a; \
thread t { Cell x; Cell y; int v; x = a; y = a; atomic { v = x.val; y.val = 3; } }";

/// A section that locks everything, and one beside it that doesn't.
pub const EVERYTHING: &[u8] = b"record Acct { int bal; } global Acct a; \
thread p { int t; atomic all { t = a.bal; } } thread q { atomic { a.bal = 2; } }";

/// A list that one thread sums and another pushes to. The one global is class 0, and the one `new` class 1.
pub const LIST: &[u8] = b"record Node { int val; Node next; } global Node head; \
thread sum { Node p; int v; int s; atomic { p = head.next; \
while (p != null) { v = p.val; s = s + v; p = p.next; } print s; } } \
thread push { Node n; Node p; int v; v = 5; \
atomic { n = new Node; n.val = v; p = head.next; n.next = p; head.next = n; } }";

/// `x` may denote a, `y` a and b, `z` and `w` c; class 0 is a and b, class 1 is c. What `w.next` denotes is null.
pub const SHARED: &[u8] = b"record Node { int val; Node next; } \
global Node a; global Node b; global Node c; \
thread t { Node x; Node y; Node z; Node w; x = a; y = b; z = c; if (1 == 2) { y = a; } \
atomic { x.next = z; w = y.next; w.val = 1; } }";

/// A list of two globals, along which a local goes. `p` and `p.next` are of class 0, that of a and b; `p.next.next` has
/// no class.
pub const CHAIN: &[u8] = b"record Node { int val; Node next; } global Node a; global Node b; \
thread s { Node p; int v; atomic { a.next = b; } p = a; \
atomic { while (p != null) { v = p.val; p = p.next; } a.val = 1; } } \
thread r { Node q; int v; q = b; atomic { v = q.val; print v; } }";

/// Nothing is stored to `head.next`, so that `p` is always null.
pub const NULL: &[u8] = b"record Node { int val; Node next; } global Node head; global Node b; \
thread s { Node p; int v; atomic { b.val = 4; p = head.next; v = p.val; } } \
thread r { int v; atomic { v = b.val; print v; } }";

/// Each thread sees its own globals, which no local may hold both of.
pub const APART: &[u8] = b"record Node { int val; Node next; } global Node head; global Node two; \
thread r { Node p; int v; atomic { p = head.next; v = p.val; print v; } } \
thread w { atomic { head.next = two; two.val = 7; } }";

/// Both globals are held by one local, one after the other.
pub const ACCOUNTS: &[u8] = b"record Acct { int bal; } global Acct a; global Acct b; \
thread p { Acct x; x = b; x = a; atomic { x.bal = 1; } } \
thread q { atomic { b.bal = 2; } }";

/// One global guards all cells.
pub const GUARDED: &[u8] =
    b"record Lock { int n; } record Cell protected_by g { int val; Cell next; } \
global Lock g; global Cell c; global Cell d; \
thread t { int v; atomic { c.val = 1; v = d.val; } }";

/// A cell is to guard the cells.
pub const GUARDED_BY_A_CELL: &[u8] = b"record Lock { int n; } \
record Cell protected_by c { int val; Cell next; } \
global Lock g; global Cell c; global Cell d; \
thread t { int v; atomic { c.val = 1; v = d.val; } }";

/// What is to guard the cells is no global.
pub const GUARDED_BY_NOTHING: &[u8] = b"record Lock { int n; } \
record Cell protected_by h { int val; Cell next; } \
global Lock g; global Cell c; global Cell d; \
thread t { int v; atomic { c.val = 1; v = d.val; } }";

/// Two globals are to guard the cells.
pub const GUARDED_TWICE: &[u8] = b"record Lock { int n; } \
record Cell protected_by g protected_by h { int val; } global Lock g; global Lock h; \
thread t { Cell x; atomic { x = new Cell; x.val = 1; } }";
