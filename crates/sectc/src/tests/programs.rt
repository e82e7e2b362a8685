//! The programs over which the sweeps go.

pub(super) const EMPTY_SECTION: &str = "// A section that does nothing takes no lock.
// section 0: none
thread e { atomic { } }
";

pub(super) const ACCOUNT: &str =
    "// One thread adds to an account: the section reads and writes one object, and the lock to write it covers both.
// section 0: W a
record Acct { int bal; }
global Acct a;
thread p { int t; atomic { t = a.bal; t = t + 1; a.bal = t; } }
";

pub(super) const TWO_THREADS: &str =
    "// Two threads add to one account: both sections take the lock to write it, so no update is lost.
// section 0: W a
// section 1: W a
record Acct { int bal; }
global Acct a;
thread p { int t; atomic { t = a.bal; t = t + 1; a.bal = t; } }
thread q { int t; atomic { t = a.bal; t = t + 1; a.bal = t; } }
";

pub(super) const LOCAL_ONLY: &str =
    "// A thread without a section has no line: nobody else sees its locals, so they need no lock.
thread f { int x; x = 1; x = 2; }
";

pub(super) const TWO_NAMES: &str =
    "// Two locals refer to one object. Each path is locked for what is done through it: x is read, y is written.
// section 0: R x, W y
record Cell { int val; }
global Cell a;
thread t { Cell x; Cell y; int v; x = a; y = a;
  atomic { v = x.val; y.val = 3; } }
";

pub(super) const ONE_CLASS: &str =
    "// Two globals that one local may refer to are in one class; each section still locks one object, by its path.
// section 0: W x
// section 1: W b
record Acct { int bal; }
global Acct a; global Acct b;
thread p { Acct x; x = b; x = a; atomic { x.bal = 1; } }
thread q { atomic { b.bal = 2; } }
";

pub(super) const CHANGED_PATH: &str =
    "// The reader follows a reference and locks both objects on its way; the writer changes both objects.
// section 0: R head, R head.next
// section 1: W head, W two
record Node { int val; Node next; }
global Node head; global Node two;
thread r { Node p; int v; atomic { p = head.next; v = p.val; print v; } }
thread w { atomic { head.next = two; two.val = 7; } }
";

pub(super) const ALIASED_STORE: &str =
    "// x and y may be one object: after the store y.next may be z's object, so z is locked as y.next is.
// section 0: W x, R y, W y.next, W z
record Node { int val; Node next; }
global Node a; global Node b; global Node c;
thread t { Node x; Node y; Node z; Node w;
  x = a; y = b; z = c;
  if (1 == 2) { y = a; }
  atomic { x.next = z; w = y.next; w.val = 1; } }
";

pub(super) const LINKED_LIST: &str =
    "// One thread sums a list, another pushes to it. Past two fields a path becomes the lock on its class.
// section 0: R class 1, R head
// section 1: M class 1, W head
record Node { int val; Node next; }
global Node head;
thread sum { Node p; int v; int s;
  atomic { p = head.next;
    while (p != null) { v = p.val; s = s + v; p = p.next; }
    print s; } }
thread push { Node n; Node p; int v; v = 5;
  atomic { n = new Node; n.val = v; p = head.next; n.next = p; head.next = n; } }
";

pub(super) const WALK: &str =
    "// A loop along a list of two globals: p.next.next is always null and needs no lock.
// section 0: W a
// section 1: W a, R p, R p.next
// section 2: R q
record Node { int val; Node next; }
global Node a; global Node b;
thread s { Node p; int v;
  atomic { a.next = b; }
  p = a;
  atomic { while (p != null) { v = p.val; p = p.next; } a.val = 1; } }
thread r { Node q; int v; q = b; atomic { v = q.val; print v; } }
";

pub(super) const NULL_REFERENCE: &str =
    "// Nothing is ever stored to head.next, so p is always null, and the load through p needs no lock.
// section 0: R head, W b
// section 1: R b
record Node { int val; Node next; }
global Node head; global Node b;
thread s { Node p; int v; atomic { b.val = 4; p = head.next; v = p.val; } }
thread r { int v; atomic { v = b.val; print v; } }
";

pub(super) const NEVER_FILLED: &str =
    "// Nothing is ever stored to a field n: p and q are always null, and only the load from a needs a lock.
// section 0: R a
record Cell { int v; Cell n; }
global Cell a;
thread t { Cell p; Cell q; int i; atomic { p = a.n; q = p.n; i = q.v; } }
";

pub(super) const PROTECTED: &str =
    "// All objects of Cell are protected by the global g: its lock stands for theirs.
// section 0: W g
record Lock { int n; }
record Cell protected_by g { int val; Cell next; }
global Lock g; global Cell c; global Cell d;
thread t { int v; atomic { c.val = 1; v = d.val; } }
";

pub(super) const LOCKS_EVERYTHING: &str =
    "// A section marked `all` takes one lock that keeps every other section with locks out.
// section 0: W all
// section 1: W a
record Acct { int bal; }
global Acct a;
thread p { int t; atomic all { t = a.bal; } }
thread q { atomic { a.bal = 2; } }
";

pub(super) const PROCEDURE: &str =
    "// Two threads move money by one procedure: its statements stand for each call, so both accounts are locked.
// section 0: W a, W b
// section 1: W a, W b
record Acct { int bal; }
global Acct a; global Acct b;
proc move(Acct x, Acct y, int n) {
  int t;
  t = x.bal; t = t - n; x.bal = t;
  t = y.bal; t = t + n; y.bal = t; }
thread p { atomic { call move(a, b, 3); } }
thread q { atomic { call move(b, a, 1); } }
";

/// All of them.
pub(super) const PROGRAMS: &[&str] = &[
    EMPTY_SECTION,
    ACCOUNT,
    TWO_THREADS,
    LOCAL_ONLY,
    TWO_NAMES,
    ONE_CLASS,
    CHANGED_PATH,
    ALIASED_STORE,
    LINKED_LIST,
    WALK,
    NULL_REFERENCE,
    NEVER_FILLED,
    PROTECTED,
    LOCKS_EVERYTHING,
    PROCEDURE,
];
