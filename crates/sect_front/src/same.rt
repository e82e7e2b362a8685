//! When two trees are the same.

ghost use Rattle.std.specs.Prelude.{◌≡◌, ◌↔◌, IsTrue};
ghost use Rattle.sect_front.specs.Trees.{statement_of};

use crate::items::Items;
use crate::name::Name;
use crate::tree::{
    Block, Declarations, GlobalObject, Operand, Primitive, Procedure, Record, Statement, Test,
    Thread, Tree,
};

/// Whether two names are one.
fn same_name(left: Name, right: Name) -> bool
    ensures { IsTrue result ↔ (left ≡ right) }
{
    left == right
}

/// Whether two operands are the same.
fn same_operand(left: Operand, right: Operand) -> bool
    ensures { IsTrue result ↔ (left ≡ right) }
{
    left == right
}

/// Whether two tests are the same.
fn same_test(left: Test, right: Test) -> bool
    ensures { IsTrue result ↔ (left ≡ right) }
{
    same_operand(left.left, right.left)
        && left.comparison == right.comparison
        && same_operand(left.right, right.right)
}

/// Whether two statements without blocks are the same.
fn same_primitive(left: Primitive, right: Primitive) -> bool
    ensures { IsTrue result ↔ (left ≡ right) }
{
    match left {
        Primitive::Assign(x, v) => match right {
            Primitive::Assign(y, w) => x == y && same_operand(v, w),
            _ => false,
        },
        Primitive::Compute(x, v, o, a) => match right {
            Primitive::Compute(y, w, p, b) => {
                x == y && same_operand(v, w) && o == p && same_operand(a, b)
            }
            _ => false,
        },
        Primitive::New(x, r) => match right {
            Primitive::New(y, s) => x == y && r == s,
            _ => false,
        },
        Primitive::Load(x, a, f) => match right {
            Primitive::Load(y, b, g) => x == y && a == b && f == g,
            _ => false,
        },
        Primitive::Store(x, f, v) => match right {
            Primitive::Store(y, g, w) => x == y && f == g && same_operand(v, w),
            _ => false,
        },
        Primitive::Print(v) => match right {
            Primitive::Print(w) => same_operand(v, w),
            _ => false,
        },
    }
}

/// Whether two lists of arguments are the same.
fn same_operands(left: &Items<Operand>, right: &Items<Operand>) -> bool
    ensures { IsTrue result ↔ (left.now ≡ right.now) }
{
    left.as_slice() == right.as_slice()
}

/// Whether two statements are the same tree.
#[cycle(same)]
fn same_statement(left: &Statement, right: &Statement) -> bool
    ensures { IsTrue result ↔ (statement_of left.now ≡ statement_of right.now) }
{
    match (left, right) {
        (Statement::Primitive(a), Statement::Primitive(b)) => same_primitive(*a, *b),
        (Statement::If(t, a), Statement::If(u, b)) => same_test(*t, *u) && same_block(a, b),
        (Statement::IfElse(t, a, c), Statement::IfElse(u, b, d)) => {
            same_test(*t, *u) && same_block(a, b) && same_block(c, d)
        }
        (Statement::While(t, a), Statement::While(u, b)) => same_test(*t, *u) && same_block(a, b),
        (Statement::Atomic(l, a), Statement::Atomic(m, b)) => *l == *m && same_block(a, b),
        (Statement::Call(f, v), Statement::Call(g, w)) => same_name(*f, *g) && same_operands(v, w),
        _ => false,
    }
}

/// Whether two blocks are the same tree.
#[cycle(same)]
fn same_block(left: &Block, right: &Block) -> bool
    ensures { IsTrue result ↔ (left.now ≡ right.now) }
{
    let ours = left.as_slice();
    let theirs = right.as_slice();
    if ours.len() != theirs.len() {
        return false;
    }
    for place in 0..ours.len() {
        if !same_statement(&ours[place], &theirs[place]) {
            return false;
        }
    }
    true
}

/// Whether two lists of fields, parameters or locals are the same.
fn same_declarations(left: &Declarations, right: &Declarations) -> bool
    ensures { IsTrue result ↔ (left.now ≡ right.now) }
{
    left.as_slice() == right.as_slice()
}

/// Whether two lists of hints are the same.
fn same_hints(left: &Items<Name>, right: &Items<Name>) -> bool
    ensures { IsTrue result ↔ (left.now ≡ right.now) }
{
    left.as_slice() == right.as_slice()
}

/// Whether two records are the same.
fn same_record(left: &Record, right: &Record) -> bool
    ensures { IsTrue result ↔ (left.now ≡ right.now) }
{
    left.name == right.name
        && same_hints(&left.hints, &right.hints)
        && same_declarations(&left.fields, &right.fields)
}

/// Whether two procedures are the same.
fn same_procedure(left: &Procedure, right: &Procedure) -> bool
    ensures { IsTrue result ↔ (left.now ≡ right.now) }
{
    left.name == right.name
        && same_declarations(&left.parameters, &right.parameters)
        && same_declarations(&left.locals, &right.locals)
        && same_block(&left.body, &right.body)
}

/// Whether two threads are the same.
fn same_thread(left: &Thread, right: &Thread) -> bool
    ensures { IsTrue result ↔ (left.now ≡ right.now) }
{
    left.name == right.name
        && same_declarations(&left.locals, &right.locals)
        && same_block(&left.body, &right.body)
}

/// Whether two lists of records are the same.
fn same_records(left: &[Record], right: &[Record]) -> bool
    ensures { IsTrue result ↔ (left.now ≡ right.now) }
{
    if left.len() != right.len() {
        return false;
    }
    for place in 0..left.len() {
        if !same_record(&left[place], &right[place]) {
            return false;
        }
    }
    true
}

/// Whether two lists of procedures are the same.
fn same_procedures(left: &[Procedure], right: &[Procedure]) -> bool
    ensures { IsTrue result ↔ (left.now ≡ right.now) }
{
    if left.len() != right.len() {
        return false;
    }
    for place in 0..left.len() {
        if !same_procedure(&left[place], &right[place]) {
            return false;
        }
    }
    true
}

/// Whether two lists of threads are the same.
fn same_threads(left: &[Thread], right: &[Thread]) -> bool
    ensures { IsTrue result ↔ (left.now ≡ right.now) }
{
    if left.len() != right.len() {
        return false;
    }
    for place in 0..left.len() {
        if !same_thread(&left[place], &right[place]) {
            return false;
        }
    }
    true
}

/// Whether two lists of globals are the same.
fn same_globals(left: &[GlobalObject], right: &[GlobalObject]) -> bool
    ensures { IsTrue result ↔ (left.now ≡ right.now) }
{
    left == right
}

/// Whether two source texts have the same tree: they differ in blanks, lines and comments at most.
pub fn is_same(left: &Tree, right: &Tree) -> bool
    ensures { IsTrue result ↔ (left.now ≡ right.now) }
{
    same_records(left.records(), right.records())
        && same_globals(left.globals(), right.globals())
        && same_procedures(left.procedures(), right.procedures())
        && same_threads(left.threads(), right.threads())
}
