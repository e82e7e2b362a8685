//! The names of a tree, in text order.

ghost use Rattle.std.specs.Prelude.{◌≡◌, ◌+◌, ◌∷◌, IfOk, OnOk, length, filter, nat_eq};
ghost use Rattle.sect_front.specs.Trees.{statement_of};
ghost use Rattle.sect_places.specs.ItemCounts.{items_in_statement, items_in_block, items_in_records};
ghost use Rattle.sect_places.specs.ItemCounts.{items_in_procedure, items_in_procedures, items_in_thread};
ghost use Rattle.sect_places.specs.NameUses.{used, kind_uses, operand_uses, primitive_uses, test_uses, argument_uses};
ghost use Rattle.sect_places.specs.NameUses.{statement_uses, block_uses, declarations_uses, hints_uses, records_uses};
ghost use Rattle.sect_places.specs.NameUses.{globals_uses, procedure_uses, procedures_uses, thread_uses, threads_uses};
ghost use Rattle.sect_places.specs.NameUses.{name_uses as name_uses_by};
ghost use Rattle.sect_places.specs.steps.Wanting.{Passes, behind, nothing_kept};

use crate::item_counts::past;
use crate::name_use::{NameUse, Role, Thing};
use crate::wish::Wish;
use sect_front::{
    Block, Declaration, GlobalObject, Kind, Name, Operand, Primitive, Procedure, Record, Statement,
    Test, Thread, Tree,
};
use std::alloc::{AllocError, Global};
use std::marker::Model;

/// The names of a tree that are wanted, in text order.
#[derive(Drop)]
pub struct Kept {
    wish: Wish,
    /// How many names have gone by.
    pub passed: usize,
    /// The number of each name that is kept, among all names.
    pub numbers: Vec<usize>,
    pub uses: Vec<NameUse>,
}

impl Model for Kept {
    ghost use Rattle.sect_places.specs.steps.Wanting.{KeptView};

    ghost Value = { KeptView };

    ghost view = { λ k. record {
      wish = k.wish;
      passed = k.passed;
      numbers = k.numbers.items;
      uses = k.uses.items;
    } };
}

/// Has a name go by.
#[tactic(auto, unfolding(crate::specs::steps::Wanting::behind))]
fn put(out: &mut Kept, scope: usize, item: usize, role: Role, name: Name) -> Result<(), AllocError>
    ensures { OnOk result (Passes out.old out.new (λ w. used scope item role name ∷ w)) }
{
    if out.wish.takes(item, role, &name) {
        out.numbers.push(out.passed)?;
        out.uses.push(NameUse {
            scope,
            item,
            role,
            name,
        })?;
    }
    out.passed = past(out.passed, 1)?;
    Ok(())
}

fn put_kind(out: &mut Kept, scope: usize, item: usize, kind: &Kind) -> Result<(), AllocError>
    ensures { OnOk result (Passes out.old out.new (kind_uses scope item kind.now)) }
{
    match kind {
        Kind::Int => Ok(()),
        Kind::Record(name) => put(out, scope, item, Role::Type, *name),
    }
}

fn put_operand(
    out: &mut Kept,
    scope: usize,
    item: usize,
    role: Role,
    operand: &Operand,
) -> Result<(), AllocError>
    ensures { OnOk result (Passes out.old out.new (operand_uses scope item role operand.now)) }
{
    match operand {
        Operand::Number(_) => Ok(()),
        Operand::Null => Ok(()),
        Operand::Name(name) => put(out, scope, item, role, *name),
    }
}

fn put_primitive(
    out: &mut Kept,
    scope: usize,
    item: usize,
    primitive: &Primitive,
) -> Result<(), AllocError>
    ensures { OnOk result (Passes out.old out.new (primitive_uses scope item primitive.now)) }
{
    match primitive {
        Primitive::Assign(x, v) => {
            put(out, scope, item, Role::Target, *x)?;
            put_operand(out, scope, item, Role::Operand(0), v)
        }
        Primitive::Compute(x, v, _, w) => {
            put(out, scope, item, Role::Target, *x)?;
            put_operand(out, scope, item, Role::Operand(0), v)?;
            put_operand(out, scope, item, Role::Operand(1), w)
        }
        Primitive::New(x, declared) => {
            put(out, scope, item, Role::Target, *x)?;
            put(out, scope, item, Role::Type, *declared)
        }
        Primitive::Load(x, y, f) => {
            put(out, scope, item, Role::Target, *x)?;
            put(out, scope, item, Role::Base, *y)?;
            put(out, scope, item, Role::Field, *f)
        }
        Primitive::Store(y, f, v) => {
            put(out, scope, item, Role::Base, *y)?;
            put(out, scope, item, Role::Field, *f)?;
            put_operand(out, scope, item, Role::Operand(0), v)
        }
        Primitive::Print(v) => put_operand(out, scope, item, Role::Operand(0), v),
    }
}

fn put_test(out: &mut Kept, scope: usize, item: usize, test: &Test) -> Result<(), AllocError>
    ensures { OnOk result (Passes out.old out.new (test_uses scope item test.now)) }
{
    put_operand(out, scope, item, Role::Operand(0), &test.left)?;
    put_operand(out, scope, item, Role::Operand(1), &test.right)
}

fn put_arguments(
    out: &mut Kept,
    scope: usize,
    item: usize,
    arguments: &[Operand],
) -> Result<(), AllocError>
    ensures { OnOk result (Passes out.old out.new (argument_uses scope item 0 arguments.now)) }
{
    for number in 0..arguments.len() {
        put_operand(out, scope, item, Role::Operand(number), &arguments[number])?;
    }
    Ok(())
}

/// Adds the names of a statement that is this item, and gives the item behind it.
#[cycle(uses)]
fn put_statement(
    out: &mut Kept,
    scope: usize,
    item: usize,
    statement: &Statement,
) -> Result<usize, AllocError>
    ensures next { IfOk result (λ n. n ≡ item + items_in_statement (statement_of statement.now)) }
    ensures uses { OnOk result (Passes out.old out.new
        (statement_uses scope item (statement_of statement.now))) }
{
    match statement {
        Statement::Primitive(primitive) => {
            put_primitive(out, scope, item, primitive)?;
            past(item, 1)
        }
        Statement::If(test, a) => {
            put_test(out, scope, item, test)?;
            put_block(out, scope, past(item, 1)?, a)
        }
        Statement::IfElse(test, a, b) => {
            put_test(out, scope, item, test)?;
            let other = put_block(out, scope, past(item, 1)?, a)?;
            put_block(out, scope, other, b)
        }
        Statement::While(test, a) => {
            put_test(out, scope, item, test)?;
            put_block(out, scope, past(item, 1)?, a)
        }
        Statement::Atomic(_, a) => put_block(out, scope, past(item, 1)?, a),
        Statement::Call(name, arguments) => {
            put(out, scope, item, Role::Procedure, *name)?;
            put_arguments(out, scope, item, arguments.as_slice())?;
            past(item, 1)
        }
    }
}

#[cycle(uses)]
fn put_block(out: &mut Kept, scope: usize, item: usize, block: &Block) -> Result<usize, AllocError>
    ensures next { IfOk result (λ n. n ≡ item + items_in_block block.now) }
    ensures uses { OnOk result (Passes out.old out.new (block_uses scope item block.now)) }
{
    let mut next = item;
    for statement in block.as_slice() {
        next = put_statement(out, scope, next, statement)?;
    }
    Ok(next)
}

/// Adds the names of fields, parameters or locals, of which the first is this item.
fn put_declarations(
    out: &mut Kept,
    scope: usize,
    item: usize,
    thing: Thing,
    list: &[Declaration],
) -> Result<usize, AllocError>
    ensures next { IfOk result (λ n. n ≡ item + length list.now) }
    ensures uses { OnOk result (Passes out.old out.new (declarations_uses scope item thing list.now)) }
{
    let mut next = item;
    for declared in list {
        put_kind(out, scope, next, &declared.kind)?;
        put(out, scope, next, Role::Declared(thing), declared.name)?;
        next = past(next, 1)?;
    }
    Ok(next)
}

fn put_hints(out: &mut Kept, item: usize, hints: &[Name]) -> Result<(), AllocError>
    ensures { OnOk result (Passes out.old out.new (hints_uses item hints.now)) }
{
    for name in hints {
        put(out, item, item, Role::Guard, *name)?;
    }
    Ok(())
}

fn put_records(out: &mut Kept, item: usize, records: &[Record]) -> Result<usize, AllocError>
    ensures next { IfOk result (λ n. n ≡ item + items_in_records records.now) }
    ensures uses { OnOk result (Passes out.old out.new (records_uses item records.now)) }
{
    let mut next = item;
    for declared in records {
        put(
            out,
            next,
            next,
            Role::Declared(Thing::Record),
            declared.name,
        )?;
        put_hints(out, next, declared.hints.as_slice())?;
        next = put_declarations(
            out,
            next,
            past(next, 1)?,
            Thing::Field,
            declared.fields.as_slice(),
        )?;
    }
    Ok(next)
}

fn put_globals(out: &mut Kept, item: usize, globals: &[GlobalObject]) -> Result<usize, AllocError>
    ensures next { IfOk result (λ n. n ≡ item + length globals.now) }
    ensures uses { OnOk result (Passes out.old out.new (globals_uses item globals.now)) }
{
    let mut next = item;
    for global in globals {
        put(out, next, next, Role::Type, global.of)?;
        put(out, next, next, Role::Declared(Thing::Global), global.name)?;
        next = past(next, 1)?;
    }
    Ok(next)
}

fn put_procedure(out: &mut Kept, item: usize, procedure: &Procedure) -> Result<usize, AllocError>
    ensures next { IfOk result (λ n. n ≡ item + items_in_procedure procedure.now) }
    ensures uses { OnOk result (Passes out.old out.new (procedure_uses item procedure.now)) }
{
    put(
        out,
        item,
        item,
        Role::Declared(Thing::Procedure),
        procedure.name,
    )?;
    let locals = put_declarations(
        out,
        item,
        past(item, 1)?,
        Thing::Local,
        procedure.parameters.as_slice(),
    )?;
    let body = put_declarations(out, item, locals, Thing::Local, procedure.locals.as_slice())?;
    put_block(out, item, body, &procedure.body)
}

fn put_procedures(
    out: &mut Kept,
    item: usize,
    procedures: &[Procedure],
) -> Result<usize, AllocError>
    ensures next { IfOk result (λ n. n ≡ item + items_in_procedures procedures.now) }
    ensures uses { OnOk result (Passes out.old out.new (procedures_uses item procedures.now)) }
{
    let mut next = item;
    for procedure in procedures {
        next = put_procedure(out, next, procedure)?;
    }
    Ok(next)
}

fn put_thread(out: &mut Kept, item: usize, thread: &Thread) -> Result<usize, AllocError>
    ensures next { IfOk result (λ n. n ≡ item + items_in_thread thread.now) }
    ensures uses { OnOk result (Passes out.old out.new (thread_uses item thread.now)) }
{
    put(out, item, item, Role::Declared(Thing::Thread), thread.name)?;
    let body = put_declarations(
        out,
        item,
        past(item, 1)?,
        Thing::Local,
        thread.locals.as_slice(),
    )?;
    put_block(out, item, body, &thread.body)
}

fn put_threads(out: &mut Kept, item: usize, threads: &[Thread]) -> Result<(), AllocError>
    ensures { OnOk result (Passes out.old out.new (threads_uses item threads.now)) }
{
    let mut next = item;
    for thread in threads {
        next = put_thread(out, next, thread)?;
    }
    Ok(())
}

/// The names of a tree that are wanted, in text order.
pub fn kept_uses(alloc: Global, tree: &Tree, wish: Wish) -> Result<Kept, AllocError>
    ensures { IfOk result (λ kept. kept ≡ behind (nothing_kept wish) (name_uses_by tree.now)) }
{
    let mut kept = Kept {
        wish,
        passed: 0,
        numbers: Vec::new(alloc),
        uses: Vec::new(alloc),
    };
    let globals = put_records(&mut kept, 0, tree.records())?;
    let procedures = put_globals(&mut kept, globals, tree.globals())?;
    let threads = put_procedures(&mut kept, procedures, tree.procedures())?;
    put_threads(&mut kept, threads, tree.threads())?;
    Ok(kept)
}

/// The names of an item, in text order.
pub fn item_uses(alloc: Global, tree: &Tree, item: usize) -> Result<Vec<NameUse>, AllocError>
    ensures { IfOk result (λ uses. uses.items ≡ filter (λ u. nat_eq u.item item) (name_uses_by tree.now)) }
{
    Ok(kept_uses(alloc, tree, Wish::Own(item))?.uses)
}
