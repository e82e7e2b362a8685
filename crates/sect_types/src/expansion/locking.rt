//! Which locks each section takes.

ghost use Rattle.std.specs.Prelude.{◌≡◌, ◌++◌, List, IfOk, OnOk};
ghost use Rattle.sect_front.specs.{Trees.{statement_of}, declared.tree.Locking.{Locking}};
ghost use Rattle.sect_types.specs.Lockings.{statement_lockings, block_lockings, threads_lockings, lockings_of};

use sect_front::{Block, Locking, Statement, Thread, Tree};
use std::alloc::{AllocError, Global};

/// Adds what the sections of a statement take.
#[cycle(put)]
fn put_statement(out: &mut Vec<Locking>, statement: &Statement) -> Result<(), AllocError>
    ensures { OnOk result ((w : List Locking)
        → out.new.items ++ w ≡ out.old.items ++ statement_lockings (statement_of statement.now) w) }
{
    match statement {
        Statement::Primitive(_) | Statement::Call(_, _) => Ok(()),
        Statement::If(_, then) => put_block(out, then),
        Statement::IfElse(_, then, other) => {
            put_block(out, then)?;
            put_block(out, other)
        }
        Statement::While(_, body) => put_block(out, body),
        Statement::Atomic(locking, _) => {
            out.push(*locking)?;
            Ok(())
        }
    }
}

/// Adds what the sections of a block take.
#[cycle(put)]
fn put_block(out: &mut Vec<Locking>, block: &Block) -> Result<(), AllocError>
    ensures { OnOk result ((w : List Locking) → out.new.items ++ w ≡ out.old.items ++ block_lockings block.now w) }
{
    for statement in block.as_slice() {
        put_statement(out, statement)?;
    }
    Ok(())
}

/// Adds what the sections of threads take.
fn put_threads(out: &mut Vec<Locking>, threads: &[Thread]) -> Result<(), AllocError>
    ensures { OnOk result ((w : List Locking) → out.new.items ++ w ≡ out.old.items ++ threads_lockings threads.now w) }
{
    for thread in threads {
        put_block(out, &thread.body)?;
    }
    Ok(())
}

/// Which locks each section takes, by its number.
pub fn lockings(alloc: Global, tree: &Tree) -> Result<Vec<Locking>, AllocError>
    ensures { IfOk result (λ all. all.items ≡ lockings_of tree.now) }
{
    let mut out = Vec::new(alloc);
    put_threads(&mut out, tree.threads())?;
    Ok(out)
}
