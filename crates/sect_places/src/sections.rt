//! Which item each section of a program is.

ghost use Rattle.std.specs.Prelude.{◌≡◌, ◌+◌, ◌++◌, ℕ, List, IfOk, OnOk, length, All};
ghost use Rattle.sect_front.specs.Trees.{statement_of};
ghost use Rattle.sect_types.specs.Sections.{sections_of};
ghost use Rattle.sect_places.specs.ItemCounts.{items_in_statement, items_in_block};
ghost use Rattle.sect_places.specs.SectionItems.{statement_section_items, block_section_items, threads_section_items};
ghost use Rattle.sect_places.specs.SectionItems.{section_items_of, IsAtomicItem};

use crate::item_counts::{past, past_block, past_records, procedure_items};
use sect_front::{Block, Statement, Thread};
use sect_types::Program;
use std::alloc::{AllocError, Global};

/// Adds the items of the sections of a statement that is this item, and gives the item behind it.
#[cycle(find)]
fn put_statement(
    found: &mut Vec<usize>,
    item: usize,
    statement: &Statement,
) -> Result<usize, AllocError>
    ensures next { IfOk result (λ n. n ≡ item + items_in_statement (statement_of statement.now)) }
    ensures found { OnOk result ((w : List ℕ)
        → found.new.items ++ w ≡ found.old.items ++ statement_section_items item (statement_of statement.now) w) }
{
    let inner = past(item, 1)?;
    match statement {
        Statement::Primitive(_) | Statement::Call(_, _) => Ok(inner),
        Statement::If(_, a) | Statement::While(_, a) => put_block(found, inner, a),
        Statement::IfElse(_, a, b) => {
            let other = put_block(found, inner, a)?;
            put_block(found, other, b)
        }
        Statement::Atomic(_, a) => {
            found.push(item)?;
            past_block(inner, a)
        }
    }
}

/// Adds the items of the sections of a block whose first statement is this item, and gives the item behind it.
#[cycle(find)]
fn put_block(found: &mut Vec<usize>, item: usize, block: &Block) -> Result<usize, AllocError>
    ensures next { IfOk result (λ n. n ≡ item + items_in_block block.now) }
    ensures found { OnOk result ((w : List ℕ)
        → found.new.items ++ w ≡ found.old.items ++ block_section_items item block.now w) }
{
    let mut next = item;
    for statement in block.as_slice() {
        next = put_statement(found, next, statement)?;
    }
    Ok(next)
}

/// Adds the items of the sections of threads, of which the first is this item.
fn put_threads(found: &mut Vec<usize>, item: usize, threads: &[Thread]) -> Result<(), AllocError>
    ensures { OnOk result ((w : List ℕ)
        → found.new.items ++ w ≡ found.old.items ++ threads_section_items item threads.now w) }
{
    let mut next = item;
    for thread in threads {
        let locals = past(next, 1)?;
        let body = past(locals, thread.locals.as_slice().len())?;
        next = put_block(found, body, &thread.body)?;
    }
    Ok(())
}

/// The item of each section of a program, by the section's number: its `atomic`.
pub fn section_items(alloc: Global, program: &Program) -> Result<Vec<usize>, AllocError>
    ensures are { IfOk result (λ list. list.items ≡ section_items_of program.now.source) }
    // There is one for each section,
    ensures many { IfOk result (λ list. length list.items ≡ length (sections_of program.now.texts)) }
    // and it is an `atomic`.
    ensures atomic { IfOk result (λ list. All (IsAtomicItem program.now.source) list.items) }
{
    program.facts();
    let tree = program.tree();
    let globals = past_records(0, tree.records())?;
    let first = past(globals, tree.globals().len())?;
    let (_starts, behind) = procedure_items(alloc, first, tree.procedures())?;
    let mut found = Vec::new(alloc);
    put_threads(&mut found, behind, tree.threads())?;
    Ok(found)
}
