//! How many items the parts of a tree have. They are counted in a `usize`; at its end the answer is a want of memory,
//! as no memory holds a tree of so many.

ghost use Rattle.std.specs.Prelude.{◌≡◌, ◌+◌, IfOk};
ghost use Rattle.sect_front.specs.Trees.{statement_of};
ghost use Rattle.sect_places.specs.ItemCounts.{items_in_statement, items_in_block, items_in_records};
ghost use Rattle.sect_places.specs.ItemCounts.{items_in_procedure, items_in_procedures};
ghost use Rattle.sect_places.specs.Origins.{procedure_items as procedure_items_by};

use sect_front::{Block, Procedure, Record, Statement};
use std::alloc::{AllocError, Global};

/// The number of the item that stands so many behind another.
pub fn past(item: usize, count: usize) -> Result<usize, AllocError>
    ensures { IfOk result (λ n. n ≡ item + count) }
{
    item.checked_add(count).ok_or(AllocError)
}

/// The number of the item behind a statement that is this item.
#[cycle(pass)]
fn past_statement(item: usize, statement: &Statement) -> Result<usize, AllocError>
    ensures { IfOk result (λ n. n ≡ item + items_in_statement (statement_of statement.now)) }
{
    let inner = past(item, 1)?;
    match statement {
        Statement::Primitive(_) | Statement::Call(_, _) => Ok(inner),
        Statement::If(_, a) | Statement::While(_, a) | Statement::Atomic(_, a) => {
            past_block(inner, a)
        }
        Statement::IfElse(_, a, b) => {
            let middle = past_block(inner, a)?;
            past_block(middle, b)
        }
    }
}

/// The number of the item behind a block whose first statement is this item.
#[cycle(pass)]
pub fn past_block(item: usize, block: &Block) -> Result<usize, AllocError>
    ensures { IfOk result (λ n. n ≡ item + items_in_block block.now) }
{
    let mut next = item;
    for statement in block.as_slice() {
        next = past_statement(next, statement)?;
    }
    Ok(next)
}

/// The number of the item behind records, of which the first is this item.
pub fn past_records(item: usize, records: &[Record]) -> Result<usize, AllocError>
    ensures { IfOk result (λ n. n ≡ item + items_in_records records.now) }
{
    let mut next = item;
    for declared in records {
        next = past(next, 1)?;
        next = past(next, declared.fields.as_slice().len())?;
    }
    Ok(next)
}

/// The number of the item behind a procedure that is this item.
fn past_procedure(item: usize, procedure: &Procedure) -> Result<usize, AllocError>
    ensures { IfOk result (λ n. n ≡ item + items_in_procedure procedure.now) }
{
    let parameters = past(item, 1)?;
    let locals = past(parameters, procedure.parameters.as_slice().len())?;
    let body = past(locals, procedure.locals.as_slice().len())?;
    past_block(body, &procedure.body)
}

/// The item of each procedure, of which the first is this item, and the item behind them.
pub fn procedure_items(
    alloc: Global,
    item: usize,
    procedures: &[Procedure],
) -> Result<(Vec<usize>, usize), AllocError>
    ensures items { IfOk result (λ r. r.0.items ≡ procedure_items_by item procedures.now) }
    ensures next { IfOk result (λ r. r.1 ≡ item + items_in_procedures procedures.now) }
{
    let mut items = Vec::with_capacity(alloc, procedures.len())?;
    let mut next = item;
    for procedure in procedures {
        items.push(next)?;
        next = past_procedure(next, procedure)?;
    }
    Ok((items, next))
}
