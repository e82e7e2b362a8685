//! Which items the nodes of a program come from: a walk through its threads and, at each call, through the procedure.

ghost use Rattle.std.specs.Prelude.{◌≡◌, ◌+◌, ◌<◌, ◌∷◌, [], Some, None, IfOk, IfSome, OnOk, length};
ghost use Rattle.std.specs.Option.{option_or};
ghost use Rattle.sect_front.specs.Trees.{statement_of};
ghost use Rattle.sect_types.specs.Sums.{number_of as number_by};
ghost use Rattle.sect_places.specs.ItemCounts.{items_in_statement, items_in_block};
ghost use Rattle.sect_places.specs.Origins.{variable_origins, statement_origins, block_origins, statement_sections};
ghost use Rattle.sect_places.specs.Origins.{block_sections, threads_origins, threads_sections, origin};
ghost use Rattle.sect_places.specs.NodeOrigins.{AreOrigins};
ghost use Rattle.sect_places.specs.steps.{Adding.{Adds}, Ending.{StatementEnds, BlockEnds, EndsWithin, ThreadsEnd}};
ghost use Rattle.sect_places.specs.steps.Calls.{ends, expands, expands_sections};

use crate::inside::Inside;
use crate::item_counts::{past, past_records, procedure_items};
use crate::origin::{NodeOrigins, Origin};
use sect_front::{Block, Declaration, Items, Name, Procedure, Statement, Thread};
use sect_types::Program;
use std::alloc::{AllocError, Global};

/// The number of the first procedure of this name.
fn number_of(procedures: &[Procedure], name: &Name) -> Option<usize>
    ensures number { result ≡ number_by procedures.now name.now }
    ensures within { IfSome result (λ number. number < length procedures.now) }
{
    for number in 0..procedures.len() {
        if *name == procedures[number].name {
            return Some(number);
        }
    }
    None
}

/// Adds the nodes that set variables, of which the first is this item, and gives the item behind them.
fn put_variables(
    call: Option<usize>,
    item: usize,
    list: &[Declaration],
    nodes: &mut Vec<Origin>,
) -> Result<usize, AllocError>
    ensures next { IfOk result (λ n. n ≡ item + length list.now) }
    ensures nodes { OnOk result (Adds nodes.old.items nodes.new.items (variable_origins call item list.now)) }
{
    let mut next = item;
    for _variable in list {
        nodes.push(Origin { item: next, call })?;
        next = past(next, 1)?;
    }
    Ok(next)
}

/// Adds the node of a statement that is this item.
fn put(inside: &Inside<'_>, item: usize, nodes: &mut Vec<Origin>) -> Result<(), AllocError>
    ensures { OnOk result (Adds nodes.old.items nodes.new.items (λ w. origin inside.now.call item ∷ w)) }
{
    nodes.push(Origin {
        item,
        call: inside.call,
    })?;
    Ok(())
}

/// Adds the nodes of a call of the procedure of this name. The call is this item.
#[cycle(walk)]
fn put_call(
    inside: &Inside<'_>,
    item: usize,
    name: &Name,
    nodes: &mut Vec<Origin>,
    sections: &mut Vec<Items<Origin>>,
) -> Result<(), AllocError>
    requires { EndsWithin inside.now.procedures.now inside.now.most
        (number_by inside.now.procedures.now name.now) }
    ensures nodes { OnOk result (Adds nodes.old.items nodes.new.items
        (expands inside.now (number_by inside.now.procedures.now name.now) (option_or inside.now.call (Some item)))) }
    ensures sections { OnOk result (Adds sections.old.items sections.new.items
        (expands_sections inside.now (number_by inside.now.procedures.now name.now)
        (option_or inside.now.call (Some item)))) }
{
    let number = number_of(inside.procedures, name).unwrap();
    let procedure = &inside.procedures[number];
    let inner = Inside {
        alloc: inside.alloc,
        procedures: inside.procedures,
        starts: inside.starts,
        most: inside.most - 1,
        call: inside.call.or(Some(item)),
    };
    let parameters = past(inside.starts[number], 1)?;
    let locals = put_variables(
        inner.call,
        parameters,
        procedure.parameters.as_slice(),
        nodes,
    )?;
    let body = put_variables(inner.call, locals, procedure.locals.as_slice(), nodes)?;
    put_block(&inner, body, &procedure.body, nodes, sections)?;
    Ok(())
}

/// Adds the nodes of a section whose first statement is this item, and gives the item behind it.
#[cycle(walk)]
fn put_section(
    inside: &Inside<'_>,
    item: usize,
    body: &Block,
    sections: &mut Vec<Items<Origin>>,
) -> Result<usize, AllocError>
    requires { BlockEnds inside.now.procedures.now (ends inside.now) body.now }
    ensures next { IfOk result (λ n. n ≡ item + items_in_block body.now) }
    ensures sections { OnOk result (Adds sections.old.items sections.new.items
        (λ w. block_origins inside.now.procedures.now (expands inside.now) inside.now.call item body.now [] ∷ w)) }
{
    let mut nodes = Vec::new(inside.alloc);
    // No section stands in a section.
    let mut none = Vec::new(inside.alloc);
    let next = put_block(inside, item, body, &mut nodes, &mut none)?;
    sections.push(Items::from_vec(nodes))?;
    Ok(next)
}

/// Adds the nodes of a statement that is this item, and gives the item behind it.
#[cycle(walk)]
fn put_statement(
    inside: &Inside<'_>,
    item: usize,
    statement: &Statement,
    nodes: &mut Vec<Origin>,
    sections: &mut Vec<Items<Origin>>,
) -> Result<usize, AllocError>
    requires { StatementEnds inside.now.procedures.now (ends inside.now) (statement_of statement.now) }
    ensures next { IfOk result (λ n. n ≡ item + items_in_statement (statement_of statement.now)) }
    ensures nodes { OnOk result (Adds nodes.old.items nodes.new.items (statement_origins
        inside.now.procedures.now (expands inside.now) inside.now.call item (statement_of statement.now))) }
    ensures sections { OnOk result (Adds sections.old.items sections.new.items (statement_sections
        inside.now.procedures.now (expands inside.now) (expands_sections inside.now) inside.now.call item
        (statement_of statement.now))) }
{
    match statement {
        Statement::Primitive(_) => {
            put(inside, item, nodes)?;
            past(item, 1)
        }
        Statement::If(_, a) => {
            put(inside, item, nodes)?;
            put_block(inside, past(item, 1)?, a, nodes, sections)
        }
        Statement::IfElse(_, a, b) => {
            put(inside, item, nodes)?;
            let other = put_block(inside, past(item, 1)?, a, nodes, sections)?;
            put_block(inside, other, b, nodes, sections)
        }
        Statement::While(_, a) => {
            put(inside, item, nodes)?;
            put_block(inside, past(item, 1)?, a, nodes, sections)
        }
        Statement::Atomic(_, a) => {
            put(inside, item, nodes)?;
            put_section(inside, past(item, 1)?, a, sections)
        }
        Statement::Call(name, _) => {
            put_call(inside, item, name, nodes, sections)?;
            past(item, 1)
        }
    }
}

/// Adds the nodes of a block whose first statement is this item, and gives the item behind it.
#[cycle(walk)]
fn put_block(
    inside: &Inside<'_>,
    item: usize,
    block: &Block,
    nodes: &mut Vec<Origin>,
    sections: &mut Vec<Items<Origin>>,
) -> Result<usize, AllocError>
    requires { BlockEnds inside.now.procedures.now (ends inside.now) block.now }
    ensures next { IfOk result (λ n. n ≡ item + items_in_block block.now) }
    ensures nodes { OnOk result (Adds nodes.old.items nodes.new.items (block_origins
        inside.now.procedures.now (expands inside.now) inside.now.call item block.now)) }
    ensures sections { OnOk result (Adds sections.old.items sections.new.items (block_sections
        inside.now.procedures.now (expands inside.now) (expands_sections inside.now) inside.now.call item
        block.now)) }
{
    let mut next = item;
    for statement in block.as_slice() {
        next = put_statement(inside, next, statement, nodes, sections)?;
    }
    Ok(next)
}

/// Adds the nodes of threads, of which the first is this item.
fn put_threads(
    inside: &Inside<'_>,
    item: usize,
    threads: &[Thread],
    out: &mut Vec<Items<Origin>>,
    sections: &mut Vec<Items<Origin>>,
) -> Result<(), AllocError>
    requires own { inside.now.call ≡ None }
    requires known { ThreadsEnd inside.now.procedures.now (ends inside.now) threads.now }
    ensures threads { OnOk result (Adds out.old.items out.new.items
        (threads_origins inside.now.procedures.now (expands inside.now) item threads.now)) }
    ensures sections { OnOk result (Adds sections.old.items sections.new.items (threads_sections
        inside.now.procedures.now (expands inside.now) (expands_sections inside.now) item threads.now)) }
{
    let mut next = item;
    for thread in threads {
        let locals = past(next, 1)?;
        let body = past(locals, thread.locals.as_slice().len())?;
        let mut nodes = Vec::new(inside.alloc);
        next = put_block(inside, body, &thread.body, &mut nodes, sections)?;
        out.push(Items::from_vec(nodes))?;
    }
    Ok(())
}

/// Where the nodes of a program come from.
pub fn node_origins(alloc: Global, program: &Program) -> Result<NodeOrigins, AllocError>
    ensures { IfOk result (AreOrigins program.now) }
{
    program.facts();
    let tree = program.tree();
    let globals = past_records(0, tree.records())?;
    let first = past(globals, tree.globals().len())?;
    let procedures = tree.procedures();
    let (starts, behind) = procedure_items(alloc, first, procedures)?;
    let inside = Inside {
        alloc,
        procedures,
        starts: starts.as_slice(),
        most: procedures.len(),
        call: None,
    };
    let mut threads = Vec::new(alloc);
    let mut sections = Vec::new(alloc);
    put_threads(&inside, behind, tree.threads(), &mut threads, &mut sections)?;
    Ok(NodeOrigins::new(threads, sections))
}
