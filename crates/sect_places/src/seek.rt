//! Which tokens one item of a tree has. The items before it are passed with their tokens, and no list is made.

ghost use Rattle.std.specs.Prelude.{◌≡◌, ◌+◌, ◌*◌, ◌^◌, ◌<◌, ◌≤◌, ◌∷◌, IfOk, IfErr, Some, length, slice_get};
ghost use Rattle.sect_front.specs.{Grammar.{tokens_of}, Trees.{statement_of}};
ghost use Rattle.sect_types.specs.Items.{items};
ghost use Rattle.sect_places.specs.Counts.{statement_count, block_count, record_count, procedure_count, thread_count};
ghost use Rattle.sect_places.specs.Counts.{records_count, procedures_count, threads_count};
ghost use Rattle.sect_places.specs.Ranges.{range, item_tokens, statement_ranges, block_ranges, declarations_ranges};
ghost use Rattle.sect_places.specs.Ranges.{record_ranges, procedure_ranges, thread_ranges, records_ranges};
ghost use Rattle.sect_places.specs.Ranges.{globals_ranges, procedures_ranges, threads_ranges};
ghost use Rattle.sect_places.specs.steps.Seeking.{IsFound, IsBehind, parts_count, parts_ranges};

use crate::counts::{locking_count, operands_count, parameters_count, primitive_count};
use crate::range::TokenRange;
use sect_front::{Block, Declaration, GlobalObject, Procedure, Record, Statement, Thread, Tree};

/// Where the item that is sought stands: behind so many others, of which the first begins with this token or behind it.
#[derive(Clone, Copy)]
pub struct Ahead {
    pub items: usize,
    pub at: usize,
}

impl Ahead {
    /// Behind so many tokens more.
    fn past(self, count: usize) -> Ahead
        requires { self.at + count < 2 ^ 64 }
        ensures { result ≡ record { items = self.items; at = self.at + count } }
    {
        Ahead {
            items: self.items,
            at: self.at + count,
        }
    }
}

/// Passes an item of so many tokens, unless it is the one that is sought.
fn seek_item(ahead: Ahead, count: usize) -> Result<Ahead, TokenRange>
    requires { ahead.at + count < 2 ^ 64 }
    ensures found { IfErr result (IsFound ahead.items (λ w. range ahead.at count ∷ w)) }
    ensures behind { IfOk result (λ a. IsBehind ahead.items (λ w. range ahead.at count ∷ w) a.items) }
    ensures next { IfOk result (λ a. a.at ≡ ahead.at + count) }
{
    if ahead.items == 0 {
        return Err(TokenRange {
            first: ahead.at,
            count,
        });
    }
    Ok(Ahead {
        items: ahead.items - 1,
        at: ahead.at + count,
    })
}

fn seek_declarations(ahead: Ahead, list: &[Declaration]) -> Result<Ahead, TokenRange>
    requires { ahead.at + 3 * length list.now < 2 ^ 64 }
    ensures found { IfErr result (IsFound ahead.items (declarations_ranges ahead.at list.now)) }
    ensures behind { IfOk result (λ a. IsBehind ahead.items (declarations_ranges ahead.at list.now) a.items) }
    ensures next { IfOk result (λ a. a.at ≡ ahead.at + 3 * length list.now) }
{
    let count = list.len();
    if ahead.items < count {
        return Err(TokenRange {
            first: ahead.at + 3 * ahead.items,
            count: 2,
        });
    }
    Ok(Ahead {
        items: ahead.items - count,
        at: ahead.at + 3 * count,
    })
}

/// Passes the items of a statement whose first token is the next one, and its tokens, unless one of them is sought.
#[cycle(seek)]
fn seek_statement(ahead: Ahead, s: &Statement) -> Result<Ahead, TokenRange>
    requires { ahead.at + statement_count (statement_of s.now) < 2 ^ 64 }
    ensures found { IfErr result (IsFound ahead.items (statement_ranges ahead.at (statement_of s.now))) }
    ensures behind { IfOk result (λ a. IsBehind ahead.items (statement_ranges ahead.at (statement_of s.now)) a.items) }
    ensures next { IfOk result (λ a. a.at ≡ ahead.at + statement_count (statement_of s.now)) }
{
    match s {
        Statement::Primitive(primitive) => {
            let behind = seek_item(ahead, primitive_count(primitive) - 1)?;
            Ok(behind.past(1))
        }
        Statement::If(_, a) | Statement::While(_, a) => {
            let head = seek_item(ahead, 6)?;
            let behind = seek_block(head.past(1), a)?;
            Ok(behind.past(1))
        }
        Statement::IfElse(_, a, b) => {
            let head = seek_item(ahead, 6)?;
            let middle = seek_block(head.past(1), a)?;
            let behind = seek_block(middle.past(3), b)?;
            Ok(behind.past(1))
        }
        Statement::Atomic(locking, a) => {
            let head = seek_item(ahead, 1 + locking_count(*locking))?;
            let behind = seek_block(head.past(1), a)?;
            Ok(behind.past(1))
        }
        Statement::Call(_, values) => {
            let behind = seek_item(ahead, 4 + operands_count(values.as_slice()))?;
            Ok(behind.past(1))
        }
    }
}

#[cycle(seek)]
fn seek_block(ahead: Ahead, b: &Block) -> Result<Ahead, TokenRange>
    requires { ahead.at + block_count b.now < 2 ^ 64 }
    ensures found { IfErr result (IsFound ahead.items (block_ranges ahead.at b.now)) }
    ensures behind { IfOk result (λ a. IsBehind ahead.items (block_ranges ahead.at b.now) a.items) }
    ensures next { IfOk result (λ a. a.at ≡ ahead.at + block_count b.now) }
{
    let mut here = ahead;
    for s in b.as_slice() {
        here = seek_statement(here, s)?;
    }
    Ok(here)
}

fn seek_record(ahead: Ahead, declared: &Record) -> Result<Ahead, TokenRange>
    requires { ahead.at + record_count declared.now < 2 ^ 64 }
    ensures found { IfErr result (IsFound ahead.items (record_ranges ahead.at declared.now)) }
    ensures behind { IfOk result (λ a. IsBehind ahead.items (record_ranges ahead.at declared.now) a.items) }
    ensures next { IfOk result (λ a. a.at ≡ ahead.at + record_count declared.now) }
{
    let head = seek_item(ahead, 2)?;
    let hints = declared.hints.as_slice();
    let fields = declared.fields.as_slice();
    let behind = seek_declarations(head.past(2 * hints.len() + 1), fields)?;
    Ok(behind.past(1))
}

fn seek_procedure(ahead: Ahead, procedure: &Procedure) -> Result<Ahead, TokenRange>
    requires { ahead.at + procedure_count procedure.now < 2 ^ 64 }
    ensures found { IfErr result (IsFound ahead.items (procedure_ranges ahead.at procedure.now)) }
    ensures behind { IfOk result (λ a. IsBehind ahead.items (procedure_ranges ahead.at procedure.now) a.items) }
    ensures next { IfOk result (λ a. a.at ≡ ahead.at + procedure_count procedure.now) }
{
    let head = seek_item(ahead, 2)?;
    let parameters = procedure.parameters.as_slice();
    let open = head.past(1);
    let passed = seek_declarations(open, parameters)?;
    // behind the last parameter stands no comma
    let locals = Ahead {
        items: passed.items,
        at: open.at + parameters_count(parameters) + 2,
    };
    let body = seek_declarations(locals, procedure.locals.as_slice())?;
    let behind = seek_block(body, &procedure.body)?;
    Ok(behind.past(1))
}

fn seek_thread(ahead: Ahead, thread: &Thread) -> Result<Ahead, TokenRange>
    requires { ahead.at + thread_count thread.now < 2 ^ 64 }
    ensures found { IfErr result (IsFound ahead.items (thread_ranges ahead.at thread.now)) }
    ensures behind { IfOk result (λ a. IsBehind ahead.items (thread_ranges ahead.at thread.now) a.items) }
    ensures next { IfOk result (λ a. a.at ≡ ahead.at + thread_count thread.now) }
{
    let head = seek_item(ahead, 2)?;
    let body = seek_declarations(head.past(1), thread.locals.as_slice())?;
    let behind = seek_block(body, &thread.body)?;
    Ok(behind.past(1))
}

fn seek_records(ahead: Ahead, records: &[Record]) -> Result<Ahead, TokenRange>
    requires { ahead.at + records_count records.now < 2 ^ 64 }
    ensures found { IfErr result (IsFound ahead.items (records_ranges ahead.at records.now)) }
    ensures behind { IfOk result (λ a. IsBehind ahead.items (records_ranges ahead.at records.now) a.items) }
    ensures next { IfOk result (λ a. a.at ≡ ahead.at + records_count records.now) }
{
    let mut here = ahead;
    for declared in records {
        here = seek_record(here, declared)?;
    }
    Ok(here)
}

fn seek_globals(ahead: Ahead, globals: &[GlobalObject]) -> Result<Ahead, TokenRange>
    requires { ahead.at + 4 * length globals.now < 2 ^ 64 }
    ensures found { IfErr result (IsFound ahead.items (globals_ranges ahead.at globals.now)) }
    ensures behind { IfOk result (λ a. IsBehind ahead.items (globals_ranges ahead.at globals.now) a.items) }
    ensures next { IfOk result (λ a. a.at ≡ ahead.at + 4 * length globals.now) }
{
    let count = globals.len();
    if ahead.items < count {
        return Err(TokenRange {
            first: ahead.at + 4 * ahead.items,
            count: 3,
        });
    }
    Ok(Ahead {
        items: ahead.items - count,
        at: ahead.at + 4 * count,
    })
}

fn seek_procedures(ahead: Ahead, procedures: &[Procedure]) -> Result<Ahead, TokenRange>
    requires { ahead.at + procedures_count procedures.now < 2 ^ 64 }
    ensures found { IfErr result (IsFound ahead.items (procedures_ranges ahead.at procedures.now)) }
    ensures behind { IfOk result (λ a. IsBehind ahead.items (procedures_ranges ahead.at procedures.now) a.items) }
    ensures next { IfOk result (λ a. a.at ≡ ahead.at + procedures_count procedures.now) }
{
    let mut here = ahead;
    for procedure in procedures {
        here = seek_procedure(here, procedure)?;
    }
    Ok(here)
}

fn seek_threads(ahead: Ahead, threads: &[Thread]) -> Result<Ahead, TokenRange>
    requires { ahead.at + threads_count threads.now < 2 ^ 64 }
    ensures found { IfErr result (IsFound ahead.items (threads_ranges ahead.at threads.now)) }
    ensures behind { IfOk result (λ a. IsBehind ahead.items (threads_ranges ahead.at threads.now) a.items) }
{
    let mut here = ahead;
    for thread in threads {
        here = seek_thread(here, thread)?;
    }
    Ok(here)
}

/// Passes all items of a tree of these parts, unless one of them is sought.
fn seek_parts(
    item: usize,
    records: &[Record],
    globals: &[GlobalObject],
    procedures: &[Procedure],
    threads: &[Thread],
) -> Result<Ahead, TokenRange>
    requires { parts_count records.now globals.now procedures.now threads.now < 2 ^ 64 }
    ensures found { IfErr result (IsFound item (parts_ranges records.now globals.now procedures.now threads.now)) }
    ensures behind { IfOk result (λ a.
        IsBehind item (parts_ranges records.now globals.now procedures.now threads.now) a.items) }
{
    let behind_records = seek_records(Ahead { items: item, at: 0 }, records)?;
    let behind_globals = seek_globals(behind_records, globals)?;
    let behind_procedures = seek_procedures(behind_globals, procedures)?;
    seek_threads(behind_procedures, threads)
}

/// The tokens of one item of a tree.
pub fn item_range(tree: &Tree, item: usize) -> TokenRange
    requires there { item < length (items tree.now) }
    requires fits { length (tokens_of tree.now) < 2 ^ 64 }
    ensures is { slice_get (item_tokens tree.now) item ≡ Some result }
    // It has some, and they are the tree's.
    ensures some { 0 < result.count }
    ensures within { result.first + result.count ≤ length (tokens_of tree.now) }
{
    let (records, globals) = (tree.records(), tree.globals());
    match seek_parts(item, records, globals, tree.procedures(), tree.threads()) {
        Err(range) => range,
        Ok(_) => unreachable!(),
    }
}
