//! The procedures of a text by name, and which of them call which.

ghost use Rattle.std.specs.Prelude.{◌≡◌, ◌<◌, ◌++◌, ◌+◌, IfOk, OnOk, List, ℕ, length};
ghost use Rattle.std.specs.{Prelude.{nat_eq}, Cmp.Lexicographic.{pointwise}};
ghost use Rattle.indexmap.specs.IndexMap.{get};
ghost use Rattle.sect_front.specs.Trees.{statement_of};
ghost use Rattle.sect_types.specs.Sums.{number_of as number_by, statement_calls, block_calls};
ghost use Rattle.sect_types.specs.steps.Called.{AreCallers, AreCallersBefore, AreMarked, AreFound, IsMarked, Marks};
ghost use Rattle.sect_types.specs.steps.{Called.{Grows, Calls}, Standing.{AreReturning}};

use indexmap::IndexMap;
use sect_front::{Block, Items, Name, Procedure, Statement};
use std::alloc::{AllocError, Global};
use std::marker::Model;

/// The number of the first procedure of each name.
fn numbers_of(alloc: Global, procedures: &[Procedure]) -> Result<IndexMap<Name, usize>, AllocError>
    ensures { IfOk result (λ numbers. (x : List ℕ)
        → get (pointwise nat_eq) numbers x ≡ number_by procedures.now x) }
{
    let mut numbers = IndexMap::new(alloc);
    for number in 0..procedures.len() {
        let name = procedures[number].name;
        if numbers.get(&name).is_none() {
            numbers.insert(name, number)?;
        }
    }
    Ok(numbers)
}

/// The procedures that a statement calls.
#[cycle(put)]
fn put_statement(
    out: &mut Vec<usize>,
    numbers: &IndexMap<Name, usize>,
    procedures: &[Procedure],
    statement: &Statement,
) -> Result<(), AllocError>
    requires { (x : List ℕ) → get (pointwise nat_eq) numbers.now x ≡ number_by procedures.now x }
    ensures { OnOk result ((w : List ℕ) → out.new.items ++ w
        ≡ out.old.items ++ statement_calls procedures.now (statement_of statement.now) w) }
{
    match statement {
        Statement::Primitive(_) => Ok(()),
        Statement::If(_, then) => put_block(out, numbers, procedures, then),
        Statement::IfElse(_, then, other) => {
            put_block(out, numbers, procedures, then)?;
            put_block(out, numbers, procedures, other)
        }
        Statement::While(_, body) => put_block(out, numbers, procedures, body),
        Statement::Atomic(_, body) => put_block(out, numbers, procedures, body),
        Statement::Call(name, _) => {
            if let Some(number) = numbers.get(name) {
                out.push(*number)?;
            }
            Ok(())
        }
    }
}

/// The procedures that a block calls.
#[cycle(put)]
fn put_block(
    out: &mut Vec<usize>,
    numbers: &IndexMap<Name, usize>,
    procedures: &[Procedure],
    block: &Block,
) -> Result<(), AllocError>
    requires { (x : List ℕ) → get (pointwise nat_eq) numbers.now x ≡ number_by procedures.now x }
    ensures { OnOk result ((w : List ℕ) → out.new.items ++ w
        ≡ out.old.items ++ block_calls procedures.now block.now w) }
{
    for statement in block.as_slice() {
        put_statement(out, numbers, procedures, statement)?;
    }
    Ok(())
}

/// Adds procedure `number` to the callers of each that it calls.
fn put_callers(
    alloc: Global,
    callers: &mut Vec<Items<usize>>,
    numbers: &IndexMap<Name, usize>,
    procedures: &[Procedure],
    number: usize,
) -> Result<(), AllocError>
    requires names { (x : List ℕ) → get (pointwise nat_eq) numbers.now x ≡ number_by procedures.now x }
    requires there { number < length procedures.now }
    requires before { AreCallersBefore number procedures.now callers.old.items }
    ensures { OnOk result (AreCallersBefore (number + 1) procedures.now callers.new.items) }
{
    let mut list = Vec::new(alloc);
    put_block(&mut list, numbers, procedures, &procedures[number].body)?;
    for callee in list.as_slice() {
        callers[*callee].push(number)?;
    }
    Ok(())
}

/// The callers of each procedure.
fn callers_of(
    alloc: Global,
    numbers: &IndexMap<Name, usize>,
    procedures: &[Procedure],
) -> Result<Vec<Items<usize>>, AllocError>
    requires { (x : List ℕ) → get (pointwise nat_eq) numbers.now x ≡ number_by procedures.now x }
    ensures { IfOk result (λ callers. AreCallers procedures.now callers.items) }
{
    let mut callers = Vec::new(alloc);
    for _ in procedures {
        callers.push(Items::new(alloc))?;
    }
    for number in 0..procedures.len() {
        put_callers(alloc, &mut callers, numbers, procedures, number)?;
    }
    Ok(callers)
}

/// Marks a procedure unless it is marked.
fn mark(marked: &mut Vec<bool>, found: &mut Vec<usize>, number: usize) -> Result<(), AllocError>
    requires { number < length marked.old.items }
    ensures { OnOk result (Marks number marked.old.items found.old.items marked.new.items
        found.new.items) }
{
    if !marked[number] {
        found.push(number)?;
        marked[number] = true;
    }
    Ok(())
}

/// The procedures of a text by name, with the callers of each.
pub struct Called<'a> {
    procedures: &'a [Procedure],
    numbers: IndexMap<Name, usize>,
    callers: Vec<Items<usize>>,
}

impl Drop for Called<'_> {
    fn drop(self) {
        let Called {
            procedures: _,
            numbers: _,
            callers: _,
        } = self;
    }
}

impl<'a> Model for Called<'a> {
    ghost use Rattle.std.specs.Prelude.{List, ℕ, nat_eq, ◌≡◌};
    ghost use Rattle.std.specs.Cmp.Lexicographic.{pointwise};
    ghost use Rattle.indexmap.specs.IndexMap.{get};
    ghost use Rattle.sect_front.specs.declared.tree.Procedure.{Procedure};
    ghost use Rattle.sect_types.specs.Sums.{number_of as number_by};
    ghost use Rattle.sect_types.specs.steps.Called.{AreCallers};
    ghost use Rattle.std.specs.Coded.{codes};
    ghost use Rattle.sect_front.specs.Coding.{block_code};

    ghost Value = { List Procedure };

    ghost coded = { Prim.hlevel (codes, block_code) };

    ghost view = { λ c. c.procedures.now };

    ghost invariant = { λ c. ((x : List ℕ) → get (pointwise nat_eq) c.numbers x ≡ number_by c.procedures.now x)
        × AreCallers c.procedures.now c.callers.items };
}

impl<'a> Called<'a> {
    /// The procedures of a text.
    pub fn new(alloc: Global, procedures: &'a [Procedure]) -> Result<Called<'a>, AllocError>
        ensures { IfOk result (λ called. called ≡ procedures.now) }
    {
        let numbers = numbers_of(alloc, procedures)?;
        let callers = callers_of(alloc, &numbers, procedures)?;
        Ok(Called {
            procedures,
            numbers,
            callers,
        })
    }

    /// The procedures, in text order.
    pub fn procedures(&self) -> &[Procedure]
        ensures { result.now ≡ self.now }
    {
        self.procedures
    }

    /// The number of the first procedure of this name.
    pub fn number_of(&self, name: &Name) -> Option<usize>
        ensures { result ≡ number_by self.now name.now }
    {
        self.numbers.get(name).copied()
    }

    /// Marks those that call the procedure of this number.
    fn mark_callers(
        &self,
        marked: &mut Vec<bool>,
        found: &mut Vec<usize>,
        number: usize,
    ) -> Result<(), AllocError>
        requires there { number < length self.now }
        requires many { length marked.old.items ≡ length self.now }
        ensures right { OnOk result ((p : ℕ) → AreMarked self.now p marked.old.items found.old.items
            → IsMarked marked.old.items number → AreMarked self.now p marked.new.items found.new.items) }
        ensures grows { OnOk result (Grows marked.old.items found.old.items marked.new.items found.new.items) }
        ensures both { OnOk result (AreFound marked.old.items found.old.items
            → AreFound marked.new.items found.new.items) }
        ensures callers { OnOk result ((c : ℕ) → Calls self.now c number → IsMarked marked.new.items c) }
    {
        for caller in self.callers[number].as_slice() {
            mark(marked, found, *caller)?;
        }
        Ok(())
    }

    /// Which procedures are the one of this number or reach it by calls.
    pub fn returning(&self, alloc: Global, number: usize) -> Result<Vec<bool>, AllocError>
        requires { number < length self.now }
        ensures { IfOk result (λ marked. AreReturning self.now number marked.items) }
    {
        let _facts = &self.callers;
        let count = self.procedures.len();
        let mut marked = vec![in alloc; false; count]?;
        let mut found = Vec::new(alloc);
        mark(&mut marked, &mut found, number)?;
        for next in 0..count {
            if next < found.len() {
                let reached = found[next];
                self.mark_callers(&mut marked, &mut found, reached)?;
            }
        }
        Ok(marked)
    }
}
