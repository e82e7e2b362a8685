//! What the expansion of a call comes to, found without expanding. Counting stops one past each limit.

ghost use Rattle.std.specs.{Prelude.{◌≡◌, ◌+◌, ◌≤◌, IfOk, OnOk, Some, length, map, min}, List.{AllByRecursion}};
ghost use Rattle.sect_front.specs.Trees.{statement_of};
ghost use Rattle.sect_types.specs.Sums.{nothing as nothing_by, both, around, primitive_sums as primitive_sums_by};
ghost use Rattle.sect_types.specs.Sums.{sums_at as sums_at_by, statement_sums as statement_sums_by};
ghost use Rattle.sect_types.specs.{Sums.{block_sums as block_sums_by, call_sums, sums}, Limits.{most_locals}};
ghost use Rattle.sect_types.specs.steps.Capped.{capped, IsSmall, AreSmall, HaveFewVariables};
ghost use Rattle.sect_types.specs.steps.Summaries.{deeper as deeper_by, summary_sums as summary_sums_by, HasMore};
ghost use Rattle.sect_types.specs.steps.Summaries.{IsSummary, AreSummaries};

use crate::declarations::limits::{MOST_CALLS, MOST_SITES, MOST_STATEMENTS};
use crate::rules::called::Called;
use sect_front::{Block, MOST_DEPTH, Primitive, Procedure, Statement};
use std::alloc::{AllocError, Global};

/// Where counting statements stops, and fresh locals, each of which takes a statement.
const PAST_STATEMENTS: u16 = MOST_STATEMENTS as u16 + 1;

/// Where counting sites stops.
const PAST_SITES: u16 = MOST_SITES + 1;

/// Where counting calls stops.
const PAST_CALLS: u16 = MOST_CALLS + 1;

/// Where counting blocks in one another stops.
const PAST_DEPTH: u16 = MOST_DEPTH as u16 + 1;

/// How many statements, sites, calls and fresh locals there are, and how many blocks stand in one another.
#[derive(Clone, Copy)]
pub struct Sums {
    pub statements: u16,
    pub sites: u16,
    pub calls: u16,
    pub fresh: u16,
    pub deep: u16,
}

/// No statements.
fn nothing() -> Sums
    ensures sums { result ≡ nothing_by }
    ensures small { IsSmall result }
{
    Sums {
        statements: 0,
        sites: 0,
        calls: 0,
        fresh: 0,
        deep: 0,
    }
}

/// One after another.
fn joined(first: Sums, second: Sums) -> Sums
    requires first { IsSmall first }
    requires second { IsSmall second }
    ensures sums { result ≡ capped (both first second) }
    ensures small { IsSmall result }
{
    Sums {
        statements: (first.statements + second.statements).min(PAST_STATEMENTS),
        sites: (first.sites + second.sites).min(PAST_SITES),
        calls: (first.calls + second.calls).min(PAST_CALLS),
        fresh: (first.fresh + second.fresh).min(PAST_STATEMENTS),
        deep: first.deep.max(second.deep),
    }
}

/// The same in so many blocks.
fn deeper(depth: u16, inner: Sums) -> Sums
    requires { IsSmall inner }
    ensures sums { result ≡ capped (deeper_by depth inner) }
    ensures small { IsSmall result }
{
    Sums {
        deep: (depth.min(PAST_DEPTH) + inner.deep).min(PAST_DEPTH),
        ..inner
    }
}

/// In how many blocks a statement stands whose block stands in so many.
fn inside(depth: u16) -> u16
    ensures { result ≡ min (depth + 1) PAST_DEPTH }
{
    depth.min(MOST_DEPTH as u16) + 1
}

/// A statement with blocks, but for what stands in them.
fn head() -> Sums
    ensures sums { result ≡ around nothing_by }
    ensures small { IsSmall result }
{
    Sums {
        statements: 1,
        deep: 1,
        ..nothing()
    }
}

/// A statement without a block.
fn primitive_sums(primitive: &Primitive) -> Sums
    ensures sums { result ≡ primitive_sums_by primitive.now }
    ensures small { IsSmall result }
{
    let sites = match primitive {
        Primitive::New(_, _) => 1,
        _ => 0,
    };
    Sums {
        statements: 1,
        sites,
        ..nothing()
    }
}

/// A call in the body of a procedure: the number of the procedure that it calls, and in how many blocks it stands.
#[derive(Clone, Copy)]
struct Met {
    callee: usize,
    depth: u16,
}

/// What a call of a procedure comes to: all but the calls in its body, and these calls.
#[derive(Drop)]
struct Summary {
    own: Sums,
    calls: Vec<Met>,
}

impl Summary {
    /// Adds what stands in so many blocks.
    fn add(&mut self, depth: u16, sums: Sums)
        requires own { IsSmall self.old.own }
        requires sums { IsSmall sums }
        ensures { HasMore self.old self.new (λ table. deeper_by depth sums) }
    {
        self.own = joined(self.own, deeper(depth, sums));
    }

    /// Adds a call of the procedure of this number, in so many blocks.
    fn add_call(&mut self, depth: u16, callee: usize) -> Result<(), AllocError>
        requires { IsSmall self.old.own }
        ensures { OnOk result (HasMore self.old self.new (λ table. deeper_by depth (sums_at_by table (Some callee)))) }
    {
        self.calls.push(Met { callee, depth })?;
        Ok(())
    }
}

/// Adds a statement that stands in so many blocks.
#[cycle(sum)]
fn add_statement(
    summary: &mut Summary,
    called: &Called<'_>,
    depth: u16,
    statement: &Statement,
) -> Result<(), AllocError>
    requires { IsSmall summary.old.own }
    ensures { OnOk result (HasMore summary.old summary.new
        (λ table. deeper_by depth (statement_sums_by called.now table (statement_of statement.now)))) }
{
    match statement {
        Statement::Primitive(primitive) => summary.add(depth, primitive_sums(primitive)),
        Statement::If(_, then) => {
            summary.add(depth, head());
            add_block(summary, called, inside(depth), then)?;
        }
        Statement::IfElse(_, then, other) => {
            summary.add(depth, head());
            add_block(summary, called, inside(depth), then)?;
            add_block(summary, called, inside(depth), other)?;
        }
        Statement::While(_, body) => {
            summary.add(depth, head());
            add_block(summary, called, inside(depth), body)?;
        }
        Statement::Atomic(_, body) => {
            summary.add(depth, head());
            add_block(summary, called, inside(depth), body)?;
        }
        Statement::Call(name, _) => match called.number_of(name) {
            None => summary.add(depth, nothing()),
            Some(callee) => summary.add_call(depth, callee)?,
        },
    }
    Ok(())
}

/// Adds a block whose statements stand in so many blocks.
#[cycle(sum)]
fn add_block(
    summary: &mut Summary,
    called: &Called<'_>,
    depth: u16,
    block: &Block,
) -> Result<(), AllocError>
    requires { IsSmall summary.old.own }
    ensures { OnOk result (HasMore summary.old summary.new
        (λ table. deeper_by depth (block_sums_by called.now table block.now))) }
{
    for statement in block.as_slice() {
        add_statement(summary, called, depth, statement)?;
    }
    summary.add(depth, nothing());
    Ok(())
}

/// What a call of the procedure comes to but for its body: an assignment for each parameter and local.
fn outer_sums(procedure: &Procedure) -> Sums
    requires { length procedure.now.parameters + length procedure.now.locals ≤ most_locals }
    ensures sums { result
        ≡ call_sums (length procedure.now.parameters + length procedure.now.locals) nothing_by }
    ensures small { IsSmall result }
{
    let variables = procedure.parameters.as_slice().len() + procedure.locals.as_slice().len();
    let variables = variables as u16;
    Sums {
        statements: variables,
        calls: 1,
        fresh: variables,
        ..nothing()
    }
}

/// What a call of the procedure comes to. The body is gone over once.
fn summary_of(
    alloc: Global,
    called: &Called<'_>,
    procedure: &Procedure,
) -> Result<Summary, AllocError>
    requires { length procedure.now.parameters + length procedure.now.locals ≤ most_locals }
    ensures { IfOk result (IsSummary called.now procedure.now) }
{
    let mut summary = Summary {
        own: outer_sums(procedure),
        calls: Vec::new(alloc),
    };
    add_block(&mut summary, called, 0, &procedure.body)?;
    Ok(summary)
}

/// What a call of each procedure comes to.
fn summaries(alloc: Global, called: &Called<'_>) -> Result<Vec<Summary>, AllocError>
    requires { HaveFewVariables called.now }
    ensures { IfOk result (λ summaries. AreSummaries called.now summaries.items) }
{
    let mut summaries = Vec::new(alloc);
    for procedure in called.procedures() {
        summaries.push(summary_of(alloc, called, procedure)?)?;
    }
    Ok(summaries)
}

/// What a call of the procedure of this number comes to.
fn sums_at(table: &[Sums], number: usize) -> Sums
    requires { AreSmall table.now }
    ensures sums { result ≡ sums_at_by table.now (Some number) }
    ensures small { IsSmall result }
{
    if number < table.len() {
        table[number]
    } else {
        nothing()
    }
}

/// What a call comes to, where a call in the body comes to what the table has.
fn summary_sums(summary: &Summary, table: &[Sums]) -> Sums
    requires own { IsSmall summary.now.own }
    requires table { AreSmall table.now }
    ensures sums { result ≡ capped (summary_sums_by table.now summary.now) }
    ensures small { IsSmall result }
{
    let mut sums = summary.own;
    for met in summary.calls.as_slice() {
        sums = joined(sums, deeper(met.depth, sums_at(table, met.callee)));
    }
    sums
}

/// What a call of each procedure comes to, where a call in its body comes to what the table has.
fn round(alloc: Global, summaries: &[Summary], table: &[Sums]) -> Result<Vec<Sums>, AllocError>
    requires own { AllByRecursion (λ s. IsSmall s.own) summaries.now }
    requires table { AreSmall table.now }
    ensures sums { IfOk result (λ next. next.items
        ≡ map (λ s. capped (summary_sums_by table.now s)) summaries.now) }
    ensures small { IfOk result (λ next. AreSmall next.items) }
{
    let mut next = Vec::new(alloc);
    for summary in summaries {
        next.push(summary_sums(summary, table))?;
    }
    Ok(next)
}

/// What a call of each procedure comes to, where none is it or reaches it.
pub fn table(alloc: Global, called: &Called<'_>) -> Result<Vec<Sums>, AllocError>
    requires { HaveFewVariables called.now }
    ensures { IfOk result (λ table. table.items ≡ map capped (sums called.now)) }
{
    let summaries = summaries(alloc, called)?;
    let mut table = Vec::new(alloc);
    for _ in 0..summaries.len() {
        table = round(alloc, summaries.as_slice(), table.as_slice())?;
    }
    Ok(table)
}
