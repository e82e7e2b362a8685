//! A walk through the statements of a thread or a procedure.

ghost use Rattle.std.specs.Prelude.{◌≡◌, ◌∷◌, ◌+◌, ◌≤◌, ◌&&◌, IfOk, Some, false, not, nat_le};
ghost use Rattle.sect_types.specs.{Sums.{number_of}, Limits.{most_statements}};
ghost use Rattle.sect_types.specs.Items.{PrimitiveHead, TestHead, AtomicHead, CallHead, AStatement, is_inside};
ghost use Rattle.sect_types.specs.Items.{statement_items, block_items};
ghost use Rattle.sect_types.specs.Rules.{shares, by_place, depth_at, knows_primitive, primitive_agrees, knows_test};
ghost use Rattle.sect_types.specs.Rules.{test_agrees};
ghost use Rattle.sect_types.specs.steps.{Judging.{rule_of}, Spots.{full_for}};
ghost use Rattle.sect_types.specs.steps.{Walks.{Walks, rule_in, of_types, then_rest}, Standing.{declared_by}};
ghost use Rattle.sect_front.specs.{Depth.{statement_depth, block_depth}, Trees.{statement_of}, Limits.{most_depth}};

use crate::rules::place::Standing;
use crate::rules::rule::{Rule, WalkFault};
use crate::rules::scope::Scope;
use crate::rules::spot::Spot;
use sect_front::{Block, Name, Operand, Primitive, Statement, Test};

/// Whether a statement touches what threads share.
fn is_shared(primitive: &Primitive) -> bool
    ensures { result ≡ shares (PrimitiveHead primitive.now) }
{
    match primitive {
        Primitive::Assign(_, _) | Primitive::Compute(_, _, _, _) => false,
        Primitive::New(_, _)
        | Primitive::Load(_, _, _)
        | Primitive::Store(_, _, _)
        | Primitive::Print(_) => true,
    }
}

/// The least rule that a statement without a block breaks, if any.
fn judge_primitive(
    scope: &Scope<'_>,
    spot: &Spot,
    standing: &Standing<'_>,
    primitive: &Primitive,
) -> Result<(), Rule>
    ensures rule { rule_in result ≡ then_rest (of_types (knows_primitive scope.now primitive.now)
        (primitive_agrees scope.now primitive.now))
        (shares (PrimitiveHead primitive.now) && not (is_inside standing.now.at))
        (by_place standing.now.at (full_for spot.now primitive.now) false) }
{
    scope.judge_primitive(primitive)?;
    if is_shared(primitive) && !standing.is_inside() {
        return Err(Rule::SharedOutside);
    }
    if standing.is_in_thread() && spot.is_full_for(primitive) {
        return Err(Rule::TooMany);
    }
    Ok(())
}

/// The least rule that an `if` or a `while` with this test breaks, if any.
fn judge_test(
    scope: &Scope<'_>,
    spot: &Spot,
    standing: &Standing<'_>,
    test: &Test,
) -> Result<(), Rule>
    ensures rule { rule_in result ≡ then_rest (of_types (knows_test scope.now test.now)
        (test_agrees scope.now test.now)) false
        (by_place standing.now.at (nat_le most_statements spot.now.statements) false) }
{
    scope.judge_test(test)?;
    if standing.is_in_thread() && spot.is_full() {
        return Err(Rule::TooMany);
    }
    Ok(())
}

/// The least rule that an `atomic` breaks, if any.
fn judge_atomic(scope: &Scope<'_>, spot: &Spot, standing: &Standing<'_>) -> Result<(), Rule>
    ensures rule { rule_in result ≡ rule_of (declared_by scope.now standing.now.procedures)
        spot.now (AStatement AtomicHead scope.now.locals standing.now.at) }
{
    if standing.is_inside() {
        return Err(Rule::Nested);
    }
    if standing.is_in_thread() && spot.is_full_for_section() {
        return Err(Rule::TooMany);
    }
    Ok(())
}

/// The number of the procedure that is called, or the least rule that the call breaks.
fn judge_call(
    scope: &Scope<'_>,
    spot: &Spot,
    standing: &Standing<'_>,
    name: &Name,
    operands: &[Operand],
) -> Result<usize, Rule>
    requires { depth_at standing.now.at ≤ most_depth }
    ensures rule { rule_in result ≡ rule_of (declared_by scope.now standing.now.procedures)
        spot.now (AStatement (CallHead name.now operands.now) scope.now.locals standing.now.at) }
    ensures number { IfOk result (λ n. number_of standing.now.procedures name.now ≡ Some n) }
{
    let Some(number) = standing.number_of(name) else {
        return Err(Rule::Unknown);
    };
    if !scope.knows_all(operands) {
        return Err(Rule::Unknown);
    }
    let parameters = standing.procedures()[number].parameters.as_slice();
    let agrees = parameters.len() == operands.len();
    if agrees && !scope.accepts_all(parameters, operands) {
        return Err(Rule::WrongType);
    }
    if !standing.is_inside() {
        return Err(Rule::SharedOutside);
    }
    if agrees && standing.passes(spot, number) {
        return Err(Rule::TooMany);
    }
    if standing.is_returned_to(number) {
        return Err(Rule::Recursion);
    }
    if !agrees {
        return Err(Rule::Arguments);
    }
    Ok(number)
}

/// Passes a statement without a block.
fn pass_primitive(
    scope: &Scope<'_>,
    spot: &mut Spot,
    standing: &Standing<'_>,
    primitive: &Primitive,
) -> Result<(), WalkFault>
    ensures { Walks (declared_by scope.now standing.now.procedures)
        (λ w. AStatement (PrimitiveHead primitive.now) scope.now.locals standing.now.at ∷ w)
        spot.old spot.new result }
{
    if let Err(rule) = judge_primitive(scope, spot, standing, primitive) {
        return Err(WalkFault::Broken(spot.item(), rule));
    }
    if standing.is_in_thread() {
        spot.pass_primitive(primitive)?;
    } else {
        spot.pass_item()?;
    }
    Ok(())
}

/// Passes the test of an `if` or a `while`.
fn pass_test(
    scope: &Scope<'_>,
    spot: &mut Spot,
    standing: &Standing<'_>,
    test: &Test,
) -> Result<(), WalkFault>
    ensures { Walks (declared_by scope.now standing.now.procedures)
        (λ w. AStatement (TestHead test.now) scope.now.locals standing.now.at ∷ w)
        spot.old spot.new result }
{
    if let Err(rule) = judge_test(scope, spot, standing, test) {
        return Err(WalkFault::Broken(spot.item(), rule));
    }
    if standing.is_in_thread() {
        spot.pass_test()?;
    } else {
        spot.pass_item()?;
    }
    Ok(())
}

/// Passes an `atomic`.
fn pass_atomic(scope: &Scope<'_>, spot: &mut Spot, standing: &Standing<'_>) -> Result<(), WalkFault>
    ensures { Walks (declared_by scope.now standing.now.procedures)
        (λ w. AStatement AtomicHead scope.now.locals standing.now.at ∷ w)
        spot.old spot.new result }
{
    if let Err(rule) = judge_atomic(scope, spot, standing) {
        return Err(WalkFault::Broken(spot.item(), rule));
    }
    spot.pass_section()?;
    Ok(())
}

/// Passes a call.
fn pass_call(
    scope: &Scope<'_>,
    spot: &mut Spot,
    standing: &Standing<'_>,
    name: &Name,
    operands: &[Operand],
) -> Result<(), WalkFault>
    requires { depth_at standing.now.at ≤ most_depth }
    ensures { Walks (declared_by scope.now standing.now.procedures)
        (λ w. AStatement (CallHead name.now operands.now) scope.now.locals standing.now.at ∷ w)
        spot.old spot.new result }
{
    match judge_call(scope, spot, standing, name, operands) {
        Ok(number) => {
            standing.pass_call(spot, number)?;
            Ok(())
        }
        Err(rule) => Err(WalkFault::Broken(spot.item(), rule)),
    }
}

/// Passes a statement.
#[cycle(walk)]
fn walk_statement(
    scope: &Scope<'_>,
    spot: &mut Spot,
    standing: &Standing<'_>,
    statement: &Statement,
) -> Result<(), WalkFault>
    requires { depth_at standing.now.at + statement_depth (statement_of statement.now) ≤ most_depth }
    ensures { Walks (declared_by scope.now standing.now.procedures)
        (statement_items scope.now.locals standing.now.at (statement_of statement.now))
        spot.old spot.new result }
{
    match statement {
        Statement::Primitive(primitive) => pass_primitive(scope, spot, standing, primitive),
        Statement::If(test, then) => {
            pass_test(scope, spot, standing, test)?;
            walk_block(scope, spot, &standing.deeper(), then)
        }
        Statement::IfElse(test, then, other) => {
            pass_test(scope, spot, standing, test)?;
            walk_block(scope, spot, &standing.deeper(), then)?;
            walk_block(scope, spot, &standing.deeper(), other)
        }
        Statement::While(test, body) => {
            pass_test(scope, spot, standing, test)?;
            walk_block(scope, spot, &standing.deeper(), body)
        }
        Statement::Atomic(_, body) => {
            pass_atomic(scope, spot, standing)?;
            walk_block(scope, spot, &standing.in_section(), body)
        }
        Statement::Call(name, operands) => {
            pass_call(scope, spot, standing, name, operands.as_slice())
        }
    }
}

/// Passes the statements of a block.
#[cycle(walk)]
pub fn walk_block(
    scope: &Scope<'_>,
    spot: &mut Spot,
    standing: &Standing<'_>,
    block: &Block,
) -> Result<(), WalkFault>
    requires { depth_at standing.now.at + block_depth block.now ≤ most_depth }
    ensures { Walks (declared_by scope.now standing.now.procedures)
        (block_items scope.now.locals standing.now.at block.now) spot.old spot.new result }
{
    for statement in block.as_slice() {
        walk_statement(scope, spot, standing, statement)?;
    }
    Ok(())
}
