//! Statements and tests in C.

ghost use Rattle.std.specs.Prelude.{◌≡◌, ◌<◌, ◌++◌, Some, codes, length, slice_get, OnOk};
ghost use Rattle.std.specs.String.{string_bytes};
ghost use Rattle.sect_names.specs.Locks.{IsField};
ghost use Rattle.sect_c.specs.Naming.{member_c, value_c};
ghost use Rattle.sect_graph.specs.declared.flow.Node.{Node};
ghost use Rattle.sect_emit.specs.Naming.{IsLocalOf, IsValueOf, IsBaseOf, IsActionOf, IsConditionOf, IsLabelOf};
ghost use Rattle.sect_emit.specs.Naming.{AreNodesOf};
ghost use Rattle.sect_c.specs.Statements.{place_c, jump_c, fault_c, is_looked as looked_by, null_test_c, load_c};
ghost use Rattle.sect_c.specs.Statements.{store_c};
ghost use Rattle.sect_c.specs.Statements.{operation_c, compute_c, is_local as local_by, target_c, action_c};
ghost use Rattle.sect_c.specs.Statements.{is_reference_type, is_reference as reference_by, comparison_c, condition_c};
ghost use Rattle.sect_c.specs.Statements.{successors_c, crossing_c, deed_c, fuel_c, opening_c, node_c};
ghost use Rattle.sect_types.specs.declared.expansion.action.Action.TheVariants.{Assign, Load, Print};
ghost use Rattle.sect_types.specs.declared.expansion.action.Base.TheVariants.{Local as OfLocal};
ghost use Rattle.sect_emit.specs.Listing.{by_number};

use crate::context::{Context, Member, Standing};
use crate::naming::{put_local, put_member, put_value};
use crate::types::local_type;
use sect_emit::{GraphOf, put_label};
use sect_front::{Comparison, Operator};
use sect_graph::{Flow, Successors};
use sect_types::{Action, Base, Condition, Field, Label, Value, ValueType};
use std::alloc::AllocError;
use std::fmt::Write;

/// Adds the label of a node.
pub fn put_place(text: &mut String, graph: GraphOf, node: u16) -> Result<(), AllocError>
    ensures { OnOk result (string_bytes text.new ≡ string_bytes text.old ++ place_c graph node) }
{
    match graph {
        GraphOf::Thread(_) => Ok(write!(text, "n{node}")?),
        GraphOf::Section(section) => Ok(write!(text, "s{section}_{node}")?),
    }
}

/// Adds a jump to a node.
fn put_jump(text: &mut String, graph: GraphOf, node: u16) -> Result<(), AllocError>
    ensures { OnOk result (string_bytes text.new ≡ string_bytes text.old ++ jump_c graph node) }
{
    text.push_str("goto ")?;
    put_place(text, graph, node)?;
    text.push_str(";")
}

/// Adds what ends the thread with a fault.
fn put_fault(text: &mut String, standing: &Standing, fault: &str) -> Result<(), AllocError>
    ensures { OnOk result (string_bytes text.new ≡ string_bytes text.old ++ fault_c standing.now fault.now) }
{
    write!(text, " {{ end = {fault}; ")?;
    put_jump(text, standing.graph, standing.exit)?;
    text.push_str(" }\n")
}

/// Whether a field may be read while others write it.
pub fn is_looked(looked: &[Field], field: Field) -> bool
    ensures { result ≡ looked_by looked.now field }
{
    looked.iter().any(|other| other.of == field.of && other.number == field.number)
}

/// Adds the test of a local that may be null.
fn put_local_test(
    text: &mut String,
    context: &Context<'_>,
    standing: &Standing,
    local: u16,
) -> Result<(), AllocError>
    requires { IsLocalOf context.now.program.now standing.now.thread local }
    ensures { OnOk result (string_bytes text.new ≡ string_bytes text.old
        ++ null_test_c context.now.program.now.source standing.now (OfLocal local)) }
{
    text.push_str("  if (")?;
    put_local(text, context.program, standing.thread, local)?;
    text.push_str(" == NULL)")?;
    put_fault(text, standing, "SECT_NULL")
}

/// Adds the test of a base that may be null.
fn put_null_test(
    text: &mut String,
    context: &Context<'_>,
    standing: &Standing,
    base: Base,
) -> Result<(), AllocError>
    requires { IsBaseOf context.now.program.now standing.now.thread base }
    ensures { OnOk result (string_bytes text.new
        ≡ string_bytes text.old ++ null_test_c context.now.program.now.source standing.now base) }
{
    match base {
        Base::Global(_) => Ok(()),
        Base::Local(local) => put_local_test(text, context, standing, local),
    }
}

/// Adds a load.
fn put_load(
    text: &mut String,
    context: &Context<'_>,
    standing: &Standing,
    member: Member,
) -> Result<(), AllocError>
    requires base { IsBaseOf context.now.program.now standing.now.thread member.base }
    requires field { IsField context.now.program.now member.field }
    ensures { OnOk result (string_bytes text.new ≡ string_bytes text.old
        ++ load_c context.now.program.now.source context.now.looked.now standing.now member) }
{
    if is_looked(context.looked, member.field) {
        text.push_str("SECT_GET(&")?;
        put_member(text, context.program, standing.thread, member)?;
        text.push_str(")")
    } else {
        put_member(text, context.program, standing.thread, member)
    }
}

/// Adds a store to an atomic field.
fn put_atomic_store(
    text: &mut String,
    context: &Context<'_>,
    standing: &Standing,
    member: Member,
    value: Value,
) -> Result<(), AllocError>
    requires base { IsBaseOf context.now.program.now standing.now.thread member.base }
    requires field { IsField context.now.program.now member.field }
    requires value { IsValueOf context.now.program.now standing.now.thread value }
    ensures { OnOk result (string_bytes text.new ≡ string_bytes text.old
        ++ (codes "  SECT_PUT(&" ++ member_c context.now.program.now.source standing.now.thread member ++ codes ", "
        ++ value_c context.now.program.now.source standing.now.thread value ++ codes ");\n")) }
{
    text.push_str("  SECT_PUT(&")?;
    put_member(text, context.program, standing.thread, member)?;
    text.push_str(", ")?;
    put_value(text, context.program, standing.thread, value)?;
    text.push_str(");\n")?;
    Ok(())
}

/// Adds a store to a plain field.
fn put_plain_store(
    text: &mut String,
    context: &Context<'_>,
    standing: &Standing,
    member: Member,
    value: Value,
) -> Result<(), AllocError>
    requires base { IsBaseOf context.now.program.now standing.now.thread member.base }
    requires field { IsField context.now.program.now member.field }
    requires value { IsValueOf context.now.program.now standing.now.thread value }
    ensures { OnOk result (string_bytes text.new ≡ string_bytes text.old
        ++ (codes "  " ++ member_c context.now.program.now.source standing.now.thread member ++ codes " = "
        ++ value_c context.now.program.now.source standing.now.thread value ++ codes ";\n")) }
{
    text.push_str("  ")?;
    put_member(text, context.program, standing.thread, member)?;
    text.push_str(" = ")?;
    put_value(text, context.program, standing.thread, value)?;
    text.push_str(";\n")?;
    Ok(())
}

/// Adds a store.
fn put_store(
    text: &mut String,
    context: &Context<'_>,
    standing: &Standing,
    member: Member,
    value: Value,
) -> Result<(), AllocError>
    requires base { IsBaseOf context.now.program.now standing.now.thread member.base }
    requires field { IsField context.now.program.now member.field }
    requires value { IsValueOf context.now.program.now standing.now.thread value }
    ensures { OnOk result (string_bytes text.new ≡ string_bytes text.old
        ++ store_c context.now.program.now.source context.now.looked.now standing.now member value) }
{
    if is_looked(context.looked, member.field) {
        put_atomic_store(text, context, standing, member, value)
    } else {
        put_plain_store(text, context, standing, member, value)
    }
}

/// The function of an operator.
fn operation(operator: Operator) -> &'static str
    ensures { result.now ≡ operation_c operator }
{
    match operator {
        Operator::Add => "sect_add",
        Operator::Subtract => "sect_subtract",
        Operator::Multiply => "sect_multiply",
    }
}

/// A sum, a difference or a product.
#[derive(Clone, Copy)]
struct Computed {
    left: Value,
    operator: Operator,
    right: Value,
}

/// Adds what a local becomes, and what is done where that is out of range.
fn put_compute(
    text: &mut String,
    context: &Context<'_>,
    standing: &Standing,
    target: u16,
    computed: Computed,
) -> Result<(), AllocError>
    requires target { IsLocalOf context.now.program.now standing.now.thread target }
    requires left { IsValueOf context.now.program.now standing.now.thread computed.left }
    requires right { IsValueOf context.now.program.now standing.now.thread computed.right }
    ensures { OnOk result (string_bytes text.new ≡ string_bytes text.old ++ compute_c context.now.program.now.source
        standing.now target computed.left computed.operator computed.right) }
{
    write!(text, "  if ({}(&", operation(computed.operator))?;
    put_local(text, context.program, standing.thread, target)?;
    text.push_str(", ")?;
    put_value(text, context.program, standing.thread, computed.left)?;
    text.push_str(", ")?;
    put_value(text, context.program, standing.thread, computed.right)?;
    text.push_str("))")?;
    put_fault(text, standing, "SECT_OVERFLOW")
}

/// Adds the local that is assigned to, and the sign behind it.
fn put_target(
    text: &mut String,
    context: &Context<'_>,
    standing: &Standing,
    target: u16,
) -> Result<(), AllocError>
    requires { IsLocalOf context.now.program.now standing.now.thread target }
    ensures { OnOk result (string_bytes text.new
        ≡ string_bytes text.old ++ target_c context.now.program.now.source standing.now target) }
{
    text.push_str("  ")?;
    put_local(text, context.program, standing.thread, target)?;
    text.push_str(" = ")
}

/// Whether a value is what a local holds.
fn is_local(local: u16, value: &Value) -> bool
    ensures { result ≡ local_by local value.now }
{
    match value {
        Value::Local(other) => *other == local,
        Value::Number(_) | Value::Null | Value::Global(_) => false,
    }
}

/// Adds an assignment, unless a local becomes what it is.
fn put_assign(
    text: &mut String,
    context: &Context<'_>,
    standing: &Standing,
    target: u16,
    value: Value,
) -> Result<(), AllocError>
    requires target { IsLocalOf context.now.program.now standing.now.thread target }
    requires value { IsValueOf context.now.program.now standing.now.thread value }
    ensures { OnOk result (string_bytes text.new ≡ string_bytes text.old
        ++ action_c context.now.program.now.source context.now.looked.now standing.now (Assign target value)) }
{
    if is_local(target, &value) {
        return Ok(());
    }
    put_target(text, context, standing, target)?;
    put_value(text, context.program, standing.thread, value)?;
    text.push_str(";\n")
}

/// Adds a print.
fn put_print(
    text: &mut String,
    context: &Context<'_>,
    standing: &Standing,
    value: Value,
) -> Result<(), AllocError>
    requires { IsValueOf context.now.program.now standing.now.thread value }
    ensures { OnOk result (string_bytes text.new ≡ string_bytes text.old
        ++ action_c context.now.program.now.source context.now.looked.now standing.now (Print value)) }
{
    text.push_str("  sect_print(me, ")?;
    put_value(text, context.program, standing.thread, value)?;
    text.push_str(");\n")?;
    Ok(())
}

/// Adds a load to a local, of an object that is there.
fn put_loaded(
    text: &mut String,
    context: &Context<'_>,
    standing: &Standing,
    target: u16,
    member: Member,
) -> Result<(), AllocError>
    requires target { IsLocalOf context.now.program.now standing.now.thread target }
    requires base { IsBaseOf context.now.program.now standing.now.thread member.base }
    requires field { IsField context.now.program.now member.field }
    ensures { OnOk result (string_bytes text.new ≡ string_bytes text.old
        ++ (target_c context.now.program.now.source standing.now target
        ++ load_c context.now.program.now.source context.now.looked.now standing.now member ++ codes ";\n")) }
{
    put_target(text, context, standing, target)?;
    put_load(text, context, standing, member)?;
    text.push_str(";\n")?;
    Ok(())
}

/// Adds a load, which ends the thread where the object isn't there.
fn put_loading(
    text: &mut String,
    context: &Context<'_>,
    standing: &Standing,
    target: u16,
    member: Member,
) -> Result<(), AllocError>
    requires target { IsLocalOf context.now.program.now standing.now.thread target }
    requires base { IsBaseOf context.now.program.now standing.now.thread member.base }
    requires field { IsField context.now.program.now member.field }
    ensures { OnOk result (string_bytes text.new ≡ string_bytes text.old
        ++ action_c context.now.program.now.source context.now.looked.now standing.now
        (Load target member.base member.field)) }
{
    put_null_test(text, context, standing, member.base)?;
    put_loaded(text, context, standing, target, member)
}

/// Adds a statement.
fn put_action(
    text: &mut String,
    context: &Context<'_>,
    standing: &Standing,
    action: Action,
) -> Result<(), AllocError>
    requires { IsActionOf context.now.program.now standing.now.thread action }
    ensures { OnOk result (string_bytes text.new ≡ string_bytes text.old
        ++ action_c context.now.program.now.source context.now.looked.now standing.now action) }
{
    match action {
        Action::Assign(target, value) => put_assign(text, context, standing, target, value),
        Action::Compute(target, left, operator, right) => {
            let computed = Computed {
                left,
                operator,
                right,
            };
            put_compute(text, context, standing, target, computed)
        }
        Action::New(target, of, _site) => {
            put_target(text, context, standing, target)?;
            text.push_str("sect_make(me, sizeof *")?;
            put_local(text, context.program, standing.thread, target)?;
            Ok(write!(text, ", {of});\n")?)
        }
        Action::Load(target, base, field) => {
            put_loading(text, context, standing, target, Member { base, field })
        }
        Action::Store(base, field, value) => {
            put_null_test(text, context, standing, base)?;
            put_store(text, context, standing, Member { base, field }, value)
        }
        Action::Print(value) => put_print(text, context, standing, value),
    }
}

/// Whether a type is that of references.
fn is_of_references(of: ValueType) -> bool
    ensures { result ≡ is_reference_type of }
{
    match of {
        ValueType::Int => false,
        ValueType::Refers(_) => true,
    }
}

/// Whether a value is a reference.
fn is_reference(context: &Context<'_>, thread: u16, value: Value) -> bool
    requires { IsValueOf context.now.program.now thread value }
    ensures { result ≡ reference_by context.now.program.now thread value }
{
    match value {
        Value::Number(_) => false,
        Value::Null | Value::Global(_) => true,
        Value::Local(local) => is_of_references(local_type(context.program, thread, local)),
    }
}

/// The function that tells whether a test holds.
fn comparison(of: Comparison, is_of_references: bool) -> &'static str
    ensures { result.now ≡ comparison_c of is_of_references }
{
    match (of, is_of_references) {
        (Comparison::Equal, false) => "sect_equal",
        (Comparison::Equal, true) => "sect_same",
        (Comparison::NotEqual, false) => "!sect_equal",
        (Comparison::NotEqual, true) => "!sect_same",
        (Comparison::Less, _) => "sect_less",
        (Comparison::LessOrEqual, _) => "sect_at_most",
    }
}

/// Adds a test.
fn put_condition(
    text: &mut String,
    context: &Context<'_>,
    thread: u16,
    condition: Condition,
) -> Result<(), AllocError>
    requires { IsConditionOf context.now.program.now thread condition }
    ensures { OnOk result (string_bytes text.new
        ≡ string_bytes text.old ++ condition_c context.now.program.now thread condition) }
{
    let of_references = is_reference(context, thread, condition.left);
    let function = comparison(condition.comparison, of_references);
    write!(text, "  if ({function}(")?;
    put_value(text, context.program, thread, condition.left)?;
    text.push_str(", ")?;
    put_value(text, context.program, thread, condition.right)?;
    text.push_str("))\n  ")
}

/// Adds where control goes on from a node.
fn put_successors(
    text: &mut String,
    graph: GraphOf,
    successors: Successors,
) -> Result<(), AllocError>
    ensures { OnOk result (string_bytes text.new ≡ string_bytes text.old ++ successors_c graph successors) }
{
    text.push_str("  ")?;
    match successors {
        Successors::Next(next) => put_jump(text, graph, next)?,
        Successors::Branch(holds, fails) => {
            put_jump(text, graph, holds)?;
            text.push_str("\n  else ")?;
            put_jump(text, graph, fails)?;
        }
    }
    text.push_str("\n")
}

/// Adds the jump to a section, and where that comes back to.
fn put_crossing(text: &mut String, standing: &Standing, section: u16) -> Result<(), AllocError>
    ensures { OnOk result (string_bytes text.new ≡ string_bytes text.old ++ crossing_c standing.now section) }
{
    write!(
        text,
        "  goto s{section};\n s{section}_left: if (end != SECT_DONE) "
    )?;
    put_jump(text, standing.graph, standing.exit)?;
    text.push_str("\n")?;
    Ok(())
}

/// Adds what is done at a node.
fn put_deed(
    text: &mut String,
    context: &Context<'_>,
    standing: &Standing,
    label: Label,
) -> Result<(), AllocError>
    requires { IsLabelOf context.now.program.now standing.now.thread label }
    ensures { OnOk result (string_bytes text.new ≡ string_bytes text.old
        ++ deed_c context.now.program.now context.now.looked.now standing.now label) }
{
    match label {
        Label::Act(action) => put_action(text, context, standing, action),
        Label::Test(condition) => put_condition(text, context, standing.thread, condition),
        Label::Section(section) => put_crossing(text, standing, section),
    }
}

/// Adds what takes the fuel of a node.
fn put_fuel(text: &mut String, standing: &Standing, label: &Label) -> Result<(), AllocError>
    ensures { OnOk result (string_bytes text.new ≡ string_bytes text.old ++ fuel_c standing.now label.now) }
{
    match label {
        Label::Section(_) => text.push_str("(void)0"),
        Label::Act(_) | Label::Test(_) => {
            text.push_str("SECT_STEP(")?;
            put_place(text, standing.graph, standing.exit)?;
            text.push_str(")")
        }
    }
}

/// Adds the opening of a node: its label, the fuel that it takes and its statement as a comment.
fn put_opening(
    text: &mut String,
    context: &Context<'_>,
    standing: &Standing,
    node: u16,
    label: Label,
) -> Result<(), AllocError>
    requires { IsLabelOf context.now.program.now standing.now.thread label }
    ensures { OnOk result (string_bytes text.new
        ≡ string_bytes text.old ++ opening_c context.now.program.now.source standing.now node label) }
{
    text.push_str(" ")?;
    put_place(text, standing.graph, node)?;
    text.push_str(": ")?;
    put_fuel(text, standing, &label)?;
    text.push_str("; /* ")?;
    put_label(text, context.program, standing.thread, label)?;
    text.push_str(" */\n")?;
    Ok(())
}

/// Adds a node.
pub fn put_node(
    text: &mut String,
    context: &Context<'_>,
    standing: &Standing,
    flow: &Flow,
    node: u16,
) -> Result<(), AllocError>
    requires within { node < length flow.now }
    requires named { AreNodesOf context.now.program.now standing.now.thread flow.now }
    ensures { OnOk result ((of : Node) → slice_get flow.now node ≡ Some of → string_bytes text.new
        ≡ string_bytes text.old ++ node_c context.now.program.now context.now.looked.now standing.now node of) }
{
    put_opening(text, context, standing, node, flow.action(node))?;
    put_deed(text, context, standing, flow.action(node))?;
    put_successors(text, standing.graph, flow.succ(node))
}

/// Adds the nodes of a graph.
pub fn put_nodes(
    text: &mut String,
    context: &Context<'_>,
    standing: &Standing,
    flow: &Flow,
) -> Result<(), AllocError>
    requires { AreNodesOf context.now.program.now standing.now.thread flow.now }
    ensures { OnOk result (string_bytes text.new ≡ string_bytes text.old
        ++ by_number (node_c context.now.program.now context.now.looked.now standing.now) 0 flow.now) }
{
    for node in 0..flow.exit() {
        put_node(text, context, standing, flow, node)?;
    }
    Ok(())
}
