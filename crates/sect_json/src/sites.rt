//! Sites and their classes as JSON, and the sites to whose objects locals and fields may refer.

ghost use Rattle.std.specs.Prelude.{◌≡◌, ◌<◌, ◌≤◌, ◌++◌, IfOk, IfSome, OnOk, Some, length, map};
ghost use Rattle.std.specs.{Prelude.{slice_get, slice_index_or, []}, String.{string_bytes}};
ghost use Rattle.serde_json.specs.View.{view};
ghost use Rattle.sect_types.specs.{Limits.{most_fields}, Sections.{sections_of}, Sight.{names_of_declared}};
ghost use Rattle.sect_places.specs.{Declarations.{global_of as global_by}, NodeSpans.{IsCallWithin, IsNodeWithin}};
ghost use Rattle.sect_lint.specs.Naming.{found};
ghost use Rattle.sect_emit.specs.{Compiled.{program_of}, Graphed.{graphed_nodes}, Labels.{record_name as record_by}};
ghost use Rattle.sect_json.specs.Values.{list, by_place};
ghost use Rattle.sect_json.specs.Sites.{bytes_json, place_of, call_of, held_json, holder_with, field_json};
ghost use Rattle.sect_json.specs.Sites.{fields_json, local_json, locals_json, site_with, name_bytes, global_json};
ghost use Rattle.sect_json.specs.Sites.{made_json, sites_at, section_sites, sites_json};
ghost use Rattle.sect_json.specs.Sites.{class_json, AreClasses};
ghost use Rattle.sect_json.specs.steps.Inspected.{IsInspected, AreNamesWithin, site_told, made_at};
ghost use Rattle.sect_emit.specs.declared.graphs.GraphOf.TheVariants as graphed;

use crate::context::Inspected;
use sect_emit::{GraphOf, graphed_flow};
use sect_front::{Declaration, GlobalObject, Name, Span, Tree};
use sect_lint::span_value;
use sect_object::Members;
use sect_places::{LineIndex, NameSpan, NodeSpan, NodeSpans, global_of};
use sect_points::{Classes, Holder, PointsTo};
use sect_store::Printer;
use sect_types::{Action, Label};
use serde_json::Value;
use std::alloc::{AllocError, Global};
use std::fmt::Write;

/// Bytes of the text, where there are some.
pub fn bytes_value(
    alloc: Global,
    source: &LineIndex<'_>,
    span: Option<Span>,
) -> Result<Value, AllocError>
    requires { IsCallWithin (length source.now) span }
    ensures { IfOk result (λ v. view v ≡ bytes_json source.now span) }
{
    match span {
        None => Ok(Value::Null),
        Some(span) => span_value(alloc, source, span),
    }
}

/// The sites to whose objects a local or a field may refer.
fn held_value(alloc: Global, points: &PointsTo, holder: Holder) -> Result<Value, AllocError>
    ensures { IfOk result (λ v. view v ≡ held_json points.now holder) }
{
    let mut values = Vec::new(alloc);
    for site in 0..points.sites() {
        if points.has(holder, site) {
            values.push(Value::from(site))?;
        }
    }
    Ok(Value::Array(values))
}

/// A local or a field, and these sites.
fn told_holder(alloc: Global, name: String, sites: Value) -> Result<Value, AllocError>
    ensures { IfOk result (λ v. view v ≡ holder_with (string_bytes name) (view sites)) }
{
    let members = Members::new(alloc)
        .with("name", name)?
        .with("sites", sites)?;
    Ok(members.object())
}

/// A field of the objects of a site.
fn field_value(
    alloc: Global,
    points: &PointsTo,
    site: u16,
    number: u16,
    field: &Declaration,
) -> Result<Value, AllocError>
    ensures { IfOk result (λ v. view v ≡ field_json points.now site number field.now.name) }
{
    let name = format!(in alloc; "{}", field.name)?;
    let sites = held_value(alloc, points, Holder::Slot(site, number))?;
    told_holder(alloc, name, sites)
}

/// The fields of the objects of a site.
fn fields_value(
    alloc: Global,
    points: &PointsTo,
    site: u16,
    fields: &[Declaration],
) -> Result<Value, AllocError>
    requires { length fields.now ≤ most_fields }
    ensures { IfOk result (λ v. view v
        ≡ list (by_place (field_json points.now site) 0 (names_of_declared fields.now))) }
{
    let mut values = Vec::new(alloc);
    for number in 0..fields.len() {
        let value = field_value(alloc, points, site, number as u16, &fields[number])?;
        values.push(value)?;
    }
    Ok(Value::Array(values))
}

/// The fields of the objects of a site of a program.
fn site_fields(
    alloc: Global,
    of: &Inspected<'_>,
    printer: &Printer<'_>,
    site: u16,
) -> Result<Value, AllocError>
    requires { printer.now ≡ program_of of.now.compiled.now }
    ensures { IfOk result (λ v. view v ≡ fields_json of.now.compiled.now site) }
{
    let program = of.compiled.scheme().program();
    program.facts();
    let _facts = program.tree();
    fields_value(
        alloc,
        of.compiled.scheme().classes().points(),
        site,
        printer.fields(site),
    )
}

/// A local of a thread.
fn local_value(
    alloc: Global,
    of: &Inspected<'_>,
    thread: u16,
    local: u16,
) -> Result<Value, AllocError>
    requires { local < length (slice_index_or (program_of of.now.compiled.now).locals thread []) }
    ensures { IfOk result (λ v. view v ≡ local_json of.now.compiled.now thread local) }
{
    let scheme = of.compiled.scheme();
    let called = scheme.program().local_name(thread, local);
    let name = format!(in alloc; "{called}")?;
    let sites = held_value(
        alloc,
        scheme.classes().points(),
        Holder::Local(thread, local),
    )?;
    told_holder(alloc, name, sites)
}

/// The locals of a thread.
pub fn locals_value(alloc: Global, of: &Inspected<'_>, thread: u16) -> Result<Value, AllocError>
    requires { thread < length (program_of of.now.compiled.now).texts }
    ensures { IfOk result (λ v. view v ≡ locals_json of.now.compiled.now thread) }
{
    let program = of.compiled.scheme().program();
    program.facts();
    let mut values = Vec::new(alloc);
    for local in 0..program.locals()[thread as usize].as_slice().len() as u16 {
        values.push(local_value(alloc, of, thread, local)?)?;
    }
    Ok(Value::Array(values))
}

/// What is told of a site, beside its number.
#[derive(Drop)]
pub struct Sited {
    pub call: Value,
    pub fields: Value,
    pub global: Value,
    pub place: Value,
    pub shape: String,
}

/// A site with what is told of it.
fn told_site(alloc: Global, told: Sited, site: u16) -> Result<Value, AllocError>
    ensures { IfOk result (λ v. view v ≡ site_with (site_told told) site) }
{
    let Sited {
        call,
        fields,
        global,
        place,
        shape,
    } = told;
    let members = Members::new(alloc)
        .with("call", call)?
        .with("fields", fields)?
        .with("global", global)?
        .with("place", place)?
        .with("record", shape)?
        .with("site", site)?;
    Ok(members.object())
}

/// The bytes of the name of that number, where one is given.
pub fn found_bytes(names: &[NameSpan], number: Option<usize>) -> Option<Span>
    requires { IfSome number (λ k. k < length names.now) }
    ensures { result ≡ name_bytes (found names.now number) }
{
    Some(names[number?].span)
}

/// Where a global is declared.
fn global_place(alloc: Global, of: &Inspected<'_>, name: &Name) -> Result<Value, AllocError>
    requires { AreNamesWithin (length of.now.source.now) of.now.names.now }
    ensures { IfOk result (λ v. view v ≡ bytes_json of.now.source.now
        (name_bytes (found of.now.names.now (global_by of.now.names.now name.now)))) }
{
    bytes_value(
        alloc,
        of.source,
        found_bytes(of.names, global_of(of.names, name)),
    )
}

/// The site of a global.
fn global_value(
    alloc: Global,
    of: &Inspected<'_>,
    printer: &Printer<'_>,
    site: u16,
    global: &GlobalObject,
) -> Result<Value, AllocError>
    requires inspected { IsInspected of.now }
    requires printer { printer.now ≡ program_of of.now.compiled.now }
    ensures { IfOk result (λ v. view v
        ≡ global_json of.now.compiled.now of.now.source.now of.now.names.now site global.now) }
{
    let told = Sited {
        call: Value::Null,
        fields: site_fields(alloc, of, printer, site)?,
        global: Value::String(format!(in alloc; "{}", global.name)?),
        place: global_place(alloc, of, &global.name)?,
        shape: format!(in alloc; "{}", global.of)?,
    };
    told_site(alloc, told, site)
}

/// The name of a record.
fn record_name(alloc: Global, tree: &Tree, number: u16) -> Result<String, AllocError>
    ensures { IfOk result (λ text. string_bytes text ≡ record_by tree.now number) }
{
    let mut name = String::new(alloc);
    if let Some(declared) = tree.records().get(number as usize) {
        write!(name, "{}", declared.name)?;
    }
    Ok(name)
}

/// The bytes of the call that a node is of.
fn call_value(
    alloc: Global,
    source: &LineIndex<'_>,
    from: Option<NodeSpan>,
) -> Result<Value, AllocError>
    requires { IfSome from (IsNodeWithin (length source.now)) }
    ensures { IfOk result (λ v. view v ≡ bytes_json source.now (call_of from)) }
{
    match from {
        None => Ok(Value::Null),
        Some(span) => bytes_value(alloc, source, span.call),
    }
}

/// The bytes of a node's statement.
fn place_value(
    alloc: Global,
    source: &LineIndex<'_>,
    from: Option<NodeSpan>,
) -> Result<Value, AllocError>
    requires { IfSome from (IsNodeWithin (length source.now)) }
    ensures { IfOk result (λ v. view v ≡ bytes_json source.now (place_of from)) }
{
    match from {
        None => Ok(Value::Null),
        Some(span) => span_value(alloc, source, span.item),
    }
}

/// What a `new` makes: objects of a record, at a site.
#[derive(Clone, Copy)]
struct Made {
    shape: u16,
    site: u16,
}

/// The site of a `new` that comes from there.
fn made_value(
    alloc: Global,
    of: &Inspected<'_>,
    printer: &Printer<'_>,
    from: Option<NodeSpan>,
    made: Made,
) -> Result<Value, AllocError>
    requires from { IfSome from (IsNodeWithin (length of.now.source.now)) }
    requires printer { printer.now ≡ program_of of.now.compiled.now }
    ensures { IfOk result (λ v. view v
        ≡ made_json of.now.compiled.now of.now.source.now from made.shape made.site) }
{
    let told = Sited {
        call: call_value(alloc, of.source, from)?,
        fields: site_fields(alloc, of, printer, made.site)?,
        global: Value::Null,
        place: place_value(alloc, of.source, from)?,
        shape: record_name(alloc, of.compiled.scheme().program().tree(), made.shape)?,
    };
    told_site(alloc, told, made.site)
}

/// What a node makes.
fn made_by(label: Label) -> Option<Made>
    ensures { result ≡ made_at label }
{
    match label {
        Label::Act(Action::New(_, shape, site)) => Some(Made { shape, site }),
        _ => None,
    }
}

/// A node of a section.
#[derive(Clone, Copy)]
struct SectionNode {
    section: u16,
    node: u16,
}

/// Where a node of a section comes from.
fn origin_of(spans: &NodeSpans, node: SectionNode) -> Option<NodeSpan>
    requires { node.section < length spans.now.sections }
    ensures { result ≡ slice_get (slice_index_or spans.now.sections node.section []) node.node }
{
    spans.section(node.section).get(node.node as usize).copied()
}

/// Adds the site of a node of a section, if it is a `new`.
fn put_node(
    alloc: Global,
    values: &mut Vec<Value>,
    of: &Inspected<'_>,
    printer: &Printer<'_>,
    node: SectionNode,
) -> Result<(), AllocError>
    requires inspected { IsInspected of.now }
    requires printer { printer.now ≡ program_of of.now.compiled.now }
    requires section { node.section < length (sections_of (program_of of.now.compiled.now).texts) }
    requires node { node.node < length (graphed_nodes of.now.compiled.now (graphed.Section node.section)) }
    ensures { OnOk result (map view values.new.items ≡ map view values.old.items
        ++ sites_at of.now.compiled.now of.now.source.now of.now.spans.now.sections node.section node.node) }
{
    let flow = graphed_flow(of.compiled, GraphOf::Section(node.section));
    if let Some(made) = made_by(flow.action(node.node)) {
        let from = origin_of(of.spans, node);
        values.push(made_value(alloc, of, printer, from, made)?)?;
    }
    Ok(())
}

/// Adds the sites of the `new` statements of a section.
fn put_section(
    alloc: Global,
    values: &mut Vec<Value>,
    of: &Inspected<'_>,
    printer: &Printer<'_>,
    section: u16,
) -> Result<(), AllocError>
    requires inspected { IsInspected of.now }
    requires printer { printer.now ≡ program_of of.now.compiled.now }
    requires section { section < length (sections_of (program_of of.now.compiled.now).texts) }
    ensures { OnOk result (map view values.new.items ≡ map view values.old.items
        ++ section_sites of.now.compiled.now of.now.source.now of.now.spans.now.sections section) }
{
    for node in 0..graphed_flow(of.compiled, GraphOf::Section(section)).exit() {
        put_node(alloc, values, of, printer, SectionNode { section, node })?;
    }
    Ok(())
}

/// Adds the sites of the globals.
fn put_globals(
    alloc: Global,
    values: &mut Vec<Value>,
    of: &Inspected<'_>,
    printer: &Printer<'_>,
) -> Result<(), AllocError>
    requires inspected { IsInspected of.now }
    requires printer { printer.now ≡ program_of of.now.compiled.now }
    ensures { OnOk result (map view values.new.items ≡ map view values.old.items
        ++ by_place (global_json of.now.compiled.now of.now.source.now of.now.names.now) 0
        (program_of of.now.compiled.now).source.globals) }
{
    let program = of.compiled.scheme().program();
    program.facts();
    let globals = program.tree().globals();
    for number in 0..globals.len() {
        let value = global_value(alloc, of, printer, number as u16, &globals[number])?;
        values.push(value)?;
    }
    Ok(())
}

/// All sites: those of the globals, and then those of the `new` statements.
pub fn site_values(alloc: Global, of: &Inspected<'_>) -> Result<Vec<Value>, AllocError>
    requires { IsInspected of.now }
    ensures { IfOk result (λ values. map view values.items ≡ sites_json of.now.compiled.now of.now.source.now
        of.now.spans.now.sections of.now.names.now) }
{
    let program = of.compiled.scheme().program();
    let printer = Printer::new(alloc, program)?;
    let mut values = Vec::new(alloc);
    put_globals(alloc, &mut values, of, &printer)?;
    for section in 0..program.section_count() {
        put_section(alloc, &mut values, of, &printer, section)?;
    }
    Ok(values)
}

/// The sites of a class, where each site's class is given.
fn class_value(alloc: Global, numbers: &[u16], class: u16) -> Result<Value, AllocError>
    ensures { IfOk result (λ v. view v ≡ class_json numbers.now class) }
{
    let mut sites = Vec::new(alloc);
    for site in 0..numbers.len() {
        if numbers[site] == class {
            sites.push(Value::from(site))?;
        }
    }
    let members = Members::new(alloc)
        .with("class", class)?
        .with("sites", sites)?;
    Ok(members.object())
}

/// All classes, by number.
pub fn class_values(alloc: Global, classes: &Classes) -> Result<Vec<Value>, AllocError>
    ensures { IfOk result (λ values. AreClasses classes.now.numbers (map view values.items)) }
{
    let mut values = Vec::new(alloc);
    for class in 0..classes.class_count() {
        values.push(class_value(alloc, classes.numbers(), class)?)?;
    }
    Ok(values)
}
