//! Which objects a declared name may refer to, and how both are told.

ghost use Rattle.std.specs.Prelude.{◌≡◌, ◌<◌, ◌≤◌, ◌↔◌, ◌&&◌, ◌++◌, ◌-◌, ℕ, Some, IfOk, OnOk, IsTrue, All, length};
ghost use Rattle.std.specs.{Prelude.{nat_lt, slice_get, slice_index_or}, List.{list_any}, String.{string_bytes}};
ghost use Rattle.sect_points.specs.{Sets.{InSets}, declared.holders.Holder.TheVariants.{Local, Slot}};
ghost use Rattle.sect_places.specs.Declarations.{is_record, is_global, is_thread, does_in};
ghost use Rattle.sect_editor.specs.Hovering.{type_text, kind_text, declaration_line, declared_before, referrer_by};
ghost use Rattle.sect_editor.specs.Hovering.{RefersTo, AreSitesOf, record_numbers, sites_in as sites_in_by, class_line};
ghost use Rattle.sect_editor.specs.Hovering.{class_lines, IsNameTold};

use crate::marks::put_others;
use crate::referring::type_of;
use sect_emit::Compiled;
use sect_places::{NameSpan, Role, Thing};
use sect_points::{Classes, Holder, PointsTo};
use sect_store::site_records;
use sect_types::{MOST_FIELDS, MOST_SITES};
use std::alloc::{AllocError, Global};
use std::fmt::Write;

/// What may refer to objects.
#[derive(Clone, Copy)]
pub enum Referrer {
    /// The global of this number.
    Global(usize),
    /// The thread of this number, and its local of that one.
    Local(usize, usize),
    /// The record of this number, and its field of that one.
    Field(usize, usize),
    Nothing,
}

/// Adds the type of a declaration.
fn put_type(text: &mut String, of: Option<NameSpan>) -> Result<(), AllocError>
    ensures { OnOk result (string_bytes text.new ≡ string_bytes text.old ++ type_text of) }
{
    match of {
        Some(named) => Ok(write!(text, "{}", named.used.name)?),
        None => text.push_str("int"),
    }
}

/// Adds what stands before the name that is declared.
fn put_kind(text: &mut String, names: &[NameSpan], declared: &NameSpan) -> Result<(), AllocError>
    ensures { OnOk result (string_bytes text.new
        ≡ string_bytes text.old ++ kind_text names.now declared.now declared.now.used.role) }
{
    let of = type_of(names, Some(*declared));
    match declared.used.role {
        Role::Declared(Thing::Record) => text.push_str("record"),
        Role::Declared(Thing::Procedure) => text.push_str("proc"),
        Role::Declared(Thing::Thread) => text.push_str("thread"),
        Role::Declared(Thing::Global) => {
            text.push_str("global ")?;
            put_type(text, of)
        }
        _ => put_type(text, of),
    }
}

/// Adds a declaration.
fn put_declaration(
    text: &mut String,
    names: &[NameSpan],
    declared: &NameSpan,
) -> Result<(), AllocError>
    ensures { OnOk result (string_bytes text.new ≡ string_bytes text.old ++ declaration_line names.now declared.now) }
{
    put_kind(text, names, declared)?;
    Ok(write!(text, " {}\n", declared.used.name)?)
}

fn is_record_before(named: &NameSpan, item: usize) -> bool
    ensures { result ≡ (is_record named.now.used.role && nat_lt named.now.used.item item) }
{
    matches!(named.used.role, Role::Declared(Thing::Record)) && named.used.item < item
}

fn is_global_before(named: &NameSpan, item: usize) -> bool
    ensures { result ≡ (is_global named.now.used.role && nat_lt named.now.used.item item) }
{
    matches!(named.used.role, Role::Declared(Thing::Global)) && named.used.item < item
}

fn is_thread_before(named: &NameSpan, item: usize) -> bool
    ensures { result ≡ (is_thread named.now.used.role && nat_lt named.now.used.item item) }
{
    matches!(named.used.role, Role::Declared(Thing::Thread)) && named.used.item < item
}

fn is_thread_at(named: &NameSpan, item: usize) -> bool
    ensures { result ≡ does_in is_thread item named.now }
{
    named.used.item == item && matches!(named.used.role, Role::Declared(Thing::Thread))
}

/// How many records are declared before an item.
fn records_before(names: &[NameSpan], item: usize) -> usize
    ensures { result ≡ declared_before is_record item names.now }
{
    names
        .iter()
        .filter(|named| is_record_before(*named, item))
        .count()
}

/// How many globals are declared before an item.
fn globals_before(names: &[NameSpan], item: usize) -> usize
    ensures { result ≡ declared_before is_global item names.now }
{
    names
        .iter()
        .filter(|named| is_global_before(*named, item))
        .count()
}

/// How many threads are declared before an item.
fn threads_before(names: &[NameSpan], item: usize) -> usize
    ensures { result ≡ declared_before is_thread item names.now }
{
    names
        .iter()
        .filter(|named| is_thread_before(*named, item))
        .count()
}

/// Whether a thread is declared by an item.
fn has_thread(names: &[NameSpan], item: usize) -> bool
    ensures { result ≡ list_any (does_in is_thread item) names.now }
{
    names.iter().any(|named| is_thread_at(named, item))
}

/// The number of a field or a local in its declaration.
fn number_in(scope: usize, item: usize) -> usize
    ensures { result ≡ item - scope - 1 }
{
    item.saturating_sub(scope).saturating_sub(1)
}

/// What refers to objects by this name.
fn referrer_of(names: &[NameSpan], declared: &NameSpan) -> Referrer
    ensures { result ≡ referrer_by names.now declared.now declared.now.used.role }
{
    let (scope, item) = (declared.used.scope, declared.used.item);
    match declared.used.role {
        Role::Declared(Thing::Global) => Referrer::Global(globals_before(names, item)),
        Role::Declared(Thing::Field) => {
            Referrer::Field(records_before(names, scope), number_in(scope, item))
        }
        Role::Declared(Thing::Local) => {
            if has_thread(names, scope) {
                Referrer::Local(threads_before(names, scope), number_in(scope, item))
            } else {
                Referrer::Nothing
            }
        }
        _ => Referrer::Nothing,
    }
}

/// Whether a local of a thread may refer to objects of a site.
fn local_has(points: &PointsTo, thread: usize, local: usize, site: u16) -> bool
    requires { site < MOST_SITES }
    ensures { IsTrue result ↔ InSets points.now (Local thread local) site }
{
    match points.locals().get(thread) {
        Some(rows) => rows.has(local, site),
        None => false,
    }
}

/// Whether a field of the objects of a site may refer to objects of another one.
fn slot_has(points: &PointsTo, base: usize, field: usize, site: u16) -> bool
    requires base { base < MOST_SITES }
    requires site { site < MOST_SITES }
    ensures { IsTrue result ↔ InSets points.now (Slot base field) site }
{
    field < MOST_FIELDS && points.slots().has(base * MOST_FIELDS + field, site)
}

/// Whether a field of a record may refer to objects of a site, where the record of each site is given.
fn field_has(points: &PointsTo, records: &[u16], of: usize, field: usize, site: u16) -> bool
    requires few { length records.now ≤ MOST_SITES }
    requires site { site < MOST_SITES }
    ensures { IsTrue result ↔ ((base : ℕ) × (slice_get records.now base ≡ Some of)
        × InSets points.now (Slot base field) site) }
{
    for base in 0..records.len() {
        if usize::from(records[base]) == of && slot_has(points, base, field, site) {
            return true;
        }
    }
    false
}

/// Whether something may refer to objects of a site.
fn refers_to(points: &PointsTo, records: &[u16], referrer: Referrer, site: u16) -> bool
    requires few { length records.now ≤ MOST_SITES }
    requires site { site < MOST_SITES }
    ensures { IsTrue result ↔ RefersTo records.now points.now referrer site }
{
    match referrer {
        Referrer::Global(global) => usize::from(site) == global,
        Referrer::Local(thread, local) => local_has(points, thread, local, site),
        Referrer::Field(of, field) => field_has(points, records, of, field, site),
        Referrer::Nothing => false,
    }
}

/// The sites to whose objects something may refer, where the record of each site is given.
fn sites_of(
    alloc: Global,
    classes: &Classes,
    records: &[u16],
    referrer: Referrer,
) -> Result<Vec<u16>, AllocError>
    requires { length records.now ≤ MOST_SITES }
    ensures sites { IfOk result (λ sites. AreSitesOf records.now classes.now.sets referrer sites.items) }
    ensures below { IfOk result (λ sites. All (λ s. s < length classes.now.numbers) sites.items) }
{
    classes.parted();
    let points = classes.points();
    let mut sites = Vec::new(alloc);
    for site in 0..points.sites() {
        if refers_to(points, records, referrer, site) {
            sites.push(site)?;
        }
    }
    Ok(sites)
}

/// The class of a site.
fn class_of(classes: &Classes, site: u16) -> u16
    requires { site < length classes.now.numbers }
    ensures { result ≡ slice_index_or classes.now.numbers site 0 }
{
    classes.class_of_site(site)
}

/// Those sites that are in a class.
fn sites_in(
    alloc: Global,
    classes: &Classes,
    class: u16,
    sites: &[u16],
) -> Result<Vec<u16>, AllocError>
    requires { All (λ s. s < length classes.now.numbers) sites.now }
    ensures { IfOk result (λ found. found.items ≡ sites_in_by classes.now.numbers class sites.now) }
{
    let mut found = Vec::new(alloc);
    for site in sites {
        if class_of(classes, *site) == class {
            found.push(*site)?;
        }
    }
    Ok(found)
}

/// Adds a class and its sites, where there are some.
fn put_class(text: &mut String, class: u16, sites: &[u16]) -> Result<(), AllocError>
    ensures { OnOk result (string_bytes text.new ≡ string_bytes text.old ++ class_line class sites.now) }
{
    match sites {
        [] => Ok(()),
        [first, others @ ..] => {
            write!(text, "class {class}, sites {}", *first)?;
            put_others(text, others)?;
            text.push_str("\n")
        }
    }
}

/// Adds sites by their classes.
fn put_sites(
    alloc: Global,
    text: &mut String,
    classes: &Classes,
    sites: &[u16],
) -> Result<(), AllocError>
    requires { All (λ s. s < length classes.now.numbers) sites.now }
    ensures { OnOk result (string_bytes text.new ≡ string_bytes text.old ++ class_lines classes.now.numbers sites.now) }
{
    classes.parted();
    for class in 0..classes.points().sites() {
        let found = sites_in(alloc, classes, class, sites)?;
        put_class(text, class, found.as_slice())?;
    }
    Ok(())
}

/// The sites to whose objects a declared name may refer.
fn declared_sites(
    alloc: Global,
    compiled: &Compiled,
    referrer: Referrer,
) -> Result<Vec<u16>, AllocError>
    ensures sites { IfOk result (λ sites.
        AreSitesOf (record_numbers compiled.now) compiled.now.scheme.classes.sets referrer sites.items) }
    ensures below { IfOk result (λ sites. All (λ s. s < length compiled.now.scheme.classes.numbers) sites.items) }
{
    let scheme = compiled.scheme();
    scheme.program().facts();
    let records = site_records(alloc, scheme.program())?;
    sites_of(alloc, scheme.classes(), records.as_slice(), referrer)
}

/// What is told of a declaration.
fn declared_text(
    alloc: Global,
    compiled: &Compiled,
    names: &[NameSpan],
    declared: &NameSpan,
) -> Result<String, AllocError>
    ensures { IfOk result (λ text. IsNameTold compiled.now names.now (Some declared.now) (string_bytes text)) }
{
    let sites = declared_sites(alloc, compiled, referrer_of(names, declared))?;
    let mut text = String::from_str(alloc, "```\n")?;
    put_declaration(&mut text, names, declared)?;
    put_sites(
        alloc,
        &mut text,
        compiled.scheme().classes(),
        sites.as_slice(),
    )?;
    text.push_str("```\n")?;
    Ok(text)
}

/// What is told of the declaration that a name refers to, if there is one.
pub fn name_text(
    alloc: Global,
    compiled: &Compiled,
    names: &[NameSpan],
    declared: Option<NameSpan>,
) -> Result<String, AllocError>
    ensures { IfOk result (λ text. IsNameTold compiled.now names.now declared (string_bytes text)) }
{
    match declared {
        Some(declared) => declared_text(alloc, compiled, names, &declared),
        None => Ok(String::new(alloc)),
    }
}
