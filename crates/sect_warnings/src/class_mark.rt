//! Why a section locks a whole class: the statement that needs it, and the path that gets too long.

ghost use Rattle.std.specs.Prelude.{◌≡◌, ◌<◌, ◌↔◌, ◌-◌, ◌++◌, Some, length, slice_get, true, IfOk, IsTrue, OnOk};
ghost use Rattle.std.specs.{List.{position}, String.{string_bytes}};
ghost use Rattle.sect_lemmas.specs.Lists.{Has};
ghost use Rattle.sect_types.specs.{Items.{items}, Sections.{sections_of}};
ghost use Rattle.sect_places.specs.NodeOrigins.{AreOrigins};
ghost use Rattle.sect_points.specs.Paths.{PathView};
ghost use Rattle.sect_names.specs.{declared.link.Link.{Link}, Locks.{IsPathOf}, Printing.{IsNamed}};
ghost use Rattle.sect_emit.specs.{Words.{IsChainNamed}, Explaining.{section_at}};
ghost use Rattle.sect_conflicts.specs.Conflicts.{set_at};
ghost use Rattle.sect_graph.specs.Layout.{flow_nodes};
ghost use Rattle.sect_warnings.specs.ClassLocks.{class_lock, need_text, limit_text, where_text, IsReason};
ghost use Rattle.sect_warnings.specs.ClassLocks.{IsClassMarked};
ghost use Rattle.sect_warnings.specs.steps.Reasons.{AreReasons, is_on_path as is_on_path_by, IsLong, ArePathsBefore};
ghost use Rattle.sect_warnings.specs.steps.Reasons.{IsTurn, IsLabelled};

use crate::hinting::touched_at;
use crate::reasons::Reasons;
use sect_emit::{Compiled, put_section_node, section_flow, section_thread};
use sect_names::{Effect, Link, Lock, Path, Scheme, put_lock, put_path};
use sect_places::NodeOrigins;
use sect_types::Program;
use std::alloc::{AllocError, Global};
use std::fmt::Write;

/// The lock on all objects of a class, for reading or for writing.
#[derive(Clone, Copy)]
pub struct ClassLock {
    pub class: u16,
    pub effect: Effect,
}

/// Whether this is the lock on the class.
pub fn is_class_lock(lock: &Lock, wanted: ClassLock) -> bool
    ensures { IsTrue result ↔ (lock.now ≡ class_lock wanted.class wanted.effect) }
{
    match lock {
        Lock::Class(class, right) => *class == wanted.class && *right == wanted.effect.right(),
        Lock::All | Lock::Path(_, _) => false,
    }
}

/// The number of the lock on a class in a set that has it.
fn number_in(set: &[Lock], wanted: ClassLock) -> usize
    requires { Has set.now (class_lock wanted.class wanted.effect) }
    ensures { slice_get set.now result ≡ Some (class_lock wanted.class wanted.effect) }
{
    let mut number = 0;
    while !is_class_lock(&set[number], wanted) {
        number += 1;
    }
    number
}

/// Whether a lock is on a path.
fn is_on_path(lock: &Lock) -> bool
    ensures { result ≡ is_on_path_by lock.now }
{
    matches!(lock, Lock::Path(_, _))
}

/// The number of the first step of a chain whose lock is on a path.
fn first_on_path(links: &[Link]) -> Option<usize>
    ensures { result ≡ position (λ (a : Link). is_on_path_by a.lock) links.now }
{
    links.iter().position(|link| is_on_path(&link.lock))
}

/// Whether a path is of a class and has more than k fields.
fn is_long(scheme: &Scheme, path: &Path, class: u16) -> bool
    ensures { IsTrue result ↔ IsLong scheme.now class path.now }
{
    path.fields().len() > scheme.k() as usize && scheme.class_of(path) == Some(class)
}

/// The first of these paths that is of a class and has more than k fields, where one does so.
fn long_in<'a>(scheme: &Scheme, paths: &'a [Path], class: u16) -> &'a Path
    requires { (q : PathView) × Has paths.now q × IsLong scheme.now class q }
    ensures long { IsLong scheme.now class result.now }
    ensures among { Has paths.now result.now }
{
    let mut number = 0;
    while !is_long(scheme, &paths[number], class) {
        number += 1;
    }
    &paths[number]
}

/// The paths that may denote before a node of a section what the path of this lock denotes after it.
fn paths_before(
    alloc: Global,
    compiled: &Compiled,
    section: u16,
    node: u32,
    lock: &Lock,
) -> Result<Vec<Path>, AllocError>
    requires section { section < length (sections_of compiled.now.scheme.program.texts) }
    requires node { node < length (flow_nodes (section_at compiled.now section).body) }
    requires lock { is_on_path_by lock.now ≡ true }
    ensures { IfOk result (λ paths. ArePathsBefore compiled.now section node lock.now paths.items) }
{
    let Lock::Path(path, _) = lock else {
        unreachable!();
    };
    let thread = section_thread(compiled, section);
    let flow = section_flow(compiled, section);
    let _facts = flow.exit();
    let label = flow.action(node as u16);
    compiled.scheme().before(alloc, thread, label, path)
}

/// Adds which lock is needed, and which path that is.
#[tactic(auto, unfolding(crate::specs::ClassLocks::need_text))]
fn put_need(
    text: &mut String,
    program: &Program,
    lock: &Lock,
    path: &Path,
) -> Result<(), AllocError>
    requires lock { IsNamed program.now lock.now }
    requires path { IsPathOf program.now path.now }
    ensures { OnOk result (string_bytes text.new
        ≡ string_bytes text.old ++ need_text program.now.source lock.now path.now) }
{
    text.push_str("needs `")?;
    put_lock(text, program, lock)?;
    text.push_str("`, which is `")?;
    put_path(text, program, path)
}

/// Adds that so many fields are too few.
#[tactic(auto, unfolding(crate::specs::ClassLocks::limit_text))]
fn put_limit(text: &mut String, most: u16) -> Result<(), AllocError>
    ensures { OnOk result (string_bytes text.new ≡ string_bytes text.old ++ limit_text most) }
{
    Ok(write!(text, "`: more fields than `--k {most}` allows")?)
}

/// Adds before which node of a section that is, and what is wrong with it.
#[tactic(auto, unfolding(crate::specs::ClassLocks::where_text))]
fn put_where(
    text: &mut String,
    compiled: &Compiled,
    section: u16,
    node: u32,
) -> Result<(), AllocError>
    requires { section < length (sections_of compiled.now.scheme.program.texts) }
    ensures { OnOk result (string_bytes text.new
        ≡ string_bytes text.old ++ where_text compiled.now section node) }
{
    text.push_str("` before `")?;
    put_section_node(text, compiled, section, node)?;
    put_limit(text, compiled.scheme().k())
}

/// The chain of a class lock that a section takes.
fn reason_in<'a>(compiled: &Compiled, reasons: &'a Reasons, lock: ClassLock) -> &'a [Link]
    requires reasons { AreReasons compiled.now reasons.now }
    requires taken { Has (set_at compiled.now reasons.now.section) (class_lock lock.class lock.effect) }
    ensures reason { IsReason compiled.now reasons.now.section (class_lock lock.class lock.effect) result.now }
    ensures named { IsChainNamed compiled.now.scheme.program result.now }
{
    compiled.facts();
    let number = number_in(compiled.set(reasons.section), lock);
    reasons.chains[number].links()
}

/// The last step of the chain of a class lock.
fn last_link<'a>(compiled: &Compiled, section: u16, lock: ClassLock, links: &'a [Link]) -> &'a Link
    requires section { section < length (sections_of compiled.now.scheme.program.texts) }
    requires reason { IsReason compiled.now section (class_lock lock.class lock.effect) links.now }
    ensures last { slice_get links.now (length links.now - 1) ≡ Some result.now }
    ensures node { result.now.node < length (flow_nodes (section_at compiled.now section).body) }
{
    compiled.facts();
    &links[links.len() - 1]
}

/// Where a chain goes from a class to a path.
#[derive(Clone, Copy)]
struct Turn<'a> {
    /// The node of the last step whose lock is on the class.
    node: u32,
    /// The lock of the step behind it.
    lock: &'a Lock,
}

/// Where the chain of a class lock goes from the class to a path.
fn turn_in<'a>(compiled: &Compiled, section: u16, lock: ClassLock, links: &'a [Link]) -> Turn<'a>
    requires section { section < length (sections_of compiled.now.scheme.program.texts) }
    requires reason { IsReason compiled.now section (class_lock lock.class lock.effect) links.now }
    ensures turn { IsTurn links.now result.node result.lock.now }
    ensures node { result.node < length (flow_nodes (section_at compiled.now section).body) }
    ensures path { is_on_path_by result.lock.now ≡ true }
{
    compiled.facts();
    let turn = first_on_path(links).unwrap();
    Turn {
        node: links[turn - 1].node,
        lock: &links[turn].lock,
    }
}

/// What is said of the statement or the test at the end of the chain of a class lock.
fn class_label_of(
    alloc: Global,
    compiled: &Compiled,
    section: u16,
    lock: ClassLock,
    links: &[Link],
) -> Result<String, AllocError>
    requires section { section < length (sections_of compiled.now.scheme.program.texts) }
    requires reason { IsReason compiled.now section (class_lock lock.class lock.effect) links.now }
    requires named { IsChainNamed compiled.now.scheme.program links.now }
    ensures { IfOk result (λ text.
        IsLabelled compiled.now section lock.class lock.effect links.now (string_bytes text)) }
{
    compiled.facts();
    let scheme = compiled.scheme();
    let turn = turn_in(compiled, section, lock, links);
    let paths = paths_before(alloc, compiled, section, turn.node, turn.lock)?;
    let long = long_in(scheme, paths.as_slice(), lock.class);
    let last = last_link(compiled, section, lock, links);
    let mut text = String::new(alloc);
    put_need(&mut text, scheme.program(), &last.lock, long)?;
    put_where(&mut text, compiled, section, turn.node)?;
    Ok(text)
}

/// Where a section needs a class lock that it takes, along the chain of the lock: the item that is marked, what is said
/// there, and the record of the object that is touched there.
#[derive(Drop)]
pub struct Need {
    pub item: usize,
    pub label: String,
    pub guarded: Option<u16>,
}

/// The same of this section.
pub fn need_of(
    alloc: Global,
    compiled: &Compiled,
    origins: &NodeOrigins,
    reasons: &Reasons,
    lock: ClassLock,
) -> Result<Need, AllocError>
    requires reasons { AreReasons compiled.now reasons.now }
    requires taken { Has (set_at compiled.now reasons.now.section) (class_lock lock.class lock.effect) }
    requires origins { AreOrigins compiled.now.scheme.program origins.now }
    ensures marks { IfOk result (λ need. IsClassMarked compiled.now reasons.now.section lock.class lock.effect need.item
        (string_bytes need.label) need.guarded) }
    ensures within { IfOk result (λ need. need.item < length (items compiled.now.scheme.program.source)) }
{
    compiled.facts();
    let section = reasons.section;
    let links = reason_in(compiled, reasons, lock);
    let last = last_link(compiled, section, lock, links).node;
    let item = origins.section(section)[last as usize].item;
    let guarded = touched_at(compiled, section, last);
    let label = class_label_of(alloc, compiled, section, lock, links)?;
    Ok(Need {
        item,
        label,
        guarded,
    })
}
