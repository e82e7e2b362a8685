//! Calls that lead back.

ghost use Rattle.std.specs.Prelude.{◌≡◌, ◌<◌, ◌&&◌, ◌⊎◌, ℕ, IfOk, IfSome, Some, length, filter};
ghost use Rattle.std.specs.Prelude.{map, position, nat_eq, slice_get};
ghost use Rattle.sect_lemmas.specs.Lists.{Has};
ghost use Rattle.sect_places.specs.Declarations.{is_procedure, is_call, is_called};
ghost use Rattle.sect_places.specs.declared.name_use.NameSpan.{NameSpan as ANameSpan};
ghost use Rattle.sect_lint.specs.Calls.{is_call_in as call_in, procedure_item as procedure_by, IsCircle, IsCircleTold};
ghost use Rattle.sect_lint.specs.declared.circle.Link.{Link as ALink};
ghost use Rattle.sect_lint.specs.steps.Linked.{IsLink, AreLinks, AreBelow, AreNext};

use crate::diagnostic::Detail;
use crate::naming::found;
use indexmap::IndexSet;
use sect_front::{Name, Span};
use sect_places::{NameSpan, Role, Thing, procedure_of};
use std::alloc::{AllocError, Global};

/// How many procedures a text may have.
const MOST_PROCEDURES: usize = 64;

/// Whether a name is that of a procedure which is called in the thread or procedure that is this item.
pub fn is_call_in(named: &NameSpan, scope: usize) -> bool
    ensures { result ≡ call_in scope named.now }
{
    named.used.scope == scope && matches!(named.used.role, Role::Procedure)
}

/// The item of the procedure of a name.
pub fn procedure_item(names: &[NameSpan], name: &Name) -> Option<usize>
    ensures { result ≡ procedure_by names.now name.now }
{
    match found(names, procedure_of(names, name)) {
        Some(named) => Some(named.used.item),
        None => None,
    }
}

fn declares_procedure(named: &NameSpan) -> bool
    ensures { result ≡ is_procedure named.now.used.role }
{
    matches!(named.used.role, Role::Declared(Thing::Procedure))
}

fn calls(named: &NameSpan) -> bool
    ensures { result ≡ is_call named.now.used.role }
{
    matches!(named.used.role, Role::Procedure)
}

/// The names by which procedures are declared.
fn declared_procedures(alloc: Global, names: &[NameSpan]) -> Result<Vec<NameSpan>, AllocError>
    ensures { IfOk result (λ list. list.items ≡ filter (λ n. is_procedure n.used.role) names.now) }
{
    names
        .iter()
        .filter(|named| declares_procedure(*named))
        .copied()
        .collect(alloc)
}

/// A call, with the numbers of the procedures in which it stands and that it calls.
#[derive(Clone, Copy)]
struct Link {
    from: usize,
    to: usize,
    call: NameSpan,
}

/// The procedure that is declared in this item.
fn declared_in(declared: &[NameSpan], item: usize) -> Option<usize>
    ensures { result ≡ position (λ d. nat_eq d.used.item item) declared.now }
{
    declared.iter().position(|named| named.used.item == item)
}

/// Whether a procedure is declared by this name.
fn declares(named: &NameSpan, name: &Name) -> bool
    ensures { result ≡ is_called is_procedure name.now named.now }
{
    declares_procedure(named) && *name == named.used.name
}

/// The procedure of this name.
fn declared_as(declared: &[NameSpan], name: &Name) -> Option<usize>
    ensures { result ≡ position (is_called is_procedure name.now) declared.now }
{
    declared.iter().position(|named| declares(named, name))
}

/// A call of a procedure in a procedure, with both.
fn link_of(declared: &[NameSpan], call: &NameSpan) -> Option<Link>
    ensures called { IfSome result (λ link. link.call ≡ call.now) }
    ensures linked { IfSome result (IsLink declared.now) }
{
    if !calls(call) {
        return None;
    }
    Some(Link {
        from: declared_in(declared, call.used.scope)?,
        to: declared_as(declared, &call.used.name)?,
        call: *call,
    })
}

/// The names of the procedures that were seen to be called in one procedure or thread.
#[derive(Drop)]
struct Called {
    /// The item of the procedure or thread.
    scope: usize,
    names: IndexSet<Name>,
}

impl Called {
    /// None.
    fn new(alloc: Global) -> Called {
        Called {
            scope: 0,
            names: IndexSet::new(alloc),
        }
    }

    /// Whether no call of the same procedure was seen in the same procedure or thread; now there was.
    fn is_first(&mut self, alloc: Global, call: &NameSpan) -> Result<bool, AllocError> {
        if call.used.scope != self.scope {
            self.scope = call.used.scope;
            self.names = IndexSet::new(alloc);
        }
        Ok(self.names.insert(call.used.name)?)
    }
}

/// A call of a procedure in a procedure, with both, if it is the first there of that procedure: the others lead on from
/// there no sooner.
fn first_link(
    alloc: Global,
    declared: &[NameSpan],
    called: &mut Called,
    named: &NameSpan,
) -> Result<Option<Link>, AllocError>
    ensures called { IfOk result (λ found. IfSome found (λ link. link.call ≡ named.now)) }
    ensures linked { IfOk result (λ found. IfSome found (IsLink declared.now)) }
{
    if calls(named) && called.is_first(alloc, named)? {
        Ok(link_of(declared, named))
    } else {
        Ok(None)
    }
}

/// Calls of procedures in procedures: by all that there are they lead from one to another.
fn links_of(
    alloc: Global,
    names: &[NameSpan],
    declared: &[NameSpan],
) -> Result<Vec<Link>, AllocError>
    ensures { IfOk result (λ links. AreLinks names.now declared.now links.items) }
{
    let mut called = Called::new(alloc);
    let mut links = Vec::new(alloc);
    for named in names {
        if let Some(link) = first_link(alloc, declared, &mut called, named)? {
            links.push(link)?;
        }
    }
    Ok(links)
}

/// Notes that a procedure goes on by a call, where the last one can be reached so and no other call is noted; and tells
/// whether that is new.
fn mark_link(link: Link, last: usize, next: &mut Vec<Option<Link>>) -> bool
    requires from { link.from < length next.old.items }
    requires to { link.to < length next.old.items }
    ensures many { length next.new.items ≡ length next.old.items }
    ensures next { (q : ℕ) (l : ALink) → slice_get next.new.items q ≡ Some (Some l)
        → (slice_get next.old.items q ≡ Some (Some l)) ⊎ ((q ≡ link.from) × (link ≡ l)) }
{
    let from = link.from;
    let known = next[from];
    let behind = next[link.to];
    let reaches = link.to == last || behind.is_some();
    if known.is_some() || !reaches {
        return false;
    }
    next[from] = Some(link);
    true
}

/// Notes by which call each procedure goes on from which the last one can be reached by calls, as far as that is seen
/// in going over the calls once; and tells whether there were new ones.
fn mark(links: &[Link], last: usize, next: &mut Vec<Option<Link>>) -> bool
    requires within { AreBelow (length next.old.items) links.now }
    requires next { AreNext links.now next.old.items }
    ensures many { length next.new.items ≡ length next.old.items }
    ensures next { AreNext links.now next.new.items }
{
    let mut grew = false;
    for link in links {
        if mark_link(*link, last, next) {
            grew = true;
        }
    }
    grew
}

/// For each of so many procedures from which the last one can be reached by calls, a call in it by which it goes on.
fn next_calls(
    alloc: Global,
    links: &[Link],
    last: usize,
    count: usize,
) -> Result<Vec<Option<Link>>, AllocError>
    requires { AreBelow count links.now }
    ensures many { IfOk result (λ next. length next.items ≡ count) }
    ensures next { IfOk result (λ next. AreNext links.now next.items) }
{
    let mut next = vec![in alloc; None; count]?;
    for _round in 0..count {
        if !mark(links, last, &mut next) {
            break;
        }
    }
    Ok(next)
}

/// The calls by which one comes back from the procedure that is called to that in which the call stands.
fn circle_of(
    alloc: Global,
    names: &[NameSpan],
    declared: &[NameSpan],
    next: &[Option<Link>],
    link: Link,
) -> Result<Option<Vec<NameSpan>>, AllocError>
    requires declared { (d : ANameSpan) → Has declared.now d → Has names.now d }
    requires many { length next.now ≡ length declared.now }
    requires next { (q : ℕ) (l : ALink) → slice_get next.now q ≡ Some (Some l)
        → Has names.now l.call × IsLink declared.now l × (l.from ≡ q) }
    requires link { Has names.now link.call × IsLink declared.now link }
    ensures { IfOk result (λ found. IfSome found (λ calls. IsCircle names.now link.call.used.item calls.items)) }
{
    let mut calls = vec![in alloc; link.call]?;
    let mut at = link.to;
    for _step in 0..next.len() {
        if at == link.from {
            return Ok(Some(calls));
        }
        let known = next[at];
        let Some(more) = known else {
            return Ok(None);
        };
        calls.push(more.call)?;
        at = more.to;
    }
    Ok(None)
}

/// The call of this item.
fn call_at(names: &[NameSpan], item: usize) -> Option<usize>
    ensures is { result ≡ position (λ n. nat_eq n.used.item item && is_call n.used.role) names.now }
    ensures within { IfSome result (λ number. number < length names.now) }
{
    names
        .iter()
        .position(|named| named.used.item == item && calls(named))
}

/// The call of this item, with the procedures in which it stands and that it calls.
fn link_at(names: &[NameSpan], declared: &[NameSpan], item: usize) -> Option<Link>
    ensures item { IfSome result (λ link. link.call.used.item ≡ item) }
    ensures there { IfSome result (λ link. Has names.now link.call) }
    ensures linked { IfSome result (IsLink declared.now) }
{
    link_of(declared, &names[call_at(names, item)?])
}

/// The bytes of names.
fn spans_of(alloc: Global, names: &[NameSpan]) -> Result<Vec<Span>, AllocError>
    ensures { IfOk result (λ spans. spans.items ≡ map (λ n. n.span) names.now) }
{
    names.iter().map(|named| named.span).collect(alloc)
}

/// What is told of a call that leads back.
pub fn circle_detail(alloc: Global, names: &[NameSpan], item: usize) -> Result<Detail, AllocError>
    ensures { IfOk result (IsCircleTold names.now item) }
{
    let declared = declared_procedures(alloc, names)?;
    if declared.len() > MOST_PROCEDURES {
        return Ok(Detail::Nothing);
    }
    let Some(link) = link_at(names, declared.as_slice(), item) else {
        return Ok(Detail::Nothing);
    };
    let links = links_of(alloc, names, declared.as_slice())?;
    let next = next_calls(alloc, links.as_slice(), link.from, declared.len())?;
    match circle_of(alloc, names, declared.as_slice(), next.as_slice(), link)? {
        Some(calls) => Ok(Detail::Circle(spans_of(alloc, calls.as_slice())?)),
        None => Ok(Detail::Nothing),
    }
}
