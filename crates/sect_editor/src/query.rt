//! What is asked of an open document.

ghost use Rattle.std.specs.{Prelude.{◌≡◌, Some, IfOk, length, map, option_map, option_and_then}, List.{list_any}};
ghost use Rattle.serde_json.specs.{View.{view}, Find.{pointer as pointer_by, as_str}};
ghost use Rattle.sect_front.specs.FaultPlaces.{IsWithin};
ghost use Rattle.sect_editor.specs.Queries.{AreNamesOf, declared_at as declared_by, definition_json, uses_by};
ghost use Rattle.sect_editor.specs.Queries.{highlight_json, clashes as clashes_by, takes as takes_by};
ghost use Rattle.sect_editor.specs.Queries.{may_be_called as may_be_called_by, edit_json, rename_json, rename_by};
ghost use Rattle.sect_editor.specs.{Queries.{answer_by, IsAnswer}, Positions.{place_in as place_in_by}};
ghost use Rattle.sect_editor.specs.Ranges.{list, location_json};
ghost use Rattle.sect_editor.specs.steps.Naming.{AreNamesWithin, AreSpansWithin, IsFoundWithin};

use crate::position::{Encoding, Place, offset, place_in};
use crate::ranges::{location_value, range_value};
use crate::referring::{declared_under, uses_of};
use crate::text::OpenText;
use sect_front::{FrontFault, Span, is_name};
use sect_object::Members;
use sect_places::{NameSpan, Role, Thing, name_spans};
use serde_json::{Value, json};
use std::alloc::{AllocError, Global};

/// What may be asked of a document that its names tell.
#[derive(Clone, Copy)]
pub enum Query {
    /// Where the name at a place is declared.
    Definition,
    /// Where what is declared so is named.
    References,
    /// The same, in this document.
    Highlights,
    /// The changes that give it another name.
    Rename,
}

/// A document, its text, and the names of that.
#[derive(Clone, Copy)]
struct Subject<'a> {
    uri: &'a str,
    source: &'a [u8],
    names: &'a [NameSpan],
}

/// The names of a text. One that spells no tree has none.
pub fn names_of(alloc: Global, source: &[u8]) -> Result<Vec<NameSpan>, AllocError>
    ensures names { IfOk result (λ names. AreNamesOf source.now names.items) }
    ensures within { IfOk result (λ names. AreNamesWithin (length source.now) names.items) }
{
    match name_spans(alloc, source) {
        Ok(names) => Ok(names),
        Err(FrontFault::Memory) => Err(AllocError),
        Err(_) => Ok(Vec::new(alloc)),
    }
}

/// The position at a place of a message.
pub fn place_at(message: &Value, path: &str) -> Option<Place>
    ensures { result ≡ option_and_then place_in_by (pointer_by path.now (view message.now)) }
{
    place_in(message.pointer(path)?)
}

/// The declaration of the name at a place, if one is told.
fn declared_at(
    encoding: Encoding,
    source: &[u8],
    names: &[NameSpan],
    place: Option<Place>,
) -> Option<NameSpan>
    ensures { result ≡ declared_by encoding source.now names.now place }
{
    match place {
        Some(place) => declared_under(names, offset(encoding, source, place)),
        None => None,
    }
}

/// Where a name is declared.
fn definition_value(
    alloc: Global,
    uri: &str,
    source: &[u8],
    declared: Option<NameSpan>,
) -> Result<Value, AllocError>
    requires { IsFoundWithin (length source.now) declared }
    ensures { IfOk result (λ v. view v ≡ definition_json uri.now source.now declared) }
{
    match declared {
        Some(declared) => location_value(alloc, uri, source, declared.span),
        None => Ok(Value::Null),
    }
}

/// The bytes of all names that refer to a declaration, if there is one.
fn uses_of_any(
    alloc: Global,
    names: &[NameSpan],
    declared: Option<NameSpan>,
) -> Result<Vec<Span>, AllocError>
    ensures { IfOk result (λ spans. spans.items ≡ uses_by names.now declared) }
{
    match declared {
        Some(declared) => uses_of(alloc, names, &declared),
        None => Ok(Vec::new(alloc)),
    }
}

/// The same, for names that lie in the text.
fn uses(
    alloc: Global,
    source: &[u8],
    names: &[NameSpan],
    declared: Option<NameSpan>,
) -> Result<Vec<Span>, AllocError>
    requires { AreNamesWithin (length source.now) names.now }
    ensures uses { IfOk result (λ spans. spans.items ≡ uses_by names.now declared) }
    ensures within { IfOk result (λ spans. AreSpansWithin (length source.now) spans.items) }
{
    let _text = source;
    let spans = uses_of_any(alloc, names, declared)?;
    Ok(spans)
}

/// Some places of a document.
fn locations_value(
    alloc: Global,
    uri: &str,
    source: &[u8],
    spans: &[Span],
) -> Result<Value, AllocError>
    requires { AreSpansWithin (length source.now) spans.now }
    ensures { IfOk result (λ v. view v ≡ list (map (location_json uri.now source.now) spans.now)) }
{
    let mut values = Vec::new(alloc);
    for span in spans {
        values.push(location_value(alloc, uri, source, *span)?)?;
    }
    Ok(Value::Array(values))
}

/// A place that is marked.
fn highlight_value(alloc: Global, source: &[u8], span: Span) -> Result<Value, AllocError>
    requires { IsWithin (length source.now) span }
    ensures { IfOk result (λ v. view v ≡ highlight_json source.now span) }
{
    json!(in alloc; {"range": range_value(alloc, source, span)?})
}

/// Some places that are marked.
fn highlights_value(alloc: Global, source: &[u8], spans: &[Span]) -> Result<Value, AllocError>
    requires { AreSpansWithin (length source.now) spans.now }
    ensures { IfOk result (λ v. view v ≡ list (map (highlight_json source.now) spans.now)) }
{
    let mut values = Vec::new(alloc);
    for span in spans {
        values.push(highlight_value(alloc, source, *span)?)?;
    }
    Ok(Value::Array(values))
}

/// Whether what is declared so can't have the name of what is declared so too; `here` says whether both stand in one
/// declaration.
fn clashes(declared: Role, role: Role, here: bool) -> bool
    ensures { result ≡ clashes_by declared role here }
{
    match declared {
        Role::Declared(Thing::Record) => matches!(role, Role::Declared(Thing::Record)),
        Role::Declared(Thing::Field) => here && matches!(role, Role::Declared(Thing::Field)),
        Role::Declared(Thing::Global) => {
            matches!(role, Role::Declared(Thing::Global))
                || matches!(role, Role::Declared(Thing::Local))
        }
        Role::Declared(Thing::Procedure) => matches!(role, Role::Declared(Thing::Procedure)),
        Role::Declared(Thing::Thread) => matches!(role, Role::Declared(Thing::Thread)),
        Role::Declared(Thing::Local) => {
            (here && matches!(role, Role::Declared(Thing::Local)))
                || matches!(role, Role::Declared(Thing::Global))
        }
        _ => false,
    }
}

/// Whether a name is declared where what is declared so can't have it.
fn takes(declared: &NameSpan, name: &str, named: &NameSpan) -> bool
    ensures { result ≡ takes_by declared.now name.now named.now }
{
    let here = named.used.scope == declared.used.scope;
    named.used.name.as_bytes() == name.as_bytes()
        && clashes(declared.used.role, named.used.role, here)
}

/// Whether a name is declared anywhere where what is declared so can't have it.
fn is_taken(names: &[NameSpan], declared: &NameSpan, name: &str) -> bool
    ensures { result ≡ list_any (takes_by declared.now name.now) names.now }
{
    names.iter().any(|named| takes(declared, name, named))
}

/// Whether what is declared may have this name.
fn may_be_called(names: &[NameSpan], declared: &NameSpan, name: &str) -> bool
    ensures { result ≡ may_be_called_by names.now declared.now name.now }
{
    is_name(name.as_bytes()) && !is_taken(names, declared, name)
}

/// A change of some bytes to a name.
fn edit_value(alloc: Global, source: &[u8], name: &str, span: Span) -> Result<Value, AllocError>
    requires { IsWithin (length source.now) span }
    ensures { IfOk result (λ v. view v ≡ edit_json source.now name.now span) }
{
    let members = Members::new(alloc)
        .with("newText", name)?
        .with_made("range", range_value(alloc, source, span))?;
    Ok(members.object())
}

/// Changes of some places to a name.
fn edits_value(
    alloc: Global,
    source: &[u8],
    name: &str,
    spans: &[Span],
) -> Result<Value, AllocError>
    requires { AreSpansWithin (length source.now) spans.now }
    ensures { IfOk result (λ v. view v ≡ list (map (edit_json source.now name.now) spans.now)) }
{
    let mut values = Vec::new(alloc);
    for span in spans {
        values.push(edit_value(alloc, source, name, *span)?)?;
    }
    Ok(Value::Array(values))
}

/// The changes of a document that give what is declared another name.
fn rename_value(
    alloc: Global,
    subject: &Subject<'_>,
    name: &str,
    declared: &NameSpan,
) -> Result<Value, AllocError>
    requires { AreNamesWithin (length subject.now.source.now) subject.now.names.now }
    ensures { IfOk result (λ v. view v ≡ rename_json subject.now.uri.now subject.now.source.now name.now
        (uses_by subject.now.names.now (Some declared.now))) }
{
    let spans = uses(alloc, subject.source, subject.names, Some(*declared))?;
    let uri = subject.uri;
    json!(in alloc; {"changes": {(uri): edits_value(alloc, subject.source, name, spans.as_slice())?}})
}

/// What is answered where another name is wanted: nothing, if it can't be given.
fn rename_answer(
    alloc: Global,
    subject: &Subject<'_>,
    declared: Option<NameSpan>,
    name: Option<&str>,
) -> Result<Option<Value>, AllocError>
    requires { AreNamesWithin (length subject.now.source.now) subject.now.names.now }
    ensures { IfOk result (λ answer. option_map view answer ≡ rename_by subject.now.uri.now subject.now.source.now
        subject.now.names.now declared (option_map (λ n. n.now) name.entry)) }
{
    match (declared, name) {
        (Some(declared), Some(name)) => {
            if may_be_called(subject.names, &declared, name) {
                Ok(Some(rename_value(alloc, subject, name, &declared)?))
            } else {
                Ok(None)
            }
        }
        _ => Ok(None),
    }
}

/// What is answered of a document, where a message tells a place whose name has this declaration.
fn answer_of(
    alloc: Global,
    query: Query,
    subject: &Subject<'_>,
    declared: Option<NameSpan>,
    name: Option<&str>,
) -> Result<Option<Value>, AllocError>
    requires names { AreNamesWithin (length subject.now.source.now) subject.now.names.now }
    requires declared { IsFoundWithin (length subject.now.source.now) declared }
    ensures { IfOk result (λ answer. option_map view answer ≡ answer_by query subject.now.uri.now subject.now.source.now
        subject.now.names.now declared (option_map (λ n. n.now) name.entry)) }
{
    let (uri, source) = (subject.uri, subject.source);
    let value = match query {
        Query::Definition => definition_value(alloc, uri, source, declared)?,
        Query::References => {
            let spans = uses(alloc, source, subject.names, declared)?;
            locations_value(alloc, uri, source, spans.as_slice())?
        }
        Query::Highlights => {
            let spans = uses(alloc, source, subject.names, declared)?;
            highlights_value(alloc, source, spans.as_slice())?
        }
        Query::Rename => return rename_answer(alloc, subject, declared, name),
    };
    Ok(Some(value))
}

/// The text at a place of a message.
pub fn text_at<'a>(message: &'a Value, path: &str) -> Option<&'a str>
    ensures { option_map (λ text. text.now) result
        ≡ option_and_then as_str (pointer_by path.now (view message.entry.now)) }
{
    message.pointer(path).and_then(Value::as_str)
}

/// What is answered to a message that asks something of a document: a value, or nothing where a name can't be given.
pub fn answer_query(
    alloc: Global,
    query: Query,
    text: OpenText<'_>,
    message: &Value,
) -> Result<Option<Value>, AllocError>
    ensures { IfOk result (λ answer. IsAnswer query text.entry.reading.encoding (view message.now) text.entry.uri.now
        text.entry.source.now (option_map view answer)) }
{
    let names = names_of(alloc, text.source)?;
    let place = place_at(message, "/params/position");
    let declared = declared_at(text.reading.encoding, text.source, names.as_slice(), place);
    let subject = Subject {
        uri: text.uri,
        source: text.source,
        names: names.as_slice(),
    };
    let name = text_at(message, "/params/newName");
    answer_of(alloc, query, &subject, declared, name)
}
