//! Refusals as documents.

ghost use Rattle.std.specs.{Prelude.{◌≡◌, ◌≤◌, IfOk, codes, false, length, option_map}, String.{string_bytes}};
ghost use Rattle.serde_json.specs.{View.{view}, Written.{has_float}};
ghost use Rattle.sect_json.specs.Values.{document_text};
ghost use Rattle.sect_answers.specs.Refused.{front_json, type_json, scheme_json, source_json, workers_json};
ghost use Rattle.sect_answers.specs.Refused.{serial_json, states_json, world_json, refused_json, bare_json, keyed_json};
ghost use Rattle.sect_answers.specs.Refused.{memory_json, place_json, IsMistakePlace, IsPlaceTold, refusal_json};
ghost use Rattle.sect_answers.specs.Refused.{IsToldOf};

use crate::placed::PlacedText;
use crate::printing::NO_MEMORY;
use crate::refusal::Refusal;
use sect_front::FrontFault;
use sect_infer::InferFault;
use sect_lint::{Judgment, lint};
use sect_names::{SchemeFault, SourceRefusal};
use sect_object::Members;
use sect_places::position_of;
use sect_serial::{OutcomesFault, SerialFault};
use sect_types::TypeFault;
use sect_world::WorldFault;
use serde_json::{Value, json};
use std::alloc::{AllocError, Global};

/// A refusal of a source text as a document: what it says and, of a file, its name and where the mistake stands.
/// Reports and refusals of certificates have no document.
pub fn refusal_document(
    alloc: Global,
    text: PlacedText<'_>,
    k: u16,
    why: &Refusal,
) -> Result<Option<String>, AllocError>
    ensures { IfOk result (λ told. IsToldOf (option_map (λ file. file.now) text.entry.file) text.entry.source.now k
        why.now (refused_json why.now) (option_map string_bytes told)) }
{
    let Some(refused) = refused_value(alloc, why)? else {
        return Ok(None);
    };
    let place = place_told(alloc, text, k, why)?;
    let value = refusal_value(alloc, text.file, place, refused)?;
    Ok(Some(document(alloc, &value)?))
}

/// The text of a document: its value without blanks, and a line feed.
fn document(alloc: Global, value: &Value) -> Result<String, AllocError>
    requires { has_float (view value.now) ≡ false }
    ensures { IfOk result (λ text. string_bytes text ≡ document_text (view value.now)) }
{
    let mut text = value.to_string(alloc)?;
    text.push_str("\n")?;
    Ok(text)
}

/// The value of a document.
fn refusal_value(
    alloc: Global,
    file: Option<&str>,
    place: Option<Value>,
    refused: Value,
) -> Result<Value, AllocError>
    ensures { IfOk result (λ v. view v
        ≡ refusal_json (option_map (λ name. name.now) file.entry) (option_map view place) (view refused)) }
{
    let Some(file) = file else {
        return json!(in alloc; {"refused": refused});
    };
    match place {
        Some(place) => json!(in alloc; {"file": file, "place": place, "refused": refused}),
        None => json!(in alloc; {"file": file, "refused": refused}),
    }
}

/// The place that is told with a refusal.
fn place_told(
    alloc: Global,
    text: PlacedText<'_>,
    k: u16,
    why: &Refusal,
) -> Result<Option<Value>, AllocError>
    ensures { IfOk result (λ place. IsPlaceTold (option_map (λ file. file.now) text.entry.file)
        text.entry.source.now k why.now (option_map view place)) }
{
    if text.file.is_none() {
        return Ok(None);
    }
    match why {
        Refusal::Source(_) => mistake_place(alloc, text.source, k),
        _ => Ok(None),
    }
}

/// The place of the mistake for which a source text is refused. There is none where the text is accepted, or where no
/// path may have so many fields.
fn mistake_place(alloc: Global, source: &[u8], k: u16) -> Result<Option<Value>, AllocError>
    ensures { IfOk result (λ place. IsMistakePlace source.now k (option_map view place)) }
{
    match lint(alloc, source, k) {
        Ok(Judgment::Refused(diagnostic)) => {
            Ok(Some(place_value(alloc, source, diagnostic.span.start)?))
        }
        Err(SourceRefusal::Memory) => Err(AllocError),
        Ok(Judgment::Accepted(_)) | Err(_) => Ok(None),
    }
}

/// A place.
fn place_value(alloc: Global, source: &[u8], at: usize) -> Result<Value, AllocError>
    requires { at ≤ length source.now }
    ensures { IfOk result (λ v. view v ≡ place_json source.now at) }
{
    let position = position_of(source, at);
    let (line, column) = (position.line, position.column);
    json!(in alloc; {"column": column, "line": line, "offset": at})
}

/// What a refusal says.
fn refused_value(alloc: Global, why: &Refusal) -> Result<Option<Value>, AllocError>
    ensures { IfOk result (λ value. option_map view value ≡ refused_json why.now) }
{
    let value = match why {
        Refusal::Memory | Refusal::Report(_) | Refusal::Check(_) => return Ok(None),
        Refusal::Source(why) => source_value(alloc, why)?,
        Refusal::Workers(why) => workers_value(alloc, *why)?,
        Refusal::Serial(why) => serial_value(alloc, why)?,
        Refusal::Outcomes(why) => states_value(alloc, why)?,
        Refusal::Schedule(why) => world_value(alloc, why)?,
        Refusal::Section(section) => {
            keyed_value(alloc, 71, "NoSuchSection", "section", u64::from(*section))?
        }
    };
    Ok(Some(value))
}

/// A refusal of this number and name.
fn bare_value(alloc: Global, code: u16, name: &str) -> Result<Value, AllocError>
    ensures { IfOk result (λ v. view v ≡ bare_json code name.now) }
{
    json!(in alloc; {"code": code, "name": name})
}

/// A refusal of this number and name, and what it tells under a key.
fn keyed_value(
    alloc: Global,
    code: u16,
    name: &str,
    key: &str,
    number: u64,
) -> Result<Value, AllocError>
    ensures { IfOk result (λ v. view v ≡ keyed_json code name.now key.now number) }
{
    let members = Members::new(alloc)
        .with("code", code)?
        .with("name", name)?
        .with(key, number)?;
    Ok(members.object())
}

/// A refusal at a line of the text.
fn at_line(alloc: Global, code: u16, name: &str, line: usize) -> Result<Value, AllocError>
    ensures { IfOk result (λ v. view v ≡ keyed_json code name.now (codes "line") line) }
{
    keyed_value(alloc, code, name, "line", line as u64)
}

/// A refusal at an item.
fn at_item(alloc: Global, code: u16, name: &str, item: u64) -> Result<Value, AllocError>
    ensures { IfOk result (λ v. view v ≡ keyed_json code name.now (codes "item") item) }
{
    keyed_value(alloc, code, name, "item", item)
}

/// A refusal of a record.
fn of_record(alloc: Global, code: u16, name: &str, number: u16) -> Result<Value, AllocError>
    ensures { IfOk result (λ v. view v ≡ keyed_json code name.now (codes "record") number) }
{
    keyed_value(alloc, code, name, "record", u64::from(number))
}

/// A refusal of a thread.
fn of_thread(alloc: Global, code: u16, name: &str, thread: u16) -> Result<Value, AllocError>
    ensures { IfOk result (λ v. view v ≡ keyed_json code name.now (codes "thread") thread) }
{
    keyed_value(alloc, code, name, "thread", u64::from(thread))
}

/// What stands for a refusal for want of memory, which is never printed.
fn memory_value(alloc: Global) -> Result<Value, AllocError>
    ensures { IfOk result (λ v. view v ≡ memory_json) }
{
    Ok(Value::String(String::from_str(alloc, NO_MEMORY)?))
}

/// Why a source text is refused.
fn source_value(alloc: Global, why: &SourceRefusal) -> Result<Value, AllocError>
    ensures { IfOk result (λ v. view v ≡ source_json why.now) }
{
    match why {
        SourceRefusal::Memory => memory_value(alloc),
        SourceRefusal::Front(why) => front_value(alloc, why),
        SourceRefusal::Types(why) => type_value(alloc, why),
        SourceRefusal::Scheme(why) => scheme_value(alloc, why),
    }
}

/// Why a text spells no program.
fn front_value(alloc: Global, why: &FrontFault) -> Result<Value, AllocError>
    ensures { IfOk result (λ v. view v ≡ front_json why.now) }
{
    match why {
        FrontFault::Memory => memory_value(alloc),
        FrontFault::BadByte { line } => at_line(alloc, 1, "BadByte", *line),
        FrontFault::BadNumber { line } => at_line(alloc, 2, "BadNumber", *line),
        FrontFault::LongName { line } => at_line(alloc, 3, "LongName", *line),
        FrontFault::Unexpected { line } => at_line(alloc, 4, "Unexpected", *line),
        FrontFault::UnexpectedEnd { line } => at_line(alloc, 5, "UnexpectedEnd", *line),
        FrontFault::TooDeep { line } => at_line(alloc, 6, "TooDeep", *line),
        FrontFault::TooLarge => at_line(alloc, 7, "TooLarge", 1),
    }
}

/// Which rule is broken at which item.
fn type_value(alloc: Global, why: &TypeFault) -> Result<Value, AllocError>
    ensures { IfOk result (λ v. view v ≡ type_json why.now) }
{
    match why {
        TypeFault::Memory => memory_value(alloc),
        TypeFault::Unknown { item } => at_item(alloc, 10, "Unknown", *item),
        TypeFault::Twice { item } => at_item(alloc, 11, "Twice", *item),
        TypeFault::WrongType { item } => at_item(alloc, 12, "WrongType", *item),
        TypeFault::SharedOutside { item } => at_item(alloc, 13, "SharedOutside", *item),
        TypeFault::Nested { item } => at_item(alloc, 14, "Nested", *item),
        TypeFault::TooMany { item } => at_item(alloc, 15, "TooMany", *item),
        TypeFault::Recursion { item } => at_item(alloc, 16, "Recursion", *item),
        TypeFault::Arguments { item } => at_item(alloc, 17, "Arguments", *item),
    }
}

/// Why there is no scheme.
fn scheme_value(alloc: Global, why: &SchemeFault) -> Result<Value, AllocError>
    ensures { IfOk result (λ v. view v ≡ scheme_json why.now) }
{
    match why {
        SchemeFault::Memory => memory_value(alloc),
        SchemeFault::BadK => bare_value(alloc, 60, "BadK"),
        SchemeFault::NoSuchGlobal { record } => of_record(alloc, 20, "NoSuchGlobal", *record),
        SchemeFault::GuardIsGuarded { record } => of_record(alloc, 21, "GuardIsGuarded", *record),
        SchemeFault::HintTwice { record } => of_record(alloc, 22, "HintTwice", *record),
    }
}

/// Why there are no such workers.
fn workers_value(alloc: Global, why: InferFault) -> Result<Value, AllocError>
    ensures { IfOk result (λ v. view v ≡ workers_json why) }
{
    match why {
        InferFault::BadWorkers => bare_value(alloc, 61, "BadWorkers"),
        InferFault::Memory => memory_value(alloc),
    }
}

/// Why an order is refused.
fn serial_value(alloc: Global, why: &SerialFault) -> Result<Value, AllocError>
    ensures { IfOk result (λ v. view v ≡ serial_json why.now) }
{
    match why {
        SerialFault::Memory => memory_value(alloc),
        SerialFault::NoSection { thread } => of_thread(alloc, 80, "NoSection", *thread),
        SerialFault::SectionsLeft { thread } => of_thread(alloc, 81, "SectionsLeft", *thread),
    }
}

/// Why outcomes aren't listed.
fn states_value(alloc: Global, why: &OutcomesFault) -> Result<Value, AllocError>
    ensures { IfOk result (λ v. view v ≡ states_json why.now) }
{
    match why {
        OutcomesFault::Memory => memory_value(alloc),
        OutcomesFault::TooManyStates => bare_value(alloc, 90, "TooManyStates"),
    }
}

/// Why a schedule is refused.
fn world_value(alloc: Global, why: &WorldFault) -> Result<Value, AllocError>
    ensures { IfOk result (λ v. view v ≡ world_json why.now) }
{
    match why {
        WorldFault::Memory => memory_value(alloc),
        WorldFault::NoSuchThread(thread) => of_thread(alloc, 70, "NoSuchThread", *thread),
    }
}
