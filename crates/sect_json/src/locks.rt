//! Lock sets as JSON.

ghost use Rattle.std.specs.{Prelude.{◌≡◌, ◌<◌, List, Some, IfOk, length, map, slice_get}, String.{string_bytes}};
ghost use Rattle.serde_json.specs.{Data.{string}, View.{view}};
ghost use Rattle.sect_names.specs.{declared.lock.Lock.{Lock}, Locks.{IsPathOf}};
ghost use Rattle.sect_names.specs.Printing.{IsNamed, AreNamed, path_text};
ghost use Rattle.sect_emit.specs.Compiled.{program_of};
ghost use Rattle.sect_json.specs.Values.{list, by_place, document_text};
ghost use Rattle.sect_json.specs.Locks.{lock_json, section_json, sections_json, locks_json};

use crate::writing::document;
use sect_emit::Compiled;
use sect_names::{Lock, Path, put_path};
use sect_object::Members;
use sect_types::Program;
use serde_json::{Value, json};
use std::alloc::{AllocError, Global};

/// The lock set of each section of a compiled program.
pub fn locks_document(alloc: Global, compiled: &Compiled) -> Result<String, AllocError>
    ensures { IfOk result (λ text. string_bytes text
        ≡ document_text (locks_json (program_of compiled.now).source compiled.now.sets)) }
{
    let sections = section_values(alloc, compiled)?;
    let value = sections_value(alloc, sections)?;
    document(alloc, &value)
}

/// All sections.
pub fn sections_value(alloc: Global, sections: Vec<Value>) -> Result<Value, AllocError>
    ensures { IfOk result (λ v. view v ≡ sections_json (map view sections.items)) }
{
    json!(in alloc; {"sections": sections})
}

/// All sections, by number.
fn section_values(alloc: Global, compiled: &Compiled) -> Result<Vec<Value>, AllocError>
    ensures { IfOk result (λ values. map view values.items
        ≡ by_place (section_json (program_of compiled.now).source) 0 compiled.now.sets) }
{
    compiled.facts();
    let mut values = Vec::new(alloc);
    for section in 0..compiled.scheme().program().section_count() {
        values.push(section_value(alloc, compiled, section)?)?;
    }
    Ok(values)
}

/// A section and its locks.
fn section_value(alloc: Global, compiled: &Compiled, section: u16) -> Result<Value, AllocError>
    requires { section < length compiled.now.sets }
    ensures { IfOk result (λ v. (locks : List Lock) → slice_get compiled.now.sets section ≡ Some locks
        → view v ≡ section_json (program_of compiled.now).source section locks) }
{
    compiled.facts();
    let locks = locks_value(alloc, compiled.scheme().program(), compiled.set(section))?;
    let members = Members::new(alloc)
        .with("locks", locks)?
        .with("section", section)?;
    Ok(members.object())
}

/// Locks, in their order.
pub fn locks_value(alloc: Global, program: &Program, locks: &[Lock]) -> Result<Value, AllocError>
    requires { AreNamed program.now locks.now }
    ensures { IfOk result (λ v. view v ≡ list (map (lock_json program.now.source) locks.now)) }
{
    let mut values = Vec::new(alloc);
    for lock in locks {
        values.push(lock_value(alloc, program, lock)?)?;
    }
    Ok(Value::Array(values))
}

/// A lock.
pub fn lock_value(alloc: Global, program: &Program, lock: &Lock) -> Result<Value, AllocError>
    requires { IsNamed program.now lock.now }
    ensures { IfOk result (λ v. view v ≡ lock_json program.now.source lock.now) }
{
    match lock {
        Lock::All => {
            let members = Members::new(alloc).with("kind", "all")?.with("right", "W")?;
            Ok(members.object())
        }
        Lock::Class(class, right) => {
            let right = format!(in alloc; "{right}")?;
            let members = Members::new(alloc)
                .with("class", *class)?
                .with("kind", "class")?
                .with("right", right)?;
            Ok(members.object())
        }
        Lock::Path(path, effect) => {
            let right = format!(in alloc; "{effect}")?;
            let members = Members::new(alloc)
                .with("kind", "path")?
                .with_made("path", path_value(alloc, program, path))?
                .with("right", right)?;
            Ok(members.object())
        }
    }
}

/// A path, as `head.next`.
pub fn path_value(alloc: Global, program: &Program, path: &Path) -> Result<Value, AllocError>
    requires { IsPathOf program.now path.now }
    ensures { IfOk result (λ v. view v ≡ string (path_text program.now.source path.now)) }
{
    let mut text = String::new(alloc);
    put_path(&mut text, program, path)?;
    Ok(Value::String(text))
}
