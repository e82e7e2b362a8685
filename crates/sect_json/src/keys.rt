//! Keys and modes as JSON.

ghost use Rattle.std.specs.Prelude.{◌≡◌, IfOk};
ghost use Rattle.serde_json.specs.View.{view};
ghost use Rattle.sect_json.specs.Keys.{key_json, mode_json, object_key_json};

use sect_modes::{Key, Mode};
use sect_object::Members;
use sect_store::put_object_name;
use sect_types::{ObjectName, Program};
use serde_json::{Value, json};
use std::alloc::{AllocError, Global};

/// A key: all objects, a class by its number, or an object by its name.
pub fn key_value(alloc: Global, program: &Program, key: Key) -> Result<Value, AllocError>
    ensures { IfOk result (λ v. view v ≡ key_json program.now key) }
{
    match key {
        Key::All => json!(in alloc; {"kind": "all"}),
        Key::Class(class) => {
            let members = Members::new(alloc)
                .with("class", class)?
                .with("kind", "class")?;
            Ok(members.object())
        }
        Key::Global(number) => object_key_value(alloc, program, ObjectName::Global(number)),
        Key::Made { thread, number } => {
            object_key_value(alloc, program, ObjectName::Made { thread, number })
        }
    }
}

/// The key of one object.
fn object_key_value(alloc: Global, program: &Program, name: ObjectName) -> Result<Value, AllocError>
    ensures { IfOk result (λ v. view v ≡ object_key_json program.now name) }
{
    let mut text = String::new(alloc);
    put_object_name(&mut text, program, name)?;
    let members = Members::new(alloc)
        .with("kind", "object")?
        .with("name", text)?;
    Ok(members.object())
}

/// A mode by its letters.
pub fn mode_value(alloc: Global, mode: Mode) -> Result<Value, AllocError>
    ensures { IfOk result (λ v. view v ≡ mode_json mode) }
{
    Ok(Value::String(format!(in alloc; "{mode}")?))
}
