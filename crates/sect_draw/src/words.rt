//! Keys and deeds as they are printed.

ghost use Rattle.std.specs.{Prelude.{◌≡◌, ◌++◌, OnOk}, String.{string_bytes}};
ghost use Rattle.sect_draw.specs.Words.{key_text, deed_text};

use sect_modes::Key;
use sect_store::put_object_name;
use sect_types::{ObjectName, Program};
use sect_world::Deed;
use std::alloc::AllocError;
use std::fmt::Write;

/// Adds what a thread does.
pub fn put_deed(text: &mut String, program: &Program, deed: Deed) -> Result<(), AllocError>
    ensures { OnOk result (string_bytes text.new ≡ string_bytes text.old ++ deed_text program.now deed) }
{
    match deed {
        Deed::Local => text.push_str("local"),
        Deed::Enter => text.push_str("enter"),
        Deed::Take { key, mode } => {
            text.push_str("take ")?;
            put_key(text, program, key)?;
            Ok(write!(text, " {mode}")?)
        }
        Deed::Begin => text.push_str("begin"),
        Deed::Again => text.push_str("again"),
        Deed::Act => text.push_str("act"),
        Deed::Leave => text.push_str("leave"),
    }
}

/// Adds a key: `all`, a class by its number, an object by its name.
pub fn put_key(text: &mut String, program: &Program, key: Key) -> Result<(), AllocError>
    ensures { OnOk result (string_bytes text.new ≡ string_bytes text.old ++ key_text program.now key) }
{
    match key {
        Key::All => text.push_str("all"),
        Key::Class(class) => Ok(write!(text, "class {class}")?),
        Key::Global(number) => put_object_name(text, program, ObjectName::Global(number)),
        Key::Made { thread, number } => {
            put_object_name(text, program, ObjectName::Made { thread, number })
        }
    }
}
