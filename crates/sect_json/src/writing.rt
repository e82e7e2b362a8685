//! Documents as text.

ghost use Rattle.std.specs.{Prelude.{◌≡◌, ◌≤◌, ◌++◌, IfOk, OnOk, false, length}, String.{string_bytes}};
ghost use Rattle.serde_json.specs.{View.{view}, Written.{has_float, compact_text}};
ghost use Rattle.sect_json.specs.Values.{document_text};
ghost use Rattle.sect_json.specs.steps.Writes.{name_text, member_text, tail_text, comma_before};

use serde_json::Value;
use std::alloc::{AllocError, Global};

/// The text of a document: its value without blanks, and a line feed.
pub fn document(alloc: Global, value: &Value) -> Result<String, AllocError>
    requires { has_float (view value.now) ≡ false }
    ensures { IfOk result (λ text. string_bytes text ≡ document_text (view value.now)) }
{
    let mut text = value.to_string(alloc)?;
    text.push_str("\n")?;
    Ok(text)
}

/// Adds the text of a value.
pub fn put_value(alloc: Global, out: &mut Vec<u8>, value: &Value) -> Result<(), AllocError>
    requires { has_float (view value.now) ≡ false }
    ensures { OnOk result (out.new.items ≡ out.old.items ++ compact_text (view value.now)) }
{
    let text = value.to_string(alloc)?;
    out.extend_from_slice(text.as_bytes())
}

/// Adds a name and its colon, behind a mark.
pub fn put_name(alloc: Global, out: &mut Vec<u8>, mark: u8, name: &str) -> Result<(), AllocError>
    ensures { OnOk result (out.new.items ≡ out.old.items ++ name_text mark name.now) }
{
    let name = Value::String(String::from_str(alloc, name)?);
    out.push(mark)?;
    put_value(alloc, out, &name)?;
    Ok(out.push(b':')?)
}

/// Adds a member, behind a mark.
pub fn put_member(
    alloc: Global,
    out: &mut Vec<u8>,
    mark: u8,
    name: &str,
    value: &Value,
) -> Result<(), AllocError>
    requires { has_float (view value.now) ≡ false }
    ensures { OnOk result (out.new.items ≡ out.old.items ++ member_text mark name.now (view value.now)) }
{
    put_name(alloc, out, mark, name)?;
    put_value(alloc, out, value)
}

/// Adds a comma, but not before the first element.
pub fn put_comma(out: &mut Vec<u8>, index: usize) -> Result<(), AllocError>
    ensures { OnOk result (out.new.items ≡ out.old.items ++ comma_before index) }
{
    if index == 0 {
        return Ok(());
    }
    Ok(out.push(b',')?)
}

/// Adds the members of an object behind others, and the brace that closes it.
pub fn put_tail(alloc: Global, out: &mut Vec<u8>, value: &Value) -> Result<(), AllocError>
    requires plain { has_float (view value.now) ≡ false }
    requires some { 1 ≤ length (compact_text (view value.now)) }
    ensures { OnOk result (out.new.items ≡ out.old.items ++ tail_text (view value.now)) }
{
    let text = value.to_string(alloc)?;
    out.push(b',')?;
    out.extend_from_slice(&text.as_bytes()[1..])
}
