//! Changes of a text, as an editor tells them.

ghost use Rattle.std.specs.Prelude.{◌≡◌, IfOk, option_map};
ghost use Rattle.serde_json.specs.View.{view, items_view};
ghost use Rattle.sect_lsp.specs.Changes.{replaced as replaced_by, edited as edited_by, text_in as text_by};
ghost use Rattle.sect_lsp.specs.Changes.{range_of as range_of_by, after_change as after_change_by};
ghost use Rattle.sect_lsp.specs.Changes.{after_changes as after_changes_by};

use sect_editor::{Encoding, Range, offset, range_in};
use serde_json::Value;
use std::alloc::{AllocError, Global};

/// The text with other bytes in place of those of a range.
fn replaced(
    alloc: Global,
    encoding: Encoding,
    text: &[u8],
    range: Range,
    bytes: &[u8],
) -> Result<Vec<u8>, AllocError>
    ensures { IfOk result (λ after. after.items ≡ replaced_by encoding range bytes.now text.now) }
{
    let start = offset(encoding, text, range.start);
    let end = offset(encoding, text, range.end).max(start);
    let mut after = Vec::new(alloc);
    after.extend_from_slice(&text[..start])?;
    after.extend_from_slice(bytes)?;
    after.extend_from_slice(&text[end..])?;
    Ok(after)
}

/// The text after a change: other bytes in place of a range, or in place of all.
pub fn edited(
    alloc: Global,
    encoding: Encoding,
    text: &[u8],
    range: Option<Range>,
    bytes: &[u8],
) -> Result<Vec<u8>, AllocError>
    ensures { IfOk result (λ after. after.items ≡ edited_by encoding range bytes.now text.now) }
{
    match range {
        Some(range) => replaced(alloc, encoding, text, range, bytes),
        None => Vec::from_slice(alloc, bytes),
    }
}

/// The text of a member.
fn text_in<'a>(value: &'a Value, key: &str) -> Option<&'a str>
    ensures { option_map (λ text. text.now) result ≡ text_by key.now (view value.entry.now) }
{
    value.get(key).and_then(Value::as_str)
}

/// The range of a change. A change of all has none.
fn range_of(range: Option<&Value>) -> Option<Option<Range>>
    ensures { result ≡ range_of_by (option_map (λ value. view value.now) range.entry) }
{
    match range {
        None => Some(None),
        Some(value) => Some(Some(range_in(value)?)),
    }
}

/// The text after a change, if it is one.
fn after_change(
    alloc: Global,
    encoding: Encoding,
    text: &[u8],
    change: &Value,
) -> Result<Option<Vec<u8>>, AllocError>
    ensures { IfOk result (λ after. option_map (λ t. t.items) after
        ≡ after_change_by encoding text.now (view change.now)) }
{
    let Some(bytes) = text_in(change, "text") else {
        return Ok(None);
    };
    let Some(range) = range_of(change.get("range")) else {
        return Ok(None);
    };
    let after = edited(alloc, encoding, text, range, bytes.as_bytes())?;
    Ok(Some(after))
}

/// The text after changes, one after another, if they are changes.
pub fn after_changes(
    alloc: Global,
    encoding: Encoding,
    text: &[u8],
    changes: &[Value],
) -> Result<Option<Vec<u8>>, AllocError>
    ensures { IfOk result (λ after. option_map (λ t. t.items) after
        ≡ after_changes_by encoding text.now (items_view changes.now)) }
{
    let mut now = Vec::from_slice(alloc, text)?;
    for change in changes {
        match after_change(alloc, encoding, now.as_slice(), change)? {
            Some(after) => now = after,
            None => return Ok(None),
        }
    }
    Ok(Some(now))
}
