//! Positions of the protocol: how a message tells them, and which bytes of a text they are.

ghost use Rattle.std.specs.Prelude.{◌≡◌, ◌≤◌, ◌+◌, ◌<◌, ◌^◌, length};
ghost use Rattle.serde_json.specs.View.{view};
ghost use Rattle.sect_editor.specs.Positions.{units as units_by, line_start as line_start_by};
ghost use Rattle.sect_editor.specs.Positions.{bytes_of_units as bytes_by, offset as offset_by, number_in as number_by};
ghost use Rattle.sect_editor.specs.Positions.{next_units as next_by, units_before as before_by};
ghost use Rattle.sect_editor.specs.Positions.{place_in as place_by, place_at as place_at_by, range_in as range_by};

use serde_json::Value;

/// How places on a line are counted.
#[derive(Clone, Copy)]
pub enum Encoding {
    /// By bytes.
    Utf8,
    /// By units of UTF-16.
    Utf16,
}

/// A line, and units of the encoding on it, both counted from 0.
#[derive(Clone, Copy)]
pub struct Place {
    pub line: u64,
    pub column: u64,
}

/// From one place to another.
#[derive(Clone, Copy)]
pub struct Range {
    pub start: Place,
    pub end: Place,
}

/// The number of a member.
fn number_in(value: &Value, key: &str) -> Option<u64>
    ensures { result ≡ number_by key.now (view value.now) }
{
    value.get(key).and_then(Value::as_u64)
}

/// A position.
pub fn place_in(value: &Value) -> Option<Place>
    ensures { result ≡ place_by (view value.now) }
{
    let line = number_in(value, "line")?;
    let column = number_in(value, "character")?;
    Some(Place { line, column })
}

/// The position that a member is.
fn place_at(value: &Value, key: &str) -> Option<Place>
    ensures { result ≡ place_at_by key.now (view value.now) }
{
    place_in(value.get(key)?)
}

/// From one position to another.
pub fn range_in(value: &Value) -> Option<Range>
    ensures { result ≡ range_by (view value.now) }
{
    let start = place_at(value, "start")?;
    let end = place_at(value, "end")?;
    Some(Range { start, end })
}

/// How many units a byte adds.
fn units(encoding: Encoding, byte: u8) -> u64
    ensures units { result ≡ units_by encoding byte }
    ensures most { result ≤ 2 }
{
    match encoding {
        Encoding::Utf8 => 1,
        Encoding::Utf16 => {
            if 128 <= byte && byte < 192 {
                0
            } else if 240 <= byte {
                2
            } else {
                1
            }
        }
    }
}

/// Where the line of this number begins, or the end of a text that has fewer.
fn line_start(text: &[u8], line: u64) -> usize
    ensures start { result ≡ line_start_by line text.now }
    ensures within { result ≤ length text.now }
{
    let mut left = line;
    for at in 0..text.len() {
        if left == 0 {
            return at;
        }
        if text[at] == b'\n' {
            left -= 1;
        }
    }
    text.len()
}

/// How many bytes of a line have so many units at most.
fn bytes_of_units(encoding: Encoding, line: &[u8], column: u64) -> usize
    ensures bytes { result ≡ bytes_by encoding column line.now }
    ensures within { result ≤ length line.now }
{
    let mut left = column;
    for at in 0..line.len() {
        let more = units(encoding, line[at]);
        if line[at] == b'\n' || left < more {
            return at;
        }
        left -= more;
    }
    line.len()
}

/// The byte at a position.
pub fn offset(encoding: Encoding, text: &[u8], place: Place) -> usize
    ensures offset { result ≡ offset_by encoding place text.now }
    ensures within { result ≤ length text.now }
{
    let start = line_start(text, place.line);
    start + bytes_of_units(encoding, &text[start..], place.column)
}

/// The units on a line behind a byte, where so many stand before it.
fn next_units(encoding: Encoding, column: u64, byte: u8) -> u64
    requires { column + 2 < 2 ^ 64 }
    ensures units { result ≡ next_by encoding column byte }
    ensures most { result ≤ column + 2 }
{
    if byte == b'\n' {
        0
    } else {
        column + units(encoding, byte)
    }
}

/// How many units stand before a byte on its line.
pub fn units_before(encoding: Encoding, text: &[u8], at: usize) -> u64
    requires { at ≤ length text.now }
    ensures { result ≡ before_by encoding text.now at }
{
    let mut column = 0;
    for byte in &text[..at] {
        column = next_units(encoding, column, *byte);
    }
    column
}
