//! Lines and columns.

ghost use Rattle.std.specs.Prelude.{◌≡◌, ◌≤◌, ◌<◌, ◌+◌, ◌^◌, fold, length};
ghost use Rattle.sect_front.specs.Front.{line_of as line};
ghost use Rattle.sect_places.specs.Positions.{position, next_column, column_of as column};
ghost use Rattle.sect_places.specs.steps.{Feeding.{feeds_in}, Passing.{next_position}};

use memchr::memrchr;

/// A line and a column, both counted from 1, and columns in bytes.
#[derive(Clone, Copy, Debug, PartialEq, Eq)]
pub struct Position {
    pub line: usize,
    pub column: usize,
}

/// How many line feeds a few bytes have: so few bytes that a byte has room for the number, and many can be looked at
/// side by side.
fn few_feeds(bytes: &[u8]) -> u8
    requires { length bytes.now < 256 }
    ensures { result ≡ feeds_in bytes.now }
{
    let mut feeds = 0u8;
    for byte in bytes {
        if *byte == b'\n' {
            feeds += 1;
        }
    }
    feeds
}

/// How many line feeds these bytes have.
fn feeds_of(bytes: &[u8]) -> usize
    ensures { result ≡ feeds_in bytes.now }
{
    let mut feeds = 0;
    let mut rest = bytes;
    while !rest.is_empty() {
        let (part, others) = rest.split_at(rest.len().min(192));
        feeds += usize::from(few_feeds(part));
        rest = others;
    }
    feeds
}

/// The line of a place.
fn line_of(source: &[u8], at: usize) -> usize
    requires { at ≤ length source.now }
    ensures { result ≡ line source.now at }
{
    feeds_of(&source[..at]) + 1
}

/// The column behind these bytes, the first of which stands in this column.
fn column_behind(column: usize, bytes: &[u8]) -> usize
    requires { column + length bytes.now < 2 ^ 64 }
    ensures { result ≡ fold next_column column bytes.now }
{
    match memrchr(b'\n', bytes) {
        Some(feed) => bytes.len() - feed,
        None => column + bytes.len(),
    }
}

/// The line and the column behind these bytes, the first of which stands at this line and column.
pub fn position_behind(from: Position, bytes: &[u8]) -> Position
    requires line { from.line + length bytes.now < 2 ^ 64 }
    requires column { from.column + length bytes.now < 2 ^ 64 }
    ensures { result ≡ fold next_position from bytes.now }
{
    Position {
        line: from.line + feeds_of(bytes),
        column: column_behind(from.column, bytes),
    }
}

/// The column of a place.
pub fn column_of(source: &[u8], at: usize) -> usize
    requires { at ≤ length source.now }
    ensures column { result ≡ column source.now at }
    ensures least { 1 ≤ result }
    ensures most { result ≤ at + 1 }
{
    column_behind(1, &source[..at])
}

/// The line and the column of a place.
pub fn position_of(source: &[u8], at: usize) -> Position
    requires { at ≤ length source.now }
    ensures position { result ≡ position source.now at }
    ensures least { 1 ≤ result.column }
    ensures most { result.column ≤ at + 1 }
{
    Position {
        line: line_of(source, at),
        column: column_of(source, at),
    }
}
