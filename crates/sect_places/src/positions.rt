//! Lines and columns of many places.

ghost use Rattle.std.specs.{Prelude.{◌≡◌, ◌≤◌, length, map, IfOk}, List.{All}};
ghost use Rattle.sect_places.specs.Positions.{position};
ghost use Rattle.sect_places.specs.steps.Passing.{IsAt};

use crate::position::{Position, position_behind};
use std::alloc::{AllocError, Global};

/// A place of a text, with its line and its column.
#[derive(Clone, Copy)]
pub struct Cursor {
    pub at: usize,
    pub position: Position,
}

/// The first place of a text.
fn start(source: &[u8]) -> Cursor
    ensures is { IsAt source.now result }
    ensures first { result.at ≡ 0 }
{
    let _text = source;
    Cursor {
        at: 0,
        position: Position { line: 1, column: 1 },
    }
}

/// Where to go on from to a place: where the cursor is, or the start of the text where that lies behind the place.
fn nearest(source: &[u8], from: Cursor, at: usize) -> Cursor
    requires { IsAt source.now from }
    ensures is { IsAt source.now result }
    ensures before { result.at ≤ at }
{
    if at < from.at { start(source) } else { from }
}

/// The cursor at a place that it hasn't passed.
pub fn moved(source: &[u8], from: Cursor, at: usize) -> Cursor
    requires from { IsAt source.now from }
    requires before { from.at ≤ at }
    requires within { at ≤ length source.now }
    ensures is { IsAt source.now result }
    ensures there { result.at ≡ at }
{
    Cursor {
        at,
        position: position_behind(from.position, &source[from.at..at]),
    }
}

/// The line and the column of each place. Where places ascend no byte is looked at twice.
pub fn positions_of(
    alloc: Global,
    source: &[u8],
    places: &[usize],
) -> Result<Vec<Position>, AllocError>
    requires { All (λ at. at ≤ length source.now) places.now }
    ensures { IfOk result (λ list. list.items ≡ map (position source.now) places.now) }
{
    let mut positions = Vec::with_capacity(alloc, places.len())?;
    let mut cursor = start(source);
    for at in places {
        cursor = moved(source, nearest(source, cursor, *at), *at);
        positions.push(cursor.position)?;
    }
    Ok(positions)
}
