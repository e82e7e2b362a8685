//! Lines and columns of places that are asked for in any order.

ghost use Rattle.std.specs.Prelude.{◌≡◌, ◌≤◌, IfOk, length};
ghost use Rattle.sect_places.specs.{Positions.{position}, steps.Blocks.{block_starts}};

use crate::position::Position;
use crate::positions::{Cursor, moved, positions_of};
use std::alloc::{AllocError, Global};
use std::marker::Model;

/// How many bytes a block has.
const BLOCK: usize = 512;

/// A text, and at which line and column each of its blocks of 512 bytes begins: so no place takes more than the bytes
/// of its block.
#[derive(Drop)]
pub struct LineIndex<'a> {
    text: &'a [u8],
    starts: Vec<Position>,
}

impl<'a> Model for LineIndex<'a> {
    ghost use Rattle.std.specs.Prelude.{◌≡◌, ℕ, List, length, map};
    ghost use Rattle.sect_places.specs.{Positions.{position}, steps.Blocks.{block_starts}};

    ghost Value = { List ℕ };

    ghost view = { λ t. t.text.now };

    ghost invariant = { λ t. t.starts.items ≡ map (position t.text.now) (block_starts (length t.text.now)) };
}

/// Where the blocks of a text of so many bytes begin.
fn block_places(alloc: Global, total: usize) -> Result<Vec<usize>, AllocError>
    ensures { IfOk result (λ places. places.items ≡ block_starts total) }
{
    let mut places = Vec::with_capacity(alloc, total / BLOCK + 1)?;
    for block in 0..total / BLOCK + 1 {
        places.push(block * BLOCK)?;
    }
    Ok(places)
}

impl<'a> LineIndex<'a> {
    /// The index of a text.
    pub fn new(alloc: Global, text: &'a [u8]) -> Result<LineIndex<'a>, AllocError>
        ensures { IfOk result (λ lines. lines ≡ text.entry.now) }
    {
        let places = block_places(alloc, text.len())?;
        let starts = positions_of(alloc, text, places.as_slice())?;
        Ok(LineIndex { text, starts })
    }

    /// The text.
    pub fn text(&self) -> &[u8]
        ensures { result.now ≡ self.now }
    {
        self.text
    }

    /// The line and the column of a place.
    pub fn position(&self, at: usize) -> Position
        requires { at ≤ length self.now }
        ensures { result ≡ position self.now at }
    {
        let block = at / BLOCK;
        let from = Cursor {
            at: block * BLOCK,
            position: self.starts[block],
        };
        moved(self.text, from, at).position
    }
}
