//! The numbers of the locks at each node.

ghost use Rattle.std.specs.Prelude.{◌≡◌, ◌<◌, ◌++◌, ◌∷◌, [], ℕ, length, map, slice_index_or, slice_set, IfOk, OnOk};
ghost use Rattle.sect_lemmas.specs.Lists.{Has};
ghost use Rattle.sect_infer.specs.steps.Fronts.{rows_of, front_of, AreEmpty, IsFront, HasOneMore};

use crate::numbers::Numbers;
use std::alloc::{AllocError, Global};
use std::marker::Model;

/// The first numbers of a row: so many of them.
#[derive(Clone, Copy)]
pub struct Front {
    row: usize,
    count: usize,
}

/// For each node of a graph, the exit too, the numbers of the locks that were found there. Nodes of which one list goes
/// on from the other lie in one row: each has the first of its numbers.
pub struct Lists {
    rows: Vec<Vec<usize>>,
    fronts: Vec<Front>,
}

impl Drop for Lists {
    fn drop(self) {
        let Lists { rows: _, fronts: _ } = self;
    }
}

impl Model for Lists {
    ghost use Rattle.std.specs.Prelude.{List, ℕ, map};
    ghost use Rattle.sect_infer.specs.steps.Fronts.{fronts_of, AreFronts};

    ghost Value = { List (List ℕ) };

    ghost view = { λ l. fronts_of (map (λ v. v.items) l.rows.items) l.fronts.items };

    ghost invariant = { λ l. AreFronts (map (λ v. v.items) l.rows.items) l.fronts.items };
}

/// For how many numbers the first row has room from the first, at most.
const MOST_ROOM: usize = 32;

/// One row without numbers, with room for so many.
fn empty_row(alloc: Global, room: usize) -> Result<Vec<Vec<usize>>, AllocError>
    ensures { IfOk result (λ rows. rows_of rows ≡ [] ∷ []) }
{
    let mut rows = Vec::with_capacity(alloc, 1)?;
    rows.push(Vec::with_capacity(alloc, room)?)?;
    Ok(rows)
}

/// So many fronts of the first row, without numbers.
fn empty_fronts(alloc: Global, count: usize) -> Result<Vec<Front>, AllocError>
    ensures { IfOk result (λ fronts. AreEmpty count fronts.items) }
{
    let mut fronts = Vec::with_capacity(alloc, count)?;
    for _ in 0..count {
        fronts.push(Front { row: 0, count: 0 })?;
    }
    Ok(fronts)
}

/// The row that ends with a front's last number: its own, or a new one where that goes on.
fn row_behind(alloc: Global, rows: &mut Vec<Vec<usize>>, front: Front) -> Result<usize, AllocError>
    requires { IsFront (rows_of rows.old) front }
    ensures rows { HasOneMore (rows_of rows.old) (rows_of rows.new) (front_of (rows_of rows.old) front) }
    ensures there { IfOk result (λ row. row < length rows.new.items) }
    ensures whole { IfOk result (λ row. slice_index_or (rows_of rows.new) row [] ≡ front_of (rows_of rows.old) front) }
{
    if front.count == rows[front.row].len() {
        Ok(front.row)
    } else {
        begin_row(alloc, rows, front)
    }
}

/// A new row of a front's numbers.
#[cold]
#[inline(never)]
fn begin_row(alloc: Global, rows: &mut Vec<Vec<usize>>, front: Front) -> Result<usize, AllocError>
    requires { IsFront (rows_of rows.old) front }
    ensures rows { HasOneMore (rows_of rows.old) (rows_of rows.new) (front_of (rows_of rows.old) front) }
    ensures there { IfOk result (λ row. row < length rows.new.items) }
    ensures whole { IfOk result (λ row. slice_index_or (rows_of rows.new) row [] ≡ front_of (rows_of rows.old) front) }
{
    let mut row = Vec::new(alloc);
    row.extend_from_slice(&rows[front.row][..front.count])?;
    let last = rows.len();
    rows.push(row)?;
    Ok(last)
}

/// The numbers of these rows, each once, with room for all below a count.
fn numbers_of(alloc: Global, rows: &[Vec<usize>], count: usize) -> Result<Numbers, AllocError>
    ensures { IfOk result (λ all. (row n : ℕ)
        → Has (slice_index_or (map (λ v. v.items) rows.now) row []) n → Has all n) }
{
    let mut all = Numbers::with_room(alloc, count, count)?;
    for row in rows {
        all.insert_all(row.as_slice())?;
    }
    Ok(all)
}

impl Lists {
    /// None, for so many nodes.
    pub fn new(alloc: Global, count: usize) -> Result<Lists, AllocError>
        ensures count { IfOk result (λ l. length l ≡ count) }
        ensures none { IfOk result (λ l. (j : ℕ) → slice_index_or l j [] ≡ []) }
    {
        let rows = empty_row(alloc, count.min(MOST_ROOM))?;
        let fronts = empty_fronts(alloc, count)?;
        Ok(Lists { rows, fronts })
    }

    /// How many nodes there are.
    pub fn len(&self) -> usize
        ensures { result ≡ length self.now }
    {
        self.fronts.len()
    }

    /// The numbers at a node, none where the node isn't there.
    pub fn of(&self, node: u16) -> &[usize]
        ensures { result.now ≡ slice_index_or self.now node [] }
    {
        match self.fronts.get(node as usize) {
            Some(front) => &self.rows[front.row][..front.count],
            None => &[],
        }
    }

    /// The numbers at all nodes, and maybe others, each once. There is room for all below a count.
    pub fn numbers(&self, alloc: Global, count: usize) -> Result<Numbers, AllocError>
        ensures { IfOk result (λ all. (node n : ℕ) → Has (slice_index_or self.now node []) n → Has all n) }
    {
        numbers_of(alloc, self.rows.as_slice(), count)
    }

    /// Gives a node the numbers of another.
    pub fn share(&mut self, node: u16, other: u16)
        requires node { node < length self.old }
        requires other { other < length self.old }
        ensures { self.new ≡ slice_set self.old node (slice_index_or self.old other []) }
    {
        self.fronts[node as usize] = self.fronts[other as usize];
    }

    /// Puts numbers behind those at a node.
    pub fn extend(&mut self, alloc: Global, node: u16, numbers: &[usize]) -> Result<(), AllocError>
        requires { node < length self.old }
        ensures { OnOk result (self.new ≡ slice_set self.old node (slice_index_or self.old node [] ++ numbers.now)) }
    {
        let front = self.fronts[node as usize];
        let row = row_behind(alloc, &mut self.rows, front)?;
        let longer = &mut self.rows[row];
        longer.extend_from_slice(numbers)?;
        let count = longer.len();
        self.fronts[node as usize] = Front { row, count };
        Ok(())
    }
}
