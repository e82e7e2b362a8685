//! Cells in columns.

ghost use Rattle.std.specs.Prelude.{◌≡◌, ◌<◌, ◌≤◌, ◌++◌, ℕ, List, length, slice_index_or, IfOk, OnOk, vec_len, []};
ghost use Rattle.std.specs.{Prelude.{◌==◌}, List.{list_all}, String.{string_bytes}};
ghost use Rattle.sect_draw.specs.Table.{widest, cells_text, table_text};
ghost use Rattle.sect_draw.specs.steps.CellTexts.{texts, rows_of, HaveCells, HaveWidths};

use sect_emit::put_blanks;
use std::alloc::{AllocError, Global};

/// The lines of a table whose rows have so many cells each. Each column is as wide as its widest cell.
pub fn table(alloc: Global, rows: &[Vec<String>], columns: usize) -> Result<String, AllocError>
    requires { HaveCells columns rows.now }
    ensures { IfOk result (λ text. string_bytes text ≡ table_text (rows_of rows.now)) }
{
    let widths = widths_of(alloc, rows, columns)?;
    let mut text = String::new(alloc);
    for row in rows {
        put_row(&mut text, row.as_slice(), widths.as_slice())?;
        text.push_str("\n")?;
    }
    Ok(text)
}

/// The widths of the columns.
fn widths_of(alloc: Global, rows: &[Vec<String>], columns: usize) -> Result<Vec<usize>, AllocError>
    requires { HaveCells columns rows.now }
    ensures widths { IfOk result (λ widths. HaveWidths (rows_of rows.now) widths.items) }
    ensures count { IfOk result (λ widths. vec_len widths ≡ columns) }
{
    let mut widths = Vec::new(alloc);
    for column in 0..columns {
        widths.push(width_of(rows, column))?;
    }
    Ok(widths)
}

/// The width of a column: that of its widest cell.
fn width_of(rows: &[Vec<String>], column: usize) -> usize
    ensures { result ≡ widest column (rows_of rows.now) }
{
    let mut width = 0;
    for row in rows {
        width = width.max(cell_width(row.as_slice(), column));
    }
    width
}

/// The width of the cell of a column.
fn cell_width(row: &[String], column: usize) -> usize
    ensures { result ≡ length (slice_index_or (texts row.now) column []) }
{
    match row.get(column) {
        None => 0,
        Some(cell) => cell.len(),
    }
}

/// Adds the cells of a row, with two blanks between columns of these widths, up to the last that isn't empty.
fn put_row(text: &mut String, row: &[String], widths: &[usize]) -> Result<(), AllocError>
    requires count { length row.now ≤ length widths.now }
    ensures { OnOk result ((rows : List (List (List ℕ))) → HaveWidths rows widths.now
        → string_bytes text.new ≡ string_bytes text.old ++ cells_text rows 0 (texts row.now)) }
{
    for (column, cell) in row.iter().enumerate() {
        text.push_str(cell.as_str())?;
        if are_empty(&row[column + 1..]) {
            return Ok(());
        }
        put_blanks(text, widths[column].saturating_sub(cell.len()))?;
        text.push_str("  ")?;
    }
    Ok(())
}

/// Whether all these cells are empty.
fn are_empty(cells: &[String]) -> bool
    ensures { result ≡ list_all (λ c. length (string_bytes c) == 0) cells.now }
{
    cells.iter().all(|cell| cell.is_empty())
}
