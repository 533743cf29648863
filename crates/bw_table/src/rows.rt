//! Rows that are stored flat in memory.

ghost use Rattle.std.specs.Prelude.{All, drop, length, take, ℕ, ◌*◌, ◌+◌, ◌<◌, ◌^◌, ◌≡◌, ◌≤◌};
ghost use Rattle.bw_column.specs.Values.{value_at};
ghost use Rattle.bw_table.specs.Rows.{AreWholeRows, cells_in, rows_from};
ghost use Rattle.bw_table.specs.Slots.{column_of};

use std::marker::Model;

/// Consecutive cells: as a statement has them, or in the narrower form of a file's rows.
#[derive(Clone, Copy)]
pub(crate) enum RowCells<'a> {
    Values(&'a [Option<i64>]),
    Integers(&'a [Option<i32>]),
}

/// Rows of one width, consecutive in one buffer. Contracts see the list of the rows.
#[derive(Drop)]
pub struct Rows<'a> {
    width: usize,
    cells: RowCells<'a>,
}

impl<'a> Model for Rows<'a> {
    ghost use Rattle.std.specs.Prelude.{List, Option, ℤ};
    ghost use Rattle.bw_table.specs.Rows.{AreWholeRows, cells_in, rows_from};

    ghost Value = { List (List (Option ℤ)) };

    ghost view = { λ rows. rows_from rows.width (cells_in rows.cells) };

    ghost invariant = { λ rows. AreWholeRows rows.width (cells_in rows.cells) };
}

/// Fills `out` with cell `k` of each row of `width` cells, from row `at` on.
fn read_values(cells: &[Option<i64>], width: usize, k: usize, at: usize, out: &mut [Option<i64>])
    requires small { at + length out.old < 2 ^ 64 }
    requires there { (i : ℕ) → i < length out.old → (at + i) * width + k < length cells.now }
    ensures long { length out.new ≡ length out.old }
    ensures each { (i : ℕ) → i < length out.old → value_at out.new i ≡ value_at cells.now ((at + i) * width + k) }
{
    for i in 0..out.len() {
        out[i] = cells[(at + i) * width + k];
    }
}

/// Fills `out` with cell `k` of each row of `width` cells, from row `at` on, widened for a column.
fn read_integers(cells: &[Option<i32>], width: usize, k: usize, at: usize, out: &mut [Option<i64>])
    requires small { at + length out.old < 2 ^ 64 }
    requires there { (i : ℕ) → i < length out.old → (at + i) * width + k < length cells.now }
    ensures long { length out.new ≡ length out.old }
    ensures each { (i : ℕ) → i < length out.old → value_at out.new i ≡ value_at cells.now ((at + i) * width + k) }
{
    for i in 0..out.len() {
        out[i] = wide_cell(cells[(at + i) * width + k]);
    }
}

/// The cell, widened for a column.
fn wide_cell(cell: Option<i32>) -> Option<i64>
    ensures { result ≡ cell }
{
    match cell {
        Some(number) => Some(i64::from(number)),
        None => None,
    }
}

impl<'a> Rows<'a> {
    /// These cells as rows of this width.
    pub fn new(width: usize, cells: &'a [Option<i64>]) -> Rows<'a>
        requires { AreWholeRows width cells.now }
        ensures { result ≡ rows_from width cells.entry.now }
    {
        let cells = RowCells::Values(cells);
        Rows { width, cells }
    }

    /// These narrower cells as rows of this width. A column sees them widened.
    pub fn of_integers(width: usize, cells: &'a [Option<i32>]) -> Rows<'a>
        requires { AreWholeRows width cells.now }
        ensures { result ≡ rows_from width cells.entry.now }
    {
        let cells = RowCells::Integers(cells);
        Rows { width, cells }
    }

    /// The number of rows.
    #[tactic(auto, using(bw_code::proofs::Lists::made_len))]
    pub fn len(&self) -> usize
        ensures { result ≡ length self.now }
    {
        let cells = match self.cells {
            RowCells::Values(cells) => cells.len(),
            RowCells::Integers(cells) => cells.len(),
        };
        cells / self.width
    }

    /// Fills `out` with the values of column `k`, from row `at` on.
    pub(crate) fn read_column(&self, k: usize, at: usize, out: &mut [Option<i64>])
        requires column { All (λ row. k < length row) self.now }
        requires inside { at + length out.old ≤ length self.now }
        ensures { out.new ≡ take (length out.old) (drop at (column_of self.now k)) }
    {
        // The number of rows fits a `usize`.
        let _rows = self.len();
        match self.cells {
            RowCells::Values(cells) => read_values(cells, self.width, k, at, out),
            RowCells::Integers(cells) => read_integers(cells, self.width, k, at, out),
        }
    }
}
