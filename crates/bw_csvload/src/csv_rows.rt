//! The rows of a file, stored flat in memory.

ghost use Rattle.std.specs.Prelude.{◌≡◌, ◌<◌, ◌+◌, ◌*◌, ◌≤◌, [], drop, get_or, length, take};
ghost use Rattle.std.specs.List.{flat_map};
ghost use Rattle.bw_csvload.specs.Forms.{cells_in, cells_of};
ghost use Rattle.bw_csvload.specs.Rows.{lines_of};

use crate::cells::{CellList, Cells};
use std::marker::Model;

/// The rows of a file, all of the same width, contiguous in one buffer. Contracts see the list of the rows.
#[derive(Drop)]
pub struct CsvRows {
    width: usize,
    /// The number of rows: where a row has no cells, the buffer doesn't tell.
    count: usize,
    cells: CellList,
}

impl Model for CsvRows {
    ghost use Rattle.std.specs.Prelude.{List, ◌≡◌, ◌*◌, length};
    ghost use Rattle.bw_csvload.specs.Forms.{cells_in};
    ghost use Rattle.bw_csvload.specs.Rows.{lines_of, Row};

    ghost Value = { List Row };

    ghost view = { λ rows. lines_of rows.width rows.count (cells_in rows.cells) };

    ghost invariant = { λ rows. length (cells_in rows.cells) ≡ rows.count * rows.width };
}

/// Line i of this width in these cells.
fn line<T>(cells: &[T], width: usize, i: usize) -> &[T]
    requires { i * width + width ≤ length cells.now }
    ensures { result.now ≡ take width (drop (i * width) cells.now) }
{
    let (_, rest) = cells.split_at(i * width);
    let (line, _) = rest.split_at(width);
    line
}

impl CsvRows {
    /// `count` rows of this width, which are stored in these cells.
    pub(crate) fn new(width: usize, count: usize, cells: CellList) -> CsvRows
        requires { length (cells_in cells) ≡ count * width }
        ensures { result ≡ lines_of width count (cells_in cells) }
    {
        CsvRows {
            width,
            count,
            cells,
        }
    }

    /// The number of rows.
    pub fn len(&self) -> usize
        ensures { result ≡ length self.now }
    {
        self.count
    }

    /// The cells of row i, counted from 0.
    pub fn row(&self, i: usize) -> Cells<'_>
        requires { i < length self.now }
        ensures { cells_of result ≡ get_or self.now i [] }
    {
        match self.cells.as_cells() {
            Cells::Integers(cells) => Cells::Integers(line(cells, self.width, i)),
            Cells::Values(cells) => Cells::Values(line(cells, self.width, i)),
        }
    }

    /// The cells of all rows, row by row.
    pub fn cells(&self) -> Cells<'_>
        ensures { cells_of result ≡ flat_map (λ row. row) self.now }
    {
        self.cells.as_cells()
    }
}
