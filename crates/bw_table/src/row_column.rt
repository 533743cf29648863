//! One column of rows that are stored flat in memory.

ghost use Rattle.std.specs.Prelude.{All, length, ◌<◌, ◌≡◌};
ghost use Rattle.bw_table.specs.Slots.{column_of};

use crate::rows::Rows;
use bw_cells::{Cells, Measured};

/// One column of rows, read from top to bottom.
#[derive(Drop)]
pub(crate) struct RowColumn<'a> {
    rows: &'a Rows<'a>,
    k: usize,
    ghost inside: { All (λ row. k < length row) rows.now },
}

impl<'a> RowColumn<'a> {
    /// Column `k` of the rows.
    pub(crate) fn new(rows: &'a Rows<'a>, k: usize) -> RowColumn<'a>
        requires { All (λ row. k < length row) rows.now }
        ensures rows { result.rows.now ≡ rows.entry.now }
        ensures column { result.k ≡ k }
    {
        RowColumn { rows, k }
    }
}

impl<'a> Cells for RowColumn<'a> {
    ghost use Rattle.bw_table.specs.Slots.{column_of};

    ghost cells = { λ column. column_of column.rows.now column.k };

    fn len(&self) -> usize {
        self.rows.len()
    }

    fn read(&self, at: usize, out: &mut [Option<i64>]) {
        self.rows.read_column(self.k, at, out);
    }
}

impl<'a> Measured for RowColumn<'a> {}
