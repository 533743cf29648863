//! Cells stored contiguously in memory.

ghost use Rattle.std.specs.Prelude.{[], ◌≡◌};
ghost use Rattle.std.specs.List.{list_all};
ghost use Rattle.bw_csvload.specs.Forms.{cells_in, cells_of, is_integer, TakesCells};

use bw_code::ColumnType;
use std::alloc::Global;

/// Cells, row by row; NULL is `None`. They are 32-bit in memory where each column is INTEGER, else 64-bit.
#[derive(Debug, Clone, Copy, PartialEq, Eq)]
pub enum Cells<'a> {
    /// Cells of columns that are all INTEGER.
    Integers(&'a [Option<i32>]),
    /// Cells of columns at least one of which is BIGINT.
    Values(&'a [Option<i64>]),
}

/// The same, in an owned buffer.
#[derive(Drop)]
pub(crate) enum CellList {
    Integers(Vec<Option<i32>>),
    Values(Vec<Option<i64>>),
}

/// Whether each type is INTEGER.
fn are_integers(types: &[ColumnType]) -> bool
    ensures { result ≡ list_all is_integer types.now }
{
    types
        .iter()
        .all(|column_type| matches!(column_type, ColumnType::Integer))
}

impl CellList {
    /// An empty list of cells, in the form that is wide enough for columns of these types.
    pub(crate) fn new(alloc: Global, types: &[ColumnType]) -> CellList
        ensures none { cells_in result ≡ [] }
        ensures form { TakesCells types.now result }
    {
        if are_integers(types) {
            CellList::Integers(Vec::new(alloc))
        } else {
            CellList::Values(Vec::new(alloc))
        }
    }

    /// All cells.
    pub(crate) fn as_cells(&self) -> Cells<'_>
        ensures { cells_of result ≡ cells_in self.now }
    {
        match self {
            CellList::Integers(cells) => Cells::Integers(cells),
            CellList::Values(cells) => Cells::Values(cells),
        }
    }
}
