//! The cells of a column in the rows of its table, and the same with their ends.

ghost use Rattle.std.specs.Prelude.{◌≡◌};
ghost use Rattle.bw_cells.specs.Known.{known};
ghost use Rattle.bw_code.specs.Fittings.{AreEnds};
ghost use Rattle.bw_engine.specs.RowCells.{row_cells};

use bw_cells::{Cells, Measured};
use bw_code::{Ends, Offset, PlaneBlock};
use bw_column::Column;
use bw_sql::Value;
use bw_table::ChosenCells;
use std::marker::Model;

/// The cells of a column in the rows of its table, without dead slots.
#[derive(Drop)]
pub(crate) enum RowCells<'a> {
    /// Every slot is live: the column as it is.
    Whole(&'a Column),
    /// Some slots are dead: the values of the live ones.
    Chosen(ChosenCells<'a>),
}

impl Cells for RowCells<'_> {
    ghost use Rattle.bw_engine.specs.RowCells.{row_cells};

    ghost cells = { row_cells };

    fn len(&self) -> usize {
        match self {
            RowCells::Whole(column) => column.len(),
            RowCells::Chosen(cells) => cells.len(),
        }
    }

    fn read(&self, at: usize, out: &mut [Value]) {
        match self {
            RowCells::Whole(column) => column.read(at, out),
            RowCells::Chosen(cells) => cells.read(at, out),
        }
    }
}

impl Measured for RowCells<'_> {
    fn distances(&self, at: usize, base: i64, out: &mut [u64]) -> u64 {
        match self {
            RowCells::Whole(column) => column.distances(at, base, out),
            RowCells::Chosen(cells) => cells.distances(at, base, out),
        }
    }

    fn planes(
        &self,
        at: usize,
        count: usize,
        base: i64,
        k: usize,
        block: &mut PlaneBlock,
    ) -> Option<[u64; 32]> {
        match self {
            RowCells::Whole(column) => column.planes(at, count, base, k, block),
            RowCells::Chosen(cells) => cells.planes(at, count, base, k, block),
        }
    }
}

/// Such cells with the least and the greatest of them, found before: a SAVE then writes the column once.
#[derive(Drop)]
pub(crate) struct EndedCells<'a> {
    cells: RowCells<'a>,
    ends: Option<Ends>,
}

impl<'a> Model for EndedCells<'a> {
    ghost use Rattle.std.specs.Prelude.{List, Option, ℤ};
    ghost use Rattle.bw_cells.specs.Known.{known};
    ghost use Rattle.bw_code.specs.Fittings.{AreEnds};
    ghost use Rattle.bw_engine.specs.RowCells.{row_cells};

    ghost Value = { List (Option ℤ) };

    ghost view = { λ ended. row_cells ended.cells };

    ghost invariant = { λ ended. AreEnds (known (row_cells ended.cells)) ended.ends };
}

impl<'a> EndedCells<'a> {
    /// These cells, whose ends are given.
    pub(crate) fn new(cells: RowCells<'a>, ends: Option<Ends>) -> EndedCells<'a>
        requires { AreEnds (known (row_cells cells)) ends }
        ensures { result ≡ row_cells cells.entry }
    {
        EndedCells { cells, ends }
    }
}

impl<'a> Cells for EndedCells<'a> {
    ghost cells = { λ ended. ended };

    fn len(&self) -> usize {
        self.cells.len()
    }

    fn read(&self, at: usize, out: &mut [Value]) {
        self.cells.read(at, out);
    }
}

impl<'a> Measured for EndedCells<'a> {
    fn ends(&self) -> Option<Ends> {
        self.ends
    }

    fn distances(&self, at: usize, base: i64, out: &mut [u64]) -> u64 {
        self.cells.distances(at, base, out)
    }

    fn planes(
        &self,
        at: usize,
        count: usize,
        base: i64,
        k: usize,
        block: &mut PlaneBlock,
    ) -> Option<[u64; 32]> {
        self.cells.planes(at, count, base, k, block)
    }
}
