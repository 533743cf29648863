//! The columns of a table as a SAVE writes them: their cells in the live slots.

ghost use Rattle.std.specs.Prelude.{◌≡◌, ◌<◌, IfOk, length, map, slice_index_or};
ghost use Rattle.std.specs.List.{AllZip, range_with_len};
ghost use Rattle.bw_model.specs.Store.{Header};
ghost use Rattle.bw_code.specs.Types.{IsTyped};
ghost use Rattle.bw_model.specs.Filing.{column_of};
ghost use Rattle.bw_engine.specs.RowCells.{row_cells};
ghost use Rattle.bw_engine.specs.Saving.{saved_cells};
ghost use Rattle.bw_engine.specs.Stores.{rows_in};

use crate::ended_cells::{EndedCells, RowCells};
use crate::live_ends::live_ends;
use crate::table::Table;
use bw_cells::{Cells, Measured};
use bw_code::{Ends, Offset, PlaneBlock};
use bw_column::Column;
use bw_sql::Value;
use bw_table::ChosenCells;
use std::alloc::{AllocError, Global};

/// The cells of a column in the rows of its table, as a SAVE reads them.
#[derive(Drop)]
pub(crate) enum LiveCells<'a> {
    /// Every slot is live, and the encoding is taken to be as tight as the values allow: the column as it is.
    Tight(&'a Column),
    /// The cells with their ends.
    Ended(EndedCells<'a>),
}

impl Cells for LiveCells<'_> {
    ghost use Rattle.bw_engine.specs.Saving.{saved_cells};

    ghost cells = { saved_cells };

    fn len(&self) -> usize {
        match self {
            LiveCells::Tight(column) => column.len(),
            LiveCells::Ended(cells) => cells.len(),
        }
    }

    fn read(&self, at: usize, out: &mut [Value]) {
        match self {
            LiveCells::Tight(column) => column.read(at, out),
            LiveCells::Ended(cells) => cells.read(at, out),
        }
    }
}

impl Measured for LiveCells<'_> {
    fn ends(&self) -> Option<Ends> {
        match self {
            LiveCells::Tight(column) => column.ends(),
            LiveCells::Ended(cells) => cells.ends(),
        }
    }

    fn span(&self) -> Offset {
        match self {
            LiveCells::Tight(column) => column.span(),
            LiveCells::Ended(cells) => cells.span(),
        }
    }

    fn distances(&self, at: usize, base: i64, out: &mut [u64]) -> u64 {
        match self {
            LiveCells::Tight(column) => column.distances(at, base, out),
            LiveCells::Ended(cells) => cells.distances(at, base, out),
        }
    }

    fn planes(
        &self,
        at: usize,
        count: usize,
        base: i64,
        k: usize,
        block: &mut PlaneBlock,
    ) -> Option<[u64; 32]> {
        match self {
            LiveCells::Tight(column) => column.planes(at, count, base, k, block),
            LiveCells::Ended(cells) => cells.planes(at, count, base, k, block),
        }
    }
}

/// The columns, each with its cells in the rows.
pub(crate) fn live_columns<'a>(
    alloc: Global,
    table: &'a Table,
) -> Result<Vec<LiveCells<'a>>, AllocError>
    ensures cells { IfOk result (λ columns. map saved_cells columns.items ≡ map (column_of (rows_in table.entry.now.slots)) (range_with_len 0 (length table.entry.now.headers))) }
    ensures typed { IfOk result (λ columns. AllZip IsTyped table.entry.now.headers (map saved_cells columns.items)) }
{
    let width = table.headers().len();
    let mut columns = Vec::with_capacity(alloc, width)?;
    for k in 0..width {
        columns.push(live_column(alloc, table, k)?)?;
    }
    Ok(columns)
}

/// The cells of column k in the rows.
fn live_column<'a>(alloc: Global, table: &'a Table, k: usize) -> Result<LiveCells<'a>, AllocError>
    requires { k < length table.now.headers }
    ensures cells { IfOk result (λ column. saved_cells column ≡ column_of (rows_in table.entry.now.slots) k) }
    ensures typed { IfOk result (λ column. (h : Header) → IsTyped (slice_index_or table.entry.now.headers k h) (saved_cells column)) }
{
    if table.is_tight() {
        let stored = table.stored();
        let column = stored.column(k);
        let slots = column.len();
        if stored.row_count() == slots {
            return Ok(LiveCells::Tight(column));
        }
    }
    let cells = cells_of(alloc, table, k)?;
    Ok(LiveCells::Ended(EndedCells::new(cells, live_ends(table, k))))
}

/// The cells of column k in the rows, read where they are.
fn cells_of<'a>(alloc: Global, table: &'a Table, k: usize) -> Result<RowCells<'a>, AllocError>
    requires { k < length table.now.headers }
    ensures cells { IfOk result (λ column. row_cells column ≡ column_of (rows_in table.entry.now.slots) k) }
    ensures typed { IfOk result (λ column. (h : Header) → IsTyped (slice_index_or table.entry.now.headers k h) (row_cells column)) }
{
    let stored = table.stored();
    let column = stored.column(k);
    let slots = column.len();
    if stored.row_count() == slots {
        return Ok(RowCells::Whole(column));
    }
    let cells = ChosenCells::new(alloc, column, stored.live())?;
    Ok(RowCells::Chosen(cells))
}
