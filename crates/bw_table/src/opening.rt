//! Builds the columns of a table from cells.

ghost use Rattle.std.specs.Prelude.{All, IfOk, [], length, map, slice_index_or, ℕ, ◌<◌, ◌^◌, ◌≡◌, ◌≤◌};
ghost use Rattle.bw_column.specs.Values.{IsNullOrHeld};
ghost use Rattle.bw_table.specs.Opening.{AreOpened, IsOpened};

use bw_cells::Measured;
use bw_code::Header;
use bw_column::Column;
use std::alloc::{AllocError, Global};

/// A column of these cells, in the layout and of the kind in its header.
fn column_of<N, C: Measured>(
    alloc: Global,
    header: &Header<N>,
    cells: &C,
) -> Result<Column, AllocError>
    requires few { length (C.cells cells.now) ≤ 2 ^ 24 }
    requires held { All (IsNullOrHeld header.now.layout) (C.cells cells.now) }
    ensures { IfOk result (IsOpened header.now (C.cells cells.now)) }
{
    Column::build(alloc, cells, header.layout, header.kind)
}

/// The columns for these headers, one for each list of cells.
pub(crate) fn columns_of<N, C: Measured>(
    alloc: Global,
    headers: &Vec<Header<N>>,
    columns: &[C],
) -> Result<Vec<Column>, AllocError>
    requires wide { length columns.now ≡ length headers.now.items }
    requires few { All (λ cells. length cells ≤ 2 ^ 24) (map C.cells columns.now) }
    requires held { (k : ℕ) (h : Header N) → k < length headers.now.items → All (IsNullOrHeld (slice_index_or headers.now.items k h).layout) (slice_index_or (map C.cells columns.now) k []) }
    ensures { IfOk result (λ opened. AreOpened headers.now.items (map C.cells columns.now) opened.items) }
{
    let mut opened = Vec::with_capacity(alloc, headers.len())?;
    for k in 0..headers.len() {
        opened.push(column_of(alloc, &headers[k], &columns[k])?)?;
    }
    Ok(opened)
}
