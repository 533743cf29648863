//! Appends rows to all columns in two steps: first every allocation, then the writes, which can't fail.

ghost use Rattle.std.specs.Prelude.{All, IfOk, length, replicate, slice_index_or, true, vec_len, ℕ, ◌++◌, ◌+◌, ◌<◌, ◌^◌, ◌≡◌, ◌≤◌};
ghost use Rattle.bw_mask.specs.Masks.{len};
ghost use Rattle.bw_column.specs.Columns.{ColumnView};
ghost use Rattle.bw_column.specs.Values.{IsNullOrHeld};
ghost use Rattle.bw_table.specs.Halves.{AllKept, AllMadeFrom, AreReadyBelow};
ghost use Rattle.bw_table.specs.Slots.{column_of};

use crate::row_column::RowColumn;
use crate::rows::Rows;
use bw_column::{Column, Prepared};
use bw_mask::Mask;
use std::alloc::{AllocError, Global};

/// The first step: each column reserves room. The values stay unchanged, even if it runs out of memory.
pub(crate) fn prepare(
    columns: &mut Vec<Column>,
    alloc: Global,
    rows: &Rows<'_>,
) -> Result<Vec<Prepared>, AllocError>
    requires widths { All (λ row. vec_len columns.old ≤ length row) rows.now }
    requires held { (k : ℕ) (d : ColumnView) → k < vec_len columns.old → All (IsNullOrHeld (slice_index_or columns.old.items k d).layout) (column_of rows.now k) }
    requires few { All (λ column. length column.values + length rows.now ≤ 2 ^ 24) columns.old.items }
    requires some { length rows.now ≤ 2 ^ 24 }
    ensures kept { AllKept columns.new.items columns.old.items }
    ensures count { IfOk result (λ prepared. vec_len prepared ≡ vec_len columns.old) }
    ensures ready { IfOk result (λ prepared. AreReadyBelow (vec_len columns.old) rows.now columns.new.items prepared.items) }
{
    let mut prepared = Vec::with_capacity(alloc, columns.len())?;
    for k in 0..columns.len() {
        let values = RowColumn::new(rows, k);
        prepared.push(columns[k].room_for(alloc, &values, true)?)?;
    }
    Ok(prepared)
}

/// The second step: each column takes its values. Allocates nothing.
pub(crate) fn apply(columns: &mut Vec<Column>, prepared: Vec<Prepared>, rows: &Rows<'_>)
    requires widths { All (λ row. vec_len columns.old ≤ length row) rows.now }
    requires count { vec_len prepared ≡ vec_len columns.old }
    requires ready { AreReadyBelow (vec_len columns.old) rows.now columns.old.items prepared.items }
    ensures count { vec_len columns.new ≡ vec_len columns.old }
    ensures made { AllMadeFrom 0 rows.now columns.new.items columns.old.items }
{
    let mut rest = prepared;
    while let Some(last) = rest.pop() {
        let k = rest.len();
        let values = RowColumn::new(&*rows, k);
        columns[k].append(last, &values);
    }
}

/// Appends `n` live rows to the mask, within its room.
pub(crate) fn push_live(live: &mut Mask, n: usize)
    requires room { len live.old + n ≤ live.old.room }
    requires few { len live.old + n ≤ 2 ^ 32 }
    ensures { live.new.rows ≡ live.old.rows ++ replicate n true }
{
    for _i in 0..n {
        live.push(true);
    }
}
