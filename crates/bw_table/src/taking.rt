//! The values that a column takes in the rows of a mask: one for each row, or the same for all.

ghost use Rattle.std.specs.Prelude.{All, IfOk, count_by, false, length, slice_index_or, vec_len, ◌<◌, ◌^◌, ◌≡◌, ◌≤◌};
ghost use Rattle.bw_mask.specs.Masks.{len};
ghost use Rattle.bw_code.specs.Encodings.{kind_of};
ghost use Rattle.bw_column.specs.Columns.{ColumnView, Keeps};
ghost use Rattle.bw_column.specs.Places.{chosen_values, overwritten};
ghost use Rattle.bw_column.specs.Preparing.{IsEncodingFor};
ghost use Rattle.bw_column.specs.Values.{IsNullOrHeld};
ghost use Rattle.bw_table.specs.Sets.{FitsCopy, IsReadyFor, IsThere, gathered, prepared_values, taken};

use crate::gathering::gather;
use crate::setting::SetTo;
use bw_code::Kind;
use bw_column::{Column, Prepared, PreparedCopy};
use bw_mask::Mask;
use std::alloc::{AllocError, Global};

/// The values for the rows of a mask.
#[derive(Drop)]
pub(crate) enum Taken {
    /// One for each row, in order.
    Each(Vec<Option<i64>>),
    /// The same for all rows, stored once.
    Same(Option<i64>),
    /// Those of a copy of a column. The copy is null in every other row, and is read when the values are taken.
    Copied(Column),
}

/// Values, and what a column has prepared for them.
#[derive(Drop)]
pub(crate) enum PreparedValues {
    Each(Prepared, Vec<Option<i64>>),
    Same(Prepared, Option<i64>),
    Copied(PreparedCopy),
}

/// Whether the mask has so many of a column's rows that copying all of them costs less than listing the values.
pub(crate) fn are_many(mask: &Mask) -> bool {
    mask.len() / 8 < mask.count()
}

/// The values of a column in the rows of a mask, for a column of this kind to take.
fn values_from(kind: Kind, column: &Column, alloc: Global, mask: &Mask) -> Result<Taken, AllocError>
    requires long { length column.now.values ≡ len mask.now }
    ensures values { IfOk result (λ values. taken mask.now values ≡ chosen_values mask.now column.now.values) }
    ensures fits { IfOk result (FitsCopy kind mask.now) }
{
    if column.kind() == kind && are_many(mask) {
        return Ok(Taken::Copied(column.copy_at(alloc, mask)?));
    }
    Ok(Taken::Each(gather(column, alloc, mask)?))
}

/// The values that column k is set to in the rows of a mask.
pub(crate) fn values_for(
    columns: &Vec<Column>,
    alloc: Global,
    mask: &Mask,
    k: usize,
    to: SetTo,
) -> Result<Taken, AllocError>
    requires named { k < vec_len columns.now }
    requires to { IsThere (vec_len columns.now) to }
    requires long { All (λ column. length column.values ≡ len mask.now) columns.now.items }
    ensures values { IfOk result (λ values. taken mask.now values ≡ gathered columns.now.items mask.now to) }
    ensures fits { (d : ColumnView) → IfOk result (FitsCopy (kind_of (slice_index_or columns.now.items k d).encoding) mask.now) }
{
    match to {
        SetTo::Value(x) => Ok(Taken::Same(x)),
        SetTo::Column(from) => values_from(columns[k].kind(), &columns[from], alloc, mask),
    }
}

/// Prepares a column for values. The column keeps its own values, even if it runs out of memory.
pub(crate) fn make_ready(
    column: &mut Column,
    alloc: Global,
    mask: &Mask,
    values: Taken,
) -> Result<PreparedValues, AllocError>
    requires held { All (IsNullOrHeld column.old.layout) (taken mask.now values) }
    requires count { length (taken mask.now values) ≤ 2 ^ 24 }
    requires few { length column.old.values ≤ 2 ^ 24 }
    requires fits { FitsCopy (kind_of column.old.encoding) mask.now values }
    ensures values { IfOk result (λ ready. prepared_values mask.now ready ≡ taken mask.now values) }
    ensures prepared { IfOk result (IsReadyFor column.new mask.now) }
    ensures keeps { Keeps column.new column.old }
{
    match values {
        Taken::Each(list) => {
            let prepared = column.room_for(alloc, &list.as_slice(), false)?;
            Ok(PreparedValues::Each(prepared, list))
        }
        Taken::Same(value) => {
            let prepared = column.room_to_fill(alloc, value, mask.count())?;
            Ok(PreparedValues::Same(prepared, value))
        }
        Taken::Copied(copy) => {
            let prepared = column.room_to_copy(alloc, mask, copy)?;
            Ok(PreparedValues::Copied(prepared))
        }
    }
}

/// Writes the values that a column is prepared for to the rows of a mask. Allocates nothing.
pub(crate) fn take(column: &mut Column, mask: &Mask, ready: PreparedValues)
    requires prepared { IsReadyFor column.old mask.now ready }
    requires mask { len mask.now ≡ length column.old.values }
    requires count { count_by (λ row. row) mask.now.rows ≡ length (prepared_values mask.now ready) }
    ensures values { column.new.values ≡ overwritten mask.now (prepared_values mask.now ready) column.old.values }
    ensures layout { column.new.layout ≡ column.old.layout }
    ensures encoding { IsEncodingFor column.old.values column.old.encoding (prepared_values mask.now ready) column.new.encoding }
{
    match ready {
        PreparedValues::Each(prepared, list) => column.overwrite(prepared, mask, &list),
        PreparedValues::Same(prepared, value) => column.fill(prepared, mask, value),
        PreparedValues::Copied(prepared) => column.copy_from(prepared, mask),
    }
}
