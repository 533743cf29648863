//! The least and the greatest value of some rows, by the distances of their codes from the ends.

ghost use Rattle.std.specs.Prelude.{All, None, Some, if◌then◌else◌, is_some, length, slice_get, slice_index, true, ◌&&◌, ◌-◌, ◌<◌, ◌^◌, ◌≡◌};
ghost use Rattle.bw_mask.specs.Masks.{len, row_at};
ghost use Rattle.bw_code.specs.Encodings.{width};
ghost use Rattle.bw_column.specs.Codes.{codes_for};
ghost use Rattle.bw_column.specs.Values.{IsNullOrHeld, value_at};
ghost use Rattle.bw_cells.specs.SetFunctions.{sorted};
ghost use Rattle.bw_aggregate.specs.Chosen.{chosen};
ghost use Rattle.bw_aggregate.specs.Descents.{end_of};
ghost use Rattle.bw_aggregate.specs.Ends.{IsNearest};

use crate::end::{End, distance, greatest_code};
use bw_column::Column;
use bw_mask::Mask;

/// The least or the greatest non-null value of the rows, from the least distance of their codes. At least one value is
/// non-null.
fn end_value(column: &Column, rows: &Mask, end: End, nearest: u64) -> i64
    requires len { len rows.now ≡ length column.now.values }
    requires held { All (IsNullOrHeld column.now.layout) column.now.values }
    requires some { 0 < length (chosen column.now rows.now) }
    requires nearest { IsNearest (length (codes_for column.now.encoding column.now.values)) (λ r. row_at rows.now r && is_some (value_at column.now.values r)) (slice_index (codes_for column.now.encoding column.now.values)) end (2 ^ width column.now.encoding - 1) (2 ^ 64 - 1) nearest }
    ensures { Some result ≡ slice_get (sorted (chosen column.now rows.now)) (end_of end (length (chosen column.now rows.now))) }
{
    let encoding = column.encoding();
    let top = greatest_code(encoding.width());
    encoding.decode(distance(end, top, nearest))
}

/// The least or the greatest non-null value of the rows, if it is asked for.
pub(crate) fn end_told(
    column: &Column,
    rows: &Mask,
    end: End,
    nearest: u64,
    asked: bool,
) -> Option<i64>
    requires len { len rows.now ≡ length column.now.values }
    requires held { All (IsNullOrHeld column.now.layout) column.now.values }
    requires some { 0 < length (chosen column.now rows.now) }
    requires nearest { asked ≡ true → IsNearest (length (codes_for column.now.encoding column.now.values)) (λ r. row_at rows.now r && is_some (value_at column.now.values r)) (slice_index (codes_for column.now.encoding column.now.values)) end (2 ^ width column.now.encoding - 1) (2 ^ 64 - 1) nearest }
    ensures { result ≡ (if asked then slice_get (sorted (chosen column.now rows.now)) (end_of end (length (chosen column.now rows.now))) else None) }
{
    if asked {
        Some(end_value(column, rows, end, nearest))
    } else {
        None
    }
}
