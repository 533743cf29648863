//! Takes the next group of rows by a column's values.

ghost use Rattle.std.specs.Prelude.{IfOk, None, OnErr, Some, length, ℕ, ◌&&◌, ◌≡◌};
ghost use Rattle.bw_mask.specs.Masks.{len, row_at};
ghost use Rattle.bw_column.specs.Values.{value_at};
ghost use Rattle.std.specs.Option.{option_eq};
ghost use Rattle.std.specs.Ordering.{int_eq};
ghost use Rattle.bw_aggregate.specs.NextGroups.{IsNextGroup};

use crate::set_functions::min;
use bw_code::{CmpOp, Meter};
use bw_column::Column;
use bw_mask::{Mask, Truth, TruthValue};
use std::alloc::{AllocError, Global};

/// Returns the least value of the remaining rows, or NULL if all of their values are NULL, with the rows that have it,
/// and removes those from the remaining rows. Returns `None` if no row remains. If it runs out of memory, the remaining
/// rows stay unchanged.
pub fn next_group(
    alloc: Global,
    column: &Column,
    remaining: &mut Mask,
) -> Result<Option<(Option<i64>, Mask)>, AllocError>
    requires { len remaining.old ≡ length column.now.values }
    ensures group { IfOk result (IsNextGroup column.now remaining.old remaining.new) }
    ensures kept { OnErr result (remaining.new ≡ remaining.old) }
{
    if !remaining.any() {
        return Ok(None);
    }
    let value = min(alloc, column, remaining)?;
    let group = rows_having(alloc, column, value, remaining)?;
    remaining.andnot_in(&group);
    Ok(Some((value, group)))
}

/// The rows that have this value.
fn rows_having(
    alloc: Global,
    column: &Column,
    value: Option<i64>,
    rows: &Mask,
) -> Result<Mask, AllocError>
    requires { len rows.now ≡ length column.now.values }
    ensures len { IfOk result (λ having. len having ≡ len rows.now) }
    ensures rows { IfOk result (λ having. (r : ℕ) → row_at having r ≡ (row_at rows.now r && option_eq int_eq (value_at column.now.values r) value)) }
{
    match value {
        Some(value) => equal_rows(alloc, column, value, rows),
        None => null_rows(column, rows),
    }
}

/// The rows whose value is this integer.
fn equal_rows(alloc: Global, column: &Column, value: i64, rows: &Mask) -> Result<Mask, AllocError>
    requires { len rows.now ≡ length column.now.values }
    ensures len { IfOk result (λ having. len having ≡ len rows.now) }
    ensures rows { IfOk result (λ having. (r : ℕ) → row_at having r ≡ (row_at rows.now r && option_eq int_eq (value_at column.now.values r) (Some value))) }
{
    let mut truth = Truth::filled(alloc, column.len(), TruthValue::Unknown)?;
    column.compare_in(CmpOp::Eq, value, rows, &mut truth, &mut Meter::new());
    Ok(truth.into_trues())
}

/// The rows whose value is NULL.
fn null_rows(column: &Column, rows: &Mask) -> Result<Mask, AllocError>
    requires { len rows.now ≡ length column.now.values }
    ensures len { IfOk result (λ having. len having ≡ len rows.now) }
    ensures rows { IfOk result (λ having. (r : ℕ) → row_at having r ≡ (row_at rows.now r && option_eq int_eq (value_at column.now.values r) None)) }
{
    let mut having = rows.try_clone()?;
    having.andnot_in(column.nonnull());
    Ok(having)
}
