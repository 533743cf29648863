//! The rows with a non-null value.

ghost use Rattle.std.specs.Prelude.{◌≡◌, ◌≤◌, ◌^◌, IfOk, length};
ghost use Rattle.bw_mask.specs.Masks.{len};
ghost use Rattle.bw_aggregate.specs.Chosen.{AreKnownRows, chosen};

use bw_column::Column;
use bw_mask::Mask;
use std::alloc::AllocError;

/// The rows with a non-null value.
pub(crate) fn known_rows(column: &Column, rows: &Mask) -> Result<Mask, AllocError>
    requires { len rows.now ≡ length column.now.values }
    ensures { IfOk result (AreKnownRows column.now rows.now) }
{
    let mut known = rows.try_clone()?;
    known.and_in(column.nonnull());
    Ok(known)
}

/// The number of non-null values of the rows.
pub(crate) fn known_count(column: &Column, rows: &Mask) -> usize
    requires { len rows.now ≡ length column.now.values }
    ensures is { result ≡ length (chosen column.now rows.now) }
    ensures few { result ≤ 2 ^ 24 }
{
    rows.count_both(column.nonnull())
}
