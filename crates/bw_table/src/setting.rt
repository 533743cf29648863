//! Sets columns in the rows of a mask, in two steps: first every allocation, then the writes, which can't fail.

ghost use Rattle.std.specs.Prelude.{All, IfOk, IfSome, false, length, slice_index_or, vec_len, ◌<◌, ◌^◌, ◌≡◌, ◌≢◌, ◌≤◌};
ghost use Rattle.std.specs.List.{AllPairs};
ghost use Rattle.bw_mask.specs.Masks.{len};
ghost use Rattle.bw_column.specs.Columns.{ColumnView};
ghost use Rattle.bw_column.specs.Copies.{CanCopy};
ghost use Rattle.bw_column.specs.Values.{IsNullOrHeld};
ghost use Rattle.bw_table.specs.Halves.{AllKept};
ghost use Rattle.bw_table.specs.Sets.{AllSet, AreReadyFor, CanApply, IsReady, IsThere, IsWrittenIn, changed, gathered};
ghost use Rattle.bw_table.specs.declared.setting.SetTo.TheVariants.{Column as ToColumn};

use crate::taking::{PreparedValues, are_many, make_ready, take, values_for};
use bw_column::Column;
use bw_mask::Mask;
use std::alloc::{AllocError, Global};

/// What a column is set to: a value, or the value of a column in the same row.
#[derive(Clone, Copy, Debug, PartialEq, Eq)]
pub enum SetTo {
    Value(Option<i64>),
    Column(usize),
}

/// A change of one column.
#[derive(Drop)]
pub(crate) enum Change {
    /// The column takes values that it is prepared for.
    Take(PreparedValues),
    /// The column takes the values that another column has in the same rows, straight from it. No change before this
    /// one is of that column.
    Copy(usize),
}

/// Whether a column is set.
fn is_set(sets: &[(usize, SetTo)], column: usize) -> bool
    ensures { result ≡ false → All (λ set. set.0 ≢ column) sets.now }
{
    for set in sets {
        let (k, _) = *set;
        if k == column {
            return true;
        }
    }
    false
}

/// The column from which column k takes its values straight, if it is set to another one whose codes will do, and which
/// the sets that are made before this one leave as it is.
fn copied_column(
    columns: &Vec<Column>,
    found: &Mask,
    before: &[(usize, SetTo)],
    k: usize,
    to: SetTo,
) -> Option<usize>
    requires named { k < vec_len columns.now }
    requires there { IsThere (vec_len columns.now) to }
    ensures is { IfSome result (λ from. to ≡ ToColumn from) }
    ensures apart { IfSome result (λ from. k ≢ from) }
    ensures unset { IfSome result (λ from. All (λ set. set.0 ≢ from) before.now) }
    ensures can { (c : ColumnView) → IfSome result (λ from. CanCopy (slice_index_or columns.now.items k c) (slice_index_or columns.now.items from c)) }
{
    let SetTo::Column(from) = to else {
        return None;
    };
    if from == k || !are_many(found) || is_set(before, from) {
        return None;
    }
    if !columns[k].can_copy(&columns[from]) {
        return None;
    }
    Some(from)
}

/// Prepares column k for what it is set to. The sets `before` are made before this one.
fn prepare_set(
    columns: &mut Vec<Column>,
    alloc: Global,
    found: &Mask,
    before: &[(usize, SetTo)],
    k: usize,
    to: SetTo,
) -> Result<Change, AllocError>
    requires named { k < vec_len columns.old }
    requires there { IsThere (vec_len columns.old) to }
    requires held { (d : ColumnView) → All (IsNullOrHeld (slice_index_or columns.old.items k d).layout) (gathered columns.old.items found.now to) }
    requires long { All (λ column. length column.values ≡ len found.now) columns.old.items }
    requires few { len found.now ≤ 2 ^ 24 }
    ensures kept { AllKept columns.new.items columns.old.items }
    ensures ready { IfOk result (IsReady columns.new.items found.now before.now (k, to)) }
{
    if let Some(from) = copied_column(columns, found, before, k, to) {
        return Ok(Change::Copy(from));
    }
    let values = values_for(columns, alloc, found, k, to)?;
    let ready = make_ready(&mut columns[k], alloc, found, values)?;
    Ok(Change::Take(ready))
}

/// The first step: each column that is set prepares for its values, which are read from the columns as they are. The
/// columns' values stay unchanged, even if it runs out of memory.
pub(crate) fn prepare_sets(
    columns: &mut Vec<Column>,
    alloc: Global,
    found: &Mask,
    sets: &[(usize, SetTo)],
) -> Result<Vec<Change>, AllocError>
    requires named { All (λ set. set.0 < vec_len columns.old) sets.now }
    requires there { All (λ set. IsThere (vec_len columns.old) set.1) sets.now }
    requires held { All (λ set. (d : ColumnView) → All (IsNullOrHeld (slice_index_or columns.old.items set.0 d).layout) (gathered columns.old.items found.now set.1)) sets.now }
    requires long { All (λ column. length column.values ≡ len found.now) columns.old.items }
    requires few { len found.now ≤ 2 ^ 24 }
    ensures kept { AllKept columns.new.items columns.old.items }
    ensures count { IfOk result (λ changes. vec_len changes ≡ length sets.now) }
    ensures ready { IfOk result (λ changes. AreReadyFor columns.new.items found.now sets.now changes.items) }
{
    let mut changes = Vec::with_capacity(alloc, sets.len())?;
    for n in 0..sets.len() {
        let (k, to) = sets[n];
        let change = prepare_set(columns, alloc, found, &sets[n + 1..], k, to)?;
        changes.push(change)?;
    }
    Ok(changes)
}

/// Column k takes the values that another column has in the found rows.
fn copy_column(columns: &mut Vec<Column>, found: &Mask, k: usize, from: usize)
    requires named { k < vec_len columns.old }
    requires there { from < vec_len columns.old }
    requires apart { k ≢ from }
    requires long { All (λ column. length column.values ≡ len found.now) columns.old.items }
    requires can { (c : ColumnView) → CanCopy (slice_index_or columns.old.items k c) (slice_index_or columns.old.items from c) }
    ensures written { IsWrittenIn columns.new.items columns.old.items k found.now (gathered columns.old.items found.now (ToColumn from)) }
{
    if k < from {
        let (front, back) = columns.split_at_mut(from);
        front[k].copy_values(found, &back[0]);
    } else {
        let (front, back) = columns.split_at_mut(k);
        back[0].copy_values(found, &front[from]);
    }
}

/// Makes the change of column k.
fn apply_set(columns: &mut Vec<Column>, found: &Mask, k: usize, change: Change)
    requires named { k < vec_len columns.old }
    requires long { All (λ column. length column.values ≡ len found.now) columns.old.items }
    requires can { CanApply columns.old.items found.now k change }
    ensures written { IsWrittenIn columns.new.items columns.old.items k found.now (changed columns.old.items found.now change) }
{
    match change {
        Change::Take(ready) => take(&mut columns[k], found, ready),
        Change::Copy(from) => copy_column(columns, found, k, from),
    }
}

/// The second step: each column that is set takes its values in the found rows, from the last set to the first.
/// Allocates nothing.
pub(crate) fn apply_sets(
    columns: &mut Vec<Column>,
    found: &Mask,
    sets: &[(usize, SetTo)],
    changes: Vec<Change>,
)
    requires named { All (λ set. set.0 < vec_len columns.old) sets.now }
    requires apart { AllPairs (λ set other. set.0 ≢ other.0) sets.now }
    requires long { All (λ column. length column.values ≡ len found.now) columns.old.items }
    requires count { vec_len changes ≡ length sets.now }
    requires ready { AreReadyFor columns.old.items found.now sets.now changes.items }
    ensures set { AllSet found.now sets.now columns.new.items columns.old.items }
{
    let mut rest = changes;
    while let Some(change) = rest.pop() {
        let (k, _) = sets[rest.len()];
        apply_set(columns, found, k, change);
    }
}
