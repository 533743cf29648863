//! The values of a column as numbers in the same order.

ghost use Rattle.std.specs.Prelude.{All, IfOk, None, Some, [], filter_map, if◌then◌else◌, length, map, option_map, pos, unsigned_abs, ◌++◌, ◌+ℤ◌, ◌-ℤ◌, ◌∷◌, ◌≡◌, ◌≤ℤ◌};
ghost use Rattle.bw_cells.specs.SetFunctions.{known};
ghost use Rattle.bw_groups.specs.Spreading.{ranks_over};

use crate::column_values::ColumnValues;
use bw_code::Ends;
use std::alloc::{AllocError, Global};

/// The least and the greatest of the non-null values.
pub(crate) fn known_ends(values: &ColumnValues) -> Ends
    ensures least { All (λ x. result.least ≤ℤ x) (known values.now) }
    ensures greatest { All (λ x. x ≤ℤ result.greatest) (known values.now) }
{
    let mut least = i64::MAX;
    let mut greatest = i64::MIN;
    'values: for i in 0..values.len() {
        if let Some(value) = values.get(i) {
            least = least.min(value);
            greatest = greatest.max(value);
        }
    }
    Ends { least, greatest }
}

/// The distance of each non-null value above the least, in order.
pub(crate) fn known_distances(
    alloc: Global,
    values: &ColumnValues,
    ends: &Ends,
) -> Result<Vec<u64>, AllocError>
    requires { All (λ x. ends.now.least ≤ℤ x) (known values.now) }
    ensures { IfOk result (λ distances. map (λ n. ends.now.least +ℤ pos n) distances.items ≡ known values.now) }
{
    distances_from(alloc, values, ends.least)
}

fn distances_from(alloc: Global, values: &ColumnValues, base: i64) -> Result<Vec<u64>, AllocError>
    ensures { IfOk result (λ distances. distances.items ≡ filter_map (λ value. option_map (λ x. unsigned_abs (x -ℤ base)) value) values.now) }
{
    let mut distances = Vec::with_capacity(alloc, values.len())?;
    'values: for i in 0..values.len() {
        if let Some(distance) = distance(values.get(i), base) {
            distances.push(distance)?;
        }
    }
    Ok(distances)
}

/// The distance of a value above the base; `None` for NULL.
fn distance(value: Option<i64>, base: i64) -> Option<u64>
    ensures { result ≡ option_map (λ x. unsigned_abs (x -ℤ base)) value }
{
    match value {
        Some(value) => Some(value.abs_diff(base)),
        None => None,
    }
}

/// The values with these distances above the least, followed by NULL if it occurs.
pub(crate) fn values_at(
    alloc: Global,
    ends: &Ends,
    distances: &[u64],
    has_null: bool,
) -> Result<Vec<Option<i64>>, AllocError>
    requires { All (λ n. (ends.now.least +ℤ pos n) ≤ℤ ends.now.greatest) distances.now }
    ensures { IfOk result (λ values. values.items ≡ map (λ n. Some (ends.now.least +ℤ pos n)) distances.now ++ (if has_null then None ∷ [] else [])) }
{
    let mut values = Vec::with_capacity(alloc, distances.len().saturating_add(1))?;
    'distances: for i in 0..distances.len() {
        values.push(value_at(*ends, distances[i]))?;
    }
    if has_null {
        values.push(None)?;
    }
    Ok(values)
}

pub(crate) fn value_at(ends: Ends, distance: u64) -> Option<i64>
    requires { (ends.least +ℤ pos distance) ≤ℤ ends.greatest }
    ensures { result ≡ Some (ends.least +ℤ pos distance) }
{
    Some(ends.least.wrapping_add_unsigned(distance))
}

/// The ranks of all values, from those of the non-null ones. Each NULL has the given rank.
pub(crate) fn spread(
    alloc: Global,
    values: &ColumnValues,
    ranks: Vec<u32>,
    null_rank: u32,
) -> Result<Vec<u32>, AllocError>
    requires { length ranks.items ≡ length (known values.now) }
    ensures { IfOk result (λ spread. spread.items ≡ ranks_over values.now ranks.items null_rank) }
{
    if ranks.len() == values.len() {
        return Ok(ranks);
    }
    let mut spread = Vec::with_capacity(alloc, values.len())?;
    let mut next = 0;
    'values: for i in 0..values.len() {
        if values.get(i).is_some() {
            spread.push(ranks[next])?;
            next += 1;
        } else {
            spread.push(null_rank)?;
        }
    }
    Ok(spread)
}
