//! The values of a column as 32-bit numbers in the same order, with NULL last.

ghost use Rattle.std.specs.Prelude.{All, FitsSigned, IfOk, IfSome, List, OnOk, Option, if◌then◌else◌, map, pos, slice_index, ℕ, ℤ, ◌%◌, ◌++◌, ◌+ℤ◌, ◌<◌, ◌^◌, ◌≡◌, ◌≤◌};
ghost use Rattle.std.specs.Int.{w64};
ghost use Rattle.bw_mask.specs.Masks.{bit_of};
ghost use Rattle.bw_cells.specs.SetFunctions.{known};
ghost use Rattle.bw_groups.specs.Runs.{IsMeasured, IsWithin, values_in};
ghost use Rattle.bw_groups.specs.Scales.{IsBelowNull, number_on, value_on};

use crate::measured_run::MeasuredRun;
use crate::numbers::value_at;
use crate::value_runs::ValueRuns;
use bw_code::Ends;
use bw_mask::has_bit;
use std::alloc::{AllocError, Global};

/// A mapping of values between two ends to numbers: each value to its distance above the lower end, and NULL to one
/// more than the upper end's number.
#[derive(Drop)]
pub(crate) struct Scale {
    pub(crate) ends: Ends,
    pub(crate) null: u32,
    ghost above: { (ends.least +ℤ pos null) ≡ (ends.greatest +ℤ pos 1) },
    ghost narrow: { null < 2 ^ 32 },
    ghost held: { FitsSigned w64 ends.least },
}

impl Scale {
    /// The scale between these ends, if its numbers fit 32 bits.
    pub(crate) fn between(ends: Ends) -> Option<Scale>
        ensures { IfSome result (λ scale. scale.ends ≡ ends) }
    {
        if ends.greatest < ends.least {
            return None;
        }
        let span = ends.greatest.abs_diff(ends.least);
        if span >= u64::from(u32::MAX) {
            return None;
        }
        Some(Scale {
            ends,
            null: span as u32 + 1,
        })
    }

    /// The value of a number.
    fn value(&self, number: u64) -> Option<i64>
        requires { number ≤ self.now.null }
        ensures { result ≡ value_on self.now.ends.least self.now.null number }
    {
        if number == u64::from(self.null) {
            return None;
        }
        value_at(self.ends, number)
    }

    /// The values of some numbers.
    pub(crate) fn values(
        &self,
        alloc: Global,
        numbers: &[u64],
    ) -> Result<Vec<Option<i64>>, AllocError>
        requires { All (λ n. n ≤ self.now.null) numbers.now }
        ensures { IfOk result (λ values. values.items ≡ map (value_on self.now.ends.least self.now.null) numbers.now) }
    {
        let mut values = Vec::with_capacity(alloc, numbers.len())?;
        'numbers: for i in 0..numbers.len() {
            values.push(self.value(numbers[i]))?;
        }
        Ok(values)
    }

    /// The numbers of a column's values, which are between the ends, run by run.
    pub(crate) fn numbers<C: ValueRuns>(
        &self,
        alloc: Global,
        column: &C,
    ) -> Result<Vec<u32>, AllocError>
        requires { All (IsWithin self.now.ends) (known (values_in (C.runs column.now))) }
        ensures { IfOk result (λ numbers. numbers.items ≡ map (number_on self.now.ends.least self.now.null) (values_in (C.runs column.now))) }
    {
        let mut numbers = Vec::with_capacity(alloc, column.len())?;
        let mut run = [0; 64];
        'runs: for q in 0..column.run_count() {
            let measured = column.measure_run(q, self.ends.least, &mut run);
            put_numbers(&mut numbers, self, &run, measured)?;
        }
        Ok(numbers)
    }
}

/// The lowest 32 bits of each number.
fn lowest_bits(run: &[u64; 64]) -> [u32; 64]
    ensures { (k : ℕ) → k < 64 → slice_index result k ≡ slice_index run.now k % 2 ^ 32 }
{
    let mut low = [0; 64];
    for i in 0..64 {
        low[i] = (run[i] % (1 << 32)) as u32;
    }
    low
}

/// The numbers of a run's values, from their distances above the least.
fn numbers_of(scale: &Scale, run: &[u64; 64], measured: MeasuredRun) -> [u32; 64]
    requires { measured.len ≤ 64 }
    ensures { (k : ℕ) → k < measured.len → slice_index result k ≡ (if bit_of measured.present k then slice_index run.now k % 2 ^ 32 else scale.now.null) }
{
    // Most runs are full and have no null; then no bit is tested.
    if measured.present == u64::MAX {
        return lowest_bits(run);
    }
    let mut new = [0; 64];
    // No branch per value, so that the loop can be vectorized.
    'run: for i in 0..measured.len {
        new[i] = number_where(has_bit(measured.present, i), run[i], scale.null);
    }
    new
}

/// Appends the numbers of a run's values, from their distances above the least.
fn put_numbers(
    numbers: &mut Vec<u32>,
    scale: &Scale,
    run: &[u64; 64],
    measured: MeasuredRun,
) -> Result<(), AllocError>
    requires { measured.len ≤ 64 }
    ensures { (values : List (Option ℤ)) → IsMeasured scale.now.ends.least values measured.len measured.present run.now → All (IsBelowNull scale.now.ends.least scale.now.null) (known values) → OnOk result (numbers.new.items ≡ numbers.old.items ++ map (number_on scale.now.ends.least scale.now.null) values) }
{
    let new = numbers_of(scale, run, measured);
    numbers.extend_from_slice(&new[..measured.len])?;
    Ok(())
}

/// The number of a value at this distance above the least, or of NULL. The distance is converted for a NULL, too, so
/// that choosing needs no branch.
#[inline]
fn number_where(there: bool, distance: u64, null: u32) -> u32
    ensures { result ≡ (if there then distance % 2 ^ 32 else null) }
{
    let number = (distance % (1 << 32)) as u32;
    if there { number } else { null }
}
