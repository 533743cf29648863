//! The values of a column in some rows.

ghost use Rattle.std.specs.Prelude.{IfOk, None, [], length, slice_index_or, ◌++◌, ◌<◌, ◌≡◌, ◌≤◌};
ghost use Rattle.std.specs.List.{list_all};
ghost use Rattle.bw_groups.specs.Runs.{values_in};

use crate::measured_run::{MeasuredRun, distance_of, filled_run, put_distance};
use crate::numbers::known_ends;
use crate::value_runs::ValueRuns;
use bw_code::Ends;
use std::alloc::{AllocError, Global};
use std::marker::Model;

/// The values of a column in some rows, in 9 bytes each. Contracts see the list of the values.
#[derive(Debug, Drop)]
pub struct ColumnValues {
    /// The integers, with 0 for each NULL.
    numbers: Vec<i64>,
    /// Whether each is an integer, not NULL.
    known: Vec<bool>,
}

impl Model for ColumnValues {
    ghost use Rattle.std.specs.Prelude.{List, Option, length, ℤ, ◌≡◌};
    ghost use Rattle.bw_groups.specs.Values.{values_of};

    ghost Value = { List (Option ℤ) };

    ghost view = { λ c. values_of c.numbers.items c.known.items };

    ghost invariant = { λ c. length c.known.items ≡ length c.numbers.items };
}

impl ColumnValues {
    /// No values, with room for `count`.
    pub fn with_capacity(alloc: Global, count: usize) -> Result<ColumnValues, AllocError>
        ensures { IfOk result (λ values. values ≡ []) }
    {
        Ok(ColumnValues {
            numbers: Vec::with_capacity(alloc, count)?,
            known: Vec::with_capacity(alloc, count)?,
        })
    }

    /// Collects the values of a column from its runs.
    pub(crate) fn of<C: ValueRuns>(alloc: Global, column: &C) -> Result<ColumnValues, AllocError>
        ensures { IfOk result (λ values. values ≡ values_in (C.runs column.now)) }
    {
        let mut all = ColumnValues::with_capacity(alloc, column.len())?;
        let mut run = Vec::with_capacity(alloc, 64)?;
        'runs: for q in 0..column.run_count() {
            column.read_run(q, &mut run)?;
            all = all.with_run(&run)?;
        }
        Ok(all)
    }

    /// These values with a run of at most 64 appended.
    pub fn with_run(self, run: &[Option<i64>]) -> Result<ColumnValues, AllocError>
        requires { length run.now ≤ 64 }
        ensures { IfOk result (λ values. values ≡ self ++ run.now) }
    {
        let ColumnValues {
            mut numbers,
            mut known,
        } = self;
        let mut new_numbers = [0; 64];
        let mut new_known = [false; 64];
        // No branch per value, so that the loop can be vectorized.
        'run: for i in 0..run.len() {
            new_numbers[i] = run[i].unwrap_or(0);
            new_known[i] = run[i].is_some();
        }
        numbers.extend_from_slice(&new_numbers[..run.len()])?;
        known.extend_from_slice(&new_known[..run.len()])?;
        Ok(ColumnValues { numbers, known })
    }

    /// The number of values.
    pub fn len(&self) -> usize
        ensures { result ≡ length self.now }
    {
        self.numbers.len()
    }

    /// Value `i`.
    #[inline]
    pub fn get(&self, i: usize) -> Option<i64>
        requires { i < length self.now }
        ensures { result ≡ slice_index_or self.now i None }
    {
        let number = self.numbers[i];
        if self.known[i] { Some(number) } else { None }
    }
}

impl ValueRuns for ColumnValues {
    ghost use Rattle.bw_groups.specs.Runs.{runs_of};

    ghost runs = { λ values. runs_of values };

    fn len(&self) -> usize {
        self.len()
    }

    fn bounds(&self) -> Option<Ends> {
        Some(known_ends(self))
    }

    fn run_count(&self) -> usize {
        self.len().div_ceil(64)
    }

    fn read_run(&self, q: usize, run: &mut Vec<Option<i64>>) -> Result<(), AllocError> {
        let len = self.len();
        let start = 64 * q;
        let rest = len - start;
        let n = rest.min(64);
        run.clear();
        'run: for k in 0..n {
            run.push(self.get(start + k))?;
        }
        Ok(())
    }

    fn measure_run(&self, q: usize, base: i64, out: &mut [u64; 64]) -> MeasuredRun {
        let len = self.len();
        let start = 64 * q;
        let rest = len - start;
        let n = rest.min(64);
        let mut there = [0; 64];
        'run: for k in 0..n {
            let value = self.get(start + k);
            put_distance(
                out,
                &mut there,
                k,
                distance_of(value, base),
                value.is_some(),
            );
        }
        filled_run(n, &there)
    }

    fn all_known(&self) -> Result<bool, AllocError> {
        Ok(are_all(&self.known))
    }
}

/// Whether all tests are true.
fn are_all(tests: &[bool]) -> bool
    ensures { result ≡ list_all (λ test. test) tests.now }
{
    tests.iter().all(|test| *test)
}
