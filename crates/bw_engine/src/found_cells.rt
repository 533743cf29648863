//! The cells of found slots, read in runs of 64 slots.

ghost use Rattle.std.specs.Int.{cast_signed, w64};
ghost use Rattle.std.specs.Prelude.{List, None, OnOk, Option, Some, if◌then◌else◌, length, pos, ℤ, ◌+◌, ◌<◌, ◌≡◌, ◌≤◌};
ghost use Rattle.bw_mask.specs.Masks.{bit_of, len, row_at};
ghost use Rattle.bw_groups.specs.Runs.{IsMeasured};
ghost use Rattle.bw_engine.specs.Runs.{found_run, lines_from, value_line};

use crate::slot_cells::SlotCells;
use bw_code::Ends;
use bw_groups::{MeasuredRun, ValueRuns, distance_of, filled_run, put_distance};
use bw_mask::{Mask, has_bit};
use bw_sql::Value;
use std::alloc::AllocError;

/// If at most this many of 64 slots are found, their cells are fetched one by one; reading whole runs would be slower.
pub(crate) const FEW: u32 = 16;

/// Cells of slots, and which of the slots are found. A run holds the cells of the found slots among 64.
#[derive(Drop)]
pub(crate) struct FoundCells<'a, C: SlotCells> {
    pub(crate) cells: &'a C,
    pub(crate) found: &'a Mask,
    ghost found_is: { len found.now ≡ length (C.cells cells.now) },
}

impl<'a, C: SlotCells> ValueRuns for FoundCells<'a, C> {
    ghost use Rattle.bw_mask.specs.Masks.{row_at};
    ghost use Rattle.bw_engine.specs.Runs.{found_runs, slots_of};

    ghost runs = { λ column. found_runs 0 (slots_of (C.cells column.cells.now)) (row_at column.found.now) };

    fn len(&self) -> usize {
        self.found.count()
    }

    fn bounds(&self) -> Option<Ends> {
        self.cells.bounds(self.found.count())
    }

    fn run_count(&self) -> usize {
        self.found.words().len()
    }

    fn read_run(&self, q: usize, run: &mut Vec<Value>) -> Result<(), AllocError> {
        let mut distances = [0; 64];
        let measured = self.measure_run(q, 0, &mut distances);
        put_measured(run, measured, &distances)
    }

    fn measure_run(&self, q: usize, base: i64, out: &mut [u64; 64]) -> MeasuredRun {
        if self.found.words()[q] == 0 {
            return MeasuredRun { len: 0, present: 0 };
        }
        measure_cells(self.cells, self.found, 64 * q, base, out)
    }

    fn all_known(&self) -> Result<bool, AllocError> {
        let mut nulls = self.found.try_clone()?;
        nulls.andnot_in(self.cells.nonnull());
        Ok(!nulls.any())
    }
}

/// Replaces the contents of `run` by the values of a run that was measured from 0.
fn put_measured(
    run: &mut Vec<Value>,
    measured: MeasuredRun,
    distances: &[u64; 64],
) -> Result<(), AllocError>
    requires { measured.len ≤ 64 }
    ensures { (values : List (Option ℤ)) → IsMeasured (pos 0) values measured.len measured.present distances.now → OnOk result (run.new.items ≡ values) }
{
    run.clear();
    'values: for i in 0..measured.len {
        run.push(value_at(distances[i], has_bit(measured.present, i)))?;
    }
    Ok(())
}

/// The value at this distance above 0, modulo 2^64; `None` if it isn't there.
fn value_at(distance: u64, is_there: bool) -> Value
    ensures { result ≡ (if is_there then Some (cast_signed w64 distance) else None) }
{
    if is_there {
        Some(distance.cast_signed())
    } else {
        None
    }
}

/// Measures the cells of the found slots among the next 64, starting at slot `at`. If all of them are found, the cells
/// are measured as they lie.
fn measure_cells<C: SlotCells>(
    cells: &C,
    found: &Mask,
    at: usize,
    base: i64,
    out: &mut [u64; 64],
) -> MeasuredRun
    requires found { len found.now ≡ length (C.cells cells.now) }
    requires inside { at < length (C.cells cells.now) }
    ensures { IsMeasured base (found_run (C.cells cells.now) (row_at found.now) at) result.len result.present out.new }
{
    let _fit = cells.len();
    if found.bits(at, 64) == u64::MAX {
        let present = cells.distances(at, base, out);
        return MeasuredRun { len: 64, present };
    }
    let n = (found.len() - at).min(64);
    let word = found.bits(at, n);
    if word.count_ones() <= FEW {
        return fetch_cells(cells, at, word, n, base, out);
    }
    gather_cells(cells, at, word, n, base, out)
}

/// Measures the cells of the slots among `at..at + n` whose bit is set. Each cell is fetched on its own.
fn fetch_cells<C: SlotCells>(
    cells: &C,
    at: usize,
    word: u64,
    n: usize,
    base: i64,
    out: &mut [u64; 64],
) -> MeasuredRun
    requires few { n ≤ 64 }
    requires inside { at + n ≤ length (C.cells cells.now) }
    ensures { IsMeasured base (lines_from (value_line (C.cells cells.now) at) (bit_of word) 0 n) result.len result.present out.new }
{
    let _few = cells.len();
    let mut there = [0; 64];
    let mut len = 0;
    'rows: for i in 0..n {
        if has_bit(word, i) {
            let value = cells.get(at + i);
            put_distance(
                out,
                &mut there,
                len,
                distance_of(value, base),
                value.is_some(),
            );
            len += 1;
        }
    }
    filled_run(len, &there)
}

/// Like `fetch_cells`, but reads all n cells at once.
fn gather_cells<C: SlotCells>(
    cells: &C,
    at: usize,
    word: u64,
    n: usize,
    base: i64,
    out: &mut [u64; 64],
) -> MeasuredRun
    requires few { n ≤ 64 }
    requires inside { at + n ≤ length (C.cells cells.now) }
    ensures { IsMeasured base (lines_from (value_line (C.cells cells.now) at) (bit_of word) 0 n) result.len result.present out.new }
{
    let _fit = cells.len();
    let mut list = [0; 64];
    let run = &mut list[..n];
    let present = cells.distances(at, base, run);
    let mut there = [0; 64];
    let mut len = 0;
    // No branch per row: a cell that isn't found is written too, and the next one overwrites it.
    'rows: for i in 0..n {
        put_distance(out, &mut there, len, run[i], has_bit(present, i));
        len += usize::from(has_bit(word, i));
    }
    filled_run(len, &there)
}
