//! The sum and both ends of codes, in runs of 64. Each run is read once.

ghost use Rattle.std.specs.Prelude.{All, Bool, List, drop, length, take, true, ℕ, ◌&&◌, ◌*◌, ◌+◌, ◌-◌, ◌<◌, ◌^◌, ◌≡◌, ◌≤◌};
ghost use Rattle.bw_mask.specs.Masks.{bit_of, len, row_at};
ghost use Rattle.bw_code.specs.Columns.{Fit, code_at, count};
ghost use Rattle.bw_code.specs.Widths.{widest_code};
ghost use Rattle.bw_aggregate.specs.Ends.{AreNearest};
ghost use Rattle.bw_aggregate.specs.Runs.{IsRun, code_sum};
ghost use Rattle.bw_aggregate.specs.Tallies.{IsTally};

use crate::end::{Distances, greatest_code};
use crate::nearest_runs::run_nearest_to_ends;
use crate::runs::run_sum;
use crate::tally::Tally;
use bw_code::CodeColumn;
use bw_mask::Mask;

/// Rows `at` to `at + n - 1`, at most 64: bit i of one word tells whether row `at + i` is selected, of the other
/// whether it is also non-null.
#[derive(Clone, Copy)]
struct Run {
    at: usize,
    n: usize,
    rows: u64,
    known: u64,
}

/// The result for the codes of a run.
#[derive(Clone, Copy)]
struct RunTally {
    sum: u128,
    nearest: Distances,
}

/// The sum of the codes of a run's selected rows, if it is asked for.
fn sum_if(asked: bool, codes: &[u64], bits: u32, rows: u64) -> u128
    requires few { length codes.now ≤ 64 }
    requires fit { All (λ code. code < 2 ^ bits) codes.now }
    requires narrow { bits ≤ widest_code }
    ensures sum { asked ≡ true → (need : List Bool) (all : List ℕ) (at : ℕ) → length need ≡ length all → codes.now ≡ take (length codes.now) (drop at all) → IsRun need at (length codes.now) rows
        → code_sum need all (at + length codes.now) ≡ code_sum need all at + result }
    ensures small { result ≤ 65 * 2 ^ 64 }
{
    if asked { run_sum(codes, bits, rows) } else { 0 }
}

/// The result for the codes of a run: their sum, if it is asked for, and the least distances from both ends, or `best`
/// if none is nearer. If no row is selected, no code is read.
fn run_tally<C: CodeColumn>(column: &C, run: Run, sum: bool, top: u64, best: Distances) -> RunTally
    requires narrow { (C.seen column.now).width ≤ widest_code }
    requires few { run.n ≤ 64 }
    requires inside { run.at + run.n ≤ count (C.seen column.now) }
    requires fit { Fit (C.seen column.now).width (C.seen column.now).codes }
    requires top { top ≡ 2 ^ (C.seen column.now).width - 1 }
    requires known { (i : ℕ) → bit_of run.known i ≡ true → bit_of run.rows i ≡ true }
    ensures sum { sum ≡ true → (need : List Bool) → length need ≡ count (C.seen column.now) → IsRun need run.at run.n run.rows
        → code_sum need (C.seen column.now).codes (run.at + run.n) ≡ code_sum need (C.seen column.now).codes run.at + result.sum }
    ensures small { result.sum ≤ 65 * 2 ^ 64 }
    ensures nearest { AreNearest run.n (bit_of run.known) (λ i. code_at (C.seen column.now) (run.at + i)) top best result.nearest }
{
    if run.rows == 0 {
        return RunTally {
            sum: 0,
            nearest: best,
        };
    }
    let mut codes = [0; 64];
    let codes = &mut codes[..run.n];
    column.read(run.at, codes);
    RunTally {
        sum: sum_if(sum, codes, column.width(), run.rows),
        nearest: run_nearest_to_ends(codes, run.known, top, best),
    }
}

/// The sum of the codes of the rows, if it is asked for, and the least distances of the non-null ones, or `far` if none
/// is nearer.
pub(crate) fn tally_in_runs<C: CodeColumn>(
    column: &C,
    rows: &Mask,
    nonnull: &Mask,
    sum: bool,
    far: Distances,
) -> Tally
    requires len { len rows.now ≡ count (C.seen column.now) }
    requires nonnull_len { len nonnull.now ≡ count (C.seen column.now) }
    requires narrow { (C.seen column.now).width ≤ widest_code }
    ensures { IsTally sum rows.now.rows (λ r. row_at rows.now r && row_at nonnull.now r) (C.seen column.now).codes (2 ^ (C.seen column.now).width - 1) far result }
{
    let top = greatest_code(column.width());
    let mut total = 0;
    let mut best = far;
    'runs: for q in 0..column.len().div_ceil(64) {
        let at = 64 * q;
        let n = (column.len() - at).min(64);
        let rows = rows.bits(at, 64);
        let known = rows & nonnull.bits(at, 64);
        let run = Run { at, n, rows, known };
        let RunTally { sum: more, nearest } = run_tally(column, run, sum, top, best);
        total += more;
        best = nearest;
    }
    Tally {
        sum: total,
        nearest: best,
    }
}
