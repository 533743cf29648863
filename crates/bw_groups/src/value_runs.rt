//! The values of a column, read in runs.

ghost use Rattle.std.specs.Prelude.{All, IfOk, IfSome, List, OnOk, Option, [], is_some, length, slice_index_or, ℤ, ◌<◌, ◌≡◌, ◌≤◌};
ghost use Rattle.std.specs.List.{list_all};
ghost use Rattle.bw_cells.specs.SetFunctions.{known};
ghost use Rattle.bw_groups.specs.Runs.{IsMeasured, IsWithin, values_in};

use crate::measured_run::MeasuredRun;
use bw_code::Ends;
use std::alloc::AllocError;

/// The values of a column in some rows, in consecutive runs of at most 64. They need not be in memory as a list: a run
/// may be gathered or decoded each time it is read.
pub trait ValueRuns {
    ghost runs: { Self → List (List (Option ℤ)) };

    /// The number of values.
    fn len(&self) -> usize
        ensures { result ≡ length (values_in (runs self.now)) };

    /// Bounds of the non-null values, if they are known faster than by reading the values. They need not be tight.
    fn bounds(&self) -> Option<Ends>
        ensures { IfSome result (λ ends. All (IsWithin ends) (known (values_in (runs self.now)))) };

    /// The number of runs.
    fn run_count(&self) -> usize
        ensures { result ≡ length (runs self.now) };

    /// Replaces the contents of `run` by the values of run `q`.
    fn read_run(&self, q: usize, run: &mut Vec<Option<i64>>) -> Result<(), AllocError>
        requires { q < length (runs self.now) }
        ensures few { OnOk result (length run.new.items ≤ 64) }
        ensures values { OnOk result (run.new.items ≡ slice_index_or (runs self.now) q []) };

    /// Fills the start of `out` with the distance of each value of run `q` above a base, modulo 2^64, and 0 for a NULL.
    /// Allocates nothing.
    fn measure_run(&self, q: usize, base: i64, out: &mut [u64; 64]) -> MeasuredRun
        requires { q < length (runs self.now) }
        ensures { IsMeasured base (slice_index_or (runs self.now) q []) result.len result.present out.new };

    /// Whether none of the values is NULL.
    fn all_known(&self) -> Result<bool, AllocError>
        ensures { IfOk result (λ known. known ≡ list_all is_some (values_in (runs self.now))) };
}
