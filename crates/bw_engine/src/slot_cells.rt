//! Cells of the slots of a table.

ghost use Rattle.std.specs.Int.{w64};
ghost use Rattle.std.specs.Prelude.{All, FitsSigned, IfSome, List, None, Option, drop, is_some, length, map, slice_index_or, take, ℕ, ℤ, ◌+◌, ◌<◌, ◌^◌, ◌≡◌, ◌≤◌};
ghost use Rattle.bw_cells.specs.Distances.{distance_from};
ghost use Rattle.bw_cells.specs.SetFunctions.{known};
ghost use Rattle.bw_column.specs.Values.{value_at};
ghost use Rattle.bw_groups.specs.Runs.{IsWithin};
ghost use Rattle.bw_mask.specs.Masks.{bit_of, len, row_at};

use bw_cells::Measured;
use bw_code::Ends;
use bw_column::Column;
use bw_mask::Mask;
use bw_sql::Value;

/// An integer or NULL for each slot of a table, dead ones included: the values of a column, or numbers in their order.
/// Nothing here takes memory.
pub(crate) trait SlotCells {
    ghost cells: { Self → List (Option ℤ) };

    /// The number of slots.
    fn len(&self) -> usize
        ensures count { result ≡ length (cells self.now) }
        ensures few { result ≤ 2 ^ 24 }
        ensures fit { All (FitsSigned w64) (known (cells self.now)) };

    /// Bounds of the integers, unless finding them takes longer than gathering the cells of `found` slots. They need
    /// not be tight.
    fn bounds(&self, found: usize) -> Option<Ends>
        ensures { IfSome result (λ ends. All (IsWithin ends) (known (cells self.now))) };

    /// The slots whose cell is an integer.
    fn nonnull(&self) -> &Mask
        ensures len { len result.now ≡ length (cells self.now) }
        ensures rows { (i : ℕ) → row_at result.now i ≡ is_some (value_at (cells self.now) i) };

    /// The cell of slot i.
    fn get(&self, i: usize) -> Value
        requires { i < length (cells self.now) }
        ensures { result ≡ value_at (cells self.now) i };

    /// Fills `out` with the distance from the base of each of at most 64 cells from slot `at` on, modulo 2^64, and with
    /// 0 for a NULL. Bit i of the result says whether cell `at + i` is an integer; past the last cell bits are 0.
    fn distances(&self, at: usize, base: i64, out: &mut [u64]) -> u64
        requires few { length out.old ≤ 64 }
        requires inside { at + length out.old ≤ length (cells self.now) }
        ensures distances { out.new ≡ map (distance_from base) (take (length out.old) (drop at (cells self.now))) }
        ensures present { (i : ℕ) → bit_of result i ≡ is_some (slice_index_or (take (length out.old) (drop at (cells self.now))) i None) };
}

/// The values of a column.
impl SlotCells for Column {
    ghost cells = { λ column. column.values };

    fn len(&self) -> usize {
        self.len()
    }

    fn bounds(&self, found: usize) -> Option<Ends> {
        let told = self.bounds();
        if are_close(told) {
            return told;
        }
        // Codes of 32 bits or more may span a wider range than the values do. Finding the ends takes a pass over the
        // whole column, which is slower than gathering a few values.
        if found < self.len() / 16 {
            return None;
        }
        Measured::ends(self)
    }

    fn nonnull(&self) -> &Mask {
        self.nonnull()
    }

    fn get(&self, i: usize) -> Value {
        self.get(i)
    }

    fn distances(&self, at: usize, base: i64, out: &mut [u64]) -> u64 {
        Measured::distances(self, at, base, out)
    }
}

/// Whether 32 bits are enough for the distances between the ends and one more code for NULL.
fn are_close(ends: Option<Ends>) -> bool {
    match ends {
        Some(ends) => ends.greatest.abs_diff(ends.least) < u64::from(u32::MAX),
        None => true,
    }
}
