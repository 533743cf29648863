//! Whether the values of a column have codes by an offset that is not its own.

ghost use Rattle.std.specs.Prelude.{All, IsTrue, length, pos, slice_index, true, ℕ, ◌-◌, ◌<◌, ◌^◌, ◌↔◌, ◌≡◌, ◌≤◌, ◌≤ℤ◌};
ghost use Rattle.bw_code.specs.Encodings.{top};
ghost use Rattle.bw_code.specs.declared.encoding.Encoding.TheVariants as by;
ghost use Rattle.bw_column.specs.Codes.{IsCoded};

use crate::codes::greatest_code;
use crate::column::Column;
use bw_cells::Measured;
use bw_code::Offset;

/// Whether the greatest value with a code by an offset is an i64. Then no value below the base has a distance that is a code:
/// it wraps to one above all codes.
pub(crate) fn has_top(offset: Offset) -> bool
    ensures { result ≡ true → top offset ≤ℤ pos (2 ^ 63 - 1) }
{
    greatest_code(offset) <= i64::MAX.abs_diff(offset.base)
}

/// The bits that are set in any of these distances.
fn joined(distances: &[u64]) -> u64
    ensures { (w : ℕ) → (result < 2 ^ w) ↔ ((k : ℕ) → k < length distances.now → slice_index distances.now k < 2 ^ w) }
{
    let mut bits = 0;
    for i in 0..distances.len() {
        bits |= distances[i];
    }
    bits
}

impl Column {
    /// Whether each non-null value has a code by an offset that has a top. No row is asked whether it is null, as the distance of
    /// a null is 0. Stops at the first 64 rows with a value that has no code.
    pub(crate) fn lies_within(&self, offset: Offset) -> bool
        requires { top offset ≤ℤ pos (2 ^ 63 - 1) }
        ensures { IsTrue result ↔ All (IsCoded (by.Offset offset)) self.now.values }
    {
        let _held = self.len();
        let greatest = greatest_code(offset);
        let mut list = [0; 64];
        let mut at = 0;
        while at < self.len() {
            let n = (self.len() - at).min(64);
            let run = &mut list[..n];
            self.distances(at, offset.base, run);
            if joined(run) > greatest {
                return false;
            }
            at += n;
        }
        true
    }
}
