//! The least and the greatest code, read in runs of 64.

ghost use Rattle.std.specs.Prelude.{All, if◌then◌else◌, length, min, slice_index, true, ◌≡◌, ◌≤◌};
ghost use Rattle.bw_mask.specs.Masks.{bit_of};
ghost use Rattle.bw_aggregate.specs.Ends.{AreNearest};

use crate::end::{Distances, End, distance};
use bw_mask::has_bit;

/// The smaller of `best` and the row's distance if the row is selected, else `best`.
// Without a branch, since which rows are selected is unpredictable, and so that the next row waits only for the
// minimum.
fn nearer(best: u64, is_in: bool, distance: u64) -> u64
    ensures { result ≡ (if is_in then min best distance else best) }
{
    best.min(if is_in { distance } else { u64::MAX })
}

/// The least distances of all codes of a run from both ends, or `best` if none is nearer.
fn nearest_of_all(codes: &[u64], top: u64, best: Distances) -> Distances
    requires fit { All (λ code. code ≤ top) codes.now }
    ensures { AreNearest (length codes.now) (λ i. true) (slice_index codes.now) top best result }
{
    let Distances {
        mut least,
        mut greatest,
    } = best;
    'codes: for i in 0..codes.len() {
        least = nearer(least, true, distance(End::Least, top, codes[i]));
        greatest = nearer(greatest, true, distance(End::Greatest, top, codes[i]));
    }
    Distances { least, greatest }
}

/// The least distances of a run's selected rows from both ends, or `best` if none is nearer.
fn nearest_of_some(codes: &[u64], rows: u64, top: u64, best: Distances) -> Distances
    requires few { length codes.now ≤ 64 }
    requires fit { All (λ code. code ≤ top) codes.now }
    ensures { AreNearest (length codes.now) (bit_of rows) (slice_index codes.now) top best result }
{
    let Distances {
        mut least,
        mut greatest,
    } = best;
    'codes: for i in 0..codes.len() {
        let is_in = has_bit(rows, i);
        least = nearer(least, is_in, distance(End::Least, top, codes[i]));
        greatest = nearer(greatest, is_in, distance(End::Greatest, top, codes[i]));
    }
    Distances { least, greatest }
}

/// The least distances of a run's selected rows from both ends, or `best` if none is nearer. No code is read if no end
/// is wanted. If all rows are selected, their bits aren't tested.
pub(crate) fn run_nearest_to_ends(codes: &[u64], rows: u64, top: u64, best: Distances) -> Distances
    requires few { length codes.now ≤ 64 }
    requires fit { All (λ code. code ≤ top) codes.now }
    ensures { AreNearest (length codes.now) (bit_of rows) (slice_index codes.now) top best result }
{
    if best.are_none() {
        return best;
    }
    if rows == u64::MAX {
        nearest_of_all(codes, top, best)
    } else {
        nearest_of_some(codes, rows, top, best)
    }
}
