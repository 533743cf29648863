//! The sum and both ends of codes, from their planes, in one pass over the segments, while a segment's planes are in
//! cache.

ghost use Rattle.std.specs.Prelude.{Bool, List, false, length, sum, true, ◌&&◌, ◌*◌, ◌+◌, ◌-◌, ◌<◌, ◌^◌, ◌≡◌, ◌≤◌};
ghost use Rattle.bw_mask.specs.Masks.{len, row_at};
ghost use Rattle.bw_code.specs.Columns.{count};
ghost use Rattle.bw_code.specs.Units.{segments_of};
ghost use Rattle.bw_code.specs.Widths.{widest_code};
ghost use Rattle.bw_aggregate.specs.Left.{codes_between};
ghost use Rattle.bw_aggregate.specs.PlaneSums.{AreRows};
ghost use Rattle.bw_aggregate.specs.Tallies.{IsTally};

use crate::end::Distances;
use crate::nearest_planes::{first_groups, nearest_to_ends};
use crate::plane_sums::segment_sum;
use crate::rows::{rows_at, rows_with};
use crate::tally::Tally;
use bw_code::CodeColumn;
use bw_mask::Mask;
use bw_vertical::VerticalColumn;

/// The sum of the codes of the selected rows of segment `q`, if it is asked for.
fn sum_if(asked: bool, codes: &VerticalColumn, q: usize, rows: &[u64; 4]) -> u128
    requires there { q < segments_of 256 (count codes.now) }
    requires few { count codes.now ≤ 2 ^ 24 }
    requires narrow { codes.now.width ≤ widest_code }
    ensures sum { asked ≡ true → (need : List Bool) → length need ≡ count codes.now → AreRows need q rows.now → result ≡ sum (codes_between need codes.now.codes (256 * q) (256 * q + 256)) }
    ensures unasked { asked ≡ false → result ≡ 0 }
    ensures small { result ≤ 2 ^ 97 }
{
    if asked {
        segment_sum(codes, q, rows)
    } else {
        0
    }
}

/// The sum of the codes of the rows, if it is asked for, and the least distances of the non-null ones, or `far` if none
/// is nearer.
pub(crate) fn tally_by_planes(
    codes: &VerticalColumn,
    rows: &Mask,
    nonnull: &Mask,
    sum: bool,
    far: Distances,
) -> Tally
    requires len { len rows.now ≡ count codes.now }
    requires nonnull_len { len nonnull.now ≡ count codes.now }
    requires narrow { codes.now.width ≤ widest_code }
    ensures { IsTally sum rows.now.rows (λ r. row_at rows.now r && row_at nonnull.now r) codes.now.codes (2 ^ codes.now.width - 1) far result }
{
    let words = rows.words();
    let nonnull_words = nonnull.words();
    let groups = first_groups(codes.width());
    let mut total = 0;
    let mut best = far;
    'segments: for q in 0..codes.len().div_ceil(256) {
        let rows = rows_at(words, q as u32);
        let known = rows_with(&rows, &rows_at(nonnull_words, q as u32), true);
        total += sum_if(sum, codes, q, &rows);
        best = nearest_to_ends(codes, q, &known, groups, best);
    }
    Tally {
        sum: total,
        nearest: best,
    }
}
