//! The sum of codes by counts of their planes (O'Neil and Quass, SIGMOD 1997).

ghost use Rattle.std.specs.Prelude.{All, Bool, List, length, sum, true, ℕ, ◌&&◌, ◌*◌, ◌+◌, ◌-◌, ◌<◌, ◌^◌, ◌≡◌, ◌≤◌};
ghost use Rattle.bw_mask.specs.Masks.{row_in};
ghost use Rattle.bw_code.specs.Columns.{count};
ghost use Rattle.bw_code.specs.Units.{segments_of};
ghost use Rattle.bw_code.specs.Widths.{widest_code};
ghost use Rattle.bw_aggregate.specs.Left.{codes_between};
ghost use Rattle.bw_aggregate.specs.Marks.{marked};
ghost use Rattle.bw_aggregate.specs.PlaneSums.{AreBits, AreMadeOf, AreRows, IsSumTo};

use crate::plane::plane_at;
use crate::rows::{count_both, count_rows, has_all, has_row, rows_at};
use bw_code::CodeColumn;
use bw_mask::Mask;
use bw_vertical::VerticalColumn;

/// The number of rows whose bit is set in the plane. If all rows of the segment are selected, the plane's bits are
/// counted directly, with half the instructions.
fn ones_in(rows: &[u64; 4], all: bool, plane: &[u64; 4]) -> usize
    requires { all ≡ true → (j : ℕ) → j < 256 → row_in rows.now j ≡ true }
    ensures is { result ≡ marked 256 (λ j. row_in rows.now j && row_in plane.now j) }
    ensures few { result ≤ 256 }
{
    if all {
        count_rows(plane)
    } else {
        count_both(rows, plane)
    }
}

/// The sum extended by the bits of one more plane.
fn with_plane(sum: u64, rows: &[u64; 4], all: bool, plane: &[u64; 4]) -> u64
    requires { all ≡ true → (j : ℕ) → j < 256 → row_in rows.now j ≡ true }
    ensures { (need : List Bool) (codes : List ℕ) (k q i : ℕ) → k ≤ 32 → All (λ code. code < 2 ^ k) codes → length need ≡ length codes → AreRows need q rows.now → AreBits codes q i plane.now
        → IsSumTo need codes q (i + 1) sum → IsSumTo need codes q i result }
{
    sum.wrapping_mul(2)
        .wrapping_add(ones_in(rows, all, plane) as u64)
}

/// The sum, over the selected rows of segment `q`, of the numbers formed by at most 32 planes of their codes: those
/// from the start of a group of four up to plane `end`.
fn planes_sum(
    codes: &VerticalColumn,
    q: usize,
    rows: &[u64; 4],
    all: bool,
    group: usize,
    end: usize,
) -> u64
    requires there { q < segments_of 256 (count codes.now) }
    requires few { count codes.now ≤ 2 ^ 24 }
    requires narrow { codes.now.width ≤ widest_code }
    requires all { all ≡ true → (j : ℕ) → j < 256 → row_in rows.now j ≡ true }
    requires from { 4 * group ≤ end }
    requires within { end ≤ codes.now.width }
    requires half { end ≤ 4 * group + 32 }
    ensures { (need : List Bool) (numbers : List ℕ) → length need ≡ length numbers → All (λ n. n < 2 ^ (end - 4 * group)) numbers
        → AreMadeOf codes.now.codes (codes.now.width - end) (end - 4 * group) numbers → AreRows need q rows.now → result ≡ sum (codes_between need numbers (256 * q) (256 * q + 256)) }
{
    let mut sum = 0;
    'groups: for g in group..end / 4 {
        let first = with_plane(sum, rows, all, plane_at(codes, q, 4 * g));
        let second = with_plane(first, rows, all, plane_at(codes, q, 4 * g + 1));
        let third = with_plane(second, rows, all, plane_at(codes, q, 4 * g + 2));
        sum = with_plane(third, rows, all, plane_at(codes, q, 4 * g + 3));
    }
    'rest: for i in end / 4 * 4..end {
        sum = with_plane(sum, rows, all, plane_at(codes, q, i));
    }
    sum
}

/// The number of groups of four planes above the lowest 32 planes. The last one may lie there in part only.
fn upper_groups(width: usize) -> usize
    requires { width ≤ widest_code }
    ensures few { 4 * result ≤ width }
    ensures upper { result ≤ 8 }
    ensures lower { width ≤ 4 * result + 32 }
{
    width.saturating_sub(32).div_ceil(4)
}

/// The sum of the codes of the selected rows of segment `q`. Codes of more than 32 bits are summed as two numbers of at
/// most 32 bits each, so that no sum wraps.
pub(crate) fn segment_sum(codes: &VerticalColumn, q: usize, rows: &[u64; 4]) -> u128
    requires there { q < segments_of 256 (count codes.now) }
    requires few { count codes.now ≤ 2 ^ 24 }
    requires narrow { codes.now.width ≤ widest_code }
    ensures sum { (need : List Bool) → length need ≡ count codes.now → AreRows need q rows.now → result ≡ sum (codes_between need codes.now.codes (256 * q) (256 * q + 256)) }
    ensures small { result ≤ 2 ^ 97 }
{
    if !has_row(rows) {
        return 0;
    }
    let all = has_all(rows);
    let k = codes.width() as usize;
    let groups = upper_groups(k);
    let lower = planes_sum(codes, q, rows, all, groups, k);
    if groups == 0 {
        return u128::from(lower);
    }
    let upper = planes_sum(codes, q, rows, all, 0, 4 * groups);
    u128::from(lower) + (u128::from(upper) << (k - 4 * groups))
}
