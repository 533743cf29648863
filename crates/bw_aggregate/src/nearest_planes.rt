//! The least and the greatest code, by planes.

ghost use Rattle.std.specs.Prelude.{false, if◌then◌else◌, nat_lt, true, ℕ, ◌&&◌, ◌*◌, ◌+◌, ◌-◌, ◌<◌, ◌^◌, ◌≡◌, ◌≤◌};
ghost use Rattle.bw_mask.specs.Masks.{row_in};
ghost use Rattle.bw_code.specs.Columns.{Fit, code_at, count};
ghost use Rattle.bw_code.specs.Units.{segments_of};
ghost use Rattle.bw_code.specs.Widths.{widest_code};
ghost use Rattle.bw_aggregate.specs.Ends.{AreNearest, IsNearest, MayBeNearer, distance, is_near};
ghost use Rattle.bw_aggregate.specs.Marks.{marked};
ghost use Rattle.bw_aggregate.specs.declared.end.End.TheVariants.{Greatest, Least};

use crate::descent::with_bit;
use crate::end::{Distances, End};
use crate::plane::plane_at;
use crate::rows::{has_row, rows_at, rows_with};
use bw_code::CodeColumn;
use bw_vertical::VerticalColumn;

/// The rows whose distance has a 0 bit in the plane.
fn nearer_rows(rows: &[u64; 4], plane: &[u64; 4], end: End) -> [u64; 4]
    ensures { (j : ℕ) → j < 256 → row_in result j ≡ (row_in rows.now j && is_near end (row_in plane.now j)) }
{
    match end {
        End::Least => rows_with(rows, plane, false),
        End::Greatest => rows_with(rows, plane, true),
    }
}

/// The rows that may be nearer than `best`. A row is dropped once its distance has a bit in a plane above the first bit
/// of `best`, as it is then at least as far. Groups of planes are read while a row is left.
fn rows_that_may_be_nearer(
    codes: &VerticalColumn,
    q: usize,
    rows: &[u64; 4],
    end: End,
    best: u64,
) -> [u64; 4]
    requires there { q < segments_of 256 (count codes.now) }
    requires few { count codes.now ≤ 2 ^ 24 }
    requires narrow { codes.now.width ≤ widest_code }
    ensures left { (j : ℕ) → j < 256 → row_in result j ≡ true → row_in rows.now j ≡ true }
    ensures out { (j : ℕ) → j < 256 → row_in rows.now j ≡ true → row_in result j ≡ false → best ≤ distance end (2 ^ codes.now.width - 1) (code_at codes.now (256 * q + j)) }
{
    let k = codes.width() as usize;
    let mut left = *rows;
    'groups: for g in 0..k / 4 {
        if best >> (k - 4 * g - 4) != 0 || !has_row(&left) {
            return left;
        }
        'planes: for i in 4 * g..4 * g + 4 {
            left = nearer_rows(&left, plane_at(codes, q, i), end);
        }
    }
    left
}

/// The nearer rows if there are some, and else all.
fn nearer_or_all(some: bool, nearer: [u64; 4], all: [u64; 4]) -> [u64; 4]
    ensures { result ≡ (if some then nearer else all) }
{
    if some { nearer } else { all }
}

/// The least distance of the rows, or `best` if none is nearer. There is at least one row. Goes down plane by plane
/// while a row may still be nearer.
fn nearest_of(codes: &VerticalColumn, q: usize, rows: &[u64; 4], end: End, best: u64) -> u64
    requires there { q < segments_of 256 (count codes.now) }
    requires few { count codes.now ≤ 2 ^ 24 }
    requires narrow { codes.now.width ≤ widest_code }
    requires some { nat_lt 0 (marked 256 (row_in rows.now)) ≡ true }
    ensures { IsNearest 256 (row_in rows.now) (λ j. code_at codes.now (256 * q + j)) end (2 ^ codes.now.width - 1) best result }
{
    let k = codes.width() as usize;
    let mut left = *rows;
    let mut found = 0;
    'planes: for i in 0..k {
        let nearer = nearer_rows(&left, plane_at(codes, q, i), end);
        let some = has_row(&nearer);
        left = nearer_or_all(some, nearer, left);
        found = with_bit(found, !some);
        if found > best >> (k - 1 - i) {
            return best;
        }
    }
    found
}

/// The least distance of the rows of segment `q`, or `best` if none is nearer.
#[inline(never)]
fn nearest_in_segment(codes: &VerticalColumn, q: usize, rows: &[u64; 4], end: End, best: u64) -> u64
    requires there { q < segments_of 256 (count codes.now) }
    requires few { count codes.now ≤ 2 ^ 24 }
    requires narrow { codes.now.width ≤ widest_code }
    ensures { IsNearest 256 (row_in rows.now) (λ j. code_at codes.now (256 * q + j)) end (2 ^ codes.now.width - 1) best result }
{
    let left = rows_that_may_be_nearer(codes, q, rows, end, best);
    if has_row(&left) {
        nearest_of(codes, q, &left, end, best)
    } else {
        best
    }
}

/// The number of groups of four planes that are read in a segment before checking whether a row is left. Few rows have
/// no bit in that many planes, and checking after each group would be unpredictable.
const FIRST_GROUPS: usize = 3;

/// The number of first groups to read for codes of `width` bits.
pub(crate) fn first_groups(width: u32) -> usize
    requires { width ≤ widest_code }
    ensures within { 4 * result ≤ width }
    ensures some { width < 4 * result + 64 }
{
    (width as usize / 4).min(FIRST_GROUPS)
}

/// Rows of a segment that may be near to each end.
#[derive(Clone, Copy)]
struct NearRows {
    least: [u64; 4],
    greatest: [u64; 4],
}

/// The rows whose distance from each end has no bit in the planes of the first groups.
fn near_rows(codes: &VerticalColumn, q: usize, rows: &[u64; 4], groups: usize) -> NearRows
    requires there { q < segments_of 256 (count codes.now) }
    requires few { count codes.now ≤ 2 ^ 24 }
    requires narrow { codes.now.width ≤ widest_code }
    requires fit { Fit codes.now.width codes.now.codes }
    requires within { 4 * groups ≤ codes.now.width }
    ensures least { MayBeNearer (row_in rows.now) (row_in result.least) (λ j. code_at codes.now (256 * q + j)) Least (2 ^ codes.now.width - 1) (2 ^ (codes.now.width - 4 * groups)) }
    ensures greatest { MayBeNearer (row_in rows.now) (row_in result.greatest) (λ j. code_at codes.now (256 * q + j)) Greatest (2 ^ codes.now.width - 1) (2 ^ (codes.now.width - 4 * groups)) }
{
    let (mut least, mut greatest) = (*rows, *rows);
    'groups: for g in 0..groups {
        'planes: for i in 4 * g..4 * g + 4 {
            let plane = plane_at(codes, q, i);
            least = nearer_rows(&least, plane, End::Least);
            greatest = nearer_rows(&greatest, plane, End::Greatest);
        }
    }
    NearRows { least, greatest }
}

/// The least distance of the rows of segment `q`, or `best` if none is nearer. `near` has those of the rows whose
/// distance may have no bit in the planes of the first groups.
fn nearest_among(
    codes: &VerticalColumn,
    q: usize,
    rows: &[u64; 4],
    near: &[u64; 4],
    groups: usize,
    end: End,
    best: u64,
) -> u64
    requires there { q < segments_of 256 (count codes.now) }
    requires few { count codes.now ≤ 2 ^ 24 }
    requires narrow { codes.now.width ≤ widest_code }
    requires within { 4 * groups ≤ codes.now.width }
    requires some { codes.now.width < 4 * groups + 64 }
    requires near { MayBeNearer (row_in rows.now) (row_in near.now) (λ j. code_at codes.now (256 * q + j)) end (2 ^ codes.now.width - 1) (2 ^ (codes.now.width - 4 * groups)) }
    ensures { IsNearest 256 (row_in rows.now) (λ j. code_at codes.now (256 * q + j)) end (2 ^ codes.now.width - 1) best result }
{
    if best == 0 {
        return best;
    }
    if best >> (codes.width() as usize - 4 * groups) != 0 {
        return nearest_in_segment(codes, q, rows, end, best);
    }
    if has_row(near) {
        nearest_in_segment(codes, q, near, end, best)
    } else {
        best
    }
}

/// The least distances of the rows of segment `q` from both ends, or `best` if none is nearer. No plane is read if no
/// end is wanted or if there is no row. `groups` first groups are read before checking whether a row is left.
pub(crate) fn nearest_to_ends(
    codes: &VerticalColumn,
    q: usize,
    rows: &[u64; 4],
    groups: usize,
    best: Distances,
) -> Distances
    requires there { q < segments_of 256 (count codes.now) }
    requires few { count codes.now ≤ 2 ^ 24 }
    requires narrow { codes.now.width ≤ widest_code }
    requires fit { Fit codes.now.width codes.now.codes }
    requires within { 4 * groups ≤ codes.now.width }
    requires some { codes.now.width < 4 * groups + 64 }
    ensures { AreNearest 256 (row_in rows.now) (λ j. code_at codes.now (256 * q + j)) (2 ^ codes.now.width - 1) best result }
{
    if best.are_none() {
        return best;
    }
    if !has_row(rows) {
        return best;
    }
    let NearRows { least, greatest } = near_rows(codes, q, rows, groups);
    Distances {
        least: nearest_among(codes, q, rows, &least, groups, End::Least, best.least),
        greatest: nearest_among(
            codes,
            q,
            rows,
            &greatest,
            groups,
            End::Greatest,
            best.greatest,
        ),
    }
}
