//! Scans of two columns of planes side by side, from the highest planes down, as long as a needed row is equal in both
//! (BitWeaving/V: Li and Patel, SIGMOD 2013).

ghost use Rattle.std.specs.Prelude.{[], if◌then◌else◌, length, nat_lt, not, true, slice_index_or, ℕ, ◌&&◌, ◌*◌, ◌+◌, ◌<◌, ◌==◌, ◌^◌, ◌||◌, ◌≡◌, ◌≤◌};
ghost use Rattle.bw_mask.specs.Masks.{SameShape, len, row_at, row_in};
ghost use Rattle.bw_code.specs.Tests.{code_compares};
ghost use Rattle.bw_code.specs.Units.{agreement, by_planes, cost_of, segments_of, side_units, some_below};
ghost use Rattle.bw_code.specs.Widths.{widest_code};
ghost use Rattle.bw_vertical.specs.Planes.{code_in};

use crate::rows::{is_empty, lanes_at, put_lanes};
use crate::scan::chosen;
use bw_code::{CmpOp, Source};
use bw_lane::plane_pair_step;
use bw_mask::Mask;

/// Compares the rows of segment q of two columns by plane i, the next lower one. `lt` are the rows where the first is
/// below the second so far, and `eq` those where they are equal so far.
// As for scans of one column: if not inlined, each call would keep both masks in memory.
#[inline(always)]
fn compare_planes<A: Source<[u64; 4]>, B: Source<[u64; 4]>>(
    a: &mut A,
    b: &mut B,
    k: usize,
    q: usize,
    i: usize,
    lt: &mut [u64; 4],
    eq: &mut [u64; 4],
)
    requires narrow { k ≤ widest_code }
    requires within { i < k }
    requires small { q < 2 ^ 32 }
    requires there { (q + 1) * k ≤ length (A.units a.old) }
    requires other_there { (q + 1) * k ≤ length (B.units b.old) }
    requires few { A.reads a.old < 2 ^ 63 }
    requires other_few { B.reads b.old < 2 ^ 63 }
    ensures units { A.units a.new ≡ A.units a.old }
    ensures other_units { B.units b.new ≡ B.units b.old }
    ensures reads { A.reads a.new ≡ A.reads a.old + 1 }
    ensures other_reads { B.reads b.new ≡ B.reads b.old + 1 }
    ensures less { (j : ℕ) → j < 256 → row_in lt.new j ≡ (row_in lt.old j || (row_in eq.old j
        && (row_in (slice_index_or (B.units b.old) (q * k + i) []) j && not (row_in (slice_index_or (A.units a.old) (q * k + i) []) j)))) }
    ensures same { (j : ℕ) → j < 256 → row_in eq.new j ≡ (row_in eq.old j
        && (if row_in (slice_index_or (B.units b.old) (q * k + i) []) j then row_in (slice_index_or (A.units a.old) (q * k + i) []) j else not (row_in (slice_index_or (A.units a.old) (q * k + i) []) j))) }
{
    let left = a.read(q * k + i);
    let right = b.read(q * k + i);
    plane_pair_step(lt, eq, &left, &right);
}

/// The needed rows of segment q where the first column's code is below the second's, and those where they are equal.
fn compare<A: Source<[u64; 4]>, B: Source<[u64; 4]>>(
    a: &mut A,
    b: &mut B,
    k: usize,
    q: usize,
    need: &[u64; 4],
) -> ([u64; 4], [u64; 4])
    requires narrow { k ≤ widest_code }
    requires small { q < 2 ^ 32 }
    requires there { (q + 1) * k ≤ length (A.units a.old) }
    requires other_there { (q + 1) * k ≤ length (B.units b.old) }
    requires few { A.reads a.old + k ≤ 2 ^ 63 }
    requires other_few { B.reads b.old + k ≤ 2 ^ 63 }
    requires needed { some_below 256 (row_in need.now) ≡ true }
    ensures units { A.units a.new ≡ A.units a.old }
    ensures other_units { B.units b.new ≡ B.units b.old }
    ensures reads { A.reads a.new ≡ A.reads a.old
        + cost_of (by_planes k) (row_in need.now) (λ j. agreement 2 k (code_in k (A.units a.old) (256 * q + j)) (code_in k (B.units b.old) (256 * q + j))) }
    ensures other_reads { B.reads b.new ≡ B.reads b.old
        + cost_of (by_planes k) (row_in need.now) (λ j. agreement 2 k (code_in k (A.units a.old) (256 * q + j)) (code_in k (B.units b.old) (256 * q + j))) }
    ensures less { (j : ℕ) → j < 256 → row_in result.0 j ≡ (row_in need.now j && nat_lt (code_in k (A.units a.old) (256 * q + j)) (code_in k (B.units b.old) (256 * q + j))) }
    ensures same { (j : ℕ) → j < 256 → row_in result.1 j ≡ (row_in need.now j && (code_in k (A.units a.old) (256 * q + j) == code_in k (B.units b.old) (256 * q + j))) }
{
    let (mut lt, mut eq) = ([0; 4], *need);
    for g in 0..k / 4 {
        compare_planes(a, b, k, q, 4 * g, &mut lt, &mut eq);
        compare_planes(a, b, k, q, 4 * g + 1, &mut lt, &mut eq);
        compare_planes(a, b, k, q, 4 * g + 2, &mut lt, &mut eq);
        compare_planes(a, b, k, q, 4 * g + 3, &mut lt, &mut eq);
        if is_empty(&eq) {
            return (lt, eq);
        }
    }
    for i in k / 4 * 4..k {
        compare_planes(a, b, k, q, i, &mut lt, &mut eq);
    }
    (lt, eq)
}

/// The needed rows of segment q whose codes satisfy the comparison.
fn segment<A: Source<[u64; 4]>, B: Source<[u64; 4]>>(
    a: &mut A,
    b: &mut B,
    k: usize,
    q: usize,
    op: CmpOp,
    need: &[u64; 4],
) -> [u64; 4]
    requires narrow { k ≤ widest_code }
    requires small { q < 2 ^ 32 }
    requires there { (q + 1) * k ≤ length (A.units a.old) }
    requires other_there { (q + 1) * k ≤ length (B.units b.old) }
    requires few { A.reads a.old + k ≤ 2 ^ 63 }
    requires other_few { B.reads b.old + k ≤ 2 ^ 63 }
    ensures units { A.units a.new ≡ A.units a.old }
    ensures other_units { B.units b.new ≡ B.units b.old }
    ensures reads { A.reads a.new ≡ A.reads a.old
        + cost_of (by_planes k) (row_in need.now) (λ j. agreement 2 k (code_in k (A.units a.old) (256 * q + j)) (code_in k (B.units b.old) (256 * q + j))) }
    ensures other_reads { B.reads b.new ≡ B.reads b.old
        + cost_of (by_planes k) (row_in need.now) (λ j. agreement 2 k (code_in k (A.units a.old) (256 * q + j)) (code_in k (B.units b.old) (256 * q + j))) }
    ensures most { A.reads a.new ≤ A.reads a.old + k }
    ensures other_most { B.reads b.new ≤ B.reads b.old + k }
    ensures rows { (j : ℕ) → j < 256 → row_in result j ≡ (row_in need.now j && code_compares op (code_in k (A.units a.old) (256 * q + j)) (code_in k (B.units b.old) (256 * q + j))) }
{
    if is_empty(need) {
        return [0; 4];
    }
    let (lt, eq) = compare(a, b, k, q, need);
    chosen(op, need, &lt, &eq)
}

/// Scans planes of two columns of codes of `width` bits side by side: `out` becomes the needed rows whose codes satisfy
/// the comparison, that of `a` on the left. The number of units read of each is `side_units`: none of a segment of 256
/// rows in which no row is needed, and of each other segment as many groups of four planes as it takes until no needed
/// row is left whose codes might be equal. Unit q * width + i is plane i of segment q.
pub fn pair_from<A: Source<[u64; 4]>, B: Source<[u64; 4]>>(
    a: &mut A,
    b: &mut B,
    width: u32,
    op: CmpOp,
    need: &Mask,
    out: &mut Mask,
)
    requires narrow { width ≤ widest_code }
    requires few { len need.now ≤ 2 ^ 24 }
    requires out { len out.old ≡ len need.now }
    requires units { length (A.units a.old) ≡ segments_of 256 (len need.now) * width }
    requires other_units { length (B.units b.old) ≡ segments_of 256 (len need.now) * width }
    requires reads { A.reads a.old ≤ 2 ^ 62 }
    requires other_reads { B.reads b.old ≤ 2 ^ 62 }
    ensures units { A.units a.new ≡ A.units a.old }
    ensures other_units { B.units b.new ≡ B.units b.old }
    ensures reads { A.reads a.new ≡ A.reads a.old + side_units (by_planes width) (row_at need.now) (code_in width (A.units a.old)) (code_in width (B.units b.old)) (segments_of 256 (len need.now)) }
    ensures other_reads { B.reads b.new ≡ B.reads b.old + side_units (by_planes width) (row_at need.now) (code_in width (A.units a.old)) (code_in width (B.units b.old)) (segments_of 256 (len need.now)) }
    ensures shape { SameShape out.new out.old }
    ensures rows { (i : ℕ) → row_at out.new i ≡ (row_at need.now i && code_compares op (code_in width (A.units a.old) i) (code_in width (B.units b.old) i)) }
{
    let words = need.words();
    for q in 0..need.len().div_ceil(256) {
        let found = segment(a, b, width as usize, q, op, &lanes_at(words, q));
        put_lanes(out, q, &found);
    }
}
