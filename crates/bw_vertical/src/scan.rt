//! Scans of planes from the highest down, as long as a needed row is undecided (BitWeaving/V: Li and Patel, SIGMOD
//! 2013).

ghost use Rattle.std.specs.Prelude.{[], if◌then◌else◌, length, max, nat_le, nat_lt, not, true, slice_index_or, ℕ, ◌&&◌, ◌*◌, ◌+◌, ◌-◌, ◌<◌, ◌==◌, ◌^◌, ◌||◌, ◌≡◌, ◌≤◌};
ghost use Rattle.bw_mask.specs.Masks.{SameShape, bit_of, len, row_at, row_in};
ghost use Rattle.bw_code.specs.Tests.{TestFits, meets};
ghost use Rattle.bw_code.specs.Units.{agreement, by_planes, cost_of, scan_units, segment_units, segments_of, some_below};
ghost use Rattle.bw_code.specs.Choosing.{by_masks};
ghost use Rattle.bw_code.specs.Widths.{widest_code};
ghost use Rattle.bw_vertical.specs.Planes.{code_in};

use crate::rows::{either, is_empty, lanes_at, put_lanes, without};
use bw_code::{CmpOp, CodeTest, Source};
use bw_lane::plane_step;
use bw_mask::Mask;

/// The needed rows that satisfy the comparison, by those that are below and those that are equal.
pub(crate) fn chosen(op: CmpOp, need: &[u64; 4], lt: &[u64; 4], eq: &[u64; 4]) -> [u64; 4]
    ensures { (j : ℕ) → j < 256 → row_in result j ≡ by_masks op (row_in need.now j) (row_in lt.now j) (row_in eq.now j) }
{
    match op {
        CmpOp::Eq => *eq,
        CmpOp::Ne => without(need, eq),
        CmpOp::Lt => *lt,
        CmpOp::Le => either(lt, eq),
        CmpOp::Gt => without(need, &either(lt, eq)),
        CmpOp::Ge => without(need, lt),
    }
}

/// Compares the rows of segment q with a constant by plane i, the next lower one. `lt` are the rows below the constant
/// so far, and `eq` those equal to it so far. The constant's bit is bit `at` of the bits, and the plane is unit `unit`.
// A scan calls it for each plane: if not inlined, each call would keep both masks in memory.
#[inline(always)]
fn compare_plane<S: Source<[u64; 4]>>(
    source: &mut S,
    k: usize,
    q: usize,
    i: usize,
    unit: usize,
    bits: u64,
    at: usize,
    lt: &mut [u64; 4],
    eq: &mut [u64; 4],
)
    requires narrow { k ≤ widest_code }
    requires within { i < k }
    requires unit { unit ≡ q * k + i }
    requires bit { at < 64 }
    requires small { q < 2 ^ 32 }
    requires there { (q + 1) * k ≤ length (S.units source.old) }
    requires few { S.reads source.old < 2 ^ 63 }
    ensures units { S.units source.new ≡ S.units source.old }
    ensures reads { S.reads source.new ≡ S.reads source.old + 1 }
    ensures less { (j : ℕ) → j < 256 → row_in lt.new j ≡ (row_in lt.old j || (row_in eq.old j && (bit_of bits at && not (row_in (slice_index_or (S.units source.old) (q * k + i) []) j)))) }
    ensures same { (j : ℕ) → j < 256 → row_in eq.new j ≡ (row_in eq.old j && (if bit_of bits at then row_in (slice_index_or (S.units source.old) (q * k + i) []) j else not (row_in (slice_index_or (S.units source.old) (q * k + i) []) j))) }
{
    let plane = source.read(unit);
    plane_step(lt, eq, &plane, bits >> at & 1 == 1);
}

/// The needed rows of segment q that are below the constant, and those that are equal to it.
fn compare<S: Source<[u64; 4]>>(
    source: &mut S,
    k: usize,
    q: usize,
    constant: u64,
    need: &[u64; 4],
) -> ([u64; 4], [u64; 4])
    requires narrow { k ≤ widest_code }
    requires constant { constant < 2 ^ k }
    requires small { q < 2 ^ 32 }
    requires there { (q + 1) * k ≤ length (S.units source.old) }
    requires few { S.reads source.old + k ≤ 2 ^ 63 }
    requires needed { some_below 256 (row_in need.now) ≡ true }
    ensures units { S.units source.new ≡ S.units source.old }
    ensures reads { S.reads source.new ≡ S.reads source.old + cost_of (by_planes k) (row_in need.now) (λ j. agreement 2 k (code_in k (S.units source.old) (256 * q + j)) constant) }
    ensures less { (j : ℕ) → j < 256 → row_in result.0 j ≡ (row_in need.now j && nat_lt (code_in k (S.units source.old) (256 * q + j)) constant) }
    ensures same { (j : ℕ) → j < 256 → row_in result.1 j ≡ (row_in need.now j && (code_in k (S.units source.old) (256 * q + j) == constant)) }
{
    let (mut lt, mut eq) = ([0; 4], *need);
    for g in 0..k / 4 {
        // One shift yields the four bits of a group.
        let bits = constant >> (k - 4 - 4 * g);
        let unit = q * k + 4 * g;
        compare_plane(source, k, q, 4 * g, unit, bits, 3, &mut lt, &mut eq);
        compare_plane(source, k, q, 4 * g + 1, unit + 1, bits, 2, &mut lt, &mut eq);
        compare_plane(source, k, q, 4 * g + 2, unit + 2, bits, 1, &mut lt, &mut eq);
        compare_plane(source, k, q, 4 * g + 3, unit + 3, bits, 0, &mut lt, &mut eq);
        if is_empty(&eq) {
            return (lt, eq);
        }
    }
    for i in k / 4 * 4..k {
        compare_plane(
            source,
            k,
            q,
            i,
            q * k + i,
            constant,
            k - 1 - i,
            &mut lt,
            &mut eq,
        );
    }
    (lt, eq)
}

/// The rows that are below a constant by the planes so far, and those that are equal to it.
#[derive(Clone, Copy)]
struct Side {
    lt: [u64; 4],
    eq: [u64; 4],
}

/// Compares the rows of segment q with both ends of a range by plane i, the next lower one, which is unit `unit`. The
/// bits of the ends are bits `at`.
// As for `compare_plane`: if not inlined, each call would keep the four masks in memory.
#[inline(always)]
fn between_plane<S: Source<[u64; 4]>>(
    source: &mut S,
    k: usize,
    q: usize,
    i: usize,
    unit: usize,
    ends: (u64, u64),
    at: usize,
    low: &mut Side,
    high: &mut Side,
)
    requires narrow { k ≤ widest_code }
    requires within { i < k }
    requires unit { unit ≡ q * k + i }
    requires bit { at < 64 }
    requires small { q < 2 ^ 32 }
    requires there { (q + 1) * k ≤ length (S.units source.old) }
    requires few { S.reads source.old < 2 ^ 63 }
    ensures units { S.units source.new ≡ S.units source.old }
    ensures reads { S.reads source.new ≡ S.reads source.old + 1 }
    ensures low_less { (j : ℕ) → j < 256 → row_in low.new.lt j ≡ (row_in low.old.lt j || (row_in low.old.eq j && (bit_of ends.0 at && not (row_in (slice_index_or (S.units source.old) (q * k + i) []) j)))) }
    ensures low_same { (j : ℕ) → j < 256 → row_in low.new.eq j ≡ (row_in low.old.eq j && (if bit_of ends.0 at then row_in (slice_index_or (S.units source.old) (q * k + i) []) j else not (row_in (slice_index_or (S.units source.old) (q * k + i) []) j))) }
    ensures high_less { (j : ℕ) → j < 256 → row_in high.new.lt j ≡ (row_in high.old.lt j || (row_in high.old.eq j && (bit_of ends.1 at && not (row_in (slice_index_or (S.units source.old) (q * k + i) []) j)))) }
    ensures high_same { (j : ℕ) → j < 256 → row_in high.new.eq j ≡ (row_in high.old.eq j && (if bit_of ends.1 at then row_in (slice_index_or (S.units source.old) (q * k + i) []) j else not (row_in (slice_index_or (S.units source.old) (q * k + i) []) j))) }
{
    let plane = source.read(unit);
    plane_step(&mut low.lt, &mut low.eq, &plane, ends.0 >> at & 1 == 1);
    plane_step(&mut high.lt, &mut high.eq, &plane, ends.1 >> at & 1 == 1);
}

/// The rows that are not below the low end, and are below or equal to the high end.
fn inside(below: &[u64; 4], high: &Side) -> [u64; 4]
    ensures { (j : ℕ) → j < 256 → row_in result j ≡ ((row_in high.now.lt j || row_in high.now.eq j) && not (row_in below.now j)) }
{
    without(&either(&high.lt, &high.eq), below)
}

/// The needed rows of segment q that lie between the two constants, both inclusive.
fn between<S: Source<[u64; 4]>>(
    source: &mut S,
    k: usize,
    q: usize,
    low: u64,
    high: u64,
    need: &[u64; 4],
) -> [u64; 4]
    requires narrow { k ≤ widest_code }
    requires low { low < 2 ^ k }
    requires high { high < 2 ^ k }
    requires small { q < 2 ^ 32 }
    requires there { (q + 1) * k ≤ length (S.units source.old) }
    requires few { S.reads source.old + k ≤ 2 ^ 63 }
    requires needed { some_below 256 (row_in need.now) ≡ true }
    ensures units { S.units source.new ≡ S.units source.old }
    ensures reads { S.reads source.new ≡ S.reads source.old + cost_of (by_planes k) (row_in need.now) (λ j.
        max (agreement 2 k (code_in k (S.units source.old) (256 * q + j)) low) (agreement 2 k (code_in k (S.units source.old) (256 * q + j)) high)) }
    ensures rows { (j : ℕ) → j < 256 → row_in result j ≡ (row_in need.now j
        && (nat_le low (code_in k (S.units source.old) (256 * q + j)) && nat_le (code_in k (S.units source.old) (256 * q + j)) high)) }
{
    let all = Side {
        lt: [0; 4],
        eq: *need,
    };
    let (mut lo, mut hi) = (all, all);
    for g in 0..k / 4 {
        let down = k - 4 - 4 * g;
        let ends = (low >> down, high >> down);
        let unit = q * k + 4 * g;
        between_plane(source, k, q, 4 * g, unit, ends, 3, &mut lo, &mut hi);
        between_plane(source, k, q, 4 * g + 1, unit + 1, ends, 2, &mut lo, &mut hi);
        between_plane(source, k, q, 4 * g + 2, unit + 2, ends, 1, &mut lo, &mut hi);
        between_plane(source, k, q, 4 * g + 3, unit + 3, ends, 0, &mut lo, &mut hi);
        if is_empty(&either(&lo.eq, &hi.eq)) {
            return inside(&lo.lt, &hi);
        }
    }
    for i in k / 4 * 4..k {
        let ends = (low, high);
        between_plane(
            source,
            k,
            q,
            i,
            q * k + i,
            ends,
            k - 1 - i,
            &mut lo,
            &mut hi,
        );
    }
    inside(&lo.lt, &hi)
}

/// The needed rows of segment q that meet the test.
fn segment<S: Source<[u64; 4]>>(
    source: &mut S,
    k: usize,
    q: usize,
    test: CodeTest,
    need: &[u64; 4],
) -> [u64; 4]
    requires narrow { k ≤ widest_code }
    requires test { TestFits k test }
    requires small { q < 2 ^ 32 }
    requires there { (q + 1) * k ≤ length (S.units source.old) }
    requires few { S.reads source.old + k ≤ 2 ^ 63 }
    ensures units { S.units source.new ≡ S.units source.old }
    ensures reads { S.reads source.new ≡ S.reads source.old + segment_units (by_planes k) test (row_in need.now) (λ j. code_in k (S.units source.old) (256 * q + j)) }
    ensures most { S.reads source.new ≤ S.reads source.old + k }
    ensures rows { (j : ℕ) → j < 256 → row_in result j ≡ (row_in need.now j && meets test (code_in k (S.units source.old) (256 * q + j))) }
{
    if is_empty(need) {
        return [0; 4];
    }
    match test {
        CodeTest::None => [0; 4],
        CodeTest::All => *need,
        CodeTest::Cmp(op, constant) => {
            let (lt, eq) = compare(source, k, q, constant, need);
            chosen(op, need, &lt, &eq)
        }
        CodeTest::Range(low, high) => between(source, k, q, low, high, need),
    }
}

/// Scans planes: `out` becomes the needed rows whose code meets the test. The number of units read is `scan_units`.
/// Unit q * width + i is plane i of segment q.
pub fn scan_from<S: Source<[u64; 4]>>(
    source: &mut S,
    width: u32,
    test: CodeTest,
    need: &Mask,
    out: &mut Mask,
)
    requires narrow { width ≤ widest_code }
    requires test { TestFits width test }
    requires few { len need.now ≤ 2 ^ 24 }
    requires out { len out.old ≡ len need.now }
    requires units { length (S.units source.old) ≡ segments_of 256 (len need.now) * width }
    requires reads { S.reads source.old ≤ 2 ^ 62 }
    ensures units { S.units source.new ≡ S.units source.old }
    ensures reads { S.reads source.new ≡ S.reads source.old + scan_units (by_planes width) test (row_at need.now) (code_in width (S.units source.old)) (segments_of 256 (len need.now)) }
    ensures shape { SameShape out.new out.old }
    ensures rows { (i : ℕ) → row_at out.new i ≡ (row_at need.now i && meets test (code_in width (S.units source.old) i)) }
{
    let words = need.words();
    for q in 0..need.len().div_ceil(256) {
        let found = segment(source, width as usize, q, test, &lanes_at(words, q));
        put_lanes(out, q, &found);
    }
}
