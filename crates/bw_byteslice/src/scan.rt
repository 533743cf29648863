//! Scans of slices from the highest bytes down, as long as a needed row is undecided (ByteSlice: Feng and others,
//! SIGMOD 2015).

ghost use Rattle.std.specs.Prelude.{length, max, nat_le, nat_lt, not, true, ℕ, ◌&&◌, ◌*◌, ◌+◌, ◌<◌, ◌==◌, ◌^◌, ◌||◌, ◌≡◌, ◌≤◌};
ghost use Rattle.bw_mask.specs.Masks.{SameShape, bit_of, len, row_at};
ghost use Rattle.bw_code.specs.Tests.{TestFits, meets};
ghost use Rattle.bw_code.specs.Units.{agreement, by_slices, cost_of, scan_units, segment_units, segments_of, some_below};
ghost use Rattle.bw_code.specs.Widths.{widest_code};
ghost use Rattle.bw_byteslice.specs.Slices.{AreBytes, AreStored, IsBelow, by_bytes, code_in, number_in, slices_of};

use crate::rows::{chosen, either, high_half, is_empty, joined, low_half, without};
use crate::shift::{byte_at, raise_test, slices_of};
use bw_code::{CodeTest, Source};
use bw_lane::byte_step;
use bw_mask::Mask;

/// The needed rows of segment q whose number of m bytes is below the constant, and those where it is equal to it.
fn compare<S: Source<[u8; 32]>>(
    source: &mut S,
    m: usize,
    q: usize,
    constant: u64,
    need: u32,
) -> (u32, u32)
    requires narrow { m ≤ 8 }
    requires constant { constant < 256 ^ m }
    requires small { q < 2 ^ 32 }
    requires there { (q + 1) * m ≤ length (S.units source.old) }
    requires bytes { AreBytes (S.units source.old) }
    requires few { S.reads source.old + m ≤ 2 ^ 63 }
    requires needed { some_below 32 (bit_of need) ≡ true }
    ensures units { S.units source.new ≡ S.units source.old }
    ensures reads { S.reads source.new ≡ S.reads source.old + cost_of (by_bytes m) (bit_of need) (λ r. agreement 256 m (number_in m (S.units source.old) (32 * q + r)) constant) }
    ensures less { (r : ℕ) → r < 32 → bit_of result.0 r ≡ (bit_of need r && nat_lt (number_in m (S.units source.old) (32 * q + r)) constant) }
    ensures same { (r : ℕ) → r < 32 → bit_of result.1 r ≡ (bit_of need r && (number_in m (S.units source.old) (32 * q + r) == constant)) }
{
    let (mut lt, mut eq) = (0, need);
    for i in 0..m {
        let slice = source.read(q * m + i);
        byte_step(&slice, byte_at(constant, m, i), &mut lt, &mut eq);
        if is_empty(eq) {
            return (lt, eq);
        }
    }
    (lt, eq)
}

/// The rows that are not below the low end, and are below or equal to the high end.
fn inside(below: u32, lt: u32, eq: u32) -> u32
    ensures { (r : ℕ) → bit_of result r ≡ ((bit_of lt r || bit_of eq r) && not (bit_of below r)) }
{
    without(either(lt, eq), below)
}

/// The needed rows of segment q whose number of m bytes lies between the two constants, both inclusive.
fn between<S: Source<[u8; 32]>>(
    source: &mut S,
    m: usize,
    q: usize,
    low: u64,
    high: u64,
    need: u32,
) -> u32
    requires narrow { m ≤ 8 }
    requires low { low < 256 ^ m }
    requires high { high < 256 ^ m }
    requires small { q < 2 ^ 32 }
    requires there { (q + 1) * m ≤ length (S.units source.old) }
    requires bytes { AreBytes (S.units source.old) }
    requires few { S.reads source.old + m ≤ 2 ^ 63 }
    requires needed { some_below 32 (bit_of need) ≡ true }
    ensures units { S.units source.new ≡ S.units source.old }
    ensures reads { S.reads source.new ≡ S.reads source.old + cost_of (by_bytes m) (bit_of need) (λ r.
        max (agreement 256 m (number_in m (S.units source.old) (32 * q + r)) low) (agreement 256 m (number_in m (S.units source.old) (32 * q + r)) high)) }
    ensures rows { (r : ℕ) → r < 32 → bit_of result r ≡ (bit_of need r
        && (nat_le low (number_in m (S.units source.old) (32 * q + r)) && nat_le (number_in m (S.units source.old) (32 * q + r)) high)) }
{
    let (mut lt_lo, mut eq_lo) = (0, need);
    let (mut lt_hi, mut eq_hi) = (0, need);
    for i in 0..m {
        let slice = source.read(q * m + i);
        byte_step(&slice, byte_at(low, m, i), &mut lt_lo, &mut eq_lo);
        byte_step(&slice, byte_at(high, m, i), &mut lt_hi, &mut eq_hi);
        if is_empty(either(eq_lo, eq_hi)) {
            return inside(lt_lo, lt_hi, eq_hi);
        }
    }
    inside(lt_lo, lt_hi, eq_hi)
}

/// The needed rows of segment q whose number of m bytes meets the test. Segment q need not exist if no row of it is
/// needed.
// It is called for each half of a word; not inlined, the call would cost a quarter of the scan's time.
#[inline(always)]
fn segment<S: Source<[u8; 32]>>(
    source: &mut S,
    m: usize,
    q: usize,
    test: CodeTest,
    need: u32,
) -> u32
    requires narrow { m ≤ 8 }
    requires test { IsBelow (256 ^ m) test }
    requires small { q < 2 ^ 32 }
    requires there { some_below 32 (bit_of need) ≡ true → (q + 1) * m ≤ length (S.units source.old) }
    requires bytes { AreBytes (S.units source.old) }
    requires few { S.reads source.old + m ≤ 2 ^ 63 }
    ensures units { S.units source.new ≡ S.units source.old }
    ensures reads { S.reads source.new ≡ S.reads source.old + segment_units (by_bytes m) test (bit_of need) (λ r. number_in m (S.units source.old) (32 * q + r)) }
    ensures most { S.reads source.new ≤ S.reads source.old + m }
    ensures rows { (r : ℕ) → r < 32 → bit_of result r ≡ (bit_of need r && meets test (number_in m (S.units source.old) (32 * q + r))) }
{
    if is_empty(need) {
        return 0;
    }
    match test {
        CodeTest::None => 0,
        CodeTest::All => need,
        CodeTest::Cmp(op, constant) => {
            let (lt, eq) = compare(source, m, q, constant, need);
            chosen(op, need, lt, eq)
        }
        CodeTest::Range(low, high) => between(source, m, q, low, high, need),
    }
}

/// `out` becomes the needed rows whose number of m bytes meets the test.
fn scan_numbers<S: Source<[u8; 32]>>(
    source: &mut S,
    m: usize,
    test: CodeTest,
    need: &Mask,
    out: &mut Mask,
)
    requires narrow { m ≤ 8 }
    requires test { IsBelow (256 ^ m) test }
    requires few { len need.now ≤ 2 ^ 24 }
    requires out { len out.old ≡ len need.now }
    requires units { length (S.units source.old) ≡ segments_of 32 (len need.now) * m }
    requires bytes { AreBytes (S.units source.old) }
    requires reads { S.reads source.old ≤ 2 ^ 62 }
    ensures units { S.units source.new ≡ S.units source.old }
    ensures reads { S.reads source.new ≡ S.reads source.old + scan_units (by_bytes m) test (row_at need.now) (number_in m (S.units source.old)) (segments_of 32 (len need.now)) }
    ensures shape { SameShape out.new out.old }
    ensures rows { (j : ℕ) → row_at out.new j ≡ (row_at need.now j && meets test (number_in m (S.units source.old) j)) }
{
    let words = need.words();
    for w in 0..words.len() {
        let low = segment(source, m, 2 * w, test, low_half(words[w]));
        let high = segment(source, m, 2 * w + 1, test, high_half(words[w]));
        out.put_word(w, joined(low, high));
    }
}

/// Scans slices of codes of `width` bits: `out` becomes the needed rows whose code meets the test. The number of units
/// read is `scan_units`: none of a segment of 32 rows in which no row is needed, and of each other segment as many
/// slices as it takes until no needed row is left that might equal the constant. With m slices, unit q * m + i is slice
/// i of segment q.
pub fn scan_from<S: Source<[u8; 32]>>(
    source: &mut S,
    width: u32,
    test: CodeTest,
    need: &Mask,
    out: &mut Mask,
)
    requires narrow { width ≤ widest_code }
    requires test { TestFits width test }
    requires few { len need.now ≤ 2 ^ 24 }
    requires out { len out.old ≡ len need.now }
    requires units { length (S.units source.old) ≡ segments_of 32 (len need.now) * slices_of width }
    requires stored { AreStored width (S.units source.old) }
    requires reads { S.reads source.old ≤ 2 ^ 62 }
    ensures units { S.units source.new ≡ S.units source.old }
    ensures reads { S.reads source.new ≡ S.reads source.old + scan_units (by_slices width (slices_of width)) test (row_at need.now) (code_in width (S.units source.old)) (segments_of 32 (len need.now)) }
    ensures shape { SameShape out.new out.old }
    ensures rows { (j : ℕ) → row_at out.new j ≡ (row_at need.now j && meets test (code_in width (S.units source.old) j)) }
{
    let raised = raise_test(test, width);
    scan_numbers(source, slices_of(width), raised, need, out);
}
