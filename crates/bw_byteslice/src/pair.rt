//! Scans of two columns of slices side by side, from the highest bytes down, as long as a needed row is undecided
//! (ByteSlice: Feng and others, SIGMOD 2015).

ghost use Rattle.std.specs.Prelude.{length, nat_lt, true, ℕ, ◌&&◌, ◌*◌, ◌+◌, ◌<◌, ◌==◌, ◌^◌, ◌≡◌, ◌≤◌};
ghost use Rattle.bw_mask.specs.Masks.{SameShape, bit_of, len, row_at};
ghost use Rattle.bw_code.specs.Tests.{code_compares};
ghost use Rattle.bw_code.specs.Units.{by_slices, segments_of, side_units, some_below};
ghost use Rattle.bw_code.specs.Widths.{widest_code};
ghost use Rattle.bw_byteslice.specs.Slices.{AreBytes, AreStored, by_bytes, code_in, number_in, side_cost, slices_of};

use crate::rows::{chosen, high_half, is_empty, joined, low_half};
use crate::shift::slices_of;
use bw_code::{CmpOp, Source};
use bw_lane::byte_pair_step;
use bw_mask::Mask;

/// The needed rows of segment q whose number of m bytes in `a` is below that in `b`, and those where they are equal.
fn compare<A: Source<[u8; 32]>, B: Source<[u8; 32]>>(
    a: &mut A,
    b: &mut B,
    m: usize,
    q: usize,
    need: u32,
) -> (u32, u32)
    requires narrow { m ≤ 8 }
    requires small { q < 2 ^ 32 }
    requires there { (q + 1) * m ≤ length (A.units a.old) }
    requires other_there { (q + 1) * m ≤ length (B.units b.old) }
    requires bytes { AreBytes (A.units a.old) }
    requires other_bytes { AreBytes (B.units b.old) }
    requires few { A.reads a.old + m ≤ 2 ^ 63 }
    requires other_few { B.reads b.old + m ≤ 2 ^ 63 }
    requires needed { some_below 32 (bit_of need) ≡ true }
    ensures units { A.units a.new ≡ A.units a.old }
    ensures other_units { B.units b.new ≡ B.units b.old }
    ensures reads { A.reads a.new ≡ A.reads a.old + side_cost m (bit_of need) (λ r. number_in m (A.units a.old) (32 * q + r)) (λ r. number_in m (B.units b.old) (32 * q + r)) }
    ensures other_reads { B.reads b.new ≡ B.reads b.old + side_cost m (bit_of need) (λ r. number_in m (A.units a.old) (32 * q + r)) (λ r. number_in m (B.units b.old) (32 * q + r)) }
    ensures less { (r : ℕ) → r < 32 → bit_of result.0 r ≡ (bit_of need r && nat_lt (number_in m (A.units a.old) (32 * q + r)) (number_in m (B.units b.old) (32 * q + r))) }
    ensures same { (r : ℕ) → r < 32 → bit_of result.1 r ≡ (bit_of need r && (number_in m (A.units a.old) (32 * q + r) == number_in m (B.units b.old) (32 * q + r))) }
{
    let (mut lt, mut eq) = (0, need);
    for i in 0..m {
        let left = a.read(q * m + i);
        let right = b.read(q * m + i);
        byte_pair_step(&left, &right, &mut lt, &mut eq);
        if is_empty(eq) {
            return (lt, eq);
        }
    }
    (lt, eq)
}

/// The needed rows of segment q whose numbers of m bytes satisfy the comparison. Segment q need not exist if no row of
/// it is needed.
// As for scans of one column, it is inlined into its caller, once for each half of a word.
#[inline(always)]
fn segment<A: Source<[u8; 32]>, B: Source<[u8; 32]>>(
    a: &mut A,
    b: &mut B,
    m: usize,
    q: usize,
    op: CmpOp,
    need: u32,
) -> u32
    requires narrow { m ≤ 8 }
    requires small { q < 2 ^ 32 }
    requires there { some_below 32 (bit_of need) ≡ true → (q + 1) * m ≤ length (A.units a.old) }
    requires other_there { some_below 32 (bit_of need) ≡ true → (q + 1) * m ≤ length (B.units b.old) }
    requires bytes { AreBytes (A.units a.old) }
    requires other_bytes { AreBytes (B.units b.old) }
    requires few { A.reads a.old + m ≤ 2 ^ 63 }
    requires other_few { B.reads b.old + m ≤ 2 ^ 63 }
    ensures units { A.units a.new ≡ A.units a.old }
    ensures other_units { B.units b.new ≡ B.units b.old }
    ensures reads { A.reads a.new ≡ A.reads a.old + side_cost m (bit_of need) (λ r. number_in m (A.units a.old) (32 * q + r)) (λ r. number_in m (B.units b.old) (32 * q + r)) }
    ensures other_reads { B.reads b.new ≡ B.reads b.old + side_cost m (bit_of need) (λ r. number_in m (A.units a.old) (32 * q + r)) (λ r. number_in m (B.units b.old) (32 * q + r)) }
    ensures most { A.reads a.new ≤ A.reads a.old + m }
    ensures other_most { B.reads b.new ≤ B.reads b.old + m }
    ensures rows { (r : ℕ) → r < 32 → bit_of result r ≡ (bit_of need r && code_compares op (number_in m (A.units a.old) (32 * q + r)) (number_in m (B.units b.old) (32 * q + r))) }
{
    if is_empty(need) {
        return 0;
    }
    let (lt, eq) = compare(a, b, m, q, need);
    chosen(op, need, lt, eq)
}

/// `out` becomes the needed rows whose numbers of m bytes satisfy the comparison.
fn pair_numbers<A: Source<[u8; 32]>, B: Source<[u8; 32]>>(
    a: &mut A,
    b: &mut B,
    m: usize,
    op: CmpOp,
    need: &Mask,
    out: &mut Mask,
)
    requires narrow { m ≤ 8 }
    requires few { len need.now ≤ 2 ^ 24 }
    requires out { len out.old ≡ len need.now }
    requires units { length (A.units a.old) ≡ segments_of 32 (len need.now) * m }
    requires other_units { length (B.units b.old) ≡ segments_of 32 (len need.now) * m }
    requires bytes { AreBytes (A.units a.old) }
    requires other_bytes { AreBytes (B.units b.old) }
    requires reads { A.reads a.old ≤ 2 ^ 62 }
    requires other_reads { B.reads b.old ≤ 2 ^ 62 }
    ensures units { A.units a.new ≡ A.units a.old }
    ensures other_units { B.units b.new ≡ B.units b.old }
    ensures reads { A.reads a.new ≡ A.reads a.old + side_units (by_bytes m) (row_at need.now) (number_in m (A.units a.old)) (number_in m (B.units b.old)) (segments_of 32 (len need.now)) }
    ensures other_reads { B.reads b.new ≡ B.reads b.old + side_units (by_bytes m) (row_at need.now) (number_in m (A.units a.old)) (number_in m (B.units b.old)) (segments_of 32 (len need.now)) }
    ensures shape { SameShape out.new out.old }
    ensures rows { (j : ℕ) → row_at out.new j ≡ (row_at need.now j && code_compares op (number_in m (A.units a.old) j) (number_in m (B.units b.old) j)) }
{
    let words = need.words();
    for w in 0..words.len() {
        let low = segment(a, b, m, 2 * w, op, low_half(words[w]));
        let high = segment(a, b, m, 2 * w + 1, op, high_half(words[w]));
        out.put_word(w, joined(low, high));
    }
}

/// Scans slices of two columns of codes of `width` bits side by side: `out` becomes the needed rows whose codes satisfy
/// the comparison, that of `a` on the left. The number of units read of each is `side_units`: none of a segment of 32
/// rows in which no row is needed, and of each other segment as many slices as it takes until no needed row is left
/// whose codes might be equal. With m slices, unit q * m + i is slice i of segment q.
pub fn pair_from<A: Source<[u8; 32]>, B: Source<[u8; 32]>>(
    a: &mut A,
    b: &mut B,
    width: u32,
    op: CmpOp,
    need: &Mask,
    out: &mut Mask,
)
    requires narrow { width ≤ widest_code }
    requires few { len need.now ≤ 2 ^ 24 }
    requires out { len out.old ≡ len need.now }
    requires units { length (A.units a.old) ≡ segments_of 32 (len need.now) * slices_of width }
    requires other_units { length (B.units b.old) ≡ segments_of 32 (len need.now) * slices_of width }
    requires stored { AreStored width (A.units a.old) }
    requires other_stored { AreStored width (B.units b.old) }
    requires reads { A.reads a.old ≤ 2 ^ 62 }
    requires other_reads { B.reads b.old ≤ 2 ^ 62 }
    ensures units { A.units a.new ≡ A.units a.old }
    ensures other_units { B.units b.new ≡ B.units b.old }
    ensures reads { A.reads a.new ≡ A.reads a.old + side_units (by_slices width (slices_of width)) (row_at need.now) (code_in width (A.units a.old)) (code_in width (B.units b.old)) (segments_of 32 (len need.now)) }
    ensures other_reads { B.reads b.new ≡ B.reads b.old + side_units (by_slices width (slices_of width)) (row_at need.now) (code_in width (A.units a.old)) (code_in width (B.units b.old)) (segments_of 32 (len need.now)) }
    ensures shape { SameShape out.new out.old }
    ensures rows { (j : ℕ) → row_at out.new j ≡ (row_at need.now j && code_compares op (code_in width (A.units a.old) j) (code_in width (B.units b.old) j)) }
{
    pair_numbers(a, b, slices_of(width), op, need, out);
}
