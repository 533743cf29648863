//! Comparing columns of kind OFFSET with different bases without fetching values: the difference of the bases is added
//! to the codes of the column with the higher base, and the sums are compared with the codes of the other, plane by
//! plane from the lowest up.

ghost use Rattle.std.specs.Prelude.{if◌then◌else◌, length, min, nat_le, nat_lt, not, pos, ℕ, ◌&&◌, ◌*◌, ◌+◌, ◌+ℤ◌, ◌-◌, ◌<◌, ◌==◌, ◌^◌, ◌≡◌, ◌≤◌, ◌⊎◌};
ghost use Rattle.bw_mask.specs.Masks.{SameShape, bit_of, len, row_at, row_in};
ghost use Rattle.bw_code.specs.Choosing.{by_masks};
ghost use Rattle.bw_code.specs.Tests.{code_compares, int_compares};
ghost use Rattle.bw_code.specs.Units.{segments_of, some_below};
ghost use Rattle.bw_code.specs.Widths.{widest_code};
ghost use Rattle.bw_code.specs.declared.compare.CmpOp.{CmpOp as Op};
ghost use Rattle.bw_vertical.specs.Carries.{AreCompared};
ghost use Rattle.bw_vertical.specs.Planes.{code_in};

use crate::rows::{both, differing, either, lanes_at, put_lanes, without};
use crate::scan::chosen;
use bw_code::{CmpOp, Offset, Source};
use bw_lane::{add_const_step, low_first_step};
use bw_mask::{Mask, has_bit};

/// What is added to the codes of two columns so that the sums compare as the values do: to each, the amount by which
/// its base is above the lower one.
#[derive(Clone, Copy)]
struct Lifts {
    left: u64,
    right: u64,
}

impl Lifts {
    fn of(left: i64, right: i64) -> Lifts
        ensures order { (op : Op) (x y : ℕ) → int_compares op (left +ℤ pos x) (right +ℤ pos y) ≡ code_compares op (x + result.left) (y + result.right) }
        ensures lower { (result.left ≡ 0) ⊎ (result.right ≡ 0) }
    {
        let lower = left.min(right);
        Lifts {
            left: left.abs_diff(lower),
            right: right.abs_diff(lower),
        }
    }
}

/// Whether a number has a bit set above its n lowest bits.
fn is_longer(number: u64, n: usize) -> bool
    requires { n ≤ 64 }
    ensures { result ≡ nat_le (2 ^ n) number }
{
    n < 64 && number >> n != 0
}

/// How sums compare with other numbers in 256 rows, by their lowest bits alone.
#[derive(Clone, Copy)]
struct LowBits {
    /// Where the addition carries out of these bits.
    carry: [u64; 4],
    /// Where the sum is below the other number.
    lt: [u64; 4],
    /// Where the two differ.
    differ: [u64; 4],
}

impl LowBits {
    /// By no bits: all are equal.
    fn none() -> LowBits
        ensures { (j x lift y : ℕ) → j < 256 → AreCompared x lift y 0 (row_in result.carry j) (row_in result.lt j) (row_in result.differ j) }
    {
        LowBits {
            carry: [0; 4],
            lt: [0; 4],
            differ: [0; 4],
        }
    }

    /// Includes bit n: `a` and `b` are its planes, and `bit` is that bit of what is added to the numbers of `a`.
    // If not inlined, each call would keep the three masks in memory.
    #[inline(always)]
    fn and_plane(self, a: &[u64; 4], bit: bool, b: &[u64; 4]) -> LowBits
        ensures { (j x lift y n : ℕ) → j < 256 → row_in a.now j ≡ bit_of x n → bit ≡ bit_of lift n → row_in b.now j ≡ bit_of y n
            → AreCompared x lift y n (row_in self.carry j) (row_in self.lt j) (row_in self.differ j)
            → AreCompared x lift y (n + 1) (row_in result.carry j) (row_in result.lt j) (row_in result.differ j) }
    {
        let (mut sum, mut carry, mut lt) = (*a, self.carry, self.lt);
        add_const_step(&mut sum, &mut carry, bit);
        low_first_step(&mut lt, &sum, b);
        let differ = either(&self.differ, &differing(&sum, b));
        LowBits { carry, lt, differ }
    }

    /// Where the sum with a number of n bits, which have been compared, has a bit above those.
    fn past(self, lift: u64, n: usize) -> [u64; 4]
        requires few { n ≤ 64 }
        ensures { (j x y : ℕ) → j < 256 → x < 2 ^ n → AreCompared x lift y n (row_in self.carry j) (row_in self.lt j) (row_in self.differ j)
            → row_in result j ≡ nat_le (2 ^ n) (x + lift) }
    {
        if is_longer(lift, n) {
            [u64::MAX; 4]
        } else {
            self.carry
        }
    }

    /// Where the whole sums are below the other numbers, and where the two differ. The numbers are of n bits, all of
    /// which have been compared.
    fn whole(self, lift: u64, n: usize) -> ([u64; 4], [u64; 4])
        requires few { n ≤ 64 }
        ensures less { (j x y : ℕ) → j < 256 → x < 2 ^ n → y < 2 ^ n → AreCompared x lift y n (row_in self.carry j) (row_in self.lt j) (row_in self.differ j)
            → row_in result.0 j ≡ nat_lt (x + lift) y }
        ensures differ { (j x y : ℕ) → j < 256 → x < 2 ^ n → y < 2 ^ n → AreCompared x lift y n (row_in self.carry j) (row_in self.lt j) (row_in self.differ j)
            → row_in result.1 j ≡ not (x + lift == y) }
    {
        let past = self.past(lift, n);
        (without(&self.lt, &past), either(&self.differ, &past))
    }
}

/// Plane n, counted from the lowest, of the codes of segment q. For a bit above the width of the codes all rows are 0,
/// and nothing is read.
#[inline(always)]
fn low_plane<S: Source<[u64; 4]>>(source: &mut S, k: usize, q: usize, n: usize) -> [u64; 4]
    requires narrow { k ≤ widest_code }
    requires small { q < 2 ^ 32 }
    requires there { (q + 1) * k ≤ length (S.units source.old) }
    requires few { S.reads source.old + (if nat_lt n k then 1 else 0) ≤ 2 ^ 63 }
    ensures units { S.units source.new ≡ S.units source.old }
    ensures reads { S.reads source.new ≡ S.reads source.old + (if nat_lt n k then 1 else 0) }
    ensures rows { (j : ℕ) → j < 256 → row_in result j ≡ bit_of (code_in k (S.units source.old) (256 * q + j)) n }
{
    if n < k {
        source.read(q * k + (k - 1 - n))
    } else {
        [0; 4]
    }
}

/// The planes of bits n to n + 3, counted from the lowest, of the codes of segment q. Planes are read fastest from the
/// highest down, so four are read in that order and returned in the opposite one.
#[inline(always)]
fn low_planes<S: Source<[u64; 4]>>(
    source: &mut S,
    k: usize,
    q: usize,
    n: usize,
) -> ([u64; 4], [u64; 4], [u64; 4], [u64; 4])
    requires narrow { k ≤ widest_code }
    requires bit { n ≤ 64 }
    requires small { q < 2 ^ 32 }
    requires there { (q + 1) * k ≤ length (S.units source.old) }
    requires few { S.reads source.old + min 4 (k - n) ≤ 2 ^ 63 }
    ensures units { S.units source.new ≡ S.units source.old }
    ensures reads { S.reads source.new ≡ S.reads source.old + min 4 (k - n) }
    ensures first { (j : ℕ) → j < 256 → row_in result.0 j ≡ bit_of (code_in k (S.units source.old) (256 * q + j)) n }
    ensures second { (j : ℕ) → j < 256 → row_in result.1 j ≡ bit_of (code_in k (S.units source.old) (256 * q + j)) (n + 1) }
    ensures third { (j : ℕ) → j < 256 → row_in result.2 j ≡ bit_of (code_in k (S.units source.old) (256 * q + j)) (n + 2) }
    ensures fourth { (j : ℕ) → j < 256 → row_in result.3 j ≡ bit_of (code_in k (S.units source.old) (256 * q + j)) (n + 3) }
{
    if n + 4 <= k {
        let unit = q * k + (k - 4 - n);
        let fourth = source.read(unit);
        let third = source.read(unit + 1);
        let second = source.read(unit + 2);
        let first = source.read(unit + 3);
        (first, second, third, fourth)
    } else {
        let first = low_plane(source, k, q, n);
        let second = low_plane(source, k, q, n + 1);
        let third = low_plane(source, k, q, n + 2);
        (first, second, third, [0; 4])
    }
}

/// The rows of segment q whose code in `a` with `lift` added is below the code in `b`, and those where the two differ.
fn compare_lifted<A: Source<[u64; 4]>, B: Source<[u64; 4]>>(
    a: &mut A,
    width: usize,
    lift: u64,
    b: &mut B,
    other: usize,
    q: usize,
) -> ([u64; 4], [u64; 4])
    requires narrow { width ≤ widest_code }
    requires other_narrow { other ≤ widest_code }
    requires small { q < 2 ^ 32 }
    requires there { (q + 1) * width ≤ length (A.units a.old) }
    requires other_there { (q + 1) * other ≤ length (B.units b.old) }
    requires few { A.reads a.old + width ≤ 2 ^ 63 }
    requires other_few { B.reads b.old + other ≤ 2 ^ 63 }
    ensures units { A.units a.new ≡ A.units a.old }
    ensures other_units { B.units b.new ≡ B.units b.old }
    ensures reads { A.reads a.new ≡ A.reads a.old + width }
    ensures other_reads { B.reads b.new ≡ B.reads b.old + other }
    ensures less { (j : ℕ) → j < 256 → row_in result.0 j
        ≡ nat_lt (code_in width (A.units a.old) (256 * q + j) + lift) (code_in other (B.units b.old) (256 * q + j)) }
    ensures differ { (j : ℕ) → j < 256 → row_in result.1 j
        ≡ not (code_in width (A.units a.old) (256 * q + j) + lift == code_in other (B.units b.old) (256 * q + j)) }
{
    let groups = width.max(other).div_ceil(4);
    let mut low = LowBits::none();
    for g in 0..groups {
        let n = 4 * g;
        let x = low_planes(a, width, q, n);
        let y = low_planes(b, other, q, n);
        let one = low.and_plane(&x.0, has_bit(lift, n), &y.0);
        let two = one.and_plane(&x.1, has_bit(lift, n + 1), &y.1);
        let three = two.and_plane(&x.2, has_bit(lift, n + 2), &y.2);
        low = three.and_plane(&x.3, has_bit(lift, n + 3), &y.3);
    }
    low.whole(lift, 4 * groups)
}

/// The rows of segment q whose first sum is below the second one, and those where the sums differ. One of the two
/// columns has nothing added, so its planes are compared as they are.
fn compare_sums<A: Source<[u64; 4]>, B: Source<[u64; 4]>>(
    a: &mut A,
    width: usize,
    b: &mut B,
    other: usize,
    q: usize,
    lifts: Lifts,
) -> ([u64; 4], [u64; 4])
    requires narrow { width ≤ widest_code }
    requires other_narrow { other ≤ widest_code }
    requires lower { (lifts.left ≡ 0) ⊎ (lifts.right ≡ 0) }
    requires small { q < 2 ^ 32 }
    requires there { (q + 1) * width ≤ length (A.units a.old) }
    requires other_there { (q + 1) * other ≤ length (B.units b.old) }
    requires few { A.reads a.old + width ≤ 2 ^ 63 }
    requires other_few { B.reads b.old + other ≤ 2 ^ 63 }
    ensures units { A.units a.new ≡ A.units a.old }
    ensures other_units { B.units b.new ≡ B.units b.old }
    ensures reads { A.reads a.new ≡ A.reads a.old + width }
    ensures other_reads { B.reads b.new ≡ B.reads b.old + other }
    ensures less { (j : ℕ) → j < 256 → row_in result.0 j
        ≡ nat_lt (code_in width (A.units a.old) (256 * q + j) + lifts.left) (code_in other (B.units b.old) (256 * q + j) + lifts.right) }
    ensures differ { (j : ℕ) → j < 256 → row_in result.1 j
        ≡ not (code_in width (A.units a.old) (256 * q + j) + lifts.left == code_in other (B.units b.old) (256 * q + j) + lifts.right) }
{
    if lifts.left == 0 {
        let (gt, differ) = compare_lifted(b, other, lifts.right, a, width, q);
        (without(&differ, &gt), differ)
    } else {
        compare_lifted(a, width, lifts.left, b, other, q)
    }
}

/// The needed rows that satisfy the comparison, by those whose first sum is below the second one, and those where the
/// sums differ.
fn chosen_of_sums(op: CmpOp, need: &[u64; 4], lt: &[u64; 4], differ: &[u64; 4]) -> [u64; 4]
    ensures { (j : ℕ) → j < 256 → row_in result j ≡ by_masks op (row_in need.now j) (row_in need.now j && row_in lt.now j) (row_in need.now j && not (row_in differ.now j)) }
{
    chosen(op, need, &both(need, lt), &without(need, differ))
}

/// Compares the values of two columns of kind OFFSET over their planes: `out` becomes the needed rows where the first
/// base plus the first code compares as `op` says with the second base plus the second code. If any row is needed, each
/// unit of both is read once, else none. Unit q * width + i is plane i of segment q.
pub fn add_from<A: Source<[u64; 4]>, B: Source<[u64; 4]>>(
    a: &mut A,
    left: Offset,
    b: &mut B,
    right: Offset,
    op: CmpOp,
    need: &Mask,
    out: &mut Mask,
)
    requires narrow { left.width ≤ widest_code }
    requires other_narrow { right.width ≤ widest_code }
    requires few { len need.now ≤ 2 ^ 24 }
    requires out { len out.old ≡ len need.now }
    requires units { length (A.units a.old) ≡ segments_of 256 (len need.now) * left.width }
    requires other_units { length (B.units b.old) ≡ segments_of 256 (len need.now) * right.width }
    requires reads { A.reads a.old ≤ 2 ^ 62 }
    requires other_reads { B.reads b.old ≤ 2 ^ 62 }
    ensures units { A.units a.new ≡ A.units a.old }
    ensures other_units { B.units b.new ≡ B.units b.old }
    ensures reads { A.reads a.new ≡ A.reads a.old + (if some_below (len need.now) (row_at need.now) then segments_of 256 (len need.now) * left.width else 0) }
    ensures other_reads { B.reads b.new ≡ B.reads b.old + (if some_below (len need.now) (row_at need.now) then segments_of 256 (len need.now) * right.width else 0) }
    ensures shape { SameShape out.new out.old }
    ensures rows { (i : ℕ) → row_at out.new i ≡ (row_at need.now i
        && int_compares op (left.base +ℤ pos (code_in left.width (A.units a.old) i)) (right.base +ℤ pos (code_in right.width (B.units b.old) i))) }
{
    if !need.any() {
        out.and_in(need);
        return;
    }
    let (width, other) = (left.width as usize, right.width as usize);
    let lifts = Lifts::of(left.base, right.base);
    let words = need.words();
    for q in 0..need.len().div_ceil(256) {
        let (lt, differ) = compare_sums(a, width, b, other, q, lifts);
        put_lanes(
            out,
            q,
            &chosen_of_sums(op, &lanes_at(words, q), &lt, &differ),
        );
    }
}
