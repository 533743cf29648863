//! The least and the greatest code of a block of rows, found by a descent over the bytes of their planes.

ghost use Rattle.std.specs.Prelude.{Bool, cond, false, length, true, ℕ, ◌*◌, ◌+◌, ◌/◌, ◌<◌, ◌^◌, ◌≡◌, ◌≤◌};
ghost use Rattle.bw_code.specs.Widths.{widest_code};
ghost use Rattle.bw_file.specs.Descents.{bit_at_row, IsGreatestSoFar, IsLeastSoFar};
ghost use Rattle.bw_file.specs.Planes.{code_in};
ghost use Rattle.bw_vertical.specs.Descents.{AreCodeEnds};

use crate::block::{BLOCK, has_row, has_row_with, has_row_without, keep_with, keep_without};
use bw_vertical::CodeEnds;

/// Of the numbers that the first planes make, one for each row of a block: the least or the greatest, and the rows that
/// have it.
#[derive(Clone, Copy)]
struct Reached {
    number: u64,
    rows: [u8; BLOCK],
}

impl Reached {
    /// The least with one more plane, whose bits are `plane`.
    fn less(&mut self, plane: &[u8])
        requires low { self.old.number < 2 ^ 63 }
        requires few { length plane.now ≤ 512 }
        requires within { (r : ℕ) → length plane.now ≤ r / 8 → bit_at_row self.old.rows r ≡ false }
        ensures least { (has : ℕ → Bool) (code next : ℕ → ℕ) → ((r : ℕ) → has r ≡ true → next r ≡ cond (bit_at_row plane.now r) 1 0 + 2 * code r) → IsLeastSoFar has code self.old.number self.old.rows → IsLeastSoFar has next self.new.number self.new.rows }
        ensures short { self.new.number ≤ 2 * self.old.number + 1 }
    {
        if has_row_without(&self.rows, plane) {
            keep_without(&mut self.rows, plane);
            self.number *= 2;
        } else {
            self.number = 2 * self.number + 1;
        }
    }

    /// The greatest with one more plane, whose bits are `plane`.
    fn greater(&mut self, plane: &[u8])
        requires low { self.old.number < 2 ^ 63 }
        requires few { length plane.now ≤ 512 }
        requires within { (r : ℕ) → length plane.now ≤ r / 8 → bit_at_row self.old.rows r ≡ false }
        ensures greatest { (has : ℕ → Bool) (code next : ℕ → ℕ) → ((r : ℕ) → has r ≡ true → next r ≡ cond (bit_at_row plane.now r) 1 0 + 2 * code r) → IsGreatestSoFar has code self.old.number self.old.rows → IsGreatestSoFar has next self.new.number self.new.rows }
        ensures short { self.new.number ≤ 2 * self.old.number + 1 }
    {
        if has_row_with(&self.rows, plane) {
            keep_with(&mut self.rows, plane);
            self.number = 2 * self.number + 1;
        } else {
            self.number *= 2;
        }
    }
}

/// The least of `best` and of the codes of k bits of those rows of a block that are non-null, at least one. Each plane
/// has `size` bytes, and its byte `from` is the first of the block.
fn least_in(
    planes: &[u8],
    size: usize,
    k: usize,
    from: usize,
    there: &[u8; BLOCK],
    best: u64,
) -> u64
    requires narrow { k ≤ widest_code }
    requires short { size ≤ 2 ^ 24 }
    requires inside { from ≤ size }
    requires planes { length planes.now ≡ k * size }
    requires within { (r : ℕ) → size ≤ from + r / 8 → bit_at_row there.now r ≡ false }
    requires some { (r : ℕ) × (bit_at_row there.now r ≡ true) }
    ensures most { result ≤ best }
    ensures bound { (r : ℕ) → bit_at_row there.now r ≡ true → result ≤ code_in k size planes.now (8 * from + r) }
    ensures reached { result < best → (r : ℕ) × (bit_at_row there.now r ≡ true) × (code_in k size planes.now (8 * from + r) ≡ result) }
{
    let n = (size - from).min(BLOCK);
    let mut reached = Reached {
        number: 0,
        rows: *there,
    };
    'planes: for p in 0..k {
        let first = p * size + from;
        reached.less(&planes[first..first + n]);
        // Whatever the lower planes are, no row of the block has a lower code than the best.
        if reached.number > best >> (k - 1 - p) {
            return best;
        }
    }
    reached.number.min(best)
}

/// The greatest of `best` and of the codes of k bits of those rows of a block that are non-null, at least one. Each
/// plane has `size` bytes, and its byte `from` is the first of the block.
fn greatest_in(
    planes: &[u8],
    size: usize,
    k: usize,
    from: usize,
    there: &[u8; BLOCK],
    best: u64,
) -> u64
    requires narrow { k ≤ widest_code }
    requires short { size ≤ 2 ^ 24 }
    requires inside { from ≤ size }
    requires planes { length planes.now ≡ k * size }
    requires within { (r : ℕ) → size ≤ from + r / 8 → bit_at_row there.now r ≡ false }
    requires some { (r : ℕ) × (bit_at_row there.now r ≡ true) }
    ensures least { best ≤ result }
    ensures bound { (r : ℕ) → bit_at_row there.now r ≡ true → code_in k size planes.now (8 * from + r) ≤ result }
    ensures reached { best < result → (r : ℕ) × (bit_at_row there.now r ≡ true) × (code_in k size planes.now (8 * from + r) ≡ result) }
{
    let n = (size - from).min(BLOCK);
    let mut reached = Reached {
        number: 0,
        rows: *there,
    };
    'planes: for p in 0..k {
        let first = p * size + from;
        reached.greater(&planes[first..first + n]);
        // Whatever the lower planes are, no row of the block has a greater code than the best.
        if reached.number < best >> (k - 1 - p) {
            return best;
        }
    }
    reached.number.max(best)
}

/// The ends of the codes so far and of the codes of k bits of those rows of a block that are non-null. Each plane has
/// `size` bytes, and its byte `from` is the first of the block.
pub(crate) fn ends_with_block(
    ends: CodeEnds,
    planes: &[u8],
    size: usize,
    k: usize,
    from: usize,
    there: &[u8; BLOCK],
) -> CodeEnds
    requires narrow { k ≤ widest_code }
    requires short { size ≤ 2 ^ 24 }
    requires inside { from ≤ size }
    requires planes { length planes.now ≡ k * size }
    requires within { (r : ℕ) → size ≤ from + r / 8 → bit_at_row there.now r ≡ false }
    ensures { (has : ℕ → Bool) (code : ℕ → ℕ) (n : ℕ) → ((r : ℕ) → r < 4096 → has (n + r) ≡ bit_at_row there.now r) → ((r : ℕ) → r < 4096 → code (n + r) ≡ code_in k size planes.now (8 * from + r))
        → AreCodeEnds has code n ends → AreCodeEnds has code (n + 4096) result }
{
    if !has_row(there) {
        return ends;
    }
    // Where there is no code so far, any is less than the one and at least the other.
    let least = if ends.any { ends.least } else { u64::MAX };
    let greatest = if ends.any { ends.greatest } else { 0 };
    CodeEnds {
        any: true,
        least: least_in(planes, size, k, from, there, least),
        greatest: greatest_in(planes, size, k, from, there, greatest),
    }
}
