//! The least and the greatest code of some rows, found by descents over the planes of their segments, from the highest
//! bit on.

ghost use Rattle.std.specs.Prelude.{Bool, cond, length, true, ℕ, ◌*◌, ◌+◌, ◌<◌, ◌^◌, ◌≡◌, ◌≤◌};
ghost use Rattle.bw_mask.specs.Masks.{len as mask_len, row_at, row_in};
ghost use Rattle.bw_code.specs.Units.{some_below};
ghost use Rattle.bw_code.specs.Widths.{widest_code};
ghost use Rattle.bw_vertical.specs.Descents.{AreCodeEnds, AreEndsSoFar, IsGreatestSoFar, IsGreatestWith, IsLeastSoFar, IsLeastWith};
ghost use Rattle.bw_vertical.specs.Storage.{AreGroups, HasSegment, code_of, groups_of, lists};

use crate::code_ends::CodeEnds;
use crate::rows::{both, is_empty, lanes_at, without};
use crate::storage::plane_at;
use bw_mask::Mask;

/// Of the numbers that the first planes make, one for each row: the least or the greatest, and the rows that have it.
#[derive(Clone, Copy)]
struct Reached {
    number: u64,
    rows: [u64; 4],
}

impl Reached {
    /// The least with one more plane.
    fn less(self, plane: &[u64; 4]) -> Reached
        requires { self.number < 2 ^ 63 }
        ensures least { (has : ℕ → Bool) (code next : ℕ → ℕ) → ((r : ℕ) → r < 256 → has r ≡ true → next r ≡ cond (row_in plane.now r) 1 0 + 2 * code r) → IsLeastSoFar has code self → IsLeastSoFar has next result }
        ensures short { result.number ≤ 2 * self.number + 1 }
    {
        let left = without(&self.rows, plane);
        if is_empty(&left) {
            Reached {
                number: 2 * self.number + 1,
                rows: self.rows,
            }
        } else {
            Reached {
                number: 2 * self.number,
                rows: left,
            }
        }
    }

    /// The greatest with one more plane.
    fn greater(self, plane: &[u64; 4]) -> Reached
        requires { self.number < 2 ^ 63 }
        ensures greatest { (has : ℕ → Bool) (code next : ℕ → ℕ) → ((r : ℕ) → r < 256 → has r ≡ true → next r ≡ cond (row_in plane.now r) 1 0 + 2 * code r) → IsGreatestSoFar has code self → IsGreatestSoFar has next result }
        ensures short { result.number ≤ 2 * self.number + 1 }
    {
        let left = both(&self.rows, plane);
        if is_empty(&left) {
            Reached {
                number: 2 * self.number,
                rows: self.rows,
            }
        } else {
            Reached {
                number: 2 * self.number + 1,
                rows: left,
            }
        }
    }
}

/// The least of `best` and of the codes of these rows of segment q, at least one.
fn least_in(groups: &[Vec<[u64; 4]>], k: usize, q: usize, rows: &[u64; 4], best: u64) -> u64
    requires narrow { k ≤ widest_code }
    requires small { q < 2 ^ 32 }
    requires count { length groups.now ≡ groups_of k }
    requires there { HasSegment k (lists groups.now) q }
    requires some { some_below 256 (row_in rows.now) ≡ true }
    ensures { IsLeastWith (row_in rows.now) (λ r. code_of k (lists groups.now) (256 * q + r)) best result }
{
    let mut reached = Reached {
        number: 0,
        rows: *rows,
    };
    'planes: for p in 0..k {
        reached = reached.less(plane_at(groups, k, q, p));
        // Whatever the lower planes are, no code here is less than the best.
        if reached.number > best >> (k - 1 - p) {
            return best;
        }
    }
    reached.number.min(best)
}

/// The greatest of `best` and of the codes of these rows of segment q, at least one.
fn greatest_in(groups: &[Vec<[u64; 4]>], k: usize, q: usize, rows: &[u64; 4], best: u64) -> u64
    requires narrow { k ≤ widest_code }
    requires small { q < 2 ^ 32 }
    requires count { length groups.now ≡ groups_of k }
    requires there { HasSegment k (lists groups.now) q }
    requires some { some_below 256 (row_in rows.now) ≡ true }
    ensures { IsGreatestWith (row_in rows.now) (λ r. code_of k (lists groups.now) (256 * q + r)) best result }
{
    let mut reached = Reached {
        number: 0,
        rows: *rows,
    };
    'planes: for p in 0..k {
        reached = reached.greater(plane_at(groups, k, q, p));
        // Whatever the lower planes are, no code here is greater than the best.
        if reached.number < best >> (k - 1 - p) {
            return best;
        }
    }
    reached.number.max(best)
}

/// The ends of the codes of the segments before q, and of those of these rows of segment q.
fn with_segment(
    groups: &[Vec<[u64; 4]>],
    k: usize,
    q: usize,
    rows: &[u64; 4],
    ends: CodeEnds,
) -> CodeEnds
    requires narrow { k ≤ widest_code }
    requires small { q < 2 ^ 32 }
    requires count { length groups.now ≡ groups_of k }
    requires there { HasSegment k (lists groups.now) q }
    ensures { (has : ℕ → Bool) → ((r : ℕ) → r < 256 → row_in rows.now r ≡ has (256 * q + r)) → AreEndsSoFar has (code_of k (lists groups.now)) (256 * q) ends
        → AreEndsSoFar has (code_of k (lists groups.now)) (256 * q + 256) result }
{
    if is_empty(rows) {
        return ends;
    }
    CodeEnds {
        any: true,
        least: least_in(groups, k, q, rows, ends.least),
        greatest: greatest_in(groups, k, q, rows, ends.greatest),
    }
}

/// The ends of the codes of these rows.
pub(crate) fn code_ends(groups: &[Vec<[u64; 4]>], k: usize, len: usize, rows: &Mask) -> CodeEnds
    requires planes { AreGroups k (lists groups.now) len }
    requires rows { mask_len rows.now ≡ len }
    ensures { AreCodeEnds (row_at rows.now) (code_of k (lists groups.now)) len result }
{
    let words = rows.words();
    // Any code is as little as the one and as great as the other, so these stop no descent.
    let mut ends = CodeEnds {
        any: false,
        least: u64::MAX,
        greatest: 0,
    };
    'segments: for q in 0..len.div_ceil(256) {
        ends = with_segment(groups, k, q, &lanes_at(words, q), ends);
    }
    ends
}
