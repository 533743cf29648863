//! Counts of the codes of some rows by digit.

ghost use Rattle.std.specs.Prelude.{Bool, List, count_by, drop, false, length, slice_index, sum, take, true, ℕ, ◌+◌, ◌<◌, ◌==◌, ◌^◌, ◌≡◌, ◌≤◌};
ghost use Rattle.std.specs.List.{items_where_true};
ghost use Rattle.bw_mask.specs.Masks.{bit_of, len, row_at};
ghost use Rattle.bw_code.specs.Columns.{code_at, count};
ghost use Rattle.bw_aggregate.specs.Descents.{front};
ghost use Rattle.bw_aggregate.specs.Digits.{IsAmong, front_count};
ghost use Rattle.bw_aggregate.specs.Runs.{IsRun};

use bw_code::CodeColumn;
use bw_mask::{Mask, has_bit};

/// The number of spare counters after those of the digits.
pub(crate) const SPARE: usize = 64;

/// Which bits of a code are its digit.
#[derive(Clone, Copy)]
pub(crate) struct Digits {
    /// The number of bits below the digit.
    pub(crate) below: u32,
    /// The code above those bits, for digit 0.
    pub(crate) first: u64,
    /// The number of possible digits.
    pub(crate) many: usize,
}

/// The counter for a row of a run: that of its code's digit, or a spare one after the digits if the row isn't selected.
// Without a branch, since which rows are selected is unpredictable. Each row has its own spare counter, so that no row
// waits for the previous one.
fn place_of(codes: &[u64], rows: u64, i: usize, digits: Digits) -> usize
    requires few { length codes.now ≤ 64 }
    requires there { i < length codes.now }
    requires below { digits.below < 64 }
    requires many { digits.many ≤ 2 ^ 11 }
    requires among { bit_of rows i ≡ true → IsAmong digits.below digits.first digits.many (slice_index codes.now i) }
    ensures is_in { bit_of rows i ≡ true → digits.first + result ≡ front digits.below (slice_index codes.now i) }
    ensures out { bit_of rows i ≡ false → digits.many ≤ result }
    ensures within { result < digits.many + 64 }
{
    let digit = (codes[i] >> digits.below).wrapping_sub(digits.first) as usize;
    if has_bit(rows, i) {
        digit
    } else {
        digits.many + i
    }
}

/// Counts each selected row of a run at the digit of its code. No count is above `before` at the start.
fn count_run(codes: &[u64], rows: u64, digits: Digits, before: usize, counts: &mut [u32])
    requires few { length codes.now ≤ 64 }
    requires below { digits.below < 64 }
    requires many { digits.many ≤ 2 ^ 11 }
    requires among { (i : ℕ) → i < length codes.now → bit_of rows i ≡ true → IsAmong digits.below digits.first digits.many (slice_index codes.now i) }
    requires long { length counts.old ≡ digits.many + 64 }
    requires before { before ≤ 2 ^ 24 }
    requires small { (k : ℕ) → slice_index counts.old k ≤ before }
    ensures long { length counts.new ≡ length counts.old }
    ensures small { (k : ℕ) → slice_index counts.new k ≤ before + length codes.now }
    ensures counted { (need : List Bool) (all : List ℕ) (at d : ℕ) → length need ≡ length all → codes.now ≡ take (length codes.now) (drop at all) → IsRun need at (length codes.now) rows → d < digits.many
        → slice_index counts.new d + front_count need all at digits.below (digits.first + d) ≡ slice_index counts.old d + front_count need all (at + length codes.now) digits.below (digits.first + d) }
{
    'codes: for i in 0..codes.len() {
        let place = place_of(codes, rows, i, digits);
        counts[place] += 1;
    }
}

/// Counts each selected row of the n rows from `at` on at the digit of its code. If none is selected, no code is read.
fn count_at<C: CodeColumn>(
    column: &C,
    at: usize,
    n: usize,
    rows: u64,
    digits: Digits,
    counts: &mut [u32],
)
    requires few { n ≤ 64 }
    requires inside { at + n ≤ count (C.seen column.now) }
    requires low { at ≤ 2 ^ 24 }
    requires below { digits.below < 64 }
    requires many { digits.many ≤ 2 ^ 11 }
    requires among { (i : ℕ) → i < n → bit_of rows i ≡ true → IsAmong digits.below digits.first digits.many (code_at (C.seen column.now) (at + i)) }
    requires long { length counts.old ≡ digits.many + 64 }
    requires small { (k : ℕ) → slice_index counts.old k ≤ at }
    ensures long { length counts.new ≡ length counts.old }
    ensures small { (k : ℕ) → slice_index counts.new k ≤ at + n }
    ensures counted { (need : List Bool) (d : ℕ) → length need ≡ count (C.seen column.now) → IsRun need at n rows → d < digits.many
        → slice_index counts.new d + front_count need (C.seen column.now).codes at digits.below (digits.first + d) ≡ slice_index counts.old d + front_count need (C.seen column.now).codes (at + n) digits.below (digits.first + d) }
{
    if rows == 0 {
        return;
    }
    let mut run = [0; 64];
    let codes = &mut run[..n];
    column.read(at, codes);
    count_run(codes, rows, digits, at, counts);
}

/// Counts the rows by the digits of their codes.
pub(crate) fn count_digits<C: CodeColumn>(
    column: &C,
    rows: &Mask,
    digits: Digits,
    counts: &mut [u32],
)
    requires len { len rows.now ≡ count (C.seen column.now) }
    requires below { digits.below < 64 }
    requires many { digits.many ≤ 2 ^ 11 }
    requires among { (r : ℕ) → r < count (C.seen column.now) → row_at rows.now r ≡ true → IsAmong digits.below digits.first digits.many (code_at (C.seen column.now) r) }
    requires long { length counts.old ≡ digits.many + 64 }
    requires none { (k : ℕ) → slice_index counts.old k ≡ 0 }
    ensures long { length counts.new ≡ length counts.old }
    ensures counted { (d : ℕ) → d < digits.many → slice_index counts.new d ≡ count_by (λ c. front digits.below c == digits.first + d) (items_where_true rows.now.rows (C.seen column.now).codes) }
{
    'runs: for q in 0..column.len().div_ceil(64) {
        let at = 64 * q;
        let n = (column.len() - at).min(64);
        count_at(column, at, n, rows.bits(at, 64), digits, counts);
    }
}

/// A digit, and the index of the wanted code among those with this digit.
#[derive(Clone, Copy)]
pub(crate) struct Place {
    pub(crate) digit: usize,
    pub(crate) rest: usize,
}

/// The digit of entry `nth` of some sorted codes; `counts` has the number of codes with each digit.
pub(crate) fn digit_of(counts: &[u32], nth: usize) -> Place
    requires there { nth < sum counts.now }
    ensures inside { result.digit < length counts.now }
    ensures before { sum (take result.digit counts.now) + result.rest ≡ nth }
    ensures there { result.rest < slice_index counts.now result.digit }
{
    let mut rest = nth;
    'digits: for digit in 0..counts.len() {
        let count = counts[digit] as usize;
        if rest < count {
            return Place { digit, rest };
        }
        rest -= count;
    }
    unreachable!()
}
