//! Finds one entry of the sorted codes of some rows, digit by digit from the top.

ghost use Rattle.std.specs.Prelude.{IfOk, length, true, vec_len, ℕ, ◌&&◌, ◌*◌, ◌+◌, ◌<◌, ◌==◌, ◌^◌, ◌≡◌, ◌≤◌};
ghost use Rattle.std.specs.List.{items_where_true};
ghost use Rattle.bw_mask.specs.Masks.{MaskRows, len, row_at};
ghost use Rattle.bw_code.specs.Columns.{code_at, count};
ghost use Rattle.bw_code.specs.Widths.{widest_code};
ghost use Rattle.bw_aggregate.specs.Descents.{IsNthCode, IsRest, begin_count, front};
ghost use Rattle.bw_aggregate.specs.Digits.{AreLeft};

use crate::digits::{Digits, SPARE, count_digits, digit_of};
use bw_code::{CodeColumn, CodeTest, Meter};
use bw_mask::Mask;
use std::alloc::{AllocError, Global};

/// The largest number of bits of a digit. The counts for so many digits fit the L1 cache.
const DIGIT_BITS: u32 = 11;

/// The number of digits of `DIGIT_BITS` bits.
const MOST_DIGITS: usize = 2048;

/// The bits found so far of the wanted code, the number of bits below them, and the code's index among those that begin
/// with these bits.
#[derive(Clone, Copy)]
struct Way {
    found: u64,
    below: u32,
    rest: usize,
}

/// The number of digits of `bits` bits.
fn digits_of(bits: u32) -> usize
    requires { bits ≤ 11 }
    ensures is { result ≡ 2 ^ bits }
    ensures most { result ≤ 2 ^ 11 }
{
    1 << bits
}

/// The number of codes that begin with the same bits, with `bits` bits below them.
fn codes_below(bits: u32) -> u64
    requires { bits < 64 }
    ensures { result ≡ 2 ^ bits }
{
    1 << bits
}

/// Goes one digit further. The rows are those whose code begins with the bits found so far.
fn next_digit<C: CodeColumn>(column: &C, left: &Mask, way: Way, counts: &mut Vec<u32>) -> Way
    requires narrow { (C.seen column.now).width ≤ widest_code }
    requires len { len left.now ≡ count (C.seen column.now) }
    requires some { 0 < way.below }
    requires small { (way.found + 1) * 2 ^ way.below ≤ 2 ^ (C.seen column.now).width }
    requires below { way.below ≤ (C.seen column.now).width }
    requires begin { (r : ℕ) → r < count (C.seen column.now) → row_at left.now r ≡ true → front way.below (code_at (C.seen column.now) r) ≡ way.found }
    requires there { way.rest < begin_count (items_where_true left.now.rows (C.seen column.now).codes) way.below way.found }
    requires long { vec_len counts.old ≡ 2048 + 64 }
    ensures long { vec_len counts.new ≡ 2048 + 64 }
    ensures nearer { result.below < way.below }
    ensures small { (result.found + 1) * 2 ^ result.below ≤ 2 ^ (C.seen column.now).width }
    ensures rest { (rows : MaskRows) (n : ℕ) → AreLeft rows (C.seen column.now).codes way.below way.found left.now → IsRest (items_where_true rows.rows (C.seen column.now).codes) n way.below way.rest way.found
        → IsRest (items_where_true rows.rows (C.seen column.now).codes) n result.below result.rest result.found }
    ensures within { (rows : MaskRows) (r : ℕ) → AreLeft rows (C.seen column.now).codes way.below way.found left.now → (row_at left.now r && (front result.below (code_at (C.seen column.now) r) == result.found)) ≡ (row_at rows r && (front result.below (code_at (C.seen column.now) r) == result.found)) }
{
    let bits = way.below.min(DIGIT_BITS);
    let below = way.below - bits;
    let many = digits_of(bits);
    let first = way.found * many as u64;
    let digits = Digits { below, first, many };
    let counts = &mut counts.as_mut_slice()[..many + SPARE];
    counts.fill(0);
    count_digits(column, left, digits, counts);
    let place = digit_of(&counts[..many], way.rest);
    Way {
        found: first + place.digit as u64,
        below,
        rest: place.rest,
    }
}

/// The rows whose code begins with the bits found so far.
fn rows_on_way<C: CodeColumn>(
    alloc: Global,
    column: &C,
    rows: &Mask,
    way: Way,
) -> Result<Mask, AllocError>
    requires narrow { (C.seen column.now).width ≤ widest_code }
    requires len { len rows.now ≡ count (C.seen column.now) }
    requires below { way.below < 64 }
    requires small { (way.found + 1) * 2 ^ way.below ≤ 2 ^ (C.seen column.now).width }
    ensures len { IfOk result (λ left. len left ≡ len rows.now) }
    ensures rows { IfOk result (λ left. (r : ℕ) → row_at left r ≡ (row_at rows.now r && (front way.below (code_at (C.seen column.now) r) == way.found))) }
{
    let size = codes_below(way.below);
    let low = way.found * size;
    let high = low + (size - 1);
    let mut left = Mask::filled(alloc, column.len(), false)?;
    column.scan(
        CodeTest::Range(low, high),
        rows,
        &mut left,
        &mut Meter::new(),
    );
    Ok(left)
}

/// Entry `n` of the sorted codes of the rows. There are more than `n` rows.
pub(crate) fn nth_code<C: CodeColumn>(
    alloc: Global,
    column: &C,
    rows: &Mask,
    nth: usize,
) -> Result<u64, AllocError>
    requires narrow { (C.seen column.now).width ≤ widest_code }
    requires len { len rows.now ≡ count (C.seen column.now) }
    requires there { nth < length (items_where_true rows.now.rows (C.seen column.now).codes) }
    ensures { IfOk result (IsNthCode (items_where_true rows.now.rows (C.seen column.now).codes) nth) }
{
    let mut counts = Vec::from_elem(alloc, 0, MOST_DIGITS + SPARE)?;
    let mut left = rows.try_clone()?;
    let mut way = Way {
        found: 0,
        below: column.width(),
        rest: nth,
    };
    'digits: while way.below > 0 {
        way = next_digit(column, &left, way, &mut counts);
        if way.below > 0 {
            left = rows_on_way(alloc, column, &left, way)?;
        }
    }
    Ok(way.found)
}
