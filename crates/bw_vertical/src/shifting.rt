//! Rebasing codes in place: a constant is added to those of some rows, plane by plane from the lowest up.

ghost use Rattle.std.specs.Int.{bit_at};
ghost use Rattle.std.specs.Prelude.{[], if◌then◌else◌, slice_index, slice_index_or, vec_capacity, vec_len, ℕ, ◌%◌, ◌&&◌, ◌*◌, ◌+◌, ◌-◌, ◌/◌, ◌<◌, ◌^◌, ◌≡◌, ◌≢◌, ◌≤◌};
ghost use Rattle.bw_mask.specs.Masks.{bit_of, len as mask_len, row_at, row_in};
ghost use Rattle.bw_code.specs.Widths.{widest_code};
ghost use Rattle.bw_vertical.specs.Carries.{HoldBits, carried, lane_bit};
ghost use Rattle.bw_vertical.specs.Planes.{code_by};
ghost use Rattle.bw_vertical.specs.Storage.{AreGroups, HasSegment, KeepsSizes, code_of, groups_of, is_set, lists, word_of};

use crate::rows::lanes_at;
use bw_mask::{Mask, has_bit};
use std::simd::prelude::*;

/// Adds two bits and the carry from the plane below in each of 64 rows: returns the bits of the sums, and the carry to
/// the plane above.
fn add_bits(a: u64, b: u64, carry: u64) -> (u64, u64)
    ensures { (r : ℕ) → r < 64 → bit_at result.0 r + 2 * bit_at result.1 r ≡ bit_at a r + bit_at b r + bit_at carry r }
{
    let either = a ^ b;
    (either ^ carry, a & b | either & carry)
}

/// The rows if bit n of the number is set, else none.
pub(crate) fn rows_where(rows: u64, number: u64, n: usize) -> u64
    requires { n < 64 }
    ensures { (r : ℕ) → r < 64 → bit_at result r ≡ bit_at (if bit_of rows r then number else 0) n }
{
    if has_bit(number, n) { rows } else { 0 }
}

/// These 256 rows if bit n of the number is set, else none.
#[inline(always)]
pub(crate) fn lanes_where(rows: &[u64; 4], number: u64, n: usize) -> [u64; 4]
    requires { n < 64 }
    ensures { (j : ℕ) → j < 256 → row_in result j ≡ (row_in rows.now j && bit_of number n) }
{
    if has_bit(number, n) { *rows } else { [0; 4] }
}

/// Adds the bits of a plane, those of these rows and the carry from the plane below. The plane becomes the bits of the
/// sums, and `carry` the carry to the plane above.
#[inline(always)]
pub(crate) fn add_to_plane(plane: &mut [u64; 4], rows: &[u64; 4], carry: &mut [u64; 4])
    ensures { (j : ℕ) → j < 256 → lane_bit plane.new j + 2 * lane_bit carry.new j ≡ lane_bit plane.old j + lane_bit rows.now j + lane_bit carry.old j }
{
    let (a, b, c) = (
        u64x4::from_array(*plane),
        u64x4::from_array(*rows),
        u64x4::from_array(*carry),
    );
    let either = a ^ b;
    *plane = (either ^ c).to_array();
    *carry = ((a & b) | (either & c)).to_array();
}

/// Adds `by` in these rows to numbers of which m adjacent planes hold the bits from `top` downwards. `carry` is that
/// from the bits below, and becomes that to the bits above.
// If not inlined, each call would keep the carry in memory.
#[inline(always)]
fn shift_in_group(
    group: &mut Vec<[u64; 4]>,
    from: usize,
    m: usize,
    rows: &[u64; 4],
    by: u64,
    top: usize,
    carry: &mut [u64; 4],
)
    requires planes { from + m ≤ vec_len group.old }
    requires top { m ≤ top + 1 }
    requires narrow { top < 64 }
    ensures len { vec_len group.new ≡ vec_len group.old }
    ensures capacity { vec_capacity group.new ≡ vec_capacity group.old }
    ensures sums { (j x : ℕ) → j < 256 → HoldBits group.old.items from m top j x → lane_bit carry.old j ≡ carried x (if row_in rows.now j then by else 0) (top + 1 - m)
        → HoldBits group.new.items from m top j (x + (if row_in rows.now j then by else 0)) }
    ensures carry { (j x : ℕ) → j < 256 → HoldBits group.old.items from m top j x → lane_bit carry.old j ≡ carried x (if row_in rows.now j then by else 0) (top + 1 - m)
        → lane_bit carry.new j ≡ carried x (if row_in rows.now j then by else 0) (top + 1) }
    ensures before { (b : ℕ) → b < from → slice_index_or group.new.items b [] ≡ slice_index_or group.old.items b [] }
    ensures behind { (b : ℕ) → from + m ≤ b → slice_index_or group.new.items b [] ≡ slice_index_or group.old.items b [] }
{
    for n in 0..m {
        let i = m - 1 - n;
        let plane = &mut group[from + i];
        add_to_plane(plane, &lanes_where(rows, by, top - i), carry);
    }
}

/// Adds `by` to the codes of these rows of segment q, modulo 2^k.
fn shift_segment(groups: &mut Vec<Vec<[u64; 4]>>, k: usize, q: usize, rows: &[u64; 4], by: u64)
    requires narrow { k ≤ widest_code }
    requires small { q < 2 ^ 32 }
    requires count { vec_len groups.old ≡ groups_of k }
    requires there { HasSegment k (lists groups.old.items) q }
    ensures sizes { KeepsSizes groups.new.items groups.old.items }
    ensures segment { (i j : ℕ) → i < k → j < 256 → is_set k (lists groups.new.items) i (256 * q + j)
        ≡ bit_of (code_of k (lists groups.old.items) (256 * q + j) + (if row_in rows.now j then by else 0)) (k - 1 - i) }
    ensures other { (i v : ℕ) → i < k → v / 4 ≢ q → word_of k (lists groups.new.items) i v ≡ word_of k (lists groups.old.items) i v }
{
    let mut carry = [0; 4];
    // The lowest bits come first: those of the last group, unless it is whole. Whole groups have four planes, and are
    // handled faster where their number is known.
    'last: for g in k / 4..groups.len() {
        let group = &mut groups[g];
        shift_in_group(
            group,
            q * (k % 4),
            k % 4,
            rows,
            by,
            k - 1 - 4 * g,
            &mut carry,
        );
    }
    'whole: for n in 0..k / 4 {
        let g = k / 4 - 1 - n;
        let group = &mut groups[g];
        shift_in_group(group, q * 4, 4, rows, by, k - 1 - 4 * g, &mut carry);
    }
}

/// Word b holds bit b of a number below 2^`own` in each of 64 rows. Afterwards the words hold the k lowest bits of the
/// numbers, with `by` added in these rows. What words from `k` on hold afterwards is not told.
pub fn shift_words(words: &mut [u64; 64], own: usize, k: usize, rows: u64, by: u64)
    requires narrow { k ≤ widest_code }
    ensures { (b r : ℕ) → b < k → r < 64 → bit_of (slice_index words.new b) r ≡ bit_of (code_by own words.old r + (if bit_of rows r then by else 0)) b }
{
    let mut carry = 0;
    for b in 0..k {
        let plane = if b < own { words[b] } else { 0 };
        let (sum, above) = add_bits(plane, rows_where(rows, by, b), carry);
        words[b] = sum;
        carry = above;
    }
}

/// Adds `by` to the code of each of the rows, modulo 2^k.
pub(crate) fn shift_codes(
    groups: &mut Vec<Vec<[u64; 4]>>,
    k: usize,
    len: usize,
    rows: &Mask,
    by: u64,
)
    requires planes { AreGroups k (lists groups.old.items) len }
    requires rows { mask_len rows.now ≡ len }
    ensures sizes { KeepsSizes groups.new.items groups.old.items }
    ensures codes { (i j : ℕ) → i < k → is_set k (lists groups.new.items) i j ≡ bit_of (code_of k (lists groups.old.items) j + (if row_at rows.now j then by else 0)) (k - 1 - i) }
{
    let words = rows.words();
    for q in 0..len.div_ceil(256) {
        shift_segment(groups, k, q, &lanes_at(words, q), by);
    }
}
