//! 256 rows as four lanes of 64.

ghost use Rattle.std.specs.Prelude.{if◌then◌else◌, length, not, slice_index, ℕ, ◌&&◌, ◌*◌, ◌+◌, ◌<◌, ◌^◌, ◌||◌, ◌≡◌};
ghost use Rattle.bw_mask.specs.Masks.{SameShape, len, row_at, row_in};
ghost use Rattle.bw_code.specs.Units.{some_below};

use bw_mask::Mask;
use std::simd::prelude::*;

/// Word i; 0 past the last.
fn word_at(words: &[u64], i: usize) -> u64
    ensures { result ≡ slice_index words.now i }
{
    if i < words.len() { words[i] } else { 0 }
}

/// Rows 256 q to 256 q + 255. Where all four words exist, they are read by one load.
pub(crate) fn lanes_at(words: &[u64], q: usize) -> [u64; 4]
    requires { q < 2 ^ 32 }
    ensures { (j : ℕ) → j < 256 → row_in result j ≡ row_in words.now (256 * q + j) }
{
    if 4 * q + 4 <= words.len() {
        u64x4::from_slice(&words[4 * q..]).to_array()
    } else {
        [
            word_at(words, 4 * q),
            word_at(words, 4 * q + 1),
            word_at(words, 4 * q + 2),
            word_at(words, 4 * q + 3),
        ]
    }
}

/// Rows 256 q to 256 q + 255 become these, as far as they exist.
pub(crate) fn put_lanes(out: &mut Mask, q: usize, lanes: &[u64; 4])
    requires { q < 2 ^ 32 }
    ensures shape { SameShape out.new out.old }
    ensures inside { (j : ℕ) → j < 256 → 256 * q + j < len out.old → row_at out.new (256 * q + j) ≡ row_in lanes.now j }
    ensures before { (j : ℕ) → j < 256 * q → row_at out.new j ≡ row_at out.old j }
{
    out.put_lanes(q, lanes);
}

pub(crate) fn is_empty(lanes: &[u64]) -> bool
    requires { length lanes.now ≡ 4 }
    ensures { result ≡ not (some_below 256 (row_in lanes.now)) }
{
    lanes[0] | lanes[1] | lanes[2] | lanes[3] == 0
}

/// The rows that are in either.
pub(crate) fn either(a: &[u64; 4], b: &[u64; 4]) -> [u64; 4]
    ensures { (j : ℕ) → j < 256 → row_in result j ≡ (row_in a.now j || row_in b.now j) }
{
    (u64x4::from_array(*a) | u64x4::from_array(*b)).to_array()
}

/// The rows that are in both.
pub(crate) fn both(a: &[u64; 4], b: &[u64; 4]) -> [u64; 4]
    ensures { (j : ℕ) → j < 256 → row_in result j ≡ (row_in a.now j && row_in b.now j) }
{
    (u64x4::from_array(*a) & u64x4::from_array(*b)).to_array()
}

/// The rows that are in exactly one of the two.
pub(crate) fn differing(a: &[u64; 4], b: &[u64; 4]) -> [u64; 4]
    ensures { (j : ℕ) → j < 256 → row_in result j ≡ not (if row_in a.now j then row_in b.now j else not (row_in b.now j)) }
{
    (u64x4::from_array(*a) ^ u64x4::from_array(*b)).to_array()
}

/// The rows of a that are not in b.
pub(crate) fn without(a: &[u64; 4], b: &[u64; 4]) -> [u64; 4]
    ensures { (j : ℕ) → j < 256 → row_in result j ≡ (row_in a.now j && not (row_in b.now j)) }
{
    let (a, b) = (u64x4::from_array(*a), u64x4::from_array(*b));
    (a ^ (a & b)).to_array()
}
