//! Bit planes extracted from slices.

ghost use Rattle.std.specs.Prelude.{length, slice_index, ℕ, ◌%◌, ◌*◌, ◌+◌, ◌<◌, ◌^◌, ◌≡◌, ◌≤◌};
ghost use Rattle.bw_mask.specs.Masks.{SameShape, bit_of, len, row_at};
ghost use Rattle.bw_code.specs.Units.{segments_of};

use crate::rows::{joined, low_half};
use crate::source::bytes_at;
use bw_mask::Mask;
use std::simd::prelude::*;

/// Bit r says whether byte r has bit i set.
fn rows_with_bit(bytes: &[u8; 32], i: u32) -> u64
    requires { i < 8 }
    ensures { (r : ℕ) → r < 32 → bit_of result r ≡ bit_of (slice_index bytes.now r) i }
{
    (u8x32::from_array(*bytes) & u8x32::splat(1 << i))
        .simd_ne(u8x32::splat(0))
        .to_bitmask()
}

/// Bit r says whether byte 64 w + r has bit i set.
fn word_with_bit(slice: &[u8], w: usize, i: u32) -> u64
    requires bit { i < 8 }
    requires there { 64 * w + 64 ≤ length slice.now }
    ensures { (r : ℕ) → r < 64 → bit_of result r ≡ bit_of (slice_index slice.now (64 * w + r)) i }
{
    let low = rows_with_bit(&bytes_at(slice, 2 * w), i);
    let high = rows_with_bit(&bytes_at(slice, 2 * w + 1), i);
    joined(low_half(low), low_half(high))
}

/// The same, where the slice may end before.
pub(crate) fn word_up_to_end(slice: &[u8], w: usize, i: u32) -> u64
    requires bit { i < 8 }
    requires small { w < 2 ^ 35 }
    requires whole { length slice.now % 32 ≡ 0 }
    ensures fits { result < 2 ^ 64 }
    ensures rows { (r : ℕ) → r < 64 → bit_of result r ≡ bit_of (slice_index slice.now (64 * w + r)) i }
{
    if 64 * w + 64 <= slice.len() {
        word_with_bit(slice, w, i)
    } else if 64 * w < slice.len() {
        joined(low_half(rows_with_bit(&bytes_at(slice, 2 * w), i)), 0)
    } else {
        0
    }
}

/// `out` becomes the rows whose byte has bit i set.
pub(crate) fn put_rows(slice: &[u8], i: u32, out: &mut Mask)
    requires bit { i < 8 }
    requires few { len out.old ≤ 2 ^ 24 }
    requires long { length slice.now ≡ 32 * segments_of 32 (len out.old) }
    requires clean { (r : ℕ) → len out.old ≤ r → slice_index slice.now r ≡ 0 }
    ensures shape { SameShape out.new out.old }
    ensures rows { (r : ℕ) → row_at out.new r ≡ bit_of (slice_index slice.now r) i }
{
    let words = slice.len() / 64;
    for w in 0..words {
        out.put_word(w, word_with_bit(slice, w, i));
    }
    // An odd last segment is half a word, and no rows come after it.
    if slice.len() % 64 > 0 {
        let found = rows_with_bit(&bytes_at(slice, 2 * words), i);
        out.put_word(words, found);
    }
}
