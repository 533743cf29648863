//! 256 rows as four words of 64.

ghost use Rattle.std.specs.Prelude.{if◌then◌else◌, length, nat_lt, not, slice_index, true, ℕ, ◌&&◌, ◌*◌, ◌+◌, ◌<◌, ◌≡◌, ◌≤◌};
ghost use Rattle.bw_mask.specs.Masks.{row_in};
ghost use Rattle.bw_aggregate.specs.Marks.{marked};

use bw_lane::{count_and_words, count_words};
use std::simd::prelude::*;

/// Word `i`; 0 past the last.
fn word_at(words: &[u64], i: usize) -> u64
    ensures { result ≡ slice_index words.now i }
{
    if i < words.len() { words[i] } else { 0 }
}

/// Rows 256 q to 256 q + 255. If all four words exist, they are read with one load.
pub(crate) fn rows_at(words: &[u64], q: u32) -> [u64; 4]
    ensures { (j : ℕ) → j < 256 → row_in result j ≡ row_in words.now (256 * q + j) }
{
    let first = 4 * q as usize;
    if first + 4 <= words.len() {
        u64x4::from_slice(&words[first..]).to_array()
    } else {
        [
            word_at(words, first),
            word_at(words, first + 1),
            word_at(words, first + 2),
            word_at(words, first + 3),
        ]
    }
}

/// The rows whose bit in the plane is `bit`.
pub(crate) fn rows_with(rows: &[u64; 4], plane: &[u64; 4], bit: bool) -> [u64; 4]
    ensures { (j : ℕ) → j < 256 → row_in result j ≡ (row_in rows.now j && (if bit then row_in plane.now j else not (row_in plane.now j))) }
{
    let (rows, plane) = (u64x4::from_array(*rows), u64x4::from_array(*plane));
    let both = rows & plane;
    if bit {
        both.to_array()
    } else {
        (rows ^ both).to_array()
    }
}

/// The number of rows.
pub(crate) fn count_rows(rows: &[u64]) -> usize
    requires { length rows.now ≡ 4 }
    ensures is { result ≡ marked 256 (row_in rows.now) }
    ensures few { result ≤ 256 }
{
    count_words(rows) as usize
}

/// The number of rows in both.
pub(crate) fn count_both(a: &[u64], b: &[u64]) -> usize
    requires a { length a.now ≡ 4 }
    requires b { length b.now ≡ 4 }
    ensures is { result ≡ marked 256 (λ j. row_in a.now j && row_in b.now j) }
    ensures few { result ≤ 256 }
{
    count_and_words(a, b) as usize
}

pub(crate) fn has_row(rows: &[u64]) -> bool
    requires { length rows.now ≡ 4 }
    ensures { result ≡ nat_lt 0 (marked 256 (row_in rows.now)) }
{
    rows[0] | rows[1] | rows[2] | rows[3] != 0
}

/// Whether all 256 rows are set.
pub(crate) fn has_all(rows: &[u64]) -> bool
    requires { length rows.now ≡ 4 }
    ensures { result ≡ true → (j : ℕ) → j < 256 → row_in rows.now j ≡ true }
{
    count_rows(rows) == 256
}
