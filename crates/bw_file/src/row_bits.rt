//! Bits of rows as a word.

ghost use Rattle.std.specs.Prelude.{length, nat_lt, slice_index, ℕ, ◌%◌, ◌&&◌, ◌*◌, ◌+◌, ◌/◌, ◌<◌, ◌^◌, ◌≡◌, ◌≤◌};
ghost use Rattle.bw_mask.specs.Masks.{bit_of, row_in};

use bw_code::BLOCK_ROWS;
use byteorder::{ByteOrder, LittleEndian};
use std::simd::prelude::*;

/// The bits from bit `at` on, which is the first in its byte. Only the first `count` can be set.
pub(crate) fn bits_of_rows(bytes: &[u8], at: usize, count: usize) -> u64
    requires few { count ≤ 64 }
    requires first { at % 8 ≡ 0 }
    requires there { at + count ≤ 8 * length bytes.now }
    requires short { at < 2 ^ 60 }
    ensures { (k : ℕ) → bit_of result k ≡ (bit_of (slice_index bytes.now ((at + k) / 8)) ((at + k) % 8) && nat_lt k count) }
{
    bits_of_bytes(&bytes[at / 8..]) & low_bits(count)
}

/// Eight words of the first 64 bytes, the lowest byte of each word first. They are read as a vector: word by word, a
/// processor waits for fewer lines of the cache at once, and the planes of a file lie far apart.
fn words_in(bytes: &[u8]) -> [u64; 8]
    requires { 64 ≤ length bytes.now }
    ensures { (i : ℕ) → i < 512 → row_in result i ≡ bit_of (slice_index bytes.now (i / 8)) (i % 8) }
{
    u64x8::from_le_bytes(u8x64::from_slice(bytes)).to_array()
}

/// The bits of `count` rows, at most 2,048, from bit `at` on, which is the first in its byte, as words of 64 rows. Rows
/// past these are 0.
pub(crate) fn read_rows(bytes: &[u8], at: usize, count: usize, words: &mut [u64; 32])
    requires few { count ≤ 2048 }
    requires first { at % 8 ≡ 0 }
    requires there { at + count ≤ 8 * length bytes.now }
    requires short { at + count ≤ 2 ^ 60 }
    ensures { (i : ℕ) → row_in words.new i ≡ (bit_of (slice_index bytes.now ((at + i) / 8)) ((at + i) % 8) && nat_lt i count) }
{
    // All blocks but the last have 2,048 rows.
    if count == BLOCK_ROWS {
        for q in 0..4 {
            let eight = words_in(&bytes[at / 8 + 64 * q..]);
            words[8 * q..8 * q + 8].copy_from_slice(&eight);
        }
        return;
    }
    for j in 0..32 {
        let n = count.saturating_sub(64 * j).min(64);
        words[j] = if n == 0 {
            0
        } else {
            bits_of_rows(bytes, at + 64 * j, n)
        };
    }
}

/// The bits of the first eight bytes, or of all if there are fewer, those of the first byte lowest.
fn bits_of_bytes(bytes: &[u8]) -> u64
    ensures { (k : ℕ) → k < 64 → k / 8 < length bytes.now → bit_of result k ≡ bit_of (slice_index bytes.now (k / 8)) (k % 8) }
{
    if bytes.len() >= 8 {
        return LittleEndian::read_u64(bytes);
    }
    let mut eight = [0; 8];
    eight[..bytes.len()].copy_from_slice(bytes);
    LittleEndian::read_u64(&eight)
}

/// A word with the n lowest bits set.
fn low_bits(n: usize) -> u64
    requires { n ≤ 64 }
    ensures { (i : ℕ) → bit_of result i ≡ nat_lt i n }
{
    if n == 0 { 0 } else { u64::MAX >> (64 - n) }
}
