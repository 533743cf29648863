//! Converting between the codes of 64 rows and the words of their planes. Word b holds bit b of each code.
//!
//! The intermediate form is the bytes of the codes, 64 at once: a vector holds bytes of four times as many rows as
//! whole codes.

ghost use Rattle.std.specs.Prelude.{[], cond, length, not, slice_index, slice_index_or, ℕ, ◌%◌, ◌*◌, ◌+◌, ◌-◌, ◌/◌, ◌<◌, ◌^◌, ◌≡◌, ◌≤◌};
ghost use Rattle.bw_mask.specs.Masks.{bit_of};
ghost use Rattle.bw_code.specs.Widths.{widest_code, widest_half};
ghost use Rattle.bw_vertical.specs.Exchanges.{Exchanges};

use std::simd::prelude::*;

/// Bits 16 h to 16 h + 15 of each code.
pub(crate) fn pair_of_each(codes: &[u32; 64], h: usize) -> [u16; 64]
    requires { h < 2 }
    ensures { (r : ℕ) → r < 64 → slice_index result r ≡ slice_index codes.now r / 2 ^ (16 * h) % 2 ^ 16 }
{
    let mut pairs = [0; 64];
    for r in 0..64 {
        pairs[r] = ((codes[r] >> (16 * h)) % 0x1_0000) as u16;
    }
    pairs
}

/// Byte j of each pair of bytes, counted from the lower.
pub(crate) fn byte_of_each(pairs: &[u16; 64], j: usize) -> [u8; 64]
    requires { j < 2 }
    ensures { (r : ℕ) → r < 64 → slice_index result r ≡ slice_index pairs.now r / 2 ^ (8 * j) % 2 ^ 8 }
{
    let mut bytes = [0; 64];
    for r in 0..64 {
        bytes[r] = ((pairs[r] >> (8 * j)) % 0x100) as u8;
    }
    bytes
}

/// Bit r says whether byte r has bit i set. It is faster where i is known, and so inlined.
#[inline(always)]
pub(crate) fn rows_with_bit(bytes: &[u8; 64], i: u32) -> u64
    requires { i < 8 }
    ensures { (r : ℕ) → r < 64 → bit_of result r ≡ bit_of (slice_index bytes.now r) i }
{
    (u8x64::from_array(*bytes) & u8x64::splat(1 << i))
        .simd_ne(u8x64::splat(0))
        .to_bitmask()
}

/// The words from `at` on become those of the eight planes of these bytes.
fn put_words_of_bytes(words: &mut [u64], at: usize, bytes: &[u8; 64])
    requires room { at + 8 ≤ length words.old }
    ensures long { length words.new ≡ length words.old }
    ensures inside { (t r : ℕ) → t < 8 → r < 64 → bit_of (slice_index words.new (at + t)) r ≡ bit_of (slice_index bytes.now r) t }
    ensures before { (b : ℕ) → b < at → slice_index words.new b ≡ slice_index words.old b }
{
    for t in 0..8 {
        words[at + t] = rows_with_bit(bytes, t as u32);
    }
}

/// The words from `at` on become those of the planes of the k lowest bits of the pairs of bytes.
fn put_pairs(pairs: &[u16; 64], k: usize, words: &mut [u64], at: usize)
    requires narrow { k ≤ 16 }
    requires room { at + 16 ≤ length words.old }
    ensures long { length words.new ≡ length words.old }
    ensures inside { (b r : ℕ) → b < k → r < 64 → bit_of (slice_index words.new (at + b)) r ≡ bit_of (slice_index pairs.now r) b }
    ensures before { (b : ℕ) → b < at → slice_index words.new b ≡ slice_index words.old b }
{
    put_words_of_bytes(words, at, &byte_of_each(pairs, 0));
    if k > 8 {
        put_words_of_bytes(words, at + 8, &byte_of_each(pairs, 1));
    }
}

/// The words from `at` on become those of the planes of codes of k bits. The codes are halved, and then their halves:
/// one byte of each code at once takes longer.
pub(crate) fn put_codes(codes: &[u32; 64], k: usize, words: &mut [u64], at: usize)
    requires narrow { k ≤ widest_half }
    requires room { at + 32 ≤ length words.old }
    ensures long { length words.new ≡ length words.old }
    ensures inside { (b r : ℕ) → b < k → r < 64 → bit_of (slice_index words.new (at + b)) r ≡ bit_of (slice_index codes.now r) b }
    ensures before { (b : ℕ) → b < at → slice_index words.new b ≡ slice_index words.old b }
{
    put_pairs(&pair_of_each(codes, 0), k.min(16), words, at);
    if k > 16 {
        put_pairs(&pair_of_each(codes, 1), k - 16, words, at + 16);
    }
}

/// Exchanges the bits of `low` that the mask leaves out with the bits of `high` that are s positions lower, which the
/// mask selects.
fn exchanged(low: u64, high: u64, s: u32, mask: u64) -> (u64, u64)
    requires { Exchanges s mask }
    ensures low { (r : ℕ) → r < 64 → bit_of result.0 r ≡ cond (bit_of mask r) (bit_of low r) (bit_of high (r - s)) }
    ensures high { (r : ℕ) → r < 64 → bit_of result.1 r ≡ cond (bit_of mask r) (bit_of low (s + r)) (bit_of high r) }
{
    let differ = ((low >> s) ^ high) & mask;
    (low ^ differ << s, high ^ differ)
}

/// Exchanges bits of the first four words with bits of the next four, and then interleaves the words: the first, the
/// fifth, the second, .. This swaps one bit of the index of the word with one bit of the index in the word.
fn exchange(words: &[u64], s: u32, mask: u64) -> [u64; 8]
    requires long { 8 ≤ length words.now }
    requires mask { Exchanges s mask }
    ensures { (q r : ℕ) → q < 8 → r < 64 → bit_of (slice_index result q) r ≡ cond (bit_of mask r) (bit_of (slice_index words.now (q / 2)) (s * (q % 2) + r)) (bit_of (slice_index words.now (4 + q / 2)) (s * (q % 2) + r - s)) }
{
    let mut next = [0; 8];
    for i in 0..4 {
        let (low, high) = exchanged(words[i], words[4 + i], s, mask);
        next[2 * i] = low;
        next[2 * i + 1] = high;
    }
    next
}

/// Eight rows in each word, one byte for each row: bit t of it is the row's bit of word t.
fn by_rows(words: &[u64]) -> [u64; 8]
    requires { 8 ≤ length words.now }
    ensures { (q r : ℕ) → q < 8 → r < 64 → bit_of (slice_index result q) r ≡ bit_of (slice_index words.now (r % 8)) (8 * q + r / 8) }
{
    // The three bits of a row's index in its byte are exchanged with those of the word's index, and then with those of
    // the byte's index.
    let words = exchange(words, 4, 0x0f0f_0f0f_0f0f_0f0f);
    let words = exchange(&words, 2, 0x3333_3333_3333_3333);
    let words = exchange(&words, 1, 0x5555_5555_5555_5555);
    let words = exchange(&words, 32, 0x0000_0000_ffff_ffff);
    let words = exchange(&words, 16, 0x0000_ffff_0000_ffff);
    exchange(&words, 8, 0x00ff_00ff_00ff_00ff)
}

/// The bytes of eight words, the lowest byte of each word first.
fn bytes_in(words: &[u64]) -> u8x64
    requires { 8 ≤ length words.now }
    ensures { (q i : ℕ) → q < 8 → i < 8 → slice_index result (8 * q + i) ≡ slice_index words.now q / (2 ^ 8) ^ i % 2 ^ 8 }
{
    u64x8::from_slice(words).to_le_bytes()
}

/// One byte for each row: bit t of it is the row's bit of word t.
pub fn bytes_of_words(words: &[u64]) -> [u8; 64]
    requires { 8 ≤ length words.now }
    ensures bits { (r t : ℕ) → r < 64 → t < 8 → bit_of (slice_index result r) t ≡ bit_of (slice_index words.now t) r }
    ensures fit { (r : ℕ) → slice_index result r < 2 ^ 8 }
{
    bytes_in(&by_rows(words)).to_array()
}

/// The bytes as 32-bit numbers.
fn widened(bytes: &[u8; 64]) -> [u32; 64]
    ensures { (r : ℕ) → r < 64 → slice_index result r ≡ slice_index bytes.now r }
{
    let mut numbers = [0; 64];
    for r in 0..64 {
        numbers[r] = u32::from(bytes[r]);
    }
    numbers
}

/// The 16-bit numbers as 32-bit numbers.
fn widened_pairs(pairs: &[u16; 64]) -> [u32; 64]
    ensures { (r : ℕ) → r < 64 → slice_index result r ≡ slice_index pairs.now r }
{
    let mut numbers = [0; 64];
    for r in 0..64 {
        numbers[r] = u32::from(pairs[r]);
    }
    numbers
}

/// Numbers made of two bytes each.
fn pairs(low: &[u8; 64], high: &[u8; 64]) -> [u16; 64]
    ensures { (r : ℕ) → r < 64 → slice_index result r ≡ slice_index low.now r + 2 ^ 8 * slice_index high.now r }
{
    let mut numbers = [0; 64];
    for r in 0..64 {
        numbers[r] = u16::from(low[r]) + 0x100 * u16::from(high[r]);
    }
    numbers
}

/// Numbers made of four bytes each, the lowest first.
fn joined(bytes: &[[u8; 64]; 4]) -> [u32; 64]
    ensures { (r : ℕ) → r < 64 → slice_index result r
        ≡ slice_index (slice_index_or bytes.now 0 []) r + 2 ^ 8 * slice_index (slice_index_or bytes.now 1 []) r
        + 2 ^ 16 * (slice_index (slice_index_or bytes.now 2 []) r + 2 ^ 8 * slice_index (slice_index_or bytes.now 3 []) r) }
{
    let low = pairs(&bytes[0], &bytes[1]);
    let high = pairs(&bytes[2], &bytes[3]);
    let mut numbers = [0; 64];
    for r in 0..64 {
        numbers[r] = u32::from(low[r]) + 0x1_0000 * u32::from(high[r]);
    }
    numbers
}

/// The codes of at most 8 bits whose planes have these words.
fn codes_of_byte(words: &[u64; 32]) -> [u32; 64]
    requires { (b : ℕ) → 8 ≤ b → b < 32 → slice_index words.now b ≡ 0 }
    ensures bits { (r b : ℕ) → r < 64 → b < 32 → bit_of (slice_index result r) b ≡ bit_of (slice_index words.now b) r }
    ensures fit { (r : ℕ) → r < 64 → slice_index result r < 2 ^ 32 }
{
    widened(&bytes_of_words(words))
}

/// The codes of at most 16 bits whose planes have these words.
fn codes_of_two_bytes(words: &[u64; 32]) -> [u32; 64]
    requires { (b : ℕ) → 16 ≤ b → b < 32 → slice_index words.now b ≡ 0 }
    ensures bits { (r b : ℕ) → r < 64 → b < 32 → bit_of (slice_index result r) b ≡ bit_of (slice_index words.now b) r }
    ensures fit { (r : ℕ) → r < 64 → slice_index result r < 2 ^ 32 }
{
    let low = bytes_of_words(words);
    let high = bytes_of_words(&words[8..]);
    widened_pairs(&pairs(&low, &high))
}

/// The codes of k bits whose planes have these words. The conversion is faster where the number of bytes is known, and
/// where the codes are not stored before they are used: inlined, it takes 0.6 to 0.75 of the time.
#[inline(always)]
pub fn codes_of_words(words: &[u64; 32], k: usize) -> [u32; 64]
    requires narrow { k ≤ widest_half }
    requires rest { (b : ℕ) → k ≤ b → b < 32 → slice_index words.now b ≡ 0 }
    ensures bits { (r b : ℕ) → r < 64 → b < 32 → bit_of (slice_index result r) b ≡ bit_of (slice_index words.now b) r }
    ensures fit { (r : ℕ) → r < 64 → slice_index result r < 2 ^ 32 }
{
    if k <= 8 {
        return codes_of_byte(words);
    }
    if k <= 16 {
        return codes_of_two_bytes(words);
    }
    let mut bytes = [[0; 64]; 4];
    for j in 0..k.div_ceil(8) {
        bytes[j] = bytes_of_words(&words[8 * j..]);
    }
    joined(&bytes)
}

/// The codes of k bits whose planes have these words, in halves: the 32 lowest bits of each code, and the bits above
/// those.
pub fn halves_of_words(words: &[u64; 64], k: usize) -> ([u32; 64], [u32; 64])
    requires wide { widest_half ≤ k }
    requires narrow { k ≤ widest_code }
    requires rest { (b : ℕ) → k ≤ b → b < 64 → slice_index words.now b ≡ 0 }
    ensures low { (r b : ℕ) → r < 64 → b < 32 → bit_of (slice_index result.0 r) b ≡ bit_of (slice_index words.now b) r }
    ensures high { (r b : ℕ) → r < 64 → b < 32 → bit_of (slice_index result.1 r) b ≡ bit_of (slice_index words.now (32 + b)) r }
    ensures low_fit { (r : ℕ) → r < 64 → slice_index result.0 r < 2 ^ 32 }
    ensures high_fit { (r : ℕ) → r < 64 → slice_index result.1 r < 2 ^ 32 }
{
    let (halves, _) = words.as_chunks::<32>();
    (
        codes_of_words(&halves[0], 32),
        codes_of_words(&halves[1], k - 32),
    )
}
