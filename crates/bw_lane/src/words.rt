//! Operations on words of bits: combined four at a time, with a plain loop for the rest, and counted one by one.

ghost use Rattle.std.specs.Prelude.{bit_and, bit_or, length, slice_index, ℕ, ◌-◌, ◌<◌, ◌^◌, ◌≡◌, ◌≤◌};
ghost use Rattle.std.specs.List.{sum_by, zip};
ghost use Rattle.std.specs.Int.RustNames.{count_ones};

use std::simd::prelude::*;

/// Keeps in each word of a the bits that are set in the word of b, too.
pub fn and_words(a: &mut [u64], b: &[u64])
    requires { length a.old ≡ length b.now }
    ensures len { length a.new ≡ length a.old }
    ensures words { (k : ℕ) → k < length a.old → slice_index a.new k ≡ bit_and (slice_index a.old k) (slice_index b.now k) }
{
    let mut i = 0;
    'fours: while a.len() - i >= 4 {
        let four = u64x4::from_slice(&a[i..]) & u64x4::from_slice(&b[i..]);
        four.copy_to_slice(&mut a[i..]);
        i += 4;
    }
    'rest: while i < a.len() {
        a[i] &= b[i];
        i += 1;
    }
}

/// Sets in each word of a the bits that are set in the word of b.
pub fn or_words(a: &mut [u64], b: &[u64])
    requires { length a.old ≡ length b.now }
    ensures len { length a.new ≡ length a.old }
    ensures words { (k : ℕ) → k < length a.old → slice_index a.new k ≡ bit_or (slice_index a.old k) (slice_index b.now k) }
{
    let mut i = 0;
    'fours: while a.len() - i >= 4 {
        let four = u64x4::from_slice(&a[i..]) | u64x4::from_slice(&b[i..]);
        four.copy_to_slice(&mut a[i..]);
        i += 4;
    }
    'rest: while i < a.len() {
        a[i] |= b[i];
        i += 1;
    }
}

/// Clears in each word of a the bits that are set in the word of b.
pub fn andnot_words(a: &mut [u64], b: &[u64])
    requires { length a.old ≡ length b.now }
    ensures len { length a.new ≡ length a.old }
    ensures words { (k : ℕ) → k < length a.old → slice_index a.new k ≡ bit_and (slice_index a.old k) (2 ^ 64 - 1 - slice_index b.now k) }
{
    let mut i = 0;
    'fours: while a.len() - i >= 4 {
        let four = u64x4::from_slice(&a[i..]) & !u64x4::from_slice(&b[i..]);
        four.copy_to_slice(&mut a[i..]);
        i += 4;
    }
    'rest: while i < a.len() {
        a[i] &= !b[i];
        i += 1;
    }
}

/// How many bits are set.
pub fn count_words(words: &[u64]) -> u64
    requires { length words.now ≤ 2 ^ 56 }
    ensures { result ≡ sum_by count_ones words.now }
{
    words.iter().map(|word| word.count_ones() as u64).sum()
}

/// How many bits are set in both words of each pair at the same index.
pub fn count_and_words(a: &[u64], b: &[u64]) -> u64
    requires same { length a.now ≡ length b.now }
    requires few { length a.now ≤ 2 ^ 56 }
    ensures { result ≡ sum_by (λ p. count_ones (bit_and p.0 p.1)) (zip a.now b.now) }
{
    // By index: a loop over both slices at once has two end conditions, and takes twice as long.
    let mut total = 0;
    'words: for i in 0..a.len() {
        total += u64::from((a[i] & b[i]).count_ones());
    }
    total
}
