//! Words of bits: row i is bit i % 64 of word i / 64. Lengths are up to the caller.

ghost use Rattle.std.specs.Prelude.{IsTrue, bit_and, ◌↔◌, ◌≡◌, ◌≢◌, false, true, ℕ, ◌+◌, ◌*◌, ◌/◌, ◌%◌, ◌<◌, ◌≤◌, ◌^◌, ◌&&◌, ◌||◌, not, IfOk, length, nat_lt, replicate, slice_index, vec_len, vec_capacity};
ghost use Rattle.std.specs.List.{sum_by, zip};
ghost use Rattle.std.specs.Int.RustNames.{count_ones};
ghost use Rattle.bw_mask.specs.Masks.{bit_of, row_in, IsNext};

use std::alloc::{AllocError, Global};

#[tactic(auto, using(crate::proofs::Bits::bit_of_and))]
pub(crate) fn and_words(a: &mut [u64], b: &[u64])
    requires { length a.old ≡ length b.now }
    ensures len { length a.new ≡ length a.old }
    ensures rows { (i : ℕ) → i < 64 * length a.old → row_in a.new i ≡ (row_in a.old i && row_in b.now i) }
{
    bw_lane::and_words(a, b);
}

#[tactic(auto, using(crate::proofs::Bits::bit_of_or))]
pub(crate) fn or_words(a: &mut [u64], b: &[u64])
    requires { length a.old ≡ length b.now }
    ensures len { length a.new ≡ length a.old }
    ensures rows { (i : ℕ) → i < 64 * length a.old → row_in a.new i ≡ (row_in a.old i || row_in b.now i) }
{
    bw_lane::or_words(a, b);
}

#[tactic(auto, using(crate::proofs::Bits::bit_of_andnot))]
pub(crate) fn andnot_words(a: &mut [u64], b: &[u64])
    requires { length a.old ≡ length b.now }
    ensures len { length a.new ≡ length a.old }
    ensures rows { (i : ℕ) → i < 64 * length a.old → row_in a.new i ≡ (row_in a.old i && not (row_in b.now i)) }
{
    bw_lane::andnot_words(a, b);
}

#[tactic(auto, using(crate::proofs::Bits::bit_of_not))]
pub(crate) fn not_words(a: &mut [u64])
    ensures len { length a.new ≡ length a.old }
    ensures rows { (i : ℕ) → i < 64 * length a.old → row_in a.new i ≡ not (row_in a.old i) }
{
    for k in 0..a.len() {
        a[k] = !a[k];
    }
}

/// `out` becomes the rows that are in a and in b.
#[tactic(auto, using(crate::proofs::Bits::bit_of_and))]
pub(crate) fn intersection_words(out: &mut [u64], a: &[u64], b: &[u64])
    requires a { length out.old ≡ length a.now }
    requires b { length out.old ≡ length b.now }
    ensures len { length out.new ≡ length out.old }
    ensures rows { (i : ℕ) → i < 64 * length out.old → row_in out.new i ≡ (row_in a.now i && row_in b.now i) }
{
    for k in 0..out.len() {
        out[k] = a[k] & b[k];
    }
}

/// `out` becomes the rows of a that are not in b.
#[tactic(auto, using(crate::proofs::Bits::bit_of_andnot))]
pub(crate) fn difference_words(out: &mut [u64], a: &[u64], b: &[u64])
    requires a { length out.old ≡ length a.now }
    requires b { length out.old ≡ length b.now }
    ensures len { length out.new ≡ length out.old }
    ensures rows { (i : ℕ) → i < 64 * length out.old → row_in out.new i ≡ (row_in a.now i && not (row_in b.now i)) }
{
    for k in 0..out.len() {
        out[k] = a[k] & !b[k];
    }
}

/// A word with the n lowest bits set.
fn low_bits(n: usize) -> u64
    requires { n ≤ 64 }
    ensures { (i : ℕ) → bit_of result i ≡ nat_lt i n }
{
    if n == 0 { 0 } else { u64::MAX >> (64 - n) }
}

/// A word whose bits are all `bit`.
pub(crate) fn word_of(bit: bool) -> u64
    ensures { (i : ℕ) → i < 64 → bit_of result i ≡ bit }
{
    if bit { u64::MAX } else { 0 }
}

/// `count` copies of a word.
pub(crate) fn equal_words(alloc: Global, word: u64, count: usize) -> Result<Vec<u64>, AllocError>
    ensures { IfOk result (λ words. words.items ≡ replicate count word) }
{
    Vec::from_elem(alloc, word, count)
}

/// The chosen bits of word k, if it exists, become those of `word`.
fn replace(words: &mut Vec<u64>, k: usize, chosen: u64, word: u64)
    ensures room { vec_capacity words.new ≡ vec_capacity words.old }
    ensures len { vec_len words.new ≡ vec_len words.old }
    ensures chosen { (i : ℕ) → i / 64 ≡ k → k < vec_len words.old → bit_of chosen (i % 64) ≡ true
        → row_in words.new.items i ≡ bit_of word (i % 64) }
    ensures other { (i : ℕ) → (i / 64 ≡ k → bit_of chosen (i % 64) ≡ false) → row_in words.new.items i ≡ row_in words.old.items i }
{
    if chosen != 0 && k < words.len() {
        words[k] = words[k] & !chosen | word & chosen;
    }
}

/// Row i becomes `bit`.
pub(crate) fn put_bit(words: &mut Vec<u64>, i: usize, bit: bool)
    requires { i / 64 < vec_len words.old }
    ensures room { vec_capacity words.new ≡ vec_capacity words.old }
    ensures len { vec_len words.new ≡ vec_len words.old }
    ensures same { row_in words.new.items i ≡ bit }
    ensures other { (j : ℕ) → j ≢ i → row_in words.new.items j ≡ row_in words.old.items j }
{
    replace(words, i / 64, 1 << (i % 64), u64::from(bit) << (i % 64));
}

/// The bits shifted left by `places`; bits shifted past the end are lost.
fn up(word: u64, places: usize) -> u64
    requires { places ≤ 64 }
    ensures moved { (i : ℕ) → places + i < 64 → bit_of result (places + i) ≡ bit_of word i }
    ensures none { (i : ℕ) → i < places → bit_of result i ≡ false }
{
    if places < 64 { word << places } else { 0 }
}

/// The bits shifted right by `places`.
fn down(word: u64, places: usize) -> u64
    requires { places ≤ 64 }
    ensures moved { (i : ℕ) → bit_of result i ≡ bit_of word (places + i) }
    ensures none { (i : ℕ) → 64 ≤ places + i → bit_of result i ≡ false }
{
    if places < 64 { word >> places } else { 0 }
}

/// Rows at, at + 1, .. at + n - 1 become the n lowest bits of the word, as far as the words go.
pub(crate) fn put_bits(words: &mut Vec<u64>, at: usize, n: usize, word: u64)
    requires { n ≤ 64 }
    ensures room { vec_capacity words.new ≡ vec_capacity words.old }
    ensures len { vec_len words.new ≡ vec_len words.old }
    ensures inside { (i : ℕ) → i < n → (at + i) / 64 < vec_len words.old → row_in words.new.items (at + i) ≡ bit_of word i }
    ensures outside { (j : ℕ) → (at ≤ j → at + n ≤ j) → row_in words.new.items j ≡ row_in words.old.items j }
{
    let (first, shift) = (at / 64, at % 64);
    let chosen = low_bits(n);
    replace(words, first, up(chosen, shift), up(word, shift));
    replace(
        words,
        first + 1,
        down(chosen, 64 - shift),
        down(word, 64 - shift),
    );
}

/// The bits of word k that belong to the first n rows.
fn within(n: usize, k: usize, word: u64) -> u64
    requires { k ≤ n / 64 }
    ensures { (i : ℕ) → i < 64 → bit_of result i ≡ (bit_of word i && nat_lt (64 * k + i) n) }
{
    if k < n / 64 {
        word
    } else {
        word & low_bits(n % 64)
    }
}

/// Word k, if it exists, becomes `word`. Bits for rows from n on, where the words end, are cleared.
pub(crate) fn put_word(words: &mut Vec<u64>, n: usize, k: usize, word: u64)
    requires { vec_len words.old ≡ (n + 63) / 64 }
    ensures room { vec_capacity words.new ≡ vec_capacity words.old }
    ensures len { vec_len words.new ≡ vec_len words.old }
    ensures inside { (j : ℕ) → j / 64 ≡ k → j < n → row_in words.new.items j ≡ bit_of word (j % 64) }
    ensures clean { (j : ℕ) → j / 64 ≡ k → n ≤ j → k < vec_len words.old → row_in words.new.items j ≡ false }
    ensures other { (j : ℕ) → (j / 64 ≡ k → vec_len words.old ≤ k) → row_in words.new.items j ≡ row_in words.old.items j }
{
    if k < words.len() {
        words[k] = within(n, k, word);
    }
}

/// Words 4 q to 4 q + 3 become these.
pub(crate) fn put_four(words: &mut [u64], q: usize, lanes: &[u64; 4])
    requires { 4 * q + 4 ≤ length words.old }
    ensures len { length words.new ≡ length words.old }
    ensures inside { (j : ℕ) → j < 256 → row_in words.new (256 * q + j) ≡ row_in lanes.now j }
    ensures other { (j : ℕ) → (256 * q ≤ j → 256 * q + 256 ≤ j) → row_in words.new j ≡ row_in words.old j }
{
    for i in 0..4 {
        words[4 * q + i] = lanes[i];
    }
}

/// Word k; 0 past the last word.
fn word_at(words: &[u64], k: usize) -> u64
    ensures { result ≡ slice_index words.now k }
{
    match words.get(k) {
        Some(word) => *word,
        None => 0,
    }
}

/// Rows at, at + 1, .. at + n - 1 as the n lowest bits of a word.
pub(crate) fn bits(words: &[u64], at: usize, n: usize) -> u64
    requires { n ≤ 64 }
    ensures { (i : ℕ) → bit_of result i ≡ (nat_lt i n && row_in words.now (at + i)) }
{
    let (first, shift) = (at / 64, at % 64);
    let low = down(word_at(words, first), shift);
    let high = up(word_at(words, first + 1), 64 - shift);
    (low | high) & low_bits(n)
}

/// Clears all rows from n on.
pub(crate) fn cut(words: &mut Vec<u64>, n: usize)
    requires { vec_len words.old ≡ (n + 63) / 64 }
    ensures room { vec_capacity words.new ≡ vec_capacity words.old }
    ensures len { vec_len words.new ≡ vec_len words.old }
    ensures kept { (j : ℕ) → j < n → row_in words.new.items j ≡ row_in words.old.items j }
    ensures clean { (j : ℕ) → n ≤ j → row_in words.new.items j ≡ false }
{
    if n % 64 > 0 {
        words[n / 64] &= low_bits(n % 64);
    }
}

/// Clears all rows from n on.
pub(crate) fn without_rest(mut words: Vec<u64>, n: usize) -> Vec<u64>
    requires { vec_len words ≡ (n + 63) / 64 }
    ensures len { vec_len result ≡ vec_len words }
    ensures kept { (j : ℕ) → j < n → row_in result.items j ≡ row_in words.items j }
    ensures clean { (j : ℕ) → n ≤ j → row_in result.items j ≡ false }
{
    cut(&mut words, n);
    words
}

/// A word of zeros before row n, where n begins a word.
pub(crate) fn begin_word(words: &mut Vec<u64>, n: usize)
    requires count { vec_len words.old ≡ (n + 63) / 64 }
    requires room { n < 64 * vec_capacity words.old }
    ensures len { vec_len words.new ≡ n / 64 + 1 }
    ensures room { vec_capacity words.old ≤ vec_capacity words.new }
    ensures rows { (j : ℕ) → row_in words.new.items j ≡ row_in words.old.items j }
{
    if n % 64 == 0 {
        let Ok(()) = words.push(0) else {
            unreachable!()
        };
    }
}

/// A word of zeros after the last one, if n rows need one more.
pub(crate) fn fill_up(words: &mut Vec<u64>, n: usize)
    requires count { vec_len words.old ≤ (n + 63) / 64 }
    requires one { (n + 63) / 64 ≤ vec_len words.old + 1 }
    requires room { n ≤ 64 * vec_capacity words.old }
    ensures len { vec_len words.new ≡ (n + 63) / 64 }
    ensures room { vec_capacity words.old ≤ vec_capacity words.new }
    ensures rows { (j : ℕ) → row_in words.new.items j ≡ row_in words.old.items j }
{
    if words.len() < n.div_ceil(64) {
        let Ok(()) = words.push(0) else {
            unreachable!()
        };
    }
}

/// The word with bit i alone, for each i.
#[rattlefmt::skip]
static BITS: [u64; 64] = [
    1 << 0, 1 << 1, 1 << 2, 1 << 3, 1 << 4, 1 << 5, 1 << 6, 1 << 7,
    1 << 8, 1 << 9, 1 << 10, 1 << 11, 1 << 12, 1 << 13, 1 << 14, 1 << 15,
    1 << 16, 1 << 17, 1 << 18, 1 << 19, 1 << 20, 1 << 21, 1 << 22, 1 << 23,
    1 << 24, 1 << 25, 1 << 26, 1 << 27, 1 << 28, 1 << 29, 1 << 30, 1 << 31,
    1 << 32, 1 << 33, 1 << 34, 1 << 35, 1 << 36, 1 << 37, 1 << 38, 1 << 39,
    1 << 40, 1 << 41, 1 << 42, 1 << 43, 1 << 44, 1 << 45, 1 << 46, 1 << 47,
    1 << 48, 1 << 49, 1 << 50, 1 << 51, 1 << 52, 1 << 53, 1 << 54, 1 << 55,
    1 << 56, 1 << 57, 1 << 58, 1 << 59, 1 << 60, 1 << 61, 1 << 62, 1 << 63,
];

/// Whether bit i of a word is set.
// By a table, since SSE cannot shift each lane by its own distance: a loop over rows is twice as fast.
#[inline]
pub fn has_bit(word: u64, i: usize) -> bool
    requires { i < 64 }
    ensures { result ≡ bit_of word i }
{
    word & BITS[i] != 0
}

/// The index of the lowest set bit.
fn lowest(word: u64) -> usize
    requires { 0 < word }
    ensures below { result < 64 }
    ensures set { bit_of word result ≡ true }
    ensures least { (i : ℕ) → i < result → bit_of word i ≡ false }
{
    word.trailing_zeros() as usize
}

/// The first set row from i on.
pub(crate) fn next_row(words: &[u64], i: usize) -> Option<usize>
    requires { length words.now ≤ 2 ^ 32 }
    ensures { IsNext (row_in words.now) i result }
{
    let first = i / 64;
    if first >= words.len() {
        return None;
    }
    let word = words[first] & (u64::MAX << (i % 64));
    if word != 0 {
        return Some(first * 64 + lowest(word));
    }
    for k in first + 1..words.len() {
        let word = words[k];
        if word != 0 {
            return Some(k * 64 + lowest(word));
        }
    }
    None
}

/// Whether every bit that is set in `a` is set in `b`.
pub(crate) fn is_within(a: &[u64], b: &[u64]) -> bool
    requires { length a.now ≡ length b.now }
    ensures { IsTrue result ↔ ((j : ℕ) → row_in a.now j ≡ true → row_in b.now j ≡ true) }
{
    for k in 0..a.len() {
        if a[k] & !b[k] != 0 {
            return false;
        }
    }
    true
}

/// How many bits are set.
pub(crate) fn count_words(words: &[u64]) -> u64
    requires { length words.now ≤ 2 ^ 56 }
    ensures sum { result ≡ sum_by count_ones words.now }
    ensures fits { (k : ℕ) → slice_index words.now k < 2 ^ 64 }
{
    bw_lane::count_words(words)
}

/// How many bits are set in both words of each pair at the same index.
pub(crate) fn count_both_words(a: &[u64], b: &[u64]) -> u64
    requires same { length a.now ≡ length b.now }
    requires few { length a.now ≤ 2 ^ 56 }
    ensures sum { result ≡ sum_by (λ p. count_ones (bit_and p.0 p.1)) (zip a.now b.now) }
    ensures fits { (k : ℕ) → slice_index a.now k < 2 ^ 64 }
{
    bw_lane::count_and_words(a, b)
}
