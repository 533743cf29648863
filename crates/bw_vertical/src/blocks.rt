//! Reading and writing the codes of all rows of a word at once.

ghost use Rattle.std.specs.Prelude.{false, length, slice_index, vec_len, ℕ, ◌%◌, ◌*◌, ◌+◌, ◌-◌, ◌/◌, ◌<◌, ◌^◌, ◌≡◌, ◌≤◌};
ghost use Rattle.bw_mask.specs.Masks.{bit_of};
ghost use Rattle.bw_code.specs.Widths.{widest_code, widest_half};
ghost use Rattle.bw_vertical.specs.Storage.{HasSegment, KeepsSizes, code_of, groups_of, is_set, lists};

use crate::bytes::{codes_of_words, halves_of_words, put_codes};
use crate::storage::{add_words, take_planes};

/// The codes, of at most 32 bits, of rows 64 w to 64 w + 63.
#[inline(always)]
fn block_at(groups: &[Vec<[u64; 4]>], k: usize, w: usize) -> [u32; 64]
    requires narrow { k ≤ widest_half }
    requires small { w < 2 ^ 32 }
    requires count { length groups.now ≡ groups_of k }
    requires there { HasSegment k (lists groups.now) (w / 4) }
    ensures { (r : ℕ) → r < 64 → slice_index result r ≡ code_of k (lists groups.now) (64 * w + r) }
{
    let mut words = [0; 32];
    take_planes(groups, k, w, &mut words);
    codes_of_words(&words, k)
}

/// The codes, of more than 32 bits, of rows 64 w to 64 w + 63: the 32 lowest bits of each, and the bits above those.
fn halves_at(groups: &[Vec<[u64; 4]>], k: usize, w: usize) -> ([u32; 64], [u32; 64])
    requires wide { widest_half ≤ k }
    requires narrow { k ≤ widest_code }
    requires small { w < 2 ^ 32 }
    requires count { length groups.now ≡ groups_of k }
    requires there { HasSegment k (lists groups.now) (w / 4) }
    ensures { (r : ℕ) → r < 64 → slice_index result.0 r + 2 ^ 32 * slice_index result.1 r ≡ code_of k (lists groups.now) (64 * w + r) }
{
    let mut words = [0; 64];
    take_planes(groups, k, w, &mut words);
    halves_of_words(&words, k)
}

/// Copies n numbers of a block, from index `from` on, to `out`, from index `at` on.
fn copy_run(block: &[u32], from: usize, n: usize, out: &mut [u64], at: usize)
    requires block { from + n ≤ length block.now }
    requires out { at + n ≤ length out.old }
    ensures long { length out.new ≡ length out.old }
    ensures before { (i : ℕ) → i < at → slice_index out.new i ≡ slice_index out.old i }
    ensures copied { (r : ℕ) → r < n → slice_index out.new (at + r) ≡ slice_index block.now (from + r) }
{
    for r in 0..n {
        out[at + r] = u64::from(block[from + r]);
    }
}

/// The same, which is faster where the length is known: most runs are whole blocks.
fn copy_of_block(block: &[u32; 64], from: usize, n: usize, out: &mut [u64], at: usize)
    requires block { from + n ≤ 64 }
    requires out { at + n ≤ length out.old }
    ensures long { length out.new ≡ length out.old }
    ensures before { (i : ℕ) → i < at → slice_index out.new i ≡ slice_index out.old i }
    ensures copied { (r : ℕ) → r < n → slice_index out.new (at + r) ≡ slice_index block.now (from + r) }
{
    if n == 64 {
        copy_run(block, from, 64, out, at);
    } else {
        copy_run(block, from, n, out, at);
    }
}

/// Copies n 64-bit numbers, given in halves, from index `from` of a block on, to `out`, from index `at` on.
fn copy_halves(low: &[u32], high: &[u32], from: usize, n: usize, out: &mut [u64], at: usize)
    requires low { from + n ≤ length low.now }
    requires high { from + n ≤ length high.now }
    requires out { at + n ≤ length out.old }
    ensures long { length out.new ≡ length out.old }
    ensures before { (i : ℕ) → i < at → slice_index out.new i ≡ slice_index out.old i }
    ensures copied { (r : ℕ) → r < n → slice_index out.new (at + r) ≡ slice_index low.now (from + r) + 2 ^ 32 * slice_index high.now (from + r) }
{
    for r in 0..n {
        out[at + r] = u64::from(low[from + r]) + 0x1_0000_0000 * u64::from(high[from + r]);
    }
}

/// Fills `out` with the codes of rows `at`, `at + 1`, .., of at most 32 bits.
fn read_narrow(groups: &[Vec<[u64; 4]>], k: usize, at: usize, out: &mut [u64])
    requires narrow { k ≤ widest_half }
    requires small { at + length out.old ≤ 2 ^ 32 }
    requires count { length groups.now ≡ groups_of k }
    requires there { (j : ℕ) → j < at + length out.old → HasSegment k (lists groups.now) (j / 256) }
    ensures long { length out.new ≡ length out.old }
    ensures codes { (i : ℕ) → i < length out.old → slice_index out.new i ≡ code_of k (lists groups.now) (at + i) }
{
    let mut i = 0;
    while i < out.len() {
        let from = (at + i) % 64;
        let n = (64 - from).min(out.len() - i);
        let block = block_at(groups, k, (at + i) / 64);
        copy_of_block(&block, from, n, out, i);
        i += n;
    }
}

/// Fills `out` with the codes of rows `at`, `at + 1`, .., of more than 32 bits.
fn read_wide(groups: &[Vec<[u64; 4]>], k: usize, at: usize, out: &mut [u64])
    requires wide { widest_half ≤ k }
    requires narrow { k ≤ widest_code }
    requires small { at + length out.old ≤ 2 ^ 32 }
    requires count { length groups.now ≡ groups_of k }
    requires there { (j : ℕ) → j < at + length out.old → HasSegment k (lists groups.now) (j / 256) }
    ensures long { length out.new ≡ length out.old }
    ensures codes { (i : ℕ) → i < length out.old → slice_index out.new i ≡ code_of k (lists groups.now) (at + i) }
{
    let mut i = 0;
    while i < out.len() {
        let from = (at + i) % 64;
        let n = (64 - from).min(out.len() - i);
        let (low, high) = halves_at(groups, k, (at + i) / 64);
        copy_halves(&low, &high, from, n, out, i);
        i += n;
    }
}

/// Fills `out` with the codes of rows `at`, `at + 1`, ..
pub(crate) fn read_codes(groups: &[Vec<[u64; 4]>], k: usize, at: usize, out: &mut [u64])
    requires narrow { k ≤ widest_code }
    requires small { at + length out.old ≤ 2 ^ 32 }
    requires count { length groups.now ≡ groups_of k }
    requires there { (j : ℕ) → j < at + length out.old → HasSegment k (lists groups.now) (j / 256) }
    ensures long { length out.new ≡ length out.old }
    ensures codes { (i : ℕ) → i < length out.old → slice_index out.new i ≡ code_of k (lists groups.now) (at + i) }
{
    // Two loops, since one that branches at each block is slower.
    if k <= 32 {
        read_narrow(groups, k, at, out);
    } else {
        read_wide(groups, k, at, out);
    }
}

/// The 32 bits of each code from bit `down` on become the first n numbers of a block.
fn narrow(codes: &[u64], down: u32, n: usize, block: &mut [u32; 64])
    requires all { n ≡ length codes.now }
    requires few { n ≤ 64 }
    requires down { down < 64 }
    ensures codes { (r : ℕ) → r < n → slice_index block.new r ≡ slice_index codes.now r / 2 ^ down % 2 ^ 32 }
    ensures rest { (r : ℕ) → n ≤ r → slice_index block.new r ≡ slice_index block.old r }
{
    for r in 0..n {
        block[r] = ((codes[r] >> down) % 0x1_0000_0000) as u32;
    }
}

/// The 32 bits of each code from bit `down` on, padded with zeros.
pub(crate) fn narrowed(codes: &[u64], down: u32) -> [u32; 64]
    requires few { length codes.now ≤ 64 }
    requires down { down < 64 }
    ensures { (r : ℕ) → slice_index result r ≡ slice_index codes.now r / 2 ^ down % 2 ^ 32 }
{
    let mut block = [0; 64];
    // Most calls have 64 codes, and are faster where the length is known.
    if codes.len() == 64 {
        narrow(codes, down, 64, &mut block);
    } else {
        narrow(codes, down, codes.len(), &mut block);
    }
    block
}

/// The words of the planes of codes of at most 32 bits: bit r of word b is bit b of code r, and 0 where there is no
/// such code. The words from k on are unspecified.
pub fn plane_words(codes: &[u64], k: usize) -> [u64; 32]
    requires few { length codes.now ≤ 64 }
    requires narrow { k ≤ widest_half }
    ensures { (b r : ℕ) → b < k → r < 64 → bit_of (slice_index result b) r ≡ bit_of (slice_index codes.now r) b }
{
    let mut words = [0; 32];
    put_codes(&narrowed(codes, 0), k, &mut words, 0);
    words
}

/// The same for codes of at most 64 bits. Where 32 words are enough, `plane_words` is faster.
pub fn wide_plane_words(codes: &[u64], k: usize) -> [u64; 64]
    requires few { length codes.now ≤ 64 }
    requires narrow { k ≤ widest_code }
    ensures { (b r : ℕ) → b < k → r < 64 → bit_of (slice_index result b) r ≡ bit_of (slice_index codes.now r) b }
{
    let mut words = [0; 64];
    put_plane_words(codes, k, &mut words);
    words
}

/// Writes these words to `words`, which need not be cleared before.
pub fn put_plane_words(codes: &[u64], k: usize, words: &mut [u64; 64])
    requires few { length codes.now ≤ 64 }
    requires narrow { k ≤ widest_code }
    ensures { (b r : ℕ) → b < k → r < 64 → bit_of (slice_index words.new b) r ≡ bit_of (slice_index codes.now r) b }
{
    put_codes(&narrowed(codes, 0), k.min(32), words, 0);
    if k > 32 {
        put_codes(&narrowed(codes, 32), k - 32, words, 32);
    }
}

/// Appends n rows from row `at` on, which lie in one word, by the words of their planes: word b has bit b of each code,
/// and no bit after the rows. Before, no row from `at` on was set.
#[tactic(auto, using(crate::proofs::Settings::word_there))]
pub(crate) fn put_planes(
    groups: &mut Vec<Vec<[u64; 4]>>,
    k: usize,
    at: usize,
    n: usize,
    words: &[u64; 64],
)
    requires narrow { k ≤ widest_code }
    requires small { at < 2 ^ 32 }
    requires count { vec_len groups.old ≡ groups_of k }
    requires there { HasSegment k (lists groups.old.items) (at / 256) }
    requires few { at % 64 + n ≤ 64 }
    requires rest { (b r : ℕ) → b < k → n ≤ r → r < 64 → bit_of (slice_index words.now b) r ≡ false }
    requires clean { (i j : ℕ) → i < k → at ≤ j → is_set k (lists groups.old.items) i j ≡ false }
    ensures sizes { KeepsSizes groups.new.items groups.old.items }
    ensures kept { (i j : ℕ) → i < k → j < at → is_set k (lists groups.new.items) i j ≡ is_set k (lists groups.old.items) i j }
    ensures added { (i r : ℕ) → i < k → r < n → is_set k (lists groups.new.items) i (at + r) ≡ bit_of (slice_index words.now (k - 1 - i)) r }
    ensures clean { (i j : ℕ) → i < k → at + n ≤ j → is_set k (lists groups.new.items) i j ≡ false }
{
    add_words(groups, k, at / 64, words, at % 64);
}

/// The codes of rows `at`, `at + 1`, .. become those whose planes have these words. The rows lie in one word. Before,
/// no row from `at` on was set. The codes are named only in the clauses.
#[tactic(auto, using(crate::proofs::Settings::word_there))]
fn put_rows(groups: &mut Vec<Vec<[u64; 4]>>, k: usize, at: usize, codes: &[u64], words: &[u64])
    requires narrow { k ≤ widest_code }
    requires small { at < 2 ^ 32 }
    requires count { vec_len groups.old ≡ groups_of k }
    requires there { HasSegment k (lists groups.old.items) (at / 256) }
    requires few { at % 64 + length codes.now ≤ 64 }
    requires long { k ≤ length words.now }
    requires rows { (b r : ℕ) → b < k → r < 64 → bit_of (slice_index words.now b) r ≡ bit_of (slice_index codes.now r) b }
    requires clean { (i j : ℕ) → i < k → at ≤ j → is_set k (lists groups.old.items) i j ≡ false }
    ensures sizes { KeepsSizes groups.new.items groups.old.items }
    ensures kept { (i j : ℕ) → i < k → j < at → is_set k (lists groups.new.items) i j ≡ is_set k (lists groups.old.items) i j }
    ensures added { (i r : ℕ) → i < k → r < length codes.now → is_set k (lists groups.new.items) i (at + r) ≡ bit_of (slice_index codes.now r) (k - 1 - i) }
    ensures clean { (i j : ℕ) → i < k → at + length codes.now ≤ j → is_set k (lists groups.new.items) i j ≡ false }
{
    add_words(groups, k, at / 64, words, at % 64);
}

/// The codes of rows `at`, `at + 1`, .., which lie in one word, become these. Before, no row from `at` on was set.
pub(crate) fn put_block(groups: &mut Vec<Vec<[u64; 4]>>, k: usize, at: usize, codes: &[u64])
    requires narrow { k ≤ widest_code }
    requires small { at < 2 ^ 32 }
    requires count { vec_len groups.old ≡ groups_of k }
    requires there { HasSegment k (lists groups.old.items) (at / 256) }
    requires few { at % 64 + length codes.now ≤ 64 }
    requires clean { (i j : ℕ) → i < k → at ≤ j → is_set k (lists groups.old.items) i j ≡ false }
    ensures sizes { KeepsSizes groups.new.items groups.old.items }
    ensures kept { (i j : ℕ) → i < k → j < at → is_set k (lists groups.new.items) i j ≡ is_set k (lists groups.old.items) i j }
    ensures added { (i r : ℕ) → i < k → r < length codes.now → is_set k (lists groups.new.items) i (at + r) ≡ bit_of (slice_index codes.now r) (k - 1 - i) }
    ensures clean { (i j : ℕ) → i < k → at + length codes.now ≤ j → is_set k (lists groups.new.items) i j ≡ false }
{
    if k <= 32 {
        put_rows(groups, k, at, codes, &plane_words(codes, k));
    } else {
        put_rows(groups, k, at, codes, &wide_plane_words(codes, k));
    }
}
