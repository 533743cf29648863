//! The words of blocks of planes, and the codes whose planes have these words.

ghost use Rattle.std.specs.Prelude.{[], length, slice_index, slice_index_or, ℕ, ◌*◌, ◌+◌, ◌<◌, ◌^◌, ◌≡◌, ◌≢◌, ◌≤◌};
ghost use Rattle.bw_code.specs.Widths.{widest_code, widest_half};
ghost use Rattle.bw_vertical.specs.Planes.{code_by};

use crate::bytes::{codes_of_words, halves_of_words};
use bw_code::PlaneBlock;

/// Word b becomes word j of plane b of a block, for the first k planes. The other words stay.
pub fn read_word_of_planes(block: &PlaneBlock, k: usize, j: usize, words: &mut [u64; 64])
    requires narrow { k ≤ widest_code }
    requires word { j < 32 }
    ensures read { (b : ℕ) → b < k → slice_index words.new b ≡ slice_index (slice_index_or block.now b []) j }
    ensures rest { (b : ℕ) → k ≤ b → slice_index words.new b ≡ slice_index words.old b }
{
    for b in 0..k {
        words[b] = block[b][j];
    }
}

/// Word j of a plane becomes this word.
pub(crate) fn put_word(plane: &mut [u64; 32], j: usize, word: u64)
    requires { j < 32 }
    ensures here { slice_index plane.new j ≡ word }
    ensures others { (m : ℕ) → m ≢ j → slice_index plane.new m ≡ slice_index plane.old m }
{
    plane[j] = word;
}

/// Word j of plane b of a block becomes word b, for the first k planes. No other word changes.
pub fn put_word_of_planes(words: &[u64; 64], k: usize, j: usize, block: &mut PlaneBlock)
    requires narrow { k ≤ widest_code }
    requires word { j < 32 }
    ensures written { (b : ℕ) → b < k → slice_index (slice_index_or block.new b []) j ≡ slice_index words.now b }
    ensures others { (b m : ℕ) → m ≢ j → slice_index (slice_index_or block.new b []) m ≡ slice_index (slice_index_or block.old b []) m }
    ensures rest { (b m : ℕ) → k ≤ b → slice_index (slice_index_or block.new b []) m ≡ slice_index (slice_index_or block.old b []) m }
{
    for b in 0..k {
        put_word(&mut block[b], j, words[b]);
    }
}

/// Fills `out` with the first of the numbers.
fn widen(numbers: &[u32; 64], out: &mut [u64])
    requires few { length out.old ≤ 64 }
    ensures len { length out.new ≡ length out.old }
    ensures same { (r : ℕ) → r < length out.old → slice_index out.new r ≡ slice_index numbers.now r }
{
    // A loop of fixed length for all runs but the last.
    if let Some(run) = out.as_mut_array::<64>() {
        for q in 0..64 {
            run[q] = u64::from(numbers[q]);
        }
        return;
    }
    for r in 0..out.len() {
        out[r] = u64::from(numbers[r]);
    }
}

/// Fills `out` with the first of the 64-bit numbers that have these halves.
fn join(low: &[u32; 64], high: &[u32; 64], out: &mut [u64])
    requires few { length out.old ≤ 64 }
    ensures len { length out.new ≡ length out.old }
    ensures same { (r : ℕ) → r < length out.old → slice_index out.new r ≡ slice_index low.now r + 2 ^ 32 * slice_index high.now r }
{
    // As in `widen`.
    if let Some(run) = out.as_mut_array::<64>() {
        for q in 0..64 {
            run[q] = u64::from(low[q]) + 0x1_0000_0000 * u64::from(high[q]);
        }
        return;
    }
    for r in 0..out.len() {
        out[r] = u64::from(low[r]) + 0x1_0000_0000 * u64::from(high[r]);
    }
}

/// Fills `out` with the codes of k bits, more than 32, whose planes have these words.
///
/// Kept separate in the machine code too: the lists of halves are cleared where the function begins.
#[inline(never)]
fn put_wide_codes(words: &[u64; 64], k: usize, out: &mut [u64])
    requires wide { widest_half ≤ k }
    requires narrow { k ≤ widest_code }
    requires few { length out.old ≤ 64 }
    requires rest { (b : ℕ) → k ≤ b → b < 64 → slice_index words.now b ≡ 0 }
    ensures len { length out.new ≡ length out.old }
    ensures codes { (r : ℕ) → r < length out.old → slice_index out.new r ≡ code_by k words.now r }
{
    let (low, high) = halves_of_words(words, k);
    join(&low, &high, out);
}

/// Fills `out` with the codes of k bits whose planes have these words.
pub fn put_codes_of_words(words: &[u64; 64], k: usize, out: &mut [u64])
    requires narrow { k ≤ widest_code }
    requires few { length out.old ≤ 64 }
    requires rest { (b : ℕ) → k ≤ b → b < 64 → slice_index words.now b ≡ 0 }
    ensures len { length out.new ≡ length out.old }
    ensures codes { (r : ℕ) → r < length out.old → slice_index out.new r ≡ code_by k words.now r }
{
    if k <= 32 {
        let (halves, _) = words.as_chunks::<32>();
        widen(&codes_of_words(&halves[0], k), out);
    } else {
        put_wide_codes(words, k, out);
    }
}
