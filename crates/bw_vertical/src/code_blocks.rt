//! Blocks of planes made of codes, 64 rows at a time.

ghost use Rattle.std.specs.Prelude.{[], length, slice_index, slice_index_or, ℕ, ◌+◌, ◌-◌, ◌<◌, ◌≡◌, ◌≢◌, ◌≤◌};
ghost use Rattle.bw_mask.specs.Masks.{bit_of, row_in};
ghost use Rattle.bw_code.specs.Widths.{widest_code, widest_half};

use crate::block_words::put_word;
use crate::blocks::narrowed;
use crate::bytes::{byte_of_each, pair_of_each, rows_with_bit};
use bw_code::{PlaneBlock, filled_up};

/// Word j of plane `low` + t - `spare` of a block becomes bit t of these bytes, where there is such a plane. No other
/// word changes.
///
/// A word goes to its plane at once: gathered in a list first, the words of two planes are put together in vector
/// registers, and a SAVE of plain codes takes a twentieth longer.
pub fn put_planes_of_bytes(
    block: &mut PlaneBlock,
    j: usize,
    low: usize,
    spare: usize,
    bytes: &[u8; 64],
)
    requires word { j < 32 }
    requires few { spare < 8 }
    requires inside { low + 8 ≤ 64 + spare }
    ensures put { (t r : ℕ) → t < 8 → spare ≤ low + t → r < 64 → bit_of (slice_index (slice_index_or block.new (low + t - spare) []) j) r ≡ bit_of (slice_index bytes.now r) t }
    ensures others { (b m : ℕ) → m ≢ j → slice_index (slice_index_or block.new b []) m ≡ slice_index (slice_index_or block.old b []) m }
    ensures away { (b m : ℕ) → (low ≤ b + spare → low + 8 ≤ b + spare) → slice_index (slice_index_or block.new b []) m ≡ slice_index (slice_index_or block.old b []) m }
{
    for t in 0..8 {
        if spare <= low + t {
            put_word(
                &mut block[low + t - spare],
                j,
                rows_with_bit(bytes, t as u32),
            );
        }
    }
}

/// Word j of the planes from `low` on becomes the k lowest bits of the pairs of bytes. Word j of the planes from `low` + k
/// on is unspecified; no other word changes.
fn put_pairs(pairs: &[u16; 64], k: usize, j: usize, low: usize, block: &mut PlaneBlock)
    requires narrow { k ≤ 16 }
    requires word { j < 32 }
    requires inside { low + 16 ≤ 64 }
    ensures put { (b r : ℕ) → b < k → r < 64 → bit_of (slice_index (slice_index_or block.new (low + b) []) j) r ≡ bit_of (slice_index pairs.now r) b }
    ensures others { (b m : ℕ) → m ≢ j → slice_index (slice_index_or block.new b []) m ≡ slice_index (slice_index_or block.old b []) m }
    ensures below { (b m : ℕ) → b < low → slice_index (slice_index_or block.new b []) m ≡ slice_index (slice_index_or block.old b []) m }
{
    put_planes_of_bytes(block, j, low, 0, &byte_of_each(pairs, 0));
    if k > 8 {
        put_planes_of_bytes(block, j, low + 8, 0, &byte_of_each(pairs, 1));
    }
}

/// Word j of the planes from `low` on becomes the k lowest bits of the codes. Word j of the planes from `low` + k on is
/// unspecified; no other word changes.
fn put_word_of_codes(codes: &[u32; 64], k: usize, j: usize, low: usize, block: &mut PlaneBlock)
    requires narrow { k ≤ widest_half }
    requires word { j < 32 }
    requires inside { low + 32 ≤ 64 }
    ensures put { (b r : ℕ) → b < k → r < 64 → bit_of (slice_index (slice_index_or block.new (low + b) []) j) r ≡ bit_of (slice_index codes.now r) b }
    ensures others { (b m : ℕ) → m ≢ j → slice_index (slice_index_or block.new b []) m ≡ slice_index (slice_index_or block.old b []) m }
    ensures below { (b m : ℕ) → b < low → slice_index (slice_index_or block.new b []) m ≡ slice_index (slice_index_or block.old b []) m }
{
    put_pairs(&pair_of_each(codes, 0), k.min(16), j, low, block);
    if k > 16 {
        put_pairs(&pair_of_each(codes, 1), k - 16, j, low + 16, block);
    }
}

/// Word j of the first k planes of a block becomes the bits of at most 64 codes of at most 32 bits. Rows after the codes
/// are 0. Word j of the other planes is unspecified; no other word changes.
fn put_word_of_narrow(codes: &[u32], k: usize, j: usize, block: &mut PlaneBlock)
    requires few { length codes.now ≤ 64 }
    requires narrow { k ≤ widest_half }
    requires word { j < 32 }
    ensures put { (b r : ℕ) → b < k → r < 64 → bit_of (slice_index (slice_index_or block.new b []) j) r ≡ bit_of (slice_index codes.now r) b }
    ensures others { (b m : ℕ) → m ≢ j → slice_index (slice_index_or block.new b []) m ≡ slice_index (slice_index_or block.old b []) m }
{
    // All runs but the last have 64 codes, which are read where they lie.
    if let Some(run) = codes.as_array::<64>() {
        put_word_of_codes(run, k, j, 0, block);
    } else {
        put_word_of_codes(&filled_up(codes), k, j, 0, block);
    }
}

/// Word j of the first k planes of a block becomes the bits of at most 64 codes. Rows after the codes are 0. Word j of the
/// other planes is unspecified; no other word changes.
pub fn put_word_of_wide(codes: &[u64], k: usize, j: usize, block: &mut PlaneBlock)
    requires few { length codes.now ≤ 64 }
    requires narrow { k ≤ widest_code }
    requires word { j < 32 }
    ensures put { (b r : ℕ) → b < k → r < 64 → bit_of (slice_index (slice_index_or block.new b []) j) r ≡ bit_of (slice_index codes.now r) b }
    ensures others { (b m : ℕ) → m ≢ j → slice_index (slice_index_or block.new b []) m ≡ slice_index (slice_index_or block.old b []) m }
{
    put_word_of_codes(&narrowed(codes, 0), k.min(32), j, 0, block);
    if k > 32 {
        put_word_of_codes(&narrowed(codes, 32), k - 32, j, 32, block);
    }
}

/// The bits of at most 2,048 codes of at most 32 bits become the first k planes of a block. Rows after the codes are 0.
pub fn put_block_of_narrow(codes: &[u32], k: usize, block: &mut PlaneBlock)
    requires few { length codes.now ≤ 2048 }
    requires narrow { k ≤ widest_half }
    ensures { (b r : ℕ) → b < k → r < 2048 → row_in (slice_index_or block.new b []) r ≡ bit_of (slice_index codes.now r) b }
{
    for j in 0..32 {
        let from = codes.len().min(64 * j);
        let end = codes.len().min(64 * j + 64);
        put_word_of_narrow(&codes[from..end], k, j, block);
    }
}

/// The bits of at most 2,048 codes become the first k planes of a block. Rows after the codes are 0.
pub fn put_block_of_wide(codes: &[u64], k: usize, block: &mut PlaneBlock)
    requires few { length codes.now ≤ 2048 }
    requires narrow { k ≤ widest_code }
    ensures { (b r : ℕ) → b < k → r < 2048 → row_in (slice_index_or block.new b []) r ≡ bit_of (slice_index codes.now r) b }
{
    for j in 0..32 {
        let from = codes.len().min(64 * j);
        let end = codes.len().min(64 * j + 64);
        put_word_of_wide(&codes[from..end], k, j, block);
    }
}
