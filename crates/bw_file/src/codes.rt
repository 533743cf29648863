//! Reading the codes of a column from its planes, 64 at a time.

ghost use Rattle.std.specs.Prelude.{[], length, nat_lt, slice_index, slice_index_or, ℕ, ◌%◌, ◌&&◌, ◌*◌, ◌+◌, ◌-◌, ◌<◌, ◌==◌, ◌^◌, ◌≡◌, ◌≤◌};
ghost use Rattle.bw_mask.specs.Masks.{bit_of, row_in};
ghost use Rattle.bw_code.specs.Widths.{widest_code};
ghost use Rattle.bw_file.specs.Planes.{code_in, plane_bit};

use crate::row_bits::{bits_of_rows, read_rows};
use bw_code::PlaneBlock;
use bw_vertical::put_codes_of_words;
use byteorder::{ByteOrder, LittleEndian};

/// Word b has bit b of the codes of `count` rows from row `at` on, which is the first row of a byte.
pub(crate) fn words_at(planes: &[u8], size: usize, k: usize, at: usize, count: usize) -> [u64; 64]
    requires narrow { k ≤ widest_code }
    requires few { count ≤ 64 }
    requires first { at % 8 ≡ 0 }
    requires short { size ≤ 2 ^ 24 }
    requires inside { at + count ≤ 8 * size }
    requires planes { length planes.now ≡ k * size }
    ensures bits { (b r : ℕ) → b < k → bit_of (slice_index result b) r ≡ ((plane_bit size planes.now (k - 1 - b) (at + r) == 1) && nat_lt r count) }
    ensures rest { (b : ℕ) → k ≤ b → slice_index result b ≡ 0 }
{
    // All runs but the last have 64 rows.
    if count == 64 {
        return words_of_run(planes, size, k, at);
    }
    let mut words = [0; 64];
    for i in 0..k {
        words[k - 1 - i] = bits_of_rows(planes, 8 * (i * size) + at, count);
    }
    words
}

/// Word b has bit b of the codes of the 64 rows from row `at` on, which is the first row of a byte.
fn words_of_run(planes: &[u8], size: usize, k: usize, at: usize) -> [u64; 64]
    requires narrow { k ≤ widest_code }
    requires first { at % 8 ≡ 0 }
    requires short { size ≤ 2 ^ 24 }
    requires inside { at + 64 ≤ 8 * size }
    requires planes { length planes.now ≡ k * size }
    ensures bits { (b r : ℕ) → b < k → bit_of (slice_index result b) r ≡ ((plane_bit size planes.now (k - 1 - b) (at + r) == 1) && nat_lt r 64) }
    ensures rest { (b : ℕ) → k ≤ b → slice_index result b ≡ 0 }
{
    let mut words = [0; 64];
    for i in 0..k {
        words[k - 1 - i] = LittleEndian::read_u64(&planes[i * size + at / 8..]);
    }
    words
}

/// Fills `out` with the codes of k bits of at most 64 rows from row `at` on, which is the first row of a byte. Each
/// plane has `size` bytes.
pub(crate) fn read_codes(planes: &[u8], size: usize, k: usize, at: usize, out: &mut [u64])
    requires narrow { k ≤ widest_code }
    requires few { length out.old ≤ 64 }
    requires first { at % 8 ≡ 0 }
    requires short { size ≤ 2 ^ 24 }
    requires inside { at + length out.old ≤ 8 * size }
    requires planes { length planes.now ≡ k * size }
    ensures len { length out.new ≡ length out.old }
    ensures codes { (r : ℕ) → r < length out.old → slice_index out.new r ≡ code_in k size planes.now (at + r) }
{
    let words = words_at(planes, size, k, at, out.len());
    put_codes_of_words(&words, k, out);
}

/// Fills plane b of a block, for each b below k, with bit b of the codes of `count` rows, at most 2,048, from row `at`
/// on, which is the first row of a byte. Rows past these are 0. Each plane has `size` bytes.
pub(crate) fn read_block(
    planes: &[u8],
    size: usize,
    k: usize,
    at: usize,
    count: usize,
    block: &mut PlaneBlock,
)
    requires narrow { k ≤ widest_code }
    requires few { count ≤ 2048 }
    requires first { at % 8 ≡ 0 }
    requires short { size ≤ 2 ^ 24 }
    requires inside { at + count ≤ 8 * size }
    requires planes { length planes.now ≡ k * size }
    ensures { (b r : ℕ) → b < k → r < 2048 → row_in (slice_index_or block.new b []) r ≡ ((plane_bit size planes.now (k - 1 - b) (at + r) == 1) && nat_lt r count) }
{
    for i in 0..k {
        read_rows(planes, 8 * (i * size) + at, count, &mut block[k - 1 - i]);
    }
}
