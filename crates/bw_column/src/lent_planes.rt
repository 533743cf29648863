//! The planes of the distances of a column of kind OFFSET from a base, where blocks of them can be made of its codes.

ghost use Rattle.std.specs.Prelude.{IfSome, None, [], drop, if◌then◌else◌, is_some, length, map, nat_lt, slice_index, slice_index_or, take, true, ℕ, ◌%◌, ◌&&◌, ◌+◌, ◌<◌, ◌^◌, ◌≡◌, ◌≤◌, ◌⊎◌};
ghost use Rattle.bw_mask.specs.Masks.{bit_of, row_at, row_in};
ghost use Rattle.bw_cells.specs.Distances.{distance_from};
ghost use Rattle.bw_code.specs.Columns.{count};
ghost use Rattle.bw_code.specs.Widths.{widest_code};
ghost use Rattle.bw_code.specs.declared.encoding.Encoding.TheVariants as by;
ghost use Rattle.bw_column.specs.Codes.{AreRowCodes, values_from};
ghost use Rattle.bw_column.specs.Storing.{layout_of, list_of};
ghost use Rattle.bw_vertical.specs.Planes.{code_by_planes};

use crate::storage::Codes;
use bw_code::{BLOCK_ROWS, Offset, PlaneBlock};
use bw_mask::Mask;
use bw_vertical::{put_word_of_planes, read_word_of_planes, shift_words};

/// Whether `count` rows from row `at` on are all rows of eight segments of a column of `rows` rows, or of its last ones.
fn is_block(at: usize, count: usize, rows: usize) -> bool
    requires { at + count ≤ rows }
    ensures { result ≡ true → (at % 256 ≡ 0) × (0 < count) × ((count ≡ 2048) ⊎ (at + count ≡ rows)) }
{
    at % 256 == 0 && 0 < count && (count == BLOCK_ROWS || at + count == rows)
}

/// Whether an offset encoding has this base and codes of k bits.
fn is_frame(offset: Offset, base: i64, k: usize) -> bool
    ensures base { result ≡ true → offset.base ≡ base }
    ensures width { result ≡ true → offset.width ≡ k }
{
    offset.base == base && offset.width as usize == k
}

/// Rows at, at + 1, .. at + n - 1 of a mask as words of 64 rows. Rows past these are 0.
pub(crate) fn words_of_rows(mask: &Mask, at: usize, n: usize) -> [u64; 32]
    requires block { n ≤ 2048 }
    requires few { at + n ≤ 2 ^ 32 }
    ensures { (i : ℕ) → row_in result i ≡ (nat_lt i n && row_at mask.now (at + i)) }
{
    let mut words = [0; 32];
    for j in 0..n.div_ceil(64) {
        words[j] = mask.bits(at + 64 * j, (n - 64 * j).min(64));
    }
    words
}

/// The rows of a block hold numbers of `own` bits. Afterwards they hold the k lowest bits of these numbers, with `by`
/// added in the rows of a mask, given as words.
fn shift_block(block: &mut PlaneBlock, own: usize, k: usize, rows: &[u64; 32], by: u64)
    requires own { own ≤ widest_code }
    requires narrow { k ≤ widest_code }
    ensures { (b r : ℕ) → b < k → r < 2048 → row_in (slice_index_or block.new b []) r ≡ bit_of (code_by_planes own block.old r + (if row_in rows.now r then by else 0)) b }
{
    let mut words = [0; 64];
    for j in 0..32 {
        read_word_of_planes(block, own, j, &mut words);
        shift_words(&mut words, own, k, rows[j], by);
        put_word_of_planes(&words, k, j, block);
    }
}

/// The planes of k bits of the distances from a base, for at most 2,048 rows from row `at` on that are all rows of whole
/// segments, and which of them are non-null. Codes with another base or width are shifted plane by plane.
pub(crate) fn lent_planes(
    offset: Offset,
    codes: &Codes,
    nonnull: &Mask,
    at: usize,
    n: usize,
    base: i64,
    k: usize,
    block: &mut PlaneBlock,
) -> Option<[u64; 32]>
    requires rows { AreRowCodes (layout_of codes.now) (by.Offset offset) (list_of codes.now) nonnull.now }
    requires few { n ≤ 2048 }
    requires narrow { k ≤ widest_code }
    requires inside { at + n ≤ count (list_of codes.now) }
    ensures planes { IfSome result (λ present. (b r : ℕ) → b < k → r < 2048 → row_in (slice_index_or block.new b []) r ≡ bit_of (slice_index (map (distance_from base) (take n (drop at (values_from (by.Offset offset) (list_of codes.now) nonnull.now)))) r) b) }
    ensures present { IfSome result (λ present. (i : ℕ) → row_in present i ≡ is_some (slice_index_or (take n (drop at (values_from (by.Offset offset) (list_of codes.now) nonnull.now))) i None)) }
{
    if !is_block(at, n, codes.len()) || !codes.read_block(at, block) {
        return None;
    }
    let present = words_of_rows(nonnull, at, n);
    if !is_frame(offset, base, k) {
        let more = offset
            .base
            .cast_unsigned()
            .wrapping_sub(base.cast_unsigned());
        shift_block(block, offset.width as usize, k, &present, more);
    }
    Some(present)
}
