//! Writing the planes of a column, a block of rows at a time.

ghost use Rattle.std.specs.Prelude.{All, None, [], drop, is_some, length, map, slice_index, slice_index_or, take, true, ℕ, ◌%◌, ◌*◌, ◌+◌, ◌-◌, ◌/◌, ◌<◌, ◌==◌, ◌^◌, ◌≡◌, ◌≤◌, ◌⊎◌};
ghost use Rattle.bw_mask.specs.Masks.{bit_of, row_in};
ghost use Rattle.bw_cells.specs.Distances.{distance_from};
ghost use Rattle.bw_cells.specs.Known.{known};
ghost use Rattle.bw_code.specs.Encodings.{IsWithin};
ghost use Rattle.bw_code.specs.Headers.{row_limit};
ghost use Rattle.bw_code.specs.Widths.{widest_code};
ghost use Rattle.bw_file.specs.Cells.{presence_bytes, presence_size};
ghost use Rattle.bw_file.specs.Planes.{bit_in, column_bytes, column_size, frame_of, plane_bit, plane_bytes, HasBase, HasTop, IsNear, IsWideCell};

use crate::seen::Seen;
use bw_cells::Measured;
use bw_code::{BLOCK_ROWS, Offset, PlaneBlock};
use bw_vertical::put_word_of_wide;
use byteorder::{ByteOrder, LittleEndian};
use std::simd::prelude::*;

/// Writes the first bytes of a word, the lowest first.
fn put_word(out: &mut [u8], word: u64)
    requires few { length out.old ≤ 8 }
    ensures len { length out.new ≡ length out.old }
    ensures bits { (i : ℕ) → i / 8 < length out.old → bit_of (slice_index out.new (i / 8)) (i % 8) ≡ bit_of word i }
{
    // All blocks but the last have 8 bytes, which are written as one word.
    if out.len() == 8 {
        LittleEndian::write_u64(out, word);
    } else {
        out.copy_from_slice(&word.to_le_bytes()[..out.len()]);
    }
}

/// The bytes of the first eight words, the lowest byte of each word first. They are one vector, which is stored at once.
fn bytes_in(words: &[u64]) -> [u8; 64]
    requires { 8 ≤ length words.now }
    ensures { (i : ℕ) → i < 512 → bit_of (slice_index result (i / 8)) (i % 8) ≡ row_in words.now i }
{
    u64x8::from_slice(words).to_le_bytes().to_array()
}

/// Writes the words of one plane as bytes, the lowest first. The last words are left out where there are fewer bytes.
fn put_plane(out: &mut [u8], words: &[u64; 32])
    requires few { length out.old ≤ 256 }
    ensures len { length out.new ≡ length out.old }
    ensures bits { (i : ℕ) → i / 8 < length out.old → bit_of (slice_index out.new (i / 8)) (i % 8) ≡ row_in words.now i }
{
    // All blocks of rows but the last have all of the bytes.
    if out.len() == BLOCK_ROWS / 8 {
        for q in 0..4 {
            out[64 * q..64 * q + 64].copy_from_slice(&bytes_in(&words[8 * q..]));
        }
    } else {
        for j in 0..out.len().div_ceil(8) {
            let end = out.len().min(8 * j + 8);
            put_word(&mut out[8 * j..end], words[j]);
        }
    }
}

/// Writes the bits of 2,048 rows from row `at` on, the first row of a byte, to plane p. Each plane has `size` bytes; bits
/// past them are left out.
fn put_run(planes: &mut [u8], size: usize, k: usize, p: usize, at: usize, rows: &[u64; 32])
    requires narrow { k ≤ widest_code }
    requires plane { p < k }
    requires first { at % 8 ≡ 0 }
    requires short { size ≤ 2 ^ 24 }
    requires planes { length planes.old ≡ k * size }
    ensures len { length planes.new ≡ length planes.old }
    ensures small { (j : ℕ) → slice_index planes.new j < 256 }
    ensures inside { (i : ℕ) → i / 8 < size → at ≤ i → i < at + 2048 → (plane_bit size planes.new p i == 1) ≡ row_in rows.now (i - at) }
    ensures outside { (q i : ℕ) → i / 8 < size → (q ≡ p → at ≤ i → at + 2048 ≤ i) → plane_bit size planes.new q i ≡ plane_bit size planes.old q i }
{
    if at / 8 < size {
        let end = size.min((at + BLOCK_ROWS) / 8);
        put_plane(&mut planes[p * size + at / 8..p * size + end], rows);
    }
}

/// Writes the bits of two blocks of rows, one after the other, the first of which begins with row `at`, the first row of
/// a byte. Plane b of a block has bit b of their codes. Each plane has `size` bytes; bits past them are left out. The
/// planes lie far apart, so that the less often the loop comes back to one, the faster it is.
fn put_blocks(
    planes: &mut [u8],
    size: usize,
    k: usize,
    at: usize,
    first: &PlaneBlock,
    second: &PlaneBlock,
)
    requires narrow { k ≤ widest_code }
    requires first { at % 8 ≡ 0 }
    requires short { size ≤ 2 ^ 24 }
    requires there { at / 8 ≤ size }
    requires planes { length planes.old ≡ k * size }
    ensures len { length planes.new ≡ length planes.old }
    ensures small { (j : ℕ) → slice_index planes.new j < 256 }
    ensures first { (p i : ℕ) → p < k → i / 8 < size → at ≤ i → i < at + 2048 → (plane_bit size planes.new p i == 1) ≡ row_in (slice_index_or first.now (k - 1 - p) []) (i - at) }
    ensures second { (p i : ℕ) → p < k → i / 8 < size → at + 2048 ≤ i → i < at + 4096 → (plane_bit size planes.new p i == 1) ≡ row_in (slice_index_or second.now (k - 1 - p) []) (i - (at + 2048)) }
    ensures outside { (p i : ℕ) → p < k → i / 8 < size → (at ≤ i → at + 4096 ≤ i) → plane_bit size planes.new p i ≡ plane_bit size planes.old p i }
{
    for p in 0..k {
        put_run(planes, size, k, p, at, &first[k - 1 - p]);
        put_run(planes, size, k, p, at + BLOCK_ROWS, &second[k - 1 - p]);
    }
}

/// The planes of at most 2,048 cells from cell `at` on, computed from the distances of the cells from the base, and
/// which of the cells are integers.
fn computed_planes<C: Measured>(
    column: &C,
    at: usize,
    count: usize,
    base: i64,
    k: usize,
    block: &mut PlaneBlock,
) -> [u64; 32]
    requires few { count ≤ 2048 }
    requires narrow { k ≤ widest_code }
    requires short { at ≤ row_limit }
    requires inside { at + count ≤ length (C.cells column.now) }
    ensures planes { (b r : ℕ) → b < k → r < 2048 → row_in (slice_index_or block.new b []) r ≡ bit_of (slice_index (map (distance_from base) (take count (drop at (C.cells column.now)))) r) b }
    ensures present { (i : ℕ) → row_in result i ≡ is_some (slice_index_or (take count (drop at (C.cells column.now))) i None) }
{
    let mut list = [0; 64];
    let mut present = [0; 32];
    for j in 0..32 {
        let from = count.min(64 * j);
        let run = &mut list[..(count - from).min(64)];
        present[j] = column.distances(at + from, base, run);
        put_word_of_wide(run, k, j, block);
    }
    present
}

/// The planes of at most 2,048 cells from cell `at` on, lent by the column or else computed, and which of the cells are
/// integers.
fn planes_at<C: Measured>(
    column: &C,
    at: usize,
    count: usize,
    base: i64,
    k: usize,
    block: &mut PlaneBlock,
) -> [u64; 32]
    requires few { count ≤ 2048 }
    requires narrow { k ≤ widest_code }
    requires short { at ≤ row_limit }
    requires inside { at + count ≤ length (C.cells column.now) }
    ensures planes { (b r : ℕ) → b < k → r < 2048 → row_in (slice_index_or block.new b []) r ≡ bit_of (slice_index (map (distance_from base) (take count (drop at (C.cells column.now)))) r) b }
    ensures present { (i : ℕ) → row_in result i ≡ is_some (slice_index_or (take count (drop at (C.cells column.now))) i None) }
{
    match column.planes(at, count, base, k, block) {
        Some(present) => present,
        None => computed_planes(column, at, count, base, k, block),
    }
}

/// Fills a block with the planes of at most 2,048 cells from cell `at` on, the first of a byte, and writes the bits that
/// say which of them are integers. Returns what was seen of the codes so far.
fn take_block<C: Measured>(
    column: &C,
    at: usize,
    base: i64,
    k: usize,
    present: &mut [u8],
    block: &mut PlaneBlock,
    seen: Seen,
) -> Seen
    requires some { 1 ≤ k }
    requires narrow { k ≤ widest_code }
    requires first { at % 8 ≡ 0 }
    requires inside { at < length (C.cells column.now) }
    requires few { length (C.cells column.now) ≤ row_limit }
    requires present { length present.old ≡ presence_size (length (C.cells column.now)) }
    requires near { All (IsNear base k) (C.cells column.now) }
    ensures len { length present.new ≡ length present.old }
    ensures small { (j : ℕ) → slice_index present.new j < 256 }
    ensures told { (i : ℕ) → at ≤ i → i < at + 2048 → i / 8 < presence_size (length (C.cells column.now)) → bit_of (slice_index present.new (i / 8)) (i % 8) ≡ is_some (slice_index_or (C.cells column.now) i None) }
    ensures before { (i : ℕ) → i < at → bit_of (slice_index present.new (i / 8)) (i % 8) ≡ bit_of (slice_index present.old (i / 8)) (i % 8) }
    ensures planes { (b r : ℕ) → b < k → r < 2048 → row_in (slice_index_or block.new b []) r ≡ (bit_in base b (slice_index_or (C.cells column.now) (at + r) None) == 1) }
    ensures base { result.base ≡ true → (seen.base ≡ true) ⊎ HasBase base (C.cells column.now) }
    ensures top { result.top ≡ true → (seen.top ≡ true) ⊎ HasTop base k (C.cells column.now) }
{
    let rows = column.len();
    let size = rows.div_ceil(8);
    let count = (rows - at).min(BLOCK_ROWS);
    let bits = planes_at(column, at, count, base, k, block);
    let end = size.min((at + BLOCK_ROWS) / 8);
    put_plane(&mut present[at / 8..end], &bits);
    seen.with_block(&bits, block, k)
}

/// Writes the bits and the planes of a column whose codes have k bits and are distances from the base. Returns whether the
/// base was seen to be the least value, and the width to be needed.
pub(crate) fn write_planes<C: Measured>(
    present: &mut [u8],
    planes: &mut [u8],
    rows: usize,
    base: i64,
    k: usize,
    column: &C,
) -> bool
    requires some { 1 ≤ k }
    requires narrow { k ≤ widest_code }
    requires few { rows ≤ row_limit }
    requires count { length (C.cells column.now) ≡ rows }
    requires present { length present.old ≡ presence_size rows }
    requires long { length planes.old ≡ k * presence_size rows }
    requires near { All (IsNear base k) (C.cells column.now) }
    ensures bits { present.new ≡ presence_bytes (presence_size rows) (C.cells column.now) }
    ensures planes { planes.new ≡ plane_bytes base k (presence_size rows) (C.cells column.now) }
    ensures frame { result ≡ true → (base ≡ (frame_of (known (C.cells column.now))).base) × (k ≡ (frame_of (known (C.cells column.now))).width) }
{
    let mut first = [[0; 32]; 64];
    let mut second = [[0; 32]; 64];
    let mut seen = Seen::nothing();
    for j in 0..rows.div_ceil(2 * BLOCK_ROWS) {
        let at = j * (2 * BLOCK_ROWS);
        let middle = at + BLOCK_ROWS;
        seen = take_block(column, at, base, k, present, &mut first, seen);
        if middle < rows {
            seen = take_block(column, middle, base, k, present, &mut second, seen);
        }
        put_blocks(planes, rows.div_ceil(8), k, at, &first, &second);
    }
    seen.both()
}

/// Writes a column of `rows` rows whose codes are by an offset encoding in which each of its integers has one. Returns
/// whether its base and width are seen to be those of the file. Where they are not, these are not the column's bytes.
pub(crate) fn write_column<C: Measured>(
    out: &mut [u8],
    rows: usize,
    offset: Offset,
    column: &C,
) -> bool
    requires few { rows ≤ row_limit }
    requires count { length (C.cells column.now) ≡ rows }
    requires long { length out.old ≡ column_size offset.width rows }
    requires wide { All IsWideCell (C.cells column.now) }
    requires within { All (IsWithin offset) (known (C.cells column.now)) }
    ensures len { length out.new ≡ length out.old }
    ensures seen { result ≡ true → out.new ≡ column_bytes (C.cells column.now) }
    ensures framed { offset.base ≡ (frame_of (known (C.cells column.now))).base → offset.width ≡ (frame_of (known (C.cells column.now))).width → out.new ≡ column_bytes (C.cells column.now) }
{
    let (present, rest) = out.split_at_mut(rows.div_ceil(8));
    let (head, planes) = rest.split_at_mut(9);
    head[8] = offset.width as u8;
    LittleEndian::write_i64(head, offset.base);
    write_planes(
        present,
        planes,
        rows,
        offset.base,
        offset.width as usize,
        column,
    )
}
