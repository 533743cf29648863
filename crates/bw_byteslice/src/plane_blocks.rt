//! Slices as parts of blocks of planes.

ghost use Rattle.std.specs.Prelude.{[], false, length, slice_index, slice_index_or, vec_capacity, vec_len, ℕ, ◌%◌, ◌*◌, ◌+◌, ◌-◌, ◌/◌, ◌<◌, ◌^◌, ◌≡◌, ◌≢◌, ◌≤◌};
ghost use Rattle.bw_mask.specs.Masks.{bit_of, row_in};
ghost use Rattle.bw_code.specs.Units.{digit};
ghost use Rattle.bw_code.specs.Widths.{widest_code};
ghost use Rattle.bw_byteslice.specs.Slices.{shift_of, slices_of};
ghost use Rattle.bw_byteslice.specs.Storing.{byte_of, bytes_of, capacities_of};
ghost use Rattle.bw_vertical.specs.Planes.{code_by_planes};

use crate::shift::shift_of;
use bw_code::PlaneBlock;
use bw_vertical::{bytes_of_words, put_planes_of_bytes};

/// The bytes, padded with zeros.
fn filled_up(bytes: &[u8]) -> [u8; 64]
    requires { length bytes.now ≤ 64 }
    ensures { (r : ℕ) → slice_index result r ≡ slice_index bytes.now r }
{
    let mut run = [0; 64];
    for r in 0..bytes.len() {
        run[r] = bytes[r];
    }
    run
}

/// Bit t of at most 64 bytes becomes word j of plane `low` + t - `spare` of a block, where there is such a plane. Rows
/// after the bytes are 0. No other word changes.
fn take_bytes(bytes: &[u8], j: usize, block: &mut PlaneBlock, low: usize, spare: usize)
    requires short { length bytes.now ≤ 64 }
    requires word { j < 32 }
    requires few { spare < 8 }
    requires inside { low + 8 ≤ 64 + spare }
    ensures put { (t r : ℕ) → t < 8 → spare ≤ low + t → r < 64 → bit_of (slice_index (slice_index_or block.new (low + t - spare) []) j) r ≡ bit_of (slice_index bytes.now r) t }
    ensures others { (b m : ℕ) → m ≢ j → slice_index (slice_index_or block.new b []) m ≡ slice_index (slice_index_or block.old b []) m }
    ensures away { (b m : ℕ) → (low ≤ b + spare → low + 8 ≤ b + spare) → slice_index (slice_index_or block.new b []) m ≡ slice_index (slice_index_or block.old b []) m }
{
    // All runs but the last have 64 bytes, which are read where they lie.
    if let Some(run) = bytes.as_array::<64>() {
        put_planes_of_bytes(block, j, low, spare, run);
    } else {
        put_planes_of_bytes(block, j, low, spare, &filled_up(bytes));
    }
}

/// Bit t of the 2,048 bytes of a slice from row w * 64 on becomes plane `low` + t - `spare` of a block, where there is
/// such a plane. The other planes stay. Bytes past the end of the slice are 0.
fn take_slice(slice: &[u8], w: usize, block: &mut PlaneBlock, low: usize, spare: usize)
    requires small { w < 2 ^ 30 }
    requires few { spare < 8 }
    requires inside { low + 8 ≤ 64 + spare }
    ensures taken { (t r : ℕ) → t < 8 → spare ≤ low + t → r < 2048 → row_in (slice_index_or block.new (low + t - spare) []) r ≡ bit_of (slice_index slice.now (64 * w + r)) t }
    ensures away { (b m : ℕ) → (low ≤ b + spare → low + 8 ≤ b + spare) → slice_index (slice_index_or block.new b []) m ≡ slice_index (slice_index_or block.old b []) m }
{
    for j in 0..32 {
        let from = slice.len().min(64 * (w + j));
        let end = slice.len().min(64 * (w + j) + 64);
        take_bytes(&slice[from..end], j, block, low, spare);
    }
}

/// The planes of a block become the bits of the codes of the 2,048 rows from row w * 64 on. Bytes past the end of a
/// slice are 0.
pub(crate) fn take_block(slices: &[Vec<u8>], width: u32, w: usize, block: &mut PlaneBlock)
    requires narrow { width ≤ widest_code }
    requires small { w < 2 ^ 30 }
    requires count { length slices.now ≡ slices_of width }
    ensures { (b r : ℕ) → b < width → r < 2048 → row_in (slice_index_or block.new b []) r
        ≡ bit_of (byte_of (bytes_of slices.now) (64 * w + r) (slices_of width - 1 - (b + shift_of width) / 8)) ((b + shift_of width) % 8) }
{
    let m = slices.len();
    let spare = shift_of(width) as usize;
    for i in 0..m {
        take_slice(&slices[i], w, block, 8 * (m - 1 - i), spare);
    }
}

/// Word j of the planes whose bits the bytes of a slice hold: word t is that of bit `low` + t of each code, shifted left
/// by `spare` bits, and 0 for a bit below those of the code.
fn slice_words(block: &PlaneBlock, j: usize, low: usize, spare: usize) -> [u64; 8]
    requires word { j < 32 }
    requires few { spare < 8 }
    requires inside { low + 8 ≤ 64 + spare }
    ensures planes { (t : ℕ) → t < 8 → spare ≤ low + t → slice_index result t ≡ slice_index (slice_index_or block.now (low + t - spare) []) j }
    ensures below { (t : ℕ) → low + t < spare → slice_index result t ≡ 0 }
{
    let mut words = [0; 8];
    for t in 0..8 {
        if spare <= low + t {
            words[t] = block[low + t - spare][j];
        }
    }
    words
}

/// The bytes of a slice from `at` on become these.
fn overwrite(slice: &mut Vec<u8>, at: usize, bytes: &[u8])
    requires { at + length bytes.now ≤ length slice.old.items }
    ensures len { length slice.new.items ≡ length slice.old.items }
    ensures capacity { vec_capacity slice.new ≡ vec_capacity slice.old }
    ensures inside { (r : ℕ) → r < length bytes.now → slice_index slice.new.items (at + r) ≡ slice_index bytes.now r }
    ensures outside { (j : ℕ) → (at ≤ j → at + length bytes.now ≤ j) → slice_index slice.new.items j ≡ slice_index slice.old.items j }
{
    slice[at..at + bytes.len()].copy_from_slice(bytes);
}

/// The bytes of a slice from row `at` on, up to its end and at most 2,048, become those whose bits are in a block.
fn put_slice(slice: &mut Vec<u8>, at: usize, block: &PlaneBlock, low: usize, spare: usize)
    requires few { spare < 8 }
    requires inside { low + 8 ≤ 64 + spare }
    requires there { at ≤ length slice.old.items }
    ensures len { length slice.new.items ≡ length slice.old.items }
    ensures capacity { vec_capacity slice.new ≡ vec_capacity slice.old }
    ensures small { (r : ℕ) → r < 2048 → at + r < length slice.old.items → slice_index slice.new.items (at + r) < 256 }
    ensures planes { (r t : ℕ) → r < 2048 → at + r < length slice.old.items → t < 8 → spare ≤ low + t → bit_of (slice_index slice.new.items (at + r)) t ≡ row_in (slice_index_or block.now (low + t - spare) []) r }
    ensures below { (r t : ℕ) → r < 2048 → at + r < length slice.old.items → low + t < spare → bit_of (slice_index slice.new.items (at + r)) t ≡ false }
    ensures outside { (j : ℕ) → (at ≤ j → at + 2048 ≤ j) → slice_index slice.new.items j ≡ slice_index slice.old.items j }
{
    let rows = (slice.len() - at).min(2048);
    'words: for j in 0..rows.div_ceil(64) {
        let bytes = bytes_of_words(&slice_words(block, j, low, spare));
        let n = (rows - 64 * j).min(64);
        overwrite(slice, at + 64 * j, &bytes[..n]);
    }
}

/// The n rows from row `at` on, at most 2,048, get the codes whose planes are a block. After them the slices are 0, and
/// no plane has a bit.
pub(crate) fn put_block(
    slices: &mut Vec<Vec<u8>>,
    width: u32,
    at: usize,
    n: usize,
    block: &PlaneBlock,
)
    requires narrow { width ≤ widest_code }
    requires few { n ≤ 2048 }
    requires count { vec_len slices.old ≡ slices_of width }
    requires there { (i : ℕ) → i < slices_of width → at + n ≤ length (slice_index_or (bytes_of slices.old.items) i []) }
    requires rest { (b r : ℕ) → b < width → n ≤ r → r < 2048 → row_in (slice_index_or block.now b []) r ≡ false }
    requires clean { (i j : ℕ) → at + n ≤ j → byte_of (bytes_of slices.old.items) j i ≡ 0 }
    ensures count { vec_len slices.new ≡ vec_len slices.old }
    ensures capacities { capacities_of slices.new.items ≡ capacities_of slices.old.items }
    ensures len { (i : ℕ) → length (slice_index_or (bytes_of slices.new.items) i []) ≡ length (slice_index_or (bytes_of slices.old.items) i []) }
    ensures inside { (i r : ℕ) → i < slices_of width → r < n
        → byte_of (bytes_of slices.new.items) (at + r) i ≡ digit 256 (slices_of width) (code_by_planes width block.now r * 2 ^ shift_of width) i }
    ensures outside { (i j : ℕ) → (at ≤ j → at + n ≤ j) → byte_of (bytes_of slices.new.items) j i ≡ byte_of (bytes_of slices.old.items) j i }
{
    let m = slices.len();
    let spare = shift_of(width) as usize;
    for i in 0..m {
        let slice = &mut slices[i];
        put_slice(slice, at, block, 8 * (m - 1 - i), spare);
    }
}
