//! One code written to many rows, block by block, and slice by slice in each.

ghost use Rattle.std.specs.Prelude.{[], false, if◌then◌else◌, length, slice_index, slice_index_or, vec_capacity, vec_len, ℕ, ◌%◌, ◌*◌, ◌+◌, ◌-◌, ◌<◌, ◌^◌, ◌≡◌, ◌≤◌};
ghost use Rattle.bw_mask.specs.Masks.{len as mask_len, row_at};
ghost use Rattle.bw_code.specs.Units.{digit};
ghost use Rattle.bw_byteslice.specs.Slices.{shift_of, slices_of};
ghost use Rattle.bw_byteslice.specs.Storing.{AreSlices, byte_of, bytes_of, capacities_of};

use crate::blocks::{BLOCK, choose_block, choose_byte};
use crate::shift::{byte_at, raise};
use bw_mask::Mask;

/// The byte of each chosen row becomes this one. Not inlined: inlined into its callers, the loop is not vectorized.
#[inline(never)]
fn fill_bytes(bytes: &mut [u8], chosen: &[bool; 512], byte: u8)
    requires few { length bytes.old ≤ 512 }
    ensures len { length bytes.new ≡ length bytes.old }
    ensures bytes { (r : ℕ) → r < length bytes.old → slice_index bytes.new r ≡ (if slice_index_or chosen.now r false then byte else slice_index bytes.old r) }
{
    for r in 0..bytes.len() {
        bytes[r] = choose_byte(bytes[r], byte, chosen[r]);
    }
}

/// The same for the bytes of n rows of a slice from row `at` on.
fn fill_in_slice(slice: &mut Vec<u8>, at: usize, n: usize, chosen: &[bool; 512], byte: u8)
    requires few { n ≤ 512 }
    requires there { at + n ≤ length slice.old.items }
    ensures len { length slice.new.items ≡ length slice.old.items }
    ensures capacity { vec_capacity slice.new ≡ vec_capacity slice.old }
    ensures bytes { (r : ℕ) → r < n → slice_index slice.new.items (at + r) ≡ (if slice_index_or chosen.now r false then byte else slice_index slice.old.items (at + r)) }
    ensures others { (j : ℕ) → (at ≤ j → at + n ≤ j) → slice_index slice.new.items j ≡ slice_index slice.old.items j }
{
    fill_bytes(&mut slice[at..at + n], chosen, byte);
}

/// Of n rows from row `at` on, the bytes of those that are chosen become those of this number.
fn fill_block(slices: &mut Vec<Vec<u8>>, at: usize, n: usize, chosen: &[bool; 512], number: u64)
    requires narrow { vec_len slices.old ≤ 8 }
    requires few { n ≤ 512 }
    requires there { (i : ℕ) → i < vec_len slices.old → at + n ≤ length (slice_index_or (bytes_of slices.old.items) i []) }
    ensures count { vec_len slices.new ≡ vec_len slices.old }
    ensures capacities { capacities_of slices.new.items ≡ capacities_of slices.old.items }
    ensures len { (i : ℕ) → length (slice_index_or (bytes_of slices.new.items) i []) ≡ length (slice_index_or (bytes_of slices.old.items) i []) }
    ensures bytes { (i r : ℕ) → i < vec_len slices.old → r < n → byte_of (bytes_of slices.new.items) (at + r) i
        ≡ (if slice_index_or chosen.now r false then digit 256 (vec_len slices.old) number i else byte_of (bytes_of slices.old.items) (at + r) i) }
    ensures others { (i j : ℕ) → (at ≤ j → at + n ≤ j) → byte_of (bytes_of slices.new.items) j i ≡ byte_of (bytes_of slices.old.items) j i }
{
    let m = slices.len();
    for i in 0..m {
        let slice = &mut slices[i];
        fill_in_slice(slice, at, n, chosen, byte_at(number, m, i));
    }
}

/// The bytes of each of the rows become those of this code.
pub(crate) fn fill_codes(slices: &mut Vec<Vec<u8>>, width: u32, len: usize, rows: &Mask, code: u64)
    requires stored { AreSlices width len (bytes_of slices.old.items) }
    requires rows { mask_len rows.now ≡ len }
    requires fits { code < 2 ^ width }
    ensures count { vec_len slices.new ≡ vec_len slices.old }
    ensures capacities { capacities_of slices.new.items ≡ capacities_of slices.old.items }
    ensures len { (i : ℕ) → length (slice_index_or (bytes_of slices.new.items) i []) ≡ length (slice_index_or (bytes_of slices.old.items) i []) }
    ensures bytes { (i j : ℕ) → i < slices_of width → byte_of (bytes_of slices.new.items) j i
        ≡ (if row_at rows.now j then digit 256 (slices_of width) (code * 2 ^ shift_of width) i else byte_of (bytes_of slices.old.items) j i) }
{
    let number = raise(code, width);
    let mut chosen = [false; BLOCK];
    for b in 0..len.div_ceil(BLOCK) {
        let at = BLOCK * b;
        let n = (len - at).min(BLOCK);
        if choose_block(rows, at, &mut chosen) {
            fill_block(slices, at, n, &chosen, number);
        }
    }
}
