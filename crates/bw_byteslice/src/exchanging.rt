//! Codes of some rows exchanged between two columns of the same width, block by block, and slice by slice in each.

ghost use Rattle.std.specs.Prelude.{[], false, if◌then◌else◌, length, slice_index, slice_index_or, vec_capacity, vec_len, ℕ, ◌*◌, ◌+◌, ◌-◌, ◌<◌, ◌^◌, ◌≡◌, ◌≤◌};
ghost use Rattle.bw_mask.specs.Masks.{len as mask_len, row_at};
ghost use Rattle.bw_byteslice.specs.Slices.{slices_of};
ghost use Rattle.bw_byteslice.specs.Storing.{AreSlices, byte_of, bytes_of, capacities_of};

use crate::blocks::{BLOCK, choose_block, choose_byte};
use bw_mask::Mask;

/// The bytes of each chosen row are exchanged. Not inlined: inlined into its callers, the loop is not vectorized.
#[inline(never)]
fn exchange_bytes(own: &mut [u8], other: &mut [u8], chosen: &[bool; 512])
    requires few { length own.old ≤ 512 }
    requires long { length other.old ≡ length own.old }
    ensures len { length own.new ≡ length own.old }
    ensures other_len { length other.new ≡ length other.old }
    ensures bytes { (r : ℕ) → r < length own.old → slice_index own.new r ≡ (if slice_index_or chosen.now r false then slice_index other.old r else slice_index own.old r) }
    ensures other_bytes { (r : ℕ) → r < length own.old → slice_index other.new r ≡ (if slice_index_or chosen.now r false then slice_index own.old r else slice_index other.old r) }
{
    for r in 0..own.len() {
        let (left, right) = (own[r], other[r]);
        own[r] = choose_byte(left, right, chosen[r]);
        other[r] = choose_byte(right, left, chosen[r]);
    }
}

/// The same for the bytes of n rows of two slices from row `at` on.
fn exchange_in_slices(
    own: &mut Vec<u8>,
    other: &mut Vec<u8>,
    at: usize,
    n: usize,
    chosen: &[bool; 512],
)
    requires few { n ≤ 512 }
    requires there { at + n ≤ length own.old.items }
    requires other_there { at + n ≤ length other.old.items }
    ensures len { length own.new.items ≡ length own.old.items }
    ensures other_len { length other.new.items ≡ length other.old.items }
    ensures capacity { vec_capacity own.new ≡ vec_capacity own.old }
    ensures other_capacity { vec_capacity other.new ≡ vec_capacity other.old }
    ensures bytes { (r : ℕ) → r < n → slice_index own.new.items (at + r) ≡ (if slice_index_or chosen.now r false then slice_index other.old.items (at + r) else slice_index own.old.items (at + r)) }
    ensures other_bytes { (r : ℕ) → r < n → slice_index other.new.items (at + r) ≡ (if slice_index_or chosen.now r false then slice_index own.old.items (at + r) else slice_index other.old.items (at + r)) }
    ensures kept { (j : ℕ) → (at ≤ j → at + n ≤ j) → slice_index own.new.items j ≡ slice_index own.old.items j }
    ensures other_kept { (j : ℕ) → (at ≤ j → at + n ≤ j) → slice_index other.new.items j ≡ slice_index other.old.items j }
{
    exchange_bytes(&mut own[at..at + n], &mut other[at..at + n], chosen);
}

/// Of n rows from row `at` on, the bytes of those that are chosen are exchanged.
fn exchange_block(
    slices: &mut Vec<Vec<u8>>,
    others: &mut Vec<Vec<u8>>,
    at: usize,
    n: usize,
    chosen: &[bool; 512],
)
    requires same { vec_len others.old ≡ vec_len slices.old }
    requires few { n ≤ 512 }
    requires there { (i : ℕ) → i < vec_len slices.old → at + n ≤ length (slice_index_or (bytes_of slices.old.items) i []) }
    requires other_there { (i : ℕ) → i < vec_len slices.old → at + n ≤ length (slice_index_or (bytes_of others.old.items) i []) }
    ensures count { vec_len slices.new ≡ vec_len slices.old }
    ensures other_count { vec_len others.new ≡ vec_len others.old }
    ensures capacities { capacities_of slices.new.items ≡ capacities_of slices.old.items }
    ensures other_capacities { capacities_of others.new.items ≡ capacities_of others.old.items }
    ensures len { (i : ℕ) → length (slice_index_or (bytes_of slices.new.items) i []) ≡ length (slice_index_or (bytes_of slices.old.items) i []) }
    ensures other_len { (i : ℕ) → length (slice_index_or (bytes_of others.new.items) i []) ≡ length (slice_index_or (bytes_of others.old.items) i []) }
    ensures bytes { (i r : ℕ) → i < vec_len slices.old → r < n → byte_of (bytes_of slices.new.items) (at + r) i
        ≡ (if slice_index_or chosen.now r false then byte_of (bytes_of others.old.items) (at + r) i else byte_of (bytes_of slices.old.items) (at + r) i) }
    ensures other_bytes { (i r : ℕ) → i < vec_len slices.old → r < n → byte_of (bytes_of others.new.items) (at + r) i
        ≡ (if slice_index_or chosen.now r false then byte_of (bytes_of slices.old.items) (at + r) i else byte_of (bytes_of others.old.items) (at + r) i) }
    ensures kept { (i j : ℕ) → (at ≤ j → at + n ≤ j) → byte_of (bytes_of slices.new.items) j i ≡ byte_of (bytes_of slices.old.items) j i }
    ensures other_kept { (i j : ℕ) → (at ≤ j → at + n ≤ j) → byte_of (bytes_of others.new.items) j i ≡ byte_of (bytes_of others.old.items) j i }
{
    for i in 0..slices.len() {
        let (own, other) = (&mut slices[i], &mut others[i]);
        exchange_in_slices(own, other, at, n, chosen);
    }
}

/// The bytes of each of the rows are exchanged.
pub(crate) fn exchange_codes(
    slices: &mut Vec<Vec<u8>>,
    others: &mut Vec<Vec<u8>>,
    width: u32,
    len: usize,
    rows: &Mask,
)
    requires stored { AreSlices width len (bytes_of slices.old.items) }
    requires others { AreSlices width len (bytes_of others.old.items) }
    requires rows { mask_len rows.now ≡ len }
    ensures count { vec_len slices.new ≡ vec_len slices.old }
    ensures other_count { vec_len others.new ≡ vec_len others.old }
    ensures capacities { capacities_of slices.new.items ≡ capacities_of slices.old.items }
    ensures other_capacities { capacities_of others.new.items ≡ capacities_of others.old.items }
    ensures len { (i : ℕ) → length (slice_index_or (bytes_of slices.new.items) i []) ≡ length (slice_index_or (bytes_of slices.old.items) i []) }
    ensures other_len { (i : ℕ) → length (slice_index_or (bytes_of others.new.items) i []) ≡ length (slice_index_or (bytes_of others.old.items) i []) }
    ensures bytes { (i j : ℕ) → i < slices_of width → byte_of (bytes_of slices.new.items) j i ≡ (if row_at rows.now j then byte_of (bytes_of others.old.items) j i else byte_of (bytes_of slices.old.items) j i) }
    ensures other_bytes { (i j : ℕ) → i < slices_of width → byte_of (bytes_of others.new.items) j i ≡ (if row_at rows.now j then byte_of (bytes_of slices.old.items) j i else byte_of (bytes_of others.old.items) j i) }
{
    let mut chosen = [false; BLOCK];
    for b in 0..len.div_ceil(BLOCK) {
        let at = BLOCK * b;
        let n = (len - at).min(BLOCK);
        if choose_block(rows, at, &mut chosen) {
            exchange_block(slices, others, at, n, &chosen);
        }
    }
}
