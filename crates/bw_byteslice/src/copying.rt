//! Copying codes from another column of the same width, slice by slice, and rebasing them on the way.

ghost use Rattle.std.specs.Prelude.{[], bit_and, false, if◌then◌else◌, length, slice_index, slice_index_or, vec_len, ℕ, ◌%◌, ◌*◌, ◌+◌, ◌-◌, ◌/◌, ◌<◌, ◌^◌, ◌≡◌, ◌≤◌};
ghost use Rattle.bw_mask.specs.Masks.{bit_of, len as mask_len, row_at};
ghost use Rattle.bw_byteslice.specs.Slices.{shift_of, slices_of};
ghost use Rattle.bw_byteslice.specs.Storing.{AreSlices, byte_of, bytes_of, capacities_of, number_at};

use crate::rebasing::{add_to_64, spread_ones};
use crate::runs::{RUN, choose, put_in_slice};
use crate::shift::{byte_at, shift_of};
use bw_mask::Mask;

/// Copies the bytes of n rows of a slice from row `at` on. Bytes past them stay.
fn copy_bytes(slice: &[u8], at: usize, n: usize, bytes: &mut [u8; 64])
    requires few { n ≤ 64 }
    requires there { at + n ≤ length slice.now }
    ensures { (r : ℕ) → r < n → slice_index bytes.new r ≡ slice_index slice.now (at + r) }
{
    // Most calls have a whole run, and are faster where the length is known.
    if n == RUN {
        bytes.copy_from_slice(&slice[at..at + RUN]);
    } else {
        bytes[..n].copy_from_slice(&slice[at..at + n]);
    }
}

/// Adds to each byte the bits of `byte` that are in the row's byte of `ones`, and the row's carry, or, with nothing to
/// add, leaves all as it is. The carries become those to the slice above.
fn add_if(adds: bool, bytes: &mut [u8; 64], ones: &[u8; 64], byte: u8, carries: &mut [u8; 64])
    requires low { (r : ℕ) → r < 64 → slice_index carries.old r ≤ 1 }
    requires none { adds ≡ false → (byte ≡ 0) × ((r : ℕ) → r < 64 → slice_index carries.old r ≡ 0) }
    ensures low { (r : ℕ) → r < 64 → slice_index carries.new r ≤ 1 }
    ensures none { adds ≡ false → (r : ℕ) → r < 64 → slice_index carries.new r ≡ 0 }
    ensures bytes { (r : ℕ) → r < 64 → slice_index bytes.new r ≡ (slice_index bytes.old r + bit_and byte (slice_index ones.now r) + slice_index carries.old r) % 256 }
    ensures carries { (r : ℕ) → r < 64 → slice_index carries.new r ≡ (slice_index bytes.old r + bit_and byte (slice_index ones.now r) + slice_index carries.old r) / 256 }
{
    if adds {
        add_to_64(bytes, ones, byte, carries);
    }
}

/// Of n rows from row `at` on, the numbers of those in `rows` become those of the same rows of `others`, with `number`
/// added where the row is in `moved`, modulo 256^m for m slices.
fn copy_run(
    slices: &mut Vec<Vec<u8>>,
    others: &[Vec<u8>],
    at: usize,
    n: usize,
    rows: u64,
    moved: u64,
    number: u64,
)
    requires narrow { vec_len slices.old ≤ 8 }
    requires same { length others.now ≡ vec_len slices.old }
    requires few { n ≤ 64 }
    requires there { (i : ℕ) → i < vec_len slices.old → at + n ≤ length (slice_index_or (bytes_of slices.old.items) i []) }
    requires others { (i : ℕ) → i < vec_len slices.old → at + n ≤ length (slice_index_or (bytes_of others.now) i []) }
    requires bytes { (i j : ℕ) → byte_of (bytes_of slices.old.items) j i < 256 }
    ensures count { vec_len slices.new ≡ vec_len slices.old }
    ensures capacities { capacities_of slices.new.items ≡ capacities_of slices.old.items }
    ensures len { (i : ℕ) → length (slice_index_or (bytes_of slices.new.items) i []) ≡ length (slice_index_or (bytes_of slices.old.items) i []) }
    ensures bytes { (i j : ℕ) → byte_of (bytes_of slices.new.items) j i < 256 }
    ensures numbers { (r : ℕ) → r < n → number_at (vec_len slices.old) (bytes_of slices.new.items) (at + r)
        ≡ (if bit_of rows r then (number_at (vec_len slices.old) (bytes_of others.now) (at + r) + (if bit_of moved r then number else 0)) % 256 ^ vec_len slices.old
        else number_at (vec_len slices.old) (bytes_of slices.old.items) (at + r)) }
    ensures others { (i j : ℕ) → (at ≤ j → at + n ≤ j) → byte_of (bytes_of slices.new.items) j i ≡ byte_of (bytes_of slices.old.items) j i }
{
    if rows == 0 {
        return;
    }
    let mut list = [false; RUN];
    let chosen = &mut list[..n];
    choose(rows, chosen);
    let mut ones = [0; RUN];
    spread_ones(moved, &mut ones);
    let mut carries = [0; RUN];
    let mut bytes = [0; RUN];
    let m = slices.len();
    for p in 0..m {
        let i = m - 1 - p;
        copy_bytes(&others[i], at, n, &mut bytes);
        add_if(
            number != 0,
            &mut bytes,
            &ones,
            byte_at(number, m, i),
            &mut carries,
        );
        let slice = &mut slices[i];
        put_in_slice(slice, at, chosen, &bytes);
    }
}

/// The numbers of `rows` become those of the same rows of `others`. Where the row is in `moved`, `by`, shifted like the
/// codes, is added modulo 256^m for m slices.
pub(crate) fn copy_codes(
    slices: &mut Vec<Vec<u8>>,
    others: &[Vec<u8>],
    width: u32,
    len: usize,
    rows: &Mask,
    moved: &Mask,
    by: u64,
)
    requires stored { AreSlices width len (bytes_of slices.old.items) }
    requires others { AreSlices width len (bytes_of others.now) }
    requires rows { mask_len rows.now ≡ len }
    requires moved { mask_len moved.now ≡ len }
    ensures count { vec_len slices.new ≡ vec_len slices.old }
    ensures capacities { capacities_of slices.new.items ≡ capacities_of slices.old.items }
    ensures len { (i : ℕ) → length (slice_index_or (bytes_of slices.new.items) i []) ≡ length (slice_index_or (bytes_of slices.old.items) i []) }
    ensures bytes { (i j : ℕ) → byte_of (bytes_of slices.new.items) j i < 256 }
    ensures numbers { (j : ℕ) → number_at (slices_of width) (bytes_of slices.new.items) j
        ≡ (if row_at rows.now j then (number_at (slices_of width) (bytes_of others.now) j + (if row_at moved.now j then by * 2 ^ shift_of width % 2 ^ 64 else 0)) % 256 ^ slices_of width
        else number_at (slices_of width) (bytes_of slices.old.items) j) }
{
    let number = by << shift_of(width);
    for w in 0..len.div_ceil(RUN) {
        let at = RUN * w;
        let n = (len - at).min(RUN);
        copy_run(
            slices,
            others,
            at,
            n,
            rows.bits(at, RUN),
            moved.bits(at, RUN),
            number,
        );
    }
}
