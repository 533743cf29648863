//! Rebasing codes in place: a number is added to the shifted codes of some rows, slice by slice from the last up.

ghost use Rattle.std.specs.Prelude.{[], bit_and, if◌then◌else◌, length, slice_index, slice_index_or, vec_capacity, vec_len, ℕ, ◌%◌, ◌*◌, ◌+◌, ◌-◌, ◌/◌, ◌<◌, ◌^◌, ◌≡◌, ◌≤◌};
ghost use Rattle.bw_mask.specs.Masks.{bit_of, len as mask_len, row_at};
ghost use Rattle.bw_byteslice.specs.Slices.{shift_of, slices_of};
ghost use Rattle.bw_byteslice.specs.Storing.{AreSlices, byte_of, bytes_of, capacities_of, number_at};

use crate::runs::{RUN, has_row, spread};
use crate::shift::{byte_at, shift_of};
use bw_mask::Mask;

/// For each of 64 rows a byte: all ones if the row's bit is set, else 0.
pub(crate) fn spread_ones(rows: u64, ones: &mut [u8; 64])
    ensures { (r : ℕ) → r < 64 → slice_index ones.new r ≡ (if bit_of rows r then 255 else 0) }
{
    let mut bytes = [0; RUN];
    spread(rows, &mut bytes);
    for r in 0..RUN {
        ones[r] = 0_u8.wrapping_sub(u8::from(has_row(bytes[r], r)));
    }
}

/// Adds two bytes and a carry: returns the byte of the sum, and the carry to the byte above.
#[inline]
fn add_carrying(a: u8, b: u8, carry: u8) -> (u8, u8)
    requires { carry ≤ 1 }
    ensures byte { result.0 ≡ (a + b + carry) % 256 }
    ensures carry { result.1 ≡ (a + b + carry) / 256 }
    ensures low { result.1 ≤ 1 }
{
    let sum = a.wrapping_add(b);
    let byte = sum.wrapping_add(carry);
    // At most one of the two sums is above 255.
    (byte, u8::from(sum < a) + u8::from(byte < sum))
}

/// Adds to each byte the bits of `byte` that are in the row's byte of `ones`, and the row's carry. The carries become
/// those to the slice above.
fn add_to_few(bytes: &mut [u8], ones: &[u8; 64], byte: u8, carries: &mut [u8; 64])
    requires few { length bytes.old ≤ 64 }
    requires low { (r : ℕ) → r < 64 → slice_index carries.old r ≤ 1 }
    ensures len { length bytes.new ≡ length bytes.old }
    ensures low { (r : ℕ) → r < 64 → slice_index carries.new r ≤ 1 }
    ensures bytes { (r : ℕ) → r < length bytes.old → slice_index bytes.new r ≡ (slice_index bytes.old r + bit_and byte (slice_index ones.now r) + slice_index carries.old r) % 256 }
    ensures carries { (r : ℕ) → r < length bytes.old → slice_index carries.new r ≡ (slice_index bytes.old r + bit_and byte (slice_index ones.now r) + slice_index carries.old r) / 256 }
{
    for r in 0..bytes.len() {
        let (sum, carry) = add_carrying(bytes[r], byte & ones[r], carries[r]);
        bytes[r] = sum;
        carries[r] = carry;
    }
}

/// The same for 64 bytes.
pub(crate) fn add_to_64(bytes: &mut [u8], ones: &[u8; 64], byte: u8, carries: &mut [u8; 64])
    requires whole { length bytes.old ≡ 64 }
    requires low { (r : ℕ) → r < 64 → slice_index carries.old r ≤ 1 }
    ensures len { length bytes.new ≡ length bytes.old }
    ensures low { (r : ℕ) → r < 64 → slice_index carries.new r ≤ 1 }
    ensures bytes { (r : ℕ) → r < 64 → slice_index bytes.new r ≡ (slice_index bytes.old r + bit_and byte (slice_index ones.now r) + slice_index carries.old r) % 256 }
    ensures carries { (r : ℕ) → r < 64 → slice_index carries.new r ≡ (slice_index bytes.old r + bit_and byte (slice_index ones.now r) + slice_index carries.old r) / 256 }
{
    for r in 0..RUN {
        let (sum, carry) = add_carrying(bytes[r], byte & ones[r], carries[r]);
        bytes[r] = sum;
        carries[r] = carry;
    }
}

/// Adds to each of at most 64 bytes the bits of `byte` that are in the row's byte of `ones`, and the row's carry. The
/// carries become those to the slice above.
fn add_to_bytes(bytes: &mut [u8], ones: &[u8; 64], byte: u8, carries: &mut [u8; 64])
    requires few { length bytes.old ≤ 64 }
    requires low { (r : ℕ) → r < 64 → slice_index carries.old r ≤ 1 }
    ensures len { length bytes.new ≡ length bytes.old }
    ensures low { (r : ℕ) → r < 64 → slice_index carries.new r ≤ 1 }
    ensures bytes { (r : ℕ) → r < length bytes.old → slice_index bytes.new r ≡ (slice_index bytes.old r + bit_and byte (slice_index ones.now r) + slice_index carries.old r) % 256 }
    ensures carries { (r : ℕ) → r < length bytes.old → slice_index carries.new r ≡ (slice_index bytes.old r + bit_and byte (slice_index ones.now r) + slice_index carries.old r) / 256 }
{
    // Most calls have a whole run, and are faster where the length is known.
    if bytes.len() == RUN {
        add_to_64(bytes, ones, byte, carries);
    } else {
        add_to_few(bytes, ones, byte, carries);
    }
}

/// The same for the bytes of n rows of a slice from row `at` on.
fn add_to_slice(
    slice: &mut Vec<u8>,
    at: usize,
    n: usize,
    ones: &[u8; 64],
    byte: u8,
    carries: &mut [u8; 64],
)
    requires few { n ≤ 64 }
    requires there { at + n ≤ length slice.old.items }
    requires low { (r : ℕ) → r < 64 → slice_index carries.old r ≤ 1 }
    ensures len { length slice.new.items ≡ length slice.old.items }
    ensures capacity { vec_capacity slice.new ≡ vec_capacity slice.old }
    ensures low { (r : ℕ) → r < 64 → slice_index carries.new r ≤ 1 }
    ensures bytes { (r : ℕ) → r < n → slice_index slice.new.items (at + r) ≡ (slice_index slice.old.items (at + r) + bit_and byte (slice_index ones.now r) + slice_index carries.old r) % 256 }
    ensures carries { (r : ℕ) → r < n → slice_index carries.new r ≡ (slice_index slice.old.items (at + r) + bit_and byte (slice_index ones.now r) + slice_index carries.old r) / 256 }
    ensures others { (j : ℕ) → (at ≤ j → at + n ≤ j) → slice_index slice.new.items j ≡ slice_index slice.old.items j }
{
    add_to_bytes(&mut slice[at..at + n], ones, byte, carries);
}

/// Of n rows from row `at` on, adds `number` to the numbers of those whose bit is set, modulo 256^m for m slices.
fn shift_run(slices: &mut Vec<Vec<u8>>, at: usize, n: usize, rows: u64, number: u64)
    requires narrow { vec_len slices.old ≤ 8 }
    requires few { n ≤ 64 }
    requires there { (i : ℕ) → i < vec_len slices.old → at + n ≤ length (slice_index_or (bytes_of slices.old.items) i []) }
    requires bytes { (i j : ℕ) → byte_of (bytes_of slices.old.items) j i < 256 }
    ensures count { vec_len slices.new ≡ vec_len slices.old }
    ensures capacities { capacities_of slices.new.items ≡ capacities_of slices.old.items }
    ensures len { (i : ℕ) → length (slice_index_or (bytes_of slices.new.items) i []) ≡ length (slice_index_or (bytes_of slices.old.items) i []) }
    ensures bytes { (i j : ℕ) → byte_of (bytes_of slices.new.items) j i < 256 }
    ensures numbers { (r : ℕ) → r < n → number_at (vec_len slices.old) (bytes_of slices.new.items) (at + r)
        ≡ (number_at (vec_len slices.old) (bytes_of slices.old.items) (at + r) + (if bit_of rows r then number else 0)) % 256 ^ vec_len slices.old }
    ensures others { (i j : ℕ) → (at ≤ j → at + n ≤ j) → byte_of (bytes_of slices.new.items) j i ≡ byte_of (bytes_of slices.old.items) j i }
{
    if rows == 0 {
        return;
    }
    let mut ones = [0; RUN];
    spread_ones(rows, &mut ones);
    let mut carries = [0; RUN];
    let m = slices.len();
    for p in 0..m {
        let i = m - 1 - p;
        let slice = &mut slices[i];
        add_to_slice(slice, at, n, &ones, byte_at(number, m, i), &mut carries);
    }
}

/// Adds `by`, shifted like the codes, to the number of each of the rows, modulo 256^m for m slices.
pub(crate) fn shift_codes(slices: &mut Vec<Vec<u8>>, width: u32, len: usize, rows: &Mask, by: u64)
    requires stored { AreSlices width len (bytes_of slices.old.items) }
    requires rows { mask_len rows.now ≡ len }
    ensures count { vec_len slices.new ≡ vec_len slices.old }
    ensures capacities { capacities_of slices.new.items ≡ capacities_of slices.old.items }
    ensures len { (i : ℕ) → length (slice_index_or (bytes_of slices.new.items) i []) ≡ length (slice_index_or (bytes_of slices.old.items) i []) }
    ensures bytes { (i j : ℕ) → byte_of (bytes_of slices.new.items) j i < 256 }
    ensures numbers { (j : ℕ) → number_at (slices_of width) (bytes_of slices.new.items) j
        ≡ (number_at (slices_of width) (bytes_of slices.old.items) j + (if row_at rows.now j then by * 2 ^ shift_of width % 2 ^ 64 else 0)) % 256 ^ slices_of width }
{
    let number = by << shift_of(width);
    for w in 0..len.div_ceil(RUN) {
        let at = RUN * w;
        let n = (len - at).min(RUN);
        shift_run(slices, at, n, rows.bits(at, RUN), number);
    }
}
