//! Writing codes to some of 64 rows: in each slice only their bytes change.

ghost use Rattle.std.specs.Prelude.{[], false, length, slice_index, slice_index_or, true, vec_capacity, vec_len, ℕ, ◌%◌, ◌*◌, ◌+◌, ◌-◌, ◌<◌, ◌^◌, ◌≡◌, ◌≤◌};
ghost use Rattle.bw_mask.specs.Masks.{bit_of};
ghost use Rattle.bw_code.specs.Columns.{Fit};
ghost use Rattle.bw_code.specs.Units.{digit};
ghost use Rattle.bw_code.specs.Widths.{widest_code};
ghost use Rattle.bw_byteslice.specs.Slices.{shift_of, slices_of};
ghost use Rattle.bw_byteslice.specs.Storing.{byte_of, bytes_of, capacities_of};

use crate::shift::{byte_at, raise};
use crate::storage::{put_bytes, raise_codes, raise_parts};

/// The greatest number of rows in a run.
pub(crate) const RUN: usize = 64;

/// For each row of a word a byte with one bit set: the bit that the row has in its byte of the word.
#[rattlefmt::skip]
static BITS: [u8; RUN] = [
    1, 2, 4, 8, 16, 32, 64, 128, 1, 2, 4, 8, 16, 32, 64, 128,
    1, 2, 4, 8, 16, 32, 64, 128, 1, 2, 4, 8, 16, 32, 64, 128,
    1, 2, 4, 8, 16, 32, 64, 128, 1, 2, 4, 8, 16, 32, 64, 128,
    1, 2, 4, 8, 16, 32, 64, 128, 1, 2, 4, 8, 16, 32, 64, 128,
];

/// For each of 64 rows the byte of `rows` that has the row's bit.
pub(crate) fn spread(rows: u64, bytes: &mut [u8; 64])
    ensures { (r : ℕ) → r < 64 → bit_of (slice_index bytes.new r) (r % 8) ≡ bit_of rows r }
{
    for k in 0..8 {
        let byte = (rows >> (8 * k) & 0xff) as u8;
        for b in 0..8 {
            bytes[8 * k + b] = byte;
        }
    }
}

/// Whether the bit of row r is set in the row's byte of a word.
#[inline]
pub(crate) fn has_row(byte: u8, r: usize) -> bool
    requires { r < 64 }
    ensures { result ≡ bit_of byte (r % 8) }
{
    byte & BITS[r] != 0
}

/// Whether each row is chosen: row i where bit i is set. A loop over bytes is vectorized; a loop that shifts the word for
/// each row is not.
fn choose_few(rows: u64, chosen: &mut [bool])
    requires few { length chosen.old ≤ 64 }
    ensures len { length chosen.new ≡ length chosen.old }
    ensures each { (r : ℕ) → r < length chosen.old → slice_index_or chosen.new r false ≡ bit_of rows r }
{
    let mut bytes = [0; RUN];
    spread(rows, &mut bytes);
    for r in 0..chosen.len() {
        chosen[r] = has_row(bytes[r], r);
    }
}

/// The same for 64 rows.
fn choose_64(rows: u64, chosen: &mut [bool])
    requires whole { length chosen.old ≡ 64 }
    ensures len { length chosen.new ≡ length chosen.old }
    ensures each { (r : ℕ) → r < 64 → slice_index_or chosen.new r false ≡ bit_of rows r }
{
    let mut bytes = [0; RUN];
    spread(rows, &mut bytes);
    for r in 0..RUN {
        chosen[r] = has_row(bytes[r], r);
    }
}

/// Whether each row is chosen: row i where bit i is set.
pub(crate) fn choose(rows: u64, chosen: &mut [bool])
    requires few { length chosen.old ≤ 64 }
    ensures len { length chosen.new ≡ length chosen.old }
    ensures each { (r : ℕ) → r < length chosen.old → slice_index_or chosen.new r false ≡ bit_of rows r }
{
    if chosen.len() == RUN {
        choose_64(rows, chosen);
    } else {
        choose_few(rows, chosen);
    }
}

/// Writes bytes, each where its row is chosen. The others stay. Not inlined: inlined into its callers, the loop is not
/// vectorized.
#[inline(never)]
fn put_few_chosen(kept: &mut [u8], chosen: &[bool], bytes: &[u8])
    requires chosen { length chosen.now ≡ length kept.old }
    requires long { length kept.old ≤ length bytes.now }
    ensures len { length kept.new ≡ length kept.old }
    ensures put { (r : ℕ) → r < length kept.old → slice_index_or chosen.now r false ≡ true → slice_index kept.new r ≡ slice_index bytes.now r }
    ensures kept { (r : ℕ) → slice_index_or chosen.now r false ≡ false → slice_index kept.new r ≡ slice_index kept.old r }
{
    // A choice between two bytes in memory is compiled to a branch per row. Masking bits is not, so the loop is
    // vectorized.
    for r in 0..kept.len() {
        let ones = 0_u8.wrapping_sub(u8::from(chosen[r]));
        kept[r] = (kept[r] & !ones) | (bytes[r] & ones);
    }
}

/// The same for 64 rows.
#[inline(never)]
fn put_64_chosen(kept: &mut [u8], chosen: &[bool], bytes: &[u8])
    requires whole { length kept.old ≡ 64 }
    requires chosen { length chosen.now ≡ length kept.old }
    requires long { length kept.old ≤ length bytes.now }
    ensures len { length kept.new ≡ length kept.old }
    ensures put { (r : ℕ) → r < length kept.old → slice_index_or chosen.now r false ≡ true → slice_index kept.new r ≡ slice_index bytes.now r }
    ensures kept { (r : ℕ) → slice_index_or chosen.now r false ≡ false → slice_index kept.new r ≡ slice_index kept.old r }
{
    for r in 0..RUN {
        let ones = 0_u8.wrapping_sub(u8::from(chosen[r]));
        kept[r] = (kept[r] & !ones) | (bytes[r] & ones);
    }
}

/// Writes bytes, each where its row is chosen. The others stay.
fn put_chosen(kept: &mut [u8], chosen: &[bool], bytes: &[u8])
    requires chosen { length chosen.now ≡ length kept.old }
    requires long { length kept.old ≤ length bytes.now }
    ensures len { length kept.new ≡ length kept.old }
    ensures put { (r : ℕ) → r < length kept.old → slice_index_or chosen.now r false ≡ true → slice_index kept.new r ≡ slice_index bytes.now r }
    ensures kept { (r : ℕ) → slice_index_or chosen.now r false ≡ false → slice_index kept.new r ≡ slice_index kept.old r }
{
    // Most calls have a whole run, and are faster where the length is known.
    if kept.len() == RUN {
        put_64_chosen(kept, chosen, bytes);
    } else {
        put_few_chosen(kept, chosen, bytes);
    }
}

/// The chosen rows from `at` on get these bytes in a slice.
pub(crate) fn put_in_slice(slice: &mut Vec<u8>, at: usize, chosen: &[bool], bytes: &[u8])
    requires there { at + length chosen.now ≤ length slice.old.items }
    requires long { length chosen.now ≤ length bytes.now }
    ensures len { length slice.new.items ≡ length slice.old.items }
    ensures capacity { vec_capacity slice.new ≡ vec_capacity slice.old }
    ensures put { (r : ℕ) → r < length chosen.now → slice_index_or chosen.now r false ≡ true → slice_index slice.new.items (at + r) ≡ slice_index bytes.now r }
    ensures kept { (j : ℕ) → (at ≤ j → slice_index_or chosen.now (j - at) false ≡ false) → slice_index slice.new.items j ≡ slice_index slice.old.items j }
{
    put_chosen(&mut slice[at..at + chosen.len()], chosen, bytes);
}

/// The chosen rows from `at` on get these numbers of m bytes, slice by slice from slice `first` on.
fn put_numbers(
    slices: &mut Vec<Vec<u8>>,
    first: usize,
    m: usize,
    at: usize,
    chosen: &[bool],
    numbers: &[u32],
)
    requires narrow { m ≤ 4 }
    requires few { length numbers.now ≤ 64 }
    requires long { length chosen.now ≡ length numbers.now }
    requires slices { first + m ≤ vec_len slices.old }
    requires there { (i : ℕ) → i < vec_len slices.old → at + length numbers.now ≤ length (slice_index_or (bytes_of slices.old.items) i []) }
    ensures count { vec_len slices.new ≡ vec_len slices.old }
    ensures capacities { capacities_of slices.new.items ≡ capacities_of slices.old.items }
    ensures len { (i : ℕ) → length (slice_index_or (bytes_of slices.new.items) i []) ≡ length (slice_index_or (bytes_of slices.old.items) i []) }
    ensures put { (i r : ℕ) → i < m → r < length numbers.now → slice_index_or chosen.now r false ≡ true
        → byte_of (bytes_of slices.new.items) (at + r) (first + i) ≡ digit 256 m (slice_index numbers.now r) i }
    ensures others { (i j : ℕ) → (first ≤ i → first + m ≤ i) → byte_of (bytes_of slices.new.items) j i ≡ byte_of (bytes_of slices.old.items) j i }
    ensures kept { (i j : ℕ) → (at ≤ j → slice_index_or chosen.now (j - at) false ≡ false) → byte_of (bytes_of slices.new.items) j i ≡ byte_of (bytes_of slices.old.items) j i }
{
    let mut list = [0; RUN];
    let bytes = &mut list[..numbers.len()];
    for i in 0..m {
        put_bytes(bytes, m, i, numbers);
        let slice = &mut slices[first + i];
        put_in_slice(slice, at, chosen, bytes);
    }
}

/// Row at + i takes code i where bit i of `rows` is set. The codes are shifted left once for all slices, or, where they
/// have more than 32 bits, once for the upper slices and once for the last four.
pub(crate) fn put_run(slices: &mut Vec<Vec<u8>>, width: u32, at: usize, rows: u64, codes: &[u64])
    requires narrow { width ≤ widest_code }
    requires count { vec_len slices.old ≡ slices_of width }
    requires few { length codes.now ≤ 64 }
    requires fit { Fit width codes.now }
    requires there { (i : ℕ) → i < slices_of width → at + length codes.now ≤ length (slice_index_or (bytes_of slices.old.items) i []) }
    ensures count { vec_len slices.new ≡ vec_len slices.old }
    ensures capacities { capacities_of slices.new.items ≡ capacities_of slices.old.items }
    ensures len { (i : ℕ) → length (slice_index_or (bytes_of slices.new.items) i []) ≡ length (slice_index_or (bytes_of slices.old.items) i []) }
    ensures put { (i r : ℕ) → i < slices_of width → r < length codes.now → bit_of rows r ≡ true
        → byte_of (bytes_of slices.new.items) (at + r) i ≡ digit 256 (slices_of width) (slice_index codes.now r * 2 ^ shift_of width) i }
    ensures kept { (i j : ℕ) → (at ≤ j → bit_of rows (j - at) ≡ false) → byte_of (bytes_of slices.new.items) j i ≡ byte_of (bytes_of slices.old.items) j i }
{
    let mut list_of_chosen = [false; RUN];
    let chosen = &mut list_of_chosen[..codes.len()];
    choose(rows, chosen);
    let mut list = [0; RUN];
    let numbers = &mut list[..codes.len()];
    let m = slices.len();
    if width <= 32 {
        raise_codes(codes, width, numbers);
        put_numbers(slices, 0, m, at, chosen, numbers);
    } else {
        raise_parts(codes, width, 32, numbers);
        put_numbers(slices, 0, m - 4, at, chosen, numbers);
        raise_parts(codes, width, 0, numbers);
        put_numbers(slices, m - 4, 4, at, chosen, numbers);
    }
}

/// Of the `count` rows from row `at` on, row at + i takes the code where bit i of `rows` is set.
pub(crate) fn fill_run(
    slices: &mut Vec<Vec<u8>>,
    width: u32,
    at: usize,
    count: usize,
    rows: u64,
    code: u64,
)
    requires narrow { width ≤ widest_code }
    requires count { vec_len slices.old ≡ slices_of width }
    requires few { count ≤ 64 }
    requires fits { code < 2 ^ width }
    requires there { (i : ℕ) → i < slices_of width → at + count ≤ length (slice_index_or (bytes_of slices.old.items) i []) }
    ensures count { vec_len slices.new ≡ vec_len slices.old }
    ensures capacities { capacities_of slices.new.items ≡ capacities_of slices.old.items }
    ensures len { (i : ℕ) → length (slice_index_or (bytes_of slices.new.items) i []) ≡ length (slice_index_or (bytes_of slices.old.items) i []) }
    ensures put { (i r : ℕ) → i < slices_of width → r < count → bit_of rows r ≡ true
        → byte_of (bytes_of slices.new.items) (at + r) i ≡ digit 256 (slices_of width) (code * 2 ^ shift_of width) i }
    ensures kept { (i j : ℕ) → (at ≤ j → bit_of rows (j - at) ≡ false) → byte_of (bytes_of slices.new.items) j i ≡ byte_of (bytes_of slices.old.items) j i }
{
    let mut list = [false; RUN];
    let chosen = &mut list[..count];
    choose(rows, chosen);
    let number = raise(code, width);
    let m = slices.len();
    for i in 0..m {
        let bytes = [byte_at(number, m, i); RUN];
        let slice = &mut slices[i];
        put_in_slice(slice, at, chosen, &bytes);
    }
}
