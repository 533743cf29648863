//! Slices in memory: byte j of each slice belongs to row j.

ghost use Rattle.std.specs.Prelude.{[], IfOk, OnOk, length, slice_index, slice_index_or, vec_capacity, vec_len, ℕ, ◌*◌, ◌+◌, ◌<◌, ◌^◌, ◌≡◌, ◌≤◌, ◌/◌, ◌%◌};
ghost use Rattle.bw_code.specs.Columns.{Fit};
ghost use Rattle.bw_code.specs.Units.{digit};
ghost use Rattle.bw_code.specs.Widths.{widest_code, widest_half};
ghost use Rattle.bw_byteslice.specs.Slices.{shift_of, slices_of};
ghost use Rattle.bw_byteslice.specs.Storing.{byte_of, bytes_of, capacities_of};

use crate::shift::{narrow_byte_at, raise_narrow, raise_part};
use std::alloc::{AllocError, Global};
use std::simd::prelude::*;

/// How many codes are written at a time: so many that their numbers stay in the cache for all slices.
const BLOCK: usize = 64;

/// `count` empty slices.
pub(crate) fn no_bytes(alloc: Global, count: usize) -> Result<Vec<Vec<u8>>, AllocError>
    ensures count { IfOk result (λ slices. vec_len slices ≡ count) }
    ensures none { IfOk result (λ slices. (i : ℕ) → slice_index_or (bytes_of slices.items) i [] ≡ []) }
{
    let mut slices = Vec::new(alloc);
    for i in 0..count {
        slices.push(Vec::new(alloc))?;
    }
    Ok(slices)
}

/// Makes room for `len` bytes in each slice. The bytes stay as they are, also where it runs out of memory.
pub(crate) fn reserve(slices: &mut Vec<Vec<u8>>, len: usize) -> Result<(), AllocError>
    requires { (i : ℕ) → length (slice_index_or (bytes_of slices.old.items) i []) ≤ len }
    ensures bytes { bytes_of slices.new.items ≡ bytes_of slices.old.items }
    ensures capacities { (i : ℕ) → slice_index (capacities_of slices.old.items) i ≤ slice_index (capacities_of slices.new.items) i }
    ensures count { vec_len slices.new ≡ vec_len slices.old }
    ensures room { OnOk result ((i : ℕ) → i < vec_len slices.old → len ≤ slice_index (capacities_of slices.new.items) i) }
{
    for i in 0..slices.len() {
        let slice = &mut slices[i];
        slice.reserve(len - slice.len())?;
    }
    Ok(())
}

/// Appends zeros to a slice, up to `len` bytes.
fn grow_slice(slice: &mut Vec<u8>, len: usize)
    requires longer { length slice.old.items ≤ len }
    requires room { len ≤ vec_capacity slice.old }
    ensures len { length slice.new.items ≡ len }
    ensures capacity { vec_capacity slice.old ≤ vec_capacity slice.new }
    ensures bytes { (j : ℕ) → slice_index slice.new.items j ≡ slice_index slice.old.items j }
{
    let Ok(()) = slice.resize(len, 0) else {
        unreachable!()
    };
}

/// Appends zeros to each slice, up to `len` bytes.
pub(crate) fn grow(slices: &mut Vec<Vec<u8>>, len: usize)
    requires longer { (i : ℕ) → length (slice_index_or (bytes_of slices.old.items) i []) ≤ len }
    requires room { (i : ℕ) → i < vec_len slices.old → len ≤ slice_index (capacities_of slices.old.items) i }
    ensures count { vec_len slices.new ≡ vec_len slices.old }
    ensures capacities { (i : ℕ) → slice_index (capacities_of slices.old.items) i ≤ slice_index (capacities_of slices.new.items) i }
    ensures len { (i : ℕ) → i < vec_len slices.old → length (slice_index_or (bytes_of slices.new.items) i []) ≡ len }
    ensures bytes { (i j : ℕ) → byte_of (bytes_of slices.new.items) j i ≡ byte_of (bytes_of slices.old.items) j i }
{
    for i in 0..slices.len() {
        let slice = &mut slices[i];
        grow_slice(slice, len);
    }
}

/// Each code shifted left, as a 32-bit number: a register holds twice as many of them as 64-bit ones.
pub(crate) fn raise_codes(codes: &[u64], width: u32, numbers: &mut [u32])
    requires narrow { width ≤ widest_half }
    requires fit { Fit width codes.now }
    requires long { length numbers.old ≡ length codes.now }
    ensures len { length numbers.new ≡ length numbers.old }
    ensures numbers { (r : ℕ) → r < length codes.now → slice_index numbers.new r ≡ slice_index codes.now r * 2 ^ shift_of width }
{
    for r in 0..numbers.len() {
        numbers[r] = raise_narrow(codes[r], width);
    }
}

/// Byte i of each of a few numbers of m bytes.
fn put_few_bytes(bytes: &mut [u8], m: usize, i: usize, numbers: &[u32])
    requires narrow { m ≤ 4 }
    requires slice { i < m }
    requires long { length bytes.old ≡ length numbers.now }
    ensures len { length bytes.new ≡ length bytes.old }
    ensures bytes { (r : ℕ) → r < length numbers.now → slice_index bytes.new r ≡ digit 256 m (slice_index numbers.now r) i }
{
    for r in 0..bytes.len() {
        bytes[r] = narrow_byte_at(numbers[r], m, i);
    }
}

/// Byte i of each of 64 numbers of m bytes, sixteen of which fit a register.
fn put_64_bytes(bytes: &mut [u8], m: usize, i: usize, numbers: &[u32])
    requires narrow { m ≤ 4 }
    requires slice { i < m }
    requires whole { length numbers.now ≡ 64 }
    requires long { length bytes.old ≡ 64 }
    ensures len { length bytes.new ≡ 64 }
    ensures bytes { (r : ℕ) → r < 64 → slice_index bytes.new r ≡ digit 256 m (slice_index numbers.now r) i }
{
    let low = 8 * (m - 1 - i) as u32;
    let shifted = u32x64::from_slice(numbers) >> u32x64::splat(low);
    (shifted & u32x64::splat(0xff))
        .cast::<u8>()
        .copy_to_slice(bytes);
}

/// Byte i of each number of m bytes.
pub(crate) fn put_bytes(bytes: &mut [u8], m: usize, i: usize, numbers: &[u32])
    requires narrow { m ≤ 4 }
    requires slice { i < m }
    requires long { length bytes.old ≡ length numbers.now }
    ensures len { length bytes.new ≡ length bytes.old }
    ensures bytes { (r : ℕ) → r < length numbers.now → slice_index bytes.new r ≡ digit 256 m (slice_index numbers.now r) i }
{
    // Most calls have a whole block, and are faster where the length is known.
    if numbers.len() == BLOCK {
        put_64_bytes(bytes, m, i, numbers);
    } else {
        put_few_bytes(bytes, m, i, numbers);
    }
}

/// Byte i of each number of m bytes is written to the number's row. The first number is that of row `at`.
fn put_in_slice(slice: &mut Vec<u8>, m: usize, i: usize, at: usize, numbers: &[u32])
    requires narrow { m ≤ 4 }
    requires slice { i < m }
    requires there { at + length numbers.now ≤ length slice.old.items }
    ensures len { length slice.new.items ≡ length slice.old.items }
    ensures capacity { vec_capacity slice.new ≡ vec_capacity slice.old }
    ensures inside { (r : ℕ) → r < length numbers.now → slice_index slice.new.items (at + r) ≡ digit 256 m (slice_index numbers.now r) i }
    ensures outside { (j : ℕ) → (at ≤ j → at + length numbers.now ≤ j) → slice_index slice.new.items j ≡ slice_index slice.old.items j }
{
    put_bytes(&mut slice[at..at + numbers.len()], m, i, numbers);
}

/// The rows from `at` on get these numbers of m bytes, slice by slice from slice `first` on.
fn put_numbers(slices: &mut Vec<Vec<u8>>, first: usize, m: usize, at: usize, numbers: &[u32])
    requires narrow { m ≤ 4 }
    requires slices { first + m ≤ vec_len slices.old }
    requires there { (i : ℕ) → i < vec_len slices.old → at + length numbers.now ≤ length (slice_index_or (bytes_of slices.old.items) i []) }
    ensures count { vec_len slices.new ≡ vec_len slices.old }
    ensures capacities { capacities_of slices.new.items ≡ capacities_of slices.old.items }
    ensures len { (i : ℕ) → length (slice_index_or (bytes_of slices.new.items) i []) ≡ length (slice_index_or (bytes_of slices.old.items) i []) }
    ensures inside { (i r : ℕ) → i < m → r < length numbers.now
        → byte_of (bytes_of slices.new.items) (at + r) (first + i) ≡ digit 256 m (slice_index numbers.now r) i }
    ensures others { (i j : ℕ) → (first ≤ i → first + m ≤ i) → byte_of (bytes_of slices.new.items) j i ≡ byte_of (bytes_of slices.old.items) j i }
    ensures outside { (i j : ℕ) → (at ≤ j → at + length numbers.now ≤ j) → byte_of (bytes_of slices.new.items) j i ≡ byte_of (bytes_of slices.old.items) j i }
{
    for i in 0..m {
        let slice = &mut slices[first + i];
        put_in_slice(slice, m, i, at, numbers);
    }
}

/// The 32 bits of each shifted code from bit `down` on.
pub(crate) fn raise_parts(codes: &[u64], width: u32, down: u32, numbers: &mut [u32])
    requires narrow { width ≤ widest_code }
    requires down { down < 64 }
    requires fit { Fit width codes.now }
    requires long { length numbers.old ≡ length codes.now }
    ensures len { length numbers.new ≡ length numbers.old }
    ensures numbers { (r : ℕ) → r < length codes.now → slice_index numbers.new r ≡ slice_index codes.now r * 2 ^ shift_of width / 2 ^ down % 2 ^ 32 }
{
    for r in 0..numbers.len() {
        numbers[r] = raise_part(codes[r], width, down);
    }
}

/// The rows from `at` on get these codes, at most `BLOCK` of them. They are shifted left once for all slices, or, where
/// they have more than 32 bits, once for the upper slices and once for the last four.
fn put_block(slices: &mut Vec<Vec<u8>>, width: u32, at: usize, codes: &[u64])
    requires narrow { width ≤ widest_code }
    requires count { vec_len slices.old ≡ slices_of width }
    requires few { length codes.now ≤ 64 }
    requires fit { Fit width codes.now }
    requires there { (i : ℕ) → i < slices_of width → at + length codes.now ≤ length (slice_index_or (bytes_of slices.old.items) i []) }
    ensures count { vec_len slices.new ≡ vec_len slices.old }
    ensures capacities { capacities_of slices.new.items ≡ capacities_of slices.old.items }
    ensures len { (i : ℕ) → length (slice_index_or (bytes_of slices.new.items) i []) ≡ length (slice_index_or (bytes_of slices.old.items) i []) }
    ensures inside { (i r : ℕ) → i < slices_of width → r < length codes.now
        → byte_of (bytes_of slices.new.items) (at + r) i ≡ digit 256 (slices_of width) (slice_index codes.now r * 2 ^ shift_of width) i }
    ensures outside { (i j : ℕ) → (at ≤ j → at + length codes.now ≤ j) → byte_of (bytes_of slices.new.items) j i ≡ byte_of (bytes_of slices.old.items) j i }
{
    let mut list = [0; BLOCK];
    let numbers = &mut list[..codes.len()];
    let m = slices.len();
    if width <= 32 {
        raise_codes(codes, width, numbers);
        put_numbers(slices, 0, m, at, numbers);
    } else {
        raise_parts(codes, width, 32, numbers);
        put_numbers(slices, 0, m - 4, at, numbers);
        raise_parts(codes, width, 0, numbers);
        put_numbers(slices, m - 4, 4, at, numbers);
    }
}

/// The rows from `at` on get these codes, a block at a time.
pub(crate) fn put(slices: &mut Vec<Vec<u8>>, width: u32, at: usize, codes: &[u64])
    requires narrow { width ≤ widest_code }
    requires count { vec_len slices.old ≡ slices_of width }
    requires fit { Fit width codes.now }
    requires few { at + length codes.now ≤ 2 ^ 24 }
    requires there { (i : ℕ) → i < slices_of width → at + length codes.now ≤ length (slice_index_or (bytes_of slices.old.items) i []) }
    ensures count { vec_len slices.new ≡ vec_len slices.old }
    ensures capacities { capacities_of slices.new.items ≡ capacities_of slices.old.items }
    ensures len { (i : ℕ) → length (slice_index_or (bytes_of slices.new.items) i []) ≡ length (slice_index_or (bytes_of slices.old.items) i []) }
    ensures inside { (i r : ℕ) → i < slices_of width → r < length codes.now
        → byte_of (bytes_of slices.new.items) (at + r) i ≡ digit 256 (slices_of width) (slice_index codes.now r * 2 ^ shift_of width) i }
    ensures outside { (i j : ℕ) → (at ≤ j → at + length codes.now ≤ j) → byte_of (bytes_of slices.new.items) j i ≡ byte_of (bytes_of slices.old.items) j i }
{
    let mut done = 0;
    'parts: while done < codes.len() {
        let n = (codes.len() - done).min(BLOCK);
        put_block(slices, width, at + done, &codes[done..done + n]);
        done += n;
    }
}
