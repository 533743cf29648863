//! Rebasing codes: counting them from another base.

ghost use Rattle.std.specs.Prelude.{length, pos, slice_index, ℕ, ◌-ℤ◌, ◌<◌, ◌^◌, ◌≡◌, ◌≤◌};
ghost use Rattle.bw_mask.specs.Masks.{bit_of, row_at};
ghost use Rattle.bw_code.specs.Columns.{Fit};
ghost use Rattle.bw_code.specs.Shifts.{moved, shifted, IsWord, StaysBelow};

use bw_mask::{Mask, has_bit};

/// What is added modulo 2^64 to rebase a code.
pub fn word_between(from: i64, to: i64) -> u64
    ensures { IsWord (from -ℤ to) result }
{
    from.cast_unsigned().wrapping_sub(to.cast_unsigned())
}

/// Adds `by` to each of at most 64 codes whose bit is set.
fn shift_block(codes: &mut [u32], rows: u64, by: u64)
    requires few { length codes.old ≤ 64 }
    requires fit { (i : ℕ) → i < length codes.old → moved by (bit_of rows i) (slice_index codes.old i) < 2 ^ 32 }
    ensures len { length codes.new ≡ length codes.old }
    ensures codes { (i : ℕ) → i < length codes.old → slice_index codes.new i ≡ moved by (bit_of rows i) (slice_index codes.old i) }
{
    // Each sum fits 32 bits, so that it is the same modulo 2^32, and a register holds four.
    let low = (by % 0x1_0000_0000) as u32;
    for i in 0..codes.len() {
        codes[i] = codes[i].wrapping_add(if has_bit(rows, i) { low } else { 0 });
    }
}

/// Adds `by` to the code of each of the rows, modulo 2^64.
fn shift_blocks(codes: &mut [u32], rows: &Mask, by: u64)
    requires few { length codes.old ≤ 2 ^ 24 }
    requires fit { (i : ℕ) → i < length codes.old → moved by (row_at rows.now i) (slice_index codes.old i) < 2 ^ 32 }
    ensures len { length codes.new ≡ length codes.old }
    ensures codes { (i : ℕ) → i < length codes.old → slice_index codes.new i ≡ moved by (row_at rows.now i) (slice_index codes.old i) }
{
    for q in 0..codes.len().div_ceil(64) {
        let end = (64 * q + 64).min(codes.len());
        let block = &mut codes[64 * q..end];
        shift_block(block, rows.bits(64 * q, 64), by);
    }
}

/// Adds `by` to each of at most 64 codes of 64 bits whose bit is set.
fn shift_wide_block(codes: &mut [u64], rows: u64, by: u64)
    requires few { length codes.old ≤ 64 }
    ensures len { length codes.new ≡ length codes.old }
    ensures codes { (i : ℕ) → i < length codes.old → slice_index codes.new i ≡ moved by (bit_of rows i) (slice_index codes.old i) }
{
    for i in 0..codes.len() {
        codes[i] = codes[i].wrapping_add(if has_bit(rows, i) { by } else { 0 });
    }
}

/// Adds `by` to the 64-bit code of each of the rows, modulo 2^64.
fn shift_wide_blocks(codes: &mut [u64], rows: &Mask, by: u64)
    requires few { length codes.old ≤ 2 ^ 24 }
    ensures len { length codes.new ≡ length codes.old }
    ensures codes { (i : ℕ) → i < length codes.old → slice_index codes.new i ≡ moved by (row_at rows.now i) (slice_index codes.old i) }
{
    for q in 0..codes.len().div_ceil(64) {
        let end = (64 * q + 64).min(codes.len());
        let block = &mut codes[64 * q..end];
        shift_wide_block(block, rows.bits(64 * q, 64), by);
    }
}

/// Rebases the code of each of the rows.
pub(crate) fn shift_codes(codes: &mut [u32], rows: &Mask, from: i64, to: i64)
    requires few { length codes.old ≤ 2 ^ 24 }
    requires low { Fit 64 codes.old }
    requires fit { (i : ℕ) → i < length codes.old → StaysBelow (2 ^ 32) (shifted (from -ℤ to) (row_at rows.now i) (slice_index codes.old i)) }
    ensures len { length codes.new ≡ length codes.old }
    ensures codes { (i : ℕ) → i < length codes.old → pos (slice_index codes.new i) ≡ shifted (from -ℤ to) (row_at rows.now i) (slice_index codes.old i) }
{
    shift_blocks(codes, rows, word_between(from, to));
}

/// Rebases the 64-bit code of each of the rows.
pub(crate) fn shift_wide_codes(codes: &mut [u64], rows: &Mask, from: i64, to: i64)
    requires few { length codes.old ≤ 2 ^ 24 }
    requires low { Fit 64 codes.old }
    requires fit { (i : ℕ) → i < length codes.old → StaysBelow (2 ^ 64) (shifted (from -ℤ to) (row_at rows.now i) (slice_index codes.old i)) }
    ensures len { length codes.new ≡ length codes.old }
    ensures codes { (i : ℕ) → i < length codes.old → pos (slice_index codes.new i) ≡ shifted (from -ℤ to) (row_at rows.now i) (slice_index codes.old i) }
{
    shift_wide_blocks(codes, rows, word_between(from, to));
}
