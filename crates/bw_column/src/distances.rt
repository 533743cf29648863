//! Distances of the values of a column from a base, computed from their codes.

ghost use Rattle.std.specs.Prelude.{None, Some, pos, drop, false, if◌then◌else◌, is_some, length, map, slice_index, slice_index_or, take, ℕ, ◌%◌, ◌+◌, ◌<◌, ◌^◌, ◌≡◌, ◌≤◌};
ghost use Rattle.bw_mask.specs.Masks.{bit_of};
ghost use Rattle.bw_cells.specs.Distances.{distance_from};
ghost use Rattle.bw_code.specs.Columns.{count};
ghost use Rattle.bw_code.specs.declared.encoding.Encoding.TheVariants as by;
ghost use Rattle.bw_column.specs.Codes.{AreRowCodes, values_from};
ghost use Rattle.bw_column.specs.Storing.{layout_of, list_of};

use crate::column::Column;
use crate::lent_planes::lent_planes;
use crate::span::span_of;
use crate::storage::Codes;
use bw_cells::Measured;
use bw_code::{Encoding, Ends, Offset, PlaneBlock};
use bw_mask::{Mask, has_bit};

/// Adds `more` to each number, modulo 2^64.
fn add_to_each(numbers: &mut [u64], more: u64)
    ensures count { length numbers.new ≡ length numbers.old }
    ensures each { (k : ℕ) → k < length numbers.old → slice_index numbers.new k ≡ (slice_index numbers.old k + more) % 2 ^ 64 }
{
    for i in 0..numbers.len() {
        numbers[i] = numbers[i].wrapping_add(more);
    }
}

/// Adds `more` to each number whose bit is set, modulo 2^64. Each other number is 0, and stays 0.
fn add_where_set(numbers: &mut [u64], set: u64, more: u64)
    requires few { length numbers.old ≤ 64 }
    requires clear { (k : ℕ) → k < length numbers.old → bit_of set k ≡ false → slice_index numbers.old k ≡ 0 }
    ensures count { length numbers.new ≡ length numbers.old }
    ensures each { (k : ℕ) → k < length numbers.old → slice_index numbers.new k ≡ (if bit_of set k then (slice_index numbers.old k + more) % 2 ^ 64 else 0) }
{
    // Codes with the same base are the distances already.
    if more == 0 {
        return;
    }
    // Most words of rows have no null, and then no bit is tested.
    if set == u64::MAX {
        add_to_each(numbers, more);
        return;
    }
    // No branch per number, so that the loop can be vectorized.
    for i in 0..numbers.len() {
        let sum = numbers[i].wrapping_add(more);
        numbers[i] = if has_bit(set, i) { sum } else { 0 };
    }
}

/// Fills `out` with the distances from a base of the values of at most 64 rows from row `at` on, and returns which of
/// them are non-null. The codes are already distances, but from another base.
fn distances_by_offset(
    offset: Offset,
    codes: &Codes,
    nonnull: &Mask,
    at: usize,
    base: i64,
    out: &mut [u64],
) -> u64
    requires rows { AreRowCodes (layout_of codes.now) (by.Offset offset) (list_of codes.now) nonnull.now }
    requires few { length out.old ≤ 64 }
    requires there { at + length out.old ≤ count (list_of codes.now) }
    ensures distances { out.new ≡ map (distance_from base) (take (length out.old) (drop at (values_from (by.Offset offset) (list_of codes.now) nonnull.now))) }
    ensures present { (i : ℕ) → bit_of result i ≡ is_some (slice_index_or (take (length out.old) (drop at (values_from (by.Offset offset) (list_of codes.now) nonnull.now))) i None) }
{
    codes.read(at, out);
    let present = nonnull.bits(at, out.len());
    let more = offset
        .base
        .cast_unsigned()
        .wrapping_sub(base.cast_unsigned());
    add_where_set(out, present, more);
    present
}

/// The distance of an entry from a base, modulo 2^64.
#[inline]
fn distance_of(entry: i64, base: i64) -> u64
    ensures { result ≡ distance_from base (Some entry) }
{
    entry.cast_unsigned().wrapping_sub(base.cast_unsigned())
}

/// The distance of an entry from a base, modulo 2^64, where its row is non-null, else 0. It is computed for a null,
/// too, so that the choice needs no branch.
#[inline]
fn distance_where(there: bool, entry: i64, base: i64) -> u64
    ensures { result ≡ (if there then distance_from base (Some entry) else 0) }
{
    let distance = distance_of(entry, base);
    if there { distance } else { 0 }
}

/// Replaces each code by the distance of its entry from a base, modulo 2^64.
fn measure_each_entry(codes: &mut [u64], entries: &[i64], base: i64)
    requires inside { (k : ℕ) → k < length codes.old → slice_index codes.old k < length entries.now }
    ensures count { length codes.new ≡ length codes.old }
    ensures each { (k : ℕ) → k < length codes.old → slice_index codes.new k ≡ distance_from base (Some (slice_index_or entries.now (slice_index codes.old k) (pos 0))) }
{
    for i in 0..codes.len() {
        codes[i] = distance_of(entries[codes[i] as usize], base);
    }
}

/// Replaces each code of at most 64 rows by the distance of its entry from a base, modulo 2^64, where its bit is set,
/// and by 0 elsewhere.
fn measure_entries(codes: &mut [u64], set: u64, entries: &[i64], base: i64)
    requires few { length codes.old ≤ 64 }
    requires inside { (k : ℕ) → k < length codes.old → slice_index codes.old k < length entries.now }
    ensures count { length codes.new ≡ length codes.old }
    ensures each { (k : ℕ) → k < length codes.old → slice_index codes.new k ≡ (if bit_of set k then distance_from base (Some (slice_index_or entries.now (slice_index codes.old k) (pos 0))) else 0) }
{
    // Most words of rows have no null, and then no bit is tested.
    if set == u64::MAX {
        measure_each_entry(codes, entries, base);
        return;
    }
    // The code of a null is 0, which is the index of an entry, too.
    for i in 0..codes.len() {
        let entry = entries[codes[i] as usize];
        codes[i] = distance_where(has_bit(set, i), entry, base);
    }
}

/// The same for a dictionary. Where it has no entries, each row is null, and its code is 0.
fn distances_by_entries(
    entries: &[i64],
    codes: &Codes,
    nonnull: &Mask,
    at: usize,
    base: i64,
    out: &mut [u64],
) -> u64
    requires rows { AreRowCodes (layout_of codes.now) (by.Dictionary entries.now) (list_of codes.now) nonnull.now }
    requires few { length out.old ≤ 64 }
    requires there { at + length out.old ≤ count (list_of codes.now) }
    ensures distances { out.new ≡ map (distance_from base) (take (length out.old) (drop at (values_from (by.Dictionary entries.now) (list_of codes.now) nonnull.now))) }
    ensures present { (i : ℕ) → bit_of result i ≡ is_some (slice_index_or (take (length out.old) (drop at (values_from (by.Dictionary entries.now) (list_of codes.now) nonnull.now))) i None) }
{
    codes.read(at, out);
    if entries.is_empty() {
        return nonnull.bits(at, out.len());
    }
    let present = nonnull.bits(at, out.len());
    measure_entries(out, present, entries, base);
    present
}

impl Measured for Column {
    fn ends(&self) -> Option<Ends> {
        self.ends()
    }

    fn span(&self) -> Offset {
        span_of(self.encoding())
    }

    fn distances(&self, at: usize, base: i64, out: &mut [u64]) -> u64 {
        match &self.encoding {
            Encoding::Offset(offset) => {
                distances_by_offset(*offset, &self.codes, &self.nonnull, at, base, out)
            }
            Encoding::Dictionary(dictionary) => distances_by_entries(
                dictionary.entries(),
                &self.codes,
                &self.nonnull,
                at,
                base,
                out,
            ),
        }
    }

    fn planes(
        &self,
        at: usize,
        count: usize,
        base: i64,
        k: usize,
        block: &mut PlaneBlock,
    ) -> Option<[u64; 32]> {
        let Encoding::Offset(offset) = &self.encoding else {
            return None;
        };
        lent_planes(
            *offset,
            &self.codes,
            &self.nonnull,
            at,
            count,
            base,
            k,
            block,
        )
    }
}
