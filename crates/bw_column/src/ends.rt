//! The least and the greatest value of a column, found from its codes.

ghost use Rattle.std.specs.Prelude.{Bool, IfSome, None, false, length, nat_le, slice_index, true, ℕ, ◌&&◌, ◌+◌, ◌<◌, ◌^◌, ◌≡◌, ◌≤◌};
ghost use Rattle.bw_mask.specs.Masks.{bit_of, len, row_at};
ghost use Rattle.bw_code.specs.Columns.{code_at, count};
ghost use Rattle.bw_code.specs.Fittings.{AreEnds};
ghost use Rattle.bw_column.specs.Extremes.{IsGreatestFrom, IsLeastFrom};
ghost use Rattle.bw_column.specs.Storing.{list_of};
ghost use Rattle.bw_column.specs.Values.{known};
ghost use Rattle.bw_vertical.specs.Descents.{AreCodeEnds};

use crate::column::Column;
use crate::lent_ends::lent_ends;
use crate::slice_ends::slice_ends;
use crate::storage::Codes;
use bw_code::{CodeColumn, Ends};
use bw_mask::{Mask, has_bit};
use bw_vertical::CodeEnds;
use std::simd::prelude::*;

/// The least of `start` and of the codes.
fn least_of(start: u64, codes: &[u64]) -> u64
    ensures { (has : ℕ → Bool) → ((i : ℕ) → i < length codes.now → has i ≡ true) → IsLeastFrom start (length codes.now) has (slice_index codes.now) result }
{
    let mut least = start;
    for i in 0..codes.len() {
        least = least.min(codes[i]);
    }
    least
}

/// The greatest of `start` and of the codes.
fn greatest_of(start: u64, codes: &[u64]) -> u64
    ensures { (has : ℕ → Bool) → ((i : ℕ) → i < length codes.now → has i ≡ true) → IsGreatestFrom start (length codes.now) has (slice_index codes.now) result }
{
    let mut greatest = start;
    for i in 0..codes.len() {
        greatest = greatest.max(codes[i]);
    }
    greatest
}

/// The least of `start` and of the codes whose bit is set.
fn least_from(start: u64, codes: &[u64], present: u64) -> u64
    requires { length codes.now ≤ 64 }
    ensures { IsLeastFrom start (length codes.now) (bit_of present) (slice_index codes.now) result }
{
    if present == u64::MAX {
        return least_of(start, codes);
    }
    let mut least = start;
    for i in 0..codes.len() {
        let code = if has_bit(present, i) {
            codes[i]
        } else {
            u64::MAX
        };
        least = least.min(code);
    }
    least
}

/// The greatest of `start` and of the codes whose bit is set.
fn greatest_from(start: u64, codes: &[u64], present: u64) -> u64
    requires { length codes.now ≤ 64 }
    ensures { IsGreatestFrom start (length codes.now) (bit_of present) (slice_index codes.now) result }
{
    if present == u64::MAX {
        return greatest_of(start, codes);
    }
    let mut greatest = start;
    for i in 0..codes.len() {
        let code = if has_bit(present, i) { codes[i] } else { 0 };
        greatest = greatest.max(code);
    }
    greatest
}

/// Bit i says whether the i-th of the first 64 codes is `low`, `low + 1`, .. or `low + span`.
fn rows_between(codes: &[u64], low: u64, span: u64) -> u64
    requires long { 64 ≤ length codes.now }
    requires ends { low + span < 2 ^ 64 }
    ensures { (i : ℕ) → i < 64 → bit_of result i ≡ (nat_le low (slice_index codes.now i) && nat_le (slice_index codes.now i) (low + span)) }
{
    // A code below `low` wraps around to more than any span.
    (u64x64::from_slice(codes) - u64x64::splat(low))
        .simd_le(u64x64::splat(span))
        .to_bitmask()
}

/// Whether one of the codes whose bit is set may lie beyond the ends so far: always, if there are fewer than 64 codes.
fn may_be_beyond(codes: &[u64], present: u64, so_far: (u64, u64)) -> bool
    requires order { so_far.0 ≤ so_far.1 }
    ensures { result ≡ false → (i : ℕ) → i < length codes.now → bit_of present i ≡ true → (so_far.0 ≤ slice_index codes.now i) × (slice_index codes.now i ≤ so_far.1) }
{
    if codes.len() != 64 {
        return true;
    }
    let (least, greatest) = so_far;
    present & !rows_between(codes, least, greatest - least) != 0
}

/// The least and the greatest of those so far and of the codes whose bit is set.
pub(crate) fn ends_with(so_far: (u64, u64), codes: &[u64], present: u64) -> (u64, u64)
    requires few { length codes.now ≤ 64 }
    requires order { so_far.0 ≤ so_far.1 }
    ensures least { IsLeastFrom so_far.0 (length codes.now) (bit_of present) (slice_index codes.now) result.0 }
    ensures greatest { IsGreatestFrom so_far.1 (length codes.now) (bit_of present) (slice_index codes.now) result.1 }
{
    // Most blocks change neither end.
    if !may_be_beyond(codes, present, so_far) {
        return so_far;
    }
    let (least, greatest) = so_far;
    (
        least_from(least, codes, present),
        greatest_from(greatest, codes, present),
    )
}

/// The least and the greatest of `start` and of the codes of the non-null rows, whose ends are given.
fn ends_from(start: u64, ends: CodeEnds) -> (u64, u64)
    ensures least { (n : ℕ) (marked : ℕ → Bool) (code : ℕ → ℕ) → AreCodeEnds marked code n ends → IsLeastFrom start n marked code result.0 }
    ensures greatest { (n : ℕ) (marked : ℕ → Bool) (code : ℕ → ℕ) → AreCodeEnds marked code n ends → IsGreatestFrom start n marked code result.1 }
{
    if !ends.any {
        return (start, start);
    }
    (start.min(ends.least), start.max(ends.greatest))
}

/// The least and the greatest of `start` and of the codes of the non-null rows.
fn code_ends(codes: &Codes, nonnull: &Mask, start: u64) -> (u64, u64)
    requires rows { len nonnull.now ≡ count (list_of codes.now) }
    requires fits { start < 2 ^ (list_of codes.now).width }
    ensures least { IsLeastFrom start (count (list_of codes.now)) (row_at nonnull.now) (code_at (list_of codes.now)) result.0 }
    ensures greatest { IsGreatestFrom start (count (list_of codes.now)) (row_at nonnull.now) (code_at (list_of codes.now)) result.1 }
{
    let _few = codes.len();
    match codes {
        Codes::V(planes) => ends_from(start, planes.ends(nonnull)),
        Codes::S(codes) => slice_ends(codes, nonnull, start),
        Codes::P(_) | Codes::H(_) => match codes.in_memory() {
            Some(lent) => lent_ends(lent, nonnull, start),
            None => run_ends(codes, nonnull, start),
        },
    }
}

/// The same by the codes, which are read 64 at a time.
fn run_ends(codes: &Codes, nonnull: &Mask, start: u64) -> (u64, u64)
    ensures least { IsLeastFrom start (count (list_of codes.now)) (row_at nonnull.now) (code_at (list_of codes.now)) result.0 }
    ensures greatest { IsGreatestFrom start (count (list_of codes.now)) (row_at nonnull.now) (code_at (list_of codes.now)) result.1 }
{
    let mut run = [0; 64];
    let mut ends = (start, start);
    let mut at = 0;
    while at < codes.len() {
        let n = (codes.len() - at).min(64);
        let block = &mut run[..n];
        codes.read(at, block);
        ends = ends_with(ends, block, nonnull.bits(at, n));
        at += n;
    }
    ends
}

/// A non-null row to begin with, if there is one: the last row where it is non-null, since a value beyond all others is
/// often the newest one, and else the first non-null row.
fn row_to_begin_with(nonnull: &Mask) -> Option<usize>
    ensures some { IfSome result (λ row. row_at nonnull.now row ≡ true) }
    ensures none { result ≡ None → (i : ℕ) → row_at nonnull.now i ≡ false }
{
    let Some(first) = nonnull.next_from(0) else {
        return None;
    };
    let last = nonnull.len() - 1;
    if nonnull.get(last) {
        Some(last)
    } else {
        Some(first)
    }
}

impl Column {
    /// The least and the greatest non-null value, if there is one: codes keep the order of their values.
    pub(crate) fn ends(&self) -> Option<Ends>
        ensures { AreEnds (known self.now.values) result }
    {
        let Some(row) = row_to_begin_with(&self.nonnull) else {
            return None;
        };
        let start = self.codes.get(row);
        let (least, greatest) = code_ends(&self.codes, &self.nonnull, start);
        Some(Ends {
            least: self.encoding.decode(least),
            greatest: self.encoding.decode(greatest),
        })
    }
}
