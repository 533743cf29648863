//! The ends of codes that lie one after another in memory. Most runs of 64 codes of at most 32 bits are passed over by
//! one comparison.

ghost use Rattle.std.specs.Prelude.{false, length, slice_index, ℕ, true, ◌<◌, ◌^◌, ◌≡◌, ◌≤◌};
ghost use Rattle.bw_mask.specs.Masks.{bit_of, len, row_at};
ghost use Rattle.bw_code.specs.Plain.{codes_lent};
ghost use Rattle.bw_column.specs.Extremes.{IsGreatestFrom, IsLeastFrom};
ghost use Rattle.bw_column.specs.Storing.{FitsLent};

use crate::ends::ends_with;
use bw_code::{LentCodes, rows_between, widen};
use bw_mask::Mask;

/// Whether one of 64 codes whose bit is set may lie beyond the ends so far: always, if there are fewer codes.
fn may_be_beyond(codes: &[u32], present: u64, so_far: (u64, u64)) -> bool
    requires order { so_far.0 ≤ so_far.1 }
    requires narrow { so_far.1 < 2 ^ 32 }
    ensures { result ≡ false → (i : ℕ) → i < length codes.now → bit_of present i ≡ true → (so_far.0 ≤ slice_index codes.now i) × (slice_index codes.now i ≤ so_far.1) }
{
    if codes.len() != 64 {
        return true;
    }
    let (least, greatest) = so_far;
    present & !rows_between(codes, least as u32, (greatest - least) as u32) != 0
}

/// The least and the greatest of those so far and of at most 64 codes whose bit is set.
fn narrow_ends_with(so_far: (u64, u64), codes: &[u32], present: u64) -> (u64, u64)
    requires few { length codes.now ≤ 64 }
    requires order { so_far.0 ≤ so_far.1 }
    requires narrow { so_far.1 < 2 ^ 32 }
    ensures least { IsLeastFrom so_far.0 (length codes.now) (bit_of present) (slice_index codes.now) result.0 }
    ensures greatest { IsGreatestFrom so_far.1 (length codes.now) (bit_of present) (slice_index codes.now) result.1 }
{
    if !may_be_beyond(codes, present, so_far) {
        return so_far;
    }
    let mut list = [0; 64];
    let run = &mut list[..codes.len()];
    widen(codes, run);
    ends_with(so_far, run, present)
}

/// The least and the greatest of `start` and of the codes, of at most 32 bits, of the non-null rows.
fn narrow_ends(codes: &[u32], nonnull: &Mask, start: u64) -> (u64, u64)
    requires fits { start < 2 ^ 32 }
    requires rows { len nonnull.now ≡ length codes.now }
    requires few { length codes.now ≤ 2 ^ 24 }
    ensures least { IsLeastFrom start (length codes.now) (row_at nonnull.now) (slice_index codes.now) result.0 }
    ensures greatest { IsGreatestFrom start (length codes.now) (row_at nonnull.now) (slice_index codes.now) result.1 }
{
    let mut ends = (start, start);
    let mut at = 0;
    while at < codes.len() {
        let n = (codes.len() - at).min(64);
        ends = narrow_ends_with(ends, &codes[at..at + n], nonnull.bits(at, n));
        at += n;
    }
    ends
}

/// The same for codes of at most 64 bits.
fn wide_ends(codes: &[u64], nonnull: &Mask, start: u64) -> (u64, u64)
    requires rows { len nonnull.now ≡ length codes.now }
    requires few { length codes.now ≤ 2 ^ 24 }
    ensures least { IsLeastFrom start (length codes.now) (row_at nonnull.now) (slice_index codes.now) result.0 }
    ensures greatest { IsGreatestFrom start (length codes.now) (row_at nonnull.now) (slice_index codes.now) result.1 }
{
    let mut ends = (start, start);
    let mut at = 0;
    while at < codes.len() {
        let n = (codes.len() - at).min(64);
        ends = ends_with(ends, &codes[at..at + n], nonnull.bits(at, n));
        at += n;
    }
    ends
}

/// The least and the greatest of `start` and of the codes, of k bits, of the non-null rows.
pub(crate) fn lent_ends(codes: LentCodes<'_>, nonnull: &Mask, start: u64) -> (u64, u64)
    requires form { (k : ℕ) × FitsLent k codes × (start < 2 ^ k) }
    requires rows { len nonnull.now ≡ length (codes_lent codes) }
    requires few { length (codes_lent codes) ≤ 2 ^ 24 }
    ensures least { IsLeastFrom start (length (codes_lent codes.entry)) (row_at nonnull.now) (slice_index (codes_lent codes.entry)) result.0 }
    ensures greatest { IsGreatestFrom start (length (codes_lent codes.entry)) (row_at nonnull.now) (slice_index (codes_lent codes.entry)) result.1 }
{
    match codes {
        LentCodes::Narrow(codes) => narrow_ends(codes, nonnull, start),
        LentCodes::Wide(codes) => wide_ends(codes, nonnull, start),
    }
}
