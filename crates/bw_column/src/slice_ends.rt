//! The ends of the codes of a column in layout S: most blocks are passed over by their top bytes.

ghost use Rattle.std.specs.Prelude.{false, length, slice_index, true, ℕ, ◌*◌, ◌<◌, ◌^◌, ◌≡◌, ◌≤◌};
ghost use Rattle.bw_mask.specs.Masks.{row_at};
ghost use Rattle.bw_code.specs.Columns.{code_at, count};
ghost use Rattle.bw_code.specs.Units.{digit};
ghost use Rattle.bw_code.specs.Widths.{widest_code};
ghost use Rattle.bw_byteslice.specs.Slices.{shift_of, slices_of};
ghost use Rattle.bw_column.specs.Extremes.{IsGreatestFrom, IsLeastFrom};

use crate::ends::ends_with;
use bw_byteslice::SliceColumn;
use bw_code::CodeColumn;
use bw_mask::Mask;

/// The top byte of a code of `width` bits: that of the row in the top slice.
fn top_byte(code: u64, width: u32) -> u8
    requires some { 1 ≤ width }
    requires narrow { width ≤ widest_code }
    requires fits { code < 2 ^ width }
    ensures { result ≡ digit 256 (slices_of width) (code * 2 ^ shift_of width) 0 }
{
    let slices = width.div_ceil(8);
    let number = code << (8 * slices - width);
    (number >> (8 * (slices - 1)) & 0xff) as u8
}

/// Whether any of the bytes is at least this one.
fn has_at_least(bytes: &[u8], byte: u8) -> bool
    ensures none { result ≡ false → (i : ℕ) → i < length bytes.now → slice_index bytes.now i < byte }
    ensures some { result ≡ true → (i : ℕ) × (i < length bytes.now) × (byte ≤ slice_index bytes.now i) }
{
    // No early exit, so that the loop is vectorized.
    let mut any = false;
    for i in 0..bytes.len() {
        any |= bytes[i] >= byte;
    }
    any
}

/// Whether any of the bytes is at most this one.
fn has_at_most(bytes: &[u8], byte: u8) -> bool
    ensures none { result ≡ false → (i : ℕ) → i < length bytes.now → byte < slice_index bytes.now i }
    ensures some { result ≡ true → (i : ℕ) × (i < length bytes.now) × (slice_index bytes.now i ≤ byte) }
{
    let mut any = false;
    for i in 0..bytes.len() {
        any |= bytes[i] <= byte;
    }
    any
}

/// Whether a code with one of these top bytes may lie beyond the ends so far. The top byte of a code never falls where
/// the code grows.
fn may_be_beyond(tops: &[u8], width: u32, so_far: (u64, u64)) -> bool
    requires some { 1 ≤ width }
    requires narrow { width ≤ widest_code }
    requires least { so_far.0 < 2 ^ width }
    requires greatest { so_far.1 < 2 ^ width }
    ensures { result ≡ false → (i code : ℕ) → i < length tops.now → code < 2 ^ width
        → slice_index tops.now i ≡ digit 256 (slices_of width) (code * 2 ^ shift_of width) 0 → (so_far.0 ≤ code) × (code ≤ so_far.1) }
{
    let (least, greatest) = so_far;
    if has_at_least(tops, top_byte(greatest, width)) {
        return true;
    }
    least > 0 && has_at_most(tops, top_byte(least, width))
}

/// The least and the greatest of `start` and of the codes of the non-null rows.
pub(crate) fn slice_ends(codes: &SliceColumn, nonnull: &Mask, start: u64) -> (u64, u64)
    requires fits { start < 2 ^ codes.now.width }
    ensures least { IsLeastFrom start (count codes.now) (row_at nonnull.now) (code_at codes.now) result.0 }
    ensures greatest { IsGreatestFrom start (count codes.now) (row_at nonnull.now) (code_at codes.now) result.1 }
{
    let width = codes.width();
    let tops = codes.slice(0);
    let mut run = [0; 64];
    let mut ends = (start, start);
    let mut at = 0;
    while at < codes.len() {
        let n = (codes.len() - at).min(64);
        if may_be_beyond(&tops[at..at + n], width, ends) {
            let block = &mut run[..n];
            codes.read(at, block);
            ends = ends_with(ends, block, nonnull.bits(at, n));
        }
        at += n;
    }
    ends
}
