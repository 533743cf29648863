//! Blocks of rows: which of them are chosen, a byte for each, so that loops over rows are vectorized.

ghost use Rattle.std.specs.Prelude.{false, if◌then◌else◌, slice_index_or, ℕ, ◌*◌, ◌+◌, ◌<◌, ◌^◌, ◌≡◌, ◌≤◌};
ghost use Rattle.bw_mask.specs.Masks.{row_at};

use crate::runs::{RUN, has_row, spread};
use bw_mask::Mask;

/// The greatest number of rows in a block: enough that a loop over them costs little else, and few enough that what is
/// kept of them stays in the nearest cache.
pub(crate) const BLOCK: usize = 512;

/// Whether each row of a block from row `at` on is chosen. Returns whether any is.
pub(crate) fn choose_block(rows: &Mask, at: usize, chosen: &mut [bool; 512]) -> bool
    requires few { at ≤ 2 ^ 24 }
    ensures each { (r : ℕ) → r < 512 → slice_index_or chosen.new r false ≡ row_at rows.now (at + r) }
    ensures none { result ≡ false → (r : ℕ) → r < 512 → row_at rows.now (at + r) ≡ false }
{
    let mut some = false;
    for w in 0..BLOCK / RUN {
        let word = rows.bits(at + RUN * w, RUN);
        if word != 0 {
            some = true;
        }
        let mut bytes = [0; RUN];
        spread(word, &mut bytes);
        for r in 0..RUN {
            chosen[RUN * w + r] = has_row(bytes[r], r);
        }
    }
    some
}

/// Of two bytes of a row the second, if the row is chosen, else the first. A choice between two bytes in memory is
/// compiled to a branch per row. Masking bits is not, so loops over rows are vectorized.
#[inline]
pub(crate) fn choose_byte(own: u8, byte: u8, chosen: bool) -> u8
    ensures { result ≡ (if chosen then byte else own) }
{
    let ones = 0_u8.wrapping_sub(u8::from(chosen));
    (own & !ones) | (byte & ones)
}
