//! Writing plain 64-bit codes to some of 64 rows of a column.

ghost use Rattle.std.specs.Prelude.{false, length, true, ℕ, ◌+◌, ◌<◌, ◌^◌, ◌≡◌, ◌≤◌};
ghost use Rattle.bw_mask.specs.Masks.{bit_of};
ghost use Rattle.bw_code.specs.Columns.{filled_codes, put_codes};

use crate::chosen::{fill_chosen, put_chosen};

/// Row at + i takes code i where bit i of `rows` is set.
pub(crate) fn put_run(kept: &mut [u64], at: usize, rows: u64, codes: &[u64])
    requires few { length codes.now ≤ 64 }
    requires there { at + length codes.now ≤ length kept.old }
    requires given { (i : ℕ) → length codes.now ≤ i → bit_of rows i ≡ false }
    ensures { kept.new ≡ put_codes kept.old at rows codes.now }
{
    let block = &mut kept[at..at + codes.len()];
    put_chosen(block, rows, codes);
}

/// Row at + i takes the code where bit i of `rows` is set.
pub(crate) fn fill_run(kept: &mut [u64], at: usize, rows: u64, code: u64)
    requires few { length kept.old ≤ 2 ^ 24 }
    requires inside { at ≤ length kept.old }
    requires there { (i : ℕ) → bit_of rows i ≡ true → at + i < length kept.old }
    ensures { kept.new ≡ filled_codes kept.old at rows code }
{
    let end = (at + 64).min(kept.len());
    let block = &mut kept[at..end];
    fill_chosen(block, rows, code);
}
