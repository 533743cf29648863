//! Comparing two plain lists of 64-bit codes row by row, 64 rows at a time.

ghost use Rattle.std.specs.Prelude.{length, slice_index, ℕ, ◌&&◌, ◌<◌, ◌^◌, ◌≡◌, ◌≤◌};
ghost use Rattle.bw_mask.specs.Masks.{bit_of, len, row_at, SameShape};
ghost use Rattle.bw_code.specs.Tests.{code_compares};

use crate::compare::CmpOp;
use crate::wide_lanes::{compared_rows, filled_up};
use bw_mask::Mask;

/// Which of 64 rows are needed and have codes that satisfy the comparison.
fn chosen(op: CmpOp, codes: &[u64], others: &[u64], needed: u64) -> u64
    requires long { 64 ≤ length codes.now }
    requires other { 64 ≤ length others.now }
    ensures { (i : ℕ) → i < 64 → bit_of result i ≡ (bit_of needed i && code_compares op (slice_index codes.now i) (slice_index others.now i)) }
{
    if needed == 0 {
        0
    } else {
        needed & compared_rows(op, codes, others)
    }
}

/// `out` becomes the needed rows whose codes satisfy the comparison.
pub(crate) fn compare_rows(op: CmpOp, codes: &[u64], others: &[u64], need: &Mask, out: &mut Mask)
    requires few { length codes.now ≤ 2 ^ 24 }
    requires other { length others.now ≡ length codes.now }
    requires need { len need.now ≡ length codes.now }
    requires out { len out.old ≡ length codes.now }
    ensures shape { SameShape out.new out.old }
    ensures rows { (r : ℕ) → row_at out.new r ≡ (row_at need.now r && code_compares op (slice_index codes.now r) (slice_index others.now r)) }
{
    let blocks = codes.len() / 64;
    for q in 0..blocks {
        let needed = need.bits(64 * q, 64);
        let found = chosen(op, &codes[64 * q..], &others[64 * q..], needed);
        out.put_word(q, found);
    }
    let at = 64 * blocks;
    let (rest, other_rest) = (filled_up(&codes[at..]), filled_up(&others[at..]));
    let found = chosen(op, &rest, &other_rest, need.bits(at, 64));
    out.put_word(blocks, found);
}
