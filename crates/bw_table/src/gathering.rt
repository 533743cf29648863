//! The values of a column in the rows of a mask.

ghost use Rattle.std.specs.Prelude.{IfOk, length, take, vec_len, ◌<◌, ◌≡◌, ◌≤◌};
ghost use Rattle.bw_mask.specs.Masks.{len};
ghost use Rattle.bw_column.specs.Places.{chosen_values};
ghost use Rattle.bw_table.specs.Sets.{picked};

use bw_column::Column;
use bw_mask::{Mask, has_bit};
use std::alloc::{AllocError, Global};

/// With fewer wanted rows than this in a word of 64, values are read one by one; else the whole word is read.
const FEW: u32 = 8;

/// Writes those of at most 64 values whose bit is set to the start of `out`, in order, and returns their number.
pub(crate) fn pick(run: &[Option<i64>], rows: u64, out: &mut [Option<i64>; 64]) -> usize
    requires { length run.now ≤ 64 }
    ensures few { result ≤ length run.now }
    ensures front { take result out.new ≡ picked rows run.now }
{
    let mut count = 0;
    // No branch per value: each is written, and overwritten by the next one if its bit is not set.
    for i in 0..run.len() {
        out[count] = run[i];
        if has_bit(rows, i) {
            count += 1;
        }
    }
    count
}

/// The values of the rows of a mask, in order. If many rows of a word of 64 are wanted, the whole word is read at once.
pub(crate) fn gather(
    column: &Column,
    alloc: Global,
    mask: &Mask,
) -> Result<Vec<Option<i64>>, AllocError>
    requires long { length column.now.values ≡ len mask.now }
    ensures values { IfOk result (λ values. values.items ≡ chosen_values mask.now column.now.values) }
    ensures few { IfOk result (λ values. vec_len values ≤ len mask.now) }
{
    let end = column.len();
    let mut values = Vec::with_capacity(alloc, mask.count())?;
    let mut run = [None; 64];
    let mut front = [None; 64];
    let mut at = 0;
    while let Some(row) = mask.next_from(at) {
        let n = (64 - row % 64).min(end - row);
        let rows = mask.bits(row, n);
        if rows.count_ones() < FEW {
            values.push(column.get(row))?;
            at = row + 1;
        } else {
            column.read(row, &mut run[..n]);
            let count = pick(&run[..n], rows, &mut front);
            values.extend_from_slice(&front[..count])?;
            at = row + n;
        }
    }
    Ok(values)
}
