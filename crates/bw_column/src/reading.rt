//! Decoding values from codes.

ghost use Rattle.std.specs.Prelude.{drop, length, slice_index, take, ℕ, ◌+◌, ◌<◌, ◌≡◌, ◌≤◌};
ghost use Rattle.bw_mask.specs.Masks.{bit_of};
ghost use Rattle.bw_code.specs.Columns.{count};
ghost use Rattle.bw_code.specs.declared.encoding.Encoding.TheVariants as by;
ghost use Rattle.bw_column.specs.Codes.{AreRowCodes, IsRowCode, value_from, values_from};
ghost use Rattle.bw_column.specs.Storing.{layout_of, list_of};
ghost use Rattle.bw_column.specs.Values.{value_at};

use crate::column::Column;
use crate::storage::Codes;
use bw_cells::Cells;
use bw_code::{Encoding, Offset};
use bw_mask::{Mask, has_bit};

/// The value of a row, by its code and whether it is non-null.
pub(crate) fn value(encoding: &Encoding, code: u64, there: bool) -> Option<i64>
    requires { IsRowCode encoding.now code there }
    ensures { result ≡ value_from encoding.now code there }
{
    if there {
        Some(encoding.decode(code))
    } else {
        None
    }
}

/// Fills `out` with the values of codes that are distances from a base. Those whose bit is set are non-null.
fn decode_by_offset(offset: Offset, codes: &[u64], present: u64, out: &mut [Option<i64>])
    requires few { length out.old ≤ 64 }
    requires codes { length codes.now ≡ length out.old }
    requires each { (k : ℕ) → k < length out.old → IsRowCode (by.Offset offset) (slice_index codes.now k) (bit_of present k) }
    ensures { (k : ℕ) → k < length out.old → value_at out.new k ≡ value_from (by.Offset offset) (slice_index codes.now k) (bit_of present k) }
{
    for i in 0..out.len() {
        out[i] = value_by_offset(offset, codes[i], has_bit(present, i));
    }
}

/// The value of a row in an offset encoding. The number is computed for a null, too, so that the choice needs no
/// branch.
#[inline]
fn value_by_offset(offset: Offset, code: u64, there: bool) -> Option<i64>
    requires { IsRowCode (by.Offset offset) code there }
    ensures { result ≡ value_from (by.Offset offset) code there }
{
    let number = offset.base.wrapping_add_unsigned(code);
    if there { Some(number) } else { None }
}

/// The same for any encoding, one value at a time.
fn decode_each(encoding: &Encoding, codes: &[u64], present: u64, out: &mut [Option<i64>])
    requires few { length out.old ≤ 64 }
    requires codes { length codes.now ≡ length out.old }
    requires each { (k : ℕ) → k < length out.old → IsRowCode encoding.now (slice_index codes.now k) (bit_of present k) }
    ensures { (k : ℕ) → k < length out.old → value_at out.new k ≡ value_from encoding.now (slice_index codes.now k) (bit_of present k) }
{
    for i in 0..out.len() {
        out[i] = value(encoding, codes[i], has_bit(present, i));
    }
}

/// Fills `out` with the values of the codes. Those whose bit is set are non-null.
fn decode_all(encoding: &Encoding, codes: &[u64], present: u64, out: &mut [Option<i64>])
    requires few { length out.old ≤ 64 }
    requires codes { length codes.now ≡ length out.old }
    requires each { (k : ℕ) → k < length out.old → IsRowCode encoding.now (slice_index codes.now k) (bit_of present k) }
    ensures { (k : ℕ) → k < length out.old → value_at out.new k ≡ value_from encoding.now (slice_index codes.now k) (bit_of present k) }
{
    match encoding {
        Encoding::Offset(offset) => decode_by_offset(*offset, codes, present, out),
        Encoding::Dictionary(_) => decode_each(encoding, codes, present, out),
    }
}

/// Fills `out` with the values of at most 64 rows from row `at` on.
fn read_block(
    encoding: &Encoding,
    codes: &Codes,
    nonnull: &Mask,
    at: usize,
    out: &mut [Option<i64>],
)
    requires rows { AreRowCodes (layout_of codes.now) encoding.now (list_of codes.now) nonnull.now }
    requires few { length out.old ≤ 64 }
    requires there { at + length out.old ≤ count (list_of codes.now) }
    ensures { (k : ℕ) → k < length out.old → value_at out.new k ≡ value_at (values_from encoding.now (list_of codes.now) nonnull.now) (at + k) }
{
    let mut list = [0; 64];
    let block = &mut list[..out.len()];
    codes.read(at, block);
    decode_all(encoding, block, nonnull.bits(at, 64), out);
}

impl Column {
    /// Fills `out` with the values from row `at` on. Takes no memory.
    #[tactic(auto, using(bw_code::proofs::Lists::made_len))]
    pub fn read(&self, at: usize, out: &mut [Option<i64>])
        requires { at + length out.old ≤ length self.now.values }
        ensures { out.new ≡ take (length out.old) (drop at self.now.values) }
    {
        for q in 0..out.len().div_ceil(64) {
            let end = (64 * q + 64).min(out.len());
            let block = &mut out[64 * q..end];
            read_block(
                &self.encoding,
                &self.codes,
                &self.nonnull,
                at + 64 * q,
                block,
            );
        }
    }
}

impl Cells for Column {
    ghost cells = { λ column. column.values };

    fn len(&self) -> usize {
        self.len()
    }

    fn read(&self, at: usize, out: &mut [Option<i64>]) {
        self.read(at, out);
    }
}
