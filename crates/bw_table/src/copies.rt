//! Whether copied values are of the type of their target column.

ghost use Rattle.std.specs.Prelude.{All, IsTrue, length, slice_index, true, ℕ, ◌<◌, ◌^◌, ◌↔◌, ◌≡◌, ◌≤◌};
ghost use Rattle.bw_mask.specs.Masks.{bit_of, len, row_at};
ghost use Rattle.bw_code.specs.Types.{IsNullOrOfType, types_of};
ghost use Rattle.bw_code.specs.declared.kind.ColumnType.TheVariants.{Integer};
ghost use Rattle.bw_column.specs.Values.{value_at};
ghost use Rattle.bw_table.specs.Changes.{IsSetTo, copies_fit, rows_found};
ghost use Rattle.bw_table.specs.Slots.{column_of, slot_column};
ghost use Rattle.bw_table.specs.Tables.{AreHeadersOf};

use crate::setting::SetTo;
use crate::slots::Slots;
use bw_cells::Measured;
use bw_code::{CodeTest, ColumnType, Header};
use bw_column::Column;
use bw_mask::{Mask, has_bit};

/// The least and the greatest INTEGER.
const LEAST: i64 = -2_147_483_648;

const GREATEST: i64 = 2_147_483_647;

/// The distance from the least INTEGER to the greatest.
const SPAN: u64 = 4_294_967_295;

/// Whether each of the distances whose bit is set, measured from the least INTEGER, is that of an INTEGER.
fn are_spanned(distances: &[u64], rows: u64) -> bool
    requires { length distances.now ≤ 64 }
    ensures { IsTrue result ↔ ((k : ℕ) → k < length distances.now → bit_of rows k ≡ true → slice_index distances.now k < 2 ^ 32) }
{
    let mut greatest = 0;
    // No branch per distance, so that the loop can be vectorized.
    for i in 0..distances.len() {
        let distance = if has_bit(rows, i) { distances[i] } else { 0 };
        greatest = greatest.max(distance);
    }
    greatest <= SPAN
}

/// Whether the encoding alone shows that a column has only INTEGERs.
fn is_encoded_so(column: &Column) -> bool
    ensures { IsTrue result → All (IsNullOrOfType Integer) column.now.values }
{
    match column.encoding().range(LEAST, GREATEST) {
        CodeTest::All => true,
        _ => false,
    }
}

/// Whether a column has only INTEGERs (or NULL) in the rows of a mask.
fn has_integers(column: &Column, mask: &Mask) -> bool
    requires { len mask.now ≡ length column.now.values }
    ensures { IsTrue result ↔ ((i : ℕ) → row_at mask.now i ≡ true → IsNullOrOfType Integer (value_at column.now.values i)) }
{
    if is_encoded_so(column) {
        return true;
    }
    let end = column.len();
    let mut list = [0; 64];
    let mut at = 0;
    while let Some(row) = mask.next_from(at) {
        let n = (64 - row % 64).min(end - row);
        let distances = &mut list[..n];
        column.distances(row, LEAST, distances);
        if !are_spanned(distances, mask.bits(row, n)) {
            return false;
        }
        at = row + n;
    }
    true
}

/// Whether the values of column `from` in the found slots are of type `target`. The values are read only if a BIGINT
/// column is copied to an INTEGER column.
fn copy_fits(slots: &Slots, found: &Mask, from: usize, own: ColumnType, target: ColumnType) -> bool
    requires there { from < length slots.now.encodings }
    requires found { len found.now ≡ length slots.now.slots }
    requires typed { All (IsNullOrOfType own) (slot_column slots.now.slots from) }
    ensures { IsTrue result ↔ All (IsNullOrOfType target) (column_of (rows_found found.now slots.now.slots) from) }
{
    match (own, target) {
        (ColumnType::Integer, _) => true,
        (ColumnType::BigInt, ColumnType::BigInt) => true,
        (ColumnType::BigInt, ColumnType::Integer) => has_integers(slots.column(from), found),
    }
}

/// Whether all copied values are of the type of their target column. Allocates nothing.
pub(crate) fn copies_fit<N>(
    headers: &[Header<N>],
    slots: &Slots,
    found: &Mask,
    sets: &[(usize, SetTo)],
) -> bool
    requires headers { AreHeadersOf headers.now slots.now }
    requires found { len found.now ≡ length slots.now.slots }
    requires named { All (λ set. set.0 < length headers.now) sets.now }
    requires values { All (IsSetTo (types_of headers.now)) sets.now }
    ensures { result ≡ copies_fit (types_of headers.now) found.now sets.now slots.now.slots }
{
    for set in sets {
        let (k, to) = *set;
        if let SetTo::Column(from) = to {
            let own = headers[from].column_type;
            let target = headers[k].column_type;
            if !copy_fits(slots, found, from, own, target) {
                return false;
            }
        }
    }
    true
}
