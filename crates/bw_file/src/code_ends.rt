//! The least and the greatest code of a column of planes, and the values that codes stand for.

ghost use Rattle.std.specs.Prelude.{All, IfSome, None, Option, length, pos, ℤ, ◌*◌, ◌+ℤ◌, ◌+◌, ◌<◌, ◌≡◌, ◌≤◌};
ghost use Rattle.bw_cells.specs.Known.{known};
ghost use Rattle.bw_code.specs.Fittings.{AreEnds};
ghost use Rattle.bw_code.specs.Types.{IsNullOrOfType, IsOfType};
ghost use Rattle.bw_code.specs.declared.ends.Ends.{Ends as AnyEnds};
ghost use Rattle.bw_code.specs.Headers.{row_limit};
ghost use Rattle.bw_code.specs.Widths.{widest_code};
ghost use Rattle.bw_file.specs.Cells.{presence_size};
ghost use Rattle.bw_file.specs.Planes.{cells_in, code_in, has_in};
ghost use Rattle.bw_file.specs.Reading.{HasNoSpareBit};
ghost use Rattle.bw_file.specs.declared.code_ends.Values.TheVariants as found;
ghost use Rattle.bw_vertical.specs.Descents.{AreCodeEnds};

use crate::block::{BLOCK, block_of};
use crate::descent::ends_with_block;
use bw_code::{ColumnType, Ends};
use bw_vertical::CodeEnds;

/// The ends of the codes of k bits of `rows` rows.
pub(crate) fn code_ends(present: &[u8], planes: &[u8], rows: usize, k: usize) -> CodeEnds
    requires narrow { k ≤ widest_code }
    requires few { rows ≤ row_limit }
    requires present { length present.now ≡ presence_size rows }
    requires spare { HasNoSpareBit rows present.now }
    requires planes { length planes.now ≡ k * presence_size rows }
    ensures { AreCodeEnds (has_in present.now) (code_in k (presence_size rows) planes.now) rows result }
{
    let size = rows.div_ceil(8);
    let mut ends = CodeEnds::none();
    'runs: for b in 0..size.div_ceil(BLOCK) {
        let from = b * BLOCK;
        let there = block_of(present, from, (size - from).min(BLOCK));
        ends = ends_with_block(ends, planes, size, k, from, &there);
    }
    ends
}

/// The values that codes stand for.
#[derive(Clone, Copy)]
pub(crate) enum Values {
    /// Integers of the column's type, with the least and the greatest of them, if there are any.
    OfType(Option<Ends>),
    /// Not all are integers of the type.
    Beyond,
}

/// The integer that a code stands for, if it is of the type.
fn value_of(base: i64, code: u64, column_type: ColumnType) -> Option<i64>
    ensures some { IfSome result (λ value. (value ≡ base +ℤ pos code) × IsOfType column_type value) }
    ensures none { result ≡ None → IsOfType column_type (base +ℤ pos code) → ⊥ }
{
    let value = i128::from(base) + i128::from(code);
    match column_type {
        ColumnType::Integer => match i32::try_from(value) {
            Ok(integer) => Some(i64::from(integer)),
            Err(_) => None,
        },
        ColumnType::BigInt => match i64::try_from(value) {
            Ok(integer) => Some(integer),
            Err(_) => None,
        },
    }
}

/// The values of the codes of k bits of `rows` rows.
pub(crate) fn values_in(
    present: &[u8],
    planes: &[u8],
    rows: usize,
    k: usize,
    base: i64,
    column_type: ColumnType,
) -> Values
    requires narrow { k ≤ widest_code }
    requires few { rows ≤ row_limit }
    requires present { length present.now ≡ presence_size rows }
    requires spare { HasNoSpareBit rows present.now }
    requires planes { length planes.now ≡ k * presence_size rows }
    ensures typed { (ends : Option AnyEnds) → result ≡ found.OfType ends → All (IsNullOrOfType column_type) (cells_in rows base k present.now planes.now) }
    ensures ends { (ends : Option AnyEnds) → result ≡ found.OfType ends → AreEnds (known (cells_in rows base k present.now planes.now)) ends }
    ensures beyond { result ≡ found.Beyond → All (IsNullOrOfType column_type) (cells_in rows base k present.now planes.now) → ⊥ }
{
    let codes = code_ends(present, planes, rows, k);
    if !codes.any {
        return Values::OfType(None);
    }
    let Some(least) = value_of(base, codes.least, column_type) else {
        return Values::Beyond;
    };
    let Some(greatest) = value_of(base, codes.greatest, column_type) else {
        return Values::Beyond;
    };
    Values::OfType(Some(Ends { least, greatest }))
}
