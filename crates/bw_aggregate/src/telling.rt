//! The sum and the ends of some rows, from one pass over a column's codes.

ghost use Rattle.std.specs.Prelude.{All, None, Some, if◌then◌else◌, is_some, length, ◌&&◌, ◌-◌, ◌<◌, ◌^◌, ◌≡◌, ◌≤◌};
ghost use Rattle.bw_mask.specs.Masks.{len, row_at};
ghost use Rattle.bw_code.specs.Encodings.{IsEncoding, width};
ghost use Rattle.bw_code.specs.declared.encoding.Encoding.TheVariants as by;
ghost use Rattle.bw_column.specs.Codes.{IsCoded, codes_for};
ghost use Rattle.bw_column.specs.Values.{value_at};
ghost use Rattle.bw_cells.specs.SetFunctions.{sum};
ghost use Rattle.bw_aggregate.specs.Chosen.{chosen};
ghost use Rattle.bw_aggregate.specs.Tallies.{IsTally, IsTold};

use crate::end::Distances;
use crate::entry_sums::sum_of_entries;
use crate::tally::Tally;
use crate::tally_planes::tally_by_planes;
use crate::tally_runs::tally_in_runs;
use crate::totals::based_total;
use bw_code::{Dictionary, Encoding};
use bw_column::{Column, Storage};
use bw_mask::Mask;

/// The sum of the values of rows, if it is asked for, and the least distance of their codes from each end.
#[derive(Clone, Copy)]
pub(crate) struct Told {
    pub(crate) sum: Option<i128>,
    pub(crate) nearest: Distances,
}

/// The sum of the codes of the rows, if it is asked for (a null's code is 0), and the least distances of the non-null
/// ones, or `far` if none is nearer. In planes, the sum comes from counts. Nothing is read if nothing is asked for.
fn code_tally(column: &Column, rows: &Mask, sum: bool, far: Distances) -> Tally
    requires len { len rows.now ≡ length column.now.values }
    ensures { IsTally sum rows.now.rows (λ r. row_at rows.now r && is_some (value_at column.now.values r)) (codes_for column.now.encoding column.now.values) (2 ^ width column.now.encoding - 1) far result }
{
    let (storage, nonnull) = (column.storage(), column.nonnull());
    if !sum && far.are_none() {
        return Tally::NOTHING;
    }
    match storage {
        Storage::P(codes) => tally_in_runs(codes, rows, nonnull, sum, far),
        Storage::V(codes) => tally_by_planes(codes, rows, nonnull, sum, far),
        Storage::H(codes) => tally_in_runs(codes, rows, nonnull, sum, far),
        Storage::S(codes) => tally_in_runs(codes, rows, nonnull, sum, far),
    }
}

/// The sum of the non-null values of the rows, if it is asked for. At least one value is non-null.
fn value_sum_if(asked: bool, column: &Column, dictionary: &Dictionary, rows: &Mask) -> Option<i128>
    requires len { len rows.now ≡ length column.now.values }
    requires encoding { column.now.encoding ≡ by.Dictionary dictionary.now }
    requires sound { IsEncoding column.now.encoding }
    requires coded { All (IsCoded column.now.encoding) column.now.values }
    requires some { 0 < length (chosen column.now rows.now) }
    ensures { result ≡ (if asked then sum (chosen column.now rows.now) else None) }
{
    if asked {
        Some(sum_of_entries(column, dictionary.entries(), rows))
    } else {
        None
    }
}

/// The sum, if it is asked for.
fn sum_if(asked: bool, sum: i128) -> Option<i128>
    ensures { result ≡ (if asked then Some sum else None) }
{
    if asked { Some(sum) } else { None }
}

/// The sum of the values of the rows, if it is asked for, and the least distances of their codes, or `far` if none is
/// nearer. `count` is the number of non-null values, at least 1. A null's code is 0, so the sum of the codes is that of
/// the values minus `count` bases. A dictionary's codes don't give the sum.
pub(crate) fn tell(column: &Column, rows: &Mask, count: usize, sum: bool, far: Distances) -> Told
    requires len { len rows.now ≡ length column.now.values }
    requires few { count ≤ 2 ^ 24 }
    requires count { count ≡ length (chosen column.now rows.now) }
    requires some { 0 < count }
    ensures { IsTold column.now rows.now sum far result }
{
    match column.encoding() {
        Encoding::Offset(offset) => {
            let tally = code_tally(column, rows, sum, far);
            Told {
                sum: sum_if(sum, based_total(offset.base, count, tally.sum)),
                nearest: tally.nearest,
            }
        }
        Encoding::Dictionary(dictionary) => Told {
            sum: value_sum_if(sum, column, dictionary, rows),
            nearest: code_tally(column, rows, false, far).nearest,
        },
    }
}
