//! Several set functions of a column's values in some rows at once.

ghost use Rattle.std.specs.Prelude.{All, IfOk, None, if◌then◌else◌, length, ◌-◌, ◌/◌, ◌<◌, ◌≡◌, ◌≤◌, ◌^◌};
ghost use Rattle.bw_mask.specs.Masks.{len};
ghost use Rattle.bw_code.specs.Units.{segments_of};
ghost use Rattle.bw_column.specs.Values.{IsNullOrHeld};
ghost use Rattle.bw_cells.specs.SetFunctions.{median};
ghost use Rattle.bw_aggregate.specs.Chosen.{chosen};
ghost use Rattle.bw_aggregate.specs.Summaries.{IsSummary};

use crate::end::{Distances, End, FARTHEST};
use crate::ends::end_told;
use crate::known::{known_count, known_rows};
use crate::middle::median_of;
use crate::telling::{Told, tell};
use bw_column::Column;
use bw_mask::Mask;
use std::alloc::{AllocError, Global};

/// Which set functions of the values are asked for, besides their number.
#[derive(Clone, Copy, Debug, PartialEq, Eq)]
pub struct Asked {
    pub sum: bool,
    pub least: bool,
    pub greatest: bool,
    pub median: bool,
}

impl Asked {
    /// Only the number.
    pub const NOTHING: Asked = Asked {
        sum: false,
        least: false,
        greatest: false,
        median: false,
    };

    /// The initial distances: the largest possible one for an end that is asked for, and else 0.
    fn farthest(&self) -> Distances
        ensures least { result.least ≡ (if self.now.least then 2 ^ 64 - 1 else 0) }
        ensures greatest { result.greatest ≡ (if self.now.greatest then 2 ^ 64 - 1 else 0) }
    {
        Distances {
            least: if self.least { FARTHEST } else { 0 },
            greatest: if self.greatest { FARTHEST } else { 0 },
        }
    }
}

/// The set functions of the non-null values of some rows. Each one except the number is `None` if it wasn't asked for
/// or if there are no values.
#[derive(Clone, Copy, Debug)]
pub struct Summary {
    /// The number of values.
    pub count: usize,
    pub sum: Option<i128>,
    pub least: Option<i64>,
    pub greatest: Option<i64>,
    /// The lower median.
    pub median: Option<i64>,
}

impl Summary {
    const OF_NONE: Summary = Summary {
        count: 0,
        sum: None,
        least: None,
        greatest: None,
        median: None,
    };
}

/// Computes what is asked for, of the non-null values of the rows.
pub fn summarize(
    alloc: Global,
    column: &Column,
    rows: &Mask,
    asked: Asked,
) -> Result<Summary, AllocError>
    requires { len rows.now ≡ length column.now.values }
    ensures { IfOk result (IsSummary asked (chosen column.now rows.now)) }
{
    let count = known_count(column, rows);
    if count == 0 {
        return Ok(Summary::OF_NONE);
    }
    let segments = column.len().div_ceil(256) as u32;
    let median = median_told(alloc, column, rows, segments, count, asked.median)?;
    let Told { sum, nearest } = tell(column, rows, count, asked.sum, asked.farthest());
    Ok(Summary {
        count,
        sum,
        least: end_told(column, rows, End::Least, nearest.least, asked.least),
        greatest: end_told(
            column,
            rows,
            End::Greatest,
            nearest.greatest,
            asked.greatest,
        ),
        median,
    })
}

/// The lower median of the values of the rows, if it is asked for. `count` is the number of non-null values, at least
/// 1.
fn median_told(
    alloc: Global,
    column: &Column,
    rows: &Mask,
    segments: u32,
    count: usize,
    asked: bool,
) -> Result<Option<i64>, AllocError>
    requires len { len rows.now ≡ length column.now.values }
    requires count { count ≡ length (chosen column.now rows.now) }
    requires some { 0 < count }
    requires few { length column.now.values ≤ 2 ^ 24 }
    requires held { All (IsNullOrHeld column.now.layout) column.now.values }
    requires segments { segments ≡ segments_of 256 (length column.now.values) }
    ensures { IfOk result (λ value. value ≡ (if asked then median (chosen column.now rows.now) else None)) }
{
    if !asked {
        return Ok(None);
    }
    let known = known_rows(column, rows)?;
    Ok(Some(median_of(alloc, column, &known, segments, count)?))
}
