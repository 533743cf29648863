//! COUNT, SUM, MIN, MAX and MEDIAN of the values of some rows, each on its own. NULLs are ignored.

ghost use Rattle.std.specs.Prelude.{◌≡◌, IfOk, length};
ghost use Rattle.bw_mask.specs.Masks.{len};
ghost use Rattle.bw_cells.specs.SetFunctions.{greatest, least, median, sum};
ghost use Rattle.bw_aggregate.specs.Chosen.{chosen};

use crate::known::known_count;
use crate::summary::{Asked, summarize};
use bw_column::Column;
use bw_mask::Mask;
use std::alloc::{AllocError, Global};

/// The number of non-null values of the rows.
pub fn count(column: &Column, rows: &Mask) -> u64
    requires { len rows.now ≡ length column.now.values }
    ensures { result ≡ length (chosen column.now rows.now) }
{
    known_count(column, rows) as u64
}

/// The sum of the values of the rows; `None` if all are NULL.
pub fn sum(alloc: Global, column: &Column, rows: &Mask) -> Result<Option<i128>, AllocError>
    requires { len rows.now ≡ length column.now.values }
    ensures { IfOk result (λ value. value ≡ sum (chosen column.now rows.now)) }
{
    let asked = Asked {
        sum: true,
        ..Asked::NOTHING
    };
    Ok(summarize(alloc, column, rows, asked)?.sum)
}

/// The least value of the rows; `None` if all are NULL.
pub fn min(alloc: Global, column: &Column, rows: &Mask) -> Result<Option<i64>, AllocError>
    requires { len rows.now ≡ length column.now.values }
    ensures { IfOk result (λ value. value ≡ least (chosen column.now rows.now)) }
{
    let asked = Asked {
        least: true,
        ..Asked::NOTHING
    };
    Ok(summarize(alloc, column, rows, asked)?.least)
}

/// The greatest value of the rows; `None` if all are NULL.
pub fn max(alloc: Global, column: &Column, rows: &Mask) -> Result<Option<i64>, AllocError>
    requires { len rows.now ≡ length column.now.values }
    ensures { IfOk result (λ value. value ≡ greatest (chosen column.now rows.now)) }
{
    let asked = Asked {
        greatest: true,
        ..Asked::NOTHING
    };
    Ok(summarize(alloc, column, rows, asked)?.greatest)
}

/// The lower median of the values of the rows; `None` if all are NULL.
pub fn median(alloc: Global, column: &Column, rows: &Mask) -> Result<Option<i64>, AllocError>
    requires { len rows.now ≡ length column.now.values }
    ensures { IfOk result (λ value. value ≡ median (chosen column.now rows.now)) }
{
    let asked = Asked {
        median: true,
        ..Asked::NOTHING
    };
    Ok(summarize(alloc, column, rows, asked)?.median)
}
