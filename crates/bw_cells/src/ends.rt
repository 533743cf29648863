//! The least and the greatest of cells.

ghost use Rattle.std.specs.Prelude.{List, ℤ, ◌++◌};
ghost use Rattle.bw_code.specs.Fittings.{AreEnds};
ghost use Rattle.bw_cells.specs.Known.{known};

use crate::cells::Cells;
use bw_code::Ends;

/// The least and the greatest of the cells that are integers, if there are any.
fn known_ends(values: &[Option<i64>]) -> Option<Ends>
    ensures { AreEnds (known values.now) result }
{
    let mut least = i64::MAX;
    let mut greatest = i64::MIN;
    let mut any = false;
    // No branch per value, so that the loop can be vectorized. A null is treated as a value that changes neither end.
    for i in 0..values.len() {
        least = least.min(values[i].unwrap_or(i64::MAX));
        greatest = greatest.max(values[i].unwrap_or(i64::MIN));
        any |= values[i].is_some();
    }
    if any {
        Some(Ends { least, greatest })
    } else {
        None
    }
}

/// The least and the greatest of two lists of values, given the ends of each.
pub fn ends_of_both(first: Option<Ends>, second: Option<Ends>) -> Option<Ends>
    ensures { (xs ys : List ℤ) → AreEnds xs first → AreEnds ys second → AreEnds (xs ++ ys) result }
{
    let Some(a) = first else {
        return second;
    };
    let Some(b) = second else {
        return first;
    };
    Some(Ends {
        least: a.least.min(b.least),
        greatest: a.greatest.max(b.greatest),
    })
}

/// The least and the greatest of the cells that are integers, if there are any, found block by block.
pub(crate) fn ends_in_runs<C: Cells>(cells: &C) -> Option<Ends>
    ensures { AreEnds (known (C.cells cells.now)) result }
{
    let mut run = [None; 64];
    let mut ends = None;
    let mut at = 0;
    while at < cells.len() {
        let n = (cells.len() - at).min(64);
        cells.read(at, &mut run[..n]);
        ends = ends_of_both(ends, known_ends(&run[..n]));
        at += n;
    }
    ends
}
