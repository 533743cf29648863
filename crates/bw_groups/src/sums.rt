//! The sums of a column's values in each group.

ghost use Rattle.std.specs.Prelude.{IfOk, IsTrue, Some, length, pos, slice_index_or, ℤ, ◌≡◌};
ghost use Rattle.bw_code.specs.declared.ends.Ends.{Ends as Bounds};
ghost use Rattle.bw_groups.specs.Folding.{AreFolds, IsSmall, IsSum, sums_in};
ghost use Rattle.bw_groups.specs.Runs.{IsWithin, values_in};

use crate::entry::entry;
use crate::fold::fold_each;
use crate::groups::Groups;
use crate::value_runs::ValueRuns;
use bw_code::Ends;
use std::alloc::{AllocError, Global};

/// The greatest distance from 0 of values whose sums are kept in 64 bits. There are at most 2^24 of them.
const FARTHEST: i64 = 1 << 38;

/// A sum for each group. Narrow sums take half the memory, so that with many groups they are added to in less time.
#[derive(Debug, Drop)]
pub(crate) enum Sums {
    Narrow(Vec<i64>),
    Wide(Vec<i128>),
}

impl Sums {
    /// The sum of the values in each group, if sums are asked for; else none.
    pub(crate) fn if_asked<C: ValueRuns>(
        alloc: Global,
        asked: bool,
        groups: &Groups,
        column: &C,
    ) -> Result<Sums, AllocError>
        requires { length (values_in (C.runs column.now)) ≡ length groups.now.ranks }
        ensures count { IfOk result (λ sums. IsTrue asked → length (sums_in sums) ≡ length groups.now.values) }
        ensures sums { IfOk result (λ sums. IsTrue asked → AreFolds IsSum groups.now.ranks (values_in (C.runs column.now)) (sums_in sums)) }
    {
        if !asked {
            return Ok(Sums::Narrow(Vec::new(alloc)));
        }
        if are_small(column.bounds()) {
            let sums = fold_each::<i64, C>(alloc, groups, column)?;
            Ok(Sums::Narrow(sums))
        } else {
            let sums = fold_each::<i128, C>(alloc, groups, column)?;
            Ok(Sums::Wide(sums))
        }
    }

    /// The sum of group `g`; 0 past the last group.
    pub(crate) fn get(&self, g: usize) -> i128
        ensures { result ≡ slice_index_or (sums_in self.now) g (pos 0) }
    {
        match self {
            Sums::Narrow(sums) => i128::from(entry(sums, g, 0)),
            Sums::Wide(sums) => entry(sums, g, 0),
        }
    }
}

/// Whether values within these bounds are at most 2^38 from 0; false if no bounds are known.
fn are_small(bounds: Option<Ends>) -> bool
    ensures { IsTrue result → (ends : Bounds) × (bounds ≡ Some ends) × ((x : ℤ) → IsWithin ends x → IsSmall x) }
{
    match bounds {
        Some(Ends { least, greatest }) => -FARTHEST <= least && greatest <= FARTHEST,
        None => false,
    }
}
