//! Set functions of a column's values in each group.

ghost use Rattle.std.specs.Prelude.{IfOk, None, Some, if◌then◌else◌, length, slice_index_or, ℕ, ◌<◌, ◌||◌, ◌≡◌};
ghost use Rattle.bw_aggregate.specs.Summaries.{IsSummary};
ghost use Rattle.bw_aggregate.specs.declared.summary.Summary.{Summary as AnySummary};
ghost use Rattle.bw_cells.specs.SetFunctions.{known, median};
ghost use Rattle.bw_groups.specs.Folding.{AreFolds, IsCount, greatest_in, if_any, least_in, summaries, summary_by, sums_in};
ghost use Rattle.bw_groups.specs.Grouping.{members};
ghost use Rattle.bw_groups.specs.Runs.{values_in};

use crate::entry::entry;
use crate::fold::{fold_each, fold_if};
use crate::groups::Groups;
use crate::median::medians_if;
use crate::sums::Sums;
use crate::value_runs::ValueRuns;
use bw_aggregate::{Asked, Summary};
use bw_code::Ends;
use std::alloc::{AllocError, Global};
use std::marker::Model;

/// The set functions of a column's values in each group. Contracts see one summary per group. Each function that is
/// asked for takes one pass over the rows; only medians need the values arranged by group.
#[derive(Debug, Drop)]
pub struct Folds {
    asked: Asked,
    counts: Vec<u32>,
    sums: Sums,
    ends: Vec<Option<Ends>>,
    medians: Vec<i64>,
}

impl Model for Folds {
    ghost use Rattle.std.specs.Prelude.{List};
    ghost use Rattle.bw_aggregate.specs.declared.summary.Summary.{Summary};
    ghost use Rattle.bw_groups.specs.Folding.{summaries, sums_in};

    ghost Value = { List Summary };

    ghost view = { λ folds. summaries folds.asked folds.counts.items (sums_in folds.sums) folds.ends.items folds.medians.items };
}

impl Folds {
    /// Computes what is asked for. The column has a value for each row of the groups.
    pub fn of<C: ValueRuns>(
        alloc: Global,
        groups: &Groups,
        column: &C,
        asked: Asked,
    ) -> Result<Folds, AllocError>
        requires { length (values_in (C.runs column.now)) ≡ length groups.now.ranks }
        ensures count { IfOk result (λ folds. length folds ≡ length groups.now.values) }
        ensures summaries { IfOk result (λ folds. (g : ℕ) (d : AnySummary) → g < length groups.now.values → IsSummary asked (known (members groups.now.ranks (values_in (C.runs column.now)) g)) (slice_index_or folds g d)) }
    {
        let counts = counts_of(alloc, groups, column)?;
        let sums = Sums::if_asked(alloc, asked.sum, groups, column)?;
        let ends = fold_if::<Option<Ends>, C>(alloc, asks_ends(asked), groups, column)?;
        let medians = medians_if(alloc, asked.median, groups, &counts, column)?;
        Ok(Folds::from_parts(asked, counts, sums, ends, medians))
    }

    fn from_parts(
        asked: Asked,
        counts: Vec<u32>,
        sums: Sums,
        ends: Vec<Option<Ends>>,
        medians: Vec<i64>,
    ) -> Folds
        ensures { result ≡ summaries asked counts.items (sums_in sums) ends.items medians.items }
    {
        Folds {
            asked,
            counts,
            sums,
            ends,
            medians,
        }
    }

    /// The summary of the values in group `g`.
    pub fn summary(&self, g: usize) -> Summary
        requires { g < length self.now }
        ensures { (d : AnySummary) → result ≡ slice_index_or self.now g d }
    {
        summary_by(
            self.asked,
            entry(&self.counts, g, 0),
            self.sums.get(g),
            entry(&self.ends, g, None),
            entry(&self.medians, g, 0),
        )
    }
}

/// The number of non-null values in each group. If no value is NULL, it is the group's number of rows.
fn counts_of<C: ValueRuns>(
    alloc: Global,
    groups: &Groups,
    column: &C,
) -> Result<Vec<u32>, AllocError>
    requires { length (values_in (C.runs column.now)) ≡ length groups.now.ranks }
    ensures count { IfOk result (λ counts. length counts.items ≡ length groups.now.values) }
    ensures tells { IfOk result (λ counts. AreFolds IsCount groups.now.ranks (values_in (C.runs column.now)) counts.items) }
{
    let known = column.all_known()?;
    if !known {
        return fold_each::<u32, C>(alloc, groups, column);
    }
    let counts = groups.times().to_vec(alloc)?;
    Ok(counts)
}

/// Whether one of the ends is asked for.
fn asks_ends(asked: Asked) -> bool
    ensures { result ≡ (asked.least || asked.greatest) }
{
    asked.least || asked.greatest
}

/// The summary of values with this number, sum, ends and lower median, as far as it is asked for.
fn summary_by(asked: Asked, count: u32, sum: i128, ends: Option<Ends>, median: i64) -> Summary
    ensures { result ≡ summary_by asked count sum ends median }
{
    Summary {
        count: count as usize,
        sum: if_any(asked.sum, count, sum),
        least: least_if(asked.least, ends),
        greatest: greatest_if(asked.greatest, ends),
        median: if_any(asked.median, count, median),
    }
}

/// `told`, if it is asked for and `count` is not 0.
fn if_any<T: Copy>(asked: bool, count: u32, told: T) -> Option<T>
    ensures { result ≡ if_any asked count told }
{
    if asked && count != 0 {
        Some(told)
    } else {
        None
    }
}

fn least_if(asked: bool, ends: Option<Ends>) -> Option<i64>
    ensures { result ≡ (if asked then least_in ends else None) }
{
    match ends {
        Some(ends) if asked => Some(ends.least),
        _ => None,
    }
}

fn greatest_if(asked: bool, ends: Option<Ends>) -> Option<i64>
    ensures { result ≡ (if asked then greatest_in ends else None) }
{
    match ends {
        Some(ends) if asked => Some(ends.greatest),
        _ => None,
    }
}
