//! Groups of rows by the values of a column.

ghost use Rattle.std.specs.Prelude.{All, IfOk, IfSome, List, None, Option, length, option_map, slice_index_or, ℤ, ◌<◌, ◌^◌, ◌≡◌, ◌≤◌};
ghost use Rattle.bw_cells.specs.SetFunctions.{known};
ghost use Rattle.bw_code.specs.Ascending.{IsAscending};
ghost use Rattle.bw_groups.specs.Entries.{IsIndexOf, entries_of, entry_of};
ghost use Rattle.bw_groups.specs.Grouping.{AreCounted, AreGroups, rows_in};
ghost use Rattle.bw_groups.specs.Runs.{IsWithin, values_in};

use crate::column_values::ColumnValues;
use crate::numbers::{known_distances, known_ends, spread, values_at};
use crate::scale::Scale;
use crate::value_runs::ValueRuns;
use bw_rank::{Ranked, rank_counted, rank_narrow};
use std::alloc::{AllocError, Global};
use std::marker::Model;

/// Rows in groups by the values of a column (SQL-92, group by clause): each distinct value makes a group, and all NULLs
/// make one. The groups are in ascending order of their values, with NULL last. Contracts see the values of the groups,
/// and the group number of each row.
#[derive(Debug, Drop)]
pub struct Groups {
    values: Vec<Option<i64>>,
    times: Vec<u32>,
    ranks: Vec<u32>,
}

impl Model for Groups {
    ghost use Rattle.std.specs.Prelude.{length, ◌≡◌};
    ghost use Rattle.bw_groups.specs.Grouping.{AreCounted, Grouping};

    ghost Value = { Grouping };

    ghost view = { λ groups. record { values = groups.values.items; ranks = groups.ranks.items } };

    ghost invariant = { λ groups. (length groups.times.items ≡ length groups.values.items) × AreCounted groups.ranks.items groups.times.items };
}

impl Groups {
    /// The groups of at most 16,777,216 rows with these values. The values are ranked as 32-bit numbers if their bounds
    /// allow it, and else as 64-bit numbers, which takes more memory.
    pub fn of<C: ValueRuns>(alloc: Global, column: &C) -> Result<Groups, AllocError>
        requires { length (values_in (C.runs column.now)) ≤ 2 ^ 24 }
        ensures groups { IfOk result (AreGroups (values_in (C.runs column.now))) }
        ensures rows { IfOk result (λ groups. length groups.ranks ≡ length (values_in (C.runs column.now))) }
    {
        if let Some(scale) = scale_of(column) {
            return Groups::on_scale(alloc, column, &scale);
        }
        let values = ColumnValues::of(alloc, column)?;
        Groups::of_list(alloc, &values)
    }

    /// The groups of rows, from the numbers of their values on a scale.
    fn on_scale<C: ValueRuns>(
        alloc: Global,
        column: &C,
        scale: &Scale,
    ) -> Result<Groups, AllocError>
        requires few { length (values_in (C.runs column.now)) ≤ 2 ^ 24 }
        requires within { All (IsWithin scale.now.ends) (known (values_in (C.runs column.now))) }
        ensures groups { IfOk result (AreGroups (values_in (C.runs column.now))) }
        ensures rows { IfOk result (λ groups. length groups.ranks ≡ length (values_in (C.runs column.now))) }
    {
        let numbers = scale.numbers(alloc, column)?;
        let Ranked {
            entries,
            times,
            ranks,
        } = rank_narrow(alloc, numbers)?;
        let values = scale.values(alloc, &entries)?;
        Ok(Groups {
            values,
            times,
            ranks,
        })
    }

    /// The groups of rows, from the distances of their values above the least.
    fn of_list(alloc: Global, values: &ColumnValues) -> Result<Groups, AllocError>
        requires { length values.now ≤ 2 ^ 24 }
        ensures groups { IfOk result (AreGroups values.now) }
        ensures rows { IfOk result (λ groups. length groups.ranks ≡ length values.now) }
    {
        let ends = known_ends(values);
        let numbers = known_distances(alloc, values, &ends)?;
        let nulls = values.len() - numbers.len();
        let Ranked {
            entries,
            mut times,
            ranks,
        } = rank_counted(alloc, &numbers)?;
        let ranks = spread(alloc, values, ranks, entries.len() as u32)?;
        let group_values = values_at(alloc, &ends, &entries, nulls != 0)?;
        if nulls != 0 {
            times.push(nulls as u32)?;
        }
        Ok(Groups {
            values: group_values,
            times,
            ranks,
        })
    }

    /// The groups of the same rows by entries of a list, where they are grouped by the entries' indices so far. Since
    /// the entries ascend, the groups and their order stay, and only their values change. Takes no memory.
    pub fn through(self, entries: &[i64]) -> Groups
        requires ascending { IsAscending entries.now }
        requires inside { All (IsIndexOf entries.now) (known self.values) }
        ensures groups { (indices : List (Option ℤ)) → AreGroups indices self → AreGroups (entries_of entries.now indices) result }
        ensures rows { result.ranks ≡ self.ranks }
    {
        let Groups {
            values,
            times,
            ranks,
        } = self;
        Groups {
            values: entries_at(values, entries),
            times,
            ranks,
        }
    }

    /// The number of groups.
    pub fn len(&self) -> usize
        ensures { result ≡ length self.now.values }
    {
        self.values.len()
    }

    /// The value of the rows of group `g`.
    pub fn value(&self, g: usize) -> Option<i64>
        requires { g < length self.now.values }
        ensures { result ≡ slice_index_or self.now.values g None }
    {
        self.values[g]
    }

    /// The group number of each row.
    pub(crate) fn ranks(&self) -> &[u32]
        ensures ranks { result.now ≡ self.now.ranks }
        ensures few { length result.now ≤ 2 ^ 24 }
        ensures inside { All (λ r. r < length self.now.values) result.now }
    {
        &self.ranks
    }

    /// The number of rows of each group.
    pub(crate) fn times(&self) -> &[u32]
        ensures count { length result.now ≡ length self.now.values }
        ensures counted { AreCounted self.now.ranks result.now }
    {
        &self.times
    }

    /// The number of rows of group `g`.
    pub fn row_count(&self, g: usize) -> usize
        requires { g < length self.now.values }
        ensures { result ≡ rows_in self.now.ranks g }
    {
        self.times[g] as usize
    }
}

/// A scale for the values of a column, if their bounds are known and close enough.
fn scale_of<C: ValueRuns>(column: &C) -> Option<Scale>
    ensures { IfSome result (λ scale. All (IsWithin scale.ends) (known (values_in (C.runs column.now)))) }
{
    match column.bounds() {
        Some(ends) => Scale::between(ends),
        None => None,
    }
}

/// Replaces each of some indices by the entry at it.
fn entries_at(mut values: Vec<Option<i64>>, entries: &[i64]) -> Vec<Option<i64>>
    requires { All (IsIndexOf entries.now) (known values.items) }
    ensures { result.items ≡ entries_of entries.now values.items }
{
    'groups: for g in 0..values.len() {
        values[g] = entry_at(values[g], entries);
    }
    values
}

/// The entry at an index; `None` for NULL.
fn entry_at(index: Option<i64>, entries: &[i64]) -> Option<i64>
    requires { IfSome index (IsIndexOf entries.now) }
    ensures { result ≡ option_map (entry_of entries.now) index }
{
    match index {
        Some(index) => Some(entries[index as usize]),
        None => None,
    }
}
