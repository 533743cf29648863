//! The lower medians of groups.

ghost use Rattle.std.specs.Prelude.{All, IfOk, IsTrue, OnOk, Some, [], length, map, pos, slice_index_or, ℕ, ◌%◌, ◌+◌, ◌<◌, ◌^◌, ◌≡◌, ◌≤◌};
ghost use Rattle.bw_cells.specs.SetFunctions.{known, median};
ghost use Rattle.bw_groups.specs.Folding.{AreFolds, IsCount};
ghost use Rattle.bw_groups.specs.Grouping.{AreCounted, members};
ghost use Rattle.bw_groups.specs.Parts.{numbers_at};
ghost use Rattle.bw_groups.specs.Runs.{values_in};

use crate::grouped_number::GroupedNumber;
use crate::groups::Groups;
use crate::lists::Lists;
use crate::parts::parts_of;
use crate::value_runs::ValueRuns;
use std::alloc::{AllocError, Global};

/// The lower median of a column's values in each group, if it is asked for. `counts` are the groups' numbers of non-null
/// values.
pub(crate) fn medians_if<C: ValueRuns>(
    alloc: Global,
    asked: bool,
    groups: &Groups,
    counts: &[u32],
    column: &C,
) -> Result<Vec<i64>, AllocError>
    requires column { length (values_in (C.runs column.now)) ≡ length groups.now.ranks }
    requires groups { length counts.now ≡ length groups.now.values }
    requires counts { AreFolds IsCount groups.now.ranks (values_in (C.runs column.now)) counts.now }
    ensures { IfOk result (λ medians. IsTrue asked → (g : ℕ) → g < length groups.now.values → 0 < length (known (members groups.now.ranks (values_in (C.runs column.now)) g)) → median (known (members groups.now.ranks (values_in (C.runs column.now)) g)) ≡ Some (slice_index_or medians.items g (pos 0))) }
{
    if asked {
        medians_of(alloc, groups.ranks(), counts, column)
    } else {
        Ok(Vec::new(alloc))
    }
}

/// The lower median of a column's values in each group. `ranks` are the groups of the rows, and `counts` the groups'
/// numbers of non-null values. The values are first put into parts of nearby groups: with many groups, each value put
/// into its group at once would be written to another page of memory than the one before it.
fn medians_of<C: ValueRuns>(
    alloc: Global,
    ranks: &[u32],
    counts: &[u32],
    column: &C,
) -> Result<Vec<i64>, AllocError>
    requires few { length ranks.now ≤ 2 ^ 24 }
    requires inside { All (λ r. r < length counts.now) ranks.now }
    requires column { length (values_in (C.runs column.now)) ≡ length ranks.now }
    requires counts { AreFolds IsCount ranks.now (values_in (C.runs column.now)) counts.now }
    ensures { IfOk result (λ medians. (g : ℕ) → g < length counts.now → 0 < length (known (members ranks.now (values_in (C.runs column.now)) g)) → median (known (members ranks.now (values_in (C.runs column.now)) g)) ≡ Some (slice_index_or medians.items g (pos 0))) }
{
    let bits = part_bits(counts.len());
    let parts = parts_of(alloc, ranks, counts, bits, column)?;
    let mut medians = Vec::with_capacity(alloc, counts.len())?;
    'parts: for p in 0..parts.len() {
        let first = medians.len();
        let count = (counts.len() - first).min(1 << bits);
        let mut lists = lists_of(alloc, parts.list(p), &counts[first..first + count], bits)?;
        put_medians(&mut medians, &mut lists)?;
    }
    Ok(medians)
}

/// The number of low bits of a group's number that tell its index in its part. There are at most 512 parts, so that
/// what is written to them next stays in the processor's caches.
fn part_bits(groups: usize) -> u32
    ensures { result ≤ 24 }
{
    let bits = usize::BITS - groups.leading_zeros();
    bits.saturating_sub(9).min(24)
}

/// The values of a part's rows by group. `counts` are the groups' numbers of them.
fn lists_of(
    alloc: Global,
    rows: &[GroupedNumber],
    counts: &[u32],
    bits: u32,
) -> Result<Lists<i64>, AllocError>
    requires bits { bits ≤ 24 }
    requires counted { AreCounted (map (λ row. row.group % 2 ^ bits) rows.now) counts.now }
    ensures count { IfOk result (λ lists. length lists.lists ≡ length counts.now) }
    ensures lists { IfOk result (λ lists. (k : ℕ) → k < length counts.now → slice_index_or lists.lists k [] ≡ numbers_at (2 ^ bits) rows.now k) }
{
    let mut lists = Lists::with_room(alloc, counts, rows.len(), 0)?;
    'rows: for i in 0..rows.len() {
        let row = rows[i];
        lists.put((row.group() % (1 << bits)) as usize, row.number());
    }
    Ok(lists)
}

/// Appends the lower median of each list; 0 for one without items. The lists are put in another order.
fn put_medians(medians: &mut Vec<i64>, lists: &mut Lists<i64>) -> Result<(), AllocError>
    ensures len { OnOk result (length medians.new.items ≡ length medians.old.items + length lists.old.lists) }
    ensures keeps { OnOk result ((g : ℕ) → g < length medians.old.items → slice_index_or medians.new.items g (pos 0) ≡ slice_index_or medians.old.items g (pos 0)) }
    ensures each { OnOk result ((k : ℕ) → k < length lists.old.lists → 0 < length (slice_index_or lists.old.lists k []) → median (slice_index_or lists.old.lists k []) ≡ Some (slice_index_or medians.new.items (length medians.old.items + k) (pos 0))) }
{
    'lists: for k in 0..lists.len() {
        medians.push(lists.lower_median(k))?;
    }
    Ok(())
}
