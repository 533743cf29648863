//! UPDATE: resolves its columns to indexes.

ghost use Rattle.std.specs.Prelude.{◌≡◌, IfOk, false, not, option_map};
ghost use Rattle.std.specs.List.{list_all, list_any};
ghost use Rattle.std.specs.Str.{bytes_eq};
ghost use Rattle.bw_model.specs.Refusals.{is_missing, may_be_set, operand_is_missing, set_columns, set_tests};
ghost use Rattle.bw_model.specs.Store.{are_distinct, type_named};
ghost use Rattle.bw_plan.specs.Checks.{Answers, Decides};
ghost use Rattle.bw_plan.specs.Plans.{plan_of, planned};
ghost use Rattle.bw_plan.specs.Sets.{AreSetsFor, AreSettable, source_to};
ghost use Rattle.bw_sql.specs.Tree.{condition_of};

use crate::headers::Headers;
use crate::plan::{RowCondition, Source};
use crate::resolution::{has_long_lists, is_missing, misses, source};
use crate::select::plan_if_any;
use crate::targets::is_null_or_of_type;
use bw_code::ColumnType;
use bw_model::Refusal;
use bw_sql::{Condition, Name, Operand, SetClause};
use bw_table::SetTo;
use std::alloc::{AllocError, Global};

/// An UPDATE with columns given by index.
#[derive(Debug, Drop)]
pub struct UpdatePlan {
    /// The indexes that are set, each once, and what each is set to.
    pub sets: Vec<(usize, SetTo)>,
    /// Which rows are found; without a condition every row is.
    pub condition: Option<RowCondition>,
}

/// The indexes of an UPDATE's columns in a table of these columns, and its condition with columns given by index. It is
/// refused, in this order, if a column on either side of SET or in the condition doesn't exist, if a column is set
/// twice, if an IN list has more than 1,000 entries, or if a literal on a right side isn't of its column's type.
/// Refusals are found before anything is allocated. Whether copied values are of their columns' types is not checked
/// here.
pub fn resolve_update(
    alloc: Global,
    headers: &Headers<'_>,
    sets: &[SetClause],
    condition: &Option<Condition>,
) -> Result<UpdatePlan, Refusal>
    ensures settable { IfOk result (λ plan. AreSettable headers.now plan.sets.items) }
    ensures plan { let found = option_map condition_of condition.now in Answers (set_tests headers.now sets.now found) result (λ plan. AreSetsFor headers.now sets.now plan.sets.items × (option_map plan_of plan.condition ≡ option_map (planned headers.now) found)) }
{
    check_sets(headers, sets, condition)?;
    let sets = placed_sets(alloc, headers, sets)?;
    let condition = plan_if_any(alloc, headers, condition)?;
    Ok(UpdatePlan { sets, condition })
}

/// Returns the first refusal of the set clauses that holds, if any.
fn check_sets(
    headers: &Headers<'_>,
    sets: &[SetClause],
    condition: &Option<Condition>,
) -> Result<(), Refusal>
    ensures { Decides (set_tests headers.now sets.now (option_map condition_of condition.now)) result (λ _. Unit {0}) }
{
    if lacks_set_column(headers, sets) {
        return Err(Refusal::NoSuchColumn);
    }
    if lacks_source(headers, sets) {
        return Err(Refusal::NoSuchColumn);
    }
    if misses(headers, condition) {
        return Err(Refusal::NoSuchColumn);
    }
    if is_set_twice(sets) {
        return Err(Refusal::ColumnNamedTwice);
    }
    if has_long_lists(condition) {
        return Err(Refusal::OverLimit);
    }
    if !may_all_be_set(headers, sets) {
        return Err(Refusal::OutOfRange);
    }
    Ok(())
}

/// Whether a column on a left side doesn't exist.
fn lacks_set_column(headers: &Headers<'_>, sets: &[SetClause]) -> bool
    ensures { result ≡ list_any (is_missing headers.now) (set_columns sets.now) }
{
    for set in sets {
        if headers.place(&set.column).is_none() {
            return true;
        }
    }
    false
}

/// Whether a column on a right side doesn't exist.
fn lacks_source(headers: &Headers<'_>, sets: &[SetClause]) -> bool
    ensures { result ≡ list_any (λ set. operand_is_missing headers.now set.source) sets.now }
{
    sets.iter().any(|set| is_missing(headers, &set.source))
}

/// Whether a column is set twice. Fast if all names are those of columns: in a list longer than the columns, a
/// duplicate is found near the start.
fn is_set_twice(sets: &[SetClause]) -> bool
    ensures { result ≡ not (are_distinct (set_columns sets.now)) }
{
    match sets {
        [] => false,
        [set, rest @ ..] => is_set(rest, &set.column) || is_set_twice(rest),
    }
}

fn is_set(sets: &[SetClause], name: &Name) -> bool
    ensures { result ≡ list_any (bytes_eq name.now) (set_columns sets.now) }
{
    for set in sets {
        if name == &set.column {
            return true;
        }
    }
    false
}

/// Whether each literal on a right side is of its column's type.
fn may_all_be_set(headers: &Headers<'_>, sets: &[SetClause]) -> bool
    ensures { result ≡ list_all (λ set. may_be_set (type_named headers.now set.column) set.source) sets.now }
{
    sets.iter().all(|set| may_be_set(headers.type_named(&set.column), &set.source))
}

fn may_be_set(column_type: ColumnType, source: &Operand) -> bool
    ensures { result ≡ may_be_set column_type source.now }
{
    match source {
        Operand::Column(_) => true,
        Operand::Constant(value) => is_null_or_of_type(column_type, *value),
    }
}

/// The sets with the indexes of their columns, all of which exist.
fn placed_sets(
    alloc: Global,
    headers: &Headers<'_>,
    sets: &[SetClause],
) -> Result<Vec<(usize, SetTo)>, AllocError>
    requires { list_any (is_missing headers.now) (set_columns sets.now) ≡ false }
    ensures { IfOk result (λ placed. AreSetsFor headers.now sets.now placed.items) }
{
    let mut placed = Vec::with_capacity(alloc, sets.len())?;
    for set in sets {
        let Some(place) = headers.place(&set.column) else {
            unreachable!()
        };
        let to = set_to(source(headers, &set.source));
        placed.push((place, to))?;
    }
    Ok(placed)
}

/// The new value that a source gives.
fn set_to(source: Source) -> SetTo
    ensures { source_to result ≡ source }
{
    match source {
        Source::Place(place) => SetTo::Column(place),
        Source::Constant(value) => SetTo::Value(value),
    }
}
