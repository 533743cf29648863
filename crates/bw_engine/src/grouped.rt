//! The cells that a SELECT with GROUP BY shows for the found slots.

ghost use Rattle.std.specs.Prelude.{All, Contains, IfOk, IfSome, OnOk, Some, length, map, slice_index_or, ◌<◌, ◌≡◌};
ghost use Rattle.bw_mask.specs.Masks.{len, row_at};
ghost use Rattle.bw_code.specs.Encodings.{kind_of};
ghost use Rattle.bw_code.specs.declared.kind.Kind.TheVariants as kinds;
ghost use Rattle.bw_groups.specs.Grouping.{AreGroups};
ghost use Rattle.bw_groups.specs.Runs.{values_in};
ghost use Rattle.bw_model.specs.Groups.{groups_by};
ghost use Rattle.bw_sql.specs.Rows.{joined};
ghost use Rattle.bw_model.specs.Select.{shown};
ghost use Rattle.bw_engine.specs.AnswerCells.{collected};
ghost use Rattle.bw_engine.specs.Folds.{IsItemWithin, told_in};
ghost use Rattle.bw_engine.specs.Found.{rows_where};
ghost use Rattle.bw_engine.specs.Runs.{found_runs, slots_of};
ghost use Rattle.bw_engine.specs.GroupLines.{AskForItems, IsAskedIn, TellGroups, cells_to, column_in, told_at};
ghost use Rattle.bw_engine.specs.Stores.{rows_of_slots};
ghost use Rattle.bw_engine.specs.declared.grouped.GroupedColumn.{GroupedColumn as AnyColumn};

use crate::answer_cells::AnswerCells;
use crate::code_cells::CodeCells;
use crate::found_cells::FoundCells;
use crate::set_functions::{told_by, wide};
use bw_aggregate::Asked;
use bw_code::Kind;
use bw_column::Column;
use bw_groups::{Folds, Groups};
use bw_mask::Mask;
use bw_plan::{FunctionPlan, GroupItem, GroupPlan};
use bw_sql::{Name, SetFunction};
use bw_table::Table;
use std::alloc::{AllocError, Global};

/// The aggregates of the column at index `place`, for each group.
#[derive(Drop)]
struct GroupedColumn {
    place: usize,
    folds: Folds,
}

/// The cells that the items show for each group of the found slots, group by group.
pub(crate) fn group_cells(
    alloc: Global,
    table: &Table<Name>,
    plan: &GroupPlan,
    found: &Mask,
) -> Result<AnswerCells, AllocError>
    requires found { len found.now ≡ length table.now.slots }
    requires by { plan.now.by < length table.now.headers }
    requires items { All (IsItemWithin (length table.now.headers)) plan.now.items.items }
    ensures { IfOk result (λ cells. collected cells ≡ joined (map (λ group. map (told_in group) plan.now.items.items) (groups_by (Some plan.now.by) (rows_where (row_at found.now) (rows_of_slots table.now.slots))))) }
{
    let groups = groups_of(alloc, table, plan.by, found)?;
    cells_of_groups(alloc, table, plan.items.as_slice(), found, &groups)
}

/// The groups of the found slots by the values of the column at index `by`. The codes of a dictionary are ranks of its
/// values, so rows are grouped by the codes, and the groups get the values at the end.
fn groups_of(
    alloc: Global,
    table: &Table<Name>,
    by: usize,
    found: &Mask,
) -> Result<Groups, AllocError>
    requires found { len found.now ≡ length table.now.slots }
    requires by { by < length table.now.headers }
    ensures groups { IfOk result (AreGroups (column_in (rows_where (row_at found.now) (rows_of_slots table.now.slots)) by)) }
    ensures rows { IfOk result (λ groups. length groups.ranks ≡ length (rows_where (row_at found.now) (rows_of_slots table.now.slots))) }
{
    // The number of slots is bounded.
    let _few = table.slot_count();
    let column = table.column(by);
    match column.kind() {
        Kind::Offset => Groups::of(
            alloc,
            &FoundCells {
                cells: column,
                found,
            },
        ),
        Kind::Dictionary => groups_by_codes(alloc, column, found),
    }
}

/// The groups of the found rows of a column of kind DICTIONARY.
fn groups_by_codes(alloc: Global, column: &Column, found: &Mask) -> Result<Groups, AllocError>
    requires kind { kind_of column.now.encoding ≡ kinds.Dictionary }
    requires found { len found.now ≡ length column.now.values }
    ensures groups { IfOk result (AreGroups (values_in (found_runs 0 (slots_of column.now.values) (row_at found.now)))) }
    ensures rows { IfOk result (λ groups. length groups.ranks ≡ length (values_in (found_runs 0 (slots_of column.now.values) (row_at found.now)))) }
{
    let _few = column.len();
    let _coded = column.encoding();
    let codes = CodeCells { column };
    let groups = Groups::of(
        alloc,
        &FoundCells {
            cells: &codes,
            found,
        },
    )?;
    Ok(groups.through(column.entries()))
}

/// The cells that the items show for these groups of the found slots.
fn cells_of_groups(
    alloc: Global,
    table: &Table<Name>,
    items: &[GroupItem],
    found: &Mask,
    groups: &Groups,
) -> Result<AnswerCells, AllocError>
    requires found { len found.now ≡ length table.now.slots }
    requires items { All (IsItemWithin (length table.now.headers)) items.now }
    requires ranks { length groups.now.ranks ≡ length (rows_where (row_at found.now) (rows_of_slots table.now.slots)) }
    ensures { IfOk result (λ cells. collected cells ≡ cells_to (rows_where (row_at found.now) (rows_of_slots table.now.slots)) groups.now items.now (length groups.now.values)) }
{
    let mut columns = Vec::new(alloc);
    let mut cells = AnswerCells::with_capacity(alloc, groups.len().saturating_mul(items.len()))?;
    'groups: for g in 0..groups.len() {
        'items: for i in 0..items.len() {
            let number = item_number(
                alloc,
                table,
                items,
                items[i],
                found,
                groups,
                g,
                &mut columns,
            )?;
            cells.push(alloc, number)?;
        }
    }
    Ok(cells)
}

/// The number that `item`, one of `items`, shows for group `g`; `None` is NULL.
fn item_number(
    alloc: Global,
    table: &Table<Name>,
    items: &[GroupItem],
    item: GroupItem,
    found: &Mask,
    groups: &Groups,
    g: usize,
    columns: &mut Vec<GroupedColumn>,
) -> Result<Option<i128>, AllocError>
    requires found { len found.now ≡ length table.now.slots }
    requires item { IsItemWithin (length table.now.headers) item }
    requires among { Contains items.now item }
    requires ranks { length groups.now.ranks ≡ length (rows_where (row_at found.now) (rows_of_slots table.now.slots)) }
    requires group { g < length groups.now.values }
    requires columns { All (λ column. TellGroups (rows_where (row_at found.now) (rows_of_slots table.now.slots)) groups.now items.now column.place column.folds) columns.old.items }
    ensures number { IfOk result (λ number. shown number ≡ told_at (rows_where (row_at found.now) (rows_of_slots table.now.slots)) groups.now g item) }
    ensures columns { OnOk result (All (λ column. TellGroups (rows_where (row_at found.now) (rows_of_slots table.now.slots)) groups.now items.now column.place column.folds) columns.new.items) }
{
    match item {
        GroupItem::Value => Ok(wide(groups.value(g))),
        GroupItem::Function(FunctionPlan::CountRows) => Ok(Some(groups.row_count(g) as i128)),
        GroupItem::Function(FunctionPlan::Of(function, place)) => {
            let i = column_at(alloc, table, items, place, found, groups, columns)?;
            let summary = columns[i].folds.summary(g);
            Ok(told_by(function, &summary))
        }
    }
}

/// Whether `items` contain a set function.
fn is_asked(items: &[GroupItem], function: FunctionPlan) -> bool
    ensures { IsAskedIn items.now function result }
{
    for i in 0..items.len() {
        if items[i] == GroupItem::Function(function) {
            return true;
        }
    }
    false
}

/// Which aggregates of the column at index `place` the items need.
fn asked_of(items: &[GroupItem], place: usize) -> Asked
    ensures { AskForItems items.now place result }
{
    Asked {
        sum: is_asked(items, FunctionPlan::Of(SetFunction::Sum, place)),
        least: is_asked(items, FunctionPlan::Of(SetFunction::Min, place)),
        greatest: is_asked(items, FunctionPlan::Of(SetFunction::Max, place)),
        median: is_asked(items, FunctionPlan::Of(SetFunction::Median, place)),
    }
}

/// Computes the aggregates of the column at index `place` that the items need, for each group.
fn grouped_column(
    alloc: Global,
    table: &Table<Name>,
    items: &[GroupItem],
    place: usize,
    found: &Mask,
    groups: &Groups,
) -> Result<GroupedColumn, AllocError>
    requires found { len found.now ≡ length table.now.slots }
    requires place { place < length table.now.headers }
    requires ranks { length groups.now.ranks ≡ length (rows_where (row_at found.now) (rows_of_slots table.now.slots)) }
    ensures place { IfOk result (λ column. column.place ≡ place) }
    ensures tell { IfOk result (λ column. TellGroups (rows_where (row_at found.now) (rows_of_slots table.now.slots)) groups.now items.now column.place column.folds) }
{
    let column = FoundCells {
        cells: table.column(place),
        found,
    };
    let folds = Folds::of(alloc, groups, &column, asked_of(items, place))?;
    Ok(GroupedColumn { place, folds })
}

/// The position in `columns` of the entry for the column at index `place`, if there is one.
fn column_among(columns: &[GroupedColumn], place: usize) -> Option<usize>
    ensures { IfSome result (λ i. (i < length columns.now) × ((d : AnyColumn) → (slice_index_or columns.now i d).place ≡ place)) }
{
    for i in 0..columns.len() {
        if columns[i].place == place {
            return Some(i);
        }
    }
    None
}

/// The position in `columns` of the entry for the column at index `place`. Each column is read and folded once for all
/// items, and its entry is kept.
fn column_at(
    alloc: Global,
    table: &Table<Name>,
    items: &[GroupItem],
    place: usize,
    found: &Mask,
    groups: &Groups,
    columns: &mut Vec<GroupedColumn>,
) -> Result<usize, AllocError>
    requires found { len found.now ≡ length table.now.slots }
    requires place { place < length table.now.headers }
    requires ranks { length groups.now.ranks ≡ length (rows_where (row_at found.now) (rows_of_slots table.now.slots)) }
    requires columns { All (λ column. TellGroups (rows_where (row_at found.now) (rows_of_slots table.now.slots)) groups.now items.now column.place column.folds) columns.old.items }
    ensures at { IfOk result (λ i. (i < length columns.new.items) × ((d : AnyColumn) → (slice_index_or columns.new.items i d).place ≡ place)) }
    ensures columns { OnOk result (All (λ column. TellGroups (rows_where (row_at found.now) (rows_of_slots table.now.slots)) groups.now items.now column.place column.folds) columns.new.items) }
{
    if let Some(i) = column_among(columns, place) {
        return Ok(i);
    }
    columns.push(grouped_column(alloc, table, items, place, found, groups)?)?;
    Ok(columns.len() - 1)
}
