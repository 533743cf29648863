//! SELECT: resolves the columns that it shows and those of its condition to indexes.

ghost use Rattle.std.specs.Prelude.{◌≡◌, ◌++◌, ◌∷◌, [], ◌<◌, IfOk, None, OnOk, Some, false, length, map, option_map};
ghost use Rattle.std.specs.List.{list_any};
ghost use Rattle.bw_model.specs.Refusals.{grouping_is_missing, is_missing, select_tests, shows_mixed};
ghost use Rattle.bw_model.specs.Select.{columns_in, has_functions, is_column, is_mixed, shown_items};
ghost use Rattle.bw_model.specs.Store.{AreHeaders, names, place_of};
ghost use Rattle.bw_plan.specs.Checks.{Answers, Decides};
ghost use Rattle.bw_plan.specs.Plans.{plan_of, planned};
ghost use Rattle.bw_plan.specs.Selections.{ShowsBy, is_unplaced, placed_item};
ghost use Rattle.bw_sql.specs.Tree.{condition_of, items_of, select_of};

use crate::grouping::{GroupPlan, group_items, lacks_grouping, shows_mixed};
use crate::headers::Headers;
use crate::plan::RowCondition;
use crate::resolution::{has_long_lists, misses, placed};
use bw_model::Refusal;
use bw_sql::{Condition, Name, Select, SelectItem, SelectItems, SetFunction};
use std::alloc::{AllocError, Global};

/// A set function with its column given by index.
#[derive(Clone, Copy, Debug, PartialEq, Eq)]
pub enum FunctionPlan {
    /// The number of found rows.
    CountRows,
    /// The function of the non-null values at this index.
    Of(SetFunction, usize),
}

/// What a SELECT shows.
#[derive(Debug, Drop)]
pub enum ShownPlan {
    /// The values at these indexes, one line per found row.
    Columns(Vec<usize>),
    /// These functions over the found rows, in one line.
    Functions(Vec<FunctionPlan>),
    /// One line per group of the found rows.
    Groups(GroupPlan),
}

/// A SELECT with columns given by index.
#[derive(Debug, Drop)]
pub struct SelectPlan {
    /// What is shown, in order.
    pub shown: ShownPlan,
    /// Which rows are found; without a condition every row is.
    pub condition: Option<RowCondition>,
}

/// What a SELECT shows of a table of these columns, and its condition, both with columns given by index. It is refused,
/// in this order, if a column that it shows or folds doesn't exist, if one of the condition doesn't exist, if the
/// grouping column doesn't exist, if an IN list has more than 1,000 entries, or if columns and set functions are mixed
/// (with GROUP BY: if all columns are shown, or one other than the grouping column). Refusals are found before anything
/// is allocated.
pub fn resolve_select(
    alloc: Global,
    headers: &Headers<'_>,
    query: &Select,
) -> Result<SelectPlan, Refusal>
    requires valid { AreHeaders headers.now }
    ensures some { 0 < length (shown_items headers.now (items_of query.now.items)) }
    ensures plan { Answers (select_tests (select_of query.now) headers.now) result (λ plan. ShowsBy headers.now (shown_items headers.now (items_of query.now.items)) query.now.grouping plan.shown × (option_map plan_of plan.condition ≡ option_map (planned headers.now) (option_map condition_of query.now.condition))) }
{
    check_select(headers, query)?;
    let shown = shown_plan(alloc, headers, query)?;
    let condition = plan_if_any(alloc, headers, &query.condition)?;
    Ok(SelectPlan { shown, condition })
}

/// Returns the first refusal that holds for a SELECT, if any.
fn check_select(headers: &Headers<'_>, query: &Select) -> Result<(), Refusal>
    requires valid { AreHeaders headers.now }
    ensures some { 0 < length (shown_items headers.now (items_of query.now.items)) }
    ensures tests { Decides (select_tests (select_of query.now) headers.now) result (λ _. Unit {0}) }
{
    if lacks_shown(headers, &query.items) {
        return Err(Refusal::NoSuchColumn);
    }
    if misses(headers, &query.condition) {
        return Err(Refusal::NoSuchColumn);
    }
    if lacks_grouping(headers, &query.grouping) {
        return Err(Refusal::NoSuchColumn);
    }
    if has_long_lists(&query.condition) {
        return Err(Refusal::OverLimit);
    }
    if shows_mixed(&query.grouping, &query.items) {
        return Err(Refusal::MixedItems);
    }
    Ok(())
}

/// Whether a column that is shown or folded doesn't exist.
fn lacks_shown(headers: &Headers<'_>, items: &SelectItems) -> bool
    requires { AreHeaders headers.now }
    ensures some { 0 < length (shown_items headers.now (items_of items.now)) }
    ensures lacks { result ≡ list_any (is_missing headers.now) (columns_in (shown_items headers.now (items_of items.now))) }
{
    match items {
        SelectItems::All => false,
        SelectItems::List(list) => lacks_column(headers, list.as_slice()),
    }
}

/// Whether one of the items names a column that doesn't exist.
fn lacks_column(headers: &Headers<'_>, list: &[SelectItem]) -> bool
    ensures { result ≡ list_any (λ item. list_any (is_missing headers.now) (columns_in (item ∷ []))) list.now }
{
    list.iter().any(|item| lacks_its_column(headers, item))
}

fn lacks_its_column(headers: &Headers<'_>, item: &SelectItem) -> bool
    ensures { result ≡ list_any (is_missing headers.now) (columns_in (item.now ∷ [])) }
{
    match item {
        SelectItem::Column(name) | SelectItem::Function(_, name) => headers.place(name).is_none(),
        SelectItem::CountRows => false,
    }
}

/// Whether columns and set functions are mixed.
pub(crate) fn is_mixed(list: &[SelectItem]) -> bool
    ensures { result ≡ is_mixed list.now }
{
    has_functions(list) && has_columns(list)
}

fn is_column(item: &SelectItem) -> bool
    ensures { result ≡ is_column item.now }
{
    matches!(item, SelectItem::Column(_))
}

fn has_functions(list: &[SelectItem]) -> bool
    ensures { result ≡ has_functions list.now }
{
    list.iter().any(|item| !is_column(item))
}

fn has_columns(list: &[SelectItem]) -> bool
    ensures { result ≡ list_any is_column list.now }
{
    list.iter().any(is_column)
}

/// The condition with columns given by index, if there is one.
pub(crate) fn plan_if_any(
    alloc: Global,
    headers: &Headers<'_>,
    condition: &Option<Condition>,
) -> Result<Option<RowCondition>, AllocError>
    ensures { IfOk result (λ plan. option_map plan_of plan ≡ option_map (planned headers.now) (option_map condition_of condition.now)) }
{
    match condition {
        Some(condition) => Ok(Some(placed(alloc, headers, condition)?)),
        None => Ok(None),
    }
}

/// What is shown, given that no refusal holds.
fn shown_plan(alloc: Global, headers: &Headers<'_>, query: &Select) -> Result<ShownPlan, AllocError>
    requires there { list_any (is_missing headers.now) (columns_in (shown_items headers.now (items_of query.now.items))) ≡ false }
    requires grouping { grouping_is_missing headers.now query.now.grouping ≡ false }
    requires apart { shows_mixed query.now.grouping (items_of query.now.items) ≡ false }
    ensures { IfOk result (ShowsBy headers.now (shown_items headers.now (items_of query.now.items)) query.now.grouping) }
{
    match (&query.grouping, &query.items) {
        (None, SelectItems::All) => Ok(ShownPlan::Columns(all_places(alloc, headers)?)),
        (None, SelectItems::List(list)) => listed_plan(alloc, headers, list.as_slice()),
        (Some(name), SelectItems::List(list)) => grouped_plan(
            alloc,
            headers,
            name,
            list.as_slice(),
        ),
        (Some(_), SelectItems::All) => unreachable!(),
    }
}

/// What a list shows for each group.
fn grouped_plan(
    alloc: Global,
    headers: &Headers<'_>,
    grouping: &Name,
    list: &[SelectItem],
) -> Result<ShownPlan, AllocError>
    requires there { list_any (is_missing headers.now) (columns_in list.now) ≡ false }
    requires grouping { is_missing headers.now grouping.now ≡ false }
    ensures { IfOk result (ShowsBy headers.now list.now (Some grouping.now)) }
{
    let Some(by) = headers.place(grouping) else {
        unreachable!()
    };
    let items = group_items(alloc, headers, list)?;
    Ok(ShownPlan::Groups(GroupPlan { by, items }))
}

/// What a list shows.
fn listed_plan(
    alloc: Global,
    headers: &Headers<'_>,
    list: &[SelectItem],
) -> Result<ShownPlan, AllocError>
    requires there { list_any (is_missing headers.now) (columns_in list.now) ≡ false }
    requires apart { is_mixed list.now ≡ false }
    ensures { IfOk result (ShowsBy headers.now list.now None) }
{
    if has_functions(list) {
        Ok(ShownPlan::Functions(functions_in(alloc, headers, list)?))
    } else {
        Ok(ShownPlan::Columns(places_in(alloc, headers, list)?))
    }
}

/// The indexes of all columns.
fn all_places(alloc: Global, headers: &Headers<'_>) -> Result<Vec<usize>, AllocError>
    ensures { IfOk result (λ places. map (λ place. Some place) places.items ≡ map (place_of headers.now) (names headers.now)) }
{
    let mut places = Vec::with_capacity(alloc, headers.len())?;
    for place in 0..headers.len() {
        places.push(place)?;
    }
    Ok(places)
}

/// Appends the index of the column that an item names.
fn put_place(
    places: &mut Vec<usize>,
    headers: &Headers<'_>,
    item: &SelectItem,
) -> Result<(), AllocError>
    requires { list_any (is_missing headers.now) (columns_in (item.now ∷ [])) ≡ false }
    ensures { OnOk result (map (λ place. Some place) places.new.items ≡ map (λ place. Some place) places.old.items ++ map (place_of headers.now) (columns_in (item.now ∷ []))) }
{
    match item {
        SelectItem::Column(name) | SelectItem::Function(_, name) => {
            let Some(place) = headers.place(name) else {
                unreachable!()
            };
            places.push(place)?;
        }
        SelectItem::CountRows => {}
    }
    Ok(())
}

/// The indexes of the columns that items name, all of which exist.
fn places_in(
    alloc: Global,
    headers: &Headers<'_>,
    list: &[SelectItem],
) -> Result<Vec<usize>, AllocError>
    requires { list_any (is_missing headers.now) (columns_in list.now) ≡ false }
    ensures { IfOk result (λ places. map (λ place. Some place) places.items ≡ map (place_of headers.now) (columns_in list.now)) }
{
    let mut places = Vec::with_capacity(alloc, list.len())?;
    for item in list {
        put_place(&mut places, headers, item)?;
    }
    Ok(places)
}

/// A set function with the index of its column, if that column exists.
pub(crate) fn placed_item(headers: &Headers<'_>, item: &SelectItem) -> Option<FunctionPlan>
    ensures { result ≡ placed_item headers.now item.now }
{
    match item {
        SelectItem::Column(_) => None,
        SelectItem::CountRows => Some(FunctionPlan::CountRows),
        SelectItem::Function(function, name) => {
            Some(FunctionPlan::Of(*function, headers.place(name)?))
        }
    }
}

/// The set functions of a list, whose columns all exist.
fn functions_in(
    alloc: Global,
    headers: &Headers<'_>,
    list: &[SelectItem],
) -> Result<Vec<FunctionPlan>, AllocError>
    requires { list_any (is_unplaced headers.now) list.now ≡ false }
    ensures { IfOk result (λ functions. map (λ f. Some f) functions.items ≡ map (placed_item headers.now) list.now) }
{
    let mut functions = Vec::with_capacity(alloc, list.len())?;
    for item in list {
        let Some(function) = placed_item(headers, item) else {
            unreachable!()
        };
        functions.push(function)?;
    }
    Ok(functions)
}
