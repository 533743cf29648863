//! What a SELECT with GROUP BY shows, with indexes for names.

ghost use Rattle.std.specs.Prelude.{IfOk, Some, false, map, ◌≡◌};
ghost use Rattle.std.specs.List.{list_any};
ghost use Rattle.bw_model.specs.Refusals.{grouping_is_missing, is_other_column, shows_mixed};
ghost use Rattle.bw_plan.specs.Selections.{grouped_item, is_ungrouped};
ghost use Rattle.bw_sql.specs.Tree.{items_of};

use crate::headers::Headers;
use crate::select::{FunctionPlan, is_mixed, placed_item};
use bw_sql::{Name, SelectItem, SelectItems};
use std::alloc::{AllocError, Global};

/// What an item shows for a group.
#[derive(Clone, Copy, Debug, PartialEq, Eq)]
pub enum GroupItem {
    /// The value of the grouping column, which all rows of the group have.
    Value,
    /// A set function of the rows of the group.
    Function(FunctionPlan),
}

/// What is shown for each group.
#[derive(Debug, Drop)]
pub struct GroupPlan {
    /// The index of the grouping column.
    pub by: usize,
    /// The items that a group's line shows, one per cell.
    pub items: Vec<GroupItem>,
}

/// Whether there is a grouping column and it doesn't exist.
pub(crate) fn lacks_grouping(headers: &Headers<'_>, grouping: &Option<Name>) -> bool
    ensures { result ≡ grouping_is_missing headers.now grouping.now }
{
    match grouping {
        Some(name) => headers.place(name).is_none(),
        None => false,
    }
}

/// Whether columns and set functions are mixed; with GROUP BY, whether an item is a column other than the grouping
/// column.
pub(crate) fn shows_mixed(grouping: &Option<Name>, items: &SelectItems) -> bool
    ensures { result ≡ shows_mixed grouping.now (items_of items.now) }
{
    match (grouping, items) {
        (None, SelectItems::All) => false,
        (None, SelectItems::List(list)) => is_mixed(list.as_slice()),
        (Some(_), SelectItems::All) => true,
        (Some(name), SelectItems::List(list)) => shows_other_column(name, list.as_slice()),
    }
}

/// Whether an item is a column other than the grouping column.
fn shows_other_column(name: &Name, list: &[SelectItem]) -> bool
    ensures { result ≡ list_any (is_other_column name.now) list.now }
{
    list.iter().any(|item| is_other_column(name, item))
}

fn is_other_column(name: &Name, item: &SelectItem) -> bool
    ensures { result ≡ is_other_column name.now item.now }
{
    match item {
        SelectItem::Column(other) => other != name,
        SelectItem::CountRows | SelectItem::Function(_, _) => false,
    }
}

/// What an item shows for a group; `None` if the column of its set function doesn't exist.
fn grouped_item(headers: &Headers<'_>, item: &SelectItem) -> Option<GroupItem>
    ensures { result ≡ grouped_item headers.now item.now }
{
    match item {
        SelectItem::Column(_) => Some(GroupItem::Value),
        SelectItem::CountRows | SelectItem::Function(_, _) => {
            Some(GroupItem::Function(placed_item(headers, item)?))
        }
    }
}

/// What each item of a list shows for a group, given that the columns of all set functions exist.
pub(crate) fn group_items(
    alloc: Global,
    headers: &Headers<'_>,
    list: &[SelectItem],
) -> Result<Vec<GroupItem>, AllocError>
    requires { list_any (is_ungrouped headers.now) list.now ≡ false }
    ensures { IfOk result (λ items. map (λ i. Some i) items.items ≡ map (grouped_item headers.now) list.now) }
{
    let mut items = Vec::with_capacity(alloc, list.len())?;
    for item in list {
        let Some(shown) = grouped_item(headers, item) else {
            unreachable!()
        };
        items.push(shown)?;
    }
    Ok(items)
}
