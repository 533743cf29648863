//! Why a SELECT is refused.

ghost use Rattle.std.specs.Prelude.{◌≡◌, IfOk};
ghost use Rattle.std.specs.List.{list_any};
ghost use Rattle.bw_model.specs.Refusals.{first_that_holds, grouping_is_missing, is_other_column, select_tests, shows_mixed};
ghost use Rattle.bw_model.specs.Select.{columns_in, is_column, is_mixed, shown_items};
ghost use Rattle.bw_sql.specs.Tree.{items_of, select_of};

use crate::refusal::Refusal;
use crate::refusal_tests::{
    Test, condition_misses, first_that_holds, is_missing, lists_too_long, misses_any,
};
use crate::select::{columns_in, has_functions, is_column, shown_items};
use crate::store::Table;
use bw_code::Header;
use bw_sql::{Name, Select, SelectItem, SelectItems};
use std::alloc::{AllocError, Global};

/// Whether both columns and set functions are asked for.
fn is_mixed(list: &[SelectItem]) -> bool
    ensures { result ≡ is_mixed list.now }
{
    has_functions(list) && has_columns(list)
}

fn has_columns(list: &[SelectItem]) -> bool
    ensures { result ≡ list_any is_column list.now }
{
    list.iter().any(is_column)
}

/// Whether an item is a column other than the grouping column.
fn is_other_column(name: &Name, item: &SelectItem) -> bool
    ensures { result ≡ is_other_column name.now item.now }
{
    match item {
        SelectItem::Column(other) => other != name,
        SelectItem::CountRows | SelectItem::Function(_, _) => false,
    }
}

fn has_other_column(name: &Name, list: &[SelectItem]) -> bool
    ensures { result ≡ list_any (is_other_column name.now) list.now }
{
    list.iter().any(|item| is_other_column(name, item))
}

/// Whether the items can't be shown in one line.
fn shows_mixed(grouping: &Option<Name>, items: &SelectItems) -> bool
    ensures { result ≡ shows_mixed grouping.now (items_of items.now) }
{
    match (grouping, items) {
        (Some(_), SelectItems::All) => true,
        (Some(name), SelectItems::List(list)) => has_other_column(name, list.as_slice()),
        (None, SelectItems::All) => false,
        (None, SelectItems::List(list)) => is_mixed(list.as_slice()),
    }
}

fn grouping_is_missing(headers: &[Header<Name>], grouping: &Option<Name>) -> bool
    ensures { result ≡ grouping_is_missing headers.now grouping.now }
{
    match grouping {
        None => false,
        Some(name) => is_missing(headers, name),
    }
}

/// The tests of a SELECT over a table of these columns, whose items name the columns in `shown`.
fn select_tests(query: &Select, shown: &[Name], headers: &[Header<Name>]) -> [Test; 5]
    requires { shown.now ≡ columns_in (shown_items headers.now (items_of query.now.items)) }
    ensures { result ≡ select_tests (select_of query.now) headers.now }
{
    [
        (Refusal::NoSuchColumn, misses_any(headers, shown)),
        (
            Refusal::NoSuchColumn,
            condition_misses(headers, &query.condition),
        ),
        (
            Refusal::NoSuchColumn,
            grouping_is_missing(headers, &query.grouping),
        ),
        (Refusal::OverLimit, lists_too_long(&query.condition)),
        (
            Refusal::MixedItems,
            shows_mixed(&query.grouping, &query.items),
        ),
    ]
}

/// Why a SELECT over this table is refused, also where STATS precedes it.
pub(crate) fn refused_query(
    alloc: Global,
    table: &Table,
    query: &Select,
) -> Result<Option<Refusal>, AllocError>
    ensures { IfOk result (λ refusal. refusal ≡ first_that_holds (select_tests (select_of query.now) table.now.headers)) }
{
    let headers = table.headers();
    let list = shown_items(alloc, headers, &query.items)?;
    let columns = columns_in(alloc, &list)?;
    Ok(first_that_holds(&select_tests(query, &columns, headers)))
}
