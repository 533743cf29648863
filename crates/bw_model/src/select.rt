//! What a SELECT returns.

ghost use Rattle.std.specs.Prelude.{◌≡◌, ◌<◌, [], ◌∷◌, ◌++◌, IfOk, OnOk, length, map};
ghost use Rattle.bw_model.specs.Select.{answer, columns_in, function_heading, has_functions, heading_of, is_column, line_of, lines_for, said_in, said_of, shown, shown_items};
ghost use Rattle.bw_sql.specs.Rows.{joined};
ghost use Rattle.bw_sql.specs.Tree.{items_of, select_of};
ghost use Rattle.bw_sql.specs.declared.tree.SelectItem.TheVariants.{Column};

use crate::answer::{Answer, Cell, Heading};
use crate::condition::found_rows;
use crate::groups::{Group, groups_by};
use crate::set_functions::folded_at;
use crate::store::{Row, Table, names, place_of, value_from};
use bw_code::Header;
use bw_sql::{Name, Select, SelectItem, SelectItems, SetFunction, Value};
use std::alloc::{AllocError, Global};

/// The items that are shown: `*` stands for all columns in order.
pub(crate) fn shown_items(
    alloc: Global,
    headers: &[Header<Name>],
    items: &SelectItems,
) -> Result<Vec<SelectItem>, AllocError>
    requires { 0 < length headers.now }
    ensures items { IfOk result (λ list. list.items ≡ shown_items headers.now (items_of items.now)) }
    ensures some { IfOk result (λ list. 0 < length list.items) }
{
    match items {
        SelectItems::All => columns_shown(alloc, names(alloc, headers)?),
        SelectItems::List(list) => copied(alloc, list.as_slice()),
    }
}

/// Each of these columns as an item.
fn columns_shown(alloc: Global, list: Vec<Name>) -> Result<Vec<SelectItem>, AllocError>
    ensures { IfOk result (λ items. items.items ≡ map (λ name. Column name) list.items) }
{
    let mut items = Vec::new(alloc);
    for name in list {
        items.push(SelectItem::Column(name))?;
    }
    Ok(items)
}

/// A copy of the items.
fn copied(alloc: Global, items: &[SelectItem]) -> Result<Vec<SelectItem>, AllocError>
    ensures { IfOk result (λ list. list.items ≡ items.now) }
{
    let mut list = Vec::new(alloc);
    for item in items {
        list.push(copied_item(alloc, item)?)?;
    }
    Ok(list)
}

fn copied_item(alloc: Global, item: &SelectItem) -> Result<SelectItem, AllocError>
    ensures { IfOk result (λ same. same ≡ item.now) }
{
    Ok(match item {
        SelectItem::Column(name) => SelectItem::Column(name.try_clone(alloc)?),
        SelectItem::CountRows => SelectItem::CountRows,
        SelectItem::Function(function, name) => {
            SelectItem::Function(*function, name.try_clone(alloc)?)
        }
    })
}

/// Appends the column that an item names.
fn put_column(alloc: Global, columns: &mut Vec<Name>, item: &SelectItem) -> Result<(), AllocError>
    ensures { OnOk result (columns.new.items ≡ columns.old.items ++ columns_in (item.now ∷ [])) }
{
    match item {
        SelectItem::Column(name) | SelectItem::Function(_, name) => {
            columns.push(name.try_clone(alloc)?)?;
            Ok(())
        }
        SelectItem::CountRows => Ok(()),
    }
}

/// The columns that items name.
pub(crate) fn columns_in(alloc: Global, list: &[SelectItem]) -> Result<Vec<Name>, AllocError>
    ensures { IfOk result (λ columns. columns.items ≡ columns_in list.now) }
{
    let mut columns = Vec::new(alloc);
    for item in list {
        put_column(alloc, &mut columns, item)?;
    }
    Ok(columns)
}

pub(crate) fn is_column(item: &SelectItem) -> bool
    ensures { result ≡ is_column item.now }
{
    matches!(item, SelectItem::Column(_))
}

/// Whether set functions are asked for.
pub(crate) fn has_functions(list: &[SelectItem]) -> bool
    ensures { result ≡ has_functions list.now }
{
    list.iter().any(|item| !is_column(item))
}

pub(crate) fn shown(value: Value) -> Cell
    ensures { result ≡ shown value }
{
    match value {
        None => Cell::Null,
        Some(number) => Cell::Number(i128::from(number)),
    }
}

/// The line that shows these columns of a row.
fn line_of(
    alloc: Global,
    headers: &[Header<Name>],
    list: &[Name],
    row: &Row,
) -> Result<Vec<Cell>, AllocError>
    ensures { IfOk result (λ line. line.items ≡ line_of headers.now list.now row.now) }
{
    list.iter()
        .map(|name| shown(value_from(row.values(), place_of(headers, name))))
        .collect(alloc)
}

/// The lines of these rows, in order.
fn lines_of(
    alloc: Global,
    headers: &[Header<Name>],
    list: &[Name],
    rows: &[&Row],
) -> Result<Vec<Cell>, AllocError>
    ensures { IfOk result (λ cells. cells.items ≡ joined (map (line_of headers.now list.now) (map (λ row. row.now) rows.now))) }
{
    let mut cells = Vec::new(alloc);
    for row in rows {
        let mut line = line_of(alloc, headers, list, row)?;
        cells.append(&mut line)?;
    }
    Ok(cells)
}

/// The value of an item for these rows.
fn said_of(
    alloc: Global,
    headers: &[Header<Name>],
    rows: &[&Row],
    item: &SelectItem,
) -> Result<Cell, AllocError>
    ensures { IfOk result (λ cell. cell ≡ said_of headers.now (map (λ row. row.now) rows.now) item.now) }
{
    match item {
        SelectItem::Column(_) => Ok(Cell::Null),
        SelectItem::CountRows => Ok(Cell::Number(rows.len() as i128)),
        SelectItem::Function(function, name) => {
            folded_at(alloc, *function, rows, place_of(headers, name))
        }
    }
}

/// The values of all items for these rows.
fn said_of_each(
    alloc: Global,
    headers: &[Header<Name>],
    list: &[SelectItem],
    rows: &[&Row],
) -> Result<Vec<Cell>, AllocError>
    ensures { IfOk result (λ cells. cells.items ≡ map (said_of headers.now (map (λ row. row.now) rows.now)) list.now) }
{
    let mut cells = Vec::new(alloc);
    for item in list {
        cells.push(said_of(alloc, headers, rows, item)?)?;
    }
    Ok(cells)
}

/// The value of an item for a group.
fn said_in(
    alloc: Global,
    headers: &[Header<Name>],
    group: &Group<'_>,
    item: &SelectItem,
) -> Result<Cell, AllocError>
    ensures { IfOk result (λ cell. cell ≡ said_in headers.now group.now item.now) }
{
    match item {
        SelectItem::Column(_) => Ok(shown(group.value)),
        SelectItem::CountRows | SelectItem::Function(_, _) => {
            said_of(alloc, headers, &group.rows, item)
        }
    }
}

/// The values of all items for a group.
fn said_in_each(
    alloc: Global,
    headers: &[Header<Name>],
    list: &[SelectItem],
    group: &Group<'_>,
) -> Result<Vec<Cell>, AllocError>
    ensures { IfOk result (λ cells. cells.items ≡ map (said_in headers.now group.now) list.now) }
{
    let mut cells = Vec::new(alloc);
    for item in list {
        cells.push(said_in(alloc, headers, group, item)?)?;
    }
    Ok(cells)
}

/// The values of the items for each group, line by line.
fn lines_in(
    alloc: Global,
    headers: &[Header<Name>],
    list: &[SelectItem],
    groups: &[Group<'_>],
) -> Result<Vec<Cell>, AllocError>
    ensures { IfOk result (λ cells. cells.items ≡ joined (map (λ group. map (said_in headers.now group) list.now) groups.now)) }
{
    let mut cells = Vec::new(alloc);
    for group in groups {
        let mut line = said_in_each(alloc, headers, list, group)?;
        cells.append(&mut line)?;
    }
    Ok(cells)
}

/// The cells that the items show of these rows, line by line.
fn cells_for(
    alloc: Global,
    headers: &[Header<Name>],
    list: &[SelectItem],
    grouping: &Option<Name>,
    rows: &[&Row],
) -> Result<Vec<Cell>, AllocError>
    ensures { IfOk result (λ cells. cells.items ≡ joined (lines_for headers.now list.now grouping.now (map (λ row. row.now) rows.now))) }
{
    match grouping {
        Some(name) => {
            let groups = groups_by(alloc, place_of(headers, name), rows)?;
            lines_in(alloc, headers, list, &groups)
        }
        None if has_functions(list) => said_of_each(alloc, headers, list, rows),
        None => {
            let columns = columns_in(alloc, list)?;
            lines_of(alloc, headers, &columns, rows)
        }
    }
}

/// The heading for a set function of a column.
fn function_heading(function: SetFunction, name: Name) -> Heading
    ensures { result ≡ function_heading function name }
{
    match function {
        SetFunction::Count => Heading::Count(name),
        SetFunction::Sum => Heading::Sum(name),
        SetFunction::Min => Heading::Min(name),
        SetFunction::Max => Heading::Max(name),
        SetFunction::Median => Heading::Median(name),
    }
}

/// The heading of an item.
pub fn heading_of(item: SelectItem) -> Heading
    ensures { result ≡ heading_of item }
{
    match item {
        SelectItem::Column(name) => Heading::Column(name),
        SelectItem::CountRows => Heading::CountRows,
        SelectItem::Function(function, name) => function_heading(function, name),
    }
}

/// The headings of these items.
fn headings_of(alloc: Global, list: Vec<SelectItem>) -> Result<Vec<Heading>, AllocError>
    ensures { IfOk result (λ headings. headings.items ≡ map heading_of list.items) }
{
    let mut headings = Vec::new(alloc);
    for item in list {
        headings.push(heading_of(item))?;
    }
    Ok(headings)
}

/// With groups one line for each; without them one line for each found row, in the order of the rows, or one line of
/// set functions over them.
pub fn answer_of(alloc: Global, table: &Table, query: &Select) -> Result<Answer, AllocError>
    ensures { IfOk result (λ shows. shows ≡ answer table.now (select_of query.now)) }
{
    let headers = table.headers();
    let list = shown_items(alloc, headers, &query.items)?;
    let rows = found_rows(alloc, table, &query.condition)?;
    let cells = cells_for(alloc, headers, &list, &query.grouping, &rows)?;
    let headings = headings_of(alloc, list)?;
    Ok(Answer::new(headings, cells))
}
