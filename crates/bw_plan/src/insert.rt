//! INSERT: the cells of its rows, in the order of the table's columns.

ghost use Rattle.std.specs.Prelude.{◌≡◌, ◌++◌, ◌<◌, All, length, map, not, position, true, IfOk, OnOk};
ghost use Rattle.std.specs.List.{list_any};
ghost use Rattle.bw_plan.specs.Targeting.{names_of};
ghost use Rattle.std.specs.Str.{bytes_eq};
ghost use Rattle.bw_model.specs.Answers.{AreWholeLines, lines_of};
ghost use Rattle.bw_model.specs.Insert.{row_for, target_columns};
ghost use Rattle.bw_model.specs.Refusals.{is_missing};
ghost use Rattle.bw_model.specs.Store.{are_distinct, names, value_at, value_from};
ghost use Rattle.bw_plan.specs.Checks.{Answers, Decides, listed_tests, value_tests};
ghost use Rattle.bw_sql.specs.Rows.{joined};

use crate::headers::Headers;
use crate::targets::{Targets, rows_fit};
use bw_model::Refusal;
use bw_sql::{Name, NameList, Value, ValueRows};
use std::alloc::{AllocError, Global};

/// The cells of the rows that an INSERT adds to a table of these columns, row after row: each value at the index of its
/// column, and NULL for columns that aren't listed. It is refused, in this order, if a listed column doesn't exist, if
/// one is listed twice, if a row has a different number of values than there are columns, if a value isn't of its
/// column's type, or if there are more rows than the table has room for. Refusals are found before anything is
/// allocated. If no columns are listed, the cells are the values as they are, and nothing is allocated.
pub fn resolve_insert(
    alloc: Global,
    headers: &Headers<'_>,
    columns: &Option<NameList>,
    rows: ValueRows,
    room: usize,
) -> Result<Vec<Value>, Refusal>
    ensures { let targets = target_columns headers.now columns.now in Answers (listed_tests headers.now targets ++ value_tests headers.now targets room rows) result (λ cells. cells.items ≡ joined (map (row_for headers.now targets) rows)) }
{
    match columns {
        Some(names) => listed_cells(alloc, headers, names.as_slice(), rows, room),
        None => whole_cells(headers, rows, room),
    }
}

/// The cells of rows that name all columns in order.
fn whole_cells(headers: &Headers<'_>, rows: ValueRows, room: usize) -> Result<Vec<Value>, Refusal>
    ensures { Answers (listed_tests headers.now (names headers.now) ++ value_tests headers.now (names headers.now) room rows) result (λ cells. cells.items ≡ joined (map (row_for headers.now (names headers.now)) rows)) }
{
    // There is at least one column, and the names are distinct.
    let _valid = headers.len();
    check_rows(headers, Targets::All, &rows, room)?;
    Ok(rows.into_values())
}

/// The cells of rows that name some columns, in the order of the table's columns.
fn listed_cells(
    alloc: Global,
    headers: &Headers<'_>,
    names: &[Name],
    rows: ValueRows,
    room: usize,
) -> Result<Vec<Value>, Refusal>
    requires { 0 < length names.now }
    ensures { Answers (listed_tests headers.now names.now ++ value_tests headers.now names.now room rows) result (λ cells. cells.items ≡ joined (map (row_for headers.now names.now) rows)) }
{
    check_listed(headers, names)?;
    check_rows(headers, Targets::Listed(names), &rows, room)?;
    let cells = placed_cells(alloc, headers, names, rows)?;
    Ok(cells)
}

/// The cells of rows that have a value for each of these columns.
fn placed_cells(
    alloc: Global,
    headers: &Headers<'_>,
    names: &[Name],
    rows: ValueRows,
) -> Result<Vec<Value>, AllocError>
    requires some { 0 < length names.now }
    requires widths { All (λ row. length row ≡ length names.now) rows }
    ensures { IfOk result (λ cells. cells.items ≡ joined (map (row_for headers.now names.now) rows)) }
{
    let sources = sources_of(alloc, headers, names)?;
    let cells = spread(alloc, rows.values(), names.len(), sources.as_slice())?;
    Ok(cells)
}

/// Refuses a list that names a column that doesn't exist, or else one that names a column twice.
fn check_listed(headers: &Headers<'_>, names: &[Name]) -> Result<(), Refusal>
    ensures { Decides (listed_tests headers.now names.now) result (λ _. Unit {0}) }
{
    if lacks_any(headers, names) {
        return Err(Refusal::NoSuchColumn);
    }
    if name_twice(names) {
        return Err(Refusal::ColumnNamedTwice);
    }
    Ok(())
}

/// Refuses, in this order, a row of another width, a value that isn't of its column's type, and more rows than there is
/// room for.
fn check_rows(
    headers: &Headers<'_>,
    targets: Targets<'_>,
    rows: &ValueRows,
    room: usize,
) -> Result<(), Refusal>
    requires { 0 < length (names_of headers.now targets) }
    ensures { Decides (value_tests headers.now (names_of headers.now targets.entry) room rows.now) result (λ _. Unit {0}) }
{
    if !rows.are_all_of_width(targets.len(headers)) {
        return Err(Refusal::WrongNumberOfValues);
    }
    if !rows_fit(headers, targets, rows) {
        return Err(Refusal::OutOfRange);
    }
    if rows.len() > room {
        return Err(Refusal::TableFull);
    }
    Ok(())
}

/// Whether one of the names isn't the name of a column.
pub(crate) fn lacks_any(headers: &Headers<'_>, names: &[Name]) -> bool
    ensures { result ≡ list_any (is_missing headers.now) names.now }
{
    names.iter().any(|name| headers.place(name).is_none())
}

/// Whether a name occurs twice. Fast if all names are those of columns: in a list longer than the columns, a duplicate
/// is found near the start.
fn name_twice(names: &[Name]) -> bool
    ensures { result ≡ not (are_distinct names.now) }
{
    for (i, name) in names.iter().enumerate() {
        if names[..i].contains(name) {
            return true;
        }
    }
    false
}

/// For each column, its index in the list of names, if it is listed.
fn sources_of(
    alloc: Global,
    headers: &Headers<'_>,
    names: &[Name],
) -> Result<Vec<Option<usize>>, AllocError>
    ensures { IfOk result (λ sources. sources.items ≡ map (λ h. position (bytes_eq h.name) names.now) headers.now) }
{
    let mut sources = Vec::with_capacity(alloc, headers.len())?;
    for i in 0..headers.len() {
        sources.push(place_among(names, headers.name(i)))?;
    }
    Ok(sources)
}

/// The index of this name in the list.
fn place_among(names: &[Name], name: &Name) -> Option<usize>
    ensures { result ≡ position (bytes_eq name.now) names.now }
{
    names.iter().position(|other| name == other)
}

/// Rows of this width, reordered by `sources`, with NULL for columns that have no source.
fn spread(
    alloc: Global,
    values: &[Value],
    width: usize,
    sources: &[Option<usize>],
) -> Result<Vec<Value>, AllocError>
    requires { AreWholeLines width values.now }
    ensures { IfOk result (λ cells. cells.items ≡ joined (map (λ row. map (value_from row) sources.now) (lines_of width values.now))) }
{
    let capacity = (values.len() / width).saturating_mul(sources.len());
    let mut cells = Vec::with_capacity(alloc, capacity)?;
    let mut rest = values;
    while !rest.is_empty() {
        let (row, after) = rest.split_at(width);
        place(&mut cells, row, sources)?;
        rest = after;
    }
    Ok(cells)
}

/// Appends the values at these indexes of a row.
fn place(cells: &mut Vec<Value>, row: &[Value], sources: &[Option<usize>]) -> Result<(), AllocError>
    ensures { OnOk result (cells.new.items ≡ cells.old.items ++ map (value_from row.now) sources.now) }
{
    for source in sources {
        cells.push(value_from(row, *source))?;
    }
    Ok(())
}

/// The value at this index, or NULL if there is no index.
fn value_from(row: &[Value], source: Option<usize>) -> Value
    ensures { result ≡ value_from row.now source }
{
    match source {
        Some(place) => value_at(row, place),
        None => None,
    }
}

/// The value at this index of a row, or NULL past its end.
fn value_at(row: &[Value], place: usize) -> Value
    ensures { result ≡ value_at row.now place }
{
    match row.get(place) {
        Some(value) => *value,
        None => None,
    }
}
