//! The rows that an INSERT adds.

ghost use Rattle.std.specs.Prelude.{◌≡◌, IfOk, map, position};
ghost use Rattle.std.specs.Str.{bytes_eq};
ghost use Rattle.bw_model.specs.Insert.{row_for, target_columns};
ghost use Rattle.bw_model.specs.Refusals.{types_named};

use crate::store::{Row, names, type_named, value_from};
use bw_code::{ColumnType, Header};
use bw_sql::{Name, NameList, Value, ValueRows};
use std::alloc::{AllocError, Global};

/// The columns that the values are for: if none is listed, all of them in order.
pub(crate) fn target_columns(
    alloc: Global,
    headers: &[Header<Name>],
    listed: &Option<NameList>,
) -> Result<Vec<Name>, AllocError>
    ensures { IfOk result (λ columns. columns.items ≡ target_columns headers.now listed.now) }
{
    match listed {
        None => names(alloc, headers),
        Some(list) => copied(alloc, list.as_slice()),
    }
}

/// A copy of the names.
pub(crate) fn copied(alloc: Global, names: &[Name]) -> Result<Vec<Name>, AllocError>
    ensures { IfOk result (λ list. list.items ≡ names.now) }
{
    let mut list = Vec::new(alloc);
    for name in names {
        list.push(name.try_clone(alloc)?)?;
    }
    Ok(list)
}

/// The types of the columns with these names.
pub(crate) fn types_named(
    alloc: Global,
    headers: &[Header<Name>],
    columns: &[Name],
) -> Result<Vec<ColumnType>, AllocError>
    ensures { IfOk result (λ types. types.items ≡ types_named headers.now columns.now) }
{
    columns
        .iter()
        .map(|name| type_named(headers, name))
        .collect(alloc)
}

/// The row of these values: a column that isn't listed is NULL.
fn row_for(
    alloc: Global,
    headers: &[Header<Name>],
    list: &[Name],
    values: &Row,
) -> Result<Vec<Value>, AllocError>
    ensures { IfOk result (λ row. row.items ≡ row_for headers.now list.now values.now) }
{
    headers
        .iter()
        .map(|header| value_from(values.values(), place_among(list, &header.name)))
        .collect(alloc)
}

/// The index of this name in the list.
fn place_among(list: &[Name], name: &Name) -> Option<usize>
    ensures { result ≡ position (bytes_eq name.now) list.now }
{
    list.iter().position(|other| name == other)
}

/// The rows with these values, in order.
pub(crate) fn rows_for(
    alloc: Global,
    headers: &[Header<Name>],
    list: &[Name],
    rows: &[Row],
) -> Result<Vec<Row>, AllocError>
    ensures { IfOk result (λ new. new.items ≡ map (row_for headers.now list.now) rows.now) }
{
    let mut new = Vec::new(alloc);
    for values in rows {
        new.push(Row::new(row_for(alloc, headers, list, values)?))?;
    }
    Ok(new)
}

/// The rows of a VALUES list.
pub(crate) fn rows_of(alloc: Global, rows: &ValueRows) -> Result<Vec<Row>, AllocError>
    ensures { IfOk result (λ list. list.items ≡ rows.now) }
{
    let mut list = Vec::new(alloc);
    let mut rest = rows.values();
    for width in rows.widths() {
        let (row, after) = rest.split_at(*width);
        list.push(Row::new(Vec::from_slice(alloc, row)?))?;
        rest = after;
    }
    Ok(list)
}
