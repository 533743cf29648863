//! Groups of rows by the value of a column.

ghost use Rattle.std.specs.Prelude.{◌≡◌, IfOk, is_none, map};
ghost use Rattle.std.specs.List.{dedup, list_any};
ghost use Rattle.std.specs.Ordering.{int_eq};
ghost use Rattle.bw_cells.specs.SetFunctions.{known, sorted};
ghost use Rattle.bw_model.specs.Groups.{group_values, groups_by, is_same, rows_having};

use crate::set_functions::{known, sorted, values_at};
use crate::store::{Row, value_from};
use bw_sql::Value;
use std::alloc::{AllocError, Global};
use std::marker::Model;

/// The rows whose values in a column are the same, and that value. Contracts see the rows as lists of values.
#[derive(Drop)]
pub(crate) struct Group<'a> {
    pub(crate) value: Value,
    pub(crate) rows: Vec<&'a Row>,
}

impl<'a> Model for Group<'a> {
    ghost use Rattle.std.specs.Prelude.{map};
    ghost use Rattle.bw_model.specs.Groups.{Group};

    ghost Value = { Group };

    ghost view = { λ g. record { value = g.value; rows = map (λ row. row.now) g.rows.items } };
}

/// Whether both are NULL, or the same number.
fn is_same(value: Value, other: Value) -> bool
    ensures { result ≡ is_same value other }
{
    match (value, other) {
        (None, None) => true,
        (Some(x), Some(y)) => x == y,
        _ => false,
    }
}

fn has_null(values: &[Value]) -> bool
    ensures { result ≡ list_any is_none values.now }
{
    values.iter().any(|value| value.is_none())
}

/// The distinct numbers, in ascending order.
fn distinct(alloc: Global, values: &[Value]) -> Result<Vec<i64>, AllocError>
    ensures { IfOk result (λ numbers. numbers.items ≡ dedup int_eq (sorted (known values.now))) }
{
    let mut numbers = sorted(alloc, &known(alloc, values)?)?;
    numbers.dedup();
    Ok(numbers)
}

/// The distinct values, in ascending order, with NULL last.
fn group_values(alloc: Global, values: &[Value]) -> Result<Vec<Value>, AllocError>
    ensures { IfOk result (λ list. list.items ≡ group_values values.now) }
{
    let mut list = Vec::new(alloc);
    for number in distinct(alloc, values)? {
        list.push(Some(number))?;
    }
    if has_null(values) {
        list.push(None)?;
    }
    Ok(list)
}

/// The rows that have this value at this index.
fn rows_having<'a>(
    alloc: Global,
    place: Option<usize>,
    value: Value,
    rows: &[&'a Row],
) -> Result<Vec<&'a Row>, AllocError>
    ensures { IfOk result (λ found. map (λ row. row.now) found.items ≡ rows_having place value (map (λ row. row.now) rows.now)) }
{
    let mut found = Vec::new(alloc);
    for row in rows {
        if is_same(value_from(row.values(), place), value) {
            found.push(*row)?;
        }
    }
    Ok(found)
}

/// The groups of rows by the value at this index.
pub(crate) fn groups_by<'a>(
    alloc: Global,
    place: Option<usize>,
    rows: &[&'a Row],
) -> Result<Vec<Group<'a>>, AllocError>
    ensures { IfOk result (λ groups. groups.items ≡ groups_by place (map (λ row. row.now) rows.now)) }
{
    let mut groups = Vec::new(alloc);
    for value in group_values(alloc, &values_at(alloc, rows, place)?)? {
        let rows = rows_having(alloc, place, value, rows)?;
        groups.push(Group { value, rows })?;
    }
    Ok(groups)
}
