//! The effect of an UPDATE on a table.

ghost use Rattle.std.specs.Prelude.{◌≡◌, IfOk, MatchOption, OnErr, length, map, option_map};
ghost use Rattle.bw_model.specs.Changes.{source_for, updated_if_found, updated_row, with_updates};
ghost use Rattle.bw_model.specs.Condition.{found_rows, is_found, value_of};
ghost use Rattle.bw_model.specs.Refusals.{first_that_holds, set_columns, update_tests};
ghost use Rattle.bw_model.specs.declared.reply.Reply.TheVariants.{Count, Refused};
ghost use Rattle.bw_sql.specs.Tree.{condition_of};

use crate::condition::{found_rows, is_found, value_of};
use crate::refusal_tests::{copy_test, first_that_holds, set_tests};
use crate::reply::Reply;
use crate::store::{Row, Table, place_of, value_from};
use bw_code::Header;
use bw_sql::{Condition, Name, SetClause, Value};
use std::alloc::{AllocError, Global};

/// Updates the found rows of this table in place.
pub(crate) fn update_rows(
    alloc: Global,
    table: &mut Table,
    sets: &[SetClause],
    condition: &Option<Condition>,
) -> Result<Reply, AllocError>
    ensures outcome { IfOk result (λ reply. MatchOption (first_that_holds (update_tests sets.now (option_map condition_of condition.now) table.old))
        ((reply ≡ Count (length (found_rows table.old (option_map condition_of condition.now)))) × (table.new ≡ with_updates sets.now (option_map condition_of condition.now) table.old))
        (λ refusal. (reply ≡ Refused refusal) × (table.new ≡ table.old))) }
    ensures unchanged { OnErr result (table.new ≡ table.old) }
{
    let columns = set_columns(alloc, sets)?;
    if let Some(refusal) = first_that_holds(&set_tests(
        &columns,
        table.headers(),
        sets,
        condition,
    )) {
        return Ok(Reply::Refused(refusal));
    }
    let found = found_rows(alloc, table, condition)?;
    if let Some(refusal) = first_that_holds(&[copy_test(table.headers(), sets, &found)]) {
        return Ok(Reply::Refused(refusal));
    }
    let count = found.len();
    drop(found);
    let rows = rows_updated(alloc, table, sets, condition)?;
    table.replace_rows(rows);
    Ok(Reply::Count(count as u64))
}

/// The columns on the left sides.
fn set_columns(alloc: Global, sets: &[SetClause]) -> Result<Vec<Name>, AllocError>
    ensures { IfOk result (λ columns. columns.items ≡ set_columns sets.now) }
{
    let mut columns = Vec::new(alloc);
    for set in sets {
        columns.push(set.column.try_clone(alloc)?)?;
    }
    Ok(columns)
}

/// The rows, with each found one updated.
fn rows_updated(
    alloc: Global,
    table: &Table,
    sets: &[SetClause],
    condition: &Option<Condition>,
) -> Result<Vec<Row>, AllocError>
    ensures { IfOk result (λ rows. rows.items ≡ map (updated_if_found table.now.headers sets.now (option_map condition_of condition.now)) table.now.rows) }
{
    let mut rows = Vec::new(alloc);
    for row in table.rows() {
        rows.push(updated_if_found(alloc, table.headers(), sets, condition, row)?)?;
    }
    Ok(rows)
}

fn updated_if_found(
    alloc: Global,
    headers: &[Header<Name>],
    sets: &[SetClause],
    condition: &Option<Condition>,
    row: &Row,
) -> Result<Row, AllocError>
    ensures { IfOk result (λ new. new ≡ updated_if_found headers.now sets.now (option_map condition_of condition.now) row.now) }
{
    if is_found(headers, condition, row) {
        Ok(Row::new(updated_row(alloc, headers, sets, row)?))
    } else {
        row.try_clone(alloc)
    }
}

/// The row with its columns set, all of them computed from the row before.
fn updated_row(
    alloc: Global,
    headers: &[Header<Name>],
    sets: &[SetClause],
    row: &Row,
) -> Result<Vec<Value>, AllocError>
    ensures { IfOk result (λ new. new.items ≡ updated_row headers.now sets.now row.now) }
{
    let mut new = Vec::new(alloc);
    for header in headers {
        new.push(updated_value(headers, sets, row, &header.name))?;
    }
    Ok(new)
}

/// The value of a column of the updated row. A column that isn't set keeps its own.
fn updated_value(headers: &[Header<Name>], sets: &[SetClause], row: &Row, name: &Name) -> Value
    ensures { result ≡ value_of headers.now row.now (source_for sets.now name.now) }
{
    for set in sets {
        if name == &set.column {
            return value_of(headers, row, &set.source);
        }
    }
    value_from(row.values(), place_of(headers, name))
}
