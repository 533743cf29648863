//! The effect of a DELETE on a table.

ghost use Rattle.std.specs.Prelude.{◌≡◌, IfOk, MatchOption, OnErr, filter, length, not, option_map};
ghost use Rattle.bw_model.specs.Changes.{without_found};
ghost use Rattle.bw_model.specs.Condition.{found_rows, is_found};
ghost use Rattle.bw_model.specs.Refusals.{delete_tests, first_that_holds};
ghost use Rattle.bw_model.specs.declared.reply.Reply.TheVariants.{Count, Refused};
ghost use Rattle.bw_sql.specs.Tree.{condition_of};

use crate::condition::{found_rows, is_found};
use crate::refusal_tests::{delete_tests, first_that_holds};
use crate::reply::Reply;
use crate::store::{Row, Table};
use bw_sql::Condition;
use std::alloc::{AllocError, Global};

/// Removes the found rows from this table.
pub(crate) fn delete_rows(
    alloc: Global,
    table: &mut Table,
    condition: &Option<Condition>,
) -> Result<Reply, AllocError>
    ensures outcome { IfOk result (λ reply. MatchOption (first_that_holds (delete_tests (option_map condition_of condition.now) table.old))
        ((reply ≡ Count (length (found_rows table.old (option_map condition_of condition.now)))) × (table.new ≡ without_found (option_map condition_of condition.now) table.old))
        (λ refusal. (reply ≡ Refused refusal) × (table.new ≡ table.old))) }
    ensures unchanged { OnErr result (table.new ≡ table.old) }
{
    if let Some(refusal) = first_that_holds(&delete_tests(condition, table)) {
        return Ok(Reply::Refused(refusal));
    }
    let count = found_rows(alloc, table, condition)?.len();
    let rows = rows_left(alloc, table, condition)?;
    table.replace_rows(rows);
    Ok(Reply::Count(count as u64))
}

/// The rows at which the condition isn't true.
fn rows_left(
    alloc: Global,
    table: &Table,
    condition: &Option<Condition>,
) -> Result<Vec<Row>, AllocError>
    ensures { IfOk result (λ rows. rows.items ≡ filter (λ row. not (is_found table.now.headers (option_map condition_of condition.now) row)) table.now.rows) }
{
    let mut rows = Vec::new(alloc);
    for row in table.rows() {
        if !is_found(table.headers(), condition, row) {
            rows.push(row.try_clone(alloc)?)?;
        }
    }
    Ok(rows)
}
