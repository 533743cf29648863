//! INSERT.

ghost use Rattle.std.specs.Prelude.{◌≡◌, length, OnErr, OnOk};
ghost use Rattle.bw_model.specs.Insert.{target_columns, with_rows};
ghost use Rattle.bw_model.specs.Refusals.{insert_tests};
ghost use Rattle.bw_model.specs.declared.reply.Reply.TheVariants.{Count};
ghost use Rattle.bw_sql.specs.Tree.{statement_of};
ghost use Rattle.bw_sql.specs.declared.tree.Statement.TheVariants as statements;
ghost use Rattle.bw_model.specs.declared.content.Content.TheVariants.{Nothing};
ghost use Rattle.bw_engine.specs.Outcomes.{CarriesOut};
ghost use Rattle.bw_engine.specs.StoredChanges.{ChangesStored, Grows};
ghost use Rattle.bw_engine.specs.Stores.{store_of, table_in};
ghost use Rattle.bw_plan.specs.Checks.{Answers};

use crate::table::Table;
use bw_model::{Refusal, Reply};
use bw_plan::resolve_insert;
use bw_sql::{Insert, Name, NameList, ValueRows};
use bw_table::Rows;
use indexmap::IndexMap;
use std::alloc::Global;

/// Appends rows to a table. A column that isn't listed gets NULL.
pub(crate) fn insert(
    alloc: Global,
    tables: &mut IndexMap<Name, Table>,
    statement: Insert,
) -> Result<Reply, Refusal>
    ensures reply { CarriesOut (store_of tables.old.entries) Nothing (statement_of (statements.Insert statement)) result (store_of tables.new.entries) }
    ensures stored { OnOk result (ChangesStored tables.old.entries (statement_of (statements.Insert statement)) tables.new.entries) }
    ensures refused { OnErr result (tables.new.entries ≡ tables.old.entries) }
{
    let Insert {
        table,
        columns,
        rows,
    } = statement;
    match tables.get_mut(&table) {
        Some(table) => insert_rows(alloc, table, &columns, rows),
        None => Err(Refusal::NoSuchTable),
    }
}

/// Appends rows to this table. Every refusal happens before the table changes.
fn insert_rows(
    alloc: Global,
    table: &mut Table,
    columns: &Option<NameList>,
    rows: ValueRows,
) -> Result<Reply, Refusal>
    ensures reply { Answers (insert_tests (target_columns table.old.headers columns.now) rows (table_in table.old)) result (λ reply. (reply ≡ Count (length rows)) × (table_in table.new ≡ with_rows columns.now rows (table_in table.old))) }
    ensures stored { OnOk result (Grows table.old table.new) }
    ensures refused { OnErr result (table.new ≡ table.old) }
{
    let count = rows.len();
    let cells = resolve_insert(alloc, &table.headers(), columns, rows, table.room())?;
    let width = table.headers().len();
    table.insert(alloc, &Rows::new(width, cells.as_slice()))?;
    Ok(Reply::Count(count as u64))
}
