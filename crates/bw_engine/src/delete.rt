//! DELETE.

ghost use Rattle.std.specs.Prelude.{◌≡◌, length, option_map, OnErr, OnOk};
ghost use Rattle.bw_model.specs.Changes.{without_found};
ghost use Rattle.bw_model.specs.Condition.{found_rows};
ghost use Rattle.bw_model.specs.Refusals.{delete_tests};
ghost use Rattle.bw_model.specs.declared.reply.Reply.TheVariants.{Count};
ghost use Rattle.bw_sql.specs.Tree.{condition_of, statement_of};
ghost use Rattle.bw_sql.specs.declared.tree.Statement.TheVariants as statements;
ghost use Rattle.bw_model.specs.declared.content.Content.TheVariants.{Nothing};
ghost use Rattle.bw_engine.specs.Outcomes.{CarriesOut};
ghost use Rattle.bw_engine.specs.StoredChanges.{ChangesStored, KillsFound};
ghost use Rattle.bw_engine.specs.Stores.{store_of, table_in};
ghost use Rattle.bw_plan.specs.Checks.{Answers};

use crate::found::found_slots;
use crate::table::Table;
use bw_model::{Refusal, Reply};
use bw_plan::resolve_delete;
use bw_sql::{Condition, Delete, Name};
use indexmap::IndexMap;
use std::alloc::Global;

/// Deletes the found rows.
pub(crate) fn delete(
    alloc: Global,
    tables: &mut IndexMap<Name, Table>,
    statement: Delete,
) -> Result<Reply, Refusal>
    ensures reply { CarriesOut (store_of tables.old.entries) Nothing (statement_of (statements.Delete statement)) result (store_of tables.new.entries) }
    ensures stored { OnOk result (ChangesStored tables.old.entries (statement_of (statements.Delete statement)) tables.new.entries) }
    ensures refused { OnErr result (tables.new.entries ≡ tables.old.entries) }
{
    let Delete { table, condition } = statement;
    match tables.get_mut(&table) {
        Some(table) => delete_rows(alloc, table, &condition),
        None => Err(Refusal::NoSuchTable),
    }
}

/// Deletes the found rows of this table. Every refusal happens before the table changes.
fn delete_rows(
    alloc: Global,
    table: &mut Table,
    condition: &Option<Condition>,
) -> Result<Reply, Refusal>
    ensures reply { Answers (delete_tests (option_map condition_of condition.now) (table_in table.old)) result (λ reply. (reply ≡ Count (length (found_rows (table_in table.old) (option_map condition_of condition.now)))) × (table_in table.new ≡ without_found (option_map condition_of condition.now) (table_in table.old))) }
    ensures stored { OnOk result (KillsFound (option_map condition_of condition.now) table.old table.new) }
    ensures refused { OnErr result (table.new ≡ table.old) }
{
    let condition = resolve_delete(alloc, &table.headers(), condition)?;
    let found = found_slots(alloc, table, &condition)?;
    table.delete(&found);
    Ok(Reply::Count(found.count() as u64))
}
