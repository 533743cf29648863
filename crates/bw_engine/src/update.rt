//! UPDATE.

ghost use Rattle.std.specs.Prelude.{◌≡◌, length, option_map, OnErr, OnOk};
ghost use Rattle.bw_model.specs.Changes.{with_updates};
ghost use Rattle.bw_model.specs.Condition.{found_rows};
ghost use Rattle.bw_model.specs.Refusals.{set_tests, update_tests};
ghost use Rattle.bw_model.specs.declared.reply.Reply.TheVariants.{Count};
ghost use Rattle.bw_sql.specs.Tree.{condition_of, statement_of};
ghost use Rattle.bw_sql.specs.declared.tree.Statement.TheVariants as statements;
ghost use Rattle.bw_model.specs.declared.content.Content.TheVariants.{Nothing};
ghost use Rattle.bw_engine.specs.Outcomes.{AnswersAfter, CarriesOut};
ghost use Rattle.bw_engine.specs.StoredChanges.{ChangesStored, SetsFound};
ghost use Rattle.bw_engine.specs.Stores.{store_of, table_in};

use crate::found::found_slots;
use crate::table::Table;
use bw_model::{Refusal, Reply};
use bw_plan::resolve_update;
use bw_sql::{Condition, Name, SetClause, Update};
use indexmap::IndexMap;
use std::alloc::Global;

/// Updates the found rows in place.
pub(crate) fn update(
    alloc: Global,
    tables: &mut IndexMap<Name, Table>,
    statement: Update,
) -> Result<Reply, Refusal>
    ensures reply { CarriesOut (store_of tables.old.entries) Nothing (statement_of (statements.Update statement)) result (store_of tables.new.entries) }
    ensures stored { OnOk result (ChangesStored tables.old.entries (statement_of (statements.Update statement)) tables.new.entries) }
    ensures refused { OnErr result (tables.new.entries ≡ tables.old.entries) }
{
    let Update {
        table,
        sets,
        condition,
    } = statement;
    match tables.get_mut(&table) {
        Some(table) => update_rows(alloc, table, sets.as_slice(), &condition),
        None => Err(Refusal::NoSuchTable),
    }
}

/// Updates the found rows of this table. Every refusal happens before the table changes: first those that don't depend
/// on which rows are found, then those of values that are copied in the found rows.
fn update_rows(
    alloc: Global,
    table: &mut Table,
    sets: &[SetClause],
    condition: &Option<Condition>,
) -> Result<Reply, Refusal>
    ensures reply { AnswersAfter (set_tests table.old.headers sets.now (option_map condition_of condition.now)) (update_tests sets.now (option_map condition_of condition.now) (table_in table.old)) result (λ reply. (reply ≡ Count (length (found_rows (table_in table.old) (option_map condition_of condition.now)))) × (table_in table.new ≡ with_updates sets.now (option_map condition_of condition.now) (table_in table.old))) }
    ensures stored { OnOk result (SetsFound sets.now (option_map condition_of condition.now) table.old table.new) }
    ensures refused { OnErr result (table.new ≡ table.old) }
{
    let plan = resolve_update(alloc, &table.headers(), sets, condition)?;
    let found = found_slots(alloc, table, &plan.condition)?;
    table.update(alloc, &found, plan.sets.as_slice())?;
    Ok(Reply::Count(found.count() as u64))
}
