//! REBUILD.

ghost use Rattle.std.specs.Prelude.{◌≡◌, OnErr, OnOk};
ghost use Rattle.bw_model.specs.Changes.{with_choices};
ghost use Rattle.bw_model.specs.Refusals.{rebuild_tests};
ghost use Rattle.bw_model.specs.declared.reply.Reply.TheVariants.{Done};
ghost use Rattle.bw_sql.specs.Tree.{statement_of};
ghost use Rattle.bw_sql.specs.declared.tree.Statement.TheVariants as statements;
ghost use Rattle.bw_model.specs.declared.content.Content.TheVariants.{Nothing};
ghost use Rattle.bw_engine.specs.Outcomes.{CarriesOut};
ghost use Rattle.bw_engine.specs.StoredChanges.{BuildsAnew, ChangesStored};
ghost use Rattle.bw_engine.specs.Stores.{store_of, table_in};
ghost use Rattle.bw_plan.specs.Checks.{Answers};

use crate::table::Table;
use bw_model::{Refusal, Reply};
use bw_plan::{check_choices, chooses_too_narrow, resolve_rebuild};
use bw_sql::{LayoutChoice, Name, Rebuild};
use indexmap::IndexMap;
use std::alloc::Global;

/// Rebuilds columns in the chosen layouts and kinds. No row changes.
pub(crate) fn rebuild(
    alloc: Global,
    tables: &mut IndexMap<Name, Table>,
    statement: Rebuild,
) -> Result<Reply, Refusal>
    ensures reply { CarriesOut (store_of tables.old.entries) Nothing (statement_of (statements.Rebuild statement)) result (store_of tables.new.entries) }
    ensures stored { OnOk result (ChangesStored tables.old.entries (statement_of (statements.Rebuild statement)) tables.new.entries) }
    ensures refused { OnErr result (tables.new.entries ≡ tables.old.entries) }
{
    let Rebuild { table, choices } = statement;
    match tables.get_mut(&table) {
        Some(table) => rebuild_columns(alloc, table, choices.as_slice()),
        None => Err(Refusal::NoSuchTable),
    }
}

/// Rebuilds columns of this table. Every refusal happens before the table changes.
fn rebuild_columns(
    alloc: Global,
    table: &mut Table,
    choices: &[LayoutChoice],
) -> Result<Reply, Refusal>
    ensures reply { Answers (rebuild_tests choices.now (table_in table.old)) result (λ reply. (reply ≡ Done) × (table_in table.new ≡ with_choices choices.now (table_in table.old))) }
    ensures stored { OnOk result (BuildsAnew choices.now table.old table.new) }
    ensures refused { OnErr result (table.new ≡ table.old) }
{
    check_choices(&table.headers(), choices)?;
    if chooses_too_narrow(&table.headers(), choices) {
        return Err(Refusal::LayoutTooNarrow);
    }
    let choices = resolve_rebuild(alloc, &table.headers(), choices)?;
    table.rebuild(alloc, choices.as_slice())?;
    Ok(Reply::Done)
}
