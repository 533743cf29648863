//! STATS.

ghost use Rattle.std.specs.Prelude.{◌≡◌, ◌<◌, ℕ, IfOk, length, option_map};
ghost use Rattle.bw_mask.specs.Masks.{len, row_at};
ghost use Rattle.bw_code.specs.Meters.{raised};
ghost use Rattle.bw_engine.specs.Counting.{is_live, said_of, units_at, units_in};
ghost use Rattle.bw_engine.specs.Outcomes.{CarriesOut};
ghost use Rattle.bw_engine.specs.Stores.{store_of};
ghost use Rattle.bw_model.specs.Refusals.{select_tests};
ghost use Rattle.bw_model.specs.declared.reply.Reply.TheVariants.{Units};
ghost use Rattle.bw_plan.specs.Checks.{Answers};
ghost use Rattle.bw_plan.specs.Costs.{units_by};
ghost use Rattle.bw_plan.specs.Plans.{plan_of};
ghost use Rattle.bw_sql.specs.Tree.{condition_of, select_of, statement_of};
ghost use Rattle.bw_table.specs.Slots.{slot_at};
ghost use Rattle.bw_sql.specs.declared.tree.Statement.TheVariants as statements;

use crate::table::Table;
use bw_code::Meter;
use bw_mask::Mask;
use bw_model::{Refusal, Reply};
use bw_plan::{RowCondition, evaluate, resolve_select};
use bw_sql::{Name, Select};
use bw_table::Slots;
use indexmap::IndexMap;
use std::alloc::{AllocError, Global};

/// Counts the units that the condition of a SELECT reads. No row is returned.
pub(crate) fn stats(
    alloc: Global,
    tables: &IndexMap<Name, Table>,
    query: Select,
) -> Result<Reply, Refusal>
    ensures { CarriesOut (store_of tables.now.entries) (said_of tables.now.entries (statement_of (statements.Stats query))) (statement_of (statements.Stats query)) result (store_of tables.now.entries) }
{
    match tables.get(&query.table) {
        Some(table) => counted(alloc, table, &query),
        None => Err(Refusal::NoSuchTable),
    }
}

/// The units that the condition reads at the live slots of this table, unless the SELECT is refused.
fn counted(alloc: Global, table: &Table, query: &Select) -> Result<Reply, Refusal>
    ensures { Answers (select_tests (select_of query.now) table.now.headers) result (λ reply. reply ≡ Units (raised 0 (units_in table.now (option_map condition_of query.now.condition)))) }
{
    let headers = table.headers();
    let plan = resolve_select(alloc, &headers, query)?;
    Ok(Reply::Units(units_read(alloc, table, &plan.condition)?))
}

/// The units that a condition reads at the live slots; without a condition nothing is read.
fn units_read(
    alloc: Global,
    table: &Table,
    condition: &Option<RowCondition>,
) -> Result<u64, AllocError>
    ensures { IfOk result (λ units. units ≡ raised 0 (units_at table.now (option_map plan_of condition.now))) }
{
    match condition {
        Some(condition) => units_at_live(
            alloc,
            table.stored().slots(),
            table.stored().live(),
            condition,
        ),
        None => Ok(0),
    }
}

/// The units that a condition reads at the live slots.
fn units_at_live(
    alloc: Global,
    slots: &Slots,
    live: &Mask,
    condition: &RowCondition,
) -> Result<u64, AllocError>
    requires len { len live.now ≡ length slots.now.slots }
    requires live { (i : ℕ) → i < length slots.now.slots → row_at live.now i ≡ (slot_at slots.now.slots i).live }
    ensures { IfOk result (λ units. units ≡ raised 0 (units_by (plan_of condition.now) slots.now (is_live slots.now.slots))) }
{
    let mut meter = Meter::new();
    evaluate(alloc, condition, slots, live, &mut meter)?;
    Ok(meter.units())
}
