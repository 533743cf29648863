//! SELECT.

ghost use Rattle.std.specs.Prelude.{◌≡◌, ◌<◌, length, map, IfOk};
ghost use Rattle.bw_mask.specs.Masks.{len, row_at};
ghost use Rattle.bw_model.specs.Refusals.{select_tests};
ghost use Rattle.bw_model.specs.Select.{answer, heading_of, shown_items};
ghost use Rattle.bw_model.specs.Store.{names};
ghost use Rattle.bw_model.specs.declared.answer.Heading.TheVariants.{Column};
ghost use Rattle.bw_model.specs.declared.reply.Reply.TheVariants.{Rows};
ghost use Rattle.bw_sql.specs.Tree.{items_of, select_of, statement_of};
ghost use Rattle.bw_sql.specs.declared.tree.Statement.TheVariants as statements;
ghost use Rattle.bw_engine.specs.Folds.{IsShownWithin, lines_by, plan_width};
ghost use Rattle.bw_engine.specs.Found.{rows_where};
ghost use Rattle.bw_model.specs.declared.content.Content.TheVariants.{Nothing};
ghost use Rattle.bw_engine.specs.Outcomes.{CarriesOut};
ghost use Rattle.bw_engine.specs.Stores.{rows_of_slots, store_of, table_in};
ghost use Rattle.bw_plan.specs.Checks.{Answers};

use crate::found::found_slots;
use crate::grouped::group_cells;
use crate::set_functions::function_cells;
use crate::shown::found_values;
use crate::table::Table;
use bw_mask::Mask;
use bw_model::{Answer, Heading, Refusal, Reply, heading_of};
use bw_plan::{Headers, ShownPlan, resolve_select};
use bw_sql::{Name, Select, SelectItem, SelectItems};
use indexmap::IndexMap;
use std::alloc::{AllocError, Global};

/// Answers a SELECT.
pub(crate) fn select(
    alloc: Global,
    tables: &IndexMap<Name, Table>,
    query: Select,
) -> Result<Reply, Refusal>
    ensures { CarriesOut (store_of tables.now.entries) Nothing (statement_of (statements.Select query)) result (store_of tables.now.entries) }
{
    match tables.get(&query.table) {
        Some(table) => shown_rows(alloc, table, query),
        None => Err(Refusal::NoSuchTable),
    }
}

/// The answer of a SELECT over this table.
fn shown_rows(alloc: Global, table: &Table, query: Select) -> Result<Reply, Refusal>
    ensures { Answers (select_tests (select_of query) table.now.headers) result (λ reply. reply ≡ Rows (answer (table_in table.now) (select_of query))) }
{
    let headers = table.headers();
    let plan = resolve_select(alloc, &headers, &query)?;
    let found = found_slots(alloc, table, &plan.condition)?;
    let headings = headings_of(alloc, &headers, query.items)?;
    Ok(Reply::Rows(shown_answer(alloc, table, &plan.shown, &found, headings)?))
}

/// The answer with columns of the found slots, or with set functions of them or of their groups.
fn shown_answer(
    alloc: Global,
    table: &Table,
    shown: &ShownPlan,
    found: &Mask,
    headings: Vec<Heading>,
) -> Result<Answer, AllocError>
    requires found { len found.now ≡ length table.now.slots }
    requires some { 0 < length headings.items }
    requires wide { length headings.items ≡ plan_width shown.now }
    requires places { IsShownWithin (length table.now.headers) shown.now }
    ensures headings { IfOk result (λ answer. answer.headings ≡ headings.items) }
    ensures lines { IfOk result (λ answer. answer.lines ≡ lines_by shown.now (rows_where (row_at found.now) (rows_of_slots table.now.slots))) }
{
    match shown {
        ShownPlan::Columns(places) => {
            let values = found_values(alloc, table.stored(), places.as_slice(), found)?;
            Ok(Answer::of_values(headings, values))
        }
        ShownPlan::Functions(functions) => {
            let cells = function_cells(alloc, table.stored(), functions.as_slice(), found)?;
            Ok(Answer::new(headings, cells))
        }
        ShownPlan::Groups(plan) => {
            let cells = group_cells(alloc, table.stored(), plan, found)?;
            Ok(cells.answer(headings))
        }
    }
}

/// The headings of the shown items.
fn headings_of(
    alloc: Global,
    headers: &Headers<'_>,
    items: SelectItems,
) -> Result<Vec<Heading>, AllocError>
    ensures { IfOk result (λ headings. headings.items ≡ map heading_of (shown_items headers.now (items_of items))) }
{
    match items {
        SelectItems::All => all_headings(alloc, headers),
        SelectItems::List(list) => item_headings(alloc, list.into_vec()),
    }
}

fn all_headings(alloc: Global, headers: &Headers<'_>) -> Result<Vec<Heading>, AllocError>
    ensures { IfOk result (λ headings. headings.items ≡ map (λ name. Column name) (names headers.now)) }
{
    let mut headings = Vec::with_capacity(alloc, headers.len())?;
    for i in 0..headers.len() {
        headings.push(Heading::Column(headers.name(i).try_clone(alloc)?))?;
    }
    Ok(headings)
}

fn item_headings(alloc: Global, list: Vec<SelectItem>) -> Result<Vec<Heading>, AllocError>
    ensures { IfOk result (λ headings. headings.items ≡ map heading_of list.items) }
{
    let mut headings = Vec::with_capacity(alloc, list.len())?;
    for item in list {
        headings.push(heading_of(item))?;
    }
    Ok(headings)
}
