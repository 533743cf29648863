//! CREATE TABLE.

ghost use Rattle.std.specs.Prelude.{◌≡◌, [], map, ◌==◌, nat_le, nat_lt, not, ◌||◌, IfOk, OnErr, OnOk};
ghost use Rattle.std.specs.List.{list_any};
ghost use Rattle.std.specs.Str.{bytes_eq};
ghost use Rattle.bw_model.specs.Refusals.{create_tests};
ghost use Rattle.bw_model.specs.Store.{AreHeaders, are_distinct, column_limit, header_of, table_limit};
ghost use Rattle.bw_sql.specs.Tree.{statement_of};
ghost use Rattle.bw_sql.specs.declared.tree.Statement.TheVariants as statements;
ghost use Rattle.bw_model.specs.declared.content.Content.TheVariants.{Nothing};
ghost use Rattle.bw_engine.specs.Outcomes.{CarriesOut};
ghost use Rattle.bw_engine.specs.StoredChanges.{ChangesStored, IsNew};
ghost use Rattle.bw_engine.specs.Stores.{store_of, table_in};
ghost use Rattle.bw_plan.specs.Checks.{Decides};

use crate::table::Table;
use bw_model::{Refusal, Reply};
use bw_plan::{defines_too_narrow, header_for};
use bw_sql::{ColumnDefinition, CreateTable, Name};
use bw_table::Header;
use indexmap::{IndexMap, IndexSet};
use std::alloc::{AllocError, Global};

/// The largest number of columns in a table.
pub(crate) const COLUMN_LIMIT: usize = 64;

/// The largest number of tables in a store.
pub const TABLE_LIMIT: usize = 64;

/// Adds an empty table after the existing ones.
pub(crate) fn create_table(
    alloc: Global,
    tables: &mut IndexMap<Name, Table>,
    statement: CreateTable,
) -> Result<Reply, Refusal>
    ensures reply { CarriesOut (store_of tables.old.entries) Nothing (statement_of (statements.CreateTable statement)) result (store_of tables.new.entries) }
    ensures stored { OnOk result (ChangesStored tables.old.entries (statement_of (statements.CreateTable statement)) tables.new.entries) }
    ensures refused { OnErr result (tables.new.entries ≡ tables.old.entries) }
{
    let CreateTable { table, columns } = statement;
    check(alloc, tables, &table, columns.as_slice())?;
    let new = empty_table(alloc, columns)?;
    tables.insert(table, new)?;
    Ok(Reply::Done)
}

/// Returns the first refusal that holds for this CREATE TABLE, if any.
fn check(
    alloc: Global,
    tables: &IndexMap<Name, Table>,
    table: &Name,
    columns: &[ColumnDefinition],
) -> Result<(), Refusal>
    ensures { Decides (create_tests (map header_of columns.now) table.now (store_of tables.now.entries)) result (λ _. Unit {0}) }
{
    if tables.contains_key(table) {
        return Err(Refusal::TableExists);
    }
    if name_twice(alloc, columns) {
        return Err(Refusal::ColumnNamedTwice);
    }
    if is_over_limit(columns.len(), tables.len()) {
        return Err(Refusal::OverLimit);
    }
    if defines_too_narrow(columns) {
        return Err(Refusal::LayoutTooNarrow);
    }
    Ok(())
}

/// Whether `columns` is 0 or above the limit, or `tables` has reached its limit.
fn is_over_limit(columns: usize, tables: usize) -> bool
    ensures { result ≡ (columns == 0 || nat_lt column_limit columns || nat_le table_limit tables) }
{
    columns == 0 || columns > COLUMN_LIMIT || tables >= TABLE_LIMIT
}

/// Whether two columns have the same name. If there is no memory for a set of the names, each name is compared with
/// those before it, so a duplicate is found either way.
fn name_twice(alloc: Global, columns: &[ColumnDefinition]) -> bool
    ensures { result ≡ not (are_distinct (map (λ c. c.name) columns.now)) }
{
    match twice_by_set(alloc, columns) {
        Ok(twice) => twice,
        Err(_) => twice_by_search(columns),
    }
}

fn twice_by_search(columns: &[ColumnDefinition]) -> bool
    ensures { result ≡ not (are_distinct (map (λ c. c.name) columns.now)) }
{
    for (i, column) in columns.iter().enumerate() {
        if is_among(&columns[..i], &column.name) {
            return true;
        }
    }
    false
}

/// Whether one of `columns` is called `name`.
fn is_among(columns: &[ColumnDefinition], name: &Name) -> bool
    ensures { result ≡ list_any (λ column. bytes_eq name.now column.name) columns.now }
{
    columns.iter().any(|column| name == &column.name)
}

fn twice_by_set(alloc: Global, columns: &[ColumnDefinition]) -> Result<bool, AllocError>
    ensures { IfOk result (λ twice. twice ≡ not (are_distinct (map (λ c. c.name) columns.now))) }
{
    let mut names = IndexSet::with_capacity(alloc, columns.len())?;
    for column in columns {
        if !names.insert(&column.name)? {
            return Ok(true);
        }
    }
    Ok(false)
}

/// An empty table with the columns of these definitions.
fn empty_table(alloc: Global, columns: Vec<ColumnDefinition>) -> Result<Table, AllocError>
    requires { AreHeaders (map header_of columns.items) }
    ensures table { IfOk result (λ table. table_in table ≡ record { headers = map header_of columns.items; rows = [] }) }
    ensures is_new { IfOk result IsNew }
{
    let headers = headers_for(alloc, columns)?;
    Table::create(alloc, headers)
}

fn headers_for(
    alloc: Global,
    columns: Vec<ColumnDefinition>,
) -> Result<Vec<Header<Name>>, AllocError>
    ensures { IfOk result (λ headers. headers.items ≡ map header_of columns.items) }
{
    let mut headers = Vec::with_capacity(alloc, columns.len())?;
    for column in columns {
        headers.push(header_for(column))?;
    }
    Ok(headers)
}
