//! OPEN.

ghost use Rattle.std.specs.Prelude.{◌≡◌, Err, IfOk, OnErr, OnOk};
ghost use Rattle.bw_model.specs.Contents.{IsTableIn};
ghost use Rattle.bw_model.specs.declared.content.Content.TheVariants.{Held};
ghost use Rattle.bw_model.specs.declared.refusal.Refusal.TheVariants.{OutOfMemory};
ghost use Rattle.bw_sql.specs.Tree.{statement_of};
ghost use Rattle.bw_sql.specs.declared.tree.Statement.TheVariants as statements;
ghost use Rattle.bw_engine.specs.Files.{AnswersFile, CarriesFile, IsAnswered, Within, table_tests, unfiled};
ghost use Rattle.bw_engine.specs.StoredChanges.{ChangesStored, IsNew};
ghost use Rattle.bw_engine.specs.Stores.{store_of, table_in};

use crate::create::TABLE_LIMIT;
use crate::file_answer::{FileAnswer, bytes_of};
use crate::table::Table;
use bw_file::{FileFault, TableFile, decode};
use bw_model::{Refusal, Reply};
use bw_sql::{Name, Open};
use indexmap::IndexMap;
use std::alloc::{AllocError, Global};

/// Adds the table of a table file after the existing ones.
pub(crate) fn open_table(
    alloc: Global,
    tables: &mut IndexMap<Name, Table>,
    statement: Open,
    file: FileAnswer<'_>,
) -> Result<Reply, Refusal>
    ensures reply { CarriesFile (store_of tables.old.entries) (statement_of (statements.Open statement)) file.entry result (store_of tables.new.entries) }
    ensures stored { OnOk result (ChangesStored tables.old.entries (statement_of (statements.Open statement)) tables.new.entries) }
    ensures refused { OnErr result (tables.new.entries ≡ tables.old.entries) }
{
    let Open { table, file: _ } = statement;
    if tables.contains_key(&table) {
        return Err(Refusal::TableExists);
    }
    if tables.len() >= TABLE_LIMIT {
        return Err(Refusal::OverLimit);
    }
    let parts = table_in_file(alloc, file)?;
    let new = opened(alloc, parts)?;
    let count = new.row_count();
    tables.insert(table, new)?;
    Ok(Reply::Count(count as u64))
}

/// The table of a table file, as columns.
fn table_in_file<'a>(alloc: Global, file: FileAnswer<'a>) -> Result<TableFile<'a>, Refusal>
    ensures { IsAnswered file.entry (Within IsTableIn) (λ said. AnswersFile (table_tests said) result (λ parts. said ≡ Held (unfiled parts))) (result ≡ Err OutOfMemory) }
{
    let bytes = bytes_of(file)?;
    match decode(alloc, bytes) {
        Ok(parts) => Ok(parts),
        Err(FileFault::NotTable) => Err(Refusal::NotTableFile),
        Err(FileFault::Memory) => Err(Refusal::OutOfMemory),
    }
}

/// Builds the table of these columns.
fn opened(alloc: Global, parts: TableFile<'_>) -> Result<Table, AllocError>
    ensures table { IfOk result (λ table. table_in table ≡ unfiled parts.entry) }
    ensures is_new { IfOk result IsNew }
{
    let rows = parts.rows();
    let (headers, columns) = parts.into_headers_and_columns();
    Table::of_columns(alloc, headers, rows, &columns)
}
