//! LOAD.

ghost use Rattle.std.specs.Prelude.{◌≡◌, ◌+◌, ◌∷◌, [], All, Err, OnErr, OnOk, length, nat_lt};
ghost use Rattle.bw_code.specs.Types.{IsRowOf, types_of};
ghost use Rattle.bw_csvload.specs.Forms.{cells_of};
ghost use Rattle.bw_table.specs.Rows.{AreWholeRows, rows_from};
ghost use Rattle.bw_model.specs.Contents.{first_of, lines_in};
ghost use Rattle.bw_model.specs.Refusals.{load_tests};
ghost use Rattle.bw_model.specs.Step.{with_lines};
ghost use Rattle.bw_model.specs.Store.{row_limit};
ghost use Rattle.bw_model.specs.declared.content.Content.TheVariants.{Lines};
ghost use Rattle.bw_model.specs.declared.refusal.Refusal.TheVariants.{OutOfMemory, TableFull};
ghost use Rattle.bw_model.specs.declared.reply.Reply.TheVariants.{Count};
ghost use Rattle.bw_sql.specs.Tree.{statement_of};
ghost use Rattle.bw_sql.specs.declared.tree.Statement.TheVariants as statements;
ghost use Rattle.bw_engine.specs.Files.{AnswersFile, CarriesFile, IsAnswered, SaysLines, Within, lines_tests};
ghost use Rattle.bw_engine.specs.StoredChanges.{ChangesStored, Grows};
ghost use Rattle.bw_engine.specs.Stores.{rows_in, store_of, table_in};

use crate::create::COLUMN_LIMIT;
use crate::file_answer::{FileAnswer, bytes_of};
use crate::table::Table;
use bw_code::ColumnType;
use bw_csvload::{Cells, CsvRows, FirstRecord as CsvFirst, rows};
use bw_model::{Refusal, Reply};
use bw_plan::Headers;
use bw_sql::{FirstRecord, Load, Name};
use bw_table::Rows;
use indexmap::IndexMap;
use std::alloc::Global;

/// Appends the rows of a CSV file to a table: all of them, or none if one is refused.
pub(crate) fn load(
    alloc: Global,
    tables: &mut IndexMap<Name, Table>,
    statement: Load,
    file: FileAnswer<'_>,
) -> Result<Reply, Refusal>
    ensures reply { CarriesFile (store_of tables.old.entries) (statement_of (statements.Load statement)) file.entry result (store_of tables.new.entries) }
    ensures stored { OnOk result (ChangesStored tables.old.entries (statement_of (statements.Load statement)) tables.new.entries) }
    ensures refused { OnErr result (tables.new.entries ≡ tables.old.entries) }
{
    let Load {
        table,
        file: _,
        first,
    } = statement;
    match tables.get_mut(&table) {
        Some(table) => load_file(alloc, table, first, file),
        None => Err(Refusal::NoSuchTable),
    }
}

/// Appends the rows of a CSV file to this table. Every refusal happens before the table changes.
fn load_file(
    alloc: Global,
    table: &mut Table,
    first: FirstRecord,
    file: FileAnswer<'_>,
) -> Result<Reply, Refusal>
    ensures reply { IsAnswered file.entry (Within (SaysLines (types_of table.old.headers) first))
        (λ said. AnswersFile (load_tests said (table_in table.old)) result (λ reply. (reply ≡ Count (length (lines_in said))) × (table_in table.new ≡ with_lines (lines_in said) (table_in table.old))))
        (result ≡ Err OutOfMemory) }
    ensures stored { OnOk result (Grows table.old table.new) }
    ensures refused { OnErr result (table.new ≡ table.old) }
{
    let mut list = [ColumnType::Integer; COLUMN_LIMIT];
    let types = &mut list[..table.headers().len()];
    take_types(&table.headers(), types);
    let rows = rows_in_file(alloc, file, types, first)?;
    load_rows(alloc, table, rows)
}

/// Writes the type of column `i` to `types[i]`.
fn take_types(headers: &Headers<'_>, types: &mut [ColumnType])
    requires { length types.old ≡ length headers.now }
    ensures { types.new ≡ types_of headers.now }
{
    for k in 0..types.len() {
        types[k] = headers.column_type(k);
    }
}

/// The rows of a CSV file, read for columns of these types.
fn rows_in_file(
    alloc: Global,
    file: FileAnswer<'_>,
    types: &[ColumnType],
    first: FirstRecord,
) -> Result<CsvRows, Refusal>
    ensures { IsAnswered file.entry (Within (SaysLines types.now first)) (λ said. AnswersFile (lines_tests said) result (λ rows. said ≡ Lines rows)) (result ≡ Err OutOfMemory) }
{
    let bytes = bytes_of(file)?;
    Ok(rows(alloc, bytes, types, first_of(first))?)
}

/// The option of the CSV reader for whether the first record is a row.
fn first_of(first: FirstRecord) -> CsvFirst
    ensures { result ≡ first_of first }
{
    match first {
        FirstRecord::Row => CsvFirst::Row,
        FirstRecord::Header => CsvFirst::Header,
    }
}

/// Appends rows to this table if there is room for them.
fn load_rows(alloc: Global, table: &mut Table, rows: CsvRows) -> Result<Reply, Refusal>
    requires { All (IsRowOf (types_of table.old.headers)) rows }
    ensures reply { AnswersFile ((TableFull, nat_lt row_limit (length (rows_in table.old.slots) + length rows)) ∷ []) result (λ reply. (reply ≡ Count (length rows)) × (table_in table.new ≡ with_lines rows (table_in table.old))) }
    ensures stored { OnOk result (Grows table.old table.new) }
    ensures refused { OnErr result (table.new ≡ table.old) }
{
    let count = rows.len();
    if count > table.room() {
        return Err(Refusal::TableFull);
    }
    let width = table.headers().len();
    table.insert(alloc, &rows_in(width, rows.cells()))?;
    Ok(Reply::Count(count as u64))
}

/// These cells as rows of this width.
fn rows_in(width: usize, cells: Cells<'_>) -> Rows<'_>
    requires { AreWholeRows width (cells_of cells) }
    ensures { result ≡ rows_from width (cells_of cells.entry) }
{
    match cells {
        Cells::Integers(cells) => Rows::of_integers(width, cells),
        Cells::Values(cells) => Rows::new(width, cells),
    }
}
