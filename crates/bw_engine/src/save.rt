//! SAVE.

ghost use Rattle.std.specs.Prelude.{◌≡◌, ◌<◌, ◌≤◌, IfOk, false, length, true};
ghost use Rattle.std.specs.List.{AllZip};
ghost use Rattle.bw_file.specs.Format.{AreEndsOf};
ghost use Rattle.bw_file.specs.declared.version.Version.TheVariants.{Second};
ghost use Rattle.bw_model.specs.Filing.{HoldsBy, file_limit, filed, filed_length};
ghost use Rattle.bw_sql.specs.Tree.{statement_of};
ghost use Rattle.bw_sql.specs.declared.tree.Statement.TheVariants as statements;
ghost use Rattle.bw_engine.specs.Files.{SavesOr};
ghost use Rattle.bw_engine.specs.Stores.{store_of, table_in};

use crate::create::COLUMN_LIMIT;
use crate::live_cells::live_columns;
use crate::live_ends::live_ends;
use crate::outcome::Saving;
use crate::table::Table;
use bw_code::Ends;
use bw_file::{encode, length_by_ends, longest_length};
use bw_model::{FILE_LIMIT, Refusal};
use bw_sql::{Name, Save};
use indexmap::IndexMap;
use std::alloc::{AllocError, Global};

/// The bytes of a table, with the file to write them to.
pub(crate) fn save(
    alloc: Global,
    tables: &IndexMap<Name, Table>,
    statement: Save,
) -> Result<Saving, Refusal>
    ensures { SavesOr (store_of tables.now.entries) (statement_of (statements.Save statement)) result (store_of tables.now.entries) }
{
    let Save { table, file } = statement;
    let Some(table) = tables.get(&table) else {
        return Err(Refusal::NoSuchTable);
    };
    if is_too_long(table) {
        return Err(Refusal::FileTooLarge);
    }
    let bytes = spelled(alloc, table)?;
    Ok(Saving {
        file,
        bytes,
        rows: table.row_count() as u64,
    })
}

/// The bytes of a table file.
fn spelled(alloc: Global, table: &Table) -> Result<Vec<u8>, AllocError>
    ensures { IfOk result (λ bytes. HoldsBy Second bytes.items (table_in table.now)) }
{
    // Each row has a value for each column, and there are 1 to 64 columns with distinct names.
    let _wide = table.stored().live();
    let _valid = table.headers();
    let columns = live_columns(alloc, table)?;
    encode(alloc, table.stored().headers(), table.row_count(), &columns)
}

/// Whether the table file is longer than a file may be. Allocates nothing.
fn is_too_long(table: &Table) -> bool
    ensures long { result ≡ true → file_limit < filed_length (table_in table.now) }
    ensures short { result ≡ false → filed_length (table_in table.now) ≤ file_limit }
{
    // Most tables are so small that no file of their shape is too long: no value has to be read.
    if may_be_too_long(table) {
        let mut list = [None; COLUMN_LIMIT];
        let ends = &mut list[..table.headers().len()];
        take_ends(table, ends);
        filed_length(table, ends) > FILE_LIMIT as u64
    } else {
        false
    }
}

/// Whether a file of this many columns and rows can be longer than a file may be.
fn may_be_too_long(table: &Table) -> bool
    ensures { result ≡ false → filed_length (table_in table.now) ≤ file_limit }
{
    // There are at most 64 columns.
    let _few = table.headers();
    longest_length(table.stored().headers(), table.row_count()) > FILE_LIMIT as u64
}

/// The length in bytes of the table file. `ends` are the least and greatest values of each column. Allocates nothing.
fn filed_length(table: &Table, ends: &[Option<Ends>]) -> u64
    requires { AllZip AreEndsOf ends.now (filed (table_in table.now)).columns }
    ensures { result ≡ filed_length (table_in table.now) }
{
    // There are at most 64 columns.
    let _few = table.headers();
    length_by_ends(table.stored().headers(), table.row_count(), ends)
}

/// Writes the least and greatest value of column `k` to `ends[k]`. Allocates nothing.
fn take_ends(table: &Table, ends: &mut [Option<Ends>])
    requires { length ends.old ≡ length table.now.headers }
    ensures { AllZip AreEndsOf ends.new (filed (table_in table.now)).columns }
{
    for k in 0..ends.len() {
        ends[k] = live_ends(table, k);
    }
}
