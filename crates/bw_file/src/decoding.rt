//! Decoding bytes to the table that they encode.

ghost use Rattle.std.specs.Prelude.{Err, IfOk, length, ◌*◌, ◌≡◌, ◌≤◌};
ghost use Rattle.bw_code.specs.Headers.{column_limit, row_limit};
ghost use Rattle.bw_file.specs.Format.{least_column_size, spelling, Spells};
ghost use Rattle.bw_file.specs.Table.{IsTable, Table};
ghost use Rattle.bw_file.specs.declared.fault.FileFault.TheVariants.{NotTable};

use crate::columns::columns_in;
use crate::fault::FileFault;
use crate::front::{FileFront, read_front};
use crate::headers::{has_name_twice, read_headers};
use crate::table::TableFile;
use crate::version::Version;
use std::alloc::Global;

/// The least number of bytes of a column of `rows` rows.
fn least_column_size(version: Version, rows: usize) -> usize
    requires { rows ≤ row_limit }
    ensures { result ≡ least_column_size version rows }
{
    match version {
        Version::First => rows.div_ceil(8) + 4 * rows,
        Version::Second => 9 + 2 * rows.div_ceil(8),
    }
}

/// A lower bound on the number of bytes of any table with these numbers of columns and rows, whatever the names and the
/// values: a name has at least one byte, and codes have at least one bit.
fn least_size(front: FileFront) -> usize
    requires columns { front.columns ≤ column_limit }
    requires rows { front.rows ≤ row_limit }
    ensures { (t : Table) → IsTable t → length t.headers ≡ front.columns → t.rows ≡ front.rows → result ≤ length (spelling front.version t) }
{
    14 + front.columns * (4 + least_column_size(front.version, front.rows))
}

/// The table that the bytes encode, lent from them. Returns `NotTable` if they encode none, and `Memory` if there is
/// not enough memory for the headers and the list of columns. Before taking memory, the number of bytes is compared
/// with the least that a table of so many columns and rows has.
pub fn decode<'a>(alloc: Global, bytes: &'a [u8]) -> Result<TableFile<'a>, FileFault>
    ensures found { IfOk result (λ table. Spells bytes.entry.now table) }
    ensures none { result ≡ Err NotTable → (t : Table) → Spells bytes.entry.now t → ⊥ }
{
    let Some(front) = read_front(bytes) else {
        return Err(FileFault::NotTable);
    };
    if bytes.len() < least_size(front) {
        return Err(FileFault::NotTable);
    }
    let found = read_headers(alloc, front.version, &bytes[14..], front.columns)?;
    let Some((headers, rest)) = found else {
        return Err(FileFault::NotTable);
    };
    if has_name_twice(&headers) {
        return Err(FileFault::NotTable);
    }
    let found = columns_in(alloc, front.version, rest, &headers, front.rows)?;
    let Some((columns, behind)) = found else {
        return Err(FileFault::NotTable);
    };
    if !behind.is_empty() {
        return Err(FileFault::NotTable);
    }
    Ok(TableFile::new(headers, front.rows, columns))
}
