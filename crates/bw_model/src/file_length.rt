//! The length of a table's file.

ghost use Rattle.std.specs.Prelude.{◌≡◌, ◌≤◌, ◌+◌, ◌*◌, ◌^◌, IfOk, length, nat_lt};
ghost use Rattle.std.specs.List.{sum_by};
ghost use Rattle.bw_file.specs.Format.{column_size};
ghost use Rattle.bw_file.specs.Headers.{header_size};
ghost use Rattle.bw_file.specs.declared.version.Version.TheVariants.{Second};
ghost use Rattle.bw_model.specs.Filing.{column_of, file_limit, filed_length};

use crate::store::{Row, Table, value_at};
use bw_cells::Measured;
use bw_code::{Header, Offset};
use bw_sql::{Name, Value};
use std::alloc::{AllocError, Global};

/// The greatest length in bytes of a file that is read or written.
pub const FILE_LIMIT: usize = 268_435_456;

/// Whether the file of a table is longer than a file may be.
pub(crate) fn is_too_long(alloc: Global, table: &Table) -> Result<bool, AllocError>
    ensures { IfOk result (λ long. long ≡ nat_lt file_limit (filed_length table.now)) }
{
    let headers = table.headers();
    let rows = table.rows();
    // A column has a bit for each row, and there is at least one column.
    if rows.len() > 8 * FILE_LIMIT {
        return Ok(true);
    }
    let mut length = 14 + headers_size(headers);
    for k in 0..headers.len() {
        length += column_size(alloc, rows, k)?;
    }
    Ok(length > FILE_LIMIT as u128)
}

/// How many bytes the headers take.
fn headers_size(headers: &[Header<Name>]) -> u128
    ensures size { result ≡ sum_by (header_size Second) headers.now }
    ensures bound { result ≤ length headers.now * (2 ^ 64 + 4) }
{
    match headers {
        [] => 0,
        [first, rest @ ..] => 4 + first.name.as_bytes().len() as u128 + headers_size(rest),
    }
}

/// How many bytes a column takes.
fn column_size(alloc: Global, rows: &[Row], k: usize) -> Result<u128, AllocError>
    requires { length rows.now ≤ 2 ^ 31 }
    ensures size { IfOk result (λ size. size ≡ column_size Second (column_of rows.now k)) }
    ensures bound { IfOk result (λ size. size ≤ 2 ^ 36) }
{
    let cells = column_of(alloc, rows, k)?;
    let width = Offset::spanning(cells.as_slice().ends()).width;
    Ok(9 + (width as u128 + 1) * (rows.len() as u128).div_ceil(8))
}

/// The values of a column, in the order of the rows.
fn column_of(alloc: Global, rows: &[Row], k: usize) -> Result<Vec<Value>, AllocError>
    ensures { IfOk result (λ cells. cells.items ≡ column_of rows.now k) }
{
    rows.iter()
        .map(|row| value_at(row.values(), k))
        .collect(alloc)
}
