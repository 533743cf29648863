//! Encoding a table as bytes, in version 2.

ghost use Rattle.std.specs.Prelude.{All, IfOk, length, map, ◌≡◌, ◌≤◌};
ghost use Rattle.std.specs.List.{AllZip};
ghost use Rattle.bw_code.specs.Headers.{row_limit, column_limit};
ghost use Rattle.bw_file.specs.Format.{spelled_length, spelling, SpelledBy};
ghost use Rattle.bw_code.specs.Types.{IsTyped};
ghost use Rattle.bw_file.specs.Table.{AreHeaders};
ghost use Rattle.bw_file.specs.declared.version.Version.TheVariants.{Second};

use crate::columns::{put_columns, spans_size, take_ends};
use crate::front::{COLUMN_LIMIT, front};
use crate::headers::{have_names, headers_size, put_headers};
use crate::length::length_by_ends;
use crate::version::Version;
use bw_cells::Measured;
use bw_code::Header;
use bw_sql::Name;
use std::alloc::{AllocError, Global};

/// How many bytes encode the table of these headers and columns, each of `rows` rows. Takes no memory.
pub fn file_length<C: Measured>(headers: &[Header<Name>], rows: usize, columns: &[C]) -> u64
    requires few { length headers.now ≤ column_limit }
    requires some { length columns.now ≤ column_limit }
    requires short { rows ≤ row_limit }
    requires long { All (λ cells. length cells ≡ rows) (map C.cells columns.now) }
    ensures length { result ≡ spelled_length Second (record { headers = headers.now; rows = rows; columns = map C.cells columns.now }) }
    ensures spelling { length (spelling Second (record { headers = headers.now; rows = rows; columns = map C.cells columns.now })) ≡ result }
{
    let mut list = [None; COLUMN_LIMIT];
    let ends = &mut list[..columns.len()];
    take_ends(columns, ends);
    length_by_ends(headers, rows, ends)
}

/// There are at most as many columns as a table may have headers.
fn are_few<C: Measured>(headers: &[Header<Name>], columns: &[C])
    requires few { length headers.now ≤ column_limit }
    requires typed { AllZip IsTyped headers.now (map C.cells columns.now) }
    ensures { length columns.now ≤ column_limit }
{}

/// The bytes that encode the table of these headers and columns, each of `rows` rows.
pub fn encode<C: Measured>(
    alloc: Global,
    headers: &[Header<Name>],
    rows: usize,
    columns: &[C],
) -> Result<Vec<u8>, AllocError>
    requires headers { AreHeaders headers.now }
    requires few { rows ≤ row_limit }
    requires long { All (λ cells. length cells ≡ rows) (map C.cells columns.now) }
    requires typed { AllZip IsTyped headers.now (map C.cells columns.now) }
    ensures { IfOk result (λ bytes. SpelledBy Second bytes.items (record { headers = headers.now; rows = rows; columns = map C.cells columns.now })) }
{
    are_few(headers, columns);
    have_names(headers);
    let length = 14 + headers_size(headers) + spans_size(rows, columns);
    let mut bytes = Vec::with_capacity(alloc, length as usize)?;
    bytes.extend_from_slice(&front(Version::Second, headers.len(), rows))?;
    put_headers(&mut bytes, headers)?;
    put_columns(&mut bytes, rows, columns)?;
    Ok(bytes)
}
