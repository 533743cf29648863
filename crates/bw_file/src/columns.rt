//! The columns of a table file, one after another.

ghost use Rattle.std.specs.Prelude.{All, IfOk, IfSome, List, None, OnOk, Option, length, map, take, true, vec_len, ◌*◌, ◌++◌, ◌≡◌, ◌≤◌, ℕ, ℤ};
ghost use Rattle.std.specs.List.{flat_map, AllZip};
ghost use Rattle.bw_cells.specs.Known.{known};
ghost use Rattle.bw_code.specs.Encodings.{IsWithin};
ghost use Rattle.bw_code.specs.Headers.{column_limit, row_limit};
ghost use Rattle.bw_file.specs.Format.{column_bytes, AreEndsOf, HasType};
ghost use Rattle.bw_file.specs.Planes.{column_size as plane_column_size, frame_of, IsWideCell};
ghost use Rattle.bw_code.specs.Types.{IsTyped};
ghost use Rattle.bw_code.specs.Widths.{widest_code};
ghost use Rattle.bw_file.specs.declared.version.Version.TheVariants.{Second};

use crate::column::FileColumn;
use crate::planes::write_column;
use crate::version::Version;
use bw_cells::Measured;
use bw_code::{Ends, Header, Offset};
use bw_sql::Name;
use std::alloc::{AllocError, Global};

/// One column of `rows` rows for each header, one after another at the start of the bytes, and the bytes after them;
/// `None` if there are none.
pub(crate) fn columns_in<'a>(
    alloc: Global,
    version: Version,
    bytes: &'a [u8],
    headers: &[Header<Name>],
    rows: usize,
) -> Result<Option<(Vec<FileColumn<'a>>, &'a [u8])>, AllocError>
    requires few { rows ≤ row_limit }
    requires types { All (HasType version) headers.now }
    ensures long { IfOk result (λ found. IfSome found (λ f. All (λ cells. length cells ≡ rows) f.0.items)) }
    ensures typed { IfOk result (λ found. IfSome found (λ f. AllZip IsTyped headers.now f.0.items)) }
    ensures spelled { IfOk result (λ found. IfSome found (λ f. bytes.entry.now ≡ flat_map (column_bytes version) f.0.items ++ f.1.now)) }
    ensures none { IfOk result (λ found. found ≡ None → (columns : List (List (Option ℤ))) (tail : List ℕ) → All (λ cells. length cells ≡ rows) columns → AllZip IsTyped headers.now columns
        → bytes.entry.now ≡ flat_map (column_bytes version) columns ++ tail → ⊥) }
{
    let mut columns = Vec::with_capacity(alloc, headers.len())?;
    let mut rest = bytes;
    'columns: for i in 0..headers.len() {
        let found = FileColumn::first_in(version, rest, rows, headers[i].column_type);
        let Some((column, after)) = found else {
            return Ok(None);
        };
        columns.push(column)?;
        rest = after;
    }
    Ok(Some((columns, rest)))
}

/// How many bytes the planes take for this width and number of rows, together with what precedes them in a column.
pub(crate) fn planes_size(width: u32, rows: usize) -> u64
    requires narrow { width ≤ widest_code }
    requires few { rows ≤ row_limit }
    ensures value { result ≡ plane_column_size width rows }
    ensures short { result ≤ 136314889 }
{
    9 + (u64::from(width) + 1) * rows.div_ceil(8) as u64
}

/// Writes the ends of each column's integers to `ends` at the same index. Takes no memory.
pub(crate) fn take_ends<C: Measured>(columns: &[C], ends: &mut [Option<Ends>])
    requires { length ends.old ≡ length columns.now }
    ensures len { length ends.new ≡ length columns.now }
    ensures ends { AllZip AreEndsOf ends.new (map C.cells columns.now) }
{
    'columns: for i in 0..columns.len() {
        ends[i] = columns[i].ends();
    }
}

/// How many bytes columns of `rows` rows take at most, told without reading cells where a type knows a span of them.
pub(crate) fn spans_size<C: Measured>(rows: usize, columns: &[C]) -> u64
    requires few { rows ≤ row_limit }
    requires some { length columns.now ≤ column_limit }
    ensures { result ≤ 136314889 * length columns.now }
{
    let mut size = 0;
    'columns: for i in 0..columns.len() {
        size += planes_size(columns[i].span().width, rows);
    }
    size
}

/// Appends the bytes of columns of `rows` rows, in version 2.
pub(crate) fn put_columns<C: Measured>(
    bytes: &mut Vec<u8>,
    rows: usize,
    columns: &[C],
) -> Result<(), AllocError>
    requires few { rows ≤ row_limit }
    requires long { All (λ cells. length cells ≡ rows) (map C.cells columns.now) }
    requires wide { All (All IsWideCell) (map C.cells columns.now) }
    ensures { OnOk result (bytes.new.items ≡ bytes.old.items ++ flat_map (column_bytes Second) (map C.cells columns.now)) }
{
    'columns: for i in 0..columns.len() {
        put_column(bytes, rows, &columns[i])?;
    }
    Ok(())
}

/// Appends the bytes of a column of `rows` rows, in version 2.
fn put_column<C: Measured>(bytes: &mut Vec<u8>, rows: usize, column: &C) -> Result<(), AllocError>
    requires few { rows ≤ row_limit }
    requires long { length (C.cells column.now) ≡ rows }
    requires wide { All IsWideCell (C.cells column.now) }
    ensures { OnOk result (bytes.new.items ≡ bytes.old.items ++ column_bytes Second (C.cells column.now)) }
{
    let start = bytes.len();
    // Most columns are encoded as tightly as a file is: a pass over the cells to find their ends would be for nothing.
    if put_codes(bytes, rows, column, column.span())? {
        return Ok(());
    }
    bytes.truncate(start);
    put_codes(bytes, rows, column, Offset::spanning(column.ends()))?;
    Ok(())
}

/// Appends a column of `rows` rows whose codes are by an offset encoding in which each of its integers has one. Returns
/// whether its base and width are seen to be those of the file. Where they are not, these are not the column's bytes.
fn put_codes<C: Measured>(
    bytes: &mut Vec<u8>,
    rows: usize,
    column: &C,
    offset: Offset,
) -> Result<bool, AllocError>
    requires few { rows ≤ row_limit }
    requires long { length (C.cells column.now) ≡ rows }
    requires wide { All IsWideCell (C.cells column.now) }
    requires within { All (IsWithin offset) (known (C.cells column.now)) }
    ensures kept { OnOk result (take (vec_len bytes.old) bytes.new.items ≡ bytes.old.items) }
    ensures seen { IfOk result (λ seen. seen ≡ true → bytes.new.items ≡ bytes.old.items ++ column_bytes Second (C.cells column.now)) }
    ensures framed { offset.base ≡ (frame_of (known (C.cells column.now))).base → offset.width ≡ (frame_of (known (C.cells column.now))).width → OnOk result (bytes.new.items ≡ bytes.old.items ++ column_bytes Second (C.cells column.now)) }
{
    let start = bytes.len();
    bytes.resize(start + planes_size(offset.width, rows) as usize, 0)?;
    Ok(write_column(&mut bytes[start..], rows, offset, column))
}
