//! The content of a table file, as tests see it: headers, cells, and the least and the greatest integer of each column.

ghost use Rattle.std.specs.Prelude.{length, ◌+◌, ◌≡◌, ◌≤◌};

use crate::seen::see;
use bw_cells::{Cells, Measured};
use bw_code::{ColumnType, Header, Kind, Layout};
use bw_file::{FileColumn, FileFault, TableFile, decode, encode, file_length};
use bw_sql::Name;
use std::process::Abort;

pub(crate) fn check_no_table<R: Abort + AllocGlobal>(rt: &R, bytes: &[u8]) {
    see(
        rt,
        decode(rt.alloc(), bytes).err(),
        Some(FileFault::NotTable),
    );
}

// Checks that a table is written as these bytes, and the length of them.
pub(crate) fn check_written<R: Abort + AllocGlobal>(rt: &R, table: &TableFile<'_>, bytes: &[u8]) {
    let written = encode(rt.alloc(), table.headers(), table.rows(), table.columns());
    see(rt, written.expect(rt, "bytes").as_slice(), bytes);
    let length = file_length(table.headers(), table.rows(), table.columns());
    see(rt, length, bytes.len() as u64);
}

// The table of this many rows and columns that these bytes encode.
pub(crate) fn table_of<'a, R: Abort + AllocGlobal>(
    rt: &R,
    bytes: &'a [u8],
    rows: usize,
    columns: usize,
) -> TableFile<'a>
    ensures columns { length result.columns ≡ columns }
    ensures rows { result.rows ≡ rows }
{
    let table = decode(rt.alloc(), bytes).expect(rt, "a table");
    assert!(rt; table.rows() == rows && table.columns().len() == columns);
    table
}

// Checks that these are the cells of the column from a row on.
fn see_run<R: Abort>(rt: &R, column: &FileColumn<'_>, at: usize, cells: &[Option<i64>])
    requires { at + length cells.now ≤ length column.now }
{
    assert!(rt; cells.len() <= 16);
    let mut cells_read = [None; 16];
    let run = &mut cells_read[..cells.len()];
    column.read(at, run);
    see(rt, &*run, cells);
}

// Checks that these are the cells of the column, read all at once and in two blocks.
fn check_cells<R: Abort>(rt: &R, column: &FileColumn<'_>, cells: &[Option<i64>]) {
    assert!(rt; column.rows() == cells.len());
    see_run(rt, column, 0, cells);
    let half = cells.len() / 2;
    see_run(rt, column, half, &cells[half..]);
}

// The least and the greatest of the integers, if there are any.
pub(crate) fn ends_of<C: Measured>(cells: &C) -> Option<(i64, i64)> {
    match cells.ends() {
        Some(ends) => Some((ends.least, ends.greatest)),
        None => None,
    }
}

// A column of a table: its name, type, layout, kind, cells, and the least and the greatest of its integers.
#[derive(Clone, Copy)]
pub(crate) struct Column<'a> {
    pub(crate) name: &'a [u8],
    pub(crate) column_type: ColumnType,
    pub(crate) layout: Layout,
    pub(crate) kind: Kind,
    pub(crate) cells: &'a [Option<i64>],
    pub(crate) ends: Option<(i64, i64)>,
}

fn check_column<R: Abort>(
    rt: &R,
    header: &Header<Name>,
    column: &FileColumn<'_>,
    wanted: &Column<'_>,
) {
    see(rt, header.name.as_bytes(), wanted.name);
    see(
        rt,
        (header.column_type, header.layout, header.kind),
        (wanted.column_type, wanted.layout, wanted.kind),
    );
    see(rt, ends_of(column), wanted.ends);
    check_cells(rt, column, wanted.cells);
}

// Checks that these are the headers and the cells of these columns.
fn check_columns<R: Abort>(
    rt: &R,
    headers: &[Header<Name>],
    columns: &[FileColumn<'_>],
    wanted: &[Column<'_>],
) {
    assert!(rt; headers.len() == wanted.len() && columns.len() == wanted.len());
    for i in 0..wanted.len() {
        check_column(rt, &headers[i], &columns[i], &wanted[i]);
    }
}

// Checks that a table has these columns.
pub(crate) fn check_table<R: Abort>(rt: &R, table: TableFile<'_>, wanted: &[Column<'_>]) {
    let (headers, columns) = table.into_headers_and_columns();
    check_columns(rt, &headers, &columns, wanted);
}
