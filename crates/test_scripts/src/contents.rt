//! The content of a statement's file, for the plain program.

use bw_cells::Cells;
use bw_csvload::{Cells as CsvCells, CsvRows, FirstRecord as CsvFirst, rows};
use bw_engine::FILE_LIMIT;
use bw_file::{FileColumn, FileFault, TableFile, decode};
use bw_model::{Content, Row, RowList, Store, Table};
use bw_shell::{Folder, FolderFault, MemoryFolder};
use bw_sql::{FirstRecord, Load, Statement, Value};
use std::process::Abort;

/// The content of a statement's file: for a LOAD its rows, read for the table's columns, or its first fault; for an
/// OPEN the table that it holds, if any.
pub(crate) fn content_for<R: Abort + AllocGlobal>(
    rt: &R,
    folder: &mut MemoryFolder,
    store: &Store,
    statement: &Statement,
) -> Content {
    match statement {
        Statement::Load(request) => match store.table(&request.table) {
            Some(table) => lines_for(rt, folder, request, table),
            None => Content::Nothing,
        },
        Statement::Open(request) => match bytes_of(rt, folder, request.file.as_str()) {
            Ok(bytes) => table_of(rt, &bytes),
            Err(said) => said,
        },
        _ => Content::Nothing,
    }
}

/// The bytes of a file, or its content if it couldn't be read.
fn bytes_of<R: Abort>(rt: &R, folder: &mut MemoryFolder, name: &str) -> Result<Vec<u8>, Content> {
    match folder.read(name, FILE_LIMIT) {
        Ok(bytes) => Ok(bytes),
        Err(FolderFault::Missing) => Err(Content::Missing),
        Err(FolderFault::TooLarge) => Err(Content::TooLarge),
        Err(FolderFault::Failed | FolderFault::Memory) => panic!(rt; "a folder that fails"),
    }
}

/// The content of a CSV file for a LOAD into this table.
fn lines_for<R: Abort + AllocGlobal>(
    rt: &R,
    folder: &mut MemoryFolder,
    request: &Load,
    table: &Table,
) -> Content {
    let mut types = Vec::new(rt.alloc());
    for header in table.headers() {
        types.push(header.column_type).expect(rt, "memory");
    }
    let first = match request.first {
        FirstRecord::Row => CsvFirst::Row,
        FirstRecord::Header => CsvFirst::Header,
    };
    match bytes_of(rt, folder, request.file.as_str()) {
        Ok(bytes) => match rows(rt.alloc(), &bytes, &types, first) {
            Ok(rows) => Content::Lines(row_list(rt, &rows)),
            Err(fault) => Content::Fault(fault),
        },
        Err(said) => said,
    }
}

fn row_list<R: Abort + AllocGlobal>(rt: &R, rows: &CsvRows) -> RowList {
    let mut list = Vec::new(rt.alloc());
    for i in 0..rows.len() {
        list.push(row_of(rt, rows.row(i))).expect(rt, "memory");
    }
    RowList::new(list)
}

fn row_of<R: Abort + AllocGlobal>(rt: &R, cells: CsvCells<'_>) -> Row {
    let mut values = Vec::new(rt.alloc());
    match cells {
        CsvCells::Integers(cells) => {
            for cell in cells {
                values.push(cell.map(i64::from)).expect(rt, "memory");
            }
        }
        CsvCells::Values(cells) => {
            for cell in cells {
                values.push(*cell).expect(rt, "memory");
            }
        }
    }
    Row::new(values)
}

/// The content of a table file for an OPEN.
fn table_of<R: Abort + AllocGlobal>(rt: &R, bytes: &[u8]) -> Content {
    match decode(rt.alloc(), bytes) {
        Ok(file) => Content::Held(table_in(rt, file)),
        Err(FileFault::NotTable) => Content::NotTable,
        Err(FileFault::Memory) => panic!(rt; "memory"),
    }
}

fn table_in<R: Abort + AllocGlobal>(rt: &R, file: TableFile<'_>) -> Table {
    let mut rows = Vec::new(rt.alloc());
    for i in 0..file.rows() {
        rows.push(row_at(rt, file.columns(), i))
            .expect(rt, "memory");
    }
    let (headers, _) = file.into_headers_and_columns();
    assert!(rt; !headers.is_empty());
    Table::of_rows(headers, rows)
}

/// The row of the cells at one index of each column.
fn row_at<R: Abort + AllocGlobal>(rt: &R, columns: &[FileColumn<'_>], place: usize) -> Row {
    let mut values: Vec<Value> = Vec::new(rt.alloc());
    for column in columns {
        assert!(rt; place < column.len());
        let mut cell = [None];
        column.read(place, &mut cell);
        values.push(cell[0]).expect(rt, "memory");
    }
    Row::new(values)
}
