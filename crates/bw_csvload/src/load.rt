//! The rows of a file, or its first fault.

ghost use Rattle.std.specs.Prelude.{◌≡◌, ◌<◌, ◌+◌, ◌^◌, OnOk, length, map};
ghost use Rattle.std.specs.List.{zip};
ghost use Rattle.csv.specs.Records.{fields_of};
ghost use Rattle.csv.specs.Reading.{strip_bom};
ghost use Rattle.bw_code.specs.declared.kind.ColumnType.TheVariants.{Integer};
ghost use Rattle.bw_csvload.specs.Forms.{cells_in, TakesCells};
ghost use Rattle.bw_csvload.specs.Records.{records_left, IsReading};
ghost use Rattle.bw_csvload.specs.Rows.{all_or_first, cell_at, located, numbered, row_of, rows_of_file, Answers, Appends};

use crate::cells::CellList;
use crate::csv_rows::CsvRows;
use crate::fault::{CsvFault, FieldFault};
use crate::field::{cell, integer_cell};
use crate::records::{read_next, records_of};
use bw_code::ColumnType;
use csv::{ByteRecord, Reader};
use std::alloc::Global;

/// What the first record of a file is.
#[derive(Debug, Clone, Copy, PartialEq, Eq)]
pub enum FirstRecord {
    /// A row like the others.
    Row,
    /// The names of the columns, which are skipped unread. It still counts as record 1.
    Header,
}

/// The rows of the bytes of a CSV file for a table whose columns have these types, or the first fault by record and
/// then by field. The fields of a record belong to the columns in order: an empty field or NULL is `None`, and an
/// integer its value.
pub fn rows(
    alloc: Global,
    bytes: &[u8],
    types: &[ColumnType],
    first: FirstRecord,
) -> Result<CsvRows, CsvFault>
    ensures { Answers (rows_of_file types.now first bytes.now) (λ rows. rows) result }
{
    let mut reader = records_of(alloc, without_mark(bytes));
    if first == FirstRecord::Row {
        return rows_after(alloc, &mut reader, types, 0);
    }
    let mut header = ByteRecord::new(alloc);
    if read_next(&mut reader, &mut header)? {
        rows_after(alloc, &mut reader, types, 1)
    } else {
        Ok(CsvRows::new(types.len(), 0, CellList::new(alloc, types)))
    }
}

/// The rows of the records that the reader has not read yet; this many records come before them.
fn rows_after(
    alloc: Global,
    reader: &mut Reader<&[u8]>,
    types: &[ColumnType],
    before: u64,
) -> Result<CsvRows, CsvFault>
    requires reading { IsReading reader.old }
    requires few { before + length (records_left reader.old) < 2 ^ 64 }
    ensures { Answers (all_or_first (numbered (row_of types.now) (before + 1) (records_left reader.old))) (λ rows. rows) result }
{
    let mut fields = ByteRecord::new(alloc);
    let mut cells = CellList::new(alloc, types);
    let mut count = 0;
    'records: while read_next(reader, &mut fields)? {
        push_row(&mut cells, types, before + count + 1, &fields)?;
        count += 1;
    }
    Ok(CsvRows::new(types.len(), count as usize, cells))
}

#[tactic(auto, unfolding(csv::specs::Reading::strip_bom))]
/// The text without its leading byte order mark, if there is one.
fn without_mark(text: &[u8]) -> &[u8]
    ensures { result.now ≡ strip_bom text.now }
{
    match text {
        [0xEF, 0xBB, 0xBF, rest @ ..] => rest,
        _ => text,
    }
}

/// Appends the cells of a record.
fn push_row(
    cells: &mut CellList,
    types: &[ColumnType],
    number: u64,
    fields: &ByteRecord,
) -> Result<(), CsvFault>
    requires { TakesCells types.now cells.old }
    ensures row { Appends (row_of types.now number (fields_of fields.now)) (cells_in cells.old) (cells_in cells.new) result }
    ensures wide { OnOk result (length (cells_in cells.new) ≡ length (cells_in cells.old) + length types.now) }
    ensures form { TakesCells types.now cells.new }
{
    if fields.len() != types.len() {
        return Err(CsvFault::Fields(number));
    }
    match cells {
        CellList::Integers(cells) => push_integers(cells, number, fields),
        CellList::Values(cells) => push_values(cells, types, number, fields),
    }
}

/// Appends the cells of a record whose fields all belong to INTEGER columns.
fn push_integers(
    cells: &mut Vec<Option<i32>>,
    number: u64,
    fields: &ByteRecord,
) -> Result<(), CsvFault>
    ensures row { Appends (all_or_first (numbered (cell_at number) 1 (map (λ text. (Integer, text)) (fields_of fields.now)))) cells.old.items cells.new.items result }
    ensures wide { OnOk result (length cells.new.items ≡ length cells.old.items + length (fields_of fields.now)) }
{
    'places: for i in 0..fields.len() {
        let Some(text) = fields.get(i) else {
            unreachable!();
        };
        cells.push(located(number, i as u64 + 1, integer_cell(text))?)?;
    }
    Ok(())
}

/// Appends the cells of a record that has a field for each of these types.
fn push_values(
    cells: &mut Vec<Option<i64>>,
    types: &[ColumnType],
    number: u64,
    fields: &ByteRecord,
) -> Result<(), CsvFault>
    requires { length (fields_of fields.now) ≡ length types.now }
    ensures row { Appends (all_or_first (numbered (cell_at number) 1 (zip types.now (fields_of fields.now)))) cells.old.items cells.new.items result }
    ensures wide { OnOk result (length cells.new.items ≡ length cells.old.items + length types.now) }
{
    'places: for i in 0..types.len() {
        let Some(text) = fields.get(i) else {
            unreachable!();
        };
        cells.push(located(number, i as u64 + 1, cell(text, types[i]))?)?;
    }
    Ok(())
}

/// The value of this field of a record, or its fault with its position.
fn located<T: Drop>(number: u64, place: u64, said: Result<T, FieldFault>) -> Result<T, CsvFault>
    ensures { result ≡ located number place said }
{
    match said {
        Ok(cell) => Ok(cell),
        Err(FieldFault::NotInteger) => Err(CsvFault::NotInteger(number, place)),
        Err(FieldFault::Range) => Err(CsvFault::Range),
    }
}
