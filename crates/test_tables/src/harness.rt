//! Tables with columns called 0, 1, 2 and so on, changed and read. If memory runs out, the test fails.

ghost use Rattle.std.specs.Prelude.{All, IsTrue, length, ℕ, ◌%◌, ◌<◌, ◌≡◌};
ghost use Rattle.bw_code.specs.Types.{IsNullOrOfType, holds_its_type, types_of};
ghost use Rattle.bw_code.specs.declared.kind.ColumnType.TheVariants.{Integer};
ghost use Rattle.bw_column.specs.Values.{value_at};
ghost use Rattle.bw_mask.specs.Masks.{len};
ghost use Rattle.bw_table.specs.Changes.{MayTake, type_at};

use crate::seen::see;
use bw_code::{ColumnType, Encoding, Header, Kind, Layout};
use bw_mask::Mask;
use bw_table::{Choice, Rows, SetTo, Table, TableFault};
use std::process::Abort;

/// A value or null.
pub(crate) type Cell = Option<i32>;

/// What a column is set to.
#[derive(Clone, Copy)]
pub(crate) enum To {
    Value(Cell),
    Column(usize),
}

/// Adds the header of a column, whose name is its number. Its layout has to hold its type.
#[tactic(auto, using(crate::proofs::Flat::one_header_more))]
fn add_header<R: Abort>(
    rt: &R,
    headers: &mut Vec<Header<usize>>,
    column_type: ColumnType,
    column: (Layout, Kind),
)
    requires { All (λ header. IsTrue (holds_its_type header)) headers.old.items }
    ensures { All (λ header. IsTrue (holds_its_type header)) headers.new.items }
{
    let (layout, kind) = column;
    assert!(rt; layout.holds(column_type));
    let header = Header {
        name: headers.len(),
        column_type,
        layout,
        kind,
    };
    headers.push(header).expect(rt, "memory");
}

/// Headers of columns of one type, in these layouts and of these kinds.
fn headers_of<R: Abort + AllocGlobal>(
    rt: &R,
    column_type: ColumnType,
    columns: &[(Layout, Kind)],
) -> Vec<Header<usize>>
    ensures { All (λ header. IsTrue (holds_its_type header)) result.items }
{
    let mut headers = Vec::new(rt.alloc());
    for column in columns {
        add_header(rt, &mut headers, column_type, *column);
    }
    headers
}

/// A table without slots, with INTEGER columns in these layouts and of these kinds.
pub(crate) fn table_of<R: Abort + AllocGlobal>(rt: &R, columns: &[(Layout, Kind)]) -> Table<usize> {
    let headers = headers_of(rt, ColumnType::Integer, columns);
    Table::create(rt.alloc(), headers).expect(rt, "memory")
}

/// A table without slots, with BIGINT columns.
pub(crate) fn wide_table_of<R: Abort + AllocGlobal>(
    rt: &R,
    columns: &[(Layout, Kind)],
) -> Table<usize> {
    let headers = headers_of(rt, ColumnType::BigInt, columns);
    Table::create(rt.alloc(), headers).expect(rt, "memory")
}

/// A table without slots, with a BIGINT column and an INTEGER column.
pub(crate) fn mixed_table<R: Abort + AllocGlobal>(
    rt: &R,
    first: (Layout, Kind),
    second: (Layout, Kind),
) -> Table<usize> {
    let mut headers = headers_of(rt, ColumnType::BigInt, &[first]);
    add_header(rt, &mut headers, ColumnType::Integer, second);
    Table::create(rt.alloc(), headers).expect(rt, "memory")
}

/// A table made of two columns of three cells.
#[tactic(auto, using(crate::proofs::Flat::two_typed))]
pub(crate) fn opened<R: Abort + AllocGlobal>(
    rt: &R,
    columns: &[(Layout, Kind)],
    first: [Cell; 3],
    second: [Cell; 3],
) -> Table<usize> {
    let headers = headers_of(rt, ColumnType::Integer, columns);
    assert!(rt; headers.len() == 2);
    let (first, second) = (wide_cells(rt, &first), wide_cells(rt, &second));
    assert!(rt; first.len() == 3 && second.len() == 3);
    let cells = [first.as_slice(), second.as_slice()];
    Table::of_columns(rt.alloc(), headers, 3, &cells).expect(rt, "memory")
}

/// The value, widened for a column.
pub(crate) fn wide(cell: Cell) -> Option<i64>
    ensures { IsNullOrOfType Integer result }
{
    match cell {
        Some(x) => Some(x as i64),
        None => None,
    }
}

#[tactic(auto, using(crate::proofs::Flat::one_more))]
fn wide_cells<R: Abort + AllocGlobal>(rt: &R, cells: &[Cell]) -> Vec<Option<i64>>
    ensures { All (IsNullOrOfType Integer) result.items }
{
    let mut wide_cells = Vec::new(rt.alloc());
    for i in 0..cells.len() {
        wide_cells.push(wide(cells[i])).expect(rt, "memory");
    }
    wide_cells
}

/// Inserts the rows in the cells, one after the other.
#[tactic(auto, using(crate::proofs::Flat::are_whole))]
pub(crate) fn insert<R: Abort + AllocGlobal>(rt: &R, table: &mut Table<usize>, cells: &[Cell]) {
    let width = table.headers().len();
    let cells = wide_cells(rt, cells);
    assert!(rt; width > 0);
    assert!(rt; cells.len() / width * width == cells.len());
    let rows = Rows::new(width, &cells);
    assert!(rt; rows.len() == cells.len() / width);
    table.insert(rt.alloc(), &rows).expect(rt, "inserted");
}

fn check_type<R: Abort>(rt: &R, column_type: ColumnType, cell: Option<i64>)
    ensures { IsNullOrOfType column_type cell }
{
    if let Some(x) = cell {
        assert!(rt; column_type.contains(x));
    }
}

/// Checks that the cells of rows are of their columns' types.
fn check_types<R: Abort>(rt: &R, table: &Table<usize>, cells: &[Option<i64>])
    requires { 0 < length table.now.headers }
    ensures { (i : ℕ) → i < length cells.now → IsNullOrOfType (type_at (types_of table.now.headers) (i % length table.now.headers)) (value_at cells.now i) }
{
    let headers = table.headers();
    for i in 0..cells.len() {
        check_type(rt, headers[i % headers.len()].column_type, cells[i]);
    }
}

/// Inserts the rows in the cells, one after the other. They have to be of their columns' types.
#[tactic(auto, using(crate::proofs::Flat::are_whole))]
pub(crate) fn insert_wide<R: Abort + AllocGlobal>(
    rt: &R,
    table: &mut Table<usize>,
    cells: &[Option<i64>],
) {
    let width = table.headers().len();
    assert!(rt; width > 0);
    check_types(rt, table, cells);
    assert!(rt; cells.len() / width * width == cells.len());
    let rows = Rows::new(width, cells);
    assert!(rt; rows.len() == cells.len() / width);
    table.insert(rt.alloc(), &rows).expect(rt, "inserted");
}

fn see_integer(cell: Cell)
    ensures { IsNullOrOfType Integer cell }
{
    match cell {
        Some(_) | None => (),
    }
}

/// Shows that each cell is null or an INTEGER, since 32 bits hold nothing else.
fn see_integers(cells: &[Cell])
    ensures { All (IsNullOrOfType Integer) cells.now }
{
    for cell in cells {
        see_integer(*cell);
    }
}

/// Inserts the rows in the cells, one after the other, in the form of a file's rows.
#[tactic(auto, using(crate::proofs::Flat::are_whole))]
pub(crate) fn load<R: Abort + AllocGlobal>(rt: &R, table: &mut Table<usize>, cells: &[Cell]) {
    let width = table.headers().len();
    see_integers(cells);
    assert!(rt; width > 0);
    assert!(rt; cells.len() / width * width == cells.len());
    let rows = Rows::of_integers(width, cells);
    assert!(rt; rows.len() == cells.len() / width);
    table.insert(rt.alloc(), &rows).expect(rt, "inserted");
}

/// The live slots of a table that are picked by the bits of a word, which is repeated.
pub(crate) fn picked<R: Abort + AllocGlobal>(rt: &R, table: &Table<usize>, word: u64) -> Mask
    ensures { len result ≡ length table.now.slots }
{
    let mut found = Mask::filled(rt.alloc(), table.slot_count(), false).expect(rt, "memory");
    let mut row: usize = 0;
    for i in 0..table.slot_count() {
        if table.live().get(i) {
            found.set(i, word >> (row % 64) & 1 == 1);
            row += 1;
        }
    }
    found
}

/// What column k is set to, as a table takes it.
#[tactic(auto, using(crate::proofs::Flat::integer_taken, crate::proofs::Flat::types_count))]
fn set_to(table: &Table<usize>, k: usize, to: To) -> SetTo
    requires { 0 < length table.now.headers }
    ensures { MayTake (types_of table.now.headers) k result }
{
    match to {
        To::Value(cell) => SetTo::Value(wide(cell)),
        To::Column(from) => SetTo::Column(from % table.headers().len()),
    }
}

/// Sets a column in the picked rows.
pub(crate) fn set_one<R: Abort + AllocGlobal>(
    rt: &R,
    table: &mut Table<usize>,
    word: u64,
    set: (usize, To),
) {
    let columns = table.headers().len();
    assert!(rt; set.0 < columns);
    let found = picked(rt, table, word);
    let sets = [(set.0, set_to(table, set.0, set.1))];
    table
        .update(rt.alloc(), &found, &sets)
        .expect(rt, "updated");
}

/// Checks that copying a column's values to another one in the picked rows is refused.
pub(crate) fn see_refused<R: Abort + AllocGlobal>(
    rt: &R,
    table: &mut Table<usize>,
    word: u64,
    column: usize,
    from: usize,
) {
    assert!(rt; column < table.headers().len());
    let found = picked(rt, table, word);
    let sets = [(column, set_to(table, column, To::Column(from)))];
    let answer = table.update(rt.alloc(), &found, &sets);
    see(rt, answer, Err(TableFault::Range));
}

/// Sets a column to a value of its type in the picked rows.
pub(crate) fn fill<R: Abort + AllocGlobal>(
    rt: &R,
    table: &mut Table<usize>,
    word: u64,
    column: usize,
    value: Option<i64>,
) {
    assert!(rt; column < table.headers().len());
    check_type(rt, table.headers()[column].column_type, value);
    let found = picked(rt, table, word);
    let sets = [(column, SetTo::Value(value))];
    table
        .update(rt.alloc(), &found, &sets)
        .expect(rt, "updated");
}

/// Sets two columns in the picked rows.
pub(crate) fn set_two<R: Abort + AllocGlobal>(
    rt: &R,
    table: &mut Table<usize>,
    word: u64,
    set: (usize, To),
    other: (usize, To),
) {
    let columns = table.headers().len();
    assert!(rt; set.0 < columns);
    assert!(rt; other.0 < columns);
    assert!(rt; set.0 != other.0);
    let found = picked(rt, table, word);
    let sets = [
        (set.0, set_to(table, set.0, set.1)),
        (other.0, set_to(table, other.0, other.1)),
    ];
    table
        .update(rt.alloc(), &found, &sets)
        .expect(rt, "updated");
}

/// Rebuilds a table, with a choice for one column. The layout has to hold the column's type.
#[tactic(auto, using(crate::proofs::Flat::one_chosen))]
pub(crate) fn rebuild<R: Abort + AllocGlobal>(
    rt: &R,
    table: &mut Table<usize>,
    column: usize,
    choice: Choice,
) {
    assert!(rt; column < table.headers().len());
    assert!(rt; choice.layout.holds(table.headers()[column].column_type));
    table
        .rebuild(rt.alloc(), &[(column, choice)])
        .expect(rt, "memory");
}

/// Rebuilds a table without choices.
#[tactic(auto, using(crate::proofs::Flat::none_chosen))]
pub(crate) fn rebuild_as_is<R: Abort + AllocGlobal>(rt: &R, table: &mut Table<usize>) {
    let _held = table.headers();
    table.rebuild(rt.alloc(), &[]).expect(rt, "memory");
}

/// Deletes the picked rows.
pub(crate) fn delete<R: Abort + AllocGlobal>(rt: &R, table: &mut Table<usize>, word: u64) {
    let found = picked(rt, table, word);
    table.delete(&found);
}

/// The rows of a table, one after the other.
pub(crate) fn rows_of<R: Abort + AllocGlobal>(rt: &R, table: &Table<usize>) -> Vec<Option<i64>> {
    let mut cells = Vec::new(rt.alloc());
    for slot in 0..table.slot_count() {
        if table.live().get(slot) {
            for column in 0..table.headers().len() {
                cells.push(table.fetch(slot, column)).expect(rt, "memory");
            }
        }
    }
    cells
}

/// Checks that a table has these rows, one after the other.
pub(crate) fn check_rows<R: Abort + AllocGlobal>(rt: &R, table: &Table<usize>, cells: &[Cell]) {
    let wanted = wide_cells(rt, cells);
    assert!(rt; rows_of(rt, table).as_slice() == wanted.as_slice());
}

/// Checks that a table has these rows at its end, one after the other, and this many slots.
pub(crate) fn check_last<R: Abort + AllocGlobal>(
    rt: &R,
    table: Table<usize>,
    cells: &[Cell],
    slots: usize,
) {
    check_rows(rt, &table, cells);
    assert!(rt; table.slot_count() == slots);
}

/// A number of `width` bits with a sign. Its distance from the least one is made of the upper bits of `distance`.
pub(crate) fn value_at(distance: u64, width: u32) -> i64 {
    let spare = 64_u32.wrapping_sub(width) % 64;
    (i64::MIN >> spare).wrapping_add_unsigned(distance >> spare)
}

/// The base and width of a column of kind OFFSET; `None` if there is no such column.
pub(crate) fn span_of(table: &Table<usize>, column: usize) -> Option<(i64, u32)> {
    if column >= table.headers().len() {
        return None;
    }
    match table.column(column).encoding() {
        Encoding::Offset(offset) => Some((offset.base, offset.width)),
        Encoding::Dictionary(_) => None,
    }
}

/// A column's name, layout and kind, from its header.
pub(crate) fn header_of(table: &Table<usize>, column: usize) -> Option<(usize, Layout, Kind)> {
    match table.headers().get(column) {
        Some(header) => Some((header.name, header.layout, header.kind)),
        None => None,
    }
}
