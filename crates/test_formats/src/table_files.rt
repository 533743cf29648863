//! Tables as the bytes of table files, version 2: examples byte by byte, and bytes that encode no table.

ghost use Rattle.std.specs.Prelude.{All, IsTrue, List, Option, [], length, ℤ, ◌<◌, ◌≡◌, ◌∷◌};
ghost use Rattle.std.specs.List.{AllZip};
ghost use Rattle.bw_code.specs.Types.{holds, IsNullOrOfType, IsTyped};
ghost use Rattle.bw_file.specs.Table.{AreHeaders};

use crate::files_seen::{Column, check_no_table, check_table, check_written, ends_of, table_of};
use crate::seen::{see, see_at};
use bw_cells::Cells;
use bw_code::{ColumnType, Header, Kind, Layout};
use bw_file::{FileColumn, FileFault, decode, encode, file_length};
use bw_sql::{Name, is_name};
use std::process::Abort;

// One column A, an INTEGER in layout V, OFFSET, of three rows: 3, NULL, -1. The codes, with base -1, are 4 and 0.
pub(crate) const EXAMPLE: [u8; 32] = [
    0x42, 0x49, 0x54, 0x43, 0x4f, 0x4c, 0x02, 0x00, 0x01, 0x00, 0x03, 0x00, 0x00, 0x00, 0x01, 0x41,
    0x00, 0x01, 0x00, 0x05, 0xff, 0xff, 0xff, 0xff, 0xff, 0xff, 0xff, 0xff, 0x03, 0x01, 0x00, 0x00,
];

pub(crate) const EXAMPLE_COLUMN: Column<'static> = Column {
    name: b"A",
    column_type: ColumnType::Integer,
    layout: Layout::V,
    kind: Kind::Offset,
    cells: &[Some(3), None, Some(-1)],
    ends: Some((-1, 3)),
};

// Two columns of nine rows, INTEGERs: C1 in layout P, DICTIONARY: 1, NULL, 3, NULL, 5, NULL, 7, NULL, 9; X_ in layout H, OFFSET:
// the least number, seven nulls, the greatest.
pub(crate) const NINE_ROWS: [u8; 120] = [
    0x42, 0x49, 0x54, 0x43, 0x4f, 0x4c, 0x02, 0x00, 0x02, 0x00, 0x09, 0x00, 0x00, 0x00, // front
    0x02, 0x43, 0x31, 0x00, 0x00, 0x01, // C1
    0x02, 0x58, 0x5f, 0x00, 0x02, 0x00, // X_
    0x55, 0x01, // rows 0, 2, 4, 6 and 8
    0x01, 0x00, 0x00, 0x00, 0x00, 0x00, 0x00, 0x00, 0x04, // four bits above 1
    0x00, 0x01, // 8 is in row 8
    0x50, 0x00, // 4 is in rows 4 and 6
    0x44, 0x00, // 2 is in rows 2 and 6
    0x00, 0x00, // and that is C1
    0x01, 0x01, // rows 0 and 8
    0x00, 0x00, 0x00, 0x80, 0xff, 0xff, 0xff, 0xff, 0x20, // 32 bits above the least, all of them in row 8
    0x00, 0x01, 0x00, 0x01, 0x00, 0x01, 0x00, 0x01, 0x00, 0x01, 0x00, 0x01, 0x00, 0x01, 0x00, 0x01,
    0x00, 0x01, 0x00, 0x01, 0x00, 0x01, 0x00, 0x01, 0x00, 0x01, 0x00, 0x01, 0x00, 0x01, 0x00, 0x01,
    0x00, 0x01, 0x00, 0x01, 0x00, 0x01, 0x00, 0x01, 0x00, 0x01, 0x00, 0x01, 0x00, 0x01, 0x00, 0x01,
    0x00, 0x01, 0x00, 0x01, 0x00, 0x01, 0x00, 0x01, 0x00, 0x01, 0x00, 0x01, 0x00, 0x01, 0x00, 0x01,
];

// The columns of the nine rows.
pub(crate) const NINE_ROWS_COLUMNS: [Column<'static>; 2] = [
    Column {
        name: b"C1",
        column_type: ColumnType::Integer,
        layout: Layout::P,
        kind: Kind::Dictionary,
        cells: &[
            Some(1),
            None,
            Some(3),
            None,
            Some(5),
            None,
            Some(7),
            None,
            Some(9),
        ],
        ends: Some((1, 9)),
    },
    Column {
        name: b"X_",
        column_type: ColumnType::Integer,
        layout: Layout::H,
        kind: Kind::Offset,
        cells: &[
            Some(-2_147_483_648),
            None,
            None,
            None,
            None,
            None,
            None,
            None,
            Some(2_147_483_647),
        ],
        ends: Some((-2_147_483_648, 2_147_483_647)),
    },
];

// The example with another byte at one index.
fn changed(at: usize, byte: u8) -> [u8; 32] {
    let mut bytes = EXAMPLE;
    if at < bytes.len() {
        bytes[at] = byte;
    }
    bytes
}

// The header of one column.
fn headers_of_one<R: Abort + AllocGlobal>(
    rt: &R,
    column_type: ColumnType,
    layout: Layout,
) -> Vec<Header<Name>>
    requires held { IsTrue (holds layout column_type) }
    ensures headers { AreHeaders result.items }
    ensures one { length result.items ≡ 1 }
    ensures typed { (cells : List (Option ℤ)) → All (IsNullOrOfType column_type) cells → AllZip IsTyped result.items (cells ∷ []) }
{
    let word = b"A";
    assert!(rt; is_name(word));
    let header = Header {
        name: Name::from_bytes(rt.alloc(), word).expect(rt, "a name"),
        column_type,
        layout,
        kind: Kind::Offset,
    };
    Vec::from_array(rt.alloc(), [header]).expect(rt, "headers")
}

#[test]
fn the_example_from_its_table(rt: HostRuntime) {
    let headers = headers_of_one(&rt, ColumnType::Integer, Layout::V);
    let columns = [&[Some(3), None, Some(-1)][..]];
    see(&rt, file_length(&headers, 3, &columns), 32);
    let spelled = encode(rt.alloc(), &headers, 3, &columns).expect(&rt, "bytes");
    see(&rt, spelled.as_slice(), &EXAMPLE);
}

#[test]
fn the_example_to_its_table(rt: HostRuntime) {
    let table = table_of(&rt, &EXAMPLE, 3, 1);
    check_written(&rt, &table, &EXAMPLE);
    check_table(&rt, table, &[EXAMPLE_COLUMN]);
}

#[test]
fn a_part_of_the_example_is_no_table(rt: HostRuntime) {
    for end in 0..32 {
        check_no_table(&rt, &EXAMPLE[..end]);
    }
    // Nor is the example with one more byte.
    let mut longer = [0; 33];
    longer[..32].copy_from_slice(&EXAMPLE);
    check_no_table(&rt, &longer);
}

#[test]
fn a_wrong_byte_is_no_table(rt: HostRuntime) {
    check_no_table(&rt, &changed(15, 0x61));
    check_no_table(&rt, &changed(16, 0x02));
    check_no_table(&rt, &changed(17, 0x04));
    check_no_table(&rt, &changed(18, 0x02));
    // A fourth row.
    check_no_table(&rt, &changed(19, 0x0d));
    // A value that is no INTEGER.
    check_no_table(&rt, &changed(27, 0x00));
    // A plane that doesn't exist.
    check_no_table(&rt, &changed(28, 0x04));
    // No code has the highest bit set.
    check_no_table(&rt, &changed(29, 0x00));
    // A bit set at a NULL.
    check_no_table(&rt, &changed(29, 0x03));
    // No code is 0.
    check_no_table(&rt, &changed(31, 0x04));
}

// With a BIGINT in layout H, and with a plane of zeros before the others.
#[test]
fn wrong_bytes_are_no_table(rt: HostRuntime) {
    let mut bytes = changed(16, 0x01);
    bytes[17] = 0x02;
    check_no_table(&rt, &bytes);
    let mut wider = [0; 33];
    wider[..28].copy_from_slice(&EXAMPLE[..28]);
    wider[28] = 0x04;
    wider[30..].copy_from_slice(&EXAMPLE[29..]);
    check_no_table(&rt, &wider);
}

// Whether the bytes encode a table, which then is the one with that encoding.
fn spells_table<R: Abort + AllocGlobal>(rt: &R, bytes: &[u8]) -> bool {
    match decode(rt.alloc(), bytes) {
        Ok(table) => {
            check_written(rt, &table, bytes);
            true
        }
        Err(fault) => {
            see(rt, fault, FileFault::NotTable);
            false
        }
    }
}

// With any byte at any index, the bytes encode no table or the one with that encoding.
#[test]
fn each_byte_in_each_place(rt: HostRuntime) {
    let mut tables: u32 = 0;
    for at in 0..32 {
        for byte in 0..=255 {
            if spells_table(&rt, &changed(at, byte)) {
                tables = tables.wrapping_add(1);
            }
        }
    }
    // There can be 3 to 8 rows: the further ones are NULL. The name can be each of 26 letters, the type each of 2, the
    // layout each of 4, the kind each of 2. The bits of the rows are 05, 07 with a second row of code 0, or 03 with
    // that and no third. The three lowest bytes of the base are any, and the next has its highest bit set, as for an
    // INTEGER below 0. The first plane has the bit of the first row or that of the third; each other plane has none or
    // that of the first row. Each of the other 19 bytes can only be what it is.
    see(
        &rt,
        tables,
        6 + 26 + 2 + 4 + 2 + 3 + 3 * 256 + 128 + 3 * 2 + 19,
    );
}

#[test]
fn many_columns_and_rows_that_are_not_there(rt: HostRuntime) {
    check_no_table(
        &rt,
        &[
            0x42, 0x49, 0x54, 0x43, 0x4f, 0x4c, 0x02, 0x00, 0x40, 0x00, 0x00, 0x00, 0x00, 0x01,
        ],
    );
}

#[test]
fn two_columns_of_nine_rows(rt: HostRuntime) {
    let table = table_of(&rt, &NINE_ROWS, 9, 2);
    check_written(&rt, &table, &NINE_ROWS);
    check_table(&rt, table, &NINE_ROWS_COLUMNS);
}

#[test]
fn all_layouts_and_kinds_and_types(rt: HostRuntime) {
    for column_type in 0..=1 {
        for layout in 0..=3 {
            for kind in 0..=1 {
                let mut bytes = EXAMPLE;
                bytes[16] = column_type;
                bytes[17] = layout;
                bytes[18] = kind;
                let held = column_type == 0 || layout != 2;
                see_at(
                    &rt,
                    (column_type, layout, kind),
                    spells_table(&rt, &bytes),
                    held,
                );
            }
        }
    }
}

#[test]
fn a_name_twice_and_a_reserved_word(rt: HostRuntime) {
    let mut bytes = NINE_ROWS;
    bytes[21] = 0x43;
    bytes[22] = 0x31;
    check_no_table(&rt, &bytes);
    bytes = NINE_ROWS;
    bytes[21] = 0x49;
    bytes[22] = 0x4e;
    check_no_table(&rt, &bytes);
}

// Without rows the base is 0 and the width 1.
#[test]
fn no_rows(rt: HostRuntime) {
    let bytes = [
        0x42, 0x49, 0x54, 0x43, 0x4f, 0x4c, 0x02, 0x00, 0x01, 0x00, 0x00, 0x00, 0x00, 0x00, 0x01,
        0x41, 0x00, 0x03, 0x01, 0x00, 0x00, 0x00, 0x00, 0x00, 0x00, 0x00, 0x00, 0x01,
    ];
    let table = table_of(&rt, &bytes, 0, 1);
    check_written(&rt, &table, &bytes);
}

// The widest codes: the least BIGINT, NULL, the greatest. Row 2 has all 64 bits set.
fn widest() -> [u8; 93] {
    let mut bytes = [0x04; 93];
    bytes[..14].copy_from_slice(&EXAMPLE[..14]);
    bytes[14..20].copy_from_slice(&[0x01, 0x41, 0x01, 0x03, 0x00, 0x05]);
    bytes[20..29].copy_from_slice(&[0x00, 0x00, 0x00, 0x00, 0x00, 0x00, 0x00, 0x80, 0x40]);
    bytes
}

#[test]
fn the_widest_codes(rt: HostRuntime) {
    let bytes = widest();
    let table = table_of(&rt, &bytes, 3, 1);
    check_written(&rt, &table, &bytes);
    let wanted = Column {
        name: b"A",
        column_type: ColumnType::BigInt,
        layout: Layout::S,
        kind: Kind::Offset,
        cells: &[
            Some(-9_223_372_036_854_775_808),
            None,
            Some(9_223_372_036_854_775_807),
        ],
        ends: Some((-9_223_372_036_854_775_808, 9_223_372_036_854_775_807)),
    };
    check_table(&rt, table, &[wanted]);
    // A width of 65, with one more plane.
    let mut wider = [0x04; 94];
    wider[..93].copy_from_slice(&bytes);
    wider[28] = 0x41;
    check_no_table(&rt, &wider);
}

// Row i of a column of many rows: every third cell is null.
pub(crate) fn many_rows_cell(i: u32) -> Option<i64> {
    if i % 3 == 1 {
        None
    } else {
        Some(i64::from(i) * 1_000 - 1_000_000)
    }
}

// The distance of row i of many rows from the first, which is the least; 0 for a null.
fn many_rows_code(i: u32) -> u32
    requires { i < 2_056 }
{
    if i % 3 == 1 || i >= 2_051 {
        0
    } else {
        1_000 * i
    }
}

// Eight of the presence bits of many rows.
pub(crate) fn many_rows_present(k: u32) -> u8
    requires { k < 257 }
{
    let mut byte = 0;
    for j in 0..8_u32 {
        if 8 * k + j < 2_051 && many_rows_cell(8 * k + j).is_some() {
            byte |= 1 << j;
        }
    }
    byte
}

// Eight of the bits b of many rows' codes.
fn many_rows_plane(b: u32, k: u32) -> u8
    requires eight { k < 257 }
    requires bit { b < 32 }
{
    let mut byte = 0;
    for j in 0..8_u32 {
        if many_rows_code(8 * k + j) >> b & 1 == 1 {
            byte |= 1 << j;
        }
    }
    byte
}

// A table of one column A in layout P, OFFSET, of 2,051 rows, byte by byte. The greatest code is 2,049,000, of 21 bits.
pub(crate) fn many_rows<R: Abort + AllocGlobal>(rt: &R) -> Vec<u8> {
    let front = [
        0x42, 0x49, 0x54, 0x43, 0x4f, 0x4c, 0x02, 0x00, 0x01, 0x00, 0x03, 0x08, 0x00, 0x00, 0x01,
        0x41, 0x00, 0x00, 0x00,
    ];
    let mut bytes = Vec::from_slice(rt.alloc(), &front).expect(rt, "front");
    for k in 0..257_u32 {
        bytes.push(many_rows_present(k)).expect(rt, "bits");
    }
    let base: i64 = -1_000_000;
    bytes
        .extend_from_slice(&base.to_le_bytes())
        .expect(rt, "base");
    bytes.push(21).expect(rt, "width");
    for i in 0..21_u32 {
        for k in 0..257_u32 {
            bytes.push(many_rows_plane(20 - i, k)).expect(rt, "plane");
        }
    }
    bytes
}

// Checks the cells of many rows in blocks of seven.
pub(crate) fn check_many_cells<R: Abort>(rt: &R, column: &FileColumn<'_>)
    requires { length column.now ≡ 2_051 }
{
    let mut run = [None; 7];
    for r in 0..293 {
        column.read(7 * r, &mut run);
        for k in 0..7 {
            let row = 7 * r + k;
            see_at(rt, row, run[k], many_rows_cell(row as u32));
        }
    }
}

// More rows than are written in one block, the last of them not a whole byte of bits. The first row is the least, the
// last but one the greatest: the last is null.
#[test]
fn rows_in_runs(rt: HostRuntime) {
    let bytes = many_rows(&rt);
    let table = table_of(&rt, &bytes, 2_051, 1);
    check_written(&rt, &table, &bytes);
    let column = &table.columns()[0];
    assert!(rt; column.rows() == 2_051);
    check_many_cells(&rt, column);
    see(&rt, ends_of(column), Some((-1_000_000, 1_049_000)));
}

// The front and the header of the example, and three nulls. The base is 0 and the width 1.
fn nulls() -> [u8; 30] {
    let mut bytes = [0; 30];
    bytes[..19].copy_from_slice(&EXAMPLE[..19]);
    bytes[28] = 0x01;
    bytes
}

#[test]
fn no_ends_of_nulls(rt: HostRuntime) {
    let wanted = Column {
        cells: &[None, None, None],
        ends: None,
        ..EXAMPLE_COLUMN
    };
    let bytes = nulls();
    let table = table_of(&rt, &bytes, 3, 1);
    check_written(&rt, &table, &bytes);
    check_table(&rt, table, &[wanted]);
}

// The least is in the last of three blocks of 64, the greatest in the first.
#[test]
fn ends_of_a_list(rt: HostRuntime) {
    let mut cells = [None; 130];
    see(&rt, ends_of(&cells.as_slice()), None);
    cells[129] = Some(-5);
    see(&rt, ends_of(&cells.as_slice()), Some((-5, -5)));
    cells[63] = Some(7);
    cells[64] = Some(0);
    see(&rt, ends_of(&cells.as_slice()), Some((-5, 7)));
}
