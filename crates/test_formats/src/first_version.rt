//! Table files of version 1: they can still be opened, and are written in version 2.

use crate::files_seen::{check_no_table, check_table, check_written, ends_of, table_of};
use crate::seen::{see, see_at};
use crate::table_files::{
    EXAMPLE, EXAMPLE_COLUMN, NINE_ROWS, NINE_ROWS_COLUMNS, check_many_cells, many_rows,
    many_rows_cell, many_rows_present,
};
use bw_file::{FileFault, decode, encode};
use std::process::Abort;

// One column A in layout V, OFFSET, of three rows: 3, NULL, -1.
const FIRST_EXAMPLE: [u8; 31] = [
    0x42, 0x49, 0x54, 0x43, 0x4f, 0x4c, 0x01, 0x00, 0x01, 0x00, 0x03, 0x00, 0x00, 0x00, 0x01, 0x41,
    0x01, 0x00, 0x05, 0x03, 0x00, 0x00, 0x00, 0x00, 0x00, 0x00, 0x00, 0xff, 0xff, 0xff, 0xff,
];

// Two columns of nine rows: C1 in layout P, DICTIONARY: 1, NULL, 3, NULL, 5, NULL, 7, NULL, 9; X_ in layout H, OFFSET: the
// least number, seven nulls, the greatest.
const FIRST_NINE_ROWS: [u8; 100] = [
    0x42, 0x49, 0x54, 0x43, 0x4f, 0x4c, 0x01, 0x00, 0x02, 0x00, 0x09, 0x00, 0x00, 0x00, // front
    0x02, 0x43, 0x31, 0x00, 0x01, // C1
    0x02, 0x58, 0x5f, 0x02, 0x00, // X_
    0x55, 0x01, // rows 0, 2, 4, 6 and 8
    0x01, 0x00, 0x00, 0x00, 0x00, 0x00, 0x00, 0x00, 0x03, 0x00, 0x00, 0x00, 0x00, 0x00, 0x00, 0x00,
    0x05, 0x00, 0x00, 0x00, 0x00, 0x00, 0x00, 0x00, 0x07, 0x00, 0x00, 0x00, 0x00, 0x00, 0x00, 0x00,
    0x09, 0x00, 0x00, 0x00, // and that is C1
    0x01, 0x01, // rows 0 and 8
    0x00, 0x00, 0x00, 0x80, 0x00, 0x00, 0x00, 0x00, 0x00, 0x00, 0x00, 0x00, 0x00, 0x00, 0x00, 0x00,
    0x00, 0x00, 0x00, 0x00, 0x00, 0x00, 0x00, 0x00, 0x00, 0x00, 0x00, 0x00, 0x00, 0x00, 0x00, 0x00,
    0xff, 0xff, 0xff, 0x7f,
];

// The example with another byte at one index.
fn changed(at: usize, byte: u8) -> [u8; 31] {
    let mut bytes = FIRST_EXAMPLE;
    if at < bytes.len() {
        bytes[at] = byte;
    }
    bytes
}

#[test]
fn the_first_example(rt: HostRuntime) {
    let table = table_of(&rt, &FIRST_EXAMPLE, 3, 1);
    check_written(&rt, &table, &EXAMPLE);
    check_table(&rt, table, &[EXAMPLE_COLUMN]);
}

#[test]
fn a_part_of_the_first_example_is_no_table(rt: HostRuntime) {
    for end in 0..31 {
        check_no_table(&rt, &FIRST_EXAMPLE[..end]);
    }
    // Nor is the example with one more byte.
    let mut longer = [0; 32];
    longer[..31].copy_from_slice(&FIRST_EXAMPLE);
    check_no_table(&rt, &longer);
}

#[test]
fn a_wrong_byte_of_the_first_example_is_no_table(rt: HostRuntime) {
    check_no_table(&rt, &changed(6, 0x03));
    check_no_table(&rt, &changed(18, 0x0d));
    check_no_table(&rt, &changed(23, 0x01));
    check_no_table(&rt, &changed(16, 0x04));
    check_no_table(&rt, &changed(15, 0x61));
    check_no_table(&rt, &changed(17, 0x02));
}

// Whether the bytes encode a table, which then is written in version 2 and read again as the table with that encoding.
fn opens<R: Abort + AllocGlobal>(rt: &R, bytes: &[u8]) -> bool {
    match decode(rt.alloc(), bytes) {
        Ok(table) => {
            let written = encode(rt.alloc(), table.headers(), table.rows(), table.columns());
            let second = written.expect(rt, "bytes");
            let again = table_of(rt, &second, table.rows(), table.columns().len());
            check_written(rt, &again, &second);
            true
        }
        Err(fault) => {
            see(rt, fault, FileFault::NotTable);
            false
        }
    }
}

#[test]
fn each_byte_in_each_place_of_the_first_example(rt: HostRuntime) {
    let mut tables: u32 = 0;
    for at in 0..31 {
        for byte in 0..=255 {
            if opens(&rt, &changed(at, byte)) {
                tables = tables.wrapping_add(1);
            }
        }
    }
    // The name can be each of 26 letters, the layout each of 4, the kind each of 2, each byte of the two numbers any,
    // and the presence bits 05 or 07, since the word of the null is 0. Each of the other 19 bytes can only be what it
    // is.
    see(&rt, tables, 26 + 4 + 2 + 8 * 256 + 2 + 19);
}

#[test]
fn first_columns_and_rows_that_are_not_there(rt: HostRuntime) {
    for rows in 0..=1 {
        check_no_table(
            &rt,
            &[
                0x42, 0x49, 0x54, 0x43, 0x4f, 0x4c, 0x01, 0x00, 0x40, 0x00, 0x00, 0x00, 0x00, rows,
            ],
        );
    }
}

#[test]
fn two_first_columns_of_nine_rows(rt: HostRuntime) {
    let table = table_of(&rt, &FIRST_NINE_ROWS, 9, 2);
    check_written(&rt, &table, &NINE_ROWS);
    check_table(&rt, table, &NINE_ROWS_COLUMNS);
}

#[test]
fn all_layouts_and_kinds_of_the_first_version(rt: HostRuntime) {
    for layout in 0..=3 {
        for kind in 0..=1 {
            let mut bytes = FIRST_EXAMPLE;
            bytes[16] = layout;
            bytes[17] = kind;
            see_at(&rt, (layout, kind), opens(&rt, &bytes), true);
        }
    }
}

// A table without rows.
#[test]
fn no_rows_of_the_first_version(rt: HostRuntime) {
    let bytes = [
        0x42, 0x49, 0x54, 0x43, 0x4f, 0x4c, 0x01, 0x00, 0x01, 0x00, 0x00, 0x00, 0x00, 0x00, 0x01,
        0x41, 0x03, 0x01,
    ];
    see(&rt, opens(&rt, &bytes), true);
}

// Many rows, byte by byte.
fn first_many_rows<R: Abort + AllocGlobal>(rt: &R) -> Vec<u8> {
    let front = [
        0x42, 0x49, 0x54, 0x43, 0x4f, 0x4c, 0x01, 0x00, 0x01, 0x00, 0x03, 0x08, 0x00, 0x00, 0x01,
        0x41, 0x00, 0x00,
    ];
    let mut bytes = Vec::from_slice(rt.alloc(), &front).expect(rt, "front");
    for k in 0..257_u32 {
        bytes.push(many_rows_present(k)).expect(rt, "bits");
    }
    for i in 0..2_051 {
        let number = many_rows_cell(i).unwrap_or(0);
        bytes
            .extend_from_slice(&number.to_le_bytes()[..4])
            .expect(rt, "word");
    }
    bytes
}

#[test]
fn rows_in_runs_of_the_first_version(rt: HostRuntime) {
    let bytes = first_many_rows(&rt);
    let table = table_of(&rt, &bytes, 2_051, 1);
    let column = &table.columns()[0];
    assert!(rt; column.rows() == 2_051);
    check_many_cells(&rt, column);
    see(&rt, ends_of(column), Some((-1_000_000, 1_049_000)));
    check_written(&rt, &table, &many_rows(&rt));
}
