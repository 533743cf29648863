//! Table files of as many rows as are written or read together, of one fewer and of one more, with narrow and wide
//! codes: their bytes, bit by bit as the format defines them, and their cells.

ghost use Rattle.std.specs.Prelude.{length, ◌<◌, ◌≡◌, ◌≤◌};

use crate::files_seen::{check_written, table_of};
use crate::seen::see_at;
use bw_cells::Cells;
use bw_file::FileColumn;
use std::process::Abort;

// How many rows: around 64, 2,048 and 4,096, and many.
const ROWS: [usize; 11] = [
    63, 64, 65, 257, 2_047, 2_048, 2_049, 4_095, 4_096, 4_097, 5_000,
];

// How many bits the codes have.
const WIDTHS: [u32; 7] = [1, 8, 31, 32, 33, 63, 64];

// The code of row i: that of row 0 is 0, and the last row has the greatest of k bits. Most fifth rows are null.
fn code(rows: usize, k: u32, i: usize) -> Option<u64>
    requires low { 1 ≤ k }
    requires high { k ≤ 64 }
    requires there { i < rows }
{
    if i == 0 {
        Some(0)
    } else if i == rows - 1 {
        Some(u64::MAX >> (64 - k))
    } else if i % 5 == 3 {
        None
    } else {
        Some((i as u64).wrapping_mul(0x9e37_79b9_7f4a_7c15) >> (64 - k))
    }
}

// The cell of row i. The base of the codes is the least BIGINT.
fn cell(rows: usize, k: u32, i: usize) -> Option<i64>
    requires low { 1 ≤ k }
    requires high { k ≤ 64 }
    requires there { i < rows }
{
    match code(rows, k, i) {
        Some(code) => Some((0x8000_0000_0000_0000_u64).wrapping_add(code).cast_signed()),
        None => None,
    }
}

// Eight of the bits of the rows that say which of them are non-null.
fn presence_byte(rows: usize, k: u32, q: usize) -> u8
    requires low { 1 ≤ k }
    requires high { k ≤ 64 }
    requires few { rows ≤ 5000 }
    requires there { q < 625 }
{
    let mut byte = 0;
    for j in 0..8_usize {
        let i = 8 * q + j;
        if i < rows && code(rows, k, i).is_some() {
            byte |= 1 << j;
        }
    }
    byte
}

// Eight of the bits b of the codes.
fn plane_byte(rows: usize, k: u32, b: u32, q: usize) -> u8
    requires low { 1 ≤ k }
    requires high { k ≤ 64 }
    requires bit { b < k }
    requires few { rows ≤ 5000 }
    requires there { q < 625 }
{
    let mut byte = 0;
    for j in 0..8_usize {
        let i = 8 * q + j;
        if i < rows && code(rows, k, i).unwrap_or(0) >> b & 1 == 1 {
            byte |= 1 << j;
        }
    }
    byte
}

// A table of one column A, a BIGINT in layout S, OFFSET.
fn bytes_of<R: Abort + AllocGlobal>(rt: &R, rows: usize, k: u32) -> Vec<u8>
    requires low { 1 ≤ k }
    requires high { k ≤ 64 }
    requires few { rows ≤ 5000 }
{
    let mut bytes = Vec::from_slice(rt.alloc(), b"BITCOL\x02\x00\x01\x00").expect(rt, "front");
    bytes
        .extend_from_slice(&(rows as u32).to_le_bytes())
        .expect(rt, "rows");
    bytes
        .extend_from_slice(b"\x01A\x01\x03\x00")
        .expect(rt, "header");
    for q in 0..rows.div_ceil(8) {
        bytes.push(presence_byte(rows, k, q)).expect(rt, "bits");
    }
    bytes
        .extend_from_slice(&i64::MIN.to_le_bytes())
        .expect(rt, "base");
    bytes.push(k as u8).expect(rt, "width");
    for p in 0..k {
        for q in 0..rows.div_ceil(8) {
            bytes
                .push(plane_byte(rows, k, k - 1 - p, q))
                .expect(rt, "plane");
        }
    }
    bytes
}

// Checks the cells of the column, in runs of 64.
fn check_cells<R: Abort>(rt: &R, column: &FileColumn<'_>, rows: usize, k: u32)
    requires low { 1 ≤ k }
    requires high { k ≤ 64 }
    requires few { rows ≤ 5000 }
    requires rows { length column.now ≡ rows }
{
    let mut run = [None; 64];
    for r in 0..rows.div_ceil(64) {
        let at = 64 * r;
        let count = (rows - at).min(64);
        column.read(at, &mut run[..count]);
        for j in 0..count {
            see_at(rt, (rows, k, at + j), run[j], cell(rows, k, at + j));
        }
    }
}

// Checks a table of this many rows and codes of this width.
fn check_rows<R: Abort + AllocGlobal>(rt: &R, rows: usize, k: u32)
    requires low { 1 ≤ k }
    requires high { k ≤ 64 }
    requires few { rows ≤ 5000 }
{
    let bytes = bytes_of(rt, rows, k);
    let table = table_of(rt, &bytes, rows, 1);
    check_written(rt, &table, &bytes);
    let column = &table.columns()[0];
    assert!(rt; column.rows() == rows);
    check_cells(rt, column, rows, k);
}

#[test]
fn rows_around_the_seams(rt: HostRuntime) {
    for i in 0..ROWS.len() {
        for j in 0..WIDTHS.len() {
            assert!(&rt; ROWS[i] <= 5_000 && 1 <= WIDTHS[j] && WIDTHS[j] <= 64);
            check_rows(&rt, ROWS[i], WIDTHS[j]);
        }
    }
}

// The codes of one row have 1 bit.
#[test]
fn one_row(rt: HostRuntime) {
    check_rows(&rt, 1, 1);
}
