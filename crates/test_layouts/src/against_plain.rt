//! Columns in each layout compared with plain columns of the same codes, at lengths around the boundaries of words and
//! segments.

ghost use Rattle.std.specs.Prelude.{length, ◌+◌, ◌<◌, ◌^◌, ◌≡◌, ◌≤◌};
ghost use Rattle.bw_code.specs.Tests.{TestFits};

use crate::codes::{
    FREQUENT, OPERATORS, code_at, codes_of, column_of, cut, filled, fitted, need_of, segment_rows,
    top_bit,
};
use crate::seen::{see, see_at};
use bw_byteslice::SliceColumn;
use bw_code::{CodeColumn, CodeTest, Meter, PlainColumn};
use bw_horizontal::HorizontalColumn;
use bw_mask::Mask;
use bw_vertical::VerticalColumn;
use std::process::Abort;

/// What codes are compared with, truncated to their width.
const CONSTANTS: [u64; 4] = [FREQUENT, 0, 1, u64::MAX];

/// Other tests on codes, their ends truncated to the width of the codes.
const TESTS: [CodeTest; 6] = [
    CodeTest::None,
    CodeTest::All,
    CodeTest::Range(0x1234_5678_0155_aa11, FREQUENT),
    CodeTest::Range(1, FREQUENT),
    CodeTest::Range(0, u64::MAX),
    CodeTest::Range(u64::MAX, 0),
];

/// The rows that a scan finds, into a mask in which all rows were set.
fn found<C: CodeColumn, R: Abort + AllocGlobal>(rt: &R, column: &C, test: CodeTest) -> Mask
    requires test { TestFits (C.seen column.now).width test }
    requires few { length (C.seen column.now).codes ≤ 2000 }
{
    let need = need_of(rt, column.len());
    let mut out = filled(rt, column.len(), true);
    column.scan(test, &need, &mut out, &mut Meter::new());
    out
}

/// A scan finds the same rows as in plain codes.
fn check_scan<C: CodeColumn, R: Abort + AllocGlobal>(
    rt: &R,
    column: &C,
    plain: &PlainColumn,
    test: CodeTest,
)
    requires test { TestFits (C.seen column.now).width test }
    requires width { plain.now.width ≡ (C.seen column.now).width }
    requires few { length (C.seen column.now).codes ≤ 2000 }
    requires others { length plain.now.codes ≤ 2000 }
{
    let rows = found(rt, column, test);
    let wanted = found(rt, plain, test);
    see_at(rt, test, rows.words(), wanted.words());
}

/// Each comparison with a constant finds the same rows as in plain codes.
fn check_comparisons<C: CodeColumn, R: Abort + AllocGlobal>(
    rt: &R,
    column: &C,
    plain: &PlainColumn,
    constant: u64,
)
    requires constant { constant < 2 ^ (C.seen column.now).width }
    requires width { plain.now.width ≡ (C.seen column.now).width }
    requires few { length (C.seen column.now).codes ≤ 2000 }
    requires others { length plain.now.codes ≤ 2000 }
{
    for op in OPERATORS {
        check_scan(rt, column, plain, CodeTest::Cmp(op, constant));
    }
}

fn check_scans<C: CodeColumn, R: Abort + AllocGlobal>(
    rt: &R,
    width: u32,
    column: &C,
    plain: &PlainColumn,
)
    requires some { 1 ≤ width }
    requires narrow { width ≤ 64 }
    requires width { (C.seen column.now).width ≡ width }
    requires also { plain.now.width ≡ width }
    requires few { length (C.seen column.now).codes ≤ 2000 }
    requires others { length plain.now.codes ≤ 2000 }
{
    for test in &TESTS {
        check_scan(rt, column, plain, fitted(*test, width));
    }
    for constant in &CONSTANTS {
        check_comparisons(rt, column, plain, cut(*constant, width));
    }
    check_comparisons(rt, column, plain, top_bit(width));
}

/// The codes from a row on.
fn codes_from<C: CodeColumn, R: Abort + AllocGlobal>(rt: &R, column: &C, at: usize) -> Vec<u64>
    requires { at ≤ length (C.seen column.now).codes }
{
    let mut codes = Vec::from_elem(rt.alloc(), 0, column.len() - at).expect(rt, "memory");
    column.read(at, &mut codes);
    codes
}

/// `get` and `read` return the same as for plain codes.
fn check_codes<C: CodeColumn, R: Abort + AllocGlobal>(rt: &R, column: &C, plain: &PlainColumn)
    requires { length plain.now.codes ≡ length (C.seen column.now).codes }
{
    let rows = column.len();
    for row in 0..rows {
        see_at(rt, row, column.get(row), plain.get(row));
    }
    let at = rows / 5;
    see_at(
        rt,
        at,
        codes_from(rt, column, at).as_slice(),
        codes_from(rt, plain, at).as_slice(),
    );
}

/// The rows with a bit set, into a mask in which all rows were set.
fn plane_of<C: CodeColumn, R: Abort + AllocGlobal>(rt: &R, column: &C, bit: u32) -> Mask
    requires bit { bit < (C.seen column.now).width }
    requires few { length (C.seen column.now).codes ≤ 2000 }
{
    let mut plane = filled(rt, column.len(), true);
    column.plane(bit, &mut plane);
    plane
}

/// The rows with a bit set are those of plain codes.
fn check_plane<C: CodeColumn, R: Abort + AllocGlobal>(
    rt: &R,
    column: &C,
    plain: &PlainColumn,
    bit: u32,
)
    requires bit { bit < (C.seen column.now).width }
    requires width { plain.now.width ≡ (C.seen column.now).width }
    requires few { length (C.seen column.now).codes ≤ 2000 }
    requires others { length plain.now.codes ≤ 2000 }
{
    let plane = plane_of(rt, column, bit);
    let wanted = plane_of(rt, plain, bit);
    see_at(rt, bit, plane.words(), wanted.words());
}

fn check_planes<C: CodeColumn, R: Abort + AllocGlobal>(
    rt: &R,
    width: u32,
    column: &C,
    plain: &PlainColumn,
)
    requires width { (C.seen column.now).width ≡ width }
    requires also { plain.now.width ≡ width }
    requires few { length (C.seen column.now).codes ≤ 2000 }
    requires others { length plain.now.codes ≤ 2000 }
{
    for bit in 0..width {
        check_plane(rt, column, plain, bit);
    }
}

/// Another code in the middle.
fn change<C: CodeColumn>(column: &mut C, code: u64)
    requires fits { code < 2 ^ (C.seen column.old).width }
    ensures width { (C.seen column.new).width ≡ (C.seen column.old).width }
    ensures count { length (C.seen column.new).codes ≡ length (C.seen column.old).codes }
{
    let rows = column.len();
    if rows > 0 {
        column.set(rows / 2, code);
    }
}

/// One more code at the end.
fn push_last<C: CodeColumn, R: Abort>(rt: &R, column: &mut C, code: u64)
    requires fits { code < 2 ^ (C.seen column.old).width }
    requires few { length (C.seen column.old).codes ≤ 1000 }
    ensures width { (C.seen column.new).width ≡ (C.seen column.old).width }
    ensures count { length (C.seen column.new).codes ≡ length (C.seen column.old).codes + 1 }
{
    column.reserve(1).expect(rt, "memory");
    column.push(code);
}

/// A column of this many codes, the last of which was appended separately, and the middle one overwritten.
fn changed_column<C: CodeColumn + Drop, R: Abort + AllocGlobal>(
    rt: &R,
    width: u32,
    rows: usize,
) -> C
    requires some { 1 ≤ width }
    requires narrow { width ≤ 64 }
    requires widest { width ≤ C.WIDEST }
    requires few { rows ≤ 1000 }
    ensures width { (C.seen result).width ≡ width }
    ensures count { length (C.seen result).codes ≡ rows }
{
    let mut column: C = column_of(rt, width, &codes_of(rt, width, rows.saturating_sub(1)));
    if rows > 0 {
        push_last(rt, &mut column, code_at(width, rows - 1));
    }
    change(&mut column, code_at(width, 6));
    column
}

/// Every call returns the same as for plain codes.
fn check_calls<C: CodeColumn + Drop, R: Abort + AllocGlobal>(rt: &R, width: u32, rows: usize)
    requires some { 1 ≤ width }
    requires narrow { width ≤ 64 }
    requires widest { width ≤ C.WIDEST }
    requires few { rows ≤ 1000 }
{
    let column: C = changed_column(rt, width, rows);
    let plain: PlainColumn = changed_column(rt, width, rows);
    see(rt, (column.len(), column.width()), (rows, width));
    check_codes(rt, &column, &plain);
    check_planes(rt, width, &column, &plain);
    check_scans(rt, width, &column, &plain);
}

#[test]
fn planes(rt: HostRuntime) {
    for width in 1..=64 {
        for rows in [0, 1, 63, 64, 65, 255, 256, 257, 513] {
            check_calls::<VerticalColumn, _>(&rt, width, rows);
        }
    }
}

#[test]
fn slices(rt: HostRuntime) {
    for width in 1..=64 {
        for rows in [0, 1, 31, 32, 33, 64, 65] {
            check_calls::<SliceColumn, _>(&rt, width, rows);
        }
    }
}

#[test]
fn words(rt: HostRuntime) {
    for width in 1..=32 {
        let rows = segment_rows(width);
        for rows in [0, 1, rows - 1, rows, rows + 1, 2 * rows + 5] {
            check_calls::<HorizontalColumn, _>(&rt, width, rows);
        }
    }
}

/// The greatest width is this one, both in the contracts and in the program.
fn check_widest<C: CodeColumn, R: Abort>(rt: &R, widest: u32)
    requires { C.WIDEST ≡ widest }
{
    see(rt, C::WIDEST, widest);
}

#[test]
fn greatest_widths(rt: HostRuntime) {
    check_widest::<PlainColumn, _>(&rt, 64);
    check_widest::<VerticalColumn, _>(&rt, 64);
    check_widest::<SliceColumn, _>(&rt, 64);
    check_widest::<HorizontalColumn, _>(&rt, 32);
}
