//! Plain columns of codes, by the contract of every column of codes: a successful run of each call, and scans compared
//! with a plain loop, at each width.

ghost use Rattle.std.specs.Prelude.{length, ◌<◌, ◌^◌, ◌≡◌, ◌≤◌};
ghost use Rattle.bw_mask.specs.Masks.{len};
ghost use Rattle.bw_code.specs.Tests.{TestFits};

use crate::seen::{see, see_at};
use bw_code::{CmpOp, CodeColumn, CodeTest, Meter, PlainColumn};
use bw_mask::Mask;
use std::process::Abort;

const OPERATORS: [CmpOp; 6] = [
    CmpOp::Eq,
    CmpOp::Ne,
    CmpOp::Lt,
    CmpOp::Le,
    CmpOp::Gt,
    CmpOp::Ge,
];

/// A code that many rows have, as far as its bits fit the width.
const FREQUENT: u64 = 0x9c3e_71d5_0b55_aa51;

/// What codes are compared with, truncated to their width.
const CONSTANTS: [u64; 4] = [FREQUENT, 0, 1, u64::MAX];

/// Other tests on codes, their ends truncated to the width of the codes.
const TESTS: [CodeTest; 6] = [
    CodeTest::None,
    CodeTest::All,
    CodeTest::Range(1, FREQUENT),
    CodeTest::Range(FREQUENT, 1),
    CodeTest::Range(FREQUENT, u64::MAX),
    CodeTest::Range(0, u64::MAX),
];

/// Whether a code meets a test, defined a second time.
fn plainly_meets(test: CodeTest, code: u64) -> bool {
    let (low, high, is_inside) = match test {
        CodeTest::None => (0, u64::MAX, false),
        CodeTest::All => (0, u64::MAX, true),
        CodeTest::Cmp(CmpOp::Eq, constant) => (constant, constant, true),
        CodeTest::Cmp(CmpOp::Ne, constant) => (constant, constant, false),
        CodeTest::Cmp(CmpOp::Lt, constant) => (constant, u64::MAX, false),
        CodeTest::Cmp(CmpOp::Le, constant) => (0, constant, true),
        CodeTest::Cmp(CmpOp::Gt, constant) => (0, constant, false),
        CodeTest::Cmp(CmpOp::Ge, constant) => (constant, u64::MAX, true),
        CodeTest::Range(low, high) => (low, high, true),
    };
    (low..=high).contains(&code) == is_inside
}

/// The `width` lowest bits of a number.
fn cut(number: u64, width: u32) -> u64
    requires { width ≤ 64 }
    ensures { result < 2 ^ width }
{
    if width < 64 {
        number % (1 << width)
    } else {
        number
    }
}

/// The code with only its highest bit set.
fn top_bit(width: u32) -> u64
    requires some { 1 ≤ width }
    requires narrow { width ≤ 64 }
    ensures { result < 2 ^ width }
{
    cut(1 << (width - 1), width)
}

/// The test, for codes of this width.
fn fitted(test: CodeTest, width: u32) -> CodeTest
    requires { width ≤ 64 }
    ensures { TestFits width result }
{
    match test {
        CodeTest::Cmp(op, constant) => CodeTest::Cmp(op, cut(constant, width)),
        CodeTest::Range(low, high) => CodeTest::Range(cut(low, width), cut(high, width)),
        other => other,
    }
}

/// Codes of all sizes: the frequent one, all ones, 0, only the highest bit, all ones but it, and more.
fn code_at(width: u32, row: usize) -> u64
    requires some { 1 ≤ width }
    requires narrow { width ≤ 64 }
    ensures { result < 2 ^ width }
{
    let code = match row % 6 {
        0 => FREQUENT,
        1 => u64::MAX,
        2 => 0,
        3 => top_bit(width),
        4 => cut(u64::MAX, width - 1),
        _ => (row as u64)
            .wrapping_mul(0x9e37_79b9_7f4a_7c15)
            .rotate_right(17),
    };
    cut(code, width)
}

fn column_of<C: CodeColumn + Drop, R: Abort + AllocGlobal>(rt: &R, width: u32, rows: usize) -> C
    requires some { 1 ≤ width }
    requires narrow { width ≤ 64 }
    requires widest { width ≤ C.WIDEST }
    requires few { rows < 1000 }
    ensures width { (C.seen result).width ≡ width }
    ensures count { length (C.seen result).codes ≡ rows }
{
    let mut column = C::with_width(rt.alloc(), width).expect(rt, "memory");
    column.reserve(rows).expect(rt, "memory");
    for row in 0..rows {
        column.push(code_at(width, row));
    }
    column
}

/// The given number of rows, of which two of three are needed.
fn two_of_three<R: Abort + AllocGlobal>(rt: &R, rows: usize) -> Mask
    requires { rows < 1000 }
    ensures { len result ≡ rows }
{
    let mut need = Mask::filled(rt.alloc(), rows, false).expect(rt, "memory");
    for row in 0..rows {
        need.set(row, row % 3 != 1);
    }
    need
}

/// The needed rows that a scan finds, into a mask in which all rows were set.
fn scanned<C: CodeColumn + Drop, R: Abort + AllocGlobal>(rt: &R, column: &C, test: CodeTest) -> Mask
    requires few { length (C.seen column.now).codes < 1000 }
    requires test { TestFits (C.seen column.now).width test }
    ensures { len result ≡ length (C.seen column.now).codes }
{
    let need = two_of_three(rt, column.len());
    let mut out = Mask::filled(rt.alloc(), column.len(), true).expect(rt, "memory");
    column.scan(test, &need, &mut out, &mut Meter::new());
    out
}

/// Checks the needed rows that the scan of a column finds.
fn check_scan<C: CodeColumn + Drop, R: Abort + AllocGlobal>(
    rt: &R,
    width: u32,
    column: &C,
    test: CodeTest,
)
    requires some { 1 ≤ width }
    requires narrow { width ≤ 64 }
    requires width { (C.seen column.now).width ≡ width }
    requires few { length (C.seen column.now).codes < 1000 }
    requires test { TestFits width test }
{
    let found = scanned(rt, column, test);
    for row in 0..column.len() {
        let wanted = row % 3 != 1 && plainly_meets(test, code_at(width, row));
        see_at(rt, (test, row), found.get(row), wanted);
    }
}

/// Each comparison with a constant.
fn check_comparisons<C: CodeColumn + Drop, R: Abort + AllocGlobal>(
    rt: &R,
    width: u32,
    column: &C,
    constant: u64,
)
    requires some { 1 ≤ width }
    requires narrow { width ≤ 64 }
    requires width { (C.seen column.now).width ≡ width }
    requires few { length (C.seen column.now).codes < 1000 }
    requires constant { constant < 2 ^ width }
{
    for op in OPERATORS {
        check_scan(rt, width, column, CodeTest::Cmp(op, constant));
    }
}

fn check_scans<C: CodeColumn + Drop, R: Abort + AllocGlobal>(rt: &R, width: u32, rows: usize)
    requires some { 1 ≤ width }
    requires narrow { width ≤ 64 }
    requires widest { width ≤ C.WIDEST }
    requires few { rows < 1000 }
{
    let column: C = column_of(rt, width, rows);
    for test in &TESTS {
        check_scan(rt, width, &column, fitted(*test, width));
    }
    for constant in &CONSTANTS {
        check_comparisons(rt, width, &column, cut(*constant, width));
    }
    check_comparisons(rt, width, &column, top_bit(width));
}

/// Codes written by each call: all ones, only the highest bit, that once more, and 0.
fn check_calls<C: CodeColumn + Drop, R: Abort + AllocGlobal>(rt: &R, width: u32)
    requires some { 1 ≤ width }
    requires narrow { width ≤ 64 }
    requires widest { width ≤ C.WIDEST }
{
    let mut column = C::with_width(rt.alloc(), width).expect(rt, "memory");
    column.reserve(4).expect(rt, "memory");
    column.push(cut(u64::MAX, width));
    column.extend(&[0, top_bit(width), 0]);
    column.set(1, top_bit(width));
    see_four(rt, width, &column);
}

/// Checks those codes, and their highest plane.
fn see_four<C: CodeColumn + Drop, R: Abort + AllocGlobal>(rt: &R, width: u32, column: &C)
    requires some { 1 ≤ width }
    requires narrow { width ≤ 64 }
    requires width { (C.seen column.now).width ≡ width }
    requires four { length (C.seen column.now).codes ≡ 4 }
{
    let top = top_bit(width);
    see_at(rt, width, (column.len(), column.width()), (4, width));
    see_at(
        rt,
        width,
        (column.get(0), column.get(1)),
        (cut(u64::MAX, width), top),
    );
    let mut codes = [1; 3];
    column.read(1, &mut codes);
    see_at(rt, width, codes, [top, top, 0]);
    let mut rows = Mask::filled(rt.alloc(), 4, true).expect(rt, "memory");
    column.plane(width - 1, &mut rows);
    see_at(rt, width, rows.bits(0, 64), 0b0111);
}

#[test]
fn calls_of_a_plain_column(rt: HostRuntime) {
    for width in 1..=64 {
        check_calls::<PlainColumn, HostRuntime>(&rt, width);
    }
}

#[test]
fn scans_of_a_plain_column(rt: HostRuntime) {
    for width in 1..=64 {
        for rows in [0, 1, 63, 64, 65, 200] {
            check_scans::<PlainColumn, HostRuntime>(&rt, width, rows);
        }
    }
}

/// Plain codes of nine bits.
fn eight<R: Abort + AllocGlobal>(rt: &R) -> PlainColumn
    ensures width { result.width ≡ 9 }
    ensures count { length result.codes ≡ 8 }
{
    let mut column = PlainColumn::with_width(rt.alloc(), 9).expect(rt, "memory");
    column.reserve(8).expect(rt, "memory");
    column.extend(&[300, 337, 374, 411, 448, 485, 10, 47]);
    column
}

/// The rows that a scan of a plain column finds, with all of eight rows but the last needed, and its units.
fn found_and_units<R: Abort + AllocGlobal>(rt: &R, test: CodeTest) -> (u64, u64)
    requires { TestFits 9 test }
{
    let column = eight(rt);
    let mut need = Mask::filled(rt.alloc(), 8, true).expect(rt, "memory");
    need.set(7, false);
    let mut out = Mask::filled(rt.alloc(), 8, true).expect(rt, "memory");
    let mut meter = Meter::new();
    column.scan(test, &need, &mut out, &mut meter);
    column.scan(test, &need, &mut out, &mut meter);
    (out.bits(0, 64), meter.units())
}

// Each scan is done twice.
#[test]
fn units_of_a_plain_column(rt: HostRuntime) {
    for (test, found, units) in [
        (CodeTest::Cmp(CmpOp::Lt, 374), 0b0100_0011, 14),
        (CodeTest::Range(300, 400), 0b0000_0111, 14),
        (CodeTest::All, 0b0111_1111, 0),
        (CodeTest::None, 0, 0),
    ] {
        see_at(
            &rt,
            test,
            found_and_units(&rt, fitted(test, 9)),
            (found, units),
        );
    }
}

#[test]
fn a_full_meter_stays_full(rt: HostRuntime) {
    let mut meter = Meter::new();
    meter.add(u64::MAX - 1);
    meter.add(1);
    see(&rt, meter.units(), u64::MAX);
    meter.add(1);
    see(&rt, meter.units(), u64::MAX);
}
