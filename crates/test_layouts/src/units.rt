//! The units that known scans read.

ghost use Rattle.std.specs.Prelude.{length, ◌≡◌, ◌≤◌};
ghost use Rattle.bw_mask.specs.Masks.{len};
ghost use Rattle.bw_code.specs.Tests.{TestFits};

use crate::codes::{codes_of, column_of, cut, filled, fitted};
use crate::seen::see_at;
use bw_byteslice::SliceColumn;
use bw_code::{CmpOp, CodeColumn, CodeTest, Meter};
use bw_horizontal::HorizontalColumn;
use bw_mask::Mask;
use bw_vertical::VerticalColumn;
use std::process::Abort;

/// How many rows a scan finds, into a mask in which all rows were set, and the units that it reads.
fn scanned<C: CodeColumn, R: Abort + AllocGlobal>(
    rt: &R,
    column: &C,
    test: CodeTest,
    need: &Mask,
) -> (usize, u64)
    requires test { TestFits (C.seen column.now).width test }
    requires need { len need.now ≡ length (C.seen column.now).codes }
    requires few { length (C.seen column.now).codes ≤ 1000 }
{
    let mut out = filled(rt, column.len(), true);
    let mut meter = Meter::new();
    column.scan(test, need, &mut out, &mut meter);
    (out.count(), meter.units())
}

/// Checks the units of scans in which all rows are needed.
fn check_units<C: CodeColumn, R: Abort + AllocGlobal>(
    rt: &R,
    column: &C,
    width: u32,
    cases: &[(CodeTest, u64)],
)
    requires narrow { width ≤ 64 }
    requires width { (C.seen column.now).width ≡ width }
    requires few { length (C.seen column.now).codes ≤ 1000 }
{
    let need = filled(rt, column.len(), true);
    for (test, units) in cases {
        let (_, read) = scanned(rt, column, fitted(*test, width), &need);
        see_at(rt, *test, read, *units);
    }
}

/// Four codes 3 of eight bits: the first group of planes shows that they are below 128.
#[test]
fn planes(rt: HostRuntime) {
    let four: VerticalColumn = column_of(&rt, 8, &[3; 4]);
    check_units(
        &rt,
        &four,
        8,
        &[
            (CodeTest::Cmp(CmpOp::Lt, 128), 4),
            (CodeTest::Cmp(CmpOp::Eq, 3), 8),
            (CodeTest::Range(3, 200), 8),
            (CodeTest::Range(64, 200), 4),
        ],
    );
}

/// The same codes, and a code 128 after them.
#[test]
fn planes_with_a_code_after_them(rt: HostRuntime) {
    let mut five: VerticalColumn = column_of(&rt, 8, &[3; 4]);
    five.reserve(1).expect(&rt, "memory");
    five.push(128);
    check_units(
        &rt,
        &five,
        8,
        &[(CodeTest::Cmp(CmpOp::Lt, 128), 8), (CodeTest::All, 0)],
    );
}

/// 33 codes of 16 bits: 0x0102 in the first segment and 0x0304 in the second.
fn two_segments<R: Abort + AllocGlobal>(rt: &R) -> SliceColumn
    ensures width { result.width ≡ 16 }
    ensures count { length result.codes ≡ 33 }
{
    let mut column = SliceColumn::with_width(rt.alloc(), 16).expect(rt, "memory");
    column.reserve(33).expect(rt, "memory");
    for row in 0..32_usize {
        column.push(0x0102);
    }
    column.push(0x0304);
    column
}

#[test]
fn slices(rt: HostRuntime) {
    check_units(
        &rt,
        &two_segments(&rt),
        16,
        &[
            (CodeTest::Cmp(CmpOp::Lt, 0x0200), 2),
            (CodeTest::Cmp(CmpOp::Lt, 0x0100), 3),
            (CodeTest::Cmp(CmpOp::Eq, 0x0304), 3),
            (CodeTest::Range(0x0100, 0x0500), 3),
            (CodeTest::Range(0x0102, 0x0304), 4),
            (CodeTest::All, 0),
            (CodeTest::None, 0),
        ],
    );
}

/// Two of 64 rows, or one if they are the same.
fn two_of_64<R: Abort + AllocGlobal>(rt: &R, first: usize, last: usize) -> Mask
    ensures { len result ≡ 64 }
{
    let mut need = filled(rt, 64, false);
    need.set(first % 64, true);
    need.set(last % 64, true);
    need
}

fn check_two_of_64<R: Abort + AllocGlobal>(
    rt: &R,
    column: &HorizontalColumn,
    first: usize,
    last: usize,
    units: u64,
)
    requires width { column.now.width ≡ 2 }
    requires count { length column.now.codes ≡ 64 }
{
    let need = two_of_64(rt, first, last);
    let found = scanned(rt, column, CodeTest::Cmp(CmpOp::Lt, 0), &need);
    see_at(rt, (first, last), found, (0, units));
}

/// A segment of codes of two bits is 63 rows and three words, so the 64th row lies in the second segment.
#[test]
fn words(rt: HostRuntime) {
    let column: HorizontalColumn = column_of(&rt, 2, &codes_of(&rt, 2, 64));
    check_two_of_64(&rt, &column, 0, 62, 3);
    check_two_of_64(&rt, &column, 63, 63, 3);
    check_two_of_64(&rt, &column, 5, 63, 6);
}

/// Tests for the code 0x96_0000_00a5 of 40 bits, which is 1001 0110, twenty-four zeros and 1010 0101, and the planes
/// that are read: the groups of four up to that of the first bit in which the two differ.
const PLANES_OF_40: [(CodeTest, u64); 9] = [
    (CodeTest::Cmp(CmpOp::Lt, 0x16_0000_00a5), 4),
    (CodeTest::Cmp(CmpOp::Lt, 0x80_0000_0000), 4),
    (CodeTest::Cmp(CmpOp::Ge, 0x97_0000_0000), 8),
    (CodeTest::Cmp(CmpOp::Ne, 0x96_0080_0000), 20),
    (CodeTest::Cmp(CmpOp::Lt, 0x96_0000_0100), 32),
    (CodeTest::Cmp(CmpOp::Le, 0x96_0000_00b5), 36),
    (CodeTest::Cmp(CmpOp::Gt, 0x96_0000_00a4), 40),
    (CodeTest::Cmp(CmpOp::Eq, 0x96_0000_00a5), 40),
    (CodeTest::Range(0x90_0000_0000, 0x96_0000_0100), 32),
];

/// The same for 33 ones, whose last plane is a group by itself.
const PLANES_OF_33: [(CodeTest, u64); 4] = [
    (CodeTest::Cmp(CmpOp::Lt, 0x1_0000_0000), 4),
    (CodeTest::Cmp(CmpOp::Gt, 0x1_ffff_fffd), 32),
    (CodeTest::Cmp(CmpOp::Gt, 0x1_ffff_fffe), 33),
    (CodeTest::Cmp(CmpOp::Eq, 0x1_ffff_ffff), 33),
];

/// The same for 64 ones.
const PLANES_OF_64: [(CodeTest, u64); 4] = [
    (CodeTest::Cmp(CmpOp::Lt, 0x8000_0000_0000_0000), 4),
    (CodeTest::Cmp(CmpOp::Gt, 0xffff_ffff_0000_0000), 36),
    (CodeTest::Cmp(CmpOp::Ge, 0xffff_ffff_ffff_fffe), 64),
    (CodeTest::Cmp(CmpOp::Eq, u64::MAX), 64),
];

/// Tests for the code 0x96_0000_00a5 of 40 bits, whose bytes are 96 00 00 00 a5, and the slices that are read: up to
/// the first byte in which the two differ.
const SLICES_OF_40: [(CodeTest, u64); 6] = [
    (CodeTest::Cmp(CmpOp::Lt, 0x97_0000_0000), 1),
    (CodeTest::Cmp(CmpOp::Ge, 0x96_8000_0000), 2),
    (CodeTest::Range(0x90_0000_0000, 0x96_0001_0000), 3),
    (CodeTest::Cmp(CmpOp::Lt, 0x96_0000_0100), 4),
    (CodeTest::Cmp(CmpOp::Gt, 0x96_0000_00a4), 5),
    (CodeTest::Cmp(CmpOp::Eq, 0x96_0000_00a5), 5),
];

/// The same for 33 ones, which are stored as the bytes ff ff ff ff 80.
const SLICES_OF_33: [(CodeTest, u64); 4] = [
    (CodeTest::Cmp(CmpOp::Lt, 0x1_0000_0000), 1),
    (CodeTest::Cmp(CmpOp::Gt, 0x1_ffff_fffd), 4),
    (CodeTest::Cmp(CmpOp::Gt, 0x1_ffff_fffe), 5),
    (CodeTest::Cmp(CmpOp::Eq, 0x1_ffff_ffff), 5),
];

/// The same for 64 ones.
const SLICES_OF_64: [(CodeTest, u64); 4] = [
    (CodeTest::Cmp(CmpOp::Lt, 0x8000_0000_0000_0000), 1),
    (CodeTest::Cmp(CmpOp::Gt, 0xffff_ffff_0000_0000), 5),
    (CodeTest::Cmp(CmpOp::Ge, 0xffff_ffff_ffff_fffe), 8),
    (CodeTest::Cmp(CmpOp::Eq, u64::MAX), 8),
];

/// Checks the units of scans of four rows, all with one code.
fn check_four<C: CodeColumn + Drop, R: Abort + AllocGlobal>(
    rt: &R,
    width: u32,
    code: u64,
    cases: &[(CodeTest, u64)],
)
    requires some { 1 ≤ width }
    requires narrow { width ≤ 64 }
    requires widest { width ≤ C.WIDEST }
{
    let four: C = column_of(rt, width, &[cut(code, width); 4]);
    check_units(rt, &four, width, cases);
}

#[test]
fn planes_of_wide_codes(rt: HostRuntime) {
    check_four::<VerticalColumn, _>(&rt, 33, u64::MAX, &PLANES_OF_33);
    check_four::<VerticalColumn, _>(&rt, 40, 0x96_0000_00a5, &PLANES_OF_40);
    check_four::<VerticalColumn, _>(&rt, 64, u64::MAX, &PLANES_OF_64);
}

#[test]
fn slices_of_wide_codes(rt: HostRuntime) {
    check_four::<SliceColumn, _>(&rt, 33, u64::MAX, &SLICES_OF_33);
    check_four::<SliceColumn, _>(&rt, 40, 0x96_0000_00a5, &SLICES_OF_40);
    check_four::<SliceColumn, _>(&rt, 64, u64::MAX, &SLICES_OF_64);
}
