//! Two columns of one layout, compared row by row, against their codes compared one by one.

ghost use Rattle.std.specs.Prelude.{length, ◌≡◌, ◌≤◌};
ghost use Rattle.bw_mask.specs.Masks.{len};
ghost use Rattle.bw_code.specs.Columns.{Fit};

use crate::codes::{
    OPERATORS, codes_of, column_of, filled, holds, need_of, other_codes, segment_rows,
};
use crate::seen::{see, see_at};
use bw_byteslice::SliceColumn;
use bw_code::{CmpOp, CodeColumn, Meter, PlainColumn};
use bw_horizontal::HorizontalColumn;
use bw_mask::Mask;
use bw_vertical::VerticalColumn;
use std::process::Abort;

/// The needed rows that a scan found are those whose codes satisfy the comparison.
fn check_found<R: Abort + AllocGlobal>(
    rt: &R,
    op: CmpOp,
    codes: &[u64],
    others: &[u64],
    need: &Mask,
    found: &Mask,
)
    requires others { length others.now ≡ length codes.now }
    requires need { len need.now ≡ length codes.now }
    requires found { len found.now ≡ length codes.now }
{
    for row in 0..codes.len() {
        let compares = holds(op, i128::from(codes[row]), i128::from(others[row]));
        see_at(rt, (op, row), found.get(row), need.get(row) && compares);
    }
}

/// Fills `found` with the needed rows whose codes satisfy the comparison, and returns how many units that read.
fn units_of_scan<C: CodeColumn + Drop, R: Abort + AllocGlobal>(
    rt: &R,
    width: u32,
    codes: &[u64],
    others: &[u64],
    op: CmpOp,
    need: &Mask,
    found: &mut Mask,
) -> u64
    requires some { 1 ≤ width }
    requires narrow { width ≤ C.WIDEST }
    requires few { length codes.now ≤ 1000 }
    requires fit { Fit width codes.now }
    requires others_fit { Fit width others.now }
    requires others { length others.now ≡ length codes.now }
    requires need { len need.now ≡ length codes.now }
    requires found { len found.old ≡ length codes.now }
    ensures { len found.new ≡ length codes.now }
{
    let column: C = column_of(rt, width, codes);
    let other: C = column_of(rt, width, others);
    let mut meter = Meter::new();
    column.scan_pair(&other, op, need, found, &mut meter);
    meter.units()
}

fn check_pair<C: CodeColumn + Drop, R: Abort + AllocGlobal>(
    rt: &R,
    width: u32,
    codes: &[u64],
    others: &[u64],
    op: CmpOp,
)
    requires some { 1 ≤ width }
    requires narrow { width ≤ C.WIDEST }
    requires few { length codes.now ≤ 1000 }
    requires fit { Fit width codes.now }
    requires others_fit { Fit width others.now }
    requires others { length others.now ≡ length codes.now }
{
    let need = need_of(rt, codes.len());
    let mut found = filled(rt, codes.len(), true);
    units_of_scan::<C, R>(rt, width, codes, others, op, &need, &mut found);
    check_found(rt, op, codes, others, &need, &found);
}

fn check_pairs<C: CodeColumn + Drop, R: Abort + AllocGlobal>(rt: &R, width: u32, rows: usize)
    requires some { 1 ≤ width }
    requires narrow { width ≤ 64 }
    requires widest { width ≤ C.WIDEST }
    requires few { rows ≤ 1000 }
{
    let codes = codes_of(rt, width, rows);
    let others = other_codes(rt, width, rows);
    for op in OPERATORS {
        check_pair::<C, R>(rt, width, &codes, &others, op);
    }
}

fn check_all_pairs<C: CodeColumn + Drop, R: Abort + AllocGlobal>(rt: &R)
    requires { 64 ≤ C.WIDEST }
{
    for width in 1..=64 {
        for rows in [1, 31, 32, 33, 63, 64, 65, 255, 256, 257] {
            check_pairs::<C, R>(rt, width, rows);
        }
    }
}

#[test]
fn against_their_codes(rt: HostRuntime) {
    check_all_pairs::<PlainColumn, _>(&rt);
    check_all_pairs::<VerticalColumn, _>(&rt);
    check_all_pairs::<SliceColumn, _>(&rt);
}

#[test]
fn words_against_their_codes(rt: HostRuntime) {
    for width in 1..=32 {
        let rows = segment_rows(width);
        for rows in [1, rows - 1, rows, rows + 1, 200] {
            check_pairs::<HorizontalColumn, _>(&rt, width, rows);
        }
    }
}

/// The rows where 0, 3 is below 3, 0, and the units read to decide it.
fn units_of_two_rows<C: CodeColumn + Drop, R: Abort + AllocGlobal>(rt: &R) -> (u64, u64)
    requires { 2 ≤ C.WIDEST }
{
    let need = filled(rt, 2, true);
    let mut found = filled(rt, 2, true);
    let units = units_of_scan::<C, R>(rt, 2, &[0, 3], &[3, 0], CmpOp::Lt, &need, &mut found);
    (found.bits(0, 2), units)
}

// For each column two codes, two planes, the three words of a segment, or one slice.
#[test]
fn units_of_a_pair(rt: HostRuntime) {
    let found = 0b01;
    see(&rt, units_of_two_rows::<PlainColumn, _>(&rt), (found, 4));
    see(&rt, units_of_two_rows::<VerticalColumn, _>(&rt), (found, 4));
    see(
        &rt,
        units_of_two_rows::<HorizontalColumn, _>(&rt),
        (found, 6),
    );
    see(&rt, units_of_two_rows::<SliceColumn, _>(&rt), (found, 2));
}

/// The same for two rows of 40 bits: in the first the codes agree in their 21 highest bits, and in the second in 4.
fn units_of_two_wide_rows<C: CodeColumn + Drop, R: Abort + AllocGlobal>(rt: &R) -> (u64, u64)
    requires { 40 ≤ C.WIDEST }
{
    let need = filled(rt, 2, true);
    let mut found = filled(rt, 2, true);
    let codes = [0x96_0000_00a5, 0x90_0000_0000];
    let others = [0x96_0004_00a5, 0x98_0000_0000];
    let units = units_of_scan::<C, R>(rt, 40, &codes, &others, CmpOp::Lt, &need, &mut found);
    (found.bits(0, 2), units)
}

// For each column two codes, the first six groups of four planes, which end with the plane that decides the first row,
// or the first three slices.
#[test]
fn units_of_a_wide_pair(rt: HostRuntime) {
    let found = 0b11;
    see(
        &rt,
        units_of_two_wide_rows::<PlainColumn, _>(&rt),
        (found, 4),
    );
    see(
        &rt,
        units_of_two_wide_rows::<VerticalColumn, _>(&rt),
        (found, 48),
    );
    see(
        &rt,
        units_of_two_wide_rows::<SliceColumn, _>(&rt),
        (found, 6),
    );
}
