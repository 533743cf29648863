//! One code written to many rows, in each layout.

ghost use Rattle.std.specs.Prelude.{◌<◌, ◌^◌, ◌≡◌, ◌≤◌};
ghost use Rattle.bw_mask.specs.Masks.{len};

use crate::codes::{FREQUENT, codes_of, cut, filled};
use crate::copies::{Copies, random_rows};
use crate::seen::see_at;
use crate::shifts::column_with;
use bw_byteslice::SliceColumn;
use bw_code::{CodeColumn, PlainColumn};
use bw_horizontal::HorizontalColumn;
use bw_mask::Mask;
use bw_vertical::VerticalColumn;
use std::process::Abort;

/// The code is found in the rows, and the other rows keep theirs. Returns the column.
fn filled_column<C: CodeColumn + Drop, R: Abort + AllocGlobal>(
    rt: &R,
    width: u32,
    rows: &Mask,
    code: u64,
) -> C
    requires some { 1 ≤ width }
    requires narrow { width ≤ 64 }
    requires widest { width ≤ C.WIDEST }
    requires few { len rows.now ≤ 10000 }
    requires fits { code < 2 ^ width }
{
    let codes = codes_of(rt, width, rows.len());
    let mut column: C = column_with(rt, width, &codes);
    column.fill_rows(rows, code);
    for row in 0..codes.len() {
        let wanted = if rows.get(row) { code } else { codes[row] };
        see_at(rt, (width, code, row), column.get(row), wanted);
    }
    column
}

/// The same in each layout that has codes of this width.
fn check_fill<R: Abort + AllocGlobal>(rt: &R, width: u32, rows: &Mask, code: u64)
    requires some { 1 ≤ width }
    requires narrow { width ≤ 64 }
    requires few { len rows.now ≤ 10000 }
    requires fits { code < 2 ^ width }
{
    let planes: VerticalColumn = filled_column(rt, width, rows, code);
    planes.check_past(rt);
    let slices: SliceColumn = filled_column(rt, width, rows, code);
    slices.check_past(rt);
    let _plain: PlainColumn = filled_column(rt, width, rows, code);
    if width <= 32 {
        let _words: HorizontalColumn = filled_column(rt, width, rows, code);
    }
}

/// The same for 0, all ones, and a code of which some bits are set.
fn check_codes<R: Abort + AllocGlobal>(rt: &R, width: u32, rows: &Mask)
    requires some { 1 ≤ width }
    requires narrow { width ≤ 64 }
    requires few { len rows.now ≤ 10000 }
{
    for code in [0, u64::MAX, FREQUENT] {
        check_fill(rt, width, rows, cut(code, width));
    }
}

fn check_rows<R: Abort + AllocGlobal>(rt: &R, width: u32, rows: usize)
    requires some { 1 ≤ width }
    requires narrow { width ≤ 64 }
    requires few { rows ≤ 10000 }
{
    check_codes(rt, width, &filled(rt, rows, false));
    check_codes(rt, width, &filled(rt, rows, true));
    check_codes(rt, width, &random_rows(rt, rows));
}

#[test]
fn rows_filled_at_each_width(rt: HostRuntime) {
    for width in 1..=64 {
        check_codes(&rt, width, &random_rows(&rt, 257));
    }
}

#[test]
fn filled_ends(rt: HostRuntime) {
    for width in [1, 9, 32, 64] {
        for rows in [1, 64, 65, 255, 256, 257] {
            check_rows(&rt, width, rows);
        }
    }
}

#[test]
fn many_filled_rows(rt: HostRuntime) {
    for width in [6, 33] {
        for rows in [4095, 4096, 4097, 8300] {
            let code = cut(FREQUENT, width);
            check_fill(&rt, width, &random_rows(&rt, rows), code);
        }
    }
}
