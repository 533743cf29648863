//! Codes of some rows exchanged between two columns, in each layout.

ghost use Rattle.std.specs.Prelude.{◌<◌, ◌≡◌, ◌≤◌};
ghost use Rattle.bw_mask.specs.Masks.{len};

use crate::codes::{codes_of, filled, other_codes};
use crate::copies::{Copies, random_rows};
use crate::seen::see_at;
use crate::shifts::column_with;
use bw_byteslice::SliceColumn;
use bw_code::{CodeColumn, PlainColumn};
use bw_horizontal::HorizontalColumn;
use bw_mask::Mask;
use bw_vertical::VerticalColumn;
use std::process::Abort;

/// Each column has the other's code in these rows, and its own in the others. Returns both columns.
fn exchanged<C: CodeColumn + Drop, R: Abort + AllocGlobal>(
    rt: &R,
    width: u32,
    rows: &Mask,
) -> (C, C)
    requires some { 1 ≤ width }
    requires narrow { width ≤ 64 }
    requires widest { width ≤ C.WIDEST }
    requires few { len rows.now ≤ 10000 }
{
    let codes = codes_of(rt, width, rows.len());
    let others = other_codes(rt, width, rows.len());
    let mut column: C = column_with(rt, width, &codes);
    let mut other: C = column_with(rt, width, &others);
    column.exchange_rows(&mut other, rows);
    for row in 0..codes.len() {
        let (own, theirs) = if rows.get(row) {
            (others[row], codes[row])
        } else {
            (codes[row], others[row])
        };
        see_at(rt, (width, row), column.get(row), own);
        see_at(rt, (width, row), other.get(row), theirs);
    }
    (column, other)
}

/// The same in each layout that has codes of this width.
fn check_exchange<R: Abort + AllocGlobal>(rt: &R, width: u32, rows: &Mask)
    requires some { 1 ≤ width }
    requires narrow { width ≤ 64 }
    requires few { len rows.now ≤ 10000 }
{
    let (planes, other_planes): (VerticalColumn, VerticalColumn) = exchanged(rt, width, rows);
    planes.check_past(rt);
    other_planes.check_past(rt);
    let (slices, other_slices): (SliceColumn, SliceColumn) = exchanged(rt, width, rows);
    slices.check_past(rt);
    other_slices.check_past(rt);
    let _plain: (PlainColumn, PlainColumn) = exchanged(rt, width, rows);
    if width <= 32 {
        let _words: (HorizontalColumn, HorizontalColumn) = exchanged(rt, width, rows);
    }
}

#[test]
fn rows_exchanged_at_each_width(rt: HostRuntime) {
    for width in 1..=64 {
        check_exchange(&rt, width, &random_rows(&rt, 300));
    }
}

#[test]
fn exchanged_ends(rt: HostRuntime) {
    for width in [1, 9, 32, 33, 64] {
        for rows in [0, 1, 63, 64, 65, 255, 256, 257] {
            check_exchange(&rt, width, &random_rows(&rt, rows));
            check_exchange(&rt, width, &filled(&rt, rows, true));
            check_exchange(&rt, width, &filled(&rt, rows, false));
        }
    }
}

#[test]
fn many_exchanged_rows(rt: HostRuntime) {
    for width in [6, 32, 40] {
        for rows in [4095, 4096, 4097, 8300] {
            check_exchange(&rt, width, &random_rows(&rt, rows));
        }
    }
}
