//! Set functions of columns with more rows than the 65,536 whose planes are processed at once, compared with a plain
//! fold over the values.

use crate::columns::column_of;
use crate::random::LAYOUTS;
use crate::seen::see_at;
use crate::set_functions::{
    Answers, Reach, answered_at_once, cell, chosen_values, folded, mask_of,
};
use bw_code::{Kind, Layout};
use bw_mask::Mask;
use std::process::Abort;

/// Numbers of rows: one block and a part of another, and three blocks and a row.
const LENGTHS: [usize; 2] = [65_536 + 300, 3 * 65_536 + 1];

/// The number of possible values below the greatest.
const VALUES: u64 = 100_000;

/// The next number (Knuth's linear congruential generator MMIX).
fn number_after(number: u64) -> u64 {
    number
        .wrapping_mul(6_364_136_223_846_793_005)
        .wrapping_add(1_442_695_040_888_963_407)
}

/// `length` values, with the greatest only in the last row. If `nulls`, one in eight is null.
fn many_values<R: Abort + AllocGlobal>(rt: &R, length: usize, nulls: bool) -> Vec<Option<i64>> {
    let mut values = Vec::new(rt.alloc());
    let mut number = 1;
    for _ in 1..length {
        number = number_after(number);
        let is_known = !nulls || number >> 29 & 7 != 0;
        values
            .push(cell(is_known, (number >> 32) % VALUES, Reach::Integer))
            .expect(rt, "memory");
    }
    values
        .push(cell(true, VALUES, Reach::Integer))
        .expect(rt, "memory");
    values
}

/// Three of four rows after the first 60,000, and the last row, so the first block has fewer of them than a whole
/// block.
fn many_rows<R: Abort + AllocGlobal>(rt: &R, length: usize) -> Vec<bool> {
    let mut chosen = Vec::new(rt.alloc());
    let mut number = 2;
    for row in 1..length {
        number = number_after(number);
        chosen
            .push(row > 60_000 && number >> 40 & 3 != 0)
            .expect(rt, "memory");
    }
    chosen.push(true).expect(rt, "memory");
    chosen
}

/// Checks the answers of some rows of a column.
fn check_column<R: Abort + AllocGlobal>(
    rt: &R,
    values: &[Option<i64>],
    way: (Layout, Kind),
    rows: &Mask,
    wanted: Answers,
) {
    let column = column_of(rt, values, way.0, way.1);
    assert!(rt; rows.len() == column.len());
    see_at(
        rt,
        (way, rows.len()),
        answered_at_once(rt, &column, rows),
        wanted,
    );
}

/// Checks a column of this many rows in each layout.
fn check_layouts<R: Abort + AllocGlobal>(rt: &R, length: usize, nulls: bool, kind: Kind) {
    let values = many_values(rt, length, nulls);
    let chosen = many_rows(rt, length);
    let rows = mask_of(rt, &chosen);
    let wanted = folded(rt, &mut chosen_values(rt, &values, &chosen));
    for layout in LAYOUTS {
        check_column(rt, &values, (layout, kind), &rows, wanted);
    }
}

#[test]
fn columns_of_several_blocks(rt: HostRuntime) {
    for length in LENGTHS {
        check_layouts(&rt, length, false, Kind::Offset);
        check_layouts(&rt, length, true, Kind::Offset);
    }
    check_layouts(&rt, LENGTHS[0], true, Kind::Dictionary);
}
