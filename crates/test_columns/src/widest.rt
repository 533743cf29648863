//! Sums and ends of the largest number of rows, each as far from the base as 64 bits allow.

use crate::columns::column_of;
use crate::seen::see_at;
use crate::set_functions::{Answers, answered_at_once};
use bw_code::{Kind, Layout};
use bw_mask::Mask;
use std::process::Abort;

const ROWS: usize = 16_777_216;

/// One value, followed by another in all later rows.
fn values_of<R: Abort + AllocGlobal>(rt: &R, first: i64, rest: i64) -> Vec<Option<i64>> {
    let mut values = Vec::from_elem(rt.alloc(), Some(rest), ROWS).expect(rt, "memory");
    if values.len() > 0 {
        values[0] = Some(first);
    }
    values
}

/// Checks the answers of all rows of a column.
fn check_column<R: Abort + AllocGlobal>(
    rt: &R,
    values: &[Option<i64>],
    way: (Layout, Kind),
    wanted: Answers,
) {
    let column = column_of(rt, values, way.0, way.1);
    let rows = Mask::filled(rt.alloc(), column.len(), true).expect(rt, "memory");
    see_at(rt, way, answered_at_once(rt, &column, &rows), wanted);
}

/// Checks columns whose distances from the base are all, except one, the largest 64-bit number, or 0.
fn check_ways<R: Abort + AllocGlobal>(rt: &R, first: i64, rest: i64, sum: i128) {
    let values = values_of(rt, first, rest);
    let wanted = (
        ROWS as u64,
        Some(sum),
        Some(i64::MIN),
        Some(i64::MAX),
        Some(rest),
    );
    for layout in [Layout::P, Layout::V, Layout::S] {
        check_column(rt, &values, (layout, Kind::Offset), wanted);
    }
    check_column(rt, &values, (Layout::V, Kind::Dictionary), wanted);
}

// The sums are 2^87 - 2^64 - 2^24 + 1, and 2^64 - 2^87 - 1.
#[test]
fn sums_of_all_rows_at_the_ends_of_64_bits(rt: HostRuntime) {
    check_ways(&rt, i64::MIN, i64::MAX, 154_742_486_463_928_460_636_061_697);
    check_ways(
        &rt,
        i64::MAX,
        i64::MIN,
        -154_742_486_463_928_460_652_838_913,
    );
}
