//! Distances of cells from a base: cells in memory, and those of a table file.

use crate::files_seen::table_of;
use crate::seen::see_at;
use crate::table_files::NINE_ROWS;
use bw_cells::Measured;
use std::process::Abort;

// Checks the distance of each of the cells from the base, and which of them are integers.
fn check_distances<R: Abort, C: Measured>(
    rt: &R,
    cells: &C,
    base: i64,
    distances: &[u64],
    present: u64,
) {
    assert!(rt; cells.len() == distances.len() && distances.len() <= 64);
    let mut numbers = [1; 64];
    let run = &mut numbers[..distances.len()];
    see_at(rt, base, cells.distances(0, base, run), present);
    see_at(rt, base, &*run, distances);
}

// For a cell below the base the distance wraps around: 2^64 minus the difference.
#[test]
fn distances_in_memory(rt: HostRuntime) {
    let cells: &[Option<i64>] = &[Some(5), None, Some(-3), Some(i64::MAX), Some(i64::MIN)];
    let from_least = [
        9_223_372_036_854_775_813,
        0,
        9_223_372_036_854_775_805,
        18_446_744_073_709_551_615,
        0,
    ];
    let from_minus_3 = [
        8,
        0,
        0,
        9_223_372_036_854_775_810,
        9_223_372_036_854_775_811,
    ];
    check_distances(&rt, &cells, i64::MIN, &from_least, 0b11101);
    check_distances(&rt, &cells, -3, &from_minus_3, 0b11101);
}

#[test]
fn distances_of_nine_rows(rt: HostRuntime) {
    let table = table_of(&rt, &NINE_ROWS, 9, 2);
    let columns = table.columns();
    let odd = [0, 0, 2, 0, 4, 0, 6, 0, 8];
    let odd_from_9 = [
        18_446_744_073_709_551_608,
        0,
        18_446_744_073_709_551_610,
        0,
        18_446_744_073_709_551_612,
        0,
        18_446_744_073_709_551_614,
        0,
        0,
    ];
    check_distances(&rt, &columns[0], 1, &odd, 0b1_0101_0101);
    check_distances(&rt, &columns[0], 9, &odd_from_9, 0b1_0101_0101);
    let ends = [0, 0, 0, 0, 0, 0, 0, 0, 4_294_967_295];
    check_distances(&rt, &columns[1], -2_147_483_648, &ends, 0b1_0000_0001);
}
