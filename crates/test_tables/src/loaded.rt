//! Rows in the form of a file's rows, compared with the same rows in the form of a statement's.

use crate::harness::{Cell, insert, load, rows_of, table_of};
use crate::random::LAYOUTS;
use crate::seen::see_at;
use bw_code::{Kind, Layout};
use bw_table::Table;
use std::process::Abort;

/// Cells of rows, repeated. Seven divides neither 64 nor a width, so no two consecutive runs of rows begin alike.
const CELLS: [Cell; 7] = [
    Some(-2_147_483_648),
    None,
    Some(2_147_483_647),
    Some(0),
    Some(-1),
    None,
    Some(77),
];

/// The same cells, as a table returns them.
const VALUES: [Option<i64>; 7] = [
    Some(-2_147_483_648),
    None,
    Some(2_147_483_647),
    Some(0),
    Some(-1),
    None,
    Some(77),
];

/// 420 cells.
fn many_cells<R: Abort + AllocGlobal>(rt: &R) -> Vec<Cell> {
    let mut cells = Vec::new(rt.alloc());
    for _ in 0..60 {
        cells.extend_from_slice(&CELLS).expect(rt, "memory");
    }
    cells
}

/// Checks the values of a table that got the cells twice.
fn check_values<R: Abort + AllocGlobal>(rt: &R, table: Table<usize>, column: (Layout, Kind)) {
    let values = rows_of(rt, &table);
    assert!(rt; values.len() == 840);
    for i in 0..values.len() {
        see_at(rt, (column, i), values[i], VALUES[i % 7]);
    }
}

/// Checks the values of a table that gets the rows twice, the second time after others.
fn check_loaded<R: Abort + AllocGlobal>(
    rt: &R,
    mut table: Table<usize>,
    column: (Layout, Kind),
    cells: &[Cell],
) {
    load(rt, &mut table, cells);
    load(rt, &mut table, cells);
    check_values(rt, table, column);
}

/// Checks the values of a table that gets the rows twice in the form of a statement's rows.
fn check_inserted<R: Abort + AllocGlobal>(
    rt: &R,
    mut table: Table<usize>,
    column: (Layout, Kind),
    cells: &[Cell],
) {
    insert(rt, &mut table, cells);
    insert(rt, &mut table, cells);
    check_values(rt, table, column);
}

#[test]
fn rows_in_the_form_of_a_file(rt: HostRuntime) {
    let cells = many_cells(&rt);
    for layout in LAYOUTS {
        for kind in [Kind::Offset, Kind::Dictionary] {
            let column = (layout, kind);
            for columns in [&[column][..], &[column, column, column]] {
                check_loaded(&rt, table_of(&rt, columns), column, &cells);
                check_inserted(&rt, table_of(&rt, columns), column, &cells);
            }
        }
    }
}
