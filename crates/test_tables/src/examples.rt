//! Worked examples of tables: how each change affects rows, slots and encodings.

use crate::harness::{
    Cell, To, check_last, check_rows, delete, header_of, insert, opened, picked, rebuild,
    rebuild_as_is, rows_of, set_one, set_two, span_of, table_of,
};
use crate::random::LAYOUTS;
use crate::seen::{see, see_at};
use bw_code::{Kind, Layout};
use bw_table::{Choice, Table};
use std::process::Abort;

const ALL: u64 = u64::MAX;

const OFFSET: (Layout, Kind) = (Layout::P, Kind::Offset);

const DICTIONARY: (Layout, Kind) = (Layout::V, Kind::Dictionary);

/// (i, i mod 2) for i from 1 to 300, with the rows of 0 deleted.
fn odd_rows<R: Abort + AllocGlobal>(rt: &R) -> Table<usize> {
    let mut table = table_of(rt, &[DICTIONARY, OFFSET]);
    for i in 1..301 {
        insert(rt, &mut table, &[Some(i), Some(i % 2)]);
    }
    // The first row is odd, the second is even, and so on.
    delete(rt, &mut table, 0xaaaa_aaaa_aaaa_aaaa);
    table
}

/// Checks the odd rows of a table of this many slots, and the layout and kind of its first column.
fn check_odd_rows<R: Abort + AllocGlobal>(
    rt: &R,
    table: Table<usize>,
    slots: usize,
    first: (Layout, Kind),
) {
    see(rt, (table.row_count(), table.slot_count()), (150, slots));
    see(rt, header_of(&table, 0), Some((0, first.0, first.1)));
    see(rt, header_of(&table, 1), Some((1, Layout::P, Kind::Offset)));
    see(rt, header_of(&table, 2), None);
    check_odd_cells(rt, &rows_of(rt, &table));
}

fn check_odd_cells<R: Abort>(rt: &R, cells: &[Option<i64>]) {
    assert!(rt; cells.len() == 300);
    for row in 0..150 {
        let wanted = (Some(2 * row as i64 + 1), Some(1));
        see_at(rt, row, (cells[2 * row], cells[2 * row + 1]), wanted);
    }
}

#[test]
fn a_delete_leaves_dead_slots(rt: HostRuntime) {
    check_odd_rows(&rt, odd_rows(&rt), 300, DICTIONARY);
}

#[test]
fn a_rebuild_drops_dead_slots(rt: HostRuntime) {
    let mut table = odd_rows(&rt);
    let choice = Choice {
        layout: Layout::H,
        kind: None,
    };
    rebuild(&rt, &mut table, 0, choice);
    see(&rt, span_of(&table, 1), Some((1, 1)));
    check_odd_rows(&rt, table, 150, (Layout::H, Kind::Dictionary));
}

#[test]
fn a_compact_drops_dead_slots(rt: HostRuntime) {
    let mut table = odd_rows(&rt);
    table.compact(rt.alloc()).expect(&rt, "memory");
    check_odd_rows(&rt, table, 150, DICTIONARY);
}

/// The least and the greatest INTEGER with a null between them, beside another column.
const OPENED: [Cell; 6] = [
    Some(i32::MIN),
    Some(7),
    None,
    Some(-7),
    Some(i32::MAX),
    None,
];

/// A table of these cells, made of two columns, the first in this layout and of this kind.
fn opened_in<R: Abort + AllocGlobal>(rt: &R, column: (Layout, Kind)) -> Table<usize> {
    let first = [OPENED[0], OPENED[2], OPENED[4]];
    let second = [OPENED[1], OPENED[3], OPENED[5]];
    opened(rt, &[column, OFFSET], first, second)
}

/// The cells are read back from a table, and it is changed like any other.
fn check_opened<R: Abort + AllocGlobal>(rt: &R, column: (Layout, Kind)) {
    let mut table = opened_in(rt, column);
    check_rows(rt, &table, &OPENED);
    see(rt, header_of(&table, 0), Some((0, column.0, column.1)));
    see(rt, span_of(&table, 1), Some((-7, 4)));
    delete(rt, &mut table, 0b010);
    insert(rt, &mut table, &[None, Some(8)]);
    see(rt, (table.row_count(), table.slot_count()), (3, 4));
    drop(table);
}

#[test]
fn columns_that_become_a_table(rt: HostRuntime) {
    for layout in LAYOUTS {
        check_opened(&rt, (layout, Kind::Offset));
        check_opened(&rt, (layout, Kind::Dictionary));
    }
}

const THREE_ROWS: [Cell; 3] = [Some(7), None, Some(10)];

/// A table of one column of kind DICTIONARY with three rows.
fn three_rows<R: Abort + AllocGlobal>(rt: &R) -> Table<usize> {
    let mut table = table_of(rt, &[DICTIONARY]);
    insert(rt, &mut table, &THREE_ROWS);
    table
}

/// Checks the three rows of a table, and its column's layout, kind and span.
fn check_three<R: Abort + AllocGlobal>(
    rt: &R,
    table: Table<usize>,
    header: (Layout, Kind),
    span: Option<(i64, u32)>,
) {
    see(rt, header_of(&table, 0), Some((0, header.0, header.1)));
    see(rt, span_of(&table, 0), span);
    check_last(rt, table, &THREE_ROWS, 3);
}

#[test]
fn a_rebuild_without_choices_keeps_the_kind(rt: HostRuntime) {
    let mut table = three_rows(&rt);
    rebuild_as_is(&rt, &mut table);
    check_three(&rt, table, DICTIONARY, None);
}

#[test]
fn a_rebuild_may_change_the_kind(rt: HostRuntime) {
    let mut table = three_rows(&rt);
    let choice = Choice {
        layout: Layout::S,
        kind: Some(Kind::Offset),
    };
    rebuild(&rt, &mut table, 0, choice);
    check_three(&rt, table, (Layout::S, Kind::Offset), Some((7, 2)));
}

#[test]
fn encoded_anew_where_a_value_has_no_code(rt: HostRuntime) {
    let mut table = table_of(&rt, &[OFFSET]);
    see(&rt, span_of(&table, 0), Some((0, 1)));
    insert(&rt, &mut table, &[Some(1), Some(2), Some(3)]);
    see(&rt, span_of(&table, 0), Some((1, 2)));
    set_one(&rt, &mut table, 0b010, (0, To::Value(Some(1_000_000))));
    check_rows(&rt, &table, &[Some(1), Some(1_000_000), Some(3)]);
    see(&rt, span_of(&table, 0), Some((1, 20)));
    set_one(&rt, &mut table, ALL, (0, To::Value(None)));
    see(&rt, span_of(&table, 0), Some((1, 20)));
    check_last(&rt, table, &[None, None, None], 3);
}

#[test]
fn encoded_anew_by_the_first_values(rt: HostRuntime) {
    let mut table = table_of(&rt, &[OFFSET]);
    for (cell, span) in [(None, (0, 1)), (Some(1), (0, 1)), (Some(2), (1, 1))] {
        insert(&rt, &mut table, &[cell]);
        see_at(&rt, cell, span_of(&table, 0), Some(span));
    }
    check_last(&rt, table, &[None, Some(1), Some(2)], 3);
}

#[test]
fn columns_are_set_all_at_once(rt: HostRuntime) {
    let mut table = table_of(&rt, &[OFFSET, DICTIONARY]);
    insert(&rt, &mut table, &[Some(1), Some(2), None, Some(5)]);
    set_two(&rt, &mut table, ALL, (0, To::Column(1)), (1, To::Column(0)));
    check_last(&rt, table, &[Some(2), Some(1), Some(5), None], 2);
}

/// What a column of the middle row is set to, and the row after that.
const SETS: [(usize, To, Cell, Cell); 6] = [
    (0, To::Value(Some(-9)), Some(-9), Some(4)),
    (1, To::Value(None), Some(3), None),
    (0, To::Column(1), Some(4), Some(4)),
    (1, To::Column(0), Some(3), Some(3)),
    (0, To::Column(0), Some(3), Some(4)),
    (1, To::Column(1), Some(3), Some(4)),
];

/// A table of two columns with these rows.
fn two_columns<R: Abort + AllocGlobal>(rt: &R, cells: &[Cell]) -> Table<usize> {
    let mut table = table_of(rt, &[OFFSET, DICTIONARY]);
    insert(rt, &mut table, cells);
    table
}

#[test]
fn an_updated_row_keeps_its_place(rt: HostRuntime) {
    for (column, to, a, b) in SETS {
        let mut table = two_columns(&rt, &[Some(1), Some(2), Some(3), Some(4), Some(5), None]);
        set_one(&rt, &mut table, 0b010, (column, to));
        check_last(&rt, table, &[Some(1), Some(2), a, b, Some(5), None], 3);
    }
}

#[test]
fn no_rows_inserted(rt: HostRuntime) {
    check_last(&rt, two_columns(&rt, &[]), &[], 0);
}

/// Sets no column in all rows.
fn set_nothing<R: Abort + AllocGlobal>(rt: &R, table: &mut Table<usize>) {
    let found = picked(rt, table, ALL);
    table.update(rt.alloc(), &found, &[]).expect(rt, "memory");
}

#[test]
fn changes_of_nothing(rt: HostRuntime) {
    let cells = [Some(1), Some(2), None, Some(5)];
    let mut table = two_columns(&rt, &cells);
    set_one(&rt, &mut table, 0, (0, To::Value(Some(8))));
    delete(&rt, &mut table, 0);
    rebuild_as_is(&rt, &mut table);
    set_nothing(&rt, &mut table);
    see(&rt, table.row_count(), 2);
    check_last(&rt, table, &cells, 2);
}
