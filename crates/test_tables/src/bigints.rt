//! Columns of BIGINTs, also beside columns of INTEGERs.

use crate::harness::{
    To, delete, fill, insert_wide, mixed_table, rebuild, rebuild_as_is, rows_of, see_refused,
    set_one, set_two, wide_table_of,
};
use crate::seen::{see, see_at};
use bw_code::{Kind, Layout};
use bw_table::{Choice, Table};
use std::process::Abort;

const ALL: u64 = u64::MAX;

/// The layouts that hold BIGINTs.
pub(crate) const LAYOUTS: [Layout; 3] = [Layout::P, Layout::V, Layout::S];

pub(crate) const KINDS: [Kind; 2] = [Kind::Offset, Kind::Dictionary];

/// The column of the INTEGERs.
const SMALL: (Layout, Kind) = (Layout::H, Kind::Offset);

const LEAST: Option<i64> = Some(i64::MIN);

const GREATEST: Option<i64> = Some(i64::MAX);

/// Checks that a table has these rows, in order, and no other slots.
fn check<R: Abort + AllocGlobal>(rt: &R, table: &Table<usize>, cells: &[Option<i64>]) {
    assert!(rt; rows_of(rt, table).as_slice() == cells);
    see(rt, table.slot_count(), cells.len() / 2);
}

/// A table of two columns of BIGINTs, with the least and the greatest BIGINT.
fn ends_in<R: Abort + AllocGlobal>(rt: &R, column: (Layout, Kind)) -> Table<usize> {
    let mut table = wide_table_of(rt, &[column, (Layout::P, Kind::Offset)]);
    let cells = [LEAST, Some(1), None, GREATEST, GREATEST, LEAST];
    insert_wide(rt, &mut table, &cells);
    check(rt, &table, &cells);
    table
}

/// Sets columns of BIGINTs to each other, and to an end of the type.
fn check_updates<R: Abort + AllocGlobal>(rt: &R, table: &mut Table<usize>) {
    set_two(rt, table, ALL, (0, To::Column(1)), (1, To::Column(0)));
    check(
        rt,
        table,
        &[Some(1), LEAST, GREATEST, None, LEAST, GREATEST],
    );
    fill(rt, table, 0b010, 1, LEAST);
    fill(rt, table, 0b100, 0, GREATEST);
    check(
        rt,
        table,
        &[Some(1), LEAST, GREATEST, LEAST, GREATEST, GREATEST],
    );
}

/// Rebuilds the columns, in another layout and without the first row.
fn check_rebuilds<R: Abort + AllocGlobal>(rt: &R, table: &mut Table<usize>, layout: Layout) {
    let kind = Some(Kind::Dictionary);
    rebuild(rt, table, 1, Choice { layout, kind });
    delete(rt, table, 0b001);
    table.compact(rt.alloc()).expect(rt, "memory");
    rebuild_as_is(rt, table);
    check(rt, table, &[GREATEST, LEAST, GREATEST, GREATEST]);
}

#[test]
fn the_ends_of_bigints(rt: HostRuntime) {
    for layout in LAYOUTS {
        for kind in KINDS {
            let mut table = ends_in(&rt, (layout, kind));
            check_updates(&rt, &mut table);
            check_rebuilds(&rt, &mut table, layout);
        }
    }
}

/// The INTEGERs in the rows below, one for each BIGINT.
const NEXT: [Option<i64>; 5] = [
    Some(-2_147_483_649),
    Some(-2_147_483_648),
    None,
    Some(2_147_483_647),
    Some(2_147_483_648),
];

/// One row for each BIGINT, with 7 in the INTEGER column.
fn next_to_ends<R: Abort + AllocGlobal>(rt: &R, big: (Layout, Kind)) -> Table<usize> {
    let mut table = mixed_table(rt, big, SMALL);
    for value in NEXT {
        insert_wide(rt, &mut table, &[value, Some(7)]);
    }
    table
}

/// Checks the rows, which have these INTEGERs.
fn check_small<R: Abort + AllocGlobal>(rt: &R, table: &Table<usize>, small: [Option<i64>; 5]) {
    let cells = rows_of(rt, table);
    assert!(rt; cells.len() == 10);
    for row in 0..5 {
        see_at(
            rt,
            row,
            (cells[2 * row], cells[2 * row + 1]),
            (NEXT[row], small[row]),
        );
    }
}

/// Copies BIGINTs to the INTEGER column. That works if each found value is an INTEGER, and else nothing changes.
fn check_copies<R: Abort + AllocGlobal>(rt: &R, big: (Layout, Kind)) {
    let seven = Some(7);
    let mut table = next_to_ends(rt, big);
    for word in [0b00001, 0b10000, 0b10010, 0b00011, ALL] {
        see_refused(rt, &mut table, word, 1, 0);
        check_small(rt, &table, [seven, seven, seven, seven, seven]);
    }
    set_one(rt, &mut table, 0b01110, (1, To::Column(0)));
    check_small(rt, &table, [seven, NEXT[1], None, NEXT[3], seven]);
    set_one(rt, &mut table, 0, (1, To::Column(0)));
    set_one(rt, &mut table, 0b00001, (1, To::Column(1)));
    check_small(rt, &table, [seven, NEXT[1], None, NEXT[3], seven]);
    set_one(rt, &mut table, ALL, (0, To::Column(1)));
    set_one(rt, &mut table, ALL, (1, To::Column(0)));
}

#[test]
fn bigints_copied_to_integers(rt: HostRuntime) {
    for layout in LAYOUTS {
        for kind in KINDS {
            check_copies(&rt, (layout, kind));
        }
    }
}

/// Five words of rows. All but one have INTEGERs in both columns.
fn one_far<R: Abort + AllocGlobal>(rt: &R, big: (Layout, Kind), far: usize) -> Table<usize> {
    let mut table = mixed_table(rt, big, SMALL);
    for row in 0..300 {
        let value = if row == far {
            1 << 40
        } else {
            row as i64 - 150
        };
        insert_wide(rt, &mut table, &[Some(value), Some(0)]);
    }
    table
}

/// The two values of a row.
fn row_of<R: Abort>(rt: &R, table: &Table<usize>, row: usize) -> (Option<i64>, Option<i64>) {
    assert!(rt; row < table.slot_count());
    assert!(rt; table.headers().len() == 2);
    (table.fetch(row, 0), table.fetch(row, 1))
}

/// The one value that isn't an INTEGER is not copied; the others are, if its row is not found.
fn check_far<R: Abort + AllocGlobal>(rt: &R, big: (Layout, Kind), far: usize) {
    let mut table = one_far(rt, big, far);
    see_refused(rt, &mut table, ALL, 1, 0);
    see_refused(rt, &mut table, 1 << (far % 64), 1, 0);
    set_one(rt, &mut table, !(1 << (far % 64)), (1, To::Column(0)));
    see_at(rt, far, row_of(rt, &table, far), (Some(1 << 40), Some(0)));
    let near = far.wrapping_add(1) % 300;
    let value = Some(near as i64 - 150);
    see_at(rt, far, row_of(rt, &table, near), (value, value));
}

#[test]
fn a_value_of_many_words_that_is_outside(rt: HostRuntime) {
    for kind in KINDS {
        for far in [0, 63, 64, 130, 299] {
            check_far(&rt, (Layout::V, kind), far);
        }
    }
}
