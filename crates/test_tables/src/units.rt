//! What conditions read of a column in each layout: of planes, words of sections and slices, as many units as the rows
//! of a segment need; of plain codes, one unit for each needed row that isn't NULL.

use crate::conditions::{number, two};
use crate::harness::{Cell, insert, table_of};
use crate::random::LAYOUTS;
use crate::seen::{see, see_at};
use bw_code::{Kind, Layout, Meter};
use bw_plan::{Predicate, RowCondition, Source, evaluate};
use bw_sql::CompareOp;
use bw_table::Table;
use std::process::Abort;

/// A table of one column in a layout with the 32 values 0 to 15 and 240 to 255.
fn two_ends<R: Abort + AllocGlobal>(rt: &R, layout: Layout) -> Table<usize> {
    let mut cells: Vec<Cell> = Vec::new(rt.alloc());
    for value in 0..16 {
        cells.push(Some(value)).expect(rt, "memory");
    }
    for value in 240..256 {
        cells.push(Some(value)).expect(rt, "memory");
    }
    let mut table = table_of(rt, &[(layout, Kind::Offset)]);
    insert(rt, &mut table, cells.as_slice());
    table
}

/// The number of units that the condition reads over all slots of the table.
fn units_of<R: Abort + AllocGlobal>(rt: &R, table: Table<usize>, condition: &RowCondition) -> u64 {
    let mut meter = Meter::new();
    let truth = evaluate(
        rt.alloc(),
        condition,
        table.slots(),
        table.live(),
        &mut meter,
    );
    truth.expect(rt, "memory");
    meter.units()
}

/// The numbers of units that the condition reads over all slots of that table in the layouts P, V, H and S.
fn units<R: Abort + AllocGlobal>(rt: &R, condition: &RowCondition) -> [u64; 4] {
    let mut units = [0; 4];
    for i in 0..4 {
        units[i] = units_of(rt, two_ends(rt, LAYOUTS[i]), condition);
    }
    units
}

/// Checks how many units the condition reads in each layout.
fn see_units<R: Abort + AllocGlobal>(rt: &R, condition: RowCondition, wanted: [u64; 4]) {
    see(rt, units(rt, &condition), wanted);
}

/// Checks how many units a single predicate reads in each layout.
fn see_predicate<R: Abort + AllocGlobal>(rt: &R, predicate: Predicate, wanted: [u64; 4]) {
    see_units(rt, RowCondition::Test(predicate), wanted);
}

fn column() -> Source {
    Source::Place(0)
}

fn compared(op: CompareOp, constant: i64) -> RowCondition {
    RowCondition::Test(Predicate::Compare(column(), op, number(constant)))
}

#[test]
fn a_comparison_is_one_scan(rt: HostRuntime) {
    let below = compared(CompareOp::Lt, 128);
    see_units(&rt, below, [32, 4, 9, 1]);
    let below = Box::new(rt.alloc(), compared(CompareOp::Lt, 128)).expect(&rt, "memory");
    see_units(&rt, RowCondition::Not(below), [32, 4, 9, 1]);
}

/// The table with one more row, of 128.
fn with_128<R: Abort + AllocGlobal>(rt: &R, layout: Layout) -> Table<usize> {
    let mut table = two_ends(rt, layout);
    insert(rt, &mut table, &[Some(128)]);
    table
}

#[test]
fn the_row_nearest_to_the_constant_decides(rt: HostRuntime) {
    let below = compared(CompareOp::Lt, 128);
    let wanted = [33, 8, 9, 2];
    for i in 0..4 {
        let found = units_of(&rt, with_128(&rt, LAYOUTS[i]), &below);
        see_at(&rt, LAYOUTS[i], found, wanted[i]);
    }
}

/// Below 128, and equal to 3.
fn below_and_equal<R: Abort + AllocGlobal>(rt: &R) -> Vec<RowCondition> {
    two(rt, compared(CompareOp::Lt, 128), compared(CompareOp::Eq, 3))
}

#[test]
fn a_part_of_and_is_needed_where_none_is_false(rt: HostRuntime) {
    let parts = below_and_equal(&rt);
    see_units(
        &rt,
        RowCondition::And(parts),
        [32 + 16, 4 + 8, 9 + 9, 1 + 1],
    );
}

#[test]
fn a_part_of_or_is_needed_where_none_is_true(rt: HostRuntime) {
    let parts = below_and_equal(&rt);
    see_units(&rt, RowCondition::Or(parts), [32 + 16, 4 + 4, 9 + 9, 1 + 1]);
}

#[test]
fn an_entry_is_looked_for_where_none_before_it_is_found(rt: HostRuntime) {
    let mut entries = Vec::new(rt.alloc());
    for entry in [Some(3), None, Some(250)] {
        entries.push(entry).expect(&rt, "memory");
    }
    let listed = Predicate::In(column(), entries);
    see_predicate(&rt, listed, [32 + 31, 8 + 8, 9 + 9, 1 + 1]);
}

#[test]
fn a_range_is_one_scan_and_else_two_comparisons(rt: HostRuntime) {
    let range = Predicate::Between(column(), number(3), number(200));
    see_predicate(&rt, range, [32, 8, 9, 1]);
    // A value is at most itself: both columns are scanned side by side at the 29 rows where it is at least 3.
    let upto_itself = Predicate::Between(column(), number(3), column());
    let wanted = [32 + 2 * 29, 8 + 2 * 8, 9 + 2 * 9, 1 + 2];
    see_predicate(&rt, upto_itself, wanted);
}

#[test]
fn two_columns_of_one_encoding_are_scanned_side_by_side(rt: HostRuntime) {
    let same = Predicate::Compare(column(), CompareOp::Eq, column());
    see_predicate(&rt, same, [2 * 32, 2 * 8, 2 * 9, 2]);
}

#[test]
fn what_the_encoding_settles_is_not_read(rt: HostRuntime) {
    see_units(&rt, compared(CompareOp::Lt, 300), [0; 4]);
    let null_is_one = Predicate::Compare(Source::Constant(None), CompareOp::Eq, number(1));
    see_predicate(&rt, null_is_one, [0; 4]);
    see_predicate(&rt, Predicate::IsNull(column()), [0; 4]);
}
