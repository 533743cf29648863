//! Groups of the rows of random columns, compared with a plain fold over the values of the same rows.

ghost use Rattle.std.specs.Prelude.{length, ◌<◌};

use crate::columns::column_of;
use crate::random::{LAYOUTS, Random};
use crate::seen::see_at;
use crate::set_functions::{Answers, Drawn, Reach, drawn_values, folded};
use bw_aggregate::{Asked, next_group};
use bw_code::{Kind, Layout};
use bw_column::Column;
use bw_groups::{ColumnValues, Folds, Groups, ValueRuns};
use bw_mask::Mask;
use std::process::Abort;

/// Numbers of rows: none, few, and near a multiple of a word.
const LENGTHS: [usize; 5] = [0, 1, 63, 65, 200];

/// The number of bits of the distances in the grouping column: from two groups to one per row.
const WIDTHS: [u32; 4] = [1, 3, 31, 64];

/// How many of 64 values are non-null.
const KNOWN_IN_64: [u64; 3] = [64, 40, 0];

/// The values of all rows of a column, read in runs.
fn gathered<R: Abort + AllocGlobal>(rt: &R, column: &Column) -> ColumnValues {
    let mut values = Vec::from_elem(rt.alloc(), None, column.len()).expect(rt, "memory");
    assert!(rt; values.len() == column.len());
    column.read(0, &mut values);
    let mut all = ColumnValues::with_capacity(rt.alloc(), values.len()).expect(rt, "memory");
    for run in values.chunks(64) {
        assert!(rt; run.len() <= 64);
        all = all.with_run(run).expect(rt, "memory");
    }
    all
}

/// The distinct values, in ascending order, with NULL last.
fn distinct<R: Abort + AllocGlobal>(rt: &R, values: &[Option<i64>]) -> Vec<Option<i64>> {
    let mut known: Vec<i64> = values
        .iter()
        .filter_map(|value| *value)
        .collect(rt.alloc())
        .expect(rt, "memory");
    known.sort_unstable();
    let mut found: Vec<Option<i64>> = Vec::new(rt.alloc());
    for value in &known {
        if found.last() != Some(&Some(*value)) {
            found.push(Some(*value)).expect(rt, "memory");
        }
    }
    if known.len() < values.len() {
        found.push(None).expect(rt, "memory");
    }
    found
}

/// The number of rows with this value, and their non-null values in another column.
fn rows_having<R: Abort + AllocGlobal>(
    rt: &R,
    by: &[Option<i64>],
    values: &[Option<i64>],
    group: Option<i64>,
) -> (usize, Vec<i64>) {
    let mut count: usize = 0;
    let mut known = Vec::new(rt.alloc());
    for (own, value) in by.iter().zip(values) {
        if *own == group {
            count = count.wrapping_add(1);
            if let Some(number) = value {
                known.push(*number).expect(rt, "memory");
            }
        }
    }
    (count, known)
}

/// The results of the folds for group `g`.
fn told(folds: &Folds, g: usize) -> Answers
    requires { g < length folds.now }
{
    let told = folds.summary(g);
    (
        told.count as u64,
        told.sum,
        told.least,
        told.greatest,
        told.median,
    )
}

/// Checks the groups of the rows of a column, and the set functions of each in another.
fn check_groups<R: Abort + AllocGlobal>(
    rt: &R,
    columns: (&Column, &Column),
    by: &[Option<i64>],
    values: &[Option<i64>],
) {
    let all = Asked {
        sum: true,
        least: true,
        greatest: true,
        median: true,
    };
    let (own, other) = (gathered(rt, columns.0), gathered(rt, columns.1));
    let (rows, others) = (ValueRuns::len(&own), ValueRuns::len(&other));
    assert!(rt; rows == others && rows <= 200);
    let groups = Groups::of(rt.alloc(), &own).expect(rt, "memory");
    let folds = Folds::of(rt.alloc(), &groups, &other, all).expect(rt, "memory");
    let wanted = distinct(rt, by);
    see_at(rt, by.len(), groups.len(), wanted.len());
    for g in 0..groups.len() {
        assert!(rt; g < wanted.len());
        let (count, mut known) = rows_having(rt, by, values, wanted[g]);
        see_at(rt, g, groups.value(g), wanted[g]);
        see_at(rt, g, groups.row_count(g), count);
        see_at(rt, g, told(&folds, g), folded(rt, &mut known));
    }
}

/// Checks the groups of all rows of a column one by one, as they are taken from those that remain.
fn check_next<R: Abort + AllocGlobal>(rt: &R, column: &Column, by: &[Option<i64>]) {
    let mut remaining = Mask::filled(rt.alloc(), column.len(), true).expect(rt, "memory");
    for value in &distinct(rt, by) {
        assert!(rt; remaining.len() == column.len());
        let next = next_group(rt.alloc(), column, &mut remaining).expect(rt, "memory");
        let (found, rows) = next.expect(rt, "a group");
        see_at(rt, by.len(), found, *value);
        see_at(
            rt,
            by.len(),
            rows.count(),
            rows_having(rt, by, by, *value).0,
        );
    }
    see_at(rt, by.len(), remaining.any(), false);
}

/// Checks random columns of this layout and kind.
fn check_columns<R: Abort + AllocGlobal>(
    rt: &R,
    random: &mut Random,
    layout: Layout,
    kind: Kind,
    drawn: Drawn,
) {
    for length in LENGTHS {
        let by = drawn_values(rt, random, drawn, length);
        let values = drawn_values(rt, random, drawn, length);
        let own = column_of(rt, &by, layout, kind);
        let other = column_of(rt, &values, layout, kind);
        check_groups(rt, (&own, &other), &by, &values);
        check_next(rt, &own, &by);
    }
}

/// Checks columns of each width that the layout holds, with and without nulls.
fn check_widths<R: Abort + AllocGlobal>(rt: &R, random: &mut Random, layout: Layout, kind: Kind) {
    for width in WIDTHS {
        let reach = if width > 32 {
            Reach::Whole
        } else {
            Reach::Integer
        };
        if reach == Reach::Integer || layout != Layout::H {
            for known in KNOWN_IN_64 {
                check_columns(
                    rt,
                    random,
                    layout,
                    kind,
                    Drawn {
                        reach,
                        width,
                        known,
                    },
                );
            }
        }
    }
}

#[test]
fn random_groups(rt: HostRuntime) {
    let mut random = Random::new();
    for layout in LAYOUTS {
        check_widths(&rt, &mut random, layout, Kind::Offset);
        check_widths(&rt, &mut random, layout, Kind::Dictionary);
    }
}
