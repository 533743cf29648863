//! Dictionaries of columns compared with a sort of the values: when they are built, when they grow, and when they lose
//! values.

use crate::changes::filled;
use crate::columns::{appended, check_value, column_of, see_values};
use crate::random::LAYOUTS;
use bw_code::{Encoding, Kind, Layout};
use bw_column::Column;
use bw_mask::Mask;
use std::process::Abort;

/// More rows than two words have.
const ROWS: usize = 150;

/// How the values of a column are distributed.
#[derive(Clone, Copy, Debug)]
enum Lie {
    /// Near each other.
    Dense,
    /// Few, and far apart.
    FarApart,
    /// Each once, from the greatest to the least.
    Distinct,
    /// At both ends of the layout's range.
    Ends,
    /// In each word of rows a lower and a greater one than in the words before.
    Steps,
    /// A single value.
    One,
    /// No value.
    Nulls,
}

const LIES: [Lie; 7] = [
    Lie::Dense,
    Lie::FarApart,
    Lie::Distinct,
    Lie::Ends,
    Lie::Steps,
    Lie::One,
    Lie::Nulls,
];

/// The least and the greatest integer of a layout.
fn ends_of(layout: Layout) -> (i64, i64) {
    match layout {
        Layout::H => (-2_147_483_648, 2_147_483_647),
        Layout::P | Layout::V | Layout::S => (i64::MIN, i64::MAX),
    }
}

/// The value of a row; NULL in each ninth.
fn value_at(layout: Layout, lie: Lie, row: usize) -> Option<i64> {
    if row % 9 == 4 {
        return None;
    }
    let number = row.wrapping_mul(37) % 101;
    let (least, greatest) = ends_of(layout);
    match lie {
        Lie::Dense => Some(number as i64 - 50),
        Lie::FarApart => Some((number % 5) as i64 * 500_000_009 - 1_000_000_000),
        Lie::Distinct => Some(1_000_000 - (row % 1_000) as i64 * 7),
        Lie::Ends => Some(if row % 2 == 0 { least } else { greatest }),
        Lie::Steps if row % 2 == 0 => Some(-((row / 64) as i64)),
        Lie::Steps => Some(1_020 + (row / 64) as i64),
        Lie::One => Some(-7),
        Lie::Nulls => None,
    }
}

fn values_of<R: Abort + AllocGlobal>(rt: &R, layout: Layout, lie: Lie) -> Vec<Option<i64>> {
    let mut values = Vec::new(rt.alloc());
    for row in 0..ROWS {
        values.push(value_at(layout, lie, row)).expect(rt, "memory");
    }
    values
}

/// The distinct non-null values, ascending, found by a sort.
fn distinct_values<R: Abort + AllocGlobal>(rt: &R, values: &[Option<i64>]) -> Vec<i64> {
    let mut list = Vec::new(rt.alloc());
    for value in values {
        if let Some(x) = value {
            list.push(*x).expect(rt, "memory");
        }
    }
    list.sort_unstable();
    list.dedup();
    list
}

/// Checks that a column has a dictionary of exactly these values.
fn see_entries<R: Abort + AllocGlobal>(rt: &R, column: &Column, values: &[Option<i64>]) {
    let wanted = distinct_values(rt, values);
    match column.encoding() {
        Encoding::Dictionary(dictionary) => {
            assert!(rt; dictionary.entries() == wanted.as_slice());
        }
        Encoding::Offset(_) => panic!(rt; "an offset"),
    }
}

/// The first values, followed by the others.
fn both<R: Abort + AllocGlobal>(
    rt: &R,
    values: &[Option<i64>],
    more: &[Option<i64>],
) -> Vec<Option<i64>> {
    let mut all = Vec::new(rt.alloc());
    for value in values {
        all.push(*value).expect(rt, "memory");
    }
    for value in more {
        all.push(*value).expect(rt, "memory");
    }
    all
}

fn check_built<R: Abort + AllocGlobal>(rt: &R, layout: Layout, lie: Lie) {
    let values = values_of(rt, layout, lie);
    let column = column_of(rt, &values, layout, Kind::Dictionary);
    see_entries(rt, &column, &values);
    see_values(rt, &column, &values);
}

fn check_grown<R: Abort + AllocGlobal>(
    rt: &R,
    layout: Layout,
    values: &[Option<i64>],
    more: &[Option<i64>],
) {
    let column = column_of(rt, values, layout, Kind::Dictionary);
    let column = appended(rt, column, more);
    let all = both(rt, values, more);
    see_entries(rt, &column, &all);
    see_values(rt, &column, &all);
}

#[test]
fn dictionaries_are_built(rt: HostRuntime) {
    for layout in LAYOUTS {
        for lie in LIES {
            check_built(&rt, layout, lie);
        }
    }
}

#[test]
fn dictionaries_take_in_others(rt: HostRuntime) {
    for layout in LAYOUTS {
        for lie in LIES {
            for other in LIES {
                let values = values_of(&rt, layout, lie);
                check_grown(&rt, layout, &values, &values_of(&rt, layout, other));
            }
        }
    }
}

/// Below all, between them, above all, at each place, and none that is new.
const NEW_VALUES: [[Option<i64>; 3]; 7] = [
    [Some(-1), None, Some(-1)],
    [Some(25), Some(15), Some(25)],
    [Some(61), None, None],
    [None, Some(45), None],
    [Some(35), Some(-5), Some(99)],
    [Some(10), Some(40), Some(10)],
    [None, None, None],
];

#[test]
fn dictionaries_take_in_few(rt: HostRuntime) {
    // Five entries: with one more, codes keep their width.
    let values = [Some(40), Some(10), None, Some(20), Some(30), Some(60)];
    for layout in LAYOUTS {
        check_grown(&rt, layout, &[], &values);
        for more in NEW_VALUES {
            check_grown(&rt, layout, &values, &more);
        }
    }
}

/// `count` numbers from 0 on.
fn numbers<R: Abort + AllocGlobal>(rt: &R, count: i64) -> Vec<Option<i64>> {
    let mut values = Vec::new(rt.alloc());
    for i in 0..count {
        values.push(Some(i)).expect(rt, "memory");
    }
    values
}

#[test]
fn dictionaries_cross_a_width(rt: HostRuntime) {
    for layout in LAYOUTS {
        for count in [1, 2, 4, 256] {
            check_grown(&rt, layout, &numbers(&rt, count), &[Some(-1)]);
        }
    }
}

/// The column with one value in all rows, which has a code already.
fn flattened<R: Abort + AllocGlobal>(rt: &R, column: Column, value: Option<i64>) -> Column {
    check_value(rt, value, column.layout());
    let all = Mask::filled(rt.alloc(), column.len(), true).expect(rt, "memory");
    assert!(rt; all.len() == column.len());
    filled(rt, column, &all, value)
}

/// An entry that no row has any more stays until others are added, and is dropped then.
#[test]
fn dictionaries_lose_values(rt: HostRuntime) {
    for layout in LAYOUTS {
        let values = numbers(&rt, 300);
        let column = column_of(&rt, &values, layout, Kind::Dictionary);
        let column = flattened(&rt, column, Some(7));
        see_entries(&rt, &column, &values);
        let column = appended(&rt, column, &[Some(1_000), None]);
        see_entries(&rt, &column, &[Some(7), Some(1_000)]);
        let column = flattened(&rt, column, None);
        let column = appended(&rt, column, &[Some(5)]);
        see_entries(&rt, &column, &[Some(5)]);
    }
}

/// Checks that a rebuilt column has the same values; a dictionary has only entries that some row has, and an offset's
/// base is the least value and its width that of the greatest one.
pub(crate) fn check_rebuilt<R: Abort + AllocGlobal>(
    rt: &R,
    column: &Column,
    values: &[Option<i64>],
) {
    let _held = column.len();
    let layout = column.layout();
    let again = column
        .rebuild(rt.alloc(), layout, Kind::Dictionary)
        .expect(rt, "memory");
    see_entries(rt, &again, values);
    see_values(rt, &again, values);
    let plain = column
        .rebuild(rt.alloc(), layout, Kind::Offset)
        .expect(rt, "memory");
    see_offset(rt, &plain, values);
    see_values(rt, &plain, values);
}

/// How many bits a number has, at least one.
fn bits_of(number: u64) -> u32 {
    let mut width = 1;
    for bit in 1..64 {
        if number >> bit != 0 {
            width = bit + 1;
        }
    }
    width
}

/// Checks that a column has the least of these values as its base, or 0 if there are none, and as many bits as the
/// greatest needs.
fn see_offset<R: Abort + AllocGlobal>(rt: &R, column: &Column, values: &[Option<i64>]) {
    let entries = distinct_values(rt, values);
    let least = entries.first().copied().unwrap_or(0);
    let greatest = entries.last().copied().unwrap_or(0);
    match column.encoding() {
        Encoding::Offset(offset) => {
            assert!(rt; offset.base == least);
            assert!(rt; offset.width == bits_of(greatest.abs_diff(least)));
        }
        Encoding::Dictionary(_) => panic!(rt; "a dictionary"),
    }
}

#[test]
fn dictionaries_are_rebuilt(rt: HostRuntime) {
    for layout in LAYOUTS {
        for lie in LIES {
            let values = values_of(&rt, layout, lie);
            check_rebuilt(
                &rt,
                &column_of(&rt, &values, layout, Kind::Dictionary),
                &values,
            );
            check_rebuilt(&rt, &column_of(&rt, &values, layout, Kind::Offset), &values);
        }
    }
}

/// An entry that no row has any more is dropped, at either end and between.
#[test]
fn rebuilt_dictionaries_lose_values(rt: HostRuntime) {
    for layout in LAYOUTS {
        for value in [Some(0), Some(7), Some(299), None] {
            let column = column_of(&rt, &numbers(&rt, 300), layout, Kind::Dictionary);
            let column = flattened(&rt, column, value);
            let values = Vec::from_elem(rt.alloc(), value, 300).expect(&rt, "memory");
            check_rebuilt(&rt, &column, &values);
        }
    }
}
