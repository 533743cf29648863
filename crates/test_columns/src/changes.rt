//! Overwrites values in rows of several words, in each layout and kind, and compares with a plain list.

ghost use Rattle.std.specs.Prelude.{vec_len, ◌≡◌};
ghost use Rattle.bw_mask.specs.Masks.{len};

use crate::columns::{check_value, check_values, column_of, see_values};
use crate::dictionaries::check_rebuilt;
use crate::set_functions::mask_of;
use bw_code::{Kind, Layout, equal_encodings};
use bw_column::Column;
use bw_mask::Mask;
use std::process::Abort;

/// Four whole words, and a part of one: 44 rows.
const ROWS: usize = 300;

const LAYOUTS: [Layout; 4] = [Layout::P, Layout::V, Layout::H, Layout::S];

const KINDS: [Kind; 2] = [Kind::Offset, Kind::Dictionary];

/// What all chosen rows are set to: a value that the columns have, NULL, one that none has, and one far from all.
const LITERALS: [Option<i64>; 4] = [Some(40), None, Some(-3), Some(-2_000_000_000)];

/// The distance between numbers in each round.
const STEPS: [i64; 3] = [1, 1_000_003, 20_000_003];

/// Whether a row takes another value: in no row of a word, in all, in a few, in its first and its last, or in most.
fn is_chosen(round: usize, row: usize) -> bool {
    match (row / 64).wrapping_add(round) % 5 {
        0 => false,
        1 => true,
        2 => row % 13 == 5,
        3 => row % 64 == 0 || row % 64 == 63,
        _ => row % 3 != 1,
    }
}

/// A value of a row: one of 97 numbers, in later rounds spread over more bits, and NULL in each eleventh row.
fn value_at(round: usize, row: usize) -> Option<i64> {
    if row.wrapping_add(round) % 11 == 4 {
        return None;
    }
    let number = row.wrapping_mul(row).wrapping_add(round) % 97;
    Some((number as i64).wrapping_mul(STEPS[round % 3]))
}

fn values_of<R: Abort + AllocGlobal>(rt: &R, round: usize) -> Vec<Option<i64>>
    ensures { vec_len result ≡ 300 }
{
    let mut values = Vec::new(rt.alloc());
    for row in 0..ROWS {
        values.push(value_at(round, row)).expect(rt, "memory");
    }
    values
}

/// The values of the next round in the chosen rows only.
fn taken<R: Abort + AllocGlobal>(rt: &R, round: usize) -> Vec<Option<i64>> {
    let mut values = Vec::new(rt.alloc());
    for row in 0..ROWS {
        if is_chosen(round, row) {
            values
                .push(value_at(round.wrapping_add(1), row))
                .expect(rt, "memory");
        }
    }
    values
}

fn chosen_rows<R: Abort + AllocGlobal>(rt: &R, round: usize) -> Mask
    ensures { len result ≡ 300 }
{
    let mut chosen = Mask::filled(rt.alloc(), ROWS, false).expect(rt, "memory");
    for row in 0..ROWS {
        chosen.set(row, is_chosen(round, row));
    }
    chosen
}

/// The column with the values in the chosen rows.
fn overwritten<R: Abort + AllocGlobal>(
    rt: &R,
    mut column: Column,
    places: &Mask,
    values: &[Option<i64>],
) -> Column {
    check_values(rt, values, column.layout());
    assert!(rt; places.count() == values.len() && places.len() == column.len());
    let prepared = column
        .room_for(rt.alloc(), &values, false)
        .expect(rt, "memory");
    column.overwrite(prepared, places, values);
    column
}

/// The column with one value in the chosen rows.
pub(crate) fn filled<R: Abort + AllocGlobal>(
    rt: &R,
    mut column: Column,
    places: &Mask,
    value: Option<i64>,
) -> Column {
    check_value(rt, value, column.layout());
    assert!(rt; places.len() == column.len());
    let prepared = column
        .room_to_fill(rt.alloc(), value, places.count())
        .expect(rt, "memory");
    column.fill(prepared, places, value);
    column
}

/// The column with another's values in the chosen rows. Both are of one kind and have one layout.
fn copied<R: Abort + AllocGlobal>(
    rt: &R,
    mut column: Column,
    other: &Column,
    places: &Mask,
) -> Column {
    assert!(rt; column.layout() == other.layout());
    assert!(rt; column.kind() == other.kind());
    assert!(rt; places.len() == column.len() && places.len() == other.len());
    let copy = other.copy_at(rt.alloc(), places).expect(rt, "memory");
    let prepared = column
        .room_to_copy(rt.alloc(), places, copy)
        .expect(rt, "memory");
    column.copy_from(prepared, places);
    column
}

/// The values of a round in reverse row order.
fn turned<R: Abort + AllocGlobal>(rt: &R, round: usize) -> Vec<Option<i64>>
    ensures { vec_len result ≡ 300 }
{
    let mut values = Vec::new(rt.alloc());
    for row in 0..ROWS {
        values
            .push(value_at(round, ROWS - 1 - row))
            .expect(rt, "memory");
    }
    values
}

/// The rows' values after the chosen ones took the values of the reversed rows.
fn wanted_of_copy<R: Abort + AllocGlobal>(rt: &R, round: usize) -> Vec<Option<i64>> {
    let mut values = Vec::new(rt.alloc());
    for row in 0..ROWS {
        let from = if is_chosen(round, row) {
            ROWS - 1 - row
        } else {
            row
        };
        values.push(value_at(round, from)).expect(rt, "memory");
    }
    values
}

/// The rows' values after the chosen ones took those of the next round, or this one value.
fn wanted<R: Abort + AllocGlobal>(
    rt: &R,
    round: usize,
    literal: Option<Option<i64>>,
) -> Vec<Option<i64>> {
    let mut values = Vec::new(rt.alloc());
    for row in 0..ROWS {
        let value = if is_chosen(round, row) {
            literal.unwrap_or(value_at(round.wrapping_add(1), row))
        } else {
            value_at(round, row)
        };
        values.push(value).expect(rt, "memory");
    }
    values
}

fn check_values_put<R: Abort + AllocGlobal>(rt: &R, layout: Layout, kind: Kind, round: usize) {
    let column = column_of(rt, &values_of(rt, round), layout, kind);
    let column = overwritten(rt, column, &chosen_rows(rt, round), &taken(rt, round));
    let values = wanted(rt, round, None);
    see_values(rt, &column, &values);
    check_rebuilt(rt, &column, &values);
}

fn check_literal_put<R: Abort + AllocGlobal>(
    rt: &R,
    layout: Layout,
    kind: Kind,
    round: usize,
    literal: Option<i64>,
) {
    let column = column_of(rt, &values_of(rt, round), layout, kind);
    let column = filled(rt, column, &chosen_rows(rt, round), literal);
    see_values(rt, &column, &wanted(rt, round, Some(literal)));
}

fn check_copied<R: Abort + AllocGlobal>(rt: &R, layout: Layout, kind: Kind, round: usize) {
    let column = column_of(rt, &values_of(rt, round), layout, kind);
    let other = column_of(rt, &turned(rt, round), layout, kind);
    let column = copied(rt, column, &other, &chosen_rows(rt, round));
    see_values(rt, &column, &wanted_of_copy(rt, round));
}

/// The same with the values of the next round, of which the column has few.
fn check_copied_anew<R: Abort + AllocGlobal>(rt: &R, layout: Layout, kind: Kind, round: usize) {
    let column = column_of(rt, &values_of(rt, round), layout, kind);
    let other = column_of(rt, &values_of(rt, round.wrapping_add(1)), layout, kind);
    let column = copied(rt, column, &other, &chosen_rows(rt, round));
    see_values(rt, &column, &wanted(rt, round, None));
}

/// Exchanges the values of two columns in the chosen rows. Both have the same values, one in reverse row order, and so
/// the same encoding.
fn check_exchanged<R: Abort + AllocGlobal>(rt: &R, layout: Layout, kind: Kind, round: usize) {
    equal_encodings();
    let mut column = column_of(rt, &values_of(rt, round), layout, kind);
    let mut other = column_of(rt, &turned(rt, round), layout, kind);
    let places = chosen_rows(rt, round);
    assert!(rt; other.layout() == column.layout());
    assert!(rt; other.encoding() == column.encoding());
    assert!(rt; places.len() == column.len() && places.len() == other.len());
    column.exchange_values(&mut other, &places);
    see_values(rt, &column, &wanted_of_copy(rt, round));
    see_values(rt, &other, &left_of_exchange(rt, round));
}

/// The values of the reversed rows after the chosen rows took those of the rows themselves.
fn left_of_exchange<R: Abort + AllocGlobal>(rt: &R, round: usize) -> Vec<Option<i64>> {
    let mut values = Vec::new(rt.alloc());
    for row in 0..ROWS {
        let from = if is_chosen(round, row) {
            row
        } else {
            ROWS - 1 - row
        };
        values.push(value_at(round, from)).expect(rt, "memory");
    }
    values
}

#[test]
fn values_exchanged(rt: HostRuntime) {
    for layout in LAYOUTS {
        for kind in KINDS {
            for round in 0..15 {
                check_exchanged(&rt, layout, kind, round);
            }
        }
    }
}

#[test]
fn copies_of_runs(rt: HostRuntime) {
    for layout in LAYOUTS {
        for kind in KINDS {
            for round in 0..15 {
                check_copied(&rt, layout, kind, round);
                check_copied_anew(&rt, layout, kind, round);
            }
        }
    }
}

/// A column with another's values in these rows.
fn check_taken<R: Abort + AllocGlobal>(
    rt: &R,
    values: &[Option<i64>],
    others: &[Option<i64>],
    rows: &[bool],
    wanted: &[Option<i64>],
) {
    for layout in LAYOUTS {
        for kind in KINDS {
            let column = column_of(rt, values, layout, kind);
            let other = column_of(rt, others, layout, kind);
            let column = copied(rt, column, &other, &mask_of(rt, rows));
            see_values(rt, &column, wanted);
        }
    }
}

#[test]
fn copies_that_need_another_encoding(rt: HostRuntime) {
    let values = [Some(10), None, Some(13)];
    let all = [true, true, true];
    // Within the codes of the column, below its base, above its top, and far from both.
    for others in [
        [Some(12), None, Some(13)],
        [Some(9), Some(12), None],
        [Some(12), Some(14), None],
        [Some(-2_000_000_000), None, Some(2_000_000_000)],
    ] {
        check_taken(&rt, &values, &others, &all, &others);
    }
    // Another base, with which codes keep their width.
    let others = [Some(9), Some(11), None];
    check_taken(&rt, &[Some(10), None, Some(12)], &others, &all, &others);
    // A value that isn't taken needs no code.
    let far = [Some(-2_000_000_000), Some(11), Some(2_000_000_000)];
    check_taken(
        &rt,
        &values,
        &far,
        &[false, true, false],
        &[Some(10), Some(11), Some(13)],
    );
    check_taken(&rt, &values, &far, &[false, false, false], &values);
}

#[test]
fn values_of_runs(rt: HostRuntime) {
    for layout in LAYOUTS {
        for kind in KINDS {
            for round in 0..15 {
                check_values_put(&rt, layout, kind, round);
            }
        }
    }
}

#[test]
fn literals_of_runs(rt: HostRuntime) {
    for layout in LAYOUTS {
        for kind in KINDS {
            for round in 0..5 {
                for literal in LITERALS {
                    check_literal_put(&rt, layout, kind, round, literal);
                }
            }
        }
    }
}
