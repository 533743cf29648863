//! Columns built from other columns, to which they hand their codes on in blocks of 2,048 rows: as many rows as a word,
//! a segment or a block has, one fewer and one more.

use crate::changes::filled;
use crate::columns::{check_values, column_of, see_values};
use crate::dictionaries::check_rebuilt;
use crate::random::{LAYOUTS, Random};
use bw_code::{Kind, Layout};
use bw_column::Column;
use bw_mask::Mask;
use std::process::Abort;

/// How many rows: around a word, a segment and a block, and many.
const ROWS: [usize; 10] = [1, 63, 64, 65, 256, 257, 2_047, 2_048, 2_049, 4_500];

/// How many bits the values have at most.
const WIDTHS: [u32; 6] = [1, 7, 8, 13, 31, 32];

/// Random values of at most this many bits, counted from the least INTEGER. Each eighth is NULL or so.
fn random_values<R: Abort + AllocGlobal>(
    rt: &R,
    random: &mut Random,
    rows: usize,
    bits: u32,
) -> Vec<Option<i64>> {
    assert!(rt; 1 <= bits && bits <= 32);
    let mut values = Vec::new(rt.alloc());
    for _row in 0..rows {
        let number = (random.next() >> (64 - bits)).cast_signed();
        let value = if random.next() % 8 == 0 {
            None
        } else {
            Some(number.wrapping_add(-2_147_483_648))
        };
        values.push(value).expect(rt, "memory");
    }
    values
}

/// Checks that a column of the values in one layout is the same in another.
fn check_moved<R: Abort + AllocGlobal>(rt: &R, values: &[Option<i64>], from: Layout, to: Layout) {
    check_values(rt, values, from);
    check_values(rt, values, to);
    let column = Column::build(rt.alloc(), &values, from, Kind::Offset).expect(rt, "memory");
    let moved = column
        .rebuild(rt.alloc(), to, Kind::Offset)
        .expect(rt, "memory");
    see_values(rt, &moved, values);
}

/// Checks that a column whose base is less than the least of the values has the same values after a rebuild.
fn check_lowered<R: Abort + AllocGlobal>(rt: &R, values: &[Option<i64>], layout: Layout) {
    assert!(rt; values.len() >= 1 && values.len() <= 5_000);
    let last = values.len() - 1;
    let mut lowered = Vec::from_slice(rt.alloc(), values).expect(rt, "memory");
    lowered[last] = Some(-2_147_483_648);
    let column = column_of(rt, &lowered, layout, Kind::Offset);
    assert!(rt; column.len() == values.len());
    let mut places = Mask::filled(rt.alloc(), column.len(), false).expect(rt, "memory");
    places.set(last, true);
    let column = filled(rt, column, &places, values[last]);
    see_values(rt, &column, values);
    check_rebuilt(rt, &column, values);
}

#[test]
fn moved_columns(rt: HostRuntime) {
    let mut random = Random::new();
    for rows in ROWS {
        for bits in WIDTHS {
            let values = random_values(&rt, &mut random, rows, bits);
            for from in LAYOUTS {
                for to in LAYOUTS {
                    check_moved(&rt, &values, from, to);
                }
            }
        }
    }
}

#[test]
fn lowered_columns(rt: HostRuntime) {
    let mut random = Random::new();
    for rows in ROWS {
        for bits in [7, 8, 13, 31] {
            let values = random_values(&rt, &mut random, rows, bits);
            for layout in LAYOUTS {
                check_lowered(&rt, &values, layout);
            }
        }
    }
}
