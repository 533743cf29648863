//! The planes that columns lend of their rows, bit by bit against the values: in each layout, around as many rows as a
//! word, a segment or a block has, and around as many bits as one byte, two bytes or four have.

use crate::columns::column_of;
use crate::random::{LAYOUTS, Random};
use bw_cells::Measured;
use bw_code::{Encoding, Kind, Layout, PlaneBlock};
use bw_column::Column;
use bw_mask::has_bit;
use std::process::Abort;

const ROWS: [usize; 6] = [1, 64, 257, 2_047, 2_049, 4_500];

const WIDTHS: [u32; 8] = [1, 8, 9, 16, 17, 32, 33, 64];

/// Random values of this many bits, counted from a least one, which the last row has. Each eighth is NULL or so.
fn random_values<R: Abort + AllocGlobal>(
    rt: &R,
    random: &mut Random,
    rows: usize,
    bits: u32,
    least: i64,
) -> Vec<Option<i64>> {
    assert!(rt; 1 <= bits && bits <= 64);
    let mut values = Vec::new(rt.alloc());
    for _row in 1..rows {
        let number = (random.next() >> (64 - bits)).cast_signed();
        let value = if random.next() % 8 == 0 {
            None
        } else {
            Some(number.wrapping_add(least))
        };
        values.push(value).expect(rt, "memory");
    }
    values.push(Some(least)).expect(rt, "memory");
    values
}

/// Row r of a plane.
fn row_of<R: Abort>(rt: &R, plane: &[u64; 32], r: usize) -> bool {
    assert!(rt; r < 2_048);
    has_bit(plane[r / 64], r % 64)
}

/// Checks row r of the planes of k bits: it is that of a value's distance from the base, and 0 for a null and past the
/// last value.
fn see_row<R: Abort>(
    rt: &R,
    block: &PlaneBlock,
    present: &[u64; 32],
    k: usize,
    r: usize,
    distance: Option<u64>,
) {
    assert!(rt; k <= 64);
    assert!(rt; row_of(rt, present, r) == distance.is_some());
    let number = distance.unwrap_or(0);
    for b in 0..k {
        assert!(rt; row_of(rt, &block[b], r) == has_bit(number, b));
    }
}

/// The distance of a value from a base, modulo 2^64.
fn distance_of(value: Option<i64>, base: i64) -> Option<u64> {
    match value {
        Some(x) => Some(x.cast_unsigned().wrapping_sub(base.cast_unsigned())),
        None => None,
    }
}

/// Checks the planes of k bits of at most 2,048 rows from row `at` on, which the column lends.
fn see_lent<R: Abort>(
    rt: &R,
    column: &Column,
    values: &[Option<i64>],
    at: usize,
    base: i64,
    k: usize,
) {
    assert!(rt; at <= values.len() && values.len() == column.len() && k <= 64);
    let count = (values.len() - at).min(2_048);
    let mut block = [[u64::MAX; 32]; 64];
    let present = column
        .planes(at, count, base, k, &mut block)
        .expect(rt, "planes");
    for r in 0..2_048 {
        let distance = if r < count {
            distance_of(values[at + r], base)
        } else {
            None
        };
        see_row(rt, &block, &present, k, r, distance);
    }
}

/// Whether a layout has planes of codes of this width, or makes them of codes that lie one after another.
fn lends(layout: Layout, width: u32) -> bool {
    match layout {
        Layout::P | Layout::V | Layout::S => true,
        Layout::H => width == 32,
    }
}

/// Checks the planes of all blocks of rows, if the column lends any: from its own base, and from one that is 5 less,
/// with a bit more.
fn see_blocks<R: Abort>(rt: &R, column: &Column, values: &[Option<i64>]) {
    assert!(rt; values.len() <= 16_777_216);
    let Encoding::Offset(offset) = column.encoding() else {
        return;
    };
    let (base, width) = (offset.base, offset.width as usize);
    if !lends(column.layout(), offset.width) {
        return;
    }
    for q in 0..values.len().div_ceil(2_048) {
        see_lent(rt, column, values, 2_048 * q, base, width);
        let lower = base.wrapping_sub(5);
        see_lent(rt, column, values, 2_048 * q, lower, (width + 1).min(64));
    }
}

/// The least value of columns of values of this many bits, which layout H holds where these are at most 32.
fn least_of(bits: u32) -> i64 {
    if bits <= 32 { -2_147_483_648 } else { i64::MIN }
}

#[test]
fn lent_planes(rt: HostRuntime) {
    let mut random = Random::new();
    for rows in ROWS {
        for bits in WIDTHS {
            let values = random_values(&rt, &mut random, rows, bits, least_of(bits));
            for layout in LAYOUTS {
                if layout != Layout::H || bits <= 32 {
                    let column = column_of(&rt, &values, layout, Kind::Offset);
                    see_blocks(&rt, &column, &values);
                }
            }
        }
    }
}
