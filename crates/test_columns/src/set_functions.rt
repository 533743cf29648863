//! Set functions of random columns, compared with a plain fold over the values of the same rows.

ghost use Rattle.std.specs.Prelude.{length, ◌≡◌};
ghost use Rattle.bw_mask.specs.Masks.{len};

use crate::columns::column_of;
use crate::random::{LAYOUTS, Random};
use crate::seen::see_at;
use bw_aggregate::{Asked, count, max, median, min, sum, summarize};
use bw_code::{Kind, Layout};
use bw_column::Column;
use bw_mask::Mask;
use std::process::Abort;

/// COUNT, SUM, MIN, MAX and MEDIAN.
pub(crate) type Answers = (u64, Option<i128>, Option<i64>, Option<i64>, Option<i64>);

/// Numbers of rows at or near the ends of the layouts' words and segments.
const LENGTHS: [usize; 16] = [
    0, 1, 2, 31, 32, 33, 63, 64, 65, 255, 256, 257, 511, 512, 513, 600,
];

/// How many of 64 values are non-null.
const KNOWN_IN_64: [u64; 5] = [64, 56, 32, 4, 0];

/// How many of 64 rows are chosen.
const CHOSEN_IN_64: [u64; 8] = [0, 2, 8, 32, 32, 56, 64, 64];

/// True this many times in 64.
fn happens(random: &mut Random, times: u64) -> bool {
    (random.next() >> 8 & 63) < times
}

/// Up to 600 rows, about half the time one of `LENGTHS`.
fn drawn_length(random: &mut Random) -> usize {
    let word = random.next() >> 8;
    if happens(random, 32) {
        LENGTHS[word as usize & 15]
    } else {
        (word % 601) as usize
    }
}

/// A code of this many bits whose highest bit is set.
fn drawn_top(random: &mut Random, width: u32) -> u64 {
    let below = u64::MAX >> (64 - width.clamp(1, 64));
    (random.next() | !(below >> 1)) & below
}

/// The range of a column's integers.
#[derive(Clone, Copy, Debug, PartialEq, Eq)]
pub(crate) enum Reach {
    /// Integers of 32 bits.
    Integer,
    /// Integers of 64 bits, which BitWeaving/H doesn't hold.
    Whole,
}

impl Reach {
    /// The distance from the least to the greatest.
    fn greatest(self) -> u64 {
        match self {
            Reach::Integer => 0xffff_ffff,
            Reach::Whole => u64::MAX,
        }
    }

    /// The integer at this distance from the least one, wrapping around.
    fn integer(self, distance: u64) -> i64 {
        match self {
            Reach::Integer => (distance & 0xffff_ffff) as i64 - 0x8000_0000,
            Reach::Whole => i64::MIN.wrapping_add_unsigned(distance),
        }
    }
}

/// A least value at which this top code still stands for an integer, as its distance from the least integer: where the
/// integers begin, where they end for it, or between.
fn drawn_base(random: &mut Random, top: u64, reach: Reach) -> u64 {
    let greatest = reach.greatest();
    let last = greatest ^ (top & greatest);
    match random.next() >> 8 & 3 {
        0 => 0,
        1 => last,
        _ => (random.next() & greatest >> 1).min(last),
    }
}

/// 0 at the first place, `top` in the middle, and some of the bits of `top` elsewhere.
fn drawn_code(random: &mut Random, top: u64, place: usize, length: usize) -> u64 {
    let word = random.next() >> 8;
    if place == 0 {
        0
    } else if place == length / 2 {
        top
    } else {
        word & top
    }
}

/// Null, or the integer at this distance from the least one.
pub(crate) fn cell(is_known: bool, distance: u64, reach: Reach) -> Option<i64> {
    if is_known {
        Some(reach.integer(distance))
    } else {
        None
    }
}

/// The parameters of a random column: the range of its integers, the number of bits of an offset's codes, and how many
/// of 64 values are non-null.
#[derive(Clone, Copy, Debug)]
pub(crate) struct Drawn {
    pub(crate) reach: Reach,
    pub(crate) width: u32,
    pub(crate) known: u64,
}

/// Values whose distances from the least have some of the bits of a top code and no others. Where one is known, 0 and
/// the top code are known too, half a column apart, so that an offset's codes have this many bits.
pub(crate) fn drawn_values<R: Abort + AllocGlobal>(
    rt: &R,
    random: &mut Random,
    drawn: Drawn,
    length: usize,
) -> Vec<Option<i64>> {
    let Drawn {
        reach,
        width,
        known,
    } = drawn;
    let top = drawn_top(random, width);
    let base = drawn_base(random, top, reach);
    let turn = (random.next() >> 8 & 1023) as usize;
    let mut values = Vec::new(rt.alloc());
    for row in 0..length {
        let place = row.wrapping_add(turn) % length;
        let code = drawn_code(random, top, place, length);
        let is_end = place == 0 || place == length / 2;
        let is_known = known > 0 && is_end || happens(random, known);
        values
            .push(cell(is_known, base.wrapping_add(code), reach))
            .expect(rt, "memory");
    }
    values
}

fn drawn_rows<R: Abort + AllocGlobal>(rt: &R, random: &mut Random, length: usize) -> Vec<bool> {
    let times = CHOSEN_IN_64[(random.next() >> 8) as usize & 7];
    let mut chosen = Vec::new(rt.alloc());
    for _ in 0..length {
        chosen.push(happens(random, times)).expect(rt, "memory");
    }
    chosen
}

pub(crate) fn mask_of<R: Abort + AllocGlobal>(rt: &R, chosen: &[bool]) -> Mask {
    let length = chosen.len();
    assert!(rt; length <= 200_000);
    let mut rows = Mask::filled(rt.alloc(), length, false).expect(rt, "memory");
    for row in 0..length {
        assert!(rt; row < rows.len());
        rows.set(row, chosen[row]);
    }
    rows
}

/// The non-null values of the chosen rows.
pub(crate) fn chosen_values<R: Abort + AllocGlobal>(
    rt: &R,
    values: &[Option<i64>],
    chosen: &[bool],
) -> Vec<i64> {
    let mut known = Vec::new(rt.alloc());
    for (value, is_chosen) in values.iter().zip(chosen) {
        if let Some(x) = value
            && *is_chosen
        {
            known.push(*x).expect(rt, "memory");
        }
    }
    known
}

fn total<R: Abort>(rt: &R, values: &[i64]) -> i128 {
    let mut total: i128 = 0;
    for x in values {
        total = total.checked_add(i128::from(*x)).expect(rt, "a sum");
    }
    total
}

/// The least and the greatest of a value and others.
fn ends(first: i64, others: &[i64]) -> (i64, i64) {
    let (mut least, mut greatest) = (first, first);
    for x in others {
        least = least.min(*x);
        greatest = greatest.max(*x);
    }
    (least, greatest)
}

/// The answers computed from the values themselves. Sorts the values.
pub(crate) fn folded<R: Abort>(rt: &R, values: &mut Vec<i64>) -> Answers {
    let Some(first) = values.first().copied() else {
        return (0, None, None, None, None);
    };
    let (least, greatest) = ends(first, values);
    values.sort_unstable();
    // Entry ceil(n / 2), counted from 1.
    let middle = values.len().div_ceil(2).saturating_sub(1);
    (
        values.len() as u64,
        Some(total(rt, values)),
        Some(least),
        Some(greatest),
        values.get(middle).copied(),
    )
}

/// The answers of the functions.
fn answered<R: Abort + AllocGlobal>(rt: &R, column: &Column, rows: &Mask) -> Answers
    requires { len rows.now ≡ length column.now.values }
{
    (
        count(column, rows),
        sum(rt.alloc(), column, rows).expect(rt, "memory"),
        min(rt.alloc(), column, rows).expect(rt, "memory"),
        max(rt.alloc(), column, rows).expect(rt, "memory"),
        median(rt.alloc(), column, rows).expect(rt, "memory"),
    )
}

/// The answers of the functions when all are asked for at once.
pub(crate) fn answered_at_once<R: Abort + AllocGlobal>(
    rt: &R,
    column: &Column,
    rows: &Mask,
) -> Answers
    requires { len rows.now ≡ length column.now.values }
{
    let all = Asked {
        sum: true,
        least: true,
        greatest: true,
        median: true,
    };
    let told = summarize(rt.alloc(), column, rows, all).expect(rt, "memory");
    let count = told.count as u64;
    (count, told.sum, told.least, told.greatest, told.median)
}

/// Checks the functions of some rows of a column that has these values.
fn check_rows<R: Abort + AllocGlobal>(
    rt: &R,
    random: &mut Random,
    column: &Column,
    values: &[Option<i64>],
) {
    let chosen = drawn_rows(rt, random, values.len());
    let rows = mask_of(rt, &chosen);
    let mut known = chosen_values(rt, values, &chosen);
    let wanted = folded(rt, &mut known);
    assert!(rt; rows.len() == column.len());
    let case = (column.layout(), column.kind(), column.len());
    see_at(rt, case, answered(rt, column, &rows), wanted);
    see_at(rt, case, answered_at_once(rt, column, &rows), wanted);
}

/// Checks a random column.
fn check_column<R: Abort + AllocGlobal>(
    rt: &R,
    random: &mut Random,
    way: (Layout, Kind),
    drawn: Drawn,
) {
    let length = drawn_length(random);
    let values = drawn_values(rt, random, drawn, length);
    let column = column_of(rt, &values, way.0, way.1);
    if way.1 == Kind::Offset && drawn.known > 0 && length > 1 {
        assert_eq!(rt; column.encoding().width(), drawn.width);
    }
    check_rows(rt, random, &column, &values);
}

/// Checks columns of a width, with and without nulls.
fn check_width<R: Abort + AllocGlobal>(
    rt: &R,
    random: &mut Random,
    way: (Layout, Kind),
    reach: Reach,
    width: u32,
) {
    for known in KNOWN_IN_64 {
        let drawn = Drawn {
            reach,
            width,
            known,
        };
        check_column(rt, random, way, drawn);
    }
}

/// Checks columns of each width that the layout holds.
fn check_widths<R: Abort + AllocGlobal>(rt: &R, random: &mut Random, layout: Layout, kind: Kind) {
    for width in 1..33 {
        check_width(rt, random, (layout, kind), Reach::Integer, width);
    }
    if layout != Layout::H {
        for width in 33..65 {
            check_width(rt, random, (layout, kind), Reach::Whole, width);
        }
    }
}

#[test]
fn random_columns(rt: HostRuntime) {
    let mut random = Random::new();
    for layout in LAYOUTS {
        check_widths(&rt, &mut random, layout, Kind::Offset);
        check_widths(&rt, &mut random, layout, Kind::Dictionary);
    }
}
