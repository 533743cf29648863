//! Columns of integers and nulls: worked examples, with a success of each call that may run out of memory.

ghost use Rattle.std.specs.Prelude.{All, length, ◌^◌, ◌≡◌, ◌≤◌};
ghost use Rattle.bw_mask.specs.Masks.{len};
ghost use Rattle.bw_column.specs.Values.{IsNullOrHeld};

use crate::seen::{see, see_at};
use bw_code::{CmpOp, Encoding, Kind, Layout, Meter};
use bw_column::{Column, Storage};
use bw_mask::{Mask, Truth};
use std::process::Abort;

/// The rows where a truth is true, the rows where it is false, and the units read for it.
pub(crate) type Outcome = (u64, u64, u64);

pub(crate) fn check_value<R: Abort>(rt: &R, value: Option<i64>, layout: Layout)
    ensures { IsNullOrHeld layout value }
{
    if let Some(x) = value {
        match layout {
            Layout::H => assert!(rt; -2_147_483_648 <= x && x <= 2_147_483_647),
            Layout::P | Layout::V | Layout::S => {}
        }
    }
}

pub(crate) fn check_values<R: Abort>(rt: &R, values: &[Option<i64>], layout: Layout)
    ensures held { All (IsNullOrHeld layout) values.now }
    ensures few { length values.now ≤ 2 ^ 24 }
{
    assert!(rt; values.len() <= 16_777_216);
    for value in values {
        check_value(rt, *value, layout);
    }
}

/// A column of these values, which the layout has to hold.
pub(crate) fn column_of<R: Abort + AllocGlobal>(
    rt: &R,
    values: &[Option<i64>],
    layout: Layout,
    kind: Kind,
) -> Column {
    check_values(rt, values, layout);
    Column::build(rt.alloc(), &values, layout, kind).expect(rt, "memory")
}

/// The values from a row on.
fn read<R: Abort + AllocGlobal>(
    rt: &R,
    column: &Column,
    at: usize,
    count: usize,
) -> Vec<Option<i64>> {
    let mut values = Vec::from_elem(rt.alloc(), None, count).expect(rt, "memory");
    assert!(rt; at <= column.len() && values.len() <= column.len() - at);
    column.read(at, &mut values);
    values
}

fn all_of<R: Abort + AllocGlobal>(rt: &R, column: &Column) -> Vec<Option<i64>> {
    read(rt, column, 0, column.len())
}

/// The base and width of an offset.
fn span_of(column: &Column) -> Option<(i64, u32)> {
    match column.encoding() {
        Encoding::Offset(offset) => Some((offset.base, offset.width)),
        Encoding::Dictionary(_) => None,
    }
}

/// Checks the values of a column.
pub(crate) fn see_values<R: Abort + AllocGlobal>(rt: &R, column: &Column, values: &[Option<i64>]) {
    assert!(rt; all_of(rt, column).as_slice() == values);
}

/// Checks the values of an offset, its base and its width.
fn see_offset<R: Abort + AllocGlobal>(
    rt: &R,
    column: Column,
    values: &[Option<i64>],
    span: (i64, u32),
) {
    see(rt, span_of(&column), Some(span));
    see_values(rt, &column, values);
}

/// The column with these values appended.
pub(crate) fn appended<R: Abort + AllocGlobal>(
    rt: &R,
    mut column: Column,
    values: &[Option<i64>],
) -> Column {
    check_values(rt, values, column.layout());
    assert!(rt; column.len() <= 200_000 && values.len() <= 200_000);
    let prepared = column
        .room_for(rt.alloc(), &values, true)
        .expect(rt, "memory");
    column.append(prepared, &values);
    column
}

/// The rows of a column whose bits are set, of at most 64 rows.
fn rows_of<R: Abort + AllocGlobal>(rt: &R, column: &Column, bits: u64) -> Mask
    ensures { len result ≡ length column.now.values }
{
    let mut rows = Mask::filled(rt.alloc(), column.len(), false).expect(rt, "memory");
    rows.put_bits(0, 64, bits);
    rows
}

/// The column with the values in the rows whose bits are set.
fn overwritten<R: Abort + AllocGlobal>(
    rt: &R,
    mut column: Column,
    bits: u64,
    values: &[Option<i64>],
) -> Column {
    check_values(rt, values, column.layout());
    let places = rows_of(rt, &column, bits);
    assert!(rt; places.count() == values.len() && column.len() <= 200_000);
    let prepared = column
        .room_for(rt.alloc(), &values, false)
        .expect(rt, "memory");
    column.overwrite(prepared, &places, values);
    column
}

fn outcome(truth: &Truth, meter: &Meter) -> Outcome {
    let (trues, falses) = (truth.trues().bits(0, 64), truth.falses().bits(0, 64));
    (trues, falses, meter.units())
}

fn compared<R: Abort + AllocGlobal>(
    rt: &R,
    column: Column,
    op: CmpOp,
    constant: i64,
    need: u64,
) -> Outcome {
    let mut meter = Meter::new();
    let need = rows_of(rt, &column, need);
    let truth = column
        .compare(rt.alloc(), op, constant, &need, &mut meter)
        .expect(rt, "memory");
    outcome(&truth, &meter)
}

fn between<R: Abort + AllocGlobal>(
    rt: &R,
    column: Column,
    low: i64,
    high: i64,
    need: u64,
) -> Outcome {
    let mut meter = Meter::new();
    let need = rows_of(rt, &column, need);
    let truth = column
        .range(rt.alloc(), low, high, &need, &mut meter)
        .expect(rt, "memory");
    outcome(&truth, &meter)
}

fn listed<R: Abort + AllocGlobal>(rt: &R, column: Column, entries: &[i64], need: u64) -> Outcome {
    let mut meter = Meter::new();
    let need = rows_of(rt, &column, need);
    let truth = column
        .in_list(rt.alloc(), entries, &need, &mut meter)
        .expect(rt, "memory");
    outcome(&truth, &meter)
}

/// Two columns compared with each other.
pub(crate) fn side_by_side<R: Abort + AllocGlobal>(
    rt: &R,
    left: Column,
    op: CmpOp,
    right: Column,
    need: u64,
) -> Outcome {
    assert!(rt; right.len() == left.len());
    let mut meter = Meter::new();
    let need = rows_of(rt, &left, need);
    let truth = left
        .compare_column(rt.alloc(), op, &right, &need, &mut meter)
        .expect(rt, "memory");
    outcome(&truth, &meter)
}

#[test]
fn a_value_without_a_code_encodes_the_column_anew(rt: HostRuntime) {
    let column = column_of(&rt, &[Some(1), Some(2), Some(3)], Layout::V, Kind::Offset);
    see(&rt, span_of(&column), Some((1, 2)));
    let column = overwritten(&rt, column, 0b010, &[Some(1_000_000)]);
    see(
        &rt,
        (column.layout(), column.kind()),
        (Layout::V, Kind::Offset),
    );
    let values = [Some(1), Some(1_000_000), Some(3)];
    see_offset(&rt, column, &values, (1, 20));
}

/// Checks the words of sections of a column in layout H.
fn see_words<R: Abort>(rt: &R, column: Column, words: &[u64]) {
    let Storage::H(codes) = column.storage() else {
        panic!(rt; "another layout")
    };
    assert!(rt; codes.words() == words);
}

#[test]
fn both_ends_in_words_of_sections(rt: HostRuntime) {
    let ends = [Some(-2_147_483_648), Some(2_147_483_647)];
    let mut wanted = [0; 33];
    wanted[1] = 0xffff_ffff;
    see_words(&rt, column_of(&rt, &ends, Layout::H, Kind::Offset), &wanted);
}

#[test]
fn a_null_has_a_code_in_any_encoding(rt: HostRuntime) {
    let column = column_of(&rt, &[Some(1), Some(1_000_000)], Layout::V, Kind::Offset);
    let column = appended(&rt, column, &[None, Some(2)]);
    let values = [Some(1), Some(1_000_000), None, Some(2)];
    see_offset(&rt, column, &values, (1, 20));
}

#[test]
fn a_column_without_values(rt: HostRuntime) {
    let column = column_of(&rt, &[], Layout::P, Kind::Offset);
    see(&rt, (column.len(), span_of(&column)), (0, Some((0, 1))));
    let column = appended(&rt, column, &[Some(1)]);
    see(&rt, span_of(&column), Some((0, 1)));
    let column = appended(&rt, column, &[Some(-1)]);
    see_offset(&rt, column, &[Some(1), Some(-1)], (-1, 2));
}

#[test]
fn a_dictionary_without_values(rt: HostRuntime) {
    let column = column_of(&rt, &[], Layout::S, Kind::Dictionary);
    let column = appended(&rt, column, &[None, Some(7), None]);
    see_values(
        &rt,
        &overwritten(&rt, column, 0b101, &[Some(9), Some(7)]),
        &[Some(9), Some(7), Some(7)],
    );
}

/// The first 32 rows.
pub(crate) const ALL: u64 = 0xffff_ffff;

/// A column of 0 to 15 and 240 to 255.
fn two_runs<R: Abort + AllocGlobal>(rt: &R) -> Column {
    let mut values = [None; 32];
    for i in 0..32 {
        let x = if i < 16 { i } else { i + 224 };
        values[i] = Some(x as i64);
    }
    column_of(rt, &values, Layout::P, Kind::Offset)
}

/// A constant that is compared with the values of `two_runs`, the needed rows, and the outcome.
const BELOW: [(i64, u64, Outcome); 3] = [
    (128, ALL, (0xffff, 0xffff_0000, 32)),
    (256, ALL, (ALL, 0, 0)),
    (128, 0x1_8000, (0x8000, 0x1_0000, 2)),
];

#[test]
fn a_column_and_a_constant(rt: HostRuntime) {
    for (constant, need, outcome) in BELOW {
        let found = compared(&rt, two_runs(&rt), CmpOp::Lt, constant, need);
        see_at(&rt, constant, found, outcome);
    }
}

#[test]
fn a_column_and_a_range(rt: HostRuntime) {
    for (low, high, outcome) in [(3, 200, (0xfff8, 0xffff_0007, 32)), (200, 3, (0, ALL, 0))] {
        let found = between(&rt, two_runs(&rt), low, high, ALL);
        see_at(&rt, (low, high), found, outcome);
    }
}

/// Entries, and the rows of two runs that are found among them.
const LISTED: [([i64; 2], u64); 2] = [([3, 250], 1 << 3 | 1 << 26), ([3, 3], 1 << 3)];

#[test]
fn a_column_and_a_list(rt: HostRuntime) {
    for (entries, rows) in LISTED {
        let found = listed(&rt, two_runs(&rt), &entries, ALL);
        see_at(&rt, entries, found, (rows, ALL ^ rows, 63));
    }
    see(&rt, listed(&rt, two_runs(&rt), &[], ALL), (0, ALL, 0));
}

/// 1, NULL, 3 and 5 in layout H.
fn with_a_null<R: Abort + AllocGlobal>(rt: &R, kind: Kind) -> Column {
    let values = [Some(1), None, Some(3), Some(5)];
    column_of(rt, &values, Layout::H, kind)
}

#[test]
fn nulls_beside_a_constant(rt: HostRuntime) {
    // Words of sections: one more than the bits of a code.
    for (kind, units) in [(Kind::Offset, 4), (Kind::Dictionary, 3)] {
        for (need, trues) in [(0b1111, 0b1001), (0b0111, 0b0001)] {
            let found = compared(&rt, with_a_null(&rt, kind), CmpOp::Ne, 3, need);
            see_at(&rt, kind, found, (trues, 0b0100, units));
        }
        let found = between(&rt, with_a_null(&rt, kind), 2, 3, 0b1111);
        see_at(&rt, kind, found, (0b0100, 0b1001, units));
    }
}

#[test]
fn nulls_beside_a_list(rt: HostRuntime) {
    for (kind, units) in [(Kind::Offset, 8), (Kind::Dictionary, 6)] {
        let found = listed(&rt, with_a_null(&rt, kind), &[5, 1], 0b1111);
        see_at(&rt, kind, found, (0b1001, 0b0100, units));
        let found = listed(&rt, with_a_null(&rt, kind), &[], 0b1111);
        see_at(&rt, kind, found, (0, 0b1101, 0));
    }
}

/// 5, -3, NULL and 7.
fn offset<R: Abort + AllocGlobal>(rt: &R) -> Column {
    let values = [Some(5), Some(-3), None, Some(7)];
    column_of(rt, &values, Layout::P, Kind::Offset)
}

/// 5, 4, 1 and NULL.
fn dictionary<R: Abort + AllocGlobal>(rt: &R) -> Column {
    let values = [Some(5), Some(4), Some(1), None];
    column_of(rt, &values, Layout::P, Kind::Dictionary)
}

#[test]
fn two_columns(rt: HostRuntime) {
    for (op, need, outcome) in [
        (CmpOp::Lt, 0b1111, (0b0010, 0b0001, 4)),
        (CmpOp::Eq, 0b1100, (0, 0, 0)),
    ] {
        let found = side_by_side(&rt, offset(&rt), op, dictionary(&rt), need);
        see_at(&rt, op, found, outcome);
    }
    let exchanged = side_by_side(&rt, dictionary(&rt), CmpOp::Le, offset(&rt), 0b1110);
    see(&rt, exchanged, (0, 0b0010, 2));
}

#[test]
fn constants_that_a_dictionary_lacks(rt: HostRuntime) {
    for (op, constant, trues) in [(CmpOp::Eq, 2, 0), (CmpOp::Gt, 6, 0), (CmpOp::Ne, 2, 0b0111)] {
        let found = compared(&rt, dictionary(&rt), op, constant, 0b1111);
        see_at(&rt, (op, constant), found, (trues, 0b0111 ^ trues, 0));
    }
}

/// 150 values, of which every seventh is null.
fn many<R: Abort + AllocGlobal>(rt: &R) -> Vec<Option<i64>> {
    let mut values = Vec::from_elem(rt.alloc(), None, 150).expect(rt, "memory");
    for i in 0..values.len() {
        if i % 7 != 0 {
            values[i] = Some(i as i64);
        }
    }
    values
}

/// The starts and ends of runs.
const RUNS: [(usize, usize); 6] = [
    (0, 150),
    (60, 70),
    (1, 131),
    (64, 64),
    (63, 129),
    (149, 150),
];

/// Checks the values of a column, read in runs.
fn see_runs<R: Abort + AllocGlobal>(rt: &R, column: Column, values: &[Option<i64>]) {
    for (at, end) in RUNS {
        assert!(rt; at <= end && end <= values.len());
        assert!(rt;
            read(rt, &column, at, end - at).as_slice() == &values[at..end],
            "{at}"
        );
    }
}

// The values come in two calls.
#[test]
fn runs_of_values(rt: HostRuntime) {
    let values = many(&rt);
    assert!(rt; values.len() == 150);
    let (first, more) = values.split_at(70);
    for kind in [Kind::Offset, Kind::Dictionary] {
        let column = column_of(&rt, first, Layout::P, kind);
        see_runs(&rt, appended(&rt, column, more), &values);
    }
}

/// 4, NULL and 7.
fn three_rows<R: Abort + AllocGlobal>(rt: &R) -> Column {
    column_of(rt, &[Some(4), None, Some(7)], Layout::P, Kind::Offset)
}

/// The first two values of a column, and its non-null rows.
fn front_of<R: Abort>(rt: &R, column: Column) -> (Option<i64>, Option<i64>, u64) {
    assert!(rt; column.len() == 3);
    (column.get(0), column.get(1), column.nonnull().bits(0, 64))
}

#[test]
fn rows_of_a_column(rt: HostRuntime) {
    see(&rt, front_of(&rt, three_rows(&rt)), (Some(4), None, 0b101));
}

/// The rows of a column of 2-bit codes whose high bit is set.
fn high_bits<R: Abort + AllocGlobal>(rt: &R, column: Column) -> u64 {
    let mut rows = rows_of(rt, &column, 0b111);
    assert!(rt; column.encoding().width() == 2);
    column.plane(1, &mut rows);
    rows.bits(0, 64)
}

#[test]
fn a_plane_of_a_column(rt: HostRuntime) {
    see(&rt, high_bits(&rt, three_rows(&rt)), 0b100);
}
