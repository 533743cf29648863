//! Two columns compared with each other: worked examples with the units that are read, and random pairs in all layouts
//! and kinds compared with a plain comparison of their values.

use crate::columns::{ALL, Outcome, column_of, side_by_side};
use crate::random::{LAYOUTS, Random};
use crate::seen::{see, see_at};
use bw_code::{CmpOp, Kind, Layout, Meter};
use bw_column::Column;
use bw_mask::{Mask, Truth};
use std::process::Abort;

const KINDS: [Kind; 2] = [Kind::Offset, Kind::Dictionary];

const OPERATORS: [CmpOp; 6] = [
    CmpOp::Eq,
    CmpOp::Ne,
    CmpOp::Lt,
    CmpOp::Le,
    CmpOp::Gt,
    CmpOp::Ge,
];

/// The rows where the values of one list are less than those of another, of kind OFFSET in these layouts.
fn below<R: Abort + AllocGlobal>(
    rt: &R,
    layout: Layout,
    values: &[Option<i64>],
    other_layout: Layout,
    others: &[Option<i64>],
) -> Outcome {
    let left = column_of(rt, values, layout, Kind::Offset);
    let right = column_of(rt, others, other_layout, Kind::Offset);
    side_by_side(rt, left, CmpOp::Lt, right, ALL)
}

#[test]
fn other_bases_are_added_plane_by_plane(rt: HostRuntime) {
    let left = [Some(10), Some(12), Some(17)];
    let right = [Some(11), Some(11), Some(20)];
    let outcome = below(&rt, Layout::V, &left, Layout::V, &right);
    see(&rt, outcome, (0b101, 0b010, 7));
}

#[test]
fn equal_encodings_are_scanned_side_by_side(rt: HostRuntime) {
    let left = [Some(0), Some(3)];
    let right = [Some(3), Some(0)];
    for (layout, other, units) in [
        (Layout::V, Layout::V, 4),
        (Layout::H, Layout::H, 6),
        (Layout::S, Layout::S, 2),
        (Layout::V, Layout::H, 4),
        (Layout::P, Layout::P, 4),
    ] {
        let outcome = below(&rt, layout, &left, other, &right);
        see_at(&rt, (layout, other), outcome, (0b01, 0b10, units));
    }
}

#[test]
fn no_row_no_unit(rt: HostRuntime) {
    for layout in LAYOUTS {
        let outcome = below(&rt, layout, &[None], Layout::V, &[Some(1)]);
        see_at(&rt, layout, outcome, (0, 0, 0));
    }
}

/// 5, -3, null, 7 compared with 5, 4, 1, null in these layouts and kinds.
fn check_worked<R: Abort + AllocGlobal>(rt: &R, layouts: (Layout, Layout), kinds: (Kind, Kind)) {
    let left = [Some(5), Some(-3), None, Some(7)];
    let right = [Some(5), Some(4), Some(1), None];
    for (op, trues, falses) in [(CmpOp::Lt, 0b0010, 0b0001), (CmpOp::Eq, 0b0001, 0b0010)] {
        let a = column_of(rt, &left, layouts.0, kinds.0);
        let b = column_of(rt, &right, layouts.1, kinds.1);
        let (found, missed, _) = side_by_side(rt, a, op, b, ALL);
        see_at(rt, (layouts, kinds), (found, missed), (trues, falses));
    }
}

#[test]
fn a_worked_pair_in_all_layouts_and_kinds(rt: HostRuntime) {
    for layout in LAYOUTS {
        for other in LAYOUTS {
            for kind in KINDS {
                for other_kind in KINDS {
                    check_worked(&rt, (layout, other), (kind, other_kind));
                }
            }
        }
    }
}

/// The least value of a column, the greatest distance from it, and the greatest allowed value.
#[derive(Clone, Copy)]
struct Span {
    base: i64,
    greatest: u64,
    most: i64,
}

impl Span {
    /// INTEGERs: a distance of 1 to 32 bits, from near 0 or from far.
    fn of_integers(random: &mut Random) -> Span {
        let word = random.next();
        let base = ((word >> 32) as u32).cast_signed();
        Span {
            base: i64::from(base >> (word % 32)),
            greatest: u64::from(u32::MAX >> (word / 32 % 32)),
            most: 2_147_483_647,
        }
    }

    /// Integers of 64 bits: a distance of 1 to 64 bits, from near 0 or from far.
    fn of_words(random: &mut Random) -> Span {
        let word = random.next();
        Span {
            base: random.next().cast_signed() >> (word % 64),
            greatest: u64::MAX >> (word / 64 % 64),
            most: i64::MAX,
        }
    }

    /// The value at this distance above the base, capped at the greatest allowed value.
    fn value(self, distance: u64) -> i64 {
        match i64::try_from(i128::from(self.base) + i128::from(distance)) {
            Ok(value) => value.min(self.most),
            Err(_) => self.most,
        }
    }
}

/// Values of a span, its ends among them, and one in eight null.
fn values_of<R: Abort + AllocGlobal>(rt: &R, random: &mut Random, span: Span) -> Vec<Option<i64>> {
    let mut values = Vec::from_elem(rt.alloc(), None, 130).expect(rt, "memory");
    for i in 0..values.len() {
        let word = random.next();
        if word % 8 != 0 {
            values[i] = Some(span.value(random.next() & span.greatest));
        }
    }
    if values.len() > 2 {
        values[1] = Some(span.value(0));
        values[2] = Some(span.value(span.greatest));
    }
    values
}

/// Whether the comparison of two numbers holds.
fn holds(op: CmpOp, x: i64, y: i64) -> bool {
    match op {
        CmpOp::Eq => x == y,
        CmpOp::Ne => x != y,
        CmpOp::Lt => x < y,
        CmpOp::Le => x <= y,
        CmpOp::Gt => x > y,
        CmpOp::Ge => x >= y,
    }
}

/// The truth at a row, `None` if it is unknown or the row isn't needed.
fn wanted(op: CmpOp, x: Option<i64>, y: Option<i64>, needed: bool) -> Option<bool> {
    match (x, y) {
        (Some(x), Some(y)) if needed => Some(holds(op, x, y)),
        _ => None,
    }
}

/// `rows` rows, chosen by the bits of a word, which is repeated.
fn chosen_rows<R: Abort + AllocGlobal>(rt: &R, rows: usize, chosen: u64) -> Mask {
    assert!(rt; rows <= 200);
    let mut need = Mask::filled(rt.alloc(), rows, false).expect(rt, "memory");
    for q in 0..rows.div_ceil(64) {
        need.put_bits(64 * q, 64, chosen);
    }
    need
}

/// The bits of a row where it is true and where it is false.
fn bits_of(truth: Option<bool>) -> (u64, u64) {
    match truth {
        Some(true) => (1, 0),
        Some(false) => (0, 1),
        None => (0, 0),
    }
}

/// Compares two columns at the needed rows, and checks each truth against that of the plain values.
fn check_truths<R: Abort + AllocGlobal>(
    rt: &R,
    left: &Column,
    right: &Column,
    op: CmpOp,
    need: &Mask,
) {
    assert!(rt; left.len() == right.len() && need.len() == left.len());
    let truth = left
        .compare_column(rt.alloc(), op, right, need, &mut Meter::new())
        .expect(rt, "memory");
    for i in 0..left.len() {
        let truth_at = wanted(op, left.get(i), right.get(i), need.bits(i, 1) == 1);
        let found = (truth.trues().bits(i, 1), truth.falses().bits(i, 1));
        see_at(rt, (op, i), found, bits_of(truth_at));
    }
}

/// Compares two columns at the rows that a repeated word chooses.
fn check_pair<R: Abort + AllocGlobal>(rt: &R, left: Column, right: Column, op: CmpOp, chosen: u64) {
    let need = chosen_rows(rt, left.len(), chosen);
    check_truths(rt, &left, &right, op, &need);
}

/// The layouts that hold integers of 64 bits, that of planes twice.
const WIDE_LAYOUTS: [Layout; 4] = [Layout::P, Layout::V, Layout::S, Layout::V];

/// Checks one pair of lists in all pairs of these layouts and of the kinds.
fn check_layouts<R: Abort + AllocGlobal>(
    rt: &R,
    random: &mut Random,
    layouts: [Layout; 4],
    values: &[Option<i64>],
    others: &[Option<i64>],
) {
    for i in 0..64 {
        let left = column_of(rt, values, layouts[i / 16], KINDS[i / 8 % 2]);
        let right = column_of(rt, others, layouts[i / 2 % 4], KINDS[i % 2]);
        let op = OPERATORS[(random.next() >> 8) as usize % 6];
        check_pair(rt, left, right, op, random.next() | random.next());
    }
}

/// Compares random values of two spans in these layouts.
fn check_spans<R: Abort + AllocGlobal>(
    rt: &R,
    random: &mut Random,
    layouts: [Layout; 4],
    span: Span,
    other: Span,
) {
    let values = values_of(rt, random, span);
    let others = values_of(rt, random, other);
    check_layouts(rt, random, layouts, &values, &others);
}

/// Two spans; in one case of four they are the same, so that both columns have the same encoding.
fn paired(case: usize, span: Span, other: Span) -> (Span, Span) {
    (span, if case % 4 == 0 { span } else { other })
}

#[test]
fn random_pairs_in_all_layouts_and_kinds(rt: HostRuntime) {
    let mut random = Random::new();
    for case in 0..200 {
        let span = Span::of_integers(&mut random);
        let (span, other) = paired(case, span, Span::of_integers(&mut random));
        check_spans(&rt, &mut random, LAYOUTS, span, other);
    }
}

#[test]
fn random_pairs_of_64_bits(rt: HostRuntime) {
    let mut random = Random::new();
    for case in 0..100 {
        let span = Span::of_words(&mut random);
        let (span, other) = paired(case, span, Span::of_words(&mut random));
        check_spans(&rt, &mut random, WIDE_LAYOUTS, span, other);
    }
}
