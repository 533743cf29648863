//! Masks and truths: the truth tables of SQL-92, and a successful run of each call that may run out of memory.

ghost use Rattle.std.specs.Prelude.{◌≡◌};
ghost use Rattle.bw_mask.specs.Masks.{len};

use crate::seen::{see, see_at};
use bw_mask::TruthValue::{False, True, Unknown};
use bw_mask::{Mask, Truth, TruthValue};
use std::process::Abort;

/// Two sides, their AND and their OR.
const TABLES: [(TruthValue, TruthValue, TruthValue, TruthValue); 9] = [
    (True, True, True, True),
    (True, False, False, True),
    (True, Unknown, Unknown, True),
    (False, True, False, True),
    (False, False, False, False),
    (False, Unknown, False, Unknown),
    (Unknown, True, Unknown, True),
    (Unknown, False, False, Unknown),
    (Unknown, Unknown, Unknown, Unknown),
];

/// A truth, its NOT, and whether it is true, false, unknown.
const TESTS: [(TruthValue, TruthValue, bool, bool, bool); 3] = [
    (True, False, true, false, false),
    (False, True, false, true, false),
    (Unknown, Unknown, false, false, true),
];

/// The given number of rows with one truth.
fn rows_of<R: Abort + AllocGlobal>(rt: &R, truth: TruthValue) -> Truth {
    Truth::filled(rt.alloc(), 70, truth).expect(rt, "memory")
}

/// The given number of rows, all set or all clear.
fn mask_of<R: Abort + AllocGlobal>(rt: &R, rows: usize, bit: bool) -> Mask {
    assert!(rt; rows < 1000);
    Mask::filled(rt.alloc(), rows, bit).expect(rt, "memory")
}

/// The truth at a row, if the row exists.
fn at_row(truths: &Truth, row: usize) -> Option<TruthValue> {
    if row < truths.len() {
        Some(truths.get(row))
    } else {
        None
    }
}

/// The operations on two truths or two masks.
#[derive(Clone, Copy)]
enum Pairing {
    And,
    Or,
    AndNot,
}

/// AND, OR, or AND of the NOT of the right, at the last of 70 rows.
fn of_rows<R: Abort + AllocGlobal>(
    rt: &R,
    pairing: Pairing,
    left: TruthValue,
    right: TruthValue,
) -> Option<TruthValue> {
    let mut truths = rows_of(rt, left);
    let mut other = rows_of(rt, right);
    assert!(rt; truths.len() == other.len());
    match pairing {
        Pairing::And => truths.and_in(&other),
        Pairing::Or => truths.or_in(&other),
        Pairing::AndNot => {
            other.not_in();
            truths.and_in(&other);
        }
    }
    at_row(&truths, 69)
}

/// IS FALSE, or where negated IS NOT FALSE, at a row of 70, where only the first is needed.
fn is_false_of_rows<R: Abort + AllocGlobal>(
    rt: &R,
    truth: TruthValue,
    negated: bool,
    row: usize,
) -> Option<TruthValue> {
    let mut truths = rows_of(rt, truth).try_clone().expect(rt, "memory");
    let mut need = mask_of(rt, 70, false);
    need.put_bits(0, 1, 1);
    assert_eq!(rt; need.len(), truths.len());
    truths.is_test_in(False, negated, &need);
    at_row(&truths, row)
}

#[test]
fn tables_of_and_and_or(rt: HostRuntime) {
    for (left, right, and, or) in TABLES {
        see_at(&rt, (left, right), left.and(right), and);
        see_at(&rt, (left, right), left.or(right), or);
    }
}

#[test]
fn tables_of_not_and_is(rt: HostRuntime) {
    for (truth, not, is_true, is_false, is_unknown) in TESTS {
        see_at(&rt, truth, truth.not(), not);
        see_at(&rt, truth, truth.is(True), is_true);
        see_at(&rt, truth, truth.is(False), is_false);
        see_at(&rt, truth, truth.is(Unknown), is_unknown);
    }
}

#[test]
fn and_and_or_of_rows(rt: HostRuntime) {
    for (left, right, and, or) in TABLES {
        see_at(
            &rt,
            (left, right),
            of_rows(&rt, Pairing::And, left, right),
            Some(and),
        );
        see_at(
            &rt,
            (left, right),
            of_rows(&rt, Pairing::Or, left, right),
            Some(or),
        );
        see_at(
            &rt,
            (left, right),
            of_rows(&rt, Pairing::AndNot, left, right.not()),
            Some(and),
        );
    }
}

#[test]
fn is_tests_of_rows(rt: HostRuntime) {
    for (truth, is, is_not) in [
        (True, False, True),
        (False, True, False),
        (Unknown, False, True),
    ] {
        see_at(&rt, truth, is_false_of_rows(&rt, truth, false, 0), Some(is));
        see_at(
            &rt,
            truth,
            is_false_of_rows(&rt, truth, true, 0),
            Some(is_not),
        );
        see_at(
            &rt,
            truth,
            is_false_of_rows(&rt, truth, true, 1),
            Some(Unknown),
        );
    }
}

fn see_words<R: Abort>(rt: &R, mask: &Mask, words: [u64; 2]) {
    assert_eq!(rt; mask.words(), words.as_slice());
}

#[test]
fn rows_of_a_mask(rt: HostRuntime) {
    let mut mask = mask_of(&rt, 70, true);
    see_words(&rt, &mask, [u64::MAX, 0x3f]);
    mask.complement_in();
    see(&rt, mask.any(), false);
    mask.put_bits(62, 4, 0b1011);
    mask.put_bits(68, 64, u64::MAX);
    assert!(rt; mask.len() == 70);
    mask.reserve(1).expect(&rt, "memory");
    mask.push(true);
    see_words(&rt, &mask, [0xc000_0000_0000_0000, 0x72]);
    see(&rt, (mask.len(), mask.count()), (71, 6));
}

#[test]
fn words_of_a_mask(rt: HostRuntime) {
    let mut mask = mask_of(&rt, 70, true);
    mask.put_word(1, 0xffff_ffff_ffff_ff2a);
    see_words(&rt, &mask, [u64::MAX, 0x2a]);
    mask.put_word(0, 0x72c);
    mask.put_word(2, u64::MAX);
    see_words(&rt, &mask, [0x72c, 0x2a]);
    see(&rt, (mask.len(), mask.count()), (70, 9));
}

#[test]
fn bits_of_a_mask(rt: HostRuntime) {
    let mut mask = mask_of(&rt, 71, false);
    mask.put_bits(60, 11, 0x72c);
    see(&rt, mask.bits(60, 64), 0x72c);
    see(&rt, mask.bits(60, 6), 0x2c);
    for (from, next) in [(0, Some(62)), (64, Some(65)), (71, None)] {
        see_at(&rt, from, mask.next_from(from), next);
    }
}

/// A copy of a mask of four rows.
fn four_rows<R: Abort + AllocGlobal>(rt: &R, bits: u64) -> Mask
    ensures { len result ≡ 4 }
{
    let mut mask = mask_of(rt, 4, false);
    mask.put_bits(0, 4, bits);
    let copy = mask.try_clone().expect(rt, "memory");
    assert!(rt; copy.len() == 4);
    copy
}

/// The result of an operation on two masks of four rows.
fn of_masks<R: Abort + AllocGlobal>(rt: &R, pairing: Pairing, left: u64, right: u64) -> u64 {
    let mut mask = four_rows(rt, left);
    let other = four_rows(rt, right);
    match pairing {
        Pairing::And => mask.and_in(&other),
        Pairing::Or => mask.or_in(&other),
        Pairing::AndNot => mask.andnot_in(&other),
    }
    mask.bits(0, 64)
}

#[test]
fn two_masks(rt: HostRuntime) {
    see(&rt, of_masks(&rt, Pairing::And, 0b1100, 0b1010), 0b1000);
    see(&rt, of_masks(&rt, Pairing::Or, 0b1100, 0b1010), 0b1110);
    see(&rt, of_masks(&rt, Pairing::AndNot, 0b1100, 0b1010), 0b0100);
    see(
        &rt,
        four_rows(&rt, 0b1100).count_both(&four_rows(&rt, 0b1010)),
        1,
    );
}
