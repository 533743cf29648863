//! Encodings and tests on codes: the worked tables of dictionaries and offsets, the ends of i64, and a successful run
//! of each call that may run out of memory.

use crate::seen::{see, see_at};
use bw_code::CmpOp::{Eq, Ge, Gt, Le, Lt, Ne};
use bw_code::{CmpOp, CodeTest, Encoding, Kind, fit};
use std::process::Abort;

const NONE: CodeTest = CodeTest::None;

const ALL: CodeTest = CodeTest::All;

const OPERATORS: [CmpOp; 6] = [Eq, Ne, Lt, Le, Gt, Ge];

/// Values, and the entries and the width of their dictionary. Five entries need three bits, and four need two.
const DICTIONARIES: [(&[i64], &[i64], u32); 5] = [
    (&[5, 4, 1, 4], &[1, 4, 5], 2),
    (&[], &[], 1),
    (&[7, 7], &[7], 1),
    (&[1, 2, 3, 5, 9], &[1, 2, 3, 5, 9], 3),
    (&[1, 2, 3, 9], &[1, 2, 3, 9], 2),
];

/// Values, and the base and the width of their offset.
const OFFSETS: [(&[i64], i64, u32); 5] = [
    (&[3, 1, 2], 1, 2),
    (&[], 0, 1),
    (&[7, 7], 7, 1),
    (&[i64::MAX, i64::MIN], i64::MIN, 64),
    (&[i64::MAX - 2, i64::MAX], i64::MAX - 2, 2),
];

/// An operator, and its test against 0, 1, 2, 4, 5 and 6 in the dictionary of 1, 4, 5.
const DICTIONARY_TESTS: [(CmpOp, [CodeTest; 6]); 6] = [
    (
        Eq,
        [
            NONE,
            CodeTest::Cmp(Eq, 0),
            NONE,
            CodeTest::Cmp(Eq, 1),
            CodeTest::Cmp(Eq, 2),
            NONE,
        ],
    ),
    (
        Ne,
        [
            ALL,
            CodeTest::Cmp(Ne, 0),
            ALL,
            CodeTest::Cmp(Ne, 1),
            CodeTest::Cmp(Ne, 2),
            ALL,
        ],
    ),
    (
        Lt,
        [
            NONE,
            NONE,
            CodeTest::Cmp(Lt, 1),
            CodeTest::Cmp(Lt, 1),
            CodeTest::Cmp(Lt, 2),
            ALL,
        ],
    ),
    (
        Le,
        [
            NONE,
            CodeTest::Cmp(Lt, 1),
            CodeTest::Cmp(Lt, 1),
            CodeTest::Cmp(Lt, 2),
            ALL,
            ALL,
        ],
    ),
    (
        Gt,
        [
            ALL,
            CodeTest::Cmp(Ge, 1),
            CodeTest::Cmp(Ge, 1),
            CodeTest::Cmp(Ge, 2),
            NONE,
            NONE,
        ],
    ),
    (
        Ge,
        [
            ALL,
            ALL,
            CodeTest::Cmp(Ge, 1),
            CodeTest::Cmp(Ge, 1),
            CodeTest::Cmp(Ge, 2),
            NONE,
        ],
    ),
];

/// A low and a high end, and their test in the dictionary of 1, 4, 5.
const DICTIONARY_RANGES: [(i64, i64, CodeTest); 7] = [
    (2, 4, CodeTest::Range(1, 1)),
    (0, 4, CodeTest::Range(0, 1)),
    (4, 9, CodeTest::Range(1, 2)),
    (1, 5, ALL),
    (2, 3, NONE),
    (6, 9, NONE),
    (5, 1, NONE),
];

/// An operator, and its test against 0, 1, 4 and 5 in the offset of base 1 and width 2, whose top is 4.
const OFFSET_TESTS: [(CmpOp, [CodeTest; 4]); 6] = [
    (Eq, [NONE, CodeTest::Cmp(Eq, 0), CodeTest::Cmp(Eq, 3), NONE]),
    (Ne, [ALL, CodeTest::Cmp(Ne, 0), CodeTest::Cmp(Ne, 3), ALL]),
    (Lt, [NONE, CodeTest::Cmp(Lt, 0), CodeTest::Cmp(Lt, 3), ALL]),
    (Le, [NONE, CodeTest::Cmp(Le, 0), CodeTest::Cmp(Le, 3), ALL]),
    (Gt, [ALL, CodeTest::Cmp(Gt, 0), CodeTest::Cmp(Gt, 3), NONE]),
    (Ge, [ALL, CodeTest::Cmp(Ge, 0), CodeTest::Cmp(Ge, 3), NONE]),
];

/// A low and a high end, and their test in the offset of base 1 and width 2.
const OFFSET_RANGES: [(i64, i64, CodeTest); 8] = [
    (1, 3, CodeTest::Range(0, 2)),
    (2, 9, CodeTest::Range(1, 3)),
    (0, 4, ALL),
    (i64::MIN, i64::MAX, ALL),
    (-5, 0, NONE),
    (5, 9, NONE),
    (3, 2, NONE),
    (4, 4, CodeTest::Range(3, 3)),
];

/// An operator, and its test in an empty dictionary.
const EMPTY_TESTS: [(CmpOp, CodeTest); 6] = [
    (Eq, NONE),
    (Ne, ALL),
    (Lt, NONE),
    (Le, NONE),
    (Gt, NONE),
    (Ge, NONE),
];

const MANY_VALUES: [i64; 4] = [40, -2, 7, 40];

/// The encoding that fits the values.
fn fitted<R: Abort + AllocGlobal>(rt: &R, values: &[i64], kind: Kind) -> Encoding {
    fit(rt.alloc(), values, kind).expect(rt, "memory")
}

/// The value that the code of a value decodes to.
fn back(encoding: &Encoding, x: i64) -> Option<i64> {
    match encoding.encode(x) {
        Some(code) => Some(encoding.decode(code)),
        None => None,
    }
}

/// A dictionary's entries; `None` for an offset.
fn entries_of(encoding: &Encoding) -> Option<&[i64]> {
    match encoding {
        Encoding::Offset(_) => None,
        Encoding::Dictionary(dictionary) => Some(dictionary.entries()),
    }
}

/// An offset's base and width.
fn span_of(encoding: &Encoding) -> Option<(i64, u32)> {
    match encoding {
        Encoding::Offset(offset) => Some((offset.base, offset.width)),
        Encoding::Dictionary(_) => None,
    }
}

/// Checks the entries and the width of the dictionary that fits these values.
fn check_dictionary<R: Abort + AllocGlobal>(rt: &R, values: &[i64], entries: &[i64], bits: u32) {
    let dictionary = fitted(rt, values, Kind::Dictionary);
    assert_eq!(rt; entries_of(&dictionary), Some(entries));
    see(
        rt,
        (dictionary.kind(), dictionary.width()),
        (Kind::Dictionary, bits),
    );
}

/// Checks the base and the width of the offset that fits these values.
fn check_offset<R: Abort + AllocGlobal>(rt: &R, values: &[i64], base: i64, bits: u32) {
    let offset = fitted(rt, values, Kind::Offset);
    see(rt, span_of(&offset), Some((base, bits)));
    see(rt, (offset.kind(), offset.width()), (Kind::Offset, bits));
}

#[test]
fn entries_and_bits_of_dictionaries(rt: HostRuntime) {
    for (values, entries, bits) in DICTIONARIES {
        check_dictionary(&rt, values, entries, bits);
    }
}

#[test]
fn bases_and_bits_of_offsets(rt: HostRuntime) {
    for (values, base, bits) in OFFSETS {
        check_offset(&rt, values, base, bits);
    }
}

/// Checks the codes of these values, one by one, where they have one.
fn check_encode<R: Abort>(rt: &R, encoding: &Encoding, wants: &[(i64, Option<u64>)]) {
    for (x, want) in wants {
        see_at(rt, *x, encoding.encode(*x), *want);
    }
}

/// Checks the tests of one operator against these constants.
fn check_tests<R: Abort>(
    rt: &R,
    encoding: &Encoding,
    op: CmpOp,
    constants: &[i64],
    wants: &[CodeTest],
) {
    for (constant, want) in constants.iter().zip(wants) {
        see_at(rt, (op, *constant), encoding.test(op, *constant), *want);
    }
}

/// Checks the tests for these ranges.
fn check_ranges<R: Abort>(rt: &R, encoding: &Encoding, wants: &[(i64, i64, CodeTest)]) {
    for (low, high, want) in wants {
        see_at(rt, (*low, *high), encoding.range(*low, *high), *want);
    }
}

/// The dictionary of 1, 4, 5.
fn dictionary_of_three<R: Abort + AllocGlobal>(rt: &R) -> Encoding {
    fitted(rt, &[5, 4, 1, 4], Kind::Dictionary)
}

#[test]
fn comparisons_by_a_dictionary(rt: HostRuntime) {
    let dictionary = dictionary_of_three(&rt);
    for (op, wants) in &DICTIONARY_TESTS {
        check_tests(&rt, &dictionary, *op, &[0, 1, 2, 4, 5, 6], wants);
    }
}

#[test]
fn ranges_by_a_dictionary(rt: HostRuntime) {
    check_ranges(&rt, &dictionary_of_three(&rt), &DICTIONARY_RANGES);
}

/// The offset of base 1 and width 2.
fn offset_of_three<R: Abort + AllocGlobal>(rt: &R) -> Encoding {
    fitted(rt, &[3, 1, 2], Kind::Offset)
}

#[test]
fn comparisons_by_an_offset(rt: HostRuntime) {
    let offset = offset_of_three(&rt);
    for (op, wants) in &OFFSET_TESTS {
        check_tests(&rt, &offset, *op, &[0, 1, 4, 5], wants);
    }
}

#[test]
fn ranges_by_an_offset(rt: HostRuntime) {
    check_ranges(&rt, &offset_of_three(&rt), &OFFSET_RANGES);
}

#[test]
fn codes_by_an_offset_of_no_values(rt: HostRuntime) {
    let offset = fitted(&rt, &[], Kind::Offset);
    let wants = [(-1, None), (0, Some(0)), (1, Some(1)), (2, None)];
    check_encode(&rt, &offset, &wants);
}

#[test]
fn tests_by_a_dictionary_of_no_values(rt: HostRuntime) {
    let dictionary = fitted(&rt, &[], Kind::Dictionary);
    for (op, want) in EMPTY_TESTS {
        check_tests(&rt, &dictionary, op, &[0], &[want]);
    }
    check_ranges(&rt, &dictionary, &[(0, 9, NONE)]);
}

/// The offset that spans all of i64.
fn whole<R: Abort + AllocGlobal>(rt: &R) -> Encoding {
    fitted(rt, &[i64::MAX, i64::MIN], Kind::Offset)
}

#[test]
fn an_offset_of_both_ends_of_i64(rt: HostRuntime) {
    let whole = whole(&rt);
    check_encode(&rt, &whole, &[(i64::MAX, Some(u64::MAX))]);
    check_ranges(&rt, &whole, &[(i64::MIN, i64::MAX, ALL)]);
}

#[test]
fn comparisons_with_both_ends_of_i64(rt: HostRuntime) {
    let whole = whole(&rt);
    for op in OPERATORS {
        let wants = [CodeTest::Cmp(op, 0), CodeTest::Cmp(op, u64::MAX)];
        check_tests(&rt, &whole, op, &[i64::MIN, i64::MAX], &wants);
    }
}

/// An offset whose top is one above i64::MAX, so no constant is above it, and no high end reaches it.
fn high<R: Abort + AllocGlobal>(rt: &R) -> Encoding {
    fitted(rt, &[i64::MAX - 2, i64::MAX], Kind::Offset)
}

#[test]
fn all_of_i64_by_a_top_above_it(rt: HostRuntime) {
    let want = (i64::MIN, i64::MAX, CodeTest::Range(0, 2));
    check_ranges(&rt, &high(&rt), &[want]);
}

#[test]
fn the_greatest_i64_by_a_top_above_it(rt: HostRuntime) {
    let high = high(&rt);
    for op in OPERATORS {
        check_tests(&rt, &high, op, &[i64::MAX], &[CodeTest::Cmp(op, 2)]);
    }
}

/// Checks what the codes of both ends of i64 decode to: that of the greatest to itself, and that of the least to this.
fn check_ends<R: Abort>(rt: &R, encoding: &Encoding, least: Option<i64>) {
    see(rt, back(encoding, i64::MIN), least);
    see(rt, back(encoding, i64::MAX), Some(i64::MAX));
}

#[test]
fn the_ends_of_i64_there_and_back(rt: HostRuntime) {
    check_ends(&rt, &whole(&rt), Some(i64::MIN));
    check_ends(&rt, &high(&rt), None);
    let both = fitted(&rt, &[i64::MIN, i64::MAX], Kind::Dictionary);
    check_ends(&rt, &both, Some(i64::MIN));
}

/// Checks the codes of these values, of this width, in an encoding that fits them.
fn check_codes<R: Abort + AllocGlobal>(rt: &R, kind: Kind, wants: [u64; 4], bits: u32) {
    let encoding = fitted(rt, &MANY_VALUES, kind);
    let mut codes = [0; 4];
    assert!(rt; encoding.encode_all(&MANY_VALUES, &mut codes));
    see(rt, codes, wants);
    see(rt, encoding.width(), bits);
}

#[test]
fn codes_of_many_values(rt: HostRuntime) {
    check_codes(&rt, Kind::Offset, [42, 0, 9, 42], 6);
    check_codes(&rt, Kind::Dictionary, [2, 0, 1, 2], 2);
}

#[test]
fn no_code_for_a_value_that_was_not_given(rt: HostRuntime) {
    for kind in [Kind::Offset, Kind::Dictionary] {
        let encoding = fitted(&rt, &MANY_VALUES, kind);
        assert!(rt; !encoding.encode_all(&[7, 40, -3, 7], &mut [0; 4]));
    }
}

#[test]
fn encodings_are_equal_by_their_values(rt: HostRuntime) {
    for kind in [Kind::Offset, Kind::Dictionary] {
        let encoding = fitted(&rt, &MANY_VALUES, kind);
        assert!(rt; encoding == fitted(&rt, &[7, -2, 40], kind));
        assert!(rt; encoding != fitted(&rt, &[7, -3, 40], kind));
    }
}
