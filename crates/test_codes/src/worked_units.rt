//! The units of the plain program, compared with worked numbers.

ghost use Rattle.std.specs.Prelude.{◌≡◌};
ghost use Rattle.bw_mask.specs.Masks.{len};

use crate::seen::{see, see_at};
use crate::units::{addition_units, fetch_units, pair_units, rows_of, scan_units};
use bw_code::{CmpOp, CodeTest, Layout};
use bw_mask::Mask;
use std::process::Abort;

/// The codes 0 to 15 and 240 to 255, and 128.
const ENDS: [u64; 33] = [
    0, 1, 2, 3, 4, 5, 6, 7, 8, 9, 10, 11, 12, 13, 14, 15, 240, 241, 242, 243, 244, 245, 246, 247,
    248, 249, 250, 251, 252, 253, 254, 255, 128,
];

/// The given number of rows, of which those are needed whose bits are set.
fn needed<R: Abort + AllocGlobal>(rt: &R, rows: usize, bits: u64) -> Mask
    ensures { len result ≡ rows }
{
    assert!(rt; rows < 1000);
    let mut need = Mask::filled(rt.alloc(), rows, false).expect(rt, "memory");
    need.put_bits(0, 64, bits);
    need
}

fn units_of<R: Abort + AllocGlobal>(
    rt: &R,
    layout: Layout,
    width: u32,
    test: CodeTest,
    bits: u64,
    codes: &[u64],
) -> u64 {
    assert!(rt; width <= 64);
    assert!(rt; rows_of(layout, width) > 0);
    let need = needed(rt, codes.len(), bits);
    assert!(rt; need.len() <= 1000);
    scan_units(rt.alloc(), layout, width, test, &need, codes).expect(rt, "memory")
}

// Segments whose first digits decide all rows stop there; those with a row that agrees further go on.
#[test]
fn units_of_one_scan(rt: HostRuntime) {
    let below = CodeTest::Cmp(CmpOp::Lt, 256);
    for (layout, units) in [
        (Layout::S, 1),
        (Layout::V, 4),
        (Layout::H, 10),
        (Layout::P, 2),
    ] {
        let found = units_of(&rt, layout, 9, below, u64::MAX, &[0, 300]);
        see_at(&rt, layout, found, units);
    }
}

#[test]
fn units_with_a_row_that_agrees_farther(rt: HostRuntime) {
    let below = CodeTest::Cmp(CmpOp::Lt, 128);
    for (layout, units, with_128) in [
        (Layout::V, 4, 8),
        (Layout::H, 9, 9),
        (Layout::S, 1, 2),
        (Layout::P, 32, 33),
    ] {
        for (codes, units) in [(&ENDS[..32], units), (&ENDS, with_128)] {
            let found = units_of(&rt, layout, 8, below, u64::MAX, codes);
            see_at(&rt, layout, found, units);
        }
    }
}

/// A test, and the planes and the slices that it reads.
type Scan = (CodeTest, u64, u64);

/// A width, the one code of a column, and scans of it. They read up to the group of four bits, or to the byte, in which
/// the code first differs from the numbers of the test. With 33 bits all ones are stored as the bytes ff ff ff ff 80.
const WIDE_SCANS: [(u32, u64, &[Scan]); 3] = [
    (
        40,
        0x96_0000_00a5,
        &[
            (CodeTest::Cmp(CmpOp::Lt, 0x80_0000_0000), 4, 1),
            (CodeTest::Cmp(CmpOp::Ge, 0x97_0000_0000), 8, 1),
            (CodeTest::Cmp(CmpOp::Ne, 0x96_0080_0000), 20, 3),
            (CodeTest::Range(0x90_0000_0000, 0x96_0000_0100), 32, 4),
            (CodeTest::Cmp(CmpOp::Eq, 0x96_0000_00a5), 40, 5),
        ],
    ),
    (
        33,
        0x1_ffff_ffff,
        &[
            (CodeTest::Cmp(CmpOp::Lt, 0x1_0000_0000), 4, 1),
            (CodeTest::Cmp(CmpOp::Gt, 0x1_ffff_fffd), 32, 4),
            (CodeTest::Cmp(CmpOp::Gt, 0x1_ffff_fffe), 33, 5),
        ],
    ),
    (
        64,
        u64::MAX,
        &[
            (CodeTest::Cmp(CmpOp::Lt, 0x8000_0000_0000_0000), 4, 1),
            (CodeTest::Cmp(CmpOp::Gt, 0xffff_ffff_0000_0000), 36, 5),
            (CodeTest::Cmp(CmpOp::Ge, 0xffff_ffff_ffff_fffe), 64, 8),
        ],
    ),
];

#[test]
fn units_of_wide_scans(rt: HostRuntime) {
    for (width, code, scans) in &WIDE_SCANS {
        for (test, planes, slices) in *scans {
            for (layout, units) in [(Layout::V, *planes), (Layout::S, *slices), (Layout::P, 1)] {
                let found = units_of(&rt, layout, *width, *test, 1, &[*code]);
                see_at(&rt, (layout, *test), found, units);
            }
        }
    }
}

// Of the codes without 128: the first 16 rows, the last 16, all but the row with code 3, all, none.
#[test]
fn units_by_needed_rows(rt: HostRuntime) {
    for (test, bits, units) in [
        (CodeTest::Cmp(CmpOp::Eq, 3), 0xffff, 8),
        (CodeTest::Cmp(CmpOp::Eq, 3), 0xffff_0000, 4),
        (CodeTest::Cmp(CmpOp::Eq, 250), 0xffff_fff7, 8),
        (CodeTest::Range(3, 200), 0xffff_ffff, 8),
        (CodeTest::All, 0xffff_ffff, 0),
        (CodeTest::None, 0xffff_ffff, 0),
        (CodeTest::Cmp(CmpOp::Eq, 3), 0, 0),
    ] {
        let found = units_of(&rt, Layout::V, 8, test, bits, &ENDS[..32]);
        see_at(&rt, test, found, units);
    }
}

fn units_of_two<R: Abort + AllocGlobal>(
    rt: &R,
    layout: Layout,
    width: u32,
    codes: &[u64],
    others: &[u64],
) -> u64 {
    assert!(rt; width <= 64 && codes.len() == others.len());
    assert!(rt; rows_of(layout, width) > 0);
    let need = needed(rt, codes.len(), u64::MAX);
    assert!(rt; need.len() <= 1000);
    pair_units(rt.alloc(), layout, width, &need, codes, others).expect(rt, "memory")
}

/// Two codes of 40 bits.
const WIDE: [u64; 2] = [0x96_0000_00a5, 0x90_0000_0000];

/// Codes that agree with those in 21 leading bits, two whole bytes among them, and in four.
const OTHERS: [u64; 2] = [0x96_0004_00a5, 0x98_0000_0000];

#[test]
fn units_of_a_pair(rt: HostRuntime) {
    for (layout, units) in [
        (Layout::V, 4),
        (Layout::H, 6),
        (Layout::S, 2),
        (Layout::P, 4),
    ] {
        let found = units_of_two(&rt, layout, 2, &[0, 3], &[3, 0]);
        see_at(&rt, layout, found, units);
    }
    for (layout, units) in [(Layout::V, 48), (Layout::S, 6), (Layout::P, 4)] {
        let found = units_of_two(&rt, layout, 40, &WIDE, &OTHERS);
        see_at(&rt, layout, found, units);
    }
    let found = units_of_two(&rt, Layout::V, 8, &ENDS[..32], &ENDS[..32]);
    see(&rt, found, 16);
}

#[test]
fn units_of_additions_and_fetches(rt: HostRuntime) {
    see(&rt, addition_units(3, 4, &needed(&rt, 3, 0b111)), 7);
    see(&rt, addition_units(2, 2, &needed(&rt, 2, 0b11)), 4);
    see(&rt, addition_units(1, 1, &needed(&rt, 1, 0)), 0);
    see(&rt, addition_units(3, 4, &needed(&rt, 257, 1)), 14);
    see(&rt, fetch_units(&needed(&rt, 2, 0b11)), 4);
    see(&rt, fetch_units(&needed(&rt, 32, u64::MAX)), 64);
    see(&rt, fetch_units(&needed(&rt, 32, 0)), 0);
}
