//! Lists worked by hand.

use crate::seen::see;
use bw_rank::{rank, rank_counted};
use std::process::Abort;

/// Numbers, the distinct ones, how often each of these occurs, and the rank of each number.
type Worked = (
    &'static [u64],
    &'static [u64],
    &'static [u32],
    &'static [u32],
);

const SMALL: [Worked; 8] = [
    (&[], &[], &[], &[]),
    (&[0], &[0], &[1], &[0]),
    (&[5, 5, 5], &[5], &[3], &[0, 0, 0]),
    (&[1, 0, 1, 1], &[0, 1], &[1, 3], &[1, 0, 1, 1]),
    (
        &[3, 0, 3, 0, 3, 3, 0, 3],
        &[0, 3],
        &[3, 5],
        &[1, 0, 1, 0, 1, 1, 0, 1],
    ),
    (&[3, 2, 1, 0], &[0, 1, 2, 3], &[1, 1, 1, 1], &[3, 2, 1, 0]),
    (
        &[200, 3, 64, 3, 63, 200, 0, 127],
        &[0, 3, 63, 64, 127, 200],
        &[1, 2, 1, 1, 1, 2],
        &[5, 1, 3, 1, 2, 5, 0, 4],
    ),
    // just below the limit where another algorithm begins, and at the limit
    (
        &[65_536, 65_535, 131_072, 131_071, 65_535],
        &[65_535, 65_536, 131_071, 131_072],
        &[2, 1, 1, 1],
        &[1, 0, 3, 2, 0],
    ),
];

const FORTY_BITS: [Worked; 3] = [
    (
        &[0xff_ffff_ffff, 7, 0x80_0000_0000, 7],
        &[7, 0x80_0000_0000, 0xff_ffff_ffff],
        &[2, 1, 1],
        &[2, 0, 1, 0],
    ),
    (
        &[0xff_ffff_ffff, 0xff_ffff_ffff],
        &[0xff_ffff_ffff],
        &[2],
        &[0, 0],
    ),
    (
        &[0x1_0000_0002, 0x1_0000_0001, 2, 1],
        &[1, 2, 0x1_0000_0001, 0x1_0000_0002],
        &[1, 1, 1, 1],
        &[3, 2, 1, 0],
    ),
];

const WIDE: [Worked; 4] = [
    (
        &[0x100_0000_0000, 0xff_ffff_ffff, 0x100_0000_0000],
        &[0xff_ffff_ffff, 0x100_0000_0000],
        &[1, 2],
        &[1, 0, 1],
    ),
    (
        &[
            0xffff_ffff_ffff_ffff,
            0,
            0x100_0000_0000,
            0xffff_ffff_ffff_ffff,
            0x8000_0000_0000_0000,
        ],
        &[
            0,
            0x100_0000_0000,
            0x8000_0000_0000_0000,
            0xffff_ffff_ffff_ffff,
        ],
        &[1, 1, 1, 2],
        &[3, 0, 1, 3, 2],
    ),
    (
        &[0xffff_ffff_ffff_ffff, 0xffff_ffff_ffff_ffff],
        &[0xffff_ffff_ffff_ffff],
        &[2],
        &[0, 0],
    ),
    (
        &[
            0xffff_ffff_ffff_fffe,
            0xffff_ffff_ffff_ffff,
            0xffff_ffff_ffff_fffd,
        ],
        &[
            0xffff_ffff_ffff_fffd,
            0xffff_ffff_ffff_fffe,
            0xffff_ffff_ffff_ffff,
        ],
        &[1, 1, 1],
        &[1, 2, 0],
    ),
];

/// Checks the ranks of numbers that were worked by hand, without counts and with them.
fn check_worked<R: Abort + AllocGlobal>(rt: &R, worked: Worked) {
    let (numbers, entries, times, ranks) = worked;
    assert!(rt; numbers.len() <= 1 << 24);
    let found = rank(rt.alloc(), numbers).expect(rt, "memory");
    see(rt, found.entries.as_slice(), entries);
    see(rt, found.ranks.as_slice(), ranks);
    let found = rank_counted(rt.alloc(), numbers).expect(rt, "memory");
    see(rt, found.entries.as_slice(), entries);
    see(rt, found.times.as_slice(), times);
    see(rt, found.ranks.as_slice(), ranks);
}

#[test]
fn small_numbers(rt: HostRuntime) {
    for worked in SMALL {
        check_worked(&rt, worked);
    }
}

#[test]
fn numbers_of_forty_bits(rt: HostRuntime) {
    for worked in FORTY_BITS {
        check_worked(&rt, worked);
    }
}

#[test]
fn numbers_up_to_the_end_of_64_bits(rt: HostRuntime) {
    for worked in WIDE {
        check_worked(&rt, worked);
    }
}
