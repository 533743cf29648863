//! Random numbers, compared with the plain definition.

use crate::plain::check;
use std::alloc::{AllocError, Global};
use std::process::Abort;

/// Numbers by shifts and exclusive or (Marsaglia's xorshift).
#[derive(Drop)]
struct Random {
    state: u64,
}

impl Random {
    /// The same sequence each time.
    fn new() -> Random {
        Random {
            state: 0x9e37_79b9_7f4a_7c15,
        }
    }

    fn next(&mut self) -> u64 {
        self.state ^= self.state << 13;
        self.state ^= self.state >> 7;
        self.state ^= self.state << 17;
        self.state
    }
}

/// The given number of random numbers, with only these bits.
fn drawn(
    alloc: Global,
    random: &mut Random,
    count: usize,
    bits: u64,
) -> Result<Vec<u64>, AllocError> {
    let mut numbers = Vec::with_capacity(alloc, count)?;
    for _ in 0..count {
        numbers.push(random.next() & bits)?;
    }
    Ok(numbers)
}

/// Checks random numbers with these bits, for each count.
fn check_bits<R: Abort + AllocGlobal>(rt: &R, bits: u64, counts: &[usize]) {
    let mut random = Random::new();
    for count in counts {
        let numbers = drawn(rt.alloc(), &mut random, *count, bits).expect(rt, "memory");
        check(rt, &numbers);
    }
}

/// Below half their count they are counted in a table.
#[test]
fn few_small_numbers(rt: HostRuntime) {
    check_bits(&rt, 0xff, &[1, 2, 63, 64, 65, 600, 3000]);
    check_bits(&rt, 0x303, &[3000]);
    check_bits(&rt, 0x1, &[1, 1000]);
}

/// Below 65,536, or below 32 times their count, they are marked.
#[test]
fn small_numbers(rt: HostRuntime) {
    check_bits(&rt, 0xffff, &[100, 1000, 3000]);
    check_bits(&rt, 0xf00f, &[3000]);
    check_bits(&rt, 0x1_1fff, &[3000]);
}

#[test]
fn numbers_of_forty_bits(rt: HostRuntime) {
    check_bits(&rt, 0xff_ffff_ffff, &[1, 2, 65, 3000]);
    check_bits(&rt, 0xf0_0000_0f00, &[3000]);
    check_bits(&rt, 0xff_0000_0000, &[3000]);
}

#[test]
fn numbers_of_64_bits(rt: HostRuntime) {
    check_bits(&rt, u64::MAX, &[1, 2, 65, 3000]);
    check_bits(&rt, 0xf000_0000_0000_0f00, &[3000]);
    check_bits(&rt, 0x00ff_0000_0000_0000, &[3000]);
}

/// At least 65,536 numbers, few of which are distinct, are ranked by refinement.
#[test]
fn few_wide_numbers(rt: HostRuntime) {
    check_bits(&rt, 0xf0_0000_0f00, &[65_536]);
    check_bits(&rt, 0x8000_0101_0101_0101, &[70_000]);
    check_bits(&rt, 0x00ff_0000_0000_0000, &[70_000]);
}
