//! The greatest number of numbers.

use crate::seen::{see, see_at};
use bw_rank::{Ranked, rank_counted};
use std::alloc::{AllocError, Global};
use std::process::Abort;

const MOST: u64 = 1 << 24;

/// Numbers of which a power of two are distinct: those from 0 on, each shifted left by some bits.
#[derive(Clone, Copy)]
struct Shape {
    /// The number of distinct numbers minus one.
    last: u64,
    up: u32,
}

impl Shape {
    /// The rank of the number at an index. Each occurs equally often, since the factor is odd.
    fn rank(self, place: u64) -> u64 {
        place.wrapping_mul(0x9e37_79b1) & self.last
    }

    /// The number with a rank.
    fn number(self, rank: u64) -> u64 {
        rank.wrapping_shl(self.up)
    }

    fn numbers(self, alloc: Global) -> Result<Vec<u64>, AllocError> {
        let mut numbers = Vec::with_capacity(alloc, MOST as usize)?;
        for place in 0..MOST {
            numbers.push(self.number(self.rank(place)))?;
        }
        Ok(numbers)
    }
}

fn check_found<R: Abort>(rt: &R, shape: Shape, found: Ranked) {
    see(rt, found.entries.len() as u64, shape.last.wrapping_add(1));
    for (rank, entry) in (0..MOST).zip(&found.entries) {
        see_at(rt, rank, *entry, shape.number(rank));
    }
    see(rt, found.times.len(), found.entries.len());
    for times in &found.times {
        see(
            rt,
            u64::from(*times),
            MOST.wrapping_shr(shape.last.count_ones()),
        );
    }
    see(rt, found.ranks.len() as u64, MOST);
    for (place, rank) in (0..MOST).zip(&found.ranks) {
        see_at(rt, place, u64::from(*rank), shape.rank(place));
    }
}

fn check_shape<R: Abort + AllocGlobal>(rt: &R, last: u64, up: u32) {
    let shape = Shape { last, up };
    let numbers = shape.numbers(rt.alloc()).expect(rt, "memory");
    assert!(rt; numbers.len() <= 1 << 24);
    let found = rank_counted(rt.alloc(), &numbers).expect(rt, "memory");
    check_found(rt, shape, found);
}

#[test]
fn most_numbers_by_a_table(rt: HostRuntime) {
    check_shape(&rt, 0xffff, 0);
}

#[test]
fn most_numbers_by_marks(rt: HostRuntime) {
    check_shape(&rt, 0xff_ffff, 4);
}

#[test]
fn most_numbers_of_40_bits(rt: HostRuntime) {
    check_shape(&rt, 0xff_ffff, 16);
}

#[test]
fn most_numbers_of_64_bits(rt: HostRuntime) {
    check_shape(&rt, 0xff_ffff, 40);
}
