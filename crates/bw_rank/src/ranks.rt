//! Ranks, and the choice of the algorithm.

ghost use Rattle.std.specs.Prelude.{All, IfOk, length, ◌^◌, ◌≤◌};
ghost use Rattle.bw_rank.specs.Ranks.{AreRanks};

use crate::marks::ranks_by_marks;
use crate::packed::ranks_by_packed_sort;
use crate::refinement::ranks_by_refinement;
use crate::widths::narrowed;
use std::alloc::{AllocError, Global};

/// The distinct ones of some numbers, and for each of the numbers its index among the distinct ones.
#[derive(Debug, Drop)]
pub struct Ranks {
    /// The distinct numbers, ascending.
    pub entries: Vec<u64>,
    /// For each of the numbers its index among the distinct ones.
    pub ranks: Vec<u32>,
}

/// How many numbers are enough to look whether few of them are distinct.
const LEAST_REFINED: usize = 1 << 16;

/// The least number that is too great for a bitmap when `count` numbers are ranked.
pub(crate) fn bitmap_limit(count: usize) -> u64
    requires { count ≤ 2 ^ 24 }
    ensures { result ≤ 2 ^ 29 }
{
    (32 * count as u64).max(1 << 16)
}

/// Ranks numbers: by a bitmap up to the greatest number if that is small enough, else by refinement if few of many
/// numbers are distinct, else by sorting the numbers with their indices, in words of 64 bits if they fit.
pub fn rank(alloc: Global, numbers: &[u64]) -> Result<Ranks, AllocError>
    requires { length numbers.now ≤ 2 ^ 24 }
    ensures { IfOk result (λ ranks. AreRanks numbers.now ranks.entries.items ranks.ranks.items) }
{
    let greatest = greatest_of(numbers);
    if greatest < bitmap_limit(numbers.len()) {
        return ranks_by_marks(alloc, narrowed(alloc, numbers)?, greatest as usize + 1);
    }
    if numbers.len() >= LEAST_REFINED {
        if let Some(ranks) = ranks_by_refinement(alloc, numbers, greatest)? {
            return Ok(ranks);
        }
    }
    if greatest < 1 << 40 {
        ranks_by_packed_sort::<u64>(alloc, numbers)
    } else {
        ranks_by_packed_sort::<u128>(alloc, numbers)
    }
}

/// The greatest of some numbers; 0 for an empty list.
pub(crate) fn greatest_of(numbers: &[u64]) -> u64
    ensures { All (λ n. n ≤ result) numbers.now }
{
    let mut greatest = 0;
    for number in numbers {
        greatest = greatest.max(*number);
    }
    greatest
}
