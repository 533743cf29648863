//! Ranks, and how often each of the distinct numbers occurs; and the choice of the algorithm.

ghost use Rattle.std.specs.Prelude.{All, IfOk, length, ◌^◌, ◌≤◌};
ghost use Rattle.bw_rank.specs.Ranks.{AreRanked};

use crate::counted::with_times;
use crate::marks::ranks_by_marks;
use crate::ranks::{Ranks, bitmap_limit, greatest_of, rank};
use crate::table::ranked_by_table;
use crate::widths::{narrowed, widened};
use std::alloc::{AllocError, Global};

/// The distinct ones of some numbers, how often each occurs, and for each of the numbers its index among the distinct
/// ones.
#[derive(Debug, Drop)]
pub struct Ranked {
    /// The distinct numbers, ascending.
    pub entries: Vec<u64>,
    /// How often each of them occurs among the numbers.
    pub times: Vec<u32>,
    /// For each of the numbers its index among the distinct ones.
    pub ranks: Vec<u32>,
}

/// The least number that is too great for a table of counts when `count` numbers are ranked.
fn table_limit(count: usize) -> u64
    ensures { result ≤ 2 ^ 17 }
{
    (count as u64 / 2).min(1 << 17)
}

/// Ranks numbers and counts how often each occurs: by a table of counts if the greatest number is small, else as `rank`
/// does.
pub fn rank_counted(alloc: Global, numbers: &[u64]) -> Result<Ranked, AllocError>
    requires { length numbers.now ≤ 2 ^ 24 }
    ensures { IfOk result (AreRanked numbers.now) }
{
    let greatest = greatest_of(numbers);
    if greatest < table_limit(numbers.len()) {
        return ranked_by_table(alloc, narrowed(alloc, numbers)?, greatest as usize + 1);
    }
    let Ranks { entries, ranks } = rank(alloc, numbers)?;
    with_times(alloc, entries, ranks)
}

/// The same for 32-bit numbers. By a table or a bitmap the ranks replace the numbers in place.
pub fn rank_narrow(alloc: Global, numbers: Vec<u32>) -> Result<Ranked, AllocError>
    requires { length numbers.items ≤ 2 ^ 24 }
    ensures { IfOk result (AreRanked numbers.items) }
{
    let greatest = greatest_narrow(&numbers);
    if u64::from(greatest) < table_limit(numbers.len()) {
        return ranked_by_table(alloc, numbers, greatest as usize + 1);
    }
    if u64::from(greatest) < bitmap_limit(numbers.len()) {
        let Ranks { entries, ranks } = ranks_by_marks(alloc, numbers, greatest as usize + 1)?;
        return with_times(alloc, entries, ranks);
    }
    let wide = widened(alloc, &numbers)?;
    drop(numbers);
    rank_counted(alloc, &wide)
}

/// The greatest of some 32-bit numbers; 0 for an empty list.
fn greatest_narrow(numbers: &[u32]) -> u32
    ensures { All (λ n. n ≤ result) numbers.now }
{
    let mut greatest = 0;
    for number in numbers {
        greatest = greatest.max(*number);
    }
    greatest
}
