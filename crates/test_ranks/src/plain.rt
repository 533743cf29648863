//! The plain definition: numbers are sorted, repeated ones dropped, and each number is looked up and counted.

use crate::seen::{see, see_at};
use bw_rank::{Ranked, Ranks, rank, rank_counted, rank_narrow};
use std::alloc::{AllocError, Global};
use std::process::Abort;

/// The distinct ones of some numbers, ascending.
fn distinct(alloc: Global, numbers: &[u64]) -> Result<Vec<u64>, AllocError> {
    let mut entries = Vec::from_slice(alloc, numbers)?;
    entries.sort()?;
    entries.dedup();
    Ok(entries)
}

/// Checks that the rank of each of the numbers is its index among the entries.
fn check_ranks<R: Abort>(rt: &R, numbers: &[u64], entries: &[u64], ranks: &[u32]) {
    see(rt, ranks.len(), numbers.len());
    for (number, rank) in numbers.iter().zip(ranks) {
        see_at(
            rt,
            *number,
            Ok(*rank as usize),
            entries.binary_search(number),
        );
    }
}

/// Checks how often each entry occurs among the numbers.
fn check_times<R: Abort>(rt: &R, numbers: &[u64], entries: &[u64], times: &[u32]) {
    see(rt, times.len(), entries.len());
    for (entry, count) in entries.iter().zip(times) {
        let wanted = numbers.iter().filter(|number| **number == *entry).count();
        see_at(rt, *entry, *count as usize, wanted);
    }
}

/// Checks that these numbers are ranked and counted as by the plain definition.
pub(crate) fn check<R: Abort + AllocGlobal>(rt: &R, numbers: &[u64]) {
    assert!(rt; numbers.len() <= 1 << 24);
    let entries = distinct(rt.alloc(), numbers).expect(rt, "memory");
    let found = rank(rt.alloc(), numbers).expect(rt, "memory");
    check_rank(rt, numbers, &entries, found);
    let found = rank_counted(rt.alloc(), numbers).expect(rt, "memory");
    check_counted(rt, numbers, &entries, found);
    if let Some(narrow) = narrowed(rt.alloc(), numbers).expect(rt, "memory") {
        assert!(rt; narrow.len() <= 1 << 24);
        let found = rank_narrow(rt.alloc(), narrow).expect(rt, "memory");
        check_counted(rt, numbers, &entries, found);
    }
}

/// The same numbers in 32 bits each, where they fit.
fn narrowed(alloc: Global, numbers: &[u64]) -> Result<Option<Vec<u32>>, AllocError> {
    let mut narrow = Vec::with_capacity(alloc, numbers.len())?;
    for number in numbers {
        if *number > u64::from(u32::MAX) {
            return Ok(None);
        }
        narrow.push(*number as u32)?;
    }
    Ok(Some(narrow))
}

fn check_rank<R: Abort>(rt: &R, numbers: &[u64], entries: &[u64], found: Ranks) {
    see(rt, found.entries.as_slice(), entries);
    check_ranks(rt, numbers, entries, &found.ranks);
}

fn check_counted<R: Abort>(rt: &R, numbers: &[u64], entries: &[u64], found: Ranked) {
    see(rt, found.entries.as_slice(), entries);
    check_times(rt, numbers, entries, &found.times);
    check_ranks(rt, numbers, entries, &found.ranks);
}
