//! Looking up entries in a list of entries.

ghost use Rattle.std.specs.Prelude.{All, Contains, IfOk, IfSome, IsSome, Some, length, pos, slice_index_or, ℤ, ◌<◌, ◌↔◌, ◌≡◌, ◌≤◌, ◌≤ℤ◌};
ghost use Rattle.bw_code.specs.Ascending.{IsAscending};
ghost use Rattle.bw_code.specs.Encodings.{AreCodes, entry_code};
ghost use Rattle.bw_dictionary.specs.Finding.{AreBelow};
ghost use Rattle.bw_dictionary.specs.Merging.{AreStandingCodes, StandsIn};

use std::alloc::{AllocError, Global};

/// The indices of the wanted integers among the entries, if all of them are present.
pub fn find_entries(
    alloc: Global,
    entries: &[i64],
    wanted: &[i64],
) -> Result<Option<Vec<u64>>, AllocError>
    requires entries { IsAscending entries.now }
    requires wanted { IsAscending wanted.now }
    ensures all { IfOk result (λ found. IsSome found ↔ All (Contains entries.now) wanted.now) }
    ensures places { IfOk result (λ found. IfSome found (λ places. AreCodes (entry_code entries.now) wanted.now places.items)) }
{
    let mut places = Vec::with_capacity(alloc, wanted.len())?;
    let mut at = 0;
    'wanted: for i in 0..wanted.len() {
        let Some(place) = index_from(entries, at, wanted[i]) else {
            return Ok(None);
        };
        places.push_reserved(place as u64);
        at = place;
    }
    Ok(Some(places))
}

/// The index among the entries of each integer that is in use, and 0 for each other one, if all that are in use are
/// present.
pub fn find_standing(
    alloc: Global,
    entries: &[i64],
    wanted: &[i64],
    stands: &[bool],
) -> Result<Option<Vec<u64>>, AllocError>
    requires entries { IsAscending entries.now }
    requires wanted { IsAscending wanted.now }
    requires flags { length stands.now ≡ length wanted.now }
    ensures all { IfOk result (λ found. IsSome found ↔ ((x : ℤ) → StandsIn wanted.now stands.now x → Contains entries.now x)) }
    ensures places { IfOk result (λ found. IfSome found (λ places. AreStandingCodes (entry_code entries.now) wanted.now stands.now places.items)) }
{
    let mut places = Vec::with_capacity(alloc, wanted.len())?;
    let mut at = 0;
    'wanted: for i in 0..wanted.len() {
        if !stands[i] {
            places.push_reserved(0);
            continue;
        }
        let Some(place) = index_from(entries, at, wanted[i]) else {
            return Ok(None);
        };
        places.push_reserved(place as u64);
        at = place;
    }
    Ok(Some(places))
}

/// The index from `at` on of an integer among the entries, if it is present.
fn index_from(entries: &[i64], at: usize, x: i64) -> Option<usize>
    requires entries { IsAscending entries.now }
    requires inside { at ≤ length entries.now }
    requires before { AreBelow entries.now x at }
    ensures is { IsSome result ↔ Contains entries.now x }
    ensures code { IfSome result (λ index. entry_code entries.now x ≡ Some index) }
    ensures inside { IfSome result (λ index. index < length entries.now) }
    ensures before { IfSome result (AreBelow entries.now x) }
{
    let index = first_from(entries, at, x);
    if index == entries.len() || entries[index] != x {
        return None;
    }
    Some(index)
}

/// The first index from `at` on whose entry is not below an integer, by galloping (Bentley and Yao, 1976), since many
/// wanted integers are near each other: by steps that double, and then by bisection of the last step.
pub(crate) fn first_from(entries: &[i64], at: usize, x: i64) -> usize
    requires entries { IsAscending entries.now }
    requires inside { at ≤ length entries.now }
    requires before { AreBelow entries.now x at }
    ensures inside { result ≤ length entries.now }
    ensures before { AreBelow entries.now x result }
    ensures there { result < length entries.now → x ≤ℤ slice_index_or entries.now result (pos 0) }
{
    let mut low = at;
    let mut high = at;
    'gallop: while high < entries.len() && entries[high] < x {
        low = high + 1;
        high = (2 * high + 1 - at).min(entries.len());
    }
    'bisect: while low < high {
        let middle = low + (high - low) / 2;
        if entries[middle] < x {
            low = middle + 1;
        } else {
            high = middle;
        }
    }
    low
}
