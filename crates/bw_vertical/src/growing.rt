//! Appending planes.

ghost use Rattle.std.specs.Prelude.{[], IfOk, OnOk, length, slice_index, slice_index_or, vec_capacity, vec_len, ℕ, ◌*◌, ◌+◌, ◌/◌, ◌<◌, ◌^◌, ◌≡◌, ◌≤◌};
ghost use Rattle.bw_code.specs.Widths.{widest_code};
ghost use Rattle.bw_vertical.specs.Storage.{AreGroups, capacities, groups_of, lists, planes_in, room_of, word_of};

use crate::storage::planes_in;
use std::alloc::{AllocError, Global};

/// `count` groups without planes.
#[tactic(auto, using(crate::proofs::Growth::empty_more))]
pub(crate) fn empty_groups(alloc: Global, count: usize) -> Result<Vec<Vec<[u64; 4]>>, AllocError>
    ensures count { IfOk result (λ groups. vec_len groups ≡ count) }
    ensures empty { IfOk result (λ groups. (g : ℕ) → slice_index_or (lists groups.items) g [] ≡ []) }
{
    let mut groups = Vec::new(alloc);
    for _g in 0..count {
        groups.push(Vec::new(alloc))?;
    }
    Ok(groups)
}

/// Makes room for the planes of `more` further segments.
pub(crate) fn reserve_segments(
    groups: &mut Vec<Vec<[u64; 4]>>,
    k: usize,
    more: usize,
) -> Result<(), AllocError>
    requires narrow { k ≤ widest_code }
    requires few { more ≤ 2 ^ 16 }
    requires count { vec_len groups.old ≡ groups_of k }
    ensures count { vec_len groups.new ≡ vec_len groups.old }
    ensures same { lists groups.new.items ≡ lists groups.old.items }
    ensures capacities { (g : ℕ) → slice_index (capacities groups.old.items) g ≤ slice_index (capacities groups.new.items) g }
    ensures room { OnOk result ((g : ℕ) → 4 * g < k
        → length (slice_index_or (lists groups.old.items) g []) + more * planes_in k g ≤ slice_index (capacities groups.new.items) g) }
{
    for g in 0..groups.len() {
        let planes = more * planes_in(k, g);
        let group = &mut groups[g];
        group.reserve(planes)?;
    }
    Ok(())
}

/// Appends m planes, within the capacity. None of their rows is set.
fn push_planes(group: &mut Vec<[u64; 4]>, m: usize)
    requires small { m ≤ 2 ^ 18 }
    requires room { vec_len group.old + m ≤ vec_capacity group.old }
    ensures len { length group.new.items ≡ length group.old.items + m }
    ensures capacity { vec_capacity group.old ≤ vec_capacity group.new }
    ensures words { (a n : ℕ) → slice_index (slice_index_or group.new.items a []) n ≡ slice_index (slice_index_or group.old.items a []) n }
{
    let len = group.len();
    let Ok(()) = group.resize(len + m, [0; 4]) else {
        unreachable!()
    };
}

/// Appends segments, within the capacity. None of their rows is set.
pub(crate) fn push_segments(groups: &mut Vec<Vec<[u64; 4]>>, k: usize, more: usize)
    requires narrow { k ≤ widest_code }
    requires few { more ≤ 2 ^ 16 }
    requires count { vec_len groups.old ≡ groups_of k }
    requires room { (g : ℕ) → 4 * g < k → length (slice_index_or (lists groups.old.items) g []) + more * planes_in k g ≤ slice_index (capacities groups.old.items) g }
    ensures count { vec_len groups.new ≡ vec_len groups.old }
    ensures sizes { (g : ℕ) → 4 * g < k → length (slice_index_or (lists groups.new.items) g []) ≡ length (slice_index_or (lists groups.old.items) g []) + more * planes_in k g }
    ensures capacities { (g : ℕ) → slice_index (capacities groups.old.items) g ≤ slice_index (capacities groups.new.items) g }
    ensures words { (i w : ℕ) → word_of k (lists groups.new.items) i w ≡ word_of k (lists groups.old.items) i w }
{
    for g in 0..groups.len() {
        let planes = more * planes_in(k, g);
        let group = &mut groups[g];
        push_planes(group, planes);
    }
}

/// Appends a segment, within the room, if the row after the first `len` rows begins one. None of its rows is set.
pub(crate) fn begin_segment(groups: &mut Vec<Vec<[u64; 4]>>, k: usize, len: usize)
    requires planes { AreGroups k (lists groups.old.items) len }
    requires room { len < room_of k (capacities groups.old.items) }
    ensures count { vec_len groups.new ≡ vec_len groups.old }
    ensures sizes { (g : ℕ) → 4 * g < k → length (slice_index_or (lists groups.new.items) g []) ≡ (len / 256 + 1) * planes_in k g }
    ensures capacities { (g : ℕ) → slice_index (capacities groups.old.items) g ≤ slice_index (capacities groups.new.items) g }
    ensures words { (i w : ℕ) → word_of k (lists groups.new.items) i w ≡ word_of k (lists groups.old.items) i w }
{
    if len % 256 == 0 {
        push_segments(groups, k, 1);
    }
}
