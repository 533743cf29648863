//! Exchanging the codes of some rows with those of other planes, in place.

ghost use Rattle.std.specs.Prelude.{[], if◌then◌else◌, length, slice_index_or, vec_capacity, vec_len, ℕ, ◌*◌, ◌+◌, ◌-◌, ◌/◌, ◌<◌, ◌^◌, ◌≡◌, ◌≤◌};
ghost use Rattle.bw_mask.specs.Masks.{len as mask_len, row_at, row_in};
ghost use Rattle.bw_vertical.specs.Storage.{AreGroups, KeepsSizes, is_set, lists};

use crate::rows::{both, differing, lanes_at};
use crate::storage::planes_in;
use bw_mask::Mask;

/// These rows of two planes are exchanged.
#[inline(always)]
fn exchange_lanes(plane: &mut [u64; 4], other: &mut [u64; 4], rows: &[u64; 4])
    ensures own { (j : ℕ) → j < 256 → row_in plane.new j ≡ (if row_in rows.now j then row_in other.old j else row_in plane.old j) }
    ensures others { (j : ℕ) → j < 256 → row_in other.new j ≡ (if row_in rows.now j then row_in plane.old j else row_in other.old j) }
{
    let difference = both(&differing(plane, other), rows);
    *plane = differing(plane, &difference);
    *other = differing(other, &difference);
}

/// These rows of m adjacent planes are exchanged with those of the planes at the same places of another group.
#[inline(always)]
fn exchange_planes(
    group: &mut Vec<[u64; 4]>,
    others: &mut Vec<[u64; 4]>,
    from: usize,
    m: usize,
    rows: &[u64; 4],
)
    requires planes { from + m ≤ vec_len group.old }
    requires other_planes { from + m ≤ vec_len others.old }
    ensures len { vec_len group.new ≡ vec_len group.old }
    ensures other_len { vec_len others.new ≡ vec_len others.old }
    ensures capacity { vec_capacity group.new ≡ vec_capacity group.old }
    ensures other_capacity { vec_capacity others.new ≡ vec_capacity others.old }
    ensures own { (i j : ℕ) → i < m → j < 256 → row_in (slice_index_or group.new.items (from + i) []) j
        ≡ (if row_in rows.now j then row_in (slice_index_or others.old.items (from + i) []) j else row_in (slice_index_or group.old.items (from + i) []) j) }
    ensures others { (i j : ℕ) → i < m → j < 256 → row_in (slice_index_or others.new.items (from + i) []) j
        ≡ (if row_in rows.now j then row_in (slice_index_or group.old.items (from + i) []) j else row_in (slice_index_or others.old.items (from + i) []) j) }
    ensures before { (b : ℕ) → b < from → slice_index_or group.new.items b [] ≡ slice_index_or group.old.items b [] }
    ensures other_before { (b : ℕ) → b < from → slice_index_or others.new.items b [] ≡ slice_index_or others.old.items b [] }
    ensures behind { (b : ℕ) → from + m ≤ b → slice_index_or group.new.items b [] ≡ slice_index_or group.old.items b [] }
    ensures other_behind { (b : ℕ) → from + m ≤ b → slice_index_or others.new.items b [] ≡ slice_index_or others.old.items b [] }
{
    for i in 0..m {
        let plane = &mut group[from + i];
        let other = &mut others[from + i];
        exchange_lanes(plane, other, rows);
    }
}

/// These rows of the planes of a group are exchanged with those of another group, in all segments, each of which has m
/// planes. Rows are given by the words of their mask.
#[inline(always)]
fn exchange_segments(
    group: &mut Vec<[u64; 4]>,
    others: &mut Vec<[u64; 4]>,
    m: usize,
    segments: usize,
    rows: &[u64],
)
    requires small { segments ≤ 2 ^ 32 }
    requires few { m ≤ 4 }
    requires planes { segments * m ≤ vec_len group.old }
    requires other_planes { segments * m ≤ vec_len others.old }
    ensures len { vec_len group.new ≡ vec_len group.old }
    ensures other_len { vec_len others.new ≡ vec_len others.old }
    ensures capacity { vec_capacity group.new ≡ vec_capacity group.old }
    ensures other_capacity { vec_capacity others.new ≡ vec_capacity others.old }
    ensures own { (q i j : ℕ) → q < segments → i < m → j < 256 → row_in (slice_index_or group.new.items (q * m + i) []) j
        ≡ (if row_in rows.now (256 * q + j) then row_in (slice_index_or others.old.items (q * m + i) []) j else row_in (slice_index_or group.old.items (q * m + i) []) j) }
    ensures others { (q i j : ℕ) → q < segments → i < m → j < 256 → row_in (slice_index_or others.new.items (q * m + i) []) j
        ≡ (if row_in rows.now (256 * q + j) then row_in (slice_index_or group.old.items (q * m + i) []) j else row_in (slice_index_or others.old.items (q * m + i) []) j) }
    ensures behind { (b : ℕ) → segments * m ≤ b → slice_index_or group.new.items b [] ≡ slice_index_or group.old.items b [] }
    ensures other_behind { (b : ℕ) → segments * m ≤ b → slice_index_or others.new.items b [] ≡ slice_index_or others.old.items b [] }
{
    for q in 0..segments {
        let lanes = lanes_at(rows, q);
        exchange_planes(group, others, q * m, m, &lanes);
    }
}

/// The codes of the rows and those of other planes are exchanged. Group by group, so that memory is gone through in
/// order.
pub(crate) fn exchange_codes(
    groups: &mut Vec<Vec<[u64; 4]>>,
    others: &mut Vec<Vec<[u64; 4]>>,
    k: usize,
    len: usize,
    rows: &Mask,
)
    requires planes { AreGroups k (lists groups.old.items) len }
    requires other_planes { AreGroups k (lists others.old.items) len }
    requires rows { mask_len rows.now ≡ len }
    ensures sizes { KeepsSizes groups.new.items groups.old.items }
    ensures other_sizes { KeepsSizes others.new.items others.old.items }
    ensures own { (i j : ℕ) → i < k → is_set k (lists groups.new.items) i j ≡ (if row_at rows.now j then is_set k (lists others.old.items) i j else is_set k (lists groups.old.items) i j) }
    ensures others { (i j : ℕ) → i < k → is_set k (lists others.new.items) i j ≡ (if row_at rows.now j then is_set k (lists groups.old.items) i j else is_set k (lists others.old.items) i j) }
{
    let words = rows.words();
    let segments = len.div_ceil(256);
    for g in 0..groups.len() {
        let m = planes_in(k, g);
        let group = &mut groups[g];
        let other = &mut others[g];
        exchange_segments(group, other, m, segments, words);
    }
}
