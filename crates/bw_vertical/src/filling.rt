//! Writing one code to many rows, group by group.

ghost use Rattle.std.specs.Prelude.{[], if◌then◌else◌, slice_index_or, vec_capacity, vec_len, ℕ, ◌*◌, ◌+◌, ◌-◌, ◌<◌, ◌^◌, ◌≡◌, ◌≤◌};
ghost use Rattle.bw_mask.specs.Masks.{bit_of, len as mask_len, row_at, row_in};
ghost use Rattle.bw_vertical.specs.Storage.{AreGroups, KeepsSizes, is_set, lists};

use crate::blending::blend_lanes;
use crate::rows::lanes_at;
use crate::shifting::lanes_where;
use crate::storage::planes_in;
use bw_mask::Mask;

/// The m planes of 256 rows with this code, from that of bit `top` downwards.
fn planes_of(code: u64, top: usize, m: usize) -> [[u64; 4]; 4]
    requires few { m ≤ 4 }
    requires top { m ≤ top + 1 }
    requires narrow { top < 64 }
    ensures { (i j : ℕ) → i < m → j < 256 → row_in (slice_index_or result i []) j ≡ bit_of code (top - i) }
{
    let mut planes = [[0; 4]; 4];
    for i in 0..m {
        planes[i] = lanes_where(&[u64::MAX; 4], code, top - i);
    }
    planes
}

/// These rows of m adjacent planes become those of `bits`.
#[inline(always)]
fn fill_planes(
    group: &mut Vec<[u64; 4]>,
    from: usize,
    m: usize,
    bits: &[[u64; 4]; 4],
    rows: &[u64; 4],
)
    requires few { m ≤ 4 }
    requires planes { from + m ≤ vec_len group.old }
    ensures len { vec_len group.new ≡ vec_len group.old }
    ensures capacity { vec_capacity group.new ≡ vec_capacity group.old }
    ensures filled { (i j : ℕ) → i < m → j < 256 → row_in (slice_index_or group.new.items (from + i) []) j
        ≡ (if row_in rows.now j then row_in (slice_index_or bits.now i []) j else row_in (slice_index_or group.old.items (from + i) []) j) }
    ensures before { (b : ℕ) → b < from → slice_index_or group.new.items b [] ≡ slice_index_or group.old.items b [] }
    ensures behind { (b : ℕ) → from + m ≤ b → slice_index_or group.new.items b [] ≡ slice_index_or group.old.items b [] }
{
    for i in 0..m {
        let plane = &mut group[from + i];
        blend_lanes(plane, &bits[i], rows);
    }
}

/// These rows of the planes of a group become those of `bits`, in all segments, each of which has m planes. Rows are
/// given by the words of their mask.
#[inline(always)]
fn fill_segments(
    group: &mut Vec<[u64; 4]>,
    m: usize,
    segments: usize,
    bits: &[[u64; 4]; 4],
    rows: &[u64],
)
    requires small { segments ≤ 2 ^ 32 }
    requires few { m ≤ 4 }
    requires planes { segments * m ≤ vec_len group.old }
    ensures len { vec_len group.new ≡ vec_len group.old }
    ensures capacity { vec_capacity group.new ≡ vec_capacity group.old }
    ensures filled { (q i j : ℕ) → q < segments → i < m → j < 256 → row_in (slice_index_or group.new.items (q * m + i) []) j
        ≡ (if row_in rows.now (256 * q + j) then row_in (slice_index_or bits.now i []) j else row_in (slice_index_or group.old.items (q * m + i) []) j) }
    ensures behind { (b : ℕ) → segments * m ≤ b → slice_index_or group.new.items b [] ≡ slice_index_or group.old.items b [] }
{
    for q in 0..segments {
        let lanes = lanes_at(rows, q);
        fill_planes(group, q * m, m, bits, &lanes);
    }
}

/// The same; most groups have four planes, and are handled faster where their number is known.
fn fill_group(
    group: &mut Vec<[u64; 4]>,
    m: usize,
    segments: usize,
    bits: &[[u64; 4]; 4],
    rows: &[u64],
)
    requires small { segments ≤ 2 ^ 32 }
    requires few { m ≤ 4 }
    requires planes { segments * m ≤ vec_len group.old }
    ensures len { vec_len group.new ≡ vec_len group.old }
    ensures capacity { vec_capacity group.new ≡ vec_capacity group.old }
    ensures filled { (q i j : ℕ) → q < segments → i < m → j < 256 → row_in (slice_index_or group.new.items (q * m + i) []) j
        ≡ (if row_in rows.now (256 * q + j) then row_in (slice_index_or bits.now i []) j else row_in (slice_index_or group.old.items (q * m + i) []) j) }
    ensures behind { (b : ℕ) → segments * m ≤ b → slice_index_or group.new.items b [] ≡ slice_index_or group.old.items b [] }
{
    if m == 4 {
        fill_segments(group, 4, segments, bits, rows);
    } else {
        fill_segments(group, m, segments, bits, rows);
    }
}

/// The code of each of the rows becomes this one. Group by group, so that memory is gone through in order.
pub(crate) fn fill_codes(
    groups: &mut Vec<Vec<[u64; 4]>>,
    k: usize,
    len: usize,
    rows: &Mask,
    code: u64,
)
    requires planes { AreGroups k (lists groups.old.items) len }
    requires rows { mask_len rows.now ≡ len }
    ensures sizes { KeepsSizes groups.new.items groups.old.items }
    ensures codes { (i j : ℕ) → i < k → is_set k (lists groups.new.items) i j ≡ (if row_at rows.now j then bit_of code (k - 1 - i) else is_set k (lists groups.old.items) i j) }
{
    let words = rows.words();
    let segments = len.div_ceil(256);
    for g in 0..groups.len() {
        let m = planes_in(k, g);
        let bits = planes_of(code, k - 1 - 4 * g, m);
        let group = &mut groups[g];
        fill_group(group, m, segments, &bits, words);
    }
}
