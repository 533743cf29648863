//! Overwriting some rows of a word of each plane, or of a segment of one plane.

ghost use Rattle.std.specs.Prelude.{[], if◌then◌else◌, length, slice_index, slice_index_or, vec_capacity, vec_len, ℕ, ◌*◌, ◌+◌, ◌-◌, ◌/◌, ◌%◌, ◌<◌, ◌^◌, ◌≡◌, ◌≢◌, ◌≤◌, ◌⊎◌};
ghost use Rattle.bw_mask.specs.Masks.{row_in};
ghost use Rattle.bw_code.specs.Widths.{widest_code};
ghost use Rattle.bw_vertical.specs.Storage.{HasSegment, KeepsSizes, blended, groups_of, is_set, lists, planes_in, word_of};

use crate::rows::{both, either, without};
use crate::storage::planes_in;

/// The chosen rows of a lane of m adjacent planes become those of the words from `top` downwards.
fn blend_in_group(
    group: &mut Vec<[u64; 4]>,
    from: usize,
    m: usize,
    lane: usize,
    words: &[u64],
    top: usize,
    rows: u64,
)
    requires planes { from + m ≤ vec_len group.old }
    requires lane { lane < 4 }
    requires top { m ≤ top + 1 }
    requires inside { top < length words.now }
    ensures len { vec_len group.new ≡ vec_len group.old }
    ensures capacity { vec_capacity group.new ≡ vec_capacity group.old }
    ensures put { (i : ℕ) → i < m → slice_index (slice_index_or group.new.items (from + i) []) lane
        ≡ blended rows (slice_index words.now (top - i)) (slice_index (slice_index_or group.old.items (from + i) []) lane) }
    ensures lanes { (b n : ℕ) → n ≢ lane → slice_index (slice_index_or group.new.items b []) n ≡ slice_index (slice_index_or group.old.items b []) n }
    ensures before { (b : ℕ) → b < from → slice_index_or group.new.items b [] ≡ slice_index_or group.old.items b [] }
    ensures behind { (b : ℕ) → from + m ≤ b → slice_index_or group.new.items b [] ≡ slice_index_or group.old.items b [] }
{
    for i in 0..m {
        let plane = &mut group[from + i];
        plane[lane] = plane[lane] & !rows | words[top - i] & rows;
    }
}

/// The chosen rows of word w of the m planes of group g become those of the word for the plane's bit.
fn blend_group(
    groups: &mut Vec<Vec<[u64; 4]>>,
    k: usize,
    g: usize,
    m: usize,
    w: usize,
    words: &[u64],
    rows: u64,
)
    requires narrow { k ≤ widest_code }
    requires small { w < 2 ^ 32 }
    requires count { vec_len groups.old ≡ groups_of k }
    requires there { HasSegment k (lists groups.old.items) (w / 4) }
    requires group { 4 * g < k }
    requires planes { m ≡ planes_in k g }
    requires words { k ≤ length words.now }
    ensures sizes { KeepsSizes groups.new.items groups.old.items }
    ensures put { (i : ℕ) → i < k → i / 4 ≡ g → word_of k (lists groups.new.items) i w ≡ blended rows (slice_index words.now (k - 1 - i)) (word_of k (lists groups.old.items) i w) }
    ensures other { (i v : ℕ) → i < k → (i / 4 ≢ g) ⊎ (v ≢ w) → word_of k (lists groups.new.items) i v ≡ word_of k (lists groups.old.items) i v }
{
    let group = &mut groups[g];
    blend_in_group(group, w / 4 * m, m, w % 4, words, k - 1 - 4 * g, rows);
}

/// The chosen rows of word w of each plane become those of the word for the plane's bit.
pub(crate) fn blend_words(
    groups: &mut Vec<Vec<[u64; 4]>>,
    k: usize,
    w: usize,
    words: &[u64],
    rows: u64,
)
    requires narrow { k ≤ widest_code }
    requires small { w < 2 ^ 32 }
    requires count { vec_len groups.old ≡ groups_of k }
    requires there { HasSegment k (lists groups.old.items) (w / 4) }
    requires words { k ≤ length words.now }
    ensures sizes { KeepsSizes groups.new.items groups.old.items }
    ensures put { (i : ℕ) → i < k → word_of k (lists groups.new.items) i w ≡ blended rows (slice_index words.now (k - 1 - i)) (word_of k (lists groups.old.items) i w) }
    ensures other { (i v : ℕ) → i < k → v ≢ w → word_of k (lists groups.new.items) i v ≡ word_of k (lists groups.old.items) i v }
{
    // Most groups have four planes, and are handled faster where their size is known.
    'whole: for g in 0..k / 4 {
        blend_group(groups, k, g, 4, w, words, rows);
    }
    'last: for g in k / 4..groups.len() {
        blend_group(groups, k, g, k % 4, w, words, rows);
    }
}

/// These rows of a plane become `bits`; the other rows stay.
#[inline(always)]
pub(crate) fn blend_lanes(plane: &mut [u64; 4], bits: &[u64; 4], rows: &[u64; 4])
    ensures { (j : ℕ) → j < 256 → row_in plane.new j ≡ (if row_in rows.now j then row_in bits.now j else row_in plane.old j) }
{
    *plane = either(&without(plane, rows), &both(bits, rows));
}

/// These rows of plane i of segment q become `bits`.
pub(crate) fn blend_plane(
    groups: &mut Vec<Vec<[u64; 4]>>,
    k: usize,
    q: usize,
    i: usize,
    bits: &[u64; 4],
    rows: &[u64; 4],
)
    requires plane { i < k }
    requires narrow { k ≤ widest_code }
    requires small { q < 2 ^ 32 }
    requires count { vec_len groups.old ≡ groups_of k }
    requires there { HasSegment k (lists groups.old.items) q }
    ensures sizes { KeepsSizes groups.new.items groups.old.items }
    ensures put { (j : ℕ) → j < 256 → is_set k (lists groups.new.items) i (256 * q + j)
        ≡ (if row_in rows.now j then row_in bits.now j else is_set k (lists groups.old.items) i (256 * q + j)) }
    ensures other { (p v : ℕ) → p < k → (p ≢ i) ⊎ (v / 4 ≢ q) → word_of k (lists groups.new.items) p v ≡ word_of k (lists groups.old.items) p v }
{
    let m = planes_in(k, i / 4);
    let group = &mut groups[i / 4];
    let plane = &mut group[q * m + i % 4];
    blend_lanes(plane, bits, rows);
}
