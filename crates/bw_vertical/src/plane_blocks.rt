//! Segments as parts of blocks of planes.

ghost use Rattle.std.specs.Prelude.{[], length, slice_index, slice_index_or, vec_capacity, vec_len, ℕ, ◌*◌, ◌+◌, ◌-◌, ◌/◌, ◌<◌, ◌^◌, ◌≡◌, ◌≢◌, ◌≤◌, ◌⊎◌};
ghost use Rattle.bw_code.specs.Widths.{widest_code};
ghost use Rattle.bw_vertical.specs.Storage.{HasSegment, KeepsSizes, groups_of, lists, planes_in, word_of};

use bw_code::PlaneBlock;

/// A plane of a segment becomes words 4 s to 4 s + 3 of a plane of a block.
fn take_plane(plane: &[u64; 4], words: &mut [u64; 32], s: usize)
    requires part { s < 8 }
    ensures taken { (w : ℕ) → w < 4 → slice_index words.new (4 * s + w) ≡ slice_index plane.now w }
    ensures others { (w : ℕ) → w / 4 ≢ s → slice_index words.new w ≡ slice_index words.old w }
{
    words[4 * s..4 * s + 4].copy_from_slice(plane);
}

/// m adjacent planes of a group become words 4 s to 4 s + 3 of planes of a block, from plane `top` downwards.
fn take_part(
    group: &[[u64; 4]],
    from: usize,
    m: usize,
    block: &mut PlaneBlock,
    s: usize,
    top: usize,
)
    requires planes { from + m ≤ length group.now }
    requires top { m ≤ top + 1 }
    requires inside { top < 64 }
    requires part { s < 8 }
    ensures taken { (i w : ℕ) → i < m → w < 4 → slice_index (slice_index_or block.new (top - i) []) (4 * s + w) ≡ slice_index (slice_index_or group.now (from + i) []) w }
    ensures above { (b w : ℕ) → top < b → slice_index (slice_index_or block.new b []) w ≡ slice_index (slice_index_or block.old b []) w }
    ensures others { (b w : ℕ) → w / 4 ≢ s → slice_index (slice_index_or block.new b []) w ≡ slice_index (slice_index_or block.old b []) w }
{
    for i in 0..m {
        take_plane(&group[from + i], &mut block[top - i], s);
    }
}

/// The m planes of group g in segment q become words 4 s to 4 s + 3 of the planes of their bits.
fn take_group(
    groups: &[Vec<[u64; 4]>],
    k: usize,
    g: usize,
    m: usize,
    q: usize,
    block: &mut PlaneBlock,
    s: usize,
)
    requires narrow { k ≤ widest_code }
    requires small { q < 2 ^ 30 }
    requires count { length groups.now ≡ groups_of k }
    requires there { HasSegment k (lists groups.now) q }
    requires group { 4 * g < k }
    requires planes { m ≡ planes_in k g }
    requires part { s < 8 }
    ensures taken { (i w : ℕ) → i < k → i / 4 ≡ g → w < 4 → slice_index (slice_index_or block.new (k - 1 - i) []) (4 * s + w) ≡ word_of k (lists groups.now) i (4 * q + w) }
    ensures above { (b w : ℕ) → k - 1 - 4 * g < b → slice_index (slice_index_or block.new b []) w ≡ slice_index (slice_index_or block.old b []) w }
    ensures others { (b w : ℕ) → w / 4 ≢ s → slice_index (slice_index_or block.new b []) w ≡ slice_index (slice_index_or block.old b []) w }
{
    take_part(&groups[g], q * m, m, block, s, k - 1 - 4 * g);
}

/// Segment q becomes words 4 s to 4 s + 3 of the planes of a block. The planes from k on stay.
fn take_segment(groups: &[Vec<[u64; 4]>], k: usize, q: usize, block: &mut PlaneBlock, s: usize)
    requires narrow { k ≤ widest_code }
    requires small { q < 2 ^ 30 }
    requires count { length groups.now ≡ groups_of k }
    requires there { HasSegment k (lists groups.now) q }
    requires part { s < 8 }
    ensures taken { (i w : ℕ) → i < k → w < 4 → slice_index (slice_index_or block.new (k - 1 - i) []) (4 * s + w) ≡ word_of k (lists groups.now) i (4 * q + w) }
    ensures others { (b w : ℕ) → w / 4 ≢ s → slice_index (slice_index_or block.new b []) w ≡ slice_index (slice_index_or block.old b []) w }
    ensures rest { (b w : ℕ) → k ≤ b → slice_index (slice_index_or block.new b []) w ≡ slice_index (slice_index_or block.old b []) w }
{
    // Most groups have four planes, and are handled faster where their size is known.
    'whole: for g in 0..k / 4 {
        take_group(groups, k, g, 4, q, block, s);
    }
    'last: for g in k / 4..groups.len() {
        take_group(groups, k, g, k % 4, q, block, s);
    }
}

/// Words 4 s to 4 s + 3 of the first k planes of a block become 0.
fn clear_segment(block: &mut PlaneBlock, k: usize, s: usize)
    requires narrow { k ≤ widest_code }
    requires part { s < 8 }
    ensures cleared { (b w : ℕ) → b < k → w < 4 → slice_index (slice_index_or block.new b []) (4 * s + w) ≡ 0 }
    ensures others { (b w : ℕ) → w / 4 ≢ s → slice_index (slice_index_or block.new b []) w ≡ slice_index (slice_index_or block.old b []) w }
    ensures rest { (b w : ℕ) → k ≤ b → slice_index (slice_index_or block.new b []) w ≡ slice_index (slice_index_or block.old b []) w }
{
    for b in 0..k {
        take_plane(&[0; 4], &mut block[b], s);
    }
}

/// The eight segments from q on, of which `end` are there, become the planes of a block. Rows of segments that are not
/// there are 0.
pub(crate) fn take_block(
    groups: &[Vec<[u64; 4]>],
    k: usize,
    q: usize,
    end: usize,
    block: &mut PlaneBlock,
)
    requires narrow { k ≤ widest_code }
    requires small { end ≤ 2 ^ 30 }
    requires some { q < end }
    requires count { length groups.now ≡ groups_of k }
    requires sizes { (g : ℕ) → 4 * g < k → length (slice_index_or (lists groups.now) g []) ≡ end * planes_in k g }
    ensures { (i w : ℕ) → i < k → w < 32 → slice_index (slice_index_or block.new (k - 1 - i) []) w ≡ word_of k (lists groups.now) i (4 * q + w) }
{
    'segments: for s in 0..8 {
        if q + s < end {
            take_segment(groups, k, q + s, block, s);
        } else {
            clear_segment(block, k, s);
        }
    }
}

/// Words 4 s to 4 s + 3 of a plane of a block become a plane of a segment.
fn put_plane(plane: &mut [u64; 4], words: &[u64; 32], s: usize)
    requires part { s < 8 }
    ensures { (w : ℕ) → w < 4 → slice_index plane.new w ≡ slice_index words.now (4 * s + w) }
{
    plane.copy_from_slice(&words[4 * s..4 * s + 4]);
}

/// Words 4 s to 4 s + 3 of planes of a block, from plane `top` downwards, become m adjacent planes of a group.
fn put_part(
    group: &mut Vec<[u64; 4]>,
    from: usize,
    m: usize,
    block: &PlaneBlock,
    s: usize,
    top: usize,
)
    requires planes { from + m ≤ vec_len group.old }
    requires top { m ≤ top + 1 }
    requires inside { top < 64 }
    requires part { s < 8 }
    ensures len { vec_len group.new ≡ vec_len group.old }
    ensures capacity { vec_capacity group.new ≡ vec_capacity group.old }
    ensures put { (i w : ℕ) → i < m → w < 4 → slice_index (slice_index_or group.new.items (from + i) []) w ≡ slice_index (slice_index_or block.now (top - i) []) (4 * s + w) }
    ensures before { (b : ℕ) → b < from → slice_index_or group.new.items b [] ≡ slice_index_or group.old.items b [] }
    ensures behind { (b : ℕ) → from + m ≤ b → slice_index_or group.new.items b [] ≡ slice_index_or group.old.items b [] }
{
    for i in 0..m {
        put_plane(&mut group[from + i], &block[top - i], s);
    }
}

/// Words 4 s to 4 s + 3 of the planes of their bits become the m planes of group g in segment q.
fn put_group(
    groups: &mut Vec<Vec<[u64; 4]>>,
    k: usize,
    g: usize,
    m: usize,
    q: usize,
    block: &PlaneBlock,
    s: usize,
)
    requires narrow { k ≤ widest_code }
    requires small { q < 2 ^ 30 }
    requires count { vec_len groups.old ≡ groups_of k }
    requires there { HasSegment k (lists groups.old.items) q }
    requires group { 4 * g < k }
    requires planes { m ≡ planes_in k g }
    requires part { s < 8 }
    ensures sizes { KeepsSizes groups.new.items groups.old.items }
    ensures put { (i w : ℕ) → i < k → i / 4 ≡ g → w < 4 → word_of k (lists groups.new.items) i (4 * q + w) ≡ slice_index (slice_index_or block.now (k - 1 - i) []) (4 * s + w) }
    ensures other { (i v : ℕ) → i < k → (i / 4 ≢ g) ⊎ (v / 4 ≢ q) → word_of k (lists groups.new.items) i v ≡ word_of k (lists groups.old.items) i v }
{
    let group = &mut groups[g];
    put_part(group, q * m, m, block, s, k - 1 - 4 * g);
}

/// Words 4 s to 4 s + 3 of the planes of a block become segment q.
fn put_segment(groups: &mut Vec<Vec<[u64; 4]>>, k: usize, q: usize, block: &PlaneBlock, s: usize)
    requires narrow { k ≤ widest_code }
    requires small { q < 2 ^ 30 }
    requires count { vec_len groups.old ≡ groups_of k }
    requires there { HasSegment k (lists groups.old.items) q }
    requires part { s < 8 }
    ensures sizes { KeepsSizes groups.new.items groups.old.items }
    ensures put { (i w : ℕ) → i < k → w < 4 → word_of k (lists groups.new.items) i (4 * q + w) ≡ slice_index (slice_index_or block.now (k - 1 - i) []) (4 * s + w) }
    ensures other { (i v : ℕ) → i < k → v / 4 ≢ q → word_of k (lists groups.new.items) i v ≡ word_of k (lists groups.old.items) i v }
{
    'whole: for g in 0..k / 4 {
        put_group(groups, k, g, 4, q, block, s);
    }
    'last: for g in k / 4..groups.len() {
        put_group(groups, k, g, k % 4, q, block, s);
    }
}

/// The first `count` segments of a block, at most eight, become those from segment q on.
pub(crate) fn put_block(
    groups: &mut Vec<Vec<[u64; 4]>>,
    k: usize,
    q: usize,
    count: usize,
    block: &PlaneBlock,
)
    requires narrow { k ≤ widest_code }
    requires small { q + count ≤ 2 ^ 30 }
    requires few { count ≤ 8 }
    requires count { vec_len groups.old ≡ groups_of k }
    requires there { (s : ℕ) → s < count → HasSegment k (lists groups.old.items) (q + s) }
    ensures sizes { KeepsSizes groups.new.items groups.old.items }
    ensures put { (i w : ℕ) → i < k → w < 4 * count → word_of k (lists groups.new.items) i (4 * q + w) ≡ slice_index (slice_index_or block.now (k - 1 - i) []) w }
    ensures other { (i v : ℕ) → i < k → v < 4 * q → word_of k (lists groups.new.items) i v ≡ word_of k (lists groups.old.items) i v }
{
    'segments: for s in 0..count {
        put_segment(groups, k, q + s, block, s);
    }
}
