//! Planes in groups of four, word by word.

ghost use Rattle.std.specs.Prelude.{[], bit_or, ◌^◌, length, slice_index, slice_index_or, vec_capacity, vec_len, ℕ, ◌*◌, ◌+◌, ◌-◌, ◌/◌, ◌%◌, ◌<◌, ◌≡◌, ◌≢◌, ◌≤◌, ◌⊎◌};
ghost use Rattle.bw_code.specs.Widths.{widest_code};
ghost use Rattle.bw_vertical.specs.Storage.{HasSegment, KeepsSizes, groups_of, lists, plane_at, planes_in, word_of};

/// How many planes group g has.
pub(crate) fn planes_in(k: usize, g: usize) -> usize
    requires group { 4 * g < k }
    requires narrow { k ≤ widest_code }
    ensures { result ≡ planes_in k g }
{
    (k - 4 * g).min(4)
}

/// Plane i of segment q.
pub(crate) fn plane_at(groups: &[Vec<[u64; 4]>], k: usize, q: usize, i: usize) -> &[u64; 4]
    requires plane { i < k }
    requires narrow { k ≤ widest_code }
    requires small { q < 2 ^ 32 }
    requires count { length groups.now ≡ groups_of k }
    requires there { HasSegment k (lists groups.now) q }
    ensures { result.now ≡ plane_at k (lists groups.now) q i }
{
    let m = planes_in(k, i / 4);
    let group = &groups[i / 4];
    &group[q * m + i % 4]
}

/// Word w of plane i.
pub(crate) fn word_at(groups: &[Vec<[u64; 4]>], k: usize, i: usize, w: usize) -> u64
    requires plane { i < k }
    requires narrow { k ≤ widest_code }
    requires small { w < 2 ^ 32 }
    requires count { length groups.now ≡ groups_of k }
    requires there { HasSegment k (lists groups.now) (w / 4) }
    ensures { result ≡ word_of k (lists groups.now) i w }
{
    plane_at(groups, k, w / 4, i)[w % 4]
}

/// Lane `lane` of the plane at this index becomes the word.
fn put_in_group(group: &mut Vec<[u64; 4]>, at: usize, lane: usize, word: u64)
    requires plane { at < vec_len group.old }
    requires lane { lane < 4 }
    ensures len { vec_len group.new ≡ vec_len group.old }
    ensures capacity { vec_capacity group.new ≡ vec_capacity group.old }
    ensures same { slice_index (slice_index_or group.new.items at []) lane ≡ word }
    ensures lanes { (n : ℕ) → n ≢ lane → slice_index (slice_index_or group.new.items at []) n ≡ slice_index (slice_index_or group.old.items at []) n }
    ensures planes { (b : ℕ) → b ≢ at → slice_index_or group.new.items b [] ≡ slice_index_or group.old.items b [] }
{
    let plane = &mut group[at];
    plane[lane] = word;
}

/// Word w of plane i becomes this word.
pub(crate) fn put_word(groups: &mut Vec<Vec<[u64; 4]>>, k: usize, i: usize, w: usize, word: u64)
    requires plane { i < k }
    requires narrow { k ≤ widest_code }
    requires small { w < 2 ^ 32 }
    requires count { vec_len groups.old ≡ groups_of k }
    requires there { HasSegment k (lists groups.old.items) (w / 4) }
    ensures sizes { KeepsSizes groups.new.items groups.old.items }
    ensures same { word_of k (lists groups.new.items) i w ≡ word }
    ensures other { (p v : ℕ) → p < k → (p ≢ i) ⊎ (v ≢ w) → word_of k (lists groups.new.items) p v ≡ word_of k (lists groups.old.items) p v }
{
    let m = planes_in(k, i / 4);
    let group = &mut groups[i / 4];
    put_in_group(group, w / 4 * m + i % 4, w % 4, word);
}

/// A lane of m adjacent planes is copied to the words from `top` downwards.
fn take_words(group: &[[u64; 4]], from: usize, m: usize, lane: usize, words: &mut [u64], top: usize)
    requires planes { from + m ≤ length group.now }
    requires lane { lane < 4 }
    requires top { m ≤ top + 1 }
    requires inside { top < length words.old }
    ensures long { length words.new ≡ length words.old }
    ensures taken { (i : ℕ) → i < m → slice_index words.new (top - i) ≡ slice_index (slice_index_or group.now (from + i) []) lane }
    ensures above { (b : ℕ) → top < b → slice_index words.new b ≡ slice_index words.old b }
{
    for i in 0..m {
        words[top - i] = group[from + i][lane];
    }
}

/// Word w of the m planes of group g: word b becomes that of the plane of bit b.
fn take_group(groups: &[Vec<[u64; 4]>], k: usize, g: usize, m: usize, w: usize, words: &mut [u64])
    requires narrow { k ≤ widest_code }
    requires small { w < 2 ^ 32 }
    requires count { length groups.now ≡ groups_of k }
    requires there { HasSegment k (lists groups.now) (w / 4) }
    requires group { 4 * g < k }
    requires planes { m ≡ planes_in k g }
    requires words { k ≤ length words.old }
    ensures long { length words.new ≡ length words.old }
    ensures taken { (i : ℕ) → i < k → i / 4 ≡ g → slice_index words.new (k - 1 - i) ≡ word_of k (lists groups.now) i w }
    ensures above { (b : ℕ) → k - 1 - 4 * g < b → slice_index words.new b ≡ slice_index words.old b }
{
    take_words(&groups[g], w / 4 * m, m, w % 4, words, k - 1 - 4 * g);
}

/// Word w of each plane: word b becomes that of the plane of bit b. The words from k on stay.
pub(crate) fn take_planes(groups: &[Vec<[u64; 4]>], k: usize, w: usize, words: &mut [u64])
    requires narrow { k ≤ widest_code }
    requires small { w < 2 ^ 32 }
    requires count { length groups.now ≡ groups_of k }
    requires there { HasSegment k (lists groups.now) (w / 4) }
    requires words { k ≤ length words.old }
    ensures long { length words.new ≡ length words.old }
    ensures planes { (i : ℕ) → i < k → slice_index words.new (k - 1 - i) ≡ word_of k (lists groups.now) i w }
    ensures rest { (b : ℕ) → k ≤ b → slice_index words.new b ≡ slice_index words.old b }
{
    // Most groups have four planes, and are handled faster where their size is known.
    'whole: for g in 0..k / 4 {
        take_group(groups, k, g, 4, w, words);
    }
    'last: for g in k / 4..groups.len() {
        take_group(groups, k, g, k % 4, w, words);
    }
}

/// Adds rows to a lane of m adjacent planes: those of the words from `top` downwards, shifted left.
fn add_to_group(
    group: &mut Vec<[u64; 4]>,
    from: usize,
    m: usize,
    lane: usize,
    words: &[u64],
    top: usize,
    up: usize,
)
    requires planes { from + m ≤ vec_len group.old }
    requires lane { lane < 4 }
    requires top { m ≤ top + 1 }
    requires inside { top < length words.now }
    requires up { up < 64 }
    ensures len { vec_len group.new ≡ vec_len group.old }
    ensures capacity { vec_capacity group.new ≡ vec_capacity group.old }
    ensures added { (i : ℕ) → i < m → slice_index (slice_index_or group.new.items (from + i) []) lane
        ≡ bit_or (slice_index (slice_index_or group.old.items (from + i) []) lane) (slice_index words.now (top - i) * 2 ^ up % 2 ^ 64) }
    ensures lanes { (b n : ℕ) → n ≢ lane → slice_index (slice_index_or group.new.items b []) n ≡ slice_index (slice_index_or group.old.items b []) n }
    ensures before { (b : ℕ) → b < from → slice_index_or group.new.items b [] ≡ slice_index_or group.old.items b [] }
    ensures behind { (b : ℕ) → from + m ≤ b → slice_index_or group.new.items b [] ≡ slice_index_or group.old.items b [] }
{
    for i in 0..m {
        let plane = &mut group[from + i];
        plane[lane] |= words[top - i] << up;
    }
}

/// Adds rows to word w of the m planes of group g: those of the word for the plane's bit, shifted left.
fn add_group(
    groups: &mut Vec<Vec<[u64; 4]>>,
    k: usize,
    g: usize,
    m: usize,
    w: usize,
    words: &[u64],
    up: usize,
)
    requires narrow { k ≤ widest_code }
    requires small { w < 2 ^ 32 }
    requires count { vec_len groups.old ≡ groups_of k }
    requires there { HasSegment k (lists groups.old.items) (w / 4) }
    requires up { up < 64 }
    requires group { 4 * g < k }
    requires planes { m ≡ planes_in k g }
    requires words { k ≤ length words.now }
    ensures sizes { KeepsSizes groups.new.items groups.old.items }
    ensures added { (i : ℕ) → i < k → i / 4 ≡ g → word_of k (lists groups.new.items) i w ≡ bit_or (word_of k (lists groups.old.items) i w) (slice_index words.now (k - 1 - i) * 2 ^ up % 2 ^ 64) }
    ensures other { (i v : ℕ) → i < k → (i / 4 ≢ g) ⊎ (v ≢ w) → word_of k (lists groups.new.items) i v ≡ word_of k (lists groups.old.items) i v }
{
    let group = &mut groups[g];
    add_to_group(group, w / 4 * m, m, w % 4, words, k - 1 - 4 * g, up);
}

/// Adds rows to word w of each plane: those of the word for the plane's bit, shifted left.
pub(crate) fn add_words(
    groups: &mut Vec<Vec<[u64; 4]>>,
    k: usize,
    w: usize,
    words: &[u64],
    up: usize,
)
    requires narrow { k ≤ widest_code }
    requires small { w < 2 ^ 32 }
    requires count { vec_len groups.old ≡ groups_of k }
    requires there { HasSegment k (lists groups.old.items) (w / 4) }
    requires up { up < 64 }
    requires words { k ≤ length words.now }
    ensures sizes { KeepsSizes groups.new.items groups.old.items }
    ensures added { (i : ℕ) → i < k → word_of k (lists groups.new.items) i w ≡ bit_or (word_of k (lists groups.old.items) i w) (slice_index words.now (k - 1 - i) * 2 ^ up % 2 ^ 64) }
    ensures other { (i v : ℕ) → i < k → v ≢ w → word_of k (lists groups.new.items) i v ≡ word_of k (lists groups.old.items) i v }
{
    'whole: for g in 0..k / 4 {
        add_group(groups, k, g, 4, w, words, up);
    }
    'last: for g in k / 4..groups.len() {
        add_group(groups, k, g, k % 4, w, words, up);
    }
}
